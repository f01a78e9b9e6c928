//! A player that bears want of memory, for runs in which requests for memory are refused: a line that a fault
//! stopped is played once more. Here it is also decided whether a line is a sweep.

use crate::player::Player;
use crate::sweep::all_entries;
use crate::sweep_lines::{answer_of_sweep, is_sweep};
use mx_test_cases::{Disks, Plays, answer_of, append_joined};
use std::alloc::{AllocError, Global};

/// The player, and whether lines are played once more.
pub(crate) struct Again<D> {
    pub alloc: Global,
    pub player: Player<D>,
    pub is_again: bool,
}

// Appends a part of the answer to a line that may have been done before it was played once more: what is known by
// now is what was accepted, and the tables that are there by now are those that were made.
fn append_as_first(out: &mut String, part: &str) -> Result<(), AllocError> {
    if part == "fault exists" {
        return append_joined(out, "ok");
    }
    match part.strip_prefix("already ") {
        Some(seq) => {
            append_joined(out, "accepted ")?;
            out.push_str(seq)
        }
        None => append_joined(out, part),
    }
}

fn as_first(alloc: Global, answer: &str) -> Result<String, AllocError> {
    let mut text = String::new(alloc);
    for part in answer.split(" / ") {
        append_as_first(&mut text, part)?;
    }
    Ok(text)
}

impl<D: Disks> Again<D> {
    // The answer to a line.
    fn play_once(&mut self, words: &[&str]) -> Result<String, AllocError> {
        let answer = if is_sweep(words) && !self.player.is_open() {
            answer_of_sweep(self.alloc, &self.player, words)
        } else {
            self.player.answer(words)
        };
        answer_of(self.alloc, answer)
    }

    // Whether the office has as many entries as a run that a fault stopped told, or one more where that was the store's.
    fn has_what_was_told(&mut self, told: &str) -> Result<bool, AllocError> {
        let mut last = None;
        for reply in told.split(" / ") {
            if let Some(seq) = reply.strip_prefix("accepted ") {
                last = seq.parse::<usize>().ok();
            }
        }
        let Some(last) = last else {
            return Ok(true);
        };
        let found = all_entries(&mut self.player).or(Err(AllocError))?.len();
        Ok(found == last || told.ends_with("fault store") && found == last.saturating_add(1))
    }

    // Plays a line that a fault stopped once more. Where the store failed, and for a list, of which a part may have
    // been accepted, what is known by now counts as accepted.
    fn play_again(&mut self, words: &[&str], first: &str) -> Result<String, AllocError> {
        self.player.open_again().or(Err(AllocError))?;
        if matches!(words, ["run"]) && !self.has_what_was_told(first)? {
            return String::from_str(self.alloc, "other entries than those that were told");
        }
        let answer = self.play_once(words)?;
        if first.ends_with("fault store") || matches!(words, ["run"]) {
            return as_first(self.alloc, answer.as_str());
        }
        Ok(answer)
    }
}

impl<D: Disks> Plays for Again<D> {
    fn play(&mut self, words: &[&str]) -> Result<String, AllocError> {
        let first = self.play_once(words)?;
        let is_stopped = first.ends_with("fault memory") || first.ends_with("fault store");
        if self.is_again && is_stopped {
            return self.play_again(words, first.as_str());
        }
        Ok(first)
    }
}
