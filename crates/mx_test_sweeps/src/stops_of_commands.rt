//! A list of commands over files, or the sector log that states them, and what each stop of it leaves: the tables of the book of the
//! commands that were answered, or of one more. Files of an older layout are moved as they are opened, and stopped in that too.

use crate::handing::Handing;
use crate::plain::{Plain, is_start, plain_run};
use crate::player::Player;
use crate::sweep::{End, Stops, all_entries};
use mx_book::commands::Command;
use mx_test_cases::{Disks, Unmade, Wrong, must};
use std::alloc::{AllocError, Global};

// Lines that an office answers by saying that it has to be opened again.
const CALLS: [&str; 9] = [
    "run",
    "first",
    "life D-ABCD",
    "due D-ABCD 2024-03-10",
    "limits D-ABCD 2024-03-10",
    "forecast D-ABCD 2024-03-10 30 120 1",
    "airframe D-ABCD",
    "entries 1 10",
    "verify",
];

/// What the plain book gives for the list of commands, over the office that the files hold.
pub(crate) fn plain_of<D: Disks>(alloc: Global, player: &mut Player<D>) -> Result<Plain, Wrong> {
    must(player.says("open", "opened")?, "files that are not opened")?;
    let entries = all_entries(player)?;
    player.stop(End::Process)?;
    Ok(plain_run(alloc, &entries, player.list())?)
}

// How many entries there are with the commands that were answered, and with the one in doubt, where there is one.
#[derive(Clone, Copy, PartialEq, Eq)]
pub(crate) struct Known {
    is_stopped: bool,
    answered: usize,
    in_doubt: usize,
}

// Whether a reply is to a command that was entered then.
fn is_accepted(reply: &str) -> bool {
    reply.starts_with("accepted ")
}

// How many commands were entered by these replies.
fn entered_by(replies: &[&str]) -> usize {
    let mut count = 0usize;
    for reply in replies {
        if is_accepted(reply) {
            count = count.saturating_add(1);
        }
    }
    count
}

// The parts of an answer.
fn parts<'a>(alloc: Global, text: &'a str) -> Result<Vec<&'a str>, AllocError> {
    text.split(" / ").collect(alloc)
}

// What is known after a run that was answered this. Its replies must be those of the plain book, and what stopped it is
// the store's.
fn known_after(alloc: Global, plain: &Plain, answer: &str) -> Result<Known, Wrong> {
    let wanted = parts(alloc, plain.replies.as_str())?;
    let mut replies = parts(alloc, answer)?;
    let is_stopped = answer.ends_with("fault store");
    if is_stopped {
        replies.pop();
    }
    must(
        wanted.starts_with(&replies),
        "replies that are not those of the plain book",
    )?;
    must(
        is_stopped || replies.len() == wanted.len(),
        "fewer replies than commands, and no fault",
    )?;
    let answered = plain.before.saturating_add(entered_by(&replies));
    let is_doubted = is_stopped
        && wanted
            .get(replies.len())
            .is_some_and(|next| is_accepted(next));
    Ok(Known {
        is_stopped,
        answered,
        in_doubt: if is_doubted {
            answered.saturating_add(1)
        } else {
            answered
        },
    })
}

// Every call answers that the office has to be opened again, and so does the desk.
fn needs_reopen<D: Disks>(player: &mut Player<D>) -> Result<bool, Unmade> {
    for call in CALLS {
        if !player.says(call, "fault reopen")? {
            return Ok(false);
        }
    }
    let served = player.line("get /aircraft/D-ABCD/life")?;
    Ok(served.ends_with(" / fault reopen") && player.says("needs-reopen", "yes")?)
}

// Each command that was kept is answered with its number.
fn knows_what_was_kept(first: &[&str], again: &[&str], kept: usize) -> bool {
    for (reply, repeated) in first.iter().zip(again.iter()) {
        if let Some(seq) = reply.strip_prefix("accepted ")
            && seq.parse::<usize>().is_ok_and(|seq| seq <= kept)
            && repeated.strip_prefix("already ") != Some(seq)
        {
            return false;
        }
    }
    true
}

/// Commands over files of which one stops.
#[derive(Drop)]
pub(crate) struct CommandStops<'a> {
    pub alloc: Global,
    /// What the plain book gives.
    pub plain: Plain,
    /// How the commands are handed in.
    pub handing: Handing,
    /// The file that stops.
    pub file: &'a str,
    /// How many pages the log holds.
    pub pages: &'a str,
}

impl<'a> CommandStops<'a> {
    // Every call, and what hands in the commands, answers that the office has to be opened again.
    fn is_left<D: Disks>(&self, player: &mut Player<D>) -> Result<bool, Wrong> {
        let again = self.handing.replies(self.alloc, player)?;
        Ok(again.as_str() == "fault reopen" && needs_reopen(player)?)
    }

    // Hands in the commands to the open office. Where a fault stops them, every call answers from then on that the office has
    // to be opened again.
    fn hand_in<D: Disks>(&self, player: &mut Player<D>) -> Result<Known, Wrong> {
        let answer = self.handing.replies(self.alloc, player)?;
        let known = known_after(self.alloc, &self.plain, answer.as_str())?;
        if known.is_stopped {
            must(
                self.is_left(player)?,
                "a call that is answered where the office has to be opened again",
            )?;
        } else {
            must(
                player.says("needs-reopen", "no")?,
                "an office that has to be opened again after no fault",
            )?;
        }
        Ok(known)
    }

    // Hands in the commands over files of which one stops.
    fn run_stopped<D: Disks>(&self, player: &mut Player<D>, calls: u64) -> Result<Known, Wrong> {
        let file = self.file;
        let pages = self.pages;
        let opening = format!(in self.alloc; "open {file} {calls} pages {pages}")?;
        let opened = player.line(opening.as_str())?;
        if opened.as_str() == "opened" {
            return self.hand_in(player);
        }
        must(
            opened.as_str() == "fault store",
            "a fault of an opening that is not the store's",
        )?;
        Ok(Known {
            is_stopped: true,
            answered: self.plain.before,
            in_doubt: self.plain.before,
        })
    }

    // The commands handed in again over the entries that were found are answered as the plain book answers them.
    fn is_answered_again<D: Disks>(
        &self,
        player: &mut Player<D>,
        found: &[Command],
        again: &str,
    ) -> Result<(), Wrong> {
        let wanted = plain_run(self.alloc, found, player.list())?;
        must(
            wanted.replies.as_str() == again,
            "other replies to the commands handed in again",
        )?;
        let first = parts(self.alloc, self.plain.replies.as_str())?;
        let again = parts(self.alloc, again)?;
        must(
            knows_what_was_kept(&first, &again, found.len()),
            "a command that was kept and is not known",
        )
    }

    // The entries that are found are those of the commands answered, or of one more.
    fn is_prefix(&self, known: Known, found: &[Command]) -> Result<(), Wrong> {
        let count = found.len();
        must(
            is_start(found, self.plain.book.as_slice()),
            "entries that are no first ones of the run without a stop",
        )?;
        must(
            count == known.answered || count == known.in_doubt,
            "neither the entries of the commands answered nor one more",
        )
    }

    // Opens what was left, hands the commands in again, and looks at the book before and after, and at the tables before.
    fn leaves_a_prefix<D: Disks>(&self, player: &mut Player<D>, known: Known) -> Result<(), Wrong> {
        must(
            player.says("open", "opened")?,
            "files that are not opened again",
        )?;
        let found = all_entries(player)?;
        self.is_prefix(known, &found)?;
        must(
            player.says("verify", "verified")?,
            "tables that are not those of a book",
        )?;
        let again = self.handing.replies(self.alloc, player)?;
        self.is_answered_again(player, &found, again.as_str())?;
        let wanted = self.plain.book.as_slice();
        let last = all_entries(player)?;
        must(
            last.len() == wanted.len() && is_start(&last, wanted),
            "another book at last than that of the run without a stop",
        )?;
        player.stop(End::Process)?;
        Ok(())
    }
}

impl<'a> Stops for CommandStops<'a> {
    type Known = Known;

    fn work<D: Disks>(&mut self, player: &mut Player<D>, calls: u64) -> Result<Known, Wrong> {
        player.line("restore")?;
        self.run_stopped(player, calls)
    }

    fn is_stopped(&self, known: Known) -> bool {
        known.is_stopped
    }

    fn look<D: Disks>(&mut self, player: &mut Player<D>, known: Known) -> Result<(), Wrong> {
        self.leaves_a_prefix(player, known)
    }

    fn verdict(&self) -> Result<&'static str, Wrong> {
        Ok("every stop leaves a prefix")
    }
}
