//! A commit that is in doubt: the office answers that the store failed and goes no further. Once the files are opened
//! again the command is accepted where it was not kept, and known where it was.

use crate::plain::{Plain, is_start};
use crate::player::Player;
use crate::sweep::{End, Stops, all_entries};
use mx_test_cases::{Disks, Wrong, must};
use std::alloc::Global;

/// What is known of a command that was handed in where the log stops.
#[derive(Clone, Copy, PartialEq, Eq)]
pub(crate) enum Handed {
    /// The office was not opened.
    NotOpened,
    /// The commit is in doubt: the store failed, and whether the office takes no further command.
    InDoubt { needs_reopen: bool },
    /// The command was accepted.
    Accepted,
}

/// The first command of the list, which is to be new, over files of which the log stops, and one end of the program.
#[derive(Drop)]
pub(crate) struct Doubts {
    pub alloc: Global,
    /// What the plain book gives.
    pub plain: Plain,
    pub end: End,
    /// How many commits in doubt were looked at that were not kept.
    pub lost: u64,
    /// How many that were kept.
    pub kept: u64,
}

impl Doubts {
    // What the plain book replies to the command.
    fn accepted(&self) -> &str {
        self.plain
            .replies
            .as_str()
            .split(" / ")
            .next()
            .unwrap_or("")
    }

    // Whether a reply says that the command is the entry that the plain book makes of it.
    fn is_known(&self, reply: &str) -> bool {
        match (
            reply.strip_prefix("already "),
            self.accepted().strip_prefix("accepted "),
        ) {
            (Some(seq), Some(wanted)) => seq == wanted,
            _ => false,
        }
    }

    // The command is handed in twice to the office that is opened again. Whether it had been kept: then it is known,
    // and else it is accepted now. Handed in again it is known at all events.
    fn was_known<D: Disks>(&self, player: &mut Player<D>) -> Result<bool, Wrong> {
        let first = player.line("first")?;
        let second = player.line("first")?;
        let was_known = self.is_known(first.as_str());
        must(
            was_known || first.as_str() == self.accepted(),
            "a command in doubt that is neither known nor accepted",
        )?;
        must(
            self.is_known(second.as_str()),
            "a command that is not known when it is handed in again",
        )?;
        Ok(was_known)
    }

    // There is one entry of the command, behind those before it.
    fn has_one_entry<D: Disks>(&self, player: &mut Player<D>) -> Result<(), Wrong> {
        let found = all_entries(player)?;
        must(
            found.len() == self.plain.before.saturating_add(1)
                && is_start(&found, self.plain.book.as_slice()),
            "other entries than those before the command and the command",
        )
    }

    // Opens the files again and hands the command in twice. Whether it had been kept.
    fn is_kept<D: Disks>(&self, player: &mut Player<D>) -> Result<bool, Wrong> {
        must(
            player.says("open", "opened")?,
            "files that are not opened again",
        )?;
        let is_kept = self.was_known(player)?;
        self.has_one_entry(player)?;
        player.stop(End::Process)?;
        Ok(is_kept)
    }

    // Counts a commit in doubt.
    fn count(&mut self, is_kept: bool) {
        if is_kept {
            self.kept = self.kept.saturating_add(1);
        } else {
            self.lost = self.lost.saturating_add(1);
        }
    }
}

impl Stops for Doubts {
    type Known = Handed;

    fn work<D: Disks>(&mut self, player: &mut Player<D>, calls: u64) -> Result<Handed, Wrong> {
        let opening = format!(in self.alloc; "open log {calls}")?;
        player.line("restore")?;
        if !player.says(opening.as_str(), "opened")? {
            return Ok(Handed::NotOpened);
        }
        let answered = player.line("first")?;
        if answered.as_str() == "fault store" {
            let needs_reopen = player.says("first", "fault reopen")?;
            return Ok(Handed::InDoubt { needs_reopen });
        }
        must(
            answered.as_str() == self.accepted(),
            "a command that is neither accepted nor in doubt",
        )?;
        Ok(Handed::Accepted)
    }

    fn is_stopped(&self, handed: Handed) -> bool {
        handed != Handed::Accepted
    }

    fn look<D: Disks>(&mut self, player: &mut Player<D>, handed: Handed) -> Result<(), Wrong> {
        if handed == Handed::NotOpened {
            return Ok(());
        }
        let is_kept = self.is_kept(player)?;
        if let Handed::InDoubt { needs_reopen } = handed {
            self.count(is_kept);
            return must(
                needs_reopen,
                "a command that is taken where the office has to be opened again",
            );
        }
        must(is_kept, "a command that was accepted and is not kept")
    }

    // A commit that was synced is kept by both ends, and one that was written and not synced by the process's.
    fn verdict(&self) -> Result<&'static str, Wrong> {
        must(self.lost > 0, "no commit in doubt that was lost")?;
        match self.end {
            End::Process => must(self.kept > 0, "no commit in doubt that was kept")?,
            End::Power => {}
        }
        Ok("every command in doubt is kept whole or not at all")
    }
}
