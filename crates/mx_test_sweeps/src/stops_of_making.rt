//! The making of an empty book, and what each stop of it leaves in the files: nothing, or the whole of it.

use crate::player::Player;
use crate::sweep::{Stops, answers};
use mx_test_cases::{Disks, Wrong, must};
use std::alloc::Global;

// What is asked of the files: their point and tables, the making once more, and the entries then.
const LOOKS: [&str; 6] = [
    "point",
    "ask SELECT count(*) FROM sqlite_schema WHERE type = 'table'",
    "make",
    "open",
    "entries 1 4294967295",
    "end",
];

// What files answer that hold nothing: they can be made once more, and then hold the empty book.
const NOTHING: &str = "fault not-ours / 0 / ok / opened / none / ok";

// What files answer that hold the tables.
const WHOLE_BOOK: &str = "2 0 0 / 16 / fault exists / opened / none / ok";

/// The making of an empty book in new files, of which one stops.
#[derive(Clone, Copy)]
pub(crate) struct MakingStops<'a> {
    pub alloc: Global,
    /// The file that stops.
    pub file: &'a str,
}

impl<'a> Stops for MakingStops<'a> {
    // Whether the book was made.
    type Known = bool;

    fn work<D: Disks>(&mut self, player: &mut Player<D>, calls: u64) -> Result<bool, Wrong> {
        let file = self.file;
        let making = format!(in self.alloc; "make {file} {calls}")?;
        player.line("disk")?;
        let made = player.line(making.as_str())?;
        let is_made = made.as_str() == "ok";
        must(
            is_made || made.as_str() == "fault store",
            "a fault of a making that is not the store's",
        )?;
        Ok(is_made)
    }

    fn is_stopped(&self, is_made: bool) -> bool {
        !is_made
    }

    fn look<D: Disks>(&mut self, player: &mut Player<D>, is_made: bool) -> Result<(), Wrong> {
        let found = answers(self.alloc, player, &LOOKS)?;
        let is_whole = found.as_str() == WHOLE_BOOK;
        must(
            is_whole || found.as_str() == NOTHING,
            "files that are half made",
        )?;
        must(
            is_whole || !is_made,
            "no tables where the making was not stopped",
        )
    }

    fn verdict(&self) -> Result<&'static str, Wrong> {
        Ok("every stop leaves nothing or the whole")
    }
}
