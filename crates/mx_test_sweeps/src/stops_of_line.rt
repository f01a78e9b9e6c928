//! A line over files, and what each stop of it leaves in their tables: the rows from before, or those behind the line; of a line of
//! several commits also rows between these, from which the line played again goes on.
//!
//! A sweep of one line begins behind the calls that open the file. To open it is to read it, some 250 calls where its
//! log is long, of which the sweeps of a list of commands stop each; and each costs four openings more.

use crate::player::Player;
use crate::settings::stopping;
use crate::sweep::Stops;
use mx_test_cases::{Disks, Setting, Unmade, Wrong, must};

// What a line that the store stopped is answered.
const STOPPED: &str = "fault store";

// The binary digits of a number of calls.
const STEPS: [u64; 13] = [4096, 2048, 1024, 512, 256, 128, 64, 32, 16, 8, 4, 2, 1];

// What shows all rows of all tables.
const ALL_ROWS: &str = "tables";

/// What is answered to a line, and all rows before it and behind it.
#[derive(Drop)]
pub(crate) struct Around {
    before: String,
    answer: String,
    after: String,
}

/// Plays a line, and asks for all rows before it and behind it.
pub(crate) fn seen_around<D: Disks>(
    player: &mut Player<D>,
    words: &[&str],
) -> Result<Around, Unmade> {
    let before = player.line(ALL_ROWS)?;
    let answer = player.answer(words)?;
    let after = player.line(ALL_ROWS)?;
    Ok(Around {
        before,
        answer,
        after,
    })
}

// Whether the database is opened where a file stops after so many calls: it is told at which point it is.
fn opens<D: Disks>(
    player: &mut Player<D>,
    (file, pages): (&str, &str),
    calls: u64,
) -> Result<bool, Unmade> {
    let setting = stopping(file, calls, pages)?;
    let point = player.ask(setting, &["point"])?;
    Ok(point.as_str() != STOPPED)
}

/// How many calls of a file it takes to open the database: with so many it is opened, and with fewer it is not. The number is
/// found by its binary digits, the greatest first.
pub(crate) fn calls_of_opening<D: Disks>(
    player: &mut Player<D>,
    file: &str,
    pages: &str,
) -> Result<u64, Unmade> {
    let mut calls = 0u64;
    for step in STEPS {
        let more = calls.saturating_add(step);
        if !opens(player, (file, pages), more.saturating_sub(1))? {
            calls = more;
        }
    }
    Ok(calls)
}

/// A line over files of which one stops, at each of its calls but those that open the database.
#[derive(Drop)]
pub(crate) struct LineStops<'a> {
    /// The words of the line.
    pub words: &'a [&'a str],
    /// The file that stops.
    pub file: &'a str,
    /// How many pages the log holds.
    pub pages: &'a str,
    /// How many calls of the file it takes to open the database.
    pub opening: u64,
    /// What is seen where no file stops.
    pub whole: Around,
    /// Whether the line makes one commit at most.
    pub is_one_commit: bool,
    /// How many stops were looked at that left the rows from before.
    pub undone: u64,
    /// How many that left rows between these and those behind the line.
    pub between: u64,
    /// How many that left the rows behind the line.
    pub done: u64,
}

impl<'a> LineStops<'a> {
    // Counts a stop by the rows that it left.
    fn count(&mut self, found: &str) -> Result<(), Wrong> {
        if found == self.whole.before.as_str() {
            self.undone = self.undone.saturating_add(1);
            return Ok(());
        }
        if found == self.whole.after.as_str() {
            self.done = self.done.saturating_add(1);
            return Ok(());
        }
        self.between = self.between.saturating_add(1);
        must(
            !self.is_one_commit,
            "rows that are neither those from before nor those behind the line",
        )
    }

    // The line is played again, over files that don't stop: it is answered as where nothing stopped, and leaves the same.
    fn is_made_good<D: Disks>(&self, player: &mut Player<D>) -> Result<(), Wrong> {
        let answer = player.ask(Setting::WHOLE, self.words)?;
        must(
            answer.as_str() == self.whole.answer.as_str(),
            "another answer to the line that is played again",
        )?;
        self.has_all(player, "other rows where the line is played again")
    }

    // The rows are those behind the line.
    fn has_all<D: Disks>(
        &self,
        player: &mut Player<D>,
        otherwise: &'static str,
    ) -> Result<(), Wrong> {
        must(player.says(ALL_ROWS, self.whole.after.as_str())?, otherwise)
    }

    // What a stop left is looked at, and then the line is played again where that is not all that is behind the line.
    fn leaves_rows<D: Disks>(&mut self, player: &mut Player<D>) -> Result<(), Wrong> {
        let found = player.line(ALL_ROWS)?;
        self.count(found.as_str())?;
        if found.as_str() != self.whole.after.as_str() {
            self.is_made_good(player)?;
        }
        Ok(())
    }
}

impl<'a> Stops for LineStops<'a> {
    // Whether the store stopped the line.
    type Known = bool;

    fn work<D: Disks>(&mut self, player: &mut Player<D>, calls: u64) -> Result<bool, Wrong> {
        let setting = stopping(self.file, self.opening.saturating_add(calls), self.pages)?;
        player.line("restore")?;
        let answer = player.ask(setting, self.words)?;
        let is_stopped = answer.as_str() == STOPPED;
        must(
            is_stopped || answer.as_str() == self.whole.answer.as_str(),
            "another answer than where nothing stopped, and no fault of the store",
        )?;
        Ok(is_stopped)
    }

    fn is_stopped(&self, is_stopped: bool) -> bool {
        is_stopped
    }

    fn look<D: Disks>(&mut self, player: &mut Player<D>, is_stopped: bool) -> Result<(), Wrong> {
        if is_stopped {
            self.leaves_rows(player)
        } else {
            self.has_all(player, "rows that are lost of a line that was done")
        }
    }

    fn verdict(&self) -> Result<&'static str, Wrong> {
        must(self.undone > 0, "no stop that left all as before")?;
        if self.between > 0 {
            Ok("some stops leave all as before, some a part, and each is gone on from")
        } else if self.done > 0 {
            Ok("some stops leave all as before, the others all as behind")
        } else {
            Ok("every stop leaves all as before")
        }
    }
}
