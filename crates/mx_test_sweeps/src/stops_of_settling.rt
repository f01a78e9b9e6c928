//! The move of a file, and what each stop of it leaves to the office that is opened again: a question is answered as behind the move
//! that nothing stopped, and the tables are those of a book.

use crate::player::Player;
use crate::settings::stopping;
use crate::sweep::{End, Stops};
use mx_test_cases::{AnswerText, Disks, Wrong, must};

/// A move of so many commits over files of which one stops.
#[derive(Drop)]
pub(crate) struct SettlingStops<'a> {
    /// How many commits are made, where nothing stops.
    pub commits: &'a str,
    /// The words of the question.
    pub question: &'a [&'a str],
    /// The file that stops.
    pub file: &'a str,
    /// How many pages the log holds.
    pub pages: &'a str,
    /// Where the move ends that nothing stops.
    pub point: String,
    /// What the question is answered behind it.
    pub wanted: String,
}

/// What an office that is opened is answered to a question; then its process ends.
pub(crate) fn asked_once<D: Disks>(player: &mut Player<D>, question: &[&str]) -> AnswerText {
    player.line("open")?;
    let answer = player.answer(question)?;
    player.stop(End::Process)?;
    Ok(answer)
}

impl<'a> Stops for SettlingStops<'a> {
    // Whether the store stopped the move.
    type Known = bool;

    fn work<D: Disks>(&mut self, player: &mut Player<D>, calls: u64) -> Result<bool, Wrong> {
        let setting = stopping(self.file, calls, self.pages)?;
        player.line("restore")?;
        let answer = player.ask(setting, &["step", "settle", self.commits])?;
        let is_stopped = answer.as_str() == "fault store";
        must(
            is_stopped || answer.as_str() == self.point.as_str(),
            "a move that ends elsewhere, and no fault of the store",
        )?;
        Ok(is_stopped)
    }

    fn is_stopped(&self, is_stopped: bool) -> bool {
        is_stopped
    }

    fn look<D: Disks>(&mut self, player: &mut Player<D>, _: bool) -> Result<(), Wrong> {
        must(
            player.says("open", "opened")?,
            "files that are not opened again",
        )?;
        let answer = player.answer(self.question)?;
        must(
            answer.as_str() == self.wanted.as_str(),
            "another answer than behind the move that nothing stopped",
        )?;
        must(
            player.says("verify", "verified")?,
            "tables that are not those of a book",
        )?;
        player.stop(End::Process)?;
        Ok(())
    }

    fn verdict(&self) -> Result<&'static str, Wrong> {
        Ok("every stop leaves what is answered so")
    }
}
