//! Judging a command by questions of any records that stand for a book.
//!
//! # What is promised
//!
//! - By any records that stand for a book, the verdict on a command is the definition's of that book, where the disk
//!   gave back what was written, or it is the fault of the question that was not answered: `verdict_on` (`Answers`).

mod facts;
pub mod judging;
pub mod judging_defects;
mod judging_fittings;
pub mod judging_items;
mod judging_programmes;
mod judging_releases;

pub use judging::verdict_on;
