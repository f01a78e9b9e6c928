//! What is said back, whoever asked.
//!
//! - `questions`: a question for a list of an aircraft or of all, the list that answers it, and its text.
//! - `sector_log`: the rows of a sector log: their commands, what each is told, and the lines that say so.
//! - `endings`: why a word or an answer ends before its work is done, the line that says so, and the status.
//! - `printed`: what each word prints, and how it ends by that.
//! - `explained`: what each number and each word behind `fault` means, and what to do about it.
#![tactic(auto)]

pub mod endings;
pub mod explained;
pub mod printed;
pub mod questions;
pub mod sector_log;
