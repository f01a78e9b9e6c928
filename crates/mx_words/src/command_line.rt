//! What the words of the command line ask for: the words and the values of each, as `clap` reads and explains them,
//! what the values that it found say, and what is printed where they ask for help or are none.
//!
//! # What is promised
//!
//! - There are nineteen words, each with its values in their order, and each value has to be there: `command`,
//!   `new_word`, `value`: `rule`; `IsWord` of each word.
//! - What is asked for is what the values say that `clap` found: the file, the question, the documents and numbers in
//!   their ranges (one digit or more, below 2^32), the explanation; where one can't be read nothing is: `words_of`.
//! - The commands of a trial are the two that its words give; `BadShape` comes only where one of them lacks its shape:
//!   `trial_commands`: `made`, `shaped`, `shape`; `aircraft_of`, `sector_of`: `shape`.

mod command_line;
mod help;
mod trial;
mod usage;
mod words;

pub use command_line::command;
pub use trial::{Trial, trial_commands};
pub use usage::print_usage;
pub use words::{Words, words_of};
