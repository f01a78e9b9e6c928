//! The words of the program `office`: they are read, what they ask for is performed, what that prints goes to the two
//! streams, and its ending gives the status. What performs it is handed in.
//!
//! Faults are looked for in this order, and the first ends the run: the words, and the shape of the commands that they
//! say; the file that is entered; the database; the run itself. What is printed is gathered first and written at the
//! end, with the line of the stop behind it (`print_done`).
//!
//! - `command_line`: the words and the values of each, as `clap` reads and explains them, and what they ask for.
//!
//! # What is promised
//!
//! - The status is up to 5; with 0 some words asked for help, or all was done and its text printed; with 1 the text of
//!   a refusal was printed; with 0 or 1 nothing is on standard error; with 2 nothing is on standard output, and with 3
//!   nothing, or the lines of a sector log with a bad row: `run_words`: `bound`, `done`, `refused`, `quiet`,
//!   `unprinted`, `unread`.
//! - What is done is what the words ask for; where they can't be read nothing is done, the status is 2 or more, and with 2
//!   the line that says so was printed: `answer_words`: `done`, `refused`, `unasked`, `unread_words`, `unread`.
#![tactic(auto)]

pub mod command_line;
pub mod run;

pub use run::{Perform, run_words};
