//! Why a word of the program, or an answer, ends before its work is done, and the line that says so; how a word ends,
//! and its status.
//!
//! # What is promised
//!
//! - The line of a fault is the one that its number, entry or table gives: `write_fault`, `write_intake`,
//!   `write_damaged`.
//! - Each stop has its status and its line, and that line is the one that is printed, behind all that was done before
//!   it; where a stream takes less, the status is the greater of that and 4: `Stop::status`, `Stop::write`,
//!   `status_of`; `print_done`: `status`, `printed`, `reported`, `cut`, `quiet`.

pub mod ending;
mod lines;
mod printing;

pub use ending::{BAD_WORDS, Ending, STOPPED, Stop};
pub use lines::{write_damaged, write_fault, write_intake};
pub use printing::{Printed, print_done};
