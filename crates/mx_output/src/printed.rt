//! What each word prints: its lines, and how the word ends by them.
//!
//! # What is promised
//!
//! - A line is appended for each reply, or nothing where memory runs out; a run is told refused where one of its
//!   replies is: `print_replies`: `printed`, `unprinted`; `ending_of`.
//! - The text of a list, or the line of the refusal, is appended whole or not at all, and the ending says which:
//!   `append_report`, `append_refusal`: `printed`, `ending`, `unprinted`, `memory`.
//! - An import ends as its gravest row: bad, refused or done: `ending_of_rows`.
//! - The line of a point, and the line that says whether tables are those of a book, is appended whole or not at all:
//!   `print_point`, `print_answer`: `printed`, `ending`, `unprinted`, `memory`.

mod lists;
mod points;
mod replies;
mod rows;
mod verified;

pub use lists::{append_refusal, append_report};
pub use points::print_point;
pub use replies::{ending_of, print_replies};
pub use rows::ending_of_rows;
pub use verified::print_answer;
