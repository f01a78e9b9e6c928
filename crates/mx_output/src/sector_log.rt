//! The rows of a sector log: the commands that the good ones state, what each row is told, and the lines that say so.
//!
//! # What is promised
//!
//! - The commands of the good rows are handed on in their order, and each row is told its fault, or else its reply, up
//!   to the first good row that has none: `commands_of_rows`, `tell_rows`.
//! - A line for each row is appended, numbered from 1, or nothing where memory runs out: `report_text`: `printed`,
//!   `unchanged`.
//! - It is told whether a row is bad, or was refused: `has_bad`, `has_refused`.

pub mod report;
pub mod rows;
pub mod text;
pub mod told;

pub use report::RowReply;
pub use rows::{commands_of_rows, tell_rows};
pub use text::report_text;
pub use told::{has_bad, has_refused};
