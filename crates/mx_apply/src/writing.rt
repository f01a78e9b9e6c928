//! The writing half of a command at layout 2: one implementation for all kinds of command. The commit is its caller's,
//! who says of it in the words of this part (`IsWritten`, `MayWrite`) what it makes of the file.
//!
//! # What is promised
//!
//! Over any rows is said of the tables of a file that is settled at layout 2, whose rowids rise, whatever tables and
//! indexes there are behind them, if no table refers to another (`IsSettled`).
//!
//! - What the rows of a command make of those that a book gives each table is what the book with the command gives it,
//!   whichever of the ten commands it is: `laws::commands_enter`, with a line for each table, and one for all that only
//!   gain rows.
//! - Over any rows, each table has its rows from before with those of the command, added or in place of those with
//!   their keys, and so the same rows where the command has none for it: `write_rows`: `writes` (`with_rows`).
//! - The rows are made before the first statement, so that no statement needs memory of this program; whatever stops a
//!   statement is `Store`: `write_rows`: `cause`.

pub mod laws;
mod pairs;
mod replacing;
pub mod writing;

pub use writing::write_rows;
