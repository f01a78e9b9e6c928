//! The import of a sector log into an office: the good rows are entered, each bad one is named, and nothing is entered
//! twice; and what is printed of it.
//!
//! # What is promised
//!
//! - Over a reader of known bytes each row of their definition is told its fault where it has one, else its reply, in
//!   order, up to the first good row behind a fault of the office; the good rows are one run of `Office::run`, with all
//!   that it says of an office, over the tables of a book and over any rows: `import`: `imported` (`told`, `good_rows`,
//!   `IsRun`).
//! - Whatever stops an import, a crash leaves the tables of the book after the good rows that were answered, or with
//!   the next one: `import`: `imported` (`IsRun`: `over_book`).
//! - A fault of the whole text, or of reading it, enters nothing and touches no table; it is the definition's, want of
//!   memory and failing reads aside: `import`: `fault`, `unread`, `takes`.
//! - After a fault of the store the office has to be opened again, and goes on after any other: `import`: `imported`
//!   (`IsRun`: `doubt`).
//! - A sector log appends a line for each row that is told, and ends as its gravest row: bad, refused or done; over a
//!   reader of known bytes these are its rows; where a fault stops it, the lines of the rows before it are there; a log
//!   that is faulty as a whole is told by its fault; and where memory ran out for the lines (`Print`), the sectors of the
//!   good rows were handed in all the same, and nothing else was: `import_all`: `ended`, `stopped`, `unread`, `fault`,
//!   `ran`, `status`.

pub mod importing;
mod printing;
pub mod report;

pub use importing::{import, import_text};
pub use printing::import_all;
pub use report::ImportReport;
