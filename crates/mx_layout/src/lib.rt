//! The layouts of the database file: their tables, the point that a file is at, and making the tables of an empty book
//! in one commit.
//!
//! - `kept`: how the rows of each table are kept, and the law of that over every schema that has the table. What reads
//!   and adds rows cites these laws, so it stands in a crate above: neither code nor a definition may cite the lemmas
//!   of its own.
//!
//! # What is promised
//!
//! - `create` makes exactly the tables of the layout that it is given, 1, 2 or 3, with its settled point, in one
//!   commit: `create`: `made`, `crash`.
//! - Where a fault other than `Store` is answered nothing changed, and over a database with any table, index or view
//!   nothing ever does: `create`: `unchanged`, `kept`, `taken`.
//! - It answers `Exists` only where a table is named `office`, whatever its columns are, and `NotOurs` only where none
//!   is and the database is not empty; over an empty one neither: `create`: `faults`, `not_here`.
//! - The point is that of the one row, or the answer says why there is none; nothing changes: `point`, `point_in`:
//!   `reads`, `exact`, `unchanged`; `point`: `idle`; `point_in`: `stays`.
//! - Whatever the schema is, `office` with other columns or behind other tables among them, the point is the one row
//!   that its query showed; `NotOurs` is answered where the text was refused or did not show one row, or no table has
//!   the name: `point_in`: `answered`; `point`: `told`.
//! - The point of a database in which no table is named `office` is `NotOurs`, whatever else it holds, or the call
//!   stopped; inside a transaction, of one in which no view is named so either: `point`, `point_in`: `absent`.
//! - A statement that answers `Ok` ran in the open transaction, and whatever it answers, the last commit stands:
//!   `statement::execute`: `runs`, `stays`.
//! - An error is named want of memory exactly where it was: `fault_of`: `stop`, `memory`; `point_found`, `answered`:
//!   `stopped`.
#![tactic(auto)]

pub mod fault;
pub mod kept;
pub mod layout;
pub mod listed;
pub mod making;
pub mod reading;
pub mod statement;

pub use fault::{Table, TableFault};
pub use layout::Layout;
pub use making::create;
pub use reading::{point, point_in};
