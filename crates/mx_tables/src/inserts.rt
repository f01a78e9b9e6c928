//! Rows that are added to their table, and several tables at once: read, and rows added to each. Each call is made
//! inside a `Transaction`, which the caller commits or drops.
//!
//! # What is promised
//!
//! Where the disk has returned what was written and the schema has the table:
//!
//! - An insert that answers `Ok` adds the one row, and every other table is as it was; at every exit a crash has no new
//!   outcome before the commit, and the last commit stands: `Insert::insert`: `inserts` (`InsertsRow`).
//! - The same is so of several tables at once, a pair of a `Vec` and of the other tables, under clauses that do not
//!   grow with their number; so is what a reader of `mx_tables` answers, where a table that is damaged is one of those:
//!   `Tables::read`: `reads` (`damaged`, `there`); `Tables::write`: `writes`.
//!
//! One insert is proved for every type of rows; what a table adds is its impl of `Insert`. How a table is added stands
//! at the head of `mx_tables/src/lib.rt`: its impl stands beside that of `Stored`.

pub mod insert;
pub mod sets;
pub(crate) mod values;

pub use insert::Insert;
pub use sets::Tables;
