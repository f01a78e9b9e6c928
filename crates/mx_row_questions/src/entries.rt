//! Entries by their rows, inside a transaction at the point at which rows are looked up: the command of each, out of
//! the rows of its own kind and the names of the things whose numbers these have, a removal out of the span that it
//! ended. `entries` of the office asks it; lines of `mx_test_office` list entries and compare them (`entries.cases`).
//! `Memory` is want of memory, `Store` an error of the store, and `Damaged` names a table that no book gives.
//!
//! # What is promised
//!
//! - Where the tables stand for a book, the entry with a number is that of the book, and those from a number on are its
//!   entries from there, at most so many: `entry`, `entries`: `reads` (`Reads`: `read`).
//! - Over any rows, a command is the one that the rows of its kind state that were chosen by its number, with the names
//!   of the things whose numbers they have, in its shape, whichever of the ten kinds it is; those of several entries
//!   are each that of its number, up to the last, and as many as that leaves: `entry`, `entries`: `any_rows`
//!   (`IsEntry`, `AreEntries`).
//! - No table is told damaged where the tables stand for a book: `Reads`: `no_book`; `Refuses`: `asked`.
//! - A table is told damaged where a look-up tells it, since a chosen row is none of its type; or where, of an entry of
//!   a kind that has this table, the rows state no command of its shape; and the entries, where a number up to the last
//!   has none: `Reads`: `damaged`; `Refuses`: `why` (`IsUnstated`, `IsSkipped`).
//! - Nothing changes, and the transaction goes on; a stop within leaves nothing but what was committed before: `Reads`:
//!   `unchanged`, `inside`, `within`.

pub mod entries;
mod kinds;
mod names;
mod releases;
mod stated;
