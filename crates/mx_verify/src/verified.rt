//! Whether rows are those of a book: the book that the registers give, beside maps, and the kept rows that it gives.
//!
//! # What is promised
//!
//! - The rows of the tables of a file, each table's in any order, are verified exactly where they are those of a book,
//!   whatever the rows are: its registers, with the fittings and removals in the spans, and the spans, totals and last
//!   bases that it gives: `verify_tables`: `exact`, `sound`.
//! - Memory aside, a row is told damaged exactly where the definition has it so, by the kind of its entry, of the rows
//!   in the order of their keys; no row of a book is: `verify_tables`: `damaged`, `undamaged`, `exact`.
//! - The same is so of rows that are in the order of their keys already, with the fittings and removals of their
//!   registers: `verify_rows`.
//! - It is told whether rows are, in any order, the last bases of a book: `are_bases`.
//!
//! What it takes stands in `docs/COST.md`, as a part of what `verify` takes.

pub mod bases;
pub mod same;
pub mod tables;
pub mod verified;

pub use tables::verify_tables;
pub use verified::{Unverified, verify_rows};
