//! The rows of the tables of a file as one value, whatever they are: each table's put in the order of their keys, the
//! fittings and removals that its spans stand for, and when they are, as sets, those of a book.
//!
//! # What is promised
//!
//! - The rows of the tables of a file are put in the order of their keys, but the last bases; its fittings and removals
//!   become those that its spans stand for: `put_in_order`.
//! - The fittings and removals of spans are answered, and the spans that fittings and removals make, which are those of
//!   the book: `fittings_in`, `removals_in`, `spans_made`, `laws::spans_are_made`.

pub mod file_rows;
pub mod laws;
pub mod sorted;
pub mod spans;
pub mod tables;

pub use file_rows::FileRows;
pub use tables::put_in_order;
