//! The book that the registers of a file give, beside maps, or why they give none; and beside maps too the totals of a
//! book, and of which tasks rows of last bases are.
//!
//! # What is promised
//!
//! - Registers give their book beside its maps, or what the definition says in its place: `merge_beside_maps`: `given`,
//!   `exact`, `sound`.
//! - Lives by moments and last bases of that book are those that it gives: `KeptBook::life`, `KeptBook::base`.
//! - The totals of a book are those that it gives: `total_rows`.

pub mod kept_book;
pub mod merged;
pub mod totals;

pub use kept_book::KeptBook;
pub use merged::{Merged, NoBook, merge_beside_maps};
pub use totals::total_rows;
