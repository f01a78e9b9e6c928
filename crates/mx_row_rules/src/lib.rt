//! Rules over rows, which find and write none.
//!
//! - `found`: what rows that were found say of a book.
//! - `changes`: what a command makes of each table of layout 2.
#![tactic(auto)]

pub mod changes;
pub mod found;
