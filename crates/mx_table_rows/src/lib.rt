//! Rows of a table that are chosen by a column.
//!
//! - `chosen`: they are read and deleted.
//! - `totals`: totals, last bases, accomplishments, the cycles at which defects were found, and what is fitted are read,
//!   and changed in place.
#![tactic(auto)]

pub mod chosen;
pub mod totals;
