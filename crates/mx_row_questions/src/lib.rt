//! Questions by rows, each asked inside a transaction.
//!
//! - `lists`: the lists of an aircraft and of all, and the life of an item.
//! - `entries`: entries by their rows: the command of each, out of the rows of its own kind.
#![tactic(auto)]

pub mod entries;
pub mod lists;
