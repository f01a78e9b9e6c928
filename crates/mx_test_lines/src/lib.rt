//! Lines over the rows of any database, whatever they are.
//!
//! - `database`: what a database answers to any line of these, to `make` and `point`, and to a statement.
//! - `rows`: commands judged and handed in, lists, entries, and whether the tables stand for a book.
//! - `lookups`: what is looked up in tables of the layout behind the newest.
//! - `moves`: the steps of a move from one layout to the next, and the file that a move begins with.
#![tactic(auto)]

pub mod database;
pub mod lookups;
pub mod moves;
pub mod rows;
