//! The plain program: the entries of a book are read anew for each answer, to the judge, to lists, and of each
//! list.
//!
//! # What is promised
//!
//! - The verdict is the definition's, on any book and any command, and takes no memory; each line of a release is
//!   judged by the book before it: `Plain::judge`.
//! - The plain book answers each question, and by its entries: `Plain`, the clauses of `Records`.
//! - Lives are the definition's, and `None` exactly for an unknown item; at most 1,540,000,000 minutes and 51,000,000
//!   cycles; a component is credited with the sectors flown while it was fitted: `Plain::life`, `Plain::life_now`:
//!   `life`, `bounded`.
//! - The open defects of an aircraft are the definition's: those that were deferred on it and not rectified, in the
//!   order of their entries: `Plain::open_defects`.
//! - The plain book answers each question of lists, and by its entries: `Plain`, the clauses of `ListRecords`.
//! - The base of a task of an item is the definition's: what an opening states, and of work that was done in each
//!   dimension the lesser of what was reached and what was due, by the programme in force when it was released; `None`
//!   exactly where the task was never accomplished: `base_of_item`; `laws::accomplished_has_a_base` of `mx_book`.
//! - When a task is due is the definition's, and no sum overflows; `None` where the item is unknown, no task of that
//!   name in force for the kind applies to it, or it is due no more: `due_of_item`.
//! - The list that a question asks for is the definition's, whichever it is, of an aircraft or of all: the life list, the
//!   due list, the forecast, the limits; what is due on all aircraft, what will be, their limits; all aircraft, all
//!   components; `None` exactly for an unknown registration: `list_of`.
#![tactic(auto)]

mod bases;
pub mod book_lists;
pub mod defects;
mod fitted;
pub mod lives;
pub mod plain;
mod plain_lists;
pub mod programmes;
pub mod register;
pub mod spans;

pub use plain::Plain;
