//! Whether the tables of a file stand for a book, whatever rows they have: inside a transaction the row of `office` and
//! every other table of layout 2 are read, and compared with what the book gives that the registers say. `verify` does
//! it in a transaction of its own, and looks at the tables that the file lists as well.
//!
//! - `merged`: the book that the registers of a file give, or why they give none.
//! - `derived`: the totals and the last bases that this book gives, made of the registers.
//! - `verified`: whether rows are those of a book.
//!
//! # What is promised
//!
//! Over a database that has the tables of layout 2, then any others, with any indexes beside its own, whatever rows
//! they have. What is said of a file is said where the disk has returned what was written.
//!
//! - At `Ok` the answer is true exactly where the tables are those of the layout alone and have the rows of a book, the
//!   row of `office` among them; where they have, the answer is true, or memory or the store stopped the call:
//!   `verify`: `tells` (`exact`, `whole`).
//! - Tables that stand for a book are among these: such a file is verified: `laws::standing_tables_are_verified`.
//! - Registers are damaged exactly where an entry is to blame: those before it give a book with their rows, and its own
//!   say no command, though there is one of its kind, or a command that is not new behind that book:
//!   `laws::damaged_registers_have_an_entry_to_blame` (`HasBlame`).
//! - A table is told damaged only where a row of it is none of its type, or the row of an entry of its kind is damaged,
//!   as `mx_verify::merged` has it; where there is an answer, true or false, no row is, but where `office` has not
//!   exactly one: `verify`: `tells` (`damaged`, `undamaged`).
//! - Where a table of the layout is missing, as `sqlite` looks up its name, the answer is `Store`, whatever else the
//!   database has: `verify`: `missing`.
//! - Any other fault is want of memory, or a table of the layout: `verify`, `verify_in`: `cause`.
//! - Nothing is changed, at any answer: `verify`: `unchanged`, `idle`.
//! - The same is so of the rows inside a transaction, where other tables are not looked at; it stays open, and a crash
//!   has no new outcome: `verify_in`: `verifies` (`tells`, `unchanged`, `inside`, `within`).
//!
//! With a view in the database no law of a text is stated, so that these clauses do not speak of it: lines of
//! `mx_test_office` show that it is answered as without it. The word `verify` asks it, by `mx_office`. What it takes
//! stands in `docs/COST.md`.
#![tactic(auto)]

pub mod derived;
pub mod laws;
mod listed;
pub mod merged;
pub mod told;
pub mod verified;
pub mod verifying;

pub use verifying::{verify, verify_in};
