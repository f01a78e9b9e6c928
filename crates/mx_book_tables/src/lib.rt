//! The tables of a file as a book.
//!
//! - `stands`: what the tables of a file stand for at each point, which rows of a book stand in each, and what a command makes of
//!   them; a line of data for each table, and laws.
//! - `reading`: the rows of the tables of layout 2, read inside a transaction whatever they are.
#![tactic(auto)]

pub mod reading;
pub mod stands;
