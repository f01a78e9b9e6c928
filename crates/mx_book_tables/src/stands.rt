//! What the tables of a file stand for, at each point: which tables there are, which rows of a book stand in each, and
//! what a command makes of them, with a line of data for each table.
//!
//! # What is promised
//!
//! These are laws, of each point; a layout is a point at which no move is under way.
//!
//! - Settled at a layout a file has the schema of that layout, and wherever a file can be it has the one that a file's
//!   statements have made, on the way to layout 3 too: `settled_schemas`, `points_have_the_schemas_of_files`.
//! - Wherever a table is there, its texts are understood in the schema: `tables_are_understood_there`.
//! - The schema at a point has the tables of the family that are there, and no other of the family:
//!   `schemas_have_the_tables`.
//! - New tables of a layout stand for the empty book: `new_tables_stand`.
//! - The tables at any point stand for at most one book, and at this point alone: `tables_decide_the_book`.
//! - The rows of tables that stand for a book are each of the type of their table: `rows_are_readable`.
//! - A new command makes of the rows of each table what the line of the table says, and so of those that stand in each
//!   table of a layout; to a register it brings its own behind these: `rows_become`.

pub mod laws;
