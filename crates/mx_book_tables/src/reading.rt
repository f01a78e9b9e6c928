//! The rows of the tables of a file, read inside a transaction at layout 2, whatever they are: those of the registers
//! alone, for who makes of them what a layout keeps beside, those of every table but `office`, and whether the row of
//! that is the point's. Those of the registers also on the way to layout 3, where deferrals stand in two tables
//! (`deferrals`). And which table has the rows of an entry.
//!
//! # What is promised
//!
//! Over a database that has the tables of layout 2, then any others, with any indexes beside its own, whatever rows
//! they have; what is said of `register_rows` asks for the tables that it reads alone. What is said of a file is said
//! where the disk has returned what was written.
//!
//! - The rows of the registers and the spans are read alone, inside a transaction and over any schema that has their
//!   tables, whatever rows these have and whichever others there are. What is answered is exactly their rows, no total
//!   and no last base; a table is told damaged only where a row of it is none of its type; nothing is changed:
//!   `register_rows`: `reads`.
//! - So are they at each point of both moves behind the step that makes the spans, the deferrals from the tables that a
//!   file has of them at that point: `register_rows_at`: `reads`. A file there has these tables, and where they have the
//!   rows of a book, what is read is that book's, wherever its deferrals stand:
//!   `laws::registers_are_those_of_the_book`.
//! - So are the rows of every table but `office`, with the totals and last bases, over the tables of layout 2:
//!   `read_rows`: `looks` (`AreStored`).
//! - Whether the one row of `office` is that of the point is told likewise; `office` is told damaged where its row is
//!   none of a point: `is_at_point`: `looks` (`TellsPoint`).
//! - Of a kind of entry the table of its rows is answered, which is the one that is told damaged where the row of such
//!   an entry is: `table_of`.
//!
//! `mx_migrate::settle` reads the registers by it, and `mx_verify` all rows.

pub mod deferrals;
pub mod kinds;
pub mod laws;
pub mod point;
pub mod reading;

pub use kinds::table_of;
pub use point::is_at_point;
pub use reading::{read_rows, register_rows, register_rows_at};
