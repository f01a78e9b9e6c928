//! The statements of the moves from one layout to the next, a function a statement. Each is made inside a
//! `Transaction`, which the caller commits or drops, and its contract says what it makes of the rows of every table, as
//! one function of the table's name: the rest of a step of a move is a law about rows, and no crate above this one
//! knows SQL.
//!
//! Statements that write rows (`WritesRows`) run in every schema that has their tables, whatever else it has. Those
//! that make and drop tables (`Alters`) lead from the schema of one place on the way to that of the next, over any
//! rows.
//!
//! - `steps`: what each step of a move makes of the tables, and that tables which stand for a book then stand for it.
//!   What makes a step cites these laws, so it stands in a crate above: neither code nor a definition may cite the
//!   lemmas of its own.
//! - `install`: a whole book made as a file of layout 1, with which a move begins.
//!
//! # What is promised
//!
//! What changes tables is said inside a transaction, of tables whose rowids rise; of the point and of deletions, in a
//! schema where no table refers to another.
//!
//! - The point is put in place of the one that was there, and no other table changes, in every schema that has
//!   `office`: `set_point`: `writes`.
//! - The first 64 sectors of `sector1` are read from its front; sectors are added to `sector2`, and those up to an
//!   entry deleted from `sector1`, and nothing else: `first_sectors`: `reads`; `insert_sectors`, `delete_sectors`:
//!   `writes`.
//! - The fittings and removals of a component are read and deleted, spans added, and nothing else: `fittings_of`,
//!   `removals_of`: `reads`; `insert_spans`, `delete_fittings`, `delete_removals`: `writes`.
//! - The first 64 deferrals of `defect` are read from its front; deferrals are added to `defect3`, and those up to an
//!   entry deleted from `defect`, and nothing else: `first_deferrals`: `reads`; `insert_deferrals`, `delete_deferrals`:
//!   `writes`.
//! - A total is added to `total2`, last bases to `base2`, and nothing else: `insert_total`, `insert_bases`: `writes`.
//! - Accomplishments are added to `done3`, the last bases of an item deleted from `base2`, and nothing else:
//!   `insert_accomplishments`, `delete_bases_of`: `writes`.
//! - A table is made with no row, or dropped, or an index made, and each other table keeps its rows, whatever they are:
//!   `create_sector2`, `drop_sector1`, `create_span2`, `index_span2`, `drop_fittings`, `create_total2`, `create_base2`,
//!   `index_registers`; of layout 3 `create_defect3`, `drop_defect`, `create_done3`, `drop_base2`, `index_layout3`:
//!   `alters`.
#![tactic(auto)]

pub mod install;
pub mod later_rows;
pub mod later_tables;
pub mod point;
mod prelude;
pub mod rows;
pub mod steps;
pub mod tables;
