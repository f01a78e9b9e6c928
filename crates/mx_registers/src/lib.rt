//! The registers of a book: the rows that its entries give to each table, and the book that rows give. The definitions,
//! the row of each command, and the types that they speak of.
//!
//! - `plain`: the rows that a command adds behind the entries of a book in memory, and the command that rows say.
//! - `kept`: the rows that are computed from the registers and kept beside them, and what a command makes of each.
//! - `late`: the rows that layout 3 keeps, which a sector that is entered late changes, and what a command makes of each.
//! - `points`: which tables there are at each point of a move, which rows stand in them, and what a commit of it does.
//! - `file`: the rows of all tables of a file as one value, and when they are those of a book.
//!
//! # What is promised
//!
//! - The row of a command, of a position and of a task is the definition's, and fits its columns: `entry_row`,
//!   `aircraft_row`, `place_row`, `component_row`, `programme_row`, `task_row`, `opening_row`, `sector_row`,
//!   `fitting_row`, `removal_row`, `release_row`, `deferral_row`, `extension_row`: `row`, `fits`. So is that of a line of
//!   a release, by what it certifies: `done_row`, `rectified_row`.
//! - The rows of all positions and of all tasks are the definition's, each on its line: `lines::place_rows`,
//!   `lines::task_rows`.
//! - Registers are those of at most one book: `laws::registers_decide_the_book`.
#![tactic(auto)]

pub mod file;
pub mod kept;
pub mod late;
pub mod laws;
pub mod lines;
pub mod merge;
pub mod names;
pub mod plain;
pub mod points;
pub mod registers;

pub use lines::{done_row, rectified_row};
pub use mx_base::rows::{
    AircraftRow, BaseRow, ComponentRow, DeferralRow, EntryKind, EntryRow, ExtensionRow, FittingRow,
    OpeningRow, PlaceRow, ProgrammeRow, RegisterRows, ReleaseLineRow, ReleaseRow, RemovalRow,
    SectorRow, SpanRow, TaskRow, TotalRow,
};
pub use names::{added_item, or_zero};
pub use registers::{
    aircraft_row, component_row, deferral_row, entry_row, extension_row, fitting_row, opening_row,
    place_row, programme_row, release_row, removal_row, sector_row, task_row,
};
