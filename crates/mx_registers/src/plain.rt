//! The plain program of the registers: the rows that a command adds to each table behind the entries of a book in
//! memory, and the book that rows give.
//!
//! # What is promised
//!
//! - The row of a line of a release is the definition's, and fits its columns: `release_line_row`: `row`, `fits`.
//! - The rows that a command adds beside its entry are the definition's, and fit their columns: `added_rows`.
//! - The entry that added an aircraft, a component or either as an item, also that of a place, or that deferred a
//!   defect, is found by its name, and the name by the entry: `seq_of_tail`, `seq_of_serial`, `seq_of_item`,
//!   `seq_of_place`, `seq_of_defect`, `tail_of_aircraft`, `serial_of_component`, `item_of_entry`, `document_of_defect`.
//! - The command that an entry and the first rows of its kind say, with the rows behind them, and whether rows are left
//!   over are the definition's; memory is asked for only where the rows say something: `merge::next_command`: `found`,
//!   `memory`; `merge::are_all_taken`.

pub mod added;
pub mod merge;
pub mod names;
pub mod said;
pub mod taking;

pub use added::{added_rows, release_line_row};
pub use names::{
    document_of_defect, item_of_entry, seq_of_defect, seq_of_item, seq_of_place, seq_of_serial,
    seq_of_tail, serial_of_component, tail_of_aircraft,
};
