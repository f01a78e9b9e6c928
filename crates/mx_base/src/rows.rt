//! The row of each table as a type: what its columns hold, and what fits them.
//!
//! # What is promised
//!
//! - The rows of all registers but the entries, and the pairs in which they are read and written, are the same rows:
//!   `RegisterRows::from_pairs`, `RegisterRows::into_pairs`.

pub mod register_rows;
pub mod rows;

pub use register_rows::{RegisterPairs, RegisterRows};
pub use rows::{
    AircraftRow, BaseRow, ComponentRow, Deferral3Row, DeferralRow, DoneRow, EntryKind, EntryRow,
    ExtensionRow, FittingRow, OpeningRow, PlaceRow, ProgrammeRow, ReleaseLineRow, ReleaseRow,
    RemovalRow, Sector2Row, SectorRow, SpanRow, TaskRow, TotalRow,
};
