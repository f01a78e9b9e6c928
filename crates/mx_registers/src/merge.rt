//! The rows that a book is made of again: those of every register, and those that no entry has taken yet.

use mx_base::rows::{
    AircraftRow, ComponentRow, DeferralRow, EntryRow, ExtensionRow, FittingRow, OpeningRow,
    PlaceRow, ProgrammeRow, RegisterRows, ReleaseLineRow, ReleaseRow, RemovalRow, SectorRow,
    TaskRow,
};

/// The rows of every register, each in the order of its key.
#[derive(Drop)]
pub struct Registers {
    pub entries: Vec<EntryRow>,
    pub rows: RegisterRows,
}

/// The rows that no entry has taken.
#[derive(Clone, Copy)]
pub struct Left<'a> {
    pub aircraft: &'a [AircraftRow],
    pub places: &'a [PlaceRow],
    pub components: &'a [ComponentRow],
    pub programmes: &'a [ProgrammeRow],
    pub tasks: &'a [TaskRow],
    pub openings: &'a [OpeningRow],
    pub releases: &'a [ReleaseRow],
    pub release_lines: &'a [ReleaseLineRow],
    pub deferrals: &'a [DeferralRow],
    pub extensions: &'a [ExtensionRow],
    pub sectors: &'a [SectorRow],
    pub fittings: &'a [FittingRow],
    pub removals: &'a [RemovalRow],
}
