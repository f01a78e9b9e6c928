//! The rows of a command, by their tables. Most lists of a command are empty.

use mx_base::rows::{
    AircraftRow, BaseRow, ComponentRow, DeferralRow, EntryRow, ExtensionRow, OpeningRow, PlaceRow,
    ProgrammeRow, ReleaseLineRow, ReleaseRow, Sector2Row, SpanRow, TaskRow, TotalRow,
};

/// The rows that a command adds beside its entry.
#[derive(Drop)]
pub struct AddedRows {
    pub aircraft: Vec<AircraftRow>,
    pub places: Vec<PlaceRow>,
    pub components: Vec<ComponentRow>,
    pub programmes: Vec<ProgrammeRow>,
    pub tasks: Vec<TaskRow>,
    pub openings: Vec<OpeningRow>,
    pub releases: Vec<ReleaseRow>,
    pub release_lines: Vec<ReleaseLineRow>,
    pub deferrals: Vec<DeferralRow>,
    pub extensions: Vec<ExtensionRow>,
    pub sectors: Vec<Sector2Row>,
    /// The span that a fitting begins.
    pub spans: Vec<SpanRow>,
    /// The total of an item that is added.
    pub totals: Vec<TotalRow>,
}

/// The kept rows that a command changes, as they are behind it: each comes in place of the row with its key.
#[derive(Drop)]
pub struct ChangedRows {
    /// The span that a removal ends.
    pub spans: Vec<SpanRow>,
    /// The totals of the items to which it gives a sector or a moment.
    pub totals: Vec<TotalRow>,
    /// The last bases that it sets. A task of an item may have had none.
    pub bases: Vec<BaseRow>,
}

/// The rows of a command.
#[derive(Drop)]
pub struct CommandRows {
    pub entry: EntryRow,
    pub changed: ChangedRows,
    pub added: AddedRows,
}
