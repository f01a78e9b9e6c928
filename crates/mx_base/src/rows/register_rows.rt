//! The rows of every register but that of the entries, and the same rows in pairs.
//!
//! What a command adds beside its entry and what is read of all registers are the same thirteen vectors, in the order
//! in which the tables are read and written. Tables are read and written in pairs, so two functions lead from the one
//! to the other, and the nesting of the pairs stands here and nowhere else. Were `RegisterRows` a set of tables itself,
//! its rows would be taken by value where they are written, and the laws of the pairs said again for it.
ghost use Rattle.std.specs.Prelude.{◌≡◌};
ghost use Rattle.mx_base.specs.rows.Pairs.{rows_in_pairs};

use crate::rows::rows::{
    AircraftRow, ComponentRow, DeferralRow, ExtensionRow, FittingRow, OpeningRow, PlaceRow,
    ProgrammeRow, ReleaseLineRow, ReleaseRow, RemovalRow, SectorRow, TaskRow,
};

/// Rows of every register but that of the entries: those that a command adds beside its entry, or all that are kept.
/// They stand in the order in which the tables are read and written.
#[derive(Drop)]
pub struct RegisterRows {
    pub aircraft: Vec<AircraftRow>,
    pub places: Vec<PlaceRow>,
    pub components: Vec<ComponentRow>,
    pub programmes: Vec<ProgrammeRow>,
    pub tasks: Vec<TaskRow>,
    pub openings: Vec<OpeningRow>,
    pub releases: Vec<ReleaseRow>,
    pub release_lines: Vec<ReleaseLineRow>,
    pub deferrals: Vec<DeferralRow>,
    pub extensions: Vec<ExtensionRow>,
    pub sectors: Vec<SectorRow>,
    pub fittings: Vec<FittingRow>,
    pub removals: Vec<RemovalRow>,
}

/// The last of the pairs: what was flown, and with what.
pub type FlownPairs = (Vec<SectorRow>, (Vec<FittingRow>, Vec<RemovalRow>));

/// Those from the deferrals on.
pub type DeferredPairs = (Vec<DeferralRow>, (Vec<ExtensionRow>, FlownPairs));

/// Those from the releases on.
pub type ReleasedPairs = (Vec<ReleaseRow>, (Vec<ReleaseLineRow>, DeferredPairs));

/// Those from the programmes on.
pub type MaintainedPairs = (
    Vec<ProgrammeRow>,
    (Vec<TaskRow>, (Vec<OpeningRow>, ReleasedPairs)),
);

/// The rows as a set of tables is read and written: those of one table, and behind them those of the others.
pub type RegisterPairs = (
    Vec<AircraftRow>,
    (Vec<PlaceRow>, (Vec<ComponentRow>, MaintainedPairs)),
);

impl RegisterRows {
    /// The rows that stand in these pairs.
    pub fn from_pairs(pairs: RegisterPairs) -> RegisterRows
        ensures { result ≡ rows_in_pairs pairs }
    {
        let (aircraft, (places, (components, maintained))) = pairs;
        let (programmes, (tasks, (openings, released))) = maintained;
        let (releases, (release_lines, deferred)) = released;
        let (deferrals, (extensions, flown)) = deferred;
        let (sectors, (fittings, removals)) = flown;
        RegisterRows {
            aircraft,
            places,
            components,
            programmes,
            tasks,
            openings,
            releases,
            release_lines,
            deferrals,
            extensions,
            sectors,
            fittings,
            removals,
        }
    }

    /// The same rows in pairs.
    pub fn into_pairs(self) -> RegisterPairs
        ensures { rows_in_pairs result ≡ self }
    {
        let flown = (self.sectors, (self.fittings, self.removals));
        let deferred = (self.deferrals, (self.extensions, flown));
        let released = (self.releases, (self.release_lines, deferred));
        let maintained = (self.programmes, (self.tasks, (self.openings, released)));
        (self.aircraft, (self.places, (self.components, maintained)))
    }
}
