//! The rows that a command adds, as a set of tables is written: those of some tables, and behind them those of the others.
ghost use Rattle.std.specs.Prelude.{◌≡◌};
ghost use Rattle.mx_apply.specs.writing.Pairs.{added_in_pairs};

use mx_base::rows::{
    AircraftRow, ComponentRow, DeferralRow, ExtensionRow, OpeningRow, PlaceRow, ProgrammeRow,
    ReleaseLineRow, ReleaseRow, Sector2Row, SpanRow, TaskRow, TotalRow,
};
use mx_row_rules::changes::AddedRows;

/// The rows of aircraft and of components.
pub(crate) type ItemPairs = ((Vec<AircraftRow>, Vec<PlaceRow>), Vec<ComponentRow>);

/// Those of programmes and of work before the records begin.
pub(crate) type TaskPairs = ((Vec<ProgrammeRow>, Vec<TaskRow>), Vec<OpeningRow>);

/// Those of releases and of defects.
pub(crate) type ReleasePairs = (
    (Vec<ReleaseRow>, Vec<ReleaseLineRow>),
    (Vec<DeferralRow>, Vec<ExtensionRow>),
);

/// What was flown, the spans and the totals.
pub(crate) type FlownPairs = (Vec<Sector2Row>, (Vec<SpanRow>, Vec<TotalRow>));

/// The rows in pairs, few deep, so that a row is written by few calls.
pub(crate) type AddedPairs = ((ItemPairs, TaskPairs), (ReleasePairs, FlownPairs));

/// The rows in pairs.
pub(crate) fn in_pairs(rows: AddedRows) -> AddedPairs
    ensures { added_in_pairs result ≡ rows }
{
    let AddedRows {
        aircraft,
        places,
        components,
        programmes,
        tasks,
        openings,
        releases,
        release_lines,
        deferrals,
        extensions,
        sectors,
        spans,
        totals,
    } = rows;
    let items = ((aircraft, places), components);
    let maintained = ((programmes, tasks), openings);
    let released = ((releases, release_lines), (deferrals, extensions));
    let flown = (sectors, (spans, totals));
    ((items, maintained), (released, flown))
}
