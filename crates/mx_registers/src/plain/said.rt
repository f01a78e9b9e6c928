//! What rows say.
ghost use Rattle.std.specs.Prelude.{◌≡◌};
ghost use Rattle.mx_book.specs.commands.Act.{act_of};
ghost use Rattle.mx_registers.specs.Merge.{aircraft_said, applies_said, component_said, deferral_said, extension_said, fitting_said, limit_said, line_said, opening_said, place_of, place_said, programme_said, release_said, removal_said, sector_said, task_said};

use crate::plain::names::{document_of_defect, item_of_entry};
use mx_base::rows::{
    AircraftRow, ComponentRow, DeferralRow, ExtensionRow, FittingRow, OpeningRow, ProgrammeRow,
    ReleaseLineRow, ReleaseRow, RemovalRow, SectorRow, TaskRow,
};
use mx_base::{Doc, Kind, Limit, Part, Position, Serial, Tail, Use};
use mx_book::commands::{Applies, Body, Item, Line, Place, Task};
use mx_book::entry_list::Book;

/// What the row of an aircraft says, with these positions.
pub fn body_of_aircraft(row: &AircraftRow, positions: Vec<(Position, Part)>) -> Body
    ensures { act_of result ≡ aircraft_said row.now positions.items }
{
    Body::AddAircraft {
        tail: row.tail,
        kind: row.kind,
        birth: row.birth,
        opening: Use {
            minutes: row.minutes,
            cycles: row.cycles,
        },
        as_of: row.as_of,
        positions,
    }
}

/// What the row of a component says.
pub fn body_of_component(row: &ComponentRow) -> Body
    ensures { act_of result ≡ component_said row.now }
{
    Body::AddComponent {
        serial: row.serial,
        part: row.part,
        birth: row.birth,
        opening: Use {
            minutes: row.minutes,
            cycles: row.cycles,
        },
        as_of: row.as_of,
    }
}

/// What the row of a programme says, with these tasks.
pub fn body_of_programme(row: &ProgrammeRow, tasks: Vec<Task>) -> Body
    ensures { act_of result ≡ programme_said row.now tasks.items }
{
    Body::LoadProgramme {
        kind: row.kind,
        revision: row.revision,
        tasks,
    }
}

// What a task is done on, by the part in its row.
fn applies_to(part: Option<Part>) -> Applies
    ensures { result ≡ applies_said part }
{
    match part {
        Some(part) => Applies::Part(part),
        None => Applies::Airframe,
    }
}

// The limit, or `None` where it has no dimension.
fn limit_if_any(limit: Limit) -> Option<Limit>
    ensures { result ≡ limit_said limit }
{
    if limit.minutes.is_some() || limit.cycles.is_some() || limit.days.is_some() {
        Some(limit)
    } else {
        None
    }
}

/// The task that its row says.
pub fn task_said(row: &TaskRow) -> Task
    ensures { result ≡ task_said row.now }
{
    Task {
        id: row.id,
        applies: applies_to(row.part),
        first: row.first,
        repeat: limit_if_any(row.repeat),
        tolerance: row.tolerance,
        retire: row.retire,
    }
}

/// What the row of an opening says, of this item.
pub fn body_of_opening(row: &OpeningRow, item: Item) -> Body
    ensures { act_of result ≡ opening_said row.now item }
{
    Body::Opening {
        item,
        kind: row.kind,
        task: row.task,
        use_then: Use {
            minutes: row.minutes,
            cycles: row.cycles,
        },
        day: row.day,
    }
}

/// What the row of a sector says, where the aircraft has this registration.
pub fn body_of_sector(row: &SectorRow, tail: Tail) -> Body
    ensures { act_of result ≡ sector_said row.now tail }
{
    Body::Sector {
        tail,
        page: row.page,
        line: row.line,
        off: row.took_off,
        on: row.landed,
        cycles: row.cycles,
    }
}

/// What the row of a fitting says, where the component has this serial number and the aircraft this
/// registration.
pub fn body_of_fitting(row: &FittingRow, serial: Serial, tail: Tail) -> Body
    ensures { act_of result ≡ fitting_said row.now serial tail }
{
    Body::Fit {
        serial,
        tail,
        position: row.position,
        moment: row.moment,
    }
}

/// What the row of a removal says, where the component has this serial number.
pub fn body_of_removal(row: &RemovalRow, serial: Serial) -> Body
    ensures { act_of result ≡ removal_said row.now serial }
{
    Body::Remove {
        serial,
        moment: row.moment,
    }
}

/// The place of a release: an aircraft without a kind, or a component in a shop with one.
pub fn place_of(kind: Option<Kind>, item: Item) -> Option<Place>
    ensures { result ≡ place_of kind item }
{
    match (kind, item) {
        (None, Item::Airframe(tail)) => Some(Place::Aircraft(tail)),
        (Some(kind), Item::Component(serial)) => Some(Place::Shop(serial, kind)),
        _ => None,
    }
}

/// The place that the row of a release says.
pub(crate) fn place_said(book: &Book, row: &ReleaseRow) -> Option<Place>
    ensures { result ≡ place_said book.now row.now }
{
    let item = item_of_entry(book, row.item)?;
    place_of(row.kind, item)
}

/// What the row of a release says, at this place with these lines.
pub fn body_of_release(row: &ReleaseRow, place: Place, lines: Vec<Line>) -> Body
    ensures { act_of result ≡ release_said row.now place lines.items }
{
    Body::Release {
        place,
        moment: row.moment,
        lines,
    }
}

/// The line that its row says.
pub(crate) fn line_said(book: &Book, row: &ReleaseLineRow) -> Option<Line>
    ensures { result ≡ line_said book.now row.now }
{
    match (row.item, row.task, row.defect) {
        (Some(item), Some(task), None) => Some(Line::Done(item_of_entry(book, item)?, task)),
        (None, None, Some(defect)) => Some(Line::Rectified(document_of_defect(book, defect)?)),
        _ => None,
    }
}

/// What the row of a deferral says, where the aircraft has this registration.
pub fn body_of_deferral(row: &DeferralRow, tail: Tail) -> Body
    ensures { act_of result ≡ deferral_said row.now tail }
{
    Body::Defer {
        tail,
        moment: row.moment,
        reference: row.reference,
        category: row.category,
    }
}

/// What the row of an extension says, where the defect was deferred by this document.
pub fn body_of_extension(row: &ExtensionRow, defect: Doc) -> Body
    ensures { act_of result ≡ extension_said row.now defect }
{
    Body::Extend {
        defect,
        day: row.day,
        days: row.days,
    }
}
