//! The rows that a command gives.
ghost use Rattle.std.specs.Prelude.{◌≡◌, ◌<◌, ◌^◌, true, unwrap_or, IfSome};
ghost use Rattle.mx_base.specs.Identifier.{IsIdentifier, is_graphic};
ghost use Rattle.mx_base.specs.rows.Rows.{FitsAircraft, FitsCategory, FitsComponent, FitsDeferral, FitsEntry, FitsExtension, FitsFitting, FitsLimit, FitsOpening, FitsPlace, FitsProgramme, FitsRelease, FitsRemoval, FitsSector, FitsTask, FitsTolerance};
ghost use Rattle.mx_registers.specs.Registers.{aircraft_row, component_row, deferral_row, entry_row, extension_row, fitting_row, kind_of, no_limit, opening_row, part_of, place_row, programme_row, kind_in_shop, release_row, removal_row, sector_row, task_row};
ghost use Rattle.mx_book.specs.commands.Act.{act_of};
ghost use Rattle.mx_book.specs.commands.Shape.{has_shape};

use mx_base::rows::{
    AircraftRow, ComponentRow, DeferralRow, EntryKind, EntryRow, ExtensionRow, FittingRow,
    OpeningRow, PlaceRow, ProgrammeRow, ReleaseRow, RemovalRow, SectorRow, TaskRow,
};
use mx_base::{Category, Kind, Limit, Part, Position, Tolerance};
use mx_book::commands::{
    Aircraft, Applies, Body, Command, Component, Deferral, Extension, Fitting, Opening, Place,
    Programme, Release, Removal, Sector, Task,
};

// The kind of entry that a body makes.
fn kind_of_body(body: &Body) -> EntryKind
    ensures { result ≡ kind_of (act_of body.now) }
{
    match body {
        Body::AddAircraft { .. } => EntryKind::AddAircraft,
        Body::AddComponent { .. } => EntryKind::AddComponent,
        Body::LoadProgramme { .. } => EntryKind::LoadProgramme,
        Body::Opening { .. } => EntryKind::Opening,
        Body::Sector { .. } => EntryKind::Sector,
        Body::Fit { .. } => EntryKind::Fit,
        Body::Remove { .. } => EntryKind::Remove,
        Body::Release { .. } => EntryKind::Release,
        Body::Defer { .. } => EntryKind::Defer,
        Body::Extend { .. } => EntryKind::Extend,
    }
}

/// The row of a command that is entered with a number.
pub fn entry_row(seq: u32, command: &Command) -> EntryRow
    ensures row { result ≡ entry_row seq command.now }
    ensures fits { FitsEntry result }
    ensures shaped { has_shape command.now ≡ true }
{
    let doc = command.doc();
    // The text of an identifier fits its column.
    let _ = doc.as_str();
    EntryRow {
        seq,
        doc,
        kind: kind_of_body(command.body()),
    }
}

/// The row of an aircraft that is entered with a number.
pub fn aircraft_row(seq: u32, aircraft: Aircraft) -> AircraftRow
    ensures row { result ≡ aircraft_row seq aircraft }
    ensures fits { FitsAircraft result }
{
    // The texts of identifiers, and the numbers of days and moments, fit their columns.
    let _ = aircraft.tail.as_str();
    let _ = aircraft.kind.as_str();
    let _ = aircraft.birth.number();
    let _ = aircraft.as_of.number();
    AircraftRow {
        seq,
        tail: aircraft.tail,
        kind: aircraft.kind,
        birth: aircraft.birth,
        minutes: aircraft.opening.minutes,
        cycles: aircraft.opening.cycles,
        as_of: aircraft.as_of,
    }
}

/// The row of a position, on this line of the aircraft that is entered with a number.
pub fn place_row(seq: u32, line: u32, place: &(Position, Part)) -> PlaceRow
    ensures row { result ≡ place_row seq line place.now }
    ensures fits { FitsPlace result }
{
    // The texts of identifiers fit their columns.
    let _ = place.0.as_str();
    let _ = place.1.as_str();
    PlaceRow {
        seq,
        line,
        position: place.0,
        part: place.1,
    }
}

/// The row of a component that is entered with a number.
pub fn component_row(seq: u32, component: Component) -> ComponentRow
    ensures row { result ≡ component_row seq component }
    ensures fits { FitsComponent result }
{
    // The texts of identifiers, and the numbers of days and moments, fit their columns.
    let _ = component.serial.as_str();
    let _ = component.part.as_str();
    let _ = component.birth.number();
    let _ = component.as_of.number();
    ComponentRow {
        seq,
        serial: component.serial,
        part: component.part,
        birth: component.birth,
        minutes: component.opening.minutes,
        cycles: component.opening.cycles,
        as_of: component.as_of,
    }
}

/// The row of a revision of a programme that is entered with a number.
pub fn programme_row(seq: u32, programme: Programme) -> ProgrammeRow
    ensures row { result ≡ programme_row seq programme }
    ensures fits { FitsProgramme result }
{
    // The text of an identifier fits its column.
    let _ = programme.kind.as_str();
    ProgrammeRow {
        seq,
        kind: programme.kind,
        revision: programme.revision,
    }
}

// The part that a task is done on, or `None` where it is done on the airframe.
fn part_of(applies: &Applies) -> Option<Part>
    ensures part { result ≡ part_of applies.now }
    ensures fits { IfSome result (IsIdentifier is_graphic 16) }
{
    match applies {
        Applies::Airframe => None,
        Applies::Part(part) => {
            // The text of an identifier fits its column.
            let _ = part.as_str();
            Some(*part)
        }
    }
}

// The number, if there is one. It is looked at, since that tells its bound.
fn number_if_any(number: Option<u32>) -> Option<u32>
    ensures same { result ≡ number }
    ensures fits { IfSome result (λ n. n < 2 ^ 32) }
{
    match number {
        Some(number) => Some(number),
        None => None,
    }
}

// The limit, whose numbers fit their columns.
fn limit_in_columns(limit: Limit) -> Limit
    ensures same { result ≡ limit }
    ensures fits { FitsLimit result }
{
    Limit {
        minutes: number_if_any(limit.minutes),
        cycles: number_if_any(limit.cycles),
        days: number_if_any(limit.days),
    }
}

// The limit of a repeat, or one in no dimension where there is none.
fn repeat_in_columns(repeat: Option<Limit>) -> Limit
    ensures limit { result ≡ unwrap_or repeat no_limit }
    ensures fits { FitsLimit result }
{
    match repeat {
        Some(limit) => limit_in_columns(limit),
        None => Limit {
            minutes: None,
            cycles: None,
            days: None,
        },
    }
}

// The tolerance, whose numbers fit their columns.
fn tolerance_in_columns(tolerance: Tolerance) -> Tolerance
    ensures same { result ≡ tolerance }
    ensures fits { FitsTolerance result }
{
    Tolerance {
        minutes: tolerance.minutes,
        cycles: tolerance.cycles,
        days: tolerance.days,
    }
}

/// The row of a task, on this line of the programme that is entered with a number.
pub fn task_row(seq: u32, line: u32, task: &Task) -> TaskRow
    ensures row { result ≡ task_row seq line task.now }
    ensures fits { FitsTask result }
{
    // The text of an identifier fits its column.
    let _ = task.id.as_str();
    TaskRow {
        seq,
        line,
        id: task.id,
        part: part_of(&task.applies),
        retire: task.retire,
        first: limit_in_columns(task.first),
        repeat: repeat_in_columns(task.repeat),
        tolerance: tolerance_in_columns(task.tolerance),
    }
}

/// The row of an opening that is entered with a number, where another number is that of the entry that added
/// its item.
pub fn opening_row(seq: u32, item: u32, opening: Opening) -> OpeningRow
    ensures row { result ≡ opening_row seq item opening }
    ensures fits { FitsOpening result }
{
    // The texts of identifiers, and the number of a day, fit their columns.
    let _ = opening.kind.as_str();
    let _ = opening.task.as_str();
    let _ = opening.day.number();
    OpeningRow {
        seq,
        item,
        kind: opening.kind,
        task: opening.task,
        minutes: opening.use_then.minutes,
        cycles: opening.use_then.cycles,
        day: opening.day,
    }
}

/// The row of a sector that is entered with a number, where another number is that of the entry that added
/// its aircraft.
pub fn sector_row(seq: u32, aircraft: u32, sector: Sector) -> SectorRow
    ensures row { result ≡ sector_row seq aircraft sector }
    ensures fits { FitsSector result }
{
    // The numbers of moments fit their columns.
    let _ = sector.off.number();
    let _ = sector.on.number();
    SectorRow {
        seq,
        aircraft,
        page: sector.page,
        line: sector.line,
        took_off: sector.off,
        landed: sector.on,
        cycles: sector.cycles,
    }
}

/// The row of a fitting that is entered with a number, where other numbers are those of the entries that
/// added the component and the aircraft.
pub fn fitting_row(seq: u32, component: u32, aircraft: u32, fitting: Fitting) -> FittingRow
    ensures row { result ≡ fitting_row seq component aircraft fitting }
    ensures fits { FitsFitting result }
{
    // The text of an identifier, and the number of a moment, fit their columns.
    let _ = fitting.position.as_str();
    let _ = fitting.moment.number();
    FittingRow {
        seq,
        component,
        aircraft,
        position: fitting.position,
        moment: fitting.moment,
    }
}

/// The row of a removal that is entered with a number, where another number is that of the entry that added
/// the component.
pub fn removal_row(seq: u32, component: u32, removal: Removal) -> RemovalRow
    ensures row { result ≡ removal_row seq component removal }
    ensures fits { FitsRemoval result }
{
    // The number of a moment fits its column.
    let _ = removal.moment.number();
    RemovalRow {
        seq,
        component,
        moment: removal.moment,
    }
}

// The kind of aircraft by whose programme work was done in a shop, or `None` where it was done at an aircraft.
fn kind_in_shop(place: &Place) -> Option<Kind>
    ensures kind { result ≡ kind_in_shop place.now }
    ensures fits { IfSome result (IsIdentifier is_graphic 16) }
{
    match place {
        Place::Aircraft(_) => None,
        Place::Shop(_, kind) => {
            // The text of an identifier fits its column.
            let _ = kind.as_str();
            Some(*kind)
        }
    }
}

/// The row of a release that is entered with a number, where another number is that of the entry that added
/// the aircraft or the component of its place.
pub fn release_row(seq: u32, item: u32, release: Release) -> ReleaseRow
    ensures row { result ≡ release_row seq item release }
    ensures fits { FitsRelease result }
{
    // The number of a moment fits its column.
    let _ = release.moment.number();
    ReleaseRow {
        seq,
        item,
        kind: kind_in_shop(&release.place),
        moment: release.moment,
    }
}

// The category, whose days fit their column.
fn category_in_columns(category: Category) -> Category
    ensures same { result ≡ category }
    ensures fits { FitsCategory result }
{
    match category {
        Category::A(days) => Category::A(days),
        Category::B => Category::B,
        Category::C => Category::C,
        Category::D => Category::D,
    }
}

/// The row of a deferral that is entered with a number, where another number is that of the entry that added
/// its aircraft.
pub fn deferral_row(seq: u32, aircraft: u32, deferral: Deferral) -> DeferralRow
    ensures row { result ≡ deferral_row seq aircraft deferral }
    ensures fits { FitsDeferral result }
{
    // The text of an identifier, and the number of a moment, fit their columns.
    let _ = deferral.reference.as_str();
    let _ = deferral.moment.number();
    DeferralRow {
        seq,
        aircraft,
        moment: deferral.moment,
        reference: deferral.reference,
        category: category_in_columns(deferral.category),
    }
}

/// The row of an extension that is entered with a number, where another number is that of the entry that
/// deferred its defect.
pub fn extension_row(seq: u32, defect: u32, extension: Extension) -> ExtensionRow
    ensures row { result ≡ extension_row seq defect extension }
    ensures fits { FitsExtension result }
{
    // The number of a day fits its column.
    let _ = extension.day.number();
    ExtensionRow {
        seq,
        defect,
        day: extension.day,
        days: extension.days,
    }
}
