//! The rows that a command adds beside its entry, register by register, behind the entries of a book.
ghost use Rattle.std.specs.Prelude.{◌≡◌, [], ◌∷◌, IfOk};
ghost use Rattle.mx_base.specs.rows.Rows.{FitsAircraft, FitsComponent, FitsDeferral, FitsExtension, FitsFitting, FitsOpening, FitsPlace, FitsProgramme, FitsRelease, FitsReleaseLine, FitsRemoval, FitsSector, FitsTask};
ghost use Rattle.mx_registers.specs.Registers.{aircraft_by, components_by, deferrals_by, extensions_by, fittings_by, openings_by, places_by, programmes_by, release_line_row, release_lines_by, releases_by, removals_by, sectors_by, tasks_by};
ghost use Rattle.mx_registers.specs.Added.{AreAdded, AreAddedRows};

use crate::plain::names::{seq_of_defect, seq_of_item, seq_of_place, seq_of_serial, seq_of_tail};
use crate::{
    aircraft_row, component_row, deferral_row, done_row, extension_row, fitting_row, lines,
    opening_row, or_zero, programme_row, rectified_row, release_row, removal_row, sector_row,
};
use mx_base::Kind;
use mx_base::rows::{
    AircraftRow, ComponentRow, DeferralRow, ExtensionRow, FittingRow, OpeningRow, PlaceRow,
    ProgrammeRow, RegisterRows, ReleaseLineRow, ReleaseRow, RemovalRow, SectorRow, TaskRow,
};
use mx_book::commands::{Command, Line};
use mx_book::entry_list::{Book, NoMemory};
use std::alloc::Global;

// A register with one row.
fn one<R: Drop>(alloc: Global, row: R) -> Result<Vec<R>, NoMemory>
    ensures { IfOk result (λ rows. rows.items ≡ row ∷ []) }
{
    let mut rows = Vec::new(alloc);
    match rows.push(row) {
        Ok(()) => Ok(rows),
        Err(_) => Err(NoMemory),
    }
}

// The row of an aircraft, where the command says one.
fn aircraft_rows(
    alloc: Global,
    book: &Book,
    command: &Command,
) -> Result<Vec<AircraftRow>, NoMemory>
    ensures { IfOk result (λ rows.
        AreAdded FitsAircraft aircraft_by rows.items book.now command.now) }
{
    match command.added_aircraft() {
        None => Ok(Vec::new(alloc)),
        Some(aircraft) => one(alloc, aircraft_row(book.len() + 1, aircraft)),
    }
}

// The rows of the positions of an aircraft, where the command adds one.
fn place_rows(alloc: Global, book: &Book, command: &Command) -> Result<Vec<PlaceRow>, NoMemory>
    ensures { IfOk result (λ rows. AreAdded FitsPlace places_by rows.items book.now command.now) }
{
    // A command of its shape has few positions.
    let _ = command.doc();
    let rows = lines::place_rows(alloc, book.len() + 1, command.positions())?;
    Ok(rows)
}

// The row of a component, where the command says one.
fn component_rows(
    alloc: Global,
    book: &Book,
    command: &Command,
) -> Result<Vec<ComponentRow>, NoMemory>
    ensures { IfOk result (λ rows.
        AreAdded FitsComponent components_by rows.items book.now command.now) }
{
    match command.added_component() {
        None => Ok(Vec::new(alloc)),
        Some(component) => one(alloc, component_row(book.len() + 1, component)),
    }
}

// The row of a revision of a programme, where the command loads one.
fn programme_rows(
    alloc: Global,
    book: &Book,
    command: &Command,
) -> Result<Vec<ProgrammeRow>, NoMemory>
    ensures { IfOk result (λ rows.
        AreAdded FitsProgramme programmes_by rows.items book.now command.now) }
{
    match command.loaded_programme() {
        None => Ok(Vec::new(alloc)),
        Some(programme) => one(alloc, programme_row(book.len() + 1, programme)),
    }
}

// The rows of the tasks of a programme, where the command loads one.
fn task_rows(alloc: Global, book: &Book, command: &Command) -> Result<Vec<TaskRow>, NoMemory>
    ensures { IfOk result (λ rows. AreAdded FitsTask tasks_by rows.items book.now command.now) }
{
    // A command of its shape has few tasks.
    let _ = command.doc();
    let rows = lines::task_rows(alloc, book.len() + 1, command.tasks())?;
    Ok(rows)
}

// The row of an opening, where the command states one.
fn opening_rows(alloc: Global, book: &Book, command: &Command) -> Result<Vec<OpeningRow>, NoMemory>
    ensures { IfOk result (λ rows.
        AreAdded FitsOpening openings_by rows.items book.now command.now) }
{
    match command.stated_opening() {
        None => Ok(Vec::new(alloc)),
        Some(opening) => {
            let item = or_zero(seq_of_item(book, &opening.item));
            one(alloc, opening_row(book.len() + 1, item, opening))
        }
    }
}

// The row of a sector, where the command says one.
fn sector_rows(alloc: Global, book: &Book, command: &Command) -> Result<Vec<SectorRow>, NoMemory>
    ensures { IfOk result (λ rows. AreAdded FitsSector sectors_by rows.items book.now command.now) }
{
    match command.flown_sector() {
        None => Ok(Vec::new(alloc)),
        Some(sector) => {
            let aircraft = or_zero(seq_of_tail(book, &sector.tail));
            one(alloc, sector_row(book.len() + 1, aircraft, sector))
        }
    }
}

// The row of a fitting, where the command says one.
fn fitting_rows(alloc: Global, book: &Book, command: &Command) -> Result<Vec<FittingRow>, NoMemory>
    ensures { IfOk result (λ rows.
        AreAdded FitsFitting fittings_by rows.items book.now command.now) }
{
    match command.fitting() {
        None => Ok(Vec::new(alloc)),
        Some(fitting) => {
            let component = or_zero(seq_of_serial(book, &fitting.serial));
            let aircraft = or_zero(seq_of_tail(book, &fitting.tail));
            one(
                alloc,
                fitting_row(book.len() + 1, component, aircraft, fitting),
            )
        }
    }
}

// The row of a removal, where the command says one.
fn removal_rows(alloc: Global, book: &Book, command: &Command) -> Result<Vec<RemovalRow>, NoMemory>
    ensures { IfOk result (λ rows.
        AreAdded FitsRemoval removals_by rows.items book.now command.now) }
{
    match command.removal() {
        None => Ok(Vec::new(alloc)),
        Some(removal) => {
            let component = or_zero(seq_of_serial(book, &removal.serial));
            one(alloc, removal_row(book.len() + 1, component, removal))
        }
    }
}

// The row of a release, where the command says one.
fn release_rows(alloc: Global, book: &Book, command: &Command) -> Result<Vec<ReleaseRow>, NoMemory>
    ensures { IfOk result (λ rows.
        AreAdded FitsRelease releases_by rows.items book.now command.now) }
{
    // The checker proves this function only where the type of each field of a row is named in it.
    let _: Option<Kind> = None;
    match command.release() {
        None => Ok(Vec::new(alloc)),
        Some(release) => {
            let item = or_zero(seq_of_place(book, &release.place));
            one(alloc, release_row(book.len() + 1, item, release))
        }
    }
}

/// The row of a line, on this line of the release that is entered with a number, behind the entries of a book.
pub fn release_line_row(book: &Book, seq: u32, line: u32, certified: &Line) -> ReleaseLineRow
    ensures row { result ≡ release_line_row book.now seq line certified.now }
    ensures fits { FitsReleaseLine result }
{
    match certified {
        Line::Done(item, task) => {
            let number = or_zero(seq_of_item(book, item));
            done_row(seq, line, number, task)
        }
        Line::Rectified(doc) => {
            let number = or_zero(seq_of_defect(book, doc));
            rectified_row(seq, line, number)
        }
    }
}

// The rows of the lines of a release, where the command says one.
fn release_line_rows(
    alloc: Global,
    book: &Book,
    command: &Command,
) -> Result<Vec<ReleaseLineRow>, NoMemory>
    ensures { IfOk result (λ rows.
        AreAdded FitsReleaseLine release_lines_by rows.items book.now command.now) }
{
    let seq = book.len() + 1;
    let mut rows = Vec::new(alloc);
    let mut line = 1u32;
    let mut rest = command.lines();
    while let Some((certified, later)) = rest.split_first() {
        match rows.push(release_line_row(book, seq, line, certified)) {
            Ok(()) => {}
            Err(_) => return Err(NoMemory),
        }
        line += 1;
        rest = later;
    }
    Ok(rows)
}

// The row of a deferral, where the command says one.
fn deferral_rows(
    alloc: Global,
    book: &Book,
    command: &Command,
) -> Result<Vec<DeferralRow>, NoMemory>
    ensures { IfOk result (λ rows.
        AreAdded FitsDeferral deferrals_by rows.items book.now command.now) }
{
    match command.deferral() {
        None => Ok(Vec::new(alloc)),
        Some(deferral) => {
            let aircraft = or_zero(seq_of_tail(book, &deferral.tail));
            one(alloc, deferral_row(book.len() + 1, aircraft, deferral))
        }
    }
}

// The row of an extension, where the command says one.
fn extension_rows(
    alloc: Global,
    book: &Book,
    command: &Command,
) -> Result<Vec<ExtensionRow>, NoMemory>
    ensures { IfOk result (λ rows.
        AreAdded FitsExtension extensions_by rows.items book.now command.now) }
{
    match command.extension() {
        None => Ok(Vec::new(alloc)),
        Some(extension) => {
            let defect = or_zero(seq_of_defect(book, &extension.defect));
            one(alloc, extension_row(book.len() + 1, defect, extension))
        }
    }
}

/// The rows that a command adds beside its entry, behind the entries of a book.
pub fn added_rows(alloc: Global, book: &Book, command: &Command) -> Result<RegisterRows, NoMemory>
    ensures { IfOk result (AreAddedRows book.now command.now) }
{
    Ok(RegisterRows {
        aircraft: aircraft_rows(alloc, book, command)?,
        places: place_rows(alloc, book, command)?,
        components: component_rows(alloc, book, command)?,
        programmes: programme_rows(alloc, book, command)?,
        tasks: task_rows(alloc, book, command)?,
        openings: opening_rows(alloc, book, command)?,
        releases: release_rows(alloc, book, command)?,
        release_lines: release_line_rows(alloc, book, command)?,
        deferrals: deferral_rows(alloc, book, command)?,
        extensions: extension_rows(alloc, book, command)?,
        sectors: sector_rows(alloc, book, command)?,
        fittings: fitting_rows(alloc, book, command)?,
        removals: removal_rows(alloc, book, command)?,
    })
}
