//! What an entry says, by the first rows of its kind.
//!
//! The loops over positions, tasks and lines are written out, each a dozen lines. The row of a task says that task only
//! where a repeat has a dimension, which is its shape; but every row is that of the task that it says, whatever its
//! columns hold. So the shape is asked where the registers of a book are read back, and nowhere else.
ghost use Rattle.std.specs.Prelude.{◌≡◌, IfOk, IsSome, OnErr};
ghost use Rattle.std.specs.Option.{option_map};
ghost use Rattle.mx_registers.specs.Merge.{take_aircraft, take_by, take_component, take_deferral, take_extension, take_fitting, take_opening, take_places, take_programme, take_release, take_release_lines, take_removal, take_sector, take_tasks};
ghost use Rattle.mx_registers.specs.Left.{rest_of, said};

use crate::merge::Left;
use crate::plain::names::{
    document_of_defect, item_of_entry, serial_of_component, tail_of_aircraft,
};
use crate::plain::said::{
    body_of_aircraft, body_of_component, body_of_deferral, body_of_extension, body_of_fitting,
    body_of_opening, body_of_programme, body_of_release, body_of_removal, body_of_sector,
    line_said, place_said, task_said,
};
use mx_base::rows::{
    AircraftRow, ComponentRow, DeferralRow, EntryKind, EntryRow, ExtensionRow, FittingRow,
    OpeningRow, PlaceRow, ProgrammeRow, ReleaseLineRow, ReleaseRow, RemovalRow, SectorRow, TaskRow,
};
use mx_base::{Part, Position};
use mx_book::commands::{Applies, Body, Item, Line, Task};
use mx_book::entry_list::Book;
use std::alloc::{AllocError, Global};

// The positions of the entry with this number, and the rows behind them.
fn take_positions(
    alloc: Global,
    seq: u32,
    rows: &[PlaceRow],
) -> Result<(Vec<(Position, Part)>, &[PlaceRow]), AllocError>
    ensures { IfOk result (λ taken. (taken.0.items, taken.1.now) ≡ take_places seq rows.now) }
{
    let mut positions = Vec::new(alloc);
    let mut rest = rows;
    while let Some((row, later)) = rest.split_first() {
        let line = positions.len() + 1;
        if row.seq != seq || row.line as usize != line {
            return Ok((positions, rest));
        }
        positions.push((row.position, row.part))?;
        rest = later;
    }
    Ok((positions, rest))
}

// The tasks of the entry with this number, and the rows behind them.
fn take_tasks(
    alloc: Global,
    seq: u32,
    rows: &[TaskRow],
) -> Result<(Vec<Task>, &[TaskRow]), AllocError>
    ensures { IfOk result (λ taken. (taken.0.items, taken.1.now) ≡ take_tasks seq rows.now) }
{
    // The checker proves this loop only where the type of each field of a task is named in the function.
    let _: Option<Applies> = None;
    let mut tasks = Vec::new(alloc);
    let mut rest = rows;
    while let Some((row, later)) = rest.split_first() {
        let line = tasks.len() + 1;
        if row.seq != seq || row.line as usize != line {
            return Ok((tasks, rest));
        }
        tasks.push(task_said(row))?;
        rest = later;
    }
    Ok((tasks, rest))
}

// The lines of the release of the entry with this number, and the rows behind them.
fn take_release_lines<'a>(
    alloc: Global,
    book: &Book,
    seq: u32,
    rows: &'a [ReleaseLineRow],
) -> Result<(Vec<Line>, &'a [ReleaseLineRow]), AllocError>
    ensures { IfOk result
        (λ taken. (taken.0.items, taken.1.now) ≡ take_release_lines book.now seq rows.now) }
{
    // The checker proves this loop only where the type of each field of a line is named in the function.
    let _: Option<Item> = None;
    let mut lines = Vec::new(alloc);
    let mut rest = rows;
    while let Some((row, later)) = rest.split_first() {
        let line = lines.len() + 1;
        if row.seq != seq || row.line as usize != line {
            return Ok((lines, rest));
        }
        let Some(certified) = line_said(book, row) else {
            return Ok((lines, rest));
        };
        lines.push(certified)?;
        rest = later;
    }
    Ok((lines, rest))
}

// What an entry that added an aircraft says. Memory is asked for only where the first row is of the entry.
fn take_aircraft<'a>(
    alloc: Global,
    seq: u32,
    rows: Left<'a>,
) -> Result<Option<(Body, Left<'a>)>, AllocError>
    ensures found { IfOk result
        (λ found. option_map said found ≡ take_aircraft seq (rest_of rows.entry)) }
    ensures memory { OnErr result (IsSome (take_aircraft seq (rest_of rows.entry))) }
{
    let Some((row, aircraft)) = rows.aircraft.split_first() else {
        return Ok(None);
    };
    if row.seq != seq {
        return Ok(None);
    }
    let (positions, places) = take_positions(alloc, seq, rows.places)?;
    let rest = Left {
        aircraft,
        places,
        ..rows
    };
    Ok(Some((body_of_aircraft(row, positions), rest)))
}

// What an entry that added a component says.
fn take_component<'a>(seq: u32, rows: Left<'a>) -> Option<(Body, Left<'a>)>
    ensures { option_map said result ≡ take_component seq (rest_of rows.entry) }
{
    let (row, components) = rows.components.split_first()?;
    if row.seq != seq {
        return None;
    }
    let rest = Left { components, ..rows };
    Some((body_of_component(row), rest))
}

// What an entry that loaded a programme says. Memory is asked for only where the first row is of the entry.
fn take_programme<'a>(
    alloc: Global,
    seq: u32,
    rows: Left<'a>,
) -> Result<Option<(Body, Left<'a>)>, AllocError>
    ensures found { IfOk result
        (λ found. option_map said found ≡ take_programme seq (rest_of rows.entry)) }
    ensures memory { OnErr result (IsSome (take_programme seq (rest_of rows.entry))) }
{
    let Some((row, programmes)) = rows.programmes.split_first() else {
        return Ok(None);
    };
    if row.seq != seq {
        return Ok(None);
    }
    let (listed, tasks) = take_tasks(alloc, seq, rows.tasks)?;
    let rest = Left {
        programmes,
        tasks,
        ..rows
    };
    Ok(Some((body_of_programme(row, listed), rest)))
}

// What an opening's entry says.
fn take_opening<'a>(book: &Book, seq: u32, rows: Left<'a>) -> Option<(Body, Left<'a>)>
    ensures { option_map said result ≡ take_opening book.now seq (rest_of rows.entry) }
{
    let (row, openings) = rows.openings.split_first()?;
    if row.seq != seq {
        return None;
    }
    let item = item_of_entry(book, row.item)?;
    let rest = Left { openings, ..rows };
    Some((body_of_opening(row, item), rest))
}

// What a sector's entry says.
fn take_sector<'a>(book: &Book, seq: u32, rows: Left<'a>) -> Option<(Body, Left<'a>)>
    ensures { option_map said result ≡ take_sector book.now seq (rest_of rows.entry) }
{
    let (row, sectors) = rows.sectors.split_first()?;
    if row.seq != seq {
        return None;
    }
    let tail = tail_of_aircraft(book, row.aircraft)?;
    let rest = Left { sectors, ..rows };
    Some((body_of_sector(row, tail), rest))
}

// What a fitting's entry says.
fn take_fitting<'a>(book: &Book, seq: u32, rows: Left<'a>) -> Option<(Body, Left<'a>)>
    ensures { option_map said result ≡ take_fitting book.now seq (rest_of rows.entry) }
{
    let (row, fittings) = rows.fittings.split_first()?;
    if row.seq != seq {
        return None;
    }
    let serial = serial_of_component(book, row.component)?;
    let tail = tail_of_aircraft(book, row.aircraft)?;
    let rest = Left { fittings, ..rows };
    Some((body_of_fitting(row, serial, tail), rest))
}

// What a removal's entry says.
fn take_removal<'a>(book: &Book, seq: u32, rows: Left<'a>) -> Option<(Body, Left<'a>)>
    ensures { option_map said result ≡ take_removal book.now seq (rest_of rows.entry) }
{
    let (row, removals) = rows.removals.split_first()?;
    if row.seq != seq {
        return None;
    }
    let serial = serial_of_component(book, row.component)?;
    let rest = Left { removals, ..rows };
    Some((body_of_removal(row, serial), rest))
}

// What a release's entry says. Memory is asked for only where the first row is of the entry and says a place.
fn take_release<'a>(
    alloc: Global,
    book: &Book,
    seq: u32,
    rows: Left<'a>,
) -> Result<Option<(Body, Left<'a>)>, AllocError>
    ensures found { IfOk result
        (λ found. option_map said found ≡ take_release book.now seq (rest_of rows.entry)) }
    ensures memory { OnErr result (IsSome (take_release book.now seq (rest_of rows.entry))) }
{
    let Some((row, releases)) = rows.releases.split_first() else {
        return Ok(None);
    };
    if row.seq != seq {
        return Ok(None);
    }
    let Some(place) = place_said(book, row) else {
        return Ok(None);
    };
    let (lines, release_lines) = take_release_lines(alloc, book, seq, rows.release_lines)?;
    let rest = Left {
        releases,
        release_lines,
        ..rows
    };
    Ok(Some((body_of_release(row, place, lines), rest)))
}

// What a deferral's entry says.
fn take_deferral<'a>(book: &Book, seq: u32, rows: Left<'a>) -> Option<(Body, Left<'a>)>
    ensures { option_map said result ≡ take_deferral book.now seq (rest_of rows.entry) }
{
    let (row, deferrals) = rows.deferrals.split_first()?;
    if row.seq != seq {
        return None;
    }
    let tail = tail_of_aircraft(book, row.aircraft)?;
    let rest = Left { deferrals, ..rows };
    Some((body_of_deferral(row, tail), rest))
}

// What an extension's entry says.
fn take_extension<'a>(book: &Book, seq: u32, rows: Left<'a>) -> Option<(Body, Left<'a>)>
    ensures { option_map said result ≡ take_extension book.now seq (rest_of rows.entry) }
{
    let (row, extensions) = rows.extensions.split_first()?;
    if row.seq != seq {
        return None;
    }
    let defect = document_of_defect(book, row.defect)?;
    let rest = Left { extensions, ..rows };
    Some((body_of_extension(row, defect), rest))
}

/// What an entry and the first rows of its kind say, and the rows behind them. Memory is asked for only where they say
/// something.
pub(crate) fn take_said<'a>(
    alloc: Global,
    book: &Book,
    entry: &EntryRow,
    rows: Left<'a>,
) -> Result<Option<(Body, Left<'a>)>, AllocError>
    ensures found { IfOk result
        (λ found. option_map said found ≡ take_by book.now entry.now.seq (rest_of rows.entry)
        entry.now.kind) }
    ensures memory { OnErr result (IsSome (take_by book.now entry.now.seq (rest_of rows.entry)
        entry.now.kind)) }
{
    match entry.kind {
        EntryKind::AddAircraft => take_aircraft(alloc, entry.seq, rows),
        EntryKind::AddComponent => Ok(take_component(entry.seq, rows)),
        EntryKind::LoadProgramme => take_programme(alloc, entry.seq, rows),
        EntryKind::Opening => Ok(take_opening(book, entry.seq, rows)),
        EntryKind::Sector => Ok(take_sector(book, entry.seq, rows)),
        EntryKind::Fit => Ok(take_fitting(book, entry.seq, rows)),
        EntryKind::Remove => Ok(take_removal(book, entry.seq, rows)),
        EntryKind::Release => take_release(alloc, book, entry.seq, rows),
        EntryKind::Defer => Ok(take_deferral(book, entry.seq, rows)),
        EntryKind::Extend => Ok(take_extension(book, entry.seq, rows)),
    }
}
