//! What the book that registers are those of is made with: the command that an entry and the first rows of its kind say, and
//! whether rows are left over.
ghost use Rattle.std.specs.Prelude.{◌≡◌, IfOk, IsSome, OnErr};
ghost use Rattle.std.specs.Option.{option_map};
ghost use Rattle.mx_book.specs.commands.Act.{act_of, sector_of};
ghost use Rattle.mx_registers.specs.Merge.{are_defects_taken, are_items_taken, are_moves_taken, are_programmes_taken, are_releases_taken, are_taken, command_of, take_by, take_command};
ghost use Rattle.mx_registers.specs.Left.{all_rows, rest_of, taken};

use crate::merge::{Left, Registers};
use crate::plain::taking::take_said;
use mx_base::Doc;
use mx_base::rows::EntryRow;
use mx_book::commands::{Body, Command, MakeFault};
use mx_book::entry_list::{Book, NoMemory};
use std::alloc::Global;

/// All rows but those of the entries.
pub fn rows_of(registers: &Registers) -> Left<'_>
    ensures { rest_of result ≡ all_rows registers.now }
{
    Left {
        aircraft: registers.rows.aircraft.as_slice(),
        places: registers.rows.places.as_slice(),
        components: registers.rows.components.as_slice(),
        programmes: registers.rows.programmes.as_slice(),
        tasks: registers.rows.tasks.as_slice(),
        openings: registers.rows.openings.as_slice(),
        releases: registers.rows.releases.as_slice(),
        release_lines: registers.rows.release_lines.as_slice(),
        deferrals: registers.rows.deferrals.as_slice(),
        extensions: registers.rows.extensions.as_slice(),
        sectors: registers.rows.sectors.as_slice(),
        fittings: registers.rows.fittings.as_slice(),
        removals: registers.rows.removals.as_slice(),
    }
}

// Whether every row of aircraft, of positions and of components is taken.
fn are_items_taken(rows: Left<'_>) -> bool
    ensures { result ≡ are_items_taken (rest_of rows.entry) }
{
    rows.aircraft.is_empty() && rows.places.is_empty() && rows.components.is_empty()
}

// Whether every row of programmes, of tasks and of openings is taken.
fn are_programmes_taken(rows: Left<'_>) -> bool
    ensures { result ≡ are_programmes_taken (rest_of rows.entry) }
{
    rows.programmes.is_empty() && rows.tasks.is_empty() && rows.openings.is_empty()
}

// Whether every row of sectors, of fittings and of removals is taken.
fn are_moves_taken(rows: Left<'_>) -> bool
    ensures { result ≡ are_moves_taken (rest_of rows.entry) }
{
    rows.sectors.is_empty() && rows.fittings.is_empty() && rows.removals.is_empty()
}

// Whether every row of releases and of their lines is taken.
fn are_releases_taken(rows: Left<'_>) -> bool
    ensures { result ≡ are_releases_taken (rest_of rows.entry) }
{
    rows.releases.is_empty() && rows.release_lines.is_empty()
}

// Whether every row of deferrals and of extensions is taken.
fn are_defects_taken(rows: Left<'_>) -> bool
    ensures { result ≡ are_defects_taken (rest_of rows.entry) }
{
    rows.deferrals.is_empty() && rows.extensions.is_empty()
}

/// Whether every row is taken.
pub fn are_all_taken(rows: Left<'_>) -> bool
    ensures { result ≡ are_taken (rest_of rows.entry) }
{
    are_items_taken(rows)
        && are_programmes_taken(rows)
        && are_moves_taken(rows)
        && are_releases_taken(rows)
        && are_defects_taken(rows)
}

// The command of a document and a body, or `None` where they lack the shape. `NoMemory` for a sector alone.
fn command_with(alloc: Global, doc: Doc, body: Body) -> Result<Option<Command>, NoMemory>
    ensures command { IfOk result (λ found. found ≡ command_of doc (act_of body)) }
    ensures memory { OnErr result (IsSome (sector_of (act_of body))) }
{
    match Command::make(alloc, doc, body) {
        Ok(command) => Ok(Some(command)),
        Err(MakeFault::BadShape) => Ok(None),
        Err(MakeFault::Memory) => Err(NoMemory),
    }
}

/// The command that an entry and the first rows of its kind say, and the rows behind them. Memory is asked for only where
/// they say something.
pub fn next_command<'a>(
    alloc: Global,
    book: &Book,
    entry: &EntryRow,
    rows: Left<'a>,
) -> Result<Option<(Command, Left<'a>)>, NoMemory>
    ensures found { IfOk result
        (λ found. option_map taken found ≡ take_command book.now entry.now (rest_of
        rows.entry)) }
    ensures memory { OnErr result (IsSome (take_by book.now entry.now.seq (rest_of rows.entry)
        entry.now.kind)) }
{
    let Some((body, rest)) = take_said(alloc, book, entry, rows)? else {
        return Ok(None);
    };
    let Some(command) = command_with(alloc, entry.doc, body)? else {
        return Ok(None);
    };
    Ok(Some((command, rest)))
}
