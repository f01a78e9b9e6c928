//! Whether the entry with a number is a release, by its rows.
ghost use Rattle.std.specs.Prelude.{◌≡◌, ◌≤◌, ◌∷◌, [], length};
ghost use Rattle.mx_book.specs.commands.Act.{Released};
ghost use Rattle.mx_book.specs.declared.commands.shape.TheConstants.{MOST_LINES};
ghost use Rattle.mx_book.specs.Judge.{item_at};
ghost use Rattle.mx_registers.specs.Lines.{lines_from};
ghost use Rattle.mx_registers.specs.Names.{or_zero, seq_of_item};
ghost use Rattle.mx_registers.specs.Registers.{release_line_row, release_row};
ghost use Rattle.mx_layout.specs.kept.Cells.{kept_crs, kept_crs_line};
ghost use Rattle.mx_row_rules.specs.found.Given as registers;
ghost use Rattle.mx_row_rules.specs.found.Given.{seq_of_line};
ghost use Rattle.mx_lookups.specs.numbers.Given.{ItemNumber};
ghost use Rattle.mx_lookups.specs.numbers.LookUp.{IsLookUp};
ghost use Rattle.mx_row_judge.specs.known.Known.{AreLines, AreRows, ByNumber, LineDamage, LineNumber, LineRow, LinesDamage, RowsDamage, Says, SaysDamage, Tells, TellsRows};
ghost use Rattle.mx_lookups.specs.numbers.Told.{Either, ItemDamage};

use mx_book::commands::{Line, Place, Release};
use mx_layout::TableFault;
use mx_lookups::numbers::entries::defect_number;
use mx_lookups::numbers::items::{aircraft_number, component_number, item_number};
use mx_registers::{ReleaseLineRow, or_zero, release_row};
use mx_row_rules::found::known::release_line_row;
use mx_row_rules::found::same::{are_same_release_lines, are_same_releases};
use mx_table_rows::chosen::works::{crs_by_seq, crs_line_by_seq};
use sqlite::{Alter, Transaction};
use std::alloc::Global;
use std::slice;

// The number of the entry that added the aircraft or the component of a place.
fn place_number<S: Alter>(
    alloc: Global,
    tx: &mut Transaction<'_, S>,
    place: &Place,
) -> Result<Option<u32>, TableFault>
    ensures looks_up { IsLookUp S.Store
        (λ book number. number ≡ seq_of_item book (item_at place.now))
        (ItemNumber (item_at place.now))
        (ItemDamage (item_at place.now))
        tx.old tx.new result }
{
    match place {
        Place::Aircraft(tail) => aircraft_number(alloc, tx, tail),
        Place::Shop(serial, _) => component_number(alloc, tx, serial),
    }
}

// The number of what a line is of: of the item that a task was done on, or of the defect that was rectified.
fn line_number<S: Alter>(
    alloc: Global,
    tx: &mut Transaction<'_, S>,
    certified: &Line,
) -> Result<Option<u32>, TableFault>
    ensures looks_up { IsLookUp S.Store
        (λ book number. number ≡ seq_of_line book certified.now)
        (LineNumber certified.now)
        (LineDamage certified.now)
        tx.old tx.new result }
{
    match certified {
        Line::Done(item, _) => item_number(alloc, tx, item),
        Line::Rectified(doc) => defect_number(alloc, tx, doc),
    }
}

// The row that a line would have, on this line of the release that is entered with a number.
fn line_row<S: Alter>(
    alloc: Global,
    tx: &mut Transaction<'_, S>,
    seq: u32,
    line: u32,
    certified: &Line,
) -> Result<ReleaseLineRow, TableFault>
    ensures looks_up { IsLookUp S.Store
        (λ book row. row ≡ release_line_row book seq line certified.now)
        (LineRow seq line certified.now)
        (LineDamage certified.now)
        tx.old tx.new result }
{
    let number = line_number(alloc, tx, certified)?;
    Ok(release_line_row(seq, line, or_zero(number), certified))
}

// Whether the row of the release of the entry with a number is that of this one.
fn is_release_row<S: Alter>(
    alloc: Global,
    tx: &mut Transaction<'_, S>,
    seq: u32,
    release: Release,
) -> Result<bool, TableFault>
    ensures looks_up { IsLookUp S.Store
        (TellsRows registers.releases seq (λ book. release_row seq (or_zero (seq_of_item book
        (item_at release.place))) release ∷ []))
        (ByNumber (ItemNumber (item_at release.place)) (λ item. AreRows kept_crs seq (release_row
        seq item release ∷ [])))
        (Either (ItemDamage (item_at release.place)) (RowsDamage kept_crs seq))
        tx.old tx.new result }
{
    let found = place_number(alloc, tx, &release.place)?;
    let rows = crs_by_seq(alloc, tx, seq)?;
    let row = release_row(seq, or_zero(found), release);
    Ok(are_same_releases(&rows, slice::from_ref(&row)))
}

// Whether the rows of the lines of the entry with a number are those of these.
fn are_lines<S: Alter>(
    alloc: Global,
    tx: &mut Transaction<'_, S>,
    seq: u32,
    lines: &[Line],
) -> Result<bool, TableFault>
    requires { length lines.now ≤ MOST_LINES }
    ensures looks_up { IsLookUp S.Store
        (TellsRows registers.release_lines seq (λ book. lines_from (release_line_row book) seq 1
        lines.now))
        (AreLines seq lines.now)
        (Either (RowsDamage kept_crs_line seq) (LinesDamage lines.now))
        tx.old tx.new result }
{
    let rows = crs_line_by_seq(alloc, tx, seq)?;
    let mut given = Vec::new(alloc);
    let mut line = 1u32;
    let mut rest = lines;
    while let Some((certified, later)) = rest.split_first() {
        let row = line_row(alloc, tx, seq, line, certified)?;
        given.push(row)?;
        line += 1;
        rest = later;
    }
    Ok(are_same_release_lines(&rows, &given))
}

// Whether the entry with a number is this release with these lines.
pub(crate) fn is_release<S: Alter>(
    alloc: Global,
    tx: &mut Transaction<'_, S>,
    seq: u32,
    release: Release,
    lines: &[Line],
) -> Result<bool, TableFault>
    requires { length lines.now ≤ MOST_LINES }
    ensures looks_up { IsLookUp S.Store
        (Tells seq (Released release lines.now))
        (Says seq (Released release lines.now))
        (SaysDamage seq (Released release lines.now))
        tx.old tx.new result }
{
    let same = is_release_row(alloc, tx, seq, release)?;
    let on_lines = are_lines(alloc, tx, seq, lines)?;
    Ok(same && on_lines)
}
