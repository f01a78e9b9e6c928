//! What the rows of an entry that releases work state.
ghost use Rattle.std.specs.Prelude.{◌≡◌};
ghost use Rattle.std.specs.Option.{option_and_then, option_map};
ghost use Rattle.sqlite.specs.Held.{state};
ghost use Rattle.mx_book.specs.commands.Act.{act_of};
ghost use Rattle.mx_registers.specs.Merge.{place_said, release_said};
ghost use Rattle.mx_row_rules.specs.found.Given.{found, release_lines, releases};
ghost use Rattle.mx_row_rules.specs.found.Stated.{certified_said, lines_stated, release_stated};
ghost use Rattle.mx_lookups.specs.numbers.AnyRows.{ReadsAny};
ghost use Rattle.mx_lookups.specs.numbers.Reads.{Reads};
ghost use Rattle.mx_row_questions.specs.entries.Releases.{LineNamed, LinesStated, PlaceStated, ReleaseStated};

use crate::entries::names::{doc_of_defect, item_of_number};
use mx_base::rows::ReleaseRow;
use mx_book::commands::{Body, Line, Place};
use mx_layout::TableFault;
use mx_registers::plain::said::{body_of_release, place_of};
use mx_row_rules::found::stated::{Certified, certified_in};
use mx_table_rows::chosen::works::{crs_by_seq, crs_line_by_seq};
use sqlite::{Alter, Transaction};
use std::alloc::Global;

// The line that certifies this; none where the item or the defect is not there.
fn line_named<S: Alter>(
    alloc: Global,
    tx: &mut Transaction<'_, S>,
    certified: Certified,
) -> Result<Option<Line>, TableFault>
    ensures same_reference { tx.new.conn.ghost_name ≡ tx.old.conn.ghost_name }
    ensures reads { Reads (λ book line. line ≡ certified_said book certified)
        (state S.Store tx.old.conn.now) (state S.Store tx.new.conn.now) result }
    ensures any_rows { ReadsAny (LineNamed certified)
        (state S.Store tx.old.conn.now) (state S.Store tx.new.conn.now) result }
{
    match certified {
        Certified::Done(number, task) => {
            let named = item_of_number(alloc, tx, number)?;
            match named {
                Some(item) => Ok(Some(Line::Done(item, task))),
                None => Ok(None),
            }
        }
        Certified::Rectified(number) => {
            let named = doc_of_defect(alloc, tx, number)?;
            match named {
                Some(doc) => Ok(Some(Line::Rectified(doc))),
                None => Ok(None),
            }
        }
    }
}

// The lines of the release that the entry with this number is; none where one of its rows certifies nothing, or what is not
// there.
fn lines_stated<S: Alter>(
    alloc: Global,
    tx: &mut Transaction<'_, S>,
    seq: u32,
) -> Result<Option<Vec<Line>>, TableFault>
    ensures same_reference { tx.new.conn.ghost_name ≡ tx.old.conn.ghost_name }
    ensures reads { Reads (λ book lines. option_map (λ v. v.items) lines
        ≡ lines_stated book (found release_lines book seq))
        (state S.Store tx.old.conn.now) (state S.Store tx.new.conn.now) result }
    ensures any_rows { ReadsAny (λ trees lines. LinesStated seq trees
        (option_map (λ v. v.items) lines))
        (state S.Store tx.old.conn.now) (state S.Store tx.new.conn.now) result }
{
    let rows = crs_line_by_seq(alloc, tx, seq)?;
    let mut lines = Vec::new(alloc);
    let mut rest = rows.as_slice();
    while let Some((row, later)) = rest.split_first() {
        let Some(certified) = certified_in(row) else {
            return Ok(None);
        };
        let said = line_named(alloc, tx, certified)?;
        match said {
            Some(line) => lines.push(line)?,
            None => return Ok(None),
        }
        rest = later;
    }
    Ok(Some(lines))
}

// The place that the row of a release says; none where its item is not there, or is none of its kind of place.
fn place_stated<S: Alter>(
    alloc: Global,
    tx: &mut Transaction<'_, S>,
    row: &ReleaseRow,
) -> Result<Option<Place>, TableFault>
    ensures same_reference { tx.new.conn.ghost_name ≡ tx.old.conn.ghost_name }
    ensures reads { Reads (λ book place. place ≡ place_said book row.now)
        (state S.Store tx.old.conn.now) (state S.Store tx.new.conn.now) result }
    ensures any_rows { ReadsAny (PlaceStated row.now)
        (state S.Store tx.old.conn.now) (state S.Store tx.new.conn.now) result }
{
    let named = item_of_number(alloc, tx, row.item)?;
    match named {
        Some(item) => Ok(place_of(row.kind, item)),
        None => Ok(None),
    }
}

// The release that a row says, at this place with these lines.
fn release_named(row: &ReleaseRow, place: Option<Place>, lines: Option<Vec<Line>>) -> Option<Body>
    ensures { option_map act_of result ≡ option_and_then
        (λ p. option_map (release_said row.now p) (option_map (λ v. v.items) lines)) place }
{
    match (place, lines) {
        (Some(place), Some(lines)) => Some(body_of_release(row, place, lines)),
        _ => None,
    }
}

// The release that the entry with this number is, with its lines; none where its place or a line states nothing.
pub(crate) fn release_stated<S: Alter>(
    alloc: Global,
    tx: &mut Transaction<'_, S>,
    seq: u32,
) -> Result<Option<Body>, TableFault>
    ensures same_reference { tx.new.conn.ghost_name ≡ tx.old.conn.ghost_name }
    ensures reads { Reads (λ book said. option_map act_of said
        ≡ release_stated book (found release_lines book seq) (found releases book seq))
        (state S.Store tx.old.conn.now) (state S.Store tx.new.conn.now) result }
    ensures any_rows { ReadsAny (λ trees said. ReleaseStated seq trees (option_map act_of said))
        (state S.Store tx.old.conn.now) (state S.Store tx.new.conn.now) result }
{
    let rows = crs_by_seq(alloc, tx, seq)?;
    let Some(row) = rows.first() else {
        return Ok(None);
    };
    let at = place_stated(alloc, tx, row)?;
    let certified = lines_stated(alloc, tx, seq)?;
    Ok(release_named(row, at, certified))
}
