//! A use that is entered late, since the sector was.
//!
//! It goes to the totals of the items, and to the values of those of their accomplishments whose release is behind the
//! landing: what the items had been used then was more by it. Totals, accomplishments and releases are all read, and
//! all sums made, before the first row is written. So a damaged row of any of the three tables, a release that is
//! missing, or a sum past the most of a life, leaves each total and each value as it was; written as they are read, a
//! fault in the middle would leave totals that count a sector which the values behind it don't. What stands for the
//! lines of the accomplishments is all deleted before the first of them is added: so nothing is lost even of rows that
//! stand for one line.
ghost use Rattle.std.specs.Prelude.{◌≡◌, filter, not, nat_eq, pos, true};
ghost use Rattle.std.specs.Option.{SomeIff};
ghost use Rattle.mx_book.specs.commands.Bounds.{are_distinct};
ghost use Rattle.mx_book.specs.due.Due.{IsLife};
ghost use Rattle.sqlite.specs.declared.types.Value.TheVariants.{Int};
ghost use Rattle.sqlite.specs.Held.{state};
ghost use Rattle.mx_layout.specs.kept.Cells.{kept_crs, kept_done3};
ghost use Rattle.mx_table_rows.specs.chosen.Calls.{DeletesRows};
ghost use Rattle.mx_table_rows.specs.chosen.Choices.{has_value};
ghost use Rattle.mx_table_rows.specs.totals.Calls.{ReadsFrom};
ghost use Rattle.mx_table_rows.specs.totals.Done.{IsDated, is_own_line};
ghost use Rattle.mx_table_rows.specs.totals.Puts.{WritesRows, rows_instead};
ghost use Rattle.mx_table_rows.specs.totals.Single.{IsOnly, HasOne};
ghost use Rattle.mx_table_rows.specs.totals.Totals.{life_with};
ghost use Rattle.mx_table_rows.specs.totals.Late.{life_at, done_with, CantCreditLate, CreditsLate};
ghost use Rattle.mx_table_rows.specs.totals.LateSteps.{ReadsLate, AreOfEach, AreUnread, IsTaken, CantTake, AreTaken, OneCantTake, AreLate, is_any_line};

use crate::chosen::chosen::delete_rows;
use crate::chosen::later::done3_by_item;
use crate::chosen::works::crs_by_seq;
use crate::totals::instead::add_rows;
use crate::totals::lives::life_with;
use crate::totals::single::only;
use crate::totals::totals;
use mx_base::rows::{DoneRow, ReleaseRow};
use mx_base::{Base, Moment, Use};
use mx_layout::{Table, TableFault};
use mx_tables::dated::DatedRow;
use sqlite::{Alter, Transaction, params};
use std::alloc::Global;

// The release of an entry.
fn release_of<S: Alter>(
    alloc: Global,
    tx: &mut Transaction<'_, S>,
    seq: u32,
) -> Result<ReleaseRow, TableFault>
    ensures same_reference { tx.new.conn.ghost_name ≡ tx.old.conn.ghost_name }
    ensures reads { ReadsFrom kept_crs (IsOnly kept_crs (has_value 0 (Int (pos seq))))
        (λ rows. ¬ HasOne kept_crs (has_value 0 (Int (pos seq))) rows)
        (state S.Store tx.old.conn.now) (state S.Store tx.new.conn.now) result }
{
    let read = crs_by_seq(alloc, tx, seq);
    only(Table::Crs, read)
}

// The accomplishment with the use added to its value, or `None` where that is past the most of a life.
fn value_with(row: DoneRow, added: Use) -> Option<DatedRow>
    ensures { SomeIff result (IsDated row × IsLife (life_with (life_at row) added))
        (done_with added row) }
{
    let life = Use {
        minutes: row.value.minutes,
        cycles: row.value.cycles,
    };
    let sum = life_with(life, added)?;
    DatedRow::of(DoneRow {
        value: Base {
            minutes: sum.minutes,
            cycles: sum.cycles,
            day: row.value.day,
        },
        ..row
    })
}

// The accomplishment with the use added to its value, or `None` where its release is not behind the landing, or where
// an opening stated it, which has no release.
fn row_with<S: Alter>(
    alloc: Global,
    tx: &mut Transaction<'_, S>,
    row: DoneRow,
    added: Use,
    landed: Moment,
) -> Result<Option<DatedRow>, TableFault>
    ensures same_reference { tx.new.conn.ghost_name ≡ tx.old.conn.ghost_name }
    ensures reads { ReadsLate (IsTaken added landed row) (CantTake added landed row)
        (state S.Store tx.old.conn.now) (state S.Store tx.new.conn.now) result }
{
    if row.line == 0 {
        return Ok(None);
    }
    let release = release_of(alloc, tx, row.seq)?;
    if release.moment < landed {
        return Ok(None);
    }
    match value_with(row, added) {
        Some(late) => Ok(Some(late)),
        None => Err(TableFault::Damaged(Table::Done3)),
    }
}

// Those of these accomplishments whose release is behind the landing, each with the use added to its value.
fn rows_with<S: Alter>(
    alloc: Global,
    tx: &mut Transaction<'_, S>,
    rows: &[DoneRow],
    added: Use,
    landed: Moment,
) -> Result<Vec<DatedRow>, TableFault>
    ensures same_reference { tx.new.conn.ghost_name ≡ tx.old.conn.ghost_name }
    ensures reads { ReadsLate
        (λ trees made. AreTaken added landed rows.now trees made.items)
        (OneCantTake added landed rows.now)
        (state S.Store tx.old.conn.now) (state S.Store tx.new.conn.now) result }
{
    let mut late = Vec::new(alloc);
    'rows: for row in rows {
        match row_with(alloc, tx, *row, added, landed)? {
            Some(made) => late.push(made)?,
            None => continue,
        }
    }
    Ok(late)
}

// The accomplishments of these items.
fn rows_of<S: Alter>(
    alloc: Global,
    tx: &mut Transaction<'_, S>,
    items: &[u32],
) -> Result<Vec<DoneRow>, TableFault>
    ensures same_reference { tx.new.conn.ghost_name ≡ tx.old.conn.ghost_name }
    ensures reads { ReadsLate (λ trees rows. AreOfEach items.now trees rows.items)
        (AreUnread items.now)
        (state S.Store tx.old.conn.now) (state S.Store tx.new.conn.now) result }
{
    let mut rows = Vec::new(alloc);
    'items: for item in items {
        let of_item = done3_by_item(alloc, tx, *item)?;
        rows.extend_from_slice(&of_item)?;
    }
    Ok(rows)
}

// Those of the accomplishments of these items whose release is behind the landing, each with the use added to its
// value.
fn late_rows<S: Alter>(
    alloc: Global,
    tx: &mut Transaction<'_, S>,
    items: &[u32],
    added: Use,
    landed: Moment,
) -> Result<Vec<DatedRow>, TableFault>
    requires { are_distinct nat_eq items.now ≡ true }
    ensures same_reference { tx.new.conn.ghost_name ≡ tx.old.conn.ghost_name }
    ensures reads { ReadsLate (λ trees made. AreLate items.now added landed trees made.items)
        (CantCreditLate items.now added landed)
        (state S.Store tx.old.conn.now) (state S.Store tx.new.conn.now) result }
{
    let rows = rows_of(alloc, tx, items)?;
    rows_with(alloc, tx, &rows, added, landed)
}

// Deletes what stands for the line of an accomplishment.
fn delete_line<S: Alter>(tx: &mut Transaction<'_, S>, row: &DatedRow) -> Result<(), TableFault>
    ensures same_reference { tx.new.conn.ghost_name ≡ tx.old.conn.ghost_name }
    ensures deletes { DeletesRows kept_done3 (is_own_line row.now)
        (state S.Store tx.old.conn.now) (state S.Store tx.new.conn.now) result }
{
    let done = row.row();
    delete_rows::<S, DatedRow>(
        tx,
        "DELETE FROM done3 WHERE item = ?1 AND task = ?2 AND seq = ?3 AND line = ?4",
        params![done.item, done.task.as_str(), done.seq, done.line],
    )
}

// Deletes what stands for the lines of these accomplishments.
fn delete_lines<S: Alter>(tx: &mut Transaction<'_, S>, rows: &[DatedRow]) -> Result<(), TableFault>
    ensures same_reference { tx.new.conn.ghost_name ≡ tx.old.conn.ghost_name }
    ensures writes { WritesRows kept_done3 (filter (λ row. not (is_any_line rows.now row)))
        (state S.Store tx.old.conn.now) (state S.Store tx.new.conn.now) result }
{
    'rows: for row in rows {
        delete_line(tx, row)?;
    }
    Ok(())
}

// Writes accomplishments, in place of all that stands for their lines.
fn exchange_lines<S: Alter>(
    tx: &mut Transaction<'_, S>,
    rows: &[DatedRow],
) -> Result<(), TableFault>
    ensures same_reference { tx.new.conn.ghost_name ≡ tx.old.conn.ghost_name }
    ensures writes { WritesRows kept_done3
        (rows_instead kept_done3 (is_any_line rows.now) rows.now)
        (state S.Store tx.old.conn.now) (state S.Store tx.new.conn.now) result }
{
    delete_lines(tx, rows)?;
    add_rows(tx, rows)
}

/// Adds the use of a sector that is entered late to the totals of these items, and to the values of those of their
/// accomplishments whose release has a moment that is not before the landing, and to no other: all rows are read before
/// the first is written. An accomplishment with line 0 is an opening's: it has no release, and stays. Due and base of
/// the accomplishments stay too. Nothing is changed where a table is damaged: `Damaged` with `total2` where `credit`
/// tells it; with `done3` where an accomplishment of one of the items can't be read, or where a value that is behind the
/// landing would be past the most of a life: 1,540,000,000 minutes and 51,000,000 cycles; with `crs` where the release
/// of an accomplishment of one of the items is not there, stands there more than once, or can't be read. `Memory` for
/// want of memory, and `Store` for an error of the store.
pub fn credit_late<S: Alter>(
    alloc: Global,
    tx: &mut Transaction<'_, S>,
    items: &[u32],
    added: Use,
    landed: Moment,
) -> Result<(), TableFault>
    requires { are_distinct nat_eq items.now ≡ true }
    ensures same_reference { tx.new.conn.ghost_name ≡ tx.old.conn.ghost_name }
    ensures credits { CreditsLate items.now added landed
        (state S.Store tx.old.conn.now) (state S.Store tx.new.conn.now) result }
{
    let credited = totals::rows_with(alloc, tx, items, added)?;
    let late = late_rows(alloc, tx, items, added, landed)?;
    totals::put_rows(tx, &credited)?;
    exchange_lines(tx, &late)
}
