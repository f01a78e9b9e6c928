//! Rows of last bases, and whether they are those that a book gives.
ghost use Rattle.std.specs.Prelude.{◌≡◌, ◌&&◌, IfOk, MatchOption, IsPermutation};
ghost use Rattle.std.specs.Bool.{Decides};
ghost use Rattle.std.specs.List.{list_all};
ghost use Rattle.mx_base.specs.rows.Rows.{base_in_row};
ghost use Rattle.mx_registers.specs.Registers.{opening_rows, release_line_rows};
ghost use Rattle.mx_registers.specs.kept.Bases.{AreKeyedOnce, base_rows};
ghost use Rattle.mx_verify.specs.merged.Keys.{AreKeys};
ghost use Rattle.mx_verify.specs.verified.Bases.{has_certified, has_stated};
ghost use Rattle.mx_registers.specs.file.Bases.{is_last_base, same_base};

use crate::merged::KeptBook;
use mx_base::rows::{BaseRow, OpeningRow, ReleaseLineRow};
use mx_base::{Base, TaskId};
use mx_book::entry_list::NoMemory;
use mx_indexed_book::maps::maps::held;
use mx_registers::plain::item_of_entry;
use std::alloc::Global;
use std::collections::BTreeMap;

// The base in a row.
fn base_in(row: &BaseRow) -> Base
    ensures { result ≡ base_in_row row.now }
{
    Base {
        minutes: row.life.minutes,
        cycles: row.life.cycles,
        day: row.day.number(),
    }
}

// Whether two bases are the same.
fn is_same_base(one: &Base, other: &Base) -> bool
    ensures { result ≡ same_base one.now other.now }
{
    one.minutes == other.minutes && one.cycles == other.cycles && one.day == other.day
}

// Whether a row has the last base of its task of its item.
fn is_last_base(book: &KeptBook, row: &BaseRow) -> bool
    ensures { result ≡ is_last_base book.now row.now }
{
    match item_of_entry(book.plain(), row.item) {
        Some(item) => match book.base(row.item, &item, &row.task) {
            Some(base) => is_same_base(&base_in(row), &base),
            None => false,
        },
        None => false,
    }
}

// Whether each row has the last base of its task of its item.
fn are_last_bases(book: &KeptBook, rows: &[BaseRow]) -> bool
    ensures { result ≡ list_all (is_last_base book.now) rows.now }
{
    rows.iter().all(|row| is_last_base(book, row))
}

// Of which tasks there are rows, or `None` where two rows are of one task of one item.
fn keys_of(
    alloc: Global,
    rows: &[BaseRow],
) -> Result<Option<BTreeMap<(u32, TaskId), bool>>, NoMemory>
    ensures { IfOk result (λ found. MatchOption found (AreKeyedOnce rows.now → ⊥)
        (λ keys. AreKeyedOnce rows.now × AreKeys rows.now keys)) }
{
    let mut keys = BTreeMap::new(alloc);
    let mut rest = rows;
    while let Some((row, later)) = rest.split_first() {
        if held(&keys, &(row.item, row.task), false) {
            return Ok(None);
        }
        match keys.insert((row.item, row.task), true) {
            Ok(_) => {}
            Err(_) => return Err(NoMemory),
        }
        rest = later;
    }
    Ok(Some(keys))
}

// Whether a map has the task that an opening states.
fn is_stated(keys: &BTreeMap<(u32, TaskId), bool>, row: &OpeningRow) -> bool
    ensures { result ≡ has_stated keys.now row.now }
{
    held(keys, &(row.item, row.task), false)
}

// Whether a map has the task that a line certifies, if it certifies one.
fn is_certified(keys: &BTreeMap<(u32, TaskId), bool>, row: &ReleaseLineRow) -> bool
    ensures { result ≡ has_certified keys.now row.now }
{
    match row.item {
        None => true,
        Some(item) => match row.task {
            None => true,
            Some(task) => held(keys, &(item, task), false),
        },
    }
}

// Whether a map has all tasks that openings state.
fn are_stated(keys: &BTreeMap<(u32, TaskId), bool>, openings: &[OpeningRow]) -> bool
    ensures { result ≡ list_all (has_stated keys.now) openings.now }
{
    openings.iter().all(|row| is_stated(keys, row))
}

// Whether a map has all tasks that lines certify.
fn are_certified(keys: &BTreeMap<(u32, TaskId), bool>, lines: &[ReleaseLineRow]) -> bool
    ensures { result ≡ list_all (has_certified keys.now) lines.now }
{
    lines.iter().all(|row| is_certified(keys, row))
}

// Whether each row has the last base of its task, and a map has each task that openings state and lines certify.
fn are_right(
    book: &KeptBook,
    keys: &BTreeMap<(u32, TaskId), bool>,
    openings: &[OpeningRow],
    lines: &[ReleaseLineRow],
    rows: &[BaseRow],
) -> bool
    ensures { result ≡ ((list_all (is_last_base book.now) rows.now
        && list_all (has_stated keys.now) openings.now)
        && list_all (has_certified keys.now) lines.now) }
{
    are_last_bases(book, rows) && are_stated(keys, openings) && are_certified(keys, lines)
}

/// Whether rows are, in any order, the last bases of a book whose openings and lines of releases these are. `NoMemory`
/// where memory runs out.
pub fn are_bases(
    alloc: Global,
    book: &KeptBook,
    openings: &[OpeningRow],
    lines: &[ReleaseLineRow],
    rows: &[BaseRow],
) -> Result<bool, NoMemory>
    ensures { openings.now ≡ opening_rows book.now → lines.now ≡ release_line_rows book.now
        → IfOk result (λ same. Decides same (IsPermutation rows.now (base_rows book.now))) }
{
    let _ = book.plain().len();
    let Some(keys) = keys_of(alloc, rows)? else {
        return Ok(false);
    };
    Ok(are_right(book, &keys, openings, lines, rows))
}
