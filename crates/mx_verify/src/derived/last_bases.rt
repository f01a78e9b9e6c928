//! The last bases of a book, made of its openings and of the lines of its releases.
//!
//! Of which tasks there are last bases is what the openings and the lines of the releases name; what each of them is,
//! the book is asked that the registers give. So these rows are walked once, a task that was met before is
//! passed over, and neither the items of the book nor the tasks of each are needed. A task that has no base is passed
//! over too: in a book none is named without one, and of other registers nothing is made up. No order is promised,
//! since who writes them picks those of an item by its number.
ghost use Rattle.std.specs.Prelude.{◌≡◌, ℕ, List, [], ◌∷◌, ◌++◌, IfOk, IsPermutation, OnOk, map};
ghost use Rattle.std.specs.List.{filter_map};
ghost use Rattle.mx_book.specs.due.Due.{IsBase};
ghost use Rattle.mx_base.specs.rows.Rows.{base_row_with};
ghost use Rattle.mx_registers.specs.Registers.{opening_rows, release_line_rows};
ghost use Rattle.mx_registers.specs.kept.Bases.{base_rows};
ghost use Rattle.mx_verify.specs.merged.Keys.{AreKeys};
ghost use Rattle.mx_verify.specs.derived.Kept.{AreBasesAt, base_row_at, key_certified, key_stated};

use crate::merged::KeptBook;
use mx_base::rows::{BaseRow, OpeningRow, ReleaseLineRow};
use mx_base::{Base, Day, TaskId, Use};
use mx_book::entry_list::NoMemory;
use mx_indexed_book::maps::maps::held;
use mx_registers::plain::item_of_entry;
use std::alloc::Global;
use std::collections::BTreeMap;

// The row of a base of a task of the item with this number.
fn base_row(number: u32, task: &TaskId, base: &Base) -> BaseRow
    requires { IsBase base.now }
    ensures { result ≡ base_row_with number task.now base.now }
{
    BaseRow {
        item: number,
        task: *task,
        life: Use {
            minutes: base.minutes,
            cycles: base.cycles,
        },
        day: Day::of_number(base.day).unwrap(),
    }
}

// The row of the last base of a task of the item that the entry with this number added, where there is one.
fn base_row_at(book: &KeptBook, key: &(u32, TaskId)) -> Option<BaseRow>
    ensures { result ≡ base_row_at book.now key.now }
{
    let item = item_of_entry(book.plain(), key.0)?;
    let base = book.base(key.0, &item, &key.1)?;
    Some(base_row(key.0, &key.1, &base))
}

// The task that a line certifies, with the number of the item, where it certifies one.
fn key_certified(row: &ReleaseLineRow) -> Option<(u32, TaskId)>
    ensures { result ≡ key_certified row.now }
{
    match row.item {
        None => None,
        Some(item) => match row.task {
            None => None,
            Some(task) => Some((item, task)),
        },
    }
}

// The tasks that openings state, with the numbers of their items.
fn keys_stated(alloc: Global, openings: &[OpeningRow]) -> Result<Vec<(u32, TaskId)>, NoMemory>
    ensures { IfOk result (λ keys. keys.items ≡ map key_stated openings.now) }
{
    match openings
        .iter()
        .map(|row| (row.item, row.task))
        .collect(alloc)
    {
        Ok(keys) => Ok(keys),
        Err(_) => Err(NoMemory),
    }
}

// The tasks that lines certify, with the numbers of their items.
fn keys_certified(alloc: Global, lines: &[ReleaseLineRow]) -> Result<Vec<(u32, TaskId)>, NoMemory>
    ensures { IfOk result (λ keys. keys.items ≡ filter_map key_certified lines.now) }
{
    match lines.iter().filter_map(key_certified).collect(alloc) {
        Ok(keys) => Ok(keys),
        Err(_) => Err(NoMemory),
    }
}

// Adds the last base of a task to rows, where it has one and they have none of it yet; the map has of which tasks they are.
fn add_base(
    book: &KeptBook,
    rows: &mut Vec<BaseRow>,
    met: &mut BTreeMap<(u32, TaskId), bool>,
    key: &(u32, TaskId),
) -> Result<(), NoMemory>
    ensures { (keys : List (ℕ × List ℕ)) → AreBasesAt book.now keys rows.old.items
        → AreKeys rows.old.items met.old → OnOk result
        (AreBasesAt book.now (keys ++ key.now ∷ []) rows.new.items
        × AreKeys rows.new.items met.new) }
{
    if held(met, key, false) {
        return Ok(());
    }
    let Some(row) = base_row_at(book, key) else {
        return Ok(());
    };
    match met.insert(*key, true) {
        Ok(_) => {}
        Err(_) => return Err(NoMemory),
    }
    match rows.push(row) {
        Ok(()) => Ok(()),
        Err(_) => Err(NoMemory),
    }
}

// Adds the last bases of tasks to rows, each once.
fn add_bases(
    book: &KeptBook,
    rows: &mut Vec<BaseRow>,
    met: &mut BTreeMap<(u32, TaskId), bool>,
    keys: &[(u32, TaskId)],
) -> Result<(), NoMemory>
    ensures { (before : List (ℕ × List ℕ)) → AreBasesAt book.now before rows.old.items
        → AreKeys rows.old.items met.old → OnOk result
        (AreBasesAt book.now (before ++ keys.now) rows.new.items × AreKeys rows.new.items met.new) }
{
    let mut rest = keys;
    while let Some((key, later)) = rest.split_first() {
        add_base(book, rows, met, key)?;
        rest = later;
    }
    Ok(())
}

/// The last bases of a book whose openings and lines of releases these are, in any order. `NoMemory` where memory runs out.
pub fn last_bases(
    alloc: Global,
    book: &KeptBook,
    openings: &[OpeningRow],
    lines: &[ReleaseLineRow],
) -> Result<Vec<BaseRow>, NoMemory>
    ensures { openings.now ≡ opening_rows book.now → lines.now ≡ release_line_rows book.now
        → IfOk result (λ rows. IsPermutation rows.items (base_rows book.now)) }
{
    let _ = book.plain().len();
    let mut rows = Vec::new(alloc);
    let mut met = BTreeMap::new(alloc);
    let stated = keys_stated(alloc, openings)?;
    add_bases(book, &mut rows, &mut met, stated.as_slice())?;
    let certified = keys_certified(alloc, lines)?;
    add_bases(book, &mut rows, &mut met, certified.as_slice())?;
    Ok(rows)
}
