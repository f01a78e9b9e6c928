//! The totals of the items with some numbers, as they are.
ghost use Rattle.std.specs.Prelude.{◌≡◌, ◌+◌, ◌≤◌, ◌<◌, ◌↔◌, ◌++◌, [], ℕ, All, Some, IfOk, IfSome, IsTrue, OnOk, filter, get_or, is_some, length};
ghost use Rattle.std.specs.List.{cons_option};
ghost use Rattle.sqlite.specs.Held.{state};
ghost use Rattle.mx_book.specs.due.Due.{IsLife};
ghost use Rattle.mx_registers.specs.Names.{item_at};
ghost use Rattle.mx_registers.specs.kept.Totals.{is_among, total_in, total_rows};
ghost use Rattle.mx_row_rules.specs.changes.Kept.{HasLife};
ghost use Rattle.mx_lookups.specs.numbers.AnyRows.{ReadsAny};
ghost use Rattle.mx_lookups.specs.numbers.Reads.{Reads};
ghost use Rattle.mx_lookups.specs.numbers.Told.{TellsDamage};
ghost use Rattle.mx_apply.specs.made.Damage.{ItemAtDamage, TotalAtDamage, TotalsDamage};
ghost use Rattle.mx_apply.specs.made.Found.{AppendsTotal, AreTotalsOf};
ghost use Rattle.mx_apply.specs.made.Totals.{HasItem, TotalOf};

use mx_base::rows::TotalRow;
use mx_base::{Base, Use};
use mx_layout::{Table, TableFault};
use mx_row_rules::found::aircraft::aircraft_number;
use mx_row_rules::found::components::component_number;
use mx_row_rules::found::lives::is_of_life;
use mx_table_rows::chosen::items::{aircraft_by_seq, component_by_seq};
use mx_table_rows::chosen::kept::total2_by_item;
use sqlite::{Alter, Transaction};
use std::alloc::Global;

// Whether this number was found.
fn is_number(found: Option<u32>, number: u32) -> bool
    ensures { IsTrue result ↔ (found ≡ Some number) }
{
    match found {
        Some(other) => other == number,
        None => false,
    }
}

// Whether an aircraft or a component has this number.
fn is_item<S: Alter>(
    alloc: Global,
    tx: &mut Transaction<'_, S>,
    number: u32,
) -> Result<bool, TableFault>
    ensures same_reference { tx.new.conn.ghost_name ≡ tx.old.conn.ghost_name }
    ensures reads { Reads (λ book there. there ≡ is_some (item_at book number))
        (state S.Store tx.old.conn.now) (state S.Store tx.new.conn.now) result }
    ensures any_rows { ReadsAny (λ trees there. IsTrue there ↔ HasItem number trees)
        (state S.Store tx.old.conn.now) (state S.Store tx.new.conn.now) result }
    ensures damage { TellsDamage (ItemAtDamage number)
        (state S.Store tx.old.conn.now) (state S.Store tx.new.conn.now) result }
{
    let aircraft = aircraft_by_seq(alloc, tx, number)?;
    if is_number(aircraft_number(&aircraft), number) {
        return Ok(true);
    }
    let components = component_by_seq(alloc, tx, number)?;
    Ok(is_number(component_number(&components), number))
}

/// Whether an item of a book may have the life.
pub(crate) fn is_life(life: &Use) -> bool
    ensures { IsTrue result ↔ IsLife life.now }
{
    is_of_life(&Base {
        minutes: life.minutes,
        cycles: life.cycles,
        day: 0,
    })
}

/// The total of the item with a number, as it is; none where no item has the number. `Damaged` with `total2` where an aircraft
/// or a component has it and there is no total, or that is past a life.
pub fn total_of<S: Alter>(
    alloc: Global,
    tx: &mut Transaction<'_, S>,
    number: u32,
) -> Result<Option<TotalRow>, TableFault>
    ensures same_reference { tx.new.conn.ghost_name ≡ tx.old.conn.ghost_name }
    ensures reads { Reads (λ book found. found ≡ total_in (total_rows book) number)
        (state S.Store tx.old.conn.now) (state S.Store tx.new.conn.now) result }
    ensures any_rows { ReadsAny (TotalOf number)
        (state S.Store tx.old.conn.now) (state S.Store tx.new.conn.now) result }
    ensures damage { TellsDamage (TotalAtDamage number)
        (state S.Store tx.old.conn.now) (state S.Store tx.new.conn.now) result }
    ensures life { IfOk result (λ found. IfSome found HasLife) }
{
    let rows = total2_by_item(alloc, tx, number)?;
    match rows.first() {
        Some(row) => {
            if is_life(&row.life) {
                Ok(Some(*row))
            } else {
                Err(TableFault::Damaged(Table::Total2))
            }
        }
        None => {
            let there = is_item(alloc, tx, number)?;
            if there {
                Err(TableFault::Damaged(Table::Total2))
            } else {
                Ok(None)
            }
        }
    }
}

// Appends the total of the item with a number, where there is one.
fn push_total<S: Alter>(
    alloc: Global,
    tx: &mut Transaction<'_, S>,
    totals: &mut Vec<TotalRow>,
    number: u32,
) -> Result<(), TableFault>
    ensures same_reference { tx.new.conn.ghost_name ≡ tx.old.conn.ghost_name }
    ensures reads { Reads (λ book done. totals.new.items
        ≡ totals.old.items ++ cons_option (total_in (total_rows book) number) [])
        (state S.Store tx.old.conn.now) (state S.Store tx.new.conn.now) result }
    ensures any_rows { ReadsAny (λ trees done.
        AppendsTotal number totals.old.items totals.new.items trees)
        (state S.Store tx.old.conn.now) (state S.Store tx.new.conn.now) result }
    ensures damage { TellsDamage (TotalAtDamage number)
        (state S.Store tx.old.conn.now) (state S.Store tx.new.conn.now) result }
    ensures lives { OnOk result (All HasLife totals.old.items → All HasLife totals.new.items) }
{
    let found = total_of(alloc, tx, number)?;
    match found {
        Some(row) => Ok(totals.push(row)?),
        None => Ok(()),
    }
}

// The totals of the items with these numbers, of which there are some, in order. A number that is there twice is asked once.
fn totals_in_order<S: Alter>(
    alloc: Global,
    tx: &mut Transaction<'_, S>,
    numbers: &[u32],
) -> Result<Vec<TotalRow>, TableFault>
    requires some { 0 < length numbers.now }
    requires sorted { (k d : ℕ) → k + 1 < length numbers.now
        → get_or numbers.now k d ≤ get_or numbers.now (k + 1) d }
    ensures same_reference { tx.new.conn.ghost_name ≡ tx.old.conn.ghost_name }
    ensures reads { Reads (λ book totals.
        totals.items ≡ filter (is_among numbers.now) (total_rows book))
        (state S.Store tx.old.conn.now) (state S.Store tx.new.conn.now) result }
    ensures any_rows { ReadsAny (λ trees totals. AreTotalsOf numbers.now trees totals.items)
        (state S.Store tx.old.conn.now) (state S.Store tx.new.conn.now) result }
    ensures damage { TellsDamage (TotalsDamage numbers.now)
        (state S.Store tx.old.conn.now) (state S.Store tx.new.conn.now) result }
    ensures lives { IfOk result (λ totals. All HasLife totals.items) }
{
    let mut totals = Vec::new(alloc);
    push_total(alloc, tx, &mut totals, numbers[0])?;
    'numbers: for i in 1..numbers.len() {
        if numbers[i - 1] != numbers[i] {
            push_total(alloc, tx, &mut totals, numbers[i])?;
        }
    }
    Ok(totals)
}

/// The totals of the items with these numbers, of which there are some, as they are, in the order of the numbers, each once.
/// `Damaged` with `total2` where an aircraft or a component has one of them and there is no total, or that is past a life.
pub fn totals_of<S: Alter>(
    alloc: Global,
    tx: &mut Transaction<'_, S>,
    numbers: &[u32],
) -> Result<Vec<TotalRow>, TableFault>
    requires some { 0 < length numbers.now }
    ensures same_reference { tx.new.conn.ghost_name ≡ tx.old.conn.ghost_name }
    ensures reads { Reads (λ book totals.
        totals.items ≡ filter (is_among numbers.now) (total_rows book))
        (state S.Store tx.old.conn.now) (state S.Store tx.new.conn.now) result }
    ensures any_rows { ReadsAny (λ trees totals. AreTotalsOf numbers.now trees totals.items)
        (state S.Store tx.old.conn.now) (state S.Store tx.new.conn.now) result }
    ensures damage { TellsDamage (TotalsDamage numbers.now)
        (state S.Store tx.old.conn.now) (state S.Store tx.new.conn.now) result }
    ensures lives { IfOk result (λ totals. All HasLife totals.items) }
{
    let mut sorted = Vec::from_slice(alloc, numbers)?;
    sorted.sort_unstable();
    totals_in_order(alloc, tx, &sorted)
}
