//! The cycles at which deferred defects were found.
//!
//! A sector that is entered late adds to the cycles at which defects were found behind it. All defects of the aircraft are
//! read, and all sums made, before the first is written: so a damaged row, or a sum past the most of a life, leaves each
//! of them as it was.
ghost use Rattle.std.specs.Prelude.{◌≡◌, ◌⊎◌, Any, IfOk, IfErr};
ghost use Rattle.sqlite.specs.Held.{state};
ghost use Rattle.mx_layout.specs.kept.Cells.{kept_defect3};
ghost use Rattle.mx_table_rows.specs.totals.Calls.{ReadsFrom, ChangesRows, change_where};
ghost use Rattle.mx_table_rows.specs.totals.Found.{is_found_from, is_own_defect, found_later, CanGain, AllCanShift, OneCantShift, AreGained, AreShifted};
ghost use Rattle.mx_table_rows.specs.totals.Puts.{PutsRows};

use crate::chosen::later::defect3_by_aircraft;
use crate::totals::in_place::set_found;
use crate::totals::lives::cycles_with;
use mx_base::Moment;
use mx_base::rows::Deferral3Row;
use mx_layout::{Table, TableFault};
use sqlite::{Alter, Transaction};
use std::alloc::Global;

// Those of these defects that were found at this moment or later, each at so many cycles more. `Damaged` with `defect3`
// where that is past the most cycles of a life.
fn rows_with(
    alloc: Global,
    rows: &[Deferral3Row],
    cycles: u32,
    landed: Moment,
) -> Result<Vec<Deferral3Row>, TableFault>
    ensures shifted { IfOk result (λ v. AreGained cycles landed rows.now v.items) }
    ensures stopped { IfErr result (λ e. (e ≡ TableFault.Memory)
        ⊎ ((e ≡ TableFault.Damaged Table.Defect3)
        × Any (λ x. ¬ CanGain cycles landed x) rows.now)) }
{
    let mut shifted = Vec::new(alloc);
    'rows: for row in rows {
        if row.deferral.moment < landed {
            continue;
        }
        match cycles_with(row.found_cycles, cycles) {
            Some(found_cycles) => shifted.push(Deferral3Row {
                found_cycles,
                ..*row
            })?,
            None => return Err(TableFault::Damaged(Table::Defect3)),
        }
    }
    Ok(shifted)
}

// The defects of an aircraft that were found at this moment or later, each at so many cycles more.
fn shifted<S: Alter>(
    alloc: Global,
    tx: &mut Transaction<'_, S>,
    aircraft: u32,
    cycles: u32,
    landed: Moment,
) -> Result<Vec<Deferral3Row>, TableFault>
    ensures same_reference { tx.new.conn.ghost_name ≡ tx.old.conn.ghost_name }
    ensures reads { ReadsFrom kept_defect3
        (λ rows shifted. AreShifted aircraft cycles landed rows shifted.items)
        (OneCantShift aircraft cycles landed)
        (state S.Store tx.old.conn.now) (state S.Store tx.new.conn.now) result }
{
    let rows = defect3_by_aircraft(alloc, tx, aircraft)?;
    rows_with(alloc, &rows, cycles, landed)
}

// Writes deferrals, each in place of the one of the same entry.
fn put_rows<S: Alter>(tx: &mut Transaction<'_, S>, rows: &[Deferral3Row]) -> Result<(), TableFault>
    ensures same_reference { tx.new.conn.ghost_name ≡ tx.old.conn.ghost_name }
    ensures puts { PutsRows kept_defect3 is_own_defect rows.now
        (state S.Store tx.old.conn.now) (state S.Store tx.new.conn.now) result }
{
    'rows: for row in rows {
        set_found(tx, row)?;
    }
    Ok(())
}

/// Adds cycles to those at which the defects of an aircraft were found, of each that was found at this moment or later,
/// and of no other: all are read before the first is written. `Damaged` with `defect3`, and nothing changed, where a
/// defect of the aircraft can't be read, or where a sum is past the most cycles of a life: 51,000,000. `Memory` for want
/// of memory, and `Store` for an error of the store.
pub fn shift_found<S: Alter>(
    alloc: Global,
    tx: &mut Transaction<'_, S>,
    aircraft: u32,
    cycles: u32,
    landed: Moment,
) -> Result<(), TableFault>
    ensures same_reference { tx.new.conn.ghost_name ≡ tx.old.conn.ghost_name }
    ensures changes { ChangesRows kept_defect3
        (change_where (is_found_from aircraft landed) (found_later cycles))
        (AllCanShift aircraft cycles landed) (OneCantShift aircraft cycles landed)
        (state S.Store tx.old.conn.now) (state S.Store tx.new.conn.now) result }
{
    let rows = shifted(alloc, tx, aircraft, cycles, landed)?;
    put_rows(tx, &rows)
}
