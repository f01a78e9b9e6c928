//! The look-ups of the whole fleet: all registrations, all serial numbers, and the open defects of all aircraft.
ghost use Rattle.std.specs.Prelude.{◌≡◌, ℕ, filter, map, nat_eq, not};
ghost use Rattle.std.specs.HashSet.{contains};
ghost use Rattle.mx_book.specs.commands.Act.{aircraft_of, component_of};
ghost use Rattle.mx_book.specs.Defect.{defects, is_rectified};
ghost use Rattle.mx_book.specs.Register.{register};
ghost use Rattle.mx_row_rules.specs.found.Defects.{deferred_said, is_rectified_at};
ghost use Rattle.mx_lookups.specs.numbers.Given.{AllOpenDefects, AreRectified, DefectOfRow, Serials, Tails};
ghost use Rattle.mx_lookups.specs.numbers.LookUp.{IsLookUp, LooksUp};
ghost use Rattle.mx_lookups.specs.numbers.Told.{AllOpenDamage, DefectOfRowDamage, DefectsButDamage, SerialsDamage, TailsDamage};

use crate::lists::doc_of_number;
use crate::numbers::items::tail_of_number;
use crate::rectified::rectified_defects;
use mx_base::rows::DeferralRow;
use mx_base::{Category, Serial, Tail};
use mx_book::Defect;
use mx_layout::{Table, TableFault};
use mx_row_rules::found::aircraft::tails_said;
use mx_row_rules::found::components::serials_said;
use mx_row_rules::found::defects::defect_said;
use mx_table_rows::chosen::defects::all_defects;
use mx_table_rows::chosen::items::{all_aircraft, all_components};
use sqlite::{Alter, Transaction};
use std::alloc::Global;
use std::collections::HashSet;

/// The registrations of all aircraft, in the order of their entries. `Damaged` with `aircraft` where a row can't be read.
pub fn tails<S: Alter>(alloc: Global, tx: &mut Transaction<'_, S>) -> Result<Vec<Tail>, TableFault>
    ensures looks_up { IsLookUp S.Store
        (λ book tails. tails.items ≡ map (λ a. a.tail) (register aircraft_of book))
        (λ trees tails. Tails trees tails.items)
        TailsDamage
        tx.old tx.new result }
{
    let rows = all_aircraft(alloc, tx)?;
    Ok(tails_said(alloc, &rows)?)
}

/// The serial numbers of all components, in the order of their entries. `Damaged` with `component` where a row can't be
/// read.
pub fn serials<S: Alter>(
    alloc: Global,
    tx: &mut Transaction<'_, S>,
) -> Result<Vec<Serial>, TableFault>
    ensures looks_up { IsLookUp S.Store
        (λ book serials. serials.items ≡ map (λ c. c.serial) (register component_of book))
        (λ trees serials. Serials trees serials.items)
        SerialsDamage
        tx.old tx.new result }
{
    let rows = all_components(alloc, tx)?;
    Ok(serials_said(alloc, &rows)?)
}

// The defect that a deferral says, or `None` where its entry or its aircraft is not there.
pub(crate) fn defect_of_row<S: Alter>(
    alloc: Global,
    tx: &mut Transaction<'_, S>,
    row: &DeferralRow,
) -> Result<Option<Defect>, TableFault>
    ensures looks_up { LooksUp S.Store
        (λ book said. said ≡ deferred_said book row.now)
        (DefectOfRow row.now)
        (DefectOfRowDamage row.now)
        tx.old tx.new result }
{
    let entered = doc_of_number(alloc, tx, row.seq)?;
    match entered {
        Some(doc) => match tail_of_number(alloc, tx, row.aircraft)? {
            Some(tail) => Ok(Some(defect_said(&doc, &tail, row))),
            None => Ok(None),
        },
        None => Ok(None),
    }
}

// The defects that deferrals say, in the order of their entries, but for those with one of these numbers. Where these are
// the defects that were rectified, the open ones are left.
fn defects_but<S: Alter>(
    alloc: Global,
    tx: &mut Transaction<'_, S>,
    rectified: &HashSet<u32>,
) -> Result<Vec<Defect>, TableFault>
    ensures looks_up { IsLookUp S.Store
        (λ book found. ((n : ℕ) → contains nat_eq rectified.now n ≡ is_rectified_at book n)
        → found.items ≡ filter (λ d. not (is_rectified book d.doc)) (defects book))
        (λ trees found. AreRectified rectified.now trees → AllOpenDefects trees found.items)
        (λ name trees. AreRectified rectified.now trees → DefectsButDamage name trees)
        tx.old tx.new result }
{
    // The checker proves this loop only where the type of each field of a deferral is named in the function.
    let _: Option<Category> = None;
    let rows = all_defects(alloc, tx)?;
    let mut open = Vec::new(alloc);
    let mut rest = rows.as_slice();
    while let Some((row, later)) = rest.split_first() {
        if !rectified.contains(&row.seq) {
            let said = defect_of_row(alloc, tx, row)?;
            match said {
                Some(defect) => open.push(defect)?,
                None => return Err(TableFault::Damaged(Table::Defect)),
            }
        }
        rest = later;
    }
    Ok(open)
}

/// The open defects of all aircraft, in the order of their entries. `Damaged` with `defect` where the entry or the aircraft
/// of one is not there, and with the table of a row that can't be read, lines of releases among these.
pub fn all_open_defects<S: Alter>(
    alloc: Global,
    tx: &mut Transaction<'_, S>,
) -> Result<Vec<Defect>, TableFault>
    ensures looks_up { IsLookUp S.Store
        (λ book found. found.items ≡ filter (λ d. not (is_rectified book d.doc)) (defects book))
        (λ trees found. AllOpenDefects trees found.items)
        AllOpenDamage
        tx.old tx.new result }
{
    let rectified = rectified_defects(alloc, tx)?;
    defects_but(alloc, tx, &rectified)
}
