//! Whether the entry with a number is a command of each kind but a release, by its rows.
ghost use Rattle.std.specs.Prelude.{◌≤◌, ◌∷◌, [], length, ◌≡◌, ◌↔◌, IsTrue, map};
ghost use Rattle.mx_book.specs.commands.Act.{Added, Listed, Deferred, Extended, Loaded, Opened, Fitted, Flown, Removed};
ghost use Rattle.mx_book.specs.declared.commands.shape.TheConstants.{MOST_POSITIONS};
ghost use Rattle.mx_registers.specs.Lines.{lines_from};
ghost use Rattle.mx_registers.specs.Registers.{aircraft_row, place_row, programme_row, task_row};
ghost use Rattle.mx_layout.specs.kept.Cells.{kept_aircraft, kept_place, kept_programme, kept_task};
ghost use Rattle.mx_row_rules.specs.found.Given as registers;
ghost use Rattle.mx_lookups.specs.numbers.LookUp.{IsLookUp};
ghost use Rattle.mx_row_judge.specs.known.Known.{AreRows, RowsDamage, Says, SaysDamage, Tells, TellsRows};
ghost use Rattle.mx_book.specs.declared.commands.programme_shape.TheConstants.{MOST_TASKS};
ghost use Rattle.mx_base.specs.declared.rows.rows.Sector2Row.{Sector2Row};

use mx_base::rows::Sector2Row;
use mx_base::{Part, Position};
use mx_book::commands::{
    Aircraft, Component, Deferral, Extension, Fitting, Opening, Programme, Removal, Sector, Task,
};
use mx_layout::TableFault;
use mx_lookups::numbers::entries::defect_number;
use mx_lookups::numbers::items::{aircraft_number, component_number, item_number};
use mx_registers::{
    SectorRow, aircraft_row, component_row, deferral_row, extension_row, opening_row, or_zero,
    programme_row, sector_row,
};
use mx_row_rules::changes::{place_rows, task_rows};
use mx_row_rules::found::known::{begins_in, ends_in};
use mx_row_rules::found::same::{
    are_same_aircraft, are_same_components, are_same_deferrals, are_same_extensions,
    are_same_openings, are_same_places, are_same_programmes, are_same_tasks,
};
use mx_table_rows::chosen::defects::{defect_by_seq, extension_by_seq};
use mx_table_rows::chosen::items::{aircraft_by_seq, component_by_seq, place_by_seq};
use mx_table_rows::chosen::kept::{span2_by_fit_seq, span2_by_remove_seq};
use mx_table_rows::chosen::programmes::{programme_by_seq, task_by_seq};
use mx_table_rows::chosen::sectors::sector2_by_seq;
use mx_table_rows::chosen::works::opening_by_seq;
use sqlite::{Alter, Transaction};
use std::alloc::Global;
use std::slice;

// Whether the row of the aircraft that the entry with a number adds is that of this one.
fn is_aircraft_row<S: Alter>(
    alloc: Global,
    tx: &mut Transaction<'_, S>,
    seq: u32,
    aircraft: Aircraft,
) -> Result<bool, TableFault>
    ensures looks_up { IsLookUp S.Store
        (TellsRows registers.aircraft seq (λ book. aircraft_row seq aircraft ∷ []))
        (AreRows kept_aircraft seq (aircraft_row seq aircraft ∷ []))
        (RowsDamage kept_aircraft seq)
        tx.old tx.new result }
{
    let rows = aircraft_by_seq(alloc, tx, seq)?;
    let row = aircraft_row(seq, aircraft);
    Ok(are_same_aircraft(&rows, slice::from_ref(&row)))
}

// Whether the rows of the positions of the entry with a number are those of these.
fn are_positions<S: Alter>(
    alloc: Global,
    tx: &mut Transaction<'_, S>,
    seq: u32,
    positions: &[(Position, Part)],
) -> Result<bool, TableFault>
    requires { length positions.now ≤ MOST_POSITIONS }
    ensures looks_up { IsLookUp S.Store
        (TellsRows registers.places seq (λ book. lines_from place_row seq 1 positions.now))
        (AreRows kept_place seq (lines_from place_row seq 1 positions.now))
        (RowsDamage kept_place seq)
        tx.old tx.new result }
{
    let rows = place_by_seq(alloc, tx, seq)?;
    let given = place_rows(alloc, seq, positions)?;
    Ok(are_same_places(&rows, &given))
}

// Whether the entry with a number adds this aircraft with these positions.
pub(crate) fn is_aircraft<S: Alter>(
    alloc: Global,
    tx: &mut Transaction<'_, S>,
    seq: u32,
    aircraft: Aircraft,
    positions: &[(Position, Part)],
) -> Result<bool, TableFault>
    requires { length positions.now ≤ MOST_POSITIONS }
    ensures looks_up { IsLookUp S.Store
        (Tells seq (Added aircraft positions.now))
        (Says seq (Added aircraft positions.now))
        (SaysDamage seq (Added aircraft positions.now))
        tx.old tx.new result }
{
    let same = is_aircraft_row(alloc, tx, seq, aircraft)?;
    let on_lines = are_positions(alloc, tx, seq, positions)?;
    Ok(same && on_lines)
}

// Whether the entry with a number adds this component.
pub(crate) fn is_component<S: Alter>(
    alloc: Global,
    tx: &mut Transaction<'_, S>,
    seq: u32,
    component: Component,
) -> Result<bool, TableFault>
    ensures looks_up { IsLookUp S.Store
        (Tells seq (Listed component))
        (Says seq (Listed component))
        (SaysDamage seq (Listed component))
        tx.old tx.new result }
{
    let rows = component_by_seq(alloc, tx, seq)?;
    let row = component_row(seq, component);
    Ok(are_same_components(&rows, slice::from_ref(&row)))
}

// Whether the row of the programme that the entry with a number loads is that of this one.
fn is_programme_row<S: Alter>(
    alloc: Global,
    tx: &mut Transaction<'_, S>,
    seq: u32,
    programme: Programme,
) -> Result<bool, TableFault>
    ensures looks_up { IsLookUp S.Store
        (TellsRows registers.programmes seq (λ book. programme_row seq programme ∷ []))
        (AreRows kept_programme seq (programme_row seq programme ∷ []))
        (RowsDamage kept_programme seq)
        tx.old tx.new result }
{
    let rows = programme_by_seq(alloc, tx, seq)?;
    let row = programme_row(seq, programme);
    Ok(are_same_programmes(&rows, slice::from_ref(&row)))
}

// Whether the rows of the tasks of the entry with a number are those of these.
fn are_tasks<S: Alter>(
    alloc: Global,
    tx: &mut Transaction<'_, S>,
    seq: u32,
    tasks: &[Task],
) -> Result<bool, TableFault>
    requires { length tasks.now ≤ MOST_TASKS }
    ensures looks_up { IsLookUp S.Store
        (TellsRows registers.tasks seq (λ book. lines_from task_row seq 1 tasks.now))
        (AreRows kept_task seq (lines_from task_row seq 1 tasks.now))
        (RowsDamage kept_task seq)
        tx.old tx.new result }
{
    let rows = task_by_seq(alloc, tx, seq)?;
    let given = task_rows(alloc, seq, tasks)?;
    Ok(are_same_tasks(&rows, &given))
}

// Whether the entry with a number loads this programme with these tasks.
pub(crate) fn is_programme<S: Alter>(
    alloc: Global,
    tx: &mut Transaction<'_, S>,
    seq: u32,
    programme: Programme,
    tasks: &[Task],
) -> Result<bool, TableFault>
    requires { length tasks.now ≤ MOST_TASKS }
    ensures looks_up { IsLookUp S.Store
        (Tells seq (Loaded programme tasks.now))
        (Says seq (Loaded programme tasks.now))
        (SaysDamage seq (Loaded programme tasks.now))
        tx.old tx.new result }
{
    let same = is_programme_row(alloc, tx, seq, programme)?;
    let on_lines = are_tasks(alloc, tx, seq, tasks)?;
    Ok(same && on_lines)
}

// Whether the entry with a number states this opening.
pub(crate) fn is_opening<S: Alter>(
    alloc: Global,
    tx: &mut Transaction<'_, S>,
    seq: u32,
    opening: Opening,
) -> Result<bool, TableFault>
    ensures looks_up { IsLookUp S.Store
        (Tells seq (Opened opening))
        (Says seq (Opened opening))
        (SaysDamage seq (Opened opening))
        tx.old tx.new result }
{
    let found = item_number(alloc, tx, &opening.item)?;
    let rows = opening_by_seq(alloc, tx, seq)?;
    let row = opening_row(seq, or_zero(found), opening);
    Ok(are_same_openings(&rows, slice::from_ref(&row)))
}

// Whether the entry with a number defers this defect.
pub(crate) fn is_deferral<S: Alter>(
    alloc: Global,
    tx: &mut Transaction<'_, S>,
    seq: u32,
    deferral: Deferral,
) -> Result<bool, TableFault>
    ensures looks_up { IsLookUp S.Store
        (Tells seq (Deferred deferral))
        (Says seq (Deferred deferral))
        (SaysDamage seq (Deferred deferral))
        tx.old tx.new result }
{
    let found = aircraft_number(alloc, tx, &deferral.tail)?;
    let rows = defect_by_seq(alloc, tx, seq)?;
    let row = deferral_row(seq, or_zero(found), deferral);
    Ok(are_same_deferrals(&rows, slice::from_ref(&row)))
}

// Whether the entry with a number extends this interval.
pub(crate) fn is_extension<S: Alter>(
    alloc: Global,
    tx: &mut Transaction<'_, S>,
    seq: u32,
    extension: Extension,
) -> Result<bool, TableFault>
    ensures looks_up { IsLookUp S.Store
        (Tells seq (Extended extension))
        (Says seq (Extended extension))
        (SaysDamage seq (Extended extension))
        tx.old tx.new result }
{
    let found = defect_number(alloc, tx, &extension.defect)?;
    let rows = extension_by_seq(alloc, tx, seq)?;
    let row = extension_row(seq, or_zero(found), extension);
    Ok(are_same_extensions(&rows, slice::from_ref(&row)))
}

// Whether this is the one row of sectors.
fn is_sector_row(found: &[Sector2Row], given: SectorRow) -> bool
    ensures { IsTrue result
        ↔ (map (λ (row : Sector2Row). row.sector) found.now ≡ given ∷ []) }
{
    match found {
        [row] => row.sector == given,
        _ => false,
    }
}

// Whether the entry with a number is this sector.
pub(crate) fn is_sector<S: Alter>(
    alloc: Global,
    tx: &mut Transaction<'_, S>,
    seq: u32,
    sector: Sector,
) -> Result<bool, TableFault>
    ensures looks_up { IsLookUp S.Store
        (Tells seq (Flown sector))
        (Says seq (Flown sector))
        (SaysDamage seq (Flown sector))
        tx.old tx.new result }
{
    let aircraft = aircraft_number(alloc, tx, &sector.tail)?;
    let rows = sector2_by_seq(alloc, tx, seq)?;
    let row = sector_row(seq, or_zero(aircraft), sector);
    Ok(is_sector_row(&rows, row))
}

// Whether the entry with a number is this fitting: it began a span that has it.
pub(crate) fn is_fitting<S: Alter>(
    alloc: Global,
    tx: &mut Transaction<'_, S>,
    seq: u32,
    fitting: Fitting,
) -> Result<bool, TableFault>
    ensures looks_up { IsLookUp S.Store
        (Tells seq (Fitted fitting))
        (Says seq (Fitted fitting))
        (SaysDamage seq (Fitted fitting))
        tx.old tx.new result }
{
    let component = component_number(alloc, tx, &fitting.serial)?;
    let aircraft = aircraft_number(alloc, tx, &fitting.tail)?;
    let rows = span2_by_fit_seq(alloc, tx, seq)?;
    Ok(begins_in(&rows, seq, or_zero(component), or_zero(aircraft), &fitting))
}

// Whether the entry with a number is this removal: it ended a span that has it.
pub(crate) fn is_removal<S: Alter>(
    alloc: Global,
    tx: &mut Transaction<'_, S>,
    seq: u32,
    removal: Removal,
) -> Result<bool, TableFault>
    ensures looks_up { IsLookUp S.Store
        (Tells seq (Removed removal))
        (Says seq (Removed removal))
        (SaysDamage seq (Removed removal))
        tx.old tx.new result }
{
    let component = component_number(alloc, tx, &removal.serial)?;
    let rows = span2_by_remove_seq(alloc, tx, seq)?;
    Ok(ends_in(&rows, seq, or_zero(component), &removal))
}
