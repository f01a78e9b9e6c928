//! The rows of a command, whichever it is: each kind that looks something up has a function, a release in `releases`.
ghost use Rattle.std.specs.Prelude.{◌≡◌, IfOk, true};
ghost use Rattle.sqlite.specs.Held.{state};
ghost use Rattle.mx_book.specs.commands.Act.{Opened, Flown, Fitted, Removed, Deferred, Extended};
ghost use Rattle.mx_base.specs.rows.Rows.{FitsEntry};
ghost use Rattle.mx_lookups.specs.numbers.AnyRows.{ReadsAny};
ghost use Rattle.mx_lookups.specs.numbers.Reads.{Reads};
ghost use Rattle.mx_lookups.specs.numbers.Told.{TellsDamage};
ghost use Rattle.mx_apply.specs.made.Damage.{ActDamage, MadeDamage};
ghost use Rattle.mx_apply.specs.made.Found.{AreRowsBy, numbers_flown, numbers_removed, AreRowsFor};
ghost use Rattle.mx_apply.specs.made.Made.{AreRowsOf};
ghost use Rattle.mx_book.specs.commands.Shape.{sector_shape};
ghost use Rattle.mx_base.specs.rows.Spans.{has_between};
ghost use Rattle.mx_row_rules.specs.changes.Rows.{AreCommandRows};

use crate::made::numbers::{
    entry_of_command, number_of_aircraft, number_of_component, number_of_defect, number_of_item,
};
use crate::made::releases::rows_of_release;
use crate::made::totals::totals_of;
use mx_base::rows::{EntryRow, SpanRow};
use mx_book::commands::{Command, Deferral, Extension, Fitting, Opening, Removal, Said, Sector};
use mx_layout::TableFault;
use mx_row_rules::changes::{
    CommandRows, aircraft_rows, component_rows, deferral_rows, extension_rows, fitting_rows,
    opening_rows, programme_rows, removal_rows, sector_rows,
};
use mx_table_rows::chosen::kept::{open_spans_by_component, span2_by_aircraft};
use sqlite::{Alter, Transaction};
use std::alloc::{AllocError, Global};

/// The rows of an opening of a task of an item.
pub fn rows_of_opening<S: Alter>(
    alloc: Global,
    tx: &mut Transaction<'_, S>,
    entry: EntryRow,
    opening: Opening,
) -> Result<CommandRows, TableFault>
    requires fits { FitsEntry entry }
    ensures same_reference { tx.new.conn.ghost_name ≡ tx.old.conn.ghost_name }
    ensures reads { Reads (AreRowsOf (Opened opening) entry)
        (state S.Store tx.old.conn.now) (state S.Store tx.new.conn.now) result }
    ensures any_rows { ReadsAny (AreRowsBy (Opened opening) entry)
        (state S.Store tx.old.conn.now) (state S.Store tx.new.conn.now) result }
    ensures damage { TellsDamage (ActDamage (Opened opening))
        (state S.Store tx.old.conn.now) (state S.Store tx.new.conn.now) result }
{
    let item = number_of_item(alloc, tx, &opening.item)?;
    Ok(opening_rows(alloc, entry, opening, item)?)
}

// Whether the component of a span was fitted throughout the flight of a sector.
fn is_throughout(span: &SpanRow, sector: &Sector) -> bool
    ensures { result ≡ has_between sector.now.off sector.now.on span.now.from span.now.to }
{
    let is_fitted_by = span.from.number() <= sector.off.number();
    match span.to {
        Some(to) => is_fitted_by && sector.on.number() <= to.number(),
        None => is_fitted_by,
    }
}

// The numbers of an aircraft and of the components that were fitted throughout the flight of a sector, by its spans.
fn numbers_flown(
    alloc: Global,
    aircraft: u32,
    sector: &Sector,
    spans: &[SpanRow],
) -> Result<Vec<u32>, AllocError>
    ensures { IfOk result (λ numbers. numbers.items
        ≡ numbers_flown aircraft sector.now spans.now) }
{
    let mut numbers = Vec::new(alloc);
    numbers.push(aircraft)?;
    'spans: for span in spans {
        if is_throughout(span, sector) {
            numbers.push(span.component)?;
        }
    }
    Ok(numbers)
}

/// The rows of a sector of an aircraft. `Damaged` where a span of the aircraft can't be read, and as for the totals of the
/// aircraft and of the components that were fitted to it throughout the flight.
pub fn rows_of_sector<S: Alter>(
    alloc: Global,
    tx: &mut Transaction<'_, S>,
    entry: EntryRow,
    sector: Sector,
) -> Result<CommandRows, TableFault>
    requires fits { FitsEntry entry }
    requires shaped { sector_shape sector ≡ true }
    ensures same_reference { tx.new.conn.ghost_name ≡ tx.old.conn.ghost_name }
    ensures reads { Reads (AreRowsOf (Flown sector) entry)
        (state S.Store tx.old.conn.now) (state S.Store tx.new.conn.now) result }
    ensures any_rows { ReadsAny (AreRowsBy (Flown sector) entry)
        (state S.Store tx.old.conn.now) (state S.Store tx.new.conn.now) result }
    ensures damage { TellsDamage (ActDamage (Flown sector))
        (state S.Store tx.old.conn.now) (state S.Store tx.new.conn.now) result }
{
    let aircraft = number_of_aircraft(alloc, tx, &sector.tail)?;
    let spans = span2_by_aircraft(alloc, tx, aircraft)?;
    let numbers = numbers_flown(alloc, aircraft, &sector, &spans)?;
    let totals = totals_of(alloc, tx, &numbers)?;
    Ok(sector_rows(alloc, entry, sector, aircraft, &totals)?)
}

/// The rows of a fitting of a component to an aircraft. `Damaged` as for the totals of both.
pub fn rows_of_fitting<S: Alter>(
    alloc: Global,
    tx: &mut Transaction<'_, S>,
    entry: EntryRow,
    fitting: Fitting,
) -> Result<CommandRows, TableFault>
    requires fits { FitsEntry entry }
    ensures same_reference { tx.new.conn.ghost_name ≡ tx.old.conn.ghost_name }
    ensures reads { Reads (AreRowsOf (Fitted fitting) entry)
        (state S.Store tx.old.conn.now) (state S.Store tx.new.conn.now) result }
    ensures any_rows { ReadsAny (AreRowsBy (Fitted fitting) entry)
        (state S.Store tx.old.conn.now) (state S.Store tx.new.conn.now) result }
    ensures damage { TellsDamage (ActDamage (Fitted fitting))
        (state S.Store tx.old.conn.now) (state S.Store tx.new.conn.now) result }
{
    let component = number_of_component(alloc, tx, &fitting.serial)?;
    let aircraft = number_of_aircraft(alloc, tx, &fitting.tail)?;
    let totals = totals_of(alloc, tx, &[aircraft, component])?;
    Ok(fitting_rows(alloc, entry, fitting, component, aircraft, &totals)?)
}

// The numbers of a component and of the aircraft of its spans.
fn numbers_removed(alloc: Global, component: u32, spans: &[SpanRow]) -> Result<Vec<u32>, AllocError>
    ensures { IfOk result (λ numbers. numbers.items
        ≡ numbers_removed component spans.now) }
{
    let mut numbers = Vec::new(alloc);
    numbers.push(component)?;
    'spans: for span in spans {
        numbers.push(span.aircraft)?;
    }
    Ok(numbers)
}

/// The rows of a removal of a component. `Damaged` where an open span of the component can't be read, and as for the totals of
/// the component and of the aircraft of the span.
pub fn rows_of_removal<S: Alter>(
    alloc: Global,
    tx: &mut Transaction<'_, S>,
    entry: EntryRow,
    removal: Removal,
) -> Result<CommandRows, TableFault>
    requires fits { FitsEntry entry }
    ensures same_reference { tx.new.conn.ghost_name ≡ tx.old.conn.ghost_name }
    ensures reads { Reads (AreRowsOf (Removed removal) entry)
        (state S.Store tx.old.conn.now) (state S.Store tx.new.conn.now) result }
    ensures any_rows { ReadsAny (AreRowsBy (Removed removal) entry)
        (state S.Store tx.old.conn.now) (state S.Store tx.new.conn.now) result }
    ensures damage { TellsDamage (ActDamage (Removed removal))
        (state S.Store tx.old.conn.now) (state S.Store tx.new.conn.now) result }
{
    let component = number_of_component(alloc, tx, &removal.serial)?;
    let spans = open_spans_by_component(alloc, tx, component)?;
    let numbers = numbers_removed(alloc, component, &spans)?;
    let totals = totals_of(alloc, tx, &numbers)?;
    Ok(removal_rows(alloc, entry, removal, &spans, &totals)?)
}

/// The rows of a deferral of a defect of an aircraft. `Damaged` as for its total.
pub fn rows_of_deferral<S: Alter>(
    alloc: Global,
    tx: &mut Transaction<'_, S>,
    entry: EntryRow,
    deferral: Deferral,
) -> Result<CommandRows, TableFault>
    requires fits { FitsEntry entry }
    ensures same_reference { tx.new.conn.ghost_name ≡ tx.old.conn.ghost_name }
    ensures reads { Reads (AreRowsOf (Deferred deferral) entry)
        (state S.Store tx.old.conn.now) (state S.Store tx.new.conn.now) result }
    ensures any_rows { ReadsAny (AreRowsBy (Deferred deferral) entry)
        (state S.Store tx.old.conn.now) (state S.Store tx.new.conn.now) result }
    ensures damage { TellsDamage (ActDamage (Deferred deferral))
        (state S.Store tx.old.conn.now) (state S.Store tx.new.conn.now) result }
{
    let aircraft = number_of_aircraft(alloc, tx, &deferral.tail)?;
    let totals = totals_of(alloc, tx, &[aircraft])?;
    Ok(deferral_rows(alloc, entry, deferral, aircraft, &totals)?)
}

/// The rows of an extension of the interval of a defect.
pub fn rows_of_extension<S: Alter>(
    alloc: Global,
    tx: &mut Transaction<'_, S>,
    entry: EntryRow,
    extension: Extension,
) -> Result<CommandRows, TableFault>
    requires fits { FitsEntry entry }
    ensures same_reference { tx.new.conn.ghost_name ≡ tx.old.conn.ghost_name }
    ensures reads { Reads (AreRowsOf (Extended extension) entry)
        (state S.Store tx.old.conn.now) (state S.Store tx.new.conn.now) result }
    ensures any_rows { ReadsAny (AreRowsBy (Extended extension) entry)
        (state S.Store tx.old.conn.now) (state S.Store tx.new.conn.now) result }
    ensures damage { TellsDamage (ActDamage (Extended extension))
        (state S.Store tx.old.conn.now) (state S.Store tx.new.conn.now) result }
{
    let defect = number_of_defect(alloc, tx, &extension.defect)?;
    Ok(extension_rows(alloc, entry, extension, defect)?)
}

/// The rows of a command behind the entries of the book that the tables stand for, whichever kind it is. `Damaged` as its kind
/// has it, and with `entry` where the last entry can't be read.
pub fn rows_of_command<S: Alter>(
    alloc: Global,
    tx: &mut Transaction<'_, S>,
    command: &Command,
) -> Result<CommandRows, TableFault>
    ensures same_reference { tx.new.conn.ghost_name ≡ tx.old.conn.ghost_name }
    ensures reads { Reads (λ book rows. AreCommandRows book command.now rows)
        (state S.Store tx.old.conn.now) (state S.Store tx.new.conn.now) result }
    ensures any_rows { ReadsAny (AreRowsFor command.now)
        (state S.Store tx.old.conn.now) (state S.Store tx.new.conn.now) result }
    ensures damage { TellsDamage (MadeDamage command.now)
        (state S.Store tx.old.conn.now) (state S.Store tx.new.conn.now) result }
{
    let entry = entry_of_command(alloc, tx, command)?;
    match command.said() {
        Said::Aircraft(aircraft, positions) => {
            Ok(aircraft_rows(alloc, entry, aircraft, positions)?)
        }
        Said::Component(component) => Ok(component_rows(alloc, entry, component)?),
        Said::Programme(programme, tasks) => Ok(programme_rows(alloc, entry, programme, tasks)?),
        Said::Opening(opening) => rows_of_opening(alloc, tx, entry, opening),
        Said::Sector(sector) => rows_of_sector(alloc, tx, entry, sector),
        Said::Fitting(fitting) => rows_of_fitting(alloc, tx, entry, fitting),
        Said::Removal(removal) => rows_of_removal(alloc, tx, entry, removal),
        Said::Release(release, lines) => rows_of_release(alloc, tx, entry, release, lines),
        Said::Deferral(deferral) => rows_of_deferral(alloc, tx, entry, deferral),
        Said::Extension(extension) => rows_of_extension(alloc, tx, entry, extension),
    }
}
