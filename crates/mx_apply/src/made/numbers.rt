//! The row of the entry of a command, and the numbers of what a command names.
ghost use Rattle.std.specs.Prelude.{◌≡◌, true, IfOk};
ghost use Rattle.sqlite.specs.Held.{state};
ghost use Rattle.mx_book.specs.commands.Shape.{has_shape};
ghost use Rattle.mx_base.specs.rows.Rows.{FitsEntry};
ghost use Rattle.mx_registers.specs.Names.{or_zero, seq_of_defect};
ghost use Rattle.mx_registers.specs.kept.Items.{number_of_item, number_of_serial, number_of_tail};
ghost use Rattle.mx_row_rules.specs.changes.Rows.{IsEntryOf};
ghost use Rattle.mx_lookups.specs.numbers.AnyRows.{ReadsAny};
ghost use Rattle.mx_lookups.specs.numbers.Given.{AircraftNumber, ComponentNumber, DefectNumber, ItemNumber};
ghost use Rattle.mx_lookups.specs.numbers.Reads.{Reads};
ghost use Rattle.mx_lookups.specs.numbers.Told.{AircraftDamage, ComponentDamage, EntryDamage, ItemDamage, LastDamage, TellsDamage};
ghost use Rattle.mx_apply.specs.made.Found.{IsEntryBehind, NumberBy};

use mx_base::rows::EntryRow;
use mx_base::{Doc, Serial, Tail};
use mx_book::commands::{Command, Item};
use mx_layout::TableFault;
use mx_lookups::numbers::entries::{defect_number, entry_count};
use mx_lookups::numbers::items::{aircraft_number, component_number, item_number};
use mx_registers::{entry_row, or_zero};
use sqlite::{Alter, Transaction};
use std::alloc::Global;

/// The row of the entry that a command becomes behind the others.
pub fn entry_of_command<S: Alter>(
    alloc: Global,
    tx: &mut Transaction<'_, S>,
    command: &Command,
) -> Result<EntryRow, TableFault>
    ensures same_reference { tx.new.conn.ghost_name ≡ tx.old.conn.ghost_name }
    ensures reads { Reads (λ book row. IsEntryOf book command.now row)
        (state S.Store tx.old.conn.now) (state S.Store tx.new.conn.now) result }
    ensures any_rows { ReadsAny (IsEntryBehind command.now)
        (state S.Store tx.old.conn.now) (state S.Store tx.new.conn.now) result }
    ensures damage { TellsDamage LastDamage
        (state S.Store tx.old.conn.now) (state S.Store tx.new.conn.now) result }
    ensures fits { IfOk result FitsEntry }
    ensures shaped { IfOk result (λ row. has_shape command.now ≡ true) }
{
    let count = entry_count(alloc, tx)?;
    Ok(entry_row(count.saturating_add(1), command))
}

/// The number of the aircraft with a registration, or 0 where it is not there.
pub fn number_of_aircraft<S: Alter>(
    alloc: Global,
    tx: &mut Transaction<'_, S>,
    tail: &Tail,
) -> Result<u32, TableFault>
    ensures same_reference { tx.new.conn.ghost_name ≡ tx.old.conn.ghost_name }
    ensures reads { Reads (λ book number. number ≡ number_of_tail book tail.now)
        (state S.Store tx.old.conn.now) (state S.Store tx.new.conn.now) result }
    ensures any_rows { ReadsAny (NumberBy (AircraftNumber tail.now))
        (state S.Store tx.old.conn.now) (state S.Store tx.new.conn.now) result }
    ensures damage { TellsDamage (AircraftDamage tail.now)
        (state S.Store tx.old.conn.now) (state S.Store tx.new.conn.now) result }
{
    let found = aircraft_number(alloc, tx, tail)?;
    Ok(or_zero(found))
}

/// The number of the component with a serial number, or 0 where it is not there.
pub fn number_of_component<S: Alter>(
    alloc: Global,
    tx: &mut Transaction<'_, S>,
    serial: &Serial,
) -> Result<u32, TableFault>
    ensures same_reference { tx.new.conn.ghost_name ≡ tx.old.conn.ghost_name }
    ensures reads { Reads (λ book number. number ≡ number_of_serial book serial.now)
        (state S.Store tx.old.conn.now) (state S.Store tx.new.conn.now) result }
    ensures any_rows { ReadsAny (NumberBy (ComponentNumber serial.now))
        (state S.Store tx.old.conn.now) (state S.Store tx.new.conn.now) result }
    ensures damage { TellsDamage (ComponentDamage serial.now)
        (state S.Store tx.old.conn.now) (state S.Store tx.new.conn.now) result }
{
    let found = component_number(alloc, tx, serial)?;
    Ok(or_zero(found))
}

/// The number of an item, or 0 where it is not there.
pub fn number_of_item<S: Alter>(
    alloc: Global,
    tx: &mut Transaction<'_, S>,
    item: &Item,
) -> Result<u32, TableFault>
    ensures same_reference { tx.new.conn.ghost_name ≡ tx.old.conn.ghost_name }
    ensures reads { Reads (λ book number. number ≡ number_of_item book item.now)
        (state S.Store tx.old.conn.now) (state S.Store tx.new.conn.now) result }
    ensures any_rows { ReadsAny (NumberBy (ItemNumber item.now))
        (state S.Store tx.old.conn.now) (state S.Store tx.new.conn.now) result }
    ensures damage { TellsDamage (ItemDamage item.now)
        (state S.Store tx.old.conn.now) (state S.Store tx.new.conn.now) result }
{
    let found = item_number(alloc, tx, item)?;
    Ok(or_zero(found))
}

/// The number of the entry that deferred the defect with a document, or 0 where none did.
pub fn number_of_defect<S: Alter>(
    alloc: Global,
    tx: &mut Transaction<'_, S>,
    doc: &Doc,
) -> Result<u32, TableFault>
    ensures same_reference { tx.new.conn.ghost_name ≡ tx.old.conn.ghost_name }
    ensures reads { Reads (λ book number. number ≡ or_zero (seq_of_defect book doc.now))
        (state S.Store tx.old.conn.now) (state S.Store tx.new.conn.now) result }
    ensures any_rows { ReadsAny (NumberBy (DefectNumber doc.now))
        (state S.Store tx.old.conn.now) (state S.Store tx.new.conn.now) result }
    ensures damage { TellsDamage (EntryDamage doc.now)
        (state S.Store tx.old.conn.now) (state S.Store tx.new.conn.now) result }
{
    let found = defect_number(alloc, tx, doc)?;
    Ok(or_zero(found))
}
