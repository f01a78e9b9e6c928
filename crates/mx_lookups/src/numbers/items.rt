//! Aircraft and components by their names, and by the numbers of the entries that added them.
ghost use Rattle.std.specs.Prelude.{◌≡◌};
ghost use Rattle.sqlite.specs.declared.types.Value.TheVariants.{Text};
ghost use Rattle.mx_book.specs.Register.{aircraft, component, part_at};
ghost use Rattle.mx_registers.specs.Names.{seq_of_item, seq_of_serial, seq_of_tail, tail_at};
ghost use Rattle.mx_layout.specs.kept.Cells.{kept_aircraft, kept_component};
ghost use Rattle.mx_table_rows.specs.chosen.Choices.{has_value};
ghost use Rattle.mx_row_rules.specs.found.Said.{aircraft_in, component_in};
ghost use Rattle.mx_lookups.specs.numbers.AnyRows.{Gives};
ghost use Rattle.mx_lookups.specs.numbers.Given.{AircraftNumber, ComponentNumber, ItemNumber, PartAt, TailOfNumber};
ghost use Rattle.mx_lookups.specs.numbers.LookUp.{IsLookUp, LooksUp};
ghost use Rattle.mx_lookups.specs.numbers.Told.{AircraftDamage, ComponentDamage, ItemDamage, PartDamage, TailDamage};

use mx_base::{Part, Position, Serial, Tail};
use mx_book::commands::{Aircraft, Component, Item};
use mx_layout::TableFault;
use mx_row_rules::found::aircraft::{
    aircraft_in, aircraft_number as number_of_aircraft, part_in, tail_in,
};
use mx_row_rules::found::components::{component_in, component_number as number_of_component};
use mx_table_rows::chosen::items::{
    aircraft_by_seq, aircraft_by_tail, component_by_serial, place_by_seq,
};
use sqlite::{Alter, Transaction};
use std::alloc::Global;

/// The aircraft with this registration. `Damaged` with `aircraft` where a row with the registration can't be read.
pub fn aircraft<S: Alter>(
    alloc: Global,
    tx: &mut Transaction<'_, S>,
    tail: &Tail,
) -> Result<Option<Aircraft>, TableFault>
    ensures looks_up { IsLookUp S.Store
        (λ book found. found ≡ aircraft book tail.now)
        (Gives kept_aircraft (has_value 1 (Text tail.now)) aircraft_in)
        (AircraftDamage tail.now)
        tx.old tx.new result }
{
    let rows = aircraft_by_tail(alloc, tx, tail)?;
    Ok(aircraft_in(&rows))
}

/// The component with this serial number. `Damaged` with `component` where a row with the serial number can't be read.
pub fn component<S: Alter>(
    alloc: Global,
    tx: &mut Transaction<'_, S>,
    serial: &Serial,
) -> Result<Option<Component>, TableFault>
    ensures looks_up { IsLookUp S.Store
        (λ book found. found ≡ component book serial.now)
        (Gives kept_component (has_value 1 (Text serial.now)) component_in)
        (ComponentDamage serial.now)
        tx.old tx.new result }
{
    let rows = component_by_serial(alloc, tx, serial)?;
    Ok(component_in(&rows))
}

/// The number of the entry that added the aircraft with this registration. `Damaged` with `aircraft` where a row with the
/// registration can't be read.
pub fn aircraft_number<S: Alter>(
    alloc: Global,
    tx: &mut Transaction<'_, S>,
    tail: &Tail,
) -> Result<Option<u32>, TableFault>
    ensures looks_up { LooksUp S.Store
        (λ book number. number ≡ seq_of_tail book tail.now)
        (AircraftNumber tail.now)
        (AircraftDamage tail.now)
        tx.old tx.new result }
{
    let rows = aircraft_by_tail(alloc, tx, tail)?;
    Ok(number_of_aircraft(&rows))
}

/// The number of the entry that added the component with this serial number. `Damaged` with `component` where a row with
/// the serial number can't be read.
pub fn component_number<S: Alter>(
    alloc: Global,
    tx: &mut Transaction<'_, S>,
    serial: &Serial,
) -> Result<Option<u32>, TableFault>
    ensures looks_up { LooksUp S.Store
        (λ book number. number ≡ seq_of_serial book serial.now)
        (ComponentNumber serial.now)
        (ComponentDamage serial.now)
        tx.old tx.new result }
{
    let rows = component_by_serial(alloc, tx, serial)?;
    Ok(number_of_component(&rows))
}

/// The number of the entry that added an item: the aircraft of an airframe, or the component. `Damaged` with `aircraft` or
/// `component` where a row with its name can't be read.
pub fn item_number<S: Alter>(
    alloc: Global,
    tx: &mut Transaction<'_, S>,
    item: &Item,
) -> Result<Option<u32>, TableFault>
    ensures looks_up { LooksUp S.Store
        (λ book number. number ≡ seq_of_item book item.now)
        (ItemNumber item.now)
        (ItemDamage item.now)
        tx.old tx.new result }
{
    match item {
        Item::Airframe(tail) => aircraft_number(alloc, tx, tail),
        Item::Component(serial) => component_number(alloc, tx, serial),
    }
}

/// The registration of the aircraft that the entry with this number added. `Damaged` with `aircraft` where the row with the
/// number can't be read.
pub fn tail_of_number<S: Alter>(
    alloc: Global,
    tx: &mut Transaction<'_, S>,
    number: u32,
) -> Result<Option<Tail>, TableFault>
    ensures looks_up { LooksUp S.Store
        (λ book tail. tail ≡ tail_at book number)
        (TailOfNumber number)
        (TailDamage number)
        tx.old tx.new result }
{
    let rows = aircraft_by_seq(alloc, tx, number)?;
    Ok(tail_in(&rows))
}

/// The part that a position of an aircraft takes, or `None` where the aircraft does not have the position. `Damaged` with
/// `aircraft` where a row with the registration can't be read, and with `place` where one of its positions can't.
pub fn part_at<S: Alter>(
    alloc: Global,
    tx: &mut Transaction<'_, S>,
    tail: &Tail,
    position: &Position,
) -> Result<Option<Part>, TableFault>
    ensures looks_up { IsLookUp S.Store
        (λ book found. found ≡ part_at book tail.now position.now)
        (PartAt tail.now position.now)
        (PartDamage tail.now)
        tx.old tx.new result }
{
    let found = aircraft_number(alloc, tx, tail)?;
    match found {
        Some(number) => {
            let rows = place_by_seq(alloc, tx, number)?;
            Ok(part_in(&rows, position))
        }
        None => Ok(None),
    }
}
