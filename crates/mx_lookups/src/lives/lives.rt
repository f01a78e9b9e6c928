//! Clocks and lives, by totals.
ghost use Rattle.std.specs.Prelude.{◌≡◌};
ghost use Rattle.mx_book.specs.declared.commands.item.Item.TheVariants.{Airframe};
ghost use Rattle.mx_book.specs.Judge.{earliest_takeoff};
ghost use Rattle.mx_book.specs.Life.{clock, life_now};
ghost use Rattle.mx_lookups.specs.numbers.Given.{ClockOf, LifeOf};
ghost use Rattle.mx_lookups.specs.numbers.LookUp.{IsLookUp};
ghost use Rattle.mx_lookups.specs.numbers.Told.{TotalDamage};

use crate::numbers::items::item_number;
use mx_base::{Moment, Tail, Use};
use mx_book::commands::Item;
use mx_layout::{Table, TableFault};
use mx_row_rules::found::lives::{clock_in, life_in};
use mx_table_rows::chosen::kept::total2_by_item;
use sqlite::{Alter, Transaction};
use std::alloc::Global;

/// The clock of an item: the latest moment that there is of it, or the first of all. `Damaged` with `total2` where the item
/// is there and its total is not, or can't be read; with `aircraft` or `component` where a row with its name can't.
pub fn clock<S: Alter>(
    alloc: Global,
    tx: &mut Transaction<'_, S>,
    item: &Item,
) -> Result<Moment, TableFault>
    ensures looks_up { IsLookUp S.Store
        (λ book moment. moment ≡ clock book item.now)
        (ClockOf item.now)
        (TotalDamage item.now)
        tx.old tx.new result }
{
    let found = item_number(alloc, tx, item)?;
    match found {
        Some(number) => {
            let rows = total2_by_item(alloc, tx, number)?;
            match clock_in(&rows) {
                Some(moment) => Ok(moment),
                None => Err(TableFault::Damaged(Table::Total2)),
            }
        }
        None => Ok(Moment::FIRST),
    }
}

/// The life that an item has now, or `None` where it is not there. `Damaged` with `total2` where the item is there and its
/// total is not, or can't be read; with `aircraft` or `component` where a row with its name can't.
pub fn life<S: Alter>(
    alloc: Global,
    tx: &mut Transaction<'_, S>,
    item: &Item,
) -> Result<Option<Use>, TableFault>
    ensures looks_up { IsLookUp S.Store
        (λ book found. found ≡ life_now book item.now)
        (LifeOf item.now)
        (TotalDamage item.now)
        tx.old tx.new result }
{
    let found = item_number(alloc, tx, item)?;
    match found {
        Some(number) => {
            let rows = total2_by_item(alloc, tx, number)?;
            match life_in(&rows) {
                Some(life) => Ok(Some(life)),
                None => Err(TableFault::Damaged(Table::Total2)),
            }
        }
        None => Ok(None),
    }
}

/// The earliest moment at which an aircraft takes off for its next sector: its clock. `Damaged` as for the clock.
pub fn earliest_takeoff<S: Alter>(
    alloc: Global,
    tx: &mut Transaction<'_, S>,
    tail: &Tail,
) -> Result<Moment, TableFault>
    ensures looks_up { IsLookUp S.Store
        (λ book moment. moment ≡ earliest_takeoff book tail.now)
        (ClockOf (Airframe tail.now))
        (TotalDamage (Airframe tail.now))
        tx.old tx.new result }
{
    clock(alloc, tx, &Item::Airframe(*tail))
}
