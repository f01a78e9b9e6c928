//! What was accomplished on items, by last bases.
ghost use Rattle.std.specs.Prelude.{◌≡◌, IfOk, IfSome};
ghost use Rattle.mx_book.specs.due.Due.{IsBase};
ghost use Rattle.mx_book.specs.Base.{base};
ghost use Rattle.mx_book.specs.Programme.{is_accomplished};
ghost use Rattle.mx_lookups.specs.numbers.Given.{IsAccomplished, BaseOf};
ghost use Rattle.mx_lookups.specs.numbers.LookUp.{IsLookUp};
ghost use Rattle.mx_lookups.specs.numbers.Told.{BaseDamage, DoneDamage};

use crate::numbers::items::item_number;
use mx_base::{Base, TaskId};
use mx_book::commands::Item;
use mx_layout::{Table, TableFault};
use mx_row_rules::found::lives::{base_found, is_of_life};
use mx_table_rows::chosen::kept::base2_by_item_and_task;
use sqlite::{Alter, Transaction};
use std::alloc::Global;

/// Whether the task of an item was accomplished.
pub fn is_accomplished<S: Alter>(
    alloc: Global,
    tx: &mut Transaction<'_, S>,
    item: &Item,
    id: &TaskId,
) -> Result<bool, TableFault>
    ensures looks_up { IsLookUp S.Store
        (λ book done. done ≡ is_accomplished book item.now id.now)
        (IsAccomplished item.now id.now)
        (DoneDamage item.now id.now)
        tx.old tx.new result }
{
    let found = item_number(alloc, tx, item)?;
    match found {
        Some(number) => {
            let rows = base2_by_item_and_task(alloc, tx, number, id)?;
            Ok(base_found(&rows).is_some())
        }
        None => Ok(false),
    }
}

/// The base of the last accomplishment of a task of an item, or `None` without one. `Damaged` with `base2` where that has
/// more minutes or cycles than a life can have.
pub fn base<S: Alter>(
    alloc: Global,
    tx: &mut Transaction<'_, S>,
    item: &Item,
    id: &TaskId,
) -> Result<Option<Base>, TableFault>
    ensures looks_up { IsLookUp S.Store
        (λ book found. found ≡ base book item.now id.now)
        (BaseOf item.now id.now)
        (BaseDamage item.now id.now)
        tx.old tx.new result }
    ensures bounded { IfOk result (λ base. IfSome base IsBase) }
{
    let found = item_number(alloc, tx, item)?;
    match found {
        Some(number) => {
            let rows = base2_by_item_and_task(alloc, tx, number, id)?;
            match base_found(&rows) {
                Some(base) => {
                    if is_of_life(&base) {
                        Ok(Some(base))
                    } else {
                        Err(TableFault::Damaged(Table::Base2))
                    }
                }
                None => Ok(None),
            }
        }
        None => Ok(None),
    }
}
