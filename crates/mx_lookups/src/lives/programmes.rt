//! The programme in force of a kind: the revision behind it, its tasks, and which items they retire.
ghost use Rattle.std.specs.Prelude.{◌≡◌, true, IfOk, IfSome};
ghost use Rattle.std.specs.List.{list_all};
ghost use Rattle.std.specs.Option.{option_map};
ghost use Rattle.mx_book.specs.commands.Programme.{task_shape};
ghost use Rattle.mx_book.specs.Asking.{task_of};
ghost use Rattle.mx_book.specs.Programme.{life_ended, next_revision, tasks_or_none};
ghost use Rattle.mx_book.specs.Register.{found_of};
ghost use Rattle.mx_registers.specs.Merge.{task_said};
ghost use Rattle.mx_base.specs.declared.rows.rows.TaskRow.{TaskRow};
ghost use Rattle.mx_lookups.specs.numbers.InForce.{born_as, rows_in_force};
ghost use Rattle.mx_lookups.specs.numbers.Given.{BornOf, IsRetired, NextRevision, RowsInForce, TaskOf, TasksInForce};
ghost use Rattle.mx_lookups.specs.numbers.LookUp.{IsLookUp};
ghost use Rattle.mx_lookups.specs.numbers.Told.{InForceDamage, ItemDamage, RetiredDamage, RevisionDamage};

use crate::lives::lives::life;
use crate::numbers::items::{aircraft, component};
use mx_base::rows::TaskRow;
use mx_base::{Day, Kind, Part, TaskId};
use mx_book::commands::{Item, Task};
use mx_layout::{Table, TableFault};
use mx_row_rules::found::programmes::{
    have_task_shapes, is_retired_in, programme_number, revision_after, task_in, tasks_said,
};
use mx_table_rows::chosen::programmes::{programme_by_kind, task_by_seq};
use sqlite::{Alter, Transaction};
use std::alloc::Global;

/// The revision that is loaded next for a kind: 1, or one more than that in force. `Damaged` with `programme` where that
/// has no more 32 bits.
pub fn next_revision<S: Alter>(
    alloc: Global,
    tx: &mut Transaction<'_, S>,
    kind: &Kind,
) -> Result<u32, TableFault>
    ensures looks_up { IsLookUp S.Store
        (λ book revision. revision ≡ next_revision book kind.now)
        (NextRevision kind.now)
        (RevisionDamage kind.now)
        tx.old tx.new result }
{
    let rows = programme_by_kind(alloc, tx, kind)?;
    match revision_after(&rows) {
        Some(revision) => Ok(revision),
        None => Err(TableFault::Damaged(Table::Programme)),
    }
}

// The rows of the tasks of the programme in force of a kind, each of a task of its shape; `None` without a programme.
// `Damaged` with `task` where a task lacks its shape.
fn rows_in_force<S: Alter>(
    alloc: Global,
    tx: &mut Transaction<'_, S>,
    kind: &Kind,
) -> Result<Option<Vec<TaskRow>>, TableFault>
    ensures looks_up { IsLookUp S.Store
        (λ book found. option_map (λ rows. rows.items) found ≡ rows_in_force kind.now book)
        (λ trees found. RowsInForce kind.now trees (option_map (λ rows. rows.items) found))
        (InForceDamage kind.now)
        tx.old tx.new result }
    ensures shape { IfOk result (λ found. IfSome found (λ rows.
        list_all (λ (row : TaskRow). task_shape (task_said row)) rows.items ≡ true)) }
{
    let programmes = programme_by_kind(alloc, tx, kind)?;
    match programme_number(&programmes) {
        Some(number) => {
            let rows = task_by_seq(alloc, tx, number)?;
            if have_task_shapes(&rows) {
                Ok(Some(rows))
            } else {
                Err(TableFault::Damaged(Table::Task))
            }
        }
        None => Ok(None),
    }
}

/// The tasks of the programme in force of a kind, each of its shape; none where it has no programme. `Damaged` with `task`
/// where one lacks its shape.
pub fn tasks<S: Alter>(
    alloc: Global,
    tx: &mut Transaction<'_, S>,
    kind: &Kind,
) -> Result<Vec<Task>, TableFault>
    ensures looks_up { IsLookUp S.Store
        (λ book tasks. tasks.items ≡ tasks_or_none book kind.now)
        (λ trees tasks. TasksInForce kind.now trees tasks.items)
        (InForceDamage kind.now)
        tx.old tx.new result }
    ensures shape { IfOk result (λ tasks. list_all task_shape tasks.items ≡ true) }
{
    let found = rows_in_force(alloc, tx, kind)?;
    match found {
        Some(rows) => Ok(tasks_said(alloc, &rows)?),
        None => Ok(Vec::new(alloc)),
    }
}

/// The task with a name in the programme in force of a kind: `None` without one, `Some(None)` where it lacks the task.
/// `Damaged` with `task` where one of its tasks lacks its shape.
pub fn task<S: Alter>(
    alloc: Global,
    tx: &mut Transaction<'_, S>,
    kind: &Kind,
    id: &TaskId,
) -> Result<Option<Option<Task>>, TableFault>
    ensures looks_up { IsLookUp S.Store
        (λ book found. found ≡ task_of book kind.now id.now)
        (TaskOf kind.now id.now)
        (InForceDamage kind.now)
        tx.old tx.new result }
    ensures shape { IfOk result
        (λ found. IfSome found (λ task. IfSome task (λ t. task_shape t ≡ true))) }
{
    let found = rows_in_force(alloc, tx, kind)?;
    match found {
        Some(rows) => Ok(Some(task_in(&rows, id))),
        None => Ok(None),
    }
}

// The part of an item, none of an airframe, and the day on which it was built; `None` where the item is not there.
fn born<S: Alter>(
    alloc: Global,
    tx: &mut Transaction<'_, S>,
    item: &Item,
) -> Result<Option<(Option<Part>, Day)>, TableFault>
    ensures looks_up { IsLookUp S.Store
        (λ book born. born ≡ born_as (found_of book item.now))
        (BornOf item.now)
        (ItemDamage item.now)
        tx.old tx.new result }
{
    match item {
        Item::Airframe(tail) => match aircraft(alloc, tx, tail)? {
            Some(aircraft) => Ok(Some((None, aircraft.birth))),
            None => Ok(None),
        },
        Item::Component(serial) => match component(alloc, tx, serial)? {
            Some(component) => Ok(Some((Some(component.part), component.birth))),
            None => Ok(None),
        },
    }
}

/// Whether a task in force of a kind retires an item by a day, with the life that it has now. `Damaged` with `total2` where
/// the item is there without its total, and with `task` where a task in force lacks its shape.
pub fn is_retired<S: Alter>(
    alloc: Global,
    tx: &mut Transaction<'_, S>,
    kind: &Kind,
    item: &Item,
    day: Day,
) -> Result<bool, TableFault>
    ensures looks_up { IsLookUp S.Store
        (λ book ended. ended ≡ life_ended book kind.now item.now day)
        (IsRetired kind.now item.now day)
        (RetiredDamage kind.now item.now)
        tx.old tx.new result }
{
    let known = born(alloc, tx, item)?;
    match known {
        Some((part, birth)) => {
            let alive = life(alloc, tx, item)?;
            match alive {
                Some(life) => {
                    let found = rows_in_force(alloc, tx, kind)?;
                    match found {
                        Some(rows) => Ok(is_retired_in(&part, birth, &life, day, &rows)),
                        None => Ok(false),
                    }
                }
                None => Ok(false),
            }
        }
        None => Ok(false),
    }
}
