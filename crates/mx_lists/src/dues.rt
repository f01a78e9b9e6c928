//! When a task is due on an item: counted from the base of its last accomplishment, or from the item's birth.
ghost use Rattle.std.specs.Prelude.{◌≡◌, true};
ghost use Rattle.mx_book.specs.commands.Programme.{task_shape};
ghost use Rattle.mx_book.specs.Reading.{Answers};
ghost use Rattle.mx_lists.specs.Dues.{due_of_found, due};

use crate::list_records::ListRecords;
use mx_base::{Kind, Limit, TaskId};
use mx_book::Records;
use mx_book::commands::{Item, Task};
use mx_book::due::due_after;
use mx_book::found::{Found, birth_of, is_task_of};
use mx_book::judging::judging_items::found_of;

/// When a task of a programme is due on an item of which this was found, or `None` where it does not apply to it or is
/// due no more.
pub(crate) fn due_of_found<R: ListRecords>(
    records: &mut R,
    item: &Item,
    found: &Found,
    task: &Task,
) -> Result<Option<Limit>, R::Fault>
    requires { task_shape task.now ≡ true }
    ensures { Answers R.reading records.old records.new result
        (λ book. due_of_found book item.now found.now task.now) }
{
    if is_task_of(found, task) {
        let base = records.base(item, &task.id)?;
        Ok(due_after(base, birth_of(found), task))
    } else {
        Ok(None)
    }
}

/// When the task with a name in the programme in force of a kind is due on an item: minutes, cycles, and a day by its
/// number, which may be past the last. `None` where no such task applies to the item, or it is due no more. Or the fault of
/// the question that was not answered.
pub fn due_of_kind<R: ListRecords>(
    records: &mut R,
    item: &Item,
    kind: &Kind,
    id: &TaskId,
) -> Result<Option<Limit>, R::Fault>
    ensures { Answers R.reading records.old records.new result
        (λ book. due book item.now kind.now id.now) }
{
    match records.task(kind, id)? {
        Some(Some(task)) => {
            let found = found_of(records, item)?;
            due_of_found(records, item, &found, &task)
        }
        _ => Ok(None),
    }
}
