//! The rows of a revision of a programme that is loaded, and of an opening.
ghost use Rattle.std.specs.Prelude.{◌≡◌, ◌≤◌, ℕ, List, IfOk, length};
ghost use Rattle.mx_book.specs.commands.Act.{Entry, Loaded, Opened};
ghost use Rattle.mx_book.specs.declared.commands.programme_shape.TheConstants.{MOST_TASKS};
ghost use Rattle.mx_book.specs.Base.{base_at};
ghost use Rattle.mx_base.specs.rows.Rows.{FitsBase, FitsEntry, base_row_with};
ghost use Rattle.mx_registers.specs.kept.Changes.{entry_of};
ghost use Rattle.mx_registers.specs.kept.Items.{number_of_item};
ghost use Rattle.mx_row_rules.specs.changes.Made.{AreMadeOf, nothing_found};
ghost use Rattle.mx_row_rules.specs.changes.Rows.{AreCommandRows, IsEntryOf};

use crate::changes::plain::entry_alone;
use crate::changes::rows::CommandRows;
use mx_base::rows::{BaseRow, EntryRow};
use mx_base::{Day, TaskId, Use};
use mx_book::commands::{Opening, Programme, Task};
use mx_registers::lines::task_rows;
use mx_registers::{opening_row, programme_row};
use std::alloc::{AllocError, Global};

// The last base of a task that an opening states, of the item with a number.
fn stated_row(item: u32, task: &TaskId, use_then: Use, day: Day) -> BaseRow
    ensures row { result ≡ base_row_with item task.now (base_at use_then day) }
    ensures fits { FitsBase result }
{
    // The text of an identifier, and the number of a day, fit their columns.
    let _ = task.as_str();
    let _ = day.number();
    BaseRow {
        item,
        task: *task,
        life: Use {
            minutes: use_then.minutes,
            cycles: use_then.cycles,
        },
        day,
    }
}

/// The rows of a revision of a programme that an entry loads, with its tasks.
pub fn programme_rows(
    alloc: Global,
    entry: EntryRow,
    programme: Programme,
    tasks: &[Task],
) -> Result<CommandRows, AllocError>
    requires fits { FitsEntry entry }
    requires few { length tasks.now ≤ MOST_TASKS }
    ensures of_book { IfOk result (λ rows. (book : List Entry) (doc : List ℕ)
        → IsEntryOf book (entry_of doc (Loaded programme tasks.now)) entry
        → AreCommandRows book (entry_of doc (Loaded programme tasks.now)) rows) }
    ensures made { IfOk result (AreMadeOf (Loaded programme tasks.now) entry nothing_found) }
{
    let row = programme_row(entry.seq, programme);
    let lines = task_rows(alloc, entry.seq, tasks)?;
    let mut rows = entry_alone(alloc, entry);
    rows.added.tasks = lines;
    rows.added.programmes.push(row)?;
    Ok(rows)
}

/// The rows of an opening of a task of the item with a number.
pub fn opening_rows(
    alloc: Global,
    entry: EntryRow,
    opening: Opening,
    item: u32,
) -> Result<CommandRows, AllocError>
    requires fits { FitsEntry entry }
    ensures of_book { IfOk result (λ rows. (book : List Entry) (doc : List ℕ)
        → IsEntryOf book (entry_of doc (Opened opening)) entry
        → item ≡ number_of_item book opening.item
        → AreCommandRows book (entry_of doc (Opened opening)) rows) }
    ensures made { IfOk result (λ rows. AreMadeOf (Opened opening) entry
        (record nothing_found { number = item }) rows) }
{
    let base = stated_row(item, &opening.task, opening.use_then, opening.day);
    let row = opening_row(entry.seq, item, opening);
    let mut rows = entry_alone(alloc, entry);
    rows.added.openings.push(row)?;
    rows.changed.bases.push(base)?;
    Ok(rows)
}
