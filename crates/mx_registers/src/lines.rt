//! The rows of what stands on lines from 1: the positions of an aircraft, the tasks of a programme, the lines of a release.
ghost use Rattle.std.specs.Prelude.{◌≡◌, ◌≤◌, length, All, IfOk};
ghost use Rattle.mx_base.specs.rows.Rows.{FitsPlace, FitsReleaseLine, FitsTask};
ghost use Rattle.mx_book.specs.declared.commands.programme_shape.TheConstants.{MOST_TASKS};
ghost use Rattle.mx_book.specs.declared.commands.shape.TheConstants.{MOST_POSITIONS};
ghost use Rattle.mx_registers.specs.Lines.{lines_from};
ghost use Rattle.mx_registers.specs.Registers.{place_row, task_row};

use crate::{place_row, task_row};
use mx_base::rows::{PlaceRow, ReleaseLineRow, TaskRow};
use mx_base::{Part, Position, TaskId};
use mx_book::commands::Task;
use std::alloc::{AllocError, Global};

/// The rows of the positions of the aircraft that the entry with a number adds.
pub fn place_rows(
    alloc: Global,
    seq: u32,
    positions: &[(Position, Part)],
) -> Result<Vec<PlaceRow>, AllocError>
    requires few { length positions.now ≤ MOST_POSITIONS }
    ensures rows { IfOk result (λ rows. rows.items ≡ lines_from place_row seq 1 positions.now) }
    ensures fits { IfOk result (λ rows. All FitsPlace rows.items) }
{
    let mut rows = Vec::new(alloc);
    let mut line = 1u32;
    let mut rest = positions;
    while let Some((place, later)) = rest.split_first() {
        rows.push(place_row(seq, line, place))?;
        line += 1;
        rest = later;
    }
    Ok(rows)
}

/// The rows of the tasks of the programme that the entry with a number loads.
pub fn task_rows(alloc: Global, seq: u32, tasks: &[Task]) -> Result<Vec<TaskRow>, AllocError>
    requires few { length tasks.now ≤ MOST_TASKS }
    ensures rows { IfOk result (λ rows. rows.items ≡ lines_from task_row seq 1 tasks.now) }
    ensures fits { IfOk result (λ rows. All FitsTask rows.items) }
{
    let mut rows = Vec::new(alloc);
    let mut line = 1u32;
    let mut rest = tasks;
    while let Some((task, later)) = rest.split_first() {
        rows.push(task_row(seq, line, task))?;
        line += 1;
        rest = later;
    }
    Ok(rows)
}

/// The row of a line that certifies a task of an item, on this line of the release that is entered with a number, where
/// another number is that of the entry that added the item.
pub fn done_row(seq: u32, line: u32, item: u32, task: &TaskId) -> ReleaseLineRow
    ensures row { result ≡ record {
      seq = seq;
      line = line;
      item = Some item;
      task = Some task.now;
      defect = None;
    } }
    ensures fits { FitsReleaseLine result }
{
    // The text of an identifier fits its column.
    let _ = task.as_str();
    ReleaseLineRow {
        seq,
        line,
        item: Some(item),
        task: Some(*task),
        defect: None,
    }
}

/// The row of a line that certifies that a defect was rectified, on this line of the release that is entered with a
/// number, where another number is that of the entry that deferred the defect.
pub fn rectified_row(seq: u32, line: u32, defect: u32) -> ReleaseLineRow
    ensures row { result ≡ record {
      seq = seq;
      line = line;
      item = None;
      task = None;
      defect = Some defect;
    } }
    ensures fits { FitsReleaseLine result }
{
    ReleaseLineRow {
        seq,
        line,
        item: None,
        task: None,
        defect: Some(defect),
    }
}
