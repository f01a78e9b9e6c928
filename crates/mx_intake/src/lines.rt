//! The lines of a release, a list of objects: each states the defect that was rectified, or the task that was done on an
//! item.
//!
//! Faults of lines are faults of their entry, as those of positions are: all lines are looked at, and the least number
//! counts.
ghost use Rattle.std.specs.Prelude.{◌≡◌};
ghost use Rattle.serde_json.specs.View.{view};
ghost use Rattle.mx_intake.specs.Object.{has_other_key};
ghost use Rattle.mx_intake.specs.Release.{line_keys, lacks_line_key, names_defect_and_task, line_keys_exclude, any_line, is_task_readable, stated_line};

use crate::items::{item_at, lacks_item, names_two_items};
use crate::listed::{Listed, one_at};
use crate::object::{has, has_other};
use crate::vocabulary::identifier_at;
use mx_base::TaskId;
use mx_book::commands::Line;
use serde_json::Value;

/// Whether a line, if it is an object, lacks a key.
fn lacks_key(line: &Value) -> bool
    ensures { result ≡ lacks_line_key (view line.now) }
{
    line.is_object() && !has(line, "defect") && (!has(line, "task") || lacks_item(line))
}

/// Whether a line names a defect, and beside it a task or an item.
fn names_defect_and_task(line: &Value) -> bool
    ensures { result ≡ names_defect_and_task (view line.now) }
{
    has(line, "defect") && (has(line, "task") || !lacks_item(line))
}

/// Whether two keys of a line exclude each other.
fn keys_exclude(line: &Value) -> bool
    ensures { result ≡ line_keys_exclude (view line.now) }
{
    names_two_items(line) || names_defect_and_task(line)
}

/// Whether the task and the item can be read, as far as they are there.
fn is_task_readable(line: &Value) -> bool
    ensures { result ≡ is_task_readable (view line.now) }
{
    let task: Option<TaskId> = identifier_at(line, "task");
    (lacks_item(line) || item_at(line).is_some()) && (!has(line, "task") || task.is_some())
}

/// Whether one of the lines of an object lacks a key.
pub(crate) fn lack_key(object: &Value) -> bool
    ensures { result ≡ any_line lacks_line_key (view object.now) }
{
    one_at(object, "lines", |line| lacks_key(line))
}

/// Whether one of the lines of an object has another key than those of a line.
pub(crate) fn have_other_key(object: &Value) -> bool
    ensures { result ≡ any_line (has_other_key line_keys) (view object.now) }
{
    let keys = ["task", "tail", "serial", "defect"];
    one_at(object, "lines", |line| has_other(line, &keys))
}

/// Whether two keys of one of the lines of an object exclude each other.
pub(crate) fn have_excluding_keys(object: &Value) -> bool
    ensures { result ≡ any_line line_keys_exclude (view object.now) }
{
    one_at(object, "lines", |line| keys_exclude(line))
}

impl Listed for Line {
    ghost stated = { stated_line };

    fn of(line: &Value) -> Option<Line> {
        if !has(line, "defect") {
            return Some(Line::Done(item_at(line)?, identifier_at(line, "task")?));
        }
        if !is_task_readable(line) {
            return None;
        }
        Some(Line::Rectified(identifier_at(line, "defect")?))
    }
}
