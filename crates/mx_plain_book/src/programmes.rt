//! The programme in force of a kind, what its tasks apply to, and what was accomplished of them.
ghost use Rattle.std.specs.Prelude.{◌≡◌, ◌≤◌, length, true, find, IfOk, IfSome};
ghost use Rattle.std.specs.List.{list_all, list_any};
ghost use Rattle.std.specs.Option.{option_copied};
ghost use Rattle.mx_book.specs.commands.Programme.{task_shape};
ghost use Rattle.mx_book.specs.commands.Same.{same_text};
ghost use Rattle.mx_book.specs.commands.Shape.{has_shape};
ghost use Rattle.mx_book.specs.Programme.{revision_loaded, tasks_in_force, tasks_or_none, revision_in_force, next_revision, task_in_force, is_done, accomplishes, is_accomplished, is_at_end, is_ended_by, life_ended};
ghost use Rattle.mx_book.specs.Asking.{task_of};
ghost use Rattle.mx_book.specs.declared.limits.TheConstants.{MOST_ENTRIES};
ghost use Rattle.mx_book.specs.declared.commands.programme_shape.TheConstants.{LAST_REVISION};

use crate::lives::life;
use crate::register::found_of;
use mx_base::{Day, Kind, TaskId, Use};
use mx_book::commands::{Command, Item, Line, Task};
use mx_book::due::{first_due, is_used_up, left_of};
use mx_book::found::{birth_of, is_task_of};
use std::alloc::{AllocError, Global};

// The tasks of the programme in force of a kind, each of its shape, or `None` where the kind has no programme.
fn programme_in_force<'a>(entries: &'a [Command], kind: &Kind) -> Option<&'a [Task]>
    ensures tasks { option_copied result ≡ tasks_in_force entries.now kind.now }
    ensures shape { IfSome (option_copied result) (λ tasks. list_all task_shape tasks ≡ true) }
{
    let mut found = None;
    let mut rest = entries;
    while let Some((entry, later)) = rest.split_first() {
        if let Some(tasks) = entry.tasks_loaded(kind) {
            found = Some(tasks);
        }
        rest = later;
    }
    found
}

/// The tasks of the programme in force of a kind, each of its shape, none where it has no programme. An error where memory
/// runs out.
pub fn tasks_of_kind(
    alloc: Global,
    entries: &[Command],
    kind: &Kind,
) -> Result<Vec<Task>, AllocError>
    ensures tasks { IfOk result (λ tasks. tasks.items ≡ tasks_or_none entries.now kind.now) }
    ensures shape { IfOk result (λ tasks. list_all task_shape tasks.items ≡ true) }
{
    match programme_in_force(entries, kind) {
        Some(tasks) => Vec::from_slice(alloc, tasks),
        None => Ok(Vec::new(alloc)),
    }
}

// The revision that an entry loads for a kind.
fn revision_loaded_by(entry: &Command, kind: &Kind) -> Option<u32>
    ensures revision { result ≡ revision_loaded kind.now entry.now.act }
    ensures bounded { IfSome result (λ n. n ≤ LAST_REVISION) }
{
    match entry.loaded_programme() {
        Some(programme) => {
            if programme.kind == *kind {
                Some(programme.revision)
            } else {
                None
            }
        }
        None => None,
    }
}

// The revision of the programme in force of a kind.
fn last_revision(entries: &[Command], kind: &Kind) -> Option<u32>
    ensures revision { result ≡ revision_in_force entries.now kind.now }
    ensures bounded { IfSome result (λ n. n ≤ LAST_REVISION) }
{
    let mut found = None;
    let mut rest = entries;
    while let Some((entry, later)) = rest.split_first() {
        if let Some(revision) = revision_loaded_by(entry, kind) {
            found = Some(revision);
        }
        rest = later;
    }
    found
}

/// The revision that is loaded next for a kind: 1, or one more than that in force.
pub(crate) fn revision_expected(entries: &[Command], kind: &Kind) -> u32
    ensures { result ≡ next_revision entries.now kind.now }
{
    match last_revision(entries, kind) {
        Some(revision) => revision + 1,
        None => 1,
    }
}

// The task with a name.
fn task_among(tasks: &[Task], id: &TaskId) -> Option<Task>
    ensures { result ≡ find (λ t. same_text t.id id.now) tasks.now }
{
    tasks.iter().copied().find(|task| task.id == *id)
}

/// The task with a name in the programme in force of a kind, of its shape: `None` where the kind has no programme, and
/// `Some(None)` where the programme does not have the task.
#[tactic(auto, using(mx_book::proofs::ListLemmas::found_task))]
pub(crate) fn task_in_programme(
    entries: &[Command],
    kind: &Kind,
    id: &TaskId,
) -> Option<Option<Task>>
    ensures task { result ≡ task_of entries.now kind.now id.now }
    ensures shape { IfSome result (λ task. IfSome task (λ t. task_shape t ≡ true)) }
{
    match programme_in_force(entries, kind) {
        Some(tasks) => Some(task_among(tasks, id)),
        None => None,
    }
}

/// The task with a name in the programme in force of a kind, of its shape.
#[tactic(auto, using(mx_book::proofs::ListLemmas::found_task))]
pub fn task_of_kind(entries: &[Command], kind: &Kind, id: &TaskId) -> Option<Task>
    ensures task { result ≡ task_in_force entries.now kind.now id.now }
    ensures shape { IfSome result (λ t. task_shape t ≡ true) }
{
    match programme_in_force(entries, kind) {
        Some(tasks) => task_among(tasks, id),
        None => None,
    }
}

/// Whether a line certifies that the task of an item was done.
#[tactic(auto, using(mx_book::proofs::CommandsProofs::SameLemmas::item_is))]
pub fn is_done_by(line: &Line, item: &Item, id: &TaskId) -> bool
    ensures { result ≡ is_done item.now id.now line.now }
{
    match line {
        Line::Done(done, task) => *done == *item && *task == *id,
        Line::Rectified(_) => false,
    }
}

// Whether a line among these certifies that the task of an item was done.
fn is_done_among(lines: &[Line], item: &Item, id: &TaskId) -> bool
    ensures { result ≡ list_any (is_done item.now id.now) lines.now }
{
    lines.iter().any(|line| is_done_by(line, item, id))
}

// Whether an entry accomplishes the task of an item.
#[tactic(auto, using(mx_book::proofs::CommandsProofs::SameLemmas::item_is))]
fn is_accomplished_by(entry: &Command, item: &Item, id: &TaskId) -> bool
    ensures { result ≡ accomplishes item.now id.now entry.now.act }
{
    match entry.stated_opening() {
        Some(opening) => opening.item == *item && opening.task == *id,
        None => is_done_among(entry.lines(), item, id),
    }
}

/// Whether the task of an item was accomplished.
pub(crate) fn was_accomplished(entries: &[Command], item: &Item, id: &TaskId) -> bool
    ensures { result ≡ is_accomplished entries.now item.now id.now }
{
    entries
        .iter()
        .any(|entry| is_accomplished_by(entry, item, id))
}

// Whether a task retires an item that has this life by a day.
fn is_retired_by(entries: &[Command], item: &Item, life: &Use, day: Day, task: &Task) -> bool
    requires { task_shape task.now ≡ true }
    ensures { result ≡ is_at_end entries.now item.now life.now day task.now }
{
    let found = found_of(entries, item);
    if !task.retire || !is_task_of(&found, task) {
        return false;
    }
    let due = first_due(birth_of(&found), task);
    is_used_up(&left_of(&due, life, day))
}

// Whether one of these tasks retires an item that has this life by a day.
fn is_retired_by_any(entries: &[Command], item: &Item, life: &Use, day: Day, tasks: &[Task]) -> bool
    requires { list_all task_shape tasks.now ≡ true }
    ensures { result ≡ list_any (is_at_end entries.now item.now life.now day) tasks.now }
{
    tasks
        .iter()
        .any(|task| is_retired_by(entries, item, life, day, task))
}

// Whether a task in force of a kind retires an item that has this life by a day.
fn is_retired_with(entries: &[Command], kind: &Kind, item: &Item, day: Day, life: &Use) -> bool
    ensures { result ≡ is_ended_by entries.now kind.now item.now day life.now }
{
    match programme_in_force(entries, kind) {
        Some(tasks) => is_retired_by_any(entries, item, life, day, tasks),
        None => false,
    }
}

/// Whether a task in force of a kind retires an item by a day, with the life that it has now.
pub(crate) fn is_retired(entries: &[Command], kind: &Kind, item: &Item, day: Day) -> bool
    requires few { length entries.now ≤ MOST_ENTRIES }
    requires shaped { list_all has_shape entries.now ≡ true }
    ensures { result ≡ life_ended entries.now kind.now item.now day }
{
    match life(entries, item, None) {
        Some(life) => is_retired_with(entries, kind, item, day, &life),
        None => false,
    }
}
