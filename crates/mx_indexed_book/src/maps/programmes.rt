//! Which entry loaded the programme in force of each kind, and what that says.
ghost use Rattle.std.specs.Prelude.{◌≡◌, ◌+◌, List, find, length, true, IfSome};
ghost use Rattle.std.specs.List.{list_all, list_any};
ghost use Rattle.std.specs.Option.{option_map, option_map_or, option_and_then, option_copied};
ghost use Rattle.mx_book.specs.commands.Act.{Entry};
ghost use Rattle.mx_book.specs.commands.Programme.{task_shape};
ghost use Rattle.mx_book.specs.commands.Same.{same_text};
ghost use Rattle.mx_book.specs.declared.commands.item.Item.{Item};
ghost use Rattle.mx_book.specs.Programme.{is_at_end, revision_loaded, tasks_loaded};
ghost use Rattle.mx_book.specs.Register.{found_of};
ghost use Rattle.mx_indexed_book.specs.maps.Programmes.{programme_changed};

use mx_base::{Day, Kind, TaskId, Use};
use mx_book::commands::{Command, Task};
use mx_book::due::{first_due, is_used_up, left_of};
use mx_book::found::{Found, birth_of, is_task_of};

/// What an entry changes that has this number.
pub fn programme_changed(entry: &Command, seq: u32) -> Option<(Kind, Option<u32>)>
    ensures { (book : List Entry) → seq ≡ length book + 1
        → result ≡ programme_changed book entry.now }
{
    entry
        .loaded_programme()
        .map(|programme| (programme.kind, Some(seq)))
}

/// The tasks that an entry loads for a kind, each of its shape.
pub fn tasks_loaded<'a>(entry: &'a Command, kind: &Kind) -> Option<&'a [Task]>
    ensures tasks { option_copied result ≡ tasks_loaded kind.now entry.now.act }
    ensures shape { IfSome (option_copied result) (λ tasks. list_all task_shape tasks ≡ true) }
{
    entry.tasks_loaded(kind)
}

/// The revision that follows the one that an entry loads for a kind, or 1 where it loads none.
pub fn revision_after(entry: &Command, kind: &Kind) -> u32
    ensures { result ≡ option_map_or (λ n. n + 1) (revision_loaded kind.now entry.now.act) 1 }
{
    match entry.loaded_programme() {
        Some(programme) => {
            if programme.kind == *kind {
                programme.revision + 1
            } else {
                1
            }
        }
        None => 1,
    }
}

/// The task with a name, of its shape where each of these is.
pub fn task_named(tasks: &[Task], id: &TaskId) -> Option<Task>
    ensures { result ≡ find (λ t. same_text t.id id.now) tasks.now }
{
    tasks.iter().copied().find(|task| task.id == *id)
}

// Whether a task retires an item that has this life by a day, by what the registers have of the item.
fn retires(found: &Found, life: &Use, day: Day, task: &Task) -> bool
    requires { task_shape task.now ≡ true }
    ensures { (book : List Entry) (item : Item) → found.now ≡ found_of book item
        → result ≡ is_at_end book item life.now day task.now }
{
    if !task.retire || !is_task_of(found, task) {
        return false;
    }
    let due = first_due(birth_of(found), task);
    is_used_up(&left_of(&due, life, day))
}

/// Whether one of these tasks, each of its shape, retires an item that has this life by a day, by what the registers have
/// of the item.
pub fn one_retires(found: &Found, life: &Use, day: Day, tasks: &[Task]) -> bool
    requires { list_all task_shape tasks.now ≡ true }
    ensures { (book : List Entry) (item : Item) → found.now ≡ found_of book item
        → result ≡ list_any (is_at_end book item life.now day) tasks.now }
{
    let mut rest = tasks;
    while let Some((task, later)) = rest.split_first() {
        if retires(found, life, day, task) {
            return true;
        }
        rest = later;
    }
    false
}
