//! Programmes that were found: the one in force, its tasks, and what it retires.
ghost use Rattle.std.specs.Prelude.{◌≡◌, ◌<◌, ◌^◌, ℕ, List, false, map, true, None, Some, IfOk};
ghost use Rattle.std.specs.List.{list_all};
ghost use Rattle.std.specs.Option.{option_map, option_map_or, SomeIff};
ghost use Rattle.mx_base.specs.declared.amounts.Use.{Use};
ghost use Rattle.mx_book.specs.commands.Act.{Entry};
ghost use Rattle.mx_book.specs.commands.Programme.{task_shape};
ghost use Rattle.mx_book.specs.declared.commands.aircraft.Aircraft.{Aircraft};
ghost use Rattle.mx_book.specs.declared.commands.component.Component.{Component};
ghost use Rattle.mx_book.specs.declared.commands.item.Item.{Item};
ghost use Rattle.mx_book.specs.declared.commands.item.Item.TheVariants as items;
ghost use Rattle.mx_book.specs.Asking.{task_of};
ghost use Rattle.mx_book.specs.Book.{IsBook};
ghost use Rattle.mx_book.specs.Life.{life_now};
ghost use Rattle.mx_book.specs.Programme.{life_ended, next_revision, tasks_in_force};
ghost use Rattle.mx_book.specs.Register.{aircraft, component};
ghost use Rattle.mx_registers.specs.Merge.{task_said};
ghost use Rattle.mx_base.specs.declared.rows.rows.TaskRow.{TaskRow};
ghost use Rattle.mx_row_rules.specs.found.Programmes.{is_retired_in, programme_number, programmes_of, retires, revision_after, task_in, tasks_with};

use mx_base::rows::{ProgrammeRow, TaskRow};
use mx_base::{Day, Part, TaskId, Use};
use mx_book::commands::Task;
use mx_book::due::{first_due, is_used_up, left_of};
pub use mx_registers::plain::said::task_said;
use std::alloc::{AllocError, Global};

/// The number of the last of these programmes.
#[tactic(auto, using(crate::proofs::FoundProofs::LastLemmas::last_is))]
pub fn programme_number(rows: &[ProgrammeRow]) -> Option<u32>
    ensures { result ≡ programme_number rows.now }
{
    rows.last().map(|row| row.seq)
}

/// One more than the revision of the last of these programmes, or 1 without one; `None` where it has no more 32 bits.
#[tactic(auto, using(crate::proofs::FoundProofs::LastLemmas::last_is))]
pub fn revision_after(rows: &[ProgrammeRow]) -> Option<u32>
    ensures { SomeIff result (revision_after rows.now < 2 ^ 32) (revision_after rows.now) }
{
    match rows.last() {
        Some(row) => row.revision.checked_add(1),
        None => Some(1),
    }
}

/// The task with a name, by the rows of the tasks of a programme.
pub fn task_in(rows: &[TaskRow], id: &TaskId) -> Option<Task>
    ensures { result ≡ task_in rows.now id.now }
{
    rows.iter()
        .find(|row| row.id == *id)
        .map(|row| task_said(row))
}

/// Whether a row says a task of its shape.
pub fn has_task_shape(row: &TaskRow) -> bool
    ensures { result ≡ task_shape (task_said row.now) }
{
    task_said(row).has_shape()
}

/// Whether each row says a task of its shape.
pub fn have_task_shapes(rows: &[TaskRow]) -> bool
    ensures { result ≡ list_all (λ (row : TaskRow). task_shape (task_said row)) rows.now }
{
    rows.iter().all(|row| has_task_shape(row))
}

/// The tasks that rows say, in their order. An error where memory runs out.
pub fn tasks_said(alloc: Global, rows: &[TaskRow]) -> Result<Vec<Task>, AllocError>
    ensures { IfOk result (λ tasks. tasks.items ≡ map task_said rows.now) }
{
    rows.iter().map(|row| task_said(row)).collect(alloc)
}

// Whether a task is done on this part, or on airframes where none is named, and nothing is left until it retires the item.
fn retires(part: &Option<Part>, birth: Day, life: &Use, day: Day, row: &TaskRow) -> bool
    requires { task_shape (task_said row.now) ≡ true }
    ensures { result ≡ retires part.now birth life.now day row.now }
{
    let task = task_said(row);
    row.retire && row.part == *part && is_used_up(&left_of(&first_due(birth, &task), life, day))
}

/// Whether one of these tasks, each of its shape, retires an item that was built on this day and has this life: a component
/// of this part, or an airframe where none is named.
pub fn is_retired_in(
    part: &Option<Part>,
    birth: Day,
    life: &Use,
    day: Day,
    rows: &[TaskRow],
) -> bool
    requires { list_all (λ (row : TaskRow). task_shape (task_said row)) rows.now ≡ true }
    ensures { result ≡ is_retired_in part.now birth life.now day rows.now }
{
    rows.iter().any(|row| retires(part, birth, life, day, row))
}

/// The last row of a kind has the revision that comes before the next, which has 32 bits.
pub fn revisions_are_found()
    ensures revision { (book : List Entry) (kind : List ℕ)
        → revision_after (programmes_of kind book) ≡ next_revision book kind }
    ensures bounded { (book : List Entry) (kind : List ℕ) → IsBook book
        → next_revision book kind < 2 ^ 32 }
{}

/// The rows with the number of the last programme of a kind say its tasks in force, each of its shape, and so the task
/// with a name; without a programme there are none.
pub fn tasks_are_found()
    ensures tasks { (book : List Entry) (kind : List ℕ) → IsBook book
        → option_map (λ n. map task_said (tasks_with n book))
        (programme_number (programmes_of kind book)) ≡ tasks_in_force book kind }
    ensures task { (book : List Entry) (kind id : List ℕ) → IsBook book
        → option_map (λ n. task_in (tasks_with n book) id)
        (programme_number (programmes_of kind book)) ≡ task_of book kind id }
    ensures shape { (book : List Entry) (n : ℕ) → IsBook book
        → list_all (λ (row : TaskRow). task_shape (task_said row)) (tasks_with n book) ≡ true }
{}

/// A task in force of a kind retires an item that is there where one of the rows of these tasks does, by its part, its
/// birth and its life.
pub fn retired_items_are_found()
    ensures airframe { (book : List Entry) (kind tail : List ℕ) (a : Aircraft) (life : Use)
        (day : ℕ) → IsBook book → aircraft book tail ≡ Some a
        → life_now book (items.Airframe tail) ≡ Some life
        → option_map_or (λ n. is_retired_in None a.birth life day (tasks_with n book))
        (programme_number (programmes_of kind book)) false
        ≡ life_ended book kind (items.Airframe tail) day }
    ensures component { (book : List Entry) (kind serial : List ℕ) (c : Component) (life : Use)
        (day : ℕ) → IsBook book → component book serial ≡ Some c
        → life_now book (items.Component serial) ≡ Some life
        → option_map_or (λ n. is_retired_in (Some c.part) c.birth life day (tasks_with n book))
        (programme_number (programmes_of kind book)) false
        ≡ life_ended book kind (items.Component serial) day }
    ensures unknown { (book : List Entry) (kind : List ℕ) (item : Item) (day : ℕ)
        → life_now book item ≡ None → life_ended book kind item day ≡ false }
{}
