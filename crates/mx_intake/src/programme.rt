//! The maintenance programme of a TOML text.
//!
//! The top of a programme is entry 0, so its faults come before those of any task: a revision out of its bounds, or a
//! list of too many tasks, is told before a task is looked at. That two tasks have the same name is a fault of none of
//! them alone, so it is told of entry 0, and only where nothing else is faulty.
ghost use Rattle.std.specs.Prelude.{◌≡◌, ◌≢◌, ◌≤◌, ◌&&◌, Ok, Err, IfOk, IfErr, IsTrue, length, option_map};
ghost use Rattle.mx_book.specs.commands.Bounds.{within};
ghost use Rattle.toml.specs.View.{view, items_view};
ghost use Rattle.mx_intake.specs.declared.fault.TheConstants.{MEMORY};
ghost use Rattle.mx_intake.specs.ProgrammeText.{stated_programme, top_shape, top_by_toml, tasks_from, if_distinct, programme_of_table, table_of_text, programme_of_text};
ghost use Rattle.mx_intake.specs.Tasks.{task_by_toml};

use crate::fault::{
    BAD_SHAPE, BAD_VALUE, IntakeFault, MEMORY, MISSING, NOT_TEXT, UNKNOWN_KEY, of_whole,
};
use crate::table::{has_other, lacks, list_at, number_at, text_at};
use crate::task::task_of;
use crate::text::text_of;
use crate::vocabulary::read_identifier;
use mx_book::commands::programme_shape::{LAST_REVISION, MOST_TASKS};
use mx_book::commands::{Applies, Programme, Task};
use std::alloc::{AllocError, Global};
use toml::Value;

/// The programme that a table states, and the values that are its tasks, where each can be read.
fn stated(table: &Value) -> Option<(Programme, &[Value])>
    ensures { option_map (λ top. (top.0, items_view top.1.now)) result
        ≡ stated_programme (view table.now) }
{
    let programme = Programme {
        kind: read_identifier(text_at(table, "kind")?)?,
        revision: number_at(table, "revision")?,
    };
    Some((programme, list_at(table, "task")?))
}

/// Whether a programme may have this revision, and so many tasks.
fn are_within_bounds(revision: u32, tasks: usize) -> bool
    ensures { result ≡ (within 1 LAST_REVISION revision && within 1 MOST_TASKS tasks) }
{
    1 <= revision && revision <= LAST_REVISION && 1 <= tasks && tasks <= MOST_TASKS
}

/// Whether a programme has its revision, and as many tasks, as programmes have.
fn has_top_shape(programme: &Programme, tasks: &[Value]) -> bool
    ensures { result ≡ top_shape (programme.now, items_view tasks.now) }
{
    are_within_bounds(programme.revision, tasks.len())
}

/// The programme that a table gives by its form, and the values that are its tasks, or the number of its least fault.
fn top_of(table: &Value) -> Result<(Programme, &[Value]), u8>
    ensures ok { IfOk result (λ top.
        top_by_toml (view table.now) ≡ Ok (top.0, items_view top.1.now)) }
    ensures err { IfErr result (λ n. top_by_toml (view table.now) ≡ Err n) }
    ensures number { IfErr result (λ n. n ≢ MEMORY) }
    ensures shape { IfOk result (λ top. IsTrue (top_shape (top.0, items_view top.1.now))) }
{
    let keys = ["kind", "revision", "task"];
    if lacks(table, &keys) {
        return Err(MISSING);
    }
    let Some((programme, tasks)) = stated(table) else {
        return Err(BAD_VALUE);
    };
    if has_other(table, &keys) {
        return Err(UNKNOWN_KEY);
    }
    if has_top_shape(&programme, tasks) {
        Ok((programme, tasks))
    } else {
        Err(BAD_SHAPE)
    }
}

/// The task that a value states as an entry of a list, or its fault.
fn task_of_entry(entry: u32, value: &Value) -> Result<Task, IntakeFault>
    ensures ok { IfOk result (λ t. task_by_toml (view value.now) ≡ Ok t) }
    ensures err { IfErr result (λ f. task_by_toml (view value.now) ≡ Err f.number) }
    ensures entry { IfErr result (λ f. f.entry ≡ entry) }
    ensures number { IfErr result (λ f. f.number ≢ MEMORY) }
{
    match task_of(value) {
        Ok(task) => Ok(task),
        Err(number) => Err(IntakeFault { number, entry }),
    }
}

/// The tasks of values, of which the first is entry 1, or the fault of the first faulty one.
fn tasks_of_values(alloc: Global, values: &[Value]) -> Result<Vec<Task>, IntakeFault>
    requires { length values.now ≤ MOST_TASKS }
    ensures ok { IfOk result (λ v. tasks_from 1 (items_view values.now) ≡ Ok v.items) }
    ensures err { IfErr result (λ f. f.number ≢ MEMORY
        → tasks_from 1 (items_view values.now) ≡ Err f) }
    ensures memory { IfErr result (λ f. f.number ≡ MEMORY → f.entry ≡ 0) }
{
    // The checker proves this loop only where the type of each field of a task is named in the function.
    let _: Option<Applies> = None;
    let mut tasks = Vec::new(alloc);
    for (i, value) in values.iter().enumerate() {
        let task = task_of_entry(i as u32 + 1, value)?;
        tasks.push(task).map_err(AllocError::from)?;
    }
    Ok(tasks)
}

/// The programme with the tasks that values state, or the fault of the first faulty one, or of the whole where two of
/// them have the same name.
fn programme_of_values(
    alloc: Global,
    programme: Programme,
    values: &[Value],
) -> Result<(Programme, Vec<Task>), IntakeFault>
    requires { IsTrue (top_shape (programme, items_view values.now)) }
    ensures ok { IfOk result (λ p.
        if_distinct programme (tasks_from 1 (items_view values.now)) ≡ Ok (p.0, p.1.items)) }
    ensures err { IfErr result (λ f. f.number ≢ MEMORY
        → if_distinct programme (tasks_from 1 (items_view values.now)) ≡ Err f) }
    ensures memory { IfErr result (λ f. f.number ≡ MEMORY → f.entry ≡ 0) }
{
    let tasks = tasks_of_values(alloc, values)?;
    if programme.has_shape(tasks.as_slice()) {
        Ok((programme, tasks))
    } else {
        Err(of_whole(BAD_SHAPE))
    }
}

/// The programme of a table, with its tasks.
fn programme_of_table(alloc: Global, table: &Value) -> Result<(Programme, Vec<Task>), IntakeFault>
    ensures ok { IfOk result (λ p. programme_of_table (view table.now) ≡ Ok (p.0, p.1.items)) }
    ensures err { IfErr result (λ f. f.number ≢ MEMORY
        → programme_of_table (view table.now) ≡ Err f) }
    ensures memory { IfErr result (λ f. f.number ≡ MEMORY → f.entry ≡ 0) }
{
    match top_of(table) {
        Ok((programme, values)) => programme_of_values(alloc, programme, values),
        Err(number) => Err(of_whole(number)),
    }
}

/// The table of a text.
fn read_table(alloc: Global, bytes: &[u8]) -> Result<Value, IntakeFault>
    ensures ok { IfOk result (λ v. table_of_text bytes.now ≡ Ok (view v)) }
    ensures err { IfErr result (λ f. f.number ≢ MEMORY → table_of_text bytes.now ≡ Err f) }
    ensures memory { IfErr result (λ f. f.number ≡ MEMORY → f.entry ≡ 0) }
{
    let text = text_of(bytes)?;
    match toml::table_from_str(alloc, text) {
        Ok(table) => Ok(Value::Table(table)),
        Err(error) => {
            if error.is_memory() {
                return Err(of_whole(MEMORY));
            }
            Err(of_whole(NOT_TEXT))
        }
    }
}

/// The maintenance programme that a text states, with its tasks in their order: a TOML document of at most 8,388,608
/// bytes with the keys `kind`, a text, `revision`, a whole number, and `task`, a list of 1 to 500 tables, and no
/// others. Each task has `id`, a text, `applies`, which is `airframe` or `part:` and a part behind it, and `first`, a
/// limit; it may have `repeat` and `tolerance`, which are limits too, and `retire`, true or false and false where it is
/// absent. A limit is a table with any of `hours`, `cycles` and `days`, whole numbers.
///
/// Of several faults that of the first faulty entry is answered, and of that entry the least number. Entry 0 is the
/// whole text: 67 too many bytes; 61 no UTF-8, or no TOML; and what its top has. Entry n is the n-th task. Of an entry:
/// 63 no table; 62 a key that is missing; 63 a value of another kind, or one that can't be read, as a number outside 0
/// to 4,294,967,295, also as minutes; 64 a key that the entry, or one of its limits, does not have; 65 a shape that no
/// programme and no task has, as a `first` without any dimension. Two tasks of the same name are 65 of entry 0, where
/// nothing else is faulty. 60, of entry 0, is want of memory.
pub fn programme_of_toml(alloc: Global, bytes: &[u8]) -> Result<(Programme, Vec<Task>), IntakeFault>
    ensures ok { IfOk result (λ p. programme_of_text bytes.now ≡ Ok (p.0, p.1.items)) }
    ensures err { IfErr result (λ f. f.number ≢ MEMORY → programme_of_text bytes.now ≡ Err f) }
    ensures memory { IfErr result (λ f. f.number ≡ MEMORY → f.entry ≡ 0) }
{
    let table = read_table(alloc, bytes)?;
    programme_of_table(alloc, &table)
}
