//! The due list of an aircraft: what is due on its airframe and on what is fitted to it, and its open defects.
ghost use Rattle.std.specs.Prelude.{◌≡◌, ◌++◌, [], true, map, List, IfOk, OnOk};
ghost use Rattle.std.specs.List.{cons_option, flat_map, list_all};
ghost use Rattle.mx_book.specs.commands.Act.{Entry};
ghost use Rattle.mx_book.specs.commands.Programme.{task_shape};
ghost use Rattle.mx_book.specs.Defect.{days_extended};
ghost use Rattle.mx_lists.specs.DueList.{row_by_due, task_before, tasks_by_name, row_with, rows_of_item, rows_of_part, defect_row, rows_placed, due_list};
ghost use Rattle.mx_lists.specs.DueRow.{row_before};
ghost use Rattle.mx_lists.specs.Memory.{Gathers, seen_as};
ghost use Rattle.mx_lists.specs.Order.{in_order};
ghost use Rattle.mx_lists.specs.Ranks.{tasks_rank};

use crate::due_row::{DueList, DueRow};
use crate::dues::due_of_found;
use crate::life_list::{FittedPart, parts_by_position};
use crate::list_questions::{aircraft_of, days_of_extension, item_found, life_of};
use crate::list_records::ListRecords;
use crate::order::{Placed, Rows, sorted};
use crate::stop::Stop;
use mx_base::{Day, Kind, Limit, Position, Serial, Tail, Use};
use mx_book::commands::{Item, Task};
use mx_book::defects::{Defect, category_letter, last_day_with};
use mx_book::due::{left_of, status_by, status_of};
use mx_book::found::Found;
use std::alloc::{AllocError, Global};

impl Placed for Task {
    ghost before = { task_before };

    ghost ranks = { tasks_rank };

    fn before(&self, other: &Task) -> bool {
        self.id < other.id
    }
}

// The tasks of the programme in force of a kind by name, each of its shape.
#[tactic(auto, using(crate::proofs::InOrder::in_order_all))]
fn tasks_in_order<R: ListRecords>(
    records: &mut R,
    alloc: Global,
    kind: &Kind,
) -> Result<Rows<Task>, Stop<R::Fault>>
    ensures answers { Gathers R.reading records.old records.new result
        (λ book. tasks_by_name book kind.now) }
    ensures shape { IfOk result (λ tasks. list_all task_shape tasks ≡ true) }
{
    let tasks = records.tasks(alloc, kind)?;
    Ok(sorted(tasks)?)
}

// The row of a task that is due then, on an item with this life.
fn row_of_due(
    day: Day,
    life: &Use,
    place: Option<(Position, Serial)>,
    task: &Task,
    due: &Limit,
) -> DueRow
    ensures { result ≡ row_by_due day life.now place task.now due.now }
{
    let left = left_of(due, life, day);
    DueRow::Task {
        status: status_of(&left, &task.tolerance),
        place,
        task: task.id,
        left,
    }
}

// The row of a task of an item that was found so and has this life, where something is due.
fn row_of_task<R: ListRecords>(
    records: &mut R,
    day: Day,
    item: &Item,
    found: &Found,
    life: &Use,
    place: Option<(Position, Serial)>,
    task: &Task,
) -> Result<Option<DueRow>, Stop<R::Fault>>
    requires { task_shape task.now ≡ true }
    ensures { Gathers R.reading records.old records.new result
        (λ book. row_with book day item.now found.now life.now place task.now) }
{
    match due_of_found(records, item, found, task) {
        Ok(Some(due)) => Ok(Some(row_of_due(day, life, place, task, &due))),
        Ok(None) => Ok(None),
        Err(fault) => Err(Stop::Fault(fault)),
    }
}

// Appends a row, where there is one.
fn push_found<T: Copy>(rows: &mut Vec<T>, found: Option<T>) -> Result<(), AllocError>
    ensures { OnOk result (rows.new.items ≡ rows.old.items ++ cons_option found []) }
{
    match found {
        Some(row) => {
            rows.push(row)?;
            Ok(())
        }
        None => Ok(()),
    }
}

// Appends the rows of an item, in the order of these tasks.
fn append_item<R: ListRecords>(
    rows: &mut Vec<DueRow>,
    records: &mut R,
    day: Day,
    tasks: &[Task],
    item: &Item,
    place: &Option<(Position, Serial)>,
) -> Result<(), Stop<R::Fault>>
    requires { list_all task_shape tasks.now ≡ true }
    ensures { Gathers R.reading records.old records.new (seen_as (λ _. rows.new.items) result)
        (λ book. rows.old.items ++ rows_of_item book day tasks.now item.now place.now) }
{
    let found = item_found(records, item)?;
    let life = life_of(records, item)?;
    let mut rest = tasks;
    while let Some((task, later)) = rest.split_first() {
        let row = row_of_task(records, day, item, &found, &life, *place, task)?;
        push_found(rows, row)?;
        rest = later;
    }
    Ok(())
}

// Appends the rows of a component in its position.
fn append_part<R: ListRecords>(
    rows: &mut Vec<DueRow>,
    records: &mut R,
    day: Day,
    tasks: &[Task],
    part: &FittedPart,
) -> Result<(), Stop<R::Fault>>
    requires { list_all task_shape tasks.now ≡ true }
    ensures { Gathers R.reading records.old records.new (seen_as (λ _. rows.new.items) result)
        (λ book. rows.old.items ++ rows_of_part book day tasks.now part.now) }
{
    let item = Item::Component(part.serial);
    append_item(
        rows,
        records,
        day,
        tasks,
        &item,
        &Some((part.position, part.serial)),
    )
}

// Appends the rows of components in their positions, one after the other.
fn append_parts<R: ListRecords>(
    rows: &mut Vec<DueRow>,
    records: &mut R,
    day: Day,
    tasks: &[Task],
    parts: &[FittedPart],
) -> Result<(), Stop<R::Fault>>
    requires { list_all task_shape tasks.now ≡ true }
    ensures { Gathers R.reading records.old records.new (seen_as (λ _. rows.new.items) result)
        (λ book. rows.old.items ++ flat_map (rows_of_part book day tasks.now) parts.now) }
{
    let mut rest = parts;
    while let Some((part, later)) = rest.split_first() {
        append_part(rows, records, day, tasks, part)?;
        rest = later;
    }
    Ok(())
}

// The row of an open defect whose interval was extended by so many days.
fn row_of_defect(day: Day, defect: &Defect, days: u32) -> DueRow
    ensures { (book : List Entry) → days ≡ days_extended book defect.now.doc
        → result ≡ defect_row book day defect.now }
{
    let last = last_day_with(defect, days);
    let left = last - i64::from(day.number());
    DueRow::Defect {
        status: status_by(0, left),
        doc: defect.doc,
        letter: category_letter(&defect.deferral.category),
        reference: defect.deferral.reference,
        last,
        left,
    }
}

// Appends the rows of defects, in their order.
fn append_defects<R: ListRecords>(
    rows: &mut Vec<DueRow>,
    records: &mut R,
    day: Day,
    defects: &[Defect],
) -> Result<(), Stop<R::Fault>>
    ensures { Gathers R.reading records.old records.new (seen_as (λ _. rows.new.items) result)
        (λ book. rows.old.items ++ map (defect_row book day) defects.now) }
{
    let mut rest = defects;
    while let Some((defect, later)) = rest.split_first() {
        let days = days_of_extension(records, &defect.doc)?;
        rows.push(row_of_defect(day, defect, days))?;
        rest = later;
    }
    Ok(())
}

/// The rows of an aircraft by place: those of its airframe by task, then those of its components by position and task,
/// then those of these defects, which are its open ones.
pub(crate) fn placed_rows<R: ListRecords>(
    records: &mut R,
    alloc: Global,
    tail: &Tail,
    kind: &Kind,
    day: Day,
    defects: &[Defect],
) -> Result<Vec<DueRow>, Stop<R::Fault>>
    ensures { Gathers R.reading records.old records.new (seen_as (λ rows. rows.items) result)
        (λ book. rows_placed book tail.now kind.now day defects.now) }
{
    let tasks = tasks_in_order(records, alloc, kind)?;
    let parts = parts_by_position(records, alloc, tail)?;
    let mut rows = Vec::new(alloc);
    let airframe = Item::Airframe(*tail);
    append_item(&mut rows, records, day, tasks.as_slice(), &airframe, &None)?;
    append_parts(&mut rows, records, day, tasks.as_slice(), parts.as_slice())?;
    append_defects(&mut rows, records, day, defects)?;
    Ok(rows)
}

/// The rows of an aircraft with these open defects: the overdue, then the due, then the others, each by place.
pub(crate) fn rows_due<R: ListRecords>(
    records: &mut R,
    alloc: Global,
    tail: &Tail,
    kind: &Kind,
    day: Day,
    defects: &[Defect],
) -> Result<Rows<DueRow>, Stop<R::Fault>>
    ensures { Gathers R.reading records.old records.new result
        (λ book. in_order row_before (rows_placed book tail.now kind.now day defects.now)) }
{
    let placed = placed_rows(records, alloc, tail, kind, day, defects)?;
    let rows = sorted(placed)?;
    Ok(rows)
}

/// The due list of an aircraft on a day, or `None` where the registration is unknown. Or why it stopped: memory ran out, or
/// a question was not answered.
pub fn list_dues<R: ListRecords>(
    records: &mut R,
    alloc: Global,
    tail: &Tail,
    day: Day,
) -> Result<Option<DueList>, Stop<R::Fault>>
    ensures { Gathers R.reading records.old records.new result
        (λ book. due_list book tail.now day) }
{
    let Some(aircraft) = aircraft_of(records, tail)? else {
        return Ok(None);
    };
    let defects = records.open_defects(alloc, tail)?;
    let rows = rows_due(
        records,
        alloc,
        tail,
        &aircraft.kind,
        day,
        defects.as_slice(),
    )?;
    let life = life_of(records, &Item::Airframe(*tail))?;
    Ok(Some(DueList {
        tail: *tail,
        day,
        life,
        rows,
    }))
}
