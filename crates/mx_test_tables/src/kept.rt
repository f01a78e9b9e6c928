//! Lines over the rows that layout 2 keeps, of any database of that layout, each in a transaction of its own:
//! - `new ITEM MINUTES CYCLES MOMENT`, `clock ITEM MOMENT`, `credit MINUTES CYCLES ITEM ..`: adds a total, sets its clock, adds a use
//!   to the lives of items; `total ITEM`;
//! - `done ITEM TASK MINUTES CYCLES DAY`, `base ITEM TASK`: when a task was last done on an item;
//! - `fitted AIRCRAFT`, `end COMPONENT ENTRY MOMENT`: what is fitted; ends the span of a component.
ghost use Rattle.std.specs.Prelude.{◌≡◌, IfOk, false, nat_eq, true};
ghost use Rattle.mx_book.specs.commands.Bounds.{are_distinct};

use crate::faults::{append_done, append_table_fault, fault_text, room};
use mx_base::rows::BaseRow;
use mx_base::{Day, Moment, TaskId, Use};
use mx_layout::TableFault;
use mx_table_rows::totals::bases::{base_row, set_base};
use mx_table_rows::totals::lives::Total;
use mx_table_rows::totals::spans::{FittedComponent, end_span2, fitted};
use mx_table_rows::totals::totals::{credit, new_total, set_clock, total};
use mx_test_cases::{AnswerText, Unmade, append_joined, or_none, use_of};
use sqlite::{Alter, Connection, Transaction};
use std::alloc::{AllocError, Global};

/// Commits what was done: `ok`, or why it was not done or not committed.
pub(crate) fn committed<S: Alter>(
    alloc: Global,
    tx: Transaction<'_, S>,
    done: Result<(), TableFault>,
) -> AnswerText {
    let mut text = room(alloc)?;
    if let Err(fault) = done {
        append_table_fault(&mut text, fault)?;
        return Ok(text);
    }
    let committed = tx.commit().map_err(|_| TableFault::Store);
    append_done(&mut text, committed)?;
    Ok(text)
}

// Adds the total of an item: `new ITEM MINUTES CYCLES MOMENT`.
fn add<S: Alter>(alloc: Global, conn: &mut Connection<S>, item: &str, total: Total) -> AnswerText
    requires { conn.old.in_transaction ≡ false }
{
    let item = item.parse::<u32>()?;
    let mut tx = conn.transaction();
    let done = new_total(&mut tx, item, total);
    committed(alloc, tx, done)
}

// The total of an item: `total ITEM`.
fn total_text<S: Alter>(alloc: Global, conn: &mut Connection<S>, item: &str) -> AnswerText
    requires { conn.old.in_transaction ≡ false }
{
    let item = item.parse::<u32>()?;
    let mut tx = conn.transaction();
    match total(alloc, &mut tx, item) {
        Ok(found) => {
            let minutes = found.life.minutes;
            let cycles = found.life.cycles;
            let clock = found.clock.text();
            let clock = clock.as_str();
            Ok(format!(in alloc; "{minutes} {cycles} {clock}")?)
        }
        Err(fault) => fault_text(alloc, fault),
    }
}

// Sets the clock of an item: `clock ITEM MOMENT`.
fn clock<S: Alter>(alloc: Global, conn: &mut Connection<S>, item: &str, clock: &str) -> AnswerText
    requires { conn.old.in_transaction ≡ false }
{
    let item = item.parse::<u32>()?;
    let clock = Moment::read(clock)?;
    let mut tx = conn.transaction();
    let done = set_clock(alloc, &mut tx, item, clock);
    committed(alloc, tx, done)
}

// Whether no number stands in the list twice.
fn stand_once(numbers: &[u32]) -> bool
    ensures { result ≡ are_distinct nat_eq numbers.now }
{
    let mut rest = numbers;
    while let Some((number, later)) = rest.split_first() {
        if later.contains(number) {
            return false;
        }
        rest = later;
    }
    true
}

// The items that the words name, none of them twice.
pub(crate) fn items_of(alloc: Global, words: &[&str]) -> Result<Vec<u32>, Unmade>
    ensures { IfOk result (λ v. are_distinct nat_eq v.items ≡ true) }
{
    let mut items = Vec::new(alloc);
    for word in words {
        let item = word.parse::<u32>()?;
        items.push(item)?;
    }
    if stand_once(&items) {
        Ok(items)
    } else {
        Err(Unmade::NoSuchLine)
    }
}

// Adds a use to the lives of items: `credit MINUTES CYCLES ITEM ..`, no item twice.
fn credit_all<S: Alter>(
    alloc: Global,
    conn: &mut Connection<S>,
    added: Use,
    words: &[&str],
) -> AnswerText
    requires { conn.old.in_transaction ≡ false }
{
    let items = items_of(alloc, words)?;
    let mut tx = conn.transaction();
    let done = credit(alloc, &mut tx, &items, added);
    committed(alloc, tx, done)
}

// Writes when a task was last done on an item: `done ITEM TASK MINUTES CYCLES DAY`.
fn done<S: Alter>(alloc: Global, conn: &mut Connection<S>, row: &BaseRow) -> AnswerText
    requires { conn.old.in_transaction ≡ false }
{
    let mut tx = conn.transaction();
    let done = set_base(&mut tx, row);
    committed(alloc, tx, done)
}

// The life of an item when a task was last done on it, and the number of that day: `base ITEM TASK`.
fn base_text<S: Alter>(
    alloc: Global,
    conn: &mut Connection<S>,
    item: &str,
    task: &str,
) -> AnswerText
    requires { conn.old.in_transaction ≡ false }
{
    let item = item.parse::<u32>()?;
    let task = TaskId::read(task)?;
    let mut tx = conn.transaction();
    match base_row(alloc, &mut tx, item, &task) {
        Ok(Some(row)) => {
            let minutes = row.life.minutes;
            let cycles = row.life.cycles;
            let day = row.day.number();
            Ok(format!(in alloc; "{minutes} {cycles} {day}")?)
        }
        Ok(None) => Ok(or_none(String::new(alloc))?),
        Err(fault) => fault_text(alloc, fault),
    }
}

fn components_text(alloc: Global, found: &[FittedComponent]) -> Result<String, AllocError> {
    let mut text = String::new(alloc);
    for it in found {
        append_joined(&mut text, it.position.as_str())?;
        let component = it.component;
        write!(text, " {component}")?;
    }
    or_none(text)
}

// What is fitted to an aircraft, each position with its component: `fitted AIRCRAFT`.
fn fitted_text<S: Alter>(alloc: Global, conn: &mut Connection<S>, aircraft: &str) -> AnswerText
    requires { conn.old.in_transaction ≡ false }
{
    let aircraft = aircraft.parse::<u32>()?;
    let mut tx = conn.transaction();
    match fitted(alloc, &mut tx, aircraft) {
        Ok(found) => Ok(components_text(alloc, &found)?),
        Err(fault) => fault_text(alloc, fault),
    }
}

// Ends the span in which a component is fitted: `end COMPONENT ENTRY MOMENT`.
fn end<S: Alter>(
    alloc: Global,
    conn: &mut Connection<S>,
    component: &str,
    entry: &str,
    to: &str,
) -> AnswerText
    requires { conn.old.in_transaction ≡ false }
{
    let component = component.parse::<u32>()?;
    let entry = entry.parse::<u32>()?;
    let to = Moment::read(to)?;
    let mut tx = conn.transaction();
    let done = end_span2(alloc, &mut tx, component, entry, to);
    committed(alloc, tx, done)
}

/// What the kept rows of a database answer to a line behind `kept`.
pub fn answer_of_kept_rows<S: Alter>(
    alloc: Global,
    conn: &mut Connection<S>,
    words: &[&str],
) -> AnswerText
    requires { conn.old.in_transaction ≡ false }
{
    match words {
        ["new", item, minutes, cycles, moment] => {
            let life = use_of(minutes, cycles)?;
            let clock = Moment::read(moment)?;
            add(alloc, conn, item, Total { life, clock })
        }
        ["total", item] => total_text(alloc, conn, item),
        ["credit", minutes, cycles, items @ ..] => {
            let added = use_of(minutes, cycles)?;
            credit_all(alloc, conn, added, items)
        }
        ["clock", item, moment] => clock(alloc, conn, item, moment),
        ["done", item, task, minutes, cycles, day] => {
            let row = BaseRow {
                item: item.parse::<u32>()?,
                task: TaskId::read(task)?,
                life: use_of(minutes, cycles)?,
                day: Day::read(day)?,
            };
            done(alloc, conn, &row)
        }
        ["base", item, task] => base_text(alloc, conn, item, task),
        ["fitted", aircraft] => fitted_text(alloc, conn, aircraft),
        ["end", component, entry, moment] => end(alloc, conn, component, entry, moment),
        _ => Err(Unmade::NoSuchLine),
    }
}
