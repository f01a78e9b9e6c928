//! Lines that change rows of the tables of layout 3, each in a transaction of its own:
//! - `rewrite deferrals`, `rewrite accomplishments`: all rows of a table are read, deleted and added once more;
//! - `done ITEM TASK SEQ LINE VALUE BASE`, each of the last two as `MINUTES CYCLES DAY`: adds an accomplishment that was never due;
//! - `shift AIRCRAFT CYCLES MOMENT`: adds to the cycles at which defects were found, from a moment on;
//! - `credit MINUTES CYCLES MOMENT ITEM ..`: adds a use to the lives of items, none of them twice, and to what they had reached at
//!   releases from a moment on;
//! - `rebase ITEM TASK`: due and base of the accomplishments of a task anew, by their values.
ghost use Rattle.std.specs.Prelude.{◌≡◌, false};

use crate::kept::{committed, items_of};
use mx_base::rows::{Deferral3Row, DoneRow};
use mx_base::{Base, Limit, Moment, TaskId, Use};
use mx_layout::TableFault;
use mx_table_rows::totals::done::set_done;
use mx_table_rows::totals::found::shift_found;
use mx_table_rows::totals::late::credit_late;
use mx_table_rows::totals::rebase::rebase;
use mx_tables::dated::DatedRow;
use mx_tables::inserts::Insert;
use mx_tables::rows;
use mx_test_cases::{AnswerText, Unmade, use_of};
use sqlite::{Alter, Connection, Transaction};
use std::alloc::Global;

/// The limit of a task that is never due.
const NEVER: Limit = Limit {
    minutes: None,
    cycles: None,
    days: None,
};

// Deletes the rows of a table, by the statement, and adds these.
fn put_again<S: Alter, R: Insert + Drop>(
    tx: &mut Transaction<'_, S>,
    delete: &str,
    found: &[R],
) -> Result<(), TableFault> {
    if tx.execute(delete, &[]).is_err() {
        return Err(TableFault::Store);
    }
    for row in found {
        row.insert(tx)?;
    }
    Ok(())
}

// Reads all rows of a table and writes them once more.
fn rewritten<S: Alter, R: Insert + Drop>(
    alloc: Global,
    tx: &mut Transaction<'_, S>,
    delete: &str,
) -> Result<(), TableFault> {
    let found: Vec<R> = rows(alloc, tx)?;
    put_again(tx, delete, &found)
}

fn rewrite_deferrals<S: Alter>(alloc: Global, conn: &mut Connection<S>) -> AnswerText
    requires { conn.old.in_transaction ≡ false }
{
    let mut tx = conn.transaction();
    let done = rewritten::<S, Deferral3Row>(alloc, &mut tx, "DELETE FROM defect3");
    committed(alloc, tx, done)
}

fn rewrite_accomplishments<S: Alter>(alloc: Global, conn: &mut Connection<S>) -> AnswerText
    requires { conn.old.in_transaction ≡ false }
{
    let mut tx = conn.transaction();
    let done = rewritten::<S, DatedRow>(alloc, &mut tx, "DELETE FROM done3");
    committed(alloc, tx, done)
}

// Adds an accomplishment: `done`.
fn done<S: Alter>(alloc: Global, conn: &mut Connection<S>, row: DoneRow) -> AnswerText
    requires { conn.old.in_transaction ≡ false }
{
    let mut tx = conn.transaction();
    let done = set_done(&mut tx, row);
    committed(alloc, tx, done)
}

// Adds to the cycles at which the defects of an aircraft were found.
fn shift<S: Alter>(
    alloc: Global,
    conn: &mut Connection<S>,
    aircraft: u32,
    cycles: u32,
    landed: Moment,
) -> AnswerText
    requires { conn.old.in_transaction ≡ false }
{
    let mut tx = conn.transaction();
    let done = shift_found(alloc, &mut tx, aircraft, cycles, landed);
    committed(alloc, tx, done)
}

fn base_of(minutes: &str, cycles: &str, day: &str) -> Result<Base, Unmade> {
    Ok(Base {
        minutes: minutes.parse::<u32>()?,
        cycles: cycles.parse::<u32>()?,
        day: day.parse::<u32>()?,
    })
}

// Adds a use to the lives of items, and to what they had reached at releases from a moment on.
fn credit<S: Alter>(
    alloc: Global,
    conn: &mut Connection<S>,
    added: Use,
    landed: Moment,
    words: &[&str],
) -> AnswerText
    requires { conn.old.in_transaction ≡ false }
{
    let items = items_of(alloc, words)?;
    let mut tx = conn.transaction();
    let done = credit_late(alloc, &mut tx, &items, added, landed);
    committed(alloc, tx, done)
}

// Writes due and base of the accomplishments of a task anew.
fn rebased<S: Alter>(
    alloc: Global,
    conn: &mut Connection<S>,
    item: u32,
    task: &TaskId,
) -> AnswerText
    requires { conn.old.in_transaction ≡ false }
{
    let mut tx = conn.transaction();
    let done = rebase(alloc, &mut tx, item, task);
    committed(alloc, tx, done)
}

/// What the rows of layout 3 answer to a line that changes them.
pub(crate) fn answer_of_late_rows<S: Alter>(
    alloc: Global,
    conn: &mut Connection<S>,
    words: &[&str],
) -> AnswerText
    requires { conn.old.in_transaction ≡ false }
{
    match words {
        ["rewrite", "deferrals"] => rewrite_deferrals(alloc, conn),
        ["rewrite", "accomplishments"] => rewrite_accomplishments(alloc, conn),
        [
            "done",
            item,
            task,
            seq,
            line,
            minutes,
            cycles,
            day,
            more @ ..,
        ] => {
            let [base_minutes, base_cycles, base_day] = more else {
                return Err(Unmade::NoSuchLine);
            };
            let row = DoneRow {
                item: item.parse::<u32>()?,
                task: TaskId::read(task)?,
                seq: seq.parse::<u32>()?,
                line: line.parse::<u32>()?,
                value: base_of(minutes, cycles, day)?,
                due: NEVER,
                base: base_of(base_minutes, base_cycles, base_day)?,
            };
            done(alloc, conn, row)
        }
        ["shift", aircraft, cycles, landed] => {
            let aircraft = aircraft.parse::<u32>()?;
            let cycles = cycles.parse::<u32>()?;
            let landed = Moment::read(landed)?;
            shift(alloc, conn, aircraft, cycles, landed)
        }
        ["credit", minutes, cycles, landed, items @ ..] => {
            let added = use_of(minutes, cycles)?;
            credit(alloc, conn, added, Moment::read(landed)?, items)
        }
        ["rebase", item, task] => {
            let task = TaskId::read(task)?;
            rebased(alloc, conn, item.parse::<u32>()?, &task)
        }
        _ => Err(Unmade::NoSuchLine),
    }
}
