//! What the steps of a move to layout 2 answer to a line over a database, each in a commit of its own: the point that the file is
//! at then, or what stopped the step. And what making the file of layout 1 answers that a move begins with.
//! - `advance`: the step that is due at the point of the file;
//! - `settle AT_MOST`: so many steps that are due, one after the other;
//! - `sectors-table`: makes the new table of sectors;
//! - `sectors MARK`: moves the next sectors behind the mark;
//! - `spans-table MARK`: drops the old table of sectors, which have moved up to the mark, and makes that of spans;
//! - `component MARK COMPONENT`: moves the fittings and removals of a component, the next behind the mark;
//! - `totals-table MARK`: drops the old tables of fittings and removals, which have moved up to the mark, and makes that of totals;
//! - `total MARK ITEM MINUTES CYCLES MOMENT`: writes the total of an item, the next behind the mark;
//! - `bases-table MARK`: makes the table of last bases, where totals were written up to the mark;
//! - `bases MARK ITEM`, and behind it `TASK MINUTES CYCLES DAY` for each base: writes the last bases of an item, the next behind the
//!   mark;
//! - `finish MARK`: makes the last indexes, where last bases were written up to the mark;
//! - one of those to layout 3, which `later` lists.
ghost use Rattle.std.specs.Prelude.{◌≡◌, false};

mod given;
pub mod installing;
mod later;

use crate::moves::later::answer_of_later_step;
pub use installing::answer_of_install;
use mx_base::rows::{BaseRow, TotalRow};
use mx_base::{Day, Moment, Point, TaskId};
use mx_faults::MoveFault;
use mx_migrate::settle::{advance, settle};
use mx_migrate::{
    ChangeToSpans, ChangeToTotals, CreateBases, CreateSectors, Finish, Migrate, MoveComponent,
    MoveSectors, WriteBases, WriteTotal, commit_step,
};
use mx_test_cases::{AnswerText, Unmade, use_of};
use mx_test_tables::faults::{append_damaged, room};
use sqlite::{Alter, Connection};
use std::alloc::{AllocError, Global};

fn append_fault(out: &mut String, fault: MoveFault) -> Result<(), AllocError> {
    match fault {
        MoveFault::Memory => out.push_str("fault memory"),
        MoveFault::Store => out.push_str("fault store"),
        MoveFault::NotOurs => out.push_str("fault not-ours"),
        MoveFault::NewerLayout(layout) => write!(out, "fault newer {layout}"),
        MoveFault::Damaged(table) => append_damaged(out, table),
    }
}

// The point that a file is at, or why it did not get there.
fn step_text(alloc: Global, made: Result<Point, MoveFault>) -> Result<String, AllocError> {
    let mut text = room(alloc)?;
    match made {
        Ok(at) => {
            let layout = at.layout;
            let step = at.step;
            let mark = at.mark;
            write!(text, "{layout} {step} {mark}")?;
        }
        Err(fault) => append_fault(&mut text, fault)?,
    }
    Ok(text)
}

/// Makes a step: the point that it leads to, or why it was not made.
pub(crate) fn made<S: Alter, M: Migrate>(
    alloc: Global,
    conn: &mut Connection<S>,
    step: &M,
) -> Result<String, AllocError>
    requires { conn.old.in_transaction ≡ false }
{
    let made = commit_step(alloc, conn, step);
    step_text(alloc, made)
}

// The total that four words say.
fn total_of(words: &[&str]) -> Result<TotalRow, Unmade> {
    match words {
        [item, minutes, cycles, moment] => {
            let item = item.parse::<u32>()?;
            let life = use_of(minutes, cycles)?;
            let clock = Moment::read(moment)?;
            Ok(TotalRow { item, life, clock })
        }
        _ => Err(Unmade::NoSuchLine),
    }
}

// The base that four words say.
fn base_of(item: u32, words: &[&str]) -> Result<BaseRow, Unmade> {
    match words {
        [task, minutes, cycles, day] => {
            let task = TaskId::read(task)?;
            let life = use_of(minutes, cycles)?;
            let day = Day::read(day)?;
            Ok(BaseRow {
                item,
                task,
                life,
                day,
            })
        }
        _ => Err(Unmade::NoSuchLine),
    }
}

// The bases that words say, four each.
fn bases_of(alloc: Global, item: u32, words: &[&str]) -> Result<Vec<BaseRow>, Unmade> {
    let mut rows = Vec::new(alloc);
    for base in words.chunks(4) {
        rows.push(base_of(item, base)?)?;
    }
    Ok(rows)
}

// Writes the total that four words say, the next behind a mark.
fn write_total<S: Alter>(
    alloc: Global,
    conn: &mut Connection<S>,
    mark: &str,
    words: &[&str],
) -> AnswerText
    requires { conn.old.in_transaction ≡ false }
{
    let mark = mark.parse::<u32>()?;
    let row = total_of(words)?;
    Ok(made(alloc, conn, &WriteTotal { mark, row })?)
}

// Writes the last bases of an item, the next behind a mark.
fn write_bases<S: Alter>(
    alloc: Global,
    conn: &mut Connection<S>,
    mark: &str,
    item: &str,
    bases: &[&str],
) -> AnswerText
    requires { conn.old.in_transaction ≡ false }
{
    let mark = mark.parse::<u32>()?;
    let item = item.parse::<u32>()?;
    let rows = bases_of(alloc, item, bases)?;
    Ok(made(alloc, conn, &WriteBases { mark, item, rows })?)
}

// What a step of totals or last bases answers, the one that ends the move, or one of the move to layout 3.
fn answer_of_kept<S: Alter>(alloc: Global, conn: &mut Connection<S>, words: &[&str]) -> AnswerText
    requires { conn.old.in_transaction ≡ false }
{
    match words {
        ["totals-table", mark] => {
            let mark = mark.parse::<u32>()?;
            Ok(made(alloc, conn, &ChangeToTotals { mark })?)
        }
        ["total", mark, total @ ..] => write_total(alloc, conn, mark, total),
        ["bases-table", mark] => {
            let mark = mark.parse::<u32>()?;
            Ok(made(alloc, conn, &CreateBases { mark })?)
        }
        ["bases", mark, item, bases @ ..] => write_bases(alloc, conn, mark, item, bases),
        ["finish", mark] => {
            let mark = mark.parse::<u32>()?;
            Ok(made(alloc, conn, &Finish { mark })?)
        }
        later => answer_of_later_step(alloc, conn, later),
    }
}

// Moves the fittings and removals of a component, the next behind a mark.
fn move_component<S: Alter>(
    alloc: Global,
    conn: &mut Connection<S>,
    mark: &str,
    component: &str,
) -> AnswerText
    requires { conn.old.in_transaction ≡ false }
{
    let mark = mark.parse::<u32>()?;
    let component = component.parse::<u32>()?;
    Ok(made(alloc, conn, &MoveComponent { mark, component })?)
}

// Goes on by at most so many commits.
fn settled<S: Alter>(alloc: Global, conn: &mut Connection<S>, at_most: &str) -> AnswerText
    requires { conn.old.in_transaction ≡ false }
{
    let at_most = at_most.parse::<u32>()?;
    let reached = settle(alloc, conn, at_most);
    Ok(step_text(alloc, reached)?)
}

/// What a step answers: `advance`, `settle AT_MOST`, `sectors-table`, `sectors MARK`, `spans-table MARK`,
/// `component MARK COMPONENT`, one of totals, last bases or the end, or one to layout 3.
pub fn answer_of_step<S: Alter>(
    alloc: Global,
    conn: &mut Connection<S>,
    words: &[&str],
) -> AnswerText
    requires { conn.old.in_transaction ≡ false }
{
    match words {
        ["advance"] => {
            let reached = advance(alloc, conn);
            Ok(step_text(alloc, reached)?)
        }
        ["settle", at_most] => settled(alloc, conn, at_most),
        ["sectors-table"] => Ok(made(alloc, conn, &CreateSectors)?),
        ["sectors", mark] => {
            let mark = mark.parse::<u32>()?;
            Ok(made(alloc, conn, &MoveSectors { mark })?)
        }
        ["spans-table", mark] => {
            let mark = mark.parse::<u32>()?;
            Ok(made(alloc, conn, &ChangeToSpans { mark })?)
        }
        ["component", mark, component] => move_component(alloc, conn, mark, component),
        _ => answer_of_kept(alloc, conn, words),
    }
}
