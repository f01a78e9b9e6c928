//! Lines over the tables of layout 3, of any database that has them, each in a transaction of its own:
//! - `deferrals`, `accomplishments`: the rows of `defect3`, and of `done3`, as their types say them;
//! - `deferral SEQ`, `found AIRCRAFT`, `every`: the deferral of an entry, those of an aircraft, and all, as they are looked up;
//! - `of ITEM`, `of ITEM TASK`, `last ITEM TASK`: the accomplishments of an item, those of a task, and the last of these;
//! - `sectors AIRCRAFT`, `releases ITEM`: the numbers of the sectors of an aircraft, and of the releases of an item; behind them
//!   `FROM BEFORE`: of those alone that took off, or were made, from a moment on and before another;
//! - `during AIRCRAFT OFF ON`: the components that were fitted to an aircraft throughout a flight;
//! - and those of `late`, which change rows.
ghost use Rattle.std.specs.Prelude.{◌≡◌, false};

use crate::faults::fault_text;
use crate::late::answer_of_late_rows;
use mx_base::rows::{Deferral3Row, DoneRow, ReleaseRow, Sector2Row};
use mx_base::{Base, Category, Limit, Moment, TaskId};
use mx_layout::TableFault;
use mx_table_rows::chosen::later::{
    all_defects3, defect3_by_aircraft, defect3_by_seq, done3_by_item, done3_by_item_and_task,
};
use mx_table_rows::chosen::sectors::{sector2_between, sector2_by_aircraft};
use mx_table_rows::chosen::works::{crs_between, crs_by_item};
use mx_table_rows::totals::done::last_done;
use mx_table_rows::totals::spans::fitted_during;
use mx_tables::rows;
use mx_test_cases::{AnswerText, append_joined, append_number, or_none};
use sqlite::{Alter, Connection};
use std::alloc::{AllocError, Global};

/// Appends a category as a word, that of A with its days behind it.
pub fn append_category(out: &mut String, category: Category) -> Result<(), AllocError> {
    match category {
        Category::A(days) => write!(out, "A {days}"),
        Category::B => out.push_str("B"),
        Category::C => out.push_str("C"),
        Category::D => out.push_str("D"),
    }
}

// Appends `SEQ AIRCRAFT MOMENT REFERENCE CATEGORY found=CYCLES`.
fn append_deferral(out: &mut String, row: &Deferral3Row) -> Result<(), AllocError> {
    append_joined(out, row.deferral.reference.as_str())?;
    let seq = row.deferral.seq;
    let aircraft = row.deferral.aircraft;
    let moment = row.deferral.moment.text();
    let moment = moment.as_str();
    write!(out, " {seq} {aircraft} {moment} ")?;
    append_category(out, row.deferral.category)?;
    let found = row.found_cycles;
    write!(out, " found={found}")
}

fn append_base(out: &mut String, name: &str, base: &Base) -> Result<(), AllocError> {
    let minutes = base.minutes;
    let cycles = base.cycles;
    let day = base.day;
    write!(out, " {name}={minutes}/{cycles}/{day}")
}

fn append_amount(out: &mut String, amount: Option<u32>) -> Result<(), AllocError> {
    match amount {
        Some(number) => write!(out, "{number}"),
        None => out.push_str("-"),
    }
}

fn append_due(out: &mut String, due: &Limit) -> Result<(), AllocError> {
    out.push_str(" due=")?;
    append_amount(out, due.minutes)?;
    out.push_str("/")?;
    append_amount(out, due.cycles)?;
    out.push_str("/")?;
    append_amount(out, due.days)
}

// Appends `TASK ITEM SEQ LINE value=BASE due=LIMIT base=BASE`.
fn append_accomplishment(out: &mut String, row: &DoneRow) -> Result<(), AllocError> {
    append_joined(out, row.task.as_str())?;
    let item = row.item;
    let seq = row.seq;
    let line = row.line;
    write!(out, " {item} {seq} {line}")?;
    append_base(out, "value", &row.value)?;
    append_due(out, &row.due)?;
    append_base(out, "base", &row.base)
}

// Appends a number, behind ` / ` where there is one before it.
fn append_next(out: &mut String, number: u32) -> Result<(), AllocError> {
    append_joined(out, "")?;
    append_number(out, number)
}

fn numbers_text(alloc: Global, numbers: &[u32]) -> Result<String, AllocError> {
    let mut text = String::new(alloc);
    for number in numbers {
        append_next(&mut text, *number)?;
    }
    or_none(text)
}

fn deferrals_text(alloc: Global, found: &[Deferral3Row]) -> Result<String, AllocError> {
    let mut text = String::new(alloc);
    for row in found {
        append_deferral(&mut text, row)?;
    }
    or_none(text)
}

fn accomplishments_text(alloc: Global, found: &[DoneRow]) -> Result<String, AllocError> {
    let mut text = String::new(alloc);
    for row in found {
        append_accomplishment(&mut text, row)?;
    }
    or_none(text)
}

fn deferrals<S: Alter>(alloc: Global, conn: &mut Connection<S>) -> AnswerText
    requires { conn.old.in_transaction ≡ false }
{
    let mut tx = conn.transaction();
    let found = rows(alloc, &mut tx);
    deferrals_found(alloc, found)
}

fn accomplishments<S: Alter>(alloc: Global, conn: &mut Connection<S>) -> AnswerText
    requires { conn.old.in_transaction ≡ false }
{
    let mut tx = conn.transaction();
    let found = rows(alloc, &mut tx);
    accomplishments_found(alloc, found)
}

// Deferrals that were looked up.
fn deferrals_found(alloc: Global, found: Result<Vec<Deferral3Row>, TableFault>) -> AnswerText {
    match found {
        Ok(found) => Ok(deferrals_text(alloc, &found)?),
        Err(fault) => fault_text(alloc, fault),
    }
}

/// Accomplishments that were looked up, as `TASK ITEM SEQ LINE value=BASE due=LIMIT base=BASE` each, or the fault that was met.
pub fn accomplishments_found(alloc: Global, found: Result<Vec<DoneRow>, TableFault>) -> AnswerText {
    match found {
        Ok(found) => Ok(accomplishments_text(alloc, &found)?),
        Err(fault) => fault_text(alloc, fault),
    }
}

// The deferral of an entry.
fn deferral<S: Alter>(alloc: Global, conn: &mut Connection<S>, seq: u32) -> AnswerText
    requires { conn.old.in_transaction ≡ false }
{
    let mut tx = conn.transaction();
    let found = defect3_by_seq(alloc, &mut tx, seq);
    deferrals_found(alloc, found)
}

// The deferrals of an aircraft.
fn found_on<S: Alter>(alloc: Global, conn: &mut Connection<S>, aircraft: u32) -> AnswerText
    requires { conn.old.in_transaction ≡ false }
{
    let mut tx = conn.transaction();
    let found = defect3_by_aircraft(alloc, &mut tx, aircraft);
    deferrals_found(alloc, found)
}

// All deferrals.
fn every_deferral<S: Alter>(alloc: Global, conn: &mut Connection<S>) -> AnswerText
    requires { conn.old.in_transaction ≡ false }
{
    let mut tx = conn.transaction();
    let found = all_defects3(alloc, &mut tx);
    deferrals_found(alloc, found)
}

// The accomplishments of an item.
fn of_item<S: Alter>(alloc: Global, conn: &mut Connection<S>, item: u32) -> AnswerText
    requires { conn.old.in_transaction ≡ false }
{
    let mut tx = conn.transaction();
    let found = done3_by_item(alloc, &mut tx, item);
    accomplishments_found(alloc, found)
}

// The accomplishments of a task of an item.
fn of_task<S: Alter>(
    alloc: Global,
    conn: &mut Connection<S>,
    item: u32,
    task: &TaskId,
) -> AnswerText
    requires { conn.old.in_transaction ≡ false }
{
    let mut tx = conn.transaction();
    let found = done3_by_item_and_task(alloc, &mut tx, item, task);
    accomplishments_found(alloc, found)
}

// The last accomplishment of a task of an item.
fn last_of_task<S: Alter>(
    alloc: Global,
    conn: &mut Connection<S>,
    item: u32,
    task: &TaskId,
) -> AnswerText
    requires { conn.old.in_transaction ≡ false }
{
    let mut tx = conn.transaction();
    match last_done(alloc, &mut tx, item, task) {
        Ok(Some(row)) => Ok(accomplishments_text(alloc, &[row])?),
        Ok(None) => Ok(or_none(String::new(alloc))?),
        Err(fault) => fault_text(alloc, fault),
    }
}

// Numbers that were looked up.
fn numbers_found(alloc: Global, found: Result<Vec<u32>, TableFault>) -> AnswerText {
    match found {
        Ok(found) => Ok(numbers_text(alloc, &found)?),
        Err(fault) => fault_text(alloc, fault),
    }
}

// The numbers of sectors that were looked up.
fn sectors_found(alloc: Global, found: Result<Vec<Sector2Row>, TableFault>) -> AnswerText {
    match found {
        Ok(found) => {
            let mut text = String::new(alloc);
            for row in &found {
                append_next(&mut text, row.sector.seq)?;
            }
            Ok(or_none(text)?)
        }
        Err(fault) => fault_text(alloc, fault),
    }
}

// The numbers of releases that were looked up.
fn releases_found(alloc: Global, found: Result<Vec<ReleaseRow>, TableFault>) -> AnswerText {
    match found {
        Ok(found) => {
            let mut text = String::new(alloc);
            for row in &found {
                append_next(&mut text, row.seq)?;
            }
            Ok(or_none(text)?)
        }
        Err(fault) => fault_text(alloc, fault),
    }
}

// The sectors of an aircraft.
fn sectors_of<S: Alter>(alloc: Global, conn: &mut Connection<S>, aircraft: u32) -> AnswerText
    requires { conn.old.in_transaction ≡ false }
{
    let mut tx = conn.transaction();
    let found = sector2_by_aircraft(alloc, &mut tx, aircraft);
    sectors_found(alloc, found)
}

// The sectors of an aircraft that took off from a moment on and before another.
fn sectors_near<S: Alter>(
    alloc: Global,
    conn: &mut Connection<S>,
    aircraft: u32,
    from: Moment,
    before: Moment,
) -> AnswerText
    requires { conn.old.in_transaction ≡ false }
{
    let mut tx = conn.transaction();
    let found = sector2_between(alloc, &mut tx, aircraft, from, before);
    sectors_found(alloc, found)
}

// The releases of an item.
fn releases_of<S: Alter>(alloc: Global, conn: &mut Connection<S>, item: u32) -> AnswerText
    requires { conn.old.in_transaction ≡ false }
{
    let mut tx = conn.transaction();
    let found = crs_by_item(alloc, &mut tx, item);
    releases_found(alloc, found)
}

// The releases of an item from a moment on and before another.
fn releases_near<S: Alter>(
    alloc: Global,
    conn: &mut Connection<S>,
    item: u32,
    from: Moment,
    before: Moment,
) -> AnswerText
    requires { conn.old.in_transaction ≡ false }
{
    let mut tx = conn.transaction();
    let found = crs_between(alloc, &mut tx, item, from, before);
    releases_found(alloc, found)
}

// The components that a flight of an aircraft credits.
fn components_during<S: Alter>(
    alloc: Global,
    conn: &mut Connection<S>,
    aircraft: u32,
    off: Moment,
    on: Moment,
) -> AnswerText
    requires { conn.old.in_transaction ≡ false }
{
    let mut tx = conn.transaction();
    let found = fitted_during(alloc, &mut tx, aircraft, off, on);
    numbers_found(alloc, found)
}

/// What the rows of layout 3 answer to a line behind `later`.
pub fn answer_of_later_rows<S: Alter>(
    alloc: Global,
    conn: &mut Connection<S>,
    words: &[&str],
) -> AnswerText
    requires { conn.old.in_transaction ≡ false }
{
    match words {
        ["deferrals"] => deferrals(alloc, conn),
        ["accomplishments"] => accomplishments(alloc, conn),
        ["deferral", seq] => deferral(alloc, conn, seq.parse::<u32>()?),
        ["found", aircraft] => found_on(alloc, conn, aircraft.parse::<u32>()?),
        ["every"] => every_deferral(alloc, conn),
        ["of", item] => of_item(alloc, conn, item.parse::<u32>()?),
        ["of", item, task] => {
            let task = TaskId::read(task)?;
            of_task(alloc, conn, item.parse::<u32>()?, &task)
        }
        ["last", item, task] => {
            let task = TaskId::read(task)?;
            last_of_task(alloc, conn, item.parse::<u32>()?, &task)
        }
        ["sectors", aircraft] => sectors_of(alloc, conn, aircraft.parse::<u32>()?),
        ["releases", item] => releases_of(alloc, conn, item.parse::<u32>()?),
        ["sectors", aircraft, from, before] => {
            let aircraft = aircraft.parse::<u32>()?;
            let from = Moment::read(from)?;
            sectors_near(alloc, conn, aircraft, from, Moment::read(before)?)
        }
        ["releases", item, from, before] => {
            let item = item.parse::<u32>()?;
            let from = Moment::read(from)?;
            releases_near(alloc, conn, item, from, Moment::read(before)?)
        }
        ["during", aircraft, off, on] => {
            let aircraft = aircraft.parse::<u32>()?;
            let off = Moment::read(off)?;
            components_during(alloc, conn, aircraft, off, Moment::read(on)?)
        }
        _ => answer_of_late_rows(alloc, conn, words),
    }
}
