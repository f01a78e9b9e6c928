//! What is looked up in tables of layout 3, of any database that has them, each line in a transaction of its own that is dropped
//! behind it. An item is `airframe TAIL` or `component SERIAL`, and what is not there is `none`.
//! - `defect DOC`: the defect that a document deferred; `open TAIL` and `open`: the open defects of an aircraft, and of all. A defect
//!   is `DOC TAIL MOMENT REFERENCE CATEGORY`;
//! - `done ITEM TASK`: the accomplishments of a task of an item, as `later` says them; `base ITEM TASK`: the base that the last of them
//!   leaves, `MINUTES CYCLES DAY` with the day by its number;
//! - `number ITEM`, `deferral DOC`, `tail NUMBER`: the number of the entry that added an item, and of the one that deferred a defect;
//!   the registration of the aircraft that an entry added;
//! - `takeoff TAIL`: the moment up to which the opening of an aircraft counts, before which none of its sectors takes off;
//! - `overlapped TAIL OFF ON`, `straddled TAIL OFF ON`: the number of the first entry that a sector would overlap, and straddle.
ghost use Rattle.std.specs.Prelude.{◌≡◌, false};

use mx_base::{Base, Doc, Moment, Tail, TaskId};
use mx_book::Defect;
use mx_book::commands::{Item, Sector};
use mx_layout::TableFault;
use mx_lookups::crossings::{as_of, first_overlapped, first_straddled};
use mx_lookups::later_defects::{all_open_defects, defect, open_defects};
use mx_lookups::lives::done::{accomplishments, last_base};
use mx_lookups::numbers::entries::defect_number;
use mx_lookups::numbers::items::{item_number, tail_of_number};
use mx_test_cases::{
    AnswerText, Unmade, append_joined, append_word, item_of, number_text, or_none,
};
use mx_test_tables::faults::fault_text;
use mx_test_tables::later::{accomplishments_found, append_category};
use sqlite::{Alter, Connection};
use std::alloc::{AllocError, Global};

// Appends `DOC TAIL MOMENT REFERENCE CATEGORY`.
fn append_defect(out: &mut String, defect: &Defect) -> Result<(), AllocError> {
    append_joined(out, defect.doc.as_str())?;
    append_word(out, defect.deferral.tail.as_str())?;
    append_word(out, defect.deferral.moment.text().as_str())?;
    append_word(out, defect.deferral.reference.as_str())?;
    append_word(out, "")?;
    append_category(out, defect.deferral.category)
}

fn defects_text(alloc: Global, found: &[Defect]) -> Result<String, AllocError> {
    let mut text = String::new(alloc);
    for defect in found {
        append_defect(&mut text, defect)?;
    }
    or_none(text)
}

// What is not there.
fn nothing(alloc: Global) -> AnswerText {
    Ok(or_none(String::new(alloc))?)
}

// Defects that were looked up.
fn defects_found(alloc: Global, found: Result<Vec<Defect>, TableFault>) -> AnswerText {
    match found {
        Ok(found) => Ok(defects_text(alloc, &found)?),
        Err(fault) => fault_text(alloc, fault),
    }
}

// A number that was looked up.
fn number_found(alloc: Global, found: Result<Option<u32>, TableFault>) -> AnswerText {
    match found {
        Ok(Some(number)) => Ok(number_text(alloc, number)?),
        Ok(None) => nothing(alloc),
        Err(fault) => fault_text(alloc, fault),
    }
}

fn base_text(alloc: Global, base: &Base) -> AnswerText {
    let minutes = base.minutes;
    let cycles = base.cycles;
    let day = base.day;
    Ok(format!(in alloc; "{minutes} {cycles} {day}")?)
}

// The defect that a document deferred.
fn defect_of<S: Alter>(alloc: Global, conn: &mut Connection<S>, doc: &Doc) -> AnswerText
    requires { conn.old.in_transaction ≡ false }
{
    let mut tx = conn.transaction();
    match defect(alloc, &mut tx, doc) {
        Ok(Some(found)) => Ok(defects_text(alloc, &[found])?),
        Ok(None) => nothing(alloc),
        Err(fault) => fault_text(alloc, fault),
    }
}

// The open defects of an aircraft.
fn open_on<S: Alter>(alloc: Global, conn: &mut Connection<S>, tail: &Tail) -> AnswerText
    requires { conn.old.in_transaction ≡ false }
{
    let mut tx = conn.transaction();
    let found = open_defects(alloc, &mut tx, tail);
    defects_found(alloc, found)
}

// The open defects of all aircraft.
fn open_on_all<S: Alter>(alloc: Global, conn: &mut Connection<S>) -> AnswerText
    requires { conn.old.in_transaction ≡ false }
{
    let mut tx = conn.transaction();
    let found = all_open_defects(alloc, &mut tx);
    defects_found(alloc, found)
}

// The accomplishments of a task of an item.
fn done_on<S: Alter>(
    alloc: Global,
    conn: &mut Connection<S>,
    item: &Item,
    task: &TaskId,
) -> AnswerText
    requires { conn.old.in_transaction ≡ false }
{
    let mut tx = conn.transaction();
    let found = accomplishments(alloc, &mut tx, item, task);
    accomplishments_found(alloc, found)
}

// The base that the last accomplishment of a task of an item leaves.
fn base_left<S: Alter>(
    alloc: Global,
    conn: &mut Connection<S>,
    item: &Item,
    task: &TaskId,
) -> AnswerText
    requires { conn.old.in_transaction ≡ false }
{
    let mut tx = conn.transaction();
    match last_base(alloc, &mut tx, item, task) {
        Ok(Some(base)) => base_text(alloc, &base),
        Ok(None) => nothing(alloc),
        Err(fault) => fault_text(alloc, fault),
    }
}

// The number of the entry that added an item.
fn number_of<S: Alter>(alloc: Global, conn: &mut Connection<S>, item: &Item) -> AnswerText
    requires { conn.old.in_transaction ≡ false }
{
    let mut tx = conn.transaction();
    let found = item_number(alloc, &mut tx, item);
    number_found(alloc, found)
}

// The number of the entry that deferred the defect with a document.
fn deferral_of<S: Alter>(alloc: Global, conn: &mut Connection<S>, doc: &Doc) -> AnswerText
    requires { conn.old.in_transaction ≡ false }
{
    let mut tx = conn.transaction();
    let found = defect_number(alloc, &mut tx, doc);
    number_found(alloc, found)
}

// The registration of the aircraft that an entry added.
fn tail_of<S: Alter>(alloc: Global, conn: &mut Connection<S>, number: u32) -> AnswerText
    requires { conn.old.in_transaction ≡ false }
{
    let mut tx = conn.transaction();
    match tail_of_number(alloc, &mut tx, number) {
        Ok(Some(tail)) => Ok(String::from_str(alloc, tail.as_str())?),
        Ok(None) => nothing(alloc),
        Err(fault) => fault_text(alloc, fault),
    }
}

// The moment up to which the opening of an aircraft counts.
fn takeoff_from<S: Alter>(alloc: Global, conn: &mut Connection<S>, tail: &Tail) -> AnswerText
    requires { conn.old.in_transaction ≡ false }
{
    let mut tx = conn.transaction();
    match as_of(alloc, &mut tx, tail) {
        Ok(moment) => Ok(String::from_str(alloc, moment.text().as_str())?),
        Err(fault) => fault_text(alloc, fault),
    }
}

// The first entry that a sector would overlap.
fn overlapped<S: Alter>(alloc: Global, conn: &mut Connection<S>, sector: &Sector) -> AnswerText
    requires { conn.old.in_transaction ≡ false }
{
    let mut tx = conn.transaction();
    let found = first_overlapped(alloc, &mut tx, sector);
    number_found(alloc, found)
}

// The first entry that a sector would straddle.
fn straddled<S: Alter>(alloc: Global, conn: &mut Connection<S>, sector: &Sector) -> AnswerText
    requires { conn.old.in_transaction ≡ false }
{
    let mut tx = conn.transaction();
    let found = first_straddled(alloc, &mut tx, sector);
    number_found(alloc, found)
}

// A sector of an aircraft, wherever it is logged.
fn sector_of(tail: &str, off: &str, on: &str) -> Result<Sector, Unmade> {
    Ok(Sector {
        tail: Tail::read(tail)?,
        page: 1,
        line: 1,
        off: Moment::read(off)?,
        on: Moment::read(on)?,
        cycles: 1,
    })
}

// What is looked up for a sector that is entered late, or an aircraft that flies one.
fn answer_of_sector<S: Alter>(alloc: Global, conn: &mut Connection<S>, words: &[&str]) -> AnswerText
    requires { conn.old.in_transaction ≡ false }
{
    match words {
        ["takeoff", tail] => takeoff_from(alloc, conn, &Tail::read(tail)?),
        ["overlapped", tail, off, on] => overlapped(alloc, conn, &sector_of(tail, off, on)?),
        ["straddled", tail, off, on] => straddled(alloc, conn, &sector_of(tail, off, on)?),
        _ => Err(Unmade::NoSuchLine),
    }
}

/// What is looked up in tables of layout 3 for a line behind `looked`.
pub fn answer_of_lookup<S: Alter>(
    alloc: Global,
    conn: &mut Connection<S>,
    words: &[&str],
) -> AnswerText
    requires { conn.old.in_transaction ≡ false }
{
    match words {
        ["defect", doc] => defect_of(alloc, conn, &Doc::read(doc)?),
        ["open", tail] => open_on(alloc, conn, &Tail::read(tail)?),
        ["open"] => open_on_all(alloc, conn),
        ["done", item, name, task] => {
            let task = TaskId::read(task)?;
            done_on(alloc, conn, &item_of(item, name)?, &task)
        }
        ["base", item, name, task] => {
            let task = TaskId::read(task)?;
            base_left(alloc, conn, &item_of(item, name)?, &task)
        }
        ["number", item, name] => number_of(alloc, conn, &item_of(item, name)?),
        ["deferral", doc] => deferral_of(alloc, conn, &Doc::read(doc)?),
        ["tail", number] => tail_of(alloc, conn, number.parse::<u32>()?),
        _ => answer_of_sector(alloc, conn, words),
    }
}
