//! The accomplishments of a book as rows, and the last base of each task, by moments. What the entries accomplish is walked once, in
//! their order: the value of each is what its item had reached at its moment, its due is counted from the base of the one before it, by
//! the task that was in force then, and a map has the last base of each task so far.
ghost use Rattle.std.specs.Prelude.{◌≡◌, ◌+◌, ◌/◌, [], ◌∷◌, ◌++◌, true, ℕ, List, None, Some, IfOk, IfSome, IsPermutation, OnOk};
ghost use Rattle.std.specs.BTreeMap.{get};
ghost use Rattle.std.specs.List.{AllByRecursion};
ghost use Rattle.std.specs.Option.{option_and_then};
ghost use Rattle.mx_book.specs.commands.Programme.{task_shape};
ghost use Rattle.mx_book.specs.declared.commands.item.Item.{Item};
ghost use Rattle.mx_book.specs.due.Due.{IsBase, due_after};
ghost use Rattle.mx_book.specs.Base.{base, base_at};
ghost use Rattle.mx_registers.specs.Names.{item_at};
ghost use Rattle.mx_registers.specs.Registers.{no_limit, sector_rows};
ghost use Rattle.mx_registers.specs.kept.Spans.{span_rows};
ghost use Rattle.mx_registers.specs.late.Done.{done_rows, limit_or_none};
ghost use Rattle.mx_indexed_book.specs.moments.Done.{AreDone, IsSayable, accomplished, said_row, task_cmp};
ghost use Rattle.mx_indexed_book.specs.moments.Flown.{ArePermuted};

use crate::indexed_book::IndexedBook;
use crate::moments::flown::Moments;
use crate::moments::lives::life_at;
use mx_base::rows::DoneRow;
use mx_base::{Base, Day, Limit, Moment, TaskId, Use, day_of};
use mx_book::commands::{Item, Task};
use mx_book::due::{base_done, due_after};
use mx_book::entry_list::NoMemory;
use mx_book::found::birth_of;
use mx_registers::plain::item_of_entry;
use std::alloc::Global;
use std::collections::BTreeMap;

/// What an entry says of an accomplishment.
#[derive(Clone, Copy, Debug)]
pub enum Said {
    /// An opening states it, with this base.
    ByOpening(Base),
    /// A release certifies it at this moment, by this task of the programme in force then, if that has it.
    ByRelease(Moment, Option<Task>),
}

/// An accomplishment of a task: the number of the item, the task, the number of the entry and the line there, from 1, or 0 where the
/// entry is an opening.
#[derive(Clone, Copy, Debug)]
pub struct Accomplished {
    pub item: u32,
    pub task: TaskId,
    pub seq: u32,
    pub line: u32,
    pub said: Said,
}

/// The accomplishments of a book as rows, in the order of the entries and then of their lines, and the last base of each task.
#[derive(Drop)]
pub struct Done {
    pub rows: Vec<DoneRow>,
    pub bases: BTreeMap<(u32, TaskId), Base>,
}

// The limit, or none in any dimension.
fn limit_or_none(limit: Option<Limit>) -> Limit
    ensures { result ≡ limit_or_none limit }
{
    match limit {
        Some(limit) => limit,
        None => Limit {
            minutes: None,
            cycles: None,
            days: None,
        },
    }
}

// When a task was due behind an accomplishment with this base, if any, where it was in force.
fn due_by(before: Option<Base>, birth: Day, task: Option<Task>) -> Option<Limit>
    requires base { IfSome before IsBase }
    requires shape { IfSome task (λ t. task_shape t ≡ true) }
    ensures { result ≡ option_and_then (due_after before birth) task }
{
    match task {
        Some(task) => due_after(before, birth, &task),
        None => None,
    }
}

// A life and a day as a base.
fn base_at(life: &Use, day: Day) -> Base
    ensures { result ≡ base_at life.now day }
{
    Base {
        minutes: life.minutes,
        cycles: life.cycles,
        day: day.number(),
    }
}

// The row of an accomplishment, behind one with this base, if any.
fn done_row(
    book: &IndexedBook,
    moments: &Moments,
    item: &Item,
    before: Option<Base>,
    a: &Accomplished,
) -> DoneRow
    requires moments { ArePermuted (sector_rows book.now) (span_rows book.now) moments.now }
    requires item { item_at book.now a.now.item ≡ Some item.now }
    requires before { IfSome before IsBase }
    requires said { IsSayable a.now.said }
    ensures row { result ≡ said_row book.now item.now before a.now }
    ensures bounded { IsBase result.base }
{
    let (value, due, base) = match a.said {
        Said::ByOpening(base) => (base, None, base),
        Said::ByRelease(moment, task) => {
            let life = life_at(book, moments, a.item, item, moment);
            let due = due_by(before, birth_of(&book.found_of(item)), task);
            let day = day_of(moment);
            (base_at(&life, day), due, base_done(&life, day, due))
        }
    };
    DoneRow {
        item: a.item,
        task: a.task,
        seq: a.seq,
        line: a.line,
        value,
        due: limit_or_none(due),
        base,
    }
}

// Adds the row of an accomplishment to those so far, behind the last base of its task, and makes its base the last.
fn add_done(
    book: &IndexedBook,
    moments: &Moments,
    rows: &mut Vec<DoneRow>,
    bases: &mut BTreeMap<(u32, TaskId), Base>,
    a: &Accomplished,
) -> Result<(), NoMemory>
    requires moments { ArePermuted (sector_rows book.now) (span_rows book.now) moments.now }
    requires said { IsSayable a.now.said }
    requires bounded { (number : ℕ) (id : List ℕ) → IfSome (get task_cmp bases.old (number, id)) IsBase }
    ensures { (said : List Accomplished) → AreDone book.now said rows.old.items bases.old
        → OnOk result (AreDone book.now (said ++ a.now ∷ []) rows.new.items bases.new) }
{
    let Some(item) = item_of_entry(book.plain(), a.item) else {
        return Ok(());
    };
    let before = bases.get(&(a.item, a.task)).copied();
    let row = done_row(book, moments, &item, before, a);
    match bases.insert((a.item, a.task), row.base) {
        Ok(_) => {}
        Err(_) => return Err(NoMemory),
    }
    match rows.push(row) {
        Ok(()) => Ok(()),
        Err(_) => Err(NoMemory),
    }
}

// The rows of what is said, and the last bases.
fn all_done(
    alloc: Global,
    book: &IndexedBook,
    moments: &Moments,
    said: &[Accomplished],
) -> Result<Done, NoMemory>
    requires moments { ArePermuted (sector_rows book.now) (span_rows book.now) moments.now }
    requires said { AllByRecursion (λ (a : Accomplished). IsSayable a.said) said.now }
    ensures { IfOk result (λ done. AreDone book.now said.now done.rows.items done.bases) }
{
    let mut rows = Vec::new(alloc);
    let mut bases = BTreeMap::new(alloc);
    let mut rest = said;
    while let Some((a, later)) = rest.split_first() {
        add_done(book, moments, &mut rows, &mut bases, a)?;
        rest = later;
    }
    Ok(Done { rows, bases })
}

/// The accomplishments of a book as rows, and the last base of each task, of what its entries accomplish and the sectors and spans of
/// its registers. `NoMemory` where memory runs out.
pub fn done_rows(
    alloc: Global,
    book: &IndexedBook,
    moments: &Moments,
    said: &[Accomplished],
) -> Result<Done, NoMemory>
    requires moments { ArePermuted (sector_rows book.now) (span_rows book.now) moments.now }
    requires said { AllByRecursion (λ (a : Accomplished). IsSayable a.said) said.now }
    ensures rows { said.now ≡ accomplished book.now
        → IfOk result (λ done. IsPermutation done.rows.items (done_rows book.now)) }
    ensures bases { (number : ℕ) (item : Item) (id : List ℕ) → said.now ≡ accomplished book.now
        → item_at book.now number ≡ Some item
        → IfOk result (λ done. get task_cmp done.bases (number, id) ≡ base book.now item id) }
    ensures bounded { IfOk result (λ done. (number : ℕ) (id : List ℕ)
        → IfSome (get task_cmp done.bases (number, id)) IsBase) }
{
    let _ = book.plain().len();
    all_done(alloc, book, moments, said)
}
