//! What an entry accomplishes, behind the entries before it: each with the number of the item, and the task that is in force then. No
//! later entry changes either, whenever its sector was flown.
ghost use Rattle.std.specs.Prelude.{◌≡◌, ◌++◌, ◌^◌, ◌<◌, [], ◌∷◌, length, true, IfSome, OnOk};
ghost use Rattle.std.specs.List.{AllByRecursion};
ghost use Rattle.mx_book.specs.commands.Programme.{task_shape};
ghost use Rattle.mx_book.specs.commands.Shape.{use_shape};
ghost use Rattle.mx_book.specs.due.Due.{IsBase};
ghost use Rattle.mx_book.specs.Programme.{kind_at, task_at};
ghost use Rattle.mx_registers.specs.kept.Bases.{stated_base};
ghost use Rattle.mx_registers.specs.kept.Items.{number_of_item};
ghost use Rattle.mx_indexed_book.specs.declared.moments.done.Accomplished.{Accomplished};
ghost use Rattle.mx_indexed_book.specs.moments.Done.{IsSayable, accomplished_by, certified};

use crate::indexed_book::IndexedBook;
use crate::moments::done::{Accomplished, Said};
use mx_base::{Base, Kind, TaskId};
use mx_book::commands::{Applies, Command, Item, Line, Opening, Place, Release, Task};
use mx_book::entry_list::NoMemory;

// The number of the entry that added an item, or 0.
fn number_of(book: &IndexedBook, item: &Item) -> u32
    ensures { result ≡ number_of_item book.now item.now }
{
    match book.number_of(item) {
        Some(number) => number,
        None => 0,
    }
}

// The base that an opening states.
#[tactic(auto, using(mx_book::proofs::LifeLemmas::opening_bounds))]
fn stated_base(opening: &Opening) -> Base
    requires { use_shape opening.now.use_then ≡ true }
    ensures base { result ≡ stated_base opening.now }
    ensures bounded { IsBase result }
{
    Base {
        minutes: opening.use_then.minutes,
        cycles: opening.use_then.cycles,
        day: opening.day.number(),
    }
}

// The kind of aircraft by whose programme the work at a place is done, where it is known.
fn kind_at(book: &IndexedBook, place: &Place) -> Option<Kind>
    ensures { result ≡ kind_at book.now place.now }
{
    match place {
        Place::Aircraft(tail) => book.aircraft(tail).map(|aircraft| aircraft.kind),
        Place::Shop(_, kind) => Some(*kind),
    }
}

// The task with a name in the programme in force at a place.
fn task_at(book: &IndexedBook, place: &Place, id: &TaskId) -> Option<Task>
    ensures task { result ≡ task_at book.now place.now id.now }
    ensures shape { IfSome result (λ t. task_shape t ≡ true) }
{
    match kind_at(book, place) {
        Some(kind) => match book.task(&kind, id) {
            Some(task) => task,
            None => None,
        },
        None => None,
    }
}

// Puts an accomplishment behind others.
fn put(said: &mut Vec<Accomplished>, a: Accomplished) -> Result<(), NoMemory>
    requires { IsSayable a.said }
    ensures items { OnOk result (said.new.items ≡ said.old.items ++ a ∷ []) }
    ensures sayable { AllByRecursion (λ (a : Accomplished). IsSayable a.said) said.old.items
        → OnOk result (AllByRecursion (λ (a : Accomplished). IsSayable a.said) said.new.items) }
{
    // The checker proves this only where the type of each field is named in the function.
    let _: Option<Said> = None;
    let _: Option<Task> = None;
    let _: Option<Applies> = None;
    match said.push(a) {
        Ok(()) => Ok(()),
        Err(_) => Err(NoMemory),
    }
}

// Adds the task that a line of a release certifies, if it certifies one.
fn add_line(
    book: &IndexedBook,
    release: &Release,
    number: u32,
    line: &Line,
    said: &mut Vec<Accomplished>,
) -> Result<(), NoMemory>
    ensures items { OnOk result (said.new.items
        ≡ said.old.items ++ certified book.now release.now number (line.now ∷ [])) }
    ensures sayable { AllByRecursion (λ (a : Accomplished). IsSayable a.said) said.old.items
        → OnOk result (AllByRecursion (λ (a : Accomplished). IsSayable a.said) said.new.items) }
{
    match line {
        Line::Rectified(_) => Ok(()),
        Line::Done(item, task) => put(
            said,
            Accomplished {
                item: number_of(book, item),
                task: *task,
                seq: book.plain().len() + 1,
                line: number,
                said: Said::ByRelease(release.moment, task_at(book, &release.place, task)),
            },
        ),
    }
}

// Adds the tasks that lines of a release certify.
fn add_certified(
    book: &IndexedBook,
    release: &Release,
    lines: &[Line],
    said: &mut Vec<Accomplished>,
) -> Result<(), NoMemory>
    requires { length lines.now < 2 ^ 31 }
    ensures items { OnOk result
        (said.new.items ≡ said.old.items ++ certified book.now release.now 1 lines.now) }
    ensures sayable { AllByRecursion (λ (a : Accomplished). IsSayable a.said) said.old.items
        → OnOk result (AllByRecursion (λ (a : Accomplished). IsSayable a.said) said.new.items) }
{
    let mut number = 1u32;
    let mut rest = lines;
    while let Some((line, later)) = rest.split_first() {
        add_line(book, release, number, line, said)?;
        number += 1;
        rest = later;
    }
    Ok(())
}

/// Adds what a command accomplishes that stands behind a book.
pub fn add_accomplished(
    book: &IndexedBook,
    command: &Command,
    said: &mut Vec<Accomplished>,
) -> Result<(), NoMemory>
    ensures items { OnOk result
        (said.new.items ≡ said.old.items ++ accomplished_by book.now command.now.act) }
    ensures sayable { AllByRecursion (λ (a : Accomplished). IsSayable a.said) said.old.items
        → OnOk result (AllByRecursion (λ (a : Accomplished). IsSayable a.said) said.new.items) }
{
    // A command has its shape.
    let _ = command.doc();
    if let Some(release) = command.release() {
        return add_certified(book, &release, command.lines(), said);
    }
    match command.stated_opening() {
        None => Ok(()),
        Some(opening) => put(
            said,
            Accomplished {
                item: number_of(book, &opening.item),
                task: opening.task,
                seq: book.plain().len() + 1,
                line: 0,
                said: Said::ByOpening(stated_base(&opening)),
            },
        ),
    }
}
