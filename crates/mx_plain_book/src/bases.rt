//! The base that the next due of a task is counted from.
ghost use Rattle.std.specs.Prelude.{◌≡◌, ◌≤◌, length, true, IfSome};
ghost use Rattle.std.specs.List.{list_all};
ghost use Rattle.std.specs.Option.{option_and_then};
ghost use Rattle.mx_book.specs.commands.Act.{Released};
ghost use Rattle.mx_book.specs.commands.Programme.{task_shape};
ghost use Rattle.mx_book.specs.commands.Shape.{has_shape, use_shape};
ghost use Rattle.mx_book.specs.due.Due.{IsLife, IsBase, due_after};
ghost use Rattle.mx_book.specs.Register.{birth};
ghost use Rattle.mx_book.specs.Life.{life_at, use_or_none};
ghost use Rattle.mx_book.specs.Base.{DoneIn, accomplished_by, task_then, base_of, base_from, base};
ghost use Rattle.mx_book.specs.declared.limits.TheConstants.{MOST_ENTRIES};

use crate::lives::life;
use crate::programmes::{is_done_by, task_of_kind};
use crate::register::found_of;
use mx_base::{Base, Day, Limit, Moment, TaskId, Use, day_of};
use mx_book::commands::{Command, Item, Line, Release, Task};
use mx_book::due::{base_done, due_after};
use mx_book::found::{birth_of, item_of_place, kind_of_place, life_or_none};

// The life of an item up to a moment, or none at all where the item is unknown.
#[tactic(auto, using(mx_book::proofs::LifeLemmas::life_bounded))]
fn life_reached(entries: &[Command], item: &Item, moment: Moment) -> Use
    requires few { length entries.now ≤ MOST_ENTRIES }
    requires shaped { list_all has_shape entries.now ≡ true }
    ensures life { result ≡ use_or_none (life_at entries.now item.now moment) }
    ensures bounded { IsLife result }
{
    life_or_none(life(entries, item, Some(moment.number())))
}

// The task with a name that was in force where a release was made, by the first so many entries.
fn task_in_force_then(
    entries: &[Command],
    number: usize,
    release: &Release,
    id: &TaskId,
) -> Option<Task>
    requires { number ≤ length entries.now }
    ensures task { result ≡ task_then entries.now number release.now id.now }
    ensures shape { IfSome result (λ t. task_shape t ≡ true) }
{
    let found = found_of(entries, &item_of_place(&release.place));
    match kind_of_place(&release.place, &found) {
        Some(kind) => task_of_kind(&entries[..number], &kind, id),
        None => None,
    }
}

// When a task is due on an item behind an accomplishment with a base, or for the first time where there is none.
fn due_then(
    entries: &[Command],
    item: &Item,
    before: Option<Base>,
    task: Option<Task>,
) -> Option<Limit>
    requires before { IfSome before IsBase }
    requires shape { IfSome task (λ t. task_shape t ≡ true) }
    ensures { result ≡ option_and_then (due_after before (birth entries.now item.now)) task }
{
    match task {
        Some(task) => due_after(before, birth_of(&found_of(entries, item)), &task),
        None => None,
    }
}

// The base of work that was done in a release, which is the entry with a number.
fn base_of_work(
    entries: &[Command],
    item: &Item,
    id: &TaskId,
    before: Option<Base>,
    number: usize,
    release: &Release,
) -> Base
    requires few { length entries.now ≤ MOST_ENTRIES }
    requires shaped { list_all has_shape entries.now ≡ true }
    requires number { number ≤ length entries.now }
    requires before { IfSome before IsBase }
    ensures base { result ≡ base_of entries.now item.now id.now before (DoneIn number release.now) }
    ensures bounded { IsBase result }
{
    let life = life_reached(entries, item, release.moment);
    let task = task_in_force_then(entries, number, release, id);
    let due = due_then(entries, item, before, task);
    base_done(&life, day_of(release.moment), due)
}

// The base behind the lines of a release, which is the entry with a number.
fn base_after_lines(
    entries: &[Command],
    item: &Item,
    id: &TaskId,
    before: Option<Base>,
    number: usize,
    release: &Release,
    lines: &[Line],
) -> Option<Base>
    requires few { length entries.now ≤ MOST_ENTRIES }
    requires shaped { list_all has_shape entries.now ≡ true }
    requires number { number ≤ length entries.now }
    requires before { IfSome before IsBase }
    ensures base { result ≡ base_from entries.now item.now id.now before
        (accomplished_by number item.now id.now (Released release.now lines.now)) }
    ensures bounded { IfSome result IsBase }
{
    let mut last = before;
    let mut rest = lines;
    while let Some((line, later)) = rest.split_first() {
        if is_done_by(line, item, id) {
            last = Some(base_of_work(entries, item, id, last, number, release));
        }
        rest = later;
    }
    last
}

// The base that an opening states with a use and a day.
#[tactic(auto, using(mx_book::proofs::LifeLemmas::opening_bounds))]
fn base_stated(used: &Use, day: Day) -> Base
    requires { use_shape used.now ≡ true }
    ensures base { result
        ≡ record { minutes = used.now.minutes; cycles = used.now.cycles; day = day } }
    ensures bounded { IsBase result }
{
    Base {
        minutes: used.minutes,
        cycles: used.cycles,
        day: day.number(),
    }
}

// The base behind the entry with a number.
#[tactic(auto, using(mx_book::proofs::CommandsProofs::SameLemmas::item_is))]
fn base_after_entry(
    entries: &[Command],
    item: &Item,
    id: &TaskId,
    before: Option<Base>,
    number: usize,
    entry: &Command,
) -> Option<Base>
    requires few { length entries.now ≤ MOST_ENTRIES }
    requires shaped { list_all has_shape entries.now ≡ true }
    requires number { number ≤ length entries.now }
    requires before { IfSome before IsBase }
    ensures base { result ≡ base_from entries.now item.now id.now before
        (accomplished_by number item.now id.now entry.now.act) }
    ensures bounded { IfSome result IsBase }
{
    // an opening has its shape, as each command has
    let _ = entry.doc();
    if let Some(opening) = entry.stated_opening() {
        return if opening.item == *item && opening.task == *id {
            Some(base_stated(&opening.use_then, opening.day))
        } else {
            before
        };
    }
    match entry.release() {
        Some(release) => {
            base_after_lines(entries, item, id, before, number, &release, entry.lines())
        }
        None => before,
    }
}

/// The base of the last accomplishment of a task of an item, or `None` without one.
pub(crate) fn last_base(entries: &[Command], item: &Item, id: &TaskId) -> Option<Base>
    requires few { length entries.now ≤ MOST_ENTRIES }
    requires shaped { list_all has_shape entries.now ≡ true }
    ensures base { result ≡ base entries.now item.now id.now }
    ensures bounded { IfSome result IsBase }
{
    let mut last = None;
    let mut number = 0usize;
    let mut rest = entries;
    while let Some((entry, later)) = rest.split_first() {
        number += 1;
        last = base_after_entry(entries, item, id, last, number, entry);
        rest = later;
    }
    last
}
