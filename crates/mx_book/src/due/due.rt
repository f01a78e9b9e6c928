//! When a task is due: its limits, counted from a base.
ghost use Rattle.std.specs.Prelude.{◌≡◌, ◌≤◌, ◌+◌, ◌<◌, ◌^◌, true, IfSome};
ghost use Rattle.std.specs.Option.{option_map};
ghost use Rattle.mx_book.specs.commands.Programme.{limit_shape, task_shape};
ghost use Rattle.mx_book.specs.due.Due.{IsLife, IsBase, base_at_birth, counted_from, first_due, next_due, due_after, lesser, base_by_due, base_done};

use crate::commands::Task;
use mx_base::{Base, Day, Limit, Use};

// A number of a limit, counted from another.
fn counted(from: u32, number: Option<u32>) -> Option<u32>
    requires { IfSome number (λ n. from + n < 2 ^ 32) }
    ensures { result ≡ option_map (λ n. from + n) number }
{
    match number {
        Some(number) => Some(from + number),
        None => None,
    }
}

// A limit, counted from a base.
#[tactic(auto, using(crate::proofs::DueProofs::DueLemmas::limit_small))]
fn due_from(base: &Base, limit: &Limit) -> Limit
    requires base { IsBase base.now }
    requires limit { limit_shape limit.now ≡ true }
    ensures { result ≡ counted_from base.now limit.now }
{
    Limit {
        minutes: counted(base.minutes, limit.minutes),
        cycles: counted(base.cycles, limit.cycles),
        days: counted(base.day, limit.days),
    }
}

/// When a task is due for the first time, counted from no use and the day of birth.
#[tactic(auto, using(crate::proofs::DueProofs::DueLemmas::task_limits))]
pub fn first_due(birth: Day, task: &Task) -> Limit
    requires { task_shape task.now ≡ true }
    ensures { result ≡ first_due birth task.now }
{
    let base = Base {
        minutes: 0,
        cycles: 0,
        day: birth.number(),
    };
    due_from(&base, &task.first)
}

/// When a task is due behind its last accomplishment, whose base is named, or for the first time where there is none:
/// by its repeat, or by its first limit where the item is retired at it. `None` where it is done once, and was done.
#[tactic(auto, using(crate::proofs::DueProofs::DueLemmas::task_limits))]
pub fn due_after(base: Option<Base>, birth: Day, task: &Task) -> Option<Limit>
    requires base { IfSome base IsBase }
    requires shape { task_shape task.now ≡ true }
    ensures { result ≡ due_after base birth task.now }
{
    let Some(base) = base else {
        return Some(first_due(birth, task));
    };
    if task.retire {
        return Some(first_due(birth, task));
    }
    match &task.repeat {
        Some(repeat) => Some(due_from(&base, repeat)),
        None => None,
    }
}

// The value, or the due where that is less.
fn lesser(value: u32, due: Option<u32>) -> u32
    ensures lesser { result ≡ lesser value due }
    ensures reached { result ≤ value }
{
    match due {
        Some(due) => value.min(due),
        None => value,
    }
}

/// The base of work that was done at this use and day: in each dimension that was due the lesser of what was reached and
/// what was due, so that work done late does not put off the next, and what was reached in the others.
pub fn base_done(life: &Use, day: Day, due: Option<Limit>) -> Base
    ensures base { result ≡ base_done life.now day due }
    ensures bounded { IsLife life.now → IsBase result }
{
    let day = day.number();
    match due {
        Some(due) => Base {
            minutes: lesser(life.minutes, due.minutes),
            cycles: lesser(life.cycles, due.cycles),
            day: lesser(day, due.days),
        },
        None => Base {
            minutes: life.minutes,
            cycles: life.cycles,
            day,
        },
    }
}
