//! The shape of a maintenance programme: its revision, and the limits of its tasks.
ghost use Rattle.std.specs.Prelude.{◌≡◌};
ghost use Rattle.std.specs.List.{list_all, list_any};
ghost use Rattle.mx_book.specs.commands.Bounds.{within, are_distinct};
ghost use Rattle.mx_book.specs.commands.Programme.{is_limited, limit_shape, tolerance_shape, is_without_tolerance, task_shape, same_name_of_task, programme_shape};

use crate::commands::programme::{Programme, Task};
use crate::commands::shape::is_within;
use mx_base::{Limit, Tolerance};

/// The last revision of a programme.
pub const LAST_REVISION: u32 = 1_000_000;

/// The most tasks of a programme.
pub const MOST_TASKS: usize = 500;

/// The most minutes of a limit or a tolerance.
pub const MOST_LIMIT_MINUTES: u32 = 6_000_000;

/// The most cycles of a limit or a tolerance.
pub const MOST_LIMIT_CYCLES: u32 = 1_000_000;

/// The most days of a limit or a tolerance.
pub const MOST_LIMIT_DAYS: u32 = 36_500;

impl Programme {
    /// Whether its revision is within its bounds, and these tasks are one programme's: 1 to 500 of their shape, of
    /// distinct names.
    pub fn has_shape(&self, tasks: &[Task]) -> bool
        ensures { result ≡ programme_shape self.now tasks.now }
    {
        is_within(1, LAST_REVISION, self.revision)
            && is_task_count(tasks.len())
            && have_task_shapes(tasks)
            && have_distinct_names(tasks)
    }
}

impl Task {
    /// Whether its limits and its tolerance are within their bounds, and it is done once where the item is retired.
    pub fn has_shape(&self) -> bool
        ensures { result ≡ task_shape self.now }
    {
        has_limit_shape(&self.first)
            && self.repeat.is_none_or(|repeat| has_limit_shape(&repeat))
            && has_tolerance_shape(&self.tolerance)
            && (!self.retire || self.repeat.is_none() && is_no_tolerance(&self.tolerance))
    }
}

// Whether a programme may have so many tasks.
fn is_task_count(count: usize) -> bool
    ensures { result ≡ within 1 MOST_TASKS count }
{
    1 <= count && count <= MOST_TASKS
}

fn have_task_shapes(tasks: &[Task]) -> bool
    ensures { result ≡ list_all task_shape tasks.now }
{
    tasks.iter().all(|task| task.has_shape())
}

// Whether a number, where there is one, is from 1 to the most.
fn is_within_limit(most: u32, number: Option<u32>) -> bool
    ensures { result ≡ is_limited most number }
{
    match number {
        Some(number) => is_within(1, most, number),
        None => true,
    }
}

fn has_limit_shape(limit: &Limit) -> bool
    ensures { result ≡ limit_shape limit.now }
{
    (limit.minutes.is_some() || limit.cycles.is_some() || limit.days.is_some())
        && is_within_limit(MOST_LIMIT_MINUTES, limit.minutes)
        && is_within_limit(MOST_LIMIT_CYCLES, limit.cycles)
        && is_within_limit(MOST_LIMIT_DAYS, limit.days)
}

fn has_tolerance_shape(tolerance: &Tolerance) -> bool
    ensures { result ≡ tolerance_shape tolerance.now }
{
    tolerance.minutes <= MOST_LIMIT_MINUTES
        && tolerance.cycles <= MOST_LIMIT_CYCLES
        && tolerance.days <= MOST_LIMIT_DAYS
}

fn is_no_tolerance(tolerance: &Tolerance) -> bool
    ensures { result ≡ is_without_tolerance tolerance.now }
{
    tolerance.minutes == 0 && tolerance.cycles == 0 && tolerance.days == 0
}

fn is_name_among(task: &Task, others: &[Task]) -> bool
    ensures { result ≡ list_any (same_name_of_task task.now) others.now }
{
    others.iter().any(|other| task.id == other.id)
}

fn have_distinct_names(tasks: &[Task]) -> bool
    ensures { result ≡ are_distinct same_name_of_task tasks.now }
{
    let mut rest = tasks;
    while let Some((task, later)) = rest.split_first() {
        if is_name_among(task, later) {
            return false;
        }
        rest = later;
    }
    true
}
