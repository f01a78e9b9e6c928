//! The tasks of a programme as text, in the words of a case.

use mx_base::{Limit, Part, Tolerance};
use mx_book::commands::{Applies, Task};
use mx_test_cases::append_word;
use std::alloc::AllocError;

fn append_amount(text: &mut String, amount: Option<u32>) -> Result<(), AllocError> {
    match amount {
        Some(amount) => write!(text, "{amount}"),
        None => text.push('-'),
    }
}

/// Appends a limit: MINUTES/CYCLES/DAYS, with `-` in a dimension that it does not have.
pub fn append_limit(text: &mut String, limit: &Limit) -> Result<(), AllocError> {
    append_amount(text, limit.minutes)?;
    text.push('/')?;
    append_amount(text, limit.cycles)?;
    text.push('/')?;
    append_amount(text, limit.days)
}

/// Appends a tolerance: MINUTES/CYCLES/DAYS.
pub fn append_tolerance(text: &mut String, tolerance: &Tolerance) -> Result<(), AllocError> {
    let minutes = tolerance.minutes;
    let cycles = tolerance.cycles;
    let days = tolerance.days;
    write!(text, "{minutes}/{cycles}/{days}")
}

/// Appends what a task is done on: `airframe`, or `part:PART`.
pub fn append_applies(text: &mut String, part: Option<Part>) -> Result<(), AllocError> {
    match part {
        Some(part) => {
            text.push_str("part:")?;
            text.push_str(part.as_str())
        }
        None => text.push_str("airframe"),
    }
}

// The part whose components a task is done on.
fn part_of(applies: Applies) -> Option<Part> {
    match applies {
        Applies::Airframe => None,
        Applies::Part(part) => Some(part),
    }
}

// Appends the limits of a task: FIRST,REPEAT,TOLERANCE, with `-` where there is no repeat.
fn append_limits(text: &mut String, task: &Task) -> Result<(), AllocError> {
    append_limit(text, &task.first)?;
    text.push(',')?;
    match task.repeat {
        Some(repeat) => append_limit(text, &repeat)?,
        None => text.push('-')?,
    }
    text.push(',')?;
    append_tolerance(text, &task.tolerance)
}

/// Appends a task: ID=APPLIES,FIRST,REPEAT,TOLERANCE[,retire].
pub fn append_task(text: &mut String, task: &Task) -> Result<(), AllocError> {
    append_word(text, task.id.as_str())?;
    text.push('=')?;
    append_applies(text, part_of(task.applies))?;
    text.push(',')?;
    append_limits(text, task)?;
    if task.retire {
        text.push_str(",retire")?;
    }
    Ok(())
}
