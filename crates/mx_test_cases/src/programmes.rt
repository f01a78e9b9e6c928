//! Maintenance programmes in the words of a case: each task is one word.

use crate::commands::Unmade;
use mx_base::{Kind, Limit, Part, TaskId, Tolerance};
use mx_book::commands::{Applies, Body, Task};
use std::alloc::Global;

// airframe, or part:PART
fn applies_of(word: &str) -> Result<Applies, Unmade> {
    if word == "airframe" {
        return Ok(Applies::Airframe);
    }
    match word.strip_prefix("part:") {
        Some(part) => Ok(Applies::Part(Part::read(part)?)),
        None => Err(Unmade::Unread),
    }
}

// A number, or `-` where there is none.
fn amount_of(word: &str) -> Result<Option<u32>, Unmade> {
    if word == "-" {
        return Ok(None);
    }
    Ok(Some(word.parse::<u32>()?))
}

// MINUTES/CYCLES/DAYS, each a number or `-`.
fn limit_of(alloc: Global, word: &str) -> Result<Limit, Unmade> {
    let amounts: Vec<&str> = word.split('/').collect(alloc)?;
    let [minutes, cycles, days] = amounts.as_slice() else {
        return Err(Unmade::Unread);
    };
    Ok(Limit {
        minutes: amount_of(minutes)?,
        cycles: amount_of(cycles)?,
        days: amount_of(days)?,
    })
}

// A limit, or `-` where there is none.
fn repeat_of(alloc: Global, word: &str) -> Result<Option<Limit>, Unmade> {
    if word == "-" {
        return Ok(None);
    }
    Ok(Some(limit_of(alloc, word)?))
}

// What a limit would be, or `-`: no tolerance where there is no number.
fn tolerance_of(alloc: Global, word: &str) -> Result<Tolerance, Unmade> {
    let limit = repeat_of(alloc, word)?.unwrap_or(Limit {
        minutes: None,
        cycles: None,
        days: None,
    });
    Ok(Tolerance {
        minutes: limit.minutes.unwrap_or(0),
        cycles: limit.cycles.unwrap_or(0),
        days: limit.days.unwrap_or(0),
    })
}

// `retire`, or nothing.
fn retire_of(words: &[&str]) -> Result<bool, Unmade> {
    match words {
        [] => Ok(false),
        ["retire"] => Ok(true),
        _ => Err(Unmade::Unread),
    }
}

// APPLIES,FIRST,REPEAT,TOLERANCE[,retire]
fn task_with(alloc: Global, id: TaskId, words: &str) -> Result<Task, Unmade> {
    let words: Vec<&str> = words.split(',').collect(alloc)?;
    let [applies, first, repeat, tolerance, retire @ ..] = words.as_slice() else {
        return Err(Unmade::Unread);
    };
    Ok(Task {
        id,
        applies: applies_of(applies)?,
        first: limit_of(alloc, first)?,
        repeat: repeat_of(alloc, repeat)?,
        tolerance: tolerance_of(alloc, tolerance)?,
        retire: retire_of(retire)?,
    })
}

// ID=APPLIES,FIRST,REPEAT,TOLERANCE[,retire]
fn task_of(alloc: Global, word: &str) -> Result<Task, Unmade> {
    let Some((id, words)) = word.split_once('=') else {
        return Err(Unmade::Unread);
    };
    task_with(alloc, TaskId::read(id)?, words)
}

fn tasks_of(alloc: Global, words: &[&str]) -> Result<Vec<Task>, Unmade> {
    // The checker proves this loop only where the type of each field of a task is named in the function.
    let _: Option<Applies> = None;
    let mut tasks = Vec::new(alloc);
    for word in words {
        let task = task_of(alloc, word)?;
        tasks.push(task)?;
    }
    Ok(tasks)
}

/// The programme of a kind: `KIND REVISION [TASK ..]`. A task is `ID=APPLIES,FIRST,REPEAT,TOLERANCE[,retire]`, where APPLIES
/// is `airframe` or `part:PART`, and each limit `MINUTES/CYCLES/DAYS` with `-` in a dimension that it does not have. REPEAT
/// or TOLERANCE is `-` where there is none.
pub(crate) fn programme_of(alloc: Global, parts: &[&str]) -> Result<Body, Unmade> {
    let [kind, revision, tasks @ ..] = parts else {
        return Err(Unmade::NoSuchLine);
    };
    Ok(Body::LoadProgramme {
        kind: Kind::read(kind)?,
        revision: revision.parse::<u32>()?,
        tasks: tasks_of(alloc, tasks)?,
    })
}
