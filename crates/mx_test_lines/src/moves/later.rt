//! What the steps of a move to layout 3 answer to a line over a database, in the form of those to layout 2:
//! - `deferrals-table`: makes the new table of deferrals;
//! - `deferrals MARK`, and behind it `SEQ CYCLES` for each deferral that is handed in, with the cycles at which it was found: moves
//!   the next deferrals behind the mark. A deferral is the one among the first 64 of the old table that has this number; `SEQ=OTHER`
//!   hands in that of another number with this one;
//! - `accomplishments-table MARK`: drops the old table of deferrals, which have moved up to the mark, and makes that of accomplishments;
//! - `accomplishments MARK ITEM`, and behind it `TASK SEQ LINE VALUE DUE BASE` for each accomplishment: writes those of an item, the
//!   next behind the mark, once their days were tested, and deletes its last bases. Each of the last three is `MINUTES CYCLES DAY`, of
//!   DUE with `-` where the task was not due;
//! - `finish-later MARK`: drops the table of last bases and makes the last indexes, where accomplishments were written up to the mark;
//! - one that is handed in what the registers give, which `given` lists.
ghost use Rattle.std.specs.Prelude.{◌≡◌, false};

use crate::moves::given::answer_of_given_step;
use crate::moves::made;
use mx_base::rows::{Deferral3Row, DeferralRow, DoneRow};
use mx_base::{Base, Limit, TaskId};
use mx_migrate::accomplishments::dated;
use mx_migrate::{
    ChangeToAccomplishments, CreateDeferrals, FinishLater, MoveDeferrals, WriteAccomplishments,
};
use mx_moves::later_rows::first_deferrals;
use mx_test_cases::{AnswerText, Unmade};
use mx_test_tables::faults::fault_text;
use sqlite::{Alter, Connection};
use std::alloc::Global;

// The first deferrals of the old table, or none where they can't be read: the step reads them for itself.
fn old_deferrals<S: Alter>(alloc: Global, conn: &mut Connection<S>) -> Vec<DeferralRow>
    requires { conn.old.in_transaction ≡ false }
    ensures idle { conn.new.in_transaction ≡ false }
{
    let mut tx = conn.transaction();
    match first_deferrals(alloc, &mut tx) {
        Ok(found) => found,
        Err(_) => Vec::new(alloc),
    }
}

// SEQ, or SEQ=OTHER: the number that a deferral is handed in with, and that of the row.
fn numbers_of(word: &str) -> Result<(u32, u32), Unmade> {
    match word.split_once('=') {
        Some((seq, other)) => Ok((seq.parse::<u32>()?, other.parse::<u32>()?)),
        None => {
            let seq = word.parse::<u32>()?;
            Ok((seq, seq))
        }
    }
}

// The deferral that two words say, by those of the old table.
fn deferral_of(old: &[DeferralRow], words: &[&str]) -> Result<Deferral3Row, Unmade> {
    let [numbers, cycles] = words else {
        return Err(Unmade::NoSuchLine);
    };
    let (seq, other) = numbers_of(numbers)?;
    let found_cycles = cycles.parse::<u32>()?;
    match old.iter().find(|row| row.seq == other) {
        Some(row) => Ok(Deferral3Row {
            deferral: DeferralRow { seq, ..*row },
            found_cycles,
        }),
        None => Err(Unmade::NoSuchLine),
    }
}

// The deferrals that words say, two each.
fn deferrals_of(
    alloc: Global,
    old: &[DeferralRow],
    words: &[&str],
) -> Result<Vec<Deferral3Row>, Unmade> {
    let mut rows = Vec::new(alloc);
    for deferral in words.chunks(2) {
        rows.push(deferral_of(old, deferral)?)?;
    }
    Ok(rows)
}

// Moves the deferrals that words say, the next behind a mark.
fn move_deferrals<S: Alter>(
    alloc: Global,
    conn: &mut Connection<S>,
    mark: &str,
    deferrals: &[&str],
) -> AnswerText
    requires { conn.old.in_transaction ≡ false }
{
    let mark = mark.parse::<u32>()?;
    let old = old_deferrals(alloc, conn);
    let rows = deferrals_of(alloc, &old, deferrals)?;
    Ok(made(alloc, conn, &MoveDeferrals { mark, rows })?)
}

// MINUTES CYCLES DAY
fn base_of(words: &[&str]) -> Result<Base, Unmade> {
    let [minutes, cycles, day] = words else {
        return Err(Unmade::NoSuchLine);
    };
    Ok(Base {
        minutes: minutes.parse::<u32>()?,
        cycles: cycles.parse::<u32>()?,
        day: day.parse::<u32>()?,
    })
}

// A number, or `-` where there is none.
fn amount_of(word: &str) -> Result<Option<u32>, Unmade> {
    if word == "-" {
        return Ok(None);
    }
    Ok(Some(word.parse::<u32>()?))
}

// MINUTES CYCLES DAY, each a number or `-`.
fn due_of(words: &[&str]) -> Result<Limit, Unmade> {
    let [minutes, cycles, day] = words else {
        return Err(Unmade::NoSuchLine);
    };
    Ok(Limit {
        minutes: amount_of(minutes)?,
        cycles: amount_of(cycles)?,
        days: amount_of(day)?,
    })
}

// The accomplishment that twelve words say.
fn accomplishment_of(item: u32, words: &[&str]) -> Result<DoneRow, Unmade> {
    let [task, seq, line, told @ ..] = words else {
        return Err(Unmade::NoSuchLine);
    };
    let (value, more) = told.split_at_checked(3).ok_or(Unmade::NoSuchLine)?;
    let (due, base) = more.split_at_checked(3).ok_or(Unmade::NoSuchLine)?;
    Ok(DoneRow {
        item,
        task: TaskId::read(task)?,
        seq: seq.parse::<u32>()?,
        line: line.parse::<u32>()?,
        value: base_of(value)?,
        due: due_of(due)?,
        base: base_of(base)?,
    })
}

// The accomplishments that words say, twelve each.
fn accomplishments_of(alloc: Global, item: u32, words: &[&str]) -> Result<Vec<DoneRow>, Unmade> {
    let mut rows = Vec::new(alloc);
    for accomplishment in words.chunks(12) {
        rows.push(accomplishment_of(item, accomplishment)?)?;
    }
    Ok(rows)
}

// Writes the accomplishments of an item, the next behind a mark, where their days are in the calendar.
fn write_accomplishments<S: Alter>(
    alloc: Global,
    conn: &mut Connection<S>,
    mark: &str,
    item: &str,
    accomplishments: &[&str],
) -> AnswerText
    requires { conn.old.in_transaction ≡ false }
{
    let mark = mark.parse::<u32>()?;
    let item = item.parse::<u32>()?;
    let told = accomplishments_of(alloc, item, accomplishments)?;
    match dated(alloc, &told) {
        Ok(rows) => Ok(made(alloc, conn, &WriteAccomplishments { mark, item, rows })?),
        Err(fault) => fault_text(alloc, fault),
    }
}

/// What a step to layout 3 answers: `deferrals-table`, `deferrals MARK`, `accomplishments-table MARK`,
/// `accomplishments MARK ITEM`, `finish-later MARK`, or one that the registers give.
pub(crate) fn answer_of_later_step<S: Alter>(
    alloc: Global,
    conn: &mut Connection<S>,
    words: &[&str],
) -> AnswerText
    requires { conn.old.in_transaction ≡ false }
{
    match words {
        ["deferrals-table"] => Ok(made(alloc, conn, &CreateDeferrals)?),
        ["deferrals", mark, deferrals @ ..] => move_deferrals(alloc, conn, mark, deferrals),
        ["accomplishments-table", mark] => {
            let mark = mark.parse::<u32>()?;
            Ok(made(alloc, conn, &ChangeToAccomplishments { mark })?)
        }
        ["accomplishments", mark, item, accomplishments @ ..] => {
            write_accomplishments(alloc, conn, mark, item, accomplishments)
        }
        ["finish-later", mark] => {
            let mark = mark.parse::<u32>()?;
            Ok(made(alloc, conn, &FinishLater { mark })?)
        }
        given => answer_of_given_step(alloc, conn, given),
    }
}
