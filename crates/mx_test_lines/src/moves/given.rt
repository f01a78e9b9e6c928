//! What the steps of a move to layout 3 answer that are handed in what the registers of the file give, wherever its deferrals stand:
//! - `deferrals-given MARK`: moves the next deferrals behind the mark;
//! - `accomplishments-given MARK ITEM`: writes the accomplishments of an item, the next behind the mark.
ghost use Rattle.std.specs.Prelude.{◌≡◌, false};

use crate::moves::made;
use mx_base::Point;
use mx_base::rows::{Deferral3Row, DoneRow};
use mx_book_tables::reading::register_rows_at;
use mx_layout::{Table, TableFault};
use mx_migrate::accomplishments::dated;
use mx_migrate::{MoveDeferrals, WriteAccomplishments};
use mx_test_cases::{AnswerText, Unmade};
use mx_test_tables::faults::fault_text;
use mx_verify::derived::{KeptRows, kept_rows};
use sqlite::{Alter, Connection};
use std::alloc::{AllocError, Global};

// What layout 3 keeps of the book that the registers of the file give at a point of the move; the table of the entries is told
// damaged where they give none.
fn kept_at<S: Alter>(
    alloc: Global,
    conn: &mut Connection<S>,
    at: Point,
) -> Result<KeptRows, TableFault>
    requires { conn.old.in_transaction ≡ false }
    ensures idle { conn.new.in_transaction ≡ false }
{
    let mut tx = conn.transaction();
    match register_rows_at(alloc, &mut tx, at) {
        Ok(rows) => match kept_rows(alloc, rows) {
            Ok(kept) => Ok(kept),
            Err(_) => Err(TableFault::Damaged(Table::Entry)),
        },
        Err(fault) => Err(fault),
    }
}

// The first 64 of the deferrals behind a mark.
fn next_of(
    alloc: Global,
    mark: u32,
    found: &[Deferral3Row],
) -> Result<Vec<Deferral3Row>, AllocError> {
    let mut rows = Vec::new(alloc);
    for row in found {
        if mark < row.deferral.seq && rows.len() < 64 {
            rows.push(*row)?;
        }
    }
    Ok(rows)
}

// The accomplishments of an item.
fn done_of(alloc: Global, item: u32, done: &[DoneRow]) -> Result<Vec<DoneRow>, AllocError> {
    let mut rows = Vec::new(alloc);
    for row in done {
        if row.item == item {
            rows.push(*row)?;
        }
    }
    Ok(rows)
}

// Moves the next deferrals behind a mark, as the registers give them.
fn move_given<S: Alter>(alloc: Global, conn: &mut Connection<S>, mark: &str) -> AnswerText
    requires { conn.old.in_transaction ≡ false }
{
    let mark = mark.parse::<u32>()?;
    let at = Point {
        layout: 2,
        step: 1,
        mark,
    };
    match kept_at(alloc, conn, at) {
        Ok(kept) => {
            let rows = next_of(alloc, mark, &kept.found)?;
            Ok(made(alloc, conn, &MoveDeferrals { mark, rows })?)
        }
        Err(fault) => fault_text(alloc, fault),
    }
}

// Writes the accomplishments of an item, the next behind a mark, as the registers give them.
fn write_given<S: Alter>(
    alloc: Global,
    conn: &mut Connection<S>,
    mark: &str,
    item: &str,
) -> AnswerText
    requires { conn.old.in_transaction ≡ false }
{
    let mark = mark.parse::<u32>()?;
    let item = item.parse::<u32>()?;
    let at = Point {
        layout: 2,
        step: 2,
        mark,
    };
    match kept_at(alloc, conn, at) {
        Ok(kept) => {
            let given = done_of(alloc, item, &kept.done)?;
            match dated(alloc, &given) {
                Ok(rows) => Ok(made(alloc, conn, &WriteAccomplishments { mark, item, rows })?),
                Err(fault) => fault_text(alloc, fault),
            }
        }
        Err(fault) => fault_text(alloc, fault),
    }
}

/// What a step answers that is handed in what the registers give: `deferrals-given MARK` or `accomplishments-given MARK ITEM`.
pub(crate) fn answer_of_given_step<S: Alter>(
    alloc: Global,
    conn: &mut Connection<S>,
    words: &[&str],
) -> AnswerText
    requires { conn.old.in_transaction ≡ false }
{
    match words {
        ["deferrals-given", mark] => move_given(alloc, conn, mark),
        ["accomplishments-given", mark, item] => write_given(alloc, conn, mark, item),
        _ => Err(Unmade::NoSuchLine),
    }
}
