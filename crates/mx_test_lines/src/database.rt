//! What is asked of the database that files hold, without an office.
ghost use Rattle.std.specs.Prelude.{◌≡◌, false};

use crate::lookups::answer_of_lookup;
use crate::moves::answer_of_step;
use crate::rows::{
    answer_by_rows, entered_by_rows, entries_by_rows, is_entry_by_rows, verdict_by_rows, verified,
};
use mx_layout::{Layout, TableFault, create, point};
use mx_test_cases::{AnswerText, Unmade, append_word};
use mx_test_tables::faults::{append_done, append_error, append_table_fault, room};
use mx_test_tables::kept::answer_of_kept_rows;
use mx_test_tables::later::answer_of_later_rows;
use mx_test_tables::queries::{asked, tables};
use sqlite::{Alter, Connection};
use std::alloc::{AllocError, Global};

// Runs a statement: `ok`, or why it was not run.
fn changed<S: Alter>(
    alloc: Global,
    conn: &mut Connection<S>,
    sql: &str,
) -> Result<String, AllocError> {
    let mut text = room(alloc)?;
    match conn.execute(sql, &[]) {
        Ok(_) => text.push_str("ok")?,
        Err(error) => append_error(&mut text, error)?,
    }
    Ok(text)
}

// The point that the file is at: its layout, step and mark.
fn point_text<S: Alter>(alloc: Global, conn: &mut Connection<S>) -> Result<String, AllocError>
    requires { conn.old.in_transaction ≡ false }
{
    let mut text = room(alloc)?;
    match point(conn) {
        Ok(found) => {
            let layout = found.layout;
            let step = found.step;
            let mark = found.mark;
            write!(text, "{layout} {step} {mark}")?;
        }
        Err(fault) => append_table_fault(&mut text, fault)?,
    }
    Ok(text)
}

// Makes an empty book of layout 2, which is the newest. It says nothing of the tables, so that the proofs above carry none of what
// `create` promises; nor do the next two.
fn created<S: Alter>(conn: &mut Connection<S>) -> Result<(), TableFault>
    requires { conn.old.in_transaction ≡ false }
{
    create(conn, Layout(2))
}

// Makes an empty book of layout 1.
fn created_old<S: Alter>(conn: &mut Connection<S>) -> Result<(), TableFault>
    requires { conn.old.in_transaction ≡ false }
{
    create(conn, Layout(1))
}

// Makes an empty book of layout 3, to which no file is moved yet.
fn created_later<S: Alter>(conn: &mut Connection<S>) -> Result<(), TableFault>
    requires { conn.old.in_transaction ≡ false }
{
    create(conn, Layout(3))
}

// Makes an empty book of the newest layout.
fn make<S: Alter>(alloc: Global, conn: &mut Connection<S>) -> Result<String, AllocError>
    requires { conn.old.in_transaction ≡ false }
{
    let mut text = room(alloc)?;
    append_done(&mut text, created(conn))?;
    Ok(text)
}

// Makes an empty book of layout 1.
fn make_old<S: Alter>(alloc: Global, conn: &mut Connection<S>) -> Result<String, AllocError>
    requires { conn.old.in_transaction ≡ false }
{
    let mut text = room(alloc)?;
    append_done(&mut text, created_old(conn))?;
    Ok(text)
}

// Makes an empty book of the layout behind the newest.
fn make_later<S: Alter>(alloc: Global, conn: &mut Connection<S>) -> Result<String, AllocError>
    requires { conn.old.in_transaction ≡ false }
{
    let mut text = room(alloc)?;
    append_done(&mut text, created_later(conn))?;
    Ok(text)
}

// The words of a statement as its text.
fn statement_of(alloc: Global, words: &[&str]) -> Result<String, AllocError> {
    let mut sql = String::new(alloc);
    for word in words {
        append_word(&mut sql, word)?;
    }
    Ok(sql)
}

/// What a database answers to a line: `make`, `make-old`, `make-later`, `point`, `tables`, `ask QUERY`, `sql STATEMENT`, `step STEP`,
/// `enter COMMAND`, `judge COMMAND`, `entries FROM AT_MOST`, `entry NUMBER COMMAND`, `verify`, one of kept rows, one of the rows
/// or the look-ups of layout 3, or one for a list.
pub fn answer_of_database<S: Alter>(
    alloc: Global,
    conn: &mut Connection<S>,
    words: &[&str],
) -> AnswerText
    requires { conn.old.in_transaction ≡ false }
{
    match words {
        ["make"] => Ok(make(alloc, conn)?),
        ["make-old"] => Ok(make_old(alloc, conn)?),
        ["make-later"] => Ok(make_later(alloc, conn)?),
        ["point"] => Ok(point_text(alloc, conn)?),
        ["tables"] => tables(alloc, conn),
        ["ask", query @ ..] => {
            let sql = statement_of(alloc, query)?;
            asked(alloc, conn, sql.as_str())
        }
        ["sql", statement @ ..] => {
            let sql = statement_of(alloc, statement)?;
            Ok(changed(alloc, conn, sql.as_str())?)
        }
        ["step", step @ ..] => answer_of_step(alloc, conn, step),
        ["enter", command @ ..] => entered_by_rows(alloc, conn, command),
        ["kept", line @ ..] => answer_of_kept_rows(alloc, conn, line),
        ["later", line @ ..] => answer_of_later_rows(alloc, conn, line),
        ["looked", line @ ..] => answer_of_lookup(alloc, conn, line),
        ["judge", command @ ..] => verdict_by_rows(alloc, conn, command),
        ["rows", question @ ..] => answer_by_rows(alloc, conn, question),
        ["entries", from, at_most] => entries_by_rows(alloc, conn, from, at_most),
        ["entry", seq, command @ ..] => is_entry_by_rows(alloc, conn, seq, command),
        ["verify"] => Ok(verified(alloc, conn)?),
        _ => Err(Unmade::NoSuchLine),
    }
}
