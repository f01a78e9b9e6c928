//! A database over any store, or the office that is open in it, asked a line.
ghost use Rattle.std.specs.Prelude.{◌≡◌, false, IfErr};

use crate::office_lines::answer_of_office;
use crate::texts::append_open_fault;
use mx_desk::jobs::office::{Office, OpenFault, open_office};
use mx_test_cases::{AnswerText, Asked, Unmade};
use mx_test_lines::database::answer_of_database;
use mx_test_lines::moves::answer_of_install;
use mx_test_tables::faults::room;
use sqlite::{Alter, Connection};
use std::alloc::Global;

// The answer to an opening, in room that was taken for it.
fn opening_text(space: String, fault: Option<OpenFault>) -> AnswerText {
    let mut text = space;
    match fault {
        None => text.push_str("opened")?,
        Some(fault) => append_open_fault(&mut text, fault)?,
    }
    Ok(text)
}

// Opens the office that a database holds: the answer, and the office, or the database where it was not opened.
fn open<S: Alter>(
    alloc: Global,
    conn: Connection<S>,
) -> (AnswerText, Result<Office<S>, Connection<S>>)
    requires { conn.in_transaction ≡ false }
{
    let Ok(space) = room(alloc) else {
        return (Err(Unmade::Memory), Err(conn));
    };
    match open_office(alloc, conn) {
        Ok(office) => (opening_text(space, None), Ok(office)),
        Err((conn, fault)) => (opening_text(space, Some(fault)), Err(conn)),
    }
}

// Asks a database a line: the answer, and the office that the line opened, or else the database.
fn ask_database<S: Alter>(
    mut conn: Connection<S>,
    asked: Asked<'_>,
) -> (AnswerText, Result<Office<S>, Connection<S>>)
    requires { conn.in_transaction ≡ false }
{
    let alloc = asked.alloc;
    match asked.words {
        ["open"] => open(alloc, conn),
        ["install"] => {
            let answer = answer_of_install(alloc, &mut conn, asked.list);
            (answer, Err(conn))
        }
        words => {
            let answer = answer_of_database(alloc, &mut conn, words);
            (answer, Err(conn))
        }
    }
}

/// Asks an office, or a database in which none is open, a line: the answer, and what is open behind it.
pub(crate) fn ask<S: Alter>(
    place: Result<Office<S>, Connection<S>>,
    asked: Asked<'_>,
) -> (AnswerText, Result<Office<S>, Connection<S>>)
    requires { IfErr place (λ conn. conn.in_transaction ≡ false) }
{
    match place {
        Ok(mut office) => {
            let answer = answer_of_office(&mut office, asked);
            (answer, Ok(office))
        }
        Err(conn) => ask_database(conn, asked),
    }
}
