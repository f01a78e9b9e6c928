//! A file of layout 1 that has a whole book.
ghost use Rattle.std.specs.Prelude.{◌≡◌, false};

use mx_book::Verdict;
use mx_book::commands::Command;
use mx_book::entry_list::Book;
use mx_layout::TableFault;
use mx_moves::install::install_v1;
use mx_plain_book::Plain;
use mx_test_cases::AnswerText;
use mx_test_tables::faults::{append_done, room};
use sqlite::{Alter, Connection};
use std::alloc::{AllocError, Global};

// Enters a command where it is new.
fn enter(alloc: Global, book: &mut Book, command: &Command) -> Result<(), AllocError> {
    let command = command.copy(alloc)?;
    let verdict = Plain { book }.judge(&command);
    match verdict {
        Verdict::New => match book.enter(command) {
            Ok(_) => Ok(()),
            Err((_, _)) => Err(AllocError),
        },
        Verdict::Already(_) | Verdict::Refused(_) => Ok(()),
    }
}

// The book of those of the commands that are new.
fn book_of(alloc: Global, commands: &[Command]) -> Result<Book, AllocError> {
    let mut book = Book::new(alloc);
    for command in commands {
        enter(alloc, &mut book, command)?;
    }
    Ok(book)
}

// Makes the file, and says nothing of its tables.
fn installed<S: Alter>(
    alloc: Global,
    conn: &mut Connection<S>,
    book: &Book,
) -> Result<(), TableFault>
    requires { conn.old.in_transaction ≡ false }
{
    install_v1(alloc, conn, book)
}

/// What making a file of layout 1 answers, with the book of those of the commands that are new: `ok`, or why it was not
/// made.
pub fn answer_of_install<S: Alter>(
    alloc: Global,
    conn: &mut Connection<S>,
    commands: &[Command],
) -> AnswerText
    requires { conn.old.in_transaction ≡ false }
{
    let book = book_of(alloc, commands)?;
    let mut text = room(alloc)?;
    append_done(&mut text, installed(alloc, conn, &book))?;
    Ok(text)
}
