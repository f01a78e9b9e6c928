//! What the plain book answers, which the office is compared with.

use mx_book::commands::Command;
use mx_book::entry_list::Book;
use mx_book::{Reply, Verdict};
use mx_test_cases::{append_reply, or_none, replies_in};
use std::alloc::{AllocError, Global};

/// What a list of commands gives over a book.
#[derive(Drop)]
pub(crate) struct Plain {
    /// How many entries there are before the first command.
    pub before: usize,
    /// The replies to the commands, as `run` answers them.
    pub replies: String,
    /// The book after the last command.
    pub book: Book,
}

// Enters a command where it is new, and appends the reply to it.
fn append_reply_to(
    alloc: Global,
    out: &mut Vec<u8>,
    book: &mut Book,
    command: &Command,
) -> Result<(), AllocError> {
    let command = command.copy(alloc)?;
    let verdict = mx_plain_book::Plain { book }.judge(&command);
    match verdict {
        Verdict::New => match book.enter(command) {
            Ok(seq) => append_reply(out, &Reply::Accepted(seq)),
            Err((_, _)) => Err(AllocError),
        },
        Verdict::Already(seq) => append_reply(out, &Reply::Already(seq)),
        Verdict::Refused(refusal) => append_reply(out, &Reply::Refused(refusal)),
    }
}

// Enters those of the commands that are new, and appends the replies to all of them.
fn append_replies(
    alloc: Global,
    out: &mut Vec<u8>,
    book: &mut Book,
    commands: &[Command],
) -> Result<(), AllocError> {
    for command in commands {
        append_reply_to(alloc, out, book, command)?;
    }
    Ok(())
}

/// What the commands give over the book of these entries.
pub(crate) fn plain_run(
    alloc: Global,
    entries: &[Command],
    commands: &[Command],
) -> Result<Plain, AllocError> {
    let mut book = Book::new(alloc);
    append_replies(alloc, &mut Vec::new(alloc), &mut book, entries)?;
    let mut replies = Vec::new(alloc);
    append_replies(alloc, &mut replies, &mut book, commands)?;
    Ok(Plain {
        before: entries.len(),
        replies: or_none(replies_in(alloc, replies, &[])?)?,
        book,
    })
}

/// Whether these are the first of the commands that are wanted, in their order.
pub(crate) fn is_start(found: &[Command], wanted: &[Command]) -> bool {
    found.len() <= wanted.len() && found.iter().zip(wanted.iter()).all(|(a, b)| a.is_same(b))
}
