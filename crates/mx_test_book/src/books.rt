//! Questions on the book: verdicts, entries, lives and lists.

use crate::same::are_same;
use mx_base::{Moment, Serial, Tail, Use};
use mx_book::commands::{Command, Item};
use mx_book::entry_list::Book;
use mx_lists::Question;
use mx_plain_book::Plain;
use mx_plain_book::book_lists::list_of;
use mx_test_cases::{
    AnswerText, Unmade, append_number, command_of, documents, listed, number_text, verdict_text,
    yes_or_no,
};
use std::alloc::Global;

// judge COMMAND: the verdict on it, where nothing is entered.
fn judge(alloc: Global, book: &Book, words: &[&str]) -> AnswerText {
    let command = command_of(alloc, words)?;
    Ok(verdict_text(alloc, &Plain { book }.judge(&command))?)
}

// copied judge COMMAND: the verdict of a copy of the book.
fn judge_by_copy(alloc: Global, book: &Book, words: &[&str]) -> AnswerText {
    let copy = book.copy(alloc)?;
    judge(alloc, &copy, words)
}

// copied: whether a copy of the book has the same entries.
fn copied(alloc: Global, book: &Book) -> AnswerText {
    let copy = book.copy(alloc)?;
    Ok(yes_or_no(alloc, are_same(copy.as_slice(), book.as_slice()))?)
}

// length: how many entries there are.
fn length(alloc: Global, book: &Book) -> AnswerText {
    let len = book.len();
    if book.is_empty() != (len == 0) {
        return Ok(String::from_str(alloc, "is_empty has it otherwise")?);
    }
    Ok(number_text(alloc, len)?)
}

// entry N: the document of the entry with that number.
fn entry(alloc: Global, book: &Book, seq: &str) -> AnswerText {
    match book.entry(seq.parse::<u32>()?) {
        Some(command) => Ok(String::from_str(alloc, command.doc().as_str())?),
        None => Ok(String::from_str(alloc, "none")?),
    }
}

// entries FROM AT_MOST: the documents of the entries from a number on, at most so many.
fn entries(alloc: Global, book: &Book, from: &str, at_most: &str) -> AnswerText {
    let from = from.parse::<u32>()?;
    let entries = book.entries(alloc, from, at_most.parse::<u32>()?)?;
    Ok(documents(alloc, entries.as_slice())?)
}

// A life as MINUTES CYCLES, or `unknown`.
fn life_of(alloc: Global, life: Option<Use>) -> AnswerText {
    match life {
        Some(life) => {
            let mut text = number_text(alloc, life.minutes)?;
            append_number(&mut text, life.cycles)?;
            Ok(text)
        }
        None => Ok(String::from_str(alloc, "unknown")?),
    }
}

// life TAIL [MOMENT], component-life SERIAL [MOMENT]: the life of an item, now or up to a moment.
fn life(alloc: Global, book: &Book, item: &Item, until: &[&str]) -> AnswerText {
    match until {
        [] => life_of(alloc, Plain { book }.life_now(item)),
        [moment] => life_of(alloc, Plain { book }.life(item, Moment::read(moment)?)),
        _ => Err(Unmade::NoSuchLine),
    }
}

// list TAIL: the lines of the life list.
fn list(alloc: Global, book: &Book, tail: &str) -> AnswerText {
    let question = Question::Life(Tail::read(tail)?);
    Ok(listed(alloc, list_of(book, alloc, &question)?)?)
}

/// The answer to a question on the book, or `None` where it is none.
pub fn answer(alloc: Global, book: &Book, words: &[&str]) -> Result<Option<String>, Unmade> {
    let answer = match words {
        ["judge", command @ ..] => judge(alloc, book, command),
        ["copied", "judge", command @ ..] => judge_by_copy(alloc, book, command),
        ["copied"] => copied(alloc, book),
        ["length"] => length(alloc, book),
        ["entry", seq] => entry(alloc, book, seq),
        ["entries", from, at_most] => entries(alloc, book, from, at_most),
        ["life", tail, until @ ..] => life(alloc, book, &Item::Airframe(Tail::read(tail)?), until),
        ["component-life", serial, until @ ..] => {
            life(alloc, book, &Item::Component(Serial::read(serial)?), until)
        }
        ["list", tail] => list(alloc, book, tail),
        _ => return Ok(None),
    };
    Ok(Some(answer?))
}
