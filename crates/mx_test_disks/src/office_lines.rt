//! What is asked of an open office.

use crate::calls::{applied, entries_of, is_in_doubt, life_of, list_of, ran, verified_in};
use crate::streams::{get, import, post};
use crate::texts::{answers_in, append_fault, ask_text};
use mx_book::commands::{Command, Item};
use mx_desk::jobs::office::{Fault, Office};
use mx_lists::Question;
use mx_reports::append_whole;
use mx_test_cases::{
    AnswerText, Asked, Unmade, command_of, documents, item_of, joined_lines, question_of,
    room_for_replies, yes_or_no,
};
use mx_test_tables::faults::room;
use sqlite::Alter;
use std::alloc::Global;
use std::slice;

// Why the office was stopped.
fn fault_text(alloc: Global, fault: Fault) -> AnswerText {
    let mut text = room(alloc)?;
    append_fault(&mut text, fault)?;
    Ok(text)
}

// Hands in a command.
fn apply<S: Alter>(alloc: Global, office: &mut Office<S>, command: &Command) -> AnswerText {
    let space = room_for_replies(alloc, 1)?;
    match applied(alloc, office, command) {
        Ok(reply) => Ok(answers_in(alloc, space, slice::from_ref(&reply), None)?),
        Err(fault) => Ok(answers_in(alloc, space, &[], Some(fault))?),
    }
}

// Hands in the list of commands.
fn run<S: Alter>(alloc: Global, office: &mut Office<S>, list: &[Command]) -> AnswerText {
    let space = room_for_replies(alloc, list.len())?;
    let outcomes = ran(alloc, office, list);
    Ok(answers_in(alloc, space, &outcomes.replies, outcomes.stopped)?)
}

// The lines of a list, or why there is none.
fn list<S: Alter>(alloc: Global, office: &mut Office<S>, question: &Question) -> AnswerText {
    match list_of(alloc, office, question) {
        Ok(list) => {
            let mut lines = Vec::new(alloc);
            append_whole(&mut lines, &list)?;
            Ok(joined_lines(alloc, &lines)?)
        }
        Err(ask) => Ok(ask_text(alloc, ask)?),
    }
}

// The life of an item, in minutes and cycles.
fn life<S: Alter>(alloc: Global, office: &mut Office<S>, item: &Item) -> AnswerText {
    match life_of(alloc, office, item) {
        Ok(life) => {
            let minutes = life.minutes;
            let cycles = life.cycles;
            Ok(format!(in alloc; "{minutes} {cycles}")?)
        }
        Err(ask) => Ok(ask_text(alloc, ask)?),
    }
}

// The documents of at most so many entries, from a number on. The entries themselves are put where `asked` says.
fn entries<S: Alter>(
    office: &mut Office<S>,
    asked: Asked<'_>,
    from: &str,
    at_most: &str,
) -> AnswerText {
    let from = from.parse::<u32>()?;
    let at_most = at_most.parse::<u32>()?;
    match entries_of(asked.alloc, office, from, at_most) {
        Ok(found) => {
            let text = documents(asked.alloc, &found)?;
            *asked.entries = found;
            Ok(text)
        }
        Err(fault) => fault_text(asked.alloc, fault),
    }
}

// Whether the entry with a number is the command that the words name.
fn is_entry<S: Alter>(
    alloc: Global,
    office: &mut Office<S>,
    seq: &str,
    words: &[&str],
) -> AnswerText {
    let seq = seq.parse::<u32>()?;
    let wanted = command_of(alloc, words)?;
    match entries_of(alloc, office, seq, 1) {
        Ok(found) => Ok(yes_or_no(alloc, found.iter().any(|entry| entry.is_same(&wanted)))?),
        Err(fault) => fault_text(alloc, fault),
    }
}

// Whether the tables stand for a book.
fn verify<S: Alter>(alloc: Global, office: &mut Office<S>) -> AnswerText {
    match verified_in(alloc, office) {
        Ok(true) => Ok(String::from_str(alloc, "verified")?),
        Ok(false) => Ok(String::from_str(alloc, "differs")?),
        Err(fault) => fault_text(alloc, fault),
    }
}

// Hands in the first command of the list.
fn apply_first<S: Alter>(alloc: Global, office: &mut Office<S>, list: &[Command]) -> AnswerText {
    match list.first() {
        Some(command) => apply(alloc, office, command),
        None => Err(Unmade::NoSuchLine),
    }
}

/// What an open office answers.
pub(crate) fn answer_of_office<S: Alter>(office: &mut Office<S>, asked: Asked<'_>) -> AnswerText {
    let alloc = asked.alloc;
    if let Some(question) = question_of(asked.words)? {
        return list(alloc, office, &question);
    }
    match asked.words {
        ["run"] => run(alloc, office, asked.list),
        ["first"] => apply_first(alloc, office, asked.list),
        [word @ ("airframe" | "component"), name] => life(alloc, office, &item_of(word, name)?),
        ["entries", from, at_most] => entries(office, asked, from, at_most),
        ["entry", seq, command @ ..] => is_entry(alloc, office, seq, command),
        ["verify"] => verify(alloc, office),
        ["import", limits @ ..] => import(office, &asked, limits),
        ["get", path, limits @ ..] => get(alloc, office, path, limits),
        ["post", path, limits @ ..] => post(office, &asked, path, limits),
        ["needs-reopen"] => Ok(yes_or_no(alloc, is_in_doubt(office))?),
        command => apply(alloc, office, &command_of(alloc, command)?),
    }
}
