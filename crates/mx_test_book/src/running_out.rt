//! A book whose questions run out. Each entry of a book is judged over those before it and over them all, and each list of an aircraft
//! and of all is made, by no question, by one, and so on until it is answered: before that each is stopped by the fault in wait.

use crate::failing::Interrupted;
use crate::interrupted::{judge_interrupted, list_interrupted};
use mx_base::{Day, Tail};
use mx_book::Verdict;
use mx_book::commands::Command;
use mx_book::entry_list::Book;
use mx_lists::{Question, Stop};
use mx_plain_book::Plain;
use mx_test_cases::{AnswerText, Unmade, Wrong, must, wrong_text};
use std::alloc::Global;

// The number of questions by which everything is to be answered.
const MOST_QUESTIONS: u32 = 10_000;

const ALL_STOPPED: &str = "every question stops what is asked";

// Whether this stop is the fault in wait.
fn is_in_wait(stop: Stop<Interrupted>, code: u32) -> Result<(), Wrong> {
    match stop {
        Stop::NoMemory => Err(Wrong::Unmade(Unmade::Memory)),
        Stop::Fault(fault) => must(fault.code == code, "another fault than the one in wait"),
    }
}

// Whether there is an answer, where no other fault than the one in wait stopped it.
fn is_answered<T: Drop>(answer: Result<T, Stop<Interrupted>>, code: u32) -> Result<bool, Wrong> {
    match answer {
        Ok(_) => Ok(true),
        Err(stop) => {
            is_in_wait(stop, code)?;
            Ok(false)
        }
    }
}

// Whether a command is judged by so many questions.
fn is_judged(book: &Book, command: &Command, questions: u32) -> Result<bool, Wrong> {
    match judge_interrupted(book, command, questions, questions) {
        Ok(_) => Ok(true),
        Err(fault) => {
            is_in_wait(Stop::Fault(fault), questions)?;
            Ok(false)
        }
    }
}

// The number of questions by which a command is judged.
fn questions_of_command(book: &Book, command: &Command) -> Result<u32, Wrong> {
    for questions in 0..MOST_QUESTIONS {
        if is_judged(book, command, questions)? {
            return Ok(questions);
        }
    }
    Err(Wrong::Found("a command that is never judged"))
}

// Enters a command that is new.
fn enter_new(book: &mut Book, command: Command) -> Result<(), Wrong> {
    let verdict = Plain { book }.judge(&command);
    match verdict {
        Verdict::New => match book.enter(command) {
            Ok(_) => Ok(()),
            Err(_) => Err(Wrong::Unmade(Unmade::Memory)),
        },
        _ => Err(Wrong::Found("an entry that is not new over those before it")),
    }
}

// Judges each entry of a book over those before it, and once more over them all: the number of questions.
fn questions_of_entries(alloc: Global, whole: &Book) -> Result<u32, Wrong> {
    let mut questions = 0u32;
    let mut before = Book::new(alloc);
    for command in whole.as_slice() {
        let new = questions_of_command(&before, command)?;
        let known = questions_of_command(whole, command)?;
        questions = questions.saturating_add(new).saturating_add(known);
        enter_new(&mut before, command.copy(alloc)?)?;
    }
    Ok(questions)
}

// The number of questions by which a list is made.
fn questions_of_list(alloc: Global, book: &Book, question: &Question) -> Result<u32, Wrong> {
    for n in 0..MOST_QUESTIONS {
        if is_answered(list_interrupted(book, alloc, question, n, n), n)? {
            return Ok(n);
        }
    }
    Err(Wrong::Found("a list that is never made"))
}

// Makes each list of all aircraft: the number of questions.
fn questions_of_all(alloc: Global, book: &Book, day: Day) -> Result<u32, Wrong> {
    let fleet = questions_of_list(alloc, book, &Question::Fleet(day))?;
    let ahead = Question::Outlook {
        day,
        days: 365,
        minutes: 120,
        cycles: 1,
    };
    let outlook = questions_of_list(alloc, book, &ahead)?;
    let aircraft = questions_of_list(alloc, book, &Question::Aircraft)?;
    let components = questions_of_list(alloc, book, &Question::Components)?;
    let deferred = questions_of_list(alloc, book, &Question::Deferred(day))?;
    Ok(
        fleet
            .saturating_add(outlook)
            .saturating_add(aircraft)
            .saturating_add(components)
            .saturating_add(deferred),
    )
}

// Makes each list of an aircraft, and each of all: the number of questions.
fn questions_of_lists(alloc: Global, book: &Book, tail: Tail, day: Day) -> Result<u32, Wrong> {
    let life = questions_of_list(alloc, book, &Question::Life(tail))?;
    let dues = questions_of_list(alloc, book, &Question::Due(tail, day))?;
    let limits = questions_of_list(alloc, book, &Question::Limits(tail, day))?;
    let ahead = Question::Forecast {
        tail,
        day,
        days: 365,
        minutes: 120,
        cycles: 1,
    };
    let forecast = questions_of_list(alloc, book, &ahead)?;
    let all = questions_of_all(alloc, book, day)?;
    Ok(
        life.saturating_add(dues)
            .saturating_add(limits)
            .saturating_add(forecast)
            .saturating_add(all),
    )
}

// Asks everything, which is to take at least so many questions.
fn all_asked(
    alloc: Global,
    book: &Book,
    tail: Tail,
    day: Day,
    at_least: u32,
) -> Result<&'static str, Wrong> {
    let judged = questions_of_entries(alloc, book)?;
    let listed = questions_of_lists(alloc, book, tail, day)?;
    must(
        judged.saturating_add(listed) >= at_least,
        "fewer questions than that",
    )?;
    Ok(ALL_STOPPED)
}

// questions TAIL DAY AT_LEAST: there are at least so many questions, and each stops what is asked.
fn stops_of_questions(
    alloc: Global,
    book: &Book,
    (tail, day, at_least): (&str, &str, &str),
) -> AnswerText {
    let tail = Tail::read(tail)?;
    let day = Day::read(day)?;
    let at_least = at_least.parse::<u32>()?;
    match all_asked(alloc, book, tail, day, at_least) {
        Ok(what) => Ok(String::from_str(alloc, what)?),
        Err(wrong) => wrong_text(alloc, wrong),
    }
}

/// The answer to `questions`, or `None` where that is not the line.
pub(crate) fn answer(alloc: Global, book: &Book, words: &[&str]) -> Result<Option<String>, Unmade> {
    match words {
        ["questions", tail, day, at_least] => Ok(Some(stops_of_questions(
            alloc,
            book,
            (*tail, *day, *at_least),
        )?)),
        _ => Ok(None),
    }
}
