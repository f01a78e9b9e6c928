//! Questions on what is due: bases and dues, and lists of an aircraft or of all.

use crate::tasks::append_limit;
use mx_base::{Base, Kind, Limit, TaskId};
use mx_book::commands::Item;
use mx_book::entry_list::Book;
use mx_plain_book::book_lists::{base_of_item, due_of_item, list_of};
use mx_test_cases::{AnswerText, Unmade, append_number, item_of, listed, number_text, question_of};
use std::alloc::{AllocError, Global};

// MINUTES CYCLES DAY, the day by its number; `none` where nothing was accomplished.
fn base_text(alloc: Global, base: Option<Base>) -> Result<String, AllocError> {
    let Some(base) = base else {
        return String::from_str(alloc, "none");
    };
    let mut text = number_text(alloc, base.minutes)?;
    append_number(&mut text, base.cycles)?;
    append_number(&mut text, base.day)?;
    Ok(text)
}

// base ITEM NAME TASK: the base of the last accomplishment.
fn base(alloc: Global, book: &Book, item: &Item, task: &str) -> AnswerText {
    let task = TaskId::read(task)?;
    Ok(base_text(alloc, base_of_item(book, item, &task))?)
}

// MINUTES/CYCLES/DAY with `-` in a dimension without a due; `none` where nothing is due.
fn limit_text(alloc: Global, due: Option<Limit>) -> Result<String, AllocError> {
    let Some(due) = due else {
        return String::from_str(alloc, "none");
    };
    let mut text = String::new(alloc);
    append_limit(&mut text, &due)?;
    Ok(text)
}

// due-at ITEM NAME KIND TASK: when a task of a kind is due on an item.
fn due(alloc: Global, book: &Book, item: &Item, kind: &str, task: &str) -> AnswerText {
    let kind = Kind::read(kind)?;
    let task = TaskId::read(task)?;
    Ok(limit_text(alloc, due_of_item(book, item, &kind, &task))?)
}

// The lines of the list that words ask for, or `None` where they ask for none.
fn list(alloc: Global, book: &Book, words: &[&str]) -> Result<Option<String>, Unmade> {
    let Some(question) = question_of(words)? else {
        return Ok(None);
    };
    let list = listed(alloc, list_of(book, alloc, &question)?)?;
    Ok(Some(list))
}

/// The answer to a question on what is due, or for a list, or `None` where it is neither.
pub fn answer(alloc: Global, book: &Book, words: &[&str]) -> Result<Option<String>, Unmade> {
    let answer = match words {
        ["base", item, name, task] => base(alloc, book, &item_of(item, name)?, task),
        ["due-at", item, name, kind, task] => {
            due(alloc, book, &item_of(item, name)?, kind, task)
        }
        _ => return list(alloc, book, words),
    };
    Ok(Some(answer?))
}
