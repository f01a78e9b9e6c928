//! Questions on deferred defects: which are open.

use mx_base::Tail;
use mx_book::entry_list::Book;
use mx_plain_book::Plain;
use mx_test_cases::{AnswerText, Unmade, append_joined, or_none};
use std::alloc::Global;

// open-defects TAIL: the documents of the open defects, in the order of their entries.
fn open_defects(alloc: Global, book: &Book, tail: &str) -> AnswerText {
    let mut text = String::new(alloc);
    let tail = Tail::read(tail)?;
    let defects = Plain { book }.open_defects(alloc, &tail)?;
    for defect in defects.iter() {
        append_joined(&mut text, defect.doc.as_str())?;
    }
    Ok(or_none(text)?)
}

/// The answer to a question on deferred defects, or `None` where it is none.
pub fn answer(alloc: Global, book: &Book, words: &[&str]) -> Result<Option<String>, Unmade> {
    let answer = match words {
        ["open-defects", tail] => open_defects(alloc, book, tail),
        _ => return Ok(None),
    };
    Ok(Some(answer?))
}
