//! Questions on commands that are made and not handed in.

use crate::shown::command_text;
use mx_test_cases::{AnswerText, Unmade, append_word, command_of, yes_or_no};
use std::alloc::Global;

// make COMMAND: the document of the command that is made.
fn make(alloc: Global, words: &[&str]) -> AnswerText {
    let doc = command_of(alloc, words)?.doc();
    let mut text = String::from_str(alloc, "made")?;
    append_word(&mut text, doc.as_str())?;
    Ok(text)
}

// shows COMMAND: what its accessors show.
fn shows(alloc: Global, words: &[&str]) -> AnswerText {
    let command = command_of(alloc, words)?;
    Ok(command_text(alloc, &command)?)
}

// copy COMMAND: whether its copy is the same.
fn copy(alloc: Global, words: &[&str]) -> AnswerText {
    let command = command_of(alloc, words)?;
    let copy = command.copy(alloc)?;
    Ok(yes_or_no(alloc, copy.is_same(&command) && command.is_same(&copy))?)
}

// same COMMAND | COMMAND: whether two commands are the same.
fn same(alloc: Global, words: &[&str]) -> AnswerText {
    let Some(bar) = words.iter().position(|word| *word == "|") else {
        return Err(Unmade::NoSuchLine);
    };
    let one = command_of(alloc, &words[..bar])?;
    let other = command_of(alloc, &words[bar + 1..])?;
    Ok(yes_or_no(alloc, one.is_same(&other))?)
}

/// The answer to a question on commands, or `None` where it is none.
pub fn answer(alloc: Global, words: &[&str]) -> Result<Option<String>, Unmade> {
    let answer = match words {
        ["make", command @ ..] => make(alloc, command),
        ["shows", command @ ..] => shows(alloc, command),
        ["copy", command @ ..] => copy(alloc, command),
        ["same", commands @ ..] => same(alloc, commands),
        _ => return Ok(None),
    };
    Ok(Some(answer?))
}
