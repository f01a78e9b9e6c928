//! Answers as text, each one line.

use crate::commands::{AnswerText, Unmade};
use mx_book::commands::Command;
use mx_book::{Reply, Verdict};
use mx_reports::{Text, append_whole, reply_text};
use std::alloc::{AllocError, Global};
use std::{slice, str};

/// What a question was answered, where a question that can't be asked is answered by why.
pub fn answer_of(alloc: Global, answer: AnswerText) -> Result<String, AllocError> {
    match answer {
        Ok(text) => Ok(text),
        Err(Unmade::NoSuchLine) => String::from_str(alloc, "no such line"),
        Err(Unmade::Unread) => String::from_str(alloc, "unread"),
        Err(Unmade::BadShape) => String::from_str(alloc, "bad shape"),
        Err(Unmade::Memory) => Err(AllocError),
    }
}

/// `yes` or `no`.
pub fn yes_or_no(alloc: Global, is_so: bool) -> Result<String, AllocError> {
    String::from_str(alloc, if is_so { "yes" } else { "no" })
}

/// Appends a part of an answer, behind ` / ` where there is something before it.
pub fn append_joined(out: &mut String, part: &str) -> Result<(), AllocError> {
    if !out.is_empty() {
        out.push_str(" / ")?;
    }
    out.push_str(part)
}

/// The text, or `none` where it is empty.
pub fn or_none(text: String) -> Result<String, AllocError> {
    let mut text = text;
    if text.is_empty() {
        text.push_str("none")?;
    }
    Ok(text)
}

/// The documents of commands, joined by ` / `; `none` where there is no command.
pub fn documents(alloc: Global, commands: &[Command]) -> Result<String, AllocError> {
    let mut text = String::new(alloc);
    for command in commands {
        append_joined(&mut text, command.doc().as_str())?;
    }
    or_none(text)
}

/// Appends the lines of a printed text, joined by ` / `, behind ` / ` where there is something before them.
pub fn append_lines(out: &mut String, text: &[u8]) -> Result<(), AllocError> {
    let Ok(text) = str::from_utf8(text) else {
        return append_joined(out, "no text");
    };
    for line in text.lines() {
        append_joined(out, line)?;
    }
    Ok(())
}

/// The lines of a printed text, joined by ` / `.
pub fn joined_lines(alloc: Global, text: &[u8]) -> Result<String, AllocError> {
    let mut joined = String::new(alloc);
    append_lines(&mut joined, text)?;
    Ok(joined)
}

/// A vector with a byte that a printer is to leave in front of what it appends.
pub fn begin_print(alloc: Global) -> Result<Vec<u8>, AllocError> {
    Vec::from_slice(alloc, b"=")
}

/// What a printer appended to the vector of `begin_print`, as one line, where `done` is what it answered. Where
/// it found no memory the vector must be as it was.
pub fn printed(
    alloc: Global,
    out: &Vec<u8>,
    done: Result<(), AllocError>,
) -> Result<String, AllocError> {
    match (done, out.as_slice()) {
        (Ok(()), [b'=', text @ ..]) => joined_lines(alloc, text),
        (Err(no_memory), [b'=']) => Err(no_memory),
        _ => String::from_str(alloc, "what was there before changed"),
    }
}

/// The lines of a list as one line, or `unknown` where there is no list.
pub fn listed<T: Text + Drop>(alloc: Global, list: Option<T>) -> Result<String, AllocError> {
    let Some(list) = list else {
        return String::from_str(alloc, "unknown");
    };
    let mut out = begin_print(alloc)?;
    let done = append_whole(&mut out, &list);
    printed(alloc, &out, done)
}

/// `new`, `already N`, or `refused N` with what the refusal carries.
pub fn verdict_text(alloc: Global, verdict: &Verdict) -> Result<String, AllocError> {
    let reply = match verdict {
        Verdict::New => return String::from_str(alloc, "new"),
        Verdict::Already(seq) => Reply::Already(*seq),
        Verdict::Refused(refusal) => Reply::Refused(*refusal),
    };
    let mut out = begin_print(alloc)?;
    let done = reply_text(&mut out, &reply);
    printed(alloc, &out, done)
}

/// Room for the text of a reply. It is taken before a command is handed in, so that nothing that was done is
/// left without its answer.
pub fn room_for_reply(alloc: Global) -> Result<Vec<u8>, AllocError> {
    Vec::with_capacity(alloc, 64)
}

/// Room for the replies to so many commands.
pub fn room_for_replies(alloc: Global, count: usize) -> Result<Vec<u8>, AllocError> {
    Vec::with_capacity(alloc, count.saturating_add(2).saturating_mul(64))
}

/// Appends the text of a reply, behind ` / ` where there is something before it.
pub fn append_reply(out: &mut Vec<u8>, reply: &Reply) -> Result<(), AllocError> {
    if !out.is_empty() {
        out.extend_from_slice(b" / ")?;
    }
    reply_text(out, reply)?;
    // The end of its line.
    out.pop();
    Ok(())
}

/// The text that the room holds, and behind it the replies, joined by ` / `. Where the room is for as many, it takes no
/// more memory.
pub fn replies_in(alloc: Global, room: Vec<u8>, replies: &[Reply]) -> Result<String, AllocError> {
    let mut text = room;
    for reply in replies {
        append_reply(&mut text, reply)?;
    }
    match String::from_utf8(text) {
        Ok(text) => Ok(text),
        Err(_) => Ok(String::new(alloc)),
    }
}

/// The text of a reply without its line end, `accepted N`, `already N`, or `refused N` with what the refusal
/// carries. It takes no memory beside the room.
pub fn reply_in(room: Vec<u8>, alloc: Global, reply: &Reply) -> Result<String, AllocError> {
    replies_in(alloc, room, slice::from_ref(reply))
}

/// Appends a word, with a space in front where there is text that doesn't end in one.
pub fn append_word(text: &mut String, word: &str) -> Result<(), AllocError> {
    if !text.is_empty() && !text.ends_with(' ') {
        text.push(' ')?;
    }
    text.push_str(word)
}

/// Appends a number as a word.
pub fn append_number(text: &mut String, number: u32) -> Result<(), AllocError> {
    append_word(text, "")?;
    write!(text, "{number}")
}

/// A number as text.
pub fn number_text(alloc: Global, number: u32) -> Result<String, AllocError> {
    let mut text = String::new(alloc);
    append_number(&mut text, number)?;
    Ok(text)
}
