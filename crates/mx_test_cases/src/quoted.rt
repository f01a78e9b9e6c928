//! Words in quotes: texts that are no words, since they are empty, have spaces or have characters that don't
//! print.

use std::alloc::{AllocError, Global};

// The character that a piece behind a backslash begins with, and the rest of the piece.
fn escaped(piece: &str) -> Option<(char, &str)> {
    if let Some(rest) = piece.strip_prefix('s') {
        return Some((' ', rest));
    }
    if let Some(rest) = piece.strip_prefix('t') {
        return Some(('\t', rest));
    }
    let (code, rest) = piece.strip_prefix("u{")?.split_once('}')?;
    let code = u32::from_str_radix(code, 16).ok()?;
    Some((char::from_u32(code)?, rest))
}

// Appends a piece behind a backslash. One that begins with no known escape is appended as it stands.
fn append_piece(text: &mut String, piece: &str) -> Result<(), AllocError> {
    match escaped(piece) {
        Some((character, rest)) => {
            text.push(character)?;
            text.push_str(rest)
        }
        None => text.push_str(piece),
    }
}

// What stands between quotes, with its escapes read.
fn unescaped(alloc: Global, inner: &str) -> Result<String, AllocError> {
    let mut text = String::new(alloc);
    let mut pieces = inner.split('\\');
    if let Some(first) = pieces.next() {
        text.push_str(first)?;
    }
    for piece in pieces {
        append_piece(&mut text, piece)?;
    }
    Ok(text)
}

fn between_quotes(word: &str) -> Option<&str> {
    word.strip_prefix('"')?.strip_suffix('"')
}

/// The text that a word stands for: the word itself, or what stands between its quotes, where `\s` is a space,
/// `\t` a tab and `\u{7f}` the character with that number.
pub fn text_of(alloc: Global, word: &str) -> Result<String, AllocError> {
    match between_quotes(word) {
        Some(inner) => unescaped(alloc, inner),
        None => String::from_str(alloc, word),
    }
}
