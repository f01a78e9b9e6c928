//! Questions on identifiers: whether a text is one, and their order.

use mx_base::identifiers::{Alphabet, Identifier};
use mx_base::{BadText, Doc, Kind, MelRef, Part, Position, Serial, Tail, TaskId};
use mx_test_cases::{AnswerText, Unmade, text_of, yes_or_no};
use std::alloc::Global;
use std::cmp::Ordering;

// Whether a text was read as an identifier that is this text.
fn is_read<A: Alphabet, const N: usize>(
    read: Result<Identifier<A, N>, BadText>,
    text: &str,
) -> bool {
    match read {
        Ok(identifier) => identifier.as_str() == text,
        Err(BadText) => false,
    }
}

// Whether a text is an identifier of the kind that is named, or `None` where no kind has that name.
fn is_identifier(name: &str, text: &str) -> Option<bool> {
    Some(match name {
        "tail" => is_read(Tail::read(text), text),
        "kind" => is_read(Kind::read(text), text),
        "serial" => is_read(Serial::read(text), text),
        "part" => is_read(Part::read(text), text),
        "position" => is_read(Position::read(text), text),
        "task" => is_read(TaskId::read(text), text),
        "reference" => is_read(MelRef::read(text), text),
        "doc" => is_read(Doc::read(text), text),
        _ => return None,
    })
}

// order A B: how two part numbers are ordered, where `==` and `<` must agree with it.
fn order(alloc: Global, one: &str, other: &str) -> AnswerText {
    let one = Part::read(one)?;
    let other = Part::read(other)?;
    let sign = match one.cmp(&other) {
        Ordering::Less if one < other && one != other => "<",
        Ordering::Equal if one == other => "=",
        Ordering::Greater if one > other && one != other => ">",
        _ => "in no order",
    };
    Ok(String::from_str(alloc, sign)?)
}

/// The answer to a question on identifiers, or `None` where it is none.
pub fn answer(alloc: Global, words: &[&str]) -> Result<Option<String>, Unmade> {
    match words {
        ["order", one, other] => Ok(Some(order(alloc, one, other)?)),
        [name, word] => {
            let text = text_of(alloc, word)?;
            match is_identifier(name, text.as_str()) {
                Some(is_one) => Ok(Some(yes_or_no(alloc, is_one)?)),
                None => Ok(None),
            }
        }
        _ => Ok(None),
    }
}
