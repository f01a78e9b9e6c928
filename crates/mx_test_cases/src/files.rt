//! Files of cases: a case is a line `QUESTION => ANSWER`. Blank lines and lines that begin with `#` are passed
//! over.

use crate::playing::{Plays, answered};
use std::alloc::{AllocError, Global};

/// How many cases were played, and how many of them were not answered as written.
#[derive(Clone, Copy, Debug, PartialEq, Eq)]
pub struct Played {
    pub lines: u32,
    pub differing: u32,
}

impl Played {
    /// No case.
    pub const NONE: Played = Played {
        lines: 0,
        differing: 0,
    };

    /// These cases and others.
    pub fn and(self, others: Played) -> Played {
        Played {
            lines: self.lines.saturating_add(others.lines),
            differing: self.differing.saturating_add(others.differing),
        }
    }

    /// The same cases where each was to differ: those that didn't are counted.
    pub fn inverted(self) -> Played {
        Played {
            lines: self.lines,
            differing: self.lines.saturating_sub(self.differing),
        }
    }

    // One case, answered as written or otherwise.
    fn one(is_as_written: bool) -> Played {
        Played {
            lines: 1,
            differing: if is_as_written { 0 } else { 1 },
        }
    }
}

// A line of a file, counted from 1.
#[derive(Clone, Copy)]
struct Place<'a> {
    name: &'a str,
    number: u32,
}

// Appends a line that is no case.
fn report_no_case(out: &mut String, place: &Place<'_>, line: &str) -> Result<(), AllocError> {
    let name = place.name;
    let number = place.number;
    write!(out, "{name}:{number}: {line}\n  no answer is written\n")
}

// Appends a case that was answered otherwise.
fn report_case(
    out: &mut String,
    place: &Place<'_>,
    case: (&str, &str),
    answer: &str,
) -> Result<(), AllocError> {
    let name = place.name;
    let number = place.number;
    let (question, written) = case;
    write!(
        out,
        "{name}:{number}: {question}\n  written: {written}\n  answered: {answer}\n"
    )
}

// Plays a line that is to be a case, and whether it was answered as written.
fn is_as_written<P: Plays>(
    alloc: Global,
    place: &Place<'_>,
    line: &str,
    player: &mut P,
    out: &mut String,
) -> Result<bool, AllocError> {
    let Some((question, written)) = line.split_once(" => ") else {
        report_no_case(out, place, line)?;
        return Ok(false);
    };
    let written = written.trim();
    let answer = answered(alloc, question, player)?;
    if answer.as_str() == written {
        return Ok(true);
    }
    report_case(out, place, (question, written), answer.as_str())?;
    Ok(false)
}

fn is_passed_over(line: &str) -> bool {
    line.is_empty() || line.starts_with('#')
}

/// Plays the cases of the text of a file, and appends those that were not answered as written, each with its
/// line. An error where memory runs out twice at one question, or for what is appended.
pub fn play_file<P: Plays>(
    alloc: Global,
    name: &str,
    text: &str,
    player: &mut P,
    out: &mut String,
) -> Result<Played, AllocError> {
    let mut played = Played::NONE;
    let mut number = 0u32;
    for line in text.lines() {
        number = number.saturating_add(1);
        let line = line.trim();
        if is_passed_over(line) {
            continue;
        }
        let place = Place { name, number };
        let is_right = is_as_written(alloc, &place, line, player, out)?;
        played = played.and(Played::one(is_right));
    }
    Ok(played)
}
