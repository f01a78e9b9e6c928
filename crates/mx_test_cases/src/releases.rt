//! Releases in the words of a case: each line is one word.

use crate::commands::{Unmade, item_of};
use mx_base::{Doc, Kind, Moment, Serial, Tail, TaskId};
use mx_book::commands::{Body, Item, Line, Place};
use std::alloc::Global;

// airframe:TAIL=TASK, or component:SERIAL=TASK
fn done_of(word: &str) -> Result<Line, Unmade> {
    let Some((item, task)) = word.split_once('=') else {
        return Err(Unmade::Unread);
    };
    let Some((kind, name)) = item.split_once(':') else {
        return Err(Unmade::Unread);
    };
    Ok(Line::Done(item_of(kind, name)?, TaskId::read(task)?))
}

// defect:DOC, or a task that was done
fn line_of(word: &str) -> Result<Line, Unmade> {
    match word.strip_prefix("defect:") {
        Some(doc) => Ok(Line::Rectified(Doc::read(doc)?)),
        None => done_of(word),
    }
}

fn lines_of(alloc: Global, words: &[&str]) -> Result<Vec<Line>, Unmade> {
    // The checker proves this loop only where the type of each field of a line is named in the function.
    let _: Option<Item> = None;
    let mut lines = Vec::new(alloc);
    for word in words {
        let line = line_of(word)?;
        lines.push(line)?;
    }
    Ok(lines)
}

// The release at a place.
fn release_at(alloc: Global, place: Place, moment: &str, lines: &[&str]) -> Result<Body, Unmade> {
    Ok(Body::Release {
        place,
        moment: Moment::read(moment)?,
        lines: lines_of(alloc, lines)?,
    })
}

/// A release: `aircraft TAIL MOMENT [LINE ..]`, or `shop SERIAL KIND MOMENT [LINE ..]`. A line is `airframe:TAIL=TASK`,
/// `component:SERIAL=TASK` or `defect:DOC`.
pub(crate) fn release_of(alloc: Global, parts: &[&str]) -> Result<Body, Unmade> {
    match parts {
        ["aircraft", tail, moment, lines @ ..] => {
            release_at(alloc, Place::Aircraft(Tail::read(tail)?), moment, lines)
        }
        ["shop", serial, kind, moment, lines @ ..] => {
            let place = Place::Shop(Serial::read(serial)?, Kind::read(kind)?);
            release_at(alloc, place, moment, lines)
        }
        _ => Err(Unmade::NoSuchLine),
    }
}
