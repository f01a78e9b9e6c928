//! The commands that the words of a case name: the form and its parts, each written out.

use crate::programmes::programme_of;
use crate::releases::release_of;
use mx_base::{
    BadText, Category, Day, Doc, Kind, MelRef, Moment, Part, Position, Serial, Tail, TaskId, Use,
};
use mx_book::commands::{Body, Command, Item, MakeFault};
use mx_book::entry_list::NoMemory;
use std::alloc::{AllocError, AllocFailed, Global};
use std::num::ParseIntError;

/// Why words name nothing that can be made or asked.
#[derive(Clone, Copy, Debug, PartialEq, Eq)]
pub enum Unmade {
    /// The words have no known form.
    NoSuchLine,
    /// A word is not the identifier, day, moment or number that its place wants.
    Unread,
    /// What is written lacks the shape of a command.
    BadShape,
    /// Memory ran out.
    Memory,
}

/// What a line of a player is answered: its text, or why there is none.
pub type AnswerText = Result<String, Unmade>;

impl From<AllocError> for Unmade {
    fn from(_error: AllocError) -> Unmade {
        Unmade::Memory
    }
}

impl<T: Drop> From<AllocFailed<T>> for Unmade {
    fn from(_error: AllocFailed<T>) -> Unmade {
        Unmade::Memory
    }
}

impl From<NoMemory> for Unmade {
    fn from(_error: NoMemory) -> Unmade {
        Unmade::Memory
    }
}

impl From<BadText> for Unmade {
    fn from(_error: BadText) -> Unmade {
        Unmade::Unread
    }
}

impl From<ParseIntError> for Unmade {
    fn from(_error: ParseIntError) -> Unmade {
        Unmade::Unread
    }
}

impl From<MakeFault> for Unmade {
    fn from(fault: MakeFault) -> Unmade {
        match fault {
            MakeFault::Memory => Unmade::Memory,
            MakeFault::BadShape => Unmade::BadShape,
        }
    }
}

/// A use of so many minutes and cycles.
pub fn use_of(minutes: &str, cycles: &str) -> Result<Use, Unmade> {
    let minutes = minutes.parse::<u32>()?;
    let cycles = cycles.parse::<u32>()?;
    Ok(Use { minutes, cycles })
}

// Positions, each written as POSITION=PART.
fn positions_of(alloc: Global, places: &[&str]) -> Result<Vec<(Position, Part)>, Unmade> {
    let mut positions = Vec::new(alloc);
    for place in places {
        let Some((position, part)) = place.split_once('=') else {
            return Err(Unmade::Unread);
        };
        let place = (Position::read(position)?, Part::read(part)?);
        positions.push(place)?;
    }
    Ok(positions)
}

// TAIL KIND BIRTH MINUTES CYCLES AS_OF [POSITION=PART ..]
fn aircraft_of(alloc: Global, parts: &[&str]) -> Result<Body, Unmade> {
    let [tail, kind, birth, minutes, cycles, as_of, places @ ..] = parts else {
        return Err(Unmade::NoSuchLine);
    };
    Ok(Body::AddAircraft {
        tail: Tail::read(tail)?,
        kind: Kind::read(kind)?,
        birth: Day::read(birth)?,
        opening: use_of(minutes, cycles)?,
        as_of: Moment::read(as_of)?,
        positions: positions_of(alloc, places)?,
    })
}

// SERIAL PART BIRTH MINUTES CYCLES AS_OF
fn component_of(parts: &[&str]) -> Result<Body, Unmade> {
    let [serial, part, birth, minutes, cycles, as_of] = parts else {
        return Err(Unmade::NoSuchLine);
    };
    Ok(Body::AddComponent {
        serial: Serial::read(serial)?,
        part: Part::read(part)?,
        birth: Day::read(birth)?,
        opening: use_of(minutes, cycles)?,
        as_of: Moment::read(as_of)?,
    })
}

/// The item that two words name: `airframe TAIL`, or `component SERIAL`.
pub fn item_of(word: &str, name: &str) -> Result<Item, Unmade> {
    match word {
        "airframe" => Ok(Item::Airframe(Tail::read(name)?)),
        "component" => Ok(Item::Component(Serial::read(name)?)),
        _ => Err(Unmade::NoSuchLine),
    }
}

// airframe TAIL KIND TASK MINUTES CYCLES DAY, or component SERIAL KIND TASK MINUTES CYCLES DAY
fn opening_of(parts: &[&str]) -> Result<Body, Unmade> {
    let [item, name, kind, task, minutes, cycles, day] = parts else {
        return Err(Unmade::NoSuchLine);
    };
    Ok(Body::Opening {
        item: item_of(item, name)?,
        kind: Kind::read(kind)?,
        task: TaskId::read(task)?,
        use_then: use_of(minutes, cycles)?,
        day: Day::read(day)?,
    })
}

// TAIL PAGE LINE OFF ON CYCLES
fn sector_of(parts: &[&str]) -> Result<Body, Unmade> {
    let [tail, page, line, off, on, cycles] = parts else {
        return Err(Unmade::NoSuchLine);
    };
    Ok(Body::Sector {
        tail: Tail::read(tail)?,
        page: page.parse::<u32>()?,
        line: line.parse::<u32>()?,
        off: Moment::read(off)?,
        on: Moment::read(on)?,
        cycles: cycles.parse::<u32>()?,
    })
}

// SERIAL TAIL POSITION MOMENT
fn fitting_of(parts: &[&str]) -> Result<Body, Unmade> {
    let [serial, tail, position, moment] = parts else {
        return Err(Unmade::NoSuchLine);
    };
    Ok(Body::Fit {
        serial: Serial::read(serial)?,
        tail: Tail::read(tail)?,
        position: Position::read(position)?,
        moment: Moment::read(moment)?,
    })
}

// SERIAL MOMENT
fn removal_of(parts: &[&str]) -> Result<Body, Unmade> {
    let [serial, moment] = parts else {
        return Err(Unmade::NoSuchLine);
    };
    Ok(Body::Remove {
        serial: Serial::read(serial)?,
        moment: Moment::read(moment)?,
    })
}

// A DAYS, B, C or D
fn category_of(words: &[&str]) -> Result<Category, Unmade> {
    match words {
        ["A", days] => Ok(Category::A(days.parse::<u32>()?)),
        ["B"] => Ok(Category::B),
        ["C"] => Ok(Category::C),
        ["D"] => Ok(Category::D),
        _ => Err(Unmade::NoSuchLine),
    }
}

// TAIL MOMENT REFERENCE CATEGORY
fn deferral_of(parts: &[&str]) -> Result<Body, Unmade> {
    let [tail, moment, reference, category @ ..] = parts else {
        return Err(Unmade::NoSuchLine);
    };
    Ok(Body::Defer {
        tail: Tail::read(tail)?,
        moment: Moment::read(moment)?,
        reference: MelRef::read(reference)?,
        category: category_of(category)?,
    })
}

// DEFECT DAY DAYS
fn extension_of(parts: &[&str]) -> Result<Body, Unmade> {
    let [defect, day, days] = parts else {
        return Err(Unmade::NoSuchLine);
    };
    Ok(Body::Extend {
        defect: Doc::read(defect)?,
        day: Day::read(day)?,
        days: days.parse::<u32>()?,
    })
}

/// What a command says, by its form and the parts behind it, without a document. The forms are
/// `aircraft TAIL KIND BIRTH MINUTES CYCLES AS_OF [POSITION=PART ..]`,
/// `component SERIAL PART BIRTH MINUTES CYCLES AS_OF`, `programme KIND REVISION [TASK ..]` with tasks as `programme_of`
/// reads them, `opening airframe TAIL KIND TASK MINUTES CYCLES DAY` and `opening component SERIAL ..` alike, `sector TAIL
/// PAGE LINE OFF ON CYCLES`, `fit SERIAL TAIL POSITION MOMENT`, `remove SERIAL MOMENT`, `release ..` as `release_of`
/// reads it, `defer TAIL MOMENT REFERENCE CATEGORY` with a category `A DAYS`, `B`, `C` or `D`, and `extend DEFECT DAY
/// DAYS`.
pub fn body_of(alloc: Global, form: &str, parts: &[&str]) -> Result<Body, Unmade> {
    match form {
        "aircraft" => aircraft_of(alloc, parts),
        "component" => component_of(parts),
        "programme" => programme_of(alloc, parts),
        "opening" => opening_of(parts),
        "sector" => sector_of(parts),
        "fit" => fitting_of(parts),
        "remove" => removal_of(parts),
        "release" => release_of(alloc, parts),
        "defer" => deferral_of(parts),
        "extend" => extension_of(parts),
        _ => Err(Unmade::NoSuchLine),
    }
}

// The command of a document and what it says.
fn with_document(
    alloc: Global,
    document: &str,
    form: &str,
    parts: &[&str],
) -> Result<Command, Unmade> {
    let doc = Doc::read(document)?;
    let body = body_of(alloc, form, parts)?;
    Ok(Command::make(alloc, doc, body)?)
}

// The command that makes its own document, as a sector does.
fn with_own_document(alloc: Global, form: &str, parts: &[&str]) -> Result<Command, Unmade> {
    let body = body_of(alloc, form, parts)?;
    Ok(Command::sector(alloc, body)?)
}

/// The command that words name: `FORM DOC ..` with the parts that `body_of` reads, as `fit F1 E1 D-ABCD ENG
/// 2024-02-01T00:00`; for a sector `sector ..` alone, which makes its own document; `as DOC FORM ..` for any
/// form, also a sector, with a document; `own FORM ..` for a form that is to make its own document.
pub fn command_of(alloc: Global, words: &[&str]) -> Result<Command, Unmade> {
    match words {
        ["sector", parts @ ..] => with_own_document(alloc, "sector", parts),
        ["own", form, parts @ ..] => with_own_document(alloc, form, parts),
        ["as", document, form, parts @ ..] => with_document(alloc, document, form, parts),
        [form, document, parts @ ..] => with_document(alloc, document, form, parts),
        _ => Err(Unmade::NoSuchLine),
    }
}
