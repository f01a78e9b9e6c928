//! The life list of an aircraft: what is fitted to it, and the lives.
//!
//! A part of it is a struct with names (`FittedPart`), as a row of a forecast is, where a tuple would be read by its
//! places.
ghost use Rattle.std.specs.List.{filter_map};
ghost use Rattle.mx_book.specs.Reading.{Answers};
ghost use Rattle.mx_lists.specs.Fitted.{part_of_place};
ghost use Rattle.mx_lists.specs.LifeList.{life_list, part_in, part_before, parts};
ghost use Rattle.mx_lists.specs.Memory.{Gathers, seen_as};
ghost use Rattle.mx_lists.specs.Ranks.{parts_rank};

use crate::list_questions::{aircraft_of, life_of};
use crate::list_records::ListRecords;
use crate::order::{Placed, Rows, sorted};
use crate::stop::Stop;
use mx_base::{Kind, Part, Position, Serial, Tail, Use};
use mx_book::commands::Item;
pub use mx_book::found::life_or_none;
use std::alloc::Global;

/// A component in a position of an aircraft, with its life.
#[derive(Clone, Copy, Debug, PartialEq, Eq)]
pub struct FittedPart {
    /// The position of the aircraft.
    pub position: Position,
    /// The serial number of the component.
    pub serial: Serial,
    /// The part that it is one of.
    pub part: Part,
    /// Its life with all sectors that it is credited with.
    pub life: Use,
}

impl Placed for FittedPart {
    ghost before = { part_before };

    ghost ranks = { parts_rank };

    fn before(&self, other: &FittedPart) -> bool {
        self.position < other.position
    }
}

/// The life of an aircraft's airframe, and that of each component fitted to it.
#[derive(Debug, Drop, PartialEq, Eq)]
pub struct LifeList {
    /// The registration of the aircraft.
    pub tail: Tail,
    /// Its kind.
    pub kind: Kind,
    /// The life of its airframe with all sectors.
    pub life: Use,
    /// The components fitted to it, by position.
    pub parts: Rows<FittedPart>,
}

// The component in a position, with its life, where it is known.
fn part_with_life<R: ListRecords>(
    records: &mut R,
    position: &Position,
    serial: &Serial,
) -> Result<Option<FittedPart>, R::Fault>
    ensures { Answers R.reading records.old records.new result
        (λ book. part_in book position.now serial.now) }
{
    let Some(component) = records.component(serial)? else {
        return Ok(None);
    };
    let life = records.life(&Item::Component(*serial))?;
    Ok(Some(FittedPart {
        position: *position,
        serial: *serial,
        part: component.part,
        life: life_or_none(life),
    }))
}

// The component in a place, with its life, where it is known.
fn part_in_place<R: ListRecords>(
    records: &mut R,
    place: &(Position, Serial),
) -> Result<Option<FittedPart>, Stop<R::Fault>>
    ensures { Gathers R.reading records.old records.new result
        (λ book. part_of_place book place.now) }
{
    match part_with_life(records, &place.0, &place.1) {
        Ok(part) => Ok(part),
        Err(fault) => Err(Stop::Fault(fault)),
    }
}

// The components in these places, each with its life.
fn parts_in_places<R: ListRecords>(
    records: &mut R,
    alloc: Global,
    places: &[(Position, Serial)],
) -> Result<Vec<FittedPart>, Stop<R::Fault>>
    ensures { Gathers R.reading records.old records.new (seen_as (λ parts. parts.items) result)
        (λ book. filter_map (part_of_place book) places.now) }
{
    let mut parts = Vec::new(alloc);
    let mut rest = places;
    while let Some((place, later)) = rest.split_first() {
        if let Some(part) = part_in_place(records, place)? {
            parts.push(part)?;
        }
        rest = later;
    }
    Ok(parts)
}

/// The components that are fitted to an aircraft, by position, each with its life.
pub(crate) fn parts_by_position<R: ListRecords>(
    records: &mut R,
    alloc: Global,
    tail: &Tail,
) -> Result<Rows<FittedPart>, Stop<R::Fault>>
    ensures { Gathers R.reading records.old records.new result (λ book. parts book tail.now) }
{
    let places = records.fitted(alloc, tail)?;
    let parts = parts_in_places(records, alloc, places.as_slice())?;
    let rows = sorted(parts)?;
    Ok(rows)
}

/// The life list of an aircraft, or `None` where the registration is unknown. Or why it stopped: memory ran out, or a
/// question was not answered.
pub fn list_lives<R: ListRecords>(
    records: &mut R,
    alloc: Global,
    tail: &Tail,
) -> Result<Option<LifeList>, Stop<R::Fault>>
    ensures { Gathers R.reading records.old records.new result (λ book. life_list book tail.now) }
{
    let Some(aircraft) = aircraft_of(records, tail)? else {
        return Ok(None);
    };
    let parts = parts_by_position(records, alloc, tail)?;
    let life = life_of(records, &Item::Airframe(*tail))?;
    Ok(Some(LifeList {
        tail: *tail,
        kind: aircraft.kind,
        life,
        parts,
    }))
}
