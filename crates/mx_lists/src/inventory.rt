//! What there is: all aircraft, and all components, each with its life.
ghost use Rattle.std.specs.List.{filter_map};
ghost use Rattle.mx_book.specs.Reading.{Answers};
ghost use Rattle.mx_lists.specs.Inventory.{aircraft_before, aircraft_with, all_aircraft, all_components, component_before, component_with};
ghost use Rattle.mx_lists.specs.Memory.{Gathers, seen_as};
ghost use Rattle.mx_lists.specs.Ranks.{aircraft_rank, components_rank};

use crate::life_list::life_or_none;
use crate::list_questions::{aircraft_of, clock_of, life_of};
use crate::list_records::ListRecords;
use crate::order::{Placed, Rows, sorted};
use crate::stop::Stop;
use mx_base::{Kind, Moment, Part, Position, Serial, Tail, Use};
use mx_book::commands::Item;
use std::alloc::Global;

/// An aircraft, and what is known of it.
#[derive(Clone, Copy, Debug, PartialEq, Eq)]
pub struct AircraftRow {
    /// Its registration.
    pub tail: Tail,
    /// Its kind.
    pub kind: Kind,
    /// The life of its airframe with all sectors.
    pub life: Use,
    /// The clock of its airframe: the latest moment that is known of it.
    pub clock: Moment,
    /// How many components are fitted to it.
    pub components: usize,
    /// How many of its deferred defects are open.
    pub defects: usize,
}

impl Placed for AircraftRow {
    ghost before = { aircraft_before };

    ghost ranks = { aircraft_rank };

    fn before(&self, other: &AircraftRow) -> bool {
        self.tail < other.tail
    }
}

/// A component, and where it is.
#[derive(Clone, Copy, Debug, PartialEq, Eq)]
pub struct ComponentRow {
    /// Its serial number.
    pub serial: Serial,
    /// The part that it is one of.
    pub part: Part,
    /// Its life with all sectors that it is credited with.
    pub life: Use,
    /// Its clock: the latest moment that is known of it.
    pub clock: Moment,
    /// The registration of the aircraft that it is fitted to, and the position there.
    pub place: Option<(Tail, Position)>,
}

impl Placed for ComponentRow {
    ghost before = { component_before };

    ghost ranks = { components_rank };

    fn before(&self, other: &ComponentRow) -> bool {
        self.serial < other.serial
    }
}

// The aircraft with a registration, and what is known of it.
fn aircraft_with<R: ListRecords>(
    records: &mut R,
    alloc: Global,
    tail: &Tail,
) -> Result<Option<AircraftRow>, Stop<R::Fault>>
    ensures { Gathers R.reading records.old records.new result
        (λ book. aircraft_with book tail.now) }
{
    let Some(aircraft) = aircraft_of(records, tail)? else {
        return Ok(None);
    };
    let airframe = Item::Airframe(*tail);
    let life = life_of(records, &airframe)?;
    let clock = clock_of(records, &airframe)?;
    let components = records.fitted(alloc, tail)?;
    let defects = records.open_defects(alloc, tail)?;
    Ok(Some(AircraftRow {
        tail: *tail,
        kind: aircraft.kind,
        life,
        clock,
        components: components.len(),
        defects: defects.len(),
    }))
}

// The aircraft with these registrations.
fn aircraft_with_all<R: ListRecords>(
    records: &mut R,
    alloc: Global,
    tails: &[Tail],
) -> Result<Vec<AircraftRow>, Stop<R::Fault>>
    ensures { Gathers R.reading records.old records.new (seen_as (λ rows. rows.items) result)
        (λ book. filter_map (aircraft_with book) tails.now) }
{
    let mut rows = Vec::new(alloc);
    let mut rest = tails;
    while let Some((tail, later)) = rest.split_first() {
        if let Some(row) = aircraft_with(records, alloc, tail)? {
            rows.push(row)?;
        }
        rest = later;
    }
    Ok(rows)
}

/// All aircraft, by registration. Or why it stopped: memory ran out, or a question was not answered.
pub fn list_aircraft<R: ListRecords>(
    records: &mut R,
    alloc: Global,
) -> Result<Rows<AircraftRow>, Stop<R::Fault>>
    ensures { Gathers R.reading records.old records.new result (λ book. all_aircraft book) }
{
    let tails = records.tails(alloc)?;
    let aircraft = aircraft_with_all(records, alloc, tails.as_slice())?;
    let rows = sorted(aircraft)?;
    Ok(rows)
}

// The component with a serial number, and where it is.
fn component_found<R: ListRecords>(
    records: &mut R,
    serial: &Serial,
) -> Result<Option<ComponentRow>, R::Fault>
    ensures { Answers R.reading records.old records.new result
        (λ book. component_with book serial.now) }
{
    let Some(component) = records.component(serial)? else {
        return Ok(None);
    };
    let item = Item::Component(*serial);
    let life = records.life(&item)?;
    let clock = records.clock(&item)?;
    let place = records.place(serial)?;
    Ok(Some(ComponentRow {
        serial: *serial,
        part: component.part,
        life: life_or_none(life),
        clock,
        place,
    }))
}

// The same, where memory may run out as well.
fn component_with<R: ListRecords>(
    records: &mut R,
    serial: &Serial,
) -> Result<Option<ComponentRow>, Stop<R::Fault>>
    ensures { Gathers R.reading records.old records.new result
        (λ book. component_with book serial.now) }
{
    match component_found(records, serial) {
        Ok(row) => Ok(row),
        Err(fault) => Err(Stop::Fault(fault)),
    }
}

// The components with these serial numbers.
fn components_with_all<R: ListRecords>(
    records: &mut R,
    alloc: Global,
    serials: &[Serial],
) -> Result<Vec<ComponentRow>, Stop<R::Fault>>
    ensures { Gathers R.reading records.old records.new (seen_as (λ rows. rows.items) result)
        (λ book. filter_map (component_with book) serials.now) }
{
    let mut rows = Vec::new(alloc);
    let mut rest = serials;
    while let Some((serial, later)) = rest.split_first() {
        if let Some(row) = component_with(records, serial)? {
            rows.push(row)?;
        }
        rest = later;
    }
    Ok(rows)
}

/// All components, by serial number. Or why it stopped: memory ran out, or a question was not answered.
pub fn list_components<R: ListRecords>(
    records: &mut R,
    alloc: Global,
) -> Result<Rows<ComponentRow>, Stop<R::Fault>>
    ensures { Gathers R.reading records.old records.new result (λ book. all_components book) }
{
    let serials = records.serials(alloc)?;
    let components = components_with_all(records, alloc, serials.as_slice())?;
    let rows = sorted(components)?;
    Ok(rows)
}
