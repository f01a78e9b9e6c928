//! The lists of all aircraft in one: what is due on them, what will be, and the limits of their open defects.
ghost use Rattle.std.specs.Prelude.{◌≡◌, ◌++◌, List, filter, map, IfOk};
ghost use Rattle.std.specs.List.{filter_map, flat_map};
ghost use Rattle.mx_book.specs.commands.Act.{Entry};
ghost use Rattle.mx_book.specs.Defect.{days_extended};
ghost use Rattle.mx_lists.specs.DueList.{rows_placed};
ghost use Rattle.mx_lists.specs.DueRow.{row_before};
ghost use Rattle.mx_lists.specs.Fleet.{all_open, deferred, deferred_row, fleet, is_on, outlook, rows_among, rows_of_all, rows_of_one, tails_by_text};
ghost use Rattle.mx_lists.specs.Forecast.{forecast_row, sooner};
ghost use Rattle.mx_lists.specs.Memory.{Gathers, seen_as};
ghost use Rattle.mx_lists.specs.Order.{in_order};

use crate::due_lists::rows_due;
use crate::due_row::DueRow;
use crate::fleet_row::{FleetRow, append_with_tail};
use crate::forecast::{Ahead, ForecastRow, rows_reached};
use crate::limit_list::{LimitRow, limit_of_defect};
use crate::list_questions::{aircraft_of, days_of_extension};
use crate::list_records::ListRecords;
use crate::order::{Placed, Rows, sorted};
use crate::stop::Stop;
use mx_base::{Day, Kind, Tail};
use mx_book::Defect;
use std::alloc::{AllocError, Global};

/// What is due on all aircraft: the overdue first, then the due, then the others, each by registration and then in the order
/// of the aircraft's own list.
#[derive(Debug, Drop, PartialEq, Eq)]
pub struct FleetList {
    /// The day that the list is for.
    pub day: Day,
    /// What is due.
    pub rows: Rows<FleetRow<DueRow>>,
}

/// What is due on all aircraft, and when it will be: by the number of days, then by registration, and then in the order of
/// the aircraft's own forecast.
#[derive(Debug, Drop, PartialEq, Eq)]
pub struct OutlookList {
    /// The day that the outlook is from.
    pub day: Day,
    /// The days that it looks ahead.
    pub days: u32,
    /// The minutes that each aircraft is flown a day.
    pub minutes: u32,
    /// The cycles that each is flown a day.
    pub cycles: u32,
    /// What is reached within these days.
    pub rows: Rows<FleetRow<ForecastRow>>,
}

/// The open defects of all aircraft on a day, by their last days.
#[derive(Debug, Drop, PartialEq, Eq)]
pub struct DeferredList {
    /// The day that the list is for.
    pub day: Day,
    /// The open defects; those of one last day in the order of their entries.
    pub rows: Rows<FleetRow<LimitRow>>,
}

// What is asked of each aircraft for a list of all.
trait OfEach {
    ghost use Rattle.std.specs.Prelude.{List, ℕ};
    ghost use Rattle.mx_book.specs.commands.Act.{Entry};
    ghost use Rattle.mx_book.specs.declared.defects.Defect.{Defect};

    type Row: Placed;

    ghost rows_of: { Self → List Entry → List ℕ → List ℕ → List Defect → List Self.Row };

    // Its rows of an aircraft of this kind, which has these open defects.
    fn rows_of<R: ListRecords>(
        &self,
        records: &mut R,
        alloc: Global,
        tail: &Tail,
        kind: &Kind,
        defects: &[Defect],
    ) -> Result<Rows<Self::Row>, Stop<R::Fault>>
        ensures { Gathers R.reading records.old records.new result
            (λ book. rows_of self.now book tail.now kind.now defects.now) };
}

// What is due on a day.
#[derive(Clone, Copy)]
struct DueOn(Day);

impl OfEach for DueOn {
    type Row = DueRow;

    ghost rows_of = { λ asked book tail kind defects.
        in_order row_before (rows_placed book tail kind asked.0 defects) };

    fn rows_of<R: ListRecords>(
        &self,
        records: &mut R,
        alloc: Global,
        tail: &Tail,
        kind: &Kind,
        defects: &[Defect],
    ) -> Result<Rows<DueRow>, Stop<R::Fault>> {
        rows_due(records, alloc, tail, kind, self.0, defects)
    }
}

// What will be due so far ahead.
impl OfEach for Ahead {
    type Row = ForecastRow;

    ghost rows_of = { λ asked book tail kind defects.
        in_order sooner (filter_map
        (forecast_row asked.day asked.days asked.minutes asked.cycles)
        (rows_placed book tail kind asked.day defects)) };

    fn rows_of<R: ListRecords>(
        &self,
        records: &mut R,
        alloc: Global,
        tail: &Tail,
        kind: &Kind,
        defects: &[Defect],
    ) -> Result<Rows<ForecastRow>, Stop<R::Fault>> {
        rows_reached(records, alloc, tail, kind, self, defects)
    }
}

// Those of some defects that are of an aircraft, in their order.
fn defects_on(alloc: Global, defects: &[Defect], tail: &Tail) -> Result<Vec<Defect>, AllocError>
    ensures { IfOk result (λ own. own.items ≡ filter (is_on tail.now) defects.now) }
{
    defects
        .iter()
        .filter(|defect| defect.deferral.tail == *tail)
        .copied()
        .collect(alloc)
}

// The rows of an aircraft, by those of these defects that are its own, and none where the registration is unknown.
fn rows_of_aircraft<R: ListRecords, A: OfEach>(
    records: &mut R,
    alloc: Global,
    asked: &A,
    defects: &[Defect],
    tail: &Tail,
) -> Result<Rows<A::Row>, Stop<R::Fault>>
    ensures { Gathers R.reading records.old records.new result
        (λ book. rows_among (A.rows_of asked.now book) book defects.now tail.now) }
{
    let Some(aircraft) = aircraft_of(records, tail)? else {
        return Ok(Rows::new(Vec::new(alloc)));
    };
    let own = defects_on(alloc, defects, tail)?;
    asked.rows_of(records, alloc, tail, &aircraft.kind, own.as_slice())
}

// Appends the rows of an aircraft, each with its registration.
fn append_of<R: ListRecords, A: OfEach>(
    rows: &mut Vec<FleetRow<A::Row>>,
    records: &mut R,
    alloc: Global,
    asked: &A,
    defects: &[Defect],
    tail: &Tail,
) -> Result<(), Stop<R::Fault>>
    ensures { Gathers R.reading records.old records.new (seen_as (λ _. rows.new.items) result)
        (λ book. rows.old.items
        ++ rows_of_one (rows_among (A.rows_of asked.now book) book defects.now) tail.now) }
{
    let of_aircraft = rows_of_aircraft(records, alloc, asked, defects, tail)?;
    append_with_tail(rows, tail, of_aircraft.as_slice())?;
    Ok(())
}

// The rows of these aircraft, one after the other.
fn rows_of_these<R: ListRecords, A: OfEach>(
    records: &mut R,
    alloc: Global,
    asked: &A,
    defects: &[Defect],
    tails: &[Tail],
) -> Result<Vec<FleetRow<A::Row>>, Stop<R::Fault>>
    ensures { Gathers R.reading records.old records.new (seen_as (λ rows. rows.items) result)
        (λ book. flat_map
        (rows_of_one (rows_among (A.rows_of asked.now book) book defects.now)) tails.now) }
{
    let mut rows = Vec::new(alloc);
    let mut rest = tails;
    while let Some((tail, later)) = rest.split_first() {
        append_of(&mut rows, records, alloc, asked, defects, tail)?;
        rest = later;
    }
    Ok(rows)
}

// The rows of all aircraft in one order; those that tie by registration, and then in the order of the aircraft's own.
fn rows_of_all<R: ListRecords, A: OfEach>(
    records: &mut R,
    alloc: Global,
    asked: &A,
) -> Result<Rows<FleetRow<A::Row>>, Stop<R::Fault>>
    ensures { Gathers R.reading records.old records.new result
        (λ book. rows_of_all A.Row.before
        (rows_among (A.rows_of asked.now book) book (all_open book)) (tails_by_text book)) }
{
    let known = records.tails(alloc)?;
    let tails = sorted(known)?;
    let defects = records.all_open_defects(alloc)?;
    let all = rows_of_these(records, alloc, asked, defects.as_slice(), tails.as_slice())?;
    let rows = sorted(all)?;
    Ok(rows)
}

/// What is due on all aircraft on a day. Or why it stopped: memory ran out, or a question was not answered.
pub fn list_fleet<R: ListRecords>(
    records: &mut R,
    alloc: Global,
    day: Day,
) -> Result<FleetList, Stop<R::Fault>>
    ensures { Gathers R.reading records.old records.new result (λ book. fleet book day) }
{
    let rows = rows_of_all(records, alloc, &DueOn(day))?;
    Ok(FleetList { day, rows })
}

/// What will be due on all aircraft within so many days of a day, each flown so many minutes and cycles a day. Or why it
/// stopped: memory ran out, or a question was not answered.
pub fn list_outlook<R: ListRecords>(
    records: &mut R,
    alloc: Global,
    day: Day,
    days: u32,
    minutes: u32,
    cycles: u32,
) -> Result<OutlookList, Stop<R::Fault>>
    ensures { Gathers R.reading records.old records.new result
        (λ book. outlook book day days minutes cycles) }
{
    let ahead = Ahead {
        day,
        days,
        minutes,
        cycles,
    };
    let rows = rows_of_all(records, alloc, &ahead)?;
    Ok(OutlookList {
        day,
        days,
        minutes,
        cycles,
        rows,
    })
}

// The limit of an open defect whose interval was extended by so many days, with the registration of its aircraft.
fn deferred_of_defect(day: Day, defect: &Defect, days: u32) -> FleetRow<LimitRow>
    ensures { (book : List Entry) → days ≡ days_extended book defect.now.doc
        → result ≡ deferred_row book day defect.now }
{
    FleetRow {
        tail: defect.deferral.tail,
        row: limit_of_defect(day, defect, days),
    }
}

// The limits of defects with the registrations, in their order.
fn rows_deferred<R: ListRecords>(
    records: &mut R,
    alloc: Global,
    day: Day,
    defects: &[Defect],
) -> Result<Vec<FleetRow<LimitRow>>, Stop<R::Fault>>
    ensures { Gathers R.reading records.old records.new
        (seen_as (λ rows. rows.items) result) (λ book. map (deferred_row book day) defects.now) }
{
    let mut rows = Vec::new(alloc);
    let mut rest = defects;
    while let Some((defect, later)) = rest.split_first() {
        let days = days_of_extension(records, &defect.doc)?;
        rows.push(deferred_of_defect(day, defect, days))?;
        rest = later;
    }
    Ok(rows)
}

/// The limits of all aircraft on a day. Or why it stopped: memory ran out, or a question was not answered.
pub fn list_deferred<R: ListRecords>(
    records: &mut R,
    alloc: Global,
    day: Day,
) -> Result<DeferredList, Stop<R::Fault>>
    ensures { Gathers R.reading records.old records.new result (λ book. deferred book day) }
{
    let open = records.all_open_defects(alloc)?;
    let limits = rows_deferred(records, alloc, day, open.as_slice())?;
    let rows = sorted(limits)?;
    Ok(DeferredList { day, rows })
}
