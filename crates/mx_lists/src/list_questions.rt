//! Questions that several lists ask of records, where memory may run out as well.
ghost use Rattle.mx_book.specs.Defect.{days_extended};
ghost use Rattle.mx_book.specs.Life.{clock, life_now, use_or_none};
ghost use Rattle.mx_book.specs.Register.{aircraft, found_of};
ghost use Rattle.mx_lists.specs.Memory.{Gathers};

use crate::life_list::life_or_none;
use crate::list_records::ListRecords;
use crate::stop::Stop;
use mx_base::{Doc, Moment, Tail, Use};
use mx_book::Records;
use mx_book::commands::{Aircraft, Item};
use mx_book::found::Found;
use mx_book::judging::judging_defects::extension_days;
use mx_book::judging::judging_items::found_of;

/// The aircraft with a registration.
pub(crate) fn aircraft_of<R: ListRecords>(
    records: &mut R,
    tail: &Tail,
) -> Result<Option<Aircraft>, Stop<R::Fault>>
    ensures { Gathers R.reading records.old records.new result (λ book. aircraft book tail.now) }
{
    match records.aircraft(tail) {
        Ok(aircraft) => Ok(aircraft),
        Err(fault) => Err(Stop::Fault(fault)),
    }
}

/// The aircraft or the component that an item names, where there is one.
pub(crate) fn item_found<R: Records>(records: &mut R, item: &Item) -> Result<Found, Stop<R::Fault>>
    ensures { Gathers R.reading records.old records.new result (λ book. found_of book item.now) }
{
    match found_of(records, item) {
        Ok(found) => Ok(found),
        Err(fault) => Err(Stop::Fault(fault)),
    }
}

/// The life of an item with all of its sectors, or none at all where the item is unknown.
pub(crate) fn life_of<R: ListRecords>(records: &mut R, item: &Item) -> Result<Use, Stop<R::Fault>>
    ensures { Gathers R.reading records.old records.new result
        (λ book. use_or_none (life_now book item.now)) }
{
    match records.life(item) {
        Ok(life) => Ok(life_or_none(life)),
        Err(fault) => Err(Stop::Fault(fault)),
    }
}

/// The clock of an item.
pub(crate) fn clock_of<R: Records>(records: &mut R, item: &Item) -> Result<Moment, Stop<R::Fault>>
    ensures { Gathers R.reading records.old records.new result (λ book. clock book item.now) }
{
    match records.clock(item) {
        Ok(clock) => Ok(clock),
        Err(fault) => Err(Stop::Fault(fault)),
    }
}

/// The days by which the interval of a defect was extended.
pub(crate) fn days_of_extension<R: Records>(
    records: &mut R,
    doc: &Doc,
) -> Result<u32, Stop<R::Fault>>
    ensures { Gathers R.reading records.old records.new result
        (λ book. days_extended book doc.now) }
{
    match extension_days(records, doc) {
        Ok(days) => Ok(days),
        Err(fault) => Err(Stop::Fault(fault)),
    }
}
