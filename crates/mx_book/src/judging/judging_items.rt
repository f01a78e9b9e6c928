//! What judging asks of an item: whether it is known, what the registers have of it, and where it is.
ghost use Rattle.std.specs.Prelude.{false, is_none};
ghost use Rattle.std.specs.List.{list_any};
ghost use Rattle.std.specs.Option.{option_map_or};
ghost use Rattle.mx_book.specs.commands.Same.{same_text};
ghost use Rattle.mx_book.specs.Register.{aircraft, component, found_of};
ghost use Rattle.mx_book.specs.Span.{tail_fitted};
ghost use Rattle.mx_book.specs.Judge.{item_tails, item_serials, is_at};
ghost use Rattle.mx_book.specs.Reading.{Answers};

use crate::Records;
use crate::commands::{Item, Place};
use crate::found::Found;
use mx_base::{Serial, Tail};

/// Whether an item is an airframe that is unknown.
pub(crate) fn is_unknown_airframe<R: Records>(
    records: &mut R,
    item: &Item,
) -> Result<bool, R::Fault>
    ensures { Answers R.reading records.old records.new result
        (λ book. list_any (λ tail. is_none (aircraft book tail)) (item_tails item.now)) }
{
    match item {
        Item::Airframe(tail) => Ok(records.aircraft(tail)?.is_none()),
        Item::Component(_) => Ok(false),
    }
}

/// Whether an item is a component that is unknown.
pub(crate) fn is_unknown_component<R: Records>(
    records: &mut R,
    item: &Item,
) -> Result<bool, R::Fault>
    ensures { Answers R.reading records.old records.new result
        (λ book. list_any (λ serial. is_none (component book serial)) (item_serials item.now)) }
{
    match item {
        Item::Airframe(_) => Ok(false),
        Item::Component(serial) => Ok(records.component(serial)?.is_none()),
    }
}

/// What the registers have of an item.
pub fn found_of<R: Records>(records: &mut R, item: &Item) -> Result<Found, R::Fault>
    ensures { Answers R.reading records.old records.new result (λ book. found_of book item.now) }
{
    match item {
        Item::Airframe(tail) => Ok(Found::Airframe(records.aircraft(tail)?)),
        Item::Component(serial) => Ok(Found::Component(records.component(serial)?)),
    }
}

// Whether a component is fitted to this aircraft.
fn is_fitted_to<R: Records>(records: &mut R, serial: &Serial, tail: &Tail) -> Result<bool, R::Fault>
    ensures { Answers R.reading records.old records.new result
        (λ book. option_map_or (λ t. same_text t tail.now)
        (tail_fitted book serial.now) false) }
{
    match records.tail_fitted(serial)? {
        Some(fitted) => Ok(fitted == *tail),
        None => Ok(false),
    }
}

/// Whether an item is at a place: the airframe of the aircraft, a component fitted to it, or the component in the shop.
pub(crate) fn is_item_at<R: Records>(
    records: &mut R,
    place: &Place,
    item: &Item,
) -> Result<bool, R::Fault>
    ensures { Answers R.reading records.old records.new result
        (λ book. is_at book place.now item.now) }
{
    match place {
        Place::Aircraft(tail) => match item {
            Item::Airframe(named) => Ok(*named == *tail),
            Item::Component(serial) => is_fitted_to(records, serial, tail),
        },
        Place::Shop(serial, _) => match item {
            Item::Airframe(_) => Ok(false),
            Item::Component(named) => Ok(*named == *serial),
        },
    }
}
