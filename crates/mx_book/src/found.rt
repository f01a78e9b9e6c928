//! What the registers have of an item, and what that says of it.
ghost use Rattle.std.specs.Prelude.{◌≡◌, List};
ghost use Rattle.mx_book.specs.commands.Act.{Entry};
ghost use Rattle.mx_book.specs.Judge.{item_at};
ghost use Rattle.mx_book.specs.Life.{opening_in, use_or_none};
ghost use Rattle.mx_book.specs.Programme.{is_done_in, kind_at};
ghost use Rattle.mx_book.specs.Register.{found_of, birth_in, as_of_in, is_other_kind_in};

use crate::commands::{Aircraft, Applies, Component, Item, Place, Task};
use mx_base::{Day, Kind, Moment, Use, day_of};

/// The aircraft or the component that an item names, where there is one.
#[derive(Clone, Copy)]
pub enum Found {
    /// The aircraft with the registration of an airframe.
    Airframe(Option<Aircraft>),
    /// The component with a serial number.
    Component(Option<Component>),
}

/// The day on which an item was built, or the first of all where the item is unknown.
pub fn birth_of(found: &Found) -> Day
    ensures { result ≡ birth_in found.now }
{
    match found {
        Found::Airframe(Some(aircraft)) => aircraft.birth,
        Found::Component(Some(component)) => component.birth,
        Found::Airframe(None) | Found::Component(None) => day_of(Moment::FIRST),
    }
}

/// The moment up to which the opening of an item counts, or the first of all where the item is unknown.
pub fn as_of(found: &Found) -> Moment
    ensures { result ≡ as_of_in found.now }
{
    match found {
        Found::Airframe(Some(aircraft)) => aircraft.as_of,
        Found::Component(Some(component)) => component.as_of,
        Found::Airframe(None) | Found::Component(None) => Moment::FIRST,
    }
}

/// The use that an item brought with it, or `None` where the item is unknown.
pub fn opening_use(found: &Found) -> Option<Use>
    ensures { result ≡ opening_in found.now }
{
    match found {
        Found::Airframe(Some(aircraft)) => Some(aircraft.opening),
        Found::Component(Some(component)) => Some(component.opening),
        Found::Airframe(None) | Found::Component(None) => None,
    }
}

/// The life, or none at all.
pub fn life_or_none(life: Option<Use>) -> Use
    ensures { result ≡ use_or_none life }
{
    match life {
        Some(life) => life,
        None => Use {
            minutes: 0,
            cycles: 0,
        },
    }
}

/// Whether a task applies to an item.
pub fn is_task_of(found: &Found, task: &Task) -> bool
    ensures { result ≡ is_done_in found.now task.now.applies }
{
    match &task.applies {
        Applies::Airframe => matches!(found, Found::Airframe(Some(_))),
        Applies::Part(part) => match found {
            Found::Component(Some(component)) => component.part == *part,
            _ => false,
        },
    }
}

/// Whether an item is an airframe of another kind.
pub fn is_other_aircraft(found: &Found, kind: &Kind) -> bool
    ensures { result ≡ is_other_kind_in kind.now found.now }
{
    match found {
        Found::Airframe(Some(aircraft)) => aircraft.kind != *kind,
        _ => false,
    }
}

/// The item whose records a release at a place goes into.
pub fn item_of_place(place: &Place) -> Item
    ensures { result ≡ item_at place.now }
{
    match place {
        Place::Aircraft(tail) => Item::Airframe(*tail),
        Place::Shop(serial, _) => Item::Component(*serial),
    }
}

/// The kind whose programme work at a place is done by, where this was found of the place's item: that of the aircraft, or
/// the one that the shop names.
pub fn kind_of_place(place: &Place, found: &Found) -> Option<Kind>
    ensures { (book : List Entry) → found.now ≡ found_of book (item_at place.now)
        → result ≡ kind_at book place.now }
{
    match place {
        Place::Aircraft(_) => match found {
            Found::Airframe(Some(aircraft)) => Some(aircraft.kind),
            _ => None,
        },
        Place::Shop(_, kind) => Some(*kind),
    }
}
