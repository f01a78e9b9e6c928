//! The clocks of the items in maps.
ghost use Rattle.std.specs.Prelude.{◌≡◌, [], ℕ, List, max};
ghost use Rattle.std.specs.Bool.{OnTrue};
ghost use Rattle.mx_book.specs.commands.Act.{Entry};
ghost use Rattle.mx_book.specs.Life.{clock};
ghost use Rattle.mx_indexed_book.specs.maps.Clocks.{AreClocks, ClocksHaveRoom, aircraft_at, airframe_clock, airframe_moment, clocks_changed, component_clock, component_in_shop, component_moment, raised};
ghost use Rattle.mx_indexed_book.specs.maps.OneMore.{Equal, SayOneMore};
ghost use Rattle.mx_indexed_book.specs.maps.Places.{ArePlaces};

use crate::maps::maps::{held, make_room, put};
use crate::maps::places::Places;
use mx_base::{Moment, Serial, Tail};
use mx_book::commands::{Body, Command, Item, Place};
use std::alloc::Global;
use std::collections::BTreeMap;

/// The clock of each airframe, and of each component.
#[derive(Drop)]
pub struct Clocks {
    pub(crate) airframes: BTreeMap<Tail, Moment>,
    pub(crate) components: BTreeMap<Serial, Moment>,
}

/// What one entry changes of them.
#[derive(Clone, Copy)]
pub struct ClockChanges {
    pub(crate) airframe: Option<(Tail, Moment)>,
    pub(crate) component: Option<(Serial, Moment)>,
}

// The aircraft at a place, and the moment of the work there.
fn aircraft_at(place: &Place, moment: Moment) -> Option<(Tail, Moment)>
    ensures { result ≡ aircraft_at place.now moment }
{
    match place {
        Place::Aircraft(tail) => Some((*tail, moment)),
        Place::Shop(..) => None,
    }
}

// The component in the shop at a place, and the moment of the work there.
fn component_in_shop(place: &Place, moment: Moment) -> Option<(Serial, Moment)>
    ensures { result ≡ component_in_shop place.now moment }
{
    match place {
        Place::Aircraft(_) => None,
        Place::Shop(serial, _) => Some((*serial, moment)),
    }
}

// The airframe to whose clock an entry gives a moment, and that.
fn airframe_moment(places: &Places, entry: &Command) -> Option<(Tail, Moment)>
    ensures { (book : List Entry) → ArePlaces book places.now
        → result ≡ airframe_moment book entry.now.act }
{
    match entry.body() {
        Body::AddAircraft { tail, as_of, .. } => Some((*tail, *as_of)),
        Body::Sector { tail, on, .. } => Some((*tail, *on)),
        Body::Fit { tail, moment, .. } => Some((*tail, *moment)),
        Body::Remove { serial, moment } => match places.tail_fitted(serial) {
            Some(tail) => Some((tail, *moment)),
            None => None,
        },
        Body::Release { place, moment, .. } => aircraft_at(place, *moment),
        Body::Defer { tail, moment, .. } => Some((*tail, *moment)),
        _ => None,
    }
}

// The component to whose clock an entry gives a moment, and that.
fn component_moment(entry: &Command) -> Option<(Serial, Moment)>
    ensures { result ≡ component_moment entry.now.act }
{
    match entry.body() {
        Body::AddComponent { serial, as_of, .. } => Some((*serial, *as_of)),
        Body::Fit { serial, moment, .. } => Some((*serial, *moment)),
        Body::Remove { serial, moment } => Some((*serial, *moment)),
        Body::Release { place, moment, .. } => component_in_shop(place, *moment),
        _ => None,
    }
}

// The later of two moments.
fn later(a: Moment, b: Moment) -> Moment
    ensures { result ≡ max a b }
{
    a.max(b)
}

impl Clocks {
    /// Those of the empty book, which take no memory.
    pub fn new(alloc: Global) -> Clocks
        ensures { AreClocks [] result }
    {
        Clocks {
            airframes: BTreeMap::new(alloc),
            components: BTreeMap::new(alloc),
        }
    }

    /// The clock of an airframe.
    pub fn of_airframe(&self, tail: &Tail) -> Moment
        ensures { (book : List Entry) → AreClocks book self.now
            → result ≡ airframe_clock book tail.now }
    {
        held(&self.airframes, tail, Moment::FIRST)
    }

    /// The clock of a component.
    pub fn of_component(&self, serial: &Serial) -> Moment
        ensures { (book : List Entry) → AreClocks book self.now
            → result ≡ component_clock book serial.now }
    {
        held(&self.components, serial, Moment::FIRST)
    }

    /// The clock of an item.
    pub fn of_item(&self, item: &Item) -> Moment
        ensures { (book : List Entry) → AreClocks book self.now → result ≡ clock book item.now }
    {
        match item {
            Item::Airframe(tail) => self.of_airframe(tail),
            Item::Component(serial) => self.of_component(serial),
        }
    }

    // The clock of an airframe, raised to a moment.
    fn airframe_raised(&self, given: &Option<(Tail, Moment)>) -> Option<(Tail, Moment)>
        ensures { (book : List Entry) → AreClocks book self.now
            → result ≡ raised (airframe_clock book) given.now }
    {
        match given {
            Some((tail, moment)) => Some((*tail, later(self.of_airframe(tail), *moment))),
            None => None,
        }
    }

    // The clock of a component, raised to a moment.
    fn component_raised(&self, given: &Option<(Serial, Moment)>) -> Option<(Serial, Moment)>
        ensures { (book : List Entry) → AreClocks book self.now
            → result ≡ raised (component_clock book) given.now }
    {
        match given {
            Some((serial, moment)) => { Some((*serial, later(self.of_component(serial), *moment))) }
            None => None,
        }
    }

    /// What an entry changes, by where components are fitted.
    pub fn changes(&self, places: &Places, entry: &Command) -> ClockChanges
        ensures { (book : List Entry) → ArePlaces book places.now → AreClocks book self.now
            → result ≡ clocks_changed book entry.now }
    {
        ClockChanges {
            airframe: self.airframe_raised(&airframe_moment(places, entry)),
            component: self.component_raised(&component_moment(entry)),
        }
    }

    /// Makes room for what an entry changes. Whether there was memory for it; in either case the maps say what they said.
    pub fn make_room(&mut self, changes: &ClockChanges) -> bool
        ensures same { (book : List Entry) → AreClocks book self.old → AreClocks book self.new }
        ensures room { OnTrue result (ClocksHaveRoom changes.now self.new) }
    {
        make_room(&mut self.airframes, &changes.airframe, Moment::FIRST)
            & make_room(&mut self.components, &changes.component, Moment::FIRST)
    }

    /// Enters what an entry changes, for which there is room.
    pub fn put(&mut self, changes: &ClockChanges)
        requires { ClocksHaveRoom changes.now self.old }
        ensures { SayOneMore AreClocks (Equal changes.now clocks_changed) self.old self.new }
    {
        put(&mut self.airframes, &changes.airframe);
        put(&mut self.components, &changes.component);
    }
}
