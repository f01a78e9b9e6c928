//! Where components are fitted, in maps.
ghost use Rattle.std.specs.Prelude.{◌≡◌, [], List};
ghost use Rattle.std.specs.Bool.{OnTrue};
ghost use Rattle.mx_book.specs.commands.Act.{Entry};
ghost use Rattle.mx_book.specs.Span.{is_taken, tail_fitted};
ghost use Rattle.mx_indexed_book.specs.maps.OneMore.{Equal, SayOneMore};
ghost use Rattle.mx_indexed_book.specs.maps.Places.{ArePlaces, PlacesHaveRoom, component_moved, place_changed, place_of, places_changed};

use crate::maps::maps::{held, make_room, put};
use mx_base::{Position, Serial, Tail};
use mx_book::commands::{Body, Command};
use std::alloc::Global;
use std::collections::BTreeMap;

/// The aircraft and the position that each component is fitted to, and whether each position has a component.
#[derive(Drop)]
pub struct Places {
    pub(crate) fitted: BTreeMap<Serial, Option<(Tail, Position)>>,
    pub(crate) taken: BTreeMap<(Tail, Position), bool>,
}

/// What one entry changes of them.
#[derive(Clone, Copy)]
pub struct PlaceChanges {
    pub(crate) component: Option<(Serial, Option<(Tail, Position)>)>,
    pub(crate) place: Option<((Tail, Position), bool)>,
}

// The component that an entry moves, and where it is fitted then.
fn component_moved(entry: &Command) -> Option<(Serial, Option<(Tail, Position)>)>
    ensures { result ≡ component_moved entry.now.act }
{
    match entry.body() {
        Body::Fit {
            serial,
            tail,
            position,
            ..
        } => Some((*serial, Some((*tail, *position)))),
        Body::Remove { serial, .. } => Some((*serial, None)),
        _ => None,
    }
}

impl Places {
    /// Those of the empty book, which take no memory.
    pub fn new(alloc: Global) -> Places
        ensures { ArePlaces [] result }
    {
        Places {
            fitted: BTreeMap::new(alloc),
            taken: BTreeMap::new(alloc),
        }
    }

    /// The aircraft and the position that a component is fitted to.
    pub fn place_of(&self, serial: &Serial) -> Option<(Tail, Position)>
        ensures { (book : List Entry) → ArePlaces book self.now
            → result ≡ place_of book serial.now }
    {
        held(&self.fitted, serial, None)
    }

    /// The registration of the aircraft that a component is fitted to.
    pub fn tail_fitted(&self, serial: &Serial) -> Option<Tail>
        ensures { (book : List Entry) → ArePlaces book self.now
            → result ≡ tail_fitted book serial.now }
    {
        match self.place_of(serial) {
            Some((tail, _)) => Some(tail),
            None => None,
        }
    }

    /// Whether a component is fitted to the position of an aircraft.
    pub fn is_taken(&self, tail: &Tail, position: &Position) -> bool
        ensures { (book : List Entry) → ArePlaces book self.now
            → result ≡ is_taken book tail.now position.now }
    {
        held(&self.taken, &(*tail, *position), false)
    }

    // The place that an entry gives a component or takes it from, and whether it has one then.
    fn place_changed(&self, entry: &Command) -> Option<((Tail, Position), bool)>
        ensures { (book : List Entry) → ArePlaces book self.now
            → result ≡ place_changed book entry.now.act }
    {
        match entry.body() {
            Body::Fit { tail, position, .. } => Some(((*tail, *position), true)),
            Body::Remove { serial, .. } => match self.place_of(serial) {
                Some(place) => Some((place, false)),
                None => None,
            },
            _ => None,
        }
    }

    /// What an entry changes.
    pub fn changes(&self, entry: &Command) -> PlaceChanges
        ensures { (book : List Entry) → ArePlaces book self.now
            → result ≡ places_changed book entry.now }
    {
        PlaceChanges {
            component: component_moved(entry),
            place: self.place_changed(entry),
        }
    }

    /// Makes room for what an entry changes. Whether there was memory for it; in either case the maps say what they said.
    pub fn make_room(&mut self, changes: &PlaceChanges) -> bool
        ensures same { (book : List Entry) → ArePlaces book self.old → ArePlaces book self.new }
        ensures room { OnTrue result (PlacesHaveRoom changes.now self.new) }
    {
        make_room(&mut self.fitted, &changes.component, None)
            & make_room(&mut self.taken, &changes.place, false)
    }

    /// Enters what an entry changes, for which there is room.
    pub fn put(&mut self, changes: &PlaceChanges)
        requires { PlacesHaveRoom changes.now self.old }
        ensures { SayOneMore ArePlaces (Equal changes.now places_changed) self.old self.new }
    {
        put(&mut self.fitted, &changes.component);
        put(&mut self.taken, &changes.place);
    }
}
