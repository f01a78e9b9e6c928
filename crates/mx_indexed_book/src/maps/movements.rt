//! What was fitted to each aircraft and removed from it, in maps: so what was moved behind a moment is found from the last one back.
ghost use Rattle.std.specs.Prelude.{◌≡◌, ◌+◌, ◌<◌, [], List, IfOk, OnSome, length};
ghost use Rattle.std.specs.Bool.{OnTrue};
ghost use Rattle.mx_book.specs.commands.Act.{Entry};
ghost use Rattle.mx_book.specs.Book.{IsBook};
ghost use Rattle.mx_indexed_book.specs.maps.Clocks.{AreClocks};
ghost use Rattle.mx_indexed_book.specs.maps.Movements.{AreMovements, MovementsHaveRoom, behind, last_behind, movement, movement_at, movement_count, movements, movements_changed};
ghost use Rattle.mx_indexed_book.specs.maps.OneMore.{Equal, SayOneMore};
ghost use Rattle.mx_indexed_book.specs.maps.Places.{ArePlaces};

use crate::maps::clocks::Clocks;
use crate::maps::maps::{held, make_room, put};
use crate::maps::places::Places;
use mx_base::{Moment, Serial, Tail};
use mx_book::commands::{Body, Command};
use std::alloc::{AllocError, Global};
use std::collections::BTreeMap;

/// A fitting of a component to an aircraft, or its removal from there.
#[derive(Clone, Copy)]
pub struct Movement {
    /// The component.
    pub serial: Serial,
    /// When it was moved.
    pub moment: Moment,
    /// Whether it was fitted.
    pub is_fitting: bool,
}

/// How many movements of each aircraft there are, and each by how many of them came before it.
#[derive(Drop)]
pub struct Movements {
    pub(crate) counts: BTreeMap<Tail, u32>,
    pub(crate) placed: BTreeMap<(Tail, u32), Option<Movement>>,
}

/// What one entry changes of them.
#[derive(Clone, Copy)]
pub struct MovementChanges {
    pub(crate) count: Option<(Tail, u32)>,
    pub(crate) added: Option<((Tail, u32), Option<Movement>)>,
}

// The aircraft to which an entry fits a component, or from which it removes one, and that movement.
fn movement_by(places: &Places, entry: &Command) -> Option<(Tail, Movement)>
    ensures { (book : List Entry) → ArePlaces book places.now
        → result ≡ movement book entry.now.act }
{
    match entry.body() {
        Body::Fit {
            serial,
            tail,
            moment,
            ..
        } => Some((
            *tail,
            Movement {
                serial: *serial,
                moment: *moment,
                is_fitting: true,
            },
        )),
        Body::Remove { serial, moment } => match places.tail_fitted(serial) {
            Some(tail) => Some((
                tail,
                Movement {
                    serial: *serial,
                    moment: *moment,
                    is_fitting: false,
                },
            )),
            None => None,
        },
        _ => None,
    }
}

impl Movements {
    /// Those of the empty book, which take no memory.
    pub fn new(alloc: Global) -> Movements
        ensures { AreMovements [] result }
    {
        Movements {
            counts: BTreeMap::new(alloc),
            placed: BTreeMap::new(alloc),
        }
    }

    // How many movements of an aircraft there are.
    fn count(&self, tail: &Tail) -> u32
        ensures { (book : List Entry) → AreMovements book self.now
            → result ≡ movement_count book tail.now }
    {
        held(&self.counts, tail, 0)
    }

    // The movement of an aircraft behind so many others.
    fn at(&self, tail: &Tail, place: u32) -> Option<Movement>
        ensures { (book : List Entry) → AreMovements book self.now
            → result ≡ movement_at book (tail.now, place) }
    {
        held(&self.placed, &(*tail, place), None)
    }

    // The last of so many movements of an aircraft, where it came behind a moment.
    fn last_behind(&self, tail: &Tail, count: u32, moment: Moment) -> Option<Movement>
        ensures last { (book : List Entry) → AreMovements book self.now
            → result ≡ last_behind moment (movements book tail.now) count }
        ensures some { OnSome result (0 < count) }
    {
        if count == 0 {
            return None;
        }
        match self.at(tail, count - 1) {
            Some(movement) if moment < movement.moment => Some(movement),
            _ => None,
        }
    }

    /// The movements of an aircraft behind a moment, from the last one back: none where the moment is not before the
    /// clock of its airframe. An error where memory runs out.
    pub fn behind(
        &self,
        alloc: Global,
        clocks: &Clocks,
        tail: &Tail,
        moment: Moment,
    ) -> Result<Vec<Movement>, AllocError>
        ensures { (book : List Entry) → IsBook book → AreClocks book clocks.now
            → AreMovements book self.now
            → IfOk result (λ found. found.items ≡ behind moment (movements book tail.now)) }
    {
        let mut found = Vec::new(alloc);
        if clocks.of_airframe(tail) <= moment {
            return Ok(found);
        }
        let mut count = self.count(tail);
        while let Some(movement) = self.last_behind(tail, count, moment) {
            found.push(movement)?;
            count -= 1;
        }
        Ok(found)
    }

    /// What an entry changes that has this number, by where components are fitted.
    pub fn changes(&self, places: &Places, entry: &Command, seq: u32) -> MovementChanges
        ensures { (book : List Entry) → ArePlaces book places.now → AreMovements book self.now
            → seq ≡ length book + 1 → result ≡ movements_changed book entry.now }
    {
        match movement_by(places, entry) {
            Some(given) => {
                let count = self.count(&given.0);
                MovementChanges {
                    count: Some((given.0, count.saturating_add(1))),
                    added: Some(((given.0, count), Some(given.1))),
                }
            }
            None => MovementChanges {
                count: None,
                added: None,
            },
        }
    }

    /// Makes room for what an entry changes. Whether there was memory for it; in either case the maps say what they said.
    pub fn make_room(&mut self, changes: &MovementChanges) -> bool
        ensures same { (book : List Entry) → AreMovements book self.old → AreMovements book self.new }
        ensures room { OnTrue result (MovementsHaveRoom changes.now self.new) }
    {
        make_room(&mut self.counts, &changes.count, 0)
            & make_room(&mut self.placed, &changes.added, None)
    }

    /// Enters what an entry changes, for which there is room.
    pub fn put(&mut self, changes: &MovementChanges)
        requires { MovementsHaveRoom changes.now self.old }
        ensures { SayOneMore AreMovements (Equal changes.now movements_changed) self.old self.new }
    {
        put(&mut self.counts, &changes.count);
        put(&mut self.placed, &changes.added);
    }
}
