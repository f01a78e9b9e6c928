//! The lives of the items in maps.
ghost use Rattle.std.specs.Prelude.{◌≡◌, ◌<◌, ◌^◌, ℕ, pos, ◌-ℤ◌, [], ◌∷◌, List, None, not, true, map, IfOk};
ghost use Rattle.mx_base.specs.declared.amounts.Use.{Use};
ghost use Rattle.std.specs.Bool.{OnTrue};
ghost use Rattle.std.specs.Option.{option_map};
ghost use Rattle.mx_book.specs.commands.Act.{Entry};
ghost use Rattle.mx_book.specs.commands.Shape.{has_shape, sector_shape};
ghost use Rattle.mx_book.specs.due.Due.{IsLife};
ghost use Rattle.mx_book.specs.Book.{IsBook};
ghost use Rattle.mx_book.specs.Life.{life_now, use_after, use_or_none};
ghost use Rattle.mx_book.specs.Span.{is_fitted_to};
ghost use Rattle.mx_indexed_book.specs.maps.Clocks.{AreClocks};
ghost use Rattle.mx_indexed_book.specs.maps.Lives.{AreLives, AreLivesChanged, LivesHaveRoom, airframe_changed, airframe_life, component_changed, component_life, components_changed, flown_if, lead, lead_over, lead_with, leads_moved, life_where_fitted};
ghost use Rattle.mx_indexed_book.specs.maps.Movements.{AreMovements};
ghost use Rattle.mx_indexed_book.specs.maps.OneMore.{SayOneMore};
ghost use Rattle.mx_indexed_book.specs.maps.Places.{ArePlaces};

use crate::maps::clocks::Clocks;
use crate::maps::maps::{held, make_room, make_room_for_all, put, put_all};
use crate::maps::movements::{Movement, Movements};
use crate::maps::places::Places;
use mx_base::{Serial, Tail, Use};
use mx_book::commands::{Body, Command, Item, Sector};
use std::alloc::{AllocError, Global};
use std::collections::BTreeMap;

/// By how much one life is ahead of another, in each dimension.
#[derive(Clone, Copy)]
pub struct Lead {
    pub(crate) minutes: i64,
    pub(crate) cycles: i64,
}

/// The life of each airframe, and by how much that of each component is ahead of that of the airframe that it is fitted to.
#[derive(Drop)]
pub struct Lives {
    pub(crate) airframes: BTreeMap<Tail, Option<Use>>,
    pub(crate) components: BTreeMap<Serial, Option<Lead>>,
}

/// What one entry changes of them.
#[derive(Drop)]
pub struct LifeChanges {
    pub(crate) airframe: Option<(Tail, Option<Use>)>,
    pub(crate) components: Vec<(Serial, Option<Lead>)>,
}

// By how much a life is ahead of another.
fn lead_over(other: &Use, life: &Use) -> Lead
    ensures { result ≡ lead_over other.now life.now }
{
    Lead {
        minutes: i64::from(life.minutes) - i64::from(other.minutes),
        cycles: i64::from(life.cycles) - i64::from(other.cycles),
    }
}

// A number that is ahead of another by this, where it has 32 bits.
fn ahead(other: u32, lead: i64) -> u32
    ensures { (n : ℕ) → n < 2 ^ 32 → lead ≡ pos n -ℤ pos other → result ≡ n }
{
    u32::try_from(i64::from(other).saturating_add(lead)).unwrap_or(0)
}

// The life that is ahead of another by this.
fn life_ahead(other: &Use, lead: &Lead) -> Use
    ensures { (life : Use) → IsLife life → lead.now ≡ lead_over other.now life
        → result ≡ life }
{
    Use {
        minutes: ahead(other.minutes, lead.minutes),
        cycles: ahead(other.cycles, lead.cycles),
    }
}

// A life with one more sector.
fn with_sector(life: &Use, sector: &Sector) -> Use
    requires { sector_shape sector.now ≡ true }
    ensures { IsLife life.now → result ≡ use_after (sector.now ∷ []) life.now }
{
    let flown = sector.on.number() - sector.off.number();
    Use {
        minutes: life.minutes.saturating_add(flown),
        cycles: life.cycles.saturating_add(sector.cycles),
    }
}

// A life, with a sector where it is credited with it.
fn flown_if(credited: bool, sector: &Sector, life: &Use) -> Use
    requires { sector_shape sector.now ≡ true }
    ensures { IsLife life.now → result ≡ flown_if credited sector.now life.now }
{
    if credited {
        with_sector(life, sector)
    } else {
        *life
    }
}

// No life: that of an airframe that a component is not fitted to.
fn no_life() -> Use
    ensures { result ≡ use_or_none None }
{
    Use {
        minutes: 0,
        cycles: 0,
    }
}

impl Lives {
    /// Those of the empty book, which take no memory.
    pub fn new(alloc: Global) -> Lives
        ensures { AreLives [] result }
    {
        Lives {
            airframes: BTreeMap::new(alloc),
            components: BTreeMap::new(alloc),
        }
    }

    // The life of an airframe.
    fn of_airframe(&self, tail: &Tail) -> Option<Use>
        ensures { (book : List Entry) → AreLives book self.now
            → result ≡ airframe_life book tail.now }
    {
        held(&self.airframes, tail, None)
    }

    // The same, or no life where there is none.
    fn airframe_or_none(&self, tail: &Tail) -> Use
        ensures { (book : List Entry) → AreLives book self.now
            → result ≡ use_or_none (airframe_life book tail.now) }
    {
        match self.of_airframe(tail) {
            Some(life) => life,
            None => no_life(),
        }
    }

    // The life of the airframe that a component is fitted to, or no life.
    fn where_fitted(&self, places: &Places, serial: &Serial) -> Use
        ensures { (book : List Entry) → ArePlaces book places.now → AreLives book self.now
            → result ≡ life_where_fitted book serial.now }
    {
        match places.tail_fitted(serial) {
            Some(tail) => self.airframe_or_none(&tail),
            None => no_life(),
        }
    }

    // The life of a component.
    fn of_component(&self, places: &Places, serial: &Serial) -> Option<Use>
        ensures { (book : List Entry) → IsBook book → ArePlaces book places.now
            → AreLives book self.now → result ≡ component_life book serial.now }
    {
        match held(&self.components, serial, None) {
            Some(lead) => Some(life_ahead(&self.where_fitted(places, serial), &lead)),
            None => None,
        }
    }

    /// The life of an item with all of its sectors.
    pub fn of_item(&self, places: &Places, item: &Item) -> Option<Use>
        ensures { (book : List Entry) → IsBook book → ArePlaces book places.now
            → AreLives book self.now → result ≡ life_now book item.now }
    {
        match item {
            Item::Airframe(tail) => self.of_airframe(tail),
            Item::Component(serial) => self.of_component(places, serial),
        }
    }

    // The life of an airframe with one more sector.
    fn flown(&self, sector: &Sector) -> Option<Use>
        requires { sector_shape sector.now ≡ true }
        ensures { (book : List Entry) → IsBook book → AreLives book self.now
            → result
            ≡ option_map (use_after (sector.now ∷ [])) (airframe_life book sector.now.tail) }
    {
        match self.of_airframe(&sector.tail) {
            Some(life) => Some(with_sector(&life, sector)),
            None => None,
        }
    }

    // The airframe whose life an entry changes, and its life then.
    fn airframe_changed(&self, entry: &Command) -> Option<(Tail, Option<Use>)>
        ensures { (book : List Entry) → IsBook book → AreLives book self.now
            → result ≡ airframe_changed book entry.now.act }
    {
        match entry.flown_sector() {
            Some(sector) => Some((sector.tail, self.flown(&sector))),
            None => match entry.added_aircraft() {
                Some(aircraft) => Some((aircraft.tail, Some(aircraft.opening))),
                None => None,
            },
        }
    }

    // By how much the life of a component is ahead of another.
    fn lead_over(&self, places: &Places, other: &Use, serial: &Serial) -> Option<Lead>
        ensures { (book : List Entry) → IsBook book → ArePlaces book places.now
            → AreLives book self.now
            → result ≡ option_map (lead_over other.now) (component_life book serial.now) }
    {
        match self.of_component(places, serial) {
            Some(life) => Some(lead_over(other, &life)),
            None => None,
        }
    }

    // The component whose lead an entry changes, and its lead then.
    fn component_changed(&self, places: &Places, entry: &Command) -> Option<(Serial, Option<Lead>)>
        ensures { (book : List Entry) → IsBook book → ArePlaces book places.now
            → AreLives book self.now → result ≡ component_changed book entry.now.act }
    {
        match entry.body() {
            Body::AddComponent {
                serial,
                opening,
                ..
            } => Some((*serial, Some(lead_over(&no_life(), opening)))),
            Body::Fit { serial, tail, .. } => {
                let other = self.airframe_or_none(tail);
                Some((*serial, self.lead_over(places, &other, serial)))
            }
            Body::Remove { serial, .. } => {
                Some((*serial, self.lead_over(places, &no_life(), serial)))
            }
            _ => None,
        }
    }

    // Whether a component is fitted to the aircraft of a sector.
    fn is_fitted_to(places: &Places, sector: &Sector, serial: &Serial) -> bool
        ensures { (book : List Entry) → ArePlaces book places.now
            → result ≡ is_fitted_to book sector.now.tail serial.now }
    {
        match places.tail_fitted(serial) {
            Some(tail) => tail == sector.tail,
            None => false,
        }
    }

    // By how much the life of a component is ahead behind one more sector, which it is credited with or not.
    fn lead_with(
        &self,
        places: &Places,
        sector: &Sector,
        credited: bool,
        serial: &Serial,
    ) -> Option<Lead>
        requires { sector_shape sector.now ≡ true }
        ensures { (book : List Entry) → IsBook book → ArePlaces book places.now
            → AreLives book self.now
            → result ≡ lead_with book sector.now credited serial.now }
    {
        let life = self.of_component(places, serial)?;
        let other = self.where_fitted(places, serial);
        let other = flown_if(Lives::is_fitted_to(places, sector, serial), sector, &other);
        Some(lead_over(&other, &flown_if(credited, sector, &life)))
    }

    // The leads of components that were moved behind the take-off of one more sector.
    fn leads_flown(
        &self,
        alloc: Global,
        places: &Places,
        sector: &Sector,
        moved: &[Movement],
    ) -> Result<Vec<(Serial, Option<Lead>)>, AllocError>
        requires { sector_shape sector.now ≡ true }
        ensures { (book : List Entry) → IsBook book → ArePlaces book places.now
            → AreLives book self.now
            → IfOk result (λ leads. leads.items ≡ leads_moved book sector.now moved.now) }
    {
        let mut leads = Vec::new(alloc);
        let mut rest = moved;
        while let Some((movement, earlier)) = rest.split_first() {
            let lead = self.lead_with(places, sector, !movement.is_fitting, &movement.serial);
            leads.push((movement.serial, lead))?;
            rest = earlier;
        }
        Ok(leads)
    }

    // The components whose leads an entry changes, and the lead of each then.
    fn components_changed(
        &self,
        alloc: Global,
        places: &Places,
        clocks: &Clocks,
        movements: &Movements,
        entry: &Command,
    ) -> Result<Vec<(Serial, Option<Lead>)>, AllocError>
        ensures { (book : List Entry) → IsBook book → ArePlaces book places.now
            → AreClocks book clocks.now → AreMovements book movements.now → AreLives book self.now
            → IfOk result (λ leads. leads.items ≡ components_changed book entry.now.act) }
    {
        if let Some(sector) = entry.flown_sector() {
            let moved = movements.behind(alloc, clocks, &sector.tail, sector.off)?;
            return self.leads_flown(alloc, places, &sector, moved.as_slice());
        }
        let mut leads = Vec::new(alloc);
        if let Some(change) = self.component_changed(places, entry) {
            leads.push(change)?;
        }
        Ok(leads)
    }

    /// What an entry changes, by where components are fitted, clocks, and what was moved. An error where memory runs out.
    pub fn changes(
        &self,
        alloc: Global,
        places: &Places,
        clocks: &Clocks,
        movements: &Movements,
        entry: &Command,
    ) -> Result<LifeChanges, AllocError>
        ensures { (book : List Entry) → IsBook book → ArePlaces book places.now
            → AreClocks book clocks.now → AreMovements book movements.now → AreLives book self.now
            → IfOk result (λ changes. AreLivesChanged book entry.now changes) }
    {
        let components = self.components_changed(alloc, places, clocks, movements, entry)?;
        Ok(LifeChanges {
            airframe: self.airframe_changed(entry),
            components,
        })
    }

    /// Makes room for what an entry changes. Whether there was memory for it; in either case the maps say what they said.
    pub fn make_room(&mut self, changes: &LifeChanges) -> bool
        ensures same { (book : List Entry) → AreLives book self.old → AreLives book self.new }
        ensures room { OnTrue result (LivesHaveRoom changes.now self.new) }
    {
        make_room(&mut self.airframes, &changes.airframe, None)
            & make_room_for_all(&mut self.components, &changes.components, None)
    }

    /// Enters what an entry changes, for which there is room.
    pub fn put(&mut self, changes: &LifeChanges)
        requires { LivesHaveRoom changes.now self.old }
        ensures { SayOneMore AreLives (λ book entry. AreLivesChanged book entry changes.now)
            self.old self.new }
    {
        put(&mut self.airframes, &changes.airframe);
        put_all(&mut self.components, &changes.components);
    }
}
