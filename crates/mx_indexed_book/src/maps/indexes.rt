//! All maps of a book, and what one entry changes of them.
//!
//! A new entry first makes room in each map, a row of the key that says what the map said without it; the change itself
//! then takes no memory. So nothing has to be undone where memory runs out: such a row may stay, and no answer changes
//! by it.
ghost use Rattle.std.specs.Prelude.{◌≡◌, ◌+◌, [], List, length, IfOk};
ghost use Rattle.std.specs.Bool.{OnTrue};
ghost use Rattle.mx_book.specs.commands.Act.{Entry};
ghost use Rattle.mx_book.specs.Book.{IsBook};
ghost use Rattle.mx_indexed_book.specs.maps.Indexed.{AreChanges, AreIndexes, HaveRoom};
ghost use Rattle.mx_indexed_book.specs.maps.OneMore.{SayOneMore};

use crate::maps::clocks::{ClockChanges, Clocks};
use crate::maps::counts::Counts;
use crate::maps::lives::{LifeChanges, Lives};
use crate::maps::maps::{make_room, make_room_for_all, put, put_all};
use crate::maps::movements::{MovementChanges, Movements};
use crate::maps::places::{PlaceChanges, Places};
use crate::maps::positions::parts_given;
use crate::maps::programmes::programme_changed;
use crate::maps::registers::{RegisterChanges, Registers, registers_changed};
use crate::maps::work::{Work, WorkChanges, work_changed};
use mx_base::{Kind, Part, Position, Tail};
use mx_book::commands::Command;
use std::alloc::{AllocError, Global};
use std::collections::BTreeMap;

/// The maps of a book, by subject.
#[derive(Drop)]
pub struct Indexes {
    /// The numbers of documents, and the rows of the registers by name.
    pub registers: Registers,
    /// Where components are fitted.
    pub places: Places,
    /// What was fitted to each aircraft and removed from it.
    pub movements: Movements,
    /// The clocks of items.
    pub clocks: Clocks,
    /// The part that each position of an aircraft takes.
    pub parts: BTreeMap<(Tail, Position), Option<Part>>,
    /// The number of the entry that loaded the programme in force of each kind.
    pub programmes: BTreeMap<Kind, Option<u32>>,
    /// Which tasks were accomplished, and the defects that were rectified.
    pub work: Work,
    /// The lives of items.
    pub lives: Lives,
    /// How many aircraft and components there are.
    pub counts: Counts,
}

/// What one entry changes of them.
#[derive(Drop)]
pub struct Changes {
    pub(crate) registers: RegisterChanges,
    pub(crate) places: PlaceChanges,
    pub(crate) movements: MovementChanges,
    pub(crate) clocks: ClockChanges,
    pub(crate) parts: Vec<((Tail, Position), Option<Part>)>,
    pub(crate) programme: Option<(Kind, Option<u32>)>,
    pub(crate) work: WorkChanges,
    pub(crate) lives: LifeChanges,
    pub(crate) counts: Counts,
}

impl Indexes {
    /// Those of the empty book, which take no memory.
    pub fn new(alloc: Global) -> Indexes
        ensures { AreIndexes [] result }
    {
        Indexes {
            registers: Registers::new(alloc),
            places: Places::new(alloc),
            movements: Movements::new(alloc),
            clocks: Clocks::new(alloc),
            parts: BTreeMap::new(alloc),
            programmes: BTreeMap::new(alloc),
            work: Work::new(alloc),
            lives: Lives::new(alloc),
            counts: Counts::new(),
        }
    }

    /// What an entry changes that has this number. An error where memory runs out.
    pub fn changes(&self, alloc: Global, entry: &Command, seq: u32) -> Result<Changes, AllocError>
        ensures { (book : List Entry) → IsBook book → AreIndexes book self.now
            → seq ≡ length book + 1
            → IfOk result (λ changes. AreChanges book entry.now changes) }
    {
        let parts = parts_given(alloc, entry)?;
        let work = work_changed(alloc, entry)?;
        let (places, clocks) = (&self.places, &self.clocks);
        let lives = self
            .lives
            .changes(alloc, places, clocks, &self.movements, entry)?;
        Ok(Changes {
            registers: registers_changed(entry, seq),
            places: self.places.changes(entry),
            movements: self.movements.changes(&self.places, entry, seq),
            clocks: self.clocks.changes(&self.places, entry),
            parts,
            programme: programme_changed(entry, seq),
            work,
            lives,
            counts: self.counts.counted(entry),
        })
    }

    /// Makes room for what an entry changes. Whether there was memory for it; in either case the maps say what they said.
    pub fn make_room(&mut self, changes: &Changes) -> bool
        ensures same { (book : List Entry) → AreIndexes book self.old → AreIndexes book self.new }
        ensures room { OnTrue result (HaveRoom changes.now self.new) }
    {
        let registers = self.registers.make_room(&changes.registers);
        let places = self.places.make_room(&changes.places);
        let movements = self.movements.make_room(&changes.movements);
        let clocks = self.clocks.make_room(&changes.clocks);
        let parts = make_room_for_all(&mut self.parts, &changes.parts, None);
        let programmes = make_room(&mut self.programmes, &changes.programme, None);
        let work = self.work.make_room(&changes.work);
        let lives = self.lives.make_room(&changes.lives);
        registers & places & movements & clocks & parts & programmes & work & lives
    }

    /// Enters what an entry changes, for which there is room.
    pub fn put(&mut self, changes: &Changes)
        requires { HaveRoom changes.now self.old }
        ensures { SayOneMore AreIndexes (λ book entry. AreChanges book entry changes.now)
            self.old self.new }
    {
        self.registers.put(&changes.registers);
        self.places.put(&changes.places);
        self.movements.put(&changes.movements);
        self.clocks.put(&changes.clocks);
        put_all(&mut self.parts, &changes.parts);
        put(&mut self.programmes, &changes.programme);
        self.work.put(&changes.work);
        self.lives.put(&changes.lives);
        self.counts = changes.counts;
    }
}
