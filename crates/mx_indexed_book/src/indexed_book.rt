//! A book beside maps of its answers.
ghost use Rattle.std.specs.Prelude.{◌≡◌, ◌+◌, [], ◌∷◌, ◌++◌, length, false, true, OnOk, OnErr, IfOk, IfErr, IfSome};
ghost use Rattle.std.specs.List.{list_all, list_any};
ghost use Rattle.std.specs.Option.{option_copied, option_map, option_map_or};
ghost use Rattle.mx_book.specs.commands.Programme.{task_shape};
ghost use Rattle.mx_book.specs.Asking.{known_same, task_of};
ghost use Rattle.mx_book.specs.Defect.{defect, extension, is_rectified};
ghost use Rattle.mx_book.specs.Judge.{earliest_takeoff, judge, known_from};
ghost use Rattle.mx_book.specs.Life.{clock, life_now};
ghost use Rattle.mx_book.specs.Programme.{is_accomplished, is_at_end, life_ended, next_revision, tasks_in_force};
ghost use Rattle.mx_book.specs.Register.{aircraft, component, found_of, has_room_for_aircraft, has_room_for_component, part_at};
ghost use Rattle.mx_book.specs.Span.{is_taken, tail_fitted};
ghost use Rattle.mx_registers.specs.Names.{seq_of_item};
ghost use Rattle.mx_indexed_book.specs.maps.Programmes.{programme_entry};

use crate::maps::indexes::Indexes;
use crate::maps::maps::held;
use crate::maps::programmes::{one_retires, revision_after, task_named, tasks_loaded};
use mx_base::{Day, Doc, Kind, Moment, Part, Position, Serial, Tail, TaskId, Use};
use mx_book::commands::{Aircraft, Command, Component, Extension, Item, Task};
use mx_book::entry_list::{Book, NoMemory};
use mx_book::found::Found;
use mx_book::limits::{MOST_AIRCRAFT, MOST_COMPONENTS};
use mx_book::{Defect, Verdict};
use std::alloc::Global;
use std::marker::Model;

/// A book beside maps that answer what the judge asks of it. Contracts see the list of its entries, each of which was
/// judged new against those before it.
#[derive(Drop)]
pub struct IndexedBook {
    book: Book,
    indexes: Indexes,
    alloc: Global,
}

impl Model for IndexedBook {
    ghost use Rattle.std.specs.Prelude.{List};
    ghost use Rattle.mx_book.specs.commands.Act.{Entry};
    ghost use Rattle.mx_indexed_book.specs.maps.Indexed.{AreIndexes};

    ghost Value = { List Entry };

    ghost view = { λ a. a.book };

    ghost invariant = { λ a. AreIndexes a.book a.indexes };
}

impl IndexedBook {
    /// The empty book, which takes no memory.
    pub fn new(alloc: Global) -> IndexedBook
        ensures { result ≡ [] }
    {
        IndexedBook {
            book: Book::new(alloc),
            indexes: Indexes::new(alloc),
            alloc,
        }
    }

    /// The book alone.
    pub fn plain(&self) -> &Book
        ensures { result.now ≡ self.now }
    {
        &self.book
    }

    /// Whether there is room for one more aircraft.
    pub fn has_room_for_aircraft(&self) -> bool
        ensures { result ≡ has_room_for_aircraft self.now }
    {
        (self.indexes.counts.aircraft as usize) < MOST_AIRCRAFT
    }

    /// Whether there is room for one more component.
    pub fn has_room_for_component(&self) -> bool
        ensures { result ≡ has_room_for_component self.now }
    {
        (self.indexes.counts.components as usize) < MOST_COMPONENTS
    }

    /// The number of the entry with the document of a command, and whether it is the same command.
    pub fn known(&self, command: &Command) -> Option<(u32, bool)>
        ensures { result ≡ option_map (known_same command.now)
            (known_from command.now.doc 1 self.now) }
    {
        match held(&self.indexes.registers.documents, &command.doc(), None) {
            None => None,
            Some(seq) => match self.book.entry(seq) {
                None => None,
                Some(entry) => Some((seq, entry.is_same(command))),
            },
        }
    }

    /// The number of the entry that added the aircraft of an airframe, or the component.
    pub fn number_of(&self, item: &Item) -> Option<u32>
        ensures { result ≡ seq_of_item self.now item.now }
    {
        match item {
            Item::Airframe(tail) => held(&self.indexes.registers.aircraft, tail, None),
            Item::Component(serial) => held(&self.indexes.registers.components, serial, None),
        }
    }

    /// The aircraft with this registration.
    pub fn aircraft(&self, tail: &Tail) -> Option<Aircraft>
        ensures { result ≡ aircraft self.now tail.now }
    {
        match held(&self.indexes.registers.aircraft, tail, None) {
            None => None,
            Some(seq) => match self.book.entry(seq) {
                None => None,
                Some(entry) => entry.added_aircraft(),
            },
        }
    }

    /// The component with this serial number.
    pub fn component(&self, serial: &Serial) -> Option<Component>
        ensures { result ≡ component self.now serial.now }
    {
        match held(&self.indexes.registers.components, serial, None) {
            None => None,
            Some(seq) => match self.book.entry(seq) {
                None => None,
                Some(entry) => entry.added_component(),
            },
        }
    }

    /// The defect that was deferred by a document.
    pub fn defect(&self, doc: &Doc) -> Option<Defect>
        ensures { result ≡ defect self.now doc.now }
    {
        held(&self.indexes.registers.defects, doc, None)
    }

    /// The extension of a defect's interval.
    pub fn extension(&self, doc: &Doc) -> Option<Extension>
        ensures { result ≡ extension self.now doc.now }
    {
        held(&self.indexes.registers.extensions, doc, None)
    }

    /// The part that a position of an aircraft takes, or `None` where the aircraft does not have the position.
    pub fn part_at(&self, tail: &Tail, position: &Position) -> Option<Part>
        ensures { result ≡ part_at self.now tail.now position.now }
    {
        held(&self.indexes.parts, &(*tail, *position), None)
    }

    /// Whether a component is fitted to the position of an aircraft.
    pub fn is_taken(&self, tail: &Tail, position: &Position) -> bool
        ensures { result ≡ is_taken self.now tail.now position.now }
    {
        self.indexes.places.is_taken(tail, position)
    }

    /// The registration of the aircraft that a component is fitted to.
    pub fn tail_fitted(&self, serial: &Serial) -> Option<Tail>
        ensures { result ≡ tail_fitted self.now serial.now }
    {
        self.indexes.places.tail_fitted(serial)
    }

    /// The clock of an item: the latest moment that there is of it, or the first of all.
    pub fn clock(&self, item: &Item) -> Moment
        ensures { result ≡ clock self.now item.now }
    {
        self.indexes.clocks.of_item(item)
    }

    /// The earliest moment at which an aircraft takes off for its next sector.
    pub fn earliest_takeoff(&self, tail: &Tail) -> Moment
        ensures { result ≡ earliest_takeoff self.now tail.now }
    {
        self.indexes.clocks.of_airframe(tail)
    }

    /// Whether the task of an item was accomplished.
    pub fn is_accomplished(&self, item: &Item, id: &TaskId) -> bool
        ensures { result ≡ is_accomplished self.now item.now id.now }
    {
        self.indexes.work.is_accomplished(item, id)
    }

    /// Whether a defect was rectified.
    pub fn is_rectified(&self, doc: &Doc) -> bool
        ensures { result ≡ is_rectified self.now doc.now }
    {
        self.indexes.work.is_rectified(doc)
    }

    // The entry that loaded the programme in force of a kind.
    fn programme_entry(&self, kind: &Kind) -> Option<&Command>
        ensures { option_copied result ≡ programme_entry self.now kind.now }
    {
        match held(&self.indexes.programmes, kind, None) {
            Some(seq) => self.book.entry(seq),
            None => None,
        }
    }

    /// The revision that is loaded next for a kind: 1, or one more than that in force.
    pub fn next_revision(&self, kind: &Kind) -> u32
        ensures { result ≡ next_revision self.now kind.now }
    {
        match self.programme_entry(kind) {
            Some(entry) => revision_after(entry, kind),
            None => 1,
        }
    }

    // The tasks of the programme in force of a kind, each of its shape.
    fn tasks_in_force(&self, kind: &Kind) -> Option<&[Task]>
        ensures tasks { option_copied result ≡ tasks_in_force self.now kind.now }
        ensures shape { IfSome (option_copied result) (λ tasks. list_all task_shape tasks ≡ true) }
    {
        match self.programme_entry(kind) {
            Some(entry) => tasks_loaded(entry, kind),
            None => None,
        }
    }

    /// The task with a name in the programme in force of a kind, of its shape: `None` where the kind has no programme, and
    /// `Some(None)` where the programme does not have the task.
    #[tactic(auto, using(mx_book::proofs::ListLemmas::found_task))]
    pub fn task(&self, kind: &Kind, id: &TaskId) -> Option<Option<Task>>
        ensures task { result ≡ task_of self.now kind.now id.now }
        ensures shape { IfSome result (λ task. IfSome task (λ t. task_shape t ≡ true)) }
    {
        match self.tasks_in_force(kind) {
            Some(tasks) => Some(task_named(tasks, id)),
            None => None,
        }
    }

    /// What the registers have of an item.
    pub(crate) fn found_of(&self, item: &Item) -> Found
        ensures { result ≡ found_of self.now item.now }
    {
        match item {
            Item::Airframe(tail) => Found::Airframe(self.aircraft(tail)),
            Item::Component(serial) => Found::Component(self.component(serial)),
        }
    }

    /// The life of an item with all of its sectors, or `None` where the item is unknown.
    pub fn life_now(&self, item: &Item) -> Option<Use>
        ensures { result ≡ life_now self.now item.now }
    {
        let _ = self.book.len();
        self.indexes.lives.of_item(&self.indexes.places, item)
    }

    // Whether one of these tasks, each of its shape, retires an item by a day.
    fn is_retired_by(&self, tasks: &[Task], item: &Item, day: Day) -> bool
        requires { list_all task_shape tasks.now ≡ true }
        ensures { result ≡ option_map_or
            (λ life. list_any (is_at_end self.now item.now life day) tasks.now)
            (life_now self.now item.now) false }
    {
        let found = self.found_of(item);
        match self.life_now(item) {
            Some(life) => one_retires(&found, &life, day, tasks),
            None => false,
        }
    }

    /// Whether a task in force of a kind retires an item by a day, with the life that it has now.
    pub fn is_retired(&self, kind: &Kind, item: &Item, day: Day) -> bool
        ensures { result ≡ life_ended self.now kind.now item.now day }
    {
        match self.tasks_in_force(kind) {
            Some(tasks) => self.is_retired_by(tasks, item, day),
            None => false,
        }
    }

    /// Enters a command that is judged new, and answers its number. Where memory runs out the command is
    /// handed back, and the book is as it was.
    pub fn enter(&mut self, command: Command) -> Result<u32, (Command, NoMemory)>
        requires { judge self.old command ≡ Verdict.New }
        ensures entered { OnOk result (self.new ≡ self.old ++ command ∷ []) }
        ensures seq { IfOk result (λ seq. seq ≡ length self.old + 1) }
        ensures back { IfErr result (λ e. e.0 ≡ command) }
        ensures unchanged { OnErr result (self.new ≡ self.old) }
    {
        let _ = command.doc();
        let Ok(changes) = self
            .indexes
            .changes(self.alloc, &command, self.book.len() + 1)
        else {
            return Err((command, NoMemory));
        };
        if !self.indexes.make_room(&changes) {
            return Err((command, NoMemory));
        }
        match self.book.enter(command) {
            Ok(seq) => {
                self.indexes.put(&changes);
                Ok(seq)
            }
            Err(back) => Err(back),
        }
    }
}
