//! What judging asks of records: of the plain book, or of whatever else stands for a book.
//!
//! When an aircraft takes off at the earliest is a look-up of its own, and no question of a clock, so that what holds
//! for sectors is one definition. Whether there is room for one more aircraft or component is asked, and not how many
//! there are, since records that are kept as rows need not count them to know.
ghost use Rattle.std.specs.Prelude.{◌≡◌, true, length, IfOk, IfSome};
ghost use Rattle.std.specs.Option.{option_map};
ghost use Rattle.mx_book.specs.commands.Programme.{task_shape};
ghost use Rattle.mx_book.specs.Register.{aircraft, component, part_at, has_room_for_aircraft, has_room_for_component};
ghost use Rattle.mx_book.specs.Span.{tail_fitted, is_taken};
ghost use Rattle.mx_book.specs.Life.{clock};
ghost use Rattle.mx_book.specs.Programme.{life_ended, next_revision, is_accomplished};
ghost use Rattle.mx_book.specs.Defect.{defect, is_rectified, extension};
ghost use Rattle.mx_book.specs.Judge.{known_from, earliest_takeoff};
ghost use Rattle.mx_book.specs.Reading.{Reading, Answers};
ghost use Rattle.mx_book.specs.Asking.{known_same, task_of};

use crate::commands::{Aircraft, Command, Component, Extension, Item, Task};
use crate::defects::Defect;
use mx_base::{Day, Doc, Kind, Moment, Part, Position, Serial, Tail, TaskId};

/// Records that stand for a book. Each look-up answers what one definition says of that book, or the fault that stopped it;
/// none takes memory. Asking may change the records, and not the book: `reading` says which book they stand for, and what
/// questions leave of them.
pub trait Records {
    /// Why a question is not answered; a type without a value where each is.
    type Fault;

    ghost reading: { Reading Self Self.Fault };

    /// How many entries there are.
    fn entry_count(&mut self) -> Result<usize, Self::Fault>
        ensures { Answers reading self.old self.new result (λ book. length book) };

    /// Whether there is room for one more aircraft.
    fn has_room_for_aircraft(&mut self) -> Result<bool, Self::Fault>
        ensures { Answers reading self.old self.new result (λ book. has_room_for_aircraft book) };

    /// Whether there is room for one more component.
    fn has_room_for_component(&mut self) -> Result<bool, Self::Fault>
        ensures { Answers reading self.old self.new result (λ book. has_room_for_component book) };

    /// The number of the entry with the document of a command, and whether it is the same command.
    fn known(&mut self, command: &Command) -> Result<Option<(u32, bool)>, Self::Fault>
        ensures { Answers reading self.old self.new result
            (λ book. option_map (known_same command.now) (known_from command.now.doc 1 book)) };

    /// The aircraft with this registration.
    fn aircraft(&mut self, tail: &Tail) -> Result<Option<Aircraft>, Self::Fault>
        ensures { Answers reading self.old self.new result (λ book. aircraft book tail.now) };

    /// The component with this serial number.
    fn component(&mut self, serial: &Serial) -> Result<Option<Component>, Self::Fault>
        ensures { Answers reading self.old self.new result (λ book. component book serial.now) };

    /// The part that a position of an aircraft takes, or `None` where the aircraft does not have the position.
    fn part_at(&mut self, tail: &Tail, position: &Position) -> Result<Option<Part>, Self::Fault>
        ensures { Answers reading self.old self.new result
            (λ book. part_at book tail.now position.now) };

    /// Whether a component is fitted to the position of an aircraft.
    fn is_taken(&mut self, tail: &Tail, position: &Position) -> Result<bool, Self::Fault>
        ensures { Answers reading self.old self.new result
            (λ book. is_taken book tail.now position.now) };

    /// The registration of the aircraft that a component is fitted to, or `None` where it is fitted nowhere.
    fn tail_fitted(&mut self, serial: &Serial) -> Result<Option<Tail>, Self::Fault>
        ensures { Answers reading self.old self.new result (λ book. tail_fitted book serial.now) };

    /// Whether a task in force of a kind retires an item by a day, with the life that it has now.
    fn is_retired(&mut self, kind: &Kind, item: &Item, day: Day) -> Result<bool, Self::Fault>
        ensures { Answers reading self.old self.new result
            (λ book. life_ended book kind.now item.now day) };

    /// The clock of an item: the latest moment that there is of it, or the first of all.
    fn clock(&mut self, item: &Item) -> Result<Moment, Self::Fault>
        ensures { Answers reading self.old self.new result (λ book. clock book item.now) };

    /// The earliest moment at which an aircraft takes off for its next sector.
    fn earliest_takeoff(&mut self, tail: &Tail) -> Result<Moment, Self::Fault>
        ensures { Answers reading self.old self.new result
            (λ book. earliest_takeoff book tail.now) };

    /// The revision that is loaded next for a kind: 1, or one more than that in force.
    fn next_revision(&mut self, kind: &Kind) -> Result<u32, Self::Fault>
        ensures { Answers reading self.old self.new result (λ book. next_revision book kind.now) };

    /// The task with a name in the programme in force of a kind: `None` without one, `Some(None)` where it lacks the task.
    fn task(&mut self, kind: &Kind, id: &TaskId) -> Result<Option<Option<Task>>, Self::Fault>
        ensures answers { Answers reading self.old self.new result
            (λ book. task_of book kind.now id.now) }
        ensures shape { IfOk result
            (λ found. IfSome found (λ task. IfSome task (λ t. task_shape t ≡ true))) };

    /// Whether the task of an item was accomplished.
    fn is_accomplished(&mut self, item: &Item, id: &TaskId) -> Result<bool, Self::Fault>
        ensures { Answers reading self.old self.new result
            (λ book. is_accomplished book item.now id.now) };

    /// The defect that was deferred by a document.
    fn defect(&mut self, doc: &Doc) -> Result<Option<Defect>, Self::Fault>
        ensures { Answers reading self.old self.new result (λ book. defect book doc.now) };

    /// Whether a defect was rectified.
    fn is_rectified(&mut self, doc: &Doc) -> Result<bool, Self::Fault>
        ensures { Answers reading self.old self.new result (λ book. is_rectified book doc.now) };

    /// The extension of a defect's interval.
    fn extension(&mut self, doc: &Doc) -> Result<Option<Extension>, Self::Fault>
        ensures { Answers reading self.old self.new result (λ book. extension book doc.now) };
}
