//! What lists ask of records, beside what judging does.
//!
//! An open defect is answered with what was deferred, its document among that: whoever asks for it asks for its last
//! day next.
ghost use Rattle.std.specs.Prelude.{◌≡◌, true, IfOk, IfSome};
ghost use Rattle.std.specs.List.{list_all};
ghost use Rattle.mx_book.specs.commands.Programme.{task_shape};
ghost use Rattle.mx_book.specs.due.Due.{IsBase};
ghost use Rattle.mx_book.specs.Base.{base};
ghost use Rattle.mx_book.specs.Defect.{open_defects};
ghost use Rattle.mx_book.specs.Life.{life_now};
ghost use Rattle.mx_book.specs.Programme.{tasks_or_none};
ghost use Rattle.mx_book.specs.Reading.{Answers};
ghost use Rattle.mx_lists.specs.Fitted.{fitted_on};
ghost use Rattle.mx_lists.specs.Fleet.{all_open, tails};
ghost use Rattle.mx_lists.specs.Inventory.{place_fitted, serials};
ghost use Rattle.mx_lists.specs.Memory.{with_memory, seen_as};

use crate::stop::Stop;
use mx_base::{Base, Kind, Position, Serial, Tail, TaskId, Use};
use mx_book::commands::{Item, Task};
use mx_book::{Defect, Records};
use std::alloc::Global;

/// Records of which lists are made. A look-up that answers a list takes memory, and stops where that runs out.
pub trait ListRecords: Records {
    /// The life of an item with all of its sectors, or `None` where the item is unknown.
    fn life(&mut self, item: &Item) -> Result<Option<Use>, Self::Fault>
        ensures { Answers Self.reading self.old self.new result
            (λ book. life_now book item.now) };

    /// The base of the last accomplishment of a task of an item, or `None` without one.
    fn base(&mut self, item: &Item, task: &TaskId) -> Result<Option<Base>, Self::Fault>
        ensures answers { Answers Self.reading self.old self.new result
            (λ book. base book item.now task.now) }
        ensures bounded { IfOk result (λ base. IfSome base IsBase) };

    /// The tasks of the programme in force of a kind, none where it has no programme.
    fn tasks(&mut self, alloc: Global, kind: &Kind) -> Result<Vec<Task>, Stop<Self::Fault>>
        ensures answers { Answers (with_memory Self.reading) self.old self.new
            (seen_as (λ tasks. tasks.items) result) (λ book. tasks_or_none book kind.now) }
        ensures shape { IfOk result (λ tasks. list_all task_shape tasks.items ≡ true) };

    /// The components that are fitted to an aircraft, each behind its position, in the order of their fittings.
    fn fitted(
        &mut self,
        alloc: Global,
        tail: &Tail,
    ) -> Result<Vec<(Position, Serial)>, Stop<Self::Fault>>
        ensures { Answers (with_memory Self.reading) self.old self.new
            (seen_as (λ places. places.items) result) (λ book. fitted_on tail.now book) };

    /// The registrations of all aircraft, in the order of their entries.
    fn tails(&mut self, alloc: Global) -> Result<Vec<Tail>, Stop<Self::Fault>>
        ensures { Answers (with_memory Self.reading) self.old self.new
            (seen_as (λ tails. tails.items) result) (λ book. tails book) };

    /// The serial numbers of all components, in the order of their entries.
    fn serials(&mut self, alloc: Global) -> Result<Vec<Serial>, Stop<Self::Fault>>
        ensures { Answers (with_memory Self.reading) self.old self.new
            (seen_as (λ serials. serials.items) result) (λ book. serials book) };

    /// The aircraft that a component is fitted to, and the position there, or `None` where it is fitted nowhere.
    fn place(&mut self, serial: &Serial) -> Result<Option<(Tail, Position)>, Self::Fault>
        ensures { Answers Self.reading self.old self.new result
            (λ book. place_fitted book serial.now) };

    /// The open defects of all aircraft, in the order of their entries.
    fn all_open_defects(&mut self, alloc: Global) -> Result<Vec<Defect>, Stop<Self::Fault>>
        ensures { Answers (with_memory Self.reading) self.old self.new
            (seen_as (λ defects. defects.items) result) (λ book. all_open book) };

    /// The open defects of an aircraft, in the order of their entries.
    fn open_defects(&mut self, alloc: Global, tail: &Tail) -> Result<Vec<Defect>, Stop<Self::Fault>>
        ensures { Answers (with_memory Self.reading) self.old self.new
            (seen_as (λ defects. defects.items) result) (λ book. open_defects book tail.now) };
}
