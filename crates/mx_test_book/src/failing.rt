//! A book whose questions run out, as records: it shows that judging and the lists hand a fault on.
ghost use Rattle.std.specs.Prelude.{◌≡◌, ◌+◌, OnOk, OnErr};
ghost use Rattle.mx_lists.specs.Memory.{with_memory};
ghost use Rattle.mx_book.specs.Reading.{GoesOn};
ghost use Rattle.mx_test_book.specs.Failing.{failing_reading};

use mx_base::{Base, Day, Doc, Kind, Moment, Part, Position, Serial, Tail, TaskId, Use};
use mx_book::commands::{Aircraft, Command, Component, Extension, Item, Task};
use mx_book::entry_list::Book;
use mx_book::{Defect, Records};
use mx_lists::{ListRecords, Stop};
use mx_plain_book::Plain;
use std::alloc::Global;
use std::convert::Infallible;

/// Why a question was not answered: there were no more.
#[derive(Clone, Copy, Debug, PartialEq, Eq)]
pub struct Interrupted {
    /// What the records were told to answer.
    pub code: u32,
}

/// A book that answers so many questions as the plain book does, and then none.
#[derive(Drop)]
pub struct Failing<'a> {
    /// The book.
    pub book: &'a Book,
    /// How many questions are left.
    pub left: u32,
    /// The code of the fault that follows them.
    pub code: u32,
}

impl<'a> Failing<'a> {
    // Counts a question, where one is left.
    fn count(&mut self) -> Result<(), Interrupted>
        ensures asked { GoesOn failing_reading self.old self.new result }
        ensures book { self.new.book.now ≡ self.old.book.now }
        ensures counted { OnOk result (self.new.left + 1 ≡ self.old.left) }
        ensures none_left { OnErr result (self.old.left ≡ 0) }
    {
        if self.left == 0 {
            return Err(Interrupted { code: self.code });
        }
        self.left -= 1;
        Ok(())
    }

    // The same before a question that takes memory.
    fn count_or_stop(&mut self) -> Result<(), Stop<Interrupted>>
        ensures asked { GoesOn (with_memory failing_reading) self.old self.new result }
        ensures book { self.new.book.now ≡ self.old.book.now }
        ensures counted { OnOk result (self.new.left + 1 ≡ self.old.left) }
        ensures none_left { OnErr result (self.old.left ≡ 0) }
    {
        match self.count() {
            Ok(()) => Ok(()),
            Err(fault) => Err(Stop::Fault(fault)),
        }
    }
}

// What the plain book answers, which has no fault.
fn answered<T>(answer: Result<T, Infallible>) -> T
    ensures { answer ≡ Ok result }
{
    match answer {
        Ok(value) => value,
        Err(never) => match never {},
    }
}

impl<'a> Records for Failing<'a> {
    type Fault = Interrupted;

    ghost reading = { failing_reading };

    fn entry_count(&mut self) -> Result<usize, Interrupted> {
        self.count()?;
        let mut plain = Plain { book: self.book };
        Ok(answered(plain.entry_count()))
    }

    fn has_room_for_aircraft(&mut self) -> Result<bool, Interrupted> {
        self.count()?;
        let mut plain = Plain { book: self.book };
        Ok(answered(plain.has_room_for_aircraft()))
    }

    fn has_room_for_component(&mut self) -> Result<bool, Interrupted> {
        self.count()?;
        let mut plain = Plain { book: self.book };
        Ok(answered(plain.has_room_for_component()))
    }

    fn known(&mut self, command: &Command) -> Result<Option<(u32, bool)>, Interrupted> {
        self.count()?;
        let mut plain = Plain { book: self.book };
        Ok(answered(plain.known(command)))
    }

    fn aircraft(&mut self, tail: &Tail) -> Result<Option<Aircraft>, Interrupted> {
        self.count()?;
        let mut plain = Plain { book: self.book };
        Ok(answered(plain.aircraft(tail)))
    }

    fn component(&mut self, serial: &Serial) -> Result<Option<Component>, Interrupted> {
        self.count()?;
        let mut plain = Plain { book: self.book };
        Ok(answered(plain.component(serial)))
    }

    fn part_at(&mut self, tail: &Tail, position: &Position) -> Result<Option<Part>, Interrupted> {
        self.count()?;
        let mut plain = Plain { book: self.book };
        Ok(answered(plain.part_at(tail, position)))
    }

    fn is_taken(&mut self, tail: &Tail, position: &Position) -> Result<bool, Interrupted> {
        self.count()?;
        let mut plain = Plain { book: self.book };
        Ok(answered(plain.is_taken(tail, position)))
    }

    fn tail_fitted(&mut self, serial: &Serial) -> Result<Option<Tail>, Interrupted> {
        self.count()?;
        let mut plain = Plain { book: self.book };
        Ok(answered(plain.tail_fitted(serial)))
    }

    fn is_retired(&mut self, kind: &Kind, item: &Item, day: Day) -> Result<bool, Interrupted> {
        self.count()?;
        let mut plain = Plain { book: self.book };
        Ok(answered(plain.is_retired(kind, item, day)))
    }

    fn clock(&mut self, item: &Item) -> Result<Moment, Interrupted> {
        self.count()?;
        let mut plain = Plain { book: self.book };
        Ok(answered(plain.clock(item)))
    }

    fn earliest_takeoff(&mut self, tail: &Tail) -> Result<Moment, Interrupted> {
        self.count()?;
        let mut plain = Plain { book: self.book };
        Ok(answered(plain.earliest_takeoff(tail)))
    }

    fn next_revision(&mut self, kind: &Kind) -> Result<u32, Interrupted> {
        self.count()?;
        let mut plain = Plain { book: self.book };
        Ok(answered(plain.next_revision(kind)))
    }

    fn task(&mut self, kind: &Kind, id: &TaskId) -> Result<Option<Option<Task>>, Interrupted> {
        self.count()?;
        let mut plain = Plain { book: self.book };
        Ok(answered(plain.task(kind, id)))
    }

    fn is_accomplished(&mut self, item: &Item, id: &TaskId) -> Result<bool, Interrupted> {
        self.count()?;
        let mut plain = Plain { book: self.book };
        Ok(answered(plain.is_accomplished(item, id)))
    }

    fn defect(&mut self, doc: &Doc) -> Result<Option<Defect>, Interrupted> {
        self.count()?;
        let mut plain = Plain { book: self.book };
        Ok(answered(plain.defect(doc)))
    }

    fn is_rectified(&mut self, doc: &Doc) -> Result<bool, Interrupted> {
        self.count()?;
        let mut plain = Plain { book: self.book };
        Ok(answered(plain.is_rectified(doc)))
    }

    fn extension(&mut self, doc: &Doc) -> Result<Option<Extension>, Interrupted> {
        self.count()?;
        let mut plain = Plain { book: self.book };
        Ok(answered(plain.extension(doc)))
    }
}

impl<'a> ListRecords for Failing<'a> {
    fn life(&mut self, item: &Item) -> Result<Option<Use>, Interrupted> {
        self.count()?;
        let mut plain = Plain { book: self.book };
        Ok(answered(ListRecords::life(&mut plain, item)))
    }

    fn base(&mut self, item: &Item, task: &TaskId) -> Result<Option<Base>, Interrupted> {
        self.count()?;
        let mut plain = Plain { book: self.book };
        Ok(answered(plain.base(item, task)))
    }

    fn tasks(&mut self, alloc: Global, kind: &Kind) -> Result<Vec<Task>, Stop<Interrupted>> {
        self.count_or_stop()?;
        let mut plain = Plain { book: self.book };
        match plain.tasks(alloc, kind) {
            Ok(tasks) => Ok(tasks),
            Err(Stop::NoMemory) => Err(Stop::NoMemory),
            Err(Stop::Fault(never)) => match never {},
        }
    }

    fn fitted(
        &mut self,
        alloc: Global,
        tail: &Tail,
    ) -> Result<Vec<(Position, Serial)>, Stop<Interrupted>> {
        self.count_or_stop()?;
        let mut plain = Plain { book: self.book };
        match plain.fitted(alloc, tail) {
            Ok(places) => Ok(places),
            Err(Stop::NoMemory) => Err(Stop::NoMemory),
            Err(Stop::Fault(never)) => match never {},
        }
    }

    fn tails(&mut self, alloc: Global) -> Result<Vec<Tail>, Stop<Interrupted>> {
        self.count_or_stop()?;
        let mut plain = Plain { book: self.book };
        match plain.tails(alloc) {
            Ok(found) => Ok(found),
            Err(Stop::NoMemory) => Err(Stop::NoMemory),
            Err(Stop::Fault(never)) => match never {},
        }
    }

    fn serials(&mut self, alloc: Global) -> Result<Vec<Serial>, Stop<Interrupted>> {
        self.count_or_stop()?;
        let mut plain = Plain { book: self.book };
        match plain.serials(alloc) {
            Ok(found) => Ok(found),
            Err(Stop::NoMemory) => Err(Stop::NoMemory),
            Err(Stop::Fault(never)) => match never {},
        }
    }

    fn place(&mut self, serial: &Serial) -> Result<Option<(Tail, Position)>, Interrupted> {
        self.count()?;
        let mut plain = Plain { book: self.book };
        Ok(answered(plain.place(serial)))
    }

    fn all_open_defects(&mut self, alloc: Global) -> Result<Vec<Defect>, Stop<Interrupted>> {
        self.count_or_stop()?;
        let mut plain = Plain { book: self.book };
        match plain.all_open_defects(alloc) {
            Ok(found) => Ok(found),
            Err(Stop::NoMemory) => Err(Stop::NoMemory),
            Err(Stop::Fault(never)) => match never {},
        }
    }

    fn open_defects(
        &mut self,
        alloc: Global,
        tail: &Tail,
    ) -> Result<Vec<Defect>, Stop<Interrupted>> {
        self.count_or_stop()?;
        let mut plain = Plain { book: self.book };
        match ListRecords::open_defects(&mut plain, alloc, tail) {
            Ok(defects) => Ok(defects),
            Err(Stop::NoMemory) => Err(Stop::NoMemory),
            Err(Stop::Fault(never)) => match never {},
        }
    }
}
