//! The plain book as records of which lists are made.
ghost use Rattle.std.specs.Prelude.{◌≡◌, IfOk};

use crate::Plain;
use crate::bases::last_base;
use crate::defects::{list_all_open, list_open_defects};
use crate::fitted::places_fitted;
use crate::lives::life;
use crate::programmes::tasks_of_kind;
use crate::register::{serials_of, tails_of};
use crate::spans::place_of;
use mx_base::{Base, Kind, Position, Serial, Tail, TaskId, Use};
use mx_book::Defect;
use mx_book::commands::{Item, Task};
use mx_book::entry_list::NoMemory;
use mx_lists::{ListRecords, Stop};
use std::alloc::Global;
use std::convert::Infallible;

impl<'a> ListRecords for Plain<'a> {
    fn life(&mut self, item: &Item) -> Result<Option<Use>, Infallible> {
        Ok(life(self.book.as_slice(), item, None))
    }

    fn base(&mut self, item: &Item, task: &TaskId) -> Result<Option<Base>, Infallible> {
        Ok(last_base(self.book.as_slice(), item, task))
    }

    fn tasks(&mut self, alloc: Global, kind: &Kind) -> Result<Vec<Task>, Stop<Infallible>> {
        Ok(tasks_of_kind(alloc, self.book.as_slice(), kind)?)
    }

    fn fitted(
        &mut self,
        alloc: Global,
        tail: &Tail,
    ) -> Result<Vec<(Position, Serial)>, Stop<Infallible>> {
        Ok(places_fitted(alloc, self.book.as_slice(), tail)?)
    }

    fn tails(&mut self, alloc: Global) -> Result<Vec<Tail>, Stop<Infallible>> {
        Ok(tails_of(alloc, self.book.as_slice())?)
    }

    fn serials(&mut self, alloc: Global) -> Result<Vec<Serial>, Stop<Infallible>> {
        Ok(serials_of(alloc, self.book.as_slice())?)
    }

    fn place(&mut self, serial: &Serial) -> Result<Option<(Tail, Position)>, Infallible> {
        Ok(place_of(self.book.as_slice(), serial))
    }

    fn all_open_defects(&mut self, alloc: Global) -> Result<Vec<Defect>, Stop<Infallible>> {
        Ok(list_all_open(alloc, self.book.as_slice())?)
    }

    fn open_defects(
        &mut self,
        alloc: Global,
        tail: &Tail,
    ) -> Result<Vec<Defect>, Stop<Infallible>> {
        Ok(list_open_defects(alloc, self.book.as_slice(), tail)?)
    }
}

/// What is answered of a book: nothing but want of memory stops it.
pub(crate) fn unless_no_memory<T>(answer: Result<T, Stop<Infallible>>) -> Result<T, NoMemory>
    ensures { IfOk result (λ value. answer ≡ Ok value) }
{
    match answer {
        Ok(value) => Ok(value),
        Err(Stop::NoMemory) => Err(NoMemory),
        Err(Stop::Fault(never)) => match never {},
    }
}
