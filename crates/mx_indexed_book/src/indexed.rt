//! A book beside its maps as records: the maps answer each question.
ghost use Rattle.std.specs.Prelude.{◌≡◌};
ghost use Rattle.mx_book.specs.Judge.{judge};
ghost use Rattle.mx_indexed_book.specs.Reading.{indexed_reading};

use crate::indexed_book::IndexedBook;
use mx_base::{Day, Doc, Kind, Moment, Part, Position, Serial, Tail, TaskId};
use mx_book::commands::{Aircraft, Command, Component, Extension, Item, Task};
use mx_book::judging::verdict_on;
use mx_book::{Defect, Records, Verdict};
use std::convert::Infallible;

/// A book beside its maps that is read in place: no question changes it, and none is left without an answer.
#[derive(Drop)]
pub struct Indexed<'a> {
    /// The book.
    pub book: &'a IndexedBook,
}

impl<'a> Records for Indexed<'a> {
    type Fault = Infallible;

    ghost reading = { indexed_reading };

    fn entry_count(&mut self) -> Result<usize, Infallible> {
        Ok(self.book.plain().len() as usize)
    }

    fn has_room_for_aircraft(&mut self) -> Result<bool, Infallible> {
        Ok(self.book.has_room_for_aircraft())
    }

    fn has_room_for_component(&mut self) -> Result<bool, Infallible> {
        Ok(self.book.has_room_for_component())
    }

    fn known(&mut self, command: &Command) -> Result<Option<(u32, bool)>, Infallible> {
        Ok(self.book.known(command))
    }

    fn aircraft(&mut self, tail: &Tail) -> Result<Option<Aircraft>, Infallible> {
        Ok(self.book.aircraft(tail))
    }

    fn component(&mut self, serial: &Serial) -> Result<Option<Component>, Infallible> {
        Ok(self.book.component(serial))
    }

    fn part_at(&mut self, tail: &Tail, position: &Position) -> Result<Option<Part>, Infallible> {
        Ok(self.book.part_at(tail, position))
    }

    fn is_taken(&mut self, tail: &Tail, position: &Position) -> Result<bool, Infallible> {
        Ok(self.book.is_taken(tail, position))
    }

    fn tail_fitted(&mut self, serial: &Serial) -> Result<Option<Tail>, Infallible> {
        Ok(self.book.tail_fitted(serial))
    }

    fn is_retired(&mut self, kind: &Kind, item: &Item, day: Day) -> Result<bool, Infallible> {
        Ok(self.book.is_retired(kind, item, day))
    }

    fn clock(&mut self, item: &Item) -> Result<Moment, Infallible> {
        Ok(self.book.clock(item))
    }

    fn earliest_takeoff(&mut self, tail: &Tail) -> Result<Moment, Infallible> {
        Ok(self.book.earliest_takeoff(tail))
    }

    fn next_revision(&mut self, kind: &Kind) -> Result<u32, Infallible> {
        Ok(self.book.next_revision(kind))
    }

    fn task(&mut self, kind: &Kind, id: &TaskId) -> Result<Option<Option<Task>>, Infallible> {
        Ok(self.book.task(kind, id))
    }

    fn is_accomplished(&mut self, item: &Item, id: &TaskId) -> Result<bool, Infallible> {
        Ok(self.book.is_accomplished(item, id))
    }

    fn defect(&mut self, doc: &Doc) -> Result<Option<Defect>, Infallible> {
        Ok(self.book.defect(doc))
    }

    fn is_rectified(&mut self, doc: &Doc) -> Result<bool, Infallible> {
        Ok(self.book.is_rectified(doc))
    }

    fn extension(&mut self, doc: &Doc) -> Result<Option<Extension>, Infallible> {
        Ok(self.book.extension(doc))
    }
}

/// The verdict on a command: `Already` where an entry has its document and equal contents; else the
/// refusal with the least number that applies; else `New`.
pub fn judge(book: &IndexedBook, command: &Command) -> Verdict
    ensures { result ≡ judge book.now command.now }
{
    let mut records = Indexed { book };
    match verdict_on(&mut records, command) {
        Ok(verdict) => verdict,
        Err(never) => match never {},
    }
}
