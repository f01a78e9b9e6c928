//! The plain book as records: it reads its entries anew for each question, and answers each.
ghost use Rattle.std.specs.Prelude.{◌≡◌, IfOk, IfSome};
ghost use Rattle.mx_book.specs.due.Due.{IsLife};
ghost use Rattle.mx_book.specs.Life.{life_now, life_at};
ghost use Rattle.mx_book.specs.Defect.{open_defects};
ghost use Rattle.mx_book.specs.Judge.{judge};
ghost use Rattle.mx_plain_book.specs.Plain.{plain_reading};

use crate::defects::{defect_of_document, extension_of_defect, list_open_defects, was_rectified};
use crate::lives::{clock_of_airframe, clock_of_item, life};
use crate::programmes::{is_retired, revision_expected, task_in_programme, was_accomplished};
use crate::register::{
    aircraft_of_tail, component_of_serial, has_room_for_aircraft, has_room_for_component, known,
    part_at_position,
};
use crate::spans::{fitted_to, is_position_taken};
use mx_base::{Day, Doc, Kind, Moment, Part, Position, Serial, Tail, TaskId, Use};
use mx_book::commands::{Aircraft, Command, Component, Extension, Item, Task};
use mx_book::entry_list::{Book, NoMemory};
use mx_book::judging::verdict_on;
use mx_book::{Defect, Records, Verdict};
use std::alloc::Global;
use std::convert::Infallible;

/// A book that is read in place: no question changes it, and none is left without an answer.
#[derive(Drop)]
pub struct Plain<'a> {
    /// The book.
    pub book: &'a Book,
}

impl<'a> Plain<'a> {
    /// The verdict on a command: `Already` where an entry has its document and equal contents; else the
    /// refusal with the least number that applies; else `New`.
    pub fn judge(&self, command: &Command) -> Verdict
        ensures { result ≡ judge self.now.book.now command.now }
    {
        let mut records = Plain { book: self.book };
        match verdict_on(&mut records, command) {
            Ok(verdict) => verdict,
            Err(never) => match never {},
        }
    }

    /// The life of an item up to a moment, at most 1,540,000,000 minutes and 51,000,000 cycles, or `None` where the item is
    /// unknown.
    pub fn life(&self, item: &Item, moment: Moment) -> Option<Use>
        ensures life { result ≡ life_at self.now.book.now item.now moment }
        ensures bounded { IfSome result IsLife }
    {
        life(self.book.as_slice(), item, Some(moment.number()))
    }

    /// The life of an item with all of its sectors, at most 1,540,000,000 minutes and 51,000,000 cycles, or `None` where the
    /// item is unknown.
    pub fn life_now(&self, item: &Item) -> Option<Use>
        ensures life { result ≡ life_now self.now.book.now item.now }
        ensures bounded { IfSome result IsLife }
    {
        life(self.book.as_slice(), item, None)
    }

    /// The open defects of an aircraft, in the order of their entries; none of an unknown registration. `NoMemory` where
    /// memory runs out.
    pub fn open_defects(&self, alloc: Global, tail: &Tail) -> Result<Vec<Defect>, NoMemory>
        ensures { IfOk result (λ defects. defects.items ≡ open_defects self.now.book.now tail.now) }
    {
        Ok(list_open_defects(alloc, self.book.as_slice(), tail)?)
    }
}

impl<'a> Records for Plain<'a> {
    type Fault = Infallible;

    ghost reading = { plain_reading };

    fn entry_count(&mut self) -> Result<usize, Infallible> {
        Ok(self.book.len() as usize)
    }

    fn has_room_for_aircraft(&mut self) -> Result<bool, Infallible> {
        Ok(has_room_for_aircraft(self.book.as_slice()))
    }

    fn has_room_for_component(&mut self) -> Result<bool, Infallible> {
        Ok(has_room_for_component(self.book.as_slice()))
    }

    fn known(&mut self, command: &Command) -> Result<Option<(u32, bool)>, Infallible> {
        Ok(known(self.book.as_slice(), command))
    }

    fn aircraft(&mut self, tail: &Tail) -> Result<Option<Aircraft>, Infallible> {
        Ok(aircraft_of_tail(self.book.as_slice(), tail))
    }

    fn component(&mut self, serial: &Serial) -> Result<Option<Component>, Infallible> {
        Ok(component_of_serial(self.book.as_slice(), serial))
    }

    fn part_at(&mut self, tail: &Tail, position: &Position) -> Result<Option<Part>, Infallible> {
        Ok(part_at_position(self.book.as_slice(), tail, position))
    }

    fn is_taken(&mut self, tail: &Tail, position: &Position) -> Result<bool, Infallible> {
        Ok(is_position_taken(self.book.as_slice(), tail, position))
    }

    fn tail_fitted(&mut self, serial: &Serial) -> Result<Option<Tail>, Infallible> {
        Ok(fitted_to(self.book.as_slice(), serial))
    }

    fn is_retired(&mut self, kind: &Kind, item: &Item, day: Day) -> Result<bool, Infallible> {
        Ok(is_retired(self.book.as_slice(), kind, item, day))
    }

    fn clock(&mut self, item: &Item) -> Result<Moment, Infallible> {
        Ok(clock_of_item(self.book.as_slice(), item))
    }

    fn earliest_takeoff(&mut self, tail: &Tail) -> Result<Moment, Infallible> {
        Ok(clock_of_airframe(self.book.as_slice(), tail))
    }

    fn next_revision(&mut self, kind: &Kind) -> Result<u32, Infallible> {
        Ok(revision_expected(self.book.as_slice(), kind))
    }

    fn task(&mut self, kind: &Kind, id: &TaskId) -> Result<Option<Option<Task>>, Infallible> {
        Ok(task_in_programme(self.book.as_slice(), kind, id))
    }

    fn is_accomplished(&mut self, item: &Item, id: &TaskId) -> Result<bool, Infallible> {
        Ok(was_accomplished(self.book.as_slice(), item, id))
    }

    fn defect(&mut self, doc: &Doc) -> Result<Option<Defect>, Infallible> {
        Ok(defect_of_document(self.book.as_slice(), doc))
    }

    fn is_rectified(&mut self, doc: &Doc) -> Result<bool, Infallible> {
        Ok(was_rectified(self.book.as_slice(), doc))
    }

    fn extension(&mut self, doc: &Doc) -> Result<Option<Extension>, Infallible> {
        Ok(extension_of_defect(self.book.as_slice(), doc))
    }
}
