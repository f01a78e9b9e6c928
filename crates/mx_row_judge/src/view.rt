//! The rows that a transaction shows, as records that the judge asks.
use crate::known::known::known;
use crate::questions::Questions;
use mx_base::{Day, Doc, Kind, Moment, Part, Position, Serial, Tail, TaskId};
use mx_book::commands::{Aircraft, Command, Component, Extension, Item, Task};
use mx_book::{Defect, Records};
use mx_layout::TableFault;
use mx_lookups::defects::{defect, extension, is_rectified};
use mx_lookups::lives::lives::{clock, earliest_takeoff};
use mx_lookups::lives::programmes::{is_retired, next_revision, task};
use mx_lookups::lives::work::is_accomplished;
use mx_lookups::numbers::entries::entry_count;
use mx_lookups::numbers::items::{aircraft, component, part_at};
use mx_lookups::rooms::{has_room_for_aircraft, has_room_for_component};
use mx_lookups::spans::{is_taken, tail_fitted};
use sqlite::{Alter, Transaction};
use std::alloc::Global;

/// The rows that a transaction shows, which stand for each book as which they answer what they are asked, as for the one that
/// their tables stand for: each question is one look-up, no question changes a row, and the fault that stops one is that of the
/// look-up.
#[derive(Drop)]
pub struct Rows<'t, 'c, S: Alter, Q> {
    /// Where the rows that are found lie while they are looked at.
    pub alloc: Global,
    /// The transaction.
    pub tx: &'t mut Transaction<'c, S>,
    /// What they are asked.
    pub questions: Q,
}

impl<S: Alter, Q: Questions> Records for Rows<'_, '_, S, Q> {
    ghost use Rattle.mx_row_judge.specs.View.{rows_reading};

    type Fault = TableFault;

    ghost reading = { rows_reading S.Store Q.answers_as Q.damage };

    fn entry_count(&mut self) -> Result<usize, TableFault> {
        let count = entry_count(self.alloc, self.tx)?;
        Ok(count as usize)
    }

    fn has_room_for_aircraft(&mut self) -> Result<bool, TableFault> {
        has_room_for_aircraft(self.tx)
    }

    fn has_room_for_component(&mut self) -> Result<bool, TableFault> {
        has_room_for_component(self.tx)
    }

    fn known(&mut self, command: &Command) -> Result<Option<(u32, bool)>, TableFault> {
        // Rows answer as a book does for commands of their shape.
        let _ = command.doc();
        known(self.alloc, self.tx, command)
    }

    fn aircraft(&mut self, tail: &Tail) -> Result<Option<Aircraft>, TableFault> {
        aircraft(self.alloc, self.tx, tail)
    }

    fn component(&mut self, serial: &Serial) -> Result<Option<Component>, TableFault> {
        component(self.alloc, self.tx, serial)
    }

    fn part_at(&mut self, tail: &Tail, position: &Position) -> Result<Option<Part>, TableFault> {
        part_at(self.alloc, self.tx, tail, position)
    }

    fn is_taken(&mut self, tail: &Tail, position: &Position) -> Result<bool, TableFault> {
        is_taken(self.alloc, self.tx, tail, position)
    }

    fn tail_fitted(&mut self, serial: &Serial) -> Result<Option<Tail>, TableFault> {
        tail_fitted(self.alloc, self.tx, serial)
    }

    fn is_retired(&mut self, kind: &Kind, item: &Item, day: Day) -> Result<bool, TableFault> {
        is_retired(self.alloc, self.tx, kind, item, day)
    }

    fn clock(&mut self, item: &Item) -> Result<Moment, TableFault> {
        clock(self.alloc, self.tx, item)
    }

    fn earliest_takeoff(&mut self, tail: &Tail) -> Result<Moment, TableFault> {
        earliest_takeoff(self.alloc, self.tx, tail)
    }

    fn next_revision(&mut self, kind: &Kind) -> Result<u32, TableFault> {
        next_revision(self.alloc, self.tx, kind)
    }

    fn task(&mut self, kind: &Kind, id: &TaskId) -> Result<Option<Option<Task>>, TableFault> {
        task(self.alloc, self.tx, kind, id)
    }

    fn is_accomplished(&mut self, item: &Item, id: &TaskId) -> Result<bool, TableFault> {
        is_accomplished(self.alloc, self.tx, item, id)
    }

    fn defect(&mut self, doc: &Doc) -> Result<Option<Defect>, TableFault> {
        defect(self.alloc, self.tx, doc)
    }

    fn is_rectified(&mut self, doc: &Doc) -> Result<bool, TableFault> {
        is_rectified(self.alloc, self.tx, doc)
    }

    fn extension(&mut self, doc: &Doc) -> Result<Option<Extension>, TableFault> {
        extension(self.alloc, self.tx, doc)
    }
}
