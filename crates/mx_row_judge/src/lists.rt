//! The rows that a transaction shows, as records of which lists are made.
use crate::questions::ListQuestions;
use crate::view::Rows;
use mx_base::{Base, Kind, Position, Serial, Tail, TaskId, Use};
use mx_book::Defect;
use mx_book::commands::{Item, Task};
use mx_layout::TableFault;
use mx_lists::{ListRecords, Stop};
use mx_lookups::fleet::{all_open_defects, serials, tails};
use mx_lookups::lists::{fitted, open_defects};
use mx_lookups::lives::lives::life;
use mx_lookups::lives::programmes::tasks;
use mx_lookups::lives::work::base;
use mx_lookups::spans::place_fitted;
use sqlite::Alter;
use std::alloc::Global;

impl<S: Alter> ListRecords for Rows<'_, '_, S, ListQuestions> {
    fn life(&mut self, item: &Item) -> Result<Option<Use>, TableFault> {
        life(self.alloc, self.tx, item)
    }

    fn base(&mut self, item: &Item, task: &TaskId) -> Result<Option<Base>, TableFault> {
        base(self.alloc, self.tx, item, task)
    }

    fn tasks(&mut self, alloc: Global, kind: &Kind) -> Result<Vec<Task>, Stop<TableFault>> {
        match tasks(alloc, self.tx, kind) {
            Ok(tasks) => Ok(tasks),
            Err(fault) => Err(Stop::Fault(fault)),
        }
    }

    fn fitted(
        &mut self,
        alloc: Global,
        tail: &Tail,
    ) -> Result<Vec<(Position, Serial)>, Stop<TableFault>> {
        match fitted(alloc, self.tx, tail) {
            Ok(places) => Ok(places),
            Err(fault) => Err(Stop::Fault(fault)),
        }
    }

    fn tails(&mut self, alloc: Global) -> Result<Vec<Tail>, Stop<TableFault>> {
        match tails(alloc, self.tx) {
            Ok(tails) => Ok(tails),
            Err(fault) => Err(Stop::Fault(fault)),
        }
    }

    fn serials(&mut self, alloc: Global) -> Result<Vec<Serial>, Stop<TableFault>> {
        match serials(alloc, self.tx) {
            Ok(serials) => Ok(serials),
            Err(fault) => Err(Stop::Fault(fault)),
        }
    }

    fn place(&mut self, serial: &Serial) -> Result<Option<(Tail, Position)>, TableFault> {
        place_fitted(self.alloc, self.tx, serial)
    }

    fn all_open_defects(&mut self, alloc: Global) -> Result<Vec<Defect>, Stop<TableFault>> {
        match all_open_defects(alloc, self.tx) {
            Ok(defects) => Ok(defects),
            Err(fault) => Err(Stop::Fault(fault)),
        }
    }

    fn open_defects(
        &mut self,
        alloc: Global,
        tail: &Tail,
    ) -> Result<Vec<Defect>, Stop<TableFault>> {
        match open_defects(alloc, self.tx, tail) {
            Ok(defects) => Ok(defects),
            Err(fault) => Err(Stop::Fault(fault)),
        }
    }
}
