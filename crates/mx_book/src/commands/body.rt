//! What a command says.
ghost use Rattle.std.specs.Prelude.{◌≡◌, IfOk};
ghost use Rattle.mx_book.specs.commands.Act.{act_of};

use crate::commands::item::Item;
use crate::commands::programme::Task;
use crate::commands::release::{Line, Place};
use crate::commands::said::Said;
use mx_base::{
    Category, Day, Doc, Kind, MelRef, Moment, Part, Position, Serial, Tail, TaskId, Use,
};
use std::alloc::{AllocError, Global};

/// What a command says, a variant for each kind of command.
#[derive(Debug, PartialEq, Eq, Drop)]
pub enum Body {
    /// An aircraft comes into the records.
    AddAircraft {
        /// Its registration.
        tail: Tail,
        /// The kind that its maintenance programme is for.
        kind: Kind,
        /// The day on which it was built, at the latest the day of `as_of`.
        birth: Day,
        /// The airframe's use before the records begin: up to 100,000,000 minutes and 1,000,000 cycles.
        opening: Use,
        /// The moment up to which the opening counts.
        as_of: Moment,
        /// The positions that components are fitted to, each with the part that it takes: up to 40, of distinct
        /// names.
        positions: Vec<(Position, Part)>,
    },
    /// A component comes into the records.
    AddComponent {
        /// Its serial number, which names it in the whole office.
        serial: Serial,
        /// The part that it is one of.
        part: Part,
        /// The day on which it was made, at the latest the day of `as_of`.
        birth: Day,
        /// Its use before the records begin: up to 100,000,000 minutes and 1,000,000 cycles.
        opening: Use,
        /// The moment up to which the opening counts.
        as_of: Moment,
    },
    /// A revision of the maintenance programme of a kind comes into force.
    LoadProgramme {
        /// The kind of aircraft that it is for.
        kind: Kind,
        /// Its revision, 1 to 1,000,000.
        revision: u32,
        /// Its tasks: 1 to 500, of distinct names.
        tasks: Vec<Task>,
    },
    /// How far a task had come when its item came into the records.
    Opening {
        /// The airframe or the component.
        item: Item,
        /// The kind of aircraft whose programme has the task.
        kind: Kind,
        /// The task.
        task: TaskId,
        /// The use of the item when it was last done: up to 100,000,000 minutes and 1,000,000 cycles.
        use_then: Use,
        /// The day on which it was last done.
        day: Day,
    },
    /// An aircraft flew from a take-off to a landing.
    Sector {
        /// The registration of the aircraft.
        tail: Tail,
        /// The page of the technical log, 1 to 999,999.
        page: u32,
        /// The line of the page, 1 to 99.
        line: u32,
        /// Take-off.
        off: Moment,
        /// Landing, 1 to 1,440 minutes later.
        on: Moment,
        /// The cycles logged, 1 to 50.
        cycles: u32,
    },
    /// A component was fitted to an aircraft.
    Fit {
        /// The serial number of the component.
        serial: Serial,
        /// The registration of the aircraft.
        tail: Tail,
        /// The position of the aircraft.
        position: Position,
        /// The moment from which on the component flies with the aircraft.
        moment: Moment,
    },
    /// A component was removed from the aircraft that it was fitted to.
    Remove {
        /// The serial number of the component.
        serial: Serial,
        /// The moment up to which the component flew with the aircraft.
        moment: Moment,
    },
    /// Maintenance was released to service.
    Release {
        /// Where the work was done.
        place: Place,
        /// The moment at which it was released.
        moment: Moment,
        /// What was done: 1 to 20 lines.
        lines: Vec<Line>,
    },
    /// A defect was deferred: it is flown with, and rectified within the interval of its category.
    Defer {
        /// The registration of the aircraft.
        tail: Tail,
        /// The moment at which it was found.
        moment: Moment,
        /// The item of the minimum equipment list that allows to defer it.
        reference: MelRef,
        /// Its category; where the item states the days, 1 to 365.
        category: Category,
    },
    /// The interval within which a deferred defect is rectified was extended.
    Extend {
        /// The document by which the defect was deferred.
        defect: Doc,
        /// The day on which it was extended.
        day: Day,
        /// By so many days, 1 to 120.
        days: u32,
    },
}

impl Body {
    /// The same body again.
    pub fn copy(&self, alloc: Global) -> Result<Body, AllocError>
        ensures { IfOk result (λ body. act_of body ≡ act_of self.now) }
    {
        Ok(match self.said() {
            Said::Aircraft(aircraft, positions) => Body::AddAircraft {
                tail: aircraft.tail,
                kind: aircraft.kind,
                birth: aircraft.birth,
                opening: aircraft.opening,
                as_of: aircraft.as_of,
                positions: Vec::from_slice(alloc, positions)?,
            },
            Said::Component(component) => Body::AddComponent {
                serial: component.serial,
                part: component.part,
                birth: component.birth,
                opening: component.opening,
                as_of: component.as_of,
            },
            Said::Programme(programme, tasks) => Body::LoadProgramme {
                kind: programme.kind,
                revision: programme.revision,
                tasks: Vec::from_slice(alloc, tasks)?,
            },
            Said::Opening(opening) => Body::Opening {
                item: opening.item,
                kind: opening.kind,
                task: opening.task,
                use_then: opening.use_then,
                day: opening.day,
            },
            Said::Sector(sector) => Body::Sector {
                tail: sector.tail,
                page: sector.page,
                line: sector.line,
                off: sector.off,
                on: sector.on,
                cycles: sector.cycles,
            },
            Said::Fitting(fitting) => Body::Fit {
                serial: fitting.serial,
                tail: fitting.tail,
                position: fitting.position,
                moment: fitting.moment,
            },
            Said::Removal(removal) => Body::Remove {
                serial: removal.serial,
                moment: removal.moment,
            },
            Said::Release(release, lines) => Body::Release {
                place: release.place,
                moment: release.moment,
                lines: Vec::from_slice(alloc, lines)?,
            },
            Said::Deferral(deferral) => Body::Defer {
                tail: deferral.tail,
                moment: deferral.moment,
                reference: deferral.reference,
                category: deferral.category,
            },
            Said::Extension(extension) => Body::Extend {
                defect: extension.defect,
                day: extension.day,
                days: extension.days,
            },
        })
    }
}
