//! A command: a document, and what it says.
//!
//! `Command::make` answers `Memory` only where a sector's own document is compared, so a caller that makes no sector
//! knows that it can't come.
ghost use Rattle.std.specs.Prelude.{◌≡◌, true, IfOk, OnErr, IsSome};
ghost use Rattle.mx_book.specs.commands.Act.{act_of, sector_of};
ghost use Rattle.mx_book.specs.commands.Shape.{act_shape, doc_shape};

use crate::commands::aircraft::Aircraft;
use crate::commands::body::Body;
use crate::commands::component::Component;
use crate::commands::deferral::{Deferral, Extension};
use crate::commands::document::{document_of_sector, is_of_log};
use crate::commands::fitting::{Fitting, Removal};
use crate::commands::opening::Opening;
use crate::commands::programme::{Programme, Task};
use crate::commands::release::{Line, Release};
use crate::commands::said::Said;
use crate::commands::sector::Sector;
use mx_base::{Doc, Kind, Part, Position};
use std::alloc::{AllocError, Global};
use std::marker::Model;

/// Why no command was made.
#[derive(Clone, Copy, Debug, PartialEq, Eq)]
pub enum MakeFault {
    /// Memory ran out, which only the text of a sector's document needs.
    Memory,
    /// The document and the body do not have the shape of a command.
    BadShape,
}

impl From<AllocError> for MakeFault {
    ghost use Rattle.mx_book.specs.declared.commands.command.MakeFault.TheVariants.{Memory};
    ghost use Rattle.std.specs.Prelude.{◌≡◌};

    ghost from_gives = { λ _ fault. fault ≡ Memory };

    fn from(_error: AllocError) -> MakeFault {
        MakeFault::Memory
    }
}

/// A command of the shape that its kind has. Contracts see the entry that it makes: its document, and what
/// it says.
#[derive(Debug, Drop)]
pub struct Command {
    doc: Doc,
    body: Body,
}

impl Model for Command {
    ghost use Rattle.std.specs.Prelude.{◌≡◌, true};
    ghost use Rattle.mx_book.specs.commands.Act.{Entry, act_of};
    ghost use Rattle.mx_book.specs.commands.Shape.{has_shape};

    ghost Value = { Entry };

    ghost view = { λ c. record { doc = c.doc; act = act_of c.body } };

    ghost invariant = { λ c. has_shape (record { doc = c.doc; act = act_of c.body }) ≡ true };
}

impl Command {
    ghost use Rattle.std.specs.Prelude.{◌↔◌, ◌≤◌, false, IsTrue, OnOk, IfSome, length};
    ghost use Rattle.mx_book.specs.commands.Act.{aircraft_of, component_of, programme_of, tasks_of, opening_of, fitting_of, removal_of, positions_of, release_of, lines_of, deferral_of, extension_of};
    ghost use Rattle.mx_book.specs.commands.Said.{act_said};
    ghost use Rattle.mx_book.specs.commands.Same.{same_entry};
    ghost use Rattle.mx_book.specs.commands.Programme.{task_shape};
    ghost use Rattle.mx_book.specs.declared.commands.programme_shape.TheConstants.{LAST_REVISION};
    ghost use Rattle.mx_book.specs.declared.commands.shape.TheConstants.{MOST_EXTENSION_DAYS, MOST_LINES};
    ghost use Rattle.mx_book.specs.commands.Shape.{has_shape, sector_shape, category_shape, is_sector_shaped, sector_entry};
    ghost use Rattle.mx_book.specs.Programme.{tasks_loaded};
    ghost use Rattle.std.specs.List.{list_all};
    ghost use Rattle.std.specs.Option.{option_copied};

    /// The command of a document and a body. `BadShape` exactly where they lack the shape, and `Memory`
    /// only for a sector. The body is used up at every answer.
    pub fn make(alloc: Global, doc: Doc, body: Body) -> Result<Command, MakeFault>
        ensures made { IfOk result (λ c. c ≡ record { doc = doc; act = act_of body }) }
        ensures shaped { OnOk result (has_shape (record { doc = doc; act = act_of body }) ≡ true) }
        ensures bad_shape { result ≡ Err MakeFault.BadShape
            → has_shape (record { doc = doc; act = act_of body }) ≡ false }
        ensures memory { result ≡ Err MakeFault.Memory → IsSome (sector_of (act_of body)) }
    {
        if !body.has_shape() || !has_document_shape(alloc, &doc, &body)? {
            return Err(MakeFault::BadShape);
        }
        Ok(Command { doc, body })
    }

    /// The command of a sector, whose document `TL/tail/page/line` it makes. `BadShape` exactly where the
    /// body is no sector or lacks a sector's shape, and `Memory` only where it has it.
    pub fn sector(alloc: Global, body: Body) -> Result<Command, MakeFault>
        ensures made { IfOk result (λ c. Some c ≡ sector_entry (act_of body)) }
        ensures bad_shape { result ≡ Err MakeFault.BadShape
            → is_sector_shaped (act_of body) ≡ false }
        ensures memory { result ≡ Err MakeFault.Memory → is_sector_shaped (act_of body) ≡ true }
    {
        let Some(sector) = body.flown_sector() else {
            return Err(MakeFault::BadShape);
        };
        if !body.has_shape() {
            return Err(MakeFault::BadShape);
        }
        let doc = document_of_sector(alloc, &sector)?;
        Ok(Command { doc, body })
    }

    /// The same command again.
    pub fn copy(&self, alloc: Global) -> Result<Command, AllocError>
        ensures { IfOk result (λ c. c ≡ self.now) }
    {
        let body = self.body.copy(alloc)?;
        Ok(Command {
            doc: self.doc,
            body,
        })
    }

    /// The document that it is made by.
    pub fn doc(&self) -> Doc
        ensures doc { result ≡ self.now.doc }
        ensures shape { has_shape self.now ≡ true }
    {
        self.doc
    }

    /// What it says.
    pub fn body(&self) -> &Body
        ensures { act_of result.now ≡ self.now.act }
    {
        &self.body
    }

    /// What it says, as one value.
    pub fn said(&self) -> Said<'_>
        ensures { act_said result ≡ self.now.act }
    {
        self.body.said()
    }

    /// Whether another command has this document and equal contents.
    #[tactic(auto, using(crate::proofs::CommandsProofs::SameLemmas::entry_same))]
    pub fn is_same(&self, other: &Command) -> bool
        ensures test { result ≡ same_entry self.now other.now }
        ensures equal { IsTrue result ↔ (self.now ≡ other.now) }
    {
        self.has_same_parts(other)
    }

    #[tactic(auto, using(crate::proofs::CommandsProofs::SameLemmas::body_same))]
    fn has_same_parts(&self, other: &Command) -> bool
        ensures { result ≡ same_entry self.now other.now }
    {
        self.doc == other.doc && self.body == other.body
    }

    /// The aircraft that it adds.
    pub fn added_aircraft(&self) -> Option<Aircraft>
        ensures { result ≡ aircraft_of self.now.act }
    {
        self.body.added_aircraft()
    }

    /// The positions of the aircraft that it adds, each with the part that it takes; none where it adds no aircraft.
    pub fn positions(&self) -> &[(Position, Part)]
        ensures { result.now ≡ positions_of self.now.act }
    {
        match &self.body {
            Body::AddAircraft { positions, .. } => positions.as_slice(),
            _ => &[],
        }
    }

    /// The component that it adds.
    pub fn added_component(&self) -> Option<Component>
        ensures { result ≡ component_of self.now.act }
    {
        self.body.added_component()
    }

    /// The revision of a programme that it loads, at most 1,000,000.
    pub fn loaded_programme(&self) -> Option<Programme>
        ensures programme { result ≡ programme_of self.now.act }
        ensures bounded { IfSome result (λ p. p.revision ≤ LAST_REVISION) }
    {
        self.body.loaded_programme()
    }

    /// The tasks of the programme that it loads, each of its shape; none where it loads no programme.
    pub fn tasks(&self) -> &[Task]
        ensures tasks { result.now ≡ tasks_of self.now.act }
        ensures shape { list_all task_shape (tasks_of self.now.act) ≡ true }
    {
        match &self.body {
            Body::LoadProgramme { tasks, .. } => tasks.as_slice(),
            _ => &[],
        }
    }

    /// The tasks that it loads for a kind, each of its shape; `None` where it loads none for it.
    pub fn tasks_loaded(&self, kind: &Kind) -> Option<&[Task]>
        ensures tasks { option_copied result ≡ tasks_loaded kind.now self.now.act }
        ensures shape { IfSome (option_copied result) (λ tasks. list_all task_shape tasks ≡ true) }
    {
        match self.loaded_programme() {
            Some(programme) => {
                if programme.kind == *kind {
                    Some(self.tasks())
                } else {
                    None
                }
            }
            None => None,
        }
    }

    /// The opening that it states.
    pub fn stated_opening(&self) -> Option<Opening>
        ensures { result ≡ opening_of self.now.act }
    {
        self.body.stated_opening()
    }

    /// The sector that was flown.
    pub fn flown_sector(&self) -> Option<Sector>
        ensures sector { result ≡ sector_of self.now.act }
        ensures shape { IfSome result (λ s. sector_shape s ≡ true) }
    {
        self.body.flown_sector()
    }

    /// The fitting of a component.
    pub fn fitting(&self) -> Option<Fitting>
        ensures { result ≡ fitting_of self.now.act }
    {
        self.body.fitting()
    }

    /// The removal of a component.
    pub fn removal(&self) -> Option<Removal>
        ensures { result ≡ removal_of self.now.act }
    {
        self.body.removal()
    }

    /// The release of maintenance, its lines aside.
    pub fn release(&self) -> Option<Release>
        ensures { result ≡ release_of self.now.act }
    {
        self.body.release()
    }

    /// The lines of the release, at most 20; none where it releases nothing.
    pub fn lines(&self) -> &[Line]
        ensures lines { result.now ≡ lines_of self.now.act }
        ensures few { length (lines_of self.now.act) ≤ MOST_LINES }
    {
        match &self.body {
            Body::Release { lines, .. } => lines.as_slice(),
            _ => &[],
        }
    }

    /// The deferral of a defect, of at most 365 days where the item states them.
    pub fn deferral(&self) -> Option<Deferral>
        ensures deferral { result ≡ deferral_of self.now.act }
        ensures shape { IfSome result (λ d. category_shape d.category ≡ true) }
    {
        self.body.deferral()
    }

    /// The extension of the interval of a defect, by at most 120 days.
    pub fn extension(&self) -> Option<Extension>
        ensures extension { result ≡ extension_of self.now.act }
        ensures bounded { IfSome result (λ x. x.days ≤ MOST_EXTENSION_DAYS) }
    {
        self.body.extension()
    }
}

// Whether a document is one that a body of its shape may have.
fn has_document_shape(alloc: Global, doc: &Doc, body: &Body) -> Result<bool, AllocError>
    requires { act_shape (act_of body.now) ≡ true }
    ensures test { IfOk result (λ b. b ≡ doc_shape doc.now (act_of body.now)) }
    ensures memory { OnErr result (IsSome (sector_of (act_of body.now))) }
{
    match body.flown_sector() {
        Some(sector) => Ok(*doc == document_of_sector(alloc, &sector)?),
        None => Ok(!is_of_log(doc)),
    }
}
