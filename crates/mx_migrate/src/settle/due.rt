//! The step that is due.
//!
//! `Due` holds the step and meets the law of a step itself, so what is promised of one commit is said and proved once,
//! by `commit_step`, and what `advance` and `settle` promise names no step. A further step is a variant, a line in each
//! of the five definitions of `specs/settle/Due.antt`, of the two laws of `specs/settle/DueLaws.antt` and of one lemma,
//! and the place where it is chosen.
ghost use Rattle.std.specs.Prelude.{◌≡◌};

use crate::{
    ChangeToSpans, ChangeToTotals, CreateBases, CreateSectors, Finish, Migrate, MoveComponent,
    MoveSectors, WriteBases, WriteTotal,
};
use mx_base::Point;
use mx_layout::TableFault;
use sqlite::{Alter, Transaction};
use std::alloc::Global;

/// The step of the move that a file's point calls for, with what that step has to know.
#[derive(Drop)]
pub enum Due {
    /// The new table of sectors is to be made.
    SectorTable(CreateSectors),
    /// The next sectors are to move.
    Sectors(MoveSectors),
    /// The table of spans is to be made, in place of the old one of sectors.
    SpanTable(ChangeToSpans),
    /// The fittings and removals of the next component are to move.
    Component(MoveComponent),
    /// The table of totals is to be made, in place of those of fittings and removals.
    TotalTable(ChangeToTotals),
    /// The total of the next item is to be written.
    Total(WriteTotal),
    /// The table of last bases is to be made.
    BaseTable(CreateBases),
    /// The last bases of the next item are to be written.
    Bases(WriteBases),
    /// The move is to end.
    End(Finish),
}

impl Migrate for Due {
    ghost use Rattle.std.specs.Prelude.{◌≡◌};
    ghost use Rattle.mx_migrate.specs.settle.Due.{IsDueAt, IsFor, MakesBy, IsOffFor};
    ghost use Rattle.mx_migrate.specs.settle.DueLaws.{due_moves, due_whole};

    ghost IsAt = { λ due at. IsFor due at };

    ghost IsDue = { λ due at book. IsDueAt due at book };

    ghost Makes = { λ due at to old new. MakesBy due at to old new };

    ghost IsOff = { λ due at name trees. IsOffFor due at name trees };

    ghost moves = { due_moves };

    ghost whole = { due_whole };

    fn run<S: Alter>(
        &self,
        alloc: Global,
        tx: &mut Transaction<'_, S>,
    ) -> Result<Point, TableFault> {
        match self {
            Due::SectorTable(step) => step.run(alloc, tx),
            Due::Sectors(step) => step.run(alloc, tx),
            Due::SpanTable(step) => step.run(alloc, tx),
            Due::Component(step) => step.run(alloc, tx),
            Due::TotalTable(step) => step.run(alloc, tx),
            Due::Total(step) => step.run(alloc, tx),
            Due::BaseTable(step) => step.run(alloc, tx),
            Due::Bases(step) => step.run(alloc, tx),
            Due::End(step) => step.run(alloc, tx),
        }
    }
}
