//! The steps of the move from layout 2 to layout 3 that make and drop tables, and move no row.
//!
//! Those that drop a table look first whether it has a row left. They read all of it, since where the move went well
//! there is none.
ghost use Rattle.std.specs.Prelude.{◌≡◌};
ghost use Rattle.sqlite.specs.Held.{state};
ghost use Rattle.mx_base.specs.Settled.{settled};
ghost use Rattle.mx_registers.specs.points.Points.{moving_from};
ghost use Rattle.mx_book_tables.specs.stands.Schemas.{schema_at};
ghost use Rattle.mx_moves.specs.Changes.{Alters, WasOpen};
ghost use Rattle.mx_moves.specs.Keeping.{point_set};
ghost use Rattle.mx_moves.specs.steps.Tables.{table_made};

use crate::looking::none_left;
use crate::step::{Migrate, reached};
use mx_base::Point;
use mx_base::rows::{BaseRow, DeferralRow};
use mx_layout::{Table, TableFault};
use mx_moves::later_tables::{
    create_defect3, create_done3, drop_base2, drop_defect, index_layout3,
};
use mx_moves::point::set_point;
use sqlite::{Alter, Transaction};
use std::alloc::Global;

/// Makes the table `defect3` in a file that is settled at layout 2.
#[derive(Clone, Copy, Debug, PartialEq, Eq)]
pub struct CreateDeferrals;

/// Drops `defect` and makes `done3`, where all deferrals have moved. A row that is left makes the old table damaged, and
/// is not lost.
#[derive(Clone, Copy, Debug, PartialEq, Eq)]
pub struct ChangeToAccomplishments {
    /// The mark of the point that the file is at: the last deferral that has moved.
    pub mark: u32,
}

/// Drops `base2` and makes the last indexes, where each item has its accomplishments: the file is settled at layout 3. A
/// row that is left makes the table damaged, and is not lost.
#[derive(Clone, Copy, Debug, PartialEq, Eq)]
pub struct FinishLater {
    /// The mark of the point that the file is at: the last item whose accomplishments were written.
    pub mark: u32,
}

// Makes the new table of deferrals, and writes the point.
fn write_deferral_table<S: Alter>(tx: &mut Transaction<'_, S>, to: &Point) -> Result<(), TableFault>
    ensures same_reference { tx.new.conn.ghost_name ≡ tx.old.conn.ghost_name }
    ensures open { WasOpen (state S.Store tx.old.conn.now) (state S.Store tx.new.conn.now) result }
    ensures alters { Alters (schema_at (settled 2)) (schema_at (moving_from 2 1 0))
        (table_made Table.Defect3 to.now)
        (state S.Store tx.old.conn.now) (state S.Store tx.new.conn.now) result }
{
    create_defect3(tx)?;
    set_point(tx, to)
}

impl Migrate for CreateDeferrals {
    ghost use Rattle.std.specs.Prelude.{⊤, ◌≡◌};
    ghost use Rattle.mx_base.specs.Settled.{settled};
    ghost use Rattle.mx_moves.specs.steps.LaterTables.{MakesDeferrals};
    ghost use Rattle.mx_moves.proofs.StepsProofs.LaterLemmas.{deferrals_stand};
    ghost use Rattle.mx_moves.proofs.StepsProofs.StandsLemmas.{in_move};

    ghost IsAt = { λ _ at. at ≡ settled 2 };

    ghost IsDue = { λ _ _ _. ⊤ };

    ghost Makes = { λ _ _ to. MakesDeferrals to };

    ghost IsOff = { λ _ _ _ _. ⊥ };

    ghost moves = { λ _ at to book old new here due stands makes. in_move (settled 2) at to book new
        here (deferrals_stand at to book old new here due stands makes) };

    ghost whole = { λ _ _ _ _ _ _ _ _ off. off };

    fn run<S: Alter>(&self, _: Global, tx: &mut Transaction<'_, S>) -> Result<Point, TableFault> {
        let to = Point {
            layout: 2,
            step: 1,
            mark: 0,
        };
        reached(write_deferral_table(tx, &to), to)
    }
}

// Drops the old table of deferrals, makes that of accomplishments, and writes the point.
fn write_accomplishment_table<S: Alter>(
    tx: &mut Transaction<'_, S>,
    to: &Point,
) -> Result<(), TableFault>
    ensures same_reference { tx.new.conn.ghost_name ≡ tx.old.conn.ghost_name }
    ensures alters { Alters (schema_at (moving_from 2 1 0)) (schema_at (moving_from 2 2 0))
        (table_made Table.Done3 to.now)
        (state S.Store tx.old.conn.now) (state S.Store tx.new.conn.now) result }
{
    drop_defect(tx)?;
    create_done3(tx)?;
    set_point(tx, to)
}

impl Migrate for ChangeToAccomplishments {
    ghost use Rattle.std.specs.Prelude.{◌≡◌, true, None};
    ghost use Rattle.mx_registers.specs.points.Points.{is_before, moving_from, next_mark};
    ghost use Rattle.mx_moves.specs.steps.LaterTables.{ChangesToAccomplishments, IsDeferralLeft};
    ghost use Rattle.mx_moves.proofs.StepsProofs.LaterLemmas.{accomplishments_stand, accomplishments_whole};
    ghost use Rattle.mx_moves.proofs.StepsProofs.StandsLemmas.{in_move};

    ghost IsAt = { λ step at. (at ≡ moving_from 2 1 step.mark) × (is_before 3 at ≡ true) };

    ghost IsDue = { λ step at book. next_mark at book ≡ None };

    ghost Makes = { λ step at to. ChangesToAccomplishments to };

    ghost IsOff = { λ step at. IsDeferralLeft };

    ghost moves = { λ step at to book old new here due stands makes.
        in_move (moving_from 2 1 step.mark) at to book new here.0
        (accomplishments_stand step.mark at to book old new here due stands makes) };

    ghost whole = { λ step. accomplishments_whole step.mark };

    fn run<S: Alter>(
        &self,
        alloc: Global,
        tx: &mut Transaction<'_, S>,
    ) -> Result<Point, TableFault> {
        none_left::<S, DeferralRow>(alloc, tx)?;
        let to = Point {
            layout: 2,
            step: 2,
            mark: 0,
        };
        reached(write_accomplishment_table(tx, &to), to)
    }
}

// Drops the table of last bases, makes the indexes, and writes the point.
fn write_finished<S: Alter>(tx: &mut Transaction<'_, S>, to: &Point) -> Result<(), TableFault>
    ensures same_reference { tx.new.conn.ghost_name ≡ tx.old.conn.ghost_name }
    ensures alters { Alters (schema_at (moving_from 2 2 0)) (schema_at (settled 3))
        (point_set to.now)
        (state S.Store tx.old.conn.now) (state S.Store tx.new.conn.now) result }
{
    drop_base2(tx)?;
    index_layout3(tx)?;
    set_point(tx, to)
}

impl Migrate for FinishLater {
    ghost use Rattle.std.specs.Prelude.{◌≡◌, true, None};
    ghost use Rattle.mx_registers.specs.points.Points.{is_before, moving_from, next_mark};
    ghost use Rattle.mx_moves.specs.steps.LaterTables.{FinishesLater, IsBaseLeft};
    ghost use Rattle.mx_moves.proofs.StepsProofs.LaterLemmas.{later_finished_stand, later_finished_whole};
    ghost use Rattle.mx_moves.proofs.StepsProofs.StandsLemmas.{in_move};

    ghost IsAt = { λ step at. (at ≡ moving_from 2 2 step.mark) × (is_before 3 at ≡ true) };

    ghost IsDue = { λ step at book. next_mark at book ≡ None };

    ghost Makes = { λ step at to. FinishesLater to };

    ghost IsOff = { λ step at. IsBaseLeft };

    ghost moves = { λ step at to book old new here due stands makes.
        in_move (moving_from 2 2 step.mark) at to book new here.0
        (later_finished_stand step.mark at to book old new here due stands makes) };

    ghost whole = { λ step. later_finished_whole step.mark };

    fn run<S: Alter>(
        &self,
        alloc: Global,
        tx: &mut Transaction<'_, S>,
    ) -> Result<Point, TableFault> {
        none_left::<S, BaseRow>(alloc, tx)?;
        let to = Point {
            layout: 3,
            step: 0,
            mark: 0,
        };
        reached(write_finished(tx, &to), to)
    }
}
