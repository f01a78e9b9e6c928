//! The steps that make a table or indexes and move no row, and drop the tables that are done with.
//!
//! What there is of a component that the file does not have is met by no move of a component, so `ChangeToTotals` looks
//! first whether `fit1` and `removal1` have a row left. It reads all of them, since where the move went well there is
//! none.
ghost use Rattle.std.specs.Prelude.{◌≡◌};
ghost use Rattle.sqlite.specs.Held.{state};
ghost use Rattle.mx_base.specs.Settled.{settled};
ghost use Rattle.mx_registers.specs.points.Points.{moving};
ghost use Rattle.mx_layout.specs.kept.Cells.{kept_sector1};
ghost use Rattle.mx_book_tables.specs.stands.Schemas.{schema_at};
ghost use Rattle.mx_moves.specs.Changes.{Alters, WasOpen};
ghost use Rattle.mx_moves.specs.Keeping.{point_set};
ghost use Rattle.mx_moves.specs.steps.Tables.{table_made};
ghost use Rattle.mx_migrate.specs.Seeing.{SeesNone};

use crate::looking::none_left;
use crate::step::{Migrate, reached};
use mx_base::Point;
use mx_base::rows::{FittingRow, RemovalRow};
use mx_layout::{Table, TableFault};
use mx_moves::point::set_point;
use mx_moves::rows::first_sectors;
use mx_moves::tables::{
    create_base2, create_sector2, create_span2, create_total2, drop_fittings, drop_sector1,
    index_registers, index_span2,
};
use sqlite::{Alter, Transaction};
use std::alloc::Global;

/// Makes the table `sector2` in a file that is settled at layout 1.
#[derive(Clone, Copy, Debug, PartialEq, Eq)]
pub struct CreateSectors;

/// Drops `sector1` and makes `span2`, where all sectors have moved. A row that is left makes the old table damaged, and
/// is not lost.
#[derive(Clone, Copy, Debug, PartialEq, Eq)]
pub struct ChangeToSpans {
    /// The mark of the point that the file is at: the last sector that has moved.
    pub mark: u32,
}

/// Drops `fit1` and `removal1` and makes `total2`, where all components have moved. A row that is left makes its table
/// damaged, and is not lost.
#[derive(Clone, Copy, Debug, PartialEq, Eq)]
pub struct ChangeToTotals {
    /// The mark of the point that the file is at: the last component that has moved.
    pub mark: u32,
}

/// Makes the table `base2`, where each item has its total.
#[derive(Clone, Copy, Debug, PartialEq, Eq)]
pub struct CreateBases {
    /// The mark of the point that the file is at: the last item whose total was written.
    pub mark: u32,
}

/// Makes the indexes of tables that layout 1 has too, where each item has its last bases: the file is settled at layout 2.
#[derive(Clone, Copy, Debug, PartialEq, Eq)]
pub struct Finish {
    /// The mark of the point that the file is at: the last item whose bases were written.
    pub mark: u32,
}

// Makes the new table of sectors, and writes the point.
fn write_sector_table<S: Alter>(tx: &mut Transaction<'_, S>, to: &Point) -> Result<(), TableFault>
    ensures same_reference { tx.new.conn.ghost_name ≡ tx.old.conn.ghost_name }
    ensures open { WasOpen (state S.Store tx.old.conn.now) (state S.Store tx.new.conn.now) result }
    ensures alters { Alters (schema_at (settled 1)) (schema_at (moving 1 0))
        (table_made Table.Sector2 to.now)
        (state S.Store tx.old.conn.now) (state S.Store tx.new.conn.now) result }
{
    create_sector2(tx)?;
    set_point(tx, to)
}

impl Migrate for CreateSectors {
    ghost use Rattle.std.specs.Prelude.{⊤, ◌≡◌};
    ghost use Rattle.mx_base.specs.Settled.{settled};
    ghost use Rattle.mx_moves.specs.steps.Tables.{MakesSectors};
    ghost use Rattle.mx_moves.proofs.StepsProofs.MadeLemmas.{made_stands};
    ghost use Rattle.mx_moves.proofs.StepsProofs.StandsLemmas.{in_move};

    ghost IsAt = { λ _ at. at ≡ settled 1 };

    ghost IsDue = { λ _ _ _. ⊤ };

    ghost Makes = { λ _ _ to. MakesSectors to };

    ghost IsOff = { λ _ _ _ _. ⊥ };

    ghost moves = { λ _ at to book old new here due stands makes. in_move (settled 1) at to book new
        here (made_stands at to book old new here due stands makes) };

    ghost whole = { λ _ _ _ _ _ _ _ _ off. off };

    fn run<S: Alter>(&self, _: Global, tx: &mut Transaction<'_, S>) -> Result<Point, TableFault> {
        let to = Point {
            layout: 1,
            step: 1,
            mark: 0,
        };
        reached(write_sector_table(tx, &to), to)
    }
}

// Sees that no sector is left in the old table.
fn no_sector_left<S: Alter>(alloc: Global, tx: &mut Transaction<'_, S>) -> Result<(), TableFault>
    ensures same_reference { tx.new.conn.ghost_name ≡ tx.old.conn.ghost_name }
    ensures sees { SeesNone kept_sector1
        (state S.Store tx.old.conn.now) (state S.Store tx.new.conn.now) result }
{
    let rows = first_sectors(alloc, tx)?;
    if rows.is_empty() {
        Ok(())
    } else {
        Err(TableFault::Damaged(Table::Sector1))
    }
}

// Drops the old table of sectors, makes that of spans with its indexes, and writes the point.
fn write_span_table<S: Alter>(tx: &mut Transaction<'_, S>, to: &Point) -> Result<(), TableFault>
    ensures same_reference { tx.new.conn.ghost_name ≡ tx.old.conn.ghost_name }
    ensures alters { Alters (schema_at (moving 1 0)) (schema_at (moving 2 0))
        (table_made Table.Span2 to.now)
        (state S.Store tx.old.conn.now) (state S.Store tx.new.conn.now) result }
{
    drop_sector1(tx)?;
    create_span2(tx)?;
    index_span2(tx)?;
    set_point(tx, to)
}

impl Migrate for ChangeToSpans {
    ghost use Rattle.std.specs.Prelude.{◌≡◌, true, None};
    ghost use Rattle.mx_registers.specs.points.Points.{is_on_way, moving, next_mark};
    ghost use Rattle.mx_moves.specs.steps.Tables.{ChangesToSpans, IsLeftOver};
    ghost use Rattle.mx_moves.proofs.StepsProofs.MadeLemmas.{changed_stands, changed_whole};
    ghost use Rattle.mx_moves.proofs.StepsProofs.StandsLemmas.{in_move};

    ghost IsAt = { λ step at. (at ≡ moving 1 step.mark) × (is_on_way at ≡ true) };

    ghost IsDue = { λ step at book. next_mark at book ≡ None };

    ghost Makes = { λ step at to. ChangesToSpans to };

    ghost IsOff = { λ step at. IsLeftOver };

    ghost moves = { λ step at to book old new here due stands makes.
        in_move (moving 1 step.mark) at to book new here.0
        (changed_stands step.mark at to book old new here due stands makes) };

    ghost whole = { λ step. changed_whole step.mark };

    fn run<S: Alter>(
        &self,
        alloc: Global,
        tx: &mut Transaction<'_, S>,
    ) -> Result<Point, TableFault> {
        no_sector_left(alloc, tx)?;
        let to = Point {
            layout: 1,
            step: 2,
            mark: 0,
        };
        reached(write_span_table(tx, &to), to)
    }
}

// Drops the tables of fittings and removals, makes that of totals, and writes the point.
fn write_total_table<S: Alter>(tx: &mut Transaction<'_, S>, to: &Point) -> Result<(), TableFault>
    ensures same_reference { tx.new.conn.ghost_name ≡ tx.old.conn.ghost_name }
    ensures alters { Alters (schema_at (moving 2 0)) (schema_at (moving 3 0))
        (table_made Table.Total2 to.now)
        (state S.Store tx.old.conn.now) (state S.Store tx.new.conn.now) result }
{
    drop_fittings(tx)?;
    create_total2(tx)?;
    set_point(tx, to)
}

impl Migrate for ChangeToTotals {
    ghost use Rattle.std.specs.Prelude.{◌≡◌, true, None};
    ghost use Rattle.mx_registers.specs.points.Points.{is_on_way, moving, next_mark};
    ghost use Rattle.mx_moves.specs.steps.Tables.{ChangesToTotals, IsUnmoved};
    ghost use Rattle.mx_moves.proofs.StepsProofs.EndedLemmas.{totals_stand, totals_whole};
    ghost use Rattle.mx_moves.proofs.StepsProofs.StandsLemmas.{in_move};

    ghost IsAt = { λ step at. (at ≡ moving 2 step.mark) × (is_on_way at ≡ true) };

    ghost IsDue = { λ step at book. next_mark at book ≡ None };

    ghost Makes = { λ step at to. ChangesToTotals to };

    ghost IsOff = { λ step at. IsUnmoved };

    ghost moves = { λ step at to book old new here due stands makes.
        in_move (moving 2 step.mark) at to book new here.0
        (totals_stand step.mark at to book old new here due stands makes) };

    ghost whole = { λ step. totals_whole step.mark };

    fn run<S: Alter>(
        &self,
        alloc: Global,
        tx: &mut Transaction<'_, S>,
    ) -> Result<Point, TableFault> {
        none_left::<S, FittingRow>(alloc, tx)?;
        none_left::<S, RemovalRow>(alloc, tx)?;
        let to = Point {
            layout: 1,
            step: 3,
            mark: 0,
        };
        reached(write_total_table(tx, &to), to)
    }
}

// Makes the table of last bases, and writes the point.
fn write_base_table<S: Alter>(tx: &mut Transaction<'_, S>, to: &Point) -> Result<(), TableFault>
    ensures same_reference { tx.new.conn.ghost_name ≡ tx.old.conn.ghost_name }
    ensures open { WasOpen (state S.Store tx.old.conn.now) (state S.Store tx.new.conn.now) result }
    ensures alters { Alters (schema_at (moving 3 0)) (schema_at (moving 4 0))
        (table_made Table.Base2 to.now)
        (state S.Store tx.old.conn.now) (state S.Store tx.new.conn.now) result }
{
    create_base2(tx)?;
    set_point(tx, to)
}

impl Migrate for CreateBases {
    ghost use Rattle.std.specs.Prelude.{◌≡◌, true, None};
    ghost use Rattle.mx_registers.specs.points.Points.{is_on_way, moving, next_mark};
    ghost use Rattle.mx_moves.specs.steps.Tables.{MakesBases};
    ghost use Rattle.mx_moves.proofs.StepsProofs.EndedLemmas.{bases_stand};
    ghost use Rattle.mx_moves.proofs.StepsProofs.StandsLemmas.{in_move};

    ghost IsAt = { λ step at. (at ≡ moving 3 step.mark) × (is_on_way at ≡ true) };

    ghost IsDue = { λ step at book. next_mark at book ≡ None };

    ghost Makes = { λ step at to. MakesBases to };

    ghost IsOff = { λ _ _ _ _. ⊥ };

    ghost moves = { λ step at to book old new here due stands makes.
        in_move (moving 3 step.mark) at to book new here.0
        (bases_stand step.mark at to book old new here due stands makes) };

    ghost whole = { λ _ _ _ _ _ _ _ _ off. off };

    fn run<S: Alter>(&self, _: Global, tx: &mut Transaction<'_, S>) -> Result<Point, TableFault> {
        let to = Point {
            layout: 1,
            step: 4,
            mark: 0,
        };
        reached(write_base_table(tx, &to), to)
    }
}

// Makes the indexes, and writes the point.
fn write_finished<S: Alter>(tx: &mut Transaction<'_, S>, to: &Point) -> Result<(), TableFault>
    ensures same_reference { tx.new.conn.ghost_name ≡ tx.old.conn.ghost_name }
    ensures open { WasOpen (state S.Store tx.old.conn.now) (state S.Store tx.new.conn.now) result }
    ensures alters { Alters (schema_at (moving 4 0)) (schema_at (settled 2)) (point_set to.now)
        (state S.Store tx.old.conn.now) (state S.Store tx.new.conn.now) result }
{
    index_registers(tx)?;
    set_point(tx, to)
}

impl Migrate for Finish {
    ghost use Rattle.std.specs.Prelude.{◌≡◌, true, None};
    ghost use Rattle.mx_registers.specs.points.Points.{is_on_way, moving, next_mark};
    ghost use Rattle.mx_moves.specs.steps.Tables.{Finishes};
    ghost use Rattle.mx_moves.proofs.StepsProofs.EndedLemmas.{finished_stands};
    ghost use Rattle.mx_moves.proofs.StepsProofs.StandsLemmas.{in_move};

    ghost IsAt = { λ step at. (at ≡ moving 4 step.mark) × (is_on_way at ≡ true) };

    ghost IsDue = { λ step at book. next_mark at book ≡ None };

    ghost Makes = { λ step at to. Finishes to };

    ghost IsOff = { λ _ _ _ _. ⊥ };

    ghost moves = { λ step at to book old new here due stands makes.
        in_move (moving 4 step.mark) at to book new here.0
        (finished_stands step.mark at to book old new here due stands makes) };

    ghost whole = { λ _ _ _ _ _ _ _ _ off. off };

    fn run<S: Alter>(&self, _: Global, tx: &mut Transaction<'_, S>) -> Result<Point, TableFault> {
        let to = Point {
            layout: 2,
            step: 0,
            mark: 0,
        };
        reached(write_finished(tx, &to), to)
    }
}
