//! The step that moves sectors from `sector1` to `sector2`, at most 64 a commit.
//!
//! Sectors are read from the front of the old table, and not from the mark on: one that is not above the mark would
//! never be met there, and be lost with the table.
ghost use Rattle.std.specs.Prelude.{◌≡◌, map, IfOk, IfErr};
ghost use Rattle.std.specs.List.{list_all};
ghost use Rattle.sqlite.specs.Held.{state};
ghost use Rattle.mx_registers.specs.points.Moves.{last_moved};
ghost use Rattle.mx_registers.specs.points.Points.{moving};
ghost use Rattle.mx_book_tables.specs.stands.Schemas.{schema_at};
ghost use Rattle.mx_moves.specs.Changes.{Alters};
ghost use Rattle.mx_moves.specs.steps.Sectors.{is_next_from, sectors_moved};

use crate::step::{Migrate, reached};
use mx_base::Point;
use mx_base::rows::{Sector2Row, SectorRow};
use mx_layout::{Table, TableFault};
use mx_moves::point::set_point;
use mx_moves::rows::{delete_sectors, first_sectors, insert_sectors};
use mx_registers::points::LAST_MARK;
use sqlite::{Alter, Transaction};
use std::alloc::Global;

/// Moves the next sectors, where those up to the mark have moved. They are read from the front of the old table: one that
/// is not above the mark should have moved before, and makes the table damaged.
#[derive(Clone, Copy, Debug, PartialEq, Eq)]
pub struct MoveSectors {
    /// The mark of the point that the file is at.
    pub mark: u32,
}

// Whether the sector has still to move.
fn is_next(mark: u32, row: &SectorRow) -> bool
    ensures { result ≡ is_next_from mark row.now }
{
    mark < row.seq && row.seq <= LAST_MARK
}

// Whether each of the sectors has still to move.
fn are_next(mark: u32, rows: &[SectorRow]) -> bool
    ensures { result ≡ list_all (is_next_from mark) rows.now }
{
    rows.iter().all(|row| is_next(mark, row))
}

// The number of the last of the rows, or the mark where there are none.
fn last_seq(mark: u32, rows: &[SectorRow]) -> u32
    ensures { result ≡ last_moved (λ row. row.seq) mark rows.now }
{
    match rows.last() {
        Some(row) => row.seq,
        None => mark,
    }
}

// The same sectors, as the rows of `sector2`.
fn as_numbered(alloc: Global, rows: &[SectorRow]) -> Result<Vec<Sector2Row>, TableFault>
    ensures same { IfOk result (λ numbered. map (λ row. row.sector) numbered.items ≡ rows.now) }
    ensures cause { IfErr result (λ e. e ≡ TableFault.Memory) }
{
    let mut numbered = Vec::new(alloc);
    'rows: for row in rows {
        numbered.push(Sector2Row { sector: *row })?;
    }
    Ok(numbered)
}

// Adds the rows to the new table, deletes those up to the mark of the point from the old one, and writes the point.
fn write_moved<S: Alter>(
    tx: &mut Transaction<'_, S>,
    rows: &Vec<Sector2Row>,
    to: &Point,
) -> Result<(), TableFault>
    ensures same_reference { tx.new.conn.ghost_name ≡ tx.old.conn.ghost_name }
    ensures alters { Alters (schema_at (moving 1 0)) (schema_at (moving 1 0))
        (sectors_moved (map (λ row. row.sector) rows.now.items) to.now)
        (state S.Store tx.old.conn.now) (state S.Store tx.new.conn.now) result }
{
    insert_sectors(tx, rows)?;
    delete_sectors(tx, to.mark)?;
    set_point(tx, to)
}

impl Migrate for MoveSectors {
    ghost use Rattle.std.specs.Prelude.{◌≡◌, ◌≢◌, None};
    ghost use Rattle.mx_registers.specs.points.Points.{moving, next_mark};
    ghost use Rattle.mx_moves.specs.steps.Sectors.{MovesSectors, IsOldOff};
    ghost use Rattle.mx_moves.proofs.StepsProofs.SectorLemmas.{sectors_stand, sectors_whole};
    ghost use Rattle.mx_moves.proofs.StepsProofs.StandsLemmas.{in_move};

    ghost IsAt = { λ step at. at ≡ moving 1 step.mark };

    ghost IsDue = { λ step at book. next_mark at book ≢ None };

    ghost Makes = { λ step at to. MovesSectors step.mark to };

    ghost IsOff = { λ step at. IsOldOff step.mark };

    ghost moves = { λ step at to book old new here due stands makes.
        in_move (moving 1 step.mark) at to book new here
        (sectors_stand step.mark at to book old new here due stands makes) };

    ghost whole = { λ step. sectors_whole step.mark };

    fn run<S: Alter>(
        &self,
        alloc: Global,
        tx: &mut Transaction<'_, S>,
    ) -> Result<Point, TableFault> {
        let rows = first_sectors(alloc, tx)?;
        if !are_next(self.mark, &rows) {
            return Err(TableFault::Damaged(Table::Sector1));
        }
        let numbered = as_numbered(alloc, &rows)?;
        let to = Point {
            layout: 1,
            step: 1,
            mark: last_seq(self.mark, &rows),
        };
        reached(write_moved(tx, &numbered, &to), to)
    }
}
