//! The steps that write the total, and the last bases, of one item.
//!
//! The point is written before the rows: an item may have no base, and then no other statement shows that the
//! connection is open.
ghost use Rattle.std.specs.Prelude.{◌≡◌};
ghost use Rattle.sqlite.specs.Held.{state};
ghost use Rattle.mx_registers.specs.points.Points.{moving};
ghost use Rattle.mx_book_tables.specs.stands.Schemas.{schema_at};
ghost use Rattle.mx_moves.specs.Changes.{Alters, WasOpen};
ghost use Rattle.mx_moves.specs.steps.Written.{bases_written, total_written};

use crate::step::{Migrate, reached};
use mx_base::Point;
use mx_base::rows::{BaseRow, TotalRow};
use mx_layout::TableFault;
use mx_moves::point::set_point;
use mx_moves::rows::{insert_bases, insert_total};
use sqlite::{Alter, Transaction};
use std::alloc::Global;

/// Writes the total of the next item, where those up to the mark have theirs. Whoever knows the book of the file makes
/// the row: the tables of the registers are not read here.
#[derive(Clone, Copy, Debug, PartialEq, Eq)]
pub struct WriteTotal {
    /// The mark of the point that the file is at.
    pub mark: u32,
    /// The total of the next item behind the mark.
    pub row: TotalRow,
}

/// Writes the last bases of the next item, where those up to the mark have theirs. Whoever knows the book of the file
/// makes the rows: the tables of the registers are not read here.
#[derive(Drop)]
pub struct WriteBases {
    /// The mark of the point that the file is at.
    pub mark: u32,
    /// The number of the next item behind the mark.
    pub item: u32,
    /// Its last bases, in any order.
    pub rows: Vec<BaseRow>,
}

// Writes the point, and adds the total.
fn write_total<S: Alter>(
    tx: &mut Transaction<'_, S>,
    row: &TotalRow,
    to: &Point,
) -> Result<(), TableFault>
    ensures same_reference { tx.new.conn.ghost_name ≡ tx.old.conn.ghost_name }
    ensures open { WasOpen (state S.Store tx.old.conn.now) (state S.Store tx.new.conn.now) result }
    ensures alters { Alters (schema_at (moving 3 0)) (schema_at (moving 3 0))
        (total_written row.now to.now)
        (state S.Store tx.old.conn.now) (state S.Store tx.new.conn.now) result }
{
    set_point(tx, to)?;
    insert_total(tx, row)
}

impl Migrate for WriteTotal {
    ghost use Rattle.std.specs.Prelude.{◌≡◌, [], ◌∷◌};
    ghost use Rattle.mx_registers.specs.points.Moves.{totals_next};
    ghost use Rattle.mx_registers.specs.points.Points.{moving};
    ghost use Rattle.mx_moves.specs.steps.Written.{WritesTotal};
    ghost use Rattle.mx_moves.proofs.StepsProofs.WrittenLemmas.{total_stands};
    ghost use Rattle.mx_moves.proofs.StepsProofs.StandsLemmas.{in_move};

    ghost IsAt = { λ step at. at ≡ moving 3 step.mark };

    ghost IsDue = { λ step at book. totals_next book step.mark ≡ step.row ∷ [] };

    ghost Makes = { λ step at to. WritesTotal step.row to };

    ghost IsOff = { λ _ _ _ _. ⊥ };

    ghost moves = { λ step at to book old new here due stands makes.
        in_move (moving 3 step.mark) at to book new here
        (total_stands step.mark step.row at to book old new here due stands makes) };

    ghost whole = { λ _ _ _ _ _ _ _ _ off. off };

    fn run<S: Alter>(&self, _: Global, tx: &mut Transaction<'_, S>) -> Result<Point, TableFault> {
        let to = Point {
            layout: 1,
            step: 3,
            mark: self.row.item,
        };
        reached(write_total(tx, &self.row, &to), to)
    }
}

// Writes the point, and adds the last bases.
fn write_bases<S: Alter>(
    tx: &mut Transaction<'_, S>,
    rows: &Vec<BaseRow>,
    to: &Point,
) -> Result<(), TableFault>
    ensures same_reference { tx.new.conn.ghost_name ≡ tx.old.conn.ghost_name }
    ensures open { WasOpen (state S.Store tx.old.conn.now) (state S.Store tx.new.conn.now) result }
    ensures alters { Alters (schema_at (moving 4 0)) (schema_at (moving 4 0))
        (bases_written rows.now.items to.now)
        (state S.Store tx.old.conn.now) (state S.Store tx.new.conn.now) result }
{
    set_point(tx, to)?;
    insert_bases(tx, rows)
}

impl Migrate for WriteBases {
    ghost use Rattle.std.specs.Prelude.{◌≡◌, Some, IsPermutation};
    ghost use Rattle.mx_registers.specs.points.Points.{moving, next_mark};
    ghost use Rattle.mx_moves.specs.steps.Written.{WritesBases, bases_of};
    ghost use Rattle.mx_moves.proofs.StepsProofs.WrittenLemmas.{bases_stand as written_stand};
    ghost use Rattle.mx_moves.proofs.StepsProofs.StandsLemmas.{in_move};

    ghost IsAt = { λ step at. at ≡ moving 4 step.mark };

    ghost IsDue = { λ step at book. (next_mark at book ≡ Some step.item)
        × IsPermutation step.rows.items (bases_of book step.item) };

    ghost Makes = { λ step at to. WritesBases step.item step.rows.items to };

    ghost IsOff = { λ _ _ _ _. ⊥ };

    ghost moves = { λ step at to book old new here due stands makes.
        in_move (moving 4 step.mark) at to book new here
        (written_stand step.mark step.item step.rows.items at to book old new here due
        stands makes) };

    ghost whole = { λ _ _ _ _ _ _ _ _ off. off };

    fn run<S: Alter>(&self, _: Global, tx: &mut Transaction<'_, S>) -> Result<Point, TableFault> {
        let to = Point {
            layout: 1,
            step: 4,
            mark: self.item,
        };
        reached(write_bases(tx, &self.rows, &to), to)
    }
}
