//! The step that moves deferrals from `defect` to `defect3`, at most 64 a commit.
//!
//! Deferrals are read from the front of the old table, as sectors are. The cycles at which each was found do not stand
//! there: they are handed in with the deferrals that they are of, and these must be the ones that the table has.
ghost use Rattle.std.specs.Prelude.{◌≡◌, true, Decides};
ghost use Rattle.std.specs.List.{list_all};
ghost use Rattle.sqlite.specs.Held.{state};
ghost use Rattle.mx_registers.specs.points.Moves.{last_moved};
ghost use Rattle.mx_registers.specs.points.Points.{moving_from};
ghost use Rattle.mx_book_tables.specs.stands.Schemas.{schema_at};
ghost use Rattle.mx_moves.specs.Changes.{Alters};
ghost use Rattle.mx_book_tables.specs.reading.Deferrals.{deferrals_in};
ghost use Rattle.mx_moves.specs.steps.Deferrals.{deferrals_moved, is_deferral_next};

use crate::step::{Migrate, reached};
use mx_base::Point;
use mx_base::rows::{Deferral3Row, DeferralRow};
use mx_layout::{Table, TableFault};
use mx_moves::later_rows::{delete_deferrals, first_deferrals, insert_deferrals};
use mx_moves::point::set_point;
use mx_registers::points::LAST_MARK;
use sqlite::{Alter, Transaction};
use std::alloc::Global;

/// Moves the next deferrals, where those up to the mark have moved. Whoever knows the book of the file makes the rows, with
/// the cycles at which each was found: where the first 64 of the old table are others, or one of them is not above the
/// mark, the table is damaged.
#[derive(Drop)]
pub struct MoveDeferrals {
    /// The mark of the point that the file is at.
    pub mark: u32,
    /// The next deferrals behind the mark, at most 64, in the order of their numbers.
    pub rows: Vec<Deferral3Row>,
}

// Whether the deferral has still to move.
fn is_next(mark: u32, row: &DeferralRow) -> bool
    ensures { result ≡ is_deferral_next mark row.now }
{
    mark < row.seq && row.seq <= LAST_MARK
}

// Whether each of the deferrals has still to move.
fn are_next(mark: u32, rows: &[DeferralRow]) -> bool
    ensures { result ≡ list_all (is_deferral_next mark) rows.now }
{
    rows.iter().all(|row| is_next(mark, row))
}

// Whether the rows that were handed in are of the deferrals that were read.
fn are_of(rows: &[Deferral3Row], read: &[DeferralRow]) -> bool
    ensures { Decides result (deferrals_in rows.now ≡ read.now) }
{
    rows.len() == read.len()
        && rows
            .iter()
            .zip(read.iter())
            .all(|(row, one)| row.deferral == *one)
}

// Whether the deferrals that were read are those of the rows that were handed in, and each has still to move.
fn are_due(mark: u32, rows: &[Deferral3Row], read: &[DeferralRow]) -> bool
    ensures { Decides result ((deferrals_in rows.now ≡ read.now)
        × (list_all (is_deferral_next mark) read.now ≡ true)) }
{
    are_of(rows, read) && are_next(mark, read)
}

// The number of the last of the rows, or the mark where there are none.
fn last_seq(mark: u32, rows: &[DeferralRow]) -> u32
    ensures { result ≡ last_moved (λ row. row.seq) mark rows.now }
{
    match rows.last() {
        Some(row) => row.seq,
        None => mark,
    }
}

// Adds the rows to the new table, deletes those up to the mark of the point from the old one, and writes the point.
fn write_moved<S: Alter>(
    tx: &mut Transaction<'_, S>,
    rows: &Vec<Deferral3Row>,
    to: &Point,
) -> Result<(), TableFault>
    ensures same_reference { tx.new.conn.ghost_name ≡ tx.old.conn.ghost_name }
    ensures alters { Alters (schema_at (moving_from 2 1 0)) (schema_at (moving_from 2 1 0))
        (deferrals_moved rows.now.items to.now)
        (state S.Store tx.old.conn.now) (state S.Store tx.new.conn.now) result }
{
    insert_deferrals(tx, rows)?;
    delete_deferrals(tx, to.mark)?;
    set_point(tx, to)
}

impl Migrate for MoveDeferrals {
    ghost use Rattle.std.specs.Prelude.{◌≡◌, ◌≢◌, None};
    ghost use Rattle.mx_registers.specs.points.Moves.{found_next};
    ghost use Rattle.mx_registers.specs.points.Points.{moving_from, next_mark};
    ghost use Rattle.mx_moves.specs.steps.Deferrals.{IsDeferralOff, MovesDeferrals};
    ghost use Rattle.mx_moves.proofs.StepsProofs.DeferralLemmas.{moved_deferrals_stand, moved_deferrals_whole};
    ghost use Rattle.mx_moves.proofs.StepsProofs.StandsLemmas.{in_move};

    ghost IsAt = { λ step at. at ≡ moving_from 2 1 step.mark };

    ghost IsDue = { λ step at book. (next_mark at book ≢ None)
        × (step.rows.items ≡ found_next book step.mark) };

    ghost Makes = { λ step at to. MovesDeferrals step.mark step.rows.items to };

    ghost IsOff = { λ step at. IsDeferralOff step.mark step.rows.items };

    ghost moves = { λ step at to book old new here due stands makes.
        in_move (moving_from 2 1 step.mark) at to book new here
        (moved_deferrals_stand step.mark step.rows.items at to book old new here due stands
        makes) };

    ghost whole = { λ step. moved_deferrals_whole step.mark step.rows.items };

    fn run<S: Alter>(
        &self,
        alloc: Global,
        tx: &mut Transaction<'_, S>,
    ) -> Result<Point, TableFault> {
        let read = first_deferrals(alloc, tx)?;
        if !are_due(self.mark, &self.rows, &read) {
            return Err(TableFault::Damaged(Table::Defect));
        }
        let to = Point {
            layout: 2,
            step: 1,
            mark: last_seq(self.mark, &read),
        };
        reached(write_moved(tx, &self.rows, &to), to)
    }
}
