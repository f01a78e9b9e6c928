//! The step that writes the accomplishments of one item in place of its last bases.
//!
//! The point is written before the rows: an item may have no accomplishment, and then no row that is added shows that the
//! connection is open. No table is read, so none can be damaged: that the days of the rows are in the calendar is tested
//! before, by whoever makes the step.
ghost use Rattle.std.specs.Prelude.{◌≡◌, ◌⊎◌, All, IfOk, IfErr};
ghost use Rattle.sqlite.specs.Held.{state};
ghost use Rattle.mx_registers.specs.points.Points.{moving_from};
ghost use Rattle.mx_table_rows.specs.totals.Done.{IsDated};
ghost use Rattle.mx_book_tables.specs.stands.Schemas.{schema_at};
ghost use Rattle.mx_moves.specs.Changes.{Alters, WasOpen};
ghost use Rattle.mx_moves.specs.steps.Accomplishments.{accomplishments_written};

use crate::step::{Migrate, reached};
use mx_base::Point;
use mx_base::rows::DoneRow;
use mx_layout::{Table, TableFault};
use mx_moves::later_rows::{delete_bases_of, insert_accomplishments};
use mx_moves::point::set_point;
use mx_tables::dated::DatedRow;
use sqlite::{Alter, Transaction};
use std::alloc::Global;

/// Writes the accomplishments of the next item and deletes its last bases, where those up to the mark have theirs. Whoever
/// knows the book of the file makes the rows: the tables of the registers are not read here.
#[derive(Drop)]
pub struct WriteAccomplishments {
    /// The mark of the point that the file is at.
    pub mark: u32,
    /// The number of the next item behind the mark.
    pub item: u32,
    /// Its accomplishments, in any order, their days tested (`dated`).
    pub rows: Vec<DatedRow>,
}

/// The accomplishments, in the same order, their days tested.
///
/// # Errors
/// `Memory` for want of memory, and `Damaged` with `base2` where a day of one is past the calendar: what was kept of its
/// last base is past it too.
pub fn dated(alloc: Global, rows: &[DoneRow]) -> Result<Vec<DatedRow>, TableFault>
    ensures same { IfOk result (λ dated. (dated.items ≡ rows.now) × All IsDated rows.now) }
    ensures cause { IfErr result (λ e. (e ≡ TableFault.Memory)
        ⊎ ((e ≡ TableFault.Damaged Table.Base2) × ¬ All IsDated rows.now)) }
{
    let mut dated: Vec<DatedRow> = Vec::new(alloc);
    'rows: for row in rows {
        match DatedRow::of(*row) {
            Some(tested) => dated.push(tested)?,
            None => return Err(TableFault::Damaged(Table::Base2)),
        }
    }
    Ok(dated)
}

// Writes the point, adds the accomplishments, and deletes the last bases of the item that has the mark of the point.
fn write_accomplishments<S: Alter>(
    tx: &mut Transaction<'_, S>,
    rows: &Vec<DatedRow>,
    to: &Point,
) -> Result<(), TableFault>
    ensures same_reference { tx.new.conn.ghost_name ≡ tx.old.conn.ghost_name }
    ensures open { WasOpen (state S.Store tx.old.conn.now) (state S.Store tx.new.conn.now) result }
    ensures alters { Alters (schema_at (moving_from 2 2 0)) (schema_at (moving_from 2 2 0))
        (accomplishments_written rows.now.items to.now)
        (state S.Store tx.old.conn.now) (state S.Store tx.new.conn.now) result }
{
    set_point(tx, to)?;
    insert_accomplishments(tx, rows)?;
    delete_bases_of(tx, to.mark)
}

impl Migrate for WriteAccomplishments {
    ghost use Rattle.std.specs.Prelude.{◌≡◌, Some, IsPermutation};
    ghost use Rattle.mx_registers.specs.points.Points.{moving_from, next_mark};
    ghost use Rattle.mx_moves.specs.steps.Accomplishments.{WritesAccomplishments, accomplishments_of};
    ghost use Rattle.mx_moves.proofs.StepsProofs.AccomplishmentLemmas.{written_accomplishments_stand};
    ghost use Rattle.mx_moves.proofs.StepsProofs.StandsLemmas.{in_move};

    ghost IsAt = { λ step at. at ≡ moving_from 2 2 step.mark };

    ghost IsDue = { λ step at book. (next_mark at book ≡ Some step.item)
        × IsPermutation step.rows.items (accomplishments_of book step.item) };

    ghost Makes = { λ step at to. WritesAccomplishments step.item step.rows.items to };

    ghost IsOff = { λ _ _ _ _. ⊥ };

    ghost moves = { λ step at to book old new here due stands makes.
        in_move (moving_from 2 2 step.mark) at to book new here
        (written_accomplishments_stand step.mark step.item step.rows.items at to book old new here
        due stands makes) };

    ghost whole = { λ _ _ _ _ _ _ _ _ off. off };

    fn run<S: Alter>(&self, _: Global, tx: &mut Transaction<'_, S>) -> Result<Point, TableFault> {
        let to = Point {
            layout: 2,
            step: 2,
            mark: self.item,
        };
        reached(write_accomplishments(tx, &self.rows, &to), to)
    }
}
