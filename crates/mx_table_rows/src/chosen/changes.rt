//! Rows that are deleted.
ghost use Rattle.std.specs.Prelude.{◌≡◌, pos};
ghost use Rattle.sqlite.specs.declared.types.Value.TheVariants.{Int};
ghost use Rattle.sqlite.specs.Held.{state};
ghost use Rattle.mx_layout.specs.kept.Cells.{kept_sector1, kept_fit1};
ghost use Rattle.mx_table_rows.specs.chosen.Choices.{has_value, is_up_to};
ghost use Rattle.mx_table_rows.specs.chosen.Calls.{DeletesRows};

use crate::chosen::chosen::delete_rows;
use crate::chosen::prelude::*;
use mx_base::rows::{FittingRow, SectorRow};

/// Deletes the sectors of `sector1` up to this entry.
pub fn delete_sector1<S: Alter>(tx: &mut Transaction<'_, S>, seq: u32) -> Result<(), TableFault>
    ensures same_reference { tx.new.conn.ghost_name ≡ tx.old.conn.ghost_name }
    ensures deletes { DeletesRows kept_sector1 (is_up_to 0 (Int (pos seq)))
        (state S.Store tx.old.conn.now) (state S.Store tx.new.conn.now) result }
{
    delete_rows::<S, SectorRow>(tx, "DELETE FROM sector1 WHERE seq <= ?1", params![seq])
}

/// Deletes the fittings of `fit1` of a component.
pub fn delete_fit1<S: Alter>(tx: &mut Transaction<'_, S>, component: u32) -> Result<(), TableFault>
    ensures same_reference { tx.new.conn.ghost_name ≡ tx.old.conn.ghost_name }
    ensures deletes { DeletesRows kept_fit1 (has_value 1 (Int (pos component)))
        (state S.Store tx.old.conn.now) (state S.Store tx.new.conn.now) result }
{
    delete_rows::<S, FittingRow>(
        tx,
        "DELETE FROM fit1 WHERE component = ?1",
        params![component],
    )
}
