//! The point that a file is at, written in place of the one before.
ghost use Rattle.std.specs.Prelude.{◌≡◌, [], ◌∷◌};
ghost use Rattle.sqlite.specs.Held.{state};
ghost use Rattle.mx_layout.specs.kept.Family.{on_top};
ghost use Rattle.mx_moves.specs.Changes.{WasOpen, WritesRows, less};
ghost use Rattle.mx_moves.specs.Keeping.{kept_point, is_point_row, point_set};
ghost use Rattle.mx_moves.specs.Schemas.{IsFree};

use crate::prelude::*;
use mx_base::Point;
use mx_layout::statement::execute;
use sqlite::params;

// Deletes the row of the point.
fn delete_point<S: Alter>(tx: &mut Transaction<'_, S>) -> Result<(), TableFault>
    ensures same_reference { tx.new.conn.ghost_name ≡ tx.old.conn.ghost_name }
    ensures open { WasOpen (state S.Store tx.old.conn.now) (state S.Store tx.new.conn.now) result }
    ensures writes { WritesRows (IsFree kept_point) (less kept_point is_point_row)
        (state S.Store tx.old.conn.now) (state S.Store tx.new.conn.now) result }
{
    execute(tx, "DELETE FROM office WHERE id = ?1", params![1u32])
}

// Adds the row of a point.
fn insert_point<S: Alter>(tx: &mut Transaction<'_, S>, at: &Point) -> Result<(), TableFault>
    ensures same_reference { tx.new.conn.ghost_name ≡ tx.old.conn.ghost_name }
    ensures writes { WritesRows (IsFree kept_point) (on_top kept_point (at.now ∷ []))
        (state S.Store tx.old.conn.now) (state S.Store tx.new.conn.now) result }
{
    execute(
        tx,
        "INSERT INTO office (id, layout, step, mark) VALUES (?1, ?2, ?3, ?4)",
        params![1u32, u32::from(at.layout), u32::from(at.step), at.mark],
    )
}

/// Writes the point in place of the one that the file was at.
///
/// # Errors
/// `Memory` for want of memory, and `Store` for an error of the store.
pub fn set_point<S: Alter>(tx: &mut Transaction<'_, S>, at: &Point) -> Result<(), TableFault>
    ensures same_reference { tx.new.conn.ghost_name ≡ tx.old.conn.ghost_name }
    ensures open { WasOpen (state S.Store tx.old.conn.now) (state S.Store tx.new.conn.now) result }
    ensures writes { WritesRows (IsFree kept_point) (point_set at.now)
        (state S.Store tx.old.conn.now) (state S.Store tx.new.conn.now) result }
{
    delete_point(tx)?;
    insert_point(tx, at)
}
