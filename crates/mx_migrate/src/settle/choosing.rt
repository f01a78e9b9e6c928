//! Which step is due at the point of a file.
//!
//! The step is looked for before its commit, in a transaction that is dropped. The commit is not told in which state
//! that was: what was looked at is what the step is made of, since nothing was written between, and a connection that
//! answers is the one that was open before. One transaction for all would save two beginnings a commit, and needs a
//! commit of its own for its faults, among which those of tables have no newer layout.
ghost use Rattle.std.specs.Prelude.{◌≡◌, false, None, IsTrue};
ghost use Rattle.sqlite.specs.Held.{state};
ghost use Rattle.mx_layout.specs.Crash.{ChangesNothing, IsWithin};
ghost use Rattle.mx_registers.specs.points.Points.{moving};
ghost use Rattle.mx_migrate.specs.settle.Choices.{Chooses};

use crate::settle::due::Due;
use crate::settle::front::{is_sector_left, next_component};
use crate::settle::items::{bases_by, total_by};
use crate::settle::known::kept_known;
use crate::{ChangeToSpans, ChangeToTotals, CreateSectors, MoveComponent, MoveSectors};
use mx_base::Point;
use mx_layout::TableFault;
use mx_registers::points::NEWEST_LAYOUT;
use mx_verify::derived::KeptRows;
use sqlite::{Alter, Connection, Transaction};
use std::alloc::Global;

// The step of a file whose sectors have moved up to a mark.
fn sectors_due<S: Alter>(
    alloc: Global,
    tx: &mut Transaction<'_, S>,
    mark: u32,
) -> Result<Option<Due>, TableFault>
    ensures same_reference { tx.new.conn.ghost_name ≡ tx.old.conn.ghost_name }
    ensures chooses { IsTrue (state S.Store tx.old.conn.now).in_transaction
        → Chooses (moving 1 mark) None None
        (state S.Store tx.old.conn.now) (state S.Store tx.new.conn.now) result }
    ensures within { IsWithin (state S.Store tx.old.conn.now) (state S.Store tx.new.conn.now) }
{
    match is_sector_left(alloc, tx) {
        Ok(true) => Ok(Some(Due::Sectors(MoveSectors { mark }))),
        Ok(false) => Ok(Some(Due::SpanTable(ChangeToSpans { mark }))),
        Err(fault) => Err(fault),
    }
}

// The step of a file whose components have moved up to a mark.
fn component_due<S: Alter>(
    alloc: Global,
    tx: &mut Transaction<'_, S>,
    mark: u32,
) -> Result<Option<Due>, TableFault>
    ensures same_reference { tx.new.conn.ghost_name ≡ tx.old.conn.ghost_name }
    ensures chooses { IsTrue (state S.Store tx.old.conn.now).in_transaction
        → Chooses (moving 2 mark) None None
        (state S.Store tx.old.conn.now) (state S.Store tx.new.conn.now) result }
    ensures within { IsWithin (state S.Store tx.old.conn.now) (state S.Store tx.new.conn.now) }
{
    match next_component(alloc, tx, mark) {
        Ok(Some(component)) => Ok(Some(Due::Component(MoveComponent { mark, component }))),
        Ok(None) => Ok(Some(Due::TotalTable(ChangeToTotals { mark }))),
        Err(unread) => Err(unread),
    }
}

// The step of a file whose totals are written up to a mark.
fn total_due<S: Alter>(
    alloc: Global,
    tx: &mut Transaction<'_, S>,
    mark: u32,
    known: &mut Option<KeptRows>,
) -> Result<Option<Due>, TableFault>
    ensures same_reference { tx.new.conn.ghost_name ≡ tx.old.conn.ghost_name }
    ensures chooses { IsTrue (state S.Store tx.old.conn.now).in_transaction
        → Chooses (moving 3 mark) known.old known.new
        (state S.Store tx.old.conn.now) (state S.Store tx.new.conn.now) result }
    ensures within { IsWithin (state S.Store tx.old.conn.now) (state S.Store tx.new.conn.now) }
{
    match kept_known(alloc, tx, known) {
        Ok(kept) => {
            let due = total_by(&kept, mark);
            *known = Some(kept);
            Ok(Some(due))
        }
        Err(fault) => Err(fault),
    }
}

// The step of a file whose last bases are written up to a mark.
fn bases_due<S: Alter>(
    alloc: Global,
    tx: &mut Transaction<'_, S>,
    mark: u32,
    known: &mut Option<KeptRows>,
) -> Result<Option<Due>, TableFault>
    ensures same_reference { tx.new.conn.ghost_name ≡ tx.old.conn.ghost_name }
    ensures chooses { IsTrue (state S.Store tx.old.conn.now).in_transaction
        → Chooses (moving 4 mark) known.old known.new
        (state S.Store tx.old.conn.now) (state S.Store tx.new.conn.now) result }
    ensures within { IsWithin (state S.Store tx.old.conn.now) (state S.Store tx.new.conn.now) }
{
    match kept_known(alloc, tx, known) {
        Ok(kept) => {
            let made = bases_by(alloc, &kept, mark);
            *known = Some(kept);
            match made {
                Ok(due) => Ok(Some(due)),
                Err(_) => Err(TableFault::Memory),
            }
        }
        Err(fault) => Err(fault),
    }
}

// The step that is due at a point.
fn due_at<S: Alter>(
    alloc: Global,
    tx: &mut Transaction<'_, S>,
    at: Point,
    known: &mut Option<KeptRows>,
) -> Result<Option<Due>, TableFault>
    ensures same_reference { tx.new.conn.ghost_name ≡ tx.old.conn.ghost_name }
    ensures chooses { IsTrue (state S.Store tx.old.conn.now).in_transaction
        → Chooses at known.old known.new
        (state S.Store tx.old.conn.now) (state S.Store tx.new.conn.now) result }
    ensures within { IsWithin (state S.Store tx.old.conn.now) (state S.Store tx.new.conn.now) }
{
    if at.layout >= NEWEST_LAYOUT {
        return Ok(None);
    }
    match at.step {
        0 => Ok(Some(Due::SectorTable(CreateSectors))),
        1 => sectors_due(alloc, tx, at.mark),
        2 => component_due(alloc, tx, at.mark),
        3 => total_due(alloc, tx, at.mark, known),
        // The last step: no file is in a later one.
        _ => bases_due(alloc, tx, at.mark, known),
    }
}

/// The step that is due at the point of a file, none where it is settled at the newest layout. Nothing is changed but what is
/// known of the items, which a step that needs it finds out.
///
/// # Errors
/// `Damaged` with a table of which a row that was looked at is none of its type, or has a number that no entry can have, or
/// with the one to blame where the registers are those of no book; else `Memory` or `Store`.
pub(crate) fn next_due<S: Alter>(
    alloc: Global,
    conn: &mut Connection<S>,
    at: Point,
    known: &mut Option<KeptRows>,
) -> Result<Option<Due>, TableFault>
    requires { conn.old.in_transaction ≡ false }
    ensures idle { conn.new.in_transaction ≡ false }
    ensures unchanged { ChangesNothing (state S.Store conn.old) (state S.Store conn.new) }
    ensures chooses { Chooses at known.old known.new
        (state S.Store conn.old) (state S.Store conn.new) result }
{
    let mut tx = conn.transaction();
    due_at(alloc, &mut tx, at, known)
}
