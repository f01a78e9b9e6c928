//! Commits of a file on its way to the newest layout, one after another.
//!
//! A move ends because its points rise: over any rows each commit below the newest layout leads to a later point, whose
//! mark is at most 1,000,000, since a step of sectors is chosen only where a sector is left, and the next component or
//! item is one behind the mark with a number that an entry can have. There are fewer than 8,000,000 such points
//! (`points_before`), and so many commits end at the newest layout or at a fault. A bound by what the book has would be nearer, and holds of
//! tables that stand for one: `enough` and `fewer`. Of a database of other tables than those of a file at a point it is
//! said by what its row of `office` was read as: at none on the way nothing changes, whatever is answered (`follows`).
ghost use Rattle.std.specs.Prelude.{◌≡◌, ◌<◌, ◌≤◌, true, false, List, IfOk};
ghost use Rattle.sqlite.specs.Held.{state};
ghost use Rattle.sqlite.specs.State.{HasCleanDisk};
ghost use Rattle.mx_book.specs.commands.Act.{Entry};
ghost use Rattle.mx_book.specs.Book.{IsBook};
ghost use Rattle.mx_base.specs.Settled.{settled};
ghost use Rattle.mx_registers.specs.points.Commits.{commits_of_move};
ghost use Rattle.mx_registers.specs.declared.points.points.TheConstants.{NEWEST_LAYOUT};
ghost use Rattle.mx_registers.specs.points.Points.{is_on_way};
ghost use Rattle.mx_book_tables.specs.stands.Stands.{RestsAt};
ghost use Rattle.mx_migrate.specs.settle.Place.{FollowsPoint};
ghost use Rattle.mx_migrate.specs.settle.Settles.{Settles};

use crate::settle::advancing::advance_knowing;
use crate::settle::place::place;
use mx_base::Point;
use mx_faults::MoveFault;
use mx_registers::points::NEWEST_LAYOUT;
use sqlite::{Alter, Connection};
use std::alloc::Global;

/// More commits than any file needs to be at the newest layout, whatever rows it has.
pub const ENOUGH_COMMITS: u32 = 8_000_000;

// Makes at most so many commits, fewer only at the newest layout.
fn go_on<S: Alter>(
    alloc: Global,
    conn: &mut Connection<S>,
    at_most: u32,
) -> Result<Point, MoveFault>
    requires { conn.old.in_transaction ≡ false }
    ensures idle { conn.new.in_transaction ≡ false }
    ensures follows { FollowsPoint S.Store conn.old (state S.Store conn.new) result }
    ensures settles { Settles at_most (state S.Store conn.old) (state S.Store conn.new) result }
{
    let mut at = place(conn)?;
    let mut known = None;
    'commits: for done in 0..at_most {
        if at.layout >= NEWEST_LAYOUT {
            return Ok(at);
        }
        at = advance_knowing(alloc, conn, &mut known)?;
    }
    Ok(at)
}

/// Makes at most so many commits, fewer only at the newest layout, and answers the point that the file is at. Whatever the
/// answer is, a crash leaves the file at a point behind some of them, and standing for the same book. The registers are read
/// once, before the first commit that writes the total or the last bases of an item.
///
/// # Errors
/// Those of [`advance`](crate::settle::advance), from the first commit that was not made on; those before it are kept.
pub fn settle<S: Alter>(
    alloc: Global,
    conn: &mut Connection<S>,
    at_most: u32,
) -> Result<Point, MoveFault>
    requires { conn.old.in_transaction ≡ false }
    ensures idle { conn.new.in_transaction ≡ false }
    ensures follows { FollowsPoint S.Store conn.old (state S.Store conn.new) result }
    ensures settles { Settles at_most (state S.Store conn.old) (state S.Store conn.new) result }

    // From layout 1 a file of a book is settled with as many commits as its move takes, and with fewer it is on the way.
    ensures enough { (book : List Entry) → IsBook book
        → RestsAt (settled 1) (state S.Store conn.old) book
        → HasCleanDisk (state S.Store conn.new) → commits_of_move book ≤ at_most
        → IfOk result (λ to. to ≡ settled NEWEST_LAYOUT) }
    ensures fewer { (book : List Entry) → IsBook book
        → RestsAt (settled 1) (state S.Store conn.old) book
        → HasCleanDisk (state S.Store conn.new) → at_most < commits_of_move book
        → IfOk result (λ to. is_on_way to ≡ true) }
{
    go_on(alloc, conn, at_most)
}
