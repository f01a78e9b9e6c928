//! One commit of a file on its way to the newest layout.
ghost use Rattle.std.specs.Prelude.{◌≡◌, false, List, IfOk};
ghost use Rattle.sqlite.specs.Held.{state};
ghost use Rattle.sqlite.specs.State.{HasCleanDisk};
ghost use Rattle.mx_book.specs.commands.Act.{Entry};
ghost use Rattle.mx_base.specs.declared.point.Point.{Point};
ghost use Rattle.mx_book_tables.specs.stands.Stands.{RestsAt};
ghost use Rattle.mx_migrate.specs.settle.Advances.{Advances, AdvancesBook, AdvancesRows};
ghost use Rattle.mx_migrate.specs.settle.Found.{KnowsNow};
ghost use Rattle.mx_migrate.specs.settle.Items.{Knows};
ghost use Rattle.mx_migrate.specs.settle.Place.{FollowsPoint, IsPlacedAt};

use crate::commit_step;
use crate::settle::choosing::next_due;
use crate::settle::place::place;
use mx_base::Point;
use mx_faults::moving::{MoveFault, fault_of};
use mx_verify::derived::KeptRows;
use sqlite::{Alter, Connection};
use std::alloc::Global;

/// Makes the one commit that the point of the file calls for, as `advance` does, with what is known of the items of the file;
/// a commit that needs it and finds nothing known reads the registers, and then it is known.
pub(crate) fn advance_knowing<S: Alter>(
    alloc: Global,
    conn: &mut Connection<S>,
    known: &mut Option<KeptRows>,
) -> Result<Point, MoveFault>
    requires { conn.old.in_transaction ≡ false }
    ensures idle { conn.new.in_transaction ≡ false }
    ensures follows { FollowsPoint S.Store conn.old (state S.Store conn.new) result }
    ensures advances { Advances (state S.Store conn.old) (state S.Store conn.new) result }

    // Over any rows what is known is to be what the registers give, and then it still is.
    ensures rows { (at : Point) → IsPlacedAt at (state S.Store conn.old)
        → KnowsNow at known.old (state S.Store conn.old)
        → AdvancesRows at (state S.Store conn.old) (state S.Store conn.new) result }
    ensures keeps { (at : Point) → IsPlacedAt at (state S.Store conn.old)
        → KnowsNow at known.old (state S.Store conn.old)
        → IfOk result (λ to. KnowsNow to known.new (state S.Store conn.new)) }

    // What is known is to be of the book that the tables stand for, and then it still is.
    ensures book { (book : List Entry)
        → (HasCleanDisk (state S.Store conn.old) → Knows known.old book)
        → AdvancesBook book (state S.Store conn.old) (state S.Store conn.new) result }
    ensures knows { (at : Point) (book : List Entry) → RestsAt at (state S.Store conn.old) book
        → HasCleanDisk (state S.Store conn.new) → Knows known.old book → Knows known.new book }
{
    let at = match place(conn) {
        Ok(at) => at,
        Err(fault) => return Err(fault),
    };
    match next_due(alloc, conn, at, known) {
        Ok(Some(due)) => commit_step(alloc, conn, &due),
        Ok(None) => Ok(at),
        Err(fault) => Err(fault_of(fault)),
    }
}

/// Makes the one commit that the point of the file calls for, and answers the point that it leads to. At the newest
/// layout it makes none, and answers the point as it is. Whatever the answer is, a crash leaves the file at the point from
/// before, or at the next one, and standing for the same book. A commit that writes the total or the last bases of an item
/// reads all registers first: [`settle`](crate::settle::settle) reads them once.
///
/// # Errors
/// `NotOurs` where the file is not one of an office, `NewerLayout` where its layout is newer than the program, `Damaged`
/// with a table of which a row can't be read or can't be there, or with the one to blame where the registers are those of no
/// book, and `Memory` for want of memory: then nothing changed. `Store` for each other error, also of the commit, which may
/// have been made.
pub fn advance<S: Alter>(alloc: Global, conn: &mut Connection<S>) -> Result<Point, MoveFault>
    requires { conn.old.in_transaction ≡ false }
    ensures idle { conn.new.in_transaction ≡ false }
    ensures follows { FollowsPoint S.Store conn.old (state S.Store conn.new) result }
    ensures advances { Advances (state S.Store conn.old) (state S.Store conn.new) result }
    ensures rows { (at : Point) → IsPlacedAt at (state S.Store conn.old)
        → AdvancesRows at (state S.Store conn.old) (state S.Store conn.new) result }
    ensures book { (book : List Entry)
        → AdvancesBook book (state S.Store conn.old) (state S.Store conn.new) result }
{
    let mut known = None;
    advance_knowing(alloc, conn, &mut known)
}
