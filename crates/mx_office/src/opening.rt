//! The opening of the office that a database holds, and the move of an old one to the newest layout before.
//!
//! `open_office` reads the point itself, before `settle` does, since what it answers of a database that is at no point
//! of ours is said of whatever schema there is; at the newest layout it reads nothing else. A fault of the move that
//! speaks of no file of ours, or of a newer layout, is told as damage of `office`: nobody else writes the file, so its
//! row is not what was just read. Behind a move the point is read once more, so that an office is opened at its own point
//! alone, whatever tables the file has beside those of the program: of such a file it is not known what a step makes.
ghost use Rattle.std.specs.Prelude.{◌≡◌, ◌≢◌, ◌≤◌, List, None, Ok, Some, false, IsTrue, IfOk, IfErr, MatchResult};
ghost use Rattle.sqlite.specs.Held.{state};
ghost use Rattle.sqlite.specs.State.{HasCleanDisk};
ghost use Rattle.mx_book.specs.commands.Act.{Entry};
ghost use Rattle.mx_base.specs.declared.point.Point.{Point};
ghost use Rattle.mx_layout.specs.Crash.{ChangesNothing};
ghost use Rattle.mx_layout.specs.Point.{FitsPoint, HoldsPoint, TellsPoint};
ghost use Rattle.mx_book_tables.specs.stands.Schemas.{IsOfFile};
ghost use Rattle.mx_book_tables.specs.stands.Stands.{RestsAt};
ghost use Rattle.mx_office.specs.Faults.{is_office_point, open_answer, IsStop, IsStopped};
ghost use Rattle.mx_office.specs.Layout.{office_point};
ghost use Rattle.mx_office.specs.Office.{office_state, IsReady};
ghost use Rattle.mx_office.specs.Opening.{ChangesOnWay, HasReason, IsArrived, IsThere, MovesOn, SaysPoint, WasOurs};

use crate::fault::{moved_fault_of, open_fault_of};
use crate::office::Office;
use mx_base::Point;
use mx_faults::OpenFault;
use mx_faults::moving::fault_of;
use mx_layout::{Table, point};
use mx_migrate::settle::{ENOUGH_COMMITS, NEWEST_LAYOUT, settle};
use mx_registers::points::is_on_way;
use sqlite::{Alter, Connection};
use std::alloc::Global;

// Whether the point is that of the office.
fn is_office_point(at: Point) -> bool
    ensures { result ≡ is_office_point at }
{
    at.layout == NEWEST_LAYOUT && at.step == 0 && at.mark == 0
}

// Why no office is opened in a file at a point, unless a file can be at it: at that of the office, or on the way there.
fn open_answer(at: Point) -> Option<OpenFault>
    ensures { result ≡ open_answer at }
{
    if at.layout > NEWEST_LAYOUT {
        Some(OpenFault::NewerLayout(at.layout))
    } else if is_office_point(at) || is_on_way(at) {
        None
    } else {
        Some(OpenFault::Damaged(Table::Office))
    }
}

// Reads the point of a file that was moved, and answers why it is not that of the office, if it isn't.
fn arrived<S: Alter>(conn: &mut Connection<S>) -> Option<OpenFault>
    requires { conn.old.in_transaction ≡ false }
    ensures idle { conn.new.in_transaction ≡ false }
    ensures unchanged { ChangesNothing (state S.Store conn.old) (state S.Store conn.new) }
    ensures told { HasCleanDisk (state S.Store conn.new) → result ≡ None
        → TellsPoint S.Store conn.old (Ok office_point) }
    ensures exact { HasCleanDisk (state S.Store conn.new) → (at : Point)
        → (IsTrue (state S.Store conn.old).is_open → HoldsPoint at (state S.Store conn.old).now)
        → FitsPoint at → IsArrived at result }
    ensures open { HasCleanDisk (state S.Store conn.new) → result ≡ None
        → IsTrue (state S.Store conn.old).is_open }
    ensures stops { (why : _) → result ≡ Some why → IsStopped why }
{
    match point(conn) {
        Ok(at) => {
            if is_office_point(at) {
                None
            } else {
                Some(OpenFault::Damaged(Table::Office))
            }
        }
        Err(fault) => Some(moved_fault_of(fault_of(fault))),
    }
}

// Moves a file to the point of the office, with as many commits as any takes, and answers why it is not there, if it isn't.
fn move_on<S: Alter>(alloc: Global, conn: &mut Connection<S>, at_most: u32) -> Option<OpenFault>
    requires idle { conn.old.in_transaction ≡ false }
    requires enough { ENOUGH_COMMITS ≤ at_most }
    ensures idle { conn.new.in_transaction ≡ false }
    ensures moves { MovesOn (state S.Store conn.old) (state S.Store conn.new) result }
    ensures there { HasCleanDisk (state S.Store conn.new) → result ≡ None
        → IsThere S.Store (state S.Store conn.new) }
    ensures stops { (why : _) → result ≡ Some why → IsStopped why }
    ensures whole { (at : Point) (book : List Entry) → IsOfFile at
        → RestsAt at (state S.Store conn.old) book → HasCleanDisk (state S.Store conn.new)
        → (why : _) → result ≡ Some why → IsStop why }
{
    match settle(alloc, conn, at_most) {
        Ok(_) => arrived(conn),
        Err(fault) => Some(moved_fault_of(fault)),
    }
}

// Reads the point of a database, moves a file that is on the way, and answers why no office is opened, if none is.
fn unopened<S: Alter>(alloc: Global, conn: &mut Connection<S>) -> Option<OpenFault>
    requires { conn.old.in_transaction ≡ false }
    ensures idle { conn.new.in_transaction ≡ false }
    ensures moves { MovesOn (state S.Store conn.old) (state S.Store conn.new) result }
    ensures there { HasCleanDisk (state S.Store conn.new) → result ≡ None
        → IsThere S.Store (state S.Store conn.new) }
    ensures changes { ChangesOnWay S.Store conn.old (state S.Store conn.new) }
    ensures told { HasCleanDisk (state S.Store conn.new) → SaysPoint S.Store conn.old result }
    ensures ours { HasCleanDisk (state S.Store conn.new) → result ≡ None
        → WasOurs (state S.Store conn.old) }
    ensures reason { HasCleanDisk (state S.Store conn.new) → (why : _) → result ≡ Some why
        → HasReason (state S.Store conn.old) why }
    ensures older { (layout : _) → result ≢ Some (OpenFault.OlderLayout layout) }
{
    match point(conn) {
        Ok(at) => {
            if is_on_way(at) {
                move_on(alloc, conn, ENOUGH_COMMITS)
            } else {
                open_answer(at)
            }
        }
        Err(fault) => Some(open_fault_of(fault)),
    }
}

/// Opens the office that a database holds. A file of an older layout, or one that was stopped on its way to the newest, is
/// moved there first, commit after commit, and stands for the same book behind each; in any other nothing is changed, and
/// of one at the newest layout `office` alone is read.
///
/// # Errors
/// The connection is handed back with the reason: `NotOurs`, `NewerLayout`, `Damaged` where the point can't be read or is none
/// that a file can be at, or where the move meets a row that can't be read or can't be there; `Memory` or `Store`. Commits that
/// a move has made before are kept. `OlderLayout` never comes, since each older layout has a way to the newest.
pub fn open_office<S: Alter>(
    alloc: Global,
    mut conn: Connection<S>,
) -> Result<Office<S>, (Connection<S>, OpenFault)>
    requires { conn.in_transaction ≡ false }
    ensures ready { IfOk result IsReady }

    // Of the book that the tables stood for, at whatever point; and of any rows at a point.
    ensures moves { MatchResult result
        (λ office. MovesOn (state S.Store conn) (office_state office) None)
        (λ e. MovesOn (state S.Store conn) (state S.Store e.0) (Some e.1)) }

    // Of whatever database, an office is opened at its own point alone, as the query of `office` tells it.
    ensures there { IfOk result (λ office. HasCleanDisk (office_state office)
        → IsThere S.Store (office_state office)) }

    // Of whatever database, nothing changes but where the point that was read is on the way.
    ensures changes { MatchResult result
        (λ office. ChangesOnWay S.Store conn (office_state office))
        (λ e. ChangesOnWay S.Store conn (state S.Store e.0)) }

    // Of a disk that returned what was written.
    ensures told { MatchResult result
        (λ office. HasCleanDisk (office_state office) → SaysPoint S.Store conn None)
        (λ e. HasCleanDisk (state S.Store e.0) → SaysPoint S.Store conn (Some e.1)) }
    ensures ours { IfOk result (λ office. HasCleanDisk (office_state office)
        → WasOurs (state S.Store conn)) }
    ensures reason { IfErr result (λ e. HasCleanDisk (state S.Store e.0)
        → HasReason (state S.Store conn) e.1) }
    ensures older { IfErr result (λ e. (layout : _) → e.1 ≢ OpenFault.OlderLayout layout) }
{
    match unopened(alloc, &mut conn) {
        None => Ok(Office {
            conn,
            needs_reopen: false,
        }),
        Some(fault) => Err((conn, fault)),
    }
}
