//! The point that a file is at, where a file can be at it.
ghost use Rattle.std.specs.Prelude.{◌≡◌, false};
ghost use Rattle.sqlite.specs.Held.{state};
ghost use Rattle.sqlite.specs.State.{HasCleanDisk};
ghost use Rattle.mx_migrate.specs.settle.Place.{checked, is_of_file, TellsPlace, TellsRead};

use mx_base::Point;
use mx_faults::moving::{MoveFault, fault_of};
use mx_layout::{Table, point};
use mx_registers::points::{NEWEST_LAYOUT, is_on_way};
use sqlite::{Alter, Connection};

// Whether a file can be at the point: on the way to the newest layout, or settled there.
fn is_of_file(at: Point) -> bool
    ensures { result ≡ is_of_file at }
{
    is_on_way(at) || at.layout == NEWEST_LAYOUT && at.step == 0 && at.mark == 0
}

// The point, where a file can be at it.
fn checked(at: Point) -> Result<Point, MoveFault>
    ensures { result ≡ checked at }
{
    if at.layout > NEWEST_LAYOUT {
        return Err(MoveFault::NewerLayout(at.layout));
    }
    if is_of_file(at) {
        Ok(at)
    } else {
        Err(MoveFault::Damaged(Table::Office))
    }
}

/// The point that the file is at. Nothing is changed, whatever the answer is.
///
/// # Errors
/// `NotOurs` where the file is not one of an office, `NewerLayout` where its layout is newer than the program, and
/// `Damaged(Table::Office)` where its point can't be read or is none that a file can be at; else `Memory` or `Store`.
pub(crate) fn place<S: Alter>(conn: &mut Connection<S>) -> Result<Point, MoveFault>
    requires { conn.old.in_transaction ≡ false }
    ensures idle { conn.new.in_transaction ≡ false }
    ensures tells { TellsPlace (state S.Store conn.old) (state S.Store conn.new) result }
    ensures read { HasCleanDisk (state S.Store conn.new) → TellsRead S.Store conn.old result }
{
    match point(conn) {
        Ok(at) => checked(at),
        Err(fault) => Err(fault_of(fault)),
    }
}
