//! Whether the row of `office` is that of the point whose tables are verified.
ghost use Rattle.std.specs.Prelude.{◌≡◌};
ghost use Rattle.sqlite.specs.Held.{state};
ghost use Rattle.mx_book_tables.specs.reading.Looks.{Looks, TellsPoint, told_point};

use mx_base::Point;
use mx_layout::{TableFault, point_in};
use mx_registers::points::NEWEST_LAYOUT;
use sqlite::{Alter, Transaction};

// Whether what was read is the point.
fn told_point(read: Result<Point, TableFault>) -> Result<bool, TableFault>
    ensures { result ≡ told_point read }
{
    match read {
        Ok(at) => Ok(at.layout == NEWEST_LAYOUT && at.step == 0 && at.mark == 0),
        Err(TableFault::NotOurs) => Ok(false),
        Err(fault) => Err(fault),
    }
}

/// Whether the row of `office` is that of the point, read inside a transaction. `Damaged` where it is none of a point.
pub fn is_at_point<S: Alter>(tx: &mut Transaction<'_, S>) -> Result<bool, TableFault>
    ensures same_reference { tx.new.conn.ghost_name ≡ tx.old.conn.ghost_name }
    ensures looks { Looks TellsPoint
        (state S.Store tx.old.conn.now) (state S.Store tx.new.conn.now) result }
{
    told_point(point_in(tx))
}
