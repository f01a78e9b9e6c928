//! Moving a file of an older layout on to the newest: the point that it is at.
ghost use Rattle.std.specs.Prelude.{◌≡◌, ◌≤◌, false, IfOk, IfErr, OnErr};
ghost use Rattle.sqlite.specs.Held.{state};
ghost use Rattle.mx_output.specs.printed.Moved.{IsPointLine, PrintsPoint};
ghost use Rattle.mx_jobs.specs.upkeep.Moved.{Moves};
ghost use Rattle.mx_output.specs.endings.Status.{Shows, stop_status};

use mx_migrate::settle::settle;
use mx_output::endings::{Ending, Stop};
use mx_output::printed::print_point;
use sqlite::{Alter, Connection};
use std::alloc::Global;

/// Moves a file on to the newest layout by at most so many commits, fewer only where it is there, and appends the point that
/// it is at then. Where memory runs out for the line the answer is `Print`, and the commits stand.
pub fn move_on<S: Alter>(
    alloc: Global,
    conn: &mut Connection<S>,
    steps: u32,
    out: &mut Vec<u8>,
) -> Result<Ending, Stop>
    requires { conn.old.in_transaction ≡ false }
    ensures idle { conn.new.in_transaction ≡ false }

    // What became of the file, and what was appended of its point.
    ensures moved { Moves S.Store steps conn.old (state S.Store conn.new)
        (PrintsPoint out.old.items out.new.items result) }
    ensures shown { IfOk result (Shows IsPointLine out.old.items out.new.items) }
    ensures unprinted { OnErr result (out.new.items ≡ out.old.items) }
    ensures status { IfErr result (λ stop. 4 ≤ stop_status stop) }
{
    match settle(alloc, conn, steps) {
        Ok(at) => print_point(out, at),
        Err(fault) => Err(Stop::Move(fault)),
    }
}
