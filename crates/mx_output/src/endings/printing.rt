//! What goes to the two streams at the end of a word, and the status.
ghost use Rattle.std.specs.Prelude.{◌≡◌, ◌≤◌, max, true, false, OnOk, IfErr};
ghost use Rattle.std.specs.Io.KnownBytes.{Appends};
ghost use Rattle.mx_output.specs.endings.FaultLine.{fault_line};
ghost use Rattle.mx_output.specs.endings.Status.{done_status};

use crate::endings::ending::{Ending, STOPPED, Stop, status_of};
use std::io::Write;

/// What became of the end of a word.
#[derive(Clone, Copy)]
pub struct Printed {
    /// The status that the program ends with.
    pub status: u8,
    /// Whether both streams took all that they were handed.
    pub is_whole: bool,
}

/// Prints what was done, and the line of what stopped it. Where a stream does not take its part the
/// other is handed its own all the same, and the status is 4 or more.
pub fn print_done<O: Write, E: Write>(
    text: &[u8],
    done: Result<Ending, Stop>,
    out: &mut O,
    err: &mut E,
) -> Printed
    ensures status { result.is_whole ≡ true → result.status ≡ done_status done }
    ensures cut { result.is_whole ≡ false → result.status ≡ max (done_status done) 4 }
    ensures printed { result.is_whole ≡ true
        → Appends (O.contents out.old) (O.contents out.new) text.now }
    ensures reported { result.is_whole ≡ true
        → IfErr done (λ stop. Appends (E.contents err.old) (E.contents err.new) (fault_line stop)) }
    ensures quiet { OnOk done (err.new ≡ err.old) }
    ensures bound { result.status ≤ 5 }
{
    let status = status_of(done);
    let printed = out.write_all(text);
    let reported = match done {
        Ok(_) => Ok(()),
        Err(stop) => stop.write(err),
    };
    if printed.is_err() || reported.is_err() {
        return Printed {
            status: status.max(STOPPED),
            is_whole: false,
        };
    }
    Printed {
        status,
        is_whole: true,
    }
}
