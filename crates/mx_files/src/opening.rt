//! What becomes of a word where its file was not opened, or not closed.
ghost use Rattle.std.specs.Prelude.{◌≡◌, ◌⊎◌, true, false, Err, OnOk, OnErr};
ghost use Rattle.mx_database.specs.declared.opening.Unopened.{Unopened};
ghost use Rattle.mx_output.specs.endings.Status.{stop_status};

use mx_database::{Unopened, Worked};
use mx_office::{Fault, OpenFault};
use mx_output::endings::{Ending, Stop};

/// What stops a word whose file was not opened.
pub(crate) fn stop_of(why: Unopened) -> Stop
    ensures memory { why ≡ Unopened.Memory → result ≡ Stop.Open OpenFault.Memory }
    ensures store { why ≡ Unopened.Store → result ≡ Stop.Open OpenFault.Store }
    ensures nothing { why ≡ Unopened.Nothing → result ≡ Stop.Open OpenFault.NotOurs }
    ensures status { stop_status result ≡ 5 }
{
    match why {
        Unopened::Memory => Stop::Open(OpenFault::Memory),
        Unopened::Store => Stop::Open(OpenFault::Store),
        Unopened::Nothing => Stop::Open(OpenFault::NotOurs),
    }
}

/// How a word over a file ended: the store failed where the closing did and nothing else.
pub(crate) fn ended(worked: Worked<Result<Ending, Stop>>) -> Result<Ending, Stop>
    ensures either { (result ≡ worked.done) ⊎ (result ≡ Err (Stop.Office Fault.Store)) }
    ensures closed { worked.is_closed ≡ true → result ≡ worked.done }
    ensures stopped { OnErr worked.done (result ≡ worked.done) }
    ensures unclosed { worked.is_closed ≡ false
        → OnOk worked.done (result ≡ Err (Stop.Office Fault.Store)) }
{
    if worked.done.is_ok() && !worked.is_closed {
        return Err(Stop::Office(Fault::Store));
    }
    worked.done
}
