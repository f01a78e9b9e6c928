//! A run of commands, a loss of power at whatever exit, and the file opened again: the headline, as the contract of
//! `run_and_reopen`.
//!
//! What was answered outlives an opening that fails: the outcomes of the run are handed back beside what was found, not
//! within it.
ghost use Rattle.std.specs.Prelude.{IfOk, IfErr};
ghost use Rattle.sqlite.specs.Schema.{Schema};
ghost use Rattle.sqlite.specs.State.{HasCleanDisk};
ghost use Rattle.mx_apply.specs.writing.Written.{IsSettled};
ghost use Rattle.mx_office.specs.Calls.{IsRun};
ghost use Rattle.mx_office.specs.Office.{office_state};
ghost use Rattle.mx_office.specs.Stands.{RestsIn};
ghost use Rattle.mx_promise.specs.Reopened.{GoesOn, KeepsUnopened, Reopens};

use crate::again::{Reopened, Unopened, reopen_and_print};
use mx_base::{Day, Tail};
use mx_book::commands::Command;
use mx_office::{Office, Outcomes};
use sqlite::{Alter, FileStore, Options};
use sqlite_disk::{Crash, Disk};
use std::alloc::Global;

/// What commands were answered before the power was lost, and what was found after it.
pub struct Stopped<S: Alter, D: Disk> {
    /// The replies, and what stopped the run before its end.
    pub outcomes: Outcomes,
    /// The office that was opened again; or why none was.
    pub again: Result<Reopened<S>, Unopened<D>>,
}

/// Applies commands until they end or something stops them; then the power is lost, the file is opened again, and a
/// due list is printed from it.
pub fn run_and_reopen<D: Crash + Drop>(
    alloc: Global,
    mut office: Office<FileStore<D>>,
    commands: &[Command],
    tail: &Tail,
    day: Day,
    options: Options,
) -> Stopped<FileStore<D>, D>
    ensures headline { (own : Schema) → IsSettled own → (before : _)
        → RestsIn own (office_state office) before
        → IfOk result.again (Reopens own before commands.now tail.now day result.outcomes) }
    ensures unopened { (own : Schema) → IsSettled own → (before : _)
        → RestsIn own (office_state office) before
        → IfErr result.again (KeepsUnopened own before commands.now result.outcomes) }

    // What the commands were answered, whatever is found behind that.
    ensures ran { (after : _) × IsRun commands.now result.outcomes.replies.items
        result.outcomes.stopped office after }
    ensures goes_on { IfOk result.again GoesOn }
    ensures clean { IfOk result.again (λ it.
        HasCleanDisk (office_state it.office) → HasCleanDisk (office_state office)) }
{
    let outcomes = office.run(alloc, commands);
    let again = reopen_and_print(alloc, office.close(), tail, day, options);
    Stopped { outcomes, again }
}
