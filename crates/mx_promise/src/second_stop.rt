//! A second stop, from the book that the first one left.
ghost use Rattle.std.specs.Prelude.{◌≡◌, None, false, length, List, IfOk, IfErr};
ghost use Rattle.sqlite.specs.State.{HasCleanDisk};
ghost use Rattle.sqlite.specs.Files.{file_state, over_files};
ghost use Rattle.mx_book.specs.commands.Act.{Entry};
ghost use Rattle.mx_base.specs.declared.point.Point.{Point};
ghost use Rattle.mx_book_tables.specs.stands.Schemas.{IsOfFile};
ghost use Rattle.mx_office.specs.Calls.{IsRun};
ghost use Rattle.mx_office.specs.Office.{office_state};
ghost use Rattle.mx_promise.specs.Opened.{AreTold, IsHandedClean, IsLeftStanding, KeepsSomewhere};
ghost use Rattle.mx_promise.specs.Opened.{RestsSomewhere};
ghost use Rattle.mx_promise.specs.Reopened.{KeepsUnopened, ReopensTwice};
ghost use Rattle.sqlite.specs.Schema.{Schema};
ghost use Rattle.mx_apply.specs.writing.Written.{IsSettled};
ghost use Rattle.mx_office.specs.Stands.{RestsIn};
ghost use Rattle.mx_promise.specs.Own.{RestsOn};

use crate::again::{Reopened, Unopened};
use crate::opening::{Opened, open_run_and_reopen};
use crate::running::{Stopped, run_and_reopen};
use mx_base::{Day, Tail};
use mx_book::commands::Command;
use mx_database::power::reopen;
use mx_office::{Office, OpenFault, Outcomes};
use sqlite::{Alter, Connection, FileStore, Options};
use sqlite_disk::{Crash, Disk};
use std::alloc::Global;

/// What two runs were answered, with a loss of power behind each, and what was found after the second.
pub struct StoppedTwice<S: Alter, D: Disk> {
    /// What the first run was answered.
    pub first: Outcomes,
    /// The second run; or why no office was opened for it.
    pub second: Result<Stopped<S, D>, Unopened<D>>,
}

/// Runs commands up to a first loss of power, and more of them, over the office that was opened again, up to a second.
pub fn run_and_reopen_twice<D: Crash + Drop>(
    alloc: Global,
    office: Office<FileStore<D>>,
    commands: &[Command],
    more: &[Command],
    tail: &Tail,
    day: Day,
    options: Options,
) -> StoppedTwice<FileStore<D>, D>
    ensures headline { (own : Schema) → IsSettled own → (before : _)
        → RestsIn own (office_state office) before → IfOk result.second (λ second.
        IfOk second.again (ReopensTwice own before commands.now more.now tail.now day result.first
        second.outcomes)) }
    ensures unopened { (own : Schema) → IsSettled own → (before : _)
        → RestsIn own (office_state office) before
        → IfErr result.second (KeepsUnopened own before commands.now result.first) }
    ensures ran { (after : _) × IsRun commands.now result.first.replies.items
        result.first.stopped office after }
    ensures done { IfOk result.second (λ second. second.outcomes.stopped ≡ None
        → length second.outcomes.replies.items ≡ length more.now) }
{
    let Stopped {
        outcomes: first,
        again,
    } = run_and_reopen(alloc, office, commands, tail, day, options);
    match again {
        Ok(Reopened { office, printed: _ }) => {
            let second = run_and_reopen(alloc, office, more, tail, day, options);
            StoppedTwice {
                first,
                second: Ok(second),
            }
        }
        Err(why) => StoppedTwice {
            first,
            second: Err(why),
        },
    }
}

/// What came of a database that was opened, run and stopped, and then once more.
pub struct OpenedTwice<S: Alter, D: Disk> {
    /// Why no office was opened for the first commands, if none was: then none of them was run.
    pub unopened: Option<OpenFault>,
    /// What the first commands were answered.
    pub first: Outcomes,
    /// What came of it the second time; or why the database could not be opened for that, with what is left of it.
    pub second: Result<Opened<S, D>, Unopened<D>>,
}

// The connection that a stop left, to be opened again: that of the office; or, where none was opened, the one that is
// found behind a further loss of power.
fn connection_behind<D: Crash + Drop>(
    alloc: Global,
    again: Result<Reopened<FileStore<D>>, Unopened<D>>,
    options: Options,
) -> Result<Connection<FileStore<D>>, Unopened<D>>
    ensures idle { IfOk result (λ conn. conn.in_transaction ≡ false) }
    ensures clean { IfOk result (λ conn. HasCleanDisk (file_state conn) → IsHandedClean again) }
    ensures stands { (own : Schema) (book : List Entry) → IsLeftStanding own book again
        → IfOk result (λ conn. HasCleanDisk (file_state conn)
        → ∥ RestsSomewhere own book (file_state conn) ∥₁) }
    ensures unopened { (own : Schema) (before commands : List Entry) (outcomes : _)
        → IfErr again (KeepsSomewhere own before commands outcomes)
        → IfErr result (KeepsSomewhere own before commands outcomes) }
{
    match again {
        Ok(Reopened { office, printed: _ }) => Ok(office.close()),
        Err(Unopened::Office(conn, _)) => match reopen(alloc, conn, options) {
            Ok(found) => Ok(found),
            Err((error, left)) => Err(Unopened::Database(error, left)),
        },
        Err(why) => Err(why),
    }
}

/// Opens the office of a database and runs commands, up to a first loss of power, in the move or behind it; opens it again,
/// which may be stopped by a loss of power too; and then does so with more commands, up to a last one.
pub fn open_run_and_reopen_twice<D: Crash + Drop>(
    alloc: Global,
    conn: Connection<FileStore<D>>,
    commands: &[Command],
    more: &[Command],
    tail: &Tail,
    day: Day,
    options: Options,
) -> OpenedTwice<FileStore<D>, D>
    requires { conn.in_transaction ≡ false }
    ensures headline { (own : Schema) (at : Point) (before : List Entry) → IsOfFile at
        → RestsOn own at (file_state conn) before → IfOk result.second (λ second.
        IfOk second.again (ReopensTwice own before commands.now more.now tail.now day result.first
        second.outcomes)) }
    ensures unopened { (own : Schema) (at : Point) (before : List Entry) → IsOfFile at
        → RestsOn own at (file_state conn) before
        → IfErr result.second (KeepsSomewhere own before commands.now result.first) }
    ensures told { AreTold over_files commands.now result.unopened result.first conn }
    ensures done { IfOk result.second (λ second. second.unopened ≡ None
        → second.outcomes.stopped ≡ None
        → length second.outcomes.replies.items ≡ length more.now) }
{
    let Opened {
        unopened,
        outcomes: first,
        again,
    } = open_run_and_reopen(alloc, conn, commands, tail, day, options);
    match connection_behind(alloc, again, options) {
        Ok(found) => {
            let second = open_run_and_reopen(alloc, found, more, tail, day, options);
            OpenedTwice {
                unopened,
                first,
                second: Ok(second),
            }
        }
        Err(why) => OpenedTwice {
            unopened,
            first,
            second: Err(why),
        },
    }
}
