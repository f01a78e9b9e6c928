//! The headline from the connection on, for a file at any point of the move to the newest layout, as the contract of
//! `open_run_and_reopen`.
//!
//! Where the first opening stops, no command is run: the outcomes have no reply and no stop, and why is told beside
//! them, since a fault of an opening is none of a run. Where the store failed in a commit of the move nobody knows on
//! which side of that commit the file is: of that one stop each state that a crash may leave is said to stand for the
//! book, each at a point of its own (`IsLeftFor`). The connection can then be given to nothing but a further opening of
//! the files, behind which the file is at one point, and the same call takes it again.
ghost use Rattle.std.specs.Prelude.{◌≡◌, Some, List, IfOk, IfErr, false};
ghost use Rattle.sqlite.specs.Files.{file_state, over_files};
ghost use Rattle.sqlite.specs.Held.{state};
ghost use Rattle.sqlite.specs.Schema.{Schema};
ghost use Rattle.sqlite.specs.State.{HasCleanDisk};
ghost use Rattle.mx_base.specs.declared.point.Point.{Point};
ghost use Rattle.mx_book.specs.commands.Act.{Entry};
ghost use Rattle.mx_book_tables.specs.stands.Schemas.{IsOfFile};
ghost use Rattle.mx_layout.specs.Crash.{Leaves};
ghost use Rattle.mx_office.specs.Office.{office_state};
ghost use Rattle.mx_promise.specs.Opened.{AreTold, IsThereClean, KeepsSomewhere, StandsKept};
ghost use Rattle.mx_promise.specs.Own.{RestsOn};
ghost use Rattle.mx_promise.specs.Reopened.{GoesOn, IsStopOf, Reopens};

use crate::again::{Reopened, Unopened, reopen_and_print};
use mx_base::{Day, Tail};
use mx_book::commands::Command;
use mx_office::{OpenFault, Outcomes, open_office};
use sqlite::{Alter, Connection, FileStore, Options};
use sqlite_disk::{Crash, Disk};
use std::alloc::Global;

// What came of a database whose office was opened for commands, and of those, before anything is lost.
pub(crate) struct OpenedAndRun<S: Alter> {
    // Why no office was opened for the commands, if none was: then none of them was run.
    pub(crate) unopened: Option<OpenFault>,
    // The replies, and what stopped the run before its end; no reply and no stop where no command was run.
    pub(crate) outcomes: Outcomes,
    // The connection that is left behind them.
    pub(crate) left: Connection<S>,
}

/// What came of a database whose office was opened for commands, was stopped, and was opened again.
pub struct Opened<S: Alter, D: Disk> {
    /// Why no office was opened for the commands, if none was: then none of them was run.
    pub unopened: Option<OpenFault>,
    /// The replies, and what stopped the run before its end; no reply and no stop where no command was run.
    pub outcomes: Outcomes,
    /// The office that was opened again; or why none was.
    pub again: Result<Reopened<S>, Unopened<D>>,
}

// Opens the office of a database, which is moved to the newest layout first where it is older, and applies commands
// until they end or something stops them, in the move or behind it.
pub(crate) fn open_and_run<S: Alter>(
    alloc: Global,
    conn: Connection<S>,
    commands: &[Command],
) -> OpenedAndRun<S>
    requires { conn.in_transaction ≡ false }
    ensures leaves { (own : Schema) (at : Point) (before : List Entry)
        → RestsOn own at (state S.Store conn) before → Leaves (state S.Store result.left)
        (StandsKept own at before commands.now result.outcomes) }
    ensures whole { (own : Schema) (at : Point) (before : List Entry) → IsOfFile at
        → RestsOn own at (state S.Store conn) before → HasCleanDisk (state S.Store result.left)
        → (fault : OpenFault) → result.unopened ≡ Some fault → IsStopOf fault }
    ensures told { AreTold S.Store commands.now result.unopened result.outcomes conn }
    ensures clean { HasCleanDisk (state S.Store result.left) → HasCleanDisk (state S.Store conn) }
{
    match open_office(alloc, conn) {
        Ok(mut office) => {
            let outcomes = office.run(alloc, commands);
            OpenedAndRun {
                unopened: None,
                outcomes,
                left: office.close(),
            }
        }
        Err((left, fault)) => OpenedAndRun {
            unopened: Some(fault),
            outcomes: Outcomes {
                replies: Vec::new(alloc),
                stopped: None,
            },
            left,
        },
    }
}

/// Opens the office of a database, which is moved to the newest layout first where it is older, and applies commands
/// until they end or something stops them, in the move or behind it; then the power is lost, the file is opened again,
/// which goes on with the move where that was stopped, and a due list is printed from it.
pub fn open_run_and_reopen<D: Crash + Drop>(
    alloc: Global,
    conn: Connection<FileStore<D>>,
    commands: &[Command],
    tail: &Tail,
    day: Day,
    options: Options,
) -> Opened<FileStore<D>, D>
    requires { conn.in_transaction ≡ false }

    // Of a file that stands for a book, at whatever point of the move.
    ensures headline { (own : Schema) (at : Point) (before : List Entry)
        → RestsOn own at (file_state conn) before
        → IfOk result.again (Reopens own before commands.now tail.now day result.outcomes) }

    // Where a file can be at the point, memory or the store alone stop an opening, and the file stands for the book still.
    ensures unopened { (own : Schema) (at : Point) (before : List Entry) → IsOfFile at
        → RestsOn own at (file_state conn) before
        → IfErr result.again (KeepsSomewhere own before commands.now result.outcomes) }
    ensures whole { (own : Schema) (at : Point) (before : List Entry) → IsOfFile at
        → RestsOn own at (file_state conn) before
        → IsThereClean result.again
        → (fault : OpenFault) → result.unopened ≡ Some fault → IsStopOf fault }

    // What the commands were answered, whatever is found behind that, and with what the office is fed in again.
    ensures told { AreTold over_files commands.now result.unopened result.outcomes conn }
    ensures goes_on { IfOk result.again GoesOn }
    ensures clean { IfOk result.again (λ it.
        HasCleanDisk (office_state it.office) → HasCleanDisk (file_state conn)) }
{
    let OpenedAndRun {
        unopened,
        outcomes,
        left,
    } = open_and_run(alloc, conn, commands);
    let again = reopen_and_print(alloc, left, tail, day, options);
    Opened {
        unopened,
        outcomes,
        again,
    }
}
