//! A run that ends with its process, and the file opened again by the next one: the headline for a real file, whose bytes
//! no clause speaks of.
//!
//! No call spans two processes, so the sentence is cut in two: `run_and_end`, or from the connection on
//! `open_run_and_end`, says what the process leaves, and `reopen_after` takes that as a value, lets it go, and has the
//! first one's clause as its premise. That the file holds what the first left of it (`WasLeft`) is its other premise:
//! nobody can prove it of a device.
ghost use Rattle.std.specs.Prelude.{◌≡◌, Some, false, List, IfOk, IfErr};
ghost use Rattle.sqlite.specs.Files.{file_state, over_files};
ghost use Rattle.sqlite_store.specs.FileStore as files;
ghost use Rattle.sqlite_trees.specs.View.{IsClean};
ghost use Rattle.sqlite_wal.specs.Files.{image_at};
ghost use Rattle.mx_book.specs.commands.Act.{Entry};
ghost use Rattle.mx_base.specs.declared.point.Point.{Point};
ghost use Rattle.mx_database.specs.power.Found.{WasLeft};
ghost use Rattle.mx_book_tables.specs.stands.Schemas.{IsOfFile};
ghost use Rattle.mx_office.specs.Calls.{IsRun};
ghost use Rattle.mx_office.specs.Office.{office_state};
ghost use Rattle.mx_promise.specs.Ended.{IsEnded, IsEndedSomewhere, NextKeepsSomewhere, NextKeepsUnopened};
ghost use Rattle.mx_promise.specs.Ended.{without_database};
ghost use Rattle.mx_promise.specs.Opened.{AreTold};
ghost use Rattle.mx_promise.specs.Reopened.{GoesOn, IsStopOf, Reopens};
ghost use Rattle.sqlite.specs.Schema.{Schema};
ghost use Rattle.mx_apply.specs.writing.Written.{IsSettled};
ghost use Rattle.mx_office.specs.Stands.{RestsIn};
ghost use Rattle.mx_promise.specs.Own.{RestsOn};

use crate::again::{Unopened, printed_from};
use crate::opening::{OpenedAndRun, open_and_run};
use crate::running::Stopped;
use mx_base::{Day, Tail};
use mx_book::commands::Command;
use mx_database::power::{end_process, reopen_file};
use mx_office::{Office, OpenFault, Outcomes, open_office};
use sqlite::{Connection, Error, FileFrom, FileStore, Leftover};
use sqlite_disk::{Disk, Start};
use std::alloc::Global;

/// What commands were answered in a process, and the store that it left as it ended.
pub struct Ended<D: Disk> {
    /// The replies, and what stopped the run before its end.
    pub outcomes: Outcomes,
    /// The store, for `reopen_after`.
    pub store: FileStore<D>,
}

/// What came of a database in a process that opened its office for commands, and ended.
pub struct OpenedAndEnded<D: Disk> {
    /// Why no office was opened for the commands, if none was: then none of them was run.
    pub unopened: Option<OpenFault>,
    /// What the commands were answered, and the store that the process left; no reply and no stop where none was run.
    pub ended: Ended<D>,
}

/// Applies commands until they end or something stops them; then the process ends.
pub fn run_and_end<D: Disk + Drop>(
    alloc: Global,
    mut office: Office<FileStore<D>>,
    commands: &[Command],
) -> Ended<D>
    ensures ended { (own : Schema) → IsSettled own → (before : _)
        → RestsIn own (office_state office) before → IsEnded own before commands.now result }
    ensures ran { (after : _) × IsRun commands.now result.outcomes.replies.items
        result.outcomes.stopped office after }
{
    let outcomes = office.run(alloc, commands);
    Ended {
        outcomes,
        store: end_process(office.close()),
    }
}

/// Opens the office of a database, which is moved to the newest layout first where it is older, and applies commands
/// until they end or something stops them, in the move or behind it; then the process ends.
pub fn open_run_and_end<D: Disk + Drop>(
    alloc: Global,
    conn: Connection<FileStore<D>>,
    commands: &[Command],
) -> OpenedAndEnded<D>
    requires { conn.in_transaction ≡ false }
    ensures ended { (own : Schema) (at : Point) (before : List Entry) → IsOfFile at
        → RestsOn own at (file_state conn) before
        → IsEndedSomewhere own before commands.now result.ended }
    ensures whole { (own : Schema) (at : Point) (before : List Entry) → IsOfFile at
        → RestsOn own at (file_state conn) before → IsClean (files.view result.ended.store)
        → (fault : OpenFault) → result.unopened ≡ Some fault → IsStopOf fault }
    ensures told { AreTold over_files commands.now result.unopened result.ended.outcomes conn }
{
    let OpenedAndRun {
        unopened,
        outcomes,
        left,
    } = open_and_run(alloc, conn, commands);
    OpenedAndEnded {
        unopened,
        ended: Ended {
            outcomes,
            store: end_process(left),
        },
    }
}

// Why no database was opened, with what is left of its files where these were.
fn unopened_by<D: Disk>(error: Error, left: Option<Leftover<D>>) -> Unopened<D>
    ensures { result ≡ without_database error left }
{
    match left {
        Some(left) => Unopened::Database(error, left),
        None => Unopened::Files(error),
    }
}

/// The next process opens the file, and a due list is printed from it. `ended` is what the first process left; `start`
/// says what the file and its log hold now, which is supposed to be what the first may have left of them.
pub fn reopen_after<D: Disk + Drop, S: Start>(
    rt: &HostRuntime,
    ended: Ended<D>,
    path: &str,
    start: S,
    tail: &Tail,
    day: Day,
) -> Stopped<FileStore<FileFrom<S>>, FileFrom<S>>
    ensures outcomes { result.outcomes ≡ ended.outcomes }
    ensures goes_on { IfOk result.again GoesOn }
    ensures headline { (own : Schema) (before commands : _) → IsEnded own before commands ended
        → WasLeft ended.store (image_at S.Start)
        → IfOk result.again (Reopens own before commands tail.now day result.outcomes) }
    ensures unopened { (own : Schema) (before commands : _) → IsEnded own before commands ended
        → WasLeft ended.store (image_at S.Start)
        → IfErr result.again (NextKeepsUnopened own before commands result.outcomes) }

    // Where the first process opened its office too, and may have ended in its move.
    ensures moved { (own : Schema) (before commands : _)
        → IsEndedSomewhere own before commands ended → WasLeft ended.store (image_at S.Start)
        → IfOk result.again (Reopens own before commands tail.now day result.outcomes) }
    ensures unmoved { (own : Schema) (before commands : _)
        → IsEndedSomewhere own before commands ended → WasLeft ended.store (image_at S.Start)
        → IfErr result.again (NextKeepsSomewhere own before commands result.outcomes) }
{
    let Ended { outcomes, store } = ended;
    match reopen_file(rt, store, path, start) {
        Ok(conn) => match open_office(rt.alloc(), conn) {
            Ok(office) => Stopped {
                outcomes,
                again: Ok(printed_from(rt.alloc(), office, tail, day)),
            },
            Err((conn, fault)) => Stopped {
                outcomes,
                again: Err(Unopened::Office(conn, fault)),
            },
        },
        Err((error, left)) => Stopped {
            outcomes,
            again: Err(unopened_by(error, left)),
        },
    }
}
