//! An office that is opened in a file of any layout, which moves the file where it is older, a loss of power at whatever exit, and
//! the file opened again.
ghost use Rattle.std.specs.Prelude.{◌≡◌, List, false, IfOk, IfErr};
ghost use Rattle.sqlite.specs.Files.{file_state};
ghost use Rattle.sqlite.specs.Held.{state};
ghost use Rattle.mx_book.specs.commands.Act.{Entry};
ghost use Rattle.mx_layout.specs.Crash.{Leaves};
ghost use Rattle.mx_base.specs.declared.point.Point.{Point};
ghost use Rattle.mx_office.specs.Office.{IsReady};
ghost use Rattle.mx_promise.specs.Moved.{FindsBook, KeepsMoving, StandsMoving};
ghost use Rattle.sqlite.specs.Schema.{Schema};
ghost use Rattle.mx_promise.specs.Own.{RestsOn};

use crate::again::{Unopened, open_again};
use mx_office::{Office, open_office};
use sqlite::{Alter, Connection, FileStore, Options};
use sqlite_disk::Crash;
use std::alloc::Global;

// Opens the office of a database, and hands the connection back, whatever became of the opening.
fn behind_opening<S: Alter>(alloc: Global, conn: Connection<S>) -> Connection<S>
    requires { conn.in_transaction ≡ false }
    ensures { (own : Schema) (at : Point) (book : List Entry)
        → RestsOn own at (state S.Store conn) book
        → Leaves (state S.Store result) (StandsMoving own at book) }
{
    match open_office(alloc, conn) {
        Ok(office) => office.close(),
        Err((conn, _)) => conn,
    }
}

/// Opens the office of a database, until it is opened or something stops the move of its file; then the power is lost, the file
/// is opened again, and the office in it.
pub fn open_and_reopen<D: Crash + Drop>(
    alloc: Global,
    conn: Connection<FileStore<D>>,
    options: Options,
) -> Result<Office<FileStore<D>>, Unopened<D>>
    requires { conn.in_transaction ≡ false }
    ensures ready { IfOk result IsReady }
    ensures headline { (own : Schema) (at : Point) (book : List Entry)
        → RestsOn own at (file_state conn) book → IfOk result (FindsBook own book) }
    ensures unopened { (own : Schema) (at : Point) (book : List Entry)
        → RestsOn own at (file_state conn) book → IfErr result (KeepsMoving own at book) }
{
    open_again(alloc, behind_opening(alloc, conn), options)
}
