//! Opening a database again after a stop: after a loss of power, over disks that can be made to crash, and in another
//! process, over a real file.
//!
//! Where `sqlite` does not open the files, what it leaves of them is handed back with the reason, so that they can be
//! opened once more: its recovery writes, and the power may be lost in that.
ghost use Rattle.std.specs.Prelude.{◌≡◌, ◌⊎◌, None, false, IfOk, IfErr, IfSome};
ghost use Rattle.sqlite.specs.State.{HasCleanDisk};
ghost use Rattle.sqlite.specs.Files.{file_state, IsCleanLeft};
ghost use Rattle.sqlite_wal.specs.Files.{image_at};
ghost use Rattle.mx_database.specs.power.Found.{Finds, IsEndOf, WasLeft};
ghost use Rattle.mx_database.specs.power.Left.{faults_of_files, HoldsWhatIsLeftOf, IsFaithful, IsLeft};

use sqlite::{Connection, Error, ErrorCode, FileFrom, FileStore, Leftover, Options};
use sqlite_disk::{Crash, Disk, Start};
use std::alloc::Global;

/// The power is lost at this moment, and the files are opened again. The tables that are found are among those that
/// a crash may have left, so whatever all of these have, they have. Where `sqlite` does not open them, what is left of
/// them is handed back, and can be opened once more.
pub fn reopen<D: Crash + Drop>(
    alloc: Global,
    conn: Connection<FileStore<D>>,
    options: Options,
) -> Result<Connection<FileStore<D>>, (Error, Leftover<D>)>
    ensures idle { IfOk result (λ again. again.in_transaction ≡ false) }
    ensures clean { IfOk result (λ again.
        HasCleanDisk (file_state again) → HasCleanDisk (file_state conn)) }
    ensures found { IfOk result (λ again. Finds (file_state conn).may_leave (file_state again)) }
    ensures left { IsFaithful D.Disk → IfErr result (λ why. HasCleanDisk (file_state conn)
        × IsLeft (file_state conn).may_leave 0 why.0 why.1) }
{
    reopen_left(alloc, Leftover::Store(conn.into_store()), options)
}

/// The power is lost at this moment, and what an opening left of two files is opened once more. Where the files hold a
/// database with tables that a crash of a connection may have left, so does what is found.
pub fn reopen_left<D: Crash + Drop>(
    alloc: Global,
    left: Leftover<D>,
    options: Options,
) -> Result<Connection<FileStore<D>>, (Error, Leftover<D>)>
    ensures idle { IfOk result (λ again. again.in_transaction ≡ false) }
    ensures clean { IfOk result (λ again. HasCleanDisk (file_state again) → IsCleanLeft left) }
    ensures found { (conn : _) → HoldsWhatIsLeftOf conn left
        → IfOk result (λ again. Finds (file_state conn).may_leave (file_state again)) }
    ensures left { (conn : _) → HoldsWhatIsLeftOf conn left
        → IfErr result (λ why. IsCleanLeft why.1
        → IsLeft (file_state conn).may_leave (faults_of_files left) why.0 why.1) }
{
    let mut files = left.into_files();
    files.log.crash();
    files.db.crash();
    Connection::open_files(alloc, files, options)
}

/// The process ends with this connection: what it leaves of it, for `reopen_file`.
pub fn end_process<D: Disk + Drop>(conn: Connection<FileStore<D>>) -> FileStore<D>
    ensures { IsEndOf conn result }
{
    conn.into_store()
}

/// From one process to the next, over a real file. `left` is what the first one left as it ended (`end_process`), and
/// `start` says what the two files hold as the next one opens them. Where they hold what the first may have left of
/// them, the tables that are found are among those that a crash may have left. What `sqlite` left of files that it did
/// not open is handed back; nothing, where not even the files were opened.
pub fn reopen_file<D: Disk + Drop, S: Start>(
    rt: &HostRuntime,
    left: FileStore<D>,
    path: &str,
    start: S,
) -> Result<Connection<FileStore<FileFrom<S>>>, (Error, Option<Leftover<FileFrom<S>>>)>
    ensures idle { IfOk result (λ again. again.in_transaction ≡ false) }
    ensures found { (conn : _) → IsEndOf conn left → WasLeft left (image_at S.Start)
        → IfOk result (λ again. Finds (file_state conn).may_leave (file_state again)) }
    ensures left { (conn : _) → IsEndOf conn left → WasLeft left (image_at S.Start)
        → IfErr result (λ why. IfSome why.1 (λ rest. IsCleanLeft rest
        → IsLeft (file_state conn).may_leave 0 why.0 rest)) }
    ensures unopened { IfErr result (λ why. why.1 ≡ None
        → (why.0 ≡ Error.SqliteFailure ErrorCode.CannotOpen)
        ⊎ ((why.0 ≡ Error.SqliteFailure ErrorCode.OutOfMemory)
        ⊎ (why.0 ≡ Error.SqliteFailure ErrorCode.DatabaseBusy))) }
{
    drop(left);
    Connection::open_from(rt, path, false, start)
}
