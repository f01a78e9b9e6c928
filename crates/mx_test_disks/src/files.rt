//! A database file and its log in memory. Each fails after so many calls, and loses what was not synced where the
//! power is lost. Here alone a store is named. Each call of a function for any store at this one is dear to prove, so
//! there are two: a database or an office is asked, and an office is left.
ghost use Rattle.std.specs.Prelude.{◌≡◌, false, IsTrue, IfOk, IfErr};
ghost use Rattle.sqlite_disk.specs.Memory.{memory_is_usable};
ghost use Rattle.sqlite_disk.specs.Fuse.{inner_of, IsFresh};

use crate::asking::ask;
use mx_database::power::end_process;
use mx_desk::jobs::office::Office;
use mx_test_cases::{AnswerText, Asked, Held, Setting};
use mx_test_tables::faults::error_text;
use sqlite::{Connection, Error, FileStore, Files, Options};
use sqlite_disk::{Crash, Disk, Fuse, Memory};
use std::alloc::{AllocError, Global};

pub(crate) type Fused = FileStore<Fuse<Memory>>;

/// A database file and its log, each of which fails after so many calls.
pub(crate) type Pair = Files<Fuse<Memory>>;

/// What files leave that were asked a line: files, or an office that is open over them.
pub(crate) enum Left {
    Files(Pair),
    Office(Office<Fused>),
}

// A file that holds these bytes, on the disk.
fn file(alloc: Global, bytes: &[u8], calls: u64) -> Result<Fuse<Memory>, AllocError>
    ensures { IfOk result (λ f. IsTrue (memory_is_usable (inner_of f)) × IsFresh f) }
{
    let mut inner = Memory::new(alloc);
    inner.write_at(0, bytes).or(Err(AllocError))?;
    inner.sync().or(Err(AllocError))?;
    Ok(Fuse::new(inner, calls))
}

/// Files of their own that hold the bytes of these, on the disk.
pub(crate) fn copied(alloc: Global, files: &Pair, setting: Setting) -> Result<Pair, AllocError>
    ensures log { IfOk result (λ f. IsTrue (memory_is_usable (inner_of f.log)) × IsFresh f.log) }
    ensures db { IfOk result (λ f. IsTrue (memory_is_usable (inner_of f.db)) × IsFresh f.db) }
{
    let log = file(alloc, files.log.inner().bytes(), setting.log)?;
    let db = file(alloc, files.db.inner().bytes(), setting.db)?;
    Ok(Files { log, db })
}

/// The bytes that files hold.
pub(crate) fn held_in(alloc: Global, files: &Pair) -> Result<Held, AllocError> {
    Ok(Held {
        log: files.log.inner().bytes().to_vec(alloc)?,
        db: files.db.inner().bytes().to_vec(alloc)?,
    })
}

/// Files that hold nothing.
pub(crate) fn empty_files(alloc: Global) -> Pair {
    let log = Fuse::new(Memory::new(alloc), u64::MAX);
    let db = Fuse::new(Memory::new(alloc), u64::MAX);
    Files { log, db }
}

// The options that files are opened with.
fn options(pages: usize) -> Options {
    Options {
        checkpoint_frames: pages,
        ..Options::new(7)
    }
}

// Opens the database that a copy of the files holds; or why it was not opened, and the files as they were left.
fn opened(
    alloc: Global,
    files: &Pair,
    setting: Setting,
) -> Result<Result<Connection<Fused>, (Error, Pair)>, AllocError>
    ensures { IfOk result (λ found. IfOk found (λ conn. conn.in_transaction ≡ false)) }
{
    let files = copied(alloc, files, setting)?;
    match Connection::open_files(alloc, files, options(setting.pages)) {
        Ok(conn) => Ok(Ok(conn)),
        Err((error, left)) => Ok(Err((error, left.into_files()))),
    }
}

// The files that a database leaves where its process ends.
fn files_left(conn: Connection<Fused>) -> Pair {
    end_process(conn).close()
}

/// Asks an office, or a database in which none is open, a line: the answer, and what is left.
pub(crate) fn asked_in(
    place: Result<Office<Fused>, Connection<Fused>>,
    asked: Asked<'_>,
) -> (AnswerText, Left)
    requires { IfErr place (λ conn. conn.in_transaction ≡ false) }
{
    match ask(place, asked) {
        (answer, Ok(office)) => (answer, Left::Office(office)),
        (answer, Err(conn)) => (answer, Left::Files(files_left(conn))),
    }
}

/// Opens the database that a copy of the files holds, and asks it a line: the answer, or why it was not opened, and
/// what is left.
pub(crate) fn asked_of_files(
    files: &Pair,
    setting: Setting,
    asked: Asked<'_>,
) -> Result<(AnswerText, Left), AllocError> {
    let alloc = asked.alloc;
    match opened(alloc, files, setting)? {
        Ok(conn) => Ok(asked_in(Err(conn), asked)),
        Err((error, left)) => Ok((error_text(alloc, error), Left::Files(left))),
    }
}

/// What is left of the files of an office where its process ends. Where it is closed as the program closes it, so that
/// the log is copied into the database file, also what stopped that.
pub(crate) fn left_by(office: Office<Fused>, is_closed: bool) -> (Pair, Result<(), Error>) {
    let conn = office.close();
    if !is_closed {
        return (files_left(conn), Ok(()));
    }
    match conn.close_files() {
        Ok(files) => (files, Ok(())),
        Err((error, store)) => (store.close(), Err(error)),
    }
}

/// The power is lost: the files hold what was synced.
pub(crate) fn lose_power(files: &mut Pair) {
    files.log.crash();
    files.db.crash();
}
