//! Opening the database in a file, whose store is named here.
//!
//! A file that is empty, or has one byte, is not opened but by a word that makes one: `sqlite` takes it for a new one
//! that was cut short, writes its first page and empties the log beside it, which may hold entries that an accident
//! took from the file. A file is opened that its log shows to have been stopped within its first page, and `sqlite`
//! then ends that page; that is what `sqlite` states of such files, and is neither proved nor tried here.
ghost use Rattle.std.specs.Prelude.{◌≡◌, ◌≢◌, ◌↔◌, false, IfOk, IfErr};

use sqlite::{Connection, Error, ErrorCode, FileFrom, FileStore, Wary};
use std::fs;
use std::io::ErrorKind;

/// The store of a file.
pub(crate) type File = FileStore<FileFrom<Wary>>;

/// Why no database was opened.
#[derive(Clone, Copy)]
pub enum Unopened {
    /// Memory ran out.
    Memory,
    /// The file can't be opened, or made.
    Store,
    /// There is no file of that name, or it is empty or has one byte: it is none, and is left as it is.
    Nothing,
}

// Why no database was opened, by the error that said so.
fn unopened_by(error: Error) -> Unopened
    ensures memory { (result ≡ Unopened.Memory) ↔ (error ≡ Error.SqliteFailure
        ErrorCode.OutOfMemory) }
    ensures opened { result ≢ Unopened.Nothing }
{
    match error {
        Error::SqliteFailure(ErrorCode::OutOfMemory) => Unopened::Memory,
        _ => Unopened::Store,
    }
}

// Whether there is nothing to be opened: no file of that name, or an empty one.
fn is_nothing(rt: &HostRuntime, file: &str) -> bool {
    match fs::metadata(rt, file) {
        Ok(about) => about.is_file() && about.len() <= 1,
        Err(error) => error.kind() == ErrorKind::NotFound,
    }
}

/// Which file a database is opened in.
#[derive(Clone, Copy)]
pub enum Opening {
    /// One that holds one. A file that isn't there, is empty or has one byte is none, and is left as it is: opening it would make
    /// a database of it.
    There,
    /// One that is made where it isn't there.
    OrMade,
}

/// Opens the database in a file.
pub(crate) fn open_file(
    rt: &HostRuntime,
    file: &str,
    opening: Opening,
) -> Result<Connection<File>, Unopened>
    ensures idle { IfOk result (λ conn. conn.in_transaction ≡ false) }
    ensures opened { opening ≡ Opening.OrMade → IfErr result (λ why. why ≢ Unopened.Nothing) }
{
    match opening {
        Opening::There if is_nothing(rt, file) => return Err(Unopened::Nothing),
        _ => {}
    }
    match Connection::open_from(rt, file, false, Wary) {
        Ok(conn) => Ok(conn),
        Err((error, _)) => Err(unopened_by(error)),
    }
}
