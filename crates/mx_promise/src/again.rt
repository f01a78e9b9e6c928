//! A loss of power, and the office opened again: what is found, and a due list that is printed from it.
//!
//! Where no office is opened again in a database that was, the connection is handed back with the reason. Where `sqlite`
//! does not open the files, what it leaves of them is handed back with the reason, for `open_left`.
ghost use Rattle.std.specs.Prelude.{◌≡◌, ◌≢◌, IfOk, IfErr};
ghost use Rattle.sqlite.specs.Files.{file_state};
ghost use Rattle.sqlite.specs.Schema.{Schema};
ghost use Rattle.sqlite.specs.State.{HasCleanDisk};
ghost use Rattle.mx_layout.specs.Crash.{ChangesNothing, Leaves};
ghost use Rattle.mx_database.specs.power.Found.{Finds};
ghost use Rattle.mx_apply.specs.writing.Written.{IsSettled};
ghost use Rattle.mx_office.specs.Office.{office_state, IsInDoubt, IsReady};
ghost use Rattle.mx_office.specs.Stands.{RestsIn};
ghost use Rattle.mx_promise.specs.Opened.{FindsAgain, IsLeftClean, MissesAgain, PrintsAgain};
ghost use Rattle.mx_promise.specs.Reopened.{FindsUnopened, GoesOn, IsPrintOf, SaysHere};

use mx_base::{Day, Tail};
use mx_database::power::reopen;
use mx_office::{Ask, Fault, Office, OpenFault, open_office};
use mx_reports::due_text;
use sqlite::{Alter, Connection, Error, FileStore, Leftover, Options};
use sqlite_disk::{Crash, Disk};
use std::alloc::Global;

/// Why no office was opened again.
pub enum Unopened<D: Disk> {
    /// Not even the files could be opened, and they are as they were.
    Files(Error),
    /// `sqlite` did not open the files as a database: why, and what is left of them.
    Database(Error, Leftover<D>),
    /// The database was opened and is handed back; no office was opened in it.
    Office(Connection<FileStore<D>>, OpenFault),
}

/// An office that was opened again, and the due list that was printed from it.
pub struct Reopened<S: Alter> {
    /// The office.
    pub office: Office<S>,
    /// The text of the list; or why there is none.
    pub printed: Result<Vec<u8>, Ask>,
}

// The due list of an aircraft on a day, as text. No table changes.
fn print_due<S: Alter>(
    alloc: Global,
    office: &mut Office<S>,
    tail: &Tail,
    day: Day,
) -> Result<Vec<u8>, Ask>
    ensures untouched { IsReady office.old
        → ChangesNothing (office_state office.old) (office_state office.new) }
    ensures goes_on { IsReady office.old → result ≢ Err (Ask.Failed Fault.Store)
        → IsReady office.new }
    ensures stopped { result ≡ Err (Ask.Failed Fault.Store) → IsInDoubt office.new }
    ensures printed { (own : Schema) → IsSettled own → (book : _) → IsReady office.old
        → RestsIn own (office_state office.old) book → HasCleanDisk (office_state office.new)
        → IsPrintOf book tail.now day result }
{
    let list = office.due_rows(alloc, *tail, day)?;
    let mut text = Vec::new(alloc);
    match due_text(&mut text, &list) {
        Ok(()) => Ok(text),
        Err(_) => Err(Ask::Failed(Fault::Memory)),
    }
}

// The office that was opened again, and a due list that is printed from it.
pub(crate) fn printed_from<S: Alter>(
    alloc: Global,
    mut office: Office<S>,
    tail: &Tail,
    day: Day,
) -> Reopened<S>
    ensures goes_on { IsReady office → GoesOn result }
    ensures untouched { IsReady office
        → ChangesNothing (office_state office) (office_state result.office) }
    ensures printed { (own : Schema) → IsSettled own → (book : _) → IsReady office
        → RestsIn own (office_state office) book → HasCleanDisk (office_state result.office)
        → IsPrintOf book tail.now day result.printed }
{
    let printed = print_due(alloc, &mut office, tail, day);
    Reopened { office, printed }
}

/// The power is lost at this moment, and the office of the database is opened again. A file of an older layout, or one
/// that was stopped on its way to the newest, is moved there first.
pub fn open_again<D: Crash + Drop>(
    alloc: Global,
    conn: Connection<FileStore<D>>,
    options: Options,
) -> Result<Office<FileStore<D>>, Unopened<D>>
    ensures ready { IfOk result IsReady }
    ensures clean { IfOk result (λ again.
        HasCleanDisk (office_state again) → HasCleanDisk (file_state conn)) }
    ensures sure { IfErr result (λ why. IsLeftClean why → HasCleanDisk (file_state conn)) }
    ensures found { IfOk result (λ again. FindsAgain (file_state conn) (office_state again)) }
    ensures unopened { IfErr result (MissesAgain (file_state conn)) }
{
    match reopen(alloc, conn, options) {
        Ok(found) => match open_office(alloc, found) {
            Ok(again) => Ok(again),
            Err((left, fault)) => Err(Unopened::Office(left, fault)),
        },
        Err((error, left)) => Err(Unopened::Database(error, left)),
    }
}

/// The power is lost at this moment, and the office is opened again.
pub fn reopen_office<D: Crash + Drop>(
    alloc: Global,
    office: Office<FileStore<D>>,
    options: Options,
) -> Result<Office<FileStore<D>>, Unopened<D>>
    ensures ready { IfOk result IsReady }
    ensures clean { IfOk result (λ again.
        HasCleanDisk (office_state again) → HasCleanDisk (office_state office)) }

    // Of a file at the point of the office, whatever rows it has, and whatever tables beside its own.
    ensures found { Leaves (office_state office) SaysHere
        → IfOk result (λ again. Finds (office_state office).may_leave (office_state again)) }
    ensures unopened { Leaves (office_state office) SaysHere
        → IfErr result (FindsUnopened (office_state office)) }
{
    open_again(alloc, office.close(), options)
}

// The power is lost at this moment, the office is opened again, and a due list is printed from it.
pub(crate) fn reopen_and_print<D: Crash + Drop>(
    alloc: Global,
    conn: Connection<FileStore<D>>,
    tail: &Tail,
    day: Day,
    options: Options,
) -> Result<Reopened<FileStore<D>>, Unopened<D>>
    ensures goes_on { IfOk result GoesOn }
    ensures clean { IfOk result (λ it.
        HasCleanDisk (office_state it.office) → HasCleanDisk (file_state conn)) }
    ensures sure { IfErr result (λ why. IsLeftClean why → HasCleanDisk (file_state conn)) }
    ensures printed { IfOk result (PrintsAgain (file_state conn) tail.now day) }
    ensures unopened { IfErr result (MissesAgain (file_state conn)) }
{
    match open_again(alloc, conn, options) {
        Ok(office) => Ok(printed_from(alloc, office, tail, day)),
        Err(why) => Err(why),
    }
}
