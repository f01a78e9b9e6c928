//! An empty book that is made in an empty database, a loss of power at whatever exit, and the file opened again.
ghost use Rattle.std.specs.Prelude.{◌≡◌, ◌≢◌, ◌⊎◌, false, IsErr, IsTrue, IfOk, IfErr};
ghost use Rattle.sqlite.specs.State.{HasCleanDisk};
ghost use Rattle.sqlite.specs.Files.{file_state};
ghost use Rattle.mx_database.specs.power.Found.{Finds};
ghost use Rattle.mx_database.specs.power.Left.{IsFaithful, IsLeft};
ghost use Rattle.mx_layout.specs.Listed.{IsRefusal};
ghost use Rattle.mx_layout.specs.Point.{IsStop};
ghost use Rattle.mx_layout.specs.Tables.{no_schema};
ghost use Rattle.mx_office.specs.Layout.{office_point};
ghost use Rattle.mx_promise.specs.Created.{FindsMade, IsBare, MayBeMade};

use mx_database::power::reopen;
use mx_layout::{Layout, TableFault, create};
use sqlite::{Connection, Error, FileStore, Leftover, Options};
use sqlite_disk::{Crash, Disk};
use std::alloc::Global;

/// What making an empty book answered before the power was lost, and the database that was opened after it.
pub struct Made<D: Disk> {
    /// What the call answered.
    pub answer: Result<(), TableFault>,
    /// The database; or why `sqlite` did not open it, and what is left of its files.
    pub again: Result<Connection<FileStore<D>>, (Error, Leftover<D>)>,
}

/// Makes an empty book in an empty database, until it is made or something stops it; then the power is lost and the
/// file is opened again.
pub fn create_and_reopen<D: Crash + Drop>(
    alloc: Global,
    mut conn: Connection<FileStore<D>>,
    layout: Layout,
    options: Options,
) -> Made<D>
    requires idle { conn.in_transaction ≡ false }
    requires built { layout.0 ≡ office_point.layout }
    ensures idle { IfOk result.again (λ again. again.in_transaction ≡ false) }
    ensures headline { IsBare (file_state conn)
        → IfOk result.again (λ again. FindsMade result.answer (file_state again)) }
    ensures unopened { IsBare (file_state conn) → IsFaithful D.Disk
        → IfErr result.again (λ why. IsLeft (MayBeMade result.answer) 0 why.0 why.1) }

    // Over any database: one that is not empty keeps what it holds, an office or another program's tables, and so does
    // any where nothing was made.
    ensures kept { (IsTrue (file_state conn).is_open → (file_state conn).now.schema ≢ no_schema)
        → IfOk result.again (λ again. Finds (file_state conn).may_leave (file_state again)) }
    ensures unchanged { IfErr result.answer (λ fault. fault ≢ TableFault.Store
        → IfOk result.again (λ again. Finds (file_state conn).may_leave (file_state again))) }
    ensures taken { (IsTrue (file_state conn).is_open → (file_state conn).now.schema ≢ no_schema)
        → IfOk result.again (λ again. HasCleanDisk (file_state again) → IsErr result.answer) }
    ensures faults { IfErr result.answer (λ fault. IsStop fault
        ⊎ IsRefusal (file_state conn).now.schema fault) }
{
    let answer = create(&mut conn, layout);
    let again = reopen(alloc, conn, options);
    Made { answer, again }
}
