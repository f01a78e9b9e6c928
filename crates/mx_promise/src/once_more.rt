//! What `sqlite` left of files that it did not open, opened once more.
//!
//! The recovery of a file writes, and the power may be lost in that: so a file has to open behind it, as often as that
//! comes. Two things are needed of what is left (`OpensOnceMore`): where recovery was under way, that the file is one
//! without sums behind its pages, as `office` makes it; and that `sqlite` did not stop at the reading of its schema,
//! since of the store that it leaves there no clause of its own says enough.
ghost use Rattle.std.specs.Prelude.{List, IfOk, IfErr};
ghost use Rattle.mx_book.specs.commands.Act.{Entry};
ghost use Rattle.mx_database.specs.power.Left.{OpensOnceMore};
ghost use Rattle.mx_office.specs.Office.{IsReady};
ghost use Rattle.mx_promise.specs.Opened.{FindsKept, KeepsSomewhere, StandsSomewhere};
ghost use Rattle.mx_promise.specs.Reopened.{IsKeptInFiles};
ghost use Rattle.sqlite.specs.Schema.{Schema};

use crate::again::Unopened;
use mx_database::power::reopen_left;
use mx_office::{Office, open_office};
use sqlite::{FileStore, Leftover, Options};
use sqlite_disk::Crash;
use std::alloc::Global;

/// The power is lost at this moment, and what `sqlite` left of files that it did not open is opened once more, with the
/// office in it: it stands for the book that the files were to be opened for, or is left so again.
pub fn open_left<D: Crash + Drop>(
    alloc: Global,
    left: Leftover<D>,
    options: Options,
) -> Result<Office<FileStore<D>>, Unopened<D>>
    ensures ready { IfOk result IsReady }
    ensures headline { (own : Schema) (before commands : List Entry) (outcomes : _) (error : _)
        → IsKeptInFiles (StandsSomewhere own) before commands outcomes error left
        → OpensOnceMore left → IfOk result (FindsKept own before commands outcomes) }
    ensures unopened { (own : Schema) (before commands : List Entry) (outcomes : _) (error : _)
        → IsKeptInFiles (StandsSomewhere own) before commands outcomes error left
        → OpensOnceMore left → IfErr result (KeepsSomewhere own before commands outcomes) }
{
    match reopen_left(alloc, left, options) {
        Ok(found) => match open_office(alloc, found) {
            Ok(again) => Ok(again),
            Err((left, fault)) => Err(Unopened::Office(left, fault)),
        },
        Err((error, left)) => Err(Unopened::Database(error, left)),
    }
}
