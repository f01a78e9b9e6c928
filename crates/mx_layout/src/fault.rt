//! The tables by name, and what a call on them may answer.

ghost use Rattle.std.specs.Prelude.{◌≡◌, ◌↔◌};
ghost use Rattle.mx_layout.specs.Names.{table_name};
ghost use Rattle.mx_layout.specs.Point.{IsStop};

use sqlite::{Error, ErrorCode};
use std::alloc::{AllocError, AllocFailed};

/// The tables of a file, by their names.
#[derive(Clone, Copy, Debug, PartialEq, Eq)]
pub enum Table {
    Office,
    Entry,
    Aircraft,
    Place,
    Component,
    Programme,
    Task,
    Opening,
    Crs,
    CrsLine,
    Extension,
    Defect,
    Sector1,
    Fit1,
    Removal1,
    Sector2,
    Span2,
    Total2,
    Base2,
    Defect3,
    Done3,
}

impl Table {
    /// Its name in the file.
    pub fn name(self) -> &'static str
        ensures { result.now ≡ table_name self }
    {
        match self {
            Table::Office => "office",
            Table::Entry => "entry",
            Table::Aircraft => "aircraft",
            Table::Place => "place",
            Table::Component => "component",
            Table::Programme => "programme",
            Table::Task => "task",
            Table::Opening => "opening",
            Table::Crs => "crs",
            Table::CrsLine => "crs_line",
            Table::Extension => "extension",
            Table::Defect => "defect",
            Table::Sector1 => "sector1",
            Table::Fit1 => "fit1",
            Table::Removal1 => "removal1",
            Table::Sector2 => "sector2",
            Table::Span2 => "span2",
            Table::Total2 => "total2",
            Table::Base2 => "base2",
            Table::Defect3 => "defect3",
            Table::Done3 => "done3",
        }
    }
}

/// Why a call on the tables did not do its work.
#[derive(Clone, Copy, Debug, PartialEq, Eq)]
pub enum TableFault {
    /// Memory ran out.
    Memory,
    /// A call of `sqlite` answered an error that is no want of memory.
    Store,
    /// There is no table `office`, the statement that reads it is refused because of its text, or its answer is not
    /// exactly one row. Where tables are to be made: there is no table `office`, and the database is not empty.
    NotOurs,
    /// The table `office` is there already.
    Exists,
    /// A row can't be read as its type, names an entry that is not there, or holds an entry that those
    /// before it refuse.
    Damaged(Table),
}

impl From<AllocError> for TableFault {
    ghost use Rattle.std.specs.Prelude.{◌≡◌};
    ghost use Rattle.mx_layout.specs.declared.fault.TableFault.TheVariants.{Memory};

    ghost from_gives = { λ _ fault. fault ≡ Memory };

    fn from(_error: AllocError) -> TableFault {
        TableFault::Memory
    }
}

impl<T: Drop> From<AllocFailed<T>> for TableFault {
    ghost use Rattle.std.specs.Prelude.{◌≡◌};
    ghost use Rattle.mx_layout.specs.declared.fault.TableFault.TheVariants.{Memory};

    ghost from_gives = { λ _ fault. fault ≡ Memory };

    fn from(_error: AllocFailed<T>) -> TableFault {
        TableFault::Memory
    }
}

/// The fault that an error of `sqlite` is: want of memory, or the store's.
pub fn fault_of(error: Error) -> TableFault
    ensures stop { IsStop result }
    ensures memory { (result ≡ TableFault.Memory) ↔ (error ≡ Error.SqliteFailure
        ErrorCode.OutOfMemory) }
{
    match error {
        Error::SqliteFailure(ErrorCode::OutOfMemory) => TableFault::Memory,
        _ => TableFault::Store,
    }
}
