//! What stops a call of the office, why no office is opened, and why a question is not answered.

use mx_book::Refusal;
use mx_layout::Table;

/// What stopped a call.
#[derive(Clone, Copy, Debug, PartialEq, Eq)]
pub enum Fault {
    /// Memory ran out. Nothing changed, and the office goes on.
    Memory,
    /// The database answered an error. The command may have been kept or not: until the file is opened again
    /// every call answers `NeedsReopen`.
    Store,
    /// An earlier call answered `Store`. Nothing was done.
    NeedsReopen,
    /// A row of the table can't be read, or the rows are those of no book. Nothing changed, and the office
    /// goes on.
    Damaged(Table),
}

/// Why no office was opened.
#[derive(Clone, Copy, Debug, PartialEq, Eq)]
pub enum OpenFault {
    /// Memory ran out.
    Memory,
    /// The database answered an error.
    Store,
    /// The database is not one of an office: its table `office` is missing or has not exactly one row.
    NotOurs,
    /// The file has a layout, this one, that is newer than the program.
    NewerLayout(u8),
    /// A row of the table can't be read, or can't be there where the file is moved; or the point is none that a file can be at.
    Damaged(Table),
    /// The file has a layout, this one, from which the program has no way to the newest. No layout is so now.
    OlderLayout(u8),
}

/// Why a question was not answered.
#[derive(Clone, Copy, Debug, PartialEq, Eq)]
pub enum Ask {
    /// The registration or the serial number is unknown.
    Refused(Refusal),
    /// The call was stopped.
    Failed(Fault),
}
