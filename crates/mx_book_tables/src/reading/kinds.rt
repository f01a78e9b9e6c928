//! The table of the rows of an entry, by its kind.
//!
//! A removal and a fitting are rows of the spans, and told of these; a line of a release is told as its release, a task
//! as its programme, a position as its aircraft, unless the row itself can't be read.
ghost use Rattle.std.specs.Prelude.{◌≡◌};
ghost use Rattle.mx_book_tables.specs.reading.Damage.{table_of};

use mx_base::rows::EntryKind;
use mx_layout::Table;

/// The table of the rows that entries of a kind have.
pub fn table_of(kind: EntryKind) -> Table
    ensures { result ≡ table_of kind }
{
    match kind {
        EntryKind::AddAircraft => Table::Aircraft,
        EntryKind::AddComponent => Table::Component,
        EntryKind::LoadProgramme => Table::Programme,
        EntryKind::Opening => Table::Opening,
        EntryKind::Sector => Table::Sector2,
        EntryKind::Fit | EntryKind::Remove => Table::Span2,
        EntryKind::Release => Table::Crs,
        EntryKind::Defer => Table::Defect,
        EntryKind::Extend => Table::Extension,
    }
}
