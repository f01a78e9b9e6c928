//! The rows of a command that adds nothing beside its entry and changes nothing.
ghost use Rattle.std.specs.Prelude.{◌≡◌};
ghost use Rattle.mx_base.specs.rows.Rows.{FitsEntry};
ghost use Rattle.mx_row_rules.specs.changes.Rows.{AreNone, AreUnchanged};

use crate::changes::rows::{AddedRows, ChangedRows, CommandRows};
use mx_base::rows::EntryRow;
use std::alloc::Global;

// No row beside the entry.
fn none_added(alloc: Global) -> AddedRows
    ensures { AreNone result }
{
    AddedRows {
        aircraft: Vec::new(alloc),
        places: Vec::new(alloc),
        components: Vec::new(alloc),
        programmes: Vec::new(alloc),
        tasks: Vec::new(alloc),
        openings: Vec::new(alloc),
        releases: Vec::new(alloc),
        release_lines: Vec::new(alloc),
        deferrals: Vec::new(alloc),
        extensions: Vec::new(alloc),
        sectors: Vec::new(alloc),
        spans: Vec::new(alloc),
        totals: Vec::new(alloc),
    }
}

// No kept row that changes.
fn none_changed(alloc: Global) -> ChangedRows
    ensures { AreUnchanged result }
{
    ChangedRows {
        spans: Vec::new(alloc),
        totals: Vec::new(alloc),
        bases: Vec::new(alloc),
    }
}

// The row of an entry, and no other.
pub(crate) fn entry_alone(alloc: Global, entry: EntryRow) -> CommandRows
    requires { FitsEntry entry }
    ensures entry { result.entry ≡ entry }
    ensures fits { FitsEntry result.entry }
    ensures added { AreNone result.added }
    ensures changed { AreUnchanged result.changed }
{
    CommandRows {
        entry,
        changed: none_changed(alloc),
        added: none_added(alloc),
    }
}
