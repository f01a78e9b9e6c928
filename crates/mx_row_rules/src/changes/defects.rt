//! The rows of a deferral and of an extension.
ghost use Rattle.std.specs.Prelude.{◌≡◌, ℕ, List, IfOk};
ghost use Rattle.mx_book.specs.commands.Act.{Deferred, Entry, Extended};
ghost use Rattle.mx_base.specs.rows.Rows.{FitsEntry};
ghost use Rattle.mx_registers.specs.Names.{or_zero, seq_of_defect};
ghost use Rattle.mx_registers.specs.kept.Changes.{entry_of};
ghost use Rattle.mx_registers.specs.kept.Items.{number_of_tail};
ghost use Rattle.mx_row_rules.specs.changes.Made.{AreMadeOf, nothing_found};
ghost use Rattle.mx_row_rules.specs.changes.Rows.{AreCommandRows, IsEntryOf, totals_before};

use crate::changes::plain::entry_alone;
use crate::changes::rows::CommandRows;
use crate::changes::totals::clocked_totals;
use mx_base::Category;
use mx_base::rows::{EntryRow, TotalRow};
use mx_book::commands::{Deferral, Extension};
use mx_registers::{deferral_row, extension_row};
use std::alloc::{AllocError, Global};

/// The rows of a deferral, by the number of its aircraft, and by the totals that it touches, as they are: that of its aircraft.
pub fn deferral_rows(
    alloc: Global,
    entry: EntryRow,
    deferral: Deferral,
    aircraft: u32,
    totals: &[TotalRow],
) -> Result<CommandRows, AllocError>
    requires fits { FitsEntry entry }
    ensures of_book { IfOk result (λ rows. (book : List Entry) (doc : List ℕ)
        → IsEntryOf book (entry_of doc (Deferred deferral)) entry
        → aircraft ≡ number_of_tail book deferral.tail
        → totals.now ≡ totals_before book (Deferred deferral)
        → AreCommandRows book (entry_of doc (Deferred deferral)) rows) }
    ensures made { IfOk result (λ rows. AreMadeOf (Deferred deferral) entry
        (record nothing_found { number = aircraft; totals = totals.now }) rows) }
{
    // The checker proves this function only where the type of each field of a row is named in it.
    let _: Option<Category> = None;
    let behind = clocked_totals(alloc, totals, deferral.moment)?;
    let row = deferral_row(entry.seq, aircraft, deferral);
    let mut rows = entry_alone(alloc, entry);
    rows.changed.totals = behind;
    rows.added.deferrals.push(row)?;
    Ok(rows)
}

/// The rows of an extension, by the number of its defect.
pub fn extension_rows(
    alloc: Global,
    entry: EntryRow,
    extension: Extension,
    defect: u32,
) -> Result<CommandRows, AllocError>
    requires fits { FitsEntry entry }
    ensures of_book { IfOk result (λ rows. (book : List Entry) (doc : List ℕ)
        → IsEntryOf book (entry_of doc (Extended extension)) entry
        → defect ≡ or_zero (seq_of_defect book extension.defect)
        → AreCommandRows book (entry_of doc (Extended extension)) rows) }
    ensures made { IfOk result (λ rows. AreMadeOf (Extended extension) entry
        (record nothing_found { number = defect }) rows) }
{
    let row = extension_row(entry.seq, defect, extension);
    let mut rows = entry_alone(alloc, entry);
    rows.added.extensions.push(row)?;
    Ok(rows)
}
