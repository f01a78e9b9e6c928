//! How many entries there are, and the entry of a document.
ghost use Rattle.std.specs.Prelude.{◌≡◌, ℕ, length, Some};
ghost use Rattle.std.specs.Option.{option_map};
ghost use Rattle.sqlite.specs.declared.types.Value.TheVariants.{Text};
ghost use Rattle.mx_book.specs.commands.Act.{Entry};
ghost use Rattle.mx_book.specs.Judge.{known_from};
ghost use Rattle.mx_registers.specs.Names.{seq_of_defect};
ghost use Rattle.mx_layout.specs.kept.Cells.{kept_entry};
ghost use Rattle.mx_table_rows.specs.chosen.Choices.{backward, has_value, is_any};
ghost use Rattle.mx_row_rules.specs.found.Names.{entry_number, last_number};
ghost use Rattle.mx_lookups.specs.numbers.AnyRows.{Gives, GivesFirst};
ghost use Rattle.mx_lookups.specs.numbers.Given.{DefectNumber};
ghost use Rattle.mx_lookups.specs.numbers.LookUp.{IsLookUp, LooksUp};
ghost use Rattle.mx_lookups.specs.numbers.Told.{EntryDamage, LastDamage};

use mx_base::Doc;
use mx_layout::TableFault;
use mx_row_rules::found::entries::{deferral_number, entry_number, last_number};
use mx_table_rows::chosen::entries::{entry_by_doc, last_entry};
use sqlite::{Alter, Transaction};
use std::alloc::Global;

/// How many entries there are: the number of the last one. `Damaged` with `entry` where that one can't be read.
pub fn entry_count<S: Alter>(alloc: Global, tx: &mut Transaction<'_, S>) -> Result<u32, TableFault>
    ensures looks_up { IsLookUp S.Store
        (λ book count. count ≡ length book)
        (GivesFirst kept_entry (Some 1) (backward kept_entry.order) is_any last_number)
        LastDamage
        tx.old tx.new result }
{
    let rows = last_entry(alloc, tx)?;
    Ok(last_number(&rows))
}

/// The number of the entry with this document. `Damaged` with `entry` where a row with the document can't be read.
pub fn entry_of_doc<S: Alter>(
    alloc: Global,
    tx: &mut Transaction<'_, S>,
    doc: &Doc,
) -> Result<Option<u32>, TableFault>
    ensures looks_up { IsLookUp S.Store
        (λ book number. number ≡ option_map (λ (known : ℕ × Entry). known.0) (known_from doc.now 1
        book))
        (Gives kept_entry (has_value 1 (Text doc.now)) entry_number)
        (EntryDamage doc.now)
        tx.old tx.new result }
{
    let rows = entry_by_doc(alloc, tx, doc)?;
    Ok(entry_number(&rows))
}

/// The number of the entry that deferred the defect with this document. `Damaged` with `entry` where a row with the
/// document can't be read.
pub fn defect_number<S: Alter>(
    alloc: Global,
    tx: &mut Transaction<'_, S>,
    doc: &Doc,
) -> Result<Option<u32>, TableFault>
    ensures looks_up { LooksUp S.Store
        (λ book number. number ≡ seq_of_defect book doc.now)
        (DefectNumber doc.now)
        (EntryDamage doc.now)
        tx.old tx.new result }
{
    let rows = entry_by_doc(alloc, tx, doc)?;
    Ok(deferral_number(&rows))
}
