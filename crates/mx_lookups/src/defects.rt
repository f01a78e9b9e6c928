//! Defects by the documents that deferred them, their extensions, and whether they were rectified.
ghost use Rattle.std.specs.Prelude.{◌≡◌};
ghost use Rattle.mx_book.specs.Defect.{defect, extension, is_rectified};
ghost use Rattle.mx_lookups.specs.numbers.Given.{DefectOf, IsRectified, ExtensionOf};
ghost use Rattle.mx_lookups.specs.numbers.LookUp.{IsLookUp};
ghost use Rattle.mx_lookups.specs.numbers.Told.{DefectDamage, ExtensionDamage, RectifiedDamage};

use crate::numbers::entries::defect_number;
use mx_base::Doc;
use mx_book::Defect;
use mx_book::commands::Extension;
use mx_layout::{Table, TableFault};
use mx_row_rules::found::defects::{defect_in, deferral_aircraft, extension_in, is_rectified_in};
use mx_table_rows::chosen::defects::{defect_by_seq, extension_by_defect};
use mx_table_rows::chosen::items::aircraft_by_seq;
use mx_table_rows::chosen::works::crs_line_by_defect;
use sqlite::{Alter, Transaction};
use std::alloc::Global;

/// The defect that was deferred by a document. `Damaged` with `defect` where the entry of the document defers one that is
/// not there, or its aircraft is not.
pub fn defect<S: Alter>(
    alloc: Global,
    tx: &mut Transaction<'_, S>,
    doc: &Doc,
) -> Result<Option<Defect>, TableFault>
    ensures looks_up { IsLookUp S.Store
        (λ book found. found ≡ defect book doc.now)
        (DefectOf doc.now)
        (DefectDamage doc.now)
        tx.old tx.new result }
{
    let found = defect_number(alloc, tx, doc)?;
    match found {
        Some(number) => {
            let rows = defect_by_seq(alloc, tx, number)?;
            match deferral_aircraft(&rows) {
                Some(aircraft) => {
                    let named = aircraft_by_seq(alloc, tx, aircraft)?;
                    match defect_in(doc, &rows, &named) {
                        Some(defect) => Ok(Some(defect)),
                        None => Err(TableFault::Damaged(Table::Defect)),
                    }
                }
                None => Err(TableFault::Damaged(Table::Defect)),
            }
        }
        None => Ok(None),
    }
}

/// Whether a defect was rectified.
pub fn is_rectified<S: Alter>(
    alloc: Global,
    tx: &mut Transaction<'_, S>,
    doc: &Doc,
) -> Result<bool, TableFault>
    ensures looks_up { IsLookUp S.Store
        (λ book rectified. rectified ≡ is_rectified book doc.now)
        (IsRectified doc.now)
        (RectifiedDamage doc.now)
        tx.old tx.new result }
{
    let found = defect_number(alloc, tx, doc)?;
    match found {
        Some(number) => {
            let rows = crs_line_by_defect(alloc, tx, number)?;
            Ok(is_rectified_in(&rows))
        }
        None => Ok(false),
    }
}

/// The extension of a defect's interval.
pub fn extension<S: Alter>(
    alloc: Global,
    tx: &mut Transaction<'_, S>,
    doc: &Doc,
) -> Result<Option<Extension>, TableFault>
    ensures looks_up { IsLookUp S.Store
        (λ book found. found ≡ extension book doc.now)
        (ExtensionOf doc.now)
        (ExtensionDamage doc.now)
        tx.old tx.new result }
{
    let found = defect_number(alloc, tx, doc)?;
    match found {
        Some(number) => {
            let rows = extension_by_defect(alloc, tx, number)?;
            Ok(extension_in(doc, &rows))
        }
        None => Ok(None),
    }
}
