//! Which defects were rectified, of all that were deferred: asked once, where all of these are gone through.
ghost use Rattle.std.specs.Prelude.{◌≡◌, ℕ, nat_eq, IfOk};
ghost use Rattle.std.specs.HashSet.{contains};
ghost use Rattle.std.specs.List.{list_any};
ghost use Rattle.mx_layout.specs.kept.Cells.{kept_crs_line};
ghost use Rattle.mx_table_rows.specs.chosen.Choices.{is_any};
ghost use Rattle.mx_row_rules.specs.found.Defects.{is_rectified_at, rectifies};
ghost use Rattle.mx_lookups.specs.numbers.Given.{IsRectifiedAt};
ghost use Rattle.mx_lookups.specs.numbers.LookUp.{LooksUp};
ghost use Rattle.mx_lookups.specs.numbers.Told.{Unread};

use mx_base::rows::ReleaseLineRow;
use mx_layout::TableFault;
use mx_table_rows::chosen::works::all_crs_lines;
use sqlite::{Alter, Transaction};
use std::alloc::{AllocFailed, Global};
use std::collections::HashSet;

// The numbers of the defects that these lines of releases certify as rectified.
fn defects_of_lines(
    alloc: Global,
    lines: &[ReleaseLineRow],
) -> Result<HashSet<u32>, AllocFailed<u32>>
    ensures { IfOk result
        (λ defects. (n : ℕ) → contains nat_eq defects n ≡ list_any (rectifies n) lines.now) }
{
    let mut defects = HashSet::new(alloc);
    let mut rest = lines;
    while let Some((line, later)) = rest.split_first() {
        if let Some(defect) = line.defect {
            defects.insert(defect)?;
        }
        rest = later;
    }
    Ok(defects)
}

/// The numbers of all defects that were rectified. `Damaged` with `crs_line` where a line of a release can't be read.
pub(crate) fn rectified_defects<S: Alter>(
    alloc: Global,
    tx: &mut Transaction<'_, S>,
) -> Result<HashSet<u32>, TableFault>
    ensures looks_up { LooksUp S.Store
        (λ book defects. (n : ℕ) → contains nat_eq defects n ≡ is_rectified_at book n)
        (λ trees defects. (n : ℕ) → IsRectifiedAt n trees (contains nat_eq defects n))
        (Unread kept_crs_line is_any)
        tx.old tx.new result }
{
    let lines = all_crs_lines(alloc, tx)?;
    Ok(defects_of_lines(alloc, &lines)?)
}
