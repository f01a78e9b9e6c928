//! The step that is due for the next item, by what layout 2 keeps of all of them.
//!
//! To look through 5,000 totals for each of 5,000 items is little beside a commit, so they lie in two lists and in no
//! map.
ghost use Rattle.std.specs.Prelude.{◌≡◌, IfOk};
ghost use Rattle.mx_migrate.specs.settle.Items.{next_total, of_item, total_by, IsBasesBy};

use crate::settle::due::Due;
use crate::{CreateBases, Finish, WriteBases, WriteTotal};
use mx_base::rows::{BaseRow, TotalRow};
use mx_registers::points::LAST_MARK;
use mx_verify::derived::KeptRows;
use std::alloc::{AllocError, Global};

// The total of the next item behind a mark, if there is one: no item has a number that no entry can have.
fn next_total(totals: &[TotalRow], mark: u32) -> Option<TotalRow>
    ensures { result ≡ next_total mark totals.now }
{
    totals
        .iter()
        .copied()
        .find(|row| mark < row.item && row.item <= LAST_MARK)
}

// The last bases of the item with this number.
fn bases_of(alloc: Global, bases: &[BaseRow], item: u32) -> Result<Vec<BaseRow>, AllocError>
    ensures { IfOk result (λ rows. rows.items ≡ of_item item bases.now) }
{
    bases
        .iter()
        .copied()
        .filter(|row| row.item == item)
        .collect(alloc)
}

/// The step of a file whose totals are written up to a mark.
pub(crate) fn total_by(kept: &KeptRows, mark: u32) -> Due
    ensures { result ≡ total_by mark (next_total mark kept.now.totals.items) }
{
    match next_total(kept.totals.as_slice(), mark) {
        Some(row) => Due::Total(WriteTotal { mark, row }),
        None => Due::BaseTable(CreateBases { mark }),
    }
}

/// The step of a file whose last bases are written up to the item with the mark as its number.
pub(crate) fn bases_by(alloc: Global, kept: &KeptRows, mark: u32) -> Result<Due, AllocError>
    ensures { IfOk result
        (IsBasesBy mark kept.now.bases.items (next_total mark kept.now.totals.items)) }
{
    match next_total(kept.totals.as_slice(), mark) {
        Some(row) => {
            let item = row.item;
            let rows = bases_of(alloc, kept.bases.as_slice(), item)?;
            Ok(Due::Bases(WriteBases { mark, item, rows }))
        }
        None => Ok(Due::End(Finish { mark })),
    }
}
