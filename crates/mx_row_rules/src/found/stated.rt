//! What the rows of an entry that were found state.
ghost use Rattle.std.specs.Prelude.{◌≡◌, ℕ, List, IfOk, Some, map, slice_get};
ghost use Rattle.std.specs.List.{filter_map};
ghost use Rattle.mx_book.specs.commands.Act.{Entry};
ghost use Rattle.mx_book.specs.Book.{IsBook, entry_at};
ghost use Rattle.mx_registers.specs.kept.Spans.{fitting_in, removal_in};
ghost use Rattle.mx_registers.specs.Registers.{kind_of};
ghost use Rattle.mx_row_rules.specs.found.Stated.{certified_in, position_said, stated};

pub use crate::found::programmes::tasks_said;
use mx_base::rows::{FittingRow, PlaceRow, ReleaseLineRow, RemovalRow, SpanRow};
use mx_base::{Part, Position, TaskId};
use mx_registers::file::spans::{fitting_in, removal_in};
use std::alloc::{AllocError, Global};

/// What a line of a release certifies, by number.
#[derive(Clone, Copy, Debug, PartialEq, Eq)]
pub enum Certified {
    /// A task was done on the item that the entry with this number added.
    Done(u32, TaskId),
    /// The defect that the entry with this number deferred was rectified.
    Rectified(u32),
}

/// What the row of a line of a release certifies: an item and a task without a defect, or a defect alone.
pub fn certified_in(row: &ReleaseLineRow) -> Option<Certified>
    ensures { result ≡ certified_in row.now }
{
    match (row.item, row.task, row.defect) {
        (Some(item), Some(task), None) => Some(Certified::Done(item, task)),
        (None, None, Some(defect)) => Some(Certified::Rectified(defect)),
        _ => None,
    }
}

/// The positions that their rows say.
pub fn positions_said(alloc: Global, rows: &[PlaceRow]) -> Result<Vec<(Position, Part)>, AllocError>
    ensures { IfOk result (λ positions. positions.items ≡ map position_said rows.now) }
{
    rows.iter()
        .map(|row| (row.position, row.part))
        .collect(alloc)
}

/// The fitting that begins the first of these spans.
pub fn first_fitting(spans: &[SpanRow]) -> Option<FittingRow>
    ensures { result ≡ slice_get (map fitting_in spans.now) 0 }
{
    spans.first().map(|span| fitting_in(span))
}

/// The removal that ends the first of these spans that one ends.
pub fn first_removal(spans: &[SpanRow]) -> Option<RemovalRow>
    ensures { result ≡ slice_get (filter_map removal_in spans.now) 0 }
{
    for span in spans {
        if let Some(removal) = removal_in(span) {
            return Some(removal);
        }
    }
    None
}

/// The rows with the number of an entry of a book state what it says: those of its kind, by the names that the book gives
/// to the numbers in them.
pub fn entries_are_stated_by_rows()
    ensures { (book : List Entry) (n : ℕ) (e : Entry) → IsBook book → entry_at book n ≡ Some e
        → stated book n (kind_of e.act) ≡ Some e.act }
{}
