//! Whether the rows of a file are those of a book.
ghost use Rattle.std.specs.Prelude.{◌≡◌, ◌≢◌, List, [], true, Err, IfOk, IsPermutation, MatchResult, Ok};
ghost use Rattle.std.specs.Bool.{Decides};
ghost use Rattle.mx_book.specs.commands.Act.{Entry};
ghost use Rattle.mx_book.specs.Book.{IsBook};
ghost use Rattle.mx_registers.specs.Left.{all_rows};
ghost use Rattle.mx_registers.specs.Registers.{AreRegistersOf};
ghost use Rattle.mx_registers.specs.kept.Bases.{base_rows};
ghost use Rattle.mx_registers.specs.kept.Spans.{span_rows};
ghost use Rattle.mx_registers.specs.kept.Totals.{total_rows};
ghost use Rattle.mx_verify.specs.merged.Merging.{merging};
ghost use Rattle.mx_verify.specs.verified.Verified.{AreRowsOf, HasKeptRows};

use crate::merged::{KeptBook, Merged, NoBook, merge_beside_maps, total_rows};
use crate::verified::bases::are_bases;
use crate::verified::same::are_same;
use mx_base::rows::EntryKind;
use mx_book::entry_list::NoMemory;
use mx_registers::file::FileRows;
use mx_registers::file::spans::spans_made;
use std::alloc::Global;

/// Why it was not found out whether rows are those of a book.
#[derive(Clone, Copy, Debug, PartialEq, Eq)]
pub enum Unverified {
    /// Memory ran out.
    Memory,
    /// The row of an entry of this kind is damaged, as `NoBook::Damaged` says.
    Damaged(EntryKind),
}

// Whether the spans are those of a book whose registers these are.
fn are_spans(alloc: Global, book: &KeptBook, rows: &FileRows) -> Result<bool, NoMemory>
    ensures { AreRegistersOf rows.now.registers book.now
        → IfOk result (λ same. Decides same (rows.now.spans.items ≡ span_rows book.now)) }
{
    let _ = book.plain().len();
    let registers = &rows.registers.rows;
    let made = spans_made(
        alloc,
        registers.fittings.as_slice(),
        registers.removals.as_slice(),
    )?;
    Ok(are_same(rows.spans.as_slice(), made.as_slice()))
}

// Whether the totals are those of a book.
fn are_totals(alloc: Global, book: &KeptBook, rows: &FileRows) -> Result<bool, NoMemory>
    ensures { IfOk result (λ same. Decides same (rows.now.totals.items ≡ total_rows book.now)) }
{
    let given = total_rows(alloc, book)?;
    Ok(are_same(rows.totals.as_slice(), given.as_slice()))
}

// Whether the last bases are those of a book whose registers these are.
fn are_last_bases(alloc: Global, book: &KeptBook, rows: &FileRows) -> Result<bool, NoMemory>
    ensures { AreRegistersOf rows.now.registers book.now → IfOk result
        (λ same. Decides same (IsPermutation rows.now.bases.items (base_rows book.now))) }
{
    let registers = &rows.registers.rows;
    are_bases(
        alloc,
        book,
        registers.openings.as_slice(),
        registers.release_lines.as_slice(),
        rows.bases.as_slice(),
    )
}

// Whether the kept rows are those that a book gives whose registers these are.
fn are_kept_rows(alloc: Global, merged: Merged, rows: &FileRows) -> Result<bool, NoMemory>
    requires { AreRegistersOf rows.now.registers merged }
    ensures { IfOk result (λ same. Decides same (HasKeptRows rows.now merged)) }
{
    let book = KeptBook::of(alloc, merged, &rows.registers)?;
    let spans = are_spans(alloc, &book, rows)?;
    let totals = are_totals(alloc, &book, rows)?;
    let bases = are_last_bases(alloc, &book, rows)?;
    Ok(spans && totals && bases)
}

/// Whether rows are those of a book, where those of each table are in the order of their keys, but the last bases in any
/// order, and the fittings and removals are those that the spans stand for. `Damaged` where the row of an entry can't stand
/// behind the entries before it; where rows are missing, too many, or kept rows say anything else than the book gives, the
/// answer is `false`.
pub fn verify_rows(alloc: Global, rows: &FileRows) -> Result<bool, Unverified>
    ensures exact { (book : List Entry) → IsBook book → AreRowsOf rows.now book
        → MatchResult result (λ same. same ≡ true) (λ why. why ≡ Unverified.Memory) }
    ensures sound { result ≡ Ok true → (book : List Entry) × IsBook book × AreRowsOf rows.now book }
    ensures damaged { (kind : EntryKind) → result ≡ Err (Unverified.Damaged kind)
        → merging [] rows.now.registers.entries.items (all_rows rows.now.registers)
        ≡ Err (NoBook.Damaged kind) }
    ensures undamaged { IfOk result (λ same. (kind : EntryKind)
        → merging [] rows.now.registers.entries.items (all_rows rows.now.registers)
        ≢ Err (NoBook.Damaged kind)) }
{
    let merged = match merge_beside_maps(alloc, &rows.registers) {
        Ok(merged) => merged,
        Err(_) => return Err(Unverified::Memory),
    };
    let book = match merged {
        Ok(book) => book,
        Err(NoBook::Damaged(kind)) => return Err(Unverified::Damaged(kind)),
        Err(NoBook::Differs) => return Ok(false),
    };
    let _ = book.book().plain().len();
    match are_kept_rows(alloc, book, rows) {
        Ok(same) => Ok(same),
        Err(_) => Err(Unverified::Memory),
    }
}
