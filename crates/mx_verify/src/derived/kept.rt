//! What layouts 2 and 3 keep of the items and the deferrals of a book, made of the registers of a file.
ghost use Rattle.std.specs.Prelude.{◌≡◌, List, [], Err, IfOk, MatchResult, Ok};
ghost use Rattle.mx_book.specs.commands.Act.{Entry};
ghost use Rattle.mx_book.specs.Book.{IsBook};
ghost use Rattle.mx_registers.specs.Left.{all_rows};
ghost use Rattle.mx_registers.specs.Registers.{AreRegistersOf};
ghost use Rattle.mx_verify.specs.derived.Kept.{AreKeptOf};
ghost use Rattle.mx_registers.specs.file.Tables.{AreRegistersIn};
ghost use Rattle.mx_verify.specs.merged.Merging.{merging};
ghost use Rattle.mx_registers.specs.file.Tables.{AreFilePut};

use crate::derived::last_bases::last_bases;
use crate::merged::{KeptBook, Merged, NoBook, merge_beside_maps, total_rows};
use mx_base::rows::{BaseRow, Deferral3Row, DoneRow, EntryKind, TotalRow};
use mx_book::entry_list::NoMemory;
use mx_registers::file::{FileRows, put_in_order};
use mx_registers::merge::Registers;
use std::alloc::Global;

/// What layouts 2 and 3 keep of the items and the deferrals of a book beside its registers.
#[derive(Drop)]
pub struct KeptRows {
    /// The totals of its items, in the order of the entries that added them.
    pub totals: Vec<TotalRow>,
    /// Their last bases, in any order: of layout 2.
    pub bases: Vec<BaseRow>,
    /// Its deferrals with the cycles at which they were found, in the order of their entries: of layout 3.
    pub found: Vec<Deferral3Row>,
    /// The accomplishments of its items, in any order: of layout 3.
    pub done: Vec<DoneRow>,
}

/// Why there are no kept rows.
#[derive(Clone, Copy, Debug, PartialEq, Eq)]
pub enum Unkept {
    /// Memory ran out.
    Memory,
    /// The row of an entry of this kind is damaged, as `NoBook::Damaged` says.
    Damaged(EntryKind),
    /// The registers are those of no book, as `NoBook::Differs` says.
    Differs,
}

// What is kept of a book whose registers these are.
fn kept_of(alloc: Global, merged: Merged, registers: &Registers) -> Result<KeptRows, NoMemory>
    requires { AreRegistersOf registers.now merged }
    ensures { IfOk result (λ kept. AreKeptOf kept merged) }
{
    let book = KeptBook::of(alloc, merged, registers)?;
    let totals = total_rows(alloc, &book)?;
    let bases = last_bases(
        alloc,
        &book,
        registers.rows.openings.as_slice(),
        registers.rows.release_lines.as_slice(),
    )?;
    let found = book.found(alloc, registers.rows.deferrals.as_slice())?;
    Ok(KeptRows {
        totals,
        bases,
        found,
        done: book.into_done(),
    })
}

// What is kept of the book that registers give, where the rows of each are in the order of their keys.
fn kept_in_order(alloc: Global, registers: &Registers) -> Result<KeptRows, Unkept>
    ensures whole { (book : List Entry) → IsBook book → AreRegistersOf registers.now book
        → MatchResult result (λ kept. AreKeptOf kept book) (λ why. why ≡ Unkept.Memory) }
    ensures any { IfOk result (λ kept. (book : List Entry) × IsBook book
        × (merging [] registers.now.entries.items (all_rows registers.now) ≡ Ok book)
        × AreKeptOf kept book) }
    ensures damaged { (kind : EntryKind) → result ≡ Err (Unkept.Damaged kind)
        → merging [] registers.now.entries.items (all_rows registers.now)
        ≡ Err (NoBook.Damaged kind) }
    ensures differs { result ≡ Err Unkept.Differs
        → merging [] registers.now.entries.items (all_rows registers.now) ≡ Err NoBook.Differs }
{
    let merged = match merge_beside_maps(alloc, registers) {
        Ok(merged) => merged,
        Err(_) => return Err(Unkept::Memory),
    };
    let book = match merged {
        Ok(book) => book,
        Err(NoBook::Damaged(kind)) => return Err(Unkept::Damaged(kind)),
        Err(NoBook::Differs) => return Err(Unkept::Differs),
    };
    let _ = book.book().plain().len();
    match kept_of(alloc, book, registers) {
        Ok(kept) => Ok(kept),
        Err(_) => Err(Unkept::Memory),
    }
}

/// What layouts 2 and 3 keep of the book whose registers these are, the rows of each in any order; which fittings and removals
/// they have is not looked at, since the spans stand for these, nor which totals and bases. `Damaged` where the row of an
/// entry can't stand behind the entries before it, `Differs` where rows are missing or too many. Of registers that give a
/// book whose spans are others, the rows are those of that book.
pub fn kept_rows(alloc: Global, rows: FileRows) -> Result<KeptRows, Unkept>
    ensures whole { (book : List Entry) → IsBook book → AreRegistersIn rows book
        → MatchResult result (λ kept. AreKeptOf kept book) (λ why. why ≡ Unkept.Memory) }
    ensures any { IfOk result (λ kept. (book : List Entry) × IsBook book × AreKeptOf kept book) }
    ensures merged { IfOk result (λ kept. (put : FileRows) × (book : List Entry)
        × AreFilePut rows put
        × (merging [] put.registers.entries.items (all_rows put.registers) ≡ Ok book)
        × AreKeptOf kept book) }
    ensures damaged { (kind : EntryKind) → result ≡ Err (Unkept.Damaged kind)
        → (put : FileRows) × AreFilePut rows put
        × (merging [] put.registers.entries.items (all_rows put.registers)
        ≡ Err (NoBook.Damaged kind)) }
    ensures differs { result ≡ Err Unkept.Differs → (put : FileRows) × AreFilePut rows put
        × (merging [] put.registers.entries.items (all_rows put.registers) ≡ Err NoBook.Differs) }
{
    let mut put = rows;
    match put_in_order(alloc, &mut put) {
        Ok(()) => kept_in_order(alloc, &put.registers),
        Err(_) => Err(Unkept::Memory),
    }
}
