//! Whether the rows of the tables of a file, each table's in any order, are those of a book.
ghost use Rattle.std.specs.Prelude.{◌≡◌, ◌≢◌, List, [], true, Err, IfOk, MatchResult, Ok};
ghost use Rattle.mx_book.specs.commands.Act.{Entry};
ghost use Rattle.mx_book.specs.Book.{IsBook};
ghost use Rattle.mx_registers.specs.Left.{all_rows};
ghost use Rattle.mx_verify.specs.merged.Merging.{merging};
ghost use Rattle.mx_registers.specs.file.Tables.{AreFilePut, AreTablesOf};

use crate::merged::NoBook;
use crate::verified::verified::{Unverified, verify_rows};
use mx_base::rows::EntryKind;
use mx_registers::file::{FileRows, put_in_order};
use std::alloc::Global;

/// Whether the rows of the tables of a file, each table's in any order, are those of a book; which fittings and removals
/// they have is not looked at, since the spans stand for these. `Damaged` where the row of an entry can't stand behind the
/// entries before it; where rows are missing, too many, or kept rows say anything else than the book gives, the answer is
/// `false`.
pub fn verify_tables(alloc: Global, rows: FileRows) -> Result<bool, Unverified>
    ensures exact { (book : List Entry) → IsBook book → AreTablesOf rows book
        → MatchResult result (λ same. same ≡ true) (λ why. why ≡ Unverified.Memory) }
    ensures sound { result ≡ Ok true
        → (book : List Entry) × IsBook book × AreTablesOf rows book }
    ensures damaged { (kind : EntryKind) → result ≡ Err (Unverified.Damaged kind)
        → (put : FileRows) × AreFilePut rows put
        × (merging [] put.registers.entries.items (all_rows put.registers)
        ≡ Err (NoBook.Damaged kind)) }
    ensures undamaged { IfOk result (λ same. (put : FileRows) × AreFilePut rows put
        × ((kind : EntryKind)
        → merging [] put.registers.entries.items (all_rows put.registers)
        ≢ Err (NoBook.Damaged kind))) }
{
    let mut put = rows;
    match put_in_order(alloc, &mut put) {
        Ok(()) => verify_rows(alloc, &put),
        Err(_) => Err(Unverified::Memory),
    }
}
