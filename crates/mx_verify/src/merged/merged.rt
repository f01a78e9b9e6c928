//! The book that registers are those of, beside maps, or why they are those of none.
//!
//! A line of a release that names an entry which is not there is not taken, so that the release says less than its
//! lines: where nothing is left to certify the release is damaged, and else the line is left over, which is a
//! difference. Rows are compared with the book that they give: a moment of a fitting that nothing else rests on may be
//! another, and the rows are those of the book that says so.
ghost use Rattle.std.specs.Prelude.{◌≡◌, List, [], IfOk, Ok};
ghost use Rattle.mx_book.specs.commands.Act.{Entry};
ghost use Rattle.mx_book.specs.Book.{IsBook};
ghost use Rattle.mx_registers.specs.Registers.{AreRegistersOf};
ghost use Rattle.mx_registers.specs.Left.{all_rows, rest_of};
ghost use Rattle.std.specs.List.{AllByRecursion};
ghost use Rattle.mx_indexed_book.specs.declared.moments.done.Accomplished.{Accomplished};
ghost use Rattle.mx_indexed_book.specs.moments.Done.{IsSayable, accomplished};
ghost use Rattle.mx_verify.specs.merged.Merging.{has_row, merging, without_command};

use mx_base::rows::{EntryKind, EntryRow};
use mx_book::Verdict;
use mx_book::entry_list::NoMemory;
use mx_indexed_book::IndexedBook;
use mx_indexed_book::indexed::judge;
use mx_indexed_book::moments::done::Accomplished;
use mx_indexed_book::moments::said::add_accomplished;
use mx_registers::merge::{Left, Registers};
use mx_registers::plain::merge::{are_all_taken, next_command, rows_of};
use std::alloc::Global;
use std::marker::Model;

/// Why rows are those of no book.
#[derive(Clone, Copy, Debug, PartialEq, Eq)]
pub enum NoBook {
    /// The row of an entry of this kind is damaged: it names an entry that is not there, it says no command of its shape,
    /// or the entries before it refuse what it says.
    Damaged(EntryKind),
    /// Each row can stand behind those before it, but they are not the rows of a book: an entry lacks its row, a row its
    /// entry, or the entries are not numbered from 1.
    Differs,
}

/// The book that registers give, beside its maps, and what its entries accomplish. Contracts see the list of the entries.
#[derive(Drop)]
pub struct Merged {
    book: IndexedBook,
    said: Vec<Accomplished>,
}

impl Model for Merged {
    ghost use Rattle.std.specs.Prelude.{List};
    ghost use Rattle.mx_book.specs.commands.Act.{Entry};
    ghost use Rattle.mx_verify.specs.merged.KeptBook.{IsSaid};

    ghost Value = { List Entry };

    ghost view = { λ a. a.book };

    ghost invariant = { λ a. IsSaid a.book a.said.items };
}

impl Merged {
    /// The book beside its maps.
    pub fn book(&self) -> &IndexedBook
        ensures { result.now ≡ self.now }
    {
        &self.book
    }

    /// The book beside its maps, alone.
    pub fn into_book(self) -> IndexedBook
        ensures { result ≡ self }
    {
        let Merged { book, said: _ } = self;
        book
    }

    /// What its entries accomplish.
    pub fn said(&self) -> &[Accomplished]
        ensures all { result.now ≡ accomplished self.now }
        ensures sayable { AllByRecursion (λ (a : Accomplished). IsSayable a.said) result.now }
    {
        self.said.as_slice()
    }
}

// Whether the first row of its kind is of the entry.
fn has_row(entry: &EntryRow, rows: Left<'_>) -> bool
    ensures { result ≡ has_row entry.now (rest_of rows.entry) }
{
    let seq = match entry.kind {
        EntryKind::AddAircraft => rows.aircraft.first().map(|row| row.seq),
        EntryKind::AddComponent => rows.components.first().map(|row| row.seq),
        EntryKind::LoadProgramme => rows.programmes.first().map(|row| row.seq),
        EntryKind::Opening => rows.openings.first().map(|row| row.seq),
        EntryKind::Sector => rows.sectors.first().map(|row| row.seq),
        EntryKind::Fit => rows.fittings.first().map(|row| row.seq),
        EntryKind::Remove => rows.removals.first().map(|row| row.seq),
        EntryKind::Release => rows.releases.first().map(|row| row.seq),
        EntryKind::Defer => rows.deferrals.first().map(|row| row.seq),
        EntryKind::Extend => rows.extensions.first().map(|row| row.seq),
    };
    seq == Some(entry.seq)
}

// Why an entry whose rows say no command belongs to no book.
fn without_command(entry: &EntryRow, rows: Left<'_>) -> NoBook
    ensures { result ≡ without_command entry.now (rest_of rows.entry) }
{
    if has_row(entry, rows) {
        NoBook::Damaged(entry.kind)
    } else {
        NoBook::Differs
    }
}

// The book that the rows are those of, or why they are those of none.
fn merged_book(
    alloc: Global,
    entries: &[EntryRow],
    all: Left<'_>,
) -> Result<Result<Merged, NoBook>, NoMemory>
    ensures { IfOk result (λ given. given ≡ merging [] entries.now (rest_of all.entry)) }
{
    let mut book = IndexedBook::new(alloc);
    let mut said = Vec::new(alloc);
    let mut coming = entries;
    let mut rows = all;
    while let Some((entry, later)) = coming.split_first() {
        if entry.seq != book.plain().len() + 1 {
            return Ok(Err(NoBook::Differs));
        }
        let Some((command, rest)) = next_command(alloc, book.plain(), entry, rows)? else {
            return Ok(Err(without_command(entry, rows)));
        };
        if judge(&book, &command) != Verdict::New {
            return Ok(Err(NoBook::Damaged(entry.kind)));
        }
        add_accomplished(&book, &command, &mut said)?;
        match book.enter(command) {
            Ok(_) => {}
            Err((_, no_memory)) => return Err(no_memory),
        }
        rows = rest;
        coming = later;
    }
    if are_all_taken(rows) {
        Ok(Ok(Merged { book, said }))
    } else {
        Ok(Err(NoBook::Differs))
    }
}

/// The book that the registers are those of, beside its maps, or why they are those of no book. `NoMemory` where memory
/// runs out.
pub fn merge_beside_maps(
    alloc: Global,
    registers: &Registers,
) -> Result<Result<Merged, NoBook>, NoMemory>
    ensures given { IfOk result (λ given.
        given ≡ merging [] registers.now.entries.items (all_rows registers.now)) }
    ensures exact { (book : List Entry) → IsBook book → AreRegistersOf registers.now book
        → IfOk result (λ given. given ≡ Ok book) }
    ensures sound { IfOk result (λ given. IfOk given
        (λ book. AreRegistersOf registers.now book)) }
{
    merged_book(alloc, registers.entries.as_slice(), rows_of(registers))
}
