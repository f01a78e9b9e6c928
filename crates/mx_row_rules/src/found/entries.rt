//! Entries that were found: how many there are, and the number of the one that has a document.
ghost use Rattle.std.specs.Prelude.{◌≡◌, ℕ, List, filter, length, map, nat_eq};
ghost use Rattle.std.specs.List.{range_with_len};
ghost use Rattle.std.specs.Option.{option_map};
ghost use Rattle.mx_book.specs.commands.Act.{Entry};
ghost use Rattle.mx_book.specs.Judge.{known_from};
ghost use Rattle.mx_registers.specs.Names.{seq_of_defect};
ghost use Rattle.mx_registers.specs.Registers.{entry_rows};
ghost use Rattle.mx_base.specs.declared.rows.rows.EntryRow.{EntryRow};
ghost use Rattle.mx_row_rules.specs.found.Names.{deferral_number, deferred_doc, doc_at, doc_in, entries_with, entry_number, is_deferral, last_number};

use mx_base::Doc;
use mx_base::rows::{EntryKind, EntryRow};

/// The number of the first of these entries, or 0 where there is none. Of the last entry alone it is how many there are.
pub fn last_number(rows: &[EntryRow]) -> u32
    ensures { result ≡ last_number rows.now }
{
    match rows.first() {
        Some(row) => row.seq,
        None => 0,
    }
}

/// The number of the first of these entries.
pub fn entry_number(rows: &[EntryRow]) -> Option<u32>
    ensures { result ≡ entry_number rows.now }
{
    rows.first().map(|row| row.seq)
}

/// The document of the first of these entries.
pub fn doc_in(rows: &[EntryRow]) -> Option<Doc>
    ensures { result ≡ doc_in rows.now }
{
    rows.first().map(|row| row.doc)
}

// Whether entries of a kind defer defects.
fn is_deferral(kind: EntryKind) -> bool
    ensures { result ≡ is_deferral kind }
{
    matches!(kind, EntryKind::Defer)
}

/// The number of the first of these entries that defers a defect.
pub fn deferral_number(rows: &[EntryRow]) -> Option<u32>
    ensures { result ≡ deferral_number rows.now }
{
    rows.iter()
        .find(|row| is_deferral(row.kind))
        .map(|row| row.seq)
}

/// The document of the first of these entries that defers a defect.
pub fn deferred_doc(rows: &[EntryRow]) -> Option<Doc>
    ensures { result ≡ deferred_doc rows.now }
{
    rows.iter()
        .find(|row| is_deferral(row.kind))
        .map(|row| row.doc)
}

/// The entries of a book are numbered from 1, and there are as many as it has.
pub fn entries_are_numbered()
    ensures numbers { (book : List Entry)
        → map (λ (row : EntryRow). row.seq) (entry_rows book) ≡ range_with_len 1 (length book) }
    ensures count { (book : List Entry) → length (entry_rows book) ≡ length book }
{}

/// The rows of entries with a document have the number of the entry that is known by it, and that of the defect that it
/// deferred.
pub fn entries_are_found_by_document()
    ensures known { (book : List Entry) (doc : List ℕ)
        → entry_number (entries_with doc book)
        ≡ option_map (λ (known : ℕ × Entry). known.0) (known_from doc 1 book) }
    ensures defect { (book : List Entry) (doc : List ℕ)
        → deferral_number (entries_with doc book) ≡ seq_of_defect book doc }
{}

/// The row of an entry with a number has the document of that entry.
pub fn documents_are_found()
    ensures { (book : List Entry) (n : ℕ)
        → doc_in (filter (λ (row : EntryRow). nat_eq row.seq n) (entry_rows book))
        ≡ doc_at book n }
{}
