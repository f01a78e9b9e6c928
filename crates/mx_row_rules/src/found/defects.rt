//! Defects that were found, their extensions, and whether they were rectified.
ghost use Rattle.std.specs.Prelude.{◌≡◌, ℕ, List, [], false, filter, is_some, nat_eq, not, true, None, Some, IsSomeAnd};
ghost use Rattle.std.specs.List.{filter_map, AllByRecursion};
ghost use Rattle.mx_book.specs.commands.Act.{Entry};
ghost use Rattle.mx_book.specs.Book.{IsBook};
ghost use Rattle.mx_book.specs.Defect.{defect, defects, extension, is_rectified, open_defects};
ghost use Rattle.mx_registers.specs.Names.{seq_of_defect, seq_of_tail};
ghost use Rattle.mx_registers.specs.Registers.{aircraft_rows, deferral_rows, extension_rows, release_line_rows};
ghost use Rattle.mx_base.specs.declared.rows.rows.AircraftRow.{AircraftRow};
ghost use Rattle.mx_base.specs.declared.rows.rows.DeferralRow.{DeferralRow};
ghost use Rattle.mx_base.specs.declared.rows.rows.ExtensionRow.{ExtensionRow};
ghost use Rattle.mx_row_rules.specs.found.Defects.{deferral_aircraft, deferred_said, defect_in, defect_said, extension_in, is_rectified_in, left_said, open_said, rectifies};
ghost use Rattle.mx_row_rules.specs.found.Names.{doc_at};

use crate::found::aircraft::tail_in;
use mx_base::rows::{AircraftRow, DeferralRow, ExtensionRow, ReleaseLineRow};
use mx_base::{Doc, Tail};
use mx_book::Defect;
use mx_book::commands::{Deferral, Extension};

/// The number of the aircraft of the first of these deferrals.
pub fn deferral_aircraft(rows: &[DeferralRow]) -> Option<u32>
    ensures { result ≡ deferral_aircraft rows.now }
{
    rows.first().map(|row| row.aircraft)
}

/// The defect that the row of its deferral says, where this is its document and the registration of its aircraft.
pub fn defect_said(doc: &Doc, tail: &Tail, row: &DeferralRow) -> Defect
    ensures { result ≡ defect_said doc.now tail.now row.now }
{
    Defect {
        doc: *doc,
        deferral: Deferral {
            tail: *tail,
            moment: row.moment,
            reference: row.reference,
            category: row.category,
        },
    }
}

/// The defect with a document that the first of these deferrals says, of the first of these aircraft; `None` without one
/// or the other.
pub fn defect_in(doc: &Doc, rows: &[DeferralRow], aircraft: &[AircraftRow]) -> Option<Defect>
    ensures { result ≡ defect_in doc.now rows.now aircraft.now }
{
    match rows.first() {
        Some(row) => match tail_in(aircraft) {
            Some(tail) => Some(defect_said(doc, &tail, row)),
            None => None,
        },
        None => None,
    }
}

/// The extension of the defect with a document that the first of these rows says.
pub fn extension_in(doc: &Doc, rows: &[ExtensionRow]) -> Option<Extension>
    ensures { result ≡ extension_in doc.now rows.now }
{
    rows.first().map(|row| Extension {
        defect: *doc,
        day: row.day,
        days: row.days,
    })
}

/// Whether there is a line, of those that certify that one defect was rectified.
pub fn is_rectified_in(rows: &[ReleaseLineRow]) -> bool
    ensures { result ≡ is_rectified_in rows.now }
{
    rows.first().is_some()
}

/// The row of the deferral with the number of a defect is there, and so is that of its aircraft, and they say the defect;
/// without a number there is no such defect.
pub fn defects_are_found()
    ensures found { (book : List Entry) (doc : List ℕ) (n : ℕ) → IsBook book
        → seq_of_defect book doc ≡ Some n
        → let rows = filter (λ (row : DeferralRow). nat_eq row.seq n) (deferral_rows book) in
        IsSomeAnd (deferral_aircraft rows) (λ m. defect_in doc rows
        (filter (λ (row : AircraftRow). nat_eq row.seq m) (aircraft_rows book))
        ≡ defect book doc) }
    ensures there { (book : List Entry) (doc : List ℕ) (n : ℕ)
        → seq_of_defect book doc ≡ Some n → is_some (defect book doc) ≡ true }
    ensures missed { (book : List Entry) (doc : List ℕ)
        → seq_of_defect book doc ≡ None → defect book doc ≡ None }
{}

/// The first row with the number of a defect says its extension, and a line with that number that it was rectified; what
/// has no number was neither extended nor rectified.
pub fn extensions_and_rectifications_are_found()
    ensures extension { (book : List Entry) (doc : List ℕ) (n : ℕ) → IsBook book
        → seq_of_defect book doc ≡ Some n
        → extension_in doc (filter (λ (row : ExtensionRow). nat_eq row.defect n)
        (extension_rows book)) ≡ extension book doc }
    ensures rectified { (book : List Entry) (doc : List ℕ) (n : ℕ) → IsBook book
        → seq_of_defect book doc ≡ Some n
        → is_rectified_in (filter (rectifies n) (release_line_rows book))
        ≡ is_rectified book doc }
    ensures no_extension { (book : List Entry) (doc : List ℕ) → IsBook book
        → seq_of_defect book doc ≡ None → extension book doc ≡ None }
    ensures not_rectified { (book : List Entry) (doc : List ℕ) → IsBook book
        → seq_of_defect book doc ≡ None → is_rectified book doc ≡ false }
{}

/// The deferrals with the number of an aircraft say its open defects, in the order of their entries, and the entry of each
/// is there; an aircraft that is not there has none.
pub fn open_defects_are_found()
    ensures open { (book : List Entry) (tail : List ℕ) (n : ℕ) → IsBook book
        → seq_of_tail book tail ≡ Some n
        → filter_map (open_said book tail)
        (filter (λ (row : DeferralRow). nat_eq row.aircraft n) (deferral_rows book))
        ≡ open_defects book tail }
    ensures there { (book : List Entry) (n : ℕ) → IsBook book
        → AllByRecursion (λ (row : DeferralRow). is_some (doc_at book row.seq) ≡ true)
        (filter (λ (row : DeferralRow). nat_eq row.aircraft n) (deferral_rows book)) }
    ensures missed { (book : List Entry) (tail : List ℕ) → IsBook book
        → seq_of_tail book tail ≡ None → open_defects book tail ≡ [] }
{}

/// All deferrals say the open defects of all aircraft, in the order of their entries, and the entry and the aircraft of
/// each are there.
pub fn all_open_defects_are_found()
    ensures open { (book : List Entry) → IsBook book
        → filter_map (left_said book) (deferral_rows book)
        ≡ filter (λ d. not (is_rectified book d.doc)) (defects book) }
    ensures there { (book : List Entry) → IsBook book
        → AllByRecursion (λ (row : DeferralRow). is_some (deferred_said book row) ≡ true)
        (deferral_rows book) }
{}
