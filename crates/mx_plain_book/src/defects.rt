//! Deferred defects: which there are, which were rectified, and which are open.
ghost use Rattle.std.specs.Prelude.{◌≡◌, IfOk};
ghost use Rattle.std.specs.List.{list_any};
ghost use Rattle.mx_book.specs.commands.Act.{lines_of};
ghost use Rattle.mx_book.specs.Defect.{deferred_by, defect, rectifies, is_rectified, extension, is_open, open_defects};
ghost use Rattle.mx_lists.specs.Fleet.{all_open};

use mx_base::{Doc, Tail};
use mx_book::Defect;
use mx_book::commands::{Command, Extension, Line};
use std::alloc::{AllocError, Global};

// The defect that an entry defers.
fn deferred_defect(entry: &Command) -> Option<Defect>
    ensures { result ≡ deferred_by entry.now }
{
    entry.deferral().map(|deferral| Defect {
        doc: entry.doc(),
        deferral,
    })
}

/// The defect that was deferred by a document.
pub(crate) fn defect_of_document(entries: &[Command], doc: &Doc) -> Option<Defect>
    ensures { result ≡ defect entries.now doc.now }
{
    entries
        .iter()
        .filter_map(|entry| deferred_defect(entry))
        .find(|defect| defect.doc == *doc)
}

// Whether a line certifies that a defect was rectified.
fn is_rectified_by(line: &Line, doc: &Doc) -> bool
    ensures { result ≡ rectifies doc.now line.now }
{
    match line {
        Line::Done(_, _) => false,
        Line::Rectified(rectified) => *rectified == *doc,
    }
}

// Whether one of the lines of an entry certifies that a defect was rectified.
fn has_rectified(entry: &Command, doc: &Doc) -> bool
    ensures { result ≡ list_any (rectifies doc.now) (lines_of entry.now.act) }
{
    entry.lines().iter().any(|line| is_rectified_by(line, doc))
}

/// Whether a defect was rectified.
pub(crate) fn was_rectified(entries: &[Command], doc: &Doc) -> bool
    ensures { result ≡ is_rectified entries.now doc.now }
{
    entries.iter().any(|entry| has_rectified(entry, doc))
}

/// The extension of a defect's interval.
pub(crate) fn extension_of_defect(entries: &[Command], doc: &Doc) -> Option<Extension>
    ensures { result ≡ extension entries.now doc.now }
{
    entries
        .iter()
        .filter_map(|entry| entry.extension())
        .find(|extension| extension.defect == *doc)
}

// Whether a defect is of this aircraft, and was not rectified.
fn is_open_on(entries: &[Command], tail: &Tail, defect: &Defect) -> bool
    ensures { result ≡ is_open entries.now tail.now defect.now }
{
    defect.deferral.tail == *tail && !was_rectified(entries, &defect.doc)
}

/// The open defects of an aircraft, in the order of their entries. An error where memory runs out.
pub fn list_open_defects(
    alloc: Global,
    entries: &[Command],
    tail: &Tail,
) -> Result<Vec<Defect>, AllocError>
    ensures { IfOk result (λ defects. defects.items ≡ open_defects entries.now tail.now) }
{
    entries
        .iter()
        .filter_map(|entry| deferred_defect(entry))
        .filter(|defect| is_open_on(entries, tail, defect))
        .collect(alloc)
}

/// The open defects of all aircraft, in the order of their entries. An error where memory runs out.
pub(crate) fn list_all_open(alloc: Global, entries: &[Command]) -> Result<Vec<Defect>, AllocError>
    ensures { IfOk result (λ defects. defects.items ≡ all_open entries.now) }
{
    entries
        .iter()
        .filter_map(|entry| deferred_defect(entry))
        .filter(|defect| !was_rectified(entries, &defect.doc))
        .collect(alloc)
}
