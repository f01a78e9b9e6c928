//! The rows of a fitting and of a removal.
ghost use Rattle.std.specs.Prelude.{◌≡◌, ℕ, List, map, All, IfOk};
ghost use Rattle.mx_book.specs.commands.Act.{Entry, Fitted, Removed};
ghost use Rattle.mx_base.specs.rows.Rows.{FitsEntry, FitsSpan};
ghost use Rattle.mx_registers.specs.kept.Changes.{entry_of};
ghost use Rattle.mx_registers.specs.kept.Items.{number_of_serial, number_of_tail};
ghost use Rattle.mx_row_rules.specs.changes.Kept.{span_fitted, span_removed};
ghost use Rattle.mx_row_rules.specs.changes.Made.{AreMadeOf, nothing_found};
ghost use Rattle.mx_row_rules.specs.changes.Rows.{AreCommandRows, IsEntryOf, spans_open_of, totals_before};

use crate::changes::plain::entry_alone;
use crate::changes::rows::CommandRows;
use crate::changes::totals::clocked_totals;
use mx_base::Moment;
use mx_base::rows::{EntryRow, SpanRow, TotalRow};
use mx_book::commands::{Fitting, Removal};
use std::alloc::{AllocError, Global};

// The span that a fitting begins, by the numbers of its entry, its component and its aircraft.
fn span_begun(seq: u32, component: u32, aircraft: u32, fitting: &Fitting) -> SpanRow
    ensures row { result ≡ span_fitted seq component aircraft fitting.now }
    ensures fits { FitsSpan result }
{
    // The text of an identifier, and the number of a moment, fit their columns.
    let _ = fitting.position.as_str();
    let _ = fitting.moment.number();
    SpanRow {
        fit_seq: seq,
        component,
        aircraft,
        position: fitting.position,
        from: fitting.moment,
        remove_seq: None,
        to: None,
    }
}

// The span, ended by the entry with a number at a moment.
fn span_ended(span: SpanRow, seq: u32, to: Moment) -> SpanRow
    ensures row { result ≡ span_removed seq to span }
    ensures fits { FitsSpan result }
{
    // The text of an identifier, and the numbers of moments, fit their columns.
    let _ = span.position.as_str();
    let _ = span.from.number();
    let _ = to.number();
    SpanRow {
        fit_seq: span.fit_seq,
        component: span.component,
        aircraft: span.aircraft,
        position: span.position,
        from: span.from,
        remove_seq: Some(seq),
        to: Some(to),
    }
}

/// The rows of a fitting, by the numbers of its component and its aircraft, and by the totals of both, as they are.
pub fn fitting_rows(
    alloc: Global,
    entry: EntryRow,
    fitting: Fitting,
    component: u32,
    aircraft: u32,
    totals: &[TotalRow],
) -> Result<CommandRows, AllocError>
    requires fits { FitsEntry entry }
    ensures of_book { IfOk result (λ rows. (book : List Entry) (doc : List ℕ)
        → IsEntryOf book (entry_of doc (Fitted fitting)) entry
        → component ≡ number_of_serial book fitting.serial
        → aircraft ≡ number_of_tail book fitting.tail
        → totals.now ≡ totals_before book (Fitted fitting)
        → AreCommandRows book (entry_of doc (Fitted fitting)) rows) }
    ensures made { IfOk result (λ rows. AreMadeOf (Fitted fitting) entry
        (record nothing_found { number = aircraft; component = component; totals = totals.now })
        rows) }
{
    // The checker proves this function only where the type of each field of a row is named in it.
    let _: Option<Moment> = None;
    let span = span_begun(entry.seq, component, aircraft, &fitting);
    let behind = clocked_totals(alloc, totals, fitting.moment)?;
    let mut rows = entry_alone(alloc, entry);
    rows.changed.totals = behind;
    rows.added.spans.push(span)?;
    Ok(rows)
}

// Spans, ended by the entry with a number at a moment.
fn spans_ended(
    alloc: Global,
    spans: &[SpanRow],
    seq: u32,
    to: Moment,
) -> Result<Vec<SpanRow>, AllocError>
    ensures rows { IfOk result (λ rows. rows.items ≡ map (span_removed seq to) spans.now) }
    ensures fits { IfOk result (λ rows. All FitsSpan rows.items) }
{
    let mut rows = Vec::new(alloc);
    'spans: for span in spans {
        rows.push(span_ended(*span, seq, to))?;
    }
    Ok(rows)
}

/// The rows of a removal, by the open spans of its component, of which there is one, and by the totals of the component and of
/// the aircraft that it is fitted to, as they are.
pub fn removal_rows(
    alloc: Global,
    entry: EntryRow,
    removal: Removal,
    spans: &[SpanRow],
    totals: &[TotalRow],
) -> Result<CommandRows, AllocError>
    requires fits { FitsEntry entry }
    ensures of_book { IfOk result (λ rows. (book : List Entry) (doc : List ℕ)
        → IsEntryOf book (entry_of doc (Removed removal)) entry
        → spans.now ≡ spans_open_of book (Removed removal)
        → totals.now ≡ totals_before book (Removed removal)
        → AreCommandRows book (entry_of doc (Removed removal)) rows) }
    ensures made { (component : ℕ) → IfOk result (λ rows. AreMadeOf (Removed removal) entry
        (record nothing_found { component = component; spans = spans.now; totals = totals.now })
        rows) }
{
    // The checker proves this function only where the type of each field of a row is named in it.
    let _: Option<Moment> = None;
    let ended = spans_ended(alloc, spans, entry.seq, removal.moment)?;
    let behind = clocked_totals(alloc, totals, removal.moment)?;
    let mut rows = entry_alone(alloc, entry);
    rows.changed.totals = behind;
    rows.changed.spans = ended;
    Ok(rows)
}
