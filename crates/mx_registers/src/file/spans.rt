//! Spans, and the fittings and removals that they stand for.
//!
//! The fittings and removals of a file are taken out of its spans, so a span that pairs them wrongly gives the right
//! registers. A book's spans are each fitting until the first removal of its component behind it (`spans_made`), by the
//! numbers in the rows alone. A walk from the last fitting to the first finds that removal in a map by components, so
//! it takes no search.
ghost use Rattle.std.specs.Prelude.{◌≡◌, ℕ, IfOk, OnOk, map};
ghost use Rattle.std.specs.List.{filter_map};
ghost use Rattle.std.specs.Option.{option_copied, option_map};
ghost use Rattle.mx_base.specs.rows.Rising.{IsRising};
ghost use Rattle.mx_registers.specs.kept.Spans.{fitting_in, removal_in};
ghost use Rattle.mx_registers.specs.file.Sorted.{ArePut};
ghost use Rattle.mx_registers.specs.file.Spans.{HasPut, IsLastBehind, span_by, spans_made};

use crate::file::sorted::sort_rows;
use mx_base::rows::{FittingRow, RemovalRow, SpanRow};
use mx_book::entry_list::NoMemory;
use std::alloc::Global;
use std::collections::BTreeMap;

/// The fitting that begins a span.
pub fn fitting_in(span: &SpanRow) -> FittingRow
    ensures { result ≡ fitting_in span.now }
{
    FittingRow {
        seq: span.fit_seq,
        component: span.component,
        aircraft: span.aircraft,
        position: span.position,
        moment: span.from,
    }
}

/// The removal that ends a span, where it has ended.
pub fn removal_in(span: &SpanRow) -> Option<RemovalRow>
    ensures { result ≡ removal_in span.now }
{
    Some(RemovalRow {
        seq: span.remove_seq?,
        component: span.component,
        moment: span.to?,
    })
}

/// The fittings that begin spans, in the order of the spans.
pub fn fittings_in(alloc: Global, spans: &[SpanRow]) -> Result<Vec<FittingRow>, NoMemory>
    ensures { IfOk result (λ fittings. fittings.items ≡ map fitting_in spans.now) }
{
    let fittings = spans.iter().map(|span| fitting_in(span)).collect(alloc)?;
    Ok(fittings)
}

// The removals that end spans, in the order of the spans.
fn removals_of(alloc: Global, spans: &[SpanRow]) -> Result<Vec<RemovalRow>, NoMemory>
    ensures { IfOk result (λ removals. removals.items ≡ filter_map removal_in spans.now) }
{
    let removals = spans
        .iter()
        .filter_map(|span| removal_in(span))
        .collect(alloc)?;
    Ok(removals)
}

/// The removals that end spans, in the order of their numbers.
pub fn removals_in(alloc: Global, spans: &[SpanRow]) -> Result<Vec<RemovalRow>, NoMemory>
    ensures { IfOk result (λ removals.
        ArePut (λ row. row.seq) (filter_map removal_in spans.now) removals.items) }
{
    let mut removals = removals_of(alloc, spans)?;
    sort_rows(&mut removals)?;
    Ok(removals)
}

// The span that a fitting begins, and that a removal ends, where there is one.
fn span_by(fitting: &FittingRow, removal: Option<&RemovalRow>) -> SpanRow
    ensures { result ≡ span_by fitting.now (option_copied removal.entry) }
{
    SpanRow {
        fit_seq: fitting.seq,
        component: fitting.component,
        aircraft: fitting.aircraft,
        position: fitting.position,
        from: fitting.moment,
        remove_seq: removal.map(|row| row.seq),
        to: removal.map(|row| row.moment),
    }
}

// The last of the removals and those before it, where it comes behind the entry with this number.
fn last_behind(seq: u32, removals: &[RemovalRow]) -> Option<(&RemovalRow, &[RemovalRow])>
    ensures { IsLastBehind seq removals.now
        (option_map (λ found. (found.0.now, found.1.now)) result) }
{
    match removals.split_last() {
        None => None,
        Some((last, earlier)) => {
            if last.seq > seq {
                Some((last, earlier))
            } else {
                None
            }
        }
    }
}

// Puts a removal into a map by its component.
fn put(ends: &mut BTreeMap<u32, RemovalRow>, removal: &RemovalRow) -> Result<(), NoMemory>
    ensures { OnOk result (HasPut removal.now ends.old ends.new) }
{
    match ends.insert(removal.component, *removal) {
        Ok(_) => Ok(()),
        Err(_) => Err(NoMemory),
    }
}

/// The spans that fittings and removals make, which both rise by their numbers. `NoMemory` where memory runs out.
pub fn spans_made(
    alloc: Global,
    fittings: &[FittingRow],
    removals: &[RemovalRow],
) -> Result<Vec<SpanRow>, NoMemory>
    ensures { (high : ℕ) → IsRising (λ (row : FittingRow). row.seq) 0 fittings.now high
        → IsRising (λ (row : RemovalRow). row.seq) 0 removals.now high
        → IfOk result (λ made. made.items ≡ spans_made fittings.now removals.now) }
{
    let mut ends = BTreeMap::new(alloc);
    let mut made = Vec::new(alloc);
    let mut rest = fittings;
    let mut left = removals;
    while let Some((fitting, earlier)) = rest.split_last() {
        match last_behind(fitting.seq, left) {
            Some((removal, before)) => {
                put(&mut ends, removal)?;
                left = before;
            }
            None => {
                match made.push(span_by(fitting, ends.get(&fitting.component))) {
                    Ok(()) => {}
                    Err(_) => return Err(NoMemory),
                }
                rest = earlier;
            }
        }
    }
    made.reverse();
    Ok(made)
}
