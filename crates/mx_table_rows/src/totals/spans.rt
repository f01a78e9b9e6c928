//! Spans: where components are fitted.
ghost use Rattle.std.specs.Prelude.{◌≡◌, map, filter, pos, IfOk, IsTrue};
ghost use Rattle.sqlite.specs.declared.types.Value.TheVariants.{Int};
ghost use Rattle.sqlite.specs.State.{HasCleanDisk};
ghost use Rattle.sqlite.specs.Held.{state};
ghost use Rattle.mx_layout.specs.kept.Cells.{kept_span2};
ghost use Rattle.mx_tables.specs.Calls.{OnRead};
ghost use Rattle.mx_table_rows.specs.chosen.Choices.{is_open};
ghost use Rattle.mx_table_rows.specs.totals.Calls.{ReadsFrom, ChangesRows, change_where};
ghost use Rattle.mx_table_rows.specs.totals.Single.{IsOnly, HasOne};
ghost use Rattle.mx_table_rows.specs.totals.Spans.{ended, fitted_by, AreFitted, HasOtherFitted, was_fitted, component_of, AreDuring, HasOtherSpan};

use crate::chosen::kept::{open_spans_by_aircraft, open_spans_by_component, span2_by_aircraft};
use crate::totals::in_place::set_span2;
use crate::totals::single::only;
use mx_base::rows::SpanRow;
use mx_base::{Moment, Position};
use mx_layout::{Table, TableFault};
use sqlite::{Alter, Transaction};
use std::alloc::{AllocError, Global};

/// A component that is fitted to an aircraft: its position there, and its number.
#[derive(Clone, Copy, Debug, PartialEq, Eq)]
pub struct FittedComponent {
    pub position: Position,
    pub component: u32,
}

// What these spans say is fitted.
fn fitted_by(alloc: Global, spans: &[SpanRow]) -> Result<Vec<FittedComponent>, AllocError>
    ensures { IfOk result (λ v. v.items ≡ map fitted_by spans.now) }
{
    spans
        .iter()
        .map(|span| FittedComponent {
            position: span.position,
            component: span.component,
        })
        .collect(alloc)
}

// The open span of a component.
fn open_span<S: Alter>(
    alloc: Global,
    tx: &mut Transaction<'_, S>,
    component: u32,
) -> Result<SpanRow, TableFault>
    ensures same_reference { tx.new.conn.ghost_name ≡ tx.old.conn.ghost_name }
    ensures reads { ReadsFrom kept_span2 (IsOnly kept_span2 (is_open 1 (Int (pos component))))
        (λ rows. ¬ HasOne kept_span2 (is_open 1 (Int (pos component))) rows)
        (state S.Store tx.old.conn.now) (state S.Store tx.new.conn.now) result }
{
    let read = open_spans_by_component(alloc, tx, component);
    only(Table::Span2, read)
}

/// What is fitted to an aircraft, in the order of the entries that fitted it. `Damaged` with `span2` where an open span of
/// the aircraft can't be read; `Memory` for want of memory, and `Store` for an error of the store.
pub fn fitted<S: Alter>(
    alloc: Global,
    tx: &mut Transaction<'_, S>,
    aircraft: u32,
) -> Result<Vec<FittedComponent>, TableFault>
    ensures same_reference { tx.new.conn.ghost_name ≡ tx.old.conn.ghost_name }
    ensures reads { ReadsFrom kept_span2
        (λ rows components. AreFitted aircraft rows components.items) (HasOtherFitted aircraft)
        (state S.Store tx.old.conn.now) (state S.Store tx.new.conn.now) result }
{
    let spans = open_spans_by_aircraft(alloc, tx, aircraft)?;
    Ok(fitted_by(alloc, &spans)?)
}

// Whether the span is that of a component that was fitted throughout a flight from `off` to `on`.
fn was_fitted(off: Moment, on: Moment, span: &SpanRow) -> bool
    ensures { result ≡ was_fitted off on span.now }
{
    if off < span.from {
        return false;
    }
    match span.to {
        Some(to) => on <= to,
        None => true,
    }
}

// The components that these spans say were fitted throughout a flight from `off` to `on`.
fn during(alloc: Global, spans: &[SpanRow], off: Moment, on: Moment) -> Result<Vec<u32>, AllocError>
    ensures { IfOk result (λ v. v.items ≡ map component_of (filter (was_fitted off on) spans.now)) }
{
    spans
        .iter()
        .filter(|span| was_fitted(off, on, span))
        .map(|span| span.component)
        .collect(alloc)
}

/// The components that a flight of an aircraft from `off` to `on` credits, in the order of the entries that fitted them:
/// those of its spans that began at `off` or before and that nothing ended, or that ended at `on` or later. `Damaged` with
/// `span2` where a span of the aircraft can't be read; `Memory` for want of memory, and `Store` for an error of the store.
pub fn fitted_during<S: Alter>(
    alloc: Global,
    tx: &mut Transaction<'_, S>,
    aircraft: u32,
    off: Moment,
    on: Moment,
) -> Result<Vec<u32>, TableFault>
    ensures same_reference { tx.new.conn.ghost_name ≡ tx.old.conn.ghost_name }
    ensures reads { ReadsFrom kept_span2
        (λ rows components. AreDuring aircraft off on rows components.items)
        (HasOtherSpan aircraft)
        (state S.Store tx.old.conn.now) (state S.Store tx.new.conn.now) result }
{
    let spans = span2_by_aircraft(alloc, tx, aircraft)?;
    Ok(during(alloc, &spans, off, on)?)
}

/// Ends the open span of a component by this entry, at this moment. `Damaged` with `span2`, and nothing changed, where
/// the component has no open span, more than one, or one that can't be read; `Memory` for want of memory, and `Store`
/// for an error of the store.
pub fn end_span2<S: Alter>(
    alloc: Global,
    tx: &mut Transaction<'_, S>,
    component: u32,
    remove_seq: u32,
    to: Moment,
) -> Result<(), TableFault>
    ensures same_reference { tx.new.conn.ghost_name ≡ tx.old.conn.ghost_name }
    ensures changes { ChangesRows kept_span2
        (change_where (is_open 1 (Int (pos component))) (ended remove_seq to))
        (HasOne kept_span2 (is_open 1 (Int (pos component))))
        (λ rows. ¬ HasOne kept_span2 (is_open 1 (Int (pos component))) rows)
        (state S.Store tx.old.conn.now) (state S.Store tx.new.conn.now) result }
    ensures opens { HasCleanDisk (state S.Store tx.new.conn.now)
        → IsTrue (state S.Store tx.old.conn.now).in_transaction
        → OnRead result (IsTrue (state S.Store tx.old.conn.now).is_open) }
{
    let span = open_span(alloc, tx, component)?;
    set_span2(
        tx,
        &SpanRow {
            remove_seq: Some(remove_seq),
            to: Some(to),
            ..span
        },
    )
}
