//! What is fitted where, by spans that nothing ended.
ghost use Rattle.std.specs.Prelude.{◌≡◌, ℕ, List};
ghost use Rattle.std.specs.Option.{option_map};
ghost use Rattle.mx_book.specs.Span.{fitted, is_taken, tail_fitted};
ghost use Rattle.mx_lookups.specs.Fitted.{IsSpanFitted};
ghost use Rattle.mx_lookups.specs.numbers.Given.{IsTaken, PlaceFitted, SpanFitted, TailFitted};
ghost use Rattle.mx_lookups.specs.numbers.LookUp.{IsLookUp};
ghost use Rattle.mx_lookups.specs.numbers.Told.{NumberFittedDamage, PlaceFittedDamage, TailFittedDamage, TakenDamage};

use crate::numbers::items::{aircraft_number, component_number, tail_of_number};
use mx_base::rows::SpanRow;
use mx_base::{Position, Serial, Tail};
use mx_layout::{Table, TableFault};
use mx_row_rules::found::spans::{is_taken_in, span_in};
use mx_table_rows::chosen::kept::{open_spans_by_aircraft, open_spans_by_component};
use sqlite::{Alter, Transaction};
use std::alloc::Global;

/// Whether a component is fitted to the position of an aircraft. `Damaged` with `aircraft` where a row with the registration
/// can't be read, and with `span2` where an open span of the aircraft can't.
pub fn is_taken<S: Alter>(
    alloc: Global,
    tx: &mut Transaction<'_, S>,
    tail: &Tail,
    position: &Position,
) -> Result<bool, TableFault>
    ensures looks_up { IsLookUp S.Store
        (λ book taken. taken ≡ is_taken book tail.now position.now)
        (IsTaken tail.now position.now)
        (TakenDamage tail.now)
        tx.old tx.new result }
{
    let found = aircraft_number(alloc, tx, tail)?;
    match found {
        Some(number) => {
            let rows = open_spans_by_aircraft(alloc, tx, number)?;
            Ok(is_taken_in(&rows, position))
        }
        None => Ok(false),
    }
}

// The open span of a component: where it is fitted.
fn span_fitted<S: Alter>(
    alloc: Global,
    tx: &mut Transaction<'_, S>,
    serial: &Serial,
) -> Result<Option<SpanRow>, TableFault>
    ensures looks_up { IsLookUp S.Store
        (IsSpanFitted serial.now)
        (SpanFitted serial.now)
        (NumberFittedDamage serial.now)
        tx.old tx.new result }
{
    let found = component_number(alloc, tx, serial)?;
    match found {
        Some(number) => {
            let rows = open_spans_by_component(alloc, tx, number)?;
            Ok(span_in(&rows))
        }
        None => Ok(None),
    }
}

/// The registration of the aircraft that a component is fitted to, and the position, or `None` where it is fitted nowhere.
/// `Damaged` as `tail_fitted` is.
pub fn place_fitted<S: Alter>(
    alloc: Global,
    tx: &mut Transaction<'_, S>,
    serial: &Serial,
) -> Result<Option<(Tail, Position)>, TableFault>
    ensures looks_up { IsLookUp S.Store
        (λ book place. place ≡ option_map {U = List ℕ × List ℕ} (λ s. (s.tail, s.position))
        (fitted book serial.now))
        (PlaceFitted serial.now)
        (PlaceFittedDamage serial.now)
        tx.old tx.new result }
{
    let found = span_fitted(alloc, tx, serial)?;
    match found {
        Some(row) => match tail_of_number(alloc, tx, row.aircraft)? {
            Some(tail) => Ok(Some((tail, row.position))),
            None => Err(TableFault::Damaged(Table::Span2)),
        },
        None => Ok(None),
    }
}

/// The registration of the aircraft that a component is fitted to, or `None` where it is fitted nowhere. `Damaged` with
/// `span2` where the open span of the component names an aircraft that is not there or can't be read; with `component` or
/// `aircraft` where a row with the serial number, or with the number of the aircraft, can't.
pub fn tail_fitted<S: Alter>(
    alloc: Global,
    tx: &mut Transaction<'_, S>,
    serial: &Serial,
) -> Result<Option<Tail>, TableFault>
    ensures looks_up { IsLookUp S.Store
        (λ book tail. tail ≡ tail_fitted book serial.now)
        (TailFitted serial.now)
        (TailFittedDamage serial.now)
        tx.old tx.new result }
{
    let found = place_fitted(alloc, tx, serial)?;
    match found {
        Some(place) => Ok(Some(place.0)),
        None => Ok(None),
    }
}
