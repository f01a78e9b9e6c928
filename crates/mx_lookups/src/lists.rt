//! The look-ups of lists: what is fitted to an aircraft, and its open defects.
ghost use Rattle.std.specs.Prelude.{◌≡◌, if◌then◌else◌, filter, map, nat_eq, None, Some};
ghost use Rattle.std.specs.List.{filter_map};
ghost use Rattle.mx_book.specs.Defect.{open_defects};
ghost use Rattle.mx_book.specs.Span.{is_open_on, spans};
ghost use Rattle.mx_registers.specs.kept.Spans.{span_rows};
ghost use Rattle.mx_registers.specs.Names.{serial_at};
ghost use Rattle.mx_registers.specs.Registers.{deferral_rows};
ghost use Rattle.mx_base.specs.declared.rows.rows.DeferralRow.{DeferralRow};
ghost use Rattle.mx_row_rules.specs.found.Defects.{is_rectified_at, open_said};
ghost use Rattle.mx_row_rules.specs.found.Names.{doc_at};
ghost use Rattle.mx_row_rules.specs.found.Spans.{is_open_at, place_said};
ghost use Rattle.mx_lookups.specs.numbers.Given.{DefectsAt, DocIfOpen, DocOfNumber, FittedTo, OpenDefects, PlacesAt, SerialOfNumber};
ghost use Rattle.mx_lookups.specs.numbers.LookUp.{IsLookUp, LooksUp};
ghost use Rattle.mx_lookups.specs.numbers.Told.{DefectsDamage, DocDamage, DocIfOpenDamage, FittedDamage, OpenDamage, PlacesDamage, SerialDamage};

use crate::numbers::items::aircraft_number;
use mx_base::{Category, Doc, Position, Serial, Tail};
use mx_book::Defect;
use mx_layout::{Table, TableFault};
use mx_row_rules::found::components::serial_in;
use mx_row_rules::found::defects::{defect_said, is_rectified_in};
use mx_row_rules::found::entries::doc_in;
use mx_table_rows::chosen::defects::defect_by_aircraft;
use mx_table_rows::chosen::entries::entry_by_seq;
use mx_table_rows::chosen::items::component_by_seq;
use mx_table_rows::chosen::kept::open_spans_by_aircraft;
use mx_table_rows::chosen::works::crs_line_by_defect;
use sqlite::{Alter, Transaction};
use std::alloc::Global;

/// The serial number of the component that the entry with this number added.
pub fn serial_of_number<S: Alter>(
    alloc: Global,
    tx: &mut Transaction<'_, S>,
    number: u32,
) -> Result<Option<Serial>, TableFault>
    ensures looks_up { IsLookUp S.Store
        (λ book serial. serial ≡ serial_at book number)
        (SerialOfNumber number)
        (SerialDamage number)
        tx.old tx.new result }
{
    let rows = component_by_seq(alloc, tx, number)?;
    Ok(serial_in(&rows))
}

// What is fitted to the aircraft with this number, by its open spans. `Damaged` with `span2` where the component of one is
// not there.
fn places_fitted<S: Alter>(
    alloc: Global,
    tx: &mut Transaction<'_, S>,
    aircraft: u32,
) -> Result<Vec<(Position, Serial)>, TableFault>
    ensures looks_up { IsLookUp S.Store
        (λ book places. places.items ≡ filter_map (place_said book) (filter (is_open_at aircraft)
        (span_rows book)))
        (λ trees places. PlacesAt aircraft trees places.items)
        (PlacesDamage aircraft)
        tx.old tx.new result }
{
    let rows = open_spans_by_aircraft(alloc, tx, aircraft)?;
    let mut places = Vec::new(alloc);
    let mut rest = rows.as_slice();
    while let Some((row, later)) = rest.split_first() {
        let found = serial_of_number(alloc, tx, row.component)?;
        match found {
            Some(serial) => places.push((row.position, serial))?,
            None => return Err(TableFault::Damaged(Table::Span2)),
        }
        rest = later;
    }
    Ok(places)
}

/// The components that are fitted to an aircraft, each behind its position, in the order of their fittings. `Damaged` with
/// `span2` where an open span names a component that is not there.
pub fn fitted<S: Alter>(
    alloc: Global,
    tx: &mut Transaction<'_, S>,
    tail: &Tail,
) -> Result<Vec<(Position, Serial)>, TableFault>
    ensures looks_up { IsLookUp S.Store
        (λ book places. places.items ≡ map (λ s. (s.position, s.serial)) (filter (is_open_on
        tail.now) (spans book)))
        (λ trees places. FittedTo tail.now trees places.items)
        (FittedDamage tail.now)
        tx.old tx.new result }
{
    let found = aircraft_number(alloc, tx, tail)?;
    match found {
        Some(number) => places_fitted(alloc, tx, number),
        None => Ok(Vec::new(alloc)),
    }
}

/// The document of the entry with this number.
pub(crate) fn doc_of_number<S: Alter>(
    alloc: Global,
    tx: &mut Transaction<'_, S>,
    number: u32,
) -> Result<Option<Doc>, TableFault>
    ensures looks_up { LooksUp S.Store
        (λ book doc. doc ≡ doc_at book number)
        (DocOfNumber number)
        (DocDamage number)
        tx.old tx.new result }
{
    let rows = entry_by_seq(alloc, tx, number)?;
    Ok(doc_in(&rows))
}

// The document of the defect with this number, unless it was rectified: `Some(None)` where its entry is not there.
pub(crate) fn doc_if_open<S: Alter>(
    alloc: Global,
    tx: &mut Transaction<'_, S>,
    defect: u32,
) -> Result<Option<Option<Doc>>, TableFault>
    ensures looks_up { LooksUp S.Store
        (λ book found. found ≡ (if is_rectified_at book defect then None else Some (doc_at book
        defect)))
        (DocIfOpen defect)
        (DocIfOpenDamage defect)
        tx.old tx.new result }
{
    let lines = crs_line_by_defect(alloc, tx, defect)?;
    if is_rectified_in(&lines) {
        return Ok(None);
    }
    let doc = doc_of_number(alloc, tx, defect)?;
    Ok(Some(doc))
}

// The open defects of the aircraft with this number, and with this registration. `Damaged` with `defect` where the entry of
// one is not there.
fn defects_left<S: Alter>(
    alloc: Global,
    tx: &mut Transaction<'_, S>,
    tail: &Tail,
    aircraft: u32,
) -> Result<Vec<Defect>, TableFault>
    ensures looks_up { IsLookUp S.Store
        (λ book defects. defects.items ≡ filter_map (open_said book tail.now) (filter (λ (row :
        DeferralRow). nat_eq row.aircraft aircraft) (deferral_rows book)))
        (λ trees defects. DefectsAt tail.now aircraft trees defects.items)
        (DefectsDamage aircraft)
        tx.old tx.new result }
{
    // The checker proves this loop only where the type of each field of a deferral is named in the function.
    let _: Option<Category> = None;
    let rows = defect_by_aircraft(alloc, tx, aircraft)?;
    let mut open = Vec::new(alloc);
    let mut rest = rows.as_slice();
    while let Some((row, later)) = rest.split_first() {
        let found = doc_if_open(alloc, tx, row.seq)?;
        match found {
            Some(known) => match known {
                Some(doc) => open.push(defect_said(&doc, tail, row))?,
                None => return Err(TableFault::Damaged(Table::Defect)),
            },
            None => {}
        }
        rest = later;
    }
    Ok(open)
}

/// The open defects of an aircraft, in the order of their entries. `Damaged` with `defect` where the entry of one is not
/// there.
pub fn open_defects<S: Alter>(
    alloc: Global,
    tx: &mut Transaction<'_, S>,
    tail: &Tail,
) -> Result<Vec<Defect>, TableFault>
    ensures looks_up { IsLookUp S.Store
        (λ book defects. defects.items ≡ open_defects book tail.now)
        (λ trees defects. OpenDefects tail.now trees defects.items)
        (OpenDamage tail.now)
        tx.old tx.new result }
{
    let found = aircraft_number(alloc, tx, tail)?;
    match found {
        Some(number) => defects_left(alloc, tx, tail, number),
        None => Ok(Vec::new(alloc)),
    }
}
