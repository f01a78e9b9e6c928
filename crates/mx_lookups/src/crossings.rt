//! What is asked before a sector is entered late: from when on there are records of its aircraft, which sector it overlaps
//! first, and which fitting, removal or release it straddles first.
ghost use Rattle.std.specs.Prelude.{◌≡◌, filter, nat_eq, pos};
ghost use Rattle.sqlite.specs.declared.types.Value.TheVariants.{Int};
ghost use Rattle.mx_base.specs.declared.rows.rows.SpanRow.{SpanRow};
ghost use Rattle.mx_book.specs.declared.commands.item.Item.TheVariants.{Airframe};
ghost use Rattle.mx_book.specs.Late.{first_overlapped, first_straddled};
ghost use Rattle.mx_book.specs.Register.{as_of};
ghost use Rattle.mx_registers.specs.Registers.{release_rows};
ghost use Rattle.mx_registers.specs.kept.Spans.{span_rows};
ghost use Rattle.mx_layout.specs.kept.Cells.{kept_crs, kept_span2};
ghost use Rattle.mx_table_rows.specs.chosen.Choices.{has_value};
ghost use Rattle.mx_row_rules.specs.found.Crossings.{is_released_near, late_number, straddled_moves, straddled_releases};
ghost use Rattle.mx_lookups.specs.numbers.Crossings.{AsOf, FirstOverlapped, FirstStraddled, LateNumber, MovedMeanwhile, OverlappedDamage, ReleasedMeanwhile, StraddledDamage, is_released_row};
ghost use Rattle.mx_lookups.specs.numbers.LookUp.{LooksUp};
ghost use Rattle.mx_lookups.specs.numbers.Told.{AircraftDamage, TotalDamage, Unread};

use crate::numbers::items::aircraft_number;
use mx_base::{Moment, Tail};
use mx_book::commands::Sector;
use mx_layout::{Table, TableFault};
use mx_row_rules::found::aircraft::aircraft_in;
use mx_row_rules::found::crossings::{
    earliest_overlapping, late_in, overlapped_in, sooner, straddled_moves, straddled_releases,
};
use mx_table_rows::chosen::items::aircraft_by_tail;
use mx_table_rows::chosen::kept::{span2_by_aircraft, total2_by_item};
use mx_table_rows::chosen::sectors::sector2_between;
use mx_table_rows::chosen::works::crs_between;
use sqlite::{Alter, Transaction};
use std::alloc::Global;

/// The moment up to which the opening of an aircraft counts, before which no sector takes off that is entered late; the
/// first of all where the aircraft is not there. `Damaged` with `aircraft` where a row with the registration can't be read;
/// no total is asked.
pub fn as_of<S: Alter>(
    alloc: Global,
    tx: &mut Transaction<'_, S>,
    tail: &Tail,
) -> Result<Moment, TableFault>
    ensures looks_up { LooksUp S.Store
        (λ book moment. moment ≡ as_of book (Airframe tail.now))
        (AsOf tail.now)
        (AircraftDamage tail.now)
        tx.old tx.new result }
{
    let rows = aircraft_by_tail(alloc, tx, tail)?;
    match aircraft_in(&rows) {
        Some(aircraft) => Ok(aircraft.as_of),
        None => Ok(Moment::FIRST),
    }
}

// The number of the sector's aircraft where it takes off before the clock of that airframe, or `None`: then it crosses
// nothing, and neither sectors nor spans nor releases are asked.
fn late_number<S: Alter>(
    alloc: Global,
    tx: &mut Transaction<'_, S>,
    sector: &Sector,
) -> Result<Option<u32>, TableFault>
    ensures looks_up { LooksUp S.Store
        (λ book found. found ≡ late_number book sector.now)
        (LateNumber sector.now)
        (TotalDamage (Airframe sector.now.tail))
        tx.old tx.new result }
{
    let found = aircraft_number(alloc, tx, &sector.tail)?;
    match found {
        Some(number) => {
            let rows = total2_by_item(alloc, tx, number)?;
            match late_in(&rows, number, sector) {
                Some(late) => Ok(late),
                None => Err(TableFault::Damaged(Table::Total2)),
            }
        }
        None => Ok(None),
    }
}

/// The number of the first entry that is a sector of the same aircraft and was under way while this one was, or `None`.
/// `Damaged` as for the clock of the airframe; and with `sector2` where the sector takes off before that, and a row near it
/// can't be read.
pub fn first_overlapped<S: Alter>(
    alloc: Global,
    tx: &mut Transaction<'_, S>,
    sector: &Sector,
) -> Result<Option<u32>, TableFault>
    ensures looks_up { LooksUp S.Store
        (λ book found. found ≡ first_overlapped book sector.now)
        (FirstOverlapped sector.now)
        (OverlappedDamage sector.now)
        tx.old tx.new result }
{
    let late = late_number(alloc, tx, sector)?;
    match late {
        Some(number) => {
            let earliest = earliest_overlapping(sector);
            let rows = sector2_between(alloc, tx, number, earliest, sector.on)?;
            Ok(overlapped_in(&rows, sector))
        }
        None => Ok(None),
    }
}

// The least number of the entries that began or ended a span of the aircraft with this number while a sector was under way.
fn moved_meanwhile<S: Alter>(
    alloc: Global,
    tx: &mut Transaction<'_, S>,
    number: u32,
    sector: &Sector,
) -> Result<Option<u32>, TableFault>
    ensures looks_up { LooksUp S.Store
        (λ book found. found ≡ straddled_moves sector.now
        (filter (λ (row : SpanRow). nat_eq row.aircraft number) (span_rows book)))
        (MovedMeanwhile number sector.now)
        (Unread kept_span2 (has_value 2 (Int (pos number))))
        tx.old tx.new result }
{
    let rows = span2_by_aircraft(alloc, tx, number)?;
    Ok(straddled_moves(&rows, sector))
}

// The least number of the releases at the aircraft with this number that were made while a sector was under way.
fn released_meanwhile<S: Alter>(
    alloc: Global,
    tx: &mut Transaction<'_, S>,
    number: u32,
    sector: &Sector,
) -> Result<Option<u32>, TableFault>
    ensures looks_up { LooksUp S.Store
        (λ book found. found ≡ straddled_releases sector.now
        (filter (is_released_near number sector.now) (release_rows book)))
        (ReleasedMeanwhile number sector.now)
        (Unread kept_crs (is_released_row number sector.now))
        tx.old tx.new result }
{
    let rows = crs_between(alloc, tx, number, sector.off, sector.on)?;
    Ok(straddled_releases(&rows, sector))
}

/// The number of the first entry that fitted a component to the aircraft of a sector, removed one from it or released work
/// at it while the sector was under way, behind its take-off and before its landing, or `None`. `Damaged` as for the clock
/// of the airframe; and, where the sector takes off before that, with `span2` where a span of the aircraft can't be read,
/// and with `crs` where a release at it meanwhile can't.
pub fn first_straddled<S: Alter>(
    alloc: Global,
    tx: &mut Transaction<'_, S>,
    sector: &Sector,
) -> Result<Option<u32>, TableFault>
    ensures looks_up { LooksUp S.Store
        (λ book found. found ≡ first_straddled book sector.now)
        (FirstStraddled sector.now)
        (StraddledDamage sector.now)
        tx.old tx.new result }
{
    let late = late_number(alloc, tx, sector)?;
    match late {
        Some(number) => {
            let moved = moved_meanwhile(alloc, tx, number, sector)?;
            let released = released_meanwhile(alloc, tx, number, sector)?;
            Ok(sooner(moved, released))
        }
        None => Ok(None),
    }
}
