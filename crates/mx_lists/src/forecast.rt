//! The forecast of an aircraft: after how many days each row of its due list is reached, at the rate that it is flown.
ghost use Rattle.std.specs.Prelude.{◌≡◌, IfOk};
ghost use Rattle.std.specs.List.{filter_map};
ghost use Rattle.mx_book.specs.due.Reach.{IsLeastIfAny};
ghost use Rattle.mx_lists.specs.DueList.{rows_placed};
ghost use Rattle.mx_lists.specs.Forecast.{is_reached_after, row_after, forecast_row, sooner, forecast};
ghost use Rattle.mx_lists.specs.Memory.{Gathers};
ghost use Rattle.mx_lists.specs.Order.{in_order};
ghost use Rattle.mx_lists.specs.Ranks.{forecast_rank};

use crate::due_lists::placed_rows;
use crate::due_row::DueRow;
use crate::list_questions::aircraft_of;
use crate::list_records::ListRecords;
use crate::order::{Placed, Rows, sorted};
use crate::stop::Stop;
use mx_base::{Day, Kind, Tail};
use mx_book::Defect;
use mx_book::due::{days_to_reach, days_to_reach_some};
use std::alloc::{AllocError, Global};

/// The most days that a forecast is asked for.
pub const MOST_DAYS: u32 = 3_650;

/// The most minutes a day that a forecast is asked for: all of a day.
pub const MOST_MINUTES: u32 = 1_440;

/// The most cycles a day that a forecast is asked for.
pub const MOST_CYCLES: u32 = 50;

/// What is due on an aircraft, and when it will be.
#[derive(Clone, Copy, Debug, PartialEq, Eq)]
pub struct ForecastRow {
    /// The least number of days after which it is reached, 0 where it is already.
    pub after: u32,
    /// The day on which it is reached, by its number, which may be past the last of the calendar.
    pub day: i64,
    /// What is reached, as the due list has it on the day that the forecast is from.
    pub row: DueRow,
}

impl Placed for ForecastRow {
    ghost before = { sooner };

    ghost ranks = { forecast_rank };

    fn before(&self, other: &ForecastRow) -> bool {
        self.after < other.after
    }
}

/// What will be due on an aircraft within some days, at the minutes and cycles that it is flown a day: by the number of
/// days, and those of one number of days by place, however they stand.
#[derive(Debug, Drop, PartialEq, Eq)]
pub struct ForecastList {
    /// The registration of the aircraft.
    pub tail: Tail,
    /// The day that the forecast is from.
    pub day: Day,
    /// The days that it looks ahead.
    pub days: u32,
    /// The minutes that the aircraft is flown a day.
    pub minutes: u32,
    /// The cycles that it is flown a day.
    pub cycles: u32,
    /// What is reached within these days.
    pub rows: Rows<ForecastRow>,
}

/// How far a forecast looks ahead, and how much is flown.
#[derive(Clone, Copy)]
pub(crate) struct Ahead {
    /// The day that it is from.
    pub(crate) day: Day,
    /// The days that it looks ahead.
    pub(crate) days: u32,
    /// The minutes that are flown a day.
    pub(crate) minutes: u32,
    /// The cycles that are flown a day.
    pub(crate) cycles: u32,
}

// The least number of days after which a row is reached.
fn days_until(row: &DueRow, minutes: u32, cycles: u32) -> Option<u64>
    ensures { IsLeastIfAny (is_reached_after minutes cycles row.now) result }
{
    match row {
        DueRow::Task { left, .. } => days_to_reach_some(left, minutes, cycles),
        DueRow::Defect { left, .. } => days_to_reach(*left, 1),
    }
}

// The row that is reached so many days after a day.
fn row_after(row: &DueRow, day: Day, after: u32) -> ForecastRow
    ensures { result ≡ row_after day row.now after }
{
    ForecastRow {
        after,
        day: i64::from(day.number()) + i64::from(after),
        row: *row,
    }
}

// A row with its number of days, where that is within so many.
fn row_within(row: &DueRow, day: Day, days: u32, minutes: u32, cycles: u32) -> Option<ForecastRow>
    ensures { result ≡ forecast_row day days minutes cycles row.now }
{
    match days_until(row, minutes, cycles) {
        None => None,
        Some(n) => {
            if n <= u64::from(days) {
                Some(row_after(row, day, n as u32))
            } else {
                None
            }
        }
    }
}

// The rows that are reached within so many days, in their order.
fn rows_within(
    alloc: Global,
    all: &[DueRow],
    day: Day,
    days: u32,
    minutes: u32,
    cycles: u32,
) -> Result<Vec<ForecastRow>, AllocError>
    ensures { IfOk result
        (λ rows. rows.items ≡ filter_map (forecast_row day days minutes cycles) all.now) }
{
    all.iter()
        .filter_map(|row| row_within(row, day, days, minutes, cycles))
        .collect(alloc)
}

/// The rows of an aircraft with these open defects that are reached so far ahead: by the number of days, those of one
/// number by place.
pub(crate) fn rows_reached<R: ListRecords>(
    records: &mut R,
    alloc: Global,
    tail: &Tail,
    kind: &Kind,
    ahead: &Ahead,
    defects: &[Defect],
) -> Result<Rows<ForecastRow>, Stop<R::Fault>>
    ensures { Gathers R.reading records.old records.new result
        (λ book. in_order sooner (filter_map
        (forecast_row ahead.now.day ahead.now.days ahead.now.minutes ahead.now.cycles)
        (rows_placed book tail.now kind.now ahead.now.day defects.now))) }
{
    let all = placed_rows(records, alloc, tail, kind, ahead.day, defects)?;
    let reached = rows_within(
        alloc,
        all.as_slice(),
        ahead.day,
        ahead.days,
        ahead.minutes,
        ahead.cycles,
    )?;
    let rows = sorted(reached)?;
    Ok(rows)
}

/// The forecast of an aircraft from a day on, or `None` where the registration is unknown. Or why it stopped: memory
/// ran out, or a question was not answered.
pub fn list_forecast<R: ListRecords>(
    records: &mut R,
    alloc: Global,
    tail: &Tail,
    day: Day,
    days: u32,
    minutes: u32,
    cycles: u32,
) -> Result<Option<ForecastList>, Stop<R::Fault>>
    ensures { Gathers R.reading records.old records.new result
        (λ book. forecast book tail.now day days minutes cycles) }
{
    let Some(aircraft) = aircraft_of(records, tail)? else {
        return Ok(None);
    };
    let ahead = Ahead {
        day,
        days,
        minutes,
        cycles,
    };
    let defects = records.open_defects(alloc, tail)?;
    let rows = rows_reached(
        records,
        alloc,
        tail,
        &aircraft.kind,
        &ahead,
        defects.as_slice(),
    )?;
    Ok(Some(ForecastList {
        tail: *tail,
        day,
        days,
        minutes,
        cycles,
        rows,
    }))
}
