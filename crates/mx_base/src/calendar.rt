//! The calendar: dates by their parts, and the day numbers that count them from 1970-01-01.
//!
//! The definition counts days by their successor. `jiff` has no number of a day in its public calls, so the code counts
//! by the plain dates of `jiff_core`, which is listed beside `jiff` for this.
ghost use Rattle.std.specs.Prelude.{◌≡◌, ◌≢◌, ℕ, ◌+◌, ◌*◌, ◌/◌, ◌%◌, ◌<◌, ◌≤◌, ◌↔◌, ◌++◌, pos, ◌+ℤ◌, length, IfSome, IfNone, IsSome, Some};
ghost use Rattle.jiff_core.specs.Date.{epoch_day};
ghost use Rattle.mx_base.specs.Calendar.{date_of, last_day, HasSmallParts, IsDayOf};

use crate::days::LAST_DAY;
use jiff::civil;
use jiff_core::civil::Date as Plain;

/// A date of the proleptic Gregorian calendar by its parts.
#[derive(Clone, Copy, Debug, PartialEq, Eq)]
pub struct CivilDate {
    /// 1970 to 2199 in the date of a `Day`.
    pub year: u16,
    /// 1 to 12.
    pub month: u8,
    /// 1 to the length of the month.
    pub day: u8,
}

/// The date of a day number.
pub(crate) fn date_of_day(number: u32) -> CivilDate
    requires { number ≤ last_day }
    ensures value { result ≡ date_of number }
    ensures calendar { IsDayOf result number }
    ensures small { HasSmallParts result }
{
    let date = date_after_epoch(number);
    CivilDate {
        year: date.year as u16,
        month: date.month,
        day: date.day,
    }
}

/// The day number of a date from 1970-01-01 to 2199-12-31.
pub(crate) fn day_of_date(date: CivilDate) -> Option<u32>
    requires { HasSmallParts date }
    ensures some { IfSome result (λ n. (n ≤ last_day) × (date_of n ≡ date) × IsDayOf date n) }
    ensures none { IfNone result ((n : ℕ) → n ≤ last_day → date_of n ≢ date) }
{
    match civil::Date::new(date.year as i16, date.month as i8, date.day as i8) {
        Ok(found) => days_after_epoch(found.to_plain()),
        Err(_) => None,
    }
}

fn date_after_epoch(days: u32) -> Plain
    requires { days ≤ last_day }
    ensures { epoch_day result ≡ pos days }
{
    Plain::from_unix_epoch_day(days as i64).unwrap()
}

fn days_after_epoch(date: Plain) -> Option<u32>
    ensures some { IfSome result (λ n. (n ≤ last_day) × (epoch_day date ≡ pos n)) }
    ensures none { IfNone result ((n : ℕ) → n ≤ last_day → epoch_day date ≢ pos n) }
{
    let days = date.to_unix_epoch_day();
    if days < 0 || days > LAST_DAY as i32 {
        return None;
    }
    Some(days as u32)
}
