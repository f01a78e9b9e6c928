//! Days of the records: UTC days from 1970-01-01 to 2199-12-31.
ghost use Rattle.std.specs.Prelude.{◌≡◌, ◌≢◌, ℕ, ◌+◌, ◌≤◌, ◌↔◌, IsSome, IfSome, IfNone, IfOk, OnErr};
ghost use Rattle.mx_base.specs.Calendar.{last_day, date_of, IsDayOf};
ghost use Rattle.mx_base.specs.Texts.{day_text};

use crate::calendar::{CivilDate, date_of_day, day_of_date};
use crate::identifiers::BadText;
use crate::texts::{date_bytes, read_date};
use std::marker::Model;

/// The number of 2199-12-31, the last day.
pub const LAST_DAY: u32 = 84_005;

/// A UTC day from 1970-01-01 to 2199-12-31. Contracts see it as its number: 0 is 1970-01-01.
#[derive(Clone, Copy, Debug, PartialEq, Eq, PartialOrd, Ord)]
pub struct Day {
    number: u32,
}

impl Model for Day {
    ghost use Rattle.std.specs.Prelude.{ℕ, ◌≤◌};
    ghost use Rattle.mx_base.specs.declared.days.TheConstants.{LAST_DAY};

    ghost Value = { ℕ };

    ghost view = { λ d. d.number };

    ghost invariant = { λ d. d.number ≤ LAST_DAY };

    ghost inverse = { λ n. record { number = n } };
}

impl Day {
    /// The day with that number, or `None` past 2199-12-31.
    pub fn of_number(number: u32) -> Option<Day>
        ensures some { IsSome result ↔ (number ≤ last_day) }
        ensures value { IfSome result (λ day. day ≡ number) }
    {
        if number > LAST_DAY {
            return None;
        }
        Some(Day { number })
    }

    /// How many days after 1970-01-01 it is.
    pub fn number(self) -> u32
        ensures value { result ≡ self }
        ensures bound { self ≤ last_day }
    {
        self.number
    }

    /// The date of the day, which `jiff`'s calendar has too, as many days after 1970-01-01.
    pub fn date(self) -> CivilDate
        ensures value { result ≡ date_of self }
        ensures calendar { IsDayOf result self }
    {
        date_of_day(self.number)
    }

    /// The day that a text `YYYY-MM-DD` names. `BadText` for any other text: of another length, with
    /// other characters than digits and `-` in their places, or with a date that the calendar lacks or
    /// that is before 1970-01-01 or past 2199-12-31.
    pub fn read(text: &str) -> Result<Day, BadText>
        ensures ok { IfOk result (λ d. (d ≤ last_day) × (day_text d ≡ text.now)) }
        ensures only { IfOk result (λ d. (e : ℕ) → e ≤ last_day → day_text e ≡ text.now → e ≡ d) }
        ensures err { OnErr result ((d : ℕ) → d ≤ last_day → day_text d ≢ text.now) }
    {
        match read_day(text.as_bytes()) {
            Some(number) => Ok(Day { number }),
            None => Err(BadText),
        }
    }
}

/// The day that many days later, or `None` past 2199-12-31.
pub fn plus_days(day: Day, days: u32) -> Option<Day>
    ensures some { IsSome result ↔ (day + days ≤ last_day) }
    ensures value { IfSome result (λ later. later ≡ day + days) }
{
    if days > LAST_DAY - day.number {
        return None;
    }
    Some(Day {
        number: day.number + days,
    })
}

/// The day number that the bytes of `YYYY-MM-DD` name.
#[tactic(auto, unfolding(crate::specs::Texts::day_text))]
pub(crate) fn read_day(text: &[u8]) -> Option<u32>
    ensures some { IfSome result (λ d. (d ≤ last_day) × (day_text d ≡ text.now)) }
    ensures none { IfNone result ((d : ℕ) → d ≤ last_day → day_text d ≢ text.now) }
{
    day_of_date(read_date(text)?)
}

/// The text of a day, `YYYY-MM-DD`.
#[tactic(auto, unfolding(crate::specs::Texts::day_text))]
pub(crate) fn day_bytes(day: Day) -> [u8; 10]
    ensures { result ≡ day_text day }
{
    date_bytes(day.date())
}
