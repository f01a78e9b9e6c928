//! The limits of a task, and its tolerance.
//!
//! `{}` is a limit that can be read: as `first` or `repeat` it has no shape (65), and as `tolerance` it is the
//! tolerance that an absent one is. A dimension of 0 is no shape of a limit, and no tolerance in that dimension. Hours
//! whose minutes are past 4,294,967,295 can't be read (63), as a number past it, and are not told as minutes past the
//! most of a limit (65).
ghost use Rattle.std.specs.Prelude.{◌≡◌, option_and_then};
ghost use Rattle.toml.specs.Data.{get};
ghost use Rattle.toml.specs.View.{view};
ghost use Rattle.mx_intake.specs.Keys.{if_there};
ghost use Rattle.mx_intake.specs.Tasks.{minutes_of_hours, minutes_of, limit_of_table, limit_of, tolerance_of, limit_has_other_key, has_other_limit_key};

use crate::table::{has_other, number_if_there, number_of};
use mx_base::{Limit, Tolerance};
use toml::Value;

/// The minutes of so many hours.
fn minutes_of_hours(hours: u32) -> Option<u32>
    ensures { result ≡ minutes_of_hours hours }
{
    hours.checked_mul(60)
}

/// The minutes that a value states in hours.
fn minutes_of(value: &Value) -> Option<u32>
    ensures { result ≡ minutes_of (view value.now) }
{
    let hours = number_of(value)?;
    minutes_of_hours(hours)
}

/// The limit that a table states.
fn limit_of_table(table: &Value) -> Option<Limit>
    ensures { result ≡ limit_of_table (view table.now) }
{
    let hours = table.get("hours");
    Some(Limit {
        minutes: hours.map_or(Some(None), |hours| minutes_of(hours).map(Some))?,
        cycles: number_if_there(table, "cycles")?,
        days: number_if_there(table, "days")?,
    })
}

/// The limit that a value states, where it is a table.
fn limit_of(value: &Value) -> Option<Limit>
    ensures { result ≡ limit_of (view value.now) }
{
    if value.is_table() {
        limit_of_table(value)
    } else {
        None
    }
}

/// The limit at a key.
pub(crate) fn limit_at(table: &Value, key: &str) -> Option<Limit>
    ensures { result ≡ option_and_then limit_of (get key.now (view table.now)) }
{
    limit_of(table.get(key)?)
}

/// The limit at a key that may be absent.
pub(crate) fn limit_if_there(table: &Value, key: &str) -> Option<Option<Limit>>
    ensures { result ≡ if_there limit_of (get key.now (view table.now)) }
{
    let value = table.get(key);
    value.map_or(Some(None), |value| limit_of(value).map(Some))
}

/// The tolerance that is stated as a limit, if it is stated.
pub(crate) fn tolerance_of(limit: Option<Limit>) -> Tolerance
    ensures { result ≡ tolerance_of limit }
{
    match limit {
        Some(limit) => Tolerance {
            minutes: limit.minutes.unwrap_or(0),
            cycles: limit.cycles.unwrap_or(0),
            days: limit.days.unwrap_or(0),
        },
        None => Tolerance {
            minutes: 0,
            cycles: 0,
            days: 0,
        },
    }
}

/// Whether the limit at a key has another key than those of a limit.
fn limit_has_other_key(table: &Value, key: &str) -> bool
    ensures { result ≡ limit_has_other_key key.now (view table.now) }
{
    let limit = table.get(key);
    limit.is_some_and(|limit| has_other(limit, &["hours", "cycles", "days"]))
}

/// Whether one of the limits of a task has another key than those of a limit.
pub(crate) fn have_other_key(task: &Value) -> bool
    ensures { result ≡ has_other_limit_key (view task.now) }
{
    limit_has_other_key(task, "first")
        || limit_has_other_key(task, "repeat")
        || limit_has_other_key(task, "tolerance")
}
