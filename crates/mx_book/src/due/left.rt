//! What is left until a due.
ghost use Rattle.std.specs.Prelude.{◌≡◌};
ghost use Rattle.std.specs.Option.{option_map};
ghost use Rattle.mx_book.specs.due.Left.{left_until, left_of, is_reached, is_used_up};

use mx_base::{Day, Left, Limit, Use};

// What is left of a number until a due, where there is one.
fn left_in(now: u32, due: Option<u32>) -> Option<i64>
    ensures { result ≡ option_map (left_until now) due }
{
    match due {
        Some(due) => Some(i64::from(due) - i64::from(now)),
        None => None,
    }
}

/// What is left until a due at this use and day, in each dimension that has one: negative once the due is passed.
pub fn left_of(due: &Limit, life: &Use, day: Day) -> Left
    ensures { result ≡ left_of due.now life.now day }
{
    Left {
        minutes: left_in(life.minutes, due.minutes),
        cycles: left_in(life.cycles, due.cycles),
        days: left_in(day.number(), due.days),
    }
}

// Whether there is a due in a dimension, and nothing left until it.
fn is_reached(left: Option<i64>) -> bool
    ensures { result ≡ is_reached left }
{
    match left {
        Some(left) => left <= 0,
        None => false,
    }
}

/// Whether nothing is left in some dimension.
pub fn is_used_up(left: &Left) -> bool
    ensures { result ≡ is_used_up left.now }
{
    is_reached(left.minutes) || is_reached(left.cycles) || is_reached(left.days)
}
