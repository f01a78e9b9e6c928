//! The questions for a list of an aircraft or of all that the words of a case ask.

use crate::commands::Unmade;
use mx_base::{Day, Tail};
use mx_lists::Question;

/// The question for a list that words ask, if they ask for one: `life TAIL`, `due TAIL DAY`, `limits TAIL DAY`,
/// `forecast TAIL DAY DAYS MINUTES CYCLES`, `fleet DAY`, `outlook DAY DAYS MINUTES CYCLES`, `aircraft`, `components` or
/// `deferred DAY`.
pub fn question_of(words: &[&str]) -> Result<Option<Question>, Unmade> {
    let question = match words {
        ["life", tail] => Question::Life(Tail::read(tail)?),
        ["due", tail, day] => Question::Due(Tail::read(tail)?, Day::read(day)?),
        ["forecast", tail, day, days, minutes, cycles] => Question::Forecast {
            tail: Tail::read(tail)?,
            day: Day::read(day)?,
            days: days.parse::<u32>()?,
            minutes: minutes.parse::<u32>()?,
            cycles: cycles.parse::<u32>()?,
        },
        ["limits", tail, day] => Question::Limits(Tail::read(tail)?, Day::read(day)?),
        ["fleet", day] => Question::Fleet(Day::read(day)?),
        ["outlook", day, days, minutes, cycles] => Question::Outlook {
            day: Day::read(day)?,
            days: days.parse::<u32>()?,
            minutes: minutes.parse::<u32>()?,
            cycles: cycles.parse::<u32>()?,
        },
        ["aircraft"] => Question::Aircraft,
        ["components"] => Question::Components,
        ["deferred", day] => Question::Deferred(Day::read(day)?),
        _ => return Ok(None),
    };
    Ok(Some(question))
}
