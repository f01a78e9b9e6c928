//! The question that texts ask for a list of an aircraft or of all, as the parts of a path and the words of a command line do.
ghost use Rattle.std.specs.Prelude.{◌≡◌};
ghost use Rattle.mx_output.specs.questions.Asking.{deferred_question, due_question, fleet_question, forecast_question, is_in_reach, life_question, limits_question, outlook_question};

use mx_intake::{read_day, read_identifier};
use mx_lists::{MOST_CYCLES, MOST_DAYS, MOST_MINUTES, Question};

/// The question for the life of an aircraft, or `None` where the text is no registration.
pub fn life_question(tail: &str) -> Option<Question>
    ensures { result ≡ life_question tail.now }
{
    let tail = read_identifier(tail)?;
    Some(Question::Life(tail))
}

/// The question for what is due on an aircraft on a day, or `None` where a text can't be read.
pub fn due_question(tail: &str, day: &str) -> Option<Question>
    ensures { result ≡ due_question tail.now day.now }
{
    let tail = read_identifier(tail)?;
    let day = read_day(day)?;
    Some(Question::Due(tail, day))
}

/// The question for the limits of an aircraft on a day, or `None` where a text can't be read.
pub fn limits_question(tail: &str, day: &str) -> Option<Question>
    ensures { result ≡ limits_question tail.now day.now }
{
    let tail = read_identifier(tail)?;
    let day = read_day(day)?;
    Some(Question::Limits(tail, day))
}

// Whether a forecast looks so far ahead, at so many minutes and cycles a day.
fn is_in_reach(days: u32, minutes: u32, cycles: u32) -> bool
    ensures { result ≡ is_in_reach days minutes cycles }
{
    days <= MOST_DAYS && minutes <= MOST_MINUTES && cycles <= MOST_CYCLES
}

/// The question for the forecast of an aircraft from a day on, at so many minutes and cycles a day, or `None` where a text
/// can't be read or a number is past the greatest that a forecast takes.
pub fn forecast_question(
    tail: &str,
    day: &str,
    days: u32,
    minutes: u32,
    cycles: u32,
) -> Option<Question>
    ensures { result ≡ forecast_question tail.now day.now days minutes cycles }
{
    let tail = read_identifier(tail)?;
    let day = read_day(day)?;
    if !is_in_reach(days, minutes, cycles) {
        return None;
    }
    Some(Question::Forecast {
        tail,
        day,
        days,
        minutes,
        cycles,
    })
}

/// The question for what is due on all aircraft on a day, or `None` where the text can't be read.
pub fn fleet_question(day: &str) -> Option<Question>
    ensures { result ≡ fleet_question day.now }
{
    let day = read_day(day)?;
    Some(Question::Fleet(day))
}

/// The question for the limits of all aircraft on a day, or `None` where the text can't be read.
pub fn deferred_question(day: &str) -> Option<Question>
    ensures { result ≡ deferred_question day.now }
{
    let day = read_day(day)?;
    Some(Question::Deferred(day))
}

/// The question for what will be due on all aircraft from a day on, each flown so many minutes and cycles a day, or `None`
/// where the text can't be read or a number is past the greatest that a forecast takes.
pub fn outlook_question(day: &str, days: u32, minutes: u32, cycles: u32) -> Option<Question>
    ensures { result ≡ outlook_question day.now days minutes cycles }
{
    let day = read_day(day)?;
    if !is_in_reach(days, minutes, cycles) {
        return None;
    }
    Some(Question::Outlook {
        day,
        days,
        minutes,
        cycles,
    })
}
