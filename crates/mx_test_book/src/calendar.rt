//! Questions on days, moments and hours. A text that is read is also printed again, and its number gives it back.

use crate::shown::day_text;
use mx_base::{Day, Moment, day_of, plus_days, print_day_number, print_hours, print_moment};
use mx_test_cases::{
    AnswerText, Unmade, append_number, append_word, begin_print, number_text, printed, text_of,
};
use std::alloc::{AllocError, Global};

// The text of the day with a number, as it is printed.
fn text_of_number(alloc: Global, number: u32) -> Result<String, AllocError> {
    let mut out = begin_print(alloc)?;
    let done = print_day_number(&mut out, number);
    printed(alloc, &out, done)
}

fn moment_text(alloc: Global, moment: Moment) -> Result<String, AllocError> {
    let mut out = begin_print(alloc)?;
    let done = print_moment(&mut out, moment);
    printed(alloc, &out, done)
}

fn hours_text(alloc: Global, minutes: i64) -> Result<String, AllocError> {
    let mut out = begin_print(alloc)?;
    let done = print_hours(&mut out, minutes);
    printed(alloc, &out, done)
}

// day TEXT: the number of the day that a text names.
fn day(alloc: Global, word: &str) -> AnswerText {
    let text = text_of(alloc, word)?;
    let Ok(day) = Day::read(text.as_str()) else {
        return Ok(String::from_str(alloc, "no day")?);
    };
    let number = day.number();
    if Day::of_number(number) != Some(day) {
        return Ok(String::from_str(alloc, "its number gives another day")?);
    }
    let again = day_text(alloc, day)?;
    if again.as_str() != text.as_str() {
        return Ok(again);
    }
    Ok(number_text(alloc, number)?)
}

// day-number N: the day with that number as it is printed.
fn day_number(alloc: Global, word: &str) -> AnswerText {
    let number = word.parse::<u32>()?;
    let text = text_of_number(alloc, number)?;
    let is_later = text.as_str() == "later";
    if Day::of_number(number).is_none() != is_later {
        return Ok(String::from_str(alloc, "of_number has it otherwise")?);
    }
    Ok(text)
}

// date TEXT: the year, month and day of a day.
fn date(alloc: Global, word: &str) -> AnswerText {
    let date = Day::read(word)?.date();
    let mut text = number_text(alloc, u32::from(date.year))?;
    append_number(&mut text, u32::from(date.month))?;
    append_number(&mut text, u32::from(date.day))?;
    Ok(text)
}

// plus TEXT DAYS: the day that many days later.
fn plus(alloc: Global, word: &str, days: &str) -> AnswerText {
    let day = Day::read(word)?;
    match plus_days(day, days.parse::<u32>()?) {
        Some(later) => Ok(day_text(alloc, later)?),
        None => Ok(String::from_str(alloc, "none")?),
    }
}

// moment TEXT: the number of the moment that a text names.
fn moment(alloc: Global, word: &str) -> AnswerText {
    let text = text_of(alloc, word)?;
    let Ok(moment) = Moment::read(text.as_str()) else {
        return Ok(String::from_str(alloc, "no moment")?);
    };
    let number = moment.number();
    if Moment::of_number(number) != Some(moment) {
        return Ok(String::from_str(alloc, "its number gives another moment")?);
    }
    let again = moment_text(alloc, moment)?;
    if again.as_str() != text.as_str() || moment.text().as_str() != text.as_str() {
        return Ok(again);
    }
    let day = day_text(alloc, day_of(moment))?;
    let mut answer = number_text(alloc, number)?;
    append_word(&mut answer, "on")?;
    append_word(&mut answer, day.as_str())?;
    Ok(answer)
}

// moment-number N: the moment with that number.
fn moment_number(alloc: Global, word: &str) -> AnswerText {
    match Moment::of_number(word.parse::<u32>()?) {
        Some(moment) => Ok(moment_text(alloc, moment)?),
        None => Ok(String::from_str(alloc, "none")?),
    }
}

// hours MINUTES: an amount of minutes as hours.
fn hours(alloc: Global, word: &str) -> AnswerText {
    Ok(hours_text(alloc, word.parse::<i64>()?)?)
}

/// The answer to a question on days, moments or hours, or `None` where it is none.
pub fn answer(alloc: Global, words: &[&str]) -> Result<Option<String>, Unmade> {
    let answer = match words {
        ["day", text] => day(alloc, text),
        ["day-number", number] => day_number(alloc, number),
        ["date", text] => date(alloc, text),
        ["plus", text, days] => plus(alloc, text, days),
        ["moment", text] => moment(alloc, text),
        ["moment-number", number] => moment_number(alloc, number),
        ["hours", minutes] => hours(alloc, minutes),
        _ => return Ok(None),
    };
    Ok(Some(answer?))
}
