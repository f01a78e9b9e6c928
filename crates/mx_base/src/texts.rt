//! The exact texts of dates and times, read and written.
ghost use Rattle.std.specs.Prelude.{◌≡◌, ◌≢◌, ℕ, ◌<◌, List, [], ◌∷◌, length, IfSome, IfNone};
ghost use Rattle.mx_base.specs.declared.calendar.CivilDate.{CivilDate as Civil};
ghost use Rattle.mx_base.specs.Calendar.{HasSmallParts};
ghost use Rattle.mx_base.specs.Texts.{two_digits, date_text, clock_text};

use crate::calendar::CivilDate;

/// The number that two digits write.
pub(crate) fn read_pair(tens: u8, ones: u8) -> Option<u8>
    ensures some { IfSome result (λ n. (n < 100) × (two_digits n ≡ tens ∷ ones ∷ [])) }
    ensures none { IfNone result ((n : ℕ) → n < 100 → two_digits n ≢ tens ∷ ones ∷ []) }
{
    if tens < b'0' || tens > b'9' || ones < b'0' || ones > b'9' {
        return None;
    }
    Some((tens - b'0') * 10 + (ones - b'0'))
}

/// The date that `YYYY-MM-DD` writes, whether the calendar has it or not.
pub(crate) fn read_date(text: &[u8]) -> Option<CivilDate>
    ensures some { IfSome result (λ d. HasSmallParts d × (date_text d ≡ text.now)) }
    ensures none { IfNone result ((d : Civil) → HasSmallParts d → date_text d ≢ text.now) }
{
    if text.len() != 10 || text[4] != b'-' || text[7] != b'-' {
        return None;
    }
    let century = read_pair(text[0], text[1])?;
    let year = read_pair(text[2], text[3])?;
    let month = read_pair(text[5], text[6])?;
    let day = read_pair(text[8], text[9])?;
    Some(CivilDate {
        year: century as u16 * 100 + year as u16,
        month,
        day,
    })
}

/// The minute of the day that `HH:MM` writes.
pub(crate) fn read_clock(text: &[u8]) -> Option<u16>
    ensures some { IfSome result (λ m. (m < 1440) × (clock_text m ≡ text.now)) }
    ensures none { IfNone result ((m : ℕ) → m < 1440 → clock_text m ≢ text.now) }
{
    if text.len() != 5 || text[2] != b':' {
        return None;
    }
    let hour = read_pair(text[0], text[1])?;
    let minute = read_pair(text[3], text[4])?;
    if hour > 23 || minute > 59 {
        return None;
    }
    Some(hour as u16 * 60 + minute as u16)
}

/// `YYYY-MM-DD`.
pub(crate) fn date_bytes(date: CivilDate) -> [u8; 10]
    requires { HasSmallParts date }
    ensures { result ≡ date_text date }
{
    let century = (date.year / 100) as u8;
    let year = (date.year % 100) as u8;
    [
        b'0' + century / 10,
        b'0' + century % 10,
        b'0' + year / 10,
        b'0' + year % 10,
        b'-',
        b'0' + date.month / 10,
        b'0' + date.month % 10,
        b'-',
        b'0' + date.day / 10,
        b'0' + date.day % 10,
    ]
}

/// `HH:MM`.
pub(crate) fn clock_bytes(minute: u16) -> [u8; 5]
    requires { minute < 1440 }
    ensures { result ≡ clock_text minute }
{
    let hour = (minute / 60) as u8;
    let rest = (minute % 60) as u8;
    [
        b'0' + hour / 10,
        b'0' + hour % 10,
        b':',
        b'0' + rest / 10,
        b'0' + rest % 10,
    ]
}
