//! Printers: each appends exact bytes to a vector, and leaves its items as they were where memory runs
//! out.
//!
//! `itoa` writes a number into a buffer on the stack, so memory is asked for only where the vector grows. A text of
//! several parts is appended part by part, and cut off again where memory runs out; room that was reserved by then
//! stays, and is no part of the promise.
ghost use Rattle.std.specs.Prelude.{◌≡◌, ◌≤◌, ◌++◌, take, length, IsOk, OnOk, OnErr, vec_len};
ghost use Rattle.mx_base.specs.Texts.{day_text, day_number_text, moment_text, hours_text};

use crate::days::{Day, day_bytes};
use crate::moments::Moment;
use itoa::Buffer;
use std::alloc::AllocError;

/// Appends a day as `YYYY-MM-DD`.
pub fn print_day(out: &mut Vec<u8>, day: Day) -> Result<(), AllocError>
    ensures printed { OnOk result (out.new.items ≡ out.old.items ++ day_text day) }
    ensures unchanged { OnErr result (out.new.items ≡ out.old.items) }
{
    out.extend_from_slice(&day_bytes(day))
}

/// Appends the day with that number as `YYYY-MM-DD`, or `later` where it is past 2199-12-31.
pub fn print_day_number(out: &mut Vec<u8>, number: u32) -> Result<(), AllocError>
    ensures printed { OnOk result (out.new.items ≡ out.old.items ++ day_number_text number) }
    ensures unchanged { OnErr result (out.new.items ≡ out.old.items) }
{
    match Day::of_number(number) {
        Some(day) => print_day(out, day),
        None => out.extend_from_slice(b"later"),
    }
}

/// Appends a moment as `YYYY-MM-DDTHH:MM`.
pub fn print_moment(out: &mut Vec<u8>, moment: Moment) -> Result<(), AllocError>
    ensures printed { OnOk result (out.new.items ≡ out.old.items ++ moment_text moment) }
    ensures unchanged { OnErr result (out.new.items ≡ out.old.items) }
{
    out.extend_from_slice(moment.text().as_str().as_bytes())
}

/// Appends an amount of minutes as hours, `H:MM`, with `-` in front of a negative one: 2910 is `48:30`
/// and -1 is `-0:01`.
pub fn print_hours(out: &mut Vec<u8>, minutes: i64) -> Result<(), AllocError>
    ensures printed { OnOk result (out.new.items ≡ out.old.items ++ hours_text minutes) }
    ensures unchanged { OnErr result (out.new.items ≡ out.old.items) }
{
    let amount = minutes.unsigned_abs();
    let mut buffer = Buffer::new();
    let hours = buffer.format(amount / 60).as_bytes();
    let rest = (amount % 60) as u8;
    let clock = [b':', b'0' + rest / 10, b'0' + rest % 10];
    if minutes < 0 {
        append(out, b"-", hours, &clock)
    } else {
        append(out, b"", hours, &clock)
    }
}

// Appends three texts, or none of them.
fn append(out: &mut Vec<u8>, first: &[u8], middle: &[u8], last: &[u8]) -> Result<(), AllocError>
    ensures printed { OnOk result (out.new.items
        ≡ out.old.items ++ (first.now ++ (middle.now ++ last.now))) }
    ensures unchanged { OnErr result (out.new.items ≡ out.old.items) }
{
    let len = out.len();
    let done = append_all(out, first, middle, last);
    if done.is_err() {
        out.truncate(len);
    }
    done
}

// Appends three texts, or as many as there was memory for.
fn append_all(out: &mut Vec<u8>, first: &[u8], middle: &[u8], last: &[u8]) -> Result<(), AllocError>
    ensures printed { OnOk result (out.new.items
        ≡ out.old.items ++ (first.now ++ (middle.now ++ last.now))) }
    ensures kept { OnErr result (take (vec_len out.old) out.new.items ≡ out.old.items) }
{
    out.extend_from_slice(first)?;
    out.extend_from_slice(middle)?;
    out.extend_from_slice(last)
}
