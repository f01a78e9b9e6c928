//! Words and line ends, appended. Where memory runs out, what was there before is there still, with some words
//! behind it.
ghost use Rattle.std.specs.Prelude.{◌≡◌, ◌++◌, [], ◌∷◌, OnOk, OnErr};
ghost use Rattle.std.specs.Fmt.{decimal, signed_decimal};
ghost use Rattle.mx_base.specs.Texts.{day_text, moment_text};
ghost use Rattle.mx_reports.specs.Words.{spaced, status_word, use_words, end_line, StartsWith};

use itoa::Buffer;
use mx_base::{Day, Moment, Status, Use, print_day, print_hours, print_moment};
use std::alloc::AllocError;

#[tactic(auto, unfolding(crate::specs::Words::status_word))]
pub(crate) fn append_status(out: &mut Vec<u8>, status: Status) -> Result<(), AllocError>
    ensures words { OnOk result (out.new.items ≡ out.old.items ++ status_word status) }
    ensures unchanged { OnErr result (out.new.items ≡ out.old.items) }
{
    match status {
        Status::Overdue => out.extend_from_slice(b"OVERDUE"),
        Status::Due => out.extend_from_slice(b"DUE"),
        Status::Ok => out.extend_from_slice(b"OK"),
    }
}

pub(crate) fn append_word(out: &mut Vec<u8>, word: &[u8]) -> Result<(), AllocError>
    ensures words { OnOk result (out.new.items ≡ out.old.items ++ spaced word.now) }
    ensures kept { OnErr result (StartsWith out.old.items out.new.items) }
{
    out.push(b' ')?;
    out.extend_from_slice(word)
}

pub(crate) fn append_count(out: &mut Vec<u8>, number: usize) -> Result<(), AllocError>
    ensures words { OnOk result (out.new.items ≡ out.old.items ++ decimal number) }
    ensures unchanged { OnErr result (out.new.items ≡ out.old.items) }
{
    let mut buffer = Buffer::new();
    out.extend_from_slice(buffer.format(number).as_bytes())
}

pub(crate) fn append_number(out: &mut Vec<u8>, number: usize) -> Result<(), AllocError>
    ensures words { OnOk result (out.new.items ≡ out.old.items ++ spaced (decimal number)) }
    ensures kept { OnErr result (StartsWith out.old.items out.new.items) }
{
    out.push(b' ')?;
    append_count(out, number)
}

pub(crate) fn append_signed(out: &mut Vec<u8>, number: i64) -> Result<(), AllocError>
    ensures words { OnOk result (out.new.items ≡ out.old.items ++ signed_decimal number) }
    ensures unchanged { OnErr result (out.new.items ≡ out.old.items) }
{
    let mut buffer = Buffer::new();
    out.extend_from_slice(buffer.format(number).as_bytes())
}

pub(crate) fn append_day(out: &mut Vec<u8>, day: Day) -> Result<(), AllocError>
    ensures words { OnOk result (out.new.items ≡ out.old.items ++ spaced (day_text day)) }
    ensures kept { OnErr result (StartsWith out.old.items out.new.items) }
{
    out.push(b' ')?;
    print_day(out, day)
}

pub(crate) fn append_moment(out: &mut Vec<u8>, moment: Moment) -> Result<(), AllocError>
    ensures words { OnOk result (out.new.items ≡ out.old.items ++ spaced (moment_text moment)) }
    ensures kept { OnErr result (StartsWith out.old.items out.new.items) }
{
    out.push(b' ')?;
    print_moment(out, moment)
}

pub(crate) fn append_use(out: &mut Vec<u8>, life: &Use) -> Result<(), AllocError>
    ensures words { OnOk result (out.new.items ≡ out.old.items ++ use_words life.now) }
    ensures kept { OnErr result (StartsWith out.old.items out.new.items) }
{
    out.push(b' ')?;
    print_hours(out, i64::from(life.minutes))?;
    append_number(out, life.cycles as usize)
}

pub(crate) fn append_end(out: &mut Vec<u8>, rows: usize) -> Result<(), AllocError>
    ensures words { OnOk result (out.new.items ≡ out.old.items ++ end_line rows) }
    ensures kept { OnErr result (StartsWith out.old.items out.new.items) }
{
    out.extend_from_slice(b"end")?;
    append_number(out, rows)?;
    out.extend_from_slice(b"\n")
}
