//! The words of a deferred defect, appended.
//!
//! A row has its last day as a number that could be less than nothing, and its letter as any character. No book gives
//! such a row, and its bytes are said all the same: the size of the number as a day, and the letter in UTF-8.
ghost use Rattle.std.specs.Prelude.{◌≡◌, ◌++◌, OnOk, OnErr, encode_utf8, unsigned_abs};
ghost use Rattle.mx_base.specs.Texts.{day_number_text};
ghost use Rattle.mx_reports.specs.DefectText.{defect_words, until_line};
ghost use Rattle.mx_reports.specs.Words.{spaced, StartsWith};

use crate::words::{append_signed, append_word};
use mx_base::{Doc, MelRef, print_day_number};
use std::alloc::AllocError;

fn append_letter(out: &mut Vec<u8>, letter: char) -> Result<(), AllocError>
    ensures words { OnOk result (out.new.items ≡ out.old.items ++ spaced (encode_utf8 letter)) }
    ensures kept { OnErr result (StartsWith out.old.items out.new.items) }
{
    let mut bytes = [0; 4];
    append_word(out, letter.encode_utf8(&mut bytes).as_bytes())
}

#[tactic(auto, using(crate::proofs::StartsLemmas::starts_further), unfolding(crate::specs::DefectText::defect_words))]
pub(crate) fn append_defect(
    out: &mut Vec<u8>,
    doc: &Doc,
    letter: char,
    reference: &MelRef,
) -> Result<(), AllocError>
    ensures words { OnOk result (out.new.items
        ≡ out.old.items ++ defect_words doc.now letter reference.now) }
    ensures kept { OnErr result (StartsWith out.old.items out.new.items) }
{
    append_word(out, doc.as_str().as_bytes())?;
    append_letter(out, letter)?;
    append_word(out, reference.as_str().as_bytes())
}

// The day with a number that is never negative, or `later`.
pub(crate) fn append_day_number(out: &mut Vec<u8>, day: i64) -> Result<(), AllocError>
    ensures words { OnOk result (out.new.items
        ≡ out.old.items ++ day_number_text (unsigned_abs day)) }
    ensures unchanged { OnErr result (out.new.items ≡ out.old.items) }
{
    let number = u32::try_from(day.unsigned_abs()).unwrap_or(u32::MAX);
    print_day_number(out, number)
}

#[tactic(auto, using(crate::proofs::StartsLemmas::starts_further), unfolding(crate::specs::DefectText::until_line))]
pub(crate) fn append_until(out: &mut Vec<u8>, last: i64, left: i64) -> Result<(), AllocError>
    ensures words { OnOk result (out.new.items ≡ out.old.items ++ until_line last left) }
    ensures kept { OnErr result (StartsWith out.old.items out.new.items) }
{
    out.extend_from_slice(b" last=")?;
    append_day_number(out, last)?;
    out.extend_from_slice(b" left=")?;
    append_signed(out, left)?;
    out.extend_from_slice(b"\n")
}
