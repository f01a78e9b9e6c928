//! The text of a reply.
ghost use Rattle.std.specs.Prelude.{◌≡◌, ◌++◌, [], ◌∷◌, codes, OnOk, OnErr};
ghost use Rattle.std.specs.Fmt.{decimal};
ghost use Rattle.mx_reports.specs.Words.{spaced, StartsWith};
ghost use Rattle.mx_reports.specs.ReplyText.{refusal_words, carried_words, reply_line};

use crate::text::{Text, append_whole};
use crate::words::{append_day, append_moment, append_number};
use mx_book::{Refusal, Reply};
use std::alloc::AllocError;

// What a refusal carries beside its number.
fn append_carried(out: &mut Vec<u8>, refusal: &Refusal) -> Result<(), AllocError>
    ensures words { OnOk result (out.new.items ≡ out.old.items ++ carried_words refusal.now) }
    ensures kept { OnErr result (StartsWith out.old.items out.new.items) }
{
    match refusal {
        Refusal::Conflict(seq) => append_number(out, *seq as usize),
        Refusal::OutOfOrder(clock) => append_moment(out, *clock),
        Refusal::ExtensionTooLong(most) => append_number(out, *most as usize),
        Refusal::IntervalEnded(last) => append_day(out, *last),
        Refusal::WrongRevision(expected) => append_number(out, *expected as usize),
        Refusal::Full
        | Refusal::UnknownAircraft
        | Refusal::UnknownComponent
        | Refusal::UnknownPosition
        | Refusal::UnknownProgramme
        | Refusal::UnknownTask
        | Refusal::UnknownDefect
        | Refusal::AircraftExists
        | Refusal::ComponentExists
        | Refusal::PositionTaken
        | Refusal::AlreadyFitted
        | Refusal::NotFitted
        | Refusal::WrongPart
        | Refusal::ItemElsewhere
        | Refusal::TaskClosed
        | Refusal::LifeLimit
        | Refusal::DefectClosed
        | Refusal::NotExtendable
        | Refusal::AlreadyExtended
        | Refusal::OtherAircraft
        | Refusal::OpeningTooLate
        | Refusal::OpeningTooLarge
        | Refusal::RepeatedLine => Ok(()),
    }
}

fn append_refusal(out: &mut Vec<u8>, refusal: &Refusal) -> Result<(), AllocError>
    ensures words { OnOk result (out.new.items
        ≡ out.old.items ++ (codes "refused" ++ refusal_words refusal.now)) }
    ensures kept { OnErr result (StartsWith out.old.items out.new.items) }
{
    out.extend_from_slice(b"refused")?;
    append_number(out, refusal.number() as usize)?;
    append_carried(out, refusal)
}

fn append_entered(out: &mut Vec<u8>, word: &[u8], seq: u32) -> Result<(), AllocError>
    ensures words { OnOk result (out.new.items
        ≡ out.old.items ++ (word.now ++ spaced (decimal seq))) }
    ensures kept { OnErr result (StartsWith out.old.items out.new.items) }
{
    out.extend_from_slice(word)?;
    append_number(out, seq as usize)
}

impl Text for Reply {
    ghost text = { reply_line };

    fn append(&self, out: &mut Vec<u8>) -> Result<(), AllocError> {
        match self {
            Reply::Accepted(seq) => append_entered(out, b"accepted", *seq)?,
            Reply::Already(seq) => append_entered(out, b"already", *seq)?,
            Reply::Refused(refusal) => append_refusal(out, refusal)?,
        }
        out.extend_from_slice(b"\n")
    }
}

/// Appends the line of a reply: `accepted SEQ`, `already SEQ`, or `refused NUMBER` and what the refusal
/// carries: the number of an entry, a moment, a number of days, a day or a revision.
pub fn reply_text(out: &mut Vec<u8>, reply: &Reply) -> Result<(), AllocError>
    ensures printed { OnOk result (out.new.items ≡ out.old.items ++ reply_line reply.now) }
    ensures unchanged { OnErr result (out.new.items ≡ out.old.items) }
{
    append_whole(out, reply)
}
