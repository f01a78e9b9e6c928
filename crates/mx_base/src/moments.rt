//! Moments of the records: whole UTC minutes from 1970-01-01T00:00 to 2199-12-31T23:59.
ghost use Rattle.std.specs.Prelude.{◌≡◌, ◌≢◌, ℕ, ◌/◌, ◌≤◌, ◌↔◌, IsSome, IfSome, IfNone, IfOk, OnErr};
ghost use Rattle.mx_base.specs.Calendar.{last_moment};
ghost use Rattle.mx_base.specs.Texts.{moment_text};

use crate::days::{Day, day_bytes, read_day};
use crate::identifiers::BadText;
use crate::texts::{clock_bytes, read_clock};
use std::marker::Model;
use std::str;

/// The number of 2199-12-31T23:59, the last moment.
pub const LAST_MOMENT: u32 = 120_968_639;

/// The minutes of a day.
const MINUTES_OF_A_DAY: u32 = 1440;

/// A UTC minute from 1970-01-01T00:00 to 2199-12-31T23:59. Contracts see it as its number: 0 is
/// 1970-01-01T00:00.
#[derive(Clone, Copy, Debug, PartialEq, Eq, PartialOrd, Ord)]
pub struct Moment {
    number: u32,
}

impl Model for Moment {
    ghost use Rattle.std.specs.Prelude.{ℕ, ◌≤◌};
    ghost use Rattle.mx_base.specs.declared.moments.TheConstants.{LAST_MOMENT};

    ghost Value = { ℕ };

    ghost view = { λ m. m.number };

    ghost invariant = { λ m. m.number ≤ LAST_MOMENT };

    ghost inverse = { λ n. record { number = n } };
}

/// The text of a moment, `YYYY-MM-DDTHH:MM`, kept in place. Contracts see the list of its bytes.
#[derive(Clone, Copy)]
pub struct MomentText {
    bytes: [u8; 16],
}

impl Model for MomentText {
    ghost use Rattle.std.specs.Prelude.{ℕ, List, IsUtf8};

    ghost Value = { List ℕ };

    ghost view = { λ t. t.bytes };

    ghost invariant = { λ t. ∥ IsUtf8 t.bytes ∥₁ };

    ghost inverse = { λ bytes. record { bytes = bytes } };
}

impl MomentText {
    /// The text.
    pub fn as_str(&self) -> &str
        ensures { result.now ≡ self.now }
    {
        str::from_utf8(&self.bytes).unwrap()
    }
}

impl Moment {
    /// 1970-01-01T00:00, the first moment.
    pub const FIRST: Moment = Moment { number: 0 };

    /// The moment with that number, or `None` past 2199-12-31T23:59.
    pub fn of_number(number: u32) -> Option<Moment>
        ensures some { IsSome result ↔ (number ≤ last_moment) }
        ensures value { IfSome result (λ moment. moment ≡ number) }
    {
        if number > LAST_MOMENT {
            return None;
        }
        Some(Moment { number })
    }

    /// How many minutes after 1970-01-01T00:00 it is.
    pub fn number(self) -> u32
        ensures value { result ≡ self }
        ensures bound { self ≤ last_moment }
    {
        self.number
    }

    /// Its text, `YYYY-MM-DDTHH:MM`.
    pub fn text(self) -> MomentText
        ensures { result ≡ moment_text self }
    {
        MomentText {
            bytes: moment_bytes(self),
        }
    }

    /// The moment that a text `YYYY-MM-DDTHH:MM` names. `BadText` for any other text: of another length,
    /// with other characters than digits, `-`, `T` and `:` in their places, with a date that `Day::read`
    /// refuses, or with a time past 23:59.
    pub fn read(text: &str) -> Result<Moment, BadText>
        ensures ok { IfOk result (λ m. (m ≤ last_moment) × (moment_text m ≡ text.now)) }
        ensures only { IfOk result (λ m. (n : ℕ) → n ≤ last_moment → moment_text n ≡ text.now
            → n ≡ m) }
        ensures err { OnErr result ((m : ℕ) → m ≤ last_moment → moment_text m ≢ text.now) }
    {
        match read_moment(text.as_bytes()) {
            Some(number) => Ok(Moment { number }),
            None => Err(BadText),
        }
    }
}

/// The day that a moment is in.
pub fn day_of(moment: Moment) -> Day
    ensures { result ≡ moment / 1440 }
{
    Day::of_number(moment.number / MINUTES_OF_A_DAY).unwrap()
}

#[tactic(auto, unfolding(crate::specs::Texts::moment_text))]
fn moment_bytes(moment: Moment) -> [u8; 16]
    ensures text { result ≡ moment_text moment }
    ensures bound { moment ≤ last_moment }
{
    let mut bytes = [b'T'; 16];
    bytes[..10].copy_from_slice(&day_bytes(day_of(moment)));
    bytes[11..].copy_from_slice(&clock_bytes((moment.number() % MINUTES_OF_A_DAY) as u16));
    bytes
}

// The number of the moment that these bytes name.
#[tactic(auto, unfolding(crate::specs::Texts::day_text, crate::specs::Texts::moment_text))]
fn read_moment(text: &[u8]) -> Option<u32>
    ensures some { IfSome result (λ m. (m ≤ last_moment) × (moment_text m ≡ text.now)) }
    ensures none { IfNone result ((m : ℕ) → m ≤ last_moment → moment_text m ≢ text.now) }
{
    if text.len() != 16 || text[10] != b'T' {
        return None;
    }
    let day = read_day(&text[..10])?;
    let minute = read_clock(&text[11..])?;
    Some(day * MINUTES_OF_A_DAY + minute as u32)
}
