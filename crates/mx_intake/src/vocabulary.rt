//! Identifiers, days and moments at the keys of an object, as the readers of `mx_base` take their texts.
ghost use Rattle.std.specs.Prelude.{◌≡◌, ◌≢◌, ℕ, ◌≤◌, option_and_then, IfSome, IfNone};
ghost use Rattle.serde_json.specs.View.{view};
ghost use Rattle.mx_base.specs.Calendar.{last_day, last_moment};
ghost use Rattle.mx_base.specs.Texts.{day_text, moment_text};
ghost use Rattle.mx_intake.specs.Object.{text_at_key};
ghost use Rattle.mx_intake.specs.Vocabulary.{identifier_of, day_of_text, moment_of_text, day_at_key, moment_at_key};

use crate::object::text_at;
use mx_base::identifiers::{Alphabet, Identifier};
use mx_base::{Day, Moment};
use serde_json::Value;

/// The identifier that a text is.
pub fn read_identifier<A: Alphabet, const N: usize>(text: &str) -> Option<Identifier<A, N>>
    ensures { result ≡ identifier_of A.allows N text.now }
{
    Identifier::read(text).ok()
}

/// The day whose text it is.
pub fn read_day(text: &str) -> Option<Day>
    ensures day { result ≡ day_of_text text.now }
    ensures some { IfSome result (λ d. (d ≤ last_day) × (day_text d ≡ text.now)) }
    ensures none { IfNone result ((d : ℕ) → d ≤ last_day → day_text d ≢ text.now) }
{
    Day::read(text).ok()
}

/// The moment whose text it is.
pub fn read_moment(text: &str) -> Option<Moment>
    ensures moment { result ≡ moment_of_text text.now }
    ensures some { IfSome result (λ m. (m ≤ last_moment) × (moment_text m ≡ text.now)) }
    ensures none { IfNone result ((m : ℕ) → m ≤ last_moment → moment_text m ≢ text.now) }
{
    Moment::read(text).ok()
}

/// The identifier at a key.
pub(crate) fn identifier_at<A: Alphabet, const N: usize>(
    object: &Value,
    key: &str,
) -> Option<Identifier<A, N>>
    ensures { result ≡ option_and_then (identifier_of A.allows N)
        (text_at_key key.now (view object.now)) }
{
    read_identifier(text_at(object, key)?)
}

/// The day at a key.
pub(crate) fn day_at(object: &Value, key: &str) -> Option<Day>
    ensures { result ≡ day_at_key key.now (view object.now) }
{
    read_day(text_at(object, key)?)
}

/// The moment at a key.
pub(crate) fn moment_at(object: &Value, key: &str) -> Option<Moment>
    ensures { result ≡ moment_at_key key.now (view object.now) }
{
    read_moment(text_at(object, key)?)
}
