//! The positions of an aircraft, a list of objects.
//!
//! Faults of positions are faults of their entry. All positions are looked at, and the least number counts: one that
//! lacks a key comes before one that is no object, wherever they stand. One that is no object can't be read (63); it is
//! not one that lacks its keys (62).
ghost use Rattle.std.specs.Prelude.{◌≡◌};
ghost use Rattle.serde_json.specs.View.{view};
ghost use Rattle.mx_intake.specs.Object.{has_other_key};
ghost use Rattle.mx_intake.specs.Forms.{position_keys, lacks_position_key, any_position, stated_position};

use crate::listed::{Listed, one_at};
use crate::object::{has_other, lacks};
use crate::vocabulary::identifier_at;
use mx_base::{Part, Position};
use serde_json::Value;

/// Whether a position, if it is an object, lacks a key.
fn lacks_key(position: &Value) -> bool
    ensures { result ≡ lacks_position_key (view position.now) }
{
    position.is_object() && lacks(position, &["position", "part"])
}

/// Whether one of the positions of an object lacks a key.
pub(crate) fn lack_key(object: &Value) -> bool
    ensures { result ≡ any_position lacks_position_key (view object.now) }
{
    one_at(object, "positions", |position| lacks_key(position))
}

/// Whether one of the positions of an object has another key than those of a position.
pub(crate) fn have_other_key(object: &Value) -> bool
    ensures { result ≡ any_position (has_other_key position_keys) (view object.now) }
{
    one_at(
        object,
        "positions",
        |position| has_other(position, &["position", "part"]),
    )
}

/// The position that a value states, and the part that it takes.
impl Listed for (Position, Part) {
    ghost stated = { stated_position };

    fn of(value: &Value) -> Option<(Position, Part)> {
        Some((
            identifier_at(value, "position")?,
            identifier_at(value, "part")?,
        ))
    }
}
