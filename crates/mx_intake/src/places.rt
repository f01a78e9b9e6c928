//! The place of a release that an object names: an aircraft at `tail`, or a component in a shop at `serial`, by the
//! programme of the kind at `kind`.
//!
//! Keys that exclude each other are read, as those of items are: a release that has `serial` or `kind` beside `tail`
//! lacks no key that only the shop needs, and what is there is read.
ghost use Rattle.std.specs.Prelude.{◌≡◌};
ghost use Rattle.serde_json.specs.View.{view};
ghost use Rattle.mx_intake.specs.Release.{lacks_place, names_two_places, is_shop_readable, place_at_keys};

use crate::object::{has, lacks};
use crate::vocabulary::identifier_at;
use mx_base::{Kind, Serial};
use mx_book::commands::Place;
use serde_json::Value;

/// Whether an object names no place, or a component in a shop in part.
pub(crate) fn lacks_place(object: &Value) -> bool
    ensures { result ≡ lacks_place (view object.now) }
{
    !has(object, "tail") && lacks(object, &["serial", "kind"])
}

/// Whether an object names an aircraft, and beside it a component or a kind.
pub(crate) fn names_two_places(object: &Value) -> bool
    ensures { result ≡ names_two_places (view object.now) }
{
    has(object, "tail") && (has(object, "serial") || has(object, "kind"))
}

/// Whether the serial number and the kind can be read, as far as they are there.
fn is_shop_readable(object: &Value) -> bool
    ensures { result ≡ is_shop_readable (view object.now) }
{
    let serial: Option<Serial> = identifier_at(object, "serial");
    let kind: Option<Kind> = identifier_at(object, "kind");
    (!has(object, "serial") || serial.is_some()) && (!has(object, "kind") || kind.is_some())
}

/// The place that an object names, where every key that names it can be read.
pub(crate) fn place_at(object: &Value) -> Option<Place>
    ensures { result ≡ place_at_keys (view object.now) }
{
    if !has(object, "tail") {
        return Some(Place::Shop(
            identifier_at(object, "serial")?,
            identifier_at(object, "kind")?,
        ));
    }
    if !is_shop_readable(object) {
        return None;
    }
    Some(Place::Aircraft(identifier_at(object, "tail")?))
}
