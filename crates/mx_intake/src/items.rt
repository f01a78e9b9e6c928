//! The item that an object names: an airframe at `tail`, or a component at `serial`.
//!
//! Keys that exclude each other are read: an object that has both lacks neither, each has to be one that can be read,
//! and only then is it of a bad shape. So the least number is told here as everywhere.
ghost use Rattle.std.specs.Prelude.{◌≡◌};
ghost use Rattle.serde_json.specs.View.{view};
ghost use Rattle.mx_intake.specs.Items.{airframe_at_key, component_at_key, item_at_keys, lacks_item, names_two_items};

use crate::object::has;
use crate::vocabulary::identifier_at;
use mx_book::commands::Item;
use serde_json::Value;

/// Whether an object names no item.
pub(crate) fn lacks_item(object: &Value) -> bool
    ensures { result ≡ lacks_item (view object.now) }
{
    !has(object, "tail") && !has(object, "serial")
}

/// Whether an object names an airframe and a component.
pub(crate) fn names_two_items(object: &Value) -> bool
    ensures { result ≡ names_two_items (view object.now) }
{
    has(object, "tail") && has(object, "serial")
}

fn airframe_at(object: &Value) -> Option<Item>
    ensures { result ≡ airframe_at_key (view object.now) }
{
    Some(Item::Airframe(identifier_at(object, "tail")?))
}

fn component_at(object: &Value) -> Option<Item>
    ensures { result ≡ component_at_key (view object.now) }
{
    Some(Item::Component(identifier_at(object, "serial")?))
}

/// The item that an object names, where each that it names can be read.
pub(crate) fn item_at(object: &Value) -> Option<Item>
    ensures { result ≡ item_at_keys (view object.now) }
{
    if !has(object, "serial") {
        return airframe_at(object);
    }
    let component = component_at(object)?;
    if has(object, "tail") {
        airframe_at(object)
    } else {
        Some(component)
    }
}
