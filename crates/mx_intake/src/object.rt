//! What an object has at its keys.
//!
//! `1.0`, `1e0` and `-0` are other kinds of value than a whole number, and so is one past 4,294,967,295. Values of JSON
//! and of TOML are types of two crates, so `table.rt` reads those of the other by definitions that are alike word for
//! word.
ghost use Rattle.std.specs.Prelude.{◌≡◌, map, is_some, option_map};
ghost use Rattle.serde_json.specs.Find.{get};
ghost use Rattle.serde_json.specs.View.{view, items_view};
ghost use Rattle.mx_intake.specs.Keys.{if_there};
ghost use Rattle.mx_intake.specs.Object.{lacks_key, has_other_key, number_of, number_at_key, text_at_key, list_at_key};

use crate::keys::{is_one_of, one_key};
use serde_json::Value;

/// Whether the value is an object that has the key.
pub(crate) fn has(object: &Value, key: &str) -> bool
    ensures { result ≡ is_some (get key.now (view object.now)) }
{
    object.get(key).is_some()
}

/// Whether one of the keys is missing.
pub(crate) fn lacks(object: &Value, keys: &[&str]) -> bool
    ensures { result ≡ lacks_key (map (λ k. k.now) keys.now) (view object.now) }
{
    one_key(keys, |key| !has(object, key))
}

/// Whether there is a key that is none of these.
pub(crate) fn has_other(object: &Value, keys: &[&str]) -> bool
    ensures { result ≡ has_other_key (map (λ k. k.now) keys.now) (view object.now) }
{
    let Some(members) = object.as_object() else {
        return false;
    };
    for key in members.keys() {
        if !is_one_of(keys, key.as_str()) {
            return true;
        }
    }
    false
}

/// The whole number that a value is, up to 4,294,967,295.
fn number_of(value: &Value) -> Option<u32>
    ensures { result ≡ number_of (view value.now) }
{
    let number = value.as_u64()?;
    u32::try_from(number).ok()
}

/// The whole number at a key.
pub(crate) fn number_at(object: &Value, key: &str) -> Option<u32>
    ensures { result ≡ number_at_key key.now (view object.now) }
{
    number_of(object.get(key)?)
}

/// The whole number at a key that may be absent.
pub(crate) fn number_if_there(object: &Value, key: &str) -> Option<Option<u32>>
    ensures { result ≡ if_there number_of (get key.now (view object.now)) }
{
    let value = object.get(key);
    value.map_or(Some(None), |value| number_of(value).map(Some))
}

/// The text at a key.
pub(crate) fn text_at<'v>(object: &'v Value, key: &str) -> Option<&'v str>
    ensures { option_map (λ t. t.now) result ≡ text_at_key key.now (view object.now) }
{
    object.get(key)?.as_str()
}

/// The values of the list at a key.
pub(crate) fn list_at<'v>(object: &'v Value, key: &str) -> Option<&'v [Value]>
    ensures { option_map (λ l. items_view l.now) result ≡ list_at_key key.now (view object.now) }
{
    let list = object.get(key)?.as_array()?;
    Some(list.as_slice())
}
