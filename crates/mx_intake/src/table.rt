//! What a table of TOML has at its keys.
ghost use Rattle.std.specs.Prelude.{◌≡◌, map, is_some, option_map};
ghost use Rattle.toml.specs.Data.{get, as_bool};
ghost use Rattle.toml.specs.View.{view, items_view};
ghost use Rattle.mx_intake.specs.Keys.{if_there};
ghost use Rattle.mx_intake.specs.Table.{lacks_key, has_other_key, number_of, number_at_key, text_at_key, list_at_key};

use crate::keys::{is_one_of, one_key};
use toml::Value;

/// Whether the value is a table that has the key.
fn has(table: &Value, key: &str) -> bool
    ensures { result ≡ is_some (get key.now (view table.now)) }
{
    table.get(key).is_some()
}

/// Whether one of the keys is missing.
pub(crate) fn lacks(table: &Value, keys: &[&str]) -> bool
    ensures { result ≡ lacks_key (map (λ k. k.now) keys.now) (view table.now) }
{
    one_key(keys, |key| !has(table, key))
}

/// Whether there is a key that is none of these.
pub(crate) fn has_other(table: &Value, keys: &[&str]) -> bool
    ensures { result ≡ has_other_key (map (λ k. k.now) keys.now) (view table.now) }
{
    let Some(members) = table.as_table() else {
        return false;
    };
    for key in members.keys() {
        if !is_one_of(keys, key.as_str()) {
            return true;
        }
    }
    false
}

/// The whole number that a value is, from 0 to 4,294,967,295.
pub(crate) fn number_of(value: &Value) -> Option<u32>
    ensures { result ≡ number_of (view value.now) }
{
    let number = value.as_integer()?;
    u32::try_from(number).ok()
}

/// The whole number at a key.
pub(crate) fn number_at(table: &Value, key: &str) -> Option<u32>
    ensures { result ≡ number_at_key key.now (view table.now) }
{
    number_of(table.get(key)?)
}

/// The whole number at a key that may be absent.
pub(crate) fn number_if_there(table: &Value, key: &str) -> Option<Option<u32>>
    ensures { result ≡ if_there number_of (get key.now (view table.now)) }
{
    let value = table.get(key);
    value.map_or(Some(None), |value| number_of(value).map(Some))
}

/// Whether it is true or false at a key that may be absent.
pub(crate) fn flag_if_there(table: &Value, key: &str) -> Option<Option<bool>>
    ensures { result ≡ if_there as_bool (get key.now (view table.now)) }
{
    let value = table.get(key);
    value.map_or(Some(None), |value| value.as_bool().map(Some))
}

/// The text at a key.
pub(crate) fn text_at<'v>(table: &'v Value, key: &str) -> Option<&'v str>
    ensures { option_map (λ t. t.now) result ≡ text_at_key key.now (view table.now) }
{
    table.get(key)?.as_str()
}

/// The values of the list at a key.
pub(crate) fn list_at<'v>(table: &'v Value, key: &str) -> Option<&'v [Value]>
    ensures { option_map (λ l. items_view l.now) result ≡ list_at_key key.now (view table.now) }
{
    let list = table.get(key)?.as_array()?;
    Some(list.as_slice())
}
