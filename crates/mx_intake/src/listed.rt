//! The values of the list at a key of an object.
ghost use Rattle.std.specs.Prelude.{◌≡◌, Bool, Option, IfOk, option_map, option_and_then};
ghost use Rattle.std.specs.Fn.{FnReturnsAt};
ghost use Rattle.serde_json.specs.declared.value.Value.{Value};
ghost use Rattle.serde_json.specs.Data.{Data};
ghost use Rattle.serde_json.specs.View.{view, items_view};
ghost use Rattle.mx_intake.specs.Object.{any_at_key, list_at_key, stated_all};

use crate::object::list_at;
use serde_json::Value;
use std::alloc::{AllocError, Global};

/// Whether one of the values of the list at a key passes a test.
pub(crate) fn one_at<F: Fn(&Value) -> bool>(object: &Value, key: &str, test: F) -> bool
    requires { F.IsAlwaysCallable test }
    ensures { (passes : Data → Bool)
        → ((v : Value) (b : Bool) → FnReturnsAt F.Fn test v b → b ≡ passes (view v))
        → result ≡ any_at_key key.now passes (view object.now) }
{
    let Some(values) = list_at(object, key) else {
        return false;
    };
    for value in values {
        if test(value) {
            return true;
        }
    }
    false
}

/// What a value of a list states.
pub(crate) trait Listed: Sized + Drop {
    ghost stated: { Data → Option Self };

    /// What a value states, where every key of it can be read.
    fn of(value: &Value) -> Option<Self>
        ensures { result ≡ stated (view value.now) };
}

// What each of some values states, where each can be read.
fn all_of<T: Listed>(alloc: Global, values: &[Value]) -> Result<Option<Vec<T>>, AllocError>
    ensures { IfOk result (λ r. option_map (λ v. v.items) r
        ≡ stated_all T.stated (items_view values.now)) }
{
    let mut all = Vec::new(alloc);
    for value in values {
        match T::of(value) {
            Some(stated) => all.push(stated)?,
            None => return Ok(None),
        }
    }
    Ok(Some(all))
}

/// What the values of the list at a key state, where each can be read.
pub(crate) fn all_at<T: Listed>(
    alloc: Global,
    object: &Value,
    key: &str,
) -> Result<Option<Vec<T>>, AllocError>
    ensures { IfOk result (λ r. option_map (λ v. v.items) r
        ≡ option_and_then (stated_all T.stated) (list_at_key key.now (view object.now))) }
{
    match list_at(object, key) {
        Some(values) => all_of(alloc, values),
        None => Ok(None),
    }
}
