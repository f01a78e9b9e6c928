//! The form that the word at `do` chooses.
ghost use Rattle.std.specs.Prelude.{◌≡◌, ◌≢◌, Ok, Err, IfOk, IfErr};
ghost use Rattle.serde_json.specs.View.{view};
ghost use Rattle.mx_intake.specs.declared.fault.TheConstants.{MEMORY};
ghost use Rattle.mx_intake.specs.Forms.{entry_by_word, entry_by_json};

use crate::fault::{BAD_VALUE, MISSING};
use crate::{commands, sector};
use mx_book::commands::Command;
use serde_json::Value;
use std::alloc::Global;

/// The command that an object states by the form of a word, or the number of its least fault.
fn command_by_word(alloc: Global, word: &str, object: &Value) -> Result<Command, u8>
    ensures ok { IfOk result (λ c. entry_by_word word.now (view object.now) ≡ Ok c) }
    ensures err { IfErr result (λ n. n ≢ MEMORY
        → entry_by_word word.now (view object.now) ≡ Err n) }
{
    match word {
        "add-aircraft" => commands::aircraft(alloc, object),
        "add-component" => commands::component(alloc, object),
        "opening" => commands::opening(alloc, object),
        "sector" => sector::command_of(alloc, object),
        "fit" => commands::fitting(alloc, object),
        "remove" => commands::removal(alloc, object),
        "release" => commands::release(alloc, object),
        "defer" => commands::deferral(alloc, object),
        "extend" => commands::extension(alloc, object),
        _ => Err(BAD_VALUE),
    }
}

/// The command that a value states, or the number of its least fault.
pub(crate) fn command_of(alloc: Global, value: &Value) -> Result<Command, u8>
    ensures ok { IfOk result (λ c. entry_by_json (view value.now) ≡ Ok c) }
    ensures err { IfErr result (λ n. n ≢ MEMORY → entry_by_json (view value.now) ≡ Err n) }
{
    if !value.is_object() {
        return Err(BAD_VALUE);
    }
    let Some(word) = value.get("do") else {
        return Err(MISSING);
    };
    let Some(word) = word.as_str() else {
        return Err(BAD_VALUE);
    };
    command_by_word(alloc, word, value)
}
