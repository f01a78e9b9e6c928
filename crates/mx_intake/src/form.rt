//! The least fault of an entry by its form, or its command.
//!
//! A form is asked which of its keys are missing and whether there are others by one list, which has `do` in it: an
//! object that came so far has it. A position of an aircraft has no `do`, and one that states it has an unknown key.
//! Where a form names a thing by one of two keys, neither of which is missing where the other stands, as an opening, a
//! release and its lines do, or has a key for one category alone, it has a list of the keys that it needs beside that
//! of all its keys.
ghost use Rattle.std.specs.Prelude.{◌≡◌, ◌≢◌, map, Ok, Err, IfOk, IfErr, option_map};
ghost use Rattle.serde_json.specs.View.{view};
ghost use Rattle.mx_book.specs.commands.Act.{Entry};
ghost use Rattle.mx_book.specs.commands.Shape.{has_shape};
ghost use Rattle.mx_intake.specs.declared.fault.TheConstants.{MEMORY};
ghost use Rattle.mx_intake.specs.Form.{entry_by_form, if_keys_agree, if_shaped, entry_of};
ghost use Rattle.mx_intake.specs.Object.{lacks_key, has_other_key};

use crate::fault::{BAD_SHAPE, BAD_VALUE, MEMORY, MISSING, UNKNOWN_KEY};
use crate::object::{has_other, lacks};
use mx_base::Doc;
use mx_book::commands::{Body, Command, MakeFault};
use serde_json::Value;
use std::alloc::Global;

/// What a form states, where every value can be read.
pub(crate) trait Stated: Sized + Drop {
    ghost entry: { Self → Entry };

    /// Its command, where it has the shape of one.
    fn command(self, alloc: Global) -> Result<Command, u8>
        ensures ok { IfOk result (λ c. if_shaped has_shape (entry self) ≡ Ok c) }
        ensures err { IfErr result (λ n. n ≢ MEMORY → if_shaped has_shape (entry self) ≡ Err n) };
}

/// A document, and what is said by it.
impl Stated for (Doc, Body) {
    ghost entry = { entry_of };

    fn command(self, alloc: Global) -> Result<Command, u8> {
        let (doc, body) = self;
        match Command::make(alloc, doc, body) {
            Ok(command) => Ok(command),
            Err(MakeFault::BadShape) => Err(BAD_SHAPE),
            Err(MakeFault::Memory) => Err(MEMORY),
        }
    }
}

/// The command of a form: from whether a key is missing, what is stated where every value can be read, and whether there
/// is another key.
pub(crate) fn command_by_form<S: Stated>(
    alloc: Global,
    lacks: bool,
    stated: Option<S>,
    has_other: bool,
) -> Result<Command, u8>
    ensures ok { IfOk result (λ c.
        entry_by_form lacks (option_map S.entry stated) has_other ≡ Ok c) }
    ensures err { IfErr result (λ n. n ≢ MEMORY
        → entry_by_form lacks (option_map S.entry stated) has_other ≡ Err n) }
{
    if lacks {
        return Err(MISSING);
    }
    let Some(stated) = stated else {
        return Err(BAD_VALUE);
    };
    if has_other {
        return Err(UNKNOWN_KEY);
    }
    stated.command(alloc)
}

/// The command of a form that needs each of its keys.
pub(crate) fn command_by_keys<S: Stated>(
    alloc: Global,
    object: &Value,
    keys: &[&str],
    stated: Option<S>,
) -> Result<Command, u8>
    ensures ok { IfOk result (λ c.
        entry_by_form (lacks_key (map (λ k. k.now) keys.now) (view object.now))
        (option_map S.entry stated)
        (has_other_key (map (λ k. k.now) keys.now) (view object.now)) ≡ Ok c) }
    ensures err { IfErr result (λ n. n ≢ MEMORY →
        entry_by_form (lacks_key (map (λ k. k.now) keys.now) (view object.now))
        (option_map S.entry stated)
        (has_other_key (map (λ k. k.now) keys.now) (view object.now)) ≡ Err n) }
{
    let lacks = lacks(object, keys);
    command_by_form(alloc, lacks, stated, has_other(object, keys))
}

/// The command of a form, as `command_by_form`, unless two of its keys exclude each other.
pub(crate) fn command_if_keys_agree<S: Stated>(
    alloc: Global,
    lacks: bool,
    stated: Option<S>,
    has_other: bool,
    exclude: bool,
) -> Result<Command, u8>
    ensures ok { IfOk result (λ c. if_keys_agree exclude
        (entry_by_form lacks (option_map S.entry stated) has_other) ≡ Ok c) }
    ensures err { IfErr result (λ n. n ≢ MEMORY → if_keys_agree exclude
        (entry_by_form lacks (option_map S.entry stated) has_other) ≡ Err n) }
{
    let command = command_by_form(alloc, lacks, stated, has_other)?;
    if exclude {
        return Err(BAD_SHAPE);
    }
    Ok(command)
}
