//! The commands of a JSON text.
//!
//! A number that is too large for `serde_json` to read, as `1e400`, makes the text one without a reading. Of a key that
//! is written twice the last value counts, and the first is not looked at.
ghost use Rattle.std.specs.Prelude.{◌≡◌, ◌≢◌, ◌≤◌, Ok, Err, IfOk, IfErr, length};
ghost use Rattle.serde_json.specs.View.{view, items_view};
ghost use Rattle.mx_intake.specs.declared.fault.TheConstants.{MEMORY};
ghost use Rattle.mx_intake.specs.Forms.{entry_by_json};
ghost use Rattle.mx_intake.specs.Entries.{entries_from, entries_of_value, value_of_text, entries_of_text};

use crate::fault::{BAD_VALUE, IntakeFault, MEMORY, NOT_TEXT, TOO_LONG, of_whole};
use crate::forms::command_of;
use crate::text::text_of;
use mx_book::commands::Command;
use serde_json::Value;
use std::alloc::{AllocError, Global};

/// The most commands of a list.
pub const MOST_COMMANDS: usize = 10_000;

/// The command that a value states as an entry of a list, or its fault.
fn command_of_entry(alloc: Global, entry: u32, value: &Value) -> Result<Command, IntakeFault>
    ensures ok { IfOk result (λ c. entry_by_json (view value.now) ≡ Ok c) }
    ensures err { IfErr result (λ f. f.number ≢ MEMORY
        → (entry_by_json (view value.now) ≡ Err f.number) × (f.entry ≡ entry)) }
    ensures memory { IfErr result (λ f. f.number ≡ MEMORY → f.entry ≡ 0) }
{
    match command_of(alloc, value) {
        Ok(command) => Ok(command),
        Err(MEMORY) => Err(of_whole(MEMORY)),
        Err(number) => Err(IntakeFault { number, entry }),
    }
}

/// The commands of values, of which the first is entry 1, or the fault of the first faulty one.
fn commands_of_values(alloc: Global, values: &[Value]) -> Result<Vec<Command>, IntakeFault>
    requires { length values.now ≤ MOST_COMMANDS }
    ensures ok { IfOk result (λ v. entries_from 1 (items_view values.now) ≡ Ok v.items) }
    ensures err { IfErr result (λ f. f.number ≢ MEMORY
        → entries_from 1 (items_view values.now) ≡ Err f) }
    ensures memory { IfErr result (λ f. f.number ≡ MEMORY → f.entry ≡ 0) }
{
    let mut commands = Vec::new(alloc);
    for (i, value) in values.iter().enumerate() {
        let command = command_of_entry(alloc, i as u32 + 1, value)?;
        commands.push(command).map_err(AllocError::from)?;
    }
    Ok(commands)
}

/// The commands of a value.
fn commands_of_value(alloc: Global, value: &Value) -> Result<Vec<Command>, IntakeFault>
    ensures ok { IfOk result (λ v. entries_of_value (view value.now) ≡ Ok v.items) }
    ensures err { IfErr result (λ f. f.number ≢ MEMORY
        → entries_of_value (view value.now) ≡ Err f) }
    ensures memory { IfErr result (λ f. f.number ≡ MEMORY → f.entry ≡ 0) }
{
    let Value::Array(list) = value else {
        return Err(of_whole(BAD_VALUE));
    };
    if list.len() > MOST_COMMANDS {
        return Err(of_whole(TOO_LONG));
    }
    commands_of_values(alloc, list.as_slice())
}

/// The value of a text.
fn read_value(alloc: Global, bytes: &[u8]) -> Result<Value, IntakeFault>
    ensures ok { IfOk result (λ v. value_of_text bytes.now ≡ Ok (view v)) }
    ensures err { IfErr result (λ f. f.number ≢ MEMORY → value_of_text bytes.now ≡ Err f) }
    ensures memory { IfErr result (λ f. f.number ≡ MEMORY → f.entry ≡ 0) }
{
    let text = text_of(bytes)?;
    match Value::from_str(alloc, text) {
        Ok(value) => Ok(value),
        Err(error) => {
            if error.is_memory() {
                return Err(of_whole(MEMORY));
            }
            Err(of_whole(NOT_TEXT))
        }
    }
}

/// The commands that a text states: a JSON list of up to 10,000 objects, in at most 8,388,608 bytes. Each object has
/// `do`, which names its command, and the keys of that command's form, and no others.
///
/// Of several faults that of the first faulty entry is answered, and of that entry the least number. Entry 0 is the
/// whole text: 67 too many bytes, or too many entries; 61 no UTF-8, or no JSON; 63 no list. Of an entry: 63 no object;
/// 62 no `do`; 63 another word at `do` than those of the commands; and by its form 62 a key that is missing, 63 a value
/// that can't be read, 64 a key that the form does not have, 65 keys that exclude each other, or a shape that no command
/// has. 60, of entry 0, is want of memory. A key that is written twice has its last value.
pub fn commands_of_json(alloc: Global, bytes: &[u8]) -> Result<Vec<Command>, IntakeFault>
    ensures ok { IfOk result (λ v. entries_of_text bytes.now ≡ Ok v.items) }
    ensures err { IfErr result (λ f. f.number ≢ MEMORY → entries_of_text bytes.now ≡ Err f) }
    ensures memory { IfErr result (λ f. f.number ≡ MEMORY → f.entry ≡ 0) }
{
    let value = read_value(alloc, bytes)?;
    commands_of_value(alloc, &value)
}
