//! What the input files of words give: the commands of one, a maintenance programme, the rows of a log.
//!
//! Want of memory while a file is read is a fault of the file (60 of entry 0, with status 3), since no database is open
//! yet and nothing was entered.
use mx_base::Doc;
use mx_book::commands::Command;
use mx_intake::{IntakeFault, MOST_BYTES, READ_FAILED, commands_of_json, programme_of, read_all};
use std::fs;

/// Why an input file that can't be opened gives nothing.
pub(crate) const UNOPENED: IntakeFault = IntakeFault {
    number: READ_FAILED,
    entry: 0,
};

// The bytes of an input file.
fn input_in(rt: &HostRuntime, name: &str) -> Result<Vec<u8>, IntakeFault> {
    let Ok(mut file) = fs::open(rt, name) else {
        return Err(UNOPENED);
    };
    read_all(rt.alloc(), &mut file, MOST_BYTES)
}

/// The commands of a file.
pub(crate) fn commands_in(rt: &HostRuntime, entries: &str) -> Result<Vec<Command>, IntakeFault> {
    let text = input_in(rt, entries)?;
    commands_of_json(rt.alloc(), &text)
}

/// The command that loads the maintenance programme of a file.
pub(crate) fn programme_in(rt: &HostRuntime, doc: Doc, toml: &str) -> Result<Command, IntakeFault> {
    let text = input_in(rt, toml)?;
    programme_of(rt.alloc(), doc, &text)
}
