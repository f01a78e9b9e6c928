//! The sector of one row of the log.
ghost use Rattle.std.specs.Prelude.{◌≡◌, ◌≢◌, Ok, Err, IfOk, IfErr, option_map};
ghost use Rattle.csv.specs.Records.{fields_of};
ghost use Rattle.mx_intake.specs.declared.fault.TheConstants.{MEMORY};
ghost use Rattle.mx_intake.specs.Fault.{fault};
ghost use Rattle.mx_intake.specs.Sectors.{text_in_field, tail_in_field, moment_in_field, number_in_field, sector_of_fields, entry_of_fields, row_of};

use crate::fault::{BAD_ROW, IntakeFault, MEMORY, of_whole};
use crate::form::command_by_form;
use crate::number::read_number;
use crate::vocabulary::{read_identifier, read_moment};
use csv::ByteRecord;
use mx_base::{Moment, Tail};
use mx_book::commands::{Command, Sector};
use std::alloc::Global;
use std::str;

/// How many fields a row has.
pub(crate) const FIELDS: usize = 6;

/// The text in a field.
fn text_in(row: &ByteRecord, place: usize) -> Option<&str>
    ensures { option_map (λ t. t.now) result ≡ text_in_field place (fields_of row.now) }
{
    match str::from_utf8(row.get(place)?) {
        Ok(text) => Some(text),
        Err(_) => None,
    }
}

/// The registration in a field.
fn tail_in(row: &ByteRecord, place: usize) -> Option<Tail>
    ensures { result ≡ tail_in_field place (fields_of row.now) }
{
    read_identifier(text_in(row, place)?)
}

/// The moment in a field.
fn moment_in(row: &ByteRecord, place: usize) -> Option<Moment>
    ensures { result ≡ moment_in_field place (fields_of row.now) }
{
    read_moment(text_in(row, place)?)
}

/// The number in a field.
fn number_in(row: &ByteRecord, place: usize) -> Option<u32>
    ensures { result ≡ number_in_field place (fields_of row.now) }
{
    read_number(row.get(place)?)
}

/// The sector that the fields state, where each can be read.
fn sector_in(row: &ByteRecord) -> Option<Sector>
    ensures { result ≡ sector_of_fields (fields_of row.now) }
{
    Some(Sector {
        tail: tail_in(row, 0)?,
        page: number_in(row, 1)?,
        line: number_in(row, 2)?,
        off: moment_in(row, 3)?,
        on: moment_in(row, 4)?,
        cycles: number_in(row, 5)?,
    })
}

/// The command that the fields state, or the number of their fault.
fn command_in(alloc: Global, row: &ByteRecord) -> Result<Command, u8>
    ensures ok { IfOk result (λ c. entry_of_fields (fields_of row.now) ≡ Ok c) }
    ensures err { IfErr result (λ n. n ≢ MEMORY → entry_of_fields (fields_of row.now) ≡ Err n) }
{
    if row.len() != FIELDS {
        return Err(BAD_ROW);
    }
    command_by_form(alloc, false, sector_in(row), false)
}

/// What row `number` gives. Want of memory is no fault of the row.
pub(crate) fn row_of(
    alloc: Global,
    number: u32,
    row: &ByteRecord,
) -> Result<Result<Command, IntakeFault>, IntakeFault>
    ensures ok { IfOk result (λ given. given ≡ row_of number (fields_of row.now)) }
    ensures memory { IfErr result (λ f. f ≡ fault MEMORY 0) }
{
    match command_in(alloc, row) {
        Ok(command) => Ok(Ok(command)),
        Err(MEMORY) => Err(of_whole(MEMORY)),
        Err(fault) => Ok(Err(IntakeFault {
            number: fault,
            entry: number,
        })),
    }
}
