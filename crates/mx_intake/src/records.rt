//! The records of a text of comma-separated fields.
ghost use Rattle.std.specs.Prelude.{◌≡◌, ◌<◌, true, IfOk, IfErr, map, take};
ghost use Rattle.csv.specs.Reading.{default_config, error_kind, records, stops_reader, strip_bom};
ghost use Rattle.csv.specs.Records.{fields_of};
ghost use Rattle.mx_intake.specs.declared.fault.TheConstants.{MEMORY};
ghost use Rattle.mx_intake.specs.Fault.{fault};

use crate::fault::{IntakeFault, MEMORY, NOT_TEXT, of_whole};
use csv::{ByteRecord, Error, ErrorKind, ReaderBuilder};
use std::alloc::{AllocError, Global};

/// The fault of a text whose reader stopped.
fn fault_of(error: &Error) -> IntakeFault
    ensures { stops_reader (error_kind error.now) ≡ true → result ≡ fault MEMORY 0 }
{
    match error.kind() {
        ErrorKind::Io(_) | ErrorKind::OutOfMemory => of_whole(MEMORY),
        _ => of_whole(NOT_TEXT),
    }
}

/// The first records of a text, as many as are wanted or all that it has, behind a byte order mark where it begins with
/// one. Nothing behind them is read. Want of memory is the only fault.
pub(crate) fn first_records(
    alloc: Global,
    bytes: &[u8],
    wanted: usize,
) -> Result<Vec<ByteRecord>, IntakeFault>
    requires { 0 < wanted }
    ensures ok { IfOk result (λ v. map fields_of v.items
        ≡ take wanted (records default_config (strip_bom bytes.now))) }
    ensures memory { IfErr result (λ f. f ≡ fault MEMORY 0) }
{
    let reader = ReaderBuilder::new()
        .has_headers(false)
        .flexible(true)
        .from_reader(alloc, bytes);
    let mut rows = Vec::new(alloc);
    let mut records = reader.into_byte_records();
    'rows: while rows.len() < wanted {
        match records.next() {
            None => return Ok(rows),
            Some(Err(error)) => return Err(fault_of(&error)),
            Some(Ok(row)) => rows.push(row).map_err(AllocError::from)?,
        }
    }
    Ok(rows)
}
