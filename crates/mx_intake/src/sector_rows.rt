//! The sectors of a log, a text of comma-separated fields.
ghost use Rattle.std.specs.Prelude.{◌≡◌, ◌≢◌, ◌≤◌, Ok, Err, IfOk, IfErr, length, map};
ghost use Rattle.csv.specs.Records.{fields_of};
ghost use Rattle.mx_intake.specs.declared.fault.TheConstants.{MEMORY};
ghost use Rattle.mx_intake.specs.Fault.{fault};
ghost use Rattle.mx_intake.specs.Sectors.{is_field, is_header, rows_from, rows_under_header, sector_rows};

use crate::fault::{BAD_HEADER, IntakeFault, TOO_LONG, of_whole};
use crate::records::first_records;
use crate::sector_row::{FIELDS, row_of};
use crate::text::MOST_BYTES;
use csv::ByteRecord;
use mx_book::commands::Command;
use std::alloc::{AllocError, Global};

/// The most rows of a log.
pub const MOST_ROWS: usize = 100_000;

/// The most records that are read: the header, the rows, and one more, which shows that there are too many.
const MOST_RECORDS: usize = MOST_ROWS + 2;

/// Whether a field has these bytes.
fn is_field(row: &ByteRecord, place: usize, bytes: &[u8]) -> bool
    ensures { result ≡ is_field place bytes.now (fields_of row.now) }
{
    match row.get(place) {
        Some(field) => bytes == field,
        None => false,
    }
}

/// Whether a record is the header of a log.
fn is_header(row: &ByteRecord) -> bool
    ensures { result ≡ is_header (fields_of row.now) }
{
    row.len() == FIELDS
        && is_field(row, 0, b"tail")
        && is_field(row, 1, b"page")
        && is_field(row, 2, b"line")
        && is_field(row, 3, b"off")
        && is_field(row, 4, b"on")
        && is_field(row, 5, b"cycles")
}

/// What the rows give, of which the first is row 1.
fn rows_of(
    alloc: Global,
    records: &[ByteRecord],
) -> Result<Vec<Result<Command, IntakeFault>>, IntakeFault>
    requires { length records.now ≤ MOST_ROWS }
    ensures ok { IfOk result (λ rows. rows_from 1 (map fields_of records.now) ≡ rows.items) }
    ensures memory { IfErr result (λ f. f ≡ fault MEMORY 0) }
{
    let mut rows = Vec::new(alloc);
    for (i, fields) in records.iter().enumerate() {
        let row = row_of(alloc, i as u32 + 1, fields)?;
        rows.push(row).map_err(AllocError::from)?;
    }
    Ok(rows)
}

// What the records of a log give, the first of which is to be its header.
fn rows_under_header(
    alloc: Global,
    records: &[ByteRecord],
) -> Result<Vec<Result<Command, IntakeFault>>, IntakeFault>
    ensures ok { IfOk result
        (λ rows. rows_under_header (map fields_of records.now) ≡ Ok rows.items) }
    ensures err { IfErr result (λ f. f.number ≢ MEMORY
        → rows_under_header (map fields_of records.now) ≡ Err f) }
    ensures memory { IfErr result (λ f. f.number ≡ MEMORY → f.entry ≡ 0) }
{
    let Some((header, rows)) = records.split_first() else {
        return Err(of_whole(BAD_HEADER));
    };
    if !is_header(header) {
        return Err(of_whole(BAD_HEADER));
    }
    if rows.len() > MOST_ROWS {
        return Err(of_whole(TOO_LONG));
    }
    rows_of(alloc, rows)
}

/// What each row of a log gives, in order: the command of a sector, or the fault of the row, whose entry is the number of
/// the row, counted from 1. The log is a text of records as the library `csv` reads them, behind a byte order mark where
/// it begins with one: fields between commas, in double quotes or not, and no blank line is a record. Its first record is
/// `tail,page,line,off,on,cycles`, and below it are at most 100,000 rows.
///
/// Of a row: 68 other than six fields, which are then not read; 63 a field that can't be read, or is not UTF-8; 65 a shape
/// that no sector has. Page, line and cycles have 1 to 6 digits. Of the whole text, which is entry 0: 67 more than
/// 8,388,608 bytes, whatever else is wrong with them; 66 no such header, or no record at all; 67 more rows. 60, of entry 0,
/// is want of memory. Nothing is read behind the first row that is one too many.
pub fn sectors_of_csv(
    alloc: Global,
    bytes: &[u8],
) -> Result<Vec<Result<Command, IntakeFault>>, IntakeFault>
    ensures ok { IfOk result (λ rows. sector_rows bytes.now ≡ Ok rows.items) }
    ensures err { IfErr result (λ f. f.number ≢ MEMORY → sector_rows bytes.now ≡ Err f) }
    ensures memory { IfErr result (λ f. f.number ≡ MEMORY → f.entry ≡ 0) }
{
    if bytes.len() > MOST_BYTES {
        return Err(of_whole(TOO_LONG));
    }
    let records = first_records(alloc, bytes, MOST_RECORDS)?;
    rows_under_header(alloc, &records)
}
