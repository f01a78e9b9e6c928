//! The text of an import.
ghost use Rattle.std.specs.Prelude.{◌≡◌, ◌++◌, OnOk, OnErr};
ghost use Rattle.mx_reports.specs.Words.{StartsWith};
ghost use Rattle.mx_output.specs.sector_log.Text.{told_line, row_words, row_line, row_lines};

use crate::sector_log::report::RowReply;
use itoa::Buffer;
use mx_reports::reply_text;
use std::alloc::AllocError;

// Appends what a row is told. Where memory runs out, what was there before is there still, with some of it behind.
#[tactic(auto, using(mx_reports::proofs::StartsLemmas::starts_further))]
fn append_told(out: &mut Vec<u8>, row: &RowReply) -> Result<(), AllocError>
    ensures words { OnOk result (out.new.items ≡ out.old.items ++ told_line row.now) }
    ensures kept { OnErr result (StartsWith out.old.items out.new.items) }
{
    match row {
        RowReply::Entered(reply) => reply_text(out, reply),
        RowReply::Bad(fault) => {
            let mut buffer = Buffer::new();
            out.extend_from_slice(b"fault ")?;
            out.extend_from_slice(buffer.format(fault.number).as_bytes())?;
            out.extend_from_slice(b"\n")
        }
    }
}

// Appends the number of a row.
#[tactic(auto, using(mx_reports::proofs::StartsLemmas::starts_further))]
fn append_number(out: &mut Vec<u8>, number: usize) -> Result<(), AllocError>
    ensures words { OnOk result (out.new.items ≡ out.old.items ++ row_words number) }
    ensures kept { OnErr result (StartsWith out.old.items out.new.items) }
{
    let mut buffer = Buffer::new();
    out.extend_from_slice(b"row ")?;
    out.extend_from_slice(buffer.format(number).as_bytes())
}

// Appends the line of a row.
#[tactic(auto, using(mx_reports::proofs::StartsLemmas::starts_further))]
fn append_row(out: &mut Vec<u8>, number: usize, row: &RowReply) -> Result<(), AllocError>
    ensures words { OnOk result (out.new.items ≡ out.old.items ++ row_line number row.now) }
    ensures kept { OnErr result (StartsWith out.old.items out.new.items) }
{
    append_number(out, number)?;
    out.push(b' ')?;
    append_told(out, row)
}

// Appends a line for each row, counted from 1.
#[tactic(auto, using(mx_reports::proofs::StartsLemmas::starts_then, mx_reports::proofs::StartsLemmas::starts_longer))]
fn append_numbered(out: &mut Vec<u8>, rows: &[RowReply]) -> Result<(), AllocError>
    ensures words { OnOk result (out.new.items ≡ out.old.items ++ row_lines rows.now) }
    ensures kept { OnErr result (StartsWith out.old.items out.new.items) }
{
    let mut number = 0;
    let mut rest = rows;
    while let Some((row, later)) = rest.split_first() {
        number += 1;
        append_row(out, number, row)?;
        rest = later;
    }
    Ok(())
}

/// Appends a line for each row of an import, counted from 1: `row N` and the line of its reply, or `row N fault NUMBER`.
/// Where memory runs out the items are left as they were.
pub fn report_text(out: &mut Vec<u8>, rows: &[RowReply]) -> Result<(), AllocError>
    ensures printed { OnOk result (out.new.items ≡ out.old.items ++ row_lines rows.now) }
    ensures unchanged { OnErr result (out.new.items ≡ out.old.items) }
{
    let len = out.len();
    let done = append_numbered(out, rows);
    if done.is_err() {
        out.truncate(len);
    }
    done
}
