//! The texts of the lists of all aircraft: each row as that of its own list, with the registration in it.
ghost use Rattle.std.specs.Prelude.{◌≡◌, ◌++◌, OnOk, OnErr};
ghost use Rattle.mx_reports.specs.FleetText.{deferred_line, deferred_lines, fleet_line, fleet_lines, head_on_day, outlook_head, outlook_line, outlook_lines};
ghost use Rattle.mx_reports.specs.Words.{StartsWith};

use crate::lists::{
    append_date, append_due_words, append_limit_words, append_rates, append_reached,
    append_rows_and_end,
};
use crate::text::Text;
use crate::words::{append_day, append_status, append_word};
use mx_base::Day;
use mx_lists::{DeferredList, DueRow, FleetList, FleetRow, ForecastRow, LimitRow, OutlookList};
use std::alloc::AllocError;

fn append_head_on_day(out: &mut Vec<u8>, word: &[u8], day: Day) -> Result<(), AllocError>
    ensures words { OnOk result (out.new.items ≡ out.old.items ++ head_on_day word.now day) }
    ensures kept { OnErr result (StartsWith out.old.items out.new.items) }
{
    out.extend_from_slice(word)?;
    append_day(out, day)?;
    out.extend_from_slice(b"\n")
}

impl Text for FleetRow<DueRow> {
    ghost text = { fleet_line };

    fn append(&self, out: &mut Vec<u8>) -> Result<(), AllocError> {
        append_status(out, self.row.status())?;
        append_word(out, self.tail.as_str().as_bytes())?;
        append_due_words(out, &self.row)
    }
}

// What is due on all aircraft: `fleet DAY`; a line for each row, as the due list has it, with the registration behind its
// status; and `end` with the number of rows.
impl Text for FleetList {
    ghost text = { fleet_lines };

    fn append(&self, out: &mut Vec<u8>) -> Result<(), AllocError> {
        let rows = self.rows.as_slice();
        append_head_on_day(out, b"fleet", self.day)?;
        append_rows_and_end(out, rows, rows.len())
    }
}

impl Text for FleetRow<ForecastRow> {
    ghost text = { outlook_line };

    fn append(&self, out: &mut Vec<u8>) -> Result<(), AllocError> {
        append_date(out, &self.row)?;
        append_word(out, self.tail.as_str().as_bytes())?;
        append_reached(out, &self.row.row)?;
        out.extend_from_slice(b"\n")
    }
}

fn append_outlook_head(out: &mut Vec<u8>, list: &OutlookList) -> Result<(), AllocError>
    ensures words { OnOk result (out.new.items ≡ out.old.items ++ outlook_head list.now) }
    ensures kept { OnErr result (StartsWith out.old.items out.new.items) }
{
    out.extend_from_slice(b"outlook")?;
    append_day(out, list.day)?;
    append_rates(out, list.days, list.minutes, list.cycles)?;
    out.extend_from_slice(b"\n")
}

// What will be due on all aircraft: `outlook DAY DAYS MINUTES CYCLES`; a line for each row, as the forecast has it, with the
// registration behind its day; and `end` with the number of rows.
impl Text for OutlookList {
    ghost text = { outlook_lines };

    fn append(&self, out: &mut Vec<u8>) -> Result<(), AllocError> {
        let rows = self.rows.as_slice();
        append_outlook_head(out, self)?;
        append_rows_and_end(out, rows, rows.len())
    }
}

impl Text for FleetRow<LimitRow> {
    ghost text = { deferred_line };

    fn append(&self, out: &mut Vec<u8>) -> Result<(), AllocError> {
        append_status(out, self.row.status)?;
        append_word(out, self.tail.as_str().as_bytes())?;
        append_limit_words(out, &self.row)
    }
}

// The limits of all aircraft: `deferred DAY`; a line for each open defect, as the limits have it, with the registration
// behind its status; and `end` with the number of rows.
impl Text for DeferredList {
    ghost text = { deferred_lines };

    fn append(&self, out: &mut Vec<u8>) -> Result<(), AllocError> {
        let rows = self.rows.as_slice();
        append_head_on_day(out, b"deferred", self.day)?;
        append_rows_and_end(out, rows, rows.len())
    }
}
