//! Each list of an aircraft or of all as text, whichever it is.
ghost use Rattle.std.specs.Prelude.{◌≡◌, ◌++◌, OnOk, OnErr};
ghost use Rattle.mx_reports.specs.ReportText.{report_lines};

use crate::text::{Text, append_whole};
use mx_lists::Report;
use std::alloc::AllocError;

impl Text for Report {
    ghost text = { report_lines };

    fn append(&self, out: &mut Vec<u8>) -> Result<(), AllocError> {
        match self {
            Report::Life(list) => list.append(out),
            Report::Due(list) => list.append(out),
            Report::Forecast(list) => list.append(out),
            Report::Limits(list) => list.append(out),
            Report::Fleet(list) => list.append(out),
            Report::Outlook(list) => list.append(out),
            Report::Aircraft(rows) => rows.append(out),
            Report::Components(rows) => rows.append(out),
            Report::Deferred(list) => list.append(out),
        }
    }
}

/// Appends the text of a list, or leaves the vector as it was where memory runs out.
pub fn list_text(out: &mut Vec<u8>, report: &Report) -> Result<(), AllocError>
    ensures printed { OnOk result (out.new.items ≡ out.old.items ++ report_lines report.now) }
    ensures unchanged { OnErr result (out.new.items ≡ out.old.items) }
{
    append_whole(out, report)
}
