//! What is printed of a sector log that is imported into an open office: a line for each row.
ghost use Rattle.std.specs.Prelude.{◌≡◌, ◌⊎◌, ◌++◌, Some, None, IfOk, IfErr};
ghost use Rattle.mx_jobs.specs.logs.Import.{IsFaultOf};
ghost use Rattle.mx_output.specs.sector_log.Text.{row_lines};
ghost use Rattle.mx_jobs.specs.logs.Told.{AreTold};
ghost use Rattle.mx_output.specs.printed.Imported.{import_ending};
ghost use Rattle.mx_output.specs.endings.Status.{stop_status};

use crate::logs::importing::import;
use crate::logs::report::ImportReport;
use mx_office::Office;
use mx_output::endings::{Ending, Stop};
use mx_output::printed::ending_of_rows;
use mx_output::sector_log::report_text;
use sqlite::Alter;
use std::alloc::Global;
use std::io::Read;

// Appends a line for each row of a report, and tells how the import ended.
fn print_report(out: &mut Vec<u8>, report: &ImportReport) -> Result<Ending, Stop>
    ensures ended { IfOk result (λ ending. (out.new.items
        ≡ out.old.items ++ row_lines report.now.rows.items)
        × (ending ≡ import_ending report.now.rows.items) × (report.now.stopped ≡ None)) }
    ensures stopped { (fault : _) → result ≡ Err (Stop.Office fault) → (out.new.items
        ≡ out.old.items ++ row_lines report.now.rows.items)
        × (report.now.stopped ≡ Some fault) }
    ensures unprinted { result ≡ Err Stop.Print → out.new.items ≡ out.old.items }
    ensures status { IfErr result (λ stop. stop_status stop ≡ 4) }
{
    if report_text(out, &report.rows).is_err() {
        return Err(Stop::Print);
    }
    match report.stopped {
        Some(fault) => Err(Stop::Office(fault)),
        None => Ok(ending_of_rows(&report.rows)),
    }
}

/// Enters the sectors of a log that a reader gives, each in a commit of its own, up to the first fault of the office, and
/// appends a line for each row. Where memory runs out for the lines the answer is `Print`, whatever else stopped
/// it, and nothing is appended.
pub fn import_all<S: Alter, R: Read>(
    alloc: Global,
    office: &mut Office<S>,
    reader: &mut R,
    out: &mut Vec<u8>,
) -> Result<Ending, Stop>
    ensures ended { IfOk result (λ ending. (rows : _) × (out.new.items
        ≡ out.old.items ++ row_lines rows) × (ending ≡ import_ending rows)
        × AreTold (R.remaining reader.old) None rows office.old office.new) }
    ensures stopped { (fault : _) → result ≡ Err (Stop.Office fault) → (rows : _)
        × (out.new.items ≡ out.old.items ++ row_lines rows)
        × AreTold (R.remaining reader.old) (Some fault) rows office.old office.new }
    ensures unread { IfErr result (λ stop. stop_status stop ≡ 3
        → (out.new.items ≡ out.old.items) × (office.new ≡ office.old)) }
    ensures fault { (fault : _) → result ≡ Err (Stop.Intake fault)
        → IsFaultOf (R.remaining reader.old) fault }
    ensures unprinted { result ≡ Err Stop.Print → out.new.items ≡ out.old.items }
    ensures ran { result ≡ Err Stop.Print → (stop : _) × (rows : _)
        × AreTold (R.remaining reader.old) stop rows office.old office.new }
    ensures status { IfErr result (λ stop. (stop_status stop ≡ 3) ⊎ (stop_status stop ≡ 4)) }
{
    match import(alloc, office, reader) {
        Ok(report) => print_report(out, &report),
        Err(fault) => Err(Stop::Intake(fault)),
    }
}
