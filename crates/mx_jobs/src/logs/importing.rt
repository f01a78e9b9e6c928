//! The import of a sector log into an office.
//!
//! What each row is told needs the rows, and a run needs a list of commands: so the good ones are copied, which holds a
//! log's sectors twice while it is imported. Room for what the rows are told is made before the run, so that nothing
//! that was entered goes without its line but for want of memory for the text itself.
ghost use Rattle.std.specs.Prelude.{◌≡◌, ◌≢◌, ◌+◌, Ok, Err, IfOk, IfErr, OnErr};
ghost use Rattle.mx_intake.specs.Input.{TakesAtMost};
ghost use Rattle.mx_intake.specs.Sectors.{sector_rows};
ghost use Rattle.mx_intake.specs.declared.fault.TheConstants.{MEMORY};
ghost use Rattle.mx_jobs.specs.logs.Import.{AreRowsOf, IsFaultOf};
ghost use Rattle.mx_office.specs.Calls.{IsRun};
ghost use Rattle.mx_output.specs.sector_log.Rows.{good_rows, told};

use crate::logs::report::ImportReport;
use mx_intake::{IntakeFault, MOST_BYTES, read_all, sectors_of_csv};
use mx_office::Office;
use mx_output::sector_log::{commands_of_rows, tell_rows};
use sqlite::Alter;
use std::alloc::Global;
use std::io::Read;

/// Enters the sectors of a log. Room is made first for what its rows are told; then the sectors of the good rows are handed
/// in, one after the other, each in a commit of its own, up to the first fault of the office. Nothing is entered where the
/// text as a whole has a fault, which is the answer then: of entry 0.
pub fn import_text<S: Alter>(
    alloc: Global,
    office: &mut Office<S>,
    bytes: &[u8],
) -> Result<ImportReport, IntakeFault>
    // What the rows are told, and what the run of the good ones did to the office.
    ensures imported { IfOk result (λ report. (rows : _) × (said : _)
        × (sector_rows bytes.now ≡ Ok rows) × (report.rows.items ≡ told rows said)
        × IsRun (good_rows rows) said report.stopped office.old office.new) }

    // A fault of the whole text: nothing was entered.
    ensures fault { IfErr result (λ f. f.number ≢ MEMORY → sector_rows bytes.now ≡ Err f) }
    ensures memory { IfErr result (λ f. f.number ≡ MEMORY → f.entry ≡ 0) }
    ensures unread { OnErr result (office.new ≡ office.old) }
{
    let rows = sectors_of_csv(alloc, bytes)?;
    let room = Vec::with_capacity(alloc, rows.len())?;
    let commands = commands_of_rows(alloc, &rows)?;
    let outcomes = office.run(alloc, &commands);
    Ok(ImportReport {
        rows: tell_rows(room, &rows, &outcomes.replies),
        stopped: outcomes.stopped,
    })
}

/// Enters the sectors of the log that a reader gives: all of it is read first, and then it is `import_text`. The answer is a
/// fault of the whole text, 60 to 69, also where a read failed or there are more than 8,388,608 bytes.
pub fn import<S: Alter, R: Read>(
    alloc: Global,
    office: &mut Office<S>,
    reader: &mut R,
) -> Result<ImportReport, IntakeFault>
    // What the rows are told, and what the run of the good ones did to the office.
    ensures imported { IfOk result (λ report. (rows : _) × (said : _)
        × AreRowsOf (R.remaining reader.old) rows × (report.rows.items ≡ told rows said)
        × IsRun (good_rows rows) said report.stopped office.old office.new) }

    // A fault of the whole text: nothing was entered.
    ensures fault { IfErr result (IsFaultOf (R.remaining reader.old)) }
    ensures unread { OnErr result (office.new ≡ office.old) }
    ensures takes { TakesAtMost (R.remaining reader.old) (R.remaining reader.new)
        (MOST_BYTES + 1) }
{
    let bytes = read_all(alloc, reader, MOST_BYTES)?;
    import_text(alloc, office, &bytes)
}
