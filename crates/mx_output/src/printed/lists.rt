//! The text of a list that answers a question, or of the refusal.
ghost use Rattle.std.specs.Prelude.{◌≡◌, ◌++◌, OnOk, OnErr, IfOk, IfErr};
ghost use Rattle.mx_reports.specs.ReplyText.{reply_line};
ghost use Rattle.mx_reports.specs.ReportText.{report_lines};

use crate::endings::{Ending, Stop};
use mx_book::{Refusal, Reply};
use mx_lists::Report;
use mx_reports::{list_text, reply_text};

/// Appends a list.
pub fn append_report(out: &mut Vec<u8>, report: &Report) -> Result<Ending, Stop>
    ensures printed { OnOk result (out.new.items ≡ out.old.items ++ report_lines report.now) }
    ensures ending { IfOk result (λ ending. ending ≡ Ending.Done) }
    ensures unprinted { OnErr result (out.new.items ≡ out.old.items) }
    ensures memory { IfErr result (λ stop. stop ≡ Stop.Print) }
{
    match list_text(out, report) {
        Ok(()) => Ok(Ending::Done),
        Err(_) => Err(Stop::Print),
    }
}

/// Appends a refusal.
pub fn append_refusal(out: &mut Vec<u8>, refusal: Refusal) -> Result<Ending, Stop>
    ensures printed { OnOk result (out.new.items ≡ out.old.items ++ reply_line (Reply.Refused
        refusal)) }
    ensures ending { IfOk result (λ ending. ending ≡ Ending.Refused) }
    ensures unprinted { OnErr result (out.new.items ≡ out.old.items) }
    ensures memory { IfErr result (λ stop. stop ≡ Stop.Print) }
{
    match reply_text(out, &Reply::Refused(refusal)) {
        Ok(()) => Ok(Ending::Refused),
        Err(_) => Err(Stop::Print),
    }
}
