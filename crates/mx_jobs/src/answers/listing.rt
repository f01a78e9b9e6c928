//! The list that an open office answers with, as text.
ghost use Rattle.std.specs.Prelude.{◌≡◌, OnErr, IfOk, IfErr};
ghost use Rattle.sqlite.specs.State.{HasCleanDisk};
ghost use Rattle.mx_office.specs.Office.{office_state, IsReady, StandsFor};
ghost use Rattle.mx_jobs.specs.answers.Asked.{Asks};
ghost use Rattle.mx_output.specs.printed.Listed.{IsListAnswer, PrintsAnswer, Tells};
ghost use Rattle.mx_output.specs.endings.Status.{Shows, stop_status};

use mx_lists::Question;
use mx_office::{Ask, Office};
use mx_output::endings::{Ending, Stop};
use mx_output::printed::{append_refusal, append_report};
use sqlite::Alter;
use std::alloc::Global;

/// Appends the list that answers a question, or `refused 20` where the registration is unknown. No table changes.
pub fn print_list<S: Alter>(
    alloc: Global,
    office: &mut Office<S>,
    question: &Question,
    out: &mut Vec<u8>,
) -> Result<Ending, Stop>
    // What became of the office, and what was appended of its answer.
    ensures asked { Asks question.now office.old office.new
        (PrintsAnswer out.old.items out.new.items result) }

    // What is printed: of the book that the tables stand for, and in any case.
    ensures exact { (book : _) → IsReady office.old → StandsFor office.old book
        → HasCleanDisk (office_state office.new)
        → IfOk result (Tells question.now book out.old.items out.new.items) }
    ensures shown { IfOk result (Shows (IsListAnswer question.now) out.old.items out.new.items) }
    ensures unprinted { OnErr result (out.new.items ≡ out.old.items) }
    ensures status { IfErr result (λ stop. stop_status stop ≡ 4) }
{
    match office.list(alloc, question) {
        Ok(report) => append_report(out, &report),
        Err(Ask::Refused(refusal)) => append_refusal(out, refusal),
        Err(Ask::Failed(fault)) => Err(Stop::Office(fault)),
    }
}
