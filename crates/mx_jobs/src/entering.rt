//! Entering commands into an open office: a line for each reply.
ghost use Rattle.std.specs.Prelude.{◌≡◌, length, IfOk, IfErr};
ghost use Rattle.sqlite.specs.State.{HasCleanDisk};
ghost use Rattle.mx_office.specs.Calls.{Runs};
ghost use Rattle.mx_office.specs.Office.{office_state, StandsFor};
ghost use Rattle.mx_output.specs.printed.Entered.{AreReplyLines, PrintsRun, TellsReplies};
ghost use Rattle.mx_output.specs.endings.Status.{Shows, stop_status};

use mx_book::commands::Command;
use mx_office::Office;
use mx_output::endings::{Ending, Stop};
use mx_output::printed::{ending_of, print_replies};
use sqlite::Alter;
use std::alloc::Global;

/// Applies commands in their order, each in a commit of its own, up to the first fault, and appends
/// a line for each reply. Where memory runs out for the lines the answer is `Print`, whatever else
/// stopped the run, and nothing is appended.
pub fn enter_all<S: Alter>(
    alloc: Global,
    office: &mut Office<S>,
    commands: &[Command],
    out: &mut Vec<u8>,
) -> Result<Ending, Stop>
    // What became of the office, and of the lines.
    ensures ran { Runs commands.now office.old office.new
        (PrintsRun out.old.items out.new.items result) }

    // Where nothing stopped it: the lines are those of the book, and of as many replies as there are commands.
    ensures exact { (book : _) → StandsFor office.old book
        → HasCleanDisk (office_state office.new)
        → IfOk result (TellsReplies book commands.now out.old.items out.new.items) }
    ensures shown { IfOk result
        (Shows (AreReplyLines (length commands.now)) out.old.items out.new.items) }
    ensures status { IfErr result (λ stop. stop_status stop ≡ 4) }
{
    let outcomes = office.run(alloc, commands);
    print_replies(out, outcomes.replies.as_slice())?;
    match outcomes.stopped {
        Some(fault) => Err(Stop::Office(fault)),
        None => Ok(ending_of(outcomes.replies.as_slice())),
    }
}
