//! Whether the tables of an open office are those of a book, as text.
//!
//! `differs` is an answer and no fault, so it goes to standard output; its status is 4, since nothing that is asked of
//! such a file can be relied on.
ghost use Rattle.std.specs.Prelude.{◌≡◌, IfOk, IfErr, OnErr};
ghost use Rattle.sqlite.specs.State.{HasCleanDisk};
ghost use Rattle.mx_office.specs.Layout.{office_point};
ghost use Rattle.mx_office.specs.Office.{office_state, IsReady};
ghost use Rattle.mx_book_tables.specs.stands.Schemas.{HasTablesAt};
ghost use Rattle.mx_output.specs.endings.Status.{Shows, stop_status};
ghost use Rattle.mx_jobs.specs.Verified.{AsksVerified, TellsVerified};
ghost use Rattle.mx_output.specs.printed.Verified.{IsVerifiedLine, PrintsVerified};

use mx_office::Office;
use mx_output::endings::{Ending, Stop};
use mx_output::printed::print_answer;
use sqlite::Alter;
use std::alloc::Global;

/// Appends `verified` where the tables of an office stand for a book, and there is no other table; `differs` where each row
/// can be read and they do not. No table changes.
pub fn print_verified<S: Alter>(
    alloc: Global,
    office: &mut Office<S>,
    out: &mut Vec<u8>,
) -> Result<Ending, Stop>
    // What became of the office, and what was appended of its answer.
    ensures asked { AsksVerified office.old office.new
        (PrintsVerified out.old.items out.new.items result) }

    // What is printed: of whatever rows the tables have, and in any case.
    ensures told { IsReady office.old → HasCleanDisk (office_state office.new)
        → HasTablesAt office_point (office_state office.old).now.schema
        → TellsVerified (office_state office.old).now out.old.items out.new.items result }
    ensures shown { IfOk result (Shows IsVerifiedLine out.old.items out.new.items) }
    ensures unprinted { OnErr result (out.new.items ≡ out.old.items) }
    ensures status { IfErr result (λ stop. stop_status stop ≡ 4) }
{
    match office.verify(alloc) {
        Ok(same) => print_answer(out, same),
        Err(fault) => Err(Stop::Office(fault)),
    }
}
