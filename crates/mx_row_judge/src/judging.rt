//! The judge, asked inside a transaction.
//!
//! That questions were asked of `Rows` says that the connection is as it was, or that one `Reads` of anything leads
//! from it to what it is now. So the judge, which may ask nothing, needs no law of its own beside that of a look-up.
//! `judge_by_rows` asks for the number of entries first, which a new command needs anyway, and so has a whole `Reads`.
ghost use Rattle.std.specs.Prelude.{◌≡◌};
ghost use Rattle.mx_book.specs.Judge.{judge};
ghost use Rattle.mx_lookups.specs.numbers.LookUp.{IsLookUp};
ghost use Rattle.mx_row_judge.specs.Answering.{VerdictOf};
ghost use Rattle.mx_row_judge.specs.Damage.{JudgeDamage};

use crate::questions::JudgeQuestions;
use crate::view::Rows;
use mx_book::Verdict;
use mx_book::commands::Command;
use mx_book::judging::verdict_on;
use mx_layout::TableFault;
use mx_lookups::numbers::entries::entry_count;
use sqlite::{Alter, Transaction};
use std::alloc::Global;

/// The verdict on a command, judged by the rows that a transaction shows. It asks how many entries there are, and then what
/// judging asks, each by the rows that have what is asked for: a row that no question finds is not looked at.
pub fn judge_by_rows<S: Alter>(
    alloc: Global,
    tx: &mut Transaction<'_, S>,
    command: &Command,
) -> Result<Verdict, TableFault>
    ensures looks_up { IsLookUp S.Store
        (λ book verdict. verdict ≡ judge book command.now)
        (VerdictOf command.now)
        JudgeDamage
        tx.old tx.new result }
{
    entry_count(alloc, tx)?;
    let mut rows = Rows {
        alloc,
        tx,
        questions: JudgeQuestions,
    };
    verdict_on(&mut rows, command)
}
