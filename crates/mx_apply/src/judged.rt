//! What the rows that a transaction shows say of a command.
ghost use Rattle.std.specs.Prelude.{◌≡◌};
ghost use Rattle.sqlite.specs.Held.{state};
ghost use Rattle.mx_lookups.specs.numbers.AnyRows.{ReadsAny};
ghost use Rattle.mx_lookups.specs.numbers.Reads.{Reads};
ghost use Rattle.mx_lookups.specs.numbers.Told.{TellsDamage};
ghost use Rattle.mx_apply.specs.Judged.{CommandDamage, IsJudged, JudgedOf};

use crate::made::rows_of_command;
use mx_book::commands::Command;
use mx_book::{Refusal, Verdict};
use mx_layout::TableFault;
use mx_row_judge::judging::judge_by_rows;
use mx_row_rules::changes::CommandRows;
use sqlite::{Alter, Transaction};
use std::alloc::Global;

/// What the rows say of a command that is handed in.
#[derive(Drop)]
pub enum Judged {
    /// It is new: these are its rows.
    New(CommandRows),
    /// The entry with this number has its document and equal contents.
    Already(u32),
    /// It may not be entered.
    Refused(Refusal),
}

/// The verdict on a command, and its rows where it is new. Nothing is written, and all room that the writing takes is made.
///
/// # Errors
/// `Memory` for want of memory, `Store` for an error of the store, and `Damaged` with a table as the look-ups tell it.
pub fn verdict_and_rows<S: Alter>(
    alloc: Global,
    tx: &mut Transaction<'_, S>,
    command: &Command,
) -> Result<Judged, TableFault>
    ensures same_reference { tx.new.conn.ghost_name ≡ tx.old.conn.ghost_name }
    ensures reads { Reads (IsJudged command.now)
        (state S.Store tx.old.conn.now) (state S.Store tx.new.conn.now) result }
    ensures any_rows { ReadsAny (JudgedOf command.now)
        (state S.Store tx.old.conn.now) (state S.Store tx.new.conn.now) result }
    ensures damage { TellsDamage (CommandDamage command.now)
        (state S.Store tx.old.conn.now) (state S.Store tx.new.conn.now) result }
{
    let verdict = judge_by_rows(alloc, tx, command)?;
    match verdict {
        Verdict::New => {
            let rows = rows_of_command(alloc, tx, command)?;
            Ok(Judged::New(rows))
        }
        Verdict::Already(seq) => Ok(Judged::Already(seq)),
        Verdict::Refused(refusal) => Ok(Judged::Refused(refusal)),
    }
}
