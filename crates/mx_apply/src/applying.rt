//! A command, judged, written and committed.
ghost use Rattle.std.specs.Prelude.{◌≡◌, false};
ghost use Rattle.sqlite.specs.Held.{state};
ghost use Rattle.sqlite.specs.State.{Survives};
ghost use Rattle.mx_lookups.specs.numbers.Told.{TellsDamage};
ghost use Rattle.mx_apply.specs.Applies.{Applies, HasOneCommit, Runs};
ghost use Rattle.mx_apply.specs.Judged.{CommandDamage};

use crate::judged::{Judged, verdict_and_rows};
use crate::writing::write_rows;
use mx_book::Reply;
use mx_book::commands::Command;
use mx_layout::TableFault;
use sqlite::{Alter, Connection, Transaction};
use std::alloc::Global;

// Judges a command inside a transaction, and writes its rows where it is new.
fn run_command<S: Alter>(
    alloc: Global,
    tx: &mut Transaction<'_, S>,
    command: &Command,
) -> Result<Reply, TableFault>
    ensures same_reference { tx.new.conn.ghost_name ≡ tx.old.conn.ghost_name }
    ensures runs { Runs command.now
        (state S.Store tx.old.conn.now) (state S.Store tx.new.conn.now) result }
    ensures damage { TellsDamage (CommandDamage command.now)
        (state S.Store tx.old.conn.now) (state S.Store tx.new.conn.now) result }
{
    // A command has its shape.
    let _ = command.doc();
    match verdict_and_rows(alloc, tx, command)? {
        Judged::New(rows) => {
            let seq = rows.entry.seq;
            write_rows(tx, rows)?;
            Ok(Reply::Accepted(seq))
        }
        Judged::Already(seq) => Ok(Reply::Already(seq)),
        Judged::Refused(refusal) => Ok(Reply::Refused(refusal)),
    }
}

/// Hands in a command, in a transaction of its own: it is judged by the rows of the tables, and where it is new its rows are
/// written and committed.
///
/// # Errors
/// `Memory` for want of memory, and `Damaged` with a table that no book gives: then nothing changed. `Store` for an error of the
/// store, also of the commit, of which it is then not known whether it was kept.
pub fn apply<S: Alter>(
    alloc: Global,
    conn: &mut Connection<S>,
    command: &Command,
) -> Result<Reply, TableFault>
    requires { conn.old.in_transaction ≡ false }
    ensures idle { conn.new.in_transaction ≡ false }
    // Over whatever rows, and whatever is answered: a crash leaves the tables from before, or those with this one commit.
    ensures survives { Survives (state S.Store conn.old) (state S.Store conn.new)
        (HasOneCommit command.now (state S.Store conn.old)) }
    ensures applies { Applies command.now (state S.Store conn.old) (state S.Store conn.new) result }
    // Over whatever rows: a table is told damaged only for rows that judging or making this command chose.
    ensures damage { TellsDamage (CommandDamage command.now)
        (state S.Store conn.old) (state S.Store conn.new) result }
{
    let mut tx = conn.transaction();
    match run_command(alloc, &mut tx, command)? {
        Reply::Accepted(seq) => match tx.commit() {
            Ok(_) => Ok(Reply::Accepted(seq)),
            Err(_) => Err(TableFault::Store),
        },
        told => Ok(told),
    }
}
