//! What layout 2 keeps of all items of a file, which is read once.
//!
//! Sectors, fittings and removals all stand in their new tables when this is read, so the registers are read as a
//! file's of layout 2 are. What is known is never compared with the tables again: a commit of a move changes no
//! register, and no one else writes between two commits of a call, since the connection is lent for the call. That the
//! kept rows are of the book for which the tables stand is said by `kept_rows`, and over any rows that they are of the
//! book that the registers give; where they give none, that is told, and nothing is written.
ghost use Rattle.std.specs.Prelude.{◌≡◌, None, IsTrue};
ghost use Rattle.sqlite.specs.Held.{state};
ghost use Rattle.mx_layout.specs.Crash.{IsWithin};
ghost use Rattle.mx_migrate.specs.settle.Choices.{fault_by, FindsKept};

use crate::settle::numbers::late_table;
use mx_book_tables::reading::{register_rows, table_of};
use mx_layout::{Table, TableFault};
use mx_verify::derived::{KeptRows, Unkept, kept_rows};
use sqlite::{Alter, Transaction};
use std::alloc::Global;

// Why the registers give no kept rows, as the fault of a table: that of the entries, where no row is to blame.
fn fault_by(why: Unkept) -> TableFault
    ensures { result ≡ fault_by why }
{
    match why {
        Unkept::Memory => TableFault::Memory,
        Unkept::Damaged(kind) => TableFault::Damaged(table_of(kind)),
        Unkept::Differs => TableFault::Damaged(Table::Entry),
    }
}

// What the registers give.
fn read_kept<S: Alter>(alloc: Global, tx: &mut Transaction<'_, S>) -> Result<KeptRows, TableFault>
    ensures same_reference { tx.new.conn.ghost_name ≡ tx.old.conn.ghost_name }
    ensures finds { IsTrue (state S.Store tx.old.conn.now).in_transaction
        → FindsKept None (state S.Store tx.old.conn.now) (state S.Store tx.new.conn.now) result }
    ensures within { IsWithin (state S.Store tx.old.conn.now) (state S.Store tx.new.conn.now) }
{
    let rows = register_rows(alloc, tx)?;
    if let Some(table) = late_table(&rows) {
        return Err(TableFault::Damaged(table));
    }
    match kept_rows(alloc, rows) {
        Ok(kept) => Ok(kept),
        Err(why) => Err(fault_by(why)),
    }
}

/// What is kept of all items: what is known of it, which is taken, or else what the registers give.
///
/// # Errors
/// `Damaged` with a table of which a row is none of its type, or has a number that no entry can have, or with the one to blame
/// where the registers are those of no book; else `Memory` or `Store`.
pub(crate) fn kept_known<S: Alter>(
    alloc: Global,
    tx: &mut Transaction<'_, S>,
    known: &mut Option<KeptRows>,
) -> Result<KeptRows, TableFault>
    ensures same_reference { tx.new.conn.ghost_name ≡ tx.old.conn.ghost_name }
    ensures taken { known.new ≡ None }
    ensures finds { IsTrue (state S.Store tx.old.conn.now).in_transaction → FindsKept known.old
        (state S.Store tx.old.conn.now) (state S.Store tx.new.conn.now) result }
    ensures within { IsWithin (state S.Store tx.old.conn.now) (state S.Store tx.new.conn.now) }
{
    match known.take() {
        Some(kept) => Ok(kept),
        None => read_kept(alloc, tx),
    }
}
