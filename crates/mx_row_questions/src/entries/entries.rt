//! The commands of entries: of one by its number, and of those from a number on.
//!
//! In a book no number up to that of the last entry is missing. So one that has no entry is told damaged and not passed
//! over: a list that passed over it would answer others for those that were asked.
ghost use Rattle.std.specs.Prelude.{◌≡◌};
ghost use Rattle.sqlite.specs.Held.{state};
ghost use Rattle.mx_book.specs.Book.{entries_from, entry_at};
ghost use Rattle.mx_lookups.specs.numbers.AnyRows.{ReadsAny};
ghost use Rattle.mx_row_questions.specs.entries.Entries.{AreEntries, IsEntry};
ghost use Rattle.mx_row_questions.specs.entries.Damage.{IsSkipped, IsUnstated, ReadsOr};

use crate::entries::stated::{body_stated, command_said};
use mx_book::commands::Command;
use mx_layout::{Table, TableFault};
use mx_lookups::numbers::entries::entry_count;
use mx_table_rows::chosen::entries::entry_by_seq;
use sqlite::{Alter, Transaction};
use std::alloc::Global;

/// The command of the entry with this number, or `None` where there is no such entry. `Damaged` with the table of its kind
/// where its rows state nothing, or nothing of the shape of a command.
pub fn entry<S: Alter>(
    alloc: Global,
    tx: &mut Transaction<'_, S>,
    seq: u32,
) -> Result<Option<Command>, TableFault>
    ensures same_reference { tx.new.conn.ghost_name ≡ tx.old.conn.ghost_name }
    ensures reads { ReadsOr IsUnstated (λ book found. found ≡ entry_at book seq)
        (state S.Store tx.old.conn.now) (state S.Store tx.new.conn.now) result }
    ensures any_rows { ReadsAny (IsEntry seq)
        (state S.Store tx.old.conn.now) (state S.Store tx.new.conn.now) result }
{
    let rows = entry_by_seq(alloc, tx, seq)?;
    let Some(row) = rows.first() else {
        return Ok(None);
    };
    let said = body_stated(alloc, tx, seq, row.kind)?;
    let command = command_said(alloc, row, said)?;
    Ok(Some(command))
}

/// The commands of the entries from this number on, at most so many: each out of the rows of its kind. `Damaged` with `entry`
/// where a number before the last has none, and as `entry` says.
pub fn entries<S: Alter>(
    alloc: Global,
    tx: &mut Transaction<'_, S>,
    from: u32,
    at_most: u32,
) -> Result<Vec<Command>, TableFault>
    ensures same_reference { tx.new.conn.ghost_name ≡ tx.old.conn.ghost_name }
    ensures reads { ReadsOr IsSkipped (λ book found. found.items ≡ entries_from from at_most book)
        (state S.Store tx.old.conn.now) (state S.Store tx.new.conn.now) result }
    ensures any_rows { ReadsAny (λ trees found. AreEntries from at_most trees found.items)
        (state S.Store tx.old.conn.now) (state S.Store tx.new.conn.now) result }
{
    let last = entry_count(alloc, tx)?;
    let before = from.saturating_sub(1);
    let wanted = last.saturating_sub(before).min(at_most);
    let mut found = Vec::new(alloc);
    let mut asked = 0u32;
    while asked < wanted {
        let stated = entry(alloc, tx, before + asked + 1)?;
        match stated {
            Some(command) => found.push(command)?,
            None => return Err(TableFault::Damaged(Table::Entry)),
        }
        asked += 1;
    }
    Ok(found)
}
