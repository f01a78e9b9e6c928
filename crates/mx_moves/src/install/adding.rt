//! The commands of a book, added one after another to the tables of layout 1.
ghost use Rattle.std.specs.Prelude.{◌≡◌, [], ◌∷◌, ◌++◌, true, OnOk, IfErr, IsTrue};
ghost use Rattle.sqlite.specs.State.{HasCleanDisk};
ghost use Rattle.sqlite.specs.Held.{state};
ghost use Rattle.mx_book.specs.Book.{is_book};
ghost use Rattle.mx_book.specs.Judge.{judge};
ghost use Rattle.mx_registers.specs.Added.{AreAddedRows};
ghost use Rattle.mx_layout.specs.Crash.{StaysIn};
ghost use Rattle.mx_layout.specs.Point.{IsStop};
ghost use Rattle.mx_book_tables.specs.stands.Schemas.{schema_at};
ghost use Rattle.mx_tables.specs.inserts.Sets.{GainsRows};
ghost use Rattle.mx_moves.specs.install.Entries.{AddsEntries, FitsNext, first_point, with_command};

use mx_base::rows::RegisterRows;
use mx_book::Verdict;
use mx_book::commands::Command;
use mx_book::entry_list::Book;
use mx_layout::TableFault;
use mx_registers::entry_row;
use mx_registers::plain::added_rows;
use mx_tables::inserts::{Insert, Tables};
use sqlite::{Alter, Transaction};
use std::alloc::Global;

// Adds the rows of a command, in every table that it has rows in.
fn add_rows<S: Alter>(
    tx: &mut Transaction<'_, S>,
    book: &Book,
    command: &Command,
    rows: RegisterRows,
) -> Result<(), TableFault>
    requires { AreAddedRows book.now command.now rows }
    ensures stays { StaysIn S.Store (OnOk result) tx.old tx.new }
    ensures adds { let old = state S.Store tx.old.conn.now in
        let new = state S.Store tx.new.conn.now in
        HasCleanDisk new → IsTrue old.in_transaction → old.now.schema ≡ schema_at first_point
        → OnOk result (GainsRows (with_command book.now command.now) old.now new.now) }
    ensures fits { FitsNext book.now command.now }
{
    let beside = rows.into_pairs();
    let entry = entry_row(book.len() + 1, command);
    entry.insert(tx)?;
    beside.write(tx)
}

// Adds the rows of a command that is new behind the entries of a book. `Memory` where memory runs out for the rows,
// and `Store` for an error of the store.
fn add_command<S: Alter>(
    alloc: Global,
    tx: &mut Transaction<'_, S>,
    book: &Book,
    command: &Command,
) -> Result<(), TableFault>
    requires { judge book.now command.now ≡ Verdict.New }
    ensures same_reference { tx.new.conn.ghost_name ≡ tx.old.conn.ghost_name }
    ensures adds { AddsEntries book.now (book.now ++ command.now ∷ [])
        (state S.Store tx.old.conn.now) (state S.Store tx.new.conn.now) result }
    ensures cause { IfErr result IsStop }
{
    // A command has its shape.
    let _ = command.doc();
    let Ok(rows) = added_rows(alloc, book, command) else {
        return Err(TableFault::Memory);
    };
    match add_rows(tx, book, command, rows) {
        Ok(()) => Ok(()),
        Err(_) => Err(TableFault::Store),
    }
}

// Enters a copy of a command that is new.
fn enter_copy(alloc: Global, book: &mut Book, command: &Command) -> Result<(), TableFault>
    requires { judge book.old command.now ≡ Verdict.New }
    ensures entered { OnOk result (book.new ≡ book.old ++ command.now ∷ []) }
    ensures cause { IfErr result (λ fault. fault ≡ TableFault.Memory) }
{
    match book.enter(command.copy(alloc)?) {
        Ok(_) => Ok(()),
        Err(_) => Err(TableFault::Memory),
    }
}

/// Adds the entries of a book, in their order, to tables of layout 1 that stand for the book with no entry. `Memory`
/// where memory runs out for their rows, and `Store` for an error of the store: some of the rows may have been added
/// then, and the transaction is to be dropped.
pub(crate) fn add_all<S: Alter>(
    alloc: Global,
    tx: &mut Transaction<'_, S>,
    entries: &[Command],
) -> Result<(), TableFault>
    requires { is_book entries.now ≡ true }
    ensures same_reference { tx.new.conn.ghost_name ≡ tx.old.conn.ghost_name }
    ensures adds { AddsEntries [] entries.now
        (state S.Store tx.old.conn.now) (state S.Store tx.new.conn.now) result }
    ensures cause { IfErr result IsStop }
{
    let mut book = Book::new(alloc);
    'entries: for command in entries {
        add_command(alloc, tx, &book, command)?;
        enter_copy(alloc, &mut book, command)?;
    }
    Ok(())
}
