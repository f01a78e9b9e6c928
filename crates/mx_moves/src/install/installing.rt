//! A whole book as the tables of layout 1, made in a database that is empty.
//!
//! The rows of each entry are made behind those before it, and added, so that the tables stand for one entry more each
//! time, by what is said of the rows of one command. They are not all made before the first statement, as those of a
//! step are: want of memory on the way drops the transaction, which leaves nothing behind, and so it is told as
//! `Memory`; an error of a statement is `Store`. No entry is judged again: that each is new behind those before it is
//! what a `Book` is.
ghost use Rattle.std.specs.Prelude.{◌≡◌, ◌≢◌, ◌⊎◌, ◌≤◌, Some, None, false, IsErr, IsTrue, IfErr, MatchResult, OnOk};
ghost use Rattle.sqlite.specs.State.{HasCleanDisk};
ghost use Rattle.sqlite.specs.Held.{state};
ghost use Rattle.sqlite_catalog.specs.Listing.{IsSound};
ghost use Rattle.sqlite_trees.specs.View.{doubt};
ghost use Rattle.mx_layout.specs.Crash.{ChangesNothing, Leaves, RestsAs, StaysIn};
ghost use Rattle.mx_layout.specs.Listed.{IsRefusal};
ghost use Rattle.mx_layout.specs.Making.{IsBlank};
ghost use Rattle.mx_layout.specs.Point.{IsStop};
ghost use Rattle.mx_layout.specs.Tables.{no_schema};
ghost use Rattle.mx_book_tables.specs.stands.Schemas.{schema_at};
ghost use Rattle.mx_book_tables.specs.stands.Stands.{RestsAt, StandsAt};
ghost use Rattle.mx_moves.specs.install.Entries.{first_point};

use crate::install::adding::add_all;
use mx_book::entry_list::Book;
use mx_layout::listed::refusal_of;
use mx_layout::making::fill_new;
use mx_layout::{Layout, TableFault};
use sqlite::{Alter, Connection, Transaction};
use std::alloc::Global;

// Makes the tables and adds the rows of the book, unless there is a reason to make none.
fn install_in<S: Alter>(
    alloc: Global,
    tx: &mut Transaction<'_, S>,
    refusal: Option<TableFault>,
    book: &Book,
) -> Result<(), TableFault>
    ensures stays { StaysIn S.Store (OnOk result) tx.old tx.new }
    ensures makes { let old = state S.Store tx.old.conn.now in
        let new = state S.Store tx.new.conn.now in
        HasCleanDisk new → IsTrue old.in_transaction → IsBlank no_schema old.now
        → OnOk result ((new.now.schema ≡ schema_at first_point)
        × StandsAt first_point new.now.trees book.now) }
    ensures open { let old = state S.Store tx.old.conn.now in
        HasCleanDisk (state S.Store tx.new.conn.now)
        → MatchResult result (λ _. IsTrue old.is_open) (λ fault. IsStop fault
        ⊎ IsTrue old.is_open) }
    ensures unless { OnOk result (refusal ≡ None) }
    ensures faults { IfErr result (λ fault. IsStop fault ⊎ (refusal ≡ Some fault)) }
{
    if let Err(fault) = fill_new(tx, Layout(1), refusal) {
        return Err(fault);
    }
    add_all(alloc, tx, book.as_slice())
}

/// Makes the tables of layout 1 with the rows of a book in them, in one commit, where the database has no table, no
/// index and no view. Whatever the answer is, a crash leaves no table, or all of them with all rows.
///
/// # Errors
/// `Exists` where there is a table `office` already, `NotOurs` where there is none and the database is not empty, and
/// `Memory` where memory ran out: then nothing changed. `Store` for each other error, also of the commit, which may
/// have been made.
pub fn install_v1<S: Alter>(
    alloc: Global,
    conn: &mut Connection<S>,
    book: &Book,
) -> Result<(), TableFault>
    requires { conn.old.in_transaction ≡ false }
    ensures idle { conn.new.in_transaction ≡ false }
    ensures clean { doubt (state S.Store conn.old).is_clean ≤ doubt (state S.Store
        conn.new).is_clean }
    ensures installed { RestsAs (state S.Store conn.old) no_schema (IsSound no_schema)
        → OnOk result (RestsAt first_point (state S.Store conn.new) book.now) }
    ensures crash { RestsAs (state S.Store conn.old) no_schema (IsSound no_schema)
        → Leaves (state S.Store conn.new)
        (λ db. IsSound no_schema db ⊎ StandsAt first_point db book.now) }
    ensures unchanged { IfErr result (λ fault. fault ≢ TableFault.Store
        → ChangesNothing (state S.Store conn.old) (state S.Store conn.new)) }
    ensures not_here { RestsAs (state S.Store conn.old) no_schema (IsSound no_schema)
        → HasCleanDisk (state S.Store conn.new) → IfErr result IsStop }
    ensures taken { let old = state S.Store conn.old in
        HasCleanDisk (state S.Store conn.new) → (IsTrue old.is_open
        → old.now.schema ≢ no_schema) → IsErr result }
    ensures kept { let old = state S.Store conn.old in
        (IsTrue old.is_open → old.now.schema ≢ no_schema)
        → ChangesNothing old (state S.Store conn.new) }
    ensures faults { IfErr result (λ fault. IsStop fault
        ⊎ IsRefusal (state S.Store conn.old).now.schema fault) }
{
    let refusal = refusal_of(conn);
    let mut tx = conn.transaction();
    if let Err(fault) = install_in(alloc, &mut tx, refusal, book) {
        return Err(fault);
    }
    match tx.commit() {
        Ok(()) => Ok(()),
        Err(_) => Err(TableFault::Store),
    }
}
