//! A table as a set of rows of one type: how they are kept, and all of them, which are read.
//!
//! A reader answers `Damaged` where a row is none of its type, and its clauses still say that nothing changed. That a
//! damaged row is never answered over tables that stand for a book is a clause of the office.
ghost use Rattle.std.specs.Prelude.{◌≡◌, ◌≢◌, ◌⊎◌, List, map, All, IfOk, IfErr, IsErr, MatchOption};
ghost use Rattle.std.specs.declared.cmp.Ordering.{Ordering};
ghost use Rattle.sqlite.specs.declared.types.Value.{Value};
ghost use Rattle.sqlite.specs.Table.{Table};
ghost use Rattle.sqlite.specs.State.{HasCleanDisk, IsUnchanged};
ghost use Rattle.sqlite.specs.Held.{state};
ghost use Rattle.mx_layout.specs.Contents.{rows_in};
ghost use Rattle.mx_layout.specs.Crash.{StaysIn};
ghost use Rattle.mx_layout.specs.Point.{IsFaultOf};
ghost use Rattle.mx_layout.specs.Reading.{AreAllBy, HasOther};
ghost use Rattle.mx_layout.specs.kept.Kept.{Kept};
ghost use Rattle.mx_layout.specs.kept.Family.{IsReadableAs};
ghost use Rattle.mx_layout.specs.kept.Meanings.{IsLawful};
ghost use Rattle.mx_tables.specs.Calls.{ShowsAll, OnRead, ReadsRows};

use mx_layout::TableFault;
use mx_layout::fault::fault_of;
use sqlite::{Alter, Error, Row, Transaction};
use std::alloc::Global;

/// The name of a table, and its two texts: the one that shows all rows, and the one that adds a row.
#[derive(Clone, Copy)]
pub struct Texts {
    pub table: mx_layout::Table,
    pub select: &'static str,
    pub insert: &'static str,
}

/// A type of rows that a table holds.
pub trait Stored: Sized {
    // How they are kept.
    ghost kept: { Kept Self };

    /// The name of the table, and its texts.
    fn texts() -> Texts
        ensures table { result.table ≡ kept.name }
        ensures select { result.select.now ≡ kept.select }
        ensures insert { result.insert.now ≡ kept.insert };

    /// The row that these values are, or `None` where they are those of no row of the type.
    fn read(row: &Row) -> Option<Self>
        ensures { MatchOption result ((x : Self) → kept.Fits x → row.now ≢ kept.as_cells x)
            (λ x. (row.now ≡ kept.as_cells x) × kept.Fits x) };

    // What the texts mean, in each schema that has the table.
    ghost lawful: { IsLawful kept };
}

// The rows of an answer by their type. `Damaged` with the table where one is none.
fn typed<R: Stored + Drop>(
    alloc: Global,
    table: mx_layout::Table,
    found: &[Row],
) -> Result<Vec<R>, TableFault>
    ensures rows { IfOk result (λ rows. map R.kept.as_cells rows.items ≡ found.now) }
    ensures fits { IfOk result (λ rows. All R.kept.Fits rows.items) }
    ensures cause { IfErr result (λ e. (e ≡ TableFault.Memory) ⊎ (e ≡ TableFault.Damaged table)) }
    ensures damaged { result ≡ Err (TableFault.Damaged table)
        → HasOther (IsReadableAs R.kept) found.now }
{
    let mut rows = Vec::new(alloc);
    'rows: for row in found {
        let Some(x) = R::read(row) else {
            return Err(TableFault::Damaged(table));
        };
        rows.push(x)?;
    }
    Ok(rows)
}

/// What a query answered, by the type of its rows. `Damaged` with the table where one is none; where there is no
/// answer, the fault that the error is.
pub fn answered<R: Stored + Drop>(
    alloc: Global,
    table: mx_layout::Table,
    answer: Result<Vec<Row>, Error>,
) -> Result<Vec<R>, TableFault>
    ensures stopped { IfErr answer (λ error. IsErr result × IfErr result (IsFaultOf error)) }
    ensures rows { IfOk answer (λ found.
        IfOk result (λ rows. map R.kept.as_cells rows.items ≡ found.items)) }
    ensures fits { IfOk result (λ rows. All R.kept.Fits rows.items) }
    ensures cause { IfErr result (λ e. (e ≡ TableFault.Memory) ⊎ ((e ≡ TableFault.Store)
        ⊎ (e ≡ TableFault.Damaged table))) }
    ensures damaged { IfOk answer (λ found. result ≡ Err (TableFault.Damaged table)
        → HasOther (IsReadableAs R.kept) found.items) }
{
    match answer {
        Ok(found) => typed(alloc, table, &found),
        Err(failed) => Err(fault_of(failed)),
    }
}

// All rows of a table, by a text that shows them. `Damaged` with the table where a row is none of the type.
fn read_rows<S: Alter, R: Stored + Drop>(
    alloc: Global,
    tx: &mut Transaction<'_, S>,
    table: mx_layout::Table,
    sql: &str,
) -> Result<Vec<R>, TableFault>
    ensures stays { StaysIn S.Store (OnRead result) tx.old tx.new }
    ensures rows { let old = state S.Store tx.old.conn.now in
        let new = state S.Store tx.new.conn.now in
        (shown : Table) (order : List Value → List Value → Ordering)
        → ShowsAll sql.now shown order old new → HasCleanDisk new
        → IfOk result
        (λ rows. AreAllBy order shown old.now.trees (map R.kept.as_cells rows.items)) }
    ensures fits { IfOk result (λ rows. All R.kept.Fits rows.items) }
    ensures unchanged { let old = state S.Store tx.old.conn.now in
        let new = state S.Store tx.new.conn.now in
        (shown : Table) (order : List Value → List Value → Ordering)
        → ShowsAll sql.now shown order old new → HasCleanDisk new
        → OnRead result (IsUnchanged old new) }
    ensures cause { IfErr result (λ e. (e ≡ TableFault.Memory) ⊎ ((e ≡ TableFault.Store)
        ⊎ (e ≡ TableFault.Damaged table))) }
    ensures damaged { let old = state S.Store tx.old.conn.now in
        let new = state S.Store tx.new.conn.now in
        (shown : Table) (order : List Value → List Value → Ordering)
        → ShowsAll sql.now shown order old new → HasCleanDisk new
        → result ≡ Err (TableFault.Damaged table)
        → HasOther (IsReadableAs R.kept) (rows_in shown old.now.trees) }
{
    let answer = tx.query_all(sql, &[]);
    answered(alloc, table, answer)
}

/// All rows of the table of a type, in the order of its key. `Memory` for want of memory, `Store` for an error of
/// the store, and `Damaged` with the table where a row is none of the type.
pub fn rows<S: Alter, R: Stored + Drop>(
    alloc: Global,
    tx: &mut Transaction<'_, S>,
) -> Result<Vec<R>, TableFault>
    ensures same_reference { tx.new.conn.ghost_name ≡ tx.old.conn.ghost_name }
    ensures reads { ReadsRows R.kept (λ rows. rows.items)
        (state S.Store tx.old.conn.now) (state S.Store tx.new.conn.now) result }
{
    let texts = R::texts();
    read_rows(alloc, tx, texts.table, texts.select)
}
