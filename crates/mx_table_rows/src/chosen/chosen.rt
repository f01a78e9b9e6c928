//! Chosen rows of a table, whatever the table is.
ghost use Rattle.std.specs.Prelude.{◌≡◌, ◌⊎◌, ℕ, Bool, List, Option, map, All, IsTrue, IfOk, IfErr};
ghost use Rattle.std.specs.declared.cmp.Ordering.{Ordering};
ghost use Rattle.sqlite.specs.declared.types.Value.{Value};
ghost use Rattle.sqlite.specs.Table.{Table};
ghost use Rattle.sqlite.specs.Values.{bound};
ghost use Rattle.sqlite.specs.State.{HasCleanDisk, IsUnchanged};
ghost use Rattle.sqlite.specs.Held.{state};
ghost use Rattle.mx_layout.specs.Crash.{StaysInside, IsWithin};
ghost use Rattle.mx_layout.specs.Reading.{HasOther};
ghost use Rattle.mx_layout.specs.kept.Family.{IsReadableAs};
ghost use Rattle.mx_tables.specs.Calls.{OnRead};
ghost use Rattle.mx_table_rows.specs.chosen.Choices.{AreFirst};
ghost use Rattle.mx_table_rows.specs.chosen.Lookups.{FindsFirst, Deletes};
ghost use Rattle.mx_table_rows.specs.chosen.Calls.{ShowsFirst, ReadsFirst, DeletesRows};

use mx_layout::TableFault;
use mx_layout::statement::execute;
use mx_tables::stored::{Stored, answered};
use sqlite::types::ValueRef;
use sqlite::{Alter, Transaction};
use std::alloc::Global;

// Chosen rows of a table, by a text that shows them. `Damaged` with the table where one of them is none of the type.
fn read_chosen<S: Alter, R: Stored + Drop>(
    alloc: Global,
    tx: &mut Transaction<'_, S>,
    table: mx_layout::Table,
    sql: &str,
    values: &[ValueRef<'_>],
) -> Result<Vec<R>, TableFault>
    ensures same_reference { tx.new.conn.ghost_name ≡ tx.old.conn.ghost_name }
    ensures inside { let old = state S.Store tx.old.conn.now in
        let new = state S.Store tx.new.conn.now in
        HasCleanDisk new → IsTrue old.in_transaction → OnRead result (StaysInside old new) }
    ensures rows { let old = state S.Store tx.old.conn.now in
        let new = state S.Store tx.new.conn.now in
        (most : Option ℕ) (shown : Table) (order : List Value → List Value → Ordering)
        (chosen : List Value → Bool)
        → ShowsFirst sql.now (bound values.now) most shown order chosen old new
        → HasCleanDisk new → IfOk result
        (λ rows. AreFirst most order shown chosen old.now.trees (map R.kept.as_cells rows.items)) }
    ensures fits { IfOk result (λ rows. All R.kept.Fits rows.items) }
    ensures unchanged { let old = state S.Store tx.old.conn.now in
        let new = state S.Store tx.new.conn.now in
        (most : Option ℕ) (shown : Table) (order : List Value → List Value → Ordering)
        (chosen : List Value → Bool)
        → ShowsFirst sql.now (bound values.now) most shown order chosen old new
        → HasCleanDisk new → OnRead result (IsUnchanged old new) }
    ensures cause { IfErr result (λ e. (e ≡ TableFault.Memory) ⊎ ((e ≡ TableFault.Store)
        ⊎ (e ≡ TableFault.Damaged table))) }
    ensures damaged { let old = state S.Store tx.old.conn.now in
        let new = state S.Store tx.new.conn.now in
        (most : Option ℕ) (shown : Table) (order : List Value → List Value → Ordering)
        (chosen : List Value → Bool)
        → ShowsFirst sql.now (bound values.now) most shown order chosen old new
        → HasCleanDisk new → result ≡ Err (TableFault.Damaged table)
        → (rows : List (List Value)) × AreFirst most order shown chosen old.now.trees rows
        × HasOther (IsReadableAs R.kept) rows }
    ensures within { IsWithin (state S.Store tx.old.conn.now) (state S.Store tx.new.conn.now) }
{
    let answer = tx.query_all(sql, values);
    answered(alloc, table, answer)
}

/// The rows of a table that are chosen by these values, in the order of the text. `Memory` for want of memory, `Store`
/// for an error of the store, and `Damaged` with the table where one of these rows is none of the type.
pub fn rows_chosen<S: Alter, R: Stored + Drop>(
    alloc: Global,
    tx: &mut Transaction<'_, S>,
    sql: &str,
    values: &[ValueRef<'_>],
) -> Result<Vec<R>, TableFault>
    ensures same_reference { tx.new.conn.ghost_name ≡ tx.old.conn.ghost_name }
    ensures reads { (most : Option ℕ) (order : List Value → List Value → Ordering)
        (chosen : List Value → List Value → Bool) (given : List Value)
        → FindsFirst R.kept sql.now most order chosen → bound values.now ≡ given
        → ReadsFirst R.kept most order (chosen given) (λ rows. rows.items)
        (state S.Store tx.old.conn.now) (state S.Store tx.new.conn.now) result }
{
    read_chosen(alloc, tx, R::texts().table, sql, values)
}

/// Deletes the rows of a table that are chosen by these values.
pub fn delete_rows<S: Alter, R: Stored>(
    tx: &mut Transaction<'_, S>,
    sql: &str,
    values: &[ValueRef<'_>],
) -> Result<(), TableFault>
    ensures same_reference { tx.new.conn.ghost_name ≡ tx.old.conn.ghost_name }
    ensures deletes { (chosen : List Value → List Value → Bool) (given : List Value)
        → Deletes R.kept sql.now chosen → bound values.now ≡ given
        → DeletesRows R.kept (chosen given)
        (state S.Store tx.old.conn.now) (state S.Store tx.new.conn.now) result }
{
    execute(tx, sql, values)
}
