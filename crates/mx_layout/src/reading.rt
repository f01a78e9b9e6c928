//! Reading the point that a file is at.
//!
//! The row of `office` is written by `create` and by each step of a move (`set_point` of `mx_moves`), and read here: so
//! it has no insert and no reader in `mx_tables`. A query can't tell a view `office` from the table, so `point` looks
//! the table up beside it; `point_in`, inside a transaction, sees no schema, and its `absent` speaks of a database in
//! which neither a table nor a view has the name. The type `Point` stands in `mx_base`, since the toolchain makes a
//! file of each name, and a module can't have both `Point` and `point`.

ghost use Rattle.std.specs.Prelude.{◌≡◌, ◌⊎◌, ◌<◌, ◌^◌, [], ◌∷◌, ℕ, pos, false, true, length, IsTrue, OnOk, IfOk, IfErr, IsErrAnd, MatchOption, MatchResult};
ghost use Rattle.sqlite.specs.declared.types.Value.TheVariants.{Int};
ghost use Rattle.sqlite.specs.Order.{column};
ghost use Rattle.sqlite.specs.State.{HasCleanDisk, IsUnchanged};
ghost use Rattle.sqlite.specs.Held.{state};
ghost use Rattle.mx_layout.specs.Contents.{rows_in};
ghost use Rattle.mx_layout.specs.Crash.{StaysIn, ChangesNothing};
ghost use Rattle.mx_layout.specs.Listed.{FindsNoOffice, LacksOffice};
ghost use Rattle.mx_layout.specs.Point.{point_cells, FitsPoint, IsPoint, HoldsBelow, IsStop, IsUnread, IsNoPoint, HoldsPoint, AnswersPoint, TellsPoint, ReadsPoint, ReadsExactly, ReadsNone, unnamed};
ghost use Rattle.mx_layout.specs.Tables.{office, HasOffice};

use crate::fault::{Table, TableFault, fault_of};
use crate::listed::has_office;
use mx_base::Point;
use sqlite::types::ValueRef;
use sqlite::{Alter, Connection, Error, Row, Transaction};

/// The number in a column, if it is one of 32 bits.
fn number_at(row: &Row, at: usize) -> Option<u32>
    requires { at < length row.now }
    ensures { MatchOption result (¬ HoldsBelow (2 ^ 32) (column row.now at))
        (λ n. (column row.now at ≡ Int (pos n)) × (n < 2 ^ 32)) }
{
    match row.get_ref(at) {
        Ok(ValueRef::Int(number)) => u32::try_from(number).ok(),
        _ => None,
    }
}

/// The number in a column, if it is one of 8 bits.
fn byte_at(row: &Row, at: usize) -> Option<u8>
    requires { at < length row.now }
    ensures { MatchOption result (¬ HoldsBelow (2 ^ 8) (column row.now at))
        (λ n. (column row.now at ≡ Int (pos n)) × (n < 2 ^ 8)) }
{
    u8::try_from(number_at(row, at)?).ok()
}

/// The point that the values of a row are.
fn point_of(row: &Row) -> Option<Point>
    ensures { MatchOption result (¬ IsPoint row.now) (λ p. row.now ≡ point_cells p) }
{
    if row.column_count() != 4 {
        return None;
    }
    if number_at(row, 0)? != 1 {
        return None;
    }
    Some(Point {
        layout: byte_at(row, 1)?,
        step: byte_at(row, 2)?,
        mark: number_at(row, 3)?,
    })
}

/// The point that the rows of `office` are.
fn only_point(found: &[Row]) -> Result<Point, TableFault>
    ensures { MatchResult result (λ p. found.now ≡ point_cells p ∷ []) (IsNoPoint found.now) }
{
    if found.len() != 1 {
        return Err(TableFault::NotOurs);
    }
    match point_of(&found[0]) {
        Some(point) => Ok(point),
        None => Err(TableFault::Damaged(Table::Office)),
    }
}

/// The point that a query of `office` answered, or why there is none: `NotOurs` where its text was refused.
fn point_found(answer: Result<Vec<Row>, Error>) -> Result<Point, TableFault>
    ensures found { IfOk answer (λ rows. MatchResult result
        (λ p. rows.items ≡ point_cells p ∷ []) (IsNoPoint rows.items)) }
    ensures stopped { IfErr answer (λ error. IsErrAnd result (IsUnread error)) }
{
    match answer {
        Ok(found) => only_point(&found),
        Err(Error::SqlInputError(_)) => Err(TableFault::NotOurs),
        Err(error) => Err(fault_of(error)),
    }
}

/// The point that the file is at, read inside a transaction. A view `office` is read as the table is: [`point`] tells
/// the two apart.
///
/// # Errors
/// `NotOurs` where the file's tables have no such statement, or `office` has not exactly one row;
/// `Damaged(Table::Office)` where that row is no point; else `Memory` or `Store`.
pub fn point_in<S: Alter>(tx: &mut Transaction<'_, S>) -> Result<Point, TableFault>
    ensures stays { StaysIn S.Store (OnOk result) tx.old tx.new }
    ensures unchanged { let old = state S.Store tx.old.conn.now in
        let new = state S.Store tx.new.conn.now in
        HasCleanDisk new → HasOffice old.now.schema → OnOk result (IsUnchanged old new) }
    ensures answered { HasCleanDisk (state S.Store tx.new.conn.now)
        → AnswersPoint (state S.Store tx.old.conn.now) (state S.Store tx.new.conn.now) result }
    ensures reads { let old = state S.Store tx.old.conn.now in
        HasCleanDisk (state S.Store tx.new.conn.now) → (IsTrue old.is_open
        → HasOffice old.now.schema) → ReadsPoint (rows_in office old.now.trees) result }
    ensures exact { let old = state S.Store tx.old.conn.now in
        (p : Point) → HasCleanDisk (state S.Store tx.new.conn.now) → (IsTrue old.is_open
        → HoldsPoint p old.now) → FitsPoint p → ReadsExactly p result }
    ensures absent { let old = state S.Store tx.old.conn.now in
        HasCleanDisk (state S.Store tx.new.conn.now) → (IsTrue old.is_open
        → FindsNoOffice old.now.schema) → ReadsNone result }
    ensures open { let old = state S.Store tx.old.conn.now in
        HasCleanDisk (state S.Store tx.new.conn.now)
        → MatchResult result (λ _. IsTrue old.is_open) (λ fault. IsStop fault
        ⊎ IsTrue old.is_open) }
{
    let answer = tx.query_all("SELECT id, layout, step, mark FROM office ORDER BY id", &[]);
    point_found(answer)
}

/// What is answered where no table is named `office`, whatever a view of that name showed.
fn unnamed(read: Result<Point, TableFault>) -> TableFault
    ensures { result ≡ unnamed read }
{
    match read {
        Err(TableFault::Memory) => TableFault::Memory,
        Err(TableFault::Store) => TableFault::Store,
        _ => TableFault::NotOurs,
    }
}

/// The point that the file is at. Nothing is changed, whatever the answer is.
///
/// # Errors
/// `NotOurs` where no table is named `office`, whatever else there is; and those of [`point_in`].
pub fn point<S: Alter>(conn: &mut Connection<S>) -> Result<Point, TableFault>
    requires { conn.old.in_transaction ≡ false }
    ensures idle { conn.new.in_transaction ≡ false }
    ensures unchanged { ChangesNothing (state S.Store conn.old) (state S.Store conn.new) }
    ensures told { HasCleanDisk (state S.Store conn.new) → TellsPoint S.Store conn.old result }
    ensures reads { let old = state S.Store conn.old in
        HasCleanDisk (state S.Store conn.new) → (IsTrue old.is_open → HasOffice old.now.schema)
        → ReadsPoint (rows_in office old.now.trees) result }
    ensures exact { let old = state S.Store conn.old in
        (p : Point) → HasCleanDisk (state S.Store conn.new) → (IsTrue old.is_open
        → HoldsPoint p old.now) → FitsPoint p → ReadsExactly p result }
    ensures absent { let old = state S.Store conn.old in
        HasCleanDisk (state S.Store conn.new) → (IsTrue old.is_open
        → LacksOffice old.now.schema) → ReadsNone result }
    ensures open { let old = state S.Store conn.old in
        HasCleanDisk (state S.Store conn.new)
        → MatchResult result (λ _. IsTrue old.is_open) (λ fault. IsStop fault
        ⊎ IsTrue old.is_open) }
{
    let named = has_office(conn);
    let mut tx = conn.transaction();
    let read = point_in(&mut tx);
    if named { read } else { Err(unnamed(read)) }
}
