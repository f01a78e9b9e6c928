//! Making the tables of an empty book, in one commit.

ghost use Rattle.std.specs.Prelude.{◌≡◌, ◌≢◌, ◌⊎◌, ℕ, ◌<◌, ◌≤◌, [], ◌∷◌, true, false, Some, None, slice_get, IsTrue, IfOk, IfErr, OnOk, IsOk, IsErr, IsErrAnd, MatchResult};
ghost use Rattle.sqlite.specs.State.{HasCleanDisk, IsUnchanged};
ghost use Rattle.sqlite.specs.Held.{state};
ghost use Rattle.sqlite_catalog.specs.Listing.{IsSound};
ghost use Rattle.sqlite_trees.specs.View.{doubt};
ghost use Rattle.mx_layout.specs.CreateTexts.{done3_text};
ghost use Rattle.mx_layout.specs.Crash.{Leaves, RestsAs, StaysIn, IsWithin, ChangesNothing};
ghost use Rattle.mx_layout.specs.Listed.{IsRefusal};
ghost use Rattle.mx_layout.specs.Making.{IsBlank, IsEmptyIn};
ghost use Rattle.mx_layout.specs.Point.{point_cells, IsFaultOf, IsStop};
ghost use Rattle.mx_layout.specs.Steps.{step_texts, steps_of, schema_of, IsLayout};
ghost use Rattle.mx_layout.specs.Tables.{no_schema, office};
ghost use Rattle.mx_layout.specs.Writing.{Gains};

use crate::fault::{TableFault, fault_of};
use crate::layout::Layout;
use crate::listed::refusal_of;
use mx_base::Point;
use sqlite::{Alter, Connection, Error, Row, Transaction, params};

/// How many statements make a layout of no table.
fn steps_of(layout: Layout) -> u8
    ensures value { result ≡ steps_of layout.0 }
    ensures bound { result ≤ 35 }
{
    match layout.0 {
        1 => 15,
        2 => 28,
        _ => 35,
    }
}

/// The statement that makes `done3`.
fn done3_text() -> &'static str
    ensures { result.now ≡ done3_text }
{
    "CREATE TABLE done3 (item INTEGER NOT NULL, task TEXT NOT NULL, seq INTEGER NOT NULL, line INTEGER NOT NULL, value_m INTEGER NOT NULL, value_c INTEGER NOT NULL, value_d INTEGER NOT NULL, due_m INTEGER, due_c INTEGER, due_d INTEGER, base_m INTEGER NOT NULL, base_c INTEGER NOT NULL, base_d INTEGER NOT NULL, PRIMARY KEY (item, task, seq, line)) STRICT"
}

/// The statement at this place: 15 make layout 1, and those of the moves behind them each further layout.
fn step_text(at: u8) -> &'static str
    requires { at < 35 }
    ensures { slice_get step_texts at ≡ Some result.now }
{
    match at {
        0 =>
            "CREATE TABLE office (id INTEGER PRIMARY KEY CHECK (id = 1), layout INTEGER NOT NULL, step INTEGER NOT NULL, mark INTEGER NOT NULL) STRICT",
        1 =>
            "CREATE TABLE entry (seq INTEGER PRIMARY KEY, doc TEXT NOT NULL UNIQUE, kind INTEGER NOT NULL) STRICT",
        2 =>
            "CREATE TABLE aircraft (seq INTEGER PRIMARY KEY, tail TEXT NOT NULL UNIQUE, kind TEXT NOT NULL, birth INTEGER NOT NULL, minutes INTEGER NOT NULL, cycles INTEGER NOT NULL, as_of INTEGER NOT NULL) STRICT",
        3 =>
            "CREATE TABLE place (seq INTEGER NOT NULL, line INTEGER NOT NULL, position TEXT NOT NULL, part TEXT NOT NULL, PRIMARY KEY (seq, line)) STRICT",
        4 =>
            "CREATE TABLE component (seq INTEGER PRIMARY KEY, serial TEXT NOT NULL UNIQUE, part TEXT NOT NULL, birth INTEGER NOT NULL, minutes INTEGER NOT NULL, cycles INTEGER NOT NULL, as_of INTEGER NOT NULL) STRICT",
        5 =>
            "CREATE TABLE programme (seq INTEGER PRIMARY KEY, kind TEXT NOT NULL, revision INTEGER NOT NULL) STRICT",
        6 =>
            "CREATE TABLE task (seq INTEGER NOT NULL, line INTEGER NOT NULL, id TEXT NOT NULL, part TEXT, retire INTEGER NOT NULL, first_m INTEGER, first_c INTEGER, first_d INTEGER, rep_m INTEGER, rep_c INTEGER, rep_d INTEGER, tol_m INTEGER NOT NULL, tol_c INTEGER NOT NULL, tol_d INTEGER NOT NULL, PRIMARY KEY (seq, line)) STRICT",
        7 =>
            "CREATE TABLE opening (seq INTEGER PRIMARY KEY, item INTEGER NOT NULL, kind TEXT NOT NULL, task TEXT NOT NULL, minutes INTEGER NOT NULL, cycles INTEGER NOT NULL, day INTEGER NOT NULL) STRICT",
        8 =>
            "CREATE TABLE crs (seq INTEGER PRIMARY KEY, item INTEGER NOT NULL, kind TEXT, moment INTEGER NOT NULL) STRICT",
        9 =>
            "CREATE TABLE crs_line (seq INTEGER NOT NULL, line INTEGER NOT NULL, item INTEGER, task TEXT, defect INTEGER, PRIMARY KEY (seq, line)) STRICT",
        10 =>
            "CREATE TABLE extension (seq INTEGER PRIMARY KEY, defect INTEGER NOT NULL, day INTEGER NOT NULL, days INTEGER NOT NULL) STRICT",
        11 =>
            "CREATE TABLE defect (seq INTEGER PRIMARY KEY, aircraft INTEGER NOT NULL, moment INTEGER NOT NULL, reference TEXT NOT NULL, category INTEGER NOT NULL, days INTEGER) STRICT",
        12 =>
            "CREATE TABLE sector1 (seq INTEGER PRIMARY KEY, aircraft INTEGER NOT NULL, page INTEGER NOT NULL, line INTEGER NOT NULL, took_off TEXT NOT NULL, landed TEXT NOT NULL, cycles INTEGER NOT NULL) STRICT",
        13 =>
            "CREATE TABLE fit1 (seq INTEGER PRIMARY KEY, component INTEGER NOT NULL, aircraft INTEGER NOT NULL, position TEXT NOT NULL, moment TEXT NOT NULL) STRICT",
        14 =>
            "CREATE TABLE removal1 (seq INTEGER PRIMARY KEY, component INTEGER NOT NULL, moment TEXT NOT NULL) STRICT",
        15 =>
            "CREATE TABLE sector2 (seq INTEGER PRIMARY KEY, aircraft INTEGER NOT NULL, page INTEGER NOT NULL, line INTEGER NOT NULL, took_off INTEGER NOT NULL, landed INTEGER NOT NULL, cycles INTEGER NOT NULL) STRICT",
        16 => "DROP TABLE sector1",
        17 =>
            "CREATE TABLE span2 (fit_seq INTEGER PRIMARY KEY, component INTEGER NOT NULL, aircraft INTEGER NOT NULL, position TEXT NOT NULL, from_min INTEGER NOT NULL, remove_seq INTEGER, to_min INTEGER) STRICT",
        18 => "CREATE INDEX span2_by_component ON span2 (component)",
        19 => "CREATE INDEX span2_by_aircraft ON span2 (aircraft)",
        20 => "CREATE INDEX span2_by_remove_seq ON span2 (remove_seq)",
        21 => "DROP TABLE fit1",
        22 => "DROP TABLE removal1",
        23 =>
            "CREATE TABLE total2 (item INTEGER PRIMARY KEY, minutes INTEGER NOT NULL, cycles INTEGER NOT NULL, clock INTEGER NOT NULL) STRICT",
        24 =>
            "CREATE TABLE base2 (item INTEGER NOT NULL, task TEXT NOT NULL, minutes INTEGER NOT NULL, cycles INTEGER NOT NULL, day INTEGER NOT NULL, PRIMARY KEY (item, task)) STRICT",
        25 => "CREATE INDEX crs_line_by_defect ON crs_line (defect)",
        26 => "CREATE INDEX extension_by_defect ON extension (defect)",
        27 => "CREATE INDEX defect_by_aircraft ON defect (aircraft)",
        28 =>
            "CREATE TABLE defect3 (seq INTEGER PRIMARY KEY, aircraft INTEGER NOT NULL, moment INTEGER NOT NULL, reference TEXT NOT NULL, category INTEGER NOT NULL, days INTEGER, cycles INTEGER, found_cycles INTEGER NOT NULL) STRICT",
        29 => "DROP TABLE defect",
        30 => done3_text(),
        31 => "DROP TABLE base2",
        32 => "CREATE INDEX defect3_by_aircraft ON defect3 (aircraft)",
        33 => "CREATE INDEX sector2_by_aircraft ON sector2 (aircraft, took_off)",
        34 => "CREATE INDEX crs_by_item ON crs (item, moment)",
        _ => "",
    }
}

/// Makes the tables of the layout in the open transaction, statement after statement.
fn make_tables<S: Alter>(tx: &mut Transaction<'_, S>, layout: Layout) -> Result<(), Error>
    requires { IsLayout layout.0 }
    ensures same_reference { tx.new.conn.ghost_name ≡ tx.old.conn.ghost_name }
    ensures mode { let new = state S.Store tx.new.conn.now in
        HasCleanDisk new → IsTrue (state S.Store tx.old.conn.now).in_transaction
        → OnOk result (IsTrue new.in_transaction) }
    ensures makes { let old = state S.Store tx.old.conn.now in
        let new = state S.Store tx.new.conn.now in
        HasCleanDisk new → IsTrue old.in_transaction → IsBlank no_schema old.now
        → OnOk result (IsBlank (schema_of layout.0) new.now) }
    ensures within { IsWithin (state S.Store tx.old.conn.now) (state S.Store tx.new.conn.now) }
{
    for at in 0..steps_of(layout) {
        tx.execute(step_text(at), &[])?;
    }
    Ok(())
}

/// Adds the row of the point, in a schema of any layout.
fn insert_office<S: Alter>(tx: &mut Transaction<'_, S>, point: &Point) -> Result<usize, Error>
    ensures stays { StaysIn S.Store (OnOk result) tx.old tx.new }
    ensures adds { let old = state S.Store tx.old.conn.now in
        let new = state S.Store tx.new.conn.now in
        (layout : ℕ) → IsLayout layout → HasCleanDisk new → IsTrue old.in_transaction
        → old.now.schema ≡ schema_of layout → OnOk result (Gains office (point_cells point.now) old.now new.now) }
{
    tx.execute(
        "INSERT INTO office (id, layout, step, mark) VALUES (1, ?1, ?2, ?3)",
        params![u32::from(point.layout), u32::from(point.step), point.mark],
    )
}

/// Makes the tables of the layout and the row of its point in the open transaction.
fn fill<S: Alter>(tx: &mut Transaction<'_, S>, layout: Layout) -> Result<(), Error>
    requires { IsLayout layout.0 }
    ensures stays { StaysIn S.Store (OnOk result) tx.old tx.new }
    ensures makes { let old = state S.Store tx.old.conn.now in
        let new = state S.Store tx.new.conn.now in
        HasCleanDisk new → IsTrue old.in_transaction → IsBlank no_schema old.now
        → OnOk result ((new.now.schema ≡ schema_of layout.0)
        × IsEmptyIn layout.0 new.now.trees) }
{
    make_tables(tx, layout)?;
    let point = Point {
        layout: layout.0,
        step: 0,
        mark: 0,
    };
    insert_office(tx, &point)?;
    Ok(())
}

/// What a query of no table answered: nothing, or the fault that its error is.
fn answered(answer: Result<Vec<Row>, Error>) -> Result<(), TableFault>
    ensures ok { IfOk answer (λ _. IsOk result) }
    ensures stopped { IfErr answer (λ error. IsErrAnd result (IsFaultOf error)) }
{
    match answer {
        Ok(_) => Ok(()),
        Err(error) => Err(fault_of(error)),
    }
}

/// Asks for a row of no table, so that it is known whether the connection answers at all.
fn ask<S: Alter>(tx: &mut Transaction<'_, S>) -> Result<(), TableFault>
    ensures same_reference { tx.new.conn.ghost_name ≡ tx.old.conn.ghost_name }
    ensures open { HasCleanDisk (state S.Store tx.new.conn.now)
        → OnOk result (IsTrue (state S.Store tx.old.conn.now).is_open) }
    ensures unchanged { let new = state S.Store tx.new.conn.now in
        HasCleanDisk new → OnOk result (IsUnchanged (state S.Store tx.old.conn.now) new) }
    ensures stopped { IfErr result IsStop }
    ensures within { IsWithin (state S.Store tx.old.conn.now) (state S.Store tx.new.conn.now) }
{
    let answer = tx.query_all("SELECT 1", &[]);
    answered(answer)
}

/// Makes the tables of the layout and the row of its point, unless there is a reason to make none.
pub fn fill_new<S: Alter>(
    tx: &mut Transaction<'_, S>,
    layout: Layout,
    refusal: Option<TableFault>,
) -> Result<(), TableFault>
    requires { IsLayout layout.0 }
    ensures stays { StaysIn S.Store (OnOk result) tx.old tx.new }
    ensures makes { let old = state S.Store tx.old.conn.now in
        let new = state S.Store tx.new.conn.now in
        HasCleanDisk new → IsTrue old.in_transaction → IsBlank no_schema old.now
        → OnOk result ((new.now.schema ≡ schema_of layout.0)
        × IsEmptyIn layout.0 new.now.trees) }
    ensures open { let old = state S.Store tx.old.conn.now in
        HasCleanDisk (state S.Store tx.new.conn.now)
        → MatchResult result (λ _. IsTrue old.is_open) (λ fault. IsStop fault
        ⊎ IsTrue old.is_open) }
    ensures unless { OnOk result (refusal ≡ None) }
    ensures faults { IfErr result (λ fault. IsStop fault ⊎ (refusal ≡ Some fault)) }
{
    ask(tx)?;
    if let Some(fault) = refusal {
        return Err(fault);
    }
    match fill(tx, layout) {
        Ok(()) => Ok(()),
        Err(_) => Err(TableFault::Store),
    }
}

/// Makes the tables of an empty book in this layout, in one commit, where the database has no table, no index and no
/// view. Whatever the answer is, a crash leaves no table or all of them.
///
/// # Errors
/// `Exists` where there is a table `office` already, `NotOurs` where there is none and the database is not empty, and
/// `Memory` where memory ran out before the first table: then nothing changed. `Store` for each other error, also of
/// the commit, which may have been made.
pub fn create<S: Alter>(conn: &mut Connection<S>, layout: Layout) -> Result<(), TableFault>
    requires idle { conn.old.in_transaction ≡ false }
    requires built { IsLayout layout.0 }
    ensures idle { conn.new.in_transaction ≡ false }
    ensures clean { doubt (state S.Store conn.old).is_clean ≤ doubt (state S.Store
        conn.new).is_clean }
    ensures made { RestsAs (state S.Store conn.old) no_schema (IsSound no_schema)
        → OnOk result (RestsAs (state S.Store conn.new) (schema_of layout.0)
        (IsEmptyIn layout.0)) }
    ensures crash { RestsAs (state S.Store conn.old) no_schema (IsSound no_schema)
        → Leaves (state S.Store conn.new) (λ db. IsSound no_schema db ⊎ IsEmptyIn layout.0 db) }
    ensures unchanged { IfErr result (λ fault. fault ≢ TableFault.Store
        → ChangesNothing (state S.Store conn.old) (state S.Store conn.new)) }
    ensures not_here { RestsAs (state S.Store conn.old) no_schema (IsSound no_schema)
        → HasCleanDisk (state S.Store conn.new) → IfErr result IsStop }
    ensures taken { let old = state S.Store conn.old in
        HasCleanDisk (state S.Store conn.new) → (IsTrue old.is_open
        → old.now.schema ≢ no_schema) → IsErr result }
    ensures kept { let old = state S.Store conn.old in
        (IsTrue old.is_open → old.now.schema ≢ no_schema)
        → ChangesNothing old (state S.Store conn.new) }
    ensures faults { IfErr result (λ fault. IsStop fault
        ⊎ IsRefusal (state S.Store conn.old).now.schema fault) }
{
    let refusal = refusal_of(conn);
    let mut tx = conn.transaction();
    if let Err(fault) = fill_new(&mut tx, layout, refusal) {
        return Err(fault);
    }
    match tx.commit() {
        Ok(()) => Ok(()),
        Err(_) => Err(TableFault::Store),
    }
}
