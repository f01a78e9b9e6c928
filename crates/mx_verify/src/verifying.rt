//! Whether the tables of a file stand for a book.
//!
//! What tables stand for has a part on rows and one that rows as sets do not say: which trees there are, and that
//! rowids rise. The first is answered here, and that there is no table beside those of the layout. A transaction shows
//! no schema, so the tables that are listed are looked at before it is begun: one that is missing is found by its name
//! and told as the store's, without a statement that would fail; others are found by their number. So a file that was
//! copied with other tree numbers is not told apart.
ghost use Rattle.std.specs.Prelude.{◌≡◌, true, false, Err, IfErr};
ghost use Rattle.sqlite.specs.State.{HasCleanDisk};
ghost use Rattle.sqlite.specs.Held.{state};
ghost use Rattle.mx_layout.specs.Crash.{ChangesNothing};
ghost use Rattle.mx_layout.specs.Listed.{has_table};
ghost use Rattle.mx_layout.specs.Names.{table_name};
ghost use Rattle.mx_layout.specs.TableName.{TableName};
ghost use Rattle.mx_book_tables.specs.stands.Family.{is_at};
ghost use Rattle.mx_book_tables.specs.reading.Damage.{IsCause};
ghost use Rattle.mx_book_tables.specs.reading.Layout.{HasTables, verified_point};
ghost use Rattle.mx_verify.specs.Verifies.{HasBook, IsVerified, Tells, Verifies};

use crate::listed::{has_no_other, lacks_any};
use crate::told::{told_file, told_rows};
use crate::verified::verify_tables;
use mx_book_tables::reading::{is_at_point, read_rows};
use mx_layout::TableFault;
use sqlite::{Alter, Connection, Transaction};
use std::alloc::Global;

/// Whether the tables that a transaction shows have the rows of a book: in `office` the point, in every other table what the
/// book gives there, in any order, and no row else. The book is the one that the registers say, by the entries in their order.
///
/// # Errors
/// `Damaged` with its table where a row can't be read as its type, names an entry that is not there, or holds an entry that
/// those before it refuse; else `Memory` or `Store`. A row that can be read and is not the book's is no error, but `false`.
pub fn verify_in<S: Alter>(alloc: Global, tx: &mut Transaction<'_, S>) -> Result<bool, TableFault>
    ensures same_reference { tx.new.conn.ghost_name ≡ tx.old.conn.ghost_name }
    ensures verifies { Verifies
        (state S.Store tx.old.conn.now) (state S.Store tx.new.conn.now) result }
{
    let at_point = is_at_point(tx)?;
    let rows = read_rows(alloc, tx)?;
    let found = verify_tables(alloc, rows);
    told_rows(at_point, found)
}

// The same, in a transaction that is then dropped; where a table of the layout is missing, nothing is read.
fn verify_rows<S: Alter>(
    alloc: Global,
    conn: &mut Connection<S>,
    is_missing: bool,
) -> Result<bool, TableFault>
    requires { conn.old.in_transaction ≡ false }
    ensures idle { conn.new.in_transaction ≡ false }
    ensures unchanged { ChangesNothing (state S.Store conn.old) (state S.Store conn.new) }
    ensures cause { HasCleanDisk (state S.Store conn.new) → IfErr result IsCause }
    ensures missing { is_missing ≡ true → result ≡ Err TableFault.Store }
    ensures tells { let old = (state S.Store conn.old).now in
        HasCleanDisk (state S.Store conn.new) → HasTables old.schema
        → Tells (HasBook old.trees) old.trees result }
{
    let mut tx = conn.transaction();
    if is_missing {
        return Err(TableFault::Store);
    }
    verify_in(alloc, &mut tx)
}

/// Whether the tables of a database stand for a book, and are those of layout 2 alone; which indexes and views there are is
/// not looked at. Nothing is changed.
///
/// # Errors
/// `Store` where a table of the layout is missing; and those of [`verify_in`].
pub fn verify<S: Alter>(alloc: Global, conn: &mut Connection<S>) -> Result<bool, TableFault>
    requires { conn.old.in_transaction ≡ false }
    ensures idle { conn.new.in_transaction ≡ false }
    ensures unchanged { ChangesNothing (state S.Store conn.old) (state S.Store conn.new) }
    ensures cause { HasCleanDisk (state S.Store conn.new) → IfErr result IsCause }
    ensures missing { (name : TableName) → is_at verified_point name ≡ true
        → has_table (state S.Store conn.old).now.schema (table_name name) ≡ false
        → result ≡ Err TableFault.Store }
    ensures tells { let old = (state S.Store conn.old).now in
        HasCleanDisk (state S.Store conn.new) → HasTables old.schema
        → Tells (IsVerified old) old.trees result }
{
    let is_missing = lacks_any(conn);
    let alone = has_no_other(conn);
    told_file(alone, verify_rows(alloc, conn, is_missing))
}
