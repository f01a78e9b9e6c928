//! What a database lists before anything is made in it: whether a table is named `office`, and whether it is empty.
//!
//! What a database lists is asked of the connection (`Connection::schema`), not by a query: that call has no premise,
//! so `create` answers `Exists` and `NotOurs` by what there is, whatever the columns of a table are. A text would need
//! its meaning over every schema, and one that reads `sqlite_schema` has the meaning only where no table has that name.
//! A view, an index, or a table that `sqlite` keeps without reading it makes a database one that is not empty; a table
//! `office` of that kind is not found, and so it is `NotOurs`.

ghost use Rattle.std.specs.Prelude.{◌≡◌, ◌↔◌, codes, IsTrue, MatchOption};
ghost use Rattle.sqlite.specs.Held.{state};
ghost use Rattle.mx_layout.specs.Listed.{has_table, IsRefusal};
ghost use Rattle.mx_layout.specs.Tables.{no_schema};

use crate::fault::{Table, TableFault};
use sqlite::{Alter, Connection};

/// Whether the database has a table `office`, whatever its columns are. A view of that name is none.
pub(crate) fn has_office<S: Alter>(conn: &Connection<S>) -> bool
    ensures { result ≡ has_table (state S.Store conn.now).now.schema (codes "office") }
{
    conn.schema()
        .table_named(Table::Office.name().as_bytes())
        .is_some()
}

/// Whether the database has no table, no index and no view.
fn is_empty<S: Alter>(conn: &Connection<S>) -> bool
    ensures { IsTrue result ↔ ((state S.Store conn.now).now.schema ≡ no_schema) }
{
    let schema = conn.schema();
    schema.tables.is_empty() && schema.indexes.is_empty() && schema.views.is_empty()
}

/// Why no table is made in the database, if it is not empty.
pub fn refusal_of<S: Alter>(conn: &Connection<S>) -> Option<TableFault>
    ensures { MatchOption result ((state S.Store conn.now).now.schema ≡ no_schema)
        (IsRefusal (state S.Store conn.now).now.schema) }
{
    if has_office(conn) {
        return Some(TableFault::Exists);
    }
    if is_empty(conn) {
        None
    } else {
        Some(TableFault::NotOurs)
    }
}
