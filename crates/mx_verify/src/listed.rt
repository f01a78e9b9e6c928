//! Which tables a database lists: whether one of layout 2 is missing, and whether there are others.
ghost use Rattle.std.specs.Prelude.{◌≡◌, List, map, not};
ghost use Rattle.std.specs.List.{list_any};
ghost use Rattle.std.specs.Bool.{Decides};
ghost use Rattle.sqlite.specs.Held.{state};
ghost use Rattle.mx_book_tables.specs.stands.Schemas.{schema_at};
ghost use Rattle.mx_book_tables.specs.reading.Layout.{HasTables, verified_point};
ghost use Rattle.mx_verify.specs.Listed.{lacks, lacks_any};

use mx_layout::Table;
use sqlite::{Alter, Connection};

/// The tables of layout 2.
const TABLES: [Table; 16] = [
    Table::Office,
    Table::Entry,
    Table::Aircraft,
    Table::Place,
    Table::Component,
    Table::Programme,
    Table::Task,
    Table::Opening,
    Table::Crs,
    Table::CrsLine,
    Table::Extension,
    Table::Defect,
    Table::Sector2,
    Table::Span2,
    Table::Total2,
    Table::Base2,
];

// Whether no table has the name of this one.
fn lacks<S: Alter>(conn: &Connection<S>, table: Table) -> bool
    ensures { result ≡ lacks (state S.Store conn.now).now.schema table }
{
    conn.schema().table_named(table.name().as_bytes()).is_none()
}

// Whether one of these tables is missing.
fn lacks_one<S: Alter>(conn: &Connection<S>, tables: &[Table]) -> bool
    ensures { result ≡ list_any (lacks (state S.Store conn.now).now.schema) tables.now }
{
    tables.iter().any(|table| lacks(conn, *table))
}

/// Whether a table of layout 2 is missing.
pub(crate) fn lacks_any<S: Alter>(conn: &Connection<S>) -> bool
    ensures { result ≡ lacks_any (state S.Store conn.now).now.schema }
{
    lacks_one(conn, &TABLES)
}

/// Whether a database that has the tables of layout 2 has no others.
pub(crate) fn has_no_other<S: Alter>(conn: &Connection<S>) -> bool
    ensures { HasTables (state S.Store conn.now).now.schema → Decides result
        ((state S.Store conn.now).now.schema.tables ≡ (schema_at verified_point).tables) }
{
    conn.schema().tables.len() == TABLES.len()
}
