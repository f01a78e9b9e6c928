//! Rows of a database as text: those that a query gives, and all rows of all tables.

use crate::faults::error_text;
use mx_test_cases::{AnswerText, append_joined, or_none};
use sqlite::types::ValueRef;
use sqlite::{Alter, Connection, Error, Row};
use std::alloc::{AllocError, Global};
use std::str;

/// Which tables there are, by their names.
const NAMES: &str = "SELECT name FROM sqlite_schema WHERE type = 'table' ORDER BY name";

fn append_value(out: &mut String, value: ValueRef<'_>) -> Result<(), AllocError> {
    match value {
        ValueRef::Null => out.push_str("null"),
        ValueRef::Int(number) => write!(out, "{number}"),
        ValueRef::Text(bytes) => out.push_str(str::from_utf8(bytes).unwrap_or("no text")),
        ValueRef::Real(_) | ValueRef::Blob(_) => out.push_str("neither number nor text"),
    }
}

// Appends the values of a row, with a space between two of them.
fn append_row(out: &mut String, row: &Row) -> Result<(), AllocError> {
    for at in 0..row.column_count() {
        if at > 0 {
            out.push_str(" ")?;
        }
        if let Ok(value) = row.get_ref(at) {
            append_value(out, value)?;
        }
    }
    Ok(())
}

fn rows_text(alloc: Global, rows: &[Row]) -> Result<String, AllocError> {
    let mut text = String::new(alloc);
    for row in rows {
        append_joined(&mut text, "")?;
        append_row(&mut text, row)?;
    }
    or_none(text)
}

/// The rows that a query gives, joined by ` / `, each with its values.
pub fn asked<S: Alter>(alloc: Global, conn: &mut Connection<S>, sql: &str) -> AnswerText {
    match conn.query_all(sql, &[]) {
        Ok(rows) => Ok(rows_text(alloc, &rows)?),
        Err(error) => error_text(alloc, error),
    }
}

// The only value of a row, as text.
fn name_in(alloc: Global, row: &Row) -> Result<String, AllocError> {
    let mut name = String::new(alloc);
    append_row(&mut name, row)?;
    Ok(name)
}

// Appends a table with its rows, in the order of its first two columns, behind ` // ` where there is one before it.
fn append_table(
    alloc: Global,
    out: &mut String,
    name: &str,
    rows: &[Row],
) -> Result<(), AllocError> {
    let text = rows_text(alloc, rows)?;
    if !out.is_empty() {
        out.push_str(" // ")?;
    }
    out.push_str(name)?;
    out.push_str(": ")?;
    out.push_str(text.as_str())
}

// The rows of the table with a name.
fn rows_of<S: Alter>(
    alloc: Global,
    conn: &mut Connection<S>,
    name: &str,
) -> Result<Result<Vec<Row>, Error>, AllocError> {
    let query = format!(in alloc; "SELECT * FROM {name} ORDER BY 1, 2")?;
    Ok(conn.query_all(query.as_str(), &[]))
}

// The tables with these names, each with its rows, or why the rows of one were not read.
fn named_tables<S: Alter>(alloc: Global, conn: &mut Connection<S>, names: &[Row]) -> AnswerText {
    let mut text = String::new(alloc);
    for row in names {
        let name = name_in(alloc, row)?;
        match rows_of(alloc, conn, name.as_str())? {
            Ok(rows) => append_table(alloc, &mut text, name.as_str(), &rows)?,
            Err(error) => return error_text(alloc, error),
        }
    }
    Ok(or_none(text)?)
}

/// All rows of all tables: `NAME: ROW / ROW ..` or `NAME: none` for each table, in the order of their names, joined by ` // `.
pub fn tables<S: Alter>(alloc: Global, conn: &mut Connection<S>) -> AnswerText {
    match conn.query_all(NAMES, &[]) {
        Ok(names) => named_tables(alloc, conn, &names),
        Err(error) => error_text(alloc, error),
    }
}
