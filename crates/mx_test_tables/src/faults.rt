//! Answers as text, which lines over a database give alike: room for one, and the faults of tables and of statements.

use mx_layout::{Table, TableFault};
use mx_test_cases::AnswerText;
use sqlite::{Constraint, Error, ErrorCode};
use std::alloc::{AllocError, Global};

/// Room for one answer.
pub fn room(alloc: Global) -> Result<String, AllocError> {
    String::with_capacity(alloc, 64)
}

/// Appends that a table is damaged.
pub fn append_damaged(out: &mut String, table: Table) -> Result<(), AllocError> {
    out.push_str("fault damaged ")?;
    out.push_str(table.name())
}

/// Appends why a call on the tables did not do its work.
pub fn append_table_fault(out: &mut String, fault: TableFault) -> Result<(), AllocError> {
    match fault {
        TableFault::Memory => out.push_str("fault memory"),
        TableFault::Store => out.push_str("fault store"),
        TableFault::NotOurs => out.push_str("fault not-ours"),
        TableFault::Exists => out.push_str("fault exists"),
        TableFault::Damaged(table) => append_damaged(out, table),
    }
}

/// Appends `ok` where a call on the tables did its work, and else why it did not.
pub fn append_done(out: &mut String, done: Result<(), TableFault>) -> Result<(), AllocError> {
    match done {
        Ok(()) => out.push_str("ok"),
        Err(fault) => append_table_fault(out, fault),
    }
}

/// Why a question was not answered.
pub fn fault_text(alloc: Global, fault: TableFault) -> AnswerText {
    let mut text = room(alloc)?;
    append_table_fault(&mut text, fault)?;
    Ok(text)
}

// The constraint of a table that refused a row.
fn constraint_name(constraint: Constraint) -> &'static str {
    match constraint {
        Constraint::Datatype => "refused datatype",
        Constraint::NotNull => "refused not null",
        Constraint::Check => "refused check",
        Constraint::PrimaryKey => "refused primary key",
        Constraint::Unique => "refused unique",
        Constraint::ForeignKey => "refused foreign key",
    }
}

/// Appends why a statement was not run: the constraint that refused its row, what is wrong with its text, or the
/// fault that stopped it.
pub fn append_error(out: &mut String, error: Error) -> Result<(), AllocError> {
    match error {
        Error::SqliteFailure(ErrorCode::ConstraintViolation(constraint)) => out.push_str(
            constraint_name(constraint),
        ),
        Error::SqliteFailure(ErrorCode::OutOfMemory) => out.push_str("fault memory"),
        Error::SqlInputError(wrong) => write!(out, "error {wrong}"),
        _ => out.push_str("fault store"),
    }
}

/// Why a statement was not run, or a database not opened.
pub fn error_text(alloc: Global, error: Error) -> AnswerText {
    let mut text = room(alloc)?;
    append_error(&mut text, error)?;
    Ok(text)
}
