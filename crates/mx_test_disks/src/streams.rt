//! What is asked of an open office through a reader, of which a read may fail, and is answered into a writer, of which a write may: the
//! import of a sector log, and a request at the desk.

use crate::calls::{imported, served};
use crate::texts::append_fault;
use mx_desk::DeskFault;
use mx_desk::jobs::logs::ImportReport;
use mx_desk::jobs::office::Office;
use mx_output::sector_log::report_text;
use mx_test_cases::{AnswerText, Asked, Flows, Sink, Source, append_joined, append_lines, or_none};
use sqlite::Alter;
use std::alloc::{AllocError, Global};

// How many bytes an answer to a text has at most that changes an office: what is said of a row that is one byte, and of its end, and
// the head of a response.
fn longest(text: &str) -> usize {
    text.len().saturating_mul(16).saturating_add(512)
}

// Appends what the rows of an import are told, for whose lines there is room, and what stopped it.
fn append_import(
    out: &mut String,
    lines: &mut Vec<u8>,
    report: &ImportReport,
) -> Result<(), AllocError> {
    report_text(lines, &report.rows)?;
    append_lines(out, lines)?;
    if let Some(fault) = report.stopped {
        append_joined(out, "")?;
        append_fault(out, fault)?;
    }
    Ok(())
}

/// Imports the text, a sector log: what each row is told, and what stopped the import, or the fault of the log as a whole.
pub(crate) fn import<S: Alter>(
    office: &mut Office<S>,
    asked: &Asked<'_>,
    limits: &[&str],
) -> AnswerText {
    let flows = Flows::of(limits)?;
    let alloc = asked.alloc;
    let mut lines = Vec::with_capacity(alloc, longest(asked.text))?;
    let mut text = String::with_capacity(alloc, longest(asked.text))?;
    let mut reader = Source::new(asked.text.as_bytes(), flows.reads);
    match imported(alloc, office, &mut reader) {
        Ok(report) => append_import(&mut text, &mut lines, &report)?,
        Err(fault) => {
            let number = fault.number;
            let entry = fault.entry;
            write!(text, "fault {number} entry {entry}")?;
        }
    }
    Ok(or_none(text)?)
}

// How the desk ended with a request.
fn ending_name(ending: Result<(), DeskFault>) -> &'static str {
    match ending {
        Ok(()) => "served",
        Err(DeskFault::Memory) => "fault memory",
        Err(DeskFault::Read) => "fault read",
        Err(DeskFault::Write) => "fault write",
    }
}

// Hands a request to the desk: how that ended, and the lines that were written.
fn serve<S: Alter>(
    alloc: Global,
    office: &mut Office<S>,
    request: &str,
    limits: &[&str],
) -> AnswerText {
    let flows = Flows::of(limits)?;
    let mut text = String::with_capacity(alloc, longest(request))?;
    let mut writer = Sink::new(alloc, longest(request), flows.writes)?;
    let mut reader = Source::new(request.as_bytes(), flows.reads);
    let ending = served(alloc, office, &mut reader, &mut writer);
    text.push_str(ending_name(ending))?;
    append_lines(&mut text, writer.taken())?;
    Ok(text)
}

/// Asks for a path at the desk.
pub(crate) fn get<S: Alter>(
    alloc: Global,
    office: &mut Office<S>,
    path: &str,
    limits: &[&str],
) -> AnswerText {
    let request = format!(in alloc; "GET {path} HTTP/1.1\r\n\r\n")?;
    serve(alloc, office, request.as_str(), limits)
}

/// Hands in the text at a path of the desk.
pub(crate) fn post<S: Alter>(
    office: &mut Office<S>,
    asked: &Asked<'_>,
    path: &str,
    limits: &[&str],
) -> AnswerText {
    let body = asked.text;
    let length = body.len();
    let mut request = format!(in asked.alloc;
        "POST {path} HTTP/1.1\r\nContent-Length: {length}\r\n\r\n"
    )?;
    request.push_str(body)?;
    serve(asked.alloc, office, request.as_str(), limits)
}
