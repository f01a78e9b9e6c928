//! Answers as text. The answer to what changes something is written into room that was taken before, so that
//! nothing is done and left without its answer.

use mx_book::Reply;
use mx_desk::jobs::office::{Ask, Fault, OpenFault};
use mx_test_cases::{append_joined, or_none, replies_in, room_for_replies};
use mx_test_tables::faults::append_damaged;
use std::alloc::{AllocError, Global};

/// Appends why a call of an office was stopped.
pub(crate) fn append_fault(out: &mut String, fault: Fault) -> Result<(), AllocError> {
    match fault {
        Fault::Memory => out.push_str("fault memory"),
        Fault::Store => out.push_str("fault store"),
        Fault::NeedsReopen => out.push_str("fault reopen"),
        Fault::Damaged(table) => append_damaged(out, table),
    }
}

/// Appends why no office was opened.
pub(crate) fn append_open_fault(out: &mut String, fault: OpenFault) -> Result<(), AllocError> {
    match fault {
        OpenFault::Memory => out.push_str("fault memory"),
        OpenFault::Store => out.push_str("fault store"),
        OpenFault::NotOurs => out.push_str("fault not-ours"),
        OpenFault::NewerLayout(layout) => write!(out, "fault newer {layout}"),
        OpenFault::OlderLayout(layout) => write!(out, "fault older {layout}"),
        OpenFault::Damaged(table) => append_damaged(out, table),
    }
}

/// The replies, and behind them what stopped the office, joined by ` / `; `none` where there is neither. Where
/// the room is for as many, it takes no more memory.
pub(crate) fn answers_in(
    alloc: Global,
    space: Vec<u8>,
    replies: &[Reply],
    stopped: Option<Fault>,
) -> Result<String, AllocError> {
    let mut text = replies_in(alloc, space, replies)?;
    if let Some(fault) = stopped {
        append_joined(&mut text, "")?;
        append_fault(&mut text, fault)?;
    }
    or_none(text)
}

/// `refused N`, or why the office was stopped.
pub(crate) fn ask_text(alloc: Global, ask: Ask) -> Result<String, AllocError> {
    let space = room_for_replies(alloc, 1)?;
    match ask {
        Ask::Refused(refusal) => answers_in(alloc, space, &[Reply::Refused(refusal)], None),
        Ask::Failed(fault) => answers_in(alloc, space, &[], Some(fault)),
    }
}
