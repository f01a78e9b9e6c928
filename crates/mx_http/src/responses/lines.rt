//! Responses with lines: a list, a refusal, a line for each reply or each row.
ghost use Rattle.std.specs.Prelude.{◌≡◌, Ok, Err, IfOk};
ghost use Rattle.http.specs.Response.{body_of, head_of};
ghost use Rattle.mx_http.specs.responses.Answer.{IsMade, list_answer, replies_answer, rows_answer};

use crate::responses::fault::DeskFault;
use crate::responses::respond::{lines_response, text_response};
use http::{Response, StatusCode};
use mx_book::{Refusal, Reply};
use mx_faults::{Ask, Fault};
use mx_lists::Report;
use mx_output::sector_log::{RowReply, has_bad, has_refused, report_text};
use mx_reports::{has_refusal, replies_text};
use std::alloc::Global;

/// The response with a list.
pub fn report_response(alloc: Global, report: &Report) -> Result<Response<Vec<u8>>, DeskFault>
    ensures answer { IfOk result (λ r. ((head_of r).status, (body_of r).items)
        ≡ list_answer (Ok report.now)) }
    ensures made { IsMade result }
{
    text_response(alloc, StatusCode::OK, report)
}

/// The response with a refusal.
pub fn refusal_response(alloc: Global, refusal: Refusal) -> Result<Response<Vec<u8>>, DeskFault>
    ensures answer { IfOk result (λ r. ((head_of r).status, (body_of r).items)
        ≡ list_answer (Err (Ask.Refused refusal))) }
    ensures made { IsMade result }
{
    text_response(alloc, StatusCode::CONFLICT, &Reply::Refused(refusal))
}

/// The response with a line for each reply, and behind them the line of what stopped the office, if anything did.
pub fn replies_response(
    alloc: Global,
    replies: &[Reply],
    stopped: Option<Fault>,
) -> Result<Response<Vec<u8>>, DeskFault>
    ensures answer { IfOk result (λ r. ((head_of r).status, (body_of r).items)
        ≡ replies_answer replies.now stopped) }
    ensures made { IsMade result }
{
    let mut lines = Vec::new(alloc);
    replies_text(&mut lines, replies)?;
    lines_response(alloc, has_refusal(replies), lines, stopped)
}

/// The response with a line for each row, and behind them the line of what stopped the office, if anything did.
pub fn rows_response(
    alloc: Global,
    rows: &[RowReply],
    stopped: Option<Fault>,
) -> Result<Response<Vec<u8>>, DeskFault>
    ensures answer { IfOk result (λ r. ((head_of r).status, (body_of r).items)
        ≡ rows_answer rows.now stopped) }
    ensures made { IsMade result }
{
    let mut lines = Vec::new(alloc);
    report_text(&mut lines, rows)?;
    let is_refused = has_bad(rows) || has_refused(rows);
    lines_response(alloc, is_refused, lines, stopped)
}
