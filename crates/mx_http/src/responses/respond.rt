//! Responses: a status and a body.
ghost use Rattle.std.specs.Prelude.{◌≡◌, [], ◌++◌, OnOk, IfOk, IfErr};
ghost use Rattle.http.specs.Response.{body_of, head_of};
ghost use Rattle.http.specs.declared.version.TheConstants.Version.{HTTP_11};
ghost use Rattle.mx_http.specs.responses.Answer.{IsMade, done_status, fault_answer, lines_answer, rejection_answer, stop_answer, stop_line};

use crate::request::Rejection;
use crate::responses::fault::DeskFault;
use http::response::Parts;
use http::{Response, StatusCode};
use mx_faults::Fault;
use mx_intake::{IntakeFault, MEMORY};
use mx_output::endings::{write_fault, write_intake};
use mx_reports::{Text, append_whole};
use std::alloc::Global;

/// A response with this status and body.
pub(crate) fn response(alloc: Global, status: StatusCode, body: Vec<u8>) -> Response<Vec<u8>>
    ensures status { (head_of result).status ≡ status }
    ensures version { (head_of result).version ≡ HTTP_11 }
    ensures fields { (head_of result).headers ≡ [] }
    ensures body { body_of result ≡ body }
{
    let mut parts = Parts::new(alloc);
    parts.status = status;
    Response::from_parts(parts, body)
}

// 200, or 409 where something was refused.
fn done_status(is_refused: bool) -> StatusCode
    ensures { result ≡ done_status is_refused }
{
    if is_refused {
        StatusCode::CONFLICT
    } else {
        StatusCode::OK
    }
}

// Appends the line of what stopped an office.
fn append_stop(body: &mut Vec<u8>, stopped: Fault) -> Result<(), DeskFault>
    ensures line { OnOk result (body.new.items ≡ body.old.items ++ stop_line stopped) }
    ensures memory { IfErr result (λ fault. fault ≡ DeskFault.Memory) }
{
    match write_fault(body, stopped) {
        Ok(()) => Ok(()),
        Err(_) => Err(DeskFault::Memory),
    }
}

/// The response with lines, and behind them the line of what stopped the office, if anything did.
pub(crate) fn lines_response(
    alloc: Global,
    is_refused: bool,
    mut lines: Vec<u8>,
    stopped: Option<Fault>,
) -> Result<Response<Vec<u8>>, DeskFault>
    ensures answer { IfOk result (λ r. ((head_of r).status, (body_of r).items)
        ≡ lines_answer is_refused lines.items stopped) }
    ensures made { IsMade result }
{
    let Some(fault) = stopped else {
        return Ok(response(alloc, done_status(is_refused), lines));
    };
    append_stop(&mut lines, fault)?;
    Ok(response(alloc, StatusCode::SERVICE_UNAVAILABLE, lines))
}

/// The response with a text.
pub(crate) fn text_response<T: Text>(
    alloc: Global,
    status: StatusCode,
    text: &T,
) -> Result<Response<Vec<u8>>, DeskFault>
    ensures status { IfOk result (λ r. (head_of r).status ≡ status) }
    ensures text { IfOk result (λ r. (body_of r).items ≡ T.text text.now) }
    ensures made { IsMade result }
{
    let mut body = Vec::new(alloc);
    append_whole(&mut body, text)?;
    Ok(response(alloc, status, body))
}

/// The response of an office that something stopped.
pub fn stop_response(alloc: Global, fault: Fault) -> Result<Response<Vec<u8>>, DeskFault>
    ensures answer { IfOk result (λ r. ((head_of r).status, (body_of r).items)
        ≡ stop_answer fault) }
    ensures made { IsMade result }
{
    lines_response(alloc, false, Vec::new(alloc), Some(fault))
}

/// The response to a body whose text gives nothing.
pub fn fault_response(alloc: Global, fault: IntakeFault) -> Result<Response<Vec<u8>>, DeskFault>
    ensures answer { IfOk result (λ r. ((head_of r).status, (body_of r).items)
        ≡ fault_answer fault) }
    ensures made { IsMade result }
{
    if fault.number == MEMORY {
        return stop_response(alloc, Fault::Memory);
    }
    let mut body = Vec::new(alloc);
    if write_intake(&mut body, fault).is_err() {
        return Err(DeskFault::Memory);
    }
    Ok(response(alloc, StatusCode::BAD_REQUEST, body))
}

/// The response to a request that is rejected.
pub fn rejection_response(alloc: Global, why: Rejection) -> Result<Response<Vec<u8>>, DeskFault>
    ensures answer { IfOk result (λ r. ((head_of r).status, (body_of r).items)
        ≡ rejection_answer why) }
    ensures made { IsMade result }
{
    let mut body = Vec::new(alloc);
    body.extend_from_slice(why.body())?;
    Ok(response(alloc, why.status(), body))
}
