//! The answer to a question: the list of an aircraft.
ghost use Rattle.std.specs.Prelude.{◌≡◌, IfOk};
ghost use Rattle.http.specs.Response.{body_of, head_of};
ghost use Rattle.mx_http.specs.responses.Answer.{IsMade};
ghost use Rattle.mx_http.specs.responses.Request.{asking};
ghost use Rattle.mx_desk.specs.Answered.{AnswersIfRoom};

use http::Response;
use mx_http::request::Rejection;
use mx_http::responses::{
    DeskFault, refusal_response, rejection_response, report_response, stop_response,
};
use mx_jobs::office::{Ask, Office};
use mx_lists::Question;
use sqlite::Alter;
use std::alloc::Global;

/// Asks an office for a list, if each part of the path gave what it has to. No table changes.
pub(crate) fn ask_list<S: Alter>(
    alloc: Global,
    office: &mut Office<S>,
    question: Option<Question>,
) -> Result<Response<Vec<u8>>, DeskFault>
    ensures answered { AnswersIfRoom (asking question) office.old office.new
        (λ a. IfOk result (λ r. ((head_of r).status, (body_of r).items) ≡ a)) }
    ensures made { IsMade result }
{
    let Some(question) = question else {
        return rejection_response(alloc, Rejection::BadRequest);
    };
    match office.list(alloc, &question) {
        Ok(report) => report_response(alloc, &report),
        Err(Ask::Refused(refusal)) => refusal_response(alloc, refusal),
        Err(Ask::Failed(fault)) => stop_response(alloc, fault),
    }
}
