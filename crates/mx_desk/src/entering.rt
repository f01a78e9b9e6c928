//! The answer to commands that are handed in: those of a JSON text, a maintenance programme, the sectors of a log.
ghost use Rattle.std.specs.Prelude.{◌≡◌, IfOk};
ghost use Rattle.http.specs.Response.{body_of, head_of};
ghost use Rattle.mx_intake.specs.Entries.{entries_of_text};
ghost use Rattle.mx_intake.specs.Sectors.{sector_rows};
ghost use Rattle.mx_output.specs.questions.Asking.{doc_of};
ghost use Rattle.mx_http.specs.responses.Answer.{IsMade, replies_answer};
ghost use Rattle.mx_jobs.specs.Calls.{Runs};
ghost use Rattle.mx_desk.specs.Answered.{AnswersIfRoom};
ghost use Rattle.mx_http.specs.responses.Request.{entering, importing, loading};

use http::Response;
use mx_book::commands::Command;
use mx_http::request::Rejection;
use mx_http::responses::{
    DeskFault, fault_response, read_doc, rejection_response, replies_response, rows_response,
};
use mx_intake::{commands_of_json, programme_of};
use mx_jobs::logs::import_text;
use mx_jobs::office::Office;
use sqlite::Alter;
use std::alloc::Global;
use std::slice;

// Hands in commands, one after the other, up to the first fault.
fn enter_commands<S: Alter>(
    alloc: Global,
    office: &mut Office<S>,
    commands: &[Command],
) -> Result<Response<Vec<u8>>, DeskFault>
    ensures ran { Runs commands.now office.old office.new (λ said stop. IfOk result
        (λ r. ((head_of r).status, (body_of r).items) ≡ replies_answer said stop)) }
    ensures made { IsMade result }
{
    let outcomes = office.run(alloc, commands);
    replies_response(alloc, &outcomes.replies, outcomes.stopped)
}

/// Enters the commands of a JSON text.
pub(crate) fn enter_listed<S: Alter>(
    alloc: Global,
    office: &mut Office<S>,
    body: &[u8],
) -> Result<Response<Vec<u8>>, DeskFault>
    ensures answered { AnswersIfRoom (entering (entries_of_text body.now)) office.old office.new
        (λ a. IfOk result (λ r. ((head_of r).status, (body_of r).items) ≡ a)) }
    ensures made { IsMade result }
{
    match commands_of_json(alloc, body) {
        Ok(commands) => enter_commands(alloc, office, &commands),
        Err(fault) => fault_response(alloc, fault),
    }
}

/// Loads the maintenance programme of a TOML text by a document.
pub(crate) fn load<S: Alter>(
    alloc: Global,
    office: &mut Office<S>,
    doc: &str,
    body: &[u8],
) -> Result<Response<Vec<u8>>, DeskFault>
    ensures answered { AnswersIfRoom (loading (doc_of doc.now) body.now) office.old office.new
        (λ a. IfOk result (λ r. ((head_of r).status, (body_of r).items) ≡ a)) }
    ensures made { IsMade result }
{
    let Some(doc) = read_doc(doc) else {
        return rejection_response(alloc, Rejection::BadRequest);
    };
    match programme_of(alloc, doc, body) {
        Ok(command) => enter_commands(alloc, office, slice::from_ref(&command)),
        Err(fault) => fault_response(alloc, fault),
    }
}

/// Imports the sectors of a log.
pub(crate) fn import_log<S: Alter>(
    alloc: Global,
    office: &mut Office<S>,
    body: &[u8],
) -> Result<Response<Vec<u8>>, DeskFault>
    ensures answered { AnswersIfRoom (importing (sector_rows body.now)) office.old office.new
        (λ a. IfOk result (λ r. ((head_of r).status, (body_of r).items) ≡ a)) }
    ensures made { IsMade result }
{
    match import_text(alloc, office, body) {
        Ok(report) => rows_response(alloc, &report.rows, report.stopped),
        Err(fault) => fault_response(alloc, fault),
    }
}
