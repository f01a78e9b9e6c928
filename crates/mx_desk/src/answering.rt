//! The answer of an office to a request.
ghost use Rattle.std.specs.Prelude.{◌≡◌, ℕ, IfOk};
ghost use Rattle.http.specs.Response.{body_of, head_of};
ghost use Rattle.sqlite.specs.State.{HasCleanDisk};
ghost use Rattle.mx_jobs.specs.Office.{office_state, StandsFor};
ghost use Rattle.mx_http.specs.request.Routes.{asked};
ghost use Rattle.mx_http.specs.responses.Answer.{IsMade};
ghost use Rattle.mx_desk.specs.Answered.{AnswersIfRoom};
ghost use Rattle.mx_http.specs.responses.Request.{request_of};
ghost use Rattle.mx_desk.specs.Served.{KeepsBook, LeavesBehind, Serves};

use crate::entering::{enter_listed, import_log, load};
use crate::listing::ask_list;
use http::Response;
use mx_http::request::Route;
use mx_http::responses::{DeskFault, forecast_in_digits};
use mx_jobs::office::Office;
use mx_output::questions::{due_question, life_question, limits_question};
use sqlite::Alter;
use std::alloc::Global;

// The answer of an office to a request, whatever its tables hold.
fn ask_office<S: Alter>(
    alloc: Global,
    office: &mut Office<S>,
    route: &Route<'_>,
    body: &[u8],
) -> Result<Response<Vec<u8>>, DeskFault>
    ensures answered { AnswersIfRoom (request_of (asked route.now) body.now) office.old office.new
        (λ a. IfOk result (λ r. ((head_of r).status, (body_of r).items) ≡ a)) }
    ensures made { IsMade result }
{
    match route {
        Route::Entries => enter_listed(alloc, office, body),
        Route::Programme { doc } => load(alloc, office, doc, body),
        Route::Sectors => import_log(alloc, office, body),
        Route::Due { tail, day } => ask_list(alloc, office, due_question(tail, day)),
        Route::Limits { tail, day } => ask_list(alloc, office, limits_question(tail, day)),
        Route::Forecast {
            tail,
            day,
            days,
            minutes,
            cycles,
        } => ask_list(
            alloc,
            office,
            forecast_in_digits(tail, day, days, minutes, cycles),
        ),
        Route::Life { tail } => ask_list(alloc, office, life_question(tail)),
    }
}

/// The answer of an office to a request: commands are handed in, each in a commit of its own, up to the first fault; a
/// question changes no table. 200, or 409 where something was refused; 400 where a part of the path or the text of the body
/// can't be read, and then nothing was entered; 503 where the office was stopped, with the replies so far and the line of the
/// fault. An error only where memory runs out for the answer: of the commands some may have been entered then.
pub fn route_response<S: Alter>(
    alloc: Global,
    office: &mut Office<S>,
    route: &Route<'_>,
    body: &[u8],
) -> Result<Response<Vec<u8>>, DeskFault>
    // The answer of a book, and the book behind it.
    ensures served { (book : _) → StandsFor office.old book
        → HasCleanDisk (office_state office.new) → IfOk result
        (λ r. Serves book (request_of (asked route.now) body.now)
        ((head_of r).status, (body_of r).items) (office_state office.new)) }
    ensures crash { (book : _) → StandsFor office.old book → (n : ℕ)
        × LeavesBehind book (request_of (asked route.now) body.now) n
        (office_state office.new) }
    ensures kept { KeepsBook office.old office.new }

    // Whatever the tables hold.
    ensures answered { AnswersIfRoom (request_of (asked route.now) body.now) office.old office.new
        (λ a. IfOk result (λ r. ((head_of r).status, (body_of r).items) ≡ a)) }
    ensures made { IsMade result }
{
    ask_office(alloc, office, route, body)
}
