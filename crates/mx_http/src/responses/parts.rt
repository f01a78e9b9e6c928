//! The parts of a path: documents, and the numbers of a forecast.
ghost use Rattle.std.specs.Prelude.{◌≡◌};
ghost use Rattle.mx_output.specs.questions.Asking.{doc_of};
ghost use Rattle.mx_http.specs.responses.Request.{forecast_in_digits};

use mx_base::Doc;
use mx_intake::{read_identifier, read_number};
use mx_lists::Question;
use mx_output::questions::forecast_question;

/// The document that a part is.
pub fn read_doc(text: &str) -> Option<Doc>
    ensures { result ≡ doc_of text.now }
{
    read_identifier(text)
}

/// The question for the forecast of an aircraft, whose numbers have 1 to 6 digits.
pub fn forecast_in_digits(
    tail: &str,
    day: &str,
    days: &str,
    minutes: &str,
    cycles: &str,
) -> Option<Question>
    ensures { result ≡ forecast_in_digits tail.now day.now days.now minutes.now cycles.now }
{
    let days = read_number(days.as_bytes())?;
    let minutes = read_number(minutes.as_bytes())?;
    let cycles = read_number(cycles.as_bytes())?;
    forecast_question(tail, day, days, minutes, cycles)
}
