//! Responses: the status and the bytes that a request over HTTP is answered with, whoever finds the answer, and writing
//! them; what the parts of its path ask for, and what is told where connections were served.
//!
//! # What is promised
//!
//! - The response to a list, a refusal, replies, rows, what stopped the office, a faulty text or a rejection has the
//!   status and the body that the definitions say, is of HTTP/1.1 and has no header field; or memory ran out for it:
//!   `report_response`, `refusal_response`, `replies_response`, `rows_response`, `stop_response`, `fault_response`,
//!   `rejection_response`: `answer`, `made`.
//! - A part of a path is the document, and the parts of a forecast the question, that the definitions say: `read_doc`,
//!   `forecast_in_digits`.
//! - The bytes of a response and of a rejection are those of its status and its body, with the method that is allowed
//!   where another was asked for; there are none only where memory ran out: `bytes_of`, `reject`: `bytes`, `memory`.
//! - A text is written whole; where a write fails a beginning of it was written, and nothing behind it: `write_text`:
//!   `written`, `cut`.
//! - The number of connections is appended: `append_served`.

pub mod fault;
mod lines;
mod parts;
mod respond;
mod serving;
mod writing;

pub use fault::{DeskFault, of_input};
pub use lines::{refusal_response, replies_response, report_response, rows_response};
pub use parts::{forecast_in_digits, read_doc};
pub use respond::{fault_response, rejection_response, stop_response};
pub use serving::{append_served, take_the_rest};
pub use writing::{bytes_of, reject, write_text};
