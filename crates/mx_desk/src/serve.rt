//! One connection: a request is read, an office answers it, and the answer is written.
ghost use Rattle.std.specs.Prelude.{◌≡◌, ◌≢◌, ◌⊎◌, ◌++◌, ⊤, [], Some, Err, OnOk, OnErr, IfOk, IfErr};
ghost use Rattle.sqlite.specs.State.{HasCleanDisk};
ghost use Rattle.mx_jobs.specs.Office.{office_state, StandsFor};
ghost use Rattle.mx_http.specs.request.Head.{head_of};
ghost use Rattle.mx_desk.specs.Taken.{TakesBehind, TakesRequest};
ghost use Rattle.mx_desk.specs.Served.{AnswersInput, IsSilent, KeepsBook, LeavesBook, ServesInput, Writes};

use crate::answering::route_response;
use mx_http::request::{Rejection, asked_of, head_of, read_body, read_head};
use mx_http::responses::{DeskFault, bytes_of, of_input, reject, write_text};
use mx_jobs::office::Office;
use sqlite::Alter;
use std::alloc::Global;
use std::io::{Read, Write};

// The bytes of the answer to an input that begins with these, which tell its head.
fn answer_request<S: Alter, R: Read>(
    alloc: Global,
    office: &mut Office<S>,
    reader: &mut R,
    front: &[u8],
) -> Result<Vec<u8>, DeskFault>
    ensures answered { (input rest : _) → R.remaining reader.old ≡ Some rest
        → input ≡ front.now ++ rest → head_of front.now ≡ head_of input
        → IfOk result (λ text. AnswersInput input office.old office.new
        (λ bytes. text.items ≡ bytes)) }
    ensures stopped { (input rest : _) → R.remaining reader.old ≡ Some rest
        → input ≡ front.now ++ rest → head_of front.now ≡ head_of input
        → OnErr result ((office.new ≡ office.old)
        ⊎ AnswersInput input office.old office.new (λ bytes. ⊤)) }
    ensures takes { OnOk result (TakesBehind (head_of front.now) front.now
        (R.remaining reader.old) (R.remaining reader.new)) }
    ensures unread { result ≡ Err DeskFault.Read → office.new ≡ office.old }
    ensures unwritten { result ≢ Err DeskFault.Write }
    ensures crash { LeavesBook office.old office.new }
    ensures kept { KeepsBook office.old office.new }
{
    let end = match head_of(front) {
        Ok(end) => end,
        Err(why) => return reject(alloc, why),
    };
    let (route, length) = match asked_of(alloc, &front[..end]) {
        Ok(Ok(asked)) => asked,
        Ok(Err(why)) => return reject(alloc, why),
        Err(_) => return Err(DeskFault::Memory),
    };
    match read_body(alloc, reader, &front[end..], length) {
        Ok(Some(body)) => bytes_of(alloc, route_response(alloc, office, &route, &body)),
        Ok(None) => reject(alloc, Rejection::BadRequest),
        Err(fault) => Err(of_input(fault)),
    }
}

/// Serves one connection: reads a request, has the office answer it, and writes the answer. Of a request no more is read than
/// its head and its body; to no byte nothing is answered. Where a read fails nothing was asked or written; where memory runs
/// out nothing was written; where a write fails, what the commands did stands, and a beginning of the answer was written.
pub fn serve_one<S: Alter, R: Read, W: Write>(
    alloc: Global,
    office: &mut Office<S>,
    reader: &mut R,
    writer: &mut W,
) -> Result<(), DeskFault>
    // Whatever the tables hold: what the office was asked, and what was written of its answer.
    ensures answered { (input : _) → R.remaining reader.old ≡ Some input
        → IsSilent input result office.old office.new
        (W.contents writer.old) (W.contents writer.new)
        ⊎ ((input ≢ []) × AnswersInput input office.old office.new
        (Writes result (W.contents writer.old) (W.contents writer.new))) }

    // The answer of a book, the book behind it, and what a crash leaves.
    ensures served { (book input : _) → StandsFor office.old book
        → HasCleanDisk (office_state office.new) → R.remaining reader.old ≡ Some input
        → IsSilent input result office.old office.new
        (W.contents writer.old) (W.contents writer.new)
        ⊎ ((input ≢ []) × ServesInput book input (office_state office.new)
        (Writes result (W.contents writer.old) (W.contents writer.new))) }
    ensures crash { LeavesBook office.old office.new }
    ensures kept { KeepsBook office.old office.new }

    // What is taken of a reader; and what stays where it fails, or memory runs out.
    ensures takes { (input : _) → R.remaining reader.old ≡ Some input
        → result ≢ Err DeskFault.Memory → result ≢ Err DeskFault.Read
        → TakesRequest input (R.remaining reader.new) }
    ensures quiet { IfErr result (λ fault. fault ≢ DeskFault.Write → writer.new ≡ writer.old) }
    ensures unread { result ≡ Err DeskFault.Read → office.new ≡ office.old }
{
    let front = match read_head(alloc, reader) {
        Ok(front) => front,
        Err(fault) => return Err(of_input(fault)),
    };
    if front.is_empty() {
        return Ok(());
    }
    let text = answer_request(alloc, office, reader, &front)?;
    if write_text(writer, &text).is_err() {
        return Err(DeskFault::Write);
    }
    Ok(())
}
