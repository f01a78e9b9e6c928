//! The bytes of an answer, and writing them.
ghost use Rattle.std.specs.Prelude.{◌≡◌, None, OnOk, OnErr, IfOk, IfErr, IsOkAnd};
ghost use Rattle.std.specs.Io.KnownBytes.{Appends};
ghost use Rattle.http.specs.Response.{body_of, head_of as parts_of};
ghost use Rattle.mx_http.specs.request.Rejected.{rejection_allows, rejection_body, rejection_status};
ghost use Rattle.mx_http.specs.request.Response.{response_bytes};
ghost use Rattle.mx_http.specs.responses.Answer.{IsMade};
ghost use Rattle.mx_http.specs.responses.Stopped.{AppendsSome};

use crate::request::{Rejection, response_bytes};
use crate::responses::fault::DeskFault;
use http::Response;
use std::alloc::Global;
use std::io::Write;

/// The bytes of the answer to a request that is rejected.
pub fn reject(alloc: Global, why: Rejection) -> Result<Vec<u8>, DeskFault>
    ensures bytes { IfOk result (λ text. text.items
        ≡ response_bytes (rejection_status why) (rejection_allows why) (rejection_body why)) }
    ensures memory { IfErr result (λ fault. fault ≡ DeskFault.Memory) }
{
    Ok(why.response(alloc)?)
}

/// The bytes of a response, if there is one.
pub fn bytes_of(
    alloc: Global,
    answered: Result<Response<Vec<u8>>, DeskFault>,
) -> Result<Vec<u8>, DeskFault>
    ensures bytes { IfOk result (λ text. IsOkAnd answered (λ r. text.items
        ≡ response_bytes (parts_of r).status None (body_of r).items)) }
    ensures memory { IsMade answered → IfErr result (λ fault. fault ≡ DeskFault.Memory) }
{
    match answered {
        Ok(response) => Ok(response_bytes(alloc, response.status(), None, response.body())?),
        Err(fault) => Err(fault),
    }
}

/// Writes a text. Where a write fails or takes nothing, a beginning of the text was written, and nothing behind it.
pub fn write_text<W: Write>(writer: &mut W, text: &[u8]) -> Result<(), DeskFault>
    ensures written { OnOk result
        (Appends (W.contents writer.old) (W.contents writer.new) text.now) }
    ensures cut { OnErr result
        (AppendsSome (W.contents writer.old) (W.contents writer.new) text.now) }
{
    let mut rest = text;
    while !rest.is_empty() {
        match writer.write(rest) {
            Ok(count) if count > 0 => rest = &rest[count..],
            _ => return Err(DeskFault::Write),
        }
    }
    Ok(())
}
