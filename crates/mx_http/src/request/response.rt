//! The bytes of a response.
ghost use Rattle.std.specs.Prelude.{◌≡◌, ◌++◌, IfOk, OnOk};
ghost use Rattle.mx_http.specs.request.Rejected.{rejection_status, rejection_body, rejection_allows};
ghost use Rattle.mx_http.specs.request.Response.{line, phrase_of, status_line, length_line, allow_line, field_lines, response_bytes};

use crate::request::rejection::Rejection;
use http::StatusCode;
use itoa::Buffer;
use std::alloc::{AllocError, Global};

// Appends a line.
fn append_line(out: &mut Vec<u8>, text: &[u8]) -> Result<(), AllocError>
    ensures { OnOk result (out.new.items ≡ out.old.items ++ line text.now) }
{
    out.extend_from_slice(text)?;
    out.extend_from_slice(b"\r\n")
}

// The phrase that belongs to a status, where one does.
fn phrase_of(status: StatusCode) -> &'static [u8]
    ensures { result.now ≡ phrase_of status }
{
    match status.canonical_reason() {
        Some(phrase) => phrase.as_bytes(),
        None => b"",
    }
}

// Appends the line of the status.
fn append_status_line(out: &mut Vec<u8>, status: StatusCode) -> Result<(), AllocError>
    ensures { OnOk result (out.new.items ≡ out.old.items ++ status_line status) }
{
    let mut buffer = Buffer::new();
    out.extend_from_slice(b"HTTP/1.1 ")?;
    out.extend_from_slice(buffer.format(status.as_u16()).as_bytes())?;
    out.push(b' ')?;
    append_line(out, phrase_of(status))
}

// Appends the field that says how long the body is.
fn append_length(out: &mut Vec<u8>, length: usize) -> Result<(), AllocError>
    ensures { OnOk result (out.new.items ≡ out.old.items ++ length_line length) }
{
    let mut buffer = Buffer::new();
    out.extend_from_slice(b"Content-Length: ")?;
    append_line(out, buffer.format(length).as_bytes())
}

// Appends the field that says which method is allowed, where one is.
fn append_allowed(out: &mut Vec<u8>, allowed: Option<bool>) -> Result<(), AllocError>
    ensures { OnOk result (out.new.items ≡ out.old.items ++ allow_line allowed) }
{
    match allowed {
        None => Ok(()),
        Some(true) => append_line(out, b"Allow: POST"),
        Some(false) => append_line(out, b"Allow: GET"),
    }
}

// Appends the fields.
fn append_fields(out: &mut Vec<u8>, length: usize, allowed: Option<bool>) -> Result<(), AllocError>
    ensures { OnOk result (out.new.items ≡ out.old.items ++ field_lines length allowed) }
{
    append_line(out, b"Content-Type: text/plain")?;
    append_length(out, length)?;
    append_line(out, b"Connection: close")?;
    append_allowed(out, allowed)
}

/// The bytes of a response: the line of its status, with the phrase that belongs to it; its fields, which are plain text
/// of this length, the end of the connection, and the method that is allowed, where one is: POST, or else GET; an empty
/// line; and its body.
pub fn response_bytes(
    alloc: Global,
    status: StatusCode,
    allowed: Option<bool>,
    body: &[u8],
) -> Result<Vec<u8>, AllocError>
    ensures { IfOk result (λ bytes. bytes.items ≡ response_bytes status allowed body.now) }
{
    let mut out = Vec::new(alloc);
    append_status_line(&mut out, status)?;
    append_fields(&mut out, body.len(), allowed)?;
    append_line(&mut out, b"")?;
    out.extend_from_slice(body)?;
    Ok(out)
}

impl Rejection {
    /// The bytes of the response to a request that is rejected.
    pub fn response(self, alloc: Global) -> Result<Vec<u8>, AllocError>
        ensures { IfOk result (λ bytes.
            bytes.items ≡ response_bytes (rejection_status self) (rejection_allows self) (rejection_body self)) }
    {
        response_bytes(alloc, self.status(), self.allows(), self.body())
    }
}
