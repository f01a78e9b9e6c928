//! How long the body of a request is, by the fields of its head.
ghost use Rattle.std.specs.Prelude.{◌≡◌, ◌∷◌, [], length, map, All, MatchOption, IfSome};
ghost use Rattle.std.specs.Str.{str_eq_ignore_ascii_case};
ghost use Rattle.httparse.specs.Spans.{IsHeaderWithin, header_bytes};
ghost use Rattle.mx_http.specs.request.Fields.{body_length, is_number, length_said, values_named};

use crate::request::rejection::Rejection;
use httparse::spans::HeaderSpan;

/// The most bytes of a body.
pub const MOST_BODY: usize = 65_536;

/// Whether a field has this name, in any ASCII case.
fn is_named(field: &[u8], name: &str) -> bool
    ensures { result ≡ str_eq_ignore_ascii_case field.now name.now }
{
    field.eq_ignore_ascii_case(name.as_bytes())
}

/// The value of the first field of this name, in any ASCII case, and the fields behind it.
fn next_value<'a, 'h>(
    buf: &'a [u8],
    headers: &'h [HeaderSpan],
    name: &str,
) -> Option<(&'a [u8], &'h [HeaderSpan])>
    requires { All (IsHeaderWithin (length buf.now)) headers.now }
    ensures value { MatchOption result (values_named name.now (map (header_bytes buf.now) headers.now) ≡ [])
        (λ found. values_named name.now (map (header_bytes buf.now) headers.now)
        ≡ found.0.now ∷ values_named name.now (map (header_bytes buf.now) found.1.now)) }
    ensures within { IfSome result (λ found. All (IsHeaderWithin (length buf.now)) found.1.now) }
{
    let mut rest = headers;
    while let Some((header, later)) = rest.split_first() {
        let field = header.name.of(buf);
        if is_named(field, name) {
            return Some((header.value.of(buf), later));
        }
        rest = later;
    }
    None
}

/// Whether a text is one or more digits, and nothing else.
fn is_number(text: &[u8]) -> bool
    ensures { result ≡ is_number text.now }
{
    let mut rest = text;
    while let Some((byte, later)) = rest.split_first() {
        if !byte.is_ascii_digit() {
            return false;
        }
        rest = later;
    }
    !text.is_empty()
}

/// The length that a value says: a number of at most 65,536.
fn length_said(text: &[u8]) -> Result<usize, Rejection>
    ensures { result ≡ length_said text.now }
{
    if !is_number(text) {
        return Err(Rejection::BadRequest);
    }
    let mut number: usize = 0;
    let mut rest = text;
    while let Some((byte, later)) = rest.split_first() {
        number = number * 10 + usize::from(*byte - b'0');
        if number > MOST_BODY {
            return Err(Rejection::BodyTooLarge);
        }
        rest = later;
    }
    Ok(number)
}

/// How long the body is, by the fields of the head.
///
/// # Errors
///
/// `LengthRequired` where no length is said or the body comes in a transfer coding, `BadRequest` where the length is
/// said twice or is no number, `BodyTooLarge` where it is more than 65,536.
pub(crate) fn body_length(buf: &[u8], headers: &[HeaderSpan]) -> Result<usize, Rejection>
    requires { All (IsHeaderWithin (length buf.now)) headers.now }
    ensures { result ≡ body_length (map (header_bytes buf.now) headers.now) }
{
    if next_value(buf, headers, "Transfer-Encoding").is_some() {
        return Err(Rejection::LengthRequired);
    }
    let Some((text, later)) = next_value(buf, headers, "Content-Length") else {
        return Err(Rejection::LengthRequired);
    };
    match next_value(buf, later, "Content-Length") {
        None => length_said(text),
        Some(_) => Err(Rejection::BadRequest),
    }
}
