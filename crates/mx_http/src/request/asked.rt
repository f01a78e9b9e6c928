//! What the head of a request asks for.
//!
//! The grammar of a head is a relation of `httparse`, so what a head asks for is one too (`AsksFor`); that it is one
//! thing alone is a law. Within the head what `httparse` reads counts, line ends of LF alone too.
ghost use Rattle.std.specs.Prelude.{◌≡◌, ◌≢◌, ◌≤◌, length, IfOk, IfSome, IfNone};
ghost use Rattle.httparse.specs.Grammar.{RequestHead};
ghost use Rattle.httparse.specs.Spans.{IsRequestAt, IsRequestWithin};
ghost use Rattle.mx_http.specs.request.Asked.{AsksFor, as_asked, rejected};
ghost use Rattle.mx_http.specs.request.Head.{IsReadable};

use crate::request::finding::route;
use crate::request::head::MOST_FIELDS;
use crate::request::length::body_length;
use crate::request::rejection::Rejection;
use crate::request::routes::{NoRoute, Route};
use http::Method;
use http::method::MethodError;
use httparse::Status;
use httparse::spans::{EMPTY_HEADER_SPAN, HeaderSpan, RequestSpans, parse_request};
use std::alloc::{AllocError, Global};
use std::str;

/// Where the parts of a head are, if these bytes are one that can be read.
fn parts_of(head: &[u8], headers: &mut [HeaderSpan]) -> Option<RequestSpans>
    requires { length headers.old ≡ MOST_FIELDS }
    ensures within { IfSome result (IsRequestWithin head.now headers.new) }
    ensures readable { IfSome result (λ parts. (whole : RequestHead)
        × IsReadable head.now whole × IsRequestAt head.now headers.new parts whole) }
    ensures unreadable { IfNone result ((whole : RequestHead) → ¬ (IsReadable head.now whole)) }
{
    match parse_request(head, headers) {
        Ok(Status::Complete(parts)) => {
            if parts.len == head.len() {
                Some(parts)
            } else {
                None
            }
        }
        _ => None,
    }
}

/// How a request is rejected that has no route.
///
/// # Errors
///
/// `AllocError` where the allocator had no memory for the routes.
fn rejected(why: NoRoute) -> Result<Rejection, AllocError>
    ensures { IfOk result (λ rejection. (why ≢ NoRoute.Memory) × (rejection ≡ rejected why)) }
{
    match why {
        NoRoute::Memory => Err(AllocError),
        NoRoute::NotFound => Ok(Rejection::NotFound),
        NoRoute::WrongMethod { allow_post } => Ok(Rejection::WrongMethod { allow_post }),
    }
}

/// What a head asks for, and how long its body is; or why it is rejected. Where no body is taken, its length is 0.
///
/// # Errors
///
/// `AllocError` where the allocator has no memory.
pub fn asked_of<'a>(
    alloc: Global,
    head: &'a [u8],
) -> Result<Result<(Route<'a>, usize), Rejection>, AllocError>
    ensures { IfOk result (λ said. AsksFor head.now (as_asked said)) }
{
    let mut headers = [EMPTY_HEADER_SPAN; MOST_FIELDS];
    let Some(parts) = parts_of(head, &mut headers) else {
        return Ok(Err(Rejection::BadRequest));
    };
    let method = match Method::from_bytes(alloc, parts.method.of(head)) {
        Ok(method) => method,
        Err(MethodError::OutOfMemory) => return Err(AllocError),
        Err(MethodError::Invalid) => return Ok(Err(Rejection::BadRequest)),
    };
    let Ok(target) = str::from_utf8(parts.path.of(head)) else {
        return Ok(Err(Rejection::BadRequest));
    };
    let route = match route(alloc, &method, target) {
        Ok(route) => route,
        Err(why) => return Ok(Err(rejected(why)?)),
    };
    if !route.place().takes_post() {
        return Ok(Ok((route, 0)));
    }
    match body_length(head, &headers[..parts.headers]) {
        Ok(length) => Ok(Ok((route, length))),
        Err(why) => Ok(Err(why)),
    }
}
