//! The head of a request: where it ends, and reading as far.
ghost use Rattle.std.specs.Prelude.{◌≡◌, ◌≤◌, ◌++◌, [], Some, IfOk, IfSome, length, vec_len};
ghost use Rattle.mx_http.specs.request.Head.{HasNoHeadBefore, head_length, head_of};
ghost use Rattle.mx_intake.specs.Input.{TakesAtMost};
ghost use Rattle.mx_http.specs.declared.request.input.TheConstants.{CHUNK};

use crate::request::input::{InputFault, front_of, read_some};
use crate::request::rejection::Rejection;
use std::alloc::Global;
use std::io::Read;

/// The most bytes that a head has.
pub const MOST_HEAD: usize = 8_192;

/// The most fields that a head has.
pub const MOST_FIELDS: usize = 64;

// How long the head is at the front of the bytes: up to the first mark, with it.
fn head_length(bytes: &[u8]) -> Option<usize>
    ensures exact { result ≡ head_length bytes.now }
    ensures within { IfSome result (λ n. n ≤ length bytes.now) }
{
    let mut passed = 0;
    let mut rest = bytes;
    while let Some((_, later)) = rest.split_first() {
        if rest.starts_with(b"\r\n\r\n") {
            return Some(passed + 4);
        }
        passed += 1;
        rest = later;
    }
    None
}

/// How long the head is at the front of an input: up to the first CR LF CR LF, with it, which ends within the first
/// 8,192 bytes. Otherwise 400 for an input that is shorter than those, and 431.
pub fn head_of(bytes: &[u8]) -> Result<usize, Rejection>
    ensures exact { result ≡ head_of bytes.now }
    ensures within { IfOk result (λ n. n ≤ length bytes.now) }
{
    match head_length(front_of(bytes, MOST_HEAD)) {
        Some(length) => Ok(length),
        None if bytes.len() < MOST_HEAD => Err(Rejection::BadRequest),
        None => Err(Rejection::HeadTooLarge),
    }
}

/// The front of an input that tells its head: it reads until a head ends there, 8,192 bytes are there, or the input ends.
/// What the last read gave behind the head is there too, and of a read no more than 4,096 bytes are asked. A read that
/// fails or is interrupted is a fault.
pub fn read_head<R: Read>(alloc: Global, reader: &mut R) -> Result<Vec<u8>, InputFault>
    ensures enough { (input : _) → R.remaining reader.old ≡ Some input → IfOk result (λ bytes.
        (rest : _) × (R.remaining reader.new ≡ Some rest) × (input ≡ bytes.items ++ rest)
        × (head_of bytes.items ≡ head_of input) × (bytes.items ≡ [] → input ≡ [])) }
    ensures within { IfOk result (λ bytes. vec_len bytes ≤ MOST_HEAD) }
    ensures prompt { IfOk result (λ bytes. HasNoHeadBefore CHUNK bytes.items) }
    ensures takes { TakesAtMost (R.remaining reader.old) (R.remaining reader.new) MOST_HEAD }
{
    let mut bytes = Vec::new(alloc);
    while bytes.len() < MOST_HEAD && head_length(&bytes).is_none() {
        let room = MOST_HEAD - bytes.len();
        if read_some(reader, &mut bytes, room)? == 0 {
            return Ok(bytes);
        }
    }
    Ok(bytes)
}
