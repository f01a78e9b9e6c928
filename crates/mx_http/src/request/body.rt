//! The body of a request.
ghost use Rattle.std.specs.Prelude.{◌≡◌, ◌++◌, Some, IfOk, IfSome, option_map, vec_len};
ghost use Rattle.mx_http.specs.request.Body.{missing, whole_body};
ghost use Rattle.mx_intake.specs.Input.{TakesAtMost};

use crate::request::input::{InputFault, front_of, read_some};
use std::alloc::Global;
use std::io::Read;

/// The body of so many bytes, which begins with those that were read behind the head; None where the input ends sooner.
/// It reads no further than the body, and nothing where the body was read with the head: bytes behind it are passed over.
/// A read that fails or is interrupted is a fault.
pub fn read_body<R: Read>(
    alloc: Global,
    reader: &mut R,
    begun: &[u8],
    length: usize,
) -> Result<Option<Vec<u8>>, InputFault>
    ensures body { (left : _) → R.remaining reader.old ≡ Some left → IfOk result (λ found.
        option_map (λ v. v.items) found ≡ whole_body length (begun.now ++ left)) }
    ensures size { IfOk result (λ found. IfSome found (λ v. vec_len v ≡ length)) }
    ensures takes { TakesAtMost (R.remaining reader.old) (R.remaining reader.new)
        (missing length begun.now) }
{
    let front = Vec::from_slice(alloc, front_of(begun, length));
    let mut body = front.map_err(|_| InputFault::Memory)?;
    while body.len() < length {
        let missing = length - body.len();
        if read_some(reader, &mut body, missing)? == 0 {
            return Ok(None);
        }
    }
    Ok(Some(body))
}
