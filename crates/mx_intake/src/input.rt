//! The whole of an input, up to a limit.
//!
//! An interrupted read has failed, and is not done again: the whole input is read before anything is entered, so that
//! handing it in again does no harm, and a reader that is interrupted for ever can't hold the program.
ghost use Rattle.std.specs.Prelude.{◌≡◌, ◌≤◌, ◌+◌, ◌⊎◌, length, IfOk, IfErr, vec_len};
ghost use Rattle.mx_intake.specs.declared.fault.TheConstants.{MEMORY, TOO_LONG, READ_FAILED};
ghost use Rattle.mx_intake.specs.Input.{TakesAtMost, IfKnownLonger, IfKnownAll};

use crate::fault::{IntakeFault, READ_FAILED, TOO_LONG, of_whole};
use std::alloc::Global;
use std::io::Read;

/// How many bytes a read is asked for at most.
const CHUNK: usize = 4096;

/// All bytes that a reader has left, where those are at most `limit`; of a longer one it takes at most one byte more
/// than that. Each fault is of entry 0: 67 where there are more bytes, 69 where a read failed or was interrupted, and
/// 60.
pub fn read_all<R: Read>(
    alloc: Global,
    reader: &mut R,
    limit: usize,
) -> Result<Vec<u8>, IntakeFault>
    ensures within { IfOk result (λ bytes. vec_len bytes ≤ limit) }
    ensures whole { IfOk result (λ bytes. IfKnownAll (R.remaining reader.old) bytes.items) }
    ensures too_long { IfErr result (λ f. f.number ≡ TOO_LONG
        → IfKnownLonger (R.remaining reader.old) limit) }
    ensures fault { IfErr result (λ f. (f.entry ≡ 0)
        × ((f.number ≡ MEMORY) ⊎ (f.number ≡ TOO_LONG) ⊎ (f.number ≡ READ_FAILED))) }
    ensures takes { TakesAtMost (R.remaining reader.old) (R.remaining reader.new) (limit + 1) }
{
    let mut bytes = Vec::new(alloc);
    let mut chunk = [0u8; CHUNK];
    while bytes.len() <= limit {
        let room = (limit - bytes.len()).min(CHUNK - 1) + 1;
        match reader.read(&mut chunk[..room]) {
            Ok(0) => return Ok(bytes),
            Ok(n) => bytes.extend_from_slice(&chunk[..n])?,
            Err(_) => return Err(of_whole(READ_FAILED)),
        }
    }
    Err(of_whole(TOO_LONG))
}
