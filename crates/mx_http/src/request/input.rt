//! Reading some bytes of an input.
ghost use Rattle.std.specs.Prelude.{◌≡◌, ◌≤◌, take, IfOk};
ghost use Rattle.mx_intake.specs.Input.{TakesAtMost};
ghost use Rattle.mx_http.specs.request.Input.{AddsTaken};

use std::io::Read;

/// How many bytes a read is asked for at most.
pub const CHUNK: usize = 4096;

/// Why an input could not be read.
#[derive(Clone, Copy, Debug, PartialEq, Eq)]
pub enum InputFault {
    /// Memory ran out.
    Memory,
    /// A read failed, or was interrupted.
    Read,
}

/// The first so many bytes, or all where there are fewer.
pub(crate) fn front_of(bytes: &[u8], most: usize) -> &[u8]
    ensures { result.now ≡ take most bytes.now }
{
    &bytes[..bytes.len().min(most)]
}

/// Appends what one read gives, at most so many bytes and at most 4,096, and answers how many: none at the end of the
/// input. Bytes that were read are lost where memory runs out.
pub(crate) fn read_some<R: Read>(
    reader: &mut R,
    bytes: &mut Vec<u8>,
    most: usize,
) -> Result<usize, InputFault>
    ensures ok { IfOk result (λ n.
        AddsTaken (R.remaining reader.old) (R.remaining reader.new) bytes.old.items bytes.new.items n most) }
    ensures chunk { IfOk result (λ n. n ≤ CHUNK) }
    ensures takes { TakesAtMost (R.remaining reader.old) (R.remaining reader.new) most }
{
    let mut chunk = [0u8; CHUNK];
    let room = most.min(CHUNK);
    match reader.read(&mut chunk[..room]) {
        Ok(n) => {
            let added = bytes.extend_from_slice(&chunk[..n]);
            added.map_err(|_| InputFault::Memory)?;
            Ok(n)
        }
        Err(_) => Err(InputFault::Read),
    }
}
