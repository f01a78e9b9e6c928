//! What is taken of a connection behind its answer, and what is told where connections were served.
ghost use Rattle.std.specs.Prelude.{◌≡◌, ◌++◌, OnOk};
ghost use Rattle.mx_http.specs.responses.Serving.{served_line};

use itoa::Buffer;
use std::alloc::AllocError;
use std::io::Read;
use std::net::{OpenStream, TcpStream};

// What is taken at most of a request behind its answer, in chunks.
const CHUNK_BYTES: usize = 4096;

const MOST_CHUNKS: u32 = 64;

/// Appends how many connections were served.
pub fn append_served(out: &mut Vec<u8>, count: u32) -> Result<(), AllocError>
    ensures { OnOk result (out.new.items ≡ out.old.items ++ served_line count) }
{
    let mut buffer = Buffer::new();
    out.extend_from_slice(b"served ")?;
    out.extend_from_slice(buffer.format(count).as_bytes())?;
    out.extend_from_slice(b"\n")
}

/// Takes what has come already, without a wait, so that a peer that has sent more than was read finds its answer and not a
/// connection that was reset.
pub fn take_the_rest(stream: &TcpStream) {
    if stream.set_nonblocking(true).is_err() {
        return;
    }
    let mut reader = stream;
    let mut chunk = [0; CHUNK_BYTES];
    for _ in 0..MOST_CHUNKS {
        match reader.read(&mut chunk) {
            Ok(count) if count > 0 => {}
            _ => return,
        }
    }
}
