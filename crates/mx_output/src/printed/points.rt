//! The line of the point that a file is at.
ghost use Rattle.std.specs.Prelude.{◌≡◌, ◌++◌, IfOk, IfErr, OnOk, OnErr};
ghost use Rattle.std.specs.Fmt.{decimal};
ghost use Rattle.mx_reports.specs.Words.{spaced, StartsWith};
ghost use Rattle.mx_output.specs.printed.Moved.{point_line};

use crate::endings::{Ending, Stop};
use itoa::Buffer;
use mx_base::Point;
use mx_reports::{Text, append_whole};
use std::alloc::AllocError;

// Appends a number behind a blank. Where memory runs out, what was there before is there still, with some of it behind.
#[tactic(auto, using(mx_reports::proofs::StartsLemmas::starts_further))]
fn append_number(out: &mut Vec<u8>, number: u32) -> Result<(), AllocError>
    ensures words { OnOk result (out.new.items ≡ out.old.items ++ spaced (decimal number)) }
    ensures kept { OnErr result (StartsWith out.old.items out.new.items) }
{
    let mut buffer = Buffer::new();
    out.push(b' ')?;
    out.extend_from_slice(buffer.format(number).as_bytes())
}

// The point that a file is at, as a line.
#[derive(Clone, Copy)]
struct PointLine {
    at: Point,
}

impl Text for PointLine {
    ghost text = { λ line. point_line line.at };

    #[tactic(auto, using(mx_reports::proofs::StartsLemmas::starts_further))]
    fn append(&self, out: &mut Vec<u8>) -> Result<(), AllocError> {
        out.extend_from_slice(b"point")?;
        append_number(out, u32::from(self.at.layout))?;
        append_number(out, u32::from(self.at.step))?;
        append_number(out, self.at.mark)?;
        out.extend_from_slice(b"\n")
    }
}

/// Appends the line of a point.
pub fn print_point(out: &mut Vec<u8>, at: Point) -> Result<Ending, Stop>
    ensures printed { OnOk result (out.new.items ≡ out.old.items ++ point_line at) }
    ensures ending { IfOk result (λ ending. ending ≡ Ending.Done) }
    ensures unprinted { OnErr result (out.new.items ≡ out.old.items) }
    ensures memory { IfErr result (λ stop. stop ≡ Stop.Print) }
{
    match append_whole(out, &PointLine { at }) {
        Ok(()) => Ok(Ending::Done),
        Err(_) => Err(Stop::Print),
    }
}
