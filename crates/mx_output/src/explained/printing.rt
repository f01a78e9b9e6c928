//! The text of an explanation.
ghost use Rattle.std.specs.Prelude.{◌≡◌, ◌++◌, IfErr, IfOk, OnErr, OnOk};

use crate::endings::{Ending, Stop};

/// Appends an explanation.
pub fn print_explanation(out: &mut Vec<u8>, text: &str) -> Result<Ending, Stop>
    ensures printed { OnOk result (out.new.items ≡ out.old.items ++ text.now) }
    ensures ending { IfOk result (λ ending. ending ≡ Ending.Done) }
    ensures unprinted { OnErr result (out.new.items ≡ out.old.items) }
    ensures memory { IfErr result (λ stop. stop ≡ Stop.Print) }
{
    match out.extend_from_slice(text.as_bytes()) {
        Ok(()) => Ok(Ending::Done),
        Err(_) => Err(Stop::Print),
    }
}
