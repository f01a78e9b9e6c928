//! The line that says whether the tables of a file are those of a book.
ghost use Rattle.std.specs.Prelude.{◌≡◌, ◌++◌, true, false, IfOk, IfErr, OnOk, OnErr};
ghost use Rattle.mx_output.specs.printed.Verified.{verified_ending, verified_line};

use crate::endings::{Ending, Stop};
use std::alloc::AllocError;

// Appends the line of an answer.
fn append_answer(out: &mut Vec<u8>, same: bool) -> Result<(), AllocError>
    ensures printed { OnOk result (out.new.items ≡ out.old.items ++ verified_line same) }
    ensures unprinted { OnErr result (out.new.items ≡ out.old.items) }
{
    if same {
        out.extend_from_slice(b"verified\n")
    } else {
        out.extend_from_slice(b"differs\n")
    }
}

// How the word ends by an answer.
fn ending_of(same: bool) -> Ending
    ensures { result ≡ verified_ending same }
{
    if same { Ending::Done } else { Ending::Differs }
}

/// Appends the line of an answer, and tells how the word ends.
pub fn print_answer(out: &mut Vec<u8>, same: bool) -> Result<Ending, Stop>
    ensures printed { OnOk result (out.new.items ≡ out.old.items ++ verified_line same) }
    ensures ending { IfOk result (λ ending. ending ≡ verified_ending same) }
    ensures unprinted { OnErr result (out.new.items ≡ out.old.items) }
    ensures memory { IfErr result (λ stop. stop ≡ Stop.Print) }
{
    match append_answer(out, same) {
        Ok(()) => Ok(ending_of(same)),
        Err(_) => Err(Stop::Print),
    }
}
