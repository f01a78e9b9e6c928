//! What stops an answer.

use crate::request::InputFault;
use std::alloc::AllocError;

/// What stops an answer.
#[derive(Clone, Copy, Debug, PartialEq, Eq)]
pub enum DeskFault {
    /// Memory ran out. Nothing was written; of the commands that were handed in some may have been entered.
    Memory,
    /// A read failed or was interrupted. Nothing was written, and the office wasn't asked.
    Read,
    /// A write failed. The answer may have gone out in part; what the commands did stands.
    Write,
}

impl From<AllocError> for DeskFault {
    ghost use Rattle.std.specs.Prelude.{◌≡◌};
    ghost use Rattle.mx_http.specs.declared.responses.fault.DeskFault.TheVariants.{Memory};

    ghost from_gives = { λ _ fault. fault ≡ Memory };

    fn from(_none: AllocError) -> DeskFault {
        DeskFault::Memory
    }
}

ghost use Rattle.std.specs.Prelude.{◌≡◌};
ghost use Rattle.mx_http.specs.responses.Stopped.{fault_of_input};

/// What stops an answer where a request couldn't be read.
pub fn of_input(fault: InputFault) -> DeskFault
    ensures { result ≡ fault_of_input fault }
{
    match fault {
        InputFault::Memory => DeskFault::Memory,
        InputFault::Read => DeskFault::Read,
    }
}
