//! Why an input states nothing.
//!
//! Want of memory is told of entry 0 also where it runs out at another, since it says nothing of what that entry
//! states. It may come before any other fault: the positions of an aircraft are gathered before its other keys are
//! looked at.
ghost use Rattle.std.specs.Prelude.{◌≡◌};
ghost use Rattle.mx_intake.specs.Fault.{fault};

use std::alloc::AllocError;

/// Why an input gives no commands, or no programme: the number of the fault, and the entry that has it.
#[derive(Clone, Copy, Debug, PartialEq, Eq)]
pub struct IntakeFault {
    /// One of the numbers 60 to 69, each of which has a constant of this crate.
    pub number: u8,
    /// The place of the entry in the list, from 1; 0 is the whole input, or the top of a programme.
    pub entry: u32,
}

impl From<AllocError> for IntakeFault {
    ghost use Rattle.std.specs.Prelude.{◌≡◌};
    ghost use Rattle.mx_intake.specs.Fault.{fault};
    ghost use Rattle.mx_intake.specs.declared.fault.TheConstants.{MEMORY};

    ghost from_gives = { λ _ f. f ≡ fault MEMORY 0 };

    fn from(_error: AllocError) -> IntakeFault {
        of_whole(MEMORY)
    }
}

/// Memory ran out.
pub const MEMORY: u8 = 60;

/// The input is not UTF-8, or has no reading as JSON or TOML.
pub const NOT_TEXT: u8 = 61;

/// A key that the entry needs is missing.
pub const MISSING: u8 = 62;

/// A value is of another kind than its key wants, or can't be read.
pub const BAD_VALUE: u8 = 63;

/// The entry has a key that its form doesn't have.
pub const UNKNOWN_KEY: u8 = 64;

/// The entry does not have the shape of a command, a programme or a task, or two of its keys exclude each other.
pub const BAD_SHAPE: u8 = 65;

/// The first record of a log is not its header.
pub const BAD_HEADER: u8 = 66;

/// There are more bytes, or more entries, than are taken.
pub const TOO_LONG: u8 = 67;

/// A row of a log has other than six fields.
pub const BAD_ROW: u8 = 68;

/// A read failed, or was interrupted.
pub const READ_FAILED: u8 = 69;

/// A fault of the whole input.
pub(crate) fn of_whole(number: u8) -> IntakeFault
    ensures { result ≡ fault number 0 }
{
    IntakeFault { number, entry: 0 }
}
