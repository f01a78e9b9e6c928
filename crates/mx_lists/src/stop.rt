//! Why a list of records is not answered.
//!
//! A look-up that answers several rows takes memory for them, so it stops with `Stop`, which has want of memory beside
//! the fault of the records. Those of the judge answer one thing each, and have that fault alone.
ghost use Rattle.std.specs.Prelude.{◌≡◌};
ghost use Rattle.mx_lists.specs.declared.stop.Stop.TheVariants.{NoMemory};

use std::alloc::{AllocError, AllocFailed};

/// Why a list of records is not answered.
#[derive(Clone, Copy, Debug, PartialEq, Eq)]
pub enum Stop<F> {
    /// Memory ran out.
    NoMemory,
    /// A question of the records was not answered, for this reason.
    Fault(F),
}

impl<F> From<AllocError> for Stop<F> {
    ghost from_gives = { λ _ stop. stop ≡ NoMemory };

    fn from(_error: AllocError) -> Stop<F> {
        Stop::NoMemory
    }
}

impl<F, T: Drop> From<AllocFailed<T>> for Stop<F> {
    ghost from_gives = { λ _ stop. stop ≡ NoMemory };

    fn from(_error: AllocFailed<T>) -> Stop<F> {
        Stop::NoMemory
    }
}
