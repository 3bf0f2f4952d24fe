//! The error of the writers.

ghost use Rattle.std.specs.Prelude.{◌≡◌};
ghost use Rattle.wac_binary.specs.declared.fault.BinaryFault.TheVariants.{OutOfMemory};

use std::alloc::{AllocError, AllocFailed};
use thiserror::Error;

/// Why a writer adds nothing.
#[derive(Clone, Copy, Debug, PartialEq, Eq, Error)]
pub enum BinaryFault {
    /// A count, a size or an index does not fit in 32 bits.
    #[error("TooLarge")]
    TooLarge,
    /// Out of memory.
    #[error("OutOfMemory")]
    OutOfMemory,
}

impl From<AllocError> for BinaryFault {
    ghost from_gives = { λ _ e. e ≡ OutOfMemory };

    fn from(_e: AllocError) -> BinaryFault {
        BinaryFault::OutOfMemory
    }
}

impl<T: Drop> From<AllocFailed<T>> for BinaryFault {
    ghost from_gives = { λ _ e. e ≡ OutOfMemory };

    fn from(_e: AllocFailed<T>) -> BinaryFault {
        BinaryFault::OutOfMemory
    }
}
