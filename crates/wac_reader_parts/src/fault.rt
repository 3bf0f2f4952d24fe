//! The error within the reader: a place is counted from the end of the bytes.

ghost use Rattle.std.specs.Prelude.{◌≡◌};
ghost use Rattle.wac_reader_parts.specs.private.Faults.{SameText};
ghost use Rattle.wac_reader_parts.specs.declared.fault.ReadFault.TheVariants.{Memory};

use std::alloc::{AllocError, AllocFailed};
use wac_component::TextFault;

/// Why bytes are not read.
#[derive(Debug, Drop)]
pub enum ReadFault {
    /// Out of memory.
    Memory,
    /// What is wrong with the bytes.
    Text {
        /// What is wrong.
        fault: TextFault,
        /// The number of bytes from the first byte of the item or field to the end of the bytes that were passed.
        left: usize,
    },
}

impl ReadFault {
    /// Returns the fault, if this many bytes stand after those that it was found in.
    pub fn before(self, count: usize) -> ReadFault
        ensures { SameText self result }
    {
        match self {
            ReadFault::Memory => ReadFault::Memory,
            ReadFault::Text { fault, left } => ReadFault::Text {
                fault,
                left: left.saturating_add(count),
            },
        }
    }
}

impl From<AllocError> for ReadFault {
    ghost from_gives = { λ _ e. e ≡ Memory };

    fn from(_e: AllocError) -> ReadFault {
        ReadFault::Memory
    }
}

impl<T: Drop> From<AllocFailed<T>> for ReadFault {
    ghost from_gives = { λ _ e. e ≡ Memory };

    fn from(_e: AllocFailed<T>) -> ReadFault {
        ReadFault::Memory
    }
}
