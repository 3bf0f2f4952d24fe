//! Why a type is not written.
ghost use Rattle.std.specs.Prelude.{◌≡◌};
ghost use Rattle.wac_encode_faults.specs.declared.fault.EncodeFault.TheVariants.{OutOfMemory as EncodeOutOfMemory};

use std::alloc::{AllocError, AllocFailed};
use thiserror::Error;

/// What of an item cannot be written. Of several faults, the first in this order is returned.
#[derive(Clone, Copy, Debug, PartialEq, Eq, Error)]
pub enum WriteFault {
    /// A resource that no scope binds where it is mentioned.
    #[error("UnboundResource")]
    UnboundResource,
    /// A core module type as a definition or a type item.
    #[error("ModuleAsType")]
    ModuleAsType,
    /// A defined interface or world without an id.
    #[error("UnnamedDefinition")]
    UnnamedDefinition,
    /// A component, core module or value item inside an instance type or a component type.
    #[error("NestedItem")]
    NestedItem,
    /// A value item that the root imports.
    #[error("ValueItem")]
    ValueItem,
    /// An interface that a component type uses, and neither imports nor, for its exports, exports.
    #[error("UnlistedDependency")]
    UnlistedDependency,
    /// An additional import of a defined world or interface that has the name of another import.
    #[error("InterfaceTwice")]
    InterfaceTwice,
    /// Items of one component type that depend on each other in a cycle.
    #[error("TypesUseEachOther")]
    TypesUseEachOther,
}

/// Why an item is not written.
#[derive(Clone, Copy, Debug, PartialEq, Eq, Error)]
pub enum EncodeFault {
    /// It cannot be written.
    #[error("Write")]
    Write(#[source] WriteFault),
    /// An index, a count or a size does not fit 32 bits.
    #[error("TooLarge")]
    TooLarge,
    /// Out of memory.
    #[error("OutOfMemory")]
    OutOfMemory,
}

impl From<AllocError> for EncodeFault {
    ghost from_gives = { λ _ e. e ≡ EncodeOutOfMemory };

    fn from(_e: AllocError) -> EncodeFault {
        EncodeFault::OutOfMemory
    }
}

impl<T: Drop> From<AllocFailed<T>> for EncodeFault {
    ghost from_gives = { λ _ e. e ≡ EncodeOutOfMemory };

    fn from(_e: AllocFailed<T>) -> EncodeFault {
        EncodeFault::OutOfMemory
    }
}
