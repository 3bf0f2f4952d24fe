//! Why the outer names of a component are not valid.
ghost use Rattle.std.specs.Prelude.{◌≡◌};

use std::alloc::{AllocError, AllocFailed};
use thiserror::Error;

/// A fault of the outer names of a component. `Display` writes the variant's name.
#[derive(Debug, Drop, PartialEq, Eq, Error)]
pub enum ValidationFault {
    /// A name is outside the grammar of component names.
    #[error("BadName")]
    BadName { name: String },
    /// Two imports or two exports clash. They are in written order.
    #[error("Clash")]
    Clash { first: String, second: String },
    /// An export has the name of a hash, a URL or a dependency.
    #[error("NotExportable")]
    NotExportable { name: String },
}

/// Why validation fails.
#[derive(Debug, Drop, PartialEq, Eq, Error)]
pub enum ValidationError {
    /// The names are not valid.
    #[error("the outer names are not valid")]
    Fault { source: ValidationFault },
    /// Out of memory.
    #[error("out of memory")]
    OutOfMemory,
}

impl From<AllocError> for ValidationError {
    ghost use Rattle.wac_names.specs.declared.validation.fault.ValidationError.TheVariants.{OutOfMemory};

    ghost from_gives = { λ _ e. e ≡ OutOfMemory };

    fn from(_e: AllocError) -> ValidationError {
        ValidationError::OutOfMemory
    }
}

impl<T: Drop> From<AllocFailed<T>> for ValidationError {
    ghost use Rattle.wac_names.specs.declared.validation.fault.ValidationError.TheVariants.{OutOfMemory};

    ghost from_gives = { λ _ e. e ≡ OutOfMemory };

    fn from(_e: AllocFailed<T>) -> ValidationError {
        ValidationError::OutOfMemory
    }
}
