//! The errors of plugging.
ghost use Rattle.std.specs.Prelude.{◌≡◌};

use std::alloc::{AllocError, AllocFailed};
use thiserror::Error;
use wac_graph_model::{AliasError, ExportError, InstantiationArgumentError};

/// The error of the graph call that failed during plugging.
#[derive(Debug, Drop, Error)]
pub enum PlugFault {
    /// An export of an instance could not be aliased.
    #[error("{0}")]
    Alias(AliasError),
    /// An argument could not be set.
    #[error("{0}")]
    Argument(InstantiationArgumentError),
    /// An export of the socket could not be exported.
    #[error("{0}")]
    Export(ExportError),
}

/// The error of `plug`.
#[derive(Debug, Drop, Error)]
pub enum PlugError {
    /// No export of a plug matches an import of the socket.
    #[error("the socket component had no matching imports for the plugs that were provided")]
    NoPlugHappened,
    /// A call on the graph failed.
    #[error("an error occurred when building the composition graph")]
    GraphError { source: PlugFault },
    /// Out of memory.
    #[error("out of memory")]
    OutOfMemory,
}

impl From<AllocError> for PlugError {
    ghost use Rattle.wac_graph.specs.declared.plugs.errors.PlugError.TheVariants.{OutOfMemory};

    ghost from_gives = { λ _ e. e ≡ OutOfMemory };

    fn from(_e: AllocError) -> PlugError {
        PlugError::OutOfMemory
    }
}

impl<T: Drop> From<AllocFailed<T>> for PlugError {
    ghost use Rattle.wac_graph.specs.declared.plugs.errors.PlugError.TheVariants.{OutOfMemory};

    ghost from_gives = { λ _ e. e ≡ OutOfMemory };

    fn from(_e: AllocFailed<T>) -> PlugError {
        PlugError::OutOfMemory
    }
}

/// An error of aliasing, as `GraphError` or `OutOfMemory`.
impl From<AliasError> for PlugError {
    ghost use Rattle.wac_graph.specs.plugs.Refusals.{of_alias};

    ghost from_gives = { λ refusal e. e ≡ of_alias refusal };

    fn from(refusal: AliasError) -> PlugError {
        match refusal {
            AliasError::OutOfMemory => PlugError::OutOfMemory,
            refusal => PlugError::GraphError {
                source: PlugFault::Alias(refusal),
            },
        }
    }
}

/// An error of setting an argument, as `GraphError` or `OutOfMemory`.
impl From<InstantiationArgumentError> for PlugError {
    ghost use Rattle.wac_graph.specs.plugs.Refusals.{of_argument};

    ghost from_gives = { λ refusal e. e ≡ of_argument refusal };

    fn from(refusal: InstantiationArgumentError) -> PlugError {
        match refusal {
            InstantiationArgumentError::OutOfMemory => PlugError::OutOfMemory,
            refusal => PlugError::GraphError {
                source: PlugFault::Argument(refusal),
            },
        }
    }
}

/// An error of exporting, as `GraphError` or `OutOfMemory`.
impl From<ExportError> for PlugError {
    ghost use Rattle.wac_graph.specs.plugs.Refusals.{of_export};

    ghost from_gives = { λ refusal e. e ≡ of_export refusal };

    fn from(refusal: ExportError) -> PlugError {
        match refusal {
            ExportError::OutOfMemory => PlugError::OutOfMemory,
            refusal => PlugError::GraphError {
                source: PlugFault::Export(refusal),
            },
        }
    }
}
