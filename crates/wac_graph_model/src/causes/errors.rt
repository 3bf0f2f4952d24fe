//! The error of encoding a graph.
ghost use Rattle.std.specs.Prelude.{◌≡◌};

use crate::nodes::NodeId;
use std::alloc::{AllocError, AllocFailed};
use thiserror::Error;
use wac_binary::BinaryFault;
use wac_encode_faults::WriteFault;
use wac_merge_classes::terms::fault::MergeFault;
use wac_names::validation::{ValidationError, ValidationFault};
use wac_types::PackageKey;

/// The error of `encode`.
///
/// If several causes apply, the first in this order is returned:
///
/// 1. [`GraphContainsCycle`](EncodeError::GraphContainsCycle)
/// 2. [`ImplicitImportConflict`](EncodeError::ImplicitImportConflict)
/// 3. [`ImportTypeMergeConflict`](EncodeError::ImportTypeMergeConflict) or
///    [`ExplicitImportMergeConflict`](EncodeError::ExplicitImportMergeConflict)
/// 4. [`ImportsUseEachOther`](EncodeError::ImportsUseEachOther)
/// 5. [`TypeNotWritable`](EncodeError::TypeNotWritable)
/// 6. [`TooLarge`](EncodeError::TooLarge)
/// 7. [`ValidationFailure`](EncodeError::ValidationFailure)
///
/// [`OutOfMemory`](EncodeError::OutOfMemory) may be returned in place of any of them.
#[derive(Debug, Drop, Error)]
pub enum EncodeError {
    /// The graph contains a cycle. The node is the lowest one on a cycle.
    #[error("the graph contains a cycle and cannot be encoded")]
    GraphContainsCycle {
        node: NodeId,
    },
    /// An implicit import has the same name as an import node. The lowest instantiation with such an import is reported.
    #[error("an instantiation of package `{package}` implicitly imports an item named `{name}`, but it conflicts with an explicit import of the same name")]
    ImplicitImportConflict {
        /// The import node.
        import: NodeId,
        /// The instantiation with the implicit import.
        instantiation: NodeId,
        /// The package that is instantiated.
        package: PackageKey,
        /// The name that both imports have.
        name: String,
    },
    /// An implicit import cannot be merged with an earlier import of its class.
    #[error("failed to merge the type definition for implicit import `{import}` due to conflicting types")]
    ImportTypeMergeConflict {
        /// The name of the implicit import.
        import: String,
        /// The node of the first import that it disagrees with.
        first: NodeId,
        /// The instantiation with the implicit import.
        second: NodeId,
        /// The positions of the two imports, and the export in which they disagree.
        source: MergeFault,
    },
    /// An import node cannot be merged with an earlier import of its class.
    #[error("failed to merge the type definition for explicit import `{import}` due to conflicting types")]
    ExplicitImportMergeConflict {
        /// The name of the import.
        import: String,
        /// The import node.
        node: NodeId,
        /// The node of the first import that it disagrees with.
        other: NodeId,
    },
    /// Imports depend on each other in a cycle.
    #[error("import `{import}` rests on itself through other imports")]
    ImportsUseEachOther {
        /// The canonical name of the first import on a cycle.
        import: String,
    },
    /// A type that a node needs has no encoding.
    #[error("the type of node {node} cannot be written")]
    TypeNotWritable {
        /// The lowest such node.
        node: NodeId,
        /// The lowest fault of the first such type that the node needs.
        #[source]
        fault: WriteFault,
    },
    /// An index, a count or a size does not fit 32 bits.
    #[error("an index or a size does not fit 32 bits")]
    TooLarge,
    /// Out of memory.
    #[error("out of memory")]
    OutOfMemory,
    /// Validation was requested, and a name of an import or export is invalid or clashes with another.
    #[error("encoding produced a component that failed validation")]
    ValidationFailure {
        source: ValidationFault,
    },
}

impl From<AllocError> for EncodeError {
    ghost use Rattle.wac_graph_model.specs.declared.causes.errors.EncodeError.TheVariants.{OutOfMemory};

    ghost from_gives = { λ _ e. e ≡ OutOfMemory };

    fn from(_e: AllocError) -> EncodeError {
        EncodeError::OutOfMemory
    }
}

impl From<BinaryFault> for EncodeError {
    ghost use Rattle.wac_graph_model.specs.private.causes.Faults.{encode_error};

    ghost from_gives = { λ fault e. e ≡ encode_error fault };

    fn from(fault: BinaryFault) -> EncodeError {
        match fault {
            BinaryFault::TooLarge => EncodeError::TooLarge,
            BinaryFault::OutOfMemory => EncodeError::OutOfMemory,
        }
    }
}

impl From<ValidationError> for EncodeError {
    ghost use Rattle.wac_graph_model.specs.private.causes.Faults.{validation_failure};

    ghost from_gives = { λ error e. e ≡ validation_failure error };

    fn from(error: ValidationError) -> EncodeError {
        match error {
            ValidationError::Fault { source } => EncodeError::ValidationFailure { source },
            ValidationError::OutOfMemory => EncodeError::OutOfMemory,
        }
    }
}

impl<T: Drop> From<AllocFailed<T>> for EncodeError {
    ghost use Rattle.wac_graph_model.specs.declared.causes.errors.EncodeError.TheVariants.{OutOfMemory};

    ghost from_gives = { λ _ e. e ≡ OutOfMemory };

    fn from(_e: AllocFailed<T>) -> EncodeError {
        EncodeError::OutOfMemory
    }
}
