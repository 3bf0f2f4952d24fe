//! The errors of calls on a graph.
ghost use Rattle.std.specs.Prelude.{◌≡◌};

use std::alloc::{AllocError, AllocFailed};
use thiserror::Error;
use wac_edges::node::NodeId;
use wac_names::NameFault;
use wac_types::{PackageKey, TypeFault};

/// The error of `register_package`.
#[derive(Debug, Drop, Error)]
pub enum RegisterPackageError {
    /// A package with this key is already registered.
    #[error("package `{key}` has already been registered in the graph")]
    PackageAlreadyRegistered { key: PackageKey },
    /// Out of memory.
    #[error("out of memory")]
    OutOfMemory,
}

impl From<AllocError> for RegisterPackageError {
    ghost use Rattle.wac_graph_model.specs.declared.nodes.errors.RegisterPackageError.TheVariants.{OutOfMemory};

    ghost from_gives = { λ _ e. e ≡ OutOfMemory };

    fn from(_e: AllocError) -> RegisterPackageError {
        RegisterPackageError::OutOfMemory
    }
}

impl<T: Drop> From<AllocFailed<T>> for RegisterPackageError {
    ghost use Rattle.wac_graph_model.specs.declared.nodes.errors.RegisterPackageError.TheVariants.{OutOfMemory};

    ghost from_gives = { λ _ e. e ≡ OutOfMemory };

    fn from(_e: AllocFailed<T>) -> RegisterPackageError {
        RegisterPackageError::OutOfMemory
    }
}

/// The error of `import`.
#[derive(Debug, Drop, Error)]
pub enum ImportError {
    /// The node already imports this name.
    #[error("import name `{name}` already exists in the graph")]
    ImportAlreadyExists { name: String, node: NodeId },
    /// The name is not a component name.
    #[error("import name `{name}` is not valid")]
    InvalidImportName { name: String, source: NameFault },
    /// Out of memory.
    #[error("out of memory")]
    OutOfMemory,
}

impl From<AllocError> for ImportError {
    ghost use Rattle.wac_graph_model.specs.declared.nodes.errors.ImportError.TheVariants.{OutOfMemory};

    ghost from_gives = { λ _ e. e ≡ OutOfMemory };

    fn from(_e: AllocError) -> ImportError {
        ImportError::OutOfMemory
    }
}

impl<T: Drop> From<AllocFailed<T>> for ImportError {
    ghost use Rattle.wac_graph_model.specs.declared.nodes.errors.ImportError.TheVariants.{OutOfMemory};

    ghost from_gives = { λ _ e. e ≡ OutOfMemory };

    fn from(_e: AllocFailed<T>) -> ImportError {
        ImportError::OutOfMemory
    }
}

/// The error of `define_type`.
#[derive(Debug, Drop, Error)]
pub enum DefineTypeError {
    /// A node of the graph already defines the type.
    #[error("the provided type has already been defined in the graph")]
    TypeAlreadyDefined,
    /// The type is a resource.
    #[error("a resource type cannot be defined in the graph")]
    CannotDefineResource,
    /// The graph already exports this name.
    #[error("type name `{name}` conflicts with an existing export of the same name")]
    ExportConflict { name: String },
    /// The name is not a component name.
    #[error("type name `{name}` is not valid")]
    InvalidExternName { name: String, source: NameFault },
    /// Out of memory.
    #[error("out of memory")]
    OutOfMemory,
}

impl From<AllocError> for DefineTypeError {
    ghost use Rattle.wac_graph_model.specs.declared.nodes.errors.DefineTypeError.TheVariants.{OutOfMemory};

    ghost from_gives = { λ _ e. e ≡ OutOfMemory };

    fn from(_e: AllocError) -> DefineTypeError {
        DefineTypeError::OutOfMemory
    }
}

impl<T: Drop> From<AllocFailed<T>> for DefineTypeError {
    ghost use Rattle.wac_graph_model.specs.declared.nodes.errors.DefineTypeError.TheVariants.{OutOfMemory};

    ghost from_gives = { λ _ e. e ≡ OutOfMemory };

    fn from(_e: AllocFailed<T>) -> DefineTypeError {
        DefineTypeError::OutOfMemory
    }
}

/// The error of `alias_instance_export`.
#[derive(Debug, Drop, Error)]
pub enum AliasError {
    /// The source node is not an instance, but an item of this kind.
    #[error("expected source node to be an instance, but the node is a {kind}")]
    NodeIsNotAnInstance { node: NodeId, kind: &'static str },
    /// The instance has no export with this name.
    #[error("instance does not have an export named `{export}`")]
    InstanceMissingExport { node: NodeId, export: String },
    /// Out of memory.
    #[error("out of memory")]
    OutOfMemory,
}

impl From<AllocError> for AliasError {
    ghost use Rattle.wac_graph_model.specs.declared.nodes.errors.AliasError.TheVariants.{OutOfMemory};

    ghost from_gives = { λ _ e. e ≡ OutOfMemory };

    fn from(_e: AllocError) -> AliasError {
        AliasError::OutOfMemory
    }
}

/// The error of `export`.
#[derive(Debug, Drop, Error)]
pub enum ExportError {
    /// The graph already exports this node under the name.
    #[error("an export with the name `{name}` already exists")]
    ExportAlreadyExists { name: String, node: NodeId },
    /// The name is not a component name, or it is a hash, url or dependency name.
    #[error("export name `{name}` is not valid")]
    InvalidExportName { name: String, source: NameFault },
    /// Out of memory.
    #[error("out of memory")]
    OutOfMemory,
}

impl From<AllocError> for ExportError {
    ghost use Rattle.wac_graph_model.specs.declared.nodes.errors.ExportError.TheVariants.{OutOfMemory};

    ghost from_gives = { λ _ e. e ≡ OutOfMemory };

    fn from(_e: AllocError) -> ExportError {
        ExportError::OutOfMemory
    }
}

impl<T: Drop> From<AllocFailed<T>> for ExportError {
    ghost use Rattle.wac_graph_model.specs.declared.nodes.errors.ExportError.TheVariants.{OutOfMemory};

    ghost from_gives = { λ _ e. e ≡ OutOfMemory };

    fn from(_e: AllocFailed<T>) -> ExportError {
        ExportError::OutOfMemory
    }
}

/// The error of `unexport`.
#[derive(Debug, Drop, Error)]
pub enum UnexportError {
    /// The node is a type definition, which must stay exported.
    #[error("cannot unexport a type definition")]
    MustExportDefinition,
    /// Out of memory. `unexport` allocates nothing, so it never returns this.
    #[error("out of memory")]
    OutOfMemory,
}

impl From<AllocError> for UnexportError {
    ghost use Rattle.wac_graph_model.specs.declared.nodes.errors.UnexportError.TheVariants.{OutOfMemory};

    ghost from_gives = { λ _ e. e ≡ OutOfMemory };

    fn from(_e: AllocError) -> UnexportError {
        UnexportError::OutOfMemory
    }
}

/// The error of `set_instantiation_argument` and `unset_instantiation_argument`.
#[derive(Debug, Drop, Error)]
pub enum InstantiationArgumentError {
    /// The node is not an instantiation.
    #[error("the specified node is not an instantiation")]
    NodeIsNotAnInstantiation {
        node: NodeId,
    },
    /// The world of the instantiated package has no import with this name.
    #[error("argument name `{name}` is not an import of package `{package}`")]
    InvalidArgumentName {
        node: NodeId,
        name: String,
        package: String,
    },
    /// Another node is already the argument for this import.
    #[error("argument `{name}` has already been passed to the instantiation")]
    ArgumentAlreadyPassed {
        node: NodeId,
        name: String,
    },
    /// The argument's type is not a subtype of the import's.
    #[error("mismatched instantiation argument `{name}`")]
    ArgumentTypeMismatch {
        name: String,
        source: TypeFault,
    },
    /// Out of memory.
    #[error("out of memory")]
    OutOfMemory,
}

impl From<AllocError> for InstantiationArgumentError {
    ghost use Rattle.wac_graph_model.specs.declared.nodes.errors.InstantiationArgumentError.TheVariants.{OutOfMemory};

    ghost from_gives = { λ _ e. e ≡ OutOfMemory };

    fn from(_e: AllocError) -> InstantiationArgumentError {
        InstantiationArgumentError::OutOfMemory
    }
}
