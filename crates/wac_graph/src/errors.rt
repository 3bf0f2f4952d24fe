//! Any error of the library.
ghost use Rattle.std.specs.Prelude.{◌≡◌};

use crate::plugs::PlugError;
use std::alloc::AllocError;
use thiserror::Error as ThisError;
use wac_graph_model::{
    AliasError, DefineTypeError, EncodeError, ExportError, ImportError, InstantiationArgumentError,
    RegisterPackageError, UnexportError,
};
use wac_types::{AddTypeError, ShapeError};

/// Any error of the library. Each of its errors converts into one.
///
/// Out of memory is [`OutOfMemory`](Error::OutOfMemory), or the `OutOfMemory` of the error inside.
#[derive(Debug, Drop, ThisError)]
pub enum Error {
    /// A type was not built, because a name occurs twice. It is the first such name.
    #[error("name `{name}` occurs twice")]
    NameTwice { name: String },
    /// A type was not built.
    #[error("the type was not built")]
    Shape(#[source] ShapeError),
    /// A type was not added.
    #[error("the type was not added")]
    AddType(#[source] AddTypeError),
    /// A package was not registered.
    #[error("{0}")]
    RegisterPackage(RegisterPackageError),
    /// An item was not imported.
    #[error("{0}")]
    Import(ImportError),
    /// A type was not defined.
    #[error("{0}")]
    DefineType(DefineTypeError),
    /// An export of an instance was not aliased.
    #[error("{0}")]
    Alias(AliasError),
    /// A node was not exported.
    #[error("{0}")]
    Export(ExportError),
    /// The exports of a node were not removed.
    #[error("{0}")]
    Unexport(UnexportError),
    /// An argument was not set or unset.
    #[error("{0}")]
    Argument(InstantiationArgumentError),
    /// Packages were not plugged.
    #[error("{0}")]
    Plug(PlugError),
    /// The graph was not encoded.
    #[error("{0}")]
    Encode(EncodeError),
    /// Out of memory.
    #[error("out of memory")]
    OutOfMemory,
}

impl From<AllocError> for Error {
    ghost use Rattle.wac_graph.specs.declared.errors.Error.TheVariants.{OutOfMemory};

    ghost from_gives = { λ _ e. e ≡ OutOfMemory };

    fn from(_e: AllocError) -> Error {
        Error::OutOfMemory
    }
}

impl From<ShapeError> for Error {
    ghost use Rattle.wac_graph.specs.declared.errors.Error.TheVariants.{Shape};

    ghost from_gives = { λ error e. e ≡ Shape error };

    fn from(error: ShapeError) -> Error {
        Error::Shape(error)
    }
}

impl From<AddTypeError> for Error {
    ghost use Rattle.wac_graph.specs.declared.errors.Error.TheVariants.{AddType};

    ghost from_gives = { λ error e. e ≡ AddType error };

    fn from(error: AddTypeError) -> Error {
        Error::AddType(error)
    }
}

impl From<RegisterPackageError> for Error {
    ghost use Rattle.wac_graph.specs.declared.errors.Error.TheVariants.{RegisterPackage};

    ghost from_gives = { λ error e. e ≡ RegisterPackage error };

    fn from(error: RegisterPackageError) -> Error {
        Error::RegisterPackage(error)
    }
}

impl From<ImportError> for Error {
    ghost use Rattle.wac_graph.specs.declared.errors.Error.TheVariants.{Import};

    ghost from_gives = { λ error e. e ≡ Import error };

    fn from(error: ImportError) -> Error {
        Error::Import(error)
    }
}

impl From<DefineTypeError> for Error {
    ghost use Rattle.wac_graph.specs.declared.errors.Error.TheVariants.{DefineType};

    ghost from_gives = { λ error e. e ≡ DefineType error };

    fn from(error: DefineTypeError) -> Error {
        Error::DefineType(error)
    }
}

impl From<AliasError> for Error {
    ghost use Rattle.wac_graph.specs.declared.errors.Error.TheVariants.{Alias};

    ghost from_gives = { λ error e. e ≡ Alias error };

    fn from(error: AliasError) -> Error {
        Error::Alias(error)
    }
}

impl From<ExportError> for Error {
    ghost use Rattle.wac_graph.specs.declared.errors.Error.TheVariants.{Export};

    ghost from_gives = { λ error e. e ≡ Export error };

    fn from(error: ExportError) -> Error {
        Error::Export(error)
    }
}

impl From<UnexportError> for Error {
    ghost use Rattle.wac_graph.specs.declared.errors.Error.TheVariants.{Unexport};

    ghost from_gives = { λ error e. e ≡ Unexport error };

    fn from(error: UnexportError) -> Error {
        Error::Unexport(error)
    }
}

impl From<InstantiationArgumentError> for Error {
    ghost use Rattle.wac_graph.specs.declared.errors.Error.TheVariants.{Argument};

    ghost from_gives = { λ error e. e ≡ Argument error };

    fn from(error: InstantiationArgumentError) -> Error {
        Error::Argument(error)
    }
}

impl From<PlugError> for Error {
    ghost use Rattle.wac_graph.specs.declared.errors.Error.TheVariants.{Plug};

    ghost from_gives = { λ error e. e ≡ Plug error };

    fn from(error: PlugError) -> Error {
        Error::Plug(error)
    }
}

impl From<EncodeError> for Error {
    ghost use Rattle.wac_graph.specs.declared.errors.Error.TheVariants.{Encode};

    ghost from_gives = { λ error e. e ≡ Encode error };

    fn from(error: EncodeError) -> Error {
        Error::Encode(error)
    }
}
