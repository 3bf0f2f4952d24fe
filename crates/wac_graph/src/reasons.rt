//! Reasons of errors, in words.
use crate::errors::Error;
use crate::plugs::{PlugError, PlugFault};
use std::alloc::{AllocError, Global};
use wac_encode_faults::WriteFault;
use wac_graph_model::{
    AliasError, DefineTypeError, EncodeError, ExportError, ImportError, InstantiationArgumentError,
    RegisterPackageError, UnexportError,
};
use wac_merge::MergeFault;
use wac_names::NameFault;
use wac_names::validation::ValidationFault;
use wac_types::{AddTypeError, ShapeError};

/// An error that says its reason in words.
///
/// It is implemented for each error of the library, and for the faults inside them.
pub trait Reason {
    /// Returns the error's text and, after a colon, the reason, with the names and nodes that it is about.
    ///
    /// If the text says it all, nothing follows. A fault, whose text is one word, gives the reason alone.
    ///
    /// # Errors
    /// `AllocError` if memory runs out.
    fn with_reason(&self, alloc: Global) -> Result<String, AllocError>;
}

impl Reason for ShapeError {
    fn with_reason(&self, alloc: Global) -> Result<String, AllocError> {
        let reason = match self {
            ShapeError::NameTwice => "a name occurs twice",
            ShapeError::OutOfMemory => "out of memory",
        };
        String::from_str(alloc, reason)
    }
}

impl Reason for AddTypeError {
    fn with_reason(&self, alloc: Global) -> Result<String, AllocError> {
        let reason = match self {
            AddTypeError::NotHeld => "it mentions a type that is not of the collection",
            AddTypeError::UsedInterfaceUnnamed => "it uses a type of an interface without an id",
            AddTypeError::UsedTypeMissing => "an interface that it uses exports no such type",
            AddTypeError::UsedTypeDiffers =>
                "an item with the name of a used type is not that type",
            AddTypeError::ResourceMisnamed => "a resource has a name other than its own",
            AddTypeError::OutOfMemory => "out of memory",
        };
        String::from_str(alloc, reason)
    }
}

impl Reason for NameFault {
    fn with_reason(&self, alloc: Global) -> Result<String, AllocError> {
        let reason = match self {
            NameFault::Empty => "it is empty",
            NameFault::BadLabel => "a part of it is not a label",
            NameFault::BadVersion => "its version is not a semantic version",
            NameFault::BadPackage => "its package is not two labels with a colon",
            NameFault::BadRange => "its range of versions is not valid",
            NameFault::BadHash => "its hash is not valid",
            NameFault::Unclosed => "a bracket is not closed",
            NameFault::Trailing => "there is text after its end",
            NameFault::OutOfMemory => "out of memory",
            NameFault::NotExportable => "a hash, URL or dependency cannot be exported",
        };
        String::from_str(alloc, reason)
    }
}

impl Reason for WriteFault {
    fn with_reason(&self, alloc: Global) -> Result<String, AllocError> {
        let reason = match self {
            WriteFault::UnboundResource => "it mentions a resource that no import has",
            WriteFault::ModuleAsType => "a core module type is not a type of a component",
            WriteFault::UnnamedDefinition => "a defined interface or world has no id",
            WriteFault::NestedItem => "a component, core module or value is inside it",
            WriteFault::ValueItem => "values cannot be imported",
            WriteFault::UnlistedDependency => "it uses an interface that it does not list",
            WriteFault::InterfaceTwice =>
                "another import has the name of an interface that it uses",
            WriteFault::TypesUseEachOther => "its items depend on each other in a cycle",
        };
        String::from_str(alloc, reason)
    }
}

impl Reason for ValidationFault {
    fn with_reason(&self, alloc: Global) -> Result<String, AllocError> {
        match self {
            ValidationFault::BadName { name } => format!(in alloc; "name `{name}` is not valid"),
            ValidationFault::Clash { first, second } => {
                format!(in alloc; "names `{first}` and `{second}` clash")
            }
            ValidationFault::NotExportable { name } => {
                format!(in alloc; "name `{name}` cannot be exported")
            }
        }
    }
}

impl Reason for RegisterPackageError {
    fn with_reason(&self, alloc: Global) -> Result<String, AllocError> {
        format!(in alloc; "{self}")
    }
}

impl Reason for ImportError {
    fn with_reason(&self, alloc: Global) -> Result<String, AllocError> {
        match self {
            ImportError::ImportAlreadyExists { node, .. } => {
                format!(in alloc; "{self}: node {node} imports it")
            }
            ImportError::InvalidImportName { source, .. } => {
                let reason = source.with_reason(alloc)?;
                format!(in alloc; "{self}: {reason}")
            }
            ImportError::OutOfMemory => format!(in alloc; "{self}"),
        }
    }
}

impl Reason for DefineTypeError {
    fn with_reason(&self, alloc: Global) -> Result<String, AllocError> {
        match self {
            DefineTypeError::InvalidExternName { source, .. } => {
                let reason = source.with_reason(alloc)?;
                format!(in alloc; "{self}: {reason}")
            }
            _ => format!(in alloc; "{self}"),
        }
    }
}

impl Reason for AliasError {
    fn with_reason(&self, alloc: Global) -> Result<String, AllocError> {
        match self {
            AliasError::NodeIsNotAnInstance { node, .. }
            | AliasError::InstanceMissingExport { node, .. } => {
                format!(in alloc; "{self}: node {node}")
            }
            AliasError::OutOfMemory => format!(in alloc; "{self}"),
        }
    }
}

impl Reason for ExportError {
    fn with_reason(&self, alloc: Global) -> Result<String, AllocError> {
        match self {
            ExportError::ExportAlreadyExists { node, .. } => {
                format!(in alloc; "{self}: node {node} is exported under it")
            }
            ExportError::InvalidExportName { source, .. } => {
                let reason = source.with_reason(alloc)?;
                format!(in alloc; "{self}: {reason}")
            }
            ExportError::OutOfMemory => format!(in alloc; "{self}"),
        }
    }
}

impl Reason for UnexportError {
    fn with_reason(&self, alloc: Global) -> Result<String, AllocError> {
        format!(in alloc; "{self}")
    }
}

impl Reason for InstantiationArgumentError {
    fn with_reason(&self, alloc: Global) -> Result<String, AllocError> {
        match self {
            InstantiationArgumentError::NodeIsNotAnInstantiation { node }
            | InstantiationArgumentError::InvalidArgumentName { node, .. }
            | InstantiationArgumentError::ArgumentAlreadyPassed { node, .. } => {
                format!(in alloc; "{self}: node {node}")
            }
            InstantiationArgumentError::ArgumentTypeMismatch { .. } => {
                format!(in alloc; "{self}: its type is not a subtype of the import's")
            }
            InstantiationArgumentError::OutOfMemory => format!(in alloc; "{self}"),
        }
    }
}

impl Reason for PlugFault {
    fn with_reason(&self, alloc: Global) -> Result<String, AllocError> {
        match self {
            PlugFault::Alias(source) => source.with_reason(alloc),
            PlugFault::Argument(source) => source.with_reason(alloc),
            PlugFault::Export(source) => source.with_reason(alloc),
        }
    }
}

impl Reason for PlugError {
    fn with_reason(&self, alloc: Global) -> Result<String, AllocError> {
        let PlugError::GraphError { source } = self else {
            return format!(in alloc; "{self}");
        };
        let reason = source.with_reason(alloc)?;
        format!(in alloc; "{self}: {reason}")
    }
}

impl Reason for EncodeError {
    fn with_reason(&self, alloc: Global) -> Result<String, AllocError> {
        match self {
            EncodeError::GraphContainsCycle { node } => {
                format!(in alloc; "{self}: node {node} is on a cycle")
            }
            EncodeError::ImplicitImportConflict {
                import,
                instantiation,
                ..
            } => format!(in alloc; "{self}: nodes {instantiation} and {import}"),
            EncodeError::ImportTypeMergeConflict {
                first,
                second,
                source,
                ..
            } => match differing_export(source) {
                Some(export) => format!(in alloc;
                    "{self}: nodes {first} and {second} disagree in export `{export}`"
                ),
                None => format!(in alloc; "{self}: nodes {first} and {second} disagree"),
            },
            EncodeError::ExplicitImportMergeConflict { node, other, .. } => {
                format!(in alloc; "{self}: nodes {other} and {node} disagree")
            }
            EncodeError::TypeNotWritable { fault, .. } => {
                let reason = fault.with_reason(alloc)?;
                format!(in alloc; "{self}: {reason}")
            }
            EncodeError::ValidationFailure { source } => {
                let reason = source.with_reason(alloc)?;
                format!(in alloc; "{self}: {reason}")
            }
            _ => format!(in alloc; "{self}"),
        }
    }
}

/// The export in which two imports disagree. `None` if they disagree themselves.
fn differing_export(fault: &MergeFault) -> Option<&str> {
    match fault {
        MergeFault::Disagree { export, .. } if !export.is_empty() => Some(export.as_str()),
        _ => None,
    }
}

impl Reason for Error {
    fn with_reason(&self, alloc: Global) -> Result<String, AllocError> {
        match self {
            Error::Shape(source) => {
                let reason = source.with_reason(alloc)?;
                format!(in alloc; "{self}: {reason}")
            }
            Error::AddType(source) => {
                let reason = source.with_reason(alloc)?;
                format!(in alloc; "{self}: {reason}")
            }
            Error::RegisterPackage(error) => error.with_reason(alloc),
            Error::Import(error) => error.with_reason(alloc),
            Error::DefineType(error) => error.with_reason(alloc),
            Error::Alias(error) => error.with_reason(alloc),
            Error::Export(error) => error.with_reason(alloc),
            Error::Unexport(error) => error.with_reason(alloc),
            Error::Argument(error) => error.with_reason(alloc),
            Error::Plug(error) => error.with_reason(alloc),
            Error::Encode(error) => error.with_reason(alloc),
            Error::NameTwice { .. } | Error::OutOfMemory => format!(in alloc; "{self}"),
        }
    }
}
