//! Why a line or a call is refused.
ghost use Rattle.std.specs.Prelude.{◌≡◌, ◌↔◌, IsTrue};
ghost use Rattle.wac_script.specs.declared.refusal.Refusal.TheVariants as refusal;
ghost use Rattle.wac_script.specs.labels.Things.{IsWordMemory};
ghost use Rattle.wac_script.specs.Refusals.{refused_by};
ghost use Rattle.wac_script.specs.Memory.{IsTypeMemory, IsRegisterMemory, IsImportMemory, IsDefineMemory, IsAliasMemory, IsArgumentMemory, IsExportMemory, IsPlugMemory, IsMemory, IsLineMemory};

use crate::labels::WordError;
use std::alloc::AllocError;
use std::fmt;
use wac_graph::types::AddTypeError;
use wac_graph::{
    AliasError, DefineTypeError, ExportError, ImportError, InstantiationArgumentError, PlugError,
    PlugFault, RegisterPackageError,
};

/// Why a line is refused.
#[derive(Debug, Drop)]
pub enum LineError {
    /// No call has the name.
    UnknownCall(String),
    /// The call takes other words.
    OtherWords(String),
    /// The call is refused.
    Call(Refusal),
}

/// Why a call is refused.
#[derive(Debug, Drop)]
pub enum Refusal {
    /// A word is not what the call takes, or a name occurs twice.
    Words(WordError),
    /// A type cannot be added.
    Type(AddTypeError),
    /// A package cannot be registered.
    Register(RegisterPackageError),
    /// An item cannot be imported.
    Import(ImportError),
    /// A type cannot be defined.
    Define(DefineTypeError),
    /// An export cannot be aliased.
    Alias(AliasError),
    /// An argument cannot be set.
    Argument(InstantiationArgumentError),
    /// A node cannot be exported.
    Export(ExportError),
    /// Packages cannot be plugged.
    Plug(PlugError),
    /// Out of memory.
    OutOfMemory,
}

impl LineError {
    /// Whether memory ran out.
    pub fn is_out_of_memory(&self) -> bool
        ensures { IsTrue result ↔ IsLineMemory self.now }
    {
        match self {
            LineError::Call(refusal) => refusal.is_out_of_memory(),
            _ => false,
        }
    }
}

impl Refusal {
    /// Whether memory ran out.
    pub fn is_out_of_memory(&self) -> bool
        ensures { IsTrue result ↔ IsMemory self.now }
    {
        match self {
            Refusal::Words(error) => is_word_memory(error),
            Refusal::Type(error) => is_type_memory(error),
            Refusal::Register(error) => is_register_memory(error),
            Refusal::Import(error) => is_import_memory(error),
            Refusal::Define(error) => is_define_memory(error),
            Refusal::Alias(error) => is_alias_memory(error),
            Refusal::Argument(error) => is_argument_memory(error),
            Refusal::Export(error) => is_export_memory(error),
            Refusal::Plug(error) => is_plug_memory(error),
            Refusal::OutOfMemory => true,
        }
    }
}

/// Whether memory ran out for words.
fn is_word_memory(error: &WordError) -> bool
    ensures { IsTrue result ↔ IsWordMemory error.now }
{
    match error {
        WordError::OutOfMemory => true,
        _ => false,
    }
}

/// Whether memory ran out for a type.
fn is_type_memory(error: &AddTypeError) -> bool
    ensures { IsTrue result ↔ IsTypeMemory error.now }
{
    match error {
        AddTypeError::OutOfMemory => true,
        _ => false,
    }
}

/// Whether memory ran out for a package.
fn is_register_memory(error: &RegisterPackageError) -> bool
    ensures { IsTrue result ↔ IsRegisterMemory error.now }
{
    match error {
        RegisterPackageError::OutOfMemory => true,
        _ => false,
    }
}

/// Whether memory ran out for an import.
fn is_import_memory(error: &ImportError) -> bool
    ensures { IsTrue result ↔ IsImportMemory error.now }
{
    match error {
        ImportError::OutOfMemory => true,
        _ => false,
    }
}

/// Whether memory ran out for a definition.
fn is_define_memory(error: &DefineTypeError) -> bool
    ensures { IsTrue result ↔ IsDefineMemory error.now }
{
    match error {
        DefineTypeError::OutOfMemory => true,
        _ => false,
    }
}

/// Whether memory ran out for an alias.
fn is_alias_memory(error: &AliasError) -> bool
    ensures { IsTrue result ↔ IsAliasMemory error.now }
{
    match error {
        AliasError::OutOfMemory => true,
        _ => false,
    }
}

/// Whether memory ran out for an argument.
fn is_argument_memory(error: &InstantiationArgumentError) -> bool
    ensures { IsTrue result ↔ IsArgumentMemory error.now }
{
    match error {
        InstantiationArgumentError::OutOfMemory => true,
        _ => false,
    }
}

/// Whether memory ran out for an export.
fn is_export_memory(error: &ExportError) -> bool
    ensures { IsTrue result ↔ IsExportMemory error.now }
{
    match error {
        ExportError::OutOfMemory => true,
        _ => false,
    }
}

/// Whether memory ran out for `plug`.
fn is_plug_memory(error: &PlugError) -> bool
    ensures { IsTrue result ↔ IsPlugMemory error.now }
{
    match error {
        PlugError::OutOfMemory => true,
        _ => false,
    }
}

impl From<AllocError> for Refusal {
    ghost from_gives = { λ _ e. e ≡ refusal.OutOfMemory };

    fn from(_e: AllocError) -> Refusal {
        Refusal::OutOfMemory
    }
}

impl From<WordError> for Refusal {
    ghost from_gives = { λ source e. e ≡ refused_by source };

    fn from(source: WordError) -> Refusal {
        match source {
            WordError::OutOfMemory => Refusal::OutOfMemory,
            WordError::Word { fault, word } => Refusal::Words(WordError::Word { fault, word }),
            WordError::Shape(source) => Refusal::Words(WordError::Shape(source)),
        }
    }
}

impl From<AddTypeError> for Refusal {
    ghost from_gives = { λ source e. e ≡ refusal.Type source };

    fn from(source: AddTypeError) -> Refusal {
        Refusal::Type(source)
    }
}

/// Writes the error of an export, with its reason.
fn write_export<W: fmt::Write>(error: &ExportError, f: &mut fmt::Formatter<W>) -> fmt::Result {
    match error {
        ExportError::InvalidExportName { name: _, source } => write!(f, "{error}: {source}"),
        _ => write!(f, "{error}"),
    }
}

/// Writes the error of an argument, with its reason.
fn write_argument<W: fmt::Write>(
    error: &InstantiationArgumentError,
    f: &mut fmt::Formatter<W>,
) -> fmt::Result {
    match error {
        InstantiationArgumentError::ArgumentTypeMismatch { name: _, source } => {
            write!(f, "{error}: {source}")
        }
        _ => write!(f, "{error}"),
    }
}

/// Writes the error of `plug`, with its reason.
fn write_plug<W: fmt::Write>(error: &PlugError, f: &mut fmt::Formatter<W>) -> fmt::Result {
    let PlugError::GraphError { source } = error else {
        return write!(f, "{error}");
    };
    write!(f, "{error}: ")?;
    match source {
        PlugFault::Alias(source) => write!(f, "{source}"),
        PlugFault::Argument(source) => write_argument(source, f),
        PlugFault::Export(source) => write_export(source, f),
    }
}

/// Writes the error of an import, with its reason.
fn write_import<W: fmt::Write>(error: &ImportError, f: &mut fmt::Formatter<W>) -> fmt::Result {
    match error {
        ImportError::InvalidImportName { name: _, source } => write!(f, "{error}: {source}"),
        _ => write!(f, "{error}"),
    }
}

/// Writes the error of a definition, with its reason.
fn write_define<W: fmt::Write>(error: &DefineTypeError, f: &mut fmt::Formatter<W>) -> fmt::Result {
    match error {
        DefineTypeError::InvalidExternName { name: _, source } => write!(f, "{error}: {source}"),
        _ => write!(f, "{error}"),
    }
}

impl fmt::Display for Refusal {
    fn fmt<W: fmt::Write>(&self, f: &mut fmt::Formatter<W>) -> fmt::Result {
        match self {
            Refusal::Words(source) => write!(f, "{source}"),
            Refusal::Type(source) => write!(f, "the type cannot be added: {source}"),
            Refusal::Register(source) => write!(f, "{source}"),
            Refusal::Import(source) => write_import(source, f),
            Refusal::Define(source) => write_define(source, f),
            Refusal::Alias(source) => write!(f, "{source}"),
            Refusal::Argument(source) => write_argument(source, f),
            Refusal::Export(source) => write_export(source, f),
            Refusal::Plug(source) => write_plug(source, f),
            Refusal::OutOfMemory => f.write_str("out of memory"),
        }
    }
}

impl fmt::Display for LineError {
    fn fmt<W: fmt::Write>(&self, f: &mut fmt::Formatter<W>) -> fmt::Result {
        match self {
            LineError::UnknownCall(name) => write!(f, "no call has this name: `{name}`"),
            LineError::OtherWords(call) => write!(f, "the call takes other words: `{call}`"),
            LineError::Call(source) => write!(f, "{source}"),
        }
    }
}
