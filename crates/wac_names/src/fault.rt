use thiserror::Error;

/// Why a text is not a component name, or cannot be used as one. `Display` writes the variant's name.
#[derive(Clone, Copy, Debug, PartialEq, Eq, Error)]
pub enum NameFault {
    /// The text is empty.
    #[error("Empty")]
    Empty,
    /// A part of the text that must be a label is not one.
    #[error("BadLabel")]
    BadLabel,
    /// The text after `@` is not a semantic version.
    #[error("BadVersion")]
    BadVersion,
    /// The package is not two lower-case labels with a `:` between them.
    #[error("BadPackage")]
    BadPackage,
    /// The text after `@` is not a range of versions.
    #[error("BadRange")]
    BadRange,
    /// The text between `integrity=<` and `>` is not a hash.
    #[error("BadHash")]
    BadHash,
    /// A `<` has no `>`.
    #[error("Unclosed")]
    Unclosed,
    /// There is text after the end of the name.
    #[error("Trailing")]
    Trailing,
    /// Out of memory.
    #[error("OutOfMemory")]
    OutOfMemory,
    /// The name is a hash, a URL or a dependency, which cannot be exported. Reading a name never returns this.
    #[error("NotExportable")]
    NotExportable,
}
