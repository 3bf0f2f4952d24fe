//! Why bytes are not the text of a component, and where.

ghost use Rattle.std.specs.Prelude.{◌≡◌};

use thiserror::Error;

/// A feature of the standard that is not read.
#[derive(Clone, Copy, Debug, PartialEq, Eq, Error)]
pub enum Feature {
    /// A canonical function whose opcode is not in the table.
    #[error("a canonical function that is not known")]
    CanonicalFunction,
    /// A core module in place of a component.
    #[error("a core module in place of a component")]
    CoreModule,
    /// A core type other than a function type of plain value types, or a module type of such; in a component type or
    /// an instance type also a core function type, and an alias of a core type.
    #[error("a core type of garbage collection, or one in a component type")]
    CoreType,
    /// A type `map`.
    #[error("a type `map`")]
    MapType,
    /// A form of an import's or export's name other than `00` and `01`.
    #[error("a name with attributes")]
    NameForm,
    /// A function with named results.
    #[error("named results")]
    NamedResults,
    /// A component or a type that is nested too deep.
    #[error("nesting deeper than 100")]
    TooDeep,
    /// A start section, a value section, or the description of a value.
    #[error("values")]
    Values,
}

/// What is wrong with the bytes.
#[derive(Clone, Copy, Debug, PartialEq, Eq, Error)]
pub enum TextFault {
    /// The bytes end before their item does.
    #[error("the bytes end too early")]
    Short,
    /// A number has too many bytes, or bits past its size.
    #[error("a number is too long")]
    LongNumber,
    /// A name is not UTF-8.
    #[error("a name is not UTF-8")]
    NotUtf8,
    /// A byte that begins nothing here.
    #[error("an unexpected byte")]
    UnknownByte,
    /// A sort or a type that is not allowed here.
    #[error("a sort or a type that is not allowed here")]
    Misplaced,
    /// A section is longer than its contents.
    #[error("a section is longer than its contents")]
    Leftover,
    /// The bytes do not begin with a component's preamble.
    #[error("no preamble of a component")]
    NoPreamble,
    /// A feature that is not supported.
    #[error("not supported: {0}")]
    Unsupported(Feature),
}
