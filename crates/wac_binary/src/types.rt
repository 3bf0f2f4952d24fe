//! Types as the writers take them. Lists and names are borrowed.

use wac_types_shapes::PrimitiveType;

/// A value type in use (`valtype`).
#[derive(Clone, Copy, Debug, PartialEq, Eq)]
pub enum ComponentValType {
    /// A primitive type.
    Primitive(PrimitiveType),
    /// The value type with this type index.
    Index(u32),
}

/// A function type.
#[derive(Clone, Copy, Debug)]
pub struct FuncType<'a> {
    /// Whether the function is async.
    pub is_async: bool,
    /// The names and types of the parameters.
    pub params: &'a [(&'a str, ComponentValType)],
    /// The type of the result, if there is one.
    pub result: Option<ComponentValType>,
}

/// The definition of a value type (`defvaltype`).
#[derive(Clone, Copy, Debug)]
pub enum DefinedType<'a> {
    /// A primitive type with a type index of its own.
    Primitive(PrimitiveType),
    /// A record, with the names and types of its fields.
    Record(&'a [(&'a str, ComponentValType)]),
    /// A variant, with the name of each case and the type of its payload, if it has one.
    Variant(&'a [(&'a str, Option<ComponentValType>)]),
    /// A list, with the type of its elements.
    List(ComponentValType),
    /// A list of a fixed length, with the type of its elements.
    FixedSizeList(ComponentValType, u32),
    /// A tuple, with the types of its elements.
    Tuple(&'a [ComponentValType]),
    /// Flags, with their names.
    Flags(&'a [&'a str]),
    /// An enum, with the names of its cases.
    Enum(&'a [&'a str]),
    /// An option, with the type of its payload.
    Option(ComponentValType),
    /// A result, with the types of its payloads.
    Result {
        /// The payload of a success, if it has one.
        ok: Option<ComponentValType>,
        /// The payload of an error, if it has one.
        err: Option<ComponentValType>,
    },
    /// An owned handle to the resource type with this index.
    Own(u32),
    /// A borrowed handle to the resource type with this index.
    Borrow(u32),
    /// A stream, with the type of its elements, if they have one.
    Stream(Option<ComponentValType>),
    /// A future, with the type of its value, if it has one.
    Future(Option<ComponentValType>),
}
