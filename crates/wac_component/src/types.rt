//! Types, and the declarations in them. Names are borrowed from the bytes.

use wac_binary::{ComponentValType, Description, EntityType, Sort};
use wac_types_shapes::{CoreType, PrimitiveType};

/// The definition of a value type (`defvaltype`).
#[derive(Debug, Drop)]
pub enum ValueDef<'a> {
    /// A primitive type with a type index of its own.
    Primitive(PrimitiveType),
    /// A record, with the names and types of its fields.
    Record(Vec<(&'a str, ComponentValType)>),
    /// A variant, with the name of each case and the type of its payload, if it has one.
    Variant(Vec<(&'a str, Option<ComponentValType>)>),
    /// A list, with the type of its elements.
    List(ComponentValType),
    /// A list of a fixed length, with the type of its elements.
    FixedSizeList(ComponentValType, u32),
    /// A tuple, with the types of its elements.
    Tuple(Vec<ComponentValType>),
    /// Flags, with their names.
    Flags(Vec<&'a str>),
    /// An enum, with the names of its cases.
    Enum(Vec<&'a str>),
    /// An option, with the type of its payload.
    Option(ComponentValType),
    /// A result, with the types of its payloads.
    Result {
        /// The payload of a success, if it has one.
        ok: Option<ComponentValType>,
        /// The payload of an error, if it has one.
        err: Option<ComponentValType>,
    },
    /// An owned handle to the resource type with this index.
    Own(u32),
    /// A borrowed handle to the resource type with this index.
    Borrow(u32),
    /// A stream, with the type of its elements, if they have one.
    Stream(Option<ComponentValType>),
    /// A future, with the type of its value, if it has one.
    Future(Option<ComponentValType>),
}

/// An alias whose sort is a [`Sort`] (`alias`).
#[derive(Clone, Copy, Debug)]
pub enum Alias<'a> {
    /// An alias of an instance's export.
    Export {
        /// The sort of the export.
        sort: Sort,
        /// The index of the instance.
        instance: u32,
        /// The name of the export.
        name: &'a str,
    },
    /// An outer alias.
    Outer {
        /// The sort of what is aliased.
        sort: Sort,
        /// The number of scopes to leave.
        count: u32,
        /// The index there.
        index: u32,
    },
}

/// A declaration of a core module type (`core:moduledecl`).
#[derive(Debug, Drop)]
pub enum ModuleDecl<'a> {
    /// An import, with the name of its module, its own name and its type.
    Import(&'a str, &'a str, EntityType),
    /// A function type, with its parameters and results.
    Func(Vec<CoreType>, Vec<CoreType>),
    /// An export, with its name and type.
    Export(&'a str, EntityType),
}

/// The definition of a type (`deftype`).
#[derive(Debug, Drop)]
pub enum TypeDef<'a> {
    /// A value type.
    Value(ValueDef<'a>),
    /// A function type.
    Func {
        /// Whether the function is async.
        is_async: bool,
        // Before the parameters: fields lie in this order, and so the type takes 8 bytes less.
        /// The type of the result, if there is one.
        result: Option<ComponentValType>,
        /// The names and types of the parameters.
        params: Vec<(&'a str, ComponentValType)>,
    },
    /// A component type, with its declarations.
    Component(Vec<Decl<'a, TypeDef<'a>>>),
    /// An instance type, with its declarations.
    Instance(Vec<Decl<'a, TypeDef<'a>>>),
}

/// A declaration of a component type or an instance type (`componentdecl`, `instancedecl`). `T` is [`TypeDef`].
// A parameter: a type has a fold in specs/ only if it contains itself without a second type of its own.
#[derive(Debug, Drop)]
pub enum Decl<'a, T> {
    /// A core module type, with its declarations.
    CoreType(Vec<ModuleDecl<'a>>),
    /// A type.
    Type(T),
    /// An alias.
    Alias(Alias<'a>),
    /// An import, with its name and description.
    Import(&'a str, Description),
    /// An export, with its name and description.
    Export(&'a str, Description),
}
