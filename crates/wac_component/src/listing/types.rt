//! A listing of types: their text in short, and a line for each declaration.

use crate::listing::spaces::{Space, Spaces, described_space, space_of};
use crate::listing::{put_description, put_indent, put_index, sort_name};
use crate::types::{Alias, Decl, ModuleDecl, TypeDef, ValueDef};
use std::fmt;
use wac_binary::{ComponentValType, EntityType, Sort};
use wac_types_shapes::{CoreRefType, CoreType, PrimitiveType};

/// Returns the sort of an alias.
pub fn alias_sort(alias: &Alias<'_>) -> Sort {
    match alias {
        Alias::Export { sort, .. } | Alias::Outer { sort, .. } => *sort,
    }
}

impl fmt::Display for Alias<'_> {
    fn fmt<W: fmt::Write>(&self, f: &mut fmt::Formatter<W>) -> fmt::Result {
        match self {
            Alias::Export { instance, name, .. } => write!(f, "instance {instance} {name:?}"),
            Alias::Outer { sort, count, index } => {
                write!(f, "outer {count} {} {index}", sort_name(*sort))
            }
        }
    }
}

/// Writes the definition of a type, and a line for each declaration in it, indented. Declarations are listed this deep.
#[cycle(lists)]
pub fn put_type<W: fmt::Write>(
    f: &mut fmt::Formatter<W>,
    definition: &TypeDef<'_>,
    indent: usize,
    depth: u32,
) -> fmt::Result {
    match definition {
        TypeDef::Value(value) => {
            put_definition(f, value)?;
            f.write_str("\n")
        }
        TypeDef::Func {
            is_async,
            params,
            result,
        } => {
            if *is_async {
                f.write_str("async ")?;
            }
            f.write_str("func(")?;
            put_fields(f, params)?;
            f.write_str(")")?;
            if let Some(value) = result {
                f.write_str(" -> ")?;
                put_value(f, *value)?;
            }
            f.write_str("\n")
        }
        TypeDef::Component(declarations) => {
            f.write_str("component\n")?;
            put_declarations(f, declarations, indent, depth)
        }
        TypeDef::Instance(declarations) => {
            f.write_str("instance\n")?;
            put_declarations(f, declarations, indent, depth)
        }
    }
}

/// Writes a line for each declaration.
#[cycle(lists)]
fn put_declarations<W: fmt::Write>(
    f: &mut fmt::Formatter<W>,
    declarations: &[Decl<'_, TypeDef<'_>>],
    indent: usize,
    depth: u32,
) -> fmt::Result {
    if depth == 0 {
        return Ok(());
    }
    let mut spaces = Spaces::new();
    for declaration in declarations {
        f.write_str("         ")?;
        put_indent(f, indent)?;
        put_declaration(f, declaration, &mut spaces, indent, depth - 1)?;
    }
    Ok(())
}

/// Writes the line of a declaration.
#[cycle(lists)]
fn put_declaration<W: fmt::Write>(
    f: &mut fmt::Formatter<W>,
    declaration: &Decl<'_, TypeDef<'_>>,
    spaces: &mut Spaces,
    indent: usize,
    depth: u32,
) -> fmt::Result {
    match declaration {
        Decl::CoreType(declarations) => {
            put_index(f, spaces, Space::CoreType)?;
            f.write_str(": module\n")?;
            for declaration in declarations {
                f.write_str("           ")?;
                put_indent(f, indent)?;
                put_module(f, declaration)?;
            }
            Ok(())
        }
        Decl::Type(definition) => {
            put_index(f, spaces, Space::Type)?;
            f.write_str(": ")?;
            put_type(f, definition, indent.saturating_add(1), depth)
        }
        Decl::Alias(alias) => {
            put_index(f, spaces, space_of(alias_sort(alias)))?;
            write!(f, ": {alias}\n")
        }
        Decl::Import(name, description) => {
            put_index(f, spaces, described_space(*description))?;
            write!(f, ": import {name:?}")?;
            put_description(f, *description)?;
            f.write_str("\n")
        }
        Decl::Export(name, description) => {
            put_index(f, spaces, described_space(*description))?;
            write!(f, ": export {name:?}")?;
            put_description(f, *description)?;
            f.write_str("\n")
        }
    }
}

/// Writes the definition of a value type.
fn put_definition<W: fmt::Write>(
    f: &mut fmt::Formatter<W>,
    definition: &ValueDef<'_>,
) -> fmt::Result {
    match definition {
        ValueDef::Primitive(primitive) => f.write_str(primitive_name(*primitive)),
        ValueDef::Record(fields) => put_record(f, fields),
        ValueDef::Variant(cases) => put_variant(f, cases),
        ValueDef::List(value) => put_of(f, "list", *value),
        ValueDef::FixedSizeList(value, size) => {
            f.write_str("list<")?;
            put_value(f, *value)?;
            write!(f, ", {size}>")
        }
        ValueDef::Tuple(values) => put_tuple(f, values),
        ValueDef::Flags(names) => put_names(f, "flags", names),
        ValueDef::Enum(names) => put_names(f, "enum", names),
        ValueDef::Option(value) => put_of(f, "option", *value),
        ValueDef::Result { ok, err } => {
            f.write_str("result<")?;
            put_optional(f, *ok)?;
            f.write_str(", ")?;
            put_optional(f, *err)?;
            f.write_str(">")
        }
        ValueDef::Own(index) => write!(f, "own<type {index}>"),
        ValueDef::Borrow(index) => write!(f, "borrow<type {index}>"),
        ValueDef::Stream(value) => put_with(f, "stream", *value),
        ValueDef::Future(value) => put_with(f, "future", *value),
    }
}

/// Writes a type with the type in it.
fn put_of<W: fmt::Write>(
    f: &mut fmt::Formatter<W>,
    word: &str,
    value: ComponentValType,
) -> fmt::Result {
    write!(f, "{word}<")?;
    put_value(f, value)?;
    f.write_str(">")
}

/// Writes a type with the type in it, if there is one.
fn put_with<W: fmt::Write>(
    f: &mut fmt::Formatter<W>,
    word: &str,
    value: Option<ComponentValType>,
) -> fmt::Result {
    match value {
        Some(value) => put_of(f, word, value),
        None => f.write_str(word),
    }
}

/// Writes a type, or `_` if there is none.
fn put_optional<W: fmt::Write>(
    f: &mut fmt::Formatter<W>,
    value: Option<ComponentValType>,
) -> fmt::Result {
    match value {
        Some(value) => put_value(f, value),
        None => f.write_str("_"),
    }
}

/// Writes a record.
fn put_record<W: fmt::Write>(
    f: &mut fmt::Formatter<W>,
    fields: &[(&str, ComponentValType)],
) -> fmt::Result {
    f.write_str("record { ")?;
    put_fields(f, fields)?;
    f.write_str(" }")
}

/// Writes names with types.
fn put_fields<W: fmt::Write>(
    f: &mut fmt::Formatter<W>,
    fields: &[(&str, ComponentValType)],
) -> fmt::Result {
    let mut between = "";
    for (name, value) in fields {
        write!(f, "{between}{name:?}: ")?;
        put_value(f, *value)?;
        between = ", ";
    }
    Ok(())
}

/// Writes a variant.
fn put_variant<W: fmt::Write>(
    f: &mut fmt::Formatter<W>,
    cases: &[(&str, Option<ComponentValType>)],
) -> fmt::Result {
    f.write_str("variant {")?;
    let mut between = " ";
    for (name, payload) in cases {
        write!(f, "{between}{name:?}")?;
        if let Some(value) = payload {
            f.write_str("(")?;
            put_value(f, *value)?;
            f.write_str(")")?;
        }
        between = ", ";
    }
    f.write_str(" }")
}

/// Writes a tuple.
fn put_tuple<W: fmt::Write>(f: &mut fmt::Formatter<W>, values: &[ComponentValType]) -> fmt::Result {
    f.write_str("tuple<")?;
    let mut between = "";
    for value in values {
        f.write_str(between)?;
        put_value(f, *value)?;
        between = ", ";
    }
    f.write_str(">")
}

/// Writes names.
fn put_names<W: fmt::Write>(f: &mut fmt::Formatter<W>, word: &str, names: &[&str]) -> fmt::Result {
    write!(f, "{word} {{")?;
    let mut between = " ";
    for name in names {
        write!(f, "{between}{name:?}")?;
        between = ", ";
    }
    f.write_str(" }")
}

/// Writes a value type in use.
pub fn put_value<W: fmt::Write>(f: &mut fmt::Formatter<W>, value: ComponentValType) -> fmt::Result {
    match value {
        ComponentValType::Primitive(primitive) => f.write_str(primitive_name(primitive)),
        ComponentValType::Index(index) => write!(f, "type {index}"),
    }
}

/// Returns the name of a primitive type in WIT.
fn primitive_name(primitive: PrimitiveType) -> &'static str {
    match primitive {
        PrimitiveType::Bool => "bool",
        PrimitiveType::S8 => "s8",
        PrimitiveType::U8 => "u8",
        PrimitiveType::S16 => "s16",
        PrimitiveType::U16 => "u16",
        PrimitiveType::S32 => "s32",
        PrimitiveType::U32 => "u32",
        PrimitiveType::S64 => "s64",
        PrimitiveType::U64 => "u64",
        PrimitiveType::F32 => "f32",
        PrimitiveType::F64 => "f64",
        PrimitiveType::Char => "char",
        PrimitiveType::String => "string",
        PrimitiveType::ErrorContext => "error-context",
    }
}

/// Writes the line of a declaration of a core module type.
pub fn put_module<W: fmt::Write>(
    f: &mut fmt::Formatter<W>,
    declaration: &ModuleDecl<'_>,
) -> fmt::Result {
    match declaration {
        ModuleDecl::Import(source, name, entity) => {
            write!(f, "import {source:?} {name:?}: ")?;
            put_entity(f, *entity)?;
        }
        ModuleDecl::Func(params, results) => {
            f.write_str("func (")?;
            put_core_types(f, params)?;
            f.write_str(") -> (")?;
            put_core_types(f, results)?;
            f.write_str(")")?;
        }
        ModuleDecl::Export(name, entity) => {
            write!(f, "export {name:?}: ")?;
            put_entity(f, *entity)?;
        }
    }
    f.write_str("\n")
}

/// Writes the sort of what a core module imports or exports, and of a function or tag its type.
fn put_entity<W: fmt::Write>(f: &mut fmt::Formatter<W>, entity: EntityType) -> fmt::Result {
    match entity {
        EntityType::Function(index) => write!(f, "func type {index}"),
        EntityType::Table(_) => f.write_str("table"),
        EntityType::Memory(_) => f.write_str("memory"),
        EntityType::Global(_) => f.write_str("global"),
        EntityType::Tag(index) => write!(f, "tag type {index}"),
    }
}

/// Writes core value types.
pub fn put_core_types<W: fmt::Write>(f: &mut fmt::Formatter<W>, types: &[CoreType]) -> fmt::Result {
    let mut between = "";
    for value in types {
        write!(f, "{between}{}", core_name(*value))?;
        between = " ";
    }
    Ok(())
}

/// Returns the name of a core value type in WAT.
fn core_name(value: CoreType) -> &'static str {
    match value {
        CoreType::I32 => "i32",
        CoreType::I64 => "i64",
        CoreType::F32 => "f32",
        CoreType::F64 => "f64",
        CoreType::V128 => "v128",
        CoreType::Ref(CoreRefType::FuncRef) => "funcref",
        CoreType::Ref(CoreRefType::ExternRef) => "externref",
    }
}
