//! Types and names that workloads are made of.

use crate::graph::Graph;
use anyhow::Result;
use std::alloc::{AllocError, Global};
use wac_graph::types::{DefinedType, ItemKind, PrimitiveType, Record, Type, ValueType, Variant};

/// How many functions an interface over a record exports.
const FUNCTIONS: u64 = 20;

pub const BOOL: ValueType = ValueType::Primitive(PrimitiveType::Bool);

pub const U32: ValueType = ValueType::Primitive(PrimitiveType::U32);

pub const STRING: ValueType = ValueType::Primitive(PrimitiveType::String);

/// Adds a tuple.
pub fn tuple(graph: &mut Graph, members: &[ValueType]) -> Result<ValueType> {
    graph.defined(DefinedType::tuple(graph.alloc, members)?)
}

/// Adds tuples, each of the one before twice.
pub fn tuples(graph: &mut Graph, count: u64) -> Result<ValueType> {
    let mut value = BOOL;
    for _ in 0..count {
        value = tuple(graph, &[value, value])?;
    }
    Ok(value)
}

/// Adds a list, an option, and a record with fields of them.
fn record(graph: &mut Graph) -> Result<ValueType> {
    let list = graph.defined(DefinedType::List(ValueType::Primitive(PrimitiveType::U8)))?;
    let option = graph.defined(DefinedType::Option(ValueType::Primitive(PrimitiveType::U64)))?;
    let fields = [("a", U32), ("b", STRING), ("c", list), ("d", option)];
    let record = Record::new(graph.alloc, &fields)?;
    graph.defined(DefinedType::Record(record))
}

/// Adds a list of a type, and a variant with it.
fn variant(graph: &mut Graph, ty: ValueType) -> Result<ValueType> {
    let list = graph.defined(DefinedType::List(ty))?;
    let (number, text, list) = (Some(U32), Some(STRING), Some(list));
    let cases = [
        ("none", None),
        ("num", number),
        ("text", text),
        ("recs", list),
    ];
    let variant = Variant::new(graph.alloc, &cases)?;
    graph.defined(DefinedType::Variant(variant))
}

/// Adds a function type for each name.
pub fn functions<'a>(
    graph: &mut Graph,
    names: &'a [String],
    params: &[(&str, ValueType)],
) -> Result<Vec<(&'a str, ItemKind)>> {
    let mut items = Vec::new(graph.alloc);
    for name in names {
        let kind = graph.function(params, Some(BOOL))?;
        items.push((name.as_str(), kind))?;
    }
    Ok(items)
}

/// Adds a function over a record and a list of a variant.
fn function(graph: &mut Graph, record: ValueType, variant: ValueType) -> Result<ItemKind> {
    let list = graph.defined(DefinedType::List(variant))?;
    let option = graph.defined(DefinedType::Option(record))?;
    graph.function(&[("x", record), ("y", list)], Some(option))
}

/// Adds an interface of a record, of a variant and of functions over both.
pub fn records(graph: &mut Graph, id: &str) -> Result<ItemKind> {
    let names = all_numbered(graph.alloc, "f", FUNCTIONS)?;
    let mut exports = Vec::new(graph.alloc);
    let record = record(graph)?;
    let variant = variant(graph, record)?;
    for (name, ty) in [("rec", record), ("var", variant)] {
        exports.push((name, ItemKind::TypeItem(Type::Value(ty))))?;
    }
    for name in &names {
        exports.push((name.as_str(), function(graph, record, variant)?))?;
    }
    graph.instance(Some(id), &exports)
}

/// A text with a number after it.
pub fn numbered(alloc: Global, text: &str, number: u64) -> Result<String, AllocError> {
    format!(in alloc; "{text}{number}")
}

/// A text with each number below the count after it.
pub fn all_numbered(alloc: Global, text: &str, count: u64) -> Result<Vec<String>, AllocError> {
    let mut names = Vec::new(alloc);
    for number in 0..count {
        names.push(numbered(alloc, text, number)?)?;
    }
    Ok(names)
}
