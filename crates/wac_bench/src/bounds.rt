//! Types that are mentioned many interfaces away: the bytes that are written of them, beside 64 for each unit of their weight.
//! A weight counts 1 for each type and for each of its parts, and the bytes of their names.

use crate::graph::Graph;
use crate::types::BOOL;
use anyhow::{Result, bail};
use wac_graph::types::{DefinedType, Enum, ItemKind, Type, ValueType};

/// Where enums are that a function is over: exports of the outermost interface around it. That is imported, with instances or with
/// type exports inside, or it is defined, or the import of an imported component. Lists are exports of another import.
#[derive(Clone, Copy, Debug, PartialEq, Eq)]
enum Nest {
    Imported,
    TypeItems,
    Defined,
    Component,
    Lists,
}

use Nest::{Component, Defined, Imported, Lists, TypeItems};

/// How many interfaces are around the function, and over how many types it is.
pub const SIZES: &[(u32, u32)] = &[(300, 300), (400, 60), (200, 200)];

/// Imports or defines the outermost interface.
fn place(graph: &mut Graph, nest: Nest, outermost: ItemKind) -> Result<()> {
    match nest {
        Imported | TypeItems | Lists => graph.import("b", outermost),
        Defined => graph.define("b", outermost.ty()),
        Component => {
            let component = graph.component(&[("a", outermost)], &[])?;
            graph.import("b", component)
        }
    }
}

/// Adds a function over types, and interfaces around it. The names have one letter.
fn make(graph: &mut Graph, nest: Nest, depth: u32, count: u32) -> Result<()> {
    let mut names = Vec::new(graph.alloc);
    for number in 0..count {
        let letter = char::from_u32(number.saturating_add(48)).unwrap_or('0');
        names.push(format!(in graph.alloc; "{letter}")?)?;
    }
    let mut items = Vec::new(graph.alloc);
    let mut params = Vec::new(graph.alloc);
    for name in &names {
        let ty = match nest {
            Lists => graph.defined(DefinedType::List(BOOL))?,
            _ => graph.defined(DefinedType::Enum(Enum::new(graph.alloc, &["a"])?))?,
        };
        items.push((name.as_str(), ItemKind::TypeItem(Type::Value(ty))))?;
        params.push((name.as_str(), ty))?;
    }
    let mut kind = graph.function(&params, None)?;
    for _ in 1..depth {
        kind = graph.instance(None, &[("a", kind)])?;
        if nest == TypeItems {
            kind = ItemKind::TypeItem(kind.ty());
        }
    }
    if nest == Lists {
        let lists = graph.instance(None, &items)?;
        graph.import("a", lists)?;
        items.clear();
    }
    items.push(("!", kind))?;
    let outermost = graph.instance((nest == Defined).then_some("c"), &items)?;
    place(graph, nest, outermost)
}

/// The parts of a type: the length of each one's name, and its type. A part for the type itself is before them.
fn parts(graph: &Graph, ty: Type) -> Result<Vec<(usize, Type)>> {
    let types = graph.types();
    if !types.contains(ty) {
        bail!("a type is not in the collection");
    }
    let mut parts = vec![in graph.alloc; (0, Type::Value(BOOL))]?;
    match ty {
        Type::Func(id) => {
            for (name, value) in &types[id].params {
                parts.push((name.len(), Type::Value(*value)))?;
            }
        }
        Type::Value(ValueType::Defined(id)) => {
            if let DefinedType::Enum(Enum(cases)) = &types[id] {
                for name in cases {
                    parts.push((name.len(), Type::Value(BOOL)))?;
                }
            }
        }
        Type::Interface(id) => {
            for (name, kind) in &types[id].exports {
                parts.push((name.len(), kind.ty()))?;
            }
        }
        Type::World(id) => {
            for (name, kind) in &types[id].imports {
                parts.push((name.len(), kind.ty()))?;
            }
        }
        _ => bail!("no type here is of this sort"),
    }
    Ok(parts)
}

/// The weight of a graph: an interface or a world counts at each mention, and what it reaches without another of them once in it.
fn weight(graph: &Graph) -> Result<usize> {
    let mut weight = 1usize;
    let mut met = Vec::new(graph.alloc);
    for (_, node) in graph.nodes() {
        // Names have one letter. A definition is an export too, and its interface has an id.
        let own = if node.import_name().is_some() { 3 } else { 5 };
        weight = weight.saturating_add(own);
        met.push((node.item_kind().ty(), met.len()))?;
    }
    for place in 0..usize::MAX {
        let Some((ty, within)) = met.get(place).copied() else {
            break;
        };
        for (length, part) in parts(graph, ty)? {
            weight = weight.saturating_add(1).saturating_add(length);
            let within = match part {
                Type::Interface(_) | Type::World(_) => met.len(),
                _ => within,
            };
            if part != Type::Value(BOOL) && !met.contains(&(part, within)) {
                met.push((part, within))?;
            }
        }
    }
    Ok(weight)
}

/// Prints for each nest and size the bytes of its graph, and 64 for each unit of its weight.
pub fn show(rt: &HostRuntime, sizes: &[(u32, u32)]) -> Result<()> {
    for nest in [Imported, TypeItems, Defined, Component, Lists] {
        for (depth, count) in sizes {
            let mut graph = Graph::new(rt.alloc());
            make(&mut graph, nest, *depth, *count)?;
            let bytes = graph.encode(true)?;
            let most = weight(&graph)?.saturating_mul(64);
            println!(rt; "{nest:?} {depth} {count}: {bytes} of {most}")?;
        }
    }
    Ok(())
}
