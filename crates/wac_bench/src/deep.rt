//! Types in levels, each made of the one below, a world at many places, and resources that interfaces use from each other.

use crate::graph::{Graph, refused};
use crate::types::{BOOL, all_numbered, functions, numbered, tuple, tuples};
use anyhow::Result;
use wac_graph::types::{
    DefinedType, Interface, InterfaceId, ItemKind, Record, Resource, ResourceId, Type, ValueType,
};

/// Imports a function over tuples that each hold the one before twice.
pub fn shared(graph: &mut Graph, count: u64) -> Result<()> {
    let ty = tuples(graph, count)?;
    let kind = graph.function(&[("x", ty)], None)?;
    graph.import("f", kind)
}

/// Defines records, each with one field of the record before. Each depends on all before it, by about `count` edges together.
pub fn defining(graph: &mut Graph, count: u64) -> Result<()> {
    let mut field = BOOL;
    for number in 0..count.saturating_mul(2).isqrt() {
        let record = Record::new(graph.alloc, &[("f", field)])?;
        field = graph.defined(DefinedType::Record(record))?;
        let name = numbered(graph.alloc, "r", number)?;
        graph.define(name.as_str(), Type::Value(field))?;
    }
    Ok(())
}

/// Adds a resource, as an item.
fn add_resource(graph: &mut Graph, resource: Resource) -> Result<(ResourceId, ItemKind)> {
    let id = graph.resource(resource)?;
    Ok((id, ItemKind::TypeItem(Type::Resource(id))))
}

/// Imports a component of a world that imports resources, and functions over one type that is made of handles to them all.
pub fn handles(graph: &mut Graph, count: u64) -> Result<()> {
    let names = all_numbered(graph.alloc, "r", count)?;
    let mut resources = Vec::new(graph.alloc);
    let mut ty = BOOL;
    for name in &names {
        let resource = Resource::new(graph.alloc, name.as_str())?;
        let (id, item) = add_resource(graph, resource)?;
        ty = tuple(graph, &[ty, ValueType::Own(id)])?;
        resources.push((name.as_str(), item))?;
    }
    let interface = graph.instance(Some("n:p/i"), &resources)?;
    let mut imports = functions(graph, &names, &[("x", ty)])?;
    imports.push(("n:p/i", interface))?;
    let component = graph.component(&imports, &[])?;
    graph.import("c", component)
}

/// An interface, and the name and the id of a resource that it exports.
type Owner<'a> = (InterfaceId, &'a str, ResourceId);

/// Adds an interface with a resource of its own and functions over it. It uses the resource of the interface before.
fn add_owner<'a>(
    graph: &mut Graph,
    id: &str,
    name: &'a str,
    before: Option<Owner<'a>>,
) -> Result<Owner<'a>> {
    let mut uses = Vec::new(graph.alloc);
    let mut exports = Vec::new(graph.alloc);
    let mut params = Vec::new(graph.alloc);
    if let Some((interface, used, resource)) = before {
        let alias = Resource::alias(graph.alloc, used, Some(interface), resource)?;
        let (alias, item) = add_resource(graph, alias)?;
        uses.push((used, interface, None))?;
        exports.push((used, item))?;
        params.push(("x", ValueType::Borrow(alias)))?;
    }
    let resource = Resource::new(graph.alloc, name)?;
    let (resource, item) = add_resource(graph, resource)?;
    let own = ValueType::Own(resource);
    params.push(("y", own))?;
    exports.push((name, item))?;
    exports.push(("make", graph.function(&[], Some(own))?))?;
    exports.push(("take", graph.function(&params, None)?))?;
    let interface = Interface::with_uses(graph.alloc, Some(id), &uses, &exports)?;
    Ok((graph.interface(interface)?, name, resource))
}

/// Makes an instance of a package that imports interfaces. Each uses the resource of the one before.
pub fn resources(graph: &mut Graph, count: u64) -> Result<()> {
    let ids = all_numbered(graph.alloc, "n:r/i", count)?;
    let names = all_numbered(graph.alloc, "r", count)?;
    let mut imports = Vec::new(graph.alloc);
    let mut before = None;
    for (id, name) in ids.iter().zip(&names) {
        let owner = add_owner(graph, id.as_str(), name.as_str(), before)?;
        imports.push((id.as_str(), ItemKind::Instance(owner.0)))?;
        before = Some(owner);
    }
    let package = graph.register("n:user", &imports, &[])?;
    let _instance = refused(graph.instantiate(package))?;
    Ok(())
}

/// What a level is.
#[derive(Clone, Copy)]
pub enum Levels {
    /// An interface that exports an instance of the one below.
    Deep,
    /// An interface that exports two instances of the one below.
    Doubled,
    /// An interface that exports two, which both export an instance of the one below.
    Listed,
    /// A world with the one below as a type export.
    Nested,
    /// A world with the one below as a type import and a type export.
    Sides,
    /// The same, over a world with a resource.
    Owned,
    /// A world with a type import and a type export: an interface that has the world below as a type export.
    Turns,
}

/// Adds the lowest level.
fn lowest(graph: &mut Graph, levels: Levels) -> Result<ItemKind> {
    let f = ("f", graph.function(&[], None)?);
    match levels {
        Levels::Deep | Levels::Doubled | Levels::Listed => graph.instance(None, &[f]),
        Levels::Nested => graph.component(&[], &[f]),
        Levels::Sides | Levels::Turns => graph.component(&[f], &[f]),
        Levels::Owned => {
            let (_, item) = add_resource(graph, Resource::new(graph.alloc, "r")?)?;
            graph.component(&[("r", item)], &[("r", item)])
        }
    }
}

/// Adds an interface that exports two, which both export an instance of the level below.
fn twice(graph: &mut Graph, below: ItemKind) -> Result<ItemKind> {
    let f = graph.function(&[], None)?;
    let a = graph.instance(None, &[("below", below)])?;
    let b = graph.instance(None, &[("below", below), ("f", f)])?;
    graph.instance(None, &[("a", a), ("b", b)])
}

/// Adds the level above one.
fn above(graph: &mut Graph, levels: Levels, below: ItemKind) -> Result<ItemKind> {
    let item = ("t", ItemKind::TypeItem(below.ty()));
    match levels {
        Levels::Deep => graph.instance(None, &[("a", below)]),
        Levels::Doubled => graph.instance(None, &[("a", below), ("b", below)]),
        Levels::Listed => twice(graph, below),
        Levels::Nested => graph.component(&[], &[item]),
        Levels::Sides | Levels::Owned => graph.component(&[item], &[item]),
        Levels::Turns => {
            let interface = graph.instance(None, &[item])?;
            let item = ("t", ItemKind::TypeItem(interface.ty()));
            graph.component(&[item], &[item])
        }
    }
}

/// Imports the highest of some levels. Where each is written twice, the lowest is written at most `count` times.
pub fn import_levels(graph: &mut Graph, levels: Levels, count: u64) -> Result<()> {
    let height = match levels {
        Levels::Listed => u64::from(64u32.saturating_sub(count.leading_zeros())),
        _ => count,
    };
    let mut level = lowest(graph, levels)?;
    for _ in 1..height {
        level = above(graph, levels, level)?;
    }
    graph.import("level", level)
}

/// Imports an interface with one world as its type export under each name. The world has a function under each name.
pub fn places(graph: &mut Graph, count: u64) -> Result<()> {
    let names = all_numbered(graph.alloc, "c", count)?;
    let exports = functions(graph, &names, &[])?;
    let world = graph.component(&[], &exports)?.ty();
    let mut places = Vec::new(graph.alloc);
    for name in &names {
        places.push((name.as_str(), ItemKind::TypeItem(world)))?;
    }
    let interface = graph.instance(None, &places)?;
    graph.import("places", interface)
}
