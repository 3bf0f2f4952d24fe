//! Graphs of packages, instances and aliases, of which some are removed and made again.

use crate::graph::{Graph, refused};
use crate::types::{STRING, U32, all_numbered, functions, numbered, records};
use crate::workloads::Step;
use anyhow::Result;
use wac_graph::types::{ItemKind, ValueType};
use wac_graph::{NodeId, PackageId};

/// How many arguments each instance of a fan has.
const ARGUMENTS: u64 = 8;

/// How often half of the triples are removed and made again.
const TURNS: u32 = 10;

/// The parameters of the functions that are exported.
const PARAMS: &[(&str, ValueType)] = &[("x", U32), ("y", STRING)];

/// Registers a package with an export under each name.
fn giver(graph: &mut Graph, names: &[String]) -> Result<PackageId> {
    let exports = functions(graph, names, PARAMS)?;
    graph.register("n:giver", &[], &exports)
}

/// Registers a package with an import under each name, and the export `run`.
fn taker(graph: &mut Graph, names: &[String]) -> Result<PackageId> {
    let imports = functions(graph, names, PARAMS)?;
    let run = graph.function(&[], None)?;
    graph.register("n:taker", &imports, &[("run", run)])
}

/// Registers the package of a number, with the import `b` and the export `a`, and makes an instance. Returns its `a`.
fn link(graph: &mut Graph, kind: ItemKind, number: u64, b: Option<NodeId>) -> Result<NodeId> {
    let name = numbered(graph.alloc, "n:p", number)?;
    let package = graph.register(name.as_str(), &[("b", kind)], &[("a", kind)])?;
    let instance = refused(graph.instantiate(package))?;
    if let Some(b) = b {
        refused(graph.argument(instance, "b", b, true))?;
    }
    refused(graph.alias(instance, "a"))
}

/// Makes a chain of instances, each with `a` of the one before as its `b`, and exports `a` of the last.
pub fn chain(graph: &mut Graph, count: u64) -> Result<()> {
    let kind = graph.function(&[], None)?;
    let mut last = None;
    for number in 0..count {
        last = Some(link(graph, kind, number, last)?);
    }
    match last {
        Some(a) => refused(graph.export(a, "out")),
        None => Ok(()),
    }
}

/// Makes an instance of a package, and aliases of these exports.
fn aliased(graph: &mut Graph, giver: PackageId, names: &[String]) -> Result<Vec<NodeId>> {
    let instance = refused(graph.instantiate(giver))?;
    let mut aliases = Vec::new(graph.alloc);
    for name in names {
        aliases.push(refused(graph.alias(instance, name.as_str()))?)?;
    }
    Ok(aliases)
}

/// Makes an instance of a package with these arguments.
fn pass_all(graph: &mut Graph, to: PackageId, names: &[String], given: &[NodeId]) -> Option<()> {
    let instance = graph.instantiate(to)?;
    for (name, argument) in names.iter().zip(given) {
        graph.argument(instance, name.as_str(), *argument, true)?;
    }
    Some(())
}

/// Makes an instance with eight exports, and instances that each have all eight as arguments.
pub fn fan(graph: &mut Graph, count: u64) -> Result<()> {
    let names = all_numbered(graph.alloc, "f", ARGUMENTS)?;
    let giver = giver(graph, &names)?;
    let taker = taker(graph, &names)?;
    let arguments = aliased(graph, giver, &names)?;
    for _ in 0..count {
        refused(pass_all(graph, taker, &names, &arguments))?;
    }
    Ok(())
}

/// Registers a package with many exports, and makes aliases of them, up to a step.
pub fn aliases(graph: &mut Graph, count: u64, last: Step) -> Result<()> {
    let names = all_numbered(graph.alloc, "f", count)?;
    let giver = giver(graph, &names)?;
    if last == Step::Prepare {
        return Ok(());
    }
    let _aliases = aliased(graph, giver, &names)?;
    Ok(())
}

/// Registers a plug and its socket, and plugs, up to a step.
pub fn plug(graph: &mut Graph, count: u64, last: Step) -> Result<()> {
    let names = all_numbered(graph.alloc, "f", count)?;
    let giver = giver(graph, &names)?;
    let taker = taker(graph, &names)?;
    if last == Step::Prepare {
        return Ok(());
    }
    graph.plug(giver, taker)
}

/// Registers the package of a number, which imports an interface of its own, four to a track, and makes an instance.
fn import_own(graph: &mut Graph, number: u64) -> Result<()> {
    let (track, minor) = (number / 4, number % 4);
    let id = format!(in graph.alloc; "n:w/i{track}@1.{minor}.0")?;
    let kind = records(graph, id.as_str())?;
    let name = numbered(graph.alloc, "n:c", number)?;
    let package = graph.register(name.as_str(), &[(id.as_str(), kind)], &[])?;
    let _instance = refused(graph.instantiate(package))?;
    Ok(())
}

/// Makes instances of packages that each import an interface of their own.
pub fn wide(graph: &mut Graph, count: u64) -> Result<()> {
    for number in 0..count {
        import_own(graph, number)?;
    }
    Ok(())
}

/// An instance, the alias of its export, and an instance that has the alias as its argument.
type Triple = [NodeId; 3];

/// Makes a triple of packages with the export `a` and with the import `b`, and exports its alias by this name.
fn triple(graph: &mut Graph, [giver, taker]: [PackageId; 2], name: &str) -> Option<Triple> {
    let giver = graph.instantiate(giver)?;
    let alias = graph.alias(giver, "a")?;
    let taker = graph.instantiate(taker)?;
    graph.argument(taker, "b", alias, true)?;
    graph.export(alias, name)?;
    Some([giver, alias, taker])
}

/// Removes every other triple and then makes each again.
fn turn(graph: &mut Graph, by: [PackageId; 2], names: &[String], all: &mut [Triple]) -> Option<()> {
    for (number, [giver, alias, taker]) in all.iter().enumerate() {
        if number % 2 == 1 {
            graph.argument(*taker, "b", *alias, false)?;
            graph.remove(*giver)?;
            graph.remove(*taker)?;
        }
    }
    for (number, (made, name)) in all.iter_mut().zip(names).enumerate() {
        if number % 2 == 1 {
            *made = triple(graph, by, name.as_str())?;
        }
    }
    Some(())
}

/// Registers the packages, makes triples, and turns them over, up to a step.
pub fn churn(graph: &mut Graph, count: u64, last: Step) -> Result<()> {
    let names = all_numbered(graph.alloc, "e", count)?;
    let kind = graph.function(&[], None)?;
    let giver = graph.register("n:provider", &[], &[("a", kind)])?;
    let taker = graph.register("n:consumer", &[("b", kind)], &[])?;
    if last == Step::Prepare {
        return Ok(());
    }
    let packages = [giver, taker];
    let mut triples = Vec::new(graph.alloc);
    for name in &names {
        triples.push(refused(triple(graph, packages, name.as_str()))?)?;
    }
    if last == Step::Make {
        return Ok(());
    }
    for _ in 0..TURNS {
        refused(turn(graph, packages, &names, &mut triples))?;
    }
    Ok(())
}
