//! The changes of a graph by plugging.
ghost use Rattle.std.specs.Prelude.{◌≡◌, ◌<◌, true, length, IsSome, OnOk};
ghost use Rattle.wac_types_collection.specs.collection.Collection.{holds_type, world_exports};
ghost use Rattle.wac_types_shapes.specs.shapes.Named.{NoNameTwice, names_of};
ghost use Rattle.wac_types_shapes.specs.declared.shapes.component.«Type».TheVariants.{World as world_type};
ghost use Rattle.wac_graph_model.specs.nodes.Graph.{node_at, package_at};
ghost use Rattle.wac_graph_model.specs.nodes.Steps.{Instantiates};
ghost use Rattle.wac_graph.specs.private.plugs.Fitting.{AllFit, IsPair, node_imports};
ghost use Rattle.wac_graph.specs.plugs.Matching.{Match, exports_of_package};
ghost use Rattle.wac_graph.specs.private.plugs.Pairs.{matches_at, AreWithin};
ghost use Rattle.wac_graph.specs.private.plugs.Positions.{IsInstancePosition};
ghost use Rattle.wac_graph.specs.plugs.Plugging.{InOrder, Wires, PlugsIn, PassesOn, Keeps};

use crate::graph::CompositionGraph;
use crate::plugs::{Pair, PlugError};
use crate::positions::{alias_export_at, set_argument_at};
use std::alloc::AllocError;
use wac_graph_model::{NodeId, PackageId};
use wac_types::WorldId;

impl CompositionGraph {
    /// Reserves memory for more nodes and edges at once. The graph is unchanged.
    fn reserve(&mut self, nodes: usize, edges: usize) -> Result<(), AllocError>
        ensures { self.new ≡ self.old }
    {
        self.nodes.reserve(nodes)?;
        self.edges.reserve(edges)
    }
}

/// Instantiates a plug, with memory for so many aliases that become arguments: a node and two edges each.
fn instantiate_plug(
    graph: &mut CompositionGraph,
    plug: PackageId,
    aliases: usize,
) -> Result<NodeId, AllocError>
    requires { IsSome (package_at graph.old plug) }
    ensures { Instantiates graph.old plug result graph.new }
{
    graph.reserve(aliases.saturating_add(1), aliases.saturating_mul(2))?;
    graph.instantiate(plug)
}

/// Aliases the plug's export of a match and sets it as the socket's argument, which it is known to fit.
fn wire(
    graph: &mut CompositionGraph,
    plug: NodeId,
    socket: NodeId,
    pair: Pair,
) -> Result<(), PlugError>
    requires plug { IsSome (node_at graph.old plug) }
    requires socket { IsSome (node_at graph.old socket) }
    requires pair { (m : Match) × IsPair graph.old plug socket pair m }
    ensures step { (m : Match) → IsPair graph.old plug socket pair m → Wires plug socket graph.old m result graph.new }
    ensures kept { OnOk result (Keeps graph.old graph.new) }
{
    let alias = alias_export_at(graph, plug, pair.export)?;
    graph.law(); // proof only
    set_argument_at(graph, socket, pair.import, alias)?;
    Ok(())
}

/// Returns the position of an export of a package's world among the exports of the package's instances.
///
/// The two lists have the same items, perhaps in another order.
fn instance_position(graph: &CompositionGraph, id: PackageId, export: usize) -> usize
    requires there { IsSome (package_at graph.now id) }
    requires within { export < length (exports_of_package graph.now id) }
    ensures { IsInstancePosition graph.now id export result }
{
    graph.law(); // proof only
    let package = &graph[id];
    let exports = &graph.types()[package.ty()].exports;
    exports.law(); // proof only
    let name = exports.name_at(export);
    match graph.types()[package.instance_type()]
        .exports
        .get_full(name)
    {
        Some((position, _)) => position,
        None => unreachable!(),
    }
}

/// Instantiates a plug and wires its matches.
pub fn plug_in(
    graph: &mut CompositionGraph,
    plug: PackageId,
    socket: NodeId,
    pairs: &[Pair],
) -> Result<(), PlugError>
    requires plug { IsSome (package_at graph.old plug) }
    requires socket { IsSome (node_at graph.old socket) }
    requires within { AreWithin (exports_of_package graph.old plug) (node_imports graph.old socket) pairs.now }
    requires fit { AllFit graph.old plug socket (matches_at (exports_of_package graph.old plug) (node_imports graph.old socket) pairs.now) }
    requires asked { NoNameTwice (node_imports graph.old socket) }
    ensures step { PlugsIn socket graph.old (record { plug = plug; matches = matches_at (exports_of_package graph.old plug) (node_imports graph.old socket) pairs.now }) result graph.new }
    ensures kept { OnOk result (Keeps graph.old graph.new) }
{
    graph.law(); // proof only
    let node = instantiate_plug(graph, plug, pairs.len())?;
    for i in 0..pairs.len() {
        let Pair { export, import } = pairs[i];
        let export = instance_position(graph, plug, export);
        wire(graph, node, socket, Pair { export, import })?;
    }
    Ok(())
}

/// Aliases the socket's export with this name and exports the alias under the name.
fn pass_on(graph: &mut CompositionGraph, socket: NodeId, name: &str) -> Result<(), PlugError>
    requires { IsSome (node_at graph.old socket) }
    ensures step { PassesOn socket graph.old name.now result graph.new }
    ensures kept { OnOk result (Keeps graph.old graph.new) }
{
    let alias = graph.alias_instance_export(socket, name)?;
    graph.export(alias, name)?;
    Ok(())
}

/// Exports every export of the socket, an instance of a package of this world, in order.
pub fn pass_on_all(
    graph: &mut CompositionGraph,
    world: WorldId,
    socket: NodeId,
) -> Result<(), PlugError>
    requires world { holds_type graph.old.types (world_type world) ≡ true }
    requires socket { IsSome (node_at graph.old socket) }
    ensures { InOrder (PassesOn socket) graph.old (names_of (world_exports graph.old.types world)) result graph.new }
{
    let alloc = graph.types().allocator();
    for i in 0..graph.types()[world].exports.len() {
        let name = String::from_str(alloc, graph.types()[world].exports.name_at(i))?;
        pass_on(graph, socket, name.as_str())?;
    }
    Ok(())
}
