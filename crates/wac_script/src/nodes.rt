//! Calls that add a node.
ghost use Rattle.wac_script.specs.declared.lines.calls.Call.TheVariants as said;
ghost use Rattle.wac_script.specs.labels.Things.{things_of, cores_of};
ghost use Rattle.std.specs.Prelude.{IfOk};
ghost use Rattle.wac_script.specs.labels.Items.{IsItem};
ghost use Rattle.wac_script.specs.labels.There.{IsNode, IsHeld};
ghost use Rattle.wac_script.specs.private.Unread.{Reads, ReadsSuch};
ghost use Rattle.wac_script.specs.Refusals.{AnswersPlain};

use crate::labels::{Thing, Things, WordError, WordFault, refused};
use crate::packages::package_of;
use crate::refusal::Refusal;
use std::alloc::Global;
use wac_graph::types::ItemKind;
use wac_graph::{CompositionGraph, NodeId};

/// Returns the node of a label.
pub(crate) fn node_of(
    alloc: Global,
    labels: &Things,
    graph: &CompositionGraph,
    label: &str,
) -> Result<NodeId, WordError>
    ensures { Reads (IsNode (things_of labels.now) graph.now label.now) result }
{
    let id = labels.node_of(label)?;
    if !graph.has_node(id) {
        return Err(refused(alloc, WordFault::NotNode, label));
    }
    Ok(id)
}

/// Returns the item of a word. Its type is of the graph's collection.
fn item_of(
    alloc: Global,
    labels: &Things,
    graph: &CompositionGraph,
    word: &str,
) -> Result<ItemKind, WordError>
    ensures said { ReadsSuch (IsItem (things_of labels.now) word.now) (IsHeld graph.now) result }
    ensures there { IfOk result (IsHeld graph.now) }
{
    let item = labels.item(word)?;
    if !graph.types().contains(item.ty()) {
        return Err(refused(alloc, WordFault::NotItem, word));
    }
    Ok(item)
}

/// Instantiates a package.
pub(crate) fn instantiate(
    alloc: Global,
    labels: &Things,
    graph: &mut CompositionGraph,
    label: &str,
) -> Result<Thing, Refusal>
    ensures { AnswersPlain (things_of labels.now) (cores_of labels.now) graph.old (said.New label.entry) result graph.new }
{
    let id = package_of(alloc, labels, graph, label)?;
    let node = graph.instantiate(id)?;
    Ok(Thing::Node(node))
}

/// Aliases an export of an instance.
pub(crate) fn alias(
    alloc: Global,
    labels: &Things,
    graph: &mut CompositionGraph,
    node: &str,
    export: &str,
) -> Result<Thing, Refusal>
    ensures { AnswersPlain (things_of labels.now) (cores_of labels.now) graph.old (said.Alias node.entry export.entry) result graph.new }
{
    let instance = node_of(alloc, labels, graph, node)?;
    match graph.alias_instance_export(instance, export) {
        Ok(id) => Ok(Thing::Node(id)),
        Err(source) => Err(Refusal::Alias(source)),
    }
}

/// Imports an item.
pub(crate) fn import(
    alloc: Global,
    labels: &Things,
    graph: &mut CompositionGraph,
    name: &str,
    item: &str,
) -> Result<Thing, Refusal>
    ensures { AnswersPlain (things_of labels.now) (cores_of labels.now) graph.old (said.Import name.entry item.entry) result graph.new }
{
    let kind = item_of(alloc, labels, graph, item)?;
    match graph.import(name, kind) {
        Ok(id) => Ok(Thing::Node(id)),
        Err(source) => Err(Refusal::Import(source)),
    }
}

/// Defines the type of an item.
pub(crate) fn define(
    alloc: Global,
    labels: &Things,
    graph: &mut CompositionGraph,
    name: &str,
    item: &str,
) -> Result<Thing, Refusal>
    ensures { AnswersPlain (things_of labels.now) (cores_of labels.now) graph.old (said.Define name.entry item.entry) result graph.new }
{
    let kind = item_of(alloc, labels, graph, item)?;
    match graph.define_type(name, kind.ty()) {
        Ok(id) => Ok(Thing::Node(id)),
        Err(source) => Err(Refusal::Define(source)),
    }
}
