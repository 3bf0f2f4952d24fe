//! Calls that change what is there.
ghost use Rattle.wac_script.specs.declared.lines.calls.Change.TheVariants as said;
ghost use Rattle.wac_script.specs.labels.Things.{things_of};
ghost use Rattle.wac_script.specs.Refusals.{Changes};

use crate::labels::Things;
use crate::lines::Change;
use crate::nodes::node_of;
use crate::packages::plug_in;
use crate::refusal::Refusal;
use std::alloc::Global;
use wac_graph::CompositionGraph;

/// Makes a call that makes nothing which could have a label.
pub(crate) fn change(
    alloc: Global,
    labels: &Things,
    graph: &mut CompositionGraph,
    change: Change<'_, '_>,
) -> Result<(), Refusal>
    ensures { Changes (things_of labels.now) graph.old change.entry result graph.new }
{
    match change {
        Change::Set {
            node,
            name,
            argument,
        } => set(alloc, labels, graph, node, name, argument),
        Change::Export { node, name } => export(alloc, labels, graph, node, name),
        Change::Name { node, name } => name_node(alloc, labels, graph, node, name),
        Change::Plug { socket, plugs } => plug_in(alloc, labels, graph, socket, plugs),
    }
}

/// Sets an argument of an instance.
fn set(
    alloc: Global,
    labels: &Things,
    graph: &mut CompositionGraph,
    node: &str,
    name: &str,
    argument: &str,
) -> Result<(), Refusal>
    ensures { Changes (things_of labels.now) graph.old (said.Set node.entry name.entry argument.entry) result graph.new }
{
    let instance = node_of(alloc, labels, graph, node)?;
    let given = node_of(alloc, labels, graph, argument)?;
    match graph.set_instantiation_argument(instance, name, given) {
        Ok(()) => Ok(()),
        Err(source) => Err(Refusal::Argument(source)),
    }
}

/// Exports a node.
fn export(
    alloc: Global,
    labels: &Things,
    graph: &mut CompositionGraph,
    node: &str,
    name: &str,
) -> Result<(), Refusal>
    ensures { Changes (things_of labels.now) graph.old (said.Export node.entry name.entry) result graph.new }
{
    let id = node_of(alloc, labels, graph, node)?;
    match graph.export(id, name) {
        Ok(()) => Ok(()),
        Err(source) => Err(Refusal::Export(source)),
    }
}

/// Names a node.
fn name_node(
    alloc: Global,
    labels: &Things,
    graph: &mut CompositionGraph,
    node: &str,
    name: &str,
) -> Result<(), Refusal>
    ensures { Changes (things_of labels.now) graph.old (said.Name node.entry name.entry) result graph.new }
{
    let id = node_of(alloc, labels, graph, node)?;
    graph.set_node_name(id, name)?;
    Ok(())
}
