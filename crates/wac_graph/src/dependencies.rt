//! The definitions that a definition depends on.
ghost use Rattle.std.specs.Prelude.{◌≡◌, ◌↔◌, ℕ, true, IfOk, OnOk};
ghost use Rattle.std.specs.BTreeSet as tree;
ghost use Rattle.std.specs.FinSet as set;
ghost use Rattle.std.specs.Ordering.{nat_cmp};
ghost use Rattle.wac_edges.specs.declared.edges.Label.TheVariants as label;
ghost use Rattle.wac_edges.specs.Edge.{node_number};
ghost use Rattle.wac_edges.specs.private.cycles.Numbers.{Has};
ghost use Rattle.wac_graph_model.specs.nodes.Definitions.{dependency_edge};
ghost use Rattle.wac_graph.specs.Listed.{AreDependencies};

use crate::graph::CompositionGraph;
use std::alloc::{AllocError, Global};
use std::collections::BTreeSet;
use wac_edges::edges::{Edge, Edges, End, Label};
use wac_graph_model::NodeId;

impl CompositionGraph {
    /// The definitions that a definition depends on, in order of number.
    ///
    /// Any id is accepted. There are none if the node is not a definition.
    ///
    /// # Errors
    /// `AllocError` if memory runs out.
    pub fn dependencies(&self, id: NodeId) -> Result<Vec<NodeId>, AllocError>
        ensures { IfOk result (λ nodes. AreDependencies self.now id nodes.items) }
    {
        let numbers = dependency_numbers(self.alloc, &self.edges, id)?;
        let mut nodes = Vec::new(self.alloc);
        for number in numbers.iter() {
            nodes.push(NodeId(*number))?;
        }
        Ok(nodes)
    }
}

/// The numbers of the nodes from which a dependency edge leads to this one.
fn dependency_numbers(
    alloc: Global,
    edges: &Edges,
    id: NodeId,
) -> Result<BTreeSet<usize>, AllocError>
    ensures { IfOk result (λ numbers. (n : ℕ) → Has numbers.keys n ↔ (set.contains edges.now (dependency_edge (node_number n) id) ≡ true)) }
{
    let mut numbers = BTreeSet::new(alloc);
    for edge in edges.walk(id, End::Incoming) {
        note_dependency(&mut numbers, edge)?;
    }
    Ok(numbers)
}

/// Adds the number of the source of an edge, if it is a dependency edge.
fn note_dependency(numbers: &mut BTreeSet<usize>, edge: Edge) -> Result<(), AllocError>
    ensures dependency { OnOk result (edge.label ≡ label.Dependency → numbers.new.keys ≡ tree.insert_key nat_cmp numbers.old.keys edge.source.0) }
    ensures other { OnOk result ((edge.label ≡ label.Dependency → ⊥) → numbers.new.keys ≡ numbers.old.keys) }
{
    let Label::Dependency = edge.label else {
        return Ok(());
    };
    numbers.insert(edge.source.0)?;
    Ok(())
}
