//! Removing nodes with everything that depends on them.
ghost use Rattle.std.specs.Prelude.{◌≡◌, ◌≢◌, ◌↔◌, ◌≤◌, ℕ, true, Some, None, IfSome, IfNone, IsTrue, IsSome};
ghost use Rattle.std.specs.Option.{option_map};
ghost use Rattle.std.specs.FinSet as set;
ghost use Rattle.slab.specs.Slab.{get};
ghost use Rattle.wac_edges.specs.declared.edges.Edge.{Edge as AnEdge};
ghost use Rattle.wac_edges.specs.Ends.{at_end};
ghost use Rattle.wac_graph_model.specs.nodes.Nodes.{node_of};
ghost use Rattle.wac_graph_fields.specs.private.Lost.{AreNoted};
ghost use Rattle.wac_graph_fields.specs.Removal.{GoesWith};
ghost use Rattle.wac_graph_fields.specs.private.Removing.{AreTied, AreTaken};

use crate::lost::{Lost, take_node};
use indexmap::IndexMap;
use slab::Slab;
use wac_edges::edges::{Edge, Edges, End, Label};
use wac_graph_model::inner::unsatisfy;
use wac_graph_model::{Node, NodeId};

/// Removes a node and all that goes with it, with their edges. Returns the node.
///
/// The walk follows outgoing edges. A visited node keeps only the incoming edge that the walk came by, which leads back.
/// So no memory is needed.
pub fn take_nodes(
    nodes: &mut Slab<Node>,
    edges: &mut Edges,
    exports: &IndexMap<String, NodeId>,
    lost: &mut Lost,
    id: NodeId,
) -> Node
    requires there { IsSome (get nodes.old id.0) }
    requires tied { AreTied nodes.old edges.old }
    requires noted { AreNoted nodes.old lost.old exports.now.entries }
    ensures node { option_map node_of (get nodes.old id.0) ≡ Some (node_of result) }
    ensures taken { AreTaken (GoesWith edges.old id) nodes.old edges.old nodes.new edges.new }
    ensures tied { AreTied nodes.new edges.new }
    ensures next { nodes.new.vacant_key ≡ id.0 }
    ensures noted { AreNoted nodes.new lost.new exports.now.entries }
{
    let _room = nodes.capacity(); // proof only
    take_into(nodes, edges, id, None);
    let mut here = id;
    let mut depth: usize = 0;
    'walk: loop {
        let Some(edge) = first_edge(edges, here, End::Outgoing) else {
            if depth == 0 {
                return take_node(nodes, exports, lost, here.0);
            }
            here = leave(nodes, edges, exports, lost, here);
            depth -= 1;
            continue 'walk;
        };
        if let Label::Argument(_) = edge.label {
            take_edge(nodes, edges, edge);
        } else {
            take_into(nodes, edges, edge.target, Some(edge));
            here = edge.target;
            depth += 1;
        }
    }
}

/// Removes a node without outgoing edges and its only incoming edge. Returns the source of that edge.
fn leave(
    nodes: &mut Slab<Node>,
    edges: &mut Edges,
    exports: &IndexMap<String, NodeId>,
    lost: &mut Lost,
    here: NodeId,
) -> NodeId
    requires there { IsSome (get nodes.old here.0) }
    requires tied { AreTied nodes.old edges.old }
    requires into { (e : AnEdge) × (set.contains edges.old e ≡ true) × (e.target ≡ here) × ((other : AnEdge) → set.contains edges.old other ≡ true → other.target ≡ here → other ≡ e) }
    requires from { (e : AnEdge) → set.contains edges.old e ≡ true → e.source ≡ here → ⊥ }
    requires noted { AreNoted nodes.old lost.old exports.now.entries }
    ensures edge { (e : AnEdge) × (set.contains edges.old e ≡ true) × (e.source ≡ result) × (e.target ≡ here) × (edges.new ≡ set.remove edges.old e) }
    ensures gone { get nodes.new here.0 ≡ None }
    ensures others { (q : ℕ) → q ≢ here.0 → option_map node_of (get nodes.new q) ≡ option_map node_of (get nodes.old q) }
    ensures tied { AreTied nodes.new edges.new }
    ensures noted { AreNoted nodes.new lost.new exports.now.entries }
{
    let Some(edge) = first_edge(edges, here, End::Incoming) else {
        unreachable!()
    };
    take_edge(nodes, edges, edge);
    take_node(nodes, exports, lost, here.0);
    edge.source
}

/// Removes the edges into a node, except one.
pub(crate) fn take_into(nodes: &mut Slab<Node>, edges: &mut Edges, node: NodeId, kept: Option<Edge>)
    requires { AreTied nodes.old edges.old }
    ensures less { (e : AnEdge) → set.contains edges.new e ≡ true → set.contains edges.old e ≡ true }
    ensures others { (e : AnEdge) → set.contains edges.old e ≡ true → (e.target ≡ node → ⊥) → set.contains edges.new e ≡ true }
    ensures kept { (e : AnEdge) → set.contains edges.old e ≡ true → kept ≡ Some e → set.contains edges.new e ≡ true }
    ensures only { (e : AnEdge) → set.contains edges.new e ≡ true → e.target ≡ node → kept ≡ Some e }
    ensures fewer { set.len edges.new ≤ set.len edges.old }
    ensures same { (q : ℕ) → option_map node_of (get nodes.new q) ≡ option_map node_of (get nodes.old q) }
    ensures tied { AreTied nodes.new edges.new }
{
    while let Some(edge) = other_into(edges, node, kept) {
        take_edge(nodes, edges, edge);
    }
}

/// Removes an edge. The import that it satisfied is unsatisfied afterwards.
pub(crate) fn take_edge(nodes: &mut Slab<Node>, edges: &mut Edges, edge: Edge)
    requires stands { set.contains edges.old edge ≡ true }
    requires tied { AreTied nodes.old edges.old }
    ensures edges { edges.new ≡ set.remove edges.old edge }
    ensures same { (q : ℕ) → option_map node_of (get nodes.new q) ≡ option_map node_of (get nodes.old q) }
    ensures tied { AreTied nodes.new edges.new }
{
    edges.remove(edge);
    if let Label::Argument(position) = edge.label {
        unsatisfy(nodes, edge.target.0, position);
    }
}

/// An edge at this end of the node, if any.
pub(crate) fn first_edge(edges: &Edges, node: NodeId, end: End) -> Option<Edge>
    ensures there { IfSome result (λ e. (set.contains edges.now e ≡ true) × (at_end end e ≡ node)) }
    ensures none { IfNone result ((e : AnEdge) → set.contains edges.now e ≡ true → at_end end e ≡ node → ⊥) }
{
    edges.walk(node, end).next()
}

/// An edge into the node other than the kept one, if any.
fn other_into(edges: &Edges, node: NodeId, kept: Option<Edge>) -> Option<Edge>
    ensures there { IfSome result (λ e. (set.contains edges.now e ≡ true) × (e.target ≡ node)) }
    ensures other { IfSome result (λ e. kept ≡ Some e → ⊥) }
    ensures none { IfNone result ((e : AnEdge) → set.contains edges.now e ≡ true → e.target ≡ node → (kept ≡ Some e → ⊥) → ⊥) }
{
    for edge in edges.walk(node, End::Incoming) {
        if !is_kept(kept, edge) {
            return Some(edge);
        }
    }
    None
}

/// Whether the edge is the kept one.
fn is_kept(kept: Option<Edge>, edge: Edge) -> bool
    ensures { IsTrue result ↔ (kept ≡ Some edge) }
{
    match kept {
        Some(kept) => kept == edge,
        None => false,
    }
}
