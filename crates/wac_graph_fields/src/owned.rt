//! Removing the nodes of a package, with their edges and exports.
ghost use Rattle.std.specs.Prelude.{◌≡◌, ◌≤◌, not, ℕ, true, false, filter, if◌then◌else◌};
ghost use Rattle.std.specs.Option.{option_map};
ghost use Rattle.std.specs.FinSet as set;
ghost use Rattle.slab.specs.Slab.{get};
ghost use Rattle.wac_edges.specs.declared.edges.Edge.{Edge as AnEdge};
ghost use Rattle.wac_graph_model.specs.nodes.Nodes.{node_of, names_of};
ghost use Rattle.wac_graph_fields.specs.private.Lost.{is_again};
ghost use Rattle.wac_graph_fields.specs.private.Owned.{is_of_at};
ghost use Rattle.wac_graph_fields.specs.private.Removing.{AreTied, AreTaken};
ghost use Rattle.wac_graph_fields.specs.Unregistering.{is_owner};

use crate::lost::Lost;
use crate::taking::{first_edge, take_edge, take_into};
use indexmap::IndexMap;
use slab::Slab;
use wac_edges::edges::{Edges, End};
use wac_graph_model::{Node, NodeId, NodeKind, PackageId};

/// Removes the exports of a package's nodes. The others keep their order.
pub fn take_owned_exports(exports: &mut IndexMap<String, NodeId>, nodes: &Slab<Node>, id: PackageId)
    ensures { names_of exports.new.entries ≡ filter (λ e. not (is_of_at id nodes.now (e.1).0)) (names_of exports.old.entries) }
{
    exports.retain(
        |_name: &String, node: &mut NodeId| -> bool
            ensures { (result ≡ not (is_of_at id nodes.entry.now (node.old).0)) × (node.new ≡ node.old) }
        { !is_owned(nodes, node.0, id) },
    );
}

/// Removes the nodes of a package, by rising number, with their edges.
pub fn take_owned(nodes: &mut Slab<Node>, edges: &mut Edges, lost: &mut Lost, id: PackageId)
    requires { AreTied nodes.old edges.old }
    ensures taken { AreTaken (λ n. is_of_at id nodes.old n.0 ≡ true) nodes.old edges.old nodes.new edges.new }
    ensures tied { AreTied nodes.new edges.new }
    ensures marks { (q : ℕ) → is_of_at id nodes.old q ≡ false → is_again lost.new q ≡ is_again lost.old q }
    ensures highest { (q : ℕ) → is_of_at id nodes.old q ≡ true → (is_of_at id nodes.old nodes.new.vacant_key ≡ true) × (q ≤ nodes.new.vacant_key) }
    ensures same { ((q : ℕ) → is_of_at id nodes.old q ≡ true → ⊥) → nodes.new.vacant_key ≡ nodes.old.vacant_key }
{
    for number in 0..nodes.capacity() {
        take_owned_at(nodes, edges, lost, number, id);
    }
}

/// Removes the node with this number and its edges, if it is one of the package.
fn take_owned_at(
    nodes: &mut Slab<Node>,
    edges: &mut Edges,
    lost: &mut Lost,
    number: usize,
    id: PackageId,
)
    requires { AreTied nodes.old edges.old }
    ensures taken { AreTaken (λ n. (n.0 ≡ number) × (is_of_at id nodes.old n.0 ≡ true)) nodes.old edges.old nodes.new edges.new }
    ensures tied { AreTied nodes.new edges.new }
    ensures marks { (q : ℕ) → is_of_at id nodes.old q ≡ false → is_again lost.new q ≡ is_again lost.old q }
    ensures next { nodes.new.vacant_key ≡ (if is_of_at id nodes.old number then number else nodes.old.vacant_key) }
{
    if !is_owned(nodes, number, id) {
        return;
    }
    take_into(nodes, edges, NodeId(number), None);
    take_from(nodes, edges, NodeId(number));
    nodes.remove(number);
    lost.unmark(number);
}

/// Removes the edges that leave a node.
fn take_from(nodes: &mut Slab<Node>, edges: &mut Edges, node: NodeId)
    requires { AreTied nodes.old edges.old }
    ensures less { (e : AnEdge) → set.contains edges.new e ≡ true → set.contains edges.old e ≡ true }
    ensures others { (e : AnEdge) → set.contains edges.old e ≡ true → (e.source ≡ node → ⊥) → set.contains edges.new e ≡ true }
    ensures none { (e : AnEdge) → set.contains edges.new e ≡ true → e.source ≡ node → ⊥ }
    ensures same { (q : ℕ) → option_map node_of (get nodes.new q) ≡ option_map node_of (get nodes.old q) }
    ensures tied { AreTied nodes.new edges.new }
{
    while let Some(edge) = first_edge(edges, node, End::Outgoing) {
        take_edge(nodes, edges, edge);
    }
}

/// Whether the node with this number is one of the package.
fn is_owned(nodes: &Slab<Node>, number: usize, id: PackageId) -> bool
    ensures { result ≡ is_of_at id nodes.now number }
{
    let Some(node) = nodes.get(number) else {
        return false;
    };
    match node.kind() {
        NodeKind::Instantiation(_) | NodeKind::Alias => is_package(node.package(), id),
        NodeKind::Definition | NodeKind::Import(_) => false,
    }
}

/// Whether the owner is this package.
fn is_package(owner: Option<PackageId>, id: PackageId) -> bool
    ensures { result ≡ is_owner id owner }
{
    match owner {
        Some(owner) => owner == id,
        None => false,
    }
}
