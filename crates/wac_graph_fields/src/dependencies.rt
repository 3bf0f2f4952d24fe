//! The dependency edges between a new definition and the existing ones.
ghost use Rattle.std.specs.Prelude.{◌≡◌, ◌↔◌, ◌⊎◌, true, OnOk, OnErr, IfOk, IsTrue, Contains};
ghost use Rattle.std.specs.FinSet as set;
ghost use Rattle.wac_types_collection.specs.collection.Collection.{holds_type};
ghost use Rattle.wac_types_collection.specs.reach.Reach.{AreClosed, IsIn, Reaches};
ghost use Rattle.wac_edges.specs.declared.edges.Edge.{Edge as AnEdge};
ghost use Rattle.wac_edges.specs.Edge.{AreOnce};
ghost use Rattle.wac_graph_model.specs.nodes.Definitions.{IsDefinedValue, dependency_edge};
ghost use Rattle.wac_graph_fields.specs.private.Stored.{AreHeld, Brings};

use crate::defined::defined_at;
use slab::Slab;
use std::alloc::AllocError;
use wac_edges::edges::{Edge, Edges, Label};
use wac_graph_model::{Node, NodeId};
use wac_types::{Type, Types, ValueType};
use wac_types_collection::Reached;
use wac_types_collection::reach::reach;

/// Adds the dependency edges of a new definition, whose node has no edges yet. On `AllocError` the edges are unchanged.
///
/// Takes time linear in what the definitions reach together, and in the edges. After each definition that reaches the new
/// one, what the others reach may be walked again.
pub fn add_dependencies(
    nodes: &Slab<Node>,
    types: &Types,
    edges: &mut Edges,
    ty: Type,
    id: NodeId,
) -> Result<(), AllocError>
    requires held { holds_type types.now ty ≡ true }
    requires defined { AreHeld types.now nodes.now }
    requires bare { (e : AnEdge) → set.contains edges.old e ≡ true → (e.source ≡ id) ⊎ (e.target ≡ id) → ⊥ }
    ensures ok { OnOk result ((e : AnEdge) → (set.contains edges.new e ≡ true) ↔ (Brings types.now nodes.now ty id e ⊎ (set.contains edges.old e ≡ true))) }
    ensures err { OnErr result (edges.new ≡ edges.old) }
{
    let brought = dependencies(nodes, types, ty, id)?;
    edges.add_all(brought.as_slice())
}

/// Returns the dependency edges of a new definition.
fn dependencies(
    nodes: &Slab<Node>,
    types: &Types,
    ty: Type,
    id: NodeId,
) -> Result<Vec<Edge>, AllocError>
    requires held { holds_type types.now ty ≡ true }
    requires defined { AreHeld types.now nodes.now }
    ensures edges { IfOk result (λ v. (e : AnEdge) → Contains v.items e ↔ Brings types.now nodes.now ty id e) }
    ensures once { IfOk result (λ v. AreOnce v.items) }
{
    types.law(); // proof only
    let reached = reach(types, ty)?;
    let mut apart = Reached::new(types.allocator());
    let mut brought = Vec::new(types.allocator());
    for number in 0..nodes.capacity() {
        let Some(other) = defined_at(nodes, number) else {
            continue;
        };
        let node = NodeId(number);
        if is_reached(&reached, other) {
            brought.push(dependency(node, id))?;
        }
        if reaches(types, &mut apart, other, ty)? {
            brought.push(dependency(id, node))?;
        }
    }
    Ok(brought)
}

/// The edge from a definition to one that depends on it.
fn dependency(source: NodeId, target: NodeId) -> Edge
    ensures { result ≡ dependency_edge source target }
{
    Edge {
        source,
        target,
        label: Label::Dependency,
    }
}

/// Whether the type is a defined value type among those that were reached.
fn is_reached(reached: &Reached, ty: Type) -> bool
    ensures { IsTrue result ↔ (IsDefinedValue ty × IsIn ty reached.now) }
{
    is_defined_value(ty) && reached.contains(ty)
}

/// Whether the second type is a defined value type that the first one reaches.
///
/// `apart` are types that do not reach the second one. Only types that are not there yet are walked, and added. If the
/// second type is reached, none is left.
fn reaches(types: &Types, apart: &mut Reached, ty: Type, other: Type) -> Result<bool, AllocError>
    requires held { holds_type types.now ty ≡ true }
    requires closed { AreClosed types.now apart.old }
    requires apart { IsIn other apart.old → ⊥ }
    ensures reaches { IfOk result (λ b. IsTrue b ↔ (IsDefinedValue other × Reaches types.now ty other)) }
    ensures closed { OnOk result (AreClosed types.now apart.new) }
    ensures apart { OnOk result (IsIn other apart.new → ⊥) }
{
    if !is_defined_value(other) {
        return Ok(false);
    }
    apart.reach_from(types, ty)?;
    if apart.contains(other) {
        *apart = Reached::new(types.allocator());
        return Ok(true);
    }
    Ok(false)
}

/// Whether the type is a defined value type of the collection.
fn is_defined_value(ty: Type) -> bool
    ensures { IsTrue result ↔ IsDefinedValue ty }
{
    match ty {
        Type::Value(ValueType::Defined(_)) => true,
        _ => false,
    }
}
