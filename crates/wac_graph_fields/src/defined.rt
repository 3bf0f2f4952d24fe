//! The types that stored nodes define.
ghost use Rattle.std.specs.Prelude.{◌≡◌, ◌↔◌, ℕ, Some, IsTrue};
ghost use Rattle.std.specs.Bool.{OnTrue, OnFalse};
ghost use Rattle.wac_types_shapes.specs.declared.shapes.component.«Type».{«Type» as AnyType};
ghost use Rattle.wac_graph_fields.specs.private.Stored.{DefinesAt};

use slab::Slab;
use wac_graph_model::{Node, NodeKind};
use wac_types::{ItemKind, Type};

/// Whether a node defines the type.
pub fn is_defined(nodes: &Slab<Node>, ty: Type) -> bool
    ensures there { OnTrue result ((q : ℕ) × DefinesAt nodes.now ty q) }
    ensures absent { OnFalse result ((q : ℕ) → DefinesAt nodes.now ty q → ⊥) }
{
    for number in 0..nodes.capacity() {
        if defines(nodes, number, ty) {
            return true;
        }
    }
    false
}

/// Whether the node with this number defines the type.
fn defines(nodes: &Slab<Node>, number: usize, ty: Type) -> bool
    ensures { IsTrue result ↔ DefinesAt nodes.now ty number }
{
    match defined_at(nodes, number) {
        Some(other) => other == ty,
        None => false,
    }
}

/// The type that the node with this number defines, if it is a definition.
pub(crate) fn defined_at(nodes: &Slab<Node>, number: usize) -> Option<Type>
    ensures { (t : AnyType) → (result ≡ Some t) ↔ DefinesAt nodes.now t number }
{
    let Some(node) = nodes.get(number) else {
        return None;
    };
    let NodeKind::Definition = node.kind() else {
        return None;
    };
    let ItemKind::TypeItem(ty) = node.item_kind() else {
        return None;
    };
    Some(ty)
}
