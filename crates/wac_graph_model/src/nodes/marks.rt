//! The imports of stored instantiations that have an argument.
ghost use Rattle.std.specs.Prelude.{◌≡◌, ◌||◌, ◌&&◌, ◌==◌, not, ℕ, OnOk};
ghost use Rattle.std.specs.Option.{option_map};
ghost use Rattle.slab.specs.Slab.{get};
ghost use Rattle.wac_graph_model.specs.nodes.Nodes.{node_of, satisfied_at, IsInstantiationAt, HasRoomForMark};

use crate::nodes::node::{Node, NodeKind};
use slab::Slab;
use std::alloc::AllocError;

/// Makes room to mark one more import of the instantiation as satisfied.
pub fn reserve_mark(nodes: &mut Slab<Node>, number: usize) -> Result<(), AllocError>
    requires { IsInstantiationAt (get nodes.old number) }
    ensures same { (q : ℕ) → option_map node_of (get nodes.new q) ≡ option_map node_of (get nodes.old q) }
    ensures next { nodes.new.vacant_key ≡ nodes.old.vacant_key }
    ensures marks { (q i : ℕ) → satisfied_at (get nodes.new q) i ≡ satisfied_at (get nodes.old q) i }
    ensures room { OnOk result (HasRoomForMark (get nodes.new number)) }
{
    let node = &mut nodes[number];
    let NodeKind::Instantiation(positions) = &mut node.kind else {
        unreachable!()
    };
    positions.reserve(1)
}

/// Marks the instantiation's import at this position as satisfied. There must be room for the mark. Takes no memory.
pub fn satisfy(nodes: &mut Slab<Node>, number: usize, position: usize)
    requires { HasRoomForMark (get nodes.old number) }
    ensures same { (q : ℕ) → option_map node_of (get nodes.new q) ≡ option_map node_of (get nodes.old q) }
    ensures next { nodes.new.vacant_key ≡ nodes.old.vacant_key }
    ensures marks { (q i : ℕ) → satisfied_at (get nodes.new q) i ≡ (satisfied_at (get nodes.old q) i || (q == number && i == position)) }
{
    let node = &mut nodes[number];
    let NodeKind::Instantiation(positions) = &mut node.kind else {
        unreachable!()
    };
    positions.insert(position).unwrap();
}

/// Marks the instantiation's import at this position as unsatisfied.
pub fn unsatisfy(nodes: &mut Slab<Node>, number: usize, position: usize)
    requires { IsInstantiationAt (get nodes.old number) }
    ensures same { (q : ℕ) → option_map node_of (get nodes.new q) ≡ option_map node_of (get nodes.old q) }
    ensures next { nodes.new.vacant_key ≡ nodes.old.vacant_key }
    ensures marks { (q i : ℕ) → satisfied_at (get nodes.new q) i ≡ (satisfied_at (get nodes.old q) i && not (q == number && i == position)) }
{
    let node = &mut nodes[number];
    let NodeKind::Instantiation(positions) = &mut node.kind else {
        unreachable!()
    };
    positions.remove(&position);
}
