//! Removing the exports of removed nodes.
ghost use Rattle.std.specs.Prelude.{◌≡◌, ◌≢◌, ℕ, true, not, OnOk, IfOk, is_some, IsSome, Some, None, slice_get, Contains};
ghost use Rattle.slab.specs.Slab.{get, Updates};
ghost use Rattle.wac_types_shapes.specs.primitives.Name.{Name as AName};
ghost use Rattle.wac_edges.specs.declared.node.NodeId.{NodeId as AnId};
ghost use Rattle.wac_graph_model.specs.nodes.Nodes.{node_of, names_of};
ghost use Rattle.wac_graph_fields.specs.private.Told.{tells};
ghost use Rattle.wac_graph_model.specs.nodes.TakenOut.{without, taken_at};
ghost use Rattle.wac_graph_fields.specs.private.Lost.{is_again, IsNoted, AreNoted};

use indexmap::IndexMap;
use slab::Slab;
use std::alloc::{AllocError, Global};
use std::collections::BTreeSet;
use wac_graph_model::{Node, NodeId};

/// The positions of exports whose nodes are removed.
///
/// A node stores its latest export name, which leads to that export.
/// All exports are searched only if a removed node may have had several.
pub struct Lost {
    positions: Vec<usize>,
    // Whether every position is noted.
    is_complete: bool,
    // The numbers of nodes that may have several export names.
    again: BTreeSet<usize>,
}

// By hand: a derived `Drop` is proved again wherever one goes out of scope (docs/PROOFS.md, 'Drop').
impl Drop for Lost {
    fn drop(self) {
        let Lost {
            positions: _,
            is_complete: _,
            again: _,
        } = self;
    }
}

impl Lost {
    /// A record without positions and marks, and without memory.
    pub fn new(alloc: Global) -> Lost {
        Lost {
            positions: Vec::new(alloc),
            is_complete: true,
            again: BTreeSet::new(alloc),
        }
    }

    /// Clones the marks, with no positions and with memory for `count` of them.
    pub fn clone_with_room(&self, alloc: Global, count: usize) -> Result<Lost, AllocError>
        ensures { IfOk result (λ lost. (q : ℕ) → is_again lost q ≡ is_again self.now q) }
    {
        let again = self.again.clone()?;
        let mut positions = Vec::new(alloc);
        positions.reserve(count)?;
        Ok(Lost {
            positions,
            is_complete: true,
            again,
        })
    }

    /// Removes the noted positions.
    pub fn clear(&mut self)
        ensures { (q : ℕ) → is_again self.new q ≡ is_again self.old q }
    {
        self.positions.clear();
        self.is_complete = true;
    }

    /// Reserves memory for `count` positions before a node is exported. Marks the node if it already has an export name.
    pub fn prepare(&mut self, count: usize, number: usize, is_named: bool) -> Result<(), AllocError>
        ensures kept { (q : ℕ) → is_again self.old q ≡ true → is_again self.new q ≡ true }
        ensures marked { OnOk result (is_named ≡ true → is_again self.new number ≡ true) }
    {
        self.positions.clear();
        self.positions.reserve(count)?;
        if is_named {
            self.again.insert(number)?;
        }
        Ok(())
    }

    /// Removes the mark of a node whose exports are gone. Returns whether it was marked.
    pub fn unmark(&mut self, number: usize) -> bool
        ensures was { result ≡ is_again self.old number }
        ensures others { (q : ℕ) → q ≢ number → is_again self.new q ≡ is_again self.old q }
        ensures kept { (i : ℕ) → IsNoted self.old i → IsNoted self.new i }
    {
        !self.again.is_empty() && self.again.remove(&number)
    }

    /// Notes a position. Without memory for it, records that positions are missing.
    fn note(&mut self, position: usize)
        ensures noted { IsNoted self.new position }
        ensures kept { (i : ℕ) → IsNoted self.old i → IsNoted self.new i }
        ensures same { (q : ℕ) → is_again self.new q ≡ is_again self.old q }
    {
        if self.positions.len() < self.positions.capacity() {
            self.positions.push(position).unwrap();
        } else {
            self.is_complete = false;
        }
    }

    /// Notes the export of a node, or that positions are missing if the node may have several.
    fn note_exports(&mut self, exports: &IndexMap<String, NodeId>, number: usize, node: &Node)
        ensures noted { (i : ℕ) (name : AName) (n : AnId) → slice_get (names_of exports.now.entries) i ≡ Some (name, n) → tells (is_again self.old number) (Some (node_of node.now)) name ≡ true → IsNoted self.new i }
        ensures kept { (i : ℕ) → IsNoted self.old i → IsNoted self.new i }
        ensures others { (q : ℕ) → q ≢ number → is_again self.new q ≡ is_again self.old q }
    {
        if self.unmark(number) {
            self.is_complete = false;
            return;
        }
        let Some(name) = node.export_name() else {
            return;
        };
        if let Some(position) = exports.get_index_of(name) {
            self.note(position);
        }
    }
}

/// Removes a node and notes its exports.
pub(crate) fn take_node(
    nodes: &mut Slab<Node>,
    exports: &IndexMap<String, NodeId>,
    lost: &mut Lost,
    number: usize,
) -> Node
    requires there { IsSome (get nodes.old number) }
    requires noted { AreNoted nodes.old lost.old exports.now.entries }
    ensures value { get nodes.old number ≡ Some result }
    ensures updates { Updates nodes.old nodes.new number None }
    ensures next { nodes.new.vacant_key ≡ number }
    ensures noted { AreNoted nodes.new lost.new exports.now.entries }
{
    let node = &nodes[number];
    lost.note_exports(exports, number, node);
    nodes.remove(number)
}

/// Removes the exports of missing nodes, from the last to the first. Each time, the last export takes the freed place.
///
/// Only the noted positions are visited if none is missing.
pub fn take_lost(exports: &mut IndexMap<String, NodeId>, nodes: &Slab<Node>, lost: &mut Lost)
    requires { AreNoted nodes.now lost.old exports.old.entries }
    ensures same { (q : ℕ) → is_again lost.new q ≡ is_again lost.old q }
    ensures left { names_of exports.new.entries ≡ without (λ m. not (is_some (get nodes.now m.0))) (names_of exports.old.entries) }
{
    if lost.is_complete {
        take_noted(exports, nodes, &mut lost.positions);
    } else {
        take_all(exports, nodes);
    }
}

/// Removes the exports at these positions whose nodes are missing.
fn take_noted(
    exports: &mut IndexMap<String, NodeId>,
    nodes: &Slab<Node>,
    positions: &mut Vec<usize>,
)
    requires { (i : ℕ) (name : AName) (n : AnId) → slice_get (names_of exports.old.entries) i ≡ Some (name, n) → get nodes.now n.0 ≡ None → Contains positions.old.items i }
    ensures { names_of exports.new.entries ≡ without (λ m. not (is_some (get nodes.now m.0))) (names_of exports.old.entries) }
{
    positions.sort_unstable();
    while let Some(position) = positions.pop() {
        take_lost_at(exports, nodes, position);
    }
}

/// Removes all exports whose nodes are missing.
fn take_all(exports: &mut IndexMap<String, NodeId>, nodes: &Slab<Node>)
    ensures { names_of exports.new.entries ≡ without (λ m. not (is_some (get nodes.now m.0))) (names_of exports.old.entries) }
{
    let mut i = exports.len();
    while i > 0 {
        i -= 1;
        take_lost_at(exports, nodes, i);
    }
}

/// Removes the export at a position if its node is missing. The last export takes its place.
fn take_lost_at(exports: &mut IndexMap<String, NodeId>, nodes: &Slab<Node>, position: usize)
    ensures { names_of exports.new.entries ≡ taken_at (λ m. not (is_some (get nodes.now m.0))) position (slice_get (names_of exports.old.entries) position) (names_of exports.old.entries) }
{
    let Some((_, node)) = exports.get_index(position) else {
        return;
    };
    if !nodes.contains(node.0) {
        exports.swap_remove_index(position);
    }
}
