//! Clones of graphs.
ghost use Rattle.std.specs.Prelude.{◌≡◌, ◌≤◌, IfOk, length, string_bytes, vec_capacity};
ghost use Rattle.std.specs.List.{AllZip};
ghost use Rattle.slab.specs.Slab.{IsSlotClone};
ghost use Rattle.wac_graph_model.specs.nodes.Clones.{IsNodeClone};

use crate::graph::CompositionGraph;
use indexmap::IndexMap;
use slab::Slab;
use std::alloc::AllocError;
use wac_edges::edges::Edges;
use wac_graph_model::{Node, NodeId, PackageId, Slot};
use wac_types::{PackageKey, Types};

impl CompositionGraph {
    /// Clones the graph. All ids are valid in the clone, and the types are shared.
    ///
    /// # Errors
    /// `AllocError` if memory runs out.
    pub fn clone(&self) -> Result<CompositionGraph, AllocError>
        ensures { IfOk result (λ graph. graph ≡ self.now) }
    {
        let lost = self.lost.clone_with_room(self.alloc, self.exports.len())?;
        let (slots, vacant) = cloned_slots(&self.slots, &self.vacant)?;
        let (types, nodes, edges) = cloned_nodes(&self.types, &self.nodes, &self.edges)?;
        let (imports, exports, package_map) = cloned_names(
            &self.imports,
            &self.exports,
            &self.package_map,
        )?;
        Ok(CompositionGraph {
            alloc: self.alloc,
            types,
            nodes,
            edges,
            imports,
            exports,
            package_map,
            slots,
            vacant,
            lost,
        })
    }
}

/// Clones the types, nodes and edges.
fn cloned_nodes(
    types: &Types,
    nodes: &Slab<Node>,
    edges: &Edges,
) -> Result<(Types, Slab<Node>, Edges), AllocError>
    ensures types { IfOk result (λ copy. copy.0 ≡ types.now) }
    ensures nodes { IfOk result (λ copy. AllZip (IsSlotClone IsNodeClone) nodes.now.slots copy.1.slots) }
    ensures next { IfOk result (λ copy. copy.1.vacant_key ≡ nodes.now.vacant_key) }
    ensures edges { IfOk result (λ copy. copy.2 ≡ edges.now) }
{
    let types = types.clone()?;
    let nodes = nodes.clone()?;
    let edges = edges.clone()?;
    Ok((types, nodes, edges))
}

/// Clones the names of imports and exports, and the keys of packages.
fn cloned_names(
    imports: &IndexMap<String, NodeId>,
    exports: &IndexMap<String, NodeId>,
    keys: &IndexMap<PackageKey, PackageId>,
) -> Result<
    (
        IndexMap<String, NodeId>,
        IndexMap<String, NodeId>,
        IndexMap<PackageKey, PackageId>,
    ),
    AllocError,
>
    ensures imports { IfOk result (λ copy. AllZip (λ p q. (string_bytes q.0 ≡ string_bytes p.0) × (q.1 ≡ p.1)) imports.now.entries copy.0.entries) }
    ensures exports { IfOk result (λ copy. AllZip (λ p q. (string_bytes q.0 ≡ string_bytes p.0) × (q.1 ≡ p.1)) exports.now.entries copy.1.entries) }
    ensures keys { IfOk result (λ copy. AllZip (λ p q. (q.0 ≡ p.0) × (q.1 ≡ p.1)) keys.now.entries copy.2.entries) }
{
    let imports = imports.clone()?;
    let exports = exports.clone()?;
    let keys = keys.clone()?;
    Ok((imports, exports, keys))
}

/// Clones the slots and the list of free slots, with memory in it for every slot.
fn cloned_slots(
    slots: &Vec<Slot>,
    vacant: &Vec<usize>,
) -> Result<(Vec<Slot>, Vec<usize>), AllocError>
    ensures slots { IfOk result (λ copy. AllZip (λ p q. q ≡ p) slots.now.items copy.0.items) }
    ensures vacant { IfOk result (λ copy. copy.1.items ≡ vacant.now.items) }
    ensures room { IfOk result (λ copy. length slots.now.items ≤ vec_capacity copy.1) }
{
    let vacant = clone_with_room(vacant, slots.len())?;
    let slots = slots.clone()?;
    Ok((slots, vacant))
}

/// Clones the numbers, with memory for `count` of them.
fn clone_with_room(numbers: &Vec<usize>, count: usize) -> Result<Vec<usize>, AllocError>
    ensures same { IfOk result (λ copy. copy.items ≡ numbers.now.items) }
    ensures room { IfOk result (λ copy. count ≤ vec_capacity copy) }
{
    let mut copy = numbers.clone()?;
    copy.reserve(count)?;
    Ok(copy)
}
