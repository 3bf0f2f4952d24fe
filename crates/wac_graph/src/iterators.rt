//! Iterators over the nodes and packages of a graph.
ghost use Rattle.std.specs.Prelude.{◌≡◌, ◌<◌, ◌+◌, ◌∷◌, [], IfSome, MatchOption, length};
ghost use Rattle.wac_graph.specs.Listed.{AreNodes, node_ids, packages};
ghost use Rattle.wac_graph.specs.private.Left.{packages_left};

use crate::graph::CompositionGraph;
use slab::Iter;
use std::marker::Model;
use wac_graph_model::inner::{new_package_id, slot_of};
use wac_graph_model::{Node, NodeId, PackageId, Slot};
use wac_types::Package;

/// An iterator over the nodes of a graph with their ids. It is returned by [`CompositionGraph::nodes`].
#[derive(Drop)]
pub struct Nodes<'a> {
    entries: Iter<'a, Node>,
}

impl<'a> Model for Nodes<'a> {
    ghost use Rattle.std.specs.Prelude.{List, map};
    ghost use Rattle.wac_edges.specs.declared.node.NodeId.{NodeId};
    ghost use Rattle.wac_graph_model.specs.declared.nodes.node.Node.{Node};
    ghost use Rattle.wac_graph.specs.private.Left.{with_id};

    ghost Value = { List (NodeId × Node) };

    ghost use Rattle.std.specs.Coded.{codes};
    ghost use Rattle.wac_graph_model.specs.contracts.nodes.node.Node as node_row;

    ghost coded = { Prim.hlevel (codes, node_row.the_row.coded) };

    ghost view = { λ s. map with_id s.entries };
}

impl<'a> Iterator for Nodes<'a> {
    type Item = (NodeId, &'a Node);

    ghost use Rattle.std.specs.Iterator.{YieldsFirstBy, item_count};

    ghost next_gives = { YieldsFirstBy (λ x. (x.0, x.1.now)) (λ s. s) };

    ghost remaining = { item_count (λ s. s) };

    fn next(&mut self) -> Option<(NodeId, &'a Node)> {
        let (number, node) = self.entries.next()?;
        Some((NodeId(number), node))
    }
}

/// An iterator over the ids of a graph's nodes. It is returned by [`CompositionGraph::node_ids`].
#[derive(Drop)]
pub struct NodeIds<'a> {
    entries: Iter<'a, Node>,
}

impl<'a> Model for NodeIds<'a> {
    ghost use Rattle.std.specs.Prelude.{List, map};
    ghost use Rattle.wac_edges.specs.declared.node.NodeId.{NodeId};
    ghost use Rattle.wac_graph.specs.private.Left.{id_of};

    ghost Value = { List NodeId };

    ghost view = { λ s. map id_of s.entries };
}

impl<'a> Iterator for NodeIds<'a> {
    type Item = NodeId;

    ghost use Rattle.std.specs.Iterator.{YieldsFirst, item_count};

    ghost next_gives = { YieldsFirst (λ s. s) };

    ghost remaining = { item_count (λ s. s) };

    fn next(&mut self) -> Option<NodeId> {
        let (number, _) = self.entries.next()?;
        Some(NodeId(number))
    }
}

/// An iterator over the registered packages with their ids. It is returned by [`CompositionGraph::packages`].
#[derive(Drop)]
pub struct Packages<'a> {
    slots: &'a [Slot],
    // The number of the next slot.
    slot: usize,
}

impl<'a> Model for Packages<'a> {
    ghost use Rattle.std.specs.Prelude.{List};
    ghost use Rattle.wac_types_collection.specs.collection.Package.{PackageParts};
    ghost use Rattle.wac_graph_model.specs.declared.nodes.packages.PackageId.{PackageId};
    ghost use Rattle.wac_graph.specs.private.Left.{packages_left};

    ghost Value = { List (PackageId × PackageParts) };

    ghost view = { λ s. packages_left s.slots.now s.slot };
}

impl<'a> Iterator for Packages<'a> {
    type Item = (PackageId, &'a Package);

    ghost use Rattle.std.specs.Iterator.{YieldsFirstBy, item_count};

    ghost next_gives = { YieldsFirstBy (λ x. (x.0, x.1.now)) (λ s. s) };

    ghost remaining = { item_count (λ s. s) };

    fn next(&mut self) -> Option<(PackageId, &'a Package)> {
        let Some((id, package)) = first_package(self.slots, self.slot) else {
            self.slot = self.slots.len();
            return None;
        };
        self.slot = slot_of(id) + 1;
        Some((id, package))
    }
}

impl CompositionGraph {
    /// The nodes with their ids, in order of number.
    pub fn nodes(&self) -> Nodes<'_>
        ensures { AreNodes self.now result }
    {
        Nodes {
            entries: self.nodes.iter(),
        }
    }

    /// The ids of the nodes, in order of number.
    pub fn node_ids(&self) -> NodeIds<'_>
        ensures { result ≡ node_ids self.now }
    {
        NodeIds {
            entries: self.nodes.iter(),
        }
    }

    /// The registered packages with their ids, in order of slot.
    pub fn packages(&self) -> Packages<'_>
        ensures { result ≡ packages self.now }
    {
        Packages {
            slots: &self.slots,
            slot: 0,
        }
    }
}

/// The first package in the slots from a number on, with its id.
fn first_package(slots: &[Slot], from: usize) -> Option<(PackageId, &Package)>
    ensures below { IfSome result (λ r. r.0.slot < length slots.now) }
    ensures first { MatchOption result (packages_left slots.now from ≡ []) (λ r. packages_left slots.now from ≡ (r.0, r.1.now) ∷ packages_left slots.now (r.0.slot + 1)) }
{
    for i in from..slots.len() {
        let slot = &slots[i];
        if let Some(package) = &slot.package {
            let id = new_package_id(i, slot.generation);
            return Some((id, package));
        }
    }
    None
}
