//! The borrowed fields of a graph.
ghost use Rattle.wac_graph_model.specs.nodes.Sound.{IsSound};

use indexmap::IndexMap;
use slab::Slab;
use std::alloc::Global;
use std::marker::Model;
use wac_edges::edges::Edges;
use wac_graph_fields::Lost;
use wac_graph_model::{Node, NodeId, PackageId, Slot};
use wac_types::{PackageKey, Types};

/// The fields of a graph, borrowed. Its value is that of the graph.
#[derive(Drop)]
pub struct GraphReader<'a> {
    /// The allocator.
    pub alloc: Global,
    /// The collection of types.
    pub types: &'a Types,
    /// The nodes, by number.
    pub nodes: &'a Slab<Node>,
    /// The edges.
    pub edges: &'a Edges,
    /// The import nodes, by name.
    pub imports: &'a IndexMap<String, NodeId>,
    /// The exported nodes, by export name.
    pub exports: &'a IndexMap<String, NodeId>,
    /// The registered packages, by key.
    pub package_map: &'a IndexMap<PackageKey, PackageId>,
    /// The slots of packages.
    pub slots: &'a Vec<Slot>,
    /// The free slots that may be used again, the one freed last at the end.
    pub vacant: &'a Vec<usize>,
    /// The record that `remove_node` uses to find exports.
    pub lost: &'a Lost,
}

impl<'a> Model for GraphReader<'a> {
    ghost use Rattle.wac_graph_model.specs.nodes.Graph.{Graph};
    ghost use Rattle.std.specs.Coded.{codes};
    ghost use Rattle.std.specs.FinMap as map;
    ghost use Rattle.wac_graph_fields.specs.private.Fields.{graph_of, Invariant};
    ghost use Rattle.wac_graph_reader.specs.private.reading.Inside.{fields_of};

    ghost Value = { Graph };

    ghost coded = { Prim.hlevel (codes, map.code) };

    ghost view = { λ s. graph_of (fields_of s) };

    ghost invariant = { λ s. Invariant (fields_of s) };
}

impl<'a> GraphReader<'a> {
    /// Proves the invariant of graphs (docs/PROOFS.md, 'Laws').
    pub fn law(&self)
        ensures { IsSound self.now }
    {
        let _ = &self.edges;
    }
}
