//! The implicit and explicit imports of a graph.
ghost use Rattle.std.specs.Prelude.{◌≡◌, ◌<◌, ◌-◌, ◌+◌, ◌∷◌, [], IfSome, MatchOption, Some, None};
ghost use Rattle.wac_edges.specs.Edge.{node_number};
ghost use Rattle.wac_graph_model.specs.nodes.Imports.{asked_rows};
ghost use Rattle.wac_graph_fields.specs.private.ImportsLeft.{instantiations_left, nodes_left};

use crate::graph::CompositionGraph;
use std::marker::Model;
use wac_graph_model::NodeId;
use wac_types::ItemKind;

/// An iterator over the imports of a graph: name, type, and the node of an explicit import.
///
/// It is returned by [`CompositionGraph::imports`].
#[derive(Drop)]
pub struct Imports<'a> {
    graph: &'a CompositionGraph,
    // The number of the next instantiation, and the position of its next import.
    number: usize,
    position: usize,
    // The number of the next import node.
    node: usize,
    // A number greater than every node's number.
    end: usize,
}

impl<'a> Model for Imports<'a> {
    ghost use Rattle.std.specs.Prelude.{List, Option};
    ghost use Rattle.wac_types_shapes.specs.primitives.Name.{Name};
    ghost use Rattle.wac_types_shapes.specs.declared.shapes.component.ItemKind.{ItemKind};
    ghost use Rattle.wac_edges.specs.declared.node.NodeId.{NodeId};
    ghost use Rattle.wac_graph_fields.specs.private.ImportsLeft.{left};

    ghost Value = { List (Name × ItemKind × Option NodeId) };

    ghost view = { λ s. left s.graph.now s.number s.position s.node s.end };
}

impl<'a> Iterator for Imports<'a> {
    type Item = (&'a str, ItemKind, Option<NodeId>);

    ghost use Rattle.std.specs.Iterator.{YieldsFirstBy, item_count};

    ghost next_gives = { YieldsFirstBy (λ x. (x.0.now, x.1, x.2)) (λ s. s) };

    ghost remaining = { item_count (λ s. s) };

    fn next(&mut self) -> Option<(&'a str, ItemKind, Option<NodeId>)> {
        let graph = self.graph;
        if let Some((number, position, name, kind)) = graph.next_unset(
            self.number,
            self.position,
            self.end,
        ) {
            self.number = number;
            self.position = position;
            return Some((name, kind, None));
        }
        self.number = self.end;
        let Some((number, name, kind)) = graph.next_import_node(self.node, self.end) else {
            self.node = self.end;
            return None;
        };
        self.node = number + 1;
        Some((name, kind, Some(NodeId(number))))
    }
}

impl CompositionGraph {
    /// The graph's imports: first the implicit ones, then the explicit ones. They are not merged.
    ///
    /// - The implicit imports are the unsatisfied imports of instantiations, by node number and world order.
    ///   They come without a node.
    /// - The explicit imports are the import nodes, by node number, each with its id.
    pub fn imports(&self) -> Imports<'_>
        ensures { result ≡ asked_rows self.now }
    {
        Imports {
            graph: self,
            number: 0,
            position: 0,
            node: 0,
            end: self.nodes.capacity(),
        }
    }

    /// The first unsatisfied import of instantiations `number..end`, from `position` on for the first of them.
    ///
    /// Returns the instantiation, the next position, the name and the type.
    fn next_unset(
        &self,
        number: usize,
        position: usize,
        end: usize,
    ) -> Option<(usize, usize, &str, ItemKind)>
        ensures { MatchOption result (instantiations_left self.now number position (end - number) ≡ []) (λ r. instantiations_left self.now number position (end - number) ≡ (r.2.now, r.3, None) ∷ instantiations_left self.now r.0 r.1 (end - r.0)) }
    {
        let mut from = position;
        for n in number..end {
            if let Some((behind, name, kind)) = self.unset_at(n, from) {
                return Some((n, behind, name, kind));
            }
            from = 0;
        }
        None
    }

    /// The first import node in `from..end`: its number, name and type.
    fn next_import_node(&self, from: usize, end: usize) -> Option<(usize, &str, ItemKind)>
        ensures below { IfSome result (λ r. r.0 < end) }
        ensures first { MatchOption result (nodes_left self.now from (end - from) ≡ []) (λ r. nodes_left self.now from (end - from) ≡ (r.1.now, r.2, Some (node_number r.0)) ∷ nodes_left self.now (r.0 + 1) (end - (r.0 + 1))) }
    {
        for n in from..end {
            if let Some((name, kind)) = self.import_node_at(n) {
                return Some((n, name, kind));
            }
        }
        None
    }
}
