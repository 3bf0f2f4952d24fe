//! The arguments of an instantiation.
ghost use Rattle.std.specs.Prelude.{◌≡◌, ◌∷◌, [], MatchOption};
ghost use Rattle.wac_graph.specs.Listed.{AreArguments, instance_imports};
ghost use Rattle.wac_graph.specs.private.Left.{listed_in, set_from};

use crate::graph::CompositionGraph;
use std::marker::Model;
use wac_graph_model::{NodeId, NodeKind};
use wac_types::{ItemKind, Named};

/// An iterator over the arguments of an instantiation.
///
/// It is returned by [`CompositionGraph::get_instantiation_arguments`].
#[derive(Drop)]
pub struct Arguments<'a> {
    graph: &'a CompositionGraph,
    instantiation: NodeId,
    // The imports of the world, or `None` if the node is not an instantiation.
    imports: Option<&'a Named<ItemKind>>,
    // The position of the next import.
    position: usize,
}

impl<'a> Model for Arguments<'a> {
    ghost use Rattle.std.specs.Prelude.{List};
    ghost use Rattle.wac_types_shapes.specs.primitives.Name.{Name};
    ghost use Rattle.wac_edges.specs.declared.node.NodeId.{NodeId};
    ghost use Rattle.wac_graph.specs.private.Left.{arguments_left};

    ghost Value = { List (Name × NodeId) };

    ghost view = { λ s. arguments_left s.graph.now s.instantiation s.imports s.position };
}

impl<'a> Iterator for Arguments<'a> {
    type Item = (&'a str, NodeId);

    ghost use Rattle.std.specs.Iterator.{YieldsFirstBy, item_count};

    ghost next_gives = { YieldsFirstBy (λ x. (x.0.now, x.1)) (λ s. s) };

    ghost remaining = { item_count (λ s. s) };

    fn next(&mut self) -> Option<(&'a str, NodeId)> {
        let graph = self.graph;
        let imports = self.imports?;
        let Some((behind, name, node)) = graph.next_argument(
            self.instantiation,
            imports,
            self.position,
        ) else {
            self.position = imports.len();
            return None;
        };
        self.position = behind;
        Some((name, node))
    }
}

impl CompositionGraph {
    /// The arguments of an instantiation with the names of their imports, in world order.
    ///
    /// Any id is accepted. The iterator is empty if the node is not an instantiation.
    pub fn get_instantiation_arguments(&self, id: NodeId) -> Arguments<'_>
        ensures { AreArguments self.now id result }
    {
        Arguments {
            graph: self,
            instantiation: id,
            imports: self.imports_of_node(id),
            position: 0,
        }
    }

    /// The imports of an instantiation's world. `None` for other nodes.
    fn imports_of_node(&self, id: NodeId) -> Option<&Named<ItemKind>>
        ensures { listed_in result ≡ instance_imports self.now id }
    {
        let node = self.nodes.get(id.0)?;
        let NodeKind::Instantiation(_) = node.kind() else {
            return None;
        };
        Some(self.imports_at(id.0))
    }

    /// The first import from a position on that has an argument: the next position, its name and the argument.
    fn next_argument<'a>(
        &self,
        instantiation: NodeId,
        imports: &'a Named<ItemKind>,
        from: usize,
    ) -> Option<(usize, &'a str, NodeId)>
        ensures { MatchOption result (set_from self.now instantiation imports.now from ≡ []) (λ r. set_from self.now instantiation imports.now from ≡ (r.1.now, r.2) ∷ set_from self.now instantiation imports.now r.0) }
    {
        for i in from..imports.len() {
            if let Some(node) = self.edges.argument(instantiation, i) {
                return Some((i + 1, imports.name_at(i), node));
            }
        }
        None
    }
}
