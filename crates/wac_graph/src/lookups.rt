//! The graph as encoding reads it.
ghost use Rattle.std.specs.Prelude.{◌≡◌, ◌∷◌, [], IsSomeAnd, IfSome, MatchOption, None, Some};
ghost use Rattle.wac_edges.specs.Edge.{node_number};
ghost use Rattle.wac_graph_fields.specs.private.ImportsLeft.{node_left};
ghost use Rattle.wac_graph_model.specs.nodes.Graph.{node_at, package_at, imports_of, instantiation};
ghost use Rattle.wac_graph_model.specs.nodes.Imports.{node_rows};

use crate::graph::CompositionGraph;
use wac_graph_encode::GraphReader;
use wac_graph_model::PackageId;
use wac_types::{ItemKind, Named, Package};

impl CompositionGraph {
    /// Borrows the fields of the graph.
    pub(crate) fn reader(&self) -> GraphReader<'_>
        ensures { result ≡ self.now }
    {
        GraphReader {
            alloc: self.alloc,
            types: &self.types,
            nodes: &self.nodes,
            edges: &self.edges,
            imports: &self.imports,
            exports: &self.exports,
            package_map: &self.package_map,
            slots: &self.slots,
            vacant: &self.vacant,
            lost: &self.lost,
        }
    }

    /// The package of an instantiation, with its id.
    pub(crate) fn package_of(&self, n: usize) -> (PackageId, &Package)
        requires { IsSomeAnd (node_at self.now (node_number n)) (λ node. node.kind ≡ instantiation) }
        ensures owner { IfSome (node_at self.now (node_number n)) (λ node. node.owner ≡ Some result.0) }
        ensures registered { package_at self.now result.0 ≡ Some result.1.now }
    {
        self.reader().package_of(n)
    }

    /// The imports of the world of an instantiation's package.
    pub(crate) fn imports_at(&self, n: usize) -> &Named<ItemKind>
        requires { IsSomeAnd (node_at self.now (node_number n)) (λ node. node.kind ≡ instantiation) }
        ensures { IfSome (node_at self.now (node_number n)) (λ node. result.now ≡ imports_of self.now node) }
    {
        self.reader().imports_at(n)
    }

    /// The name and type of the node with this number, if it is an import.
    pub(crate) fn import_node_at(&self, n: usize) -> Option<(&str, ItemKind)>
        ensures { MatchOption result (node_rows self.now n ≡ []) (λ r. node_rows self.now n ≡ (r.0.now, r.1, Some (node_number n)) ∷ []) }
    {
        self.reader().import_node_at(n)
    }

    /// The first unsatisfied import of a node from a position on: the next position, its name and its type.
    pub(crate) fn unset_at(&self, n: usize, from: usize) -> Option<(usize, &str, ItemKind)>
        ensures { MatchOption result (node_left self.now n from (node_at self.now (node_number n)) ≡ []) (λ r. node_left self.now n from (node_at self.now (node_number n)) ≡ (r.1.now, r.2, None) ∷ node_left self.now n r.0 (node_at self.now (node_number n))) }
    {
        self.reader().unset_at(n, from)
    }
}
