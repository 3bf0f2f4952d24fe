//! Removing nodes and packages.
ghost use Rattle.std.specs.Prelude.{IsSome};
ghost use Rattle.wac_graph_model.specs.nodes.Graph.{node_at, package_at};
ghost use Rattle.wac_graph_fields.specs.Removal.{Removes};
ghost use Rattle.wac_graph_fields.specs.Unregistering.{Unregisters};
ghost use Rattle.wac_graph_fields.specs.private.Taking.{AreLeft};

use crate::graph::CompositionGraph;
use indexmap::IndexMap;
use wac_graph_fields::{take_lost, take_nodes, take_owned, take_owned_exports, take_package};
use wac_graph_model::{NodeId, NodeKind, PackageId};

impl CompositionGraph {
    /// Removes a node and all that depends on it: its aliases, its dependent definitions, and what depends on these.
    ///
    /// Their edges and names go with them, so imports whose argument is removed become unsatisfied again.
    /// Their exports are removed from the last to the first. Each time, the graph's last export takes the freed place.
    /// The next node that is added gets the removed node's number.
    pub fn remove_node(&mut self, node: NodeId)
        requires { IsSome (node_at self.old node) }
        ensures { Removes self.old node self.new }
    {
        self.lost.clear();
        let removed = take_nodes(
            &mut self.nodes,
            &mut self.edges,
            &self.exports,
            &mut self.lost,
            node,
        );
        take_import(&mut self.imports, removed.kind());
        take_lost(&mut self.exports, &self.nodes, &mut self.lost);
    }

    /// Unregisters a package and removes its nodes: its instances and the aliases that have it as their package.
    ///
    /// Their edges, names and exports go with them, and the other exports keep their order.
    /// The id is never valid again. The next package that is registered uses the same slot under a new id.
    /// If a node is removed, the next node that is added gets the highest removed number.
    pub fn unregister_package(&mut self, package: PackageId)
        requires { IsSome (package_at self.old «package») }
        ensures { Unregisters self.old «package» self.new }
    {
        take_owned_exports(&mut self.exports, &self.nodes, package);
        take_owned(&mut self.nodes, &mut self.edges, &mut self.lost, package);
        take_package(
            &mut self.package_map,
            &mut self.slots,
            &mut self.vacant,
            package,
        );
    }
}

/// Removes the name that a node of this kind imports.
fn take_import(imports: &mut IndexMap<String, NodeId>, kind: &NodeKind)
    ensures { AreLeft kind.now imports.old.entries imports.new.entries }
{
    if let NodeKind::Import(name) = kind {
        imports.swap_remove(name.as_str());
    }
}
