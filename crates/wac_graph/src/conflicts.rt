//! Unsatisfied imports that have the name of an import node.
ghost use Rattle.std.specs.Prelude.{◌≡◌, ◌<◌, ℕ, OnOk, IfOk, IfErr, IfSome, IfNone, Some, length};
ghost use Rattle.wac_types_shapes.specs.primitives.Name.{Name as AName};
ghost use Rattle.wac_types_shapes.specs.keys.Key.{Key};
ghost use Rattle.wac_graph_model.specs.causes.Cause.{IsConflict, IsFirstConflict, HasNoConflict, cause_of, conflict as conflict_cause};
ghost use Rattle.wac_graph_model.specs.private.causes.Search.{Clashes, IsFirstOf, IsLowest, IsRefused};
ghost use Rattle.wac_edges.specs.Edge.{node_number};
ghost use Rattle.wac_graph_model.specs.nodes.Nodes.{names_of, has_position};
ghost use Rattle.wac_edges.specs.Order.{IsAcyclic};
ghost use Rattle.wac_graph_model.specs.declared.nodes.options.EncodeOptions.{EncodeOptions as Asked};
ghost use Rattle.wac_edges.specs.declared.node.NodeId.{NodeId as AnId};

use crate::graph::CompositionGraph;
use indexmap::IndexMap;
use std::alloc::AllocError;
use std::collections::HashSet;
use wac_graph_model::{EncodeError, NodeId, NodeKind};
use wac_types::{ItemKind, Named};

impl CompositionGraph {
    /// Checks that no unsatisfied import has the name of an import node. Reports the first one.
    pub(crate) fn check_conflicts(&self) -> Result<(), EncodeError>
        requires { IsAcyclic self.now.edges }
        ensures none { OnOk result (HasNoConflict self.now) }
        ensures refused { IfErr result (λ e. (o : Asked) → IsRefused self.now o e) }
    {
        if self.imports.is_empty() {
            return Ok(());
        }
        for n in 0..self.nodes.capacity() {
            if let Some((position, import)) = self.conflict_at(n) {
                return Err(self.conflict(n, position, import)?);
            }
        }
        Ok(())
    }

    /// The position of a node's first import that has the name of an import node, and that node.
    fn conflict_at(&self, n: usize) -> Option<(usize, NodeId)>
        ensures some { IfSome result (λ c. IsFirstOf self.now (node_number n) c.0 c.1) }
        ensures none { IfNone result ((import : AnId) (i : ℕ) (name : AName) → IsConflict self.now import (node_number n) i name → ⊥) }
    {
        let node = self.nodes.get(n)?;
        let NodeKind::Instantiation(satisfied) = node.kind() else {
            return None;
        };
        first_clash(satisfied, self.imports_at(n), &self.imports)
    }

    /// Returns the error for a conflict.
    fn conflict(&self, n: usize, position: usize, import: NodeId) -> Result<EncodeError, AllocError>
        requires first { IsFirstOf self.now (node_number n) position import }
        requires lowest { IsLowest self.now n }
        ensures { IfOk result (λ e. (key : Key) × (name : AName) × (cause_of e ≡ Some (conflict_cause import (node_number n) key name)) × IsFirstConflict self.now import (node_number n) key name) }
    {
        let (_, package) = self.package_of(n);
        let package = package.key()?;
        let name = String::from_str(self.alloc, self.imports_at(n).name_at(position))?;
        Ok(EncodeError::ImplicitImportConflict {
            import,
            instantiation: NodeId(n),
            package,
            name,
        })
    }
}

/// The first import that is not in the set and has the name of an import node: its position and the node.
fn first_clash(
    satisfied: &HashSet<usize>,
    imports: &Named<ItemKind>,
    nodes: &IndexMap<String, NodeId>,
) -> Option<(usize, NodeId)>
    ensures some { IfSome result (λ c. Clashes (has_position satisfied.now) imports.now (names_of nodes.now.entries) c.0 c.1) }
    ensures first { IfSome result (λ c. (i : ℕ) (node : AnId) → i < c.0 → Clashes (has_position satisfied.now) imports.now (names_of nodes.now.entries) i node → ⊥) }
    ensures none { IfNone result ((i : ℕ) (node : AnId) → Clashes (has_position satisfied.now) imports.now (names_of nodes.now.entries) i node → ⊥) }
{
    if nodes.is_empty() {
        return None;
    }
    for i in 0..imports.len() {
        if let Some(node) = clash_at(satisfied, imports, nodes, i) {
            return Some((i, node));
        }
    }
    None
}

/// The import node with the name of the import at this position, if the position is not in the set.
fn clash_at(
    satisfied: &HashSet<usize>,
    imports: &Named<ItemKind>,
    nodes: &IndexMap<String, NodeId>,
    i: usize,
) -> Option<NodeId>
    requires { i < length imports.now }
    ensures some { IfSome result (λ node. Clashes (has_position satisfied.now) imports.now (names_of nodes.now.entries) i node) }
    ensures none { IfNone result ((node : AnId) → Clashes (has_position satisfied.now) imports.now (names_of nodes.now.entries) i node → ⊥) }
{
    if satisfied.contains(&i) {
        return None;
    }
    nodes.get(imports.name_at(i)).copied()
}
