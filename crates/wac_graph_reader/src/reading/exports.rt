//! The names of exports, in written order.
ghost use Rattle.std.specs.List.{flat_map};
ghost use Rattle.std.specs.Prelude.{◌≡◌, IfOk, [], ◌∷◌, MatchOption};
ghost use Rattle.wac_graph_model.specs.causes.OuterNames.{first_name_of, written_exports};
ghost use Rattle.wac_graph_model.specs.meaning.Means.{is_first};
ghost use Rattle.wac_graph_model.specs.nodes.Nodes.{node_of};
ghost use Rattle.wac_names.specs.private.validation.Views.{texts};
ghost use Rattle.wac_graph_reader.specs.private.writing.Further.{further_at};

use crate::reading::reader::GraphReader;
use std::alloc::AllocError;
use wac_graph_model::inner::first_name;
use wac_graph_model::{Node, NodeId};

impl<'a> GraphReader<'a> {
    /// Returns the names of all exports: the first names of these nodes' definitions, then the further ones.
    pub fn export_names(&self, order: &[NodeId]) -> Result<Vec<&'a str>, AllocError>
        ensures { IfOk result (λ names. texts names.items ≡ written_exports self.now order.now) }
    {
        let mut names = self.first_names(order)?;
        for i in 0..self.exports.len() {
            if let Some((name, _)) = self.further_export(i) {
                names.push(name)?;
            }
        }
        Ok(names)
    }

    /// Returns the first export names of the definitions among these nodes, in order.
    fn first_names(&self, order: &[NodeId]) -> Result<Vec<&'a str>, AllocError>
        ensures { IfOk result (λ names. texts names.items ≡ flat_map (first_name_of self.now) order.now) }
    {
        let mut names = Vec::new(self.alloc);
        for n in order {
            if let Some(name) = self.first_name(*n) {
                names.push(name)?;
            }
        }
        Ok(names)
    }

    /// The first export name of a definition. `None` for other nodes.
    pub(crate) fn first_name(&self, n: NodeId) -> Option<&'a str>
        ensures { MatchOption result (first_name_of self.now n ≡ []) (λ name. first_name_of self.now n ≡ name.now ∷ []) }
    {
        match self.nodes.get(n.0) {
            Some(node) => first_name(node),
            None => None,
        }
    }

    /// The name and node of the export at a position, or `None` if the name is a definition's first one.
    pub(crate) fn further_export(&self, i: usize) -> Option<(&'a str, NodeId)>
        ensures { MatchOption result (further_at self.now i ≡ []) (λ e. further_at self.now i ≡ (e.0.now, e.1) ∷ []) }
    {
        let (name, id) = self.exports.get_index(i)?;
        if is_first_name(&self.nodes[id.0], name.as_str()) {
            return None;
        }
        Some((name.as_str(), *id))
    }
}

/// Whether the name is the definition's first export name.
fn is_first_name(node: &Node, name: &str) -> bool
    ensures { result ≡ is_first (node_of node.now) name.now }
{
    match first_name(node) {
        Some(first) => name == first,
        None => false,
    }
}
