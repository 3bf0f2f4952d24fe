//! The sources of an instantiation's arguments.
ghost use Rattle.std.specs.Prelude.{◌≡◌, ◌≢◌, ℕ, IfOk, Some, None, length, slice_get, slice_set};
ghost use Rattle.wac_edges.specs.declared.node.NodeId.{NodeId as AnId};
ghost use Rattle.wac_edges.specs.declared.edges.Label.TheVariants as label;
ghost use Rattle.wac_edges.specs.Edge.{node_number};
ghost use Rattle.wac_graph_model.specs.nodes.Graph.{IsArgumentOf};

use crate::reading::reader::GraphReader;
use std::alloc::AllocError;
use wac_edges::edges::{Edge, End, Label};
use wac_graph_model::NodeId;

impl<'a> GraphReader<'a> {
    /// Returns the argument of each of an instantiation's first `count` imports, in one pass over its incoming edges.
    pub fn sources(&self, n: usize, count: usize) -> Result<Vec<Option<NodeId>>, AllocError>
        ensures counted { IfOk result (λ v. length v.items ≡ count) }
        ensures set { IfOk result (λ v. (i : ℕ) (source : AnId) → slice_get v.items i ≡ Some (Some source) → IsArgumentOf self.now (node_number n) i source) }
        ensures unset { IfOk result (λ v. (i : ℕ) (source : AnId) → slice_get v.items i ≡ Some None → IsArgumentOf self.now (node_number n) i source → ⊥) }
    {
        let mut sources = vec![in self.alloc; None; count]?;
        for edge in self.edges.walk(NodeId(n), End::Incoming) {
            note_source(&mut sources, edge);
        }
        Ok(sources)
    }
}

/// Stores the source of an argument edge at the argument's position.
fn note_source(sources: &mut [Option<NodeId>], edge: Edge)
    ensures argument { (i : ℕ) → edge.label ≡ label.Argument i → sources.new ≡ slice_set sources.old i (Some edge.source) }
    ensures other { ((i : ℕ) → edge.label ≢ label.Argument i) → sources.new ≡ sources.old }
{
    let Label::Argument(i) = edge.label else {
        return;
    };
    if i < sources.len() {
        sources[i] = Some(edge.source);
    }
}
