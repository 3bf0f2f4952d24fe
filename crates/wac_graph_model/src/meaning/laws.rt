//! Laws of items that mean a graph.
ghost use Rattle.std.specs.Prelude.{◌≡◌, List, Some, IsSomeAnd};
ghost use Rattle.wac_binary.specs.Items.{Item};
ghost use Rattle.wac_edges.specs.declared.node.NodeId.{NodeId};
ghost use Rattle.wac_graph_model.specs.declared.nodes.options.EncodeOptions.{EncodeOptions};
ghost use Rattle.wac_graph_model.specs.declared.nodes.packages.PackageId.{PackageId};
ghost use Rattle.wac_graph_model.specs.meaning.Means.{Means};
ghost use Rattle.wac_graph_model.specs.meaning.Once.{IsUsedOnce};
ghost use Rattle.wac_graph_model.specs.nodes.Graph.{Graph, node_at, instantiation};

/// Proves that each instantiated package is written, or imported, once.
pub fn once_law()
    ensures { (items : List Item) (g : Graph) (o : EncodeOptions) → (means : Means items g o) → (n : NodeId) (id : PackageId) → IsSomeAnd (node_at g n) (λ node. (node.kind ≡ instantiation) × (node.owner ≡ Some id)) → IsUsedOnce g means.order id }
{}
