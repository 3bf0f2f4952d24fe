//! Laws of removals from a graph, for callers that make several calls.
ghost use Rattle.std.specs.Prelude.{◌≡◌, ℕ, None, IsSome, Result};
ghost use Rattle.wac_types_collection.specs.collection.Package.{PackageParts};
ghost use Rattle.wac_edges.specs.declared.node.NodeId.{NodeId as AnId};
ghost use Rattle.wac_graph_model.specs.declared.nodes.errors.RegisterPackageError.{RegisterPackageError};
ghost use Rattle.wac_graph_model.specs.declared.nodes.packages.PackageId.{PackageId as APackageId};
ghost use Rattle.wac_graph_model.specs.nodes.Graph.{Graph, node_at, package_at, IsArgumentOf, IsUnsatisfied};
ghost use Rattle.wac_graph_model.specs.nodes.Sound.{IsSound};
ghost use Rattle.wac_graph_model.specs.nodes.Steps.{Registers};
ghost use Rattle.wac_graph_fields.specs.Removal.{GoesWith, Removes};
ghost use Rattle.wac_graph_fields.specs.Unregistering.{Unregisters, IsSpent};

/// Proves what a removal leaves.
///
/// The node and all that goes with it are gone, and other nodes are unchanged.
/// An import whose argument is gone is unsatisfied.
pub fn removal_law()
    ensures gone { (old new : Graph) (id n : AnId) → Removes old id new → GoesWith old.edges id n → node_at new n ≡ None }
    ensures stays { (old new : Graph) (id n : AnId) → Removes old id new → (GoesWith old.edges id n → ⊥) → node_at new n ≡ node_at old n }
    ensures unsatisfied { (old new : Graph) (id n consumer : AnId) (i : ℕ) → IsSound old → Removes old id new → GoesWith old.edges id n → IsArgumentOf old consumer i n → IsUnsatisfied new consumer i }
{}

/// Proves that the id of an unregistered package is never valid again.
///
/// The id is spent after `unregister_package`, and every later call keeps it spent.
pub fn unregistered_law()
    ensures spent { (old new : Graph) (id : APackageId) → IsSound old → IsSome (package_at old id) → Unregisters old id new → IsSpent new id }
    ensures invalid { (g : Graph) (id : APackageId) → IsSpent g id → package_at g id ≡ None }
    ensures registers { (old new : Graph) (id : APackageId) (p : PackageParts) (result : Result APackageId RegisterPackageError) → IsSpent old id → Registers old p result new → IsSpent new id }
    ensures unregisters { (old new : Graph) (id other : APackageId) → IsSound old → IsSome (package_at old other) → IsSpent old id → Unregisters old other new → IsSpent new id }
    ensures others { (old new : Graph) (id : APackageId) → IsSpent old id → new.slots ≡ old.slots → new.vacant ≡ old.vacant → IsSpent new id }
{}
