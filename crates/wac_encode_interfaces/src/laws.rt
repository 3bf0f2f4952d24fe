//! Laws of the trees of interfaces and component types, and of items without a fault.
//!
//! Each function does nothing. Its contract is a law that a caller cites by a call (docs/PROOFS.md, 'Laws').
ghost use Rattle.wac_encode_interfaces.specs.private.Clean.{IsDefinitionOfNoFault, IsImportOfNoFault};
ghost use Rattle.wac_encode_interfaces.specs.private.FreeTrees.{TreesByFree};
ghost use Rattle.wac_encode_interfaces.specs.private.Leaves.{LeavesByFree};
ghost use Rattle.wac_encode_interfaces.specs.private.WorldTrees.{IsTreeOfItsSides};

/// The tree of a world is the tree of the component type with its sides.
#[tactic(auto, using(crate::proofs::WorldSides::world_tree_of_sides))]
pub fn world_law()
    ensures { IsTreeOfItsSides }
{}

/// An item without a fault as an import of the root can be imported there.
pub fn import_law()
    ensures { IsImportOfNoFault }
{}

/// The type of an item without a fault as a definition can be defined.
pub fn definition_law()
    ensures { IsDefinitionOfNoFault }
{}

/// A type has a tree under bindings if and only if they have each of its free resources, on which the tree depends alone.
pub fn free_law()
    ensures { TreesByFree }
{}

/// The free resources of a type are those to which the recursion of its tree gives no leaf when nothing outside is bound.
#[tactic(auto, using(crate::proofs::Leaves::leaves_by_free))]
pub fn leaf_law()
    ensures { LeavesByFree }
{}
