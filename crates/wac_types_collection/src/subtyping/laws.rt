//! Laws of subtyping and of the trees of types of a collection.
//!
//! Each function does nothing. Its contract is a law that a caller cites by a call (docs/PROOFS.md, 'Laws').
ghost use Rattle.wac_types_collection.specs.collection.Bound.{by_place};
ghost use Rattle.wac_types_collection.specs.collection.Collection.{IsKeptBy};
ghost use Rattle.wac_types_collection.specs.subtyping.Called.{by_binding};
ghost use Rattle.wac_types_collection.specs.subtyping.Subtype.{IsSubtype, by_name};
ghost use Rattle.wac_types_collection.specs.subtyping.TreeLaws.{IsDeepEnough, UnfoldsByParts, AliasesAgree, KeepsTrees, KeepsCalledTrees, GrowthKeepsTrees, GrowthKeepsCalledTrees};

use crate::collection::{ItemKind, Types};

/// Each item is a subtype of itself.
#[tactic(auto, using(crate::proofs::lemmas::subtyping::Relation::sub_refl))]
pub fn subtyping_is_reflexive(types: &Types, item: ItemKind)
    ensures { IsSubtype types.now item types.now item }
{
    types.law();
    let _ = item;
}

/// A subtype of a subtype is a subtype.
#[tactic(auto, using(crate::proofs::lemmas::subtyping::Relation::sub_trans))]
pub fn subtyping_is_transitive(
    at: &Types,
    a: ItemKind,
    bt: &Types,
    b: ItemKind,
    ct: &Types,
    c: ItemKind,
)
    ensures { IsSubtype at.now a bt.now b → IsSubtype bt.now b ct.now c → IsSubtype at.now a ct.now c }
{
    at.law();
    bt.law();
    ct.law();
    let _ = (a, b, c);
}

/// The tree of a type is the same at each depth above the number of items.
#[tactic(auto, using(crate::proofs::lemmas::subtyping::Trees::deep_enough))]
pub fn trees_are_whole(types: &Types)
    ensures named { IsDeepEnough by_name types.now }
    ensures placed { IsDeepEnough (by_place types.now) types.now }
    ensures bound { IsDeepEnough (by_binding types.now) types.now }
{
    types.law();
}

/// The tree of a type consists of the trees of the types that it mentions.
#[tactic(auto, using(crate::proofs::lemmas::subtyping::Unfolding::unfolded_step))]
pub fn trees_are_made_of_parts(types: &Types)
    ensures named { UnfoldsByParts by_name types.now }
    ensures placed { UnfoldsByParts (by_place types.now) types.now }
    ensures bound { UnfoldsByParts (by_binding types.now) types.now }
{
    types.law();
}

/// An alias of a value type has the trees of its target.
pub fn aliases_have_the_same_tree(types: &Types)
    ensures { AliasesAgree types.now }
{
    types.law();
}

/// The trees of a collection's types do not change when an item is added.
#[tactic(auto, using(crate::proofs::lemmas::subtyping::Kept::growth_keeps))]
pub fn growth_keeps_trees(types: &Types)
    ensures { GrowthKeepsTrees types.now }
{
    types.law();
}

/// The same for trees with resources known by their bindings and names.
#[tactic(auto, using(crate::proofs::lemmas::subtyping::Kept::growth_keeps_called))]
pub fn growth_keeps_called_trees(types: &Types)
    ensures { GrowthKeepsCalledTrees types.now }
{
    types.law();
}

/// The trees of a collection's types are the same in each collection that has its items with the same ids.
pub fn kept_types_keep_their_trees(before: &Types, after: &Types)
    ensures trees { IsKeptBy before.now after.now → KeepsTrees before.now after.now }
    ensures called { IsKeptBy before.now after.now → KeepsCalledTrees before.now after.now }
{
    before.law();
    let _ = after;
}
