//! Laws of the trees of types of a collection, and of names.
//!
//! Each function does nothing. Its contract is a law that a caller cites by a call (docs/PROOFS.md, 'Laws').
ghost use Rattle.wac_types_collection.specs.collection.HeldTrees.{MovesWithBindings, MovesTwice, MovesNothing, TakenIsHeld, OwnIsItsEnd, FreshByOwnName, ItemsAreFound, FoundIsHeld, SameNamesAreEqual};

use crate::collection::collection::Types;

/// Changing the bindings of a tree: one change, two changes in a row, and no change.
#[tactic(auto, using(crate::proofs::lemmas::collection::Leaves::held_moves, crate::proofs::lemmas::collection::Leaves::twice_moved, crate::proofs::lemmas::collection::Leaves::unmoved))]
pub fn leaves_change()
    ensures bindings { MovesWithBindings }
    ensures twice { MovesTwice }
    ensures nothing { MovesNothing }
{}

/// The exports of an instance: their trees, the own resources of its interface, and which type exports are fresh.
#[tactic(auto, using(crate::proofs::lemmas::collection::Leaves::held_taken, crate::proofs::lemmas::collection::Leaves::own_is_end, crate::proofs::lemmas::collection::Leaves::fresh_in_interface, crate::proofs::lemmas::collection::Leaves::items_found))]
pub fn instances_are_held()
    ensures taken { TakenIsHeld }
    ensures own { OwnIsItsEnd }
    ensures fresh { FreshByOwnName }
    ensures items { ItemsAreFound }
{}

/// An id that finds an item is an id of the collection.
#[tactic(auto, using(crate::proofs::lemmas::collection::Leaves::found_is_held))]
pub fn found_is_held(types: &Types)
    ensures { FoundIsHeld types.now }
{
    types.law();
}

/// Names are the same if and only if they are equal.
#[tactic(auto, using(crate::proofs::lemmas::collection::Leaves::same_names))]
pub fn same_names_are_equal()
    ensures { SameNamesAreEqual }
{}
