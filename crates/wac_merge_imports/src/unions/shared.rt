//! Unions that share an interface of the merged collection.
//!
//! A union of one part may keep the id of that part's interface, which is then its single interface.
//! Unions with the same single interface share one merged interface, if theirs are equal.
ghost use Rattle.std.specs.Prelude.{◌≡◌, [], None, Some, cond, nat_eq, true, IfOk, OnOk};
ghost use Rattle.std.specs.List.{list_all};
ghost use Rattle.wac_types_collection.specs.collection.Collection.{HasInterface, holds_all, item_at, kind_types};
ghost use Rattle.wac_types_collection.specs.collection.Uses.{is_named_right};
ghost use Rattle.wac_types_shapes.specs.declared.shapes.component.InterfaceId.{InterfaceId as AnId};
ghost use Rattle.wac_types_collection.specs.private.subtyping.Extended.{IsExtended};
ghost use Rattle.wac_merge_imports.specs.unions.SharedUnions.{Shares, first_in};

use std::alloc::{AllocError, Global};
use std::collections::HashMap;
use wac_types_collection::subtyping::laws::growth_keeps_trees;
use wac_types_collection::{AddTypeError, Interface, InterfaceId, Types};

/// The interface of the first union of each single interface, by the id of that single interface.
#[derive(Drop)]
pub struct Shared {
    first: HashMap<InterfaceId, InterfaceId>,
}

/// Adds an interface without uses.
fn add_interface(merged: &mut Types, interface: Interface) -> Result<InterfaceId, AllocError>
    requires unused { interface.uses ≡ [] }
    requires held { holds_all merged.old (kind_types interface.exports) ≡ true }
    requires named { list_all (is_named_right merged.old []) interface.exports ≡ true }
    ensures extended { IsExtended merged.old merged.new }
    ensures added { IfOk result (λ w. item_at merged.new.interfaces w.0 ≡ Some interface) }
    ensures fresh { IfOk result (λ w. HasInterface merged.old w → ⊥) }
{
    growth_keeps_trees(merged); // proof only
    match merged.add_interface(interface) {
        Ok(id) => Ok(id),
        Err(AddTypeError::OutOfMemory) => Err(AllocError),
        Err(_) => unreachable!(),
    }
}

impl Shared {
    /// Returns a record without unions.
    pub fn new(alloc: Global) -> Shared
        ensures { (i : AnId) → first_in result i ≡ None }
    {
        Shared {
            first: HashMap::new(alloc),
        }
    }

    /// Returns the interface of the first union of this single interface.
    fn first(&self, id: InterfaceId) -> Option<InterfaceId>
        ensures { result ≡ first_in self.now id }
    {
        self.first.get(&id).copied()
    }

    /// Records the interface of the first union of a single interface.
    fn put(&mut self, id: InterfaceId, became: InterfaceId) -> Result<(), AllocError>
        ensures { OnOk result ((i : AnId) → first_in self.new i ≡ cond (nat_eq id.0 i.0) (Some became) (first_in self.old i)) }
    {
        match self.first.insert(id, became) {
            Ok(_) => Ok(()),
            Err(_) => Err(AllocError),
        }
    }

    /// Returns the id of a union's interface in the merged collection. `alone` is the single interface of the union, if
    /// it has one.
    ///
    /// If the first union of `alone` has an equal interface, that one is shared. Otherwise the interface is added.
    ///
    /// # Errors
    /// - [`AllocError`] if out of memory.
    pub fn write(
        &mut self,
        merged: &mut Types,
        alone: Option<InterfaceId>,
        interface: Interface,
    ) -> Result<InterfaceId, AllocError>
        requires unused { interface.uses ≡ [] }
        requires held { holds_all merged.old (kind_types interface.exports) ≡ true }
        requires named { list_all (is_named_right merged.old []) interface.exports ≡ true }
        requires there { (i v : AnId) → first_in self.old i ≡ Some v → HasInterface merged.old v }
        ensures extended { IsExtended merged.old merged.new }
        ensures added { IfOk result (λ w. item_at merged.new.interfaces w.0 ≡ Some interface) }
        ensures shared { IfOk result (Shares (λ i. alone ≡ Some i) merged.old merged.new (first_in self.old) (first_in self.new)) }
    {
        let Some(source) = alone else {
            return add_interface(merged, interface);
        };
        let Some(first) = self.first(source) else {
            let id = add_interface(merged, interface)?;
            self.put(source, id)?;
            return Ok(id);
        };
        if merged[first] == interface {
            return Ok(first);
        }
        add_interface(merged, interface)
    }
}
