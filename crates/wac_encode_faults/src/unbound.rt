//! Free resources without a binding.
ghost use Rattle.std.specs.Prelude.{◌≡◌, ◌↔◌, ◌⊎◌, ◌<◌, true, length, slice_get, Some, IfOk, OnOk, IsTrue, IsSome, Contains};
ghost use Rattle.wac_types_shapes.specs.declared.shapes.component.World.{World as Worlds};
ghost use Rattle.wac_types_shapes.specs.declared.shapes.component.ResourceId.{ResourceId as Resources};
ghost use Rattle.wac_types_shapes.specs.declared.shapes.component.«Type».TheVariants as ty_of;
ghost use Rattle.wac_types_collection.specs.collection.Collection.{holds_type, item_at};
ghost use Rattle.wac_types_collection.specs.collection.Bound.{Bindings};
ghost use Rattle.wac_types_collection.specs.wide.Wide.{AreThere};
ghost use Rattle.wac_encode_faults.specs.Free.{IsFree, IsUnbound, HasUnboundItem};
ghost use Rattle.wac_encode_faults.specs.Sides.{world_sides};
ghost use Rattle.wac_encode_faults.specs.private.Search.{AreHeld};
ghost use Rattle.wac_encode_faults.specs.private.Binding.{IsFreeInItems, HasMissing, HasUnboundIn};
ghost use Rattle.wac_encode_faults.specs.private.Sets.{IsInSets, IsFreeInside};

use crate::additional::interface_at;
use crate::bound::add_bound;
use crate::free::{FreeSets, copy_set, free_sets};
use crate::order::add_interfaces;
use crate::resources::{add_free, add_free_of_others};
use indexmap::IndexSet;
use std::alloc::AllocError;
use wac_types_collection::{InterfaceId, ItemKind, Named, ResourceId, Type, Types, WorldId};

/// Returns the resource at an index of a set.
pub(crate) fn resource_at(found: &IndexSet<ResourceId>, index: usize) -> ResourceId
    requires { index < length found.now.keys }
    ensures { slice_get found.now.keys index ≡ Some result }
{
    found.as_slice()[index]
}

/// Whether one of the resources is not bound.
pub(crate) fn has_missing(resources: &IndexSet<ResourceId>, bound: &IndexSet<ResourceId>) -> bool
    ensures { IsTrue result ↔ HasMissing bound.now.keys resources.now.keys }
{
    for i in 0..resources.len() {
        let resource = resource_at(resources, i);
        if !bound.contains(&resource) {
            return true;
        }
    }
    false
}

/// Adds the sets of the interfaces.
fn copy_sets(
    found: &mut IndexSet<ResourceId>,
    sets: &FreeSets,
    interfaces: &IndexSet<InterfaceId>,
) -> Result<(), AllocError>
    ensures { OnOk result ((r : Resources) → Contains found.new.keys r ↔ (Contains found.old.keys r ⊎ IsInSets sets.now.entries interfaces.now.keys r)) }
{
    for i in 0..interfaces.len() {
        let id = interface_at(interfaces, i);
        copy_set(found, sets, id)?;
    }
    Ok(())
}

/// Adds the free resources of interfaces.
pub(crate) fn add_free_of_interfaces(
    found: &mut IndexSet<ResourceId>,
    types: &Types,
    interfaces: &IndexSet<InterfaceId>,
) -> Result<(), AllocError>
    requires { AreThere types.now interfaces.now.keys }
    ensures { OnOk result ((r : Resources) → Contains found.new.keys r ↔ (Contains found.old.keys r ⊎ IsFreeInside types.now interfaces.now.keys r)) }
{
    let sets = free_sets(types, interfaces)?;
    copy_sets(found, &sets, interfaces)
}

/// Adds the resources that are free in items.
pub(crate) fn add_free_of_items(
    found: &mut IndexSet<ResourceId>,
    types: &Types,
    items: &Named<ItemKind>,
) -> Result<(), AllocError>
    requires { AreHeld types.now items.now }
    ensures { OnOk result ((r : Resources) → Contains found.new.keys r ↔ (Contains found.old.keys r ⊎ IsFreeInItems types.now items.now r)) }
{
    types.law(); // proof only
    if types.holds_no_resource() {
        return Ok(());
    }
    add_free_of_others(found, types, items)?;
    let mut interfaces = IndexSet::new(types.allocator());
    add_interfaces(&mut interfaces, items)?;
    add_free_of_interfaces(found, types, &interfaces)
}

/// Adds the free resources of a type of the collection.
pub(crate) fn add_free_of_type(
    found: &mut IndexSet<ResourceId>,
    types: &Types,
    ty: Type,
) -> Result<(), AllocError>
    requires { holds_type types.now ty ≡ true }
    ensures { OnOk result ((r : Resources) → Contains found.new.keys r ↔ (Contains found.old.keys r ⊎ IsFree types.now ty r)) }
{
    types.law(); // proof only
    if types.holds_no_resource() {
        return Ok(());
    }
    let Type::Interface(id) = ty else {
        return add_free(found, types, ty);
    };
    let mut interfaces = IndexSet::new(types.allocator());
    interfaces.insert(id)?;
    add_free_of_interfaces(found, types, &interfaces)
}

/// Whether a free resource of a type of the collection has no binding, where these are the resources that are bound.
/// Takes linear time but for the sizes of sets, without recursion.
///
/// # Errors
/// - `AllocError` if out of memory.
pub(crate) fn is_unbound(
    types: &Types,
    ty: Type,
    bound: &IndexSet<ResourceId>,
) -> Result<bool, AllocError>
    requires { holds_type types.now ty ≡ true }
    ensures { IfOk result (λ b. (root : Bindings) → ((r : Resources) → Contains bound.now.keys r ↔ IsSome (root r)) → IsTrue b ↔ IsUnbound types.now root ty) }
{
    let mut free = IndexSet::new(types.allocator());
    add_free_of_type(&mut free, types, ty)?;
    Ok(has_missing(&free, bound))
}

/// Whether a resource that is free in the items is not bound.
pub(crate) fn have_unbound(
    types: &Types,
    items: &Named<ItemKind>,
    bound: &IndexSet<ResourceId>,
) -> Result<bool, AllocError>
    requires { AreHeld types.now items.now }
    ensures { IfOk result (λ b. IsTrue b ↔ HasUnboundIn types.now items.now bound.now.keys) }
{
    let mut free = IndexSet::new(types.allocator());
    add_free_of_items(&mut free, types, items)?;
    Ok(has_missing(&free, bound))
}

/// Whether a free resource of an import or export of a world has no binding on its side. Takes linear time but for the
/// sizes of sets, without recursion.
///
/// # Errors
/// - `AllocError` if out of memory.
pub(crate) fn has_unbound_item(types: &Types, id: WorldId) -> Result<bool, AllocError>
    requires { holds_type types.now (ty_of.World id) ≡ true }
    ensures { IfOk result (λ b. (x : Worlds) → item_at types.now.worlds id.0 ≡ Some x → IsTrue b ↔ HasUnboundItem types.now (world_sides x)) }
{
    types.law();
    let world = &types[id];
    let mut bound = IndexSet::new(types.allocator());
    add_bound(&mut bound, types, &world.uses, &world.imports)?;
    if have_unbound(types, &world.imports, &bound)? {
        return Ok(true);
    }
    add_bound(&mut bound, types, &world.uses, &world.exports)?;
    have_unbound(types, &world.exports, &bound)
}
