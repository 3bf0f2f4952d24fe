//! The free resources of interfaces, bottom up.
//!
//! The set of an interface moves into that of the last one that lists it, and is copied into those before.
ghost use Rattle.std.specs.Prelude.{◌≡◌, ◌↔◌, ◌⊎◌, ◌+◌, ◌<◌, true, length, slice_get, Some, IfOk, OnOk, Contains};
ghost use Rattle.wac_types_shapes.specs.declared.shapes.component.InterfaceId.{InterfaceId as Interfaces};
ghost use Rattle.wac_types_shapes.specs.declared.shapes.component.ResourceId.{ResourceId as Resources};
ghost use Rattle.wac_types_collection.specs.wide.Wide.{AreThere};
ghost use Rattle.wac_encode_faults.specs.private.Order.{children, IsOrdered};
ghost use Rattle.wac_encode_faults.specs.private.Sets.{value_of, AreLast, AreSets, HasSet, IsFreeInside, IsInSet, IsInSets};

use crate::additional::interface_at;
use crate::order::{find_children, interfaces_inside};
use crate::own::remove_own;
use crate::readers::{is_needed, last_readers};
use crate::resources::add_free_of_others;
use indexmap::{IndexMap, IndexSet};
use std::alloc::AllocError;
use std::mem::replace;
use wac_types_collection::{InterfaceId, ResourceId, Types};

/// The free resources of interfaces.
pub(crate) type FreeSets = IndexMap<InterfaceId, IndexSet<ResourceId>>;

/// Adds resources.
fn add_each(found: &mut IndexSet<ResourceId>, resources: &[ResourceId]) -> Result<(), AllocError>
    ensures { OnOk result ((r : Resources) → Contains found.new.keys r ↔ (Contains found.old.keys r ⊎ Contains resources.now r)) }
{
    for i in 0..resources.len() {
        found.insert(resources[i])?;
    }
    Ok(())
}

/// Adds a set: of the two, the smaller one goes into the larger one.
pub(crate) fn add_set(
    found: &mut IndexSet<ResourceId>,
    set: IndexSet<ResourceId>,
) -> Result<(), AllocError>
    ensures { OnOk result ((r : Resources) → Contains found.new.keys r ↔ (Contains found.old.keys r ⊎ Contains set.keys r)) }
{
    let larger = found.len() < set.len();
    if larger {
        let smaller = replace(found, set);
        return add_each(found, smaller.as_slice());
    }
    add_each(found, set.as_slice())
}

/// Adds the set of an interface, if there is one.
pub(crate) fn copy_set(
    found: &mut IndexSet<ResourceId>,
    sets: &FreeSets,
    id: InterfaceId,
) -> Result<(), AllocError>
    ensures { OnOk result ((r : Resources) → Contains found.new.keys r ↔ (Contains found.old.keys r ⊎ IsInSet sets.now.entries id r)) }
{
    match sets.get(&id) {
        Some(set) => add_each(found, set.as_slice()),
        None => Ok(()),
    }
}

/// Adds the set of an interface, if there is one, and removes it from the map.
fn move_set(
    found: &mut IndexSet<ResourceId>,
    sets: &mut FreeSets,
    id: InterfaceId,
) -> Result<(), AllocError>
    ensures added { OnOk result ((r : Resources) → Contains found.new.keys r ↔ (Contains found.old.keys r ⊎ IsInSet sets.old.entries id r)) }
    ensures kept { OnOk result ((j : Interfaces) → (j ≡ id → ⊥) → value_of sets.new.entries j ≡ value_of sets.old.entries j) }
{
    match sets.swap_remove(&id) {
        Some(set) => add_set(found, set),
        None => Ok(()),
    }
}

/// Adds the set of an interface, if there is one, and removes it from the map unless it is needed further.
fn add_child(
    found: &mut IndexSet<ResourceId>,
    sets: &mut FreeSets,
    id: InterfaceId,
    needed: bool,
) -> Result<(), AllocError>
    ensures added { OnOk result ((r : Resources) → Contains found.new.keys r ↔ (Contains found.old.keys r ⊎ IsInSet sets.old.entries id r)) }
    ensures kept { OnOk result ((j : Interfaces) → (needed ≡ true) ⊎ (j ≡ id → ⊥) → value_of sets.new.entries j ≡ value_of sets.old.entries j) }
{
    if needed {
        return copy_set(found, sets, id);
    }
    move_set(found, sets, id)
}

/// Adds the sets of interfaces, and removes from the map those that are not needed after a position.
fn add_children(
    found: &mut IndexSet<ResourceId>,
    sets: &mut FreeSets,
    roots: &IndexSet<InterfaceId>,
    last: &IndexMap<InterfaceId, usize>,
    children: &IndexSet<InterfaceId>,
    position: usize,
) -> Result<(), AllocError>
    ensures added { OnOk result ((r : Resources) → Contains found.new.keys r ↔ (Contains found.old.keys r ⊎ IsInSets sets.old.entries children.now.keys r)) }
    ensures kept { OnOk result ((j : Interfaces) → Contains roots.now.keys j ⊎ (value_of last.now.entries j ≡ Some position → ⊥) → value_of sets.new.entries j ≡ value_of sets.old.entries j) }
{
    for i in 0..children.len() {
        let child = interface_at(children, i);
        let needed = is_needed(roots, last, child, position);
        add_child(found, sets, child, needed)?;
    }
    Ok(())
}

/// Returns the resources that are free in types of exports of the interface at a position, as far as these types are
/// interfaces. Their sets are removed unless they are needed further.
fn take_children(
    sets: &mut FreeSets,
    types: &Types,
    roots: &IndexSet<InterfaceId>,
    order: &IndexSet<InterfaceId>,
    last: &IndexMap<InterfaceId, usize>,
    position: usize,
) -> Result<IndexSet<ResourceId>, AllocError>
    requires there { AreThere types.now order.now.keys }
    requires sorted { IsOrdered types.now order.now.keys }
    requires last { AreLast types.now order.now.keys (length order.now.keys) last.now.entries }
    requires position { position < length order.now.keys }
    requires sets { AreSets types.now roots.now.keys order.now.keys position position sets.old.entries }
    ensures free { IfOk result (λ s. (i : Interfaces) → slice_get order.now.keys position ≡ Some i → (r : Resources) → Contains s.keys r ↔ IsFreeInside types.now (children types.now i) r) }
    ensures sets { OnOk result (AreSets types.now roots.now.keys order.now.keys position (position + 1) sets.new.entries) }
{
    let id = interface_at(order, position);
    let children = find_children(types, id)?;
    let mut found = IndexSet::new(types.allocator());
    add_children(&mut found, sets, roots, last, &children, position)?;
    Ok(found)
}

/// Puts the set of the interface at a position.
fn put_set(
    sets: &mut FreeSets,
    types: &Types,
    roots: &IndexSet<InterfaceId>,
    order: &IndexSet<InterfaceId>,
    last: &IndexMap<InterfaceId, usize>,
    position: usize,
) -> Result<(), AllocError>
    requires there { AreThere types.now order.now.keys }
    requires sorted { IsOrdered types.now order.now.keys }
    requires last { AreLast types.now order.now.keys (length order.now.keys) last.now.entries }
    requires position { position < length order.now.keys }
    requires sets { AreSets types.now roots.now.keys order.now.keys position position sets.old.entries }
    ensures { OnOk result (AreSets types.now roots.now.keys order.now.keys (position + 1) (position + 1) sets.new.entries) }
{
    types.law();
    let mut found = take_children(sets, types, roots, order, last, position)?;
    let id = interface_at(order, position);
    let interface = &types[id];
    add_free_of_others(&mut found, types, &interface.exports)?;
    remove_own(&mut found, types, interface);
    match sets.insert(id, found) {
        Ok(_) => Ok(()),
        Err(_) => Err(AllocError),
    }
}

/// Puts the sets of the interfaces that are in order.
fn put_sets(
    sets: &mut FreeSets,
    types: &Types,
    roots: &IndexSet<InterfaceId>,
    order: &IndexSet<InterfaceId>,
    last: &IndexMap<InterfaceId, usize>,
) -> Result<(), AllocError>
    requires there { AreThere types.now order.now.keys }
    requires sorted { IsOrdered types.now order.now.keys }
    requires last { AreLast types.now order.now.keys (length order.now.keys) last.now.entries }
    requires roots { (k : Interfaces) → Contains roots.now.keys k → Contains order.now.keys k }
    ensures { OnOk result ((i : Interfaces) → Contains roots.now.keys i → HasSet types.now sets.new.entries i) }
{
    for position in 0..order.len() {
        put_set(sets, types, roots, order, last, position)?;
    }
    Ok(())
}

/// Returns the free resources of each of the interfaces. Takes linear time, without recursion, but for the sizes of the
/// sets: each moves once, and is copied for each further interface that lists it.
///
/// # Errors
/// - `AllocError` if out of memory.
pub(crate) fn free_sets(
    types: &Types,
    roots: &IndexSet<InterfaceId>,
) -> Result<FreeSets, AllocError>
    requires { AreThere types.now roots.now.keys }
    ensures { IfOk result (λ sets. (i : Interfaces) → Contains roots.now.keys i → HasSet types.now sets.entries i) }
{
    let order = interfaces_inside(types, roots)?;
    let last = last_readers(types, &order)?;
    let mut sets = IndexMap::new(types.allocator());
    put_sets(&mut sets, types, roots, &order, &last)?;
    Ok(sets)
}
