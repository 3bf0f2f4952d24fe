//! What interfaces use widely: what they use themselves, and what the instances that they export use widely.
ghost use Rattle.std.specs.Prelude.{◌≡◌, ◌++◌, ◌∷◌, [], true, false, reverse, IfOk, OnOk};
ghost use Rattle.std.specs.List.{flat_map, IsDistinct};
ghost use Rattle.wac_types_shapes.specs.contracts.shapes.component.InterfaceIdPartialEq.TheImpl as IdEq;
ghost use Rattle.wac_types_collection.specs.collection.Collection.{HasInterface, interface_exports};
ghost use Rattle.wac_types_collection.specs.wide.Wide.{AreThere, used_interfaces, interface_uses, instance_of, instances_of, is_among, wide_uses as wide_uses_of, wide_uses_of_items as wide_uses_of_all, with_each, each_once};
ghost use Rattle.wac_types_collection.specs.private.wide.WideWalk.{AreWhole};

use crate::collection::{InterfaceId, ItemKind, Named, Types, UsedType};
use indexmap::IndexSet;
use std::alloc::AllocError;

/// Adds the interfaces from which types are used, each once.
///
/// # Errors
/// - `AllocError` if out of memory; then some of the interfaces may be added.
pub fn add_used(used: &mut IndexSet<InterfaceId>, uses: &Named<UsedType>) -> Result<(), AllocError>
    ensures { OnOk result (used.new.keys ≡ with_each used.old.keys (used_interfaces uses.now)) }
{
    for i in 0..uses.len() {
        used.insert(uses.value_at(i).interface)?;
    }
    Ok(())
}

/// Appends the interface of an instance.
fn push_instance(pending: &mut Vec<InterfaceId>, item: ItemKind) -> Result<(), AllocError>
    ensures { OnOk result (pending.new.items ≡ pending.old.items ++ instance_of item) }
{
    match item {
        ItemKind::Instance(id) => {
            pending.push(id)?;
            Ok(())
        }
        _ => Ok(()),
    }
}

/// Appends the interfaces of the instances among the items, the last first.
fn push_instances(pending: &mut Vec<InterfaceId>, items: &Named<ItemKind>) -> Result<(), AllocError>
    ensures { OnOk result (pending.new.items ≡ pending.old.items ++ reverse (instances_of items.now)) }
{
    let mut left = items.len();
    while left > 0 {
        left -= 1;
        push_instance(pending, *items.value_at(left))?;
    }
    Ok(())
}

/// Adds what an interface uses itself, and appends its instances.
fn enter(
    types: &Types,
    id: InterfaceId,
    used: &mut IndexSet<InterfaceId>,
    pending: &mut Vec<InterfaceId>,
) -> Result<(), AllocError>
    requires { HasInterface types.now id }
    ensures used { OnOk result (used.new.keys ≡ with_each used.old.keys (used_interfaces (interface_uses types.now id))) }
    ensures pending { OnOk result (pending.new.items ≡ pending.old.items ++ reverse (instances_of (interface_exports types.now id))) }
{
    let interface = &types[id];
    add_used(used, &interface.uses)?;
    push_instances(pending, &interface.exports)
}

/// Marks an interface as seen. If it was not seen before, what it uses itself is added, and its instances are appended.
fn visit(
    types: &Types,
    id: InterfaceId,
    used: &mut IndexSet<InterfaceId>,
    seen: &mut IndexSet<InterfaceId>,
    pending: &mut Vec<InterfaceId>,
) -> Result<(), AllocError>
    requires { HasInterface types.now id }
    ensures seen { OnOk result (seen.new.keys ≡ with_each seen.old.keys (id ∷ [])) }
    ensures unique { OnOk result (IsDistinct (IdEq.ghosts).eq seen.new.keys) }
    ensures known { OnOk result (is_among seen.old.keys id ≡ true → (used.new.keys ≡ used.old.keys) × (pending.new.items ≡ pending.old.items)) }
    ensures new { OnOk result (is_among seen.old.keys id ≡ false → (used.new.keys ≡ with_each used.old.keys (used_interfaces (interface_uses types.now id))) × (pending.new.items ≡ pending.old.items ++ reverse (instances_of (interface_exports types.now id)))) }
{
    if !seen.insert(id)? {
        return Ok(());
    }
    enter(types, id, used, pending)
}

/// Adds what the pending interfaces use widely, the last first, each before its instances.
///
/// `seen` are the interfaces that were visited before. Takes time linear in what is visited, without recursion.
fn walk(
    types: &Types,
    used: &mut IndexSet<InterfaceId>,
    seen: &mut IndexSet<InterfaceId>,
    pending: &mut Vec<InterfaceId>,
) -> Result<(), AllocError>
    requires whole { AreWhole types.now seen.old.keys used.old.keys }
    requires seen { AreThere types.now seen.old.keys }
    requires pending { AreThere types.now pending.old.items }
    ensures used { OnOk result (used.new.keys ≡ with_each used.old.keys (flat_map (wide_uses_of types.now) (reverse pending.old.items))) }
    ensures whole { OnOk result (AreWhole types.now seen.new.keys used.new.keys) }
    ensures seen { OnOk result (AreThere types.now seen.new.keys) }
{
    types.law();
    while let Some(id) = pending.pop() {
        visit(types, id, used, seen, pending)?;
    }
    Ok(())
}

/// Returns what an interface of the collection uses widely: its own uses, then those of each instance that it exports, in
/// order. Takes linear time, without recursion.
///
/// # Errors
/// - `AllocError` if out of memory.
pub fn wide_uses(types: &Types, id: InterfaceId) -> Result<IndexSet<InterfaceId>, AllocError>
    requires { HasInterface types.now id }
    ensures { IfOk result (λ s. s.keys ≡ each_once (wide_uses_of types.now id)) }
{
    let mut pending = Vec::new(types.allocator());
    pending.push(id)?;
    found_from(types, pending)
}

/// Returns what the instances among items of the collection use widely, in order. Takes linear time, without recursion.
///
/// # Errors
/// - `AllocError` if out of memory.
pub fn wide_uses_of_items(
    types: &Types,
    items: &Named<ItemKind>,
) -> Result<IndexSet<InterfaceId>, AllocError>
    requires { AreThere types.now (instances_of items.now) }
    ensures { IfOk result (λ s. s.keys ≡ each_once (wide_uses_of_all types.now items.now)) }
{
    let mut pending = Vec::new(types.allocator());
    push_instances(&mut pending, items)?;
    found_from(types, pending)
}

/// Returns what the pending interfaces use widely, the last first.
fn found_from(types: &Types, pending: Vec<InterfaceId>) -> Result<IndexSet<InterfaceId>, AllocError>
    requires { AreThere types.now pending.items }
    ensures { IfOk result (λ s. s.keys ≡ each_once (flat_map (wide_uses_of types.now) (reverse pending.items))) }
{
    let mut pending = pending;
    let mut used = IndexSet::new(types.allocator());
    let mut seen = IndexSet::new(types.allocator());
    walk(types, &mut used, &mut seen, &mut pending)?;
    Ok(used)
}
