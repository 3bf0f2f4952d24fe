//! Which worlds use interfaces that they do not list.
ghost use Rattle.std.specs.Prelude.{◌≡◌, ◌↔◌, true, IfOk, OnOk, IsTrue};
ghost use Rattle.wac_types_collection.specs.collection.Collection.{holds_type};
ghost use Rattle.wac_types_shapes.specs.declared.shapes.component.«Type».TheVariants as ty;
ghost use Rattle.wac_types_shapes.specs.shapes.Kinds.{kind_type};
ghost use Rattle.wac_types_collection.specs.wide.Wide.{with_each, wide_uses_of_items as wide_uses_of_all};
ghost use Rattle.wac_encode_faults.specs.Sides.{listed_interface, listed_interfaces};
ghost use Rattle.wac_encode_faults.specs.Faults.{HasUnlisted};
ghost use Rattle.wac_encode_faults.specs.private.Search.{AreHeld, IsIdOf, UsesOther, HasOther};

use crate::additional::interface_at;
use indexmap::IndexSet;
use std::alloc::AllocError;
use wac_types_collection::wide::wide_uses_of_items;
use wac_types_collection::{InterfaceId, ItemKind, Named, Types, UsedType, WorldId};

/// Whether an interface has this id.
pub(crate) fn has_id(types: &Types, id: InterfaceId, name: &str) -> bool
    requires { holds_type types.now (ty.Interface id) ≡ true }
    ensures { IsTrue result ↔ IsIdOf types.now name.now id }
{
    match &types[id].id {
        Some(text) => text.as_str() == name,
        None => false,
    }
}

/// Adds the interface of an item, if the item is an instance under its interface's id.
pub(crate) fn add_item(
    listed: &mut IndexSet<InterfaceId>,
    types: &Types,
    name: &str,
    item: ItemKind,
) -> Result<(), AllocError>
    requires { holds_type types.now (kind_type item) ≡ true }
    ensures { OnOk result (listed.new.keys ≡ with_each listed.old.keys (listed_interface types.now (name.now, item))) }
{
    let ItemKind::Instance(id) = item else {
        return Ok(());
    };
    if !has_id(types, id, name) {
        return Ok(());
    }
    listed.insert(id)?;
    Ok(())
}

/// Adds the interfaces of the items that are instances under their interface's id.
pub(crate) fn add_listed(
    listed: &mut IndexSet<InterfaceId>,
    types: &Types,
    items: &Named<ItemKind>,
) -> Result<(), AllocError>
    requires { AreHeld types.now items.now }
    ensures { OnOk result (listed.new.keys ≡ with_each listed.old.keys (listed_interfaces types.now items.now)) }
{
    for i in 0..items.len() {
        let (name, item) = items.entry_at(i);
        add_item(listed, types, name, *item)?;
    }
    Ok(())
}

/// Whether one of the types is used from an interface that is not among these.
fn uses_other(uses: &Named<UsedType>, listed: &IndexSet<InterfaceId>) -> bool
    ensures { IsTrue result ↔ UsesOther listed.now.keys uses.now }
{
    for i in 0..uses.len() {
        if !listed.contains(&uses.value_at(i).interface) {
            return true;
        }
    }
    false
}

/// Whether one of the interfaces is not among these.
fn has_other(interfaces: &IndexSet<InterfaceId>, listed: &IndexSet<InterfaceId>) -> bool
    ensures { IsTrue result ↔ HasOther listed.now.keys interfaces.now.keys }
{
    for i in 0..interfaces.len() {
        let id = interface_at(interfaces, i);
        if !listed.contains(&id) {
            return true;
        }
    }
    false
}

/// Whether an instance among the items uses an interface widely that is not among these.
fn items_use_other(
    types: &Types,
    items: &Named<ItemKind>,
    listed: &IndexSet<InterfaceId>,
) -> Result<bool, AllocError>
    requires { AreHeld types.now items.now }
    ensures { IfOk result (λ b. IsTrue b ↔ HasOther listed.now.keys (wide_uses_of_all types.now items.now)) }
{
    let used = wide_uses_of_items(types, items)?;
    Ok(has_other(&used, listed))
}

/// Whether a world of the collection has an unlisted dependency. Takes time linear in the world and in what its imports
/// and exports list, without recursion.
///
/// # Errors
/// - `AllocError` if out of memory.
pub(crate) fn has_unlisted(types: &Types, id: WorldId) -> Result<bool, AllocError>
    requires { holds_type types.now (ty.World id) ≡ true }
    ensures { IfOk result (λ b. IsTrue b ↔ HasUnlisted types.now id) }
{
    types.law();
    let world = &types[id];
    let mut listed = IndexSet::new(types.allocator());
    add_listed(&mut listed, types, &world.imports)?;
    if uses_other(&world.uses, &listed) {
        return Ok(true);
    }
    if items_use_other(types, &world.imports, &listed)? {
        return Ok(true);
    }
    add_listed(&mut listed, types, &world.exports)?;
    items_use_other(types, &world.exports, &listed)
}
