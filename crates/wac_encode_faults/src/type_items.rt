//! What is free in the type items of an interface: an additional import has its types only.
ghost use Rattle.std.specs.Prelude.{◌≡◌, ◌↔◌, ◌⊎◌, OnOk, Contains};
ghost use Rattle.wac_types_shapes.specs.declared.shapes.component.ResourceId.{ResourceId as Resources};
ghost use Rattle.wac_types_collection.specs.collection.Collection.{HasInterface};
ghost use Rattle.wac_types_collection.specs.private.reach.Found.{with_all};
ghost use Rattle.wac_types_collection.specs.wide.Wide.{with_each};
ghost use Rattle.wac_encode_faults.specs.Free.{IsFreeInTypes};
ghost use Rattle.wac_encode_faults.specs.private.Binding.{other_of_item, others_alone, interface_of_item, interfaces_alone, IsFreeInTypeItems};
ghost use Rattle.wac_encode_faults.specs.private.Search.{AreHeld};
ghost use Rattle.wac_encode_faults.specs.private.Sets.{IsFreeInOne};

use crate::free::add_set;
use crate::order::add_interface;
use crate::own::remove_own;
use crate::parts::add_all_parts;
use crate::resources::{add_other, add_resources};
use crate::unbound::add_free_of_interfaces;
use indexmap::IndexSet;
use std::alloc::AllocError;
use wac_types_collection::{InterfaceId, ItemKind, Named, ResourceId, Type, Types};

/// Adds the type of a type item, if it is no interface.
fn add_other_of(found: &mut IndexSet<Type>, item: ItemKind) -> Result<(), AllocError>
    ensures { OnOk result (found.new.keys ≡ with_all found.old.keys (other_of_item item)) }
{
    match item {
        ItemKind::TypeItem(ty) => add_other(found, ty),
        _ => Ok(()),
    }
}

/// Adds the types of the type items that are no interfaces.
fn add_others_alone(found: &mut IndexSet<Type>, items: &Named<ItemKind>) -> Result<(), AllocError>
    ensures { OnOk result (found.new.keys ≡ with_all found.old.keys (others_alone items.now)) }
{
    for i in 0..items.len() {
        add_other_of(found, *items.value_at(i))?;
    }
    Ok(())
}

/// Adds the type of a type item, if it is an interface.
fn add_interface_of(found: &mut IndexSet<InterfaceId>, item: ItemKind) -> Result<(), AllocError>
    ensures { OnOk result (found.new.keys ≡ with_each found.old.keys (interface_of_item item)) }
{
    match item {
        ItemKind::TypeItem(ty) => add_interface(found, ty),
        _ => Ok(()),
    }
}

/// Adds the types of the type items that are interfaces.
fn add_interfaces_alone(
    found: &mut IndexSet<InterfaceId>,
    items: &Named<ItemKind>,
) -> Result<(), AllocError>
    ensures { OnOk result (found.new.keys ≡ with_each found.old.keys (interfaces_alone items.now)) }
{
    for i in 0..items.len() {
        add_interface_of(found, *items.value_at(i))?;
    }
    Ok(())
}

/// Adds the resources that are free in the types of the type items, those aside that are interfaces.
fn add_free_of_others_alone(
    resources: &mut IndexSet<ResourceId>,
    types: &Types,
    items: &Named<ItemKind>,
) -> Result<(), AllocError>
    requires { AreHeld types.now items.now }
    ensures { OnOk result ((r : Resources) → Contains resources.new.keys r ↔ (Contains resources.old.keys r ⊎ IsFreeInOne types.now (others_alone items.now) r)) }
{
    let mut found = IndexSet::new(types.allocator());
    add_others_alone(&mut found, items)?;
    add_all_parts(&mut found, types, 0)?;
    add_resources(resources, types, found.as_slice())
}

/// Adds the resources that are free in the types of the type items.
fn add_free_of_type_items(
    found: &mut IndexSet<ResourceId>,
    types: &Types,
    items: &Named<ItemKind>,
) -> Result<(), AllocError>
    requires { AreHeld types.now items.now }
    ensures { OnOk result ((r : Resources) → Contains found.new.keys r ↔ (Contains found.old.keys r ⊎ IsFreeInTypeItems types.now items.now r)) }
{
    add_free_of_others_alone(found, types, items)?;
    let mut interfaces = IndexSet::new(types.allocator());
    add_interfaces_alone(&mut interfaces, items)?;
    add_free_of_interfaces(found, types, &interfaces)
}

/// Adds the resources that are free in an instance of an interface with its types only.
///
/// # Errors
/// - `AllocError` if out of memory.
pub(crate) fn add_free_in_types(
    found: &mut IndexSet<ResourceId>,
    types: &Types,
    id: InterfaceId,
) -> Result<(), AllocError>
    requires { HasInterface types.now id }
    ensures { OnOk result ((r : Resources) → Contains found.new.keys r ↔ (Contains found.old.keys r ⊎ IsFreeInTypes types.now id r)) }
{
    types.law();
    let interface = &types[id];
    let mut inner = IndexSet::new(types.allocator());
    add_free_of_type_items(&mut inner, types, &interface.exports)?;
    remove_own(&mut inner, types, interface);
    add_set(found, inner)
}
