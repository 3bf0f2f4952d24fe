//! The resources that imports and exports bind.
ghost use Rattle.std.specs.Prelude.{◌≡◌, ◌↔◌, ◌⊎◌, [], true, Some, IsSome, OnOk, Contains};
ghost use Rattle.wac_types_shapes.specs.primitives.Tree.{Side};
ghost use Rattle.wac_types_shapes.specs.shapes.Kinds.{kind_type};
ghost use Rattle.wac_types_shapes.specs.declared.shapes.component.ItemKind.TheVariants as kind;
ghost use Rattle.wac_types_shapes.specs.declared.shapes.component.ResourceId.{ResourceId as Resources};
ghost use Rattle.wac_types_shapes.specs.declared.shapes.component.«Type».TheVariants as ty_of;
ghost use Rattle.wac_types_collection.specs.collection.Collection.{holds_type};
ghost use Rattle.wac_types_collection.specs.collection.Bound.{own_name};
ghost use Rattle.wac_encode_faults.specs.private.Search.{AreHeld};
ghost use Rattle.wac_encode_faults.specs.private.Binding.{Binds, BindsOne};

use crate::own::own_resource;
use crate::unlisted::has_id;
use indexmap::IndexSet;
use std::alloc::AllocError;
use wac_types_collection::{Interface, InterfaceId, ItemKind, Named, ResourceId, Types, UsedType};

/// Adds a resource.
fn insert_one(found: &mut IndexSet<ResourceId>, resource: ResourceId) -> Result<(), AllocError>
    ensures { OnOk result ((r : Resources) → Contains found.new.keys r ↔ (Contains found.old.keys r ⊎ (r ≡ resource))) }
{
    found.insert(resource)?;
    Ok(())
}

/// Adds a resource, if there is one.
fn add_one(found: &mut IndexSet<ResourceId>, resource: Option<ResourceId>) -> Result<(), AllocError>
    ensures { OnOk result ((r : Resources) → Contains found.new.keys r ↔ (Contains found.old.keys r ⊎ (resource ≡ Some r))) }
{
    match resource {
        Some(resource) => insert_one(found, resource),
        None => Ok(()),
    }
}

/// Adds the own resources of an interface.
pub(crate) fn add_own(
    found: &mut IndexSet<ResourceId>,
    types: &Types,
    interface: &Interface,
) -> Result<(), AllocError>
    requires { AreHeld types.now interface.now.exports }
    ensures { OnOk result ((r : Resources) → Contains found.new.keys r ↔ (Contains found.old.keys r ⊎ IsSome (own_name types.now interface.now.uses interface.now.exports r))) }
{
    for i in 0..interface.exports.len() {
        let (name, item) = interface.exports.entry_at(i);
        add_one(found, own_resource(types, &interface.uses, name, *item))?;
    }
    Ok(())
}

/// Adds what an instance binds under a name.
fn add_bound_by_instance(
    found: &mut IndexSet<ResourceId>,
    types: &Types,
    name: &str,
    id: InterfaceId,
) -> Result<(), AllocError>
    requires { holds_type types.now (ty_of.Interface id) ≡ true }
    ensures { OnOk result ((side : Side) (r : Resources) → Contains found.new.keys r ↔ (Contains found.old.keys r ⊎ Binds types.now [] side (name.now, kind.Instance id) r)) }
{
    types.law();
    let interface = &types[id];
    if !has_id(types, id, name) {
        return Ok(());
    }
    add_own(found, types, interface)
}

/// Adds what an item binds.
pub(crate) fn add_bound_by(
    found: &mut IndexSet<ResourceId>,
    types: &Types,
    uses: &Named<UsedType>,
    name: &str,
    item: ItemKind,
) -> Result<(), AllocError>
    requires { holds_type types.now (kind_type item) ≡ true }
    ensures { OnOk result ((side : Side) (r : Resources) → Contains found.new.keys r ↔ (Contains found.old.keys r ⊎ Binds types.now uses.now side (name.now, item) r)) }
{
    match item {
        ItemKind::Instance(id) => add_bound_by_instance(found, types, name, id),
        _ => add_one(found, own_resource(types, uses, name, item)),
    }
}

/// Adds what imports or exports bind.
pub(crate) fn add_bound(
    found: &mut IndexSet<ResourceId>,
    types: &Types,
    uses: &Named<UsedType>,
    items: &Named<ItemKind>,
) -> Result<(), AllocError>
    requires { AreHeld types.now items.now }
    ensures { OnOk result ((side : Side) (r : Resources) → Contains found.new.keys r ↔ (Contains found.old.keys r ⊎ BindsOne types.now uses.now side items.now r)) }
{
    for i in 0..items.len() {
        let (name, item) = items.entry_at(i);
        add_bound_by(found, types, uses, name, *item)?;
    }
    Ok(())
}
