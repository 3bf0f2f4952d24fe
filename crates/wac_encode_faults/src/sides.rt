//! Free resources without a binding in component types with additional imports.
ghost use Rattle.std.specs.Prelude.{◌↔◌, ◌⊎◌, List, IfOk, OnOk, IsTrue, Contains};
ghost use Rattle.std.specs.List.{flat_map};
ghost use Rattle.wac_types_shapes.specs.primitives.Name.{Name};
ghost use Rattle.wac_types_shapes.specs.primitives.Tree.{Side};
ghost use Rattle.wac_types_shapes.specs.declared.shapes.component.ResourceId.{ResourceId as Resources};
ghost use Rattle.wac_types_shapes.specs.declared.shapes.component.UsedType.{UsedType as AUsedType};
ghost use Rattle.wac_types_collection.specs.collection.Collection.{HasInterface};
ghost use Rattle.wac_types_collection.specs.wide.Wide.{AreThere};
ghost use Rattle.wac_encode_faults.specs.Free.{HasUnboundItem};
ghost use Rattle.wac_encode_faults.specs.Sides.{under_id};
ghost use Rattle.wac_encode_faults.specs.private.Binding.{BindsOne, IsFreeUnderId, IsFreeInAdditional, HasUnboundImport, sides_with};
ghost use Rattle.wac_encode_faults.specs.private.Search.{AreHeld};

use crate::additional::interface_at;
use crate::bound::{add_bound, add_own};
use crate::type_items::add_free_in_types;
use crate::unbound::{add_free_of_items, has_missing, have_unbound};
use indexmap::IndexSet;
use std::alloc::AllocError;
use wac_types_collection::{InterfaceId, ItemKind, Named, ResourceId, Types, UsedType};

/// Adds what the instance of an interface under its id binds.
fn add_bound_under_id(
    found: &mut IndexSet<ResourceId>,
    types: &Types,
    id: InterfaceId,
) -> Result<(), AllocError>
    requires { HasInterface types.now id }
    ensures { OnOk result ((uses : List (Name × AUsedType)) (side : Side) (r : Resources) → Contains found.new.keys r ↔ (Contains found.old.keys r ⊎ BindsOne types.now uses side (under_id types.now id) r)) }
{
    types.law();
    let interface = &types[id];
    let has_name = interface.id.is_some();
    if has_name {
        return add_own(found, types, interface);
    }
    Ok(())
}

/// Adds what additional imports bind.
fn add_bound_additional(
    found: &mut IndexSet<ResourceId>,
    types: &Types,
    additional: &IndexSet<InterfaceId>,
) -> Result<(), AllocError>
    requires { AreThere types.now additional.now.keys }
    ensures { OnOk result ((uses : List (Name × AUsedType)) (side : Side) (r : Resources) → Contains found.new.keys r ↔ (Contains found.old.keys r ⊎ BindsOne types.now uses side (flat_map (under_id types.now) additional.now.keys) r)) }
{
    for i in 0..additional.len() {
        let id = interface_at(additional, i);
        add_bound_under_id(found, types, id)?;
    }
    Ok(())
}

/// Adds what is free in the instance of an interface under its id.
fn add_free_under_id(
    found: &mut IndexSet<ResourceId>,
    types: &Types,
    id: InterfaceId,
) -> Result<(), AllocError>
    requires { HasInterface types.now id }
    ensures { OnOk result ((r : Resources) → Contains found.new.keys r ↔ (Contains found.old.keys r ⊎ IsFreeUnderId types.now id r)) }
{
    let interface = &types[id];
    let has_name = interface.id.is_some();
    if has_name {
        return add_free_in_types(found, types, id);
    }
    Ok(())
}

/// Adds what is free in additional imports.
fn add_free_of_additional(
    found: &mut IndexSet<ResourceId>,
    types: &Types,
    additional: &IndexSet<InterfaceId>,
) -> Result<(), AllocError>
    requires { AreThere types.now additional.now.keys }
    ensures { OnOk result ((r : Resources) → Contains found.new.keys r ↔ (Contains found.old.keys r ⊎ IsFreeInAdditional types.now additional.now.keys r)) }
{
    for i in 0..additional.len() {
        let id = interface_at(additional, i);
        add_free_under_id(found, types, id)?;
    }
    Ok(())
}

/// Whether a resource that is free in an import, or in an additional one, is not bound.
fn imports_have_unbound(
    types: &Types,
    imports: &Named<ItemKind>,
    additional: &IndexSet<InterfaceId>,
    bound: &IndexSet<ResourceId>,
) -> Result<bool, AllocError>
    requires imports { AreHeld types.now imports.now }
    requires additional { AreThere types.now additional.now.keys }
    ensures { IfOk result (λ b. IsTrue b ↔ HasUnboundImport types.now imports.now additional.now.keys bound.now.keys) }
{
    let mut free = IndexSet::new(types.allocator());
    add_free_of_items(&mut free, types, imports)?;
    add_free_of_additional(&mut free, types, additional)?;
    Ok(has_missing(&free, bound))
}

/// Whether a free resource of an import or export of a component type has no binding on its side. Takes linear time but
/// for the sizes of sets, without recursion.
///
/// # Errors
/// - `AllocError` if out of memory.
pub(crate) fn sides_have_unbound(
    types: &Types,
    uses: &Named<UsedType>,
    imports: &Named<ItemKind>,
    additional: &IndexSet<InterfaceId>,
    exports: &Named<ItemKind>,
) -> Result<bool, AllocError>
    requires imports { AreHeld types.now imports.now }
    requires additional { AreThere types.now additional.now.keys }
    requires exports { AreHeld types.now exports.now }
    ensures { IfOk result (λ b. IsTrue b ↔ HasUnboundItem types.now (sides_with types.now uses.now imports.now additional.now.keys exports.now)) }
{
    let mut bound = IndexSet::new(types.allocator());
    add_bound(&mut bound, types, uses, imports)?;
    add_bound_additional(&mut bound, types, additional)?;
    if imports_have_unbound(types, imports, additional, &bound)? {
        return Ok(true);
    }
    add_bound(&mut bound, types, uses, exports)?;
    have_unbound(types, exports, &bound)
}
