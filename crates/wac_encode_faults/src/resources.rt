//! The free resources of function types and value types.
ghost use Rattle.std.specs.Prelude.{◌≡◌, ◌↔◌, ◌⊎◌, true, OnOk, Contains};
ghost use Rattle.wac_types_shapes.specs.declared.shapes.component.InterfaceId.{InterfaceId as Interfaces};
ghost use Rattle.wac_types_shapes.specs.declared.shapes.component.ResourceId.{ResourceId as Resources};
ghost use Rattle.wac_types_shapes.specs.declared.shapes.component.«Type».TheVariants as ty_of;
ghost use Rattle.wac_types_collection.specs.collection.Collection.{holds_type};
ghost use Rattle.wac_encode_faults.specs.Free.{IsFree};
ghost use Rattle.wac_encode_faults.specs.private.Near.{IsResolved, HasResolved};
ghost use Rattle.wac_encode_faults.specs.private.Search.{AreHeld};
ghost use Rattle.wac_encode_faults.specs.private.Sets.{other_of, others_of, IsFreeInOne};
ghost use Rattle.wac_types_collection.specs.private.reach.Found.{with_all};

use crate::parts::add_all_parts;
use indexmap::IndexSet;
use std::alloc::AllocError;
use wac_types_collection::{ItemKind, Named, ResourceId, Type, Types};

/// Adds the end of a type's aliases, if the type is a resource.
fn add_resource(
    resources: &mut IndexSet<ResourceId>,
    types: &Types,
    ty: Type,
) -> Result<(), AllocError>
    ensures { OnOk result ((r : Resources) → Contains resources.new.keys r ↔ (Contains resources.old.keys r ⊎ IsResolved types.now ty r)) }
{
    let Type::Resource(id) = ty else {
        return Ok(());
    };
    resources.insert(types.resolve_resource(id))?;
    Ok(())
}

/// Adds the ends of the aliases of resources among the types.
pub(crate) fn add_resources(
    resources: &mut IndexSet<ResourceId>,
    types: &Types,
    found: &[Type],
) -> Result<(), AllocError>
    ensures { OnOk result ((r : Resources) → Contains resources.new.keys r ↔ (Contains resources.old.keys r ⊎ HasResolved types.now found.now r)) }
{
    for i in 0..found.len() {
        add_resource(resources, types, found[i])?;
    }
    Ok(())
}

/// Adds a type, if it is no interface.
pub(crate) fn add_other(found: &mut IndexSet<Type>, ty: Type) -> Result<(), AllocError>
    ensures { OnOk result (found.new.keys ≡ with_all found.old.keys (other_of ty)) }
{
    match ty {
        Type::Interface(_) => Ok(()),
        _ => {
            found.insert(ty)?;
            Ok(())
        }
    }
}

/// Adds the types of the items that are no interfaces.
fn add_others(found: &mut IndexSet<Type>, items: &Named<ItemKind>) -> Result<(), AllocError>
    ensures { OnOk result (found.new.keys ≡ with_all found.old.keys (others_of items.now)) }
{
    for i in 0..items.len() {
        add_other(found, items.value_at(i).ty())?;
    }
    Ok(())
}

/// Adds the resources that are free in the types of the items, those aside that are interfaces. Takes linear time,
/// without recursion.
///
/// # Errors
/// - `AllocError` if out of memory.
pub(crate) fn add_free_of_others(
    resources: &mut IndexSet<ResourceId>,
    types: &Types,
    items: &Named<ItemKind>,
) -> Result<(), AllocError>
    requires { AreHeld types.now items.now }
    ensures { OnOk result ((r : Resources) → Contains resources.new.keys r ↔ (Contains resources.old.keys r ⊎ IsFreeInOne types.now (others_of items.now) r)) }
{
    let mut found = IndexSet::new(types.allocator());
    add_others(&mut found, items)?;
    add_all_parts(&mut found, types, 0)?;
    add_resources(resources, types, found.as_slice())
}

/// Adds the free resources of a type of the collection that is no interface. Takes linear time, without recursion.
///
/// # Errors
/// - `AllocError` if out of memory.
pub(crate) fn add_free(
    resources: &mut IndexSet<ResourceId>,
    types: &Types,
    ty: Type,
) -> Result<(), AllocError>
    requires held { holds_type types.now ty ≡ true }
    requires other { (i : Interfaces) → ty ≡ ty_of.Interface i → ⊥ }
    ensures { OnOk result ((r : Resources) → Contains resources.new.keys r ↔ (Contains resources.old.keys r ⊎ IsFree types.now ty r)) }
{
    let mut found = IndexSet::new(types.allocator());
    found.insert(ty)?;
    add_all_parts(&mut found, types, 0)?;
    add_resources(resources, types, found.as_slice())
}
