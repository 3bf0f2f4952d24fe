//! The faults of component types with additional imports.
ghost use Rattle.std.specs.Prelude.{◌≡◌, ◌↔◌, ◌⊎◌, List, IfOk, OnOk, IsTrue};
ghost use Rattle.wac_types_shapes.specs.primitives.Name.{Name};
ghost use Rattle.wac_types_shapes.specs.declared.shapes.component.ItemKind.TheVariants as kind;
ghost use Rattle.wac_types_shapes.specs.declared.shapes.component.ModuleTypeId.{ModuleTypeId as Modules};
ghost use Rattle.wac_types_shapes.specs.declared.shapes.component.UsedType.{UsedType as AUsedType};
ghost use Rattle.wac_types_shapes.specs.declared.shapes.component.«Type».{«Type» as AnyType};
ghost use Rattle.wac_types_shapes.specs.declared.shapes.component.«Type».TheVariants as ty_of;
ghost use Rattle.wac_types_collection.specs.collection.Collection.{HasInterface};
ghost use Rattle.wac_types_collection.specs.reach.Reach.{IsIn};
ghost use Rattle.wac_types_collection.specs.wide.Wide.{AreThere};
ghost use Rattle.wac_encode_faults.specs.Faults.{IsLowest, IsListed, IsSidesFault};
ghost use Rattle.wac_encode_faults.specs.private.Binding.{sides_with};
ghost use Rattle.wac_encode_faults.specs.private.Roots.{IsTypeUnderId, IsTypeOfAdditional, IsFaultOfParts, IsFaultOfNames};
ghost use Rattle.wac_encode_faults.specs.private.Search.{AreHeld, scopes_of};

use crate::additional::interface_at;
use crate::cycle::sides_have_cycle;
use crate::fault::WriteFault;
use crate::faults::{fault_if, lower};
use crate::inside::{add_scopes, add_type, find_listed_fault};
use crate::names::has_name_twice;
use crate::nested::{find_fault_inside, type_at};
use crate::sides::sides_have_unbound;
use indexmap::IndexSet;
use std::alloc::AllocError;
use wac_types_collection::{InterfaceId, ItemKind, Named, Type, Types, UsedType};

/// Adds the type of an item, if it is a type item.
fn add_type_item(found: &mut IndexSet<Type>, item: ItemKind) -> Result<(), AllocError>
    ensures { OnOk result ((t : AnyType) → IsIn t found.new.keys ↔ (IsIn t found.old.keys ⊎ (item ≡ kind.TypeItem t))) }
{
    match item {
        ItemKind::TypeItem(ty) => add_type(found, ty),
        _ => Ok(()),
    }
}

/// Adds the types of type items.
fn add_type_items(found: &mut IndexSet<Type>, items: &Named<ItemKind>) -> Result<(), AllocError>
    ensures { OnOk result ((t : AnyType) → IsIn t found.new.keys ↔ (IsIn t found.old.keys ⊎ IsListed (kind.TypeItem t) items.now)) }
{
    for i in 0..items.len() {
        let item = *items.value_at(i);
        add_type_item(found, item)?;
    }
    Ok(())
}

/// Adds the types of an interface's type items, if the interface has an id.
fn add_types_under_id(
    found: &mut IndexSet<Type>,
    types: &Types,
    id: InterfaceId,
) -> Result<(), AllocError>
    requires { HasInterface types.now id }
    ensures { OnOk result ((t : AnyType) → IsIn t found.new.keys ↔ (IsIn t found.old.keys ⊎ IsTypeUnderId types.now id t)) }
{
    let interface = &types[id];
    let has_name = interface.id.is_some();
    if has_name {
        return add_type_items(found, &interface.exports);
    }
    Ok(())
}

/// Adds the types of the type items of additional imports.
fn add_additional_types(
    found: &mut IndexSet<Type>,
    types: &Types,
    additional: &IndexSet<InterfaceId>,
) -> Result<(), AllocError>
    requires { AreThere types.now additional.now.keys }
    ensures { OnOk result ((t : AnyType) → IsIn t found.new.keys ↔ (IsIn t found.old.keys ⊎ IsTypeOfAdditional types.now additional.now.keys t)) }
{
    for i in 0..additional.len() {
        let id = interface_at(additional, i);
        add_types_under_id(found, types, id)?;
    }
    Ok(())
}

/// Returns the types of the type items of additional imports, and the interfaces and worlds of imports and exports.
fn types_of_sides(
    types: &Types,
    imports: &Named<ItemKind>,
    additional: &IndexSet<InterfaceId>,
    exports: &Named<ItemKind>,
) -> Result<IndexSet<Type>, AllocError>
    requires { AreThere types.now additional.now.keys }
    ensures { IfOk result (λ s. (t : AnyType) → IsIn t s.keys ↔ (IsTypeOfAdditional types.now additional.now.keys t ⊎ (IsIn t (scopes_of imports.now) ⊎ IsIn t (scopes_of exports.now)))) }
{
    let mut found = IndexSet::new(types.allocator());
    add_additional_types(&mut found, types, additional)?;
    add_scopes(&mut found, imports)?;
    add_scopes(&mut found, exports)?;
    Ok(found)
}

/// Whether one of the types is a core module type.
fn has_module_type(found: &IndexSet<Type>) -> bool
    ensures { IsTrue result ↔ ((m : Modules) × IsIn (ty_of.Module m) found.now.keys) }
{
    for i in 0..found.len() {
        let ty = type_at(found, i);
        if let Type::Module(_) = ty {
            return true;
        }
    }
    false
}

/// Returns the lowest fault of the imports and exports of a component type, and of what is written inside them.
fn find_fault_of_parts(
    types: &Types,
    imports: &Named<ItemKind>,
    additional: &IndexSet<InterfaceId>,
    exports: &Named<ItemKind>,
) -> Result<Option<WriteFault>, AllocError>
    requires imports { AreHeld types.now imports.now }
    requires additional { AreThere types.now additional.now.keys }
    requires exports { AreHeld types.now exports.now }
    ensures { IfOk result (λ o. (uses : List (Name × AUsedType)) → IsLowest (IsFaultOfParts types.now (sides_with types.now uses imports.now additional.now.keys exports.now)) o) }
{
    types.law();
    let of_imports = find_listed_fault(imports);
    let of_exports = find_listed_fault(exports);
    let listed = lower(of_imports, of_exports);
    let roots = types_of_sides(types, imports, additional, exports)?;
    let has_module = has_module_type(&roots);
    let of_types = fault_if(has_module, WriteFault::ModuleAsType);
    let inside = find_fault_inside(types, roots)?;
    let outside = lower(listed, of_types);
    Ok(lower(outside, inside))
}

/// Returns the lowest fault that the names and the order of a component type's imports and exports have.
fn find_fault_of_names(
    types: &Types,
    uses: &Named<UsedType>,
    imports: &Named<ItemKind>,
    additional: &IndexSet<InterfaceId>,
    exports: &Named<ItemKind>,
) -> Result<Option<WriteFault>, AllocError>
    requires imports { AreHeld types.now imports.now }
    requires additional { AreThere types.now additional.now.keys }
    requires exports { AreHeld types.now exports.now }
    ensures { IfOk result (IsLowest (IsFaultOfNames types.now (sides_with types.now uses.now imports.now additional.now.keys exports.now))) }
{
    if has_name_twice(types, imports, additional)? {
        return Ok(Some(WriteFault::InterfaceTwice));
    }
    let has_cycle = sides_have_cycle(types, uses, imports, additional, exports)?;
    Ok(fault_if(has_cycle, WriteFault::TypesUseEachOther))
}

/// Returns the lowest fault of the component type of a definition, without recursion.
///
/// # Errors
/// - `AllocError` if out of memory.
pub(crate) fn find_sides_fault(
    types: &Types,
    uses: &Named<UsedType>,
    imports: &Named<ItemKind>,
    additional: &IndexSet<InterfaceId>,
    exports: &Named<ItemKind>,
) -> Result<Option<WriteFault>, AllocError>
    requires imports { AreHeld types.now imports.now }
    requires additional { AreThere types.now additional.now.keys }
    requires exports { AreHeld types.now exports.now }
    ensures { IfOk result (IsLowest (IsSidesFault types.now (sides_with types.now uses.now imports.now additional.now.keys exports.now))) }
{
    if sides_have_unbound(types, uses, imports, additional, exports)? {
        return Ok(Some(WriteFault::UnboundResource));
    }
    let of_parts = find_fault_of_parts(types, imports, additional, exports)?;
    let of_names = find_fault_of_names(types, uses, imports, additional, exports)?;
    Ok(lower(of_parts, of_names))
}
