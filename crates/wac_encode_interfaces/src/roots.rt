//! The types of a component type's imports and exports, and those inside the definition of a type.
ghost use Rattle.std.specs.Prelude.{◌≡◌, ◌<◌, ◌++◌, true, Some, length, slice_get, IfOk, OnOk};
ghost use Rattle.std.specs.List.{flat_map};
ghost use Rattle.wac_types_shapes.specs.declared.shapes.component.«Type».TheVariants as ty_of;
ghost use Rattle.wac_types_collection.specs.collection.Collection.{HasInterface, holds_type};
ghost use Rattle.wac_types_collection.specs.wide.Wide.{AreThere};
ghost use Rattle.wac_encode_faults.specs.private.Ids.{HaveIds};
ghost use Rattle.wac_encode_interfaces.specs.private.Definitions.{AreDefinitionRoots};
ghost use Rattle.wac_encode_interfaces.specs.private.Given.{sides_of, AreHeldSides};
ghost use Rattle.wac_encode_interfaces.specs.private.Defined.{AreDefinedRoots, AreSideRoots};
ghost use Rattle.wac_encode_interfaces.specs.private.Paid.{AreLight};
ghost use Rattle.wac_encode_interfaces.specs.private.Roots.{item_root, type_item_root, type_item_roots, additional_roots, side_roots as side_roots_of};

use crate::sides::Sides;
use std::alloc::AllocError;
use wac_encode_faults::{definition_exports, interface_additional, world_additional};
use wac_types_collection::{InterfaceId, ItemKind, Named, Type, Types, WorldId};
use wac_types_weight::weight_law;

/// Returns the interface at an index.
fn interface_at(interfaces: &[InterfaceId], index: usize) -> InterfaceId
    requires { index < length interfaces.now }
    ensures { slice_get interfaces.now index ≡ Some result }
{
    interfaces[index]
}

/// Appends the types of items.
fn push_items(found: &mut Vec<Type>, items: &Named<ItemKind>) -> Result<(), AllocError>
    ensures { OnOk result (found.new.items ≡ found.old.items ++ flat_map item_root items.now) }
{
    for i in 0..items.len() {
        found.push(items.value_at(i).ty())?;
    }
    Ok(())
}

/// Appends the type, if the item is a type item.
fn push_type_item(found: &mut Vec<Type>, item: ItemKind) -> Result<(), AllocError>
    ensures { OnOk result (found.new.items ≡ found.old.items ++ type_item_root item) }
{
    match item {
        ItemKind::TypeItem(ty) => {
            found.push(ty)?;
            Ok(())
        }
        _ => Ok(()),
    }
}

/// Appends the types of the type items.
fn push_type_items(found: &mut Vec<Type>, items: &Named<ItemKind>) -> Result<(), AllocError>
    ensures { OnOk result (found.new.items ≡ found.old.items ++ type_item_roots items.now) }
{
    for i in 0..items.len() {
        push_type_item(found, *items.value_at(i))?;
    }
    Ok(())
}

/// Appends the types of the type items of an interface.
fn push_types_in(
    found: &mut Vec<Type>,
    types: &Types,
    interface: InterfaceId,
) -> Result<(), AllocError>
    requires { HasInterface types.now interface }
    ensures { OnOk result (found.new.items ≡ found.old.items ++ additional_roots types.now interface) }
{
    push_type_items(found, &types[interface].exports)
}

/// Appends the types of the type items of interfaces.
fn push_additional(
    found: &mut Vec<Type>,
    types: &Types,
    interfaces: &[InterfaceId],
) -> Result<(), AllocError>
    requires { AreThere types.now interfaces.now }
    ensures { OnOk result (found.new.items ≡ found.old.items ++ flat_map (additional_roots types.now) interfaces.now) }
{
    for i in 0..interfaces.len() {
        let interface = interface_at(interfaces, i);
        push_types_in(found, types, interface)?;
    }
    Ok(())
}

/// Returns the types of the imports and exports of a component type, and of its additional imports those of their type
/// items.
pub(crate) fn side_roots(types: &Types, sides: &Sides<'_>) -> Result<Vec<Type>, AllocError>
    requires { AreThere types.now sides.now.additional.now }
    ensures { IfOk result (λ v. v.items ≡ side_roots_of types.now sides.now) }
{
    let mut found = Vec::new(types.allocator());
    push_items(&mut found, sides.imports)?;
    push_items(&mut found, sides.exports)?;
    push_additional(&mut found, types, sides.additional)?;
    Ok(found)
}

/// Returns the roots of a component type.
fn component_roots(types: &Types, sides: &Sides<'_>) -> Result<Vec<Type>, AllocError>
    requires held { AreHeldSides types.now sides.now }
    requires named { HaveIds types.now sides.now.additional.now }
    ensures roots { IfOk result (λ v. AreSideRoots types.now (sides_of types.now sides.now) v.items) }
    ensures are { IfOk result (λ v. v.items ≡ side_roots_of types.now sides.now) }
{
    types.law(); // proof only
    side_roots(types, sides)
}

/// Returns the roots of the definition of an interface.
fn interface_roots(types: &Types, interface: InterfaceId) -> Result<Vec<Type>, AllocError>
    requires { HasInterface types.now interface }
    ensures roots { IfOk result (λ v. AreDefinedRoots types.now (ty_of.Interface interface) v.items) }
    ensures light { IfOk result (λ v. AreLight types.now (ty_of.Interface interface) v.items) }
{
    types.law(); // proof only
    weight_law();
    let additional = interface_additional(types, interface)?;
    let exports = definition_exports(types, interface)?;
    let imports = Named::new(types.allocator());
    let uses = Named::new(types.allocator());
    component_roots(
        types,
        &Sides {
            imports: &imports,
            additional: additional.as_slice(),
            exports: &exports,
            uses: &uses,
        },
    )
}

/// Returns the roots of the definition of a world.
fn world_roots(types: &Types, world: WorldId) -> Result<Vec<Type>, AllocError>
    requires { holds_type types.now (ty_of.World world) ≡ true }
    ensures roots { IfOk result (λ v. AreDefinedRoots types.now (ty_of.World world) v.items) }
    ensures light { IfOk result (λ v. AreLight types.now (ty_of.World world) v.items) }
{
    types.law(); // proof only
    weight_law();
    let additional = world_additional(types, world)?;
    let item = &types[world];
    component_roots(
        types,
        &Sides {
            imports: &item.imports,
            additional: additional.as_slice(),
            exports: &item.exports,
            uses: &item.uses,
        },
    )
}

/// Returns the types inside which worlds must be written before a type is defined.
///
/// # Errors
/// - `AllocError` if out of memory.
pub fn definition_roots(types: &Types, ty: Type) -> Result<Vec<Type>, AllocError>
    requires { holds_type types.now ty ≡ true }
    ensures roots { IfOk result (λ v. AreDefinitionRoots types.now ty v.items) }
    ensures light { IfOk result (λ v. AreLight types.now ty v.items) }
{
    match ty {
        Type::Interface(id) => interface_roots(types, id),
        Type::World(id) => world_roots(types, id),
        _ => Ok(Vec::new(types.allocator())),
    }
}
