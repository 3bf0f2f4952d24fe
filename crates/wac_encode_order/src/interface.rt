//! The order of the items of an instance type.
ghost use Rattle.std.specs.Prelude.{◌≡◌, ◌++◌, ◌↔◌, ℕ, Some, true, map, is_some, slice_get, Contains, IfOk, OnOk};
ghost use Rattle.wac_types_shapes.specs.primitives.Name.{find_name};
ghost use Rattle.wac_types_shapes.specs.shapes.Kinds.{kind_type};
ghost use Rattle.wac_types_shapes.specs.declared.shapes.component.Interface.{Interface as AnInterface};
ghost use Rattle.wac_types_collection.specs.collection.Bound.{is_alias as is_alias_of, lists_type};
ghost use Rattle.wac_types_collection.specs.collection.Collection.{HasInterface, HasResource, holds_type, item_at};
ghost use Rattle.wac_encode_order.specs.private.Interfaces.{IsInterfaceOrder, is_later_at, lists_own_resource, lists_other_type, others_from};
ghost use Rattle.wac_encode_order.specs.private.Graph.{AreHeld};

use crate::type_items::order_chosen;
use std::alloc::AllocError;
use wac_types_collection::{
    Interface, InterfaceId, ItemKind, Named, ResourceId, Type, Types, UsedType,
};

/// Whether a resource is an alias.
fn is_alias(types: &Types, id: ResourceId) -> bool
    requires { HasResource types.now id }
    ensures { result ≡ is_alias_of types.now id }
{
    match types[id].alias {
        Some(_) => true,
        None => false,
    }
}

/// Whether a type is used under a name.
fn is_used(uses: &Named<UsedType>, name: &str) -> bool
    ensures { result ≡ is_some (find_name uses.now name.now) }
{
    match uses.get(name) {
        Some(_) => true,
        None => false,
    }
}

/// Whether an item is a type item of an own resource of its interface.
fn is_own_resource(types: &Types, uses: &Named<UsedType>, name: &str, item: ItemKind) -> bool
    requires { holds_type types.now (kind_type item) ≡ true }
    ensures { result ≡ lists_own_resource types.now uses.now (name.now, item) }
{
    match item {
        ItemKind::TypeItem(Type::Resource(id)) => !is_alias(types, id) && !is_used(uses, name),
        _ => false,
    }
}

/// Whether an item is a type item.
pub(crate) fn is_type_item(name: &str, item: ItemKind) -> bool
    ensures { result ≡ lists_type (name.now, item) }
{
    matches!(item, ItemKind::TypeItem(_))
}

/// Whether an item is a type item other than of an own resource.
fn is_other_type(types: &Types, uses: &Named<UsedType>, name: &str, item: ItemKind) -> bool
    requires { holds_type types.now (kind_type item) ≡ true }
    ensures { result ≡ lists_other_type types.now uses.now (name.now, item) }
{
    is_type_item(name, item) && !is_own_resource(types, uses, name, item)
}

/// Returns for each item whether it is a type item other than of an own resource.
fn other_types(types: &Types, interface: &Interface) -> Result<Vec<bool>, AllocError>
    requires { AreHeld types.now interface.now.exports }
    ensures { IfOk result (λ chosen. chosen.items ≡ map (lists_other_type types.now interface.now.uses) interface.now.exports) }
{
    let mut chosen = Vec::with_capacity(types.allocator(), interface.exports.len())?;
    for i in 0..interface.exports.len() {
        let (name, item) = interface.exports.entry_at(i);
        chosen.push(is_other_type(types, &interface.uses, name, *item))?;
    }
    Ok(chosen)
}

/// Appends the positions of the items that are no type items.
fn add_others(order: &mut Vec<usize>, items: &Named<ItemKind>) -> Result<(), AllocError>
    ensures { OnOk result (order.new.items ≡ order.old.items ++ others_from 0 items.now) }
{
    for i in 0..items.len() {
        let (name, item) = items.entry_at(i);
        if !is_type_item(name, *item) {
            order.push(i)?;
        }
    }
    Ok(())
}

/// Returns the positions of an interface's items in order, or those of its type items alone.
fn order_items(
    types: &Types,
    interface: &Interface,
    types_only: bool,
) -> Result<Vec<usize>, AllocError>
    requires { AreHeld types.now interface.now.exports }
    ensures { IfOk result (λ order. IsInterfaceOrder types.now interface.now types_only order.items) }
{
    let chosen = other_types(types, interface)?;
    let mut order = order_chosen(types, &interface.exports, chosen.as_slice())?;
    if types_only {
        return Ok(order);
    }
    add_others(&mut order, &interface.exports)?;
    Ok(order)
}

/// Returns the positions of an interface's items in the order in which an instance type exports them, after the own
/// resources. With `types_only`, those of the type items alone.
///
/// First come the type items. The next is always the first of those left that reaches none of those left: its type is
/// not made of one that they name. Then come the other items as they are listed. Takes time linear in the parts of the
/// type items' types, up to a logarithm, without recursion.
///
/// # Errors
/// - `AllocError` if out of memory.
pub fn interface_order(
    types: &Types,
    id: InterfaceId,
    types_only: bool,
) -> Result<Vec<usize>, AllocError>
    requires { HasInterface types.now id }
    ensures order { IfOk result (λ order. (it : AnInterface) → item_at types.now.interfaces id.0 ≡ Some it → IsInterfaceOrder types.now it types_only order.items) }
    ensures each { IfOk result (λ order. (it : AnInterface) → item_at types.now.interfaces id.0 ≡ Some it → (p : ℕ) → (Contains order.items p ↔ is_later_at types.now it types_only p ≡ true)) }
    ensures once { IfOk result (λ order. (i j p : ℕ) → slice_get order.items i ≡ Some p → slice_get order.items j ≡ Some p → i ≡ j) }
{
    types.law();
    order_items(types, &types[id], types_only)
}
