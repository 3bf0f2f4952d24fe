//! What is written inside a type: its imports and exports, theirs, and so on; and the faults of imports and exports.
ghost use Rattle.std.specs.Prelude.{◌≡◌, ◌∷◌, [], true, IfOk, OnOk};
ghost use Rattle.wac_types_collection.specs.collection.Collection.{holds_type};
ghost use Rattle.wac_types_collection.specs.private.reach.Found.{with_all};
ghost use Rattle.wac_types_collection.specs.reach.Reach.{IsIn};
ghost use Rattle.wac_types_shapes.specs.declared.shapes.component.«Type».{«Type» as AnyType};
ghost use Rattle.wac_encode_faults.specs.Faults.{listed_items, listed_fault as listed_fault_of, IsLowest, IsFaultOfListed};
ghost use Rattle.wac_encode_faults.specs.private.Search.{scope_of, scopes_of, inner_scopes, is_scope};
ghost use Rattle.wac_encode_faults.specs.private.Roots.{IsInsideOne};

use crate::fault::WriteFault;
use crate::faults::lower;
use indexmap::IndexSet;
use std::alloc::AllocError;
use wac_types_collection::{ItemKind, Named, Type, Types};

/// Returns the fault of an import or export of an interface or a world.
pub(crate) fn listed_fault(item: ItemKind) -> Option<WriteFault>
    ensures { result ≡ listed_fault_of item }
{
    match item {
        ItemKind::TypeItem(Type::Module(_)) => Some(WriteFault::ModuleAsType),
        ItemKind::Component(_) | ItemKind::Module(_) | ItemKind::Value(_) => {
            Some(WriteFault::NestedItem)
        }
        _ => None,
    }
}

/// Returns the lowest fault of imports or exports.
pub(crate) fn find_listed_fault(items: &Named<ItemKind>) -> Option<WriteFault>
    ensures { IsLowest (IsFaultOfListed items.now) result }
{
    let mut lowest = None;
    for i in 0..items.len() {
        lowest = lower(lowest, listed_fault(*items.value_at(i)));
    }
    lowest
}

/// Returns the lowest fault of a type's imports and exports.
pub(crate) fn find_fault_at(types: &Types, ty: Type) -> Option<WriteFault>
    requires { holds_type types.now ty ≡ true }
    ensures { IsLowest (IsFaultOfListed (listed_items types.now ty)) result }
{
    match ty {
        Type::Interface(id) => find_listed_fault(&types[id].exports),
        Type::World(id) => {
            let world = &types[id];
            lower(
                find_listed_fault(&world.imports),
                find_listed_fault(&world.exports),
            )
        }
        _ => None,
    }
}

/// Adds a type.
pub(crate) fn add_type(found: &mut IndexSet<Type>, ty: Type) -> Result<(), AllocError>
    ensures { OnOk result (found.new.keys ≡ with_all found.old.keys (ty ∷ [])) }
{
    found.insert(ty)?;
    Ok(())
}

/// Adds a type, if it is an interface or a world.
fn add_scope(found: &mut IndexSet<Type>, ty: Type) -> Result<(), AllocError>
    ensures { OnOk result (found.new.keys ≡ with_all found.old.keys (scope_of ty)) }
{
    match ty {
        Type::Interface(_) | Type::World(_) => add_type(found, ty),
        _ => Ok(()),
    }
}

/// Adds the interfaces and worlds of items.
pub(crate) fn add_scopes(
    found: &mut IndexSet<Type>,
    items: &Named<ItemKind>,
) -> Result<(), AllocError>
    ensures { OnOk result (found.new.keys ≡ with_all found.old.keys (scopes_of items.now)) }
{
    for i in 0..items.len() {
        add_scope(found, items.value_at(i).ty())?;
    }
    Ok(())
}

/// Adds the interfaces and worlds of a type's imports and exports.
fn add_inner(found: &mut IndexSet<Type>, types: &Types, ty: Type) -> Result<(), AllocError>
    requires { holds_type types.now ty ≡ true }
    ensures { OnOk result (found.new.keys ≡ with_all found.old.keys (inner_scopes types.now ty)) }
{
    match ty {
        Type::Interface(id) => add_scopes(found, &types[id].exports),
        Type::World(id) => {
            let world = &types[id];
            add_scopes(found, &world.imports)?;
            add_scopes(found, &world.exports)
        }
        _ => Ok(()),
    }
}

/// Adds the interfaces and worlds that are written inside these types. Takes linear time, without recursion.
pub(crate) fn with_scopes_inside(
    types: &Types,
    roots: IndexSet<Type>,
) -> Result<IndexSet<Type>, AllocError>
    requires { (t : AnyType) → IsIn t roots.keys → holds_type types.now t ≡ true }
    ensures inside { IfOk result (λ s. (t : AnyType) → IsIn t s.keys → IsInsideOne types.now roots.keys t) }
    ensures scopes { IfOk result (λ s. (t : AnyType) → IsInsideOne types.now roots.keys t → is_scope t ≡ true → IsIn t s.keys) }
    ensures held { IfOk result (λ s. (t : AnyType) → IsIn t s.keys → holds_type types.now t ≡ true) }
{
    types.law();
    let mut found = roots;
    let mut next = 0;
    while next < found.len() {
        let inner = found.as_slice()[next];
        add_inner(&mut found, types, inner)?;
        next += 1;
    }
    Ok(found)
}
