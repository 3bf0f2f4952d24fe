//! The types of which type items are made.
ghost use Rattle.std.specs.Prelude.{◌≡◌, true, length, map, IfOk, OnOk};
ghost use Rattle.wac_types_collection.specs.collection.Collection.{holds_type};
ghost use Rattle.wac_types_collection.specs.collection.Aliases.{type_resolved};
ghost use Rattle.wac_types_collection.specs.private.reach.Found.{with_all};
ghost use Rattle.wac_encode_order.specs.private.TypeItems.{made_of};
ghost use Rattle.wac_encode_order.specs.private.Graph.{AreHeld, AllHeld, AreReached, HaveItems};

use crate::parts::{listed_type, parts_of, resolve};
use indexmap::IndexSet;
use std::alloc::AllocError;
use std::hash::BuildHasherDefault;
use wac_types_collection::{ItemKind, Named, Reached, Type, TypeSet, Types};

/// Adds the types of type items, with their aliases resolved.
fn add_items(found: &mut TypeSet, types: &Types, items: &Named<ItemKind>) -> Result<(), AllocError>
    requires items { AreHeld types.now items.now }
    requires held { AllHeld types.now found.old.keys }
    ensures items { OnOk result (HaveItems types.now items.now (length items.now) found.new.keys) }
    ensures held { OnOk result (AllHeld types.now found.new.keys) }
{
    types.law();
    for i in 0..items.len() {
        if let Some(ty) = listed_type(*items.value_at(i)) {
            found.insert(resolve(types, ty))?;
        }
    }
    Ok(())
}

/// Adds types, with their aliases resolved.
fn add_resolved(found: &mut TypeSet, types: &Types, parts: &[Type]) -> Result<(), AllocError>
    ensures { OnOk result (found.new.keys ≡ with_all found.old.keys (map (type_resolved types.now) parts.now)) }
{
    for part in parts {
        found.insert(resolve(types, *part))?;
    }
    Ok(())
}

/// Adds the types of which a type is made, with their aliases resolved.
fn add_parts(found: &mut TypeSet, types: &Types, ty: Type) -> Result<(), AllocError>
    requires { holds_type types.now ty ≡ true }
    ensures { OnOk result (found.new.keys ≡ with_all found.old.keys (map (type_resolved types.now) (made_of types.now ty))) }
{
    let parts = parts_of(types, ty)?;
    add_resolved(found, types, parts.as_slice())
}

/// Returns the types of type items, those of which these are made, and so on, with their aliases resolved. Takes linear
/// time, without recursion.
///
/// # Errors
/// - `AllocError` if out of memory.
pub(crate) fn search(types: &Types, items: &Named<ItemKind>) -> Result<Reached, AllocError>
    requires { AreHeld types.now items.now }
    ensures { IfOk result (λ found. AreReached types.now items.now found) }
{
    types.law();
    let mut found = IndexSet::with_hasher(types.allocator(), BuildHasherDefault::new());
    add_items(&mut found, types, items)?;
    let mut next = 0;
    while next < found.len() {
        let ty = found.as_slice()[next];
        add_parts(&mut found, types, ty)?;
        next += 1;
    }
    Ok(Reached::of(found))
}
