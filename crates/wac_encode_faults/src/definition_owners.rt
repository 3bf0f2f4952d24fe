//! The items that bind the free resources of definitions, by their numbers.
//!
//! Functions share definitions. Each is gone through once for a side, not once for each function over it.
ghost use Rattle.std.specs.Prelude.{◌≡◌, ◌⊎◌, ◌↔◌, ℕ, true, Some, Contains, IfOk, OnOk};
ghost use Rattle.std.specs.BTreeSet as set;
ghost use Rattle.std.specs.Ordering.{nat_cmp};
ghost use Rattle.wac_edges.specs.private.cycles.Numbers.{Has};
ghost use Rattle.wac_types_shapes.specs.shapes.Kinds.{kind_type};
ghost use Rattle.wac_types_shapes.specs.declared.shapes.component.ResourceId.{ResourceId as Resources};
ghost use Rattle.wac_types_shapes.specs.declared.shapes.component.ValueType.TheVariants as val;
ghost use Rattle.wac_types_shapes.specs.declared.shapes.component.«Type».{«Type» as AnyType};
ghost use Rattle.wac_types_shapes.specs.declared.shapes.component.«Type».TheVariants as ty_of;
ghost use Rattle.wac_types_collection.specs.collection.Collection.{holds_type};
ghost use Rattle.wac_types_collection.specs.reach.Reach.{IsIn};
ghost use Rattle.wac_encode_faults.specs.Cycle.{owner_of};
ghost use Rattle.wac_encode_faults.specs.private.DefinitionOwners.{AreDefinitionOwners, definition_of};
ghost use Rattle.wac_encode_faults.specs.private.Search.{AreHeld};

use crate::owners::Owners;
use crate::parts::add_parts;
use crate::resources::add_free;
use crate::unbound::resource_at;
use indexmap::{IndexMap, IndexSet};
use std::alloc::{AllocError, Global};
use std::collections::BTreeSet;
use wac_types_collection::{DefinedTypeId, ItemKind, Named, ResourceId, Type, Types, ValueType};

/// For definitions, the numbers of the items that bind their free resources.
pub(crate) type DefinitionOwners = IndexMap<DefinedTypeId, BTreeSet<usize>>;

/// Returns the definition, if the type is one.
pub(crate) fn definition_in(ty: Type) -> Option<DefinedTypeId>
    ensures { result ≡ definition_of ty }
{
    match ty {
        Type::Value(ValueType::Defined(id)) => Some(id),
        _ => None,
    }
}

/// Adds a number.
fn put(numbers: &mut BTreeSet<usize>, number: usize) -> Result<(), AllocError>
    ensures { OnOk result (numbers.new.keys ≡ set.insert_key nat_cmp numbers.old.keys number) }
{
    match numbers.insert(number) {
        Ok(_) => Ok(()),
        Err(_) => Err(AllocError),
    }
}

/// Adds a number, if there is one.
fn add_number(numbers: &mut BTreeSet<usize>, number: Option<usize>) -> Result<(), AllocError>
    ensures { OnOk result ((b : ℕ) → Has numbers.new.keys b ↔ (Has numbers.old.keys b ⊎ (number ≡ Some b))) }
{
    match number {
        Some(number) => put(numbers, number),
        None => Ok(()),
    }
}

/// Returns the numbers of the items that bind one of these resources.
fn owners_of(
    alloc: Global,
    owners: &Owners,
    free: &IndexSet<ResourceId>,
) -> Result<BTreeSet<usize>, AllocError>
    ensures { IfOk result (λ s. (b : ℕ) → Has s.keys b ↔ ((r : Resources) × Contains free.now.keys r × (owner_of owners.now.entries r ≡ Some b))) }
{
    let mut numbers = BTreeSet::new(alloc);
    for i in 0..free.len() {
        let resource = resource_at(free, i);
        add_number(&mut numbers, owners.get(&resource).copied())?;
    }
    Ok(numbers)
}

/// Notes the numbers of the items that bind the free resources of a definition.
fn note_definition(
    known: &mut DefinitionOwners,
    owners: &Owners,
    types: &Types,
    id: DefinedTypeId,
) -> Result<(), AllocError>
    requires held { holds_type types.now (ty_of.Value (val.Defined id)) ≡ true }
    requires known { AreDefinitionOwners types.now owners.now.entries known.old.entries }
    ensures { OnOk result (AreDefinitionOwners types.now owners.now.entries known.new.entries) }
{
    if let Some(_) = known.get(&id) {
        return Ok(());
    }
    let mut free = IndexSet::new(types.allocator());
    add_free(&mut free, types, Type::Value(ValueType::Defined(id)))?;
    let numbers = owners_of(types.allocator(), owners, &free)?;
    match known.insert(id, numbers) {
        Ok(_) => Ok(()),
        Err(_) => Err(AllocError),
    }
}

/// Notes the owners of a type, if it is a definition.
fn note_type(
    known: &mut DefinitionOwners,
    owners: &Owners,
    types: &Types,
    ty: Type,
) -> Result<(), AllocError>
    requires held { holds_type types.now ty ≡ true }
    requires known { AreDefinitionOwners types.now owners.now.entries known.old.entries }
    ensures { OnOk result (AreDefinitionOwners types.now owners.now.entries known.new.entries) }
{
    match definition_in(ty) {
        Some(id) => note_definition(known, owners, types, id),
        None => Ok(()),
    }
}

/// Notes the owners of those types that are definitions.
fn note_types(
    known: &mut DefinitionOwners,
    owners: &Owners,
    types: &Types,
    found: &[Type],
) -> Result<(), AllocError>
    requires held { (t : AnyType) → IsIn t found.now → holds_type types.now t ≡ true }
    requires known { AreDefinitionOwners types.now owners.now.entries known.old.entries }
    ensures { OnOk result (AreDefinitionOwners types.now owners.now.entries known.new.entries) }
{
    for i in 0..found.len() {
        note_type(known, owners, types, found[i])?;
    }
    Ok(())
}

/// Notes the owners of the definitions that a function has as its parameters and its result.
fn note_item(
    known: &mut DefinitionOwners,
    owners: &Owners,
    types: &Types,
    item: ItemKind,
) -> Result<(), AllocError>
    requires held { holds_type types.now (kind_type item) ≡ true }
    requires known { AreDefinitionOwners types.now owners.now.entries known.old.entries }
    ensures { OnOk result (AreDefinitionOwners types.now owners.now.entries known.new.entries) }
{
    types.law(); // proof only
    let ty = item.ty();
    let Type::Func(_) = ty else {
        return Ok(());
    };
    let mut found = IndexSet::new(types.allocator());
    add_parts(&mut found, types, ty)?;
    note_types(known, owners, types, found.as_slice())
}

/// Returns the owners of the definitions that functions among the items have as their parameters and results.
pub(crate) fn find_definition_owners(
    owners: &Owners,
    types: &Types,
    items: &Named<ItemKind>,
) -> Result<DefinitionOwners, AllocError>
    requires { AreHeld types.now items.now }
    ensures { IfOk result (λ m. AreDefinitionOwners types.now owners.now.entries m.entries) }
{
    let mut known = IndexMap::new(types.allocator());
    for i in 0..items.len() {
        let item = *items.value_at(i);
        note_item(&mut known, owners, types, item)?;
    }
    Ok(known)
}
