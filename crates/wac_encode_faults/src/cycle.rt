//! Which imports and exports of a component type depend on each other, by their numbers.
ghost use Rattle.std.specs.Prelude.{ℕ, ◌≡◌, ◌+◌, ◌<◌, ◌≤◌, ◌↔◌, ◌⊎◌, true, Some, length, IfOk, OnOk, IsTrue, Contains};
ghost use Rattle.wac_types_shapes.specs.declared.shapes.component.InterfaceId.{InterfaceId as Interfaces};
ghost use Rattle.wac_types_shapes.specs.declared.shapes.component.ResourceId.{ResourceId as Resources};
ghost use Rattle.wac_types_shapes.specs.declared.shapes.component.ValueType.TheVariants as val;
ghost use Rattle.wac_types_shapes.specs.declared.shapes.component.«Type».{«Type» as AnyType};
ghost use Rattle.wac_types_shapes.specs.declared.shapes.component.«Type».TheVariants as ty_of;
ghost use Rattle.wac_edges.specs.cycles.Cycles.{AreWithin, IsStep};
ghost use Rattle.wac_edges.specs.private.cycles.Numbers.{Has};
ghost use Rattle.wac_types_shapes.specs.shapes.Kinds.{kind_type};
ghost use Rattle.wac_types_collection.specs.collection.Collection.{holds_type};
ghost use Rattle.wac_types_collection.specs.reach.Reach.{IsIn};
ghost use Rattle.wac_types_collection.specs.wide.Wide.{AreThere};
ghost use Rattle.wac_encode_faults.specs.Cycle.{DependsByNumber, HasItemCycle, owner_of};
ghost use Rattle.wac_encode_faults.specs.Free.{IsFree};
ghost use Rattle.wac_encode_faults.specs.Sides.{parted_sides};
ghost use Rattle.wac_encode_faults.specs.private.Binding.{sides_with};
ghost use Rattle.wac_encode_faults.specs.private.DefinitionOwners.{AreDefinitionOwners, IsOwnerOfType};
ghost use Rattle.wac_encode_faults.specs.private.Owners.{AddsSteps, AddsItemSteps, AddsImportSteps, AddsSideOwners, AddsSuppliers, IsTarget, KindUses, AdditionalUses, IsFreeInAddition};
ghost use Rattle.wac_encode_faults.specs.private.Search.{AreHeld};
ghost use Rattle.wac_encode_faults.specs.private.Sets.{value_of};

use crate::additional::interface_at;
use crate::definition_owners::{DefinitionOwners, definition_in, find_definition_owners};
use crate::imports::join_imports;
use crate::owners::{Owners, Suppliers, note_side_owners, note_suppliers};
use crate::parts::add_parts;
use crate::type_items::add_free_in_types;
use crate::unbound::{add_free_of_type, resource_at};
use indexmap::{IndexMap, IndexSet};
use std::alloc::AllocError;
use std::collections::BTreeSet;
use wac_edges::cycles::cycles::{add_step, empty_sets, lowest_on_cycle};
use wac_types_collection::wide::{add_used, wide_uses};
use wac_types_collection::{
    DefinedTypeId, InterfaceId, ItemKind, Named, ResourceId, Type, Types, UsedType, ValueType,
};

/// Adds a step to a number, if there is one, and if it leads to another number.
fn add_step_to(
    targets: &mut [BTreeSet<usize>],
    from: usize,
    to: Option<usize>,
) -> Result<(), AllocError>
    requires { from < length targets.old }
    ensures { OnOk result (AddsSteps from (λ b. to ≡ Some b) targets.old targets.new) }
{
    let Some(to) = to else {
        return Ok(());
    };
    if to == from {
        return Ok(());
    }
    add_step(targets, from, to)
}

/// Adds steps to the items that supply these interfaces.
fn add_steps_of_uses(
    targets: &mut [BTreeSet<usize>],
    suppliers: &Suppliers,
    used: &IndexSet<InterfaceId>,
    from: usize,
) -> Result<(), AllocError>
    requires { from < length targets.old }
    ensures { OnOk result (AddsSteps from (λ b. (j : Interfaces) × Contains used.now.keys j × (value_of suppliers.now.entries j ≡ Some b)) targets.old targets.new) }
{
    for i in 0..used.len() {
        let id = interface_at(used, i);
        add_step_to(targets, from, suppliers.get(&id).copied())?;
    }
    Ok(())
}

/// Adds steps to the items that bind these resources.
fn add_steps_of_free(
    targets: &mut [BTreeSet<usize>],
    owners: &Owners,
    free: &IndexSet<ResourceId>,
    from: usize,
) -> Result<(), AllocError>
    requires { from < length targets.old }
    ensures { OnOk result (AddsSteps from (λ b. (r : Resources) × Contains free.now.keys r × (owner_of owners.now.entries r ≡ Some b)) targets.old targets.new) }
{
    for i in 0..free.len() {
        let resource = resource_at(free, i);
        add_step_to(targets, from, owners.get(&resource).copied())?;
    }
    Ok(())
}

/// Adds steps to these numbers.
fn add_steps_to(
    targets: &mut [BTreeSet<usize>],
    numbers: &BTreeSet<usize>,
    from: usize,
) -> Result<(), AllocError>
    requires { from < length targets.old }
    ensures { OnOk result (AddsSteps from (Has numbers.now.keys) targets.old targets.new) }
{
    for to in numbers.iter() {
        add_step_to(targets, from, Some(*to))?;
    }
    Ok(())
}

/// Adds steps to the items that bind a free resource of a type.
fn add_steps_of_type(
    targets: &mut [BTreeSet<usize>],
    owners: &Owners,
    types: &Types,
    ty: Type,
    from: usize,
) -> Result<(), AllocError>
    requires held { holds_type types.now ty ≡ true }
    requires from { from < length targets.old }
    ensures { OnOk result (AddsSteps from (IsOwnerOfType types.now owners.now.entries ty) targets.old targets.new) }
{
    let mut free = IndexSet::new(types.allocator());
    add_free_of_type(&mut free, types, ty)?;
    add_steps_of_free(targets, owners, &free, from)
}

/// Adds steps to the items that bind a free resource of a definition.
fn add_steps_of_definition(
    targets: &mut [BTreeSet<usize>],
    owners: &Owners,
    known: &DefinitionOwners,
    types: &Types,
    id: DefinedTypeId,
    from: usize,
) -> Result<(), AllocError>
    requires held { holds_type types.now (ty_of.Value (val.Defined id)) ≡ true }
    requires known { AreDefinitionOwners types.now owners.now.entries known.now.entries }
    requires from { from < length targets.old }
    ensures { OnOk result (AddsSteps from (IsOwnerOfType types.now owners.now.entries (ty_of.Value (val.Defined id))) targets.old targets.new) }
{
    match known.get(&id) {
        Some(numbers) => add_steps_to(targets, numbers, from),
        None => {
            let ty = Type::Value(ValueType::Defined(id));
            add_steps_of_type(targets, owners, types, ty, from)
        }
    }
}

/// Adds steps to the items that bind a free resource of a parameter or a result.
fn add_steps_of_part(
    targets: &mut [BTreeSet<usize>],
    owners: &Owners,
    known: &DefinitionOwners,
    types: &Types,
    ty: Type,
    from: usize,
) -> Result<(), AllocError>
    requires held { holds_type types.now ty ≡ true }
    requires known { AreDefinitionOwners types.now owners.now.entries known.now.entries }
    requires from { from < length targets.old }
    ensures { OnOk result (AddsSteps from (IsOwnerOfType types.now owners.now.entries ty) targets.old targets.new) }
{
    match definition_in(ty) {
        Some(id) => add_steps_of_definition(targets, owners, known, types, id, from),
        None => add_steps_of_type(targets, owners, types, ty, from),
    }
}

/// Adds steps to the items that bind a free resource of one of these types.
fn add_steps_of_parts(
    targets: &mut [BTreeSet<usize>],
    owners: &Owners,
    known: &DefinitionOwners,
    types: &Types,
    found: &[Type],
    from: usize,
) -> Result<(), AllocError>
    requires held { (t : AnyType) → IsIn t found.now → holds_type types.now t ≡ true }
    requires known { AreDefinitionOwners types.now owners.now.entries known.now.entries }
    requires from { from < length targets.old }
    ensures { OnOk result (AddsSteps from (λ b. (t : AnyType) × Contains found.now t × IsOwnerOfType types.now owners.now.entries t b) targets.old targets.new) }
{
    for i in 0..found.len() {
        add_steps_of_part(targets, owners, known, types, found[i], from)?;
    }
    Ok(())
}

/// Adds steps to the items that bind a free resource of an item's type. Of a function, what is known of its parameters and
/// its result is not found anew.
fn add_steps_of_kind(
    targets: &mut [BTreeSet<usize>],
    owners: &Owners,
    known: &DefinitionOwners,
    types: &Types,
    ty: Type,
    from: usize,
) -> Result<(), AllocError>
    requires held { holds_type types.now ty ≡ true }
    requires known { AreDefinitionOwners types.now owners.now.entries known.now.entries }
    requires from { from < length targets.old }
    ensures { OnOk result (AddsSteps from (IsOwnerOfType types.now owners.now.entries ty) targets.old targets.new) }
{
    types.law(); // proof only
    let Type::Func(_) = ty else {
        return add_steps_of_type(targets, owners, types, ty, from);
    };
    let mut found = IndexSet::new(types.allocator());
    add_parts(&mut found, types, ty)?;
    add_steps_of_parts(targets, owners, known, types, found.as_slice(), from)
}

/// Returns the interfaces that an item uses: an instance widely.
fn uses_of_item(types: &Types, item: ItemKind) -> Result<IndexSet<InterfaceId>, AllocError>
    requires { holds_type types.now (kind_type item) ≡ true }
    ensures { IfOk result (λ s. (j : Interfaces) → Contains s.keys j ↔ KindUses types.now item j) }
{
    types.law();
    match item {
        ItemKind::Instance(id) => wide_uses(types, id),
        _ => Ok(IndexSet::new(types.allocator())),
    }
}

/// Adds steps from an item to those on which it depends.
fn add_steps_of_item(
    targets: &mut [BTreeSet<usize>],
    owners: &Owners,
    suppliers: &Suppliers,
    known: &DefinitionOwners,
    types: &Types,
    item: ItemKind,
    from: usize,
) -> Result<(), AllocError>
    requires held { holds_type types.now (kind_type item) ≡ true }
    requires known { AreDefinitionOwners types.now owners.now.entries known.now.entries }
    requires from { from < length targets.old }
    ensures { OnOk result (AddsSteps from (IsTarget (KindUses types.now item) (IsFree types.now (kind_type item)) suppliers.now.entries owners.now.entries) targets.old targets.new) }
{
    let used = uses_of_item(types, item)?;
    add_steps_of_uses(targets, suppliers, &used, from)?;
    add_steps_of_kind(targets, owners, known, types, item.ty(), from)
}

/// Adds steps from an additional import to those items on which it depends.
fn add_steps_of_additional(
    targets: &mut [BTreeSet<usize>],
    owners: &Owners,
    suppliers: &Suppliers,
    types: &Types,
    item: ItemKind,
    from: usize,
) -> Result<(), AllocError>
    requires held { holds_type types.now (kind_type item) ≡ true }
    requires from { from < length targets.old }
    ensures { OnOk result (AddsSteps from (IsTarget (AdditionalUses types.now item) (IsFreeInAddition types.now item) suppliers.now.entries owners.now.entries) targets.old targets.new) }
{
    types.law();
    let ItemKind::Instance(id) = item else {
        return Ok(());
    };
    let mut used = IndexSet::new(types.allocator());
    add_used(&mut used, &types[id].uses)?;
    add_steps_of_uses(targets, suppliers, &used, from)?;
    let mut free = IndexSet::new(types.allocator());
    add_free_in_types(&mut free, types, id)?;
    add_steps_of_free(targets, owners, &free, from)
}

/// Adds steps from the items of a side to those on which they depend. The first item has the number `first`.
fn add_steps_of_items(
    targets: &mut [BTreeSet<usize>],
    owners: &Owners,
    suppliers: &Suppliers,
    known: &DefinitionOwners,
    types: &Types,
    items: &Named<ItemKind>,
    first: usize,
    end: usize,
) -> Result<(), AllocError>
    requires held { AreHeld types.now items.now }
    requires known { AreDefinitionOwners types.now owners.now.entries known.now.entries }
    requires end { end ≡ first + length items.now }
    requires fits { end ≤ length targets.old }
    ensures { OnOk result (AddsItemSteps (KindUses types.now) (λ k. IsFree types.now (kind_type k)) first items.now suppliers.now.entries owners.now.entries targets.old targets.new) }
{
    for number in first..end {
        let item = *items.value_at(number - first);
        add_steps_of_item(targets, owners, suppliers, known, types, item, number)?;
    }
    Ok(())
}

/// Adds steps from an import, which is additional unless its number is less than `own`.
fn add_steps_of_import(
    targets: &mut [BTreeSet<usize>],
    owners: &Owners,
    suppliers: &Suppliers,
    known: &DefinitionOwners,
    types: &Types,
    item: ItemKind,
    number: usize,
    own: usize,
) -> Result<(), AllocError>
    requires held { holds_type types.now (kind_type item) ≡ true }
    requires known { AreDefinitionOwners types.now owners.now.entries known.now.entries }
    requires from { number < length targets.old }
    ensures { OnOk result (AddsSteps number (λ b. ((number < own) × IsTarget (KindUses types.now item) (IsFree types.now (kind_type item)) suppliers.now.entries owners.now.entries b) ⊎ ((own ≤ number) × IsTarget (AdditionalUses types.now item) (IsFreeInAddition types.now item) suppliers.now.entries owners.now.entries b)) targets.old targets.new) }
{
    if number < own {
        return add_steps_of_item(targets, owners, suppliers, known, types, item, number);
    }
    add_steps_of_additional(targets, owners, suppliers, types, item, number)
}

/// Adds steps from imports to those items on which they depend. The imports from the number `own` on are additional.
fn add_steps_of_imports(
    targets: &mut [BTreeSet<usize>],
    owners: &Owners,
    suppliers: &Suppliers,
    known: &DefinitionOwners,
    types: &Types,
    imports: &Named<ItemKind>,
    own: usize,
) -> Result<(), AllocError>
    requires held { AreHeld types.now imports.now }
    requires known { AreDefinitionOwners types.now owners.now.entries known.now.entries }
    requires fits { length imports.now ≤ length targets.old }
    ensures { OnOk result (AddsImportSteps types.now own imports.now suppliers.now.entries owners.now.entries targets.old targets.new) }
{
    for number in 0..imports.len() {
        let item = *imports.value_at(number);
        add_steps_of_import(targets, owners, suppliers, known, types, item, number, own)?;
    }
    Ok(())
}

/// Adds steps from imports to those items on which they depend, and notes what they bind and supply. The imports from the
/// number `own` on are additional.
fn add_import_dependencies(
    targets: &mut [BTreeSet<usize>],
    owners: &mut Owners,
    suppliers: &mut Suppliers,
    types: &Types,
    uses: &Named<UsedType>,
    imports: &Named<ItemKind>,
    own: usize,
) -> Result<(), AllocError>
    requires held { AreHeld types.now imports.now }
    requires fits { length imports.now ≤ length targets.old }
    ensures owners { OnOk result (AddsSideOwners types.now uses.now 0 imports.now owners.old.entries owners.new.entries) }
    ensures suppliers { OnOk result (AddsSuppliers types.now 0 imports.now suppliers.old.entries suppliers.new.entries) }
    ensures steps { OnOk result (AddsImportSteps types.now own imports.now suppliers.new.entries owners.new.entries targets.old targets.new) }
{
    let end = imports.len();
    note_side_owners(owners, types, uses, imports, 0, end)?;
    note_suppliers(suppliers, types, imports, 0, end)?;
    let known = find_definition_owners(owners, types, imports)?;
    add_steps_of_imports(targets, owners, suppliers, &known, types, imports, own)
}

/// Adds steps from exports to those items on which they depend, and notes what they bind and supply. The first export has
/// the number `first`.
fn add_export_dependencies(
    targets: &mut [BTreeSet<usize>],
    owners: &mut Owners,
    suppliers: &mut Suppliers,
    types: &Types,
    uses: &Named<UsedType>,
    exports: &Named<ItemKind>,
    first: usize,
    end: usize,
) -> Result<(), AllocError>
    requires held { AreHeld types.now exports.now }
    requires end { end ≡ first + length exports.now }
    requires fits { end ≤ length targets.old }
    ensures owners { OnOk result (AddsSideOwners types.now uses.now first exports.now owners.old.entries owners.new.entries) }
    ensures suppliers { OnOk result (AddsSuppliers types.now first exports.now suppliers.old.entries suppliers.new.entries) }
    ensures steps { OnOk result (AddsItemSteps (KindUses types.now) (λ k. IsFree types.now (kind_type k)) first exports.now suppliers.new.entries owners.new.entries targets.old targets.new) }
{
    note_side_owners(owners, types, uses, exports, first, end)?;
    note_suppliers(suppliers, types, exports, first, end)?;
    let known = find_definition_owners(owners, types, exports)?;
    add_steps_of_items(
        targets, owners, suppliers, &known, types, exports, first, end,
    )
}

/// Adds steps from each of `count` imports and exports to those on which it depends. The imports from the number `own` on
/// are additional.
fn add_dependencies(
    targets: &mut [BTreeSet<usize>],
    types: &Types,
    uses: &Named<UsedType>,
    imports: &Named<ItemKind>,
    own: usize,
    exports: &Named<ItemKind>,
    count: usize,
) -> Result<(), AllocError>
    requires imports { AreHeld types.now imports.now }
    requires exports { AreHeld types.now exports.now }
    requires count { count ≡ length imports.now + length exports.now }
    requires fits { count ≤ length targets.old }
    requires empty { (a b : ℕ) → IsStep targets.old a b → ⊥ }
    ensures { OnOk result ((a b : ℕ) → IsStep targets.new a b ↔ DependsByNumber types.now (parted_sides uses.now own imports.now exports.now) a b) }
{
    let mut owners = IndexMap::new(types.allocator());
    let mut suppliers = IndexMap::new(types.allocator());
    add_import_dependencies(
        targets,
        &mut owners,
        &mut suppliers,
        types,
        uses,
        imports,
        own,
    )?;
    let first = imports.len();
    add_export_dependencies(
        targets,
        &mut owners,
        &mut suppliers,
        types,
        uses,
        exports,
        first,
        count,
    )?;
    // Proof only: no name is there twice (docs/PROOFS.md, 'Laws').
    imports.law();
    exports.law();
    Ok(())
}

/// Returns for each import and export of a component type those on which it depends. The imports come first, then the
/// exports. The imports from the number `own` on are additional: instances with their types only.
///
/// # Errors
/// - `AllocError` if out of memory.
pub fn item_dependencies(
    types: &Types,
    uses: &Named<UsedType>,
    imports: &Named<ItemKind>,
    own: usize,
    exports: &Named<ItemKind>,
) -> Result<Vec<BTreeSet<usize>>, AllocError>
    requires imports { AreHeld types.now imports.now }
    requires exports { AreHeld types.now exports.now }
    ensures counted { IfOk result (λ v. length v.items ≡ length imports.now + length exports.now) }
    ensures within { IfOk result (λ v. AreWithin v.items) }
    ensures steps { IfOk result (λ v. (a b : ℕ) → IsStep v.items a b ↔ DependsByNumber types.now (parted_sides uses.now own imports.now exports.now) a b) }
{
    let Some(count) = imports.len().checked_add(exports.len()) else {
        return Err(AllocError);
    };
    let mut targets = empty_sets(types.allocator(), count)?;
    add_dependencies(&mut targets, types, uses, imports, own, exports, count)?;
    Ok(targets)
}

/// Whether imports and exports of a component type depend on each other in a cycle. The imports from the number `own` on
/// are additional.
///
/// # Errors
/// - `AllocError` if out of memory.
pub(crate) fn has_item_cycle(
    types: &Types,
    uses: &Named<UsedType>,
    imports: &Named<ItemKind>,
    own: usize,
    exports: &Named<ItemKind>,
) -> Result<bool, AllocError>
    requires imports { AreHeld types.now imports.now }
    requires exports { AreHeld types.now exports.now }
    ensures { IfOk result (λ b. IsTrue b ↔ HasItemCycle types.now (parted_sides uses.now own imports.now exports.now)) }
{
    let targets = item_dependencies(types, uses, imports, own, exports)?;
    let found = lowest_on_cycle(types.allocator(), targets.as_slice())?;
    Ok(found.is_some())
}

/// Whether imports and exports of a component type with additional imports depend on each other in a cycle. No additional
/// import may have the name of another import.
///
/// # Errors
/// - `AllocError` if out of memory.
pub(crate) fn sides_have_cycle(
    types: &Types,
    uses: &Named<UsedType>,
    imports: &Named<ItemKind>,
    additional: &IndexSet<InterfaceId>,
    exports: &Named<ItemKind>,
) -> Result<bool, AllocError>
    requires imports { AreHeld types.now imports.now }
    requires additional { AreThere types.now additional.now.keys }
    requires exports { AreHeld types.now exports.now }
    ensures { IfOk result (λ b. IsTrue b ↔ HasItemCycle types.now (sides_with types.now uses.now imports.now additional.now.keys exports.now)) }
{
    let own = imports.len();
    let Ok(all) = join_imports(types, imports, additional.as_slice()) else {
        return Err(AllocError);
    };
    has_item_cycle(types, uses, &all, own, exports)
}
