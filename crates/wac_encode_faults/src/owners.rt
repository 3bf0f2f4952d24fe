//! Which items of a component type bind resources, and which supply interfaces, by their numbers.
ghost use Rattle.std.specs.Prelude.{ℕ, ◌≡◌, ◌+◌, true, false, length, IfOk, OnOk, Contains};
ghost use Rattle.wac_types_shapes.specs.primitives.Name.{Name};
ghost use Rattle.wac_types_shapes.specs.primitives.Tree.{Side};
ghost use Rattle.wac_types_shapes.specs.shapes.Kinds.{kind_type};
ghost use Rattle.wac_types_collection.specs.collection.Collection.{holds_type};
ghost use Rattle.wac_encode_faults.specs.Sides.{listed_interface, export_bindings, parted_sides};
ghost use Rattle.wac_encode_faults.specs.private.Binding.{Binds};
ghost use Rattle.wac_encode_faults.specs.Cycle.{numbered_items, owner_of, AreOwners};
ghost use Rattle.wac_encode_faults.specs.private.Owners.{is_of_group as is_of_group_of, group_of, AreNoted, AddsOwners, AddsSideOwners, AddsSuppliers};
ghost use Rattle.wac_encode_faults.specs.private.Search.{AreHeld};
ghost use Rattle.wac_encode_faults.specs.private.Sets.{value_of};

use crate::additional::interface_at;
use crate::bound::add_bound_by;
use crate::unbound::resource_at;
use crate::unlisted::add_item;
use indexmap::{IndexMap, IndexSet};
use std::alloc::AllocError;
use wac_types_collection::{InterfaceId, ItemKind, Named, ResourceId, Types, UsedType};

/// The number of the item that binds each resource.
pub(crate) type Owners = IndexMap<ResourceId, usize>;

/// The number of the item that supplies each interface.
pub(crate) type Suppliers = IndexMap<InterfaceId, usize>;

/// Notes a number for a resource, unless it has one.
fn note_owner(owners: &mut Owners, resource: ResourceId, number: usize) -> Result<(), AllocError>
    ensures { OnOk result (AreNoted (λ r. r ≡ resource) number (owner_of owners.old.entries) (owner_of owners.new.entries)) }
{
    if let Some(_) = owners.get(&resource) {
        return Ok(());
    }
    owners.insert(resource, number)?;
    Ok(())
}

/// Notes a number for those of the resources that have none.
fn note_resources(
    owners: &mut Owners,
    resources: &IndexSet<ResourceId>,
    number: usize,
) -> Result<(), AllocError>
    ensures { OnOk result (AreNoted (Contains resources.now.keys) number (owner_of owners.old.entries) (owner_of owners.new.entries)) }
{
    for i in 0..resources.len() {
        let resource = resource_at(resources, i);
        note_owner(owners, resource, number)?;
    }
    Ok(())
}

/// Notes the number of an item for those of the resources that it binds that have none.
fn note_bound_by(
    owners: &mut Owners,
    types: &Types,
    uses: &Named<UsedType>,
    name: &str,
    item: ItemKind,
    number: usize,
) -> Result<(), AllocError>
    requires { holds_type types.now (kind_type item) ≡ true }
    ensures { OnOk result ((side : Side) → AreNoted (Binds types.now uses.now side (name.now, item)) number (owner_of owners.old.entries) (owner_of owners.new.entries)) }
{
    let mut bound = IndexSet::new(types.allocator());
    add_bound_by(&mut bound, types, uses, name, item)?;
    note_resources(owners, &bound, number)
}

/// Whether an item is a type item, or whether it is another item.
fn is_of_group(item: ItemKind, type_items: bool) -> bool
    ensures { (n : Name) → result ≡ is_of_group_of type_items (n, item) }
{
    match item {
        ItemKind::TypeItem(_) => type_items,
        _ => !type_items,
    }
}

/// Notes the number of an item, if it is a type item, or if it is another item, for those of the resources that it binds
/// that have none.
fn note_bound_in_group(
    owners: &mut Owners,
    types: &Types,
    uses: &Named<UsedType>,
    name: &str,
    item: ItemKind,
    number: usize,
    type_items: bool,
) -> Result<(), AllocError>
    requires { holds_type types.now (kind_type item) ≡ true }
    ensures other { OnOk result (is_of_group_of type_items (name.now, item) ≡ false → owners.new.entries ≡ owners.old.entries) }
    ensures noted { OnOk result (is_of_group_of type_items (name.now, item) ≡ true → (side : Side) → AreNoted (Binds types.now uses.now side (name.now, item)) number (owner_of owners.old.entries) (owner_of owners.new.entries)) }
{
    if is_of_group(item, type_items) {
        return note_bound_by(owners, types, uses, name, item, number);
    }
    Ok(())
}

/// Notes the numbers of a side's type items, or of its other items, for the resources that they bind, unless these have
/// one.
fn note_owners(
    owners: &mut Owners,
    types: &Types,
    uses: &Named<UsedType>,
    items: &Named<ItemKind>,
    first: usize,
    end: usize,
    type_items: bool,
) -> Result<(), AllocError>
    requires held { AreHeld types.now items.now }
    requires end { end ≡ first + length items.now }
    ensures { OnOk result (AddsOwners types.now uses.now first items.now (group_of type_items items.now) owners.old.entries owners.new.entries) }
{
    for number in first..end {
        let (name, item) = items.entry_at(number - first);
        note_bound_in_group(owners, types, uses, name, *item, number, type_items)?;
    }
    Ok(())
}

/// Notes the numbers of a side's items for the resources that they bind, unless these have one: instances come before type
/// items.
pub(crate) fn note_side_owners(
    owners: &mut Owners,
    types: &Types,
    uses: &Named<UsedType>,
    items: &Named<ItemKind>,
    first: usize,
    end: usize,
) -> Result<(), AllocError>
    requires held { AreHeld types.now items.now }
    requires end { end ≡ first + length items.now }
    ensures { OnOk result (AddsSideOwners types.now uses.now first items.now owners.old.entries owners.new.entries) }
{
    note_owners(owners, types, uses, items, first, end, false)?;
    note_owners(owners, types, uses, items, first, end, true)
}

/// Returns the number of the import or export that binds each resource of a component type. The imports come first, then
/// the exports.
///
/// # Errors
/// - `AllocError` if out of memory.
pub fn item_owners(
    types: &Types,
    uses: &Named<UsedType>,
    imports: &Named<ItemKind>,
    exports: &Named<ItemKind>,
) -> Result<IndexMap<ResourceId, usize>, AllocError>
    requires imports { AreHeld types.now imports.now }
    requires exports { AreHeld types.now exports.now }
    ensures { IfOk result (λ m. (own : ℕ) → AreOwners (numbered_items (parted_sides uses.now own imports.now exports.now)) (export_bindings types.now (parted_sides uses.now own imports.now exports.now)) m.entries) }
{
    let end = imports.len();
    let Some(count) = end.checked_add(exports.len()) else {
        return Err(AllocError);
    };
    let mut owners = IndexMap::new(types.allocator());
    note_side_owners(&mut owners, types, uses, imports, 0, end)?;
    note_side_owners(&mut owners, types, uses, exports, end, count)?;
    Ok(owners)
}

/// Notes a number for an interface, unless it has one.
fn note_supplier(
    suppliers: &mut Suppliers,
    id: InterfaceId,
    number: usize,
) -> Result<(), AllocError>
    ensures { OnOk result (AreNoted (λ j. j ≡ id) number (value_of suppliers.old.entries) (value_of suppliers.new.entries)) }
{
    if let Some(_) = suppliers.get(&id) {
        return Ok(());
    }
    suppliers.insert(id, number)?;
    Ok(())
}

/// Notes the number of an item for its interface, if the item is an instance under its interface's id, unless it has one.
fn note_listed(
    suppliers: &mut Suppliers,
    types: &Types,
    name: &str,
    item: ItemKind,
    number: usize,
) -> Result<(), AllocError>
    requires { holds_type types.now (kind_type item) ≡ true }
    ensures { OnOk result (AreNoted (Contains (listed_interface types.now (name.now, item))) number (value_of suppliers.old.entries) (value_of suppliers.new.entries)) }
{
    let mut listed = IndexSet::new(types.allocator());
    add_item(&mut listed, types, name, item)?;
    if listed.is_empty() {
        return Ok(());
    }
    let id = interface_at(&listed, 0);
    note_supplier(suppliers, id, number)
}

/// Notes the numbers of a side's items for the interfaces whose instances they are under their ids, unless these have one.
pub(crate) fn note_suppliers(
    suppliers: &mut Suppliers,
    types: &Types,
    items: &Named<ItemKind>,
    first: usize,
    end: usize,
) -> Result<(), AllocError>
    requires held { AreHeld types.now items.now }
    requires end { end ≡ first + length items.now }
    ensures { OnOk result (AddsSuppliers types.now first items.now suppliers.old.entries suppliers.new.entries) }
{
    for number in first..end {
        let (name, item) = items.entry_at(number - first);
        note_listed(suppliers, types, name, *item, number)?;
    }
    Ok(())
}
