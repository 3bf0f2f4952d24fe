//! Which import of a merge binds a resource.

ghost use Rattle.std.specs.Prelude.{◌≡◌, ◌||◌, IfOk, OnOk, Some};
ghost use Rattle.std.specs.List.{list_any};
ghost use Rattle.wac_types_shapes.specs.declared.shapes.component.Interface.{Interface as AnInterface};
ghost use Rattle.wac_types_shapes.specs.declared.shapes.component.ResourceId.{ResourceId as AResource};
ghost use Rattle.wac_types_collection.specs.collection.Collection.{HasInterface, item_at};
ghost use Rattle.wac_merge_classes.specs.entries.Bindings.{AreBindings, AreHeld, first_in};
ghost use Rattle.wac_merge_classes.specs.terms.Merge.{import_entries};
ghost use Rattle.wac_encode_scopes.specs.private.Telling.{is_one_of};
ghost use Rattle.wac_encode_imports.specs.private.Classes.{is_class, first_of, is_first_of, is_that};

use indexmap::IndexSet;
use std::alloc::{AllocError, Global};
use wac_merge_classes::entries::bindings::Bindings;
use wac_merge_classes::entries::classes::Classes;
use wac_merge_classes::entries::entry::Entry;
use wac_types_collection::{InterfaceId, ItemKind, Named, ResourceId, Type, Types};

/// Returns the imports as entries.
fn entries_of(alloc: Global, imports: &Named<ItemKind>) -> Result<Vec<Entry>, AllocError>
    ensures { IfOk result (λ es. es.items ≡ import_entries imports.now) }
{
    let mut entries = Vec::new(alloc);
    for i in 0..imports.len() {
        let (name, item) = imports.entry_at(i);
        let entry = Entry::new(alloc, name, *item)?;
        entries.push(entry)?;
    }
    Ok(entries)
}

/// Finds which import is the first to bind each resource.
pub(crate) fn import_bindings(
    types: &Types,
    imports: &Named<ItemKind>,
) -> Result<Bindings, AllocError>
    requires { AreHeld types.now (import_entries imports.now) }
    ensures { IfOk result (λ b. AreBindings types.now (import_entries imports.now) b) }
{
    let alloc = types.allocator();
    let entries = entries_of(alloc, imports)?;
    let asked = entries.as_slice();
    let classes = Classes::new(alloc, asked)?;
    Bindings::new(alloc, types, asked, &classes)
}

/// Whether the class with this number is the first to bind a resource.
pub(crate) fn is_first(bindings: &Bindings, resource: ResourceId, number: usize) -> bool
    ensures { result ≡ is_class number (first_in bindings.now resource) }
{
    match bindings.first(resource) {
        Some((class, _)) => class == number,
        None => false,
    }
}

/// Returns the resource of a type item, if the class with this number is the first to bind it.
fn first_resource(bindings: &Bindings, item: ItemKind, number: usize) -> Option<ResourceId>
    ensures { result ≡ first_of bindings.now number item }
{
    let ItemKind::TypeItem(Type::Resource(id)) = item else {
        return None;
    };
    if is_first(bindings, id, number) {
        Some(id)
    } else {
        None
    }
}

/// Adds a resource to a set, if there is one.
fn add_resource(
    set: &mut IndexSet<ResourceId>,
    resource: Option<ResourceId>,
) -> Result<(), AllocError>
    ensures { OnOk result ((r : AResource) → is_one_of set.new.keys r ≡ (is_one_of set.old.keys r || is_that resource r)) }
{
    let Some(resource) = resource else {
        return Ok(());
    };
    set.insert(resource)?;
    Ok(())
}

/// Returns the resources of type items that the class with this number is the first to bind.
fn first_among(
    alloc: Global,
    bindings: &Bindings,
    items: &Named<ItemKind>,
    number: usize,
) -> Result<IndexSet<ResourceId>, AllocError>
    ensures { IfOk result (λ s. (r : AResource) → is_one_of s.keys r ≡ list_any (is_first_of bindings.now number r) items.now) }
{
    let mut own = IndexSet::new(alloc);
    for i in 0..items.len() {
        let (_, item) = items.entry_at(i);
        let resource = first_resource(bindings, *item, number);
        add_resource(&mut own, resource)?;
    }
    Ok(own)
}

/// Returns the resources of an interface's type items that the class with this number is the first to bind.
pub(crate) fn first_resources(
    types: &Types,
    bindings: &Bindings,
    interface: InterfaceId,
    number: usize,
) -> Result<IndexSet<ResourceId>, AllocError>
    requires { HasInterface types.now interface }
    ensures { IfOk result (λ s. (it : AnInterface) → item_at types.now.interfaces interface.0 ≡ Some it → (r : AResource) → is_one_of s.keys r ≡ list_any (is_first_of bindings.now number r) it.exports) }
{
    let it = &types[interface];
    first_among(types.allocator(), bindings, &it.exports, number)
}
