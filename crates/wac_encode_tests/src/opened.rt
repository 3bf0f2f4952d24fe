//! Items that the root imports one by one.

ghost use Rattle.std.specs.Prelude.{◌≡◌, true, None};
ghost use Rattle.wac_types_shapes.specs.declared.shapes.component.«Type».TheVariants as ty;
ghost use Rattle.wac_types_shapes.specs.shapes.Kinds.{kind_type};
ghost use Rattle.wac_types_collection.specs.collection.Collection.{holds_type};
ghost use Rattle.wac_encode_scopes.specs.private.Closed.{AreClosedTypes};
ghost use Rattle.wac_encode_interfaces.specs.private.Imports.{module_type_of};
ghost use Rattle.wac_encode_tests.specs.private.Opened.{BindsAll, BindsNoneOf, CanImport, IsImported, IsRootOf, item_resource};

use crate::rows::{Item, Items};
use indexmap::IndexSet;
use std::process::Abort;
use wac_encode_faults::{Role, lowest_fault};
use wac_encode_interfaces::{TypeWriter, world_types};
use wac_encode_scopes::{ClosedTypes, State};
use wac_encode_stacks::instance_law;
use wac_types_collection::Types;
use wac_types_shapes::{InterfaceId, ItemKind, Named, ResourceId, Type, UsedType};

// Adds a resource, if the innermost scope binds it.
fn add_bound(
    rt: &impl Abort,
    bound: &mut IndexSet<ResourceId>,
    merged: bool,
    state: &State,
    resource: ResourceId,
)
    requires { BindsAll merged state.now bound.old.keys }
    ensures { BindsAll merged state.now bound.new.keys }
{
    if state.is_bound(merged, resource) {
        bound.insert(resource).expect(rt, "room for a resource");
    }
}

/// The resources of the items that the innermost scope binds.
pub fn bound_resources(
    rt: &impl Abort,
    items: &Items,
    merged: bool,
    state: &State,
) -> IndexSet<ResourceId>
    ensures { BindsAll merged state.now result.keys }
{
    let resources = items.resources(rt);
    let mut bound = IndexSet::new(items.types.allocator());
    for i in 0..resources.len() {
        add_bound(rt, &mut bound, merged, state, resources[i]);
    }
    bound
}

// An item has no fault as an import of the root.
fn assert_importable(rt: &impl Abort, items: &Items, merged: bool, state: &State, item: ItemKind)
    requires { holds_type items.now.types (kind_type item) ≡ true }
    ensures { CanImport items.now.types merged state.now item }
{
    let bound = bound_resources(rt, items, merged, state);
    let fault = lowest_fault(&items.types, &bound, Role::Imported, item);
    let None = fault.expect(rt, "room for sets") else {
        panic!(rt; "a fault");
    };
}

// An item is neither a resource, which may be fresh, nor a core module.
fn assert_plain(rt: &impl Abort, item: ItemKind)
    ensures resource { item_resource item ≡ None }
    ensures module { module_type_of item ≡ None }
{
    match item {
        ItemKind::TypeItem(Type::Resource(_)) => panic!(rt; "a resource"),
        ItemKind::Module(_) => panic!(rt; "a core module"),
        _ => {}
    }
}

// Imports an item that is neither a resource nor a core module, after its type. Returns its index.
fn import_item(
    rt: &impl Abort,
    items: &Items,
    closed: &ClosedTypes,
    merged: bool,
    state: &mut State,
    name: &str,
    item: ItemKind,
) -> u32
    requires closed { AreClosedTypes items.now.types closed.now }
    requires root { IsRootOf items.now.types merged state.old }
    ensures root { IsRootOf items.now.types merged state.new }
    ensures refers { IsImported items.now.types merged state.new item result }
{
    assert_plain(rt, item);
    let types = &items.types;
    let ty = item.ty();
    assert!(rt; types.contains(ty));
    assert_importable(rt, items, merged, state, item);
    let worlds = world_types(types, closed, &[ty]);
    let worlds = worlds.expect(rt, "component types");
    let writer = TypeWriter::new(types, closed, merged, &worlds);
    let imported = writer.import_item(state, name, item);
    imported.expect(rt, "an import")
}

// The resource of a type item that is neither an alias nor a used type.
fn own_resource(
    types: &Types,
    uses: &Named<UsedType>,
    name: &str,
    item: ItemKind,
) -> Option<ResourceId> {
    let ItemKind::TypeItem(Type::Resource(id)) = item else {
        return None;
    };
    let end = types.resolve_resource(id);
    if end.0 != id.0 {
        return None;
    }
    match uses.get(name) {
        Some(_) => None,
        None => Some(id),
    }
}

// Adds a resource, if the innermost scope does not bind it.
fn add_unbound(
    rt: &impl Abort,
    unbound: &mut IndexSet<ResourceId>,
    merged: bool,
    state: &State,
    resource: ResourceId,
)
    requires { BindsNoneOf merged state.now unbound.old.keys }
    ensures { BindsNoneOf merged state.now unbound.new.keys }
{
    if !state.is_bound(merged, resource) {
        unbound.insert(resource).expect(rt, "room for a resource");
    }
}

// The own resources of an interface that the innermost scope does not bind.
fn unbound_resources(
    rt: &impl Abort,
    types: &Types,
    merged: bool,
    state: &State,
    id: InterfaceId,
) -> IndexSet<ResourceId>
    requires { holds_type types.now (ty.Interface id) ≡ true }
    ensures { BindsNoneOf merged state.now result.keys }
{
    let interface = &types[id];
    let mut own = IndexSet::new(types.allocator());
    for i in 0..interface.exports.len() {
        let (name, item) = interface.exports.entry_at(i);
        if let Some(resource) = own_resource(types, &interface.uses, name, *item) {
            add_unbound(rt, &mut own, merged, state, resource);
        }
    }
    own
}

// Imports an instance, which binds its own resources that are not bound yet.
fn import_instance(
    rt: &impl Abort,
    items: &Items,
    closed: &ClosedTypes,
    merged: bool,
    state: &mut State,
    name: &str,
    id: InterfaceId,
)
    requires closed { AreClosedTypes items.now.types closed.now }
    requires root { IsRootOf items.now.types merged state.old }
    ensures { IsRootOf items.now.types merged state.new }
{
    let types = &items.types;
    types.law(); // proof only
    instance_law();
    let item = ItemKind::Instance(id);
    let imported = import_item(rt, items, closed, merged, state, name, item);
    assert!(rt; types.contains(Type::Interface(id)));
    let own = unbound_resources(rt, types, merged, state, id);
    state
        .tell_instance(types, closed, merged, id, imported, &own)
        .expect(rt, "room for records");
}

/// Imports an item. An instance binds its own resources that are not bound yet.
pub fn import(
    rt: &impl Abort,
    items: &Items,
    closed: &ClosedTypes,
    merged: bool,
    state: &mut State,
    name: &str,
    item: ItemKind,
)
    requires closed { AreClosedTypes items.now.types closed.now }
    requires root { IsRootOf items.now.types merged state.old }
    ensures { IsRootOf items.now.types merged state.new }
{
    match item {
        ItemKind::Instance(id) => import_instance(rt, items, closed, merged, state, name, id),
        item => {
            import_item(rt, items, closed, merged, state, name, item);
        }
    }
}

/// Imports these items in order.
pub fn import_all(
    rt: &impl Abort,
    items: &Items,
    closed: &ClosedTypes,
    merged: bool,
    state: &mut State,
    imports: &[Item],
)
    requires closed { AreClosedTypes items.now.types closed.now }
    requires root { IsRootOf items.now.types merged state.old }
    ensures { IsRootOf items.now.types merged state.new }
{
    for i in 0..imports.len() {
        let (name, place) = imports[i];
        let item = items.kind(rt, place);
        import(rt, items, closed, merged, state, name, item);
    }
}
