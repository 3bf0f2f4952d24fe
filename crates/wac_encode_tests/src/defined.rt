//! Types that the root defines.

ghost use Rattle.std.specs.Prelude.{◌≡◌, true};
ghost use Rattle.wac_types_shapes.specs.shapes.Kinds.{kind_type};
ghost use Rattle.wac_types_collection.specs.collection.Collection.{holds_type};
ghost use Rattle.wac_encode_scopes.specs.private.Closed.{AreClosedTypes};
ghost use Rattle.wac_encode_tests.specs.private.Opened.{CanDefine, IsRootOf};

use crate::opened::bound_resources;
use crate::rows::Items;
use std::process::Abort;
use wac_encode_faults::{Role, lowest_fault};
use wac_encode_interfaces::{TypeWriter, definition_roots, world_types};
use wac_encode_scopes::{ClosedTypes, State};
use wac_types_shapes::ItemKind;

// The type of an item has no fault as a definition of the root.
fn assert_definable(rt: &impl Abort, items: &Items, merged: bool, state: &State, item: ItemKind)
    requires { holds_type items.now.types (kind_type item) ≡ true }
    ensures { CanDefine items.now.types merged state.now (kind_type item) }
{
    let bound = bound_resources(rt, items, merged, state);
    let fault = lowest_fault(&items.types, &bound, Role::Defined, item);
    let None = fault.expect(rt, "room for sets") else {
        panic!(rt; "a fault");
    };
}

// Writes the definition of the type of an item.
fn define(
    rt: &impl Abort,
    items: &Items,
    closed: &ClosedTypes,
    merged: bool,
    state: &mut State,
    item: ItemKind,
)
    requires closed { AreClosedTypes items.now.types closed.now }
    requires root { IsRootOf items.now.types merged state.old }
    ensures { IsRootOf items.now.types merged state.new }
{
    let types = &items.types;
    let ty = item.ty();
    assert!(rt; types.contains(ty));
    assert_definable(rt, items, merged, state, item);
    let roots = definition_roots(types, ty).expect(rt, "room for types");
    let worlds = world_types(types, closed, roots.as_slice());
    let worlds = worlds.expect(rt, "component types");
    let writer = TypeWriter::new(types, closed, merged, &worlds);
    let defined = writer.definition(state, ty);
    defined.expect(rt, "a definition");
}

/// Writes the definitions of the types at these places, in order.
pub fn define_all(
    rt: &impl Abort,
    items: &Items,
    closed: &ClosedTypes,
    merged: bool,
    state: &mut State,
    places: &[usize],
)
    requires closed { AreClosedTypes items.now.types closed.now }
    requires root { IsRootOf items.now.types merged state.old }
    ensures { IsRootOf items.now.types merged state.new }
{
    for i in 0..places.len() {
        let item = items.kind(rt, places[i]);
        define(rt, items, closed, merged, state, item);
    }
}
