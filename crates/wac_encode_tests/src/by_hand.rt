//! Components that are written by hand, and the types of a collection in them.

ghost use Rattle.std.specs.Prelude.{◌≡◌, true, OnOk};
ghost use Rattle.wac_types_collection.specs.collection.Collection.{holds_type};
ghost use Rattle.wac_encode.specs.Root.{HasRoot};
ghost use Rattle.wac_encode_tests.specs.private.ByHand.{IsReadyFor};

use crate::modules::Extern;
use crate::rows::Row::{
    AliasOf, Component, Enumeration, Func, Instance, List, Module, Own, Resource, Taker,
};
use crate::rows::{Items, Row, assert_row};
use crate::tables::{RootRow, definitions};
use std::process::Abort;
use wac_binary::{ComponentValType, Description};
use wac_encode::laws::{growth_law, lending_law};
use wac_encode::{EncodeFault, ResourcePlace, State, TypeEncoder, WriteFault};
use wac_encode_stacks::{instance_law, root_law};
use wac_types_collection::Types;
use wac_types_shapes::{DefinedType, ItemKind, Type, ValueType};

// A call that writes, of the item at a place.
#[derive(Clone, Copy)]
enum Call {
    /// Its type as it is.
    Plain(usize),
    /// The definition of its interface or of its world, or else its type as it is.
    Defined(usize),
    /// The import of a resource under a name.
    Imported(&'static str, usize),
    /// A value type that is no primitive type, as it is used.
    Used(usize),
    /// A definition, of which its type index is then the name.
    Named(usize),
    /// The import of an instance under a name, of which the component is told.
    Instance(&'static str, usize),
}

// A component that is written by calls, in order.
struct Written {
    name: &'static str,
    rows: &'static [Row],
    /// The calls, and the index that each returns.
    calls: &'static [(Call, u32)],
    /// The bytes after the preamble.
    want: &'static [u8],
}

const WRITTEN: &[Written] = &[
    Written {
        name: "a resource is imported afresh, and then as one that equals the first",
        rows: &[Resource, Own(0)],
        calls: &[
            (Call::Imported("a", 0), 0),
            (Call::Imported("b", 0), 1),
            (Call::Plain(0), 0),
            (Call::Used(1), 2),
        ],
        want: &[
            0x0a, 0x0c, 0x02, // two imports
            0x00, 0x01, 0x61, 0x03, 0x01, // a fresh resource
            0x00, 0x01, 0x62, 0x03, 0x00, 0x00, // a type that equals it
            0x07, 0x03, 0x01, 0x69, 0x00, // an `own` of the first
        ],
    },
    Written {
        name: "an alias of an imported resource is imported as one that equals it",
        rows: &[Resource, AliasOf("s", None, 0)],
        calls: &[
            (Call::Imported("a", 0), 0),
            (Call::Imported("b", 1), 1),
            (Call::Plain(1), 0),
        ],
        want: &[
            0x0a, 0x0c, 0x02, // two imports
            0x00, 0x01, 0x61, 0x03, 0x01, // a fresh resource
            0x00, 0x01, 0x62, 0x03, 0x00, 0x00, // a type that equals it
        ],
    },
    Written {
        name: "a function takes an imported resource",
        rows: &[Resource, Taker(0)],
        calls: &[(Call::Imported("r", 0), 0), (Call::Plain(1), 2)],
        want: &[
            0x0a, 0x06, 0x01, 0x00, 0x01, 0x72, 0x03, 0x01, // a fresh resource
            0x07, 0x0a, 0x02, // two types
            0x69, 0x00, // an `own` of it
            0x40, 0x01, 0x01, 0x78, 0x01, 0x01, 0x00, // the function type
        ],
    },
    Written {
        name: "a definition is used by its name",
        rows: &[Enumeration("a"), List(0)],
        calls: &[(Call::Named(0), 0), (Call::Used(0), 0), (Call::Used(1), 1)],
        want: &[
            0x07, 0x07, 0x02, // two types
            0x6d, 0x01, 0x01, 0x61, // the enum
            0x70, 0x00, // a list of it
        ],
    },
    Written {
        name: "an interface is written once as an instance type",
        rows: &[Enumeration("a"), Instance(Some("n:p/i"), &[("t", 0)])],
        calls: &[(Call::Plain(1), 0), (Call::Plain(1), 0)],
        want: &[
            0x07, 0x0f, 0x01, 0x42, 0x02, // an instance type of two declarations
            0x01, 0x6d, 0x01, 0x01, 0x61, // the enum
            0x04, 0x00, 0x01, 0x74, 0x03, 0x00, 0x00, // a type item that equals it
        ],
    },
    Written {
        name: "a world is written once as a component type",
        rows: &[Func(&[], None), Component(Some("n:p/w"), &[("f", 0)], &[])],
        calls: &[(Call::Plain(1), 0), (Call::Plain(1), 0)],
        want: &[
            0x07, 0x0e, 0x01, 0x41, 0x02, // a component type of two declarations
            0x01, 0x40, 0x00, 0x01, 0x00, // a function type
            0x03, 0x00, 0x01, 0x66, 0x01, 0x00, // the import of the function
        ],
    },
    Written {
        name: "an instance binds its own resource, and its enum has a name",
        rows: &[
            Resource,
            Own(0),
            Enumeration("a"),
            Instance(Some("n:p/i"), &[("r", 0), ("t", 2)]),
        ],
        calls: &[
            (Call::Instance("n:p/i", 3), 0),
            (Call::Plain(0), 1),
            (Call::Used(1), 2),
            (Call::Used(2), 3),
        ],
        want: &[
            0x07, 0x15, 0x01, 0x42, 0x03, // an instance type of three declarations
            0x04, 0x00, 0x01, 0x72, 0x03, 0x01, // the resource
            0x01, 0x6d, 0x01, 0x01, 0x61, // the enum
            0x04, 0x00, 0x01, 0x74, 0x03, 0x00, 0x01, // a type item that equals it
            0x0a, 0x0a, 0x01, 0x00, 0x05, 0x6e, 0x3a, 0x70, 0x2f, 0x69, 0x05, 0x00, // the import
            0x06, 0x06, 0x01, 0x03, 0x00, 0x00, 0x01, 0x72, // an alias of its resource
            0x07, 0x03, 0x01, 0x69, 0x01, // an `own` of it
            0x06, 0x06, 0x01, 0x03, 0x00, 0x00, 0x01, 0x74, // an alias of its enum
        ],
    },
    Written {
        name: "of two instances of one interface the first binds its own resource",
        rows: &[Resource, Instance(Some("n:p/i"), &[("r", 0)])],
        calls: &[
            (Call::Instance("a", 1), 0),
            (Call::Instance("b", 1), 1),
            (Call::Plain(0), 1),
        ],
        want: &[
            0x07, 0x09, 0x01, 0x42, 0x01, // an instance type of one declaration
            0x04, 0x00, 0x01, 0x72, 0x03, 0x01, // the resource
            0x0a, 0x0b, 0x02, // two imports
            0x00, 0x01, 0x61, 0x05, 0x00, // an instance
            0x00, 0x01, 0x62, 0x05, 0x00, // another
            0x06, 0x06, 0x01, 0x03, 0x00, 0x00, 0x01, 0x72, // an alias of the first one's resource
        ],
    },
    Written {
        name: "the type of a core module has a core type index",
        rows: &[Module(&[]), Enumeration("a")],
        calls: &[(Call::Used(1), 0), (Call::Plain(0), 0)],
        want: &[
            0x07, 0x05, 0x01, 0x6d, 0x01, 0x01, 0x61, // an enum
            0x03, 0x03, 0x01, 0x50, 0x00, // a core module type without declarations
        ],
    },
];

// Writes a type as it is. Returns its index.
pub(crate) fn as_it_is(
    encoder: &TypeEncoder<'_>,
    state: &mut State,
    ty: Type,
) -> Result<u32, EncodeFault>
    requires held { holds_type encoder.now.types.now ty ≡ true }
    requires ready { IsReadyFor encoder.now.types.now encoder.now.merged state.old }
    ensures { OnOk result (IsReadyFor encoder.now.types.now encoder.now.merged state.new) }
{
    match ty {
        Type::World(id) => encoder.component(state, id),
        _ => encoder.ty(state, ty),
    }
}

// Writes the definition of an interface or of a world, or else a type as it is. Returns its index.
pub(crate) fn definition(
    encoder: &TypeEncoder<'_>,
    state: &mut State,
    ty: Type,
) -> Result<u32, EncodeFault>
    requires held { holds_type encoder.now.types.now ty ≡ true }
    requires ready { IsReadyFor encoder.now.types.now encoder.now.merged state.old }
    ensures { OnOk result (IsReadyFor encoder.now.types.now encoder.now.merged state.new) }
{
    match ty {
        Type::Interface(id) => encoder.interface(state, id),
        Type::World(id) => encoder.world(state, id),
        _ => encoder.ty(state, ty),
    }
}

// Writes the type of the item at a place as it is. Returns its index.
fn plain(rt: &impl Abort, items: &Items, merged: bool, state: &mut State, place: usize) -> u32
    requires { IsReadyFor items.now.types merged state.old }
    ensures { IsReadyFor items.now.types merged state.new }
{
    let types = &items.types;
    let ty = items.kind(rt, place).ty();
    assert!(rt; types.contains(ty));
    let encoder = TypeEncoder::new(types, merged);
    let written = as_it_is(&encoder, state, ty);
    written.expect(rt, "a type")
}

// Writes the definition of the interface or world of the item at a place, or else its type as it is. Returns its index.
fn defined(rt: &impl Abort, items: &Items, merged: bool, state: &mut State, place: usize) -> u32
    requires { IsReadyFor items.now.types merged state.old }
    ensures { IsReadyFor items.now.types merged state.new }
{
    let types = &items.types;
    let ty = items.kind(rt, place).ty();
    assert!(rt; types.contains(ty));
    let encoder = TypeEncoder::new(types, merged);
    let written = definition(&encoder, state, ty);
    written.expect(rt, "a definition")
}

// Imports the resource at a place. Returns its type index.
fn imported(
    rt: &impl Abort,
    items: &Items,
    merged: bool,
    state: &mut State,
    name: &str,
    place: usize,
) -> u32
    requires { IsReadyFor items.now.types merged state.old }
    ensures { IsReadyFor items.now.types merged state.new }
{
    let types = &items.types;
    let resource = items.resource(rt, place);
    assert!(rt; types.contains(Type::Resource(resource)));
    let encoder = TypeEncoder::new(types, merged);
    let written = encoder.import_resource(state, name, resource);
    written.expect(rt, "an import")
}

// Adds a list of a value type to a collection. A component that is right for the collection stays right.
fn list_added(
    rt: &impl Abort,
    types: &mut Types,
    merged: bool,
    state: &State,
    part: ValueType,
) -> ValueType
    requires { IsReadyFor types.old merged state.now }
    ensures { IsReadyFor types.new merged state.now }
{
    types.law(); // proof only
    growth_law(); // proof only
    let list = types.add_defined_type(DefinedType::List(part));
    ValueType::Defined(list.expect(rt, "its id"))
}

// Writes the value type at a place. Returns its type index.
fn used(rt: &impl Abort, items: &Items, merged: bool, state: &mut State, place: usize) -> u32
    requires { IsReadyFor items.now.types merged state.old }
    ensures { IsReadyFor items.now.types merged state.new }
{
    let value = items.value(rt, place);
    value_used(rt, &items.types, merged, state, value)
}

// Writes a value type. Returns its type index.
fn value_used(
    rt: &impl Abort,
    types: &Types,
    merged: bool,
    state: &mut State,
    value: ValueType,
) -> u32
    requires { IsReadyFor types.now merged state.old }
    ensures { IsReadyFor types.now merged state.new }
{
    assert!(rt; types.contains(Type::Value(value)));
    let encoder = TypeEncoder::new(types, merged);
    let written = encoder.value_type(state, value);
    let in_use = written.expect(rt, "a value type");
    let ComponentValType::Index(index) = in_use else {
        panic!(rt; "a primitive type");
    };
    index
}

// Writes the value type at a place, and says that its type index is its name. Returns the index.
fn named(rt: &impl Abort, items: &Items, merged: bool, state: &mut State, place: usize) -> u32
    requires { IsReadyFor items.now.types merged state.old }
    ensures { IsReadyFor items.now.types merged state.new }
{
    let types = &items.types;
    let value = items.value(rt, place);
    assert!(rt; types.contains(Type::Value(value)));
    let encoder = TypeEncoder::new(types, merged);
    let written = encoder.value_type(state, value);
    let in_use = written.expect(rt, "a value type");
    let ComponentValType::Index(index) = in_use else {
        panic!(rt; "a primitive type");
    };
    let item = ItemKind::TypeItem(Type::Value(value));
    let told = state.bind(types, merged, item, index);
    told.expect(rt, "a record");
    index
}

// Imports an instance of the interface at a place, and says that its index is the import's. Returns the index.
fn instance(
    rt: &impl Abort,
    items: &Items,
    merged: bool,
    state: &mut State,
    name: &str,
    place: usize,
) -> u32
    requires { IsReadyFor items.now.types merged state.old }
    ensures { IsReadyFor items.now.types merged state.new }
{
    instance_law(); // proof only
    lending_law(); // proof only
    root_law(); // proof only
    let types = &items.types;
    types.law(); // proof only
    let id = items.interface(rt, place);
    let ty = Type::Interface(id);
    assert!(rt; types.contains(ty));
    let encoder = TypeEncoder::new(types, merged);
    let written = encoder.ty(state, ty);
    let type_index = written.expect(rt, "a type");
    let described = Description::Instance(type_index);
    let imported = state.builder().import(name, described);
    let index = imported.expect(rt, "an import");
    let told = state.bind(types, merged, ItemKind::Instance(id), index);
    told.expect(rt, "records");
    index
}

// Makes a call. Returns its index.
fn called(rt: &impl Abort, items: &Items, merged: bool, state: &mut State, call: Call) -> u32
    requires { IsReadyFor items.now.types merged state.old }
    ensures { IsReadyFor items.now.types merged state.new }
{
    match call {
        Call::Plain(place) => plain(rt, items, merged, state, place),
        Call::Defined(place) => defined(rt, items, merged, state, place),
        Call::Imported(name, place) => imported(rt, items, merged, state, name, place),
        Call::Used(place) => used(rt, items, merged, state, place),
        Call::Named(place) => named(rt, items, merged, state, place),
        Call::Instance(name, place) => instance(rt, items, merged, state, name, place),
    }
}

// The bytes of the component.
fn bytes(rt: &impl Abort, state: &mut State) -> Vec<u8>
    requires { HasRoot state.old }
{
    state.builder().finish().expect(rt, "bytes")
}

// The bytes of a component that is written by these calls, each of which returns its index.
fn with_calls(rt: &impl Abort, items: &Items, merged: bool, row: &Written) -> Vec<u8> {
    let mut state = State::new(items.types.allocator());
    for i in 0..row.calls.len() {
        let (call, index) = row.calls[i];
        let made = called(rt, items, merged, &mut state, call);
        assert_row(rt, made == index, row.name);
    }
    bytes(rt, &mut state)
}

// The bytes of a component with these definitions.
fn with_definitions(rt: &impl Abort, items: &Items, merged: bool, places: &[usize]) -> Vec<u8> {
    let mut state = State::new(items.types.allocator());
    for i in 0..places.len() {
        called(rt, items, merged, &mut state, Call::Defined(places[i]));
    }
    bytes(rt, &mut state)
}

// The fault of the type of the item at a place, in a component that binds nothing.
fn refused(rt: &impl Abort, items: &Items, merged: bool, place: usize) -> EncodeFault {
    let types = &items.types;
    let ty = items.kind(rt, place).ty();
    assert!(rt; types.contains(ty));
    let mut state = State::new(types.allocator());
    let encoder = TypeEncoder::new(types, merged);
    let written = encoder.ty(&mut state, ty);
    written.expect_err(rt, "a fault")
}

// What a resource is bound to in a component that imports it.
fn found(rt: &impl Abort, items: &Items, merged: bool, place: usize) -> Option<ResourcePlace> {
    let mut state = State::new(items.types.allocator());
    let resource = items.resource(rt, place);
    let before = state.find(merged, resource).place;
    assert!(rt; before.is_none());
    imported(rt, items, merged, &mut state, "r", place);
    state.find(merged, resource).place
}

// Each is written so.
fn assert_defined(rt: &(impl Abort + AllocGlobal), rows: &[RootRow]) {
    for row in rows {
        let items = Items::new(rt, rt.alloc(), row.rows);
        let bytes = with_definitions(rt, &items, true, row.definitions);
        assert_row(rt, bytes.as_slice().get(8..) == Some(row.want), row.name);
        let bytes = with_definitions(rt, &items, false, row.definitions);
        assert_row(rt, bytes.as_slice().get(8..) == Some(row.want), row.name);
    }
}

#[test]
fn types_and_interfaces_are_defined_by_hand(rt: HostRuntime) {
    assert_defined(&rt, definitions::DEFINITIONS);
}

#[test]
fn worlds_are_defined_by_hand(rt: HostRuntime) {
    assert_defined(&rt, definitions::WORLDS);
}

#[test]
fn types_are_written_by_hand(rt: HostRuntime) {
    for row in WRITTEN {
        let items = Items::new(&rt, rt.alloc(), row.rows);
        let bytes = with_calls(&rt, &items, true, row);
        assert_row(&rt, bytes.as_slice().get(8..) == Some(row.want), row.name);
        let bytes = with_calls(&rt, &items, false, row);
        assert_row(&rt, bytes.as_slice().get(8..) == Some(row.want), row.name);
    }
}

#[test]
fn a_function_over_a_resource_that_is_not_bound_is_refused(rt: HostRuntime) {
    let items = Items::new(&rt, rt.alloc(), &[Resource, Taker(0)]);
    let mut fault = refused(&rt, &items, true, 1);
    if fault == EncodeFault::OutOfMemory {
        fault = refused(&rt, &items, true, 1);
    }
    assert!(rt; fault == EncodeFault::Write(WriteFault::UnboundResource));
}

#[test]
fn a_resource_is_found_where_it_is_imported(rt: HostRuntime) {
    let items = Items::new(&rt, rt.alloc(), &[Resource]);
    let place = found(&rt, &items, true, 0).expect(&rt, "its place");
    assert!(rt; (place.out, place.index, place.is_type) == (0, 0, true));
}

#[test]
fn types_are_added_between_two_encoders(rt: HostRuntime) {
    let mut items = Items::new(&rt, rt.alloc(), &[Enumeration("a")]);
    let mut state = State::new(rt.alloc());
    assert!(rt; used(&rt, &items, true, &mut state, 0) == 0);
    let part = items.value(&rt, 0);
    let list = list_added(&rt, &mut items.types, true, &state, part);
    assert!(rt; value_used(&rt, &items.types, true, &mut state, list) == 1);
    let bytes = bytes(&rt, &mut state);
    let want = [0x07, 0x07, 0x02, 0x6d, 0x01, 0x01, 0x61, 0x70, 0x00];
    assert!(rt; bytes.as_slice().get(8..) == Some(want.as_slice()));
}
