//! Instances in instances, and worlds in worlds, many deep.

use crate::opened::import;
use crate::rows::Items;
use crate::rows::Row::{Component, Instance};
use std::process::Abort;
use wac_encode_scopes::{ClosedTypes, State};
use wac_types_shapes::{DefinedType, Enum, FuncType, Interface, ItemKind, Type, ValueType, World};

// Adds an enum of one case.
fn add_enum(rt: &impl Abort, items: &mut Items) -> ValueType {
    let cases = Enum::new(items.types.allocator(), &["a"]).expect(rt, "an enum");
    let id = items.types.add_defined_type(DefinedType::Enum(cases));
    ValueType::Defined(id.expect(rt, "its id"))
}

// Adds enums, each with a name of its own.
fn add_enums(rt: &impl Abort, items: &mut Items, count: u32) -> Vec<(String, ValueType)> {
    let alloc = items.types.allocator();
    let mut enums = Vec::new(alloc);
    for i in 0..count {
        let name = format!(in alloc; "e{i}").expect(rt, "a name");
        let value = add_enum(rt, items);
        enums.push((name, value)).expect(rt, "room for an enum");
    }
    enums
}

// Adds a function whose parameters have these names and types.
fn add_func(rt: &impl Abort, items: &mut Items, params: &[(String, ValueType)]) -> ItemKind {
    let alloc = items.types.allocator();
    let mut named = Vec::new(alloc);
    for (name, value) in params {
        named
            .push((name.as_str(), *value))
            .expect(rt, "room for a parameter");
    }
    let func = FuncType::new(alloc, &named, None, false).expect(rt, "a function type");
    ItemKind::Func(items.types.add_func_type(func).expect(rt, "its id"))
}

// Adds instances, so many, one in the other. Each exports the next, and the last one this item.
fn add_instances(rt: &impl Abort, items: &mut Items, item: ItemKind, count: u32) -> ItemKind {
    let alloc = items.types.allocator();
    let mut last = item;
    for _ in 0..count {
        let interface = Interface::new(alloc, None, &[("j", last)]).expect(rt, "an interface");
        last = ItemKind::Instance(items.types.add_interface(interface).expect(rt, "its id"));
    }
    last
}

// Adds components, so many. Each exports the type of the next, and the last one that of this component.
fn add_components(rt: &impl Abort, items: &mut Items, component: ItemKind, count: u32) -> ItemKind {
    let alloc = items.types.allocator();
    let mut last = component;
    for _ in 0..count {
        let item = ItemKind::TypeItem(last.ty());
        let world = World::new(alloc, None, &[], &[("t", item)]).expect(rt, "a world");
        last = ItemKind::Component(items.types.add_world(world).expect(rt, "its id"));
    }
    last
}

// The bytes of a component that imports these enums, and then an item.
fn imported(
    rt: &impl Abort,
    items: &Items,
    enums: &[(String, ValueType)],
    item: ItemKind,
) -> Vec<u8> {
    let closed = ClosedTypes::new(&items.types).expect(rt, "the closed definitions");
    let mut state = State::root(items.types.allocator());
    for i in 0..enums.len() {
        let (name, value) = &enums[i];
        let value = ItemKind::TypeItem(Type::Value(*value));
        import(rt, items, &closed, true, &mut state, name.as_str(), value);
    }
    import(rt, items, &closed, true, &mut state, "n:p/i", item);
    state.into_builder().into_bytes().expect(rt, "bytes")
}

// The weight of the component below: 1 for itself; for each enum 2 for the import, 3 for the type, and the bytes of its name;
// for the instance 2 and the bytes of its name, 3 for each interface, 1 and 3 for each enum for what is inside, and for each
// parameter 1 and the bytes of its name.
const WEIGHT: usize = 1 + 300 * 5 + 1090 + 2 + 5 + 300 * 3 + 1 + 300 * 3 + 300 + 1090;

#[test]
fn enums_of_the_root_are_brought_three_hundred_scopes_in(rt: HostRuntime) {
    let mut items = Items::new(&rt, rt.alloc(), &[]);
    let enums = add_enums(&rt, &mut items, 300);
    let item = add_func(&rt, &mut items, &enums);
    let item = add_instances(&rt, &mut items, item, 300);
    let bytes = imported(&rt, &items, &enums, item);
    assert!(rt; bytes.len() <= 64 * WEIGHT);
}

// The bytes of a type with so many inside, one in the other: how each begins, the last one, and how each ends.
fn levels(
    rt: &(impl Abort + AllocGlobal),
    count: u32,
    begin: &[u8],
    last: &[u8],
    end: &[u8],
) -> Vec<u8> {
    let mut bytes = Vec::new(rt.alloc());
    for _ in 0..count {
        bytes.extend_from_slice(begin).expect(rt, "bytes");
    }
    bytes.extend_from_slice(last).expect(rt, "bytes");
    for _ in 0..count {
        bytes.extend_from_slice(end).expect(rt, "bytes");
    }
    bytes
}

// The root imports an item by a type of these bytes.
fn assert_imported(rt: &impl Abort, items: &Items, item: ItemKind, want: &Vec<u8>) {
    let bytes = imported(rt, items, &[], item);
    // The preamble, the section with its size of three bytes and its count, the type, and the import.
    assert!(rt; bytes.len() == 13 + want.len() + 12);
    let body = &bytes.as_slice()[13..13 + want.len()];
    assert!(rt; body == want.as_slice());
}

#[test]
fn instances_are_written_five_thousand_deep(rt: HostRuntime) {
    let mut items = Items::new(&rt, rt.alloc(), &[Instance(None, &[])]);
    let item = items.kind(&rt, 0);
    let item = add_instances(&rt, &mut items, item, 5000);
    let end = &[0x04, 0x00, 0x01, 0x6a, 0x05, 0x00];
    let want = levels(&rt, 5000, &[0x42, 0x02, 0x01], &[0x42, 0x00], end);
    assert_imported(&rt, &items, item, &want);
}

#[test]
fn components_are_written_ten_thousand_deep(rt: HostRuntime) {
    let mut items = Items::new(&rt, rt.alloc(), &[Component(None, &[], &[])]);
    let item = items.kind(&rt, 0);
    let item = add_components(&rt, &mut items, item, 10_000);
    let end = &[0x04, 0x00, 0x01, 0x74, 0x03, 0x00, 0x00];
    let want = levels(&rt, 10_000, &[0x41, 0x02, 0x01], &[0x41, 0x00], end);
    assert_imported(&rt, &items, item, &want);
}
