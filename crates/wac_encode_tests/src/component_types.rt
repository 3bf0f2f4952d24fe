//! Component types by which worlds are defined, written over open scopes.

ghost use Rattle.std.specs.Prelude.{◌≡◌, true};
ghost use Rattle.wac_types_shapes.specs.declared.shapes.component.«Type».TheVariants as ty;
ghost use Rattle.wac_types_collection.specs.collection.Collection.{holds_type};
ghost use Rattle.wac_encode_stacks.specs.Good.{nothing_bound};
ghost use Rattle.wac_encode_scopes.specs.private.Closed.{AreClosedTypes};
ghost use Rattle.wac_encode_interfaces.specs.private.Clean.{IsCleanDefinition};

use crate::rows::Row::{
    Component, Enumeration, Func, Instance, List, NamedResource, Own, Primitive, Resource, User,
};
use crate::rows::{Items, Row, assert_row};
use indexmap::IndexSet;
use std::process::Abort;
use wac_binary::ComponentType;
use wac_encode_faults::{Role, lowest_fault, world_additional};
use wac_encode_interfaces::laws::definition_law;
use wac_encode_interfaces::{Sides, TypeWriter, side_world_types};
use wac_encode_scopes::{ClosedTypes, State};
use wac_types_collection::Types;
use wac_types_shapes::{ItemKind, PrimitiveType, Type, WorldId};

struct ComponentRow {
    name: &'static str,
    rows: &'static [Row],
    // The place of the world.
    world: usize,
    // The bytes after the preamble.
    want: &'static [u8],
}

const ADDITIONAL: &[ComponentRow] = &[
    ComponentRow {
        name: "an interface that an export uses is imported with its types only, and its enum is aliased from there",
        rows: &[
            Enumeration("a"),
            Func(&[], None),
            Instance(Some("n:p/j"), &[("t", 0), ("g", 1)]),
            User(Some("n:p/i"), &[("t", 2, "t")], &[("t", 0)]),
            Component(Some("n:p/w"), &[], &[("n:p/i", 3)]),
        ],
        world: 4,
        want: &[
            0x07, 0x3b, 0x01, 0x41, 0x05, // a component type of five declarations
            0x01, 0x42, 0x02, // an instance type of two declarations
            0x01, 0x6d, 0x01, 0x01, 0x61, // the enum
            0x04, 0x00, 0x01, 0x74, 0x03, 0x00, 0x00, // a type item that equals it
            0x03, 0x00, 0x05, 0x6e, 0x3a, 0x70, 0x2f, 0x6a, 0x05, 0x00, // the import
            0x02, 0x03, 0x00, 0x00, 0x01, 0x74, // an alias of the enum
            0x01, 0x42, 0x02, // an instance type of two declarations
            0x02, 0x03, 0x02, 0x01, 0x01, // an outer alias of the alias
            0x04, 0x00, 0x01, 0x74, 0x03, 0x00, 0x00, // a type item that equals it
            0x04, 0x00, 0x05, 0x6e, 0x3a, 0x70, 0x2f, 0x69, 0x05, 0x02, // the export
        ],
    },
    ComponentRow {
        name: "an interface that is imported with its types only is exported whole",
        rows: &[
            Enumeration("a"),
            Func(&[], None),
            Instance(Some("n:p/j"), &[("t", 0), ("g", 1)]),
            User(Some("n:p/i"), &[("t", 2, "t")], &[("t", 0)]),
            Component(Some("n:p/w"), &[("n:p/i", 3)], &[("n:p/j", 2)]),
        ],
        world: 4,
        want: &[
            0x07, 0x5f, 0x01, 0x41, 0x07, // a component type of seven declarations
            0x01, 0x42, 0x02, // an instance type of two declarations
            0x01, 0x6d, 0x01, 0x01, 0x61, // the enum
            0x04, 0x00, 0x01, 0x74, 0x03, 0x00, 0x00, // a type item that equals it
            0x03, 0x00, 0x05, 0x6e, 0x3a, 0x70, 0x2f, 0x6a, 0x05, 0x00, // the import of the used interface
            0x02, 0x03, 0x00, 0x00, 0x01, 0x74, // an alias of the enum
            0x01, 0x42, 0x02, // an instance type of two declarations
            0x02, 0x03, 0x02, 0x01, 0x01, // an outer alias of the alias
            0x04, 0x00, 0x01, 0x74, 0x03, 0x00, 0x00, // a type item that equals it
            0x03, 0x00, 0x05, 0x6e, 0x3a, 0x70, 0x2f, 0x69, 0x05, 0x02, // the import that uses it
            0x01, 0x42, 0x04, // an instance type of four declarations
            0x02, 0x03, 0x02, 0x01, 0x01, // an outer alias of the alias
            0x04, 0x00, 0x01, 0x74, 0x03, 0x00, 0x00, // a type item that equals it
            0x01, 0x40, 0x00, 0x01, 0x00, // a function type
            0x04, 0x00, 0x01, 0x67, 0x01, 0x02, // the function
            0x04, 0x00, 0x05, 0x6e, 0x3a, 0x70, 0x2f, 0x6a, 0x05, 0x03, // the export
        ],
    },
    ComponentRow {
        name: "an export that another uses comes before it",
        rows: &[
            Enumeration("a"),
            Instance(Some("n:p/j"), &[("t", 0)]),
            User(Some("n:p/i"), &[("t", 1, "t")], &[("t", 0)]),
            Component(Some("n:p/w"), &[], &[("n:p/i", 2), ("n:p/j", 1)]),
        ],
        world: 3,
        want: &[
            0x07, 0x3b, 0x01, 0x41, 0x05, // a component type of five declarations
            0x01, 0x42, 0x02, // an instance type of two declarations
            0x01, 0x6d, 0x01, 0x01, 0x61, // the enum
            0x04, 0x00, 0x01, 0x74, 0x03, 0x00, 0x00, // a type item that equals it
            0x04, 0x00, 0x05, 0x6e, 0x3a, 0x70, 0x2f, 0x6a, 0x05, 0x00, // the export that is used
            0x02, 0x03, 0x00, 0x00, 0x01, 0x74, // an alias of the enum
            0x01, 0x42, 0x02, // an instance type of two declarations
            0x02, 0x03, 0x02, 0x01, 0x01, // an outer alias of the alias
            0x04, 0x00, 0x01, 0x74, 0x03, 0x00, 0x00, // a type item that equals it
            0x04, 0x00, 0x05, 0x6e, 0x3a, 0x70, 0x2f, 0x69, 0x05, 0x02, // the export that uses it
        ],
    },
];

const ORDERED: &[ComponentRow] = &[
    ComponentRow {
        name: "the type items of a side keep their order: a list, an enum, a resource",
        rows: &[
            Primitive(PrimitiveType::U8),
            List(0),
            Enumeration("a"),
            Resource,
            Component(Some("n:p/w"), &[("l", 1), ("t", 2), ("r", 3)], &[]),
        ],
        world: 4,
        want: &[
            0x07, 0x1f, 0x01, 0x41, 0x05, // a component type of five declarations
            0x01, 0x70, 0x7d, // the list
            0x03, 0x00, 0x01, 0x6c, 0x03, 0x00, 0x00, // a type item that equals it
            0x01, 0x6d, 0x01, 0x01, 0x61, // the enum
            0x03, 0x00, 0x01, 0x74, 0x03, 0x00, 0x02, // a type item that equals it
            0x03, 0x00, 0x01, 0x72, 0x03, 0x01, // the resource
        ],
    },
    ComponentRow {
        name: "a resource comes directly before the list that mentions it",
        rows: &[
            Resource,
            Own(0),
            List(1),
            Enumeration("a"),
            Component(Some("n:p/w"), &[("l", 2), ("t", 3), ("r", 0)], &[]),
        ],
        world: 4,
        want: &[
            0x07, 0x22, 0x01, 0x41, 0x06, // a component type of six declarations
            0x03, 0x00, 0x01, 0x72, 0x03, 0x01, // the resource
            0x01, 0x69, 0x00, // an `own` of it
            0x01, 0x70, 0x01, // the list
            0x03, 0x00, 0x01, 0x6c, 0x03, 0x00, 0x02, // a type item that equals it
            0x01, 0x6d, 0x01, 0x01, 0x61, // the enum
            0x03, 0x00, 0x01, 0x74, 0x03, 0x00, 0x04, // a type item that equals it
        ],
    },
];

const RESOURCES: &[ComponentRow] = &[
    ComponentRow {
        name: "the first import that lists a resource binds it, also if another that lists it is written before",
        rows: &[
            Resource,
            NamedResource("q"),
            Own(1),
            Func(&[("x", 2)], None),
            Instance(Some("n:p/x"), &[("r", 0), ("f", 3)]),
            Instance(Some("n:p/z"), &[("r", 0), ("q", 1)]),
            Own(0),
            Func(&[("x", 6)], None),
            Component(Some("n:p/w"), &[("n:p/x", 4), ("n:p/z", 5), ("g", 7)], &[]),
        ],
        world: 8,
        want: &[
            0x07, 0x62, 0x01, 0x41, 0x09, // a component type of nine declarations
            0x01, 0x42, 0x02, // an instance type of two declarations
            0x04, 0x00, 0x01, 0x72, 0x03, 0x01, // its `r`
            0x04, 0x00, 0x01, 0x71, 0x03, 0x01, // its `q`
            0x03, 0x00, 0x05, 0x6e, 0x3a, 0x70, 0x2f, 0x7a, 0x05, 0x00, // the second import
            0x02, 0x03, 0x00, 0x00, 0x01, 0x71, // an alias of its `q`
            0x01, 0x42, 0x05, // an instance type of five declarations
            0x04, 0x00, 0x01, 0x72, 0x03, 0x01, // its `r`
            0x02, 0x03, 0x02, 0x01, 0x01, // an outer alias of the alias
            0x01, 0x69, 0x01, // an `own` of it
            0x01, 0x40, 0x01, 0x01, 0x78, 0x02, 0x01, 0x00, // a function type over that
            0x04, 0x00, 0x01, 0x66, 0x01, 0x03, // the function
            0x03, 0x00, 0x05, 0x6e, 0x3a, 0x70, 0x2f, 0x78, 0x05, 0x02, // the first import
            0x02, 0x03, 0x00, 0x01, 0x01, 0x72, // an alias of its `r`
            0x01, 0x69, 0x03, // an `own` of it
            0x01, 0x40, 0x01, 0x01, 0x78, 0x04, 0x01, 0x00, // a function type over that
            0x03, 0x00, 0x01, 0x67, 0x01, 0x05, // the function
        ],
    },
    ComponentRow {
        name: "a resource that a world lists and an imported interface owns is that of the interface",
        rows: &[
            Resource,
            Own(0),
            Func(&[("x", 1)], None),
            Instance(Some("n:p/i"), &[("r", 0), ("f", 2)]),
            Component(Some("n:p/w"), &[("r", 0), ("n:p/i", 3), ("g", 2)], &[]),
        ],
        world: 4,
        want: &[
            0x07, 0x45, 0x01, 0x41, 0x07, // a component type of seven declarations
            0x01, 0x42, 0x04, // an instance type of four declarations
            0x04, 0x00, 0x01, 0x72, 0x03, 0x01, // the resource
            0x01, 0x69, 0x00, // an `own` of it
            0x01, 0x40, 0x01, 0x01, 0x78, 0x01, 0x01, 0x00, // a function type over that
            0x04, 0x00, 0x01, 0x66, 0x01, 0x02, // the function
            0x03, 0x00, 0x05, 0x6e, 0x3a, 0x70, 0x2f, 0x69, 0x05, 0x00, // the import
            0x02, 0x03, 0x00, 0x00, 0x01, 0x72, // an alias of the resource
            0x03, 0x00, 0x01, 0x72, 0x03, 0x00, 0x01, // a type item that equals it
            0x01, 0x69, 0x01, // an `own` of it
            0x01, 0x40, 0x01, 0x01, 0x78, 0x03, 0x01, 0x00, // a function type over that
            0x03, 0x00, 0x01, 0x67, 0x01, 0x04, // the function
        ],
    },
    ComponentRow {
        name: "an export binds a resource that no import binds",
        rows: &[
            Resource,
            Instance(Some("n:p/a"), &[("r", 0)]),
            Own(0),
            Func(&[("x", 2)], None),
            Component(Some("n:p/w"), &[], &[("g", 3), ("n:p/a", 1)]),
        ],
        world: 4,
        want: &[
            0x07, 0x2d, 0x01, 0x41, 0x06, // a component type of six declarations
            0x01, 0x42, 0x01, // an instance type of one declaration
            0x04, 0x00, 0x01, 0x72, 0x03, 0x01, // the resource
            0x04, 0x00, 0x05, 0x6e, 0x3a, 0x70, 0x2f, 0x61, 0x05, 0x00, // the export
            0x02, 0x03, 0x00, 0x00, 0x01, 0x72, // an alias of its resource
            0x01, 0x69, 0x01, // an `own` of it
            0x01, 0x40, 0x01, 0x01, 0x78, 0x02, 0x01, 0x00, // a function type over that
            0x04, 0x00, 0x01, 0x67, 0x01, 0x03, // the function
        ],
    },
    ComponentRow {
        name: "an export binds a resource that an import has under another name than its interface's id",
        rows: &[
            Resource,
            Instance(Some("n:p/a"), &[("r", 0)]),
            Own(0),
            Func(&[("x", 2)], None),
            Component(Some("n:p/w"), &[("primary", 1)], &[("g", 3), ("n:p/a", 1)]),
        ],
        world: 4,
        want: &[
            0x07, 0x39, 0x01, 0x41, 0x07, // a component type of seven declarations
            0x01, 0x42, 0x01, // an instance type of one declaration
            0x04, 0x00, 0x01, 0x72, 0x03, 0x01, // the resource
            0x03, 0x00, 0x07, 0x70, 0x72, 0x69, 0x6d, 0x61, 0x72, 0x79, 0x05, 0x00, // the import
            0x04, 0x00, 0x05, 0x6e, 0x3a, 0x70, 0x2f, 0x61, 0x05, 0x00, // the export
            0x02, 0x03, 0x00, 0x01, 0x01, 0x72, // an alias of the export's resource
            0x01, 0x69, 0x01, // an `own` of it
            0x01, 0x40, 0x01, 0x01, 0x78, 0x02, 0x01, 0x00, // a function type over that
            0x04, 0x00, 0x01, 0x67, 0x01, 0x03, // the function
        ],
    },
    ComponentRow {
        name: "the import binds a resource for both sides if its interface is exported too",
        rows: &[
            Resource,
            Instance(Some("n:p/a"), &[("r", 0)]),
            Own(0),
            Func(&[("x", 2)], None),
            Component(Some("n:p/w"), &[("n:p/a", 1)], &[("n:p/a", 1), ("g", 3)]),
        ],
        world: 4,
        want: &[
            0x07, 0x37, 0x01, 0x41, 0x07, // a component type of seven declarations
            0x01, 0x42, 0x01, // an instance type of one declaration
            0x04, 0x00, 0x01, 0x72, 0x03, 0x01, // the resource
            0x03, 0x00, 0x05, 0x6e, 0x3a, 0x70, 0x2f, 0x61, 0x05, 0x00, // the import
            0x04, 0x00, 0x05, 0x6e, 0x3a, 0x70, 0x2f, 0x61, 0x05, 0x00, // the export
            0x02, 0x03, 0x00, 0x00, 0x01, 0x72, // an alias of the import's resource
            0x01, 0x69, 0x01, // an `own` of it
            0x01, 0x40, 0x01, 0x01, 0x78, 0x02, 0x01, 0x00, // a function type over that
            0x04, 0x00, 0x01, 0x67, 0x01, 0x03, // the function
        ],
    },
];

const NAMES: &[ComponentRow] = &[
    ComponentRow {
        name: "an import takes an enum as it is written, and an export after its name takes the name",
        rows: &[
            Enumeration("a"),
            Func(&[("x", 0)], None),
            Func(&[("y", 0)], None),
            Component(Some("n:p/w"), &[("f", 1)], &[("t", 0), ("g", 2)]),
        ],
        world: 3,
        want: &[
            0x07, 0x2b, 0x01, 0x41, 0x06, // a component type of six declarations
            0x01, 0x6d, 0x01, 0x01, 0x61, // the enum
            0x01, 0x40, 0x01, 0x01, 0x78, 0x00, 0x01, 0x00, // a function type over it
            0x03, 0x00, 0x01, 0x66, 0x01, 0x01, // the import
            0x04, 0x00, 0x01, 0x74, 0x03, 0x00, 0x00, // a type item that equals the enum
            0x01, 0x40, 0x01, 0x01, 0x79, 0x02, 0x01, 0x00, // a function type over the type item
            0x04, 0x00, 0x01, 0x67, 0x01, 0x03, // the export
        ],
    },
    ComponentRow {
        name: "a list without a name is written once, also if its enum has a name later",
        rows: &[
            Enumeration("a"),
            List(0),
            Func(&[("x", 1)], None),
            Func(&[("y", 1)], None),
            Component(Some("n:p/w"), &[("f", 2)], &[("t", 0), ("g", 3)]),
        ],
        world: 4,
        want: &[
            0x07, 0x2e, 0x01, 0x41, 0x07, // a component type of seven declarations
            0x01, 0x6d, 0x01, 0x01, 0x61, // the enum
            0x01, 0x70, 0x00, // a list of it
            0x01, 0x40, 0x01, 0x01, 0x78, 0x01, 0x01, 0x00, // a function type over that
            0x03, 0x00, 0x01, 0x66, 0x01, 0x02, // the import
            0x04, 0x00, 0x01, 0x74, 0x03, 0x00, 0x00, // a type item that equals the enum
            0x01, 0x40, 0x01, 0x01, 0x79, 0x01, 0x01, 0x00, // a function type over the list
            0x04, 0x00, 0x01, 0x67, 0x01, 0x04, // the export
        ],
    },
];

// The definition of a world has no fault.
fn assert_definable(rt: &impl Abort, types: &Types, world: WorldId)
    requires { holds_type types.now (ty.World world) ≡ true }
    ensures { IsCleanDefinition types.now nothing_bound (ty.World world) }
{
    definition_law(); // proof only
    let bound = IndexSet::new(types.allocator());
    let fault = lowest_fault(types, &bound, Role::Defined, ItemKind::Component(world));
    let None = fault.expect(rt, "room for sets") else {
        panic!(rt; "a fault");
    };
}

// The component type by which a world is defined.
fn component_type(
    rt: &impl Abort,
    types: &Types,
    closed: &ClosedTypes,
    merged: bool,
    id: WorldId,
) -> ComponentType
    requires closed { AreClosedTypes types.now closed.now }
    requires held { holds_type types.now (ty.World id) ≡ true }
    requires clean { IsCleanDefinition types.now nothing_bound (ty.World id) }
{
    types.law(); // proof only
    let additional = world_additional(types, id).expect(rt, "room for ids");
    let world = &types[id];
    let sides = Sides {
        imports: &world.imports,
        additional: additional.as_slice(),
        exports: &world.exports,
        uses: &world.uses,
    };
    let worlds = side_world_types(types, closed, &sides).expect(rt, "component types");
    let writer = TypeWriter::new(types, closed, merged, &worlds);
    writer.component_type(&sides).expect(rt, "a component type")
}

// The bytes of a component in which the component type of a world is written, with the records of the merged collection or of
// the graph's own.
fn written(rt: &impl Abort, items: &Items, merged: bool, place: usize) -> Vec<u8> {
    let types = &items.types;
    let closed = ClosedTypes::new(types).expect(rt, "the closed definitions");
    let world = items.world(rt, place);
    assert!(rt; types.contains(Type::World(world)));
    assert_definable(rt, types, world);
    let component = component_type(rt, types, &closed, merged, world);
    let mut state = State::root(types.allocator());
    let index = state.define_component(merged, None, &component);
    index.expect(rt, "an index");
    state.into_builder().into_bytes().expect(rt, "bytes")
}

fn assert_row_written(rt: &(impl Abort + AllocGlobal), row: &ComponentRow, merged: bool) {
    let items = Items::new(rt, rt.alloc(), row.rows);
    let bytes = written(rt, &items, merged, row.world);
    assert_row(rt, bytes.as_slice().get(8..) == Some(row.want), row.name);
}

fn assert_rows_written(rt: &(impl Abort + AllocGlobal), rows: &[ComponentRow]) {
    for row in rows {
        assert_row_written(rt, row, true);
        assert_row_written(rt, row, false);
    }
}

#[test]
fn used_interfaces_are_imported_with_their_types_only(rt: HostRuntime) {
    assert_rows_written(&rt, ADDITIONAL);
}

#[test]
fn type_items_of_a_side_come_in_order(rt: HostRuntime) {
    assert_rows_written(&rt, ORDERED);
}

#[test]
fn resources_are_bound_for_both_sides(rt: HostRuntime) {
    assert_rows_written(&rt, RESOURCES);
}

#[test]
fn types_are_written_once_for_both_sides(rt: HostRuntime) {
    assert_rows_written(&rt, NAMES);
}
