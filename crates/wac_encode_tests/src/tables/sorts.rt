//! Imports of each sort.

use crate::rows::Row::{Component, Enumeration, Func, Instance, Primitive, TypeOf};
use crate::tables::RootRow;
use wac_types_shapes::PrimitiveType;

/// Imports that are no instances.
pub const SORTS: &[RootRow] = &[
    RootRow {
        name: "a function is imported after its type and the types in it",
        rows: &[Enumeration("a"), Func(&[("x", 0)], None)],
        imports: &[("f", 1)],
        definitions: &[],
        want: &[
            0x07, 0x0c, 0x02, // two types
            0x6d, 0x01, 0x01, 0x61, // the enum
            0x40, 0x01, 0x01, 0x78, 0x00, 0x01, 0x00, // a function type over it
            0x0a, 0x06, 0x01, 0x00, 0x01, 0x66, 0x01, 0x01, // the function
        ],
    },
    RootRow {
        name: "a second type item of a primitive type equals the first",
        rows: &[Primitive(PrimitiveType::String)],
        imports: &[("s", 0), ("t", 0)],
        definitions: &[],
        want: &[
            0x07, 0x02, 0x01, 0x73, // the type
            0x0a, 0x0d, 0x02, // two imports
            0x00, 0x01, 0x73, 0x03, 0x00, 0x00, // a type item that equals it
            0x00, 0x01, 0x74, 0x03, 0x00, 0x01, // another, which equals the first
        ],
    },
];

/// Components, whose types take nothing from the root.
pub const COMPONENTS: &[RootRow] = &[
    RootRow {
        name: "both sides of a component share an instance type and a function type",
        rows: &[
            Enumeration("a"),
            Func(&[("x", 0)], None),
            Instance(None, &[("t", 0), ("f", 1)]),
            Component(None, &[("f", 1), ("t", 0), ("i", 2)], &[("g", 1), ("j", 2)]),
        ],
        imports: &[("c", 3)],
        definitions: &[],
        want: &[
            0x07, 0x4d, 0x01, 0x41, 0x08, // a component type of eight declarations
            0x01, 0x42, 0x04, // an instance type of four declarations
            0x01, 0x6d, 0x01, 0x01, 0x61, // the enum
            0x04, 0x00, 0x01, 0x74, 0x03, 0x00, 0x00, // a type item that equals it
            0x01, 0x40, 0x01, 0x01, 0x78, 0x01, 0x01, 0x00, // a function type over the type item
            0x04, 0x00, 0x01, 0x66, 0x01, 0x02, // the function
            0x03, 0x00, 0x01, 0x69, 0x05, 0x00, // the import of the instance
            0x02, 0x03, 0x00, 0x00, 0x01, 0x74, // an alias of its enum
            0x03, 0x00, 0x01, 0x74, 0x03, 0x00, 0x01, // a type item that equals the alias
            0x01, 0x40, 0x01, 0x01, 0x78, 0x02, 0x01, 0x00, // a function type over the type item
            0x03, 0x00, 0x01, 0x66, 0x01, 0x03, // the import of the function
            0x04, 0x00, 0x01, 0x6a, 0x05, 0x00, // the export of the instance
            0x04, 0x00, 0x01, 0x67, 0x01, 0x03, // the export of the function
            0x0a, 0x06, 0x01, 0x00, 0x01, 0x63, 0x04, 0x00, // the component
        ],
    },
    RootRow {
        name: "a component without imports and exports has an empty type",
        rows: &[Component(None, &[], &[])],
        imports: &[("c", 0)],
        definitions: &[],
        want: &[
            0x07, 0x03, 0x01, 0x41, 0x00, // a component type without declarations
            0x0a, 0x06, 0x01, 0x00, 0x01, 0x63, 0x04, 0x00, // the component
        ],
    },
    RootRow {
        name: "a world inside a world inside a world is written in each",
        rows: &[
            Component(None, &[], &[]),
            TypeOf(0),
            Component(None, &[("w", 1)], &[]),
            TypeOf(2),
            Component(None, &[], &[("v", 3)]),
        ],
        imports: &[("c", 4)],
        definitions: &[],
        want: &[
            0x07, 0x17, 0x01, 0x41, 0x02, // a component type of two declarations
            0x01, 0x41, 0x02, // a component type of two declarations inside
            0x01, 0x41, 0x00, // an empty one in it
            0x03, 0x00, 0x01, 0x77, 0x03, 0x00, 0x00, // a type item that equals that
            0x04, 0x00, 0x01, 0x76, 0x03, 0x00, 0x00, // a type item that equals the outer one
            0x0a, 0x06, 0x01, 0x00, 0x01, 0x63, 0x04, 0x00, // the component
        ],
    },
    RootRow {
        name: "a world is written once for both sides of a component, and in an instance type of its own",
        rows: &[
            Func(&[], None),
            Component(None, &[("f", 0)], &[]),
            TypeOf(1),
            Instance(None, &[("w", 2)]),
            Component(None, &[("i", 3), ("w", 2)], &[("x", 2)]),
        ],
        imports: &[("c", 4)],
        definitions: &[],
        want: &[
            0x07, 0x3d, 0x01, 0x41, 0x05, // a component type of five declarations
            0x01, 0x42, 0x02, // an instance type of two declarations
            0x01, 0x41, 0x02, // a component type of two declarations inside
            0x01, 0x40, 0x00, 0x01, 0x00, // a function type
            0x03, 0x00, 0x01, 0x66, 0x01, 0x00, // the import of the function
            0x04, 0x00, 0x01, 0x77, 0x03, 0x00, 0x00, // a type item that equals the component type
            0x03, 0x00, 0x01, 0x69, 0x05, 0x00, // the import of the instance
            0x01, 0x41, 0x02, // the component type, in this scope
            0x01, 0x40, 0x00, 0x01, 0x00, 0x03, 0x00, 0x01, 0x66, 0x01, 0x00, // with the same declarations
            0x03, 0x00, 0x01, 0x77, 0x03, 0x00, 0x01, // a type item that equals it
            0x04, 0x00, 0x01, 0x78, 0x03, 0x00, 0x02, // another, which equals the first
            0x0a, 0x06, 0x01, 0x00, 0x01, 0x63, 0x04, 0x00, // the component
        ],
    },
    RootRow {
        name: "an exported type item of an interface equals an imported one",
        rows: &[
            Func(&[], None),
            Instance(None, &[("f", 0)]),
            TypeOf(1),
            Component(None, &[("i", 2), ("j", 1)], &[("k", 2)]),
        ],
        imports: &[("c", 3)],
        definitions: &[],
        want: &[
            0x07, 0x25, 0x01, 0x41, 0x04, // a component type of four declarations
            0x01, 0x42, 0x02, // an instance type of two declarations
            0x01, 0x40, 0x00, 0x01, 0x00, // a function type
            0x04, 0x00, 0x01, 0x66, 0x01, 0x00, // the function
            0x03, 0x00, 0x01, 0x6a, 0x05, 0x00, // the import of an instance
            0x03, 0x00, 0x01, 0x69, 0x03, 0x00, 0x00, // a type item that equals the instance type
            0x04, 0x00, 0x01, 0x6b, 0x03, 0x00, 0x01, // another, which equals the first
            0x0a, 0x06, 0x01, 0x00, 0x01, 0x63, 0x04, 0x00, // the component
        ],
    },
];
