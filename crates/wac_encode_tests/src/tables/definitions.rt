//! Definitions.

use crate::rows::Row::{
    Async, Component, Enumeration, Func, Instance, List, Optional, Primitive, Record, TypeOf, User,
};
use crate::tables::RootRow;
use wac_types_shapes::PrimitiveType;

/// Types and interfaces.
pub const DEFINITIONS: &[RootRow] = &[
    RootRow {
        name: "a record and a function over it are written once, and a primitive type has a definition of its own",
        rows: &[
            Primitive(PrimitiveType::U8),
            Primitive(PrimitiveType::String),
            Record(&[("a", 0), ("b", 1)]),
            Func(&[("x", 2)], Some(2)),
        ],
        imports: &[],
        definitions: &[3, 2, 3, 0],
        want: &[
            0x07, 0x11, 0x03, // three types
            0x72, 0x02, 0x01, 0x61, 0x7d, 0x01, 0x62, 0x73, // the record
            0x40, 0x01, 0x01, 0x78, 0x00, 0x00, 0x00, // a function type from it to it
            0x7d, // the primitive type
        ],
    },
    RootRow {
        name: "the parameters of an async function are written before its result",
        rows: &[
            Primitive(PrimitiveType::U8),
            List(0),
            Optional(1),
            Primitive(PrimitiveType::Bool),
            List(3),
            Async(&[("a", 2), ("b", 0)], Some(4)),
        ],
        imports: &[],
        definitions: &[5],
        want: &[
            0x07, 0x11, 0x04, // four types
            0x70, 0x7d, // a list
            0x6b, 0x00, // an option of it
            0x70, 0x7f, // the list of the result
            0x43, 0x02, 0x01, 0x61, 0x01, 0x01, 0x62, 0x7d, 0x00, 0x02, // an async function type
        ],
    },
    RootRow {
        name: "an interface is defined as a component type that exports an instance of it",
        rows: &[
            Enumeration("a"),
            Func(&[("x", 0)], None),
            Instance(Some("n:p/i"), &[("t", 0), ("f", 1)]),
        ],
        imports: &[],
        definitions: &[2],
        want: &[
            0x07, 0x2a, 0x01, 0x41, 0x02, // a component type of two declarations
            0x01, 0x42, 0x04, // an instance type of four declarations
            0x01, 0x6d, 0x01, 0x01, 0x61, // the enum
            0x04, 0x00, 0x01, 0x74, 0x03, 0x00, 0x00, // a type item that equals it
            0x01, 0x40, 0x01, 0x01, 0x78, 0x01, 0x01, 0x00, // a function type over the type item
            0x04, 0x00, 0x01, 0x66, 0x01, 0x02, // the function
            0x04, 0x00, 0x05, 0x6e, 0x3a, 0x70, 0x2f, 0x69, 0x05, 0x00, // the export of the instance
        ],
    },
    RootRow {
        name: "the definition of an interface imports one that it uses, with its types only",
        rows: &[
            Enumeration("a"),
            Func(&[], None),
            Instance(Some("n:p/j"), &[("t", 0), ("g", 1)]),
            User(Some("n:p/i"), &[("t", 2, "t")], &[("t", 0)]),
        ],
        imports: &[],
        definitions: &[3],
        want: &[
            0x07, 0x3b, 0x01, 0x41, 0x05, // a component type of five declarations
            0x01, 0x42, 0x02, // an instance type of two declarations
            0x01, 0x6d, 0x01, 0x01, 0x61, // the enum
            0x04, 0x00, 0x01, 0x74, 0x03, 0x00, 0x00, // a type item that equals it
            0x03, 0x00, 0x05, 0x6e, 0x3a, 0x70, 0x2f, 0x6a, 0x05, 0x00, // the import of the instance
            0x02, 0x03, 0x00, 0x00, 0x01, 0x74, // an alias of its enum
            0x01, 0x42, 0x02, // an instance type of two declarations
            0x02, 0x03, 0x02, 0x01, 0x01, // an outer alias of the alias
            0x04, 0x00, 0x01, 0x74, 0x03, 0x00, 0x00, // a type item that equals it
            0x04, 0x00, 0x05, 0x6e, 0x3a, 0x70, 0x2f, 0x69, 0x05, 0x02, // the export of the instance
        ],
    },
    RootRow {
        name: "an interface with a world as a type item has its component type inside",
        rows: &[
            Func(&[], None),
            Component(Some("n:p/v"), &[("g", 0)], &[]),
            TypeOf(1),
            Instance(Some("n:p/i"), &[("w", 2)]),
        ],
        imports: &[],
        definitions: &[3],
        want: &[
            0x07, 0x25, 0x01, 0x41, 0x02, // a component type of two declarations
            0x01, 0x42, 0x02, // an instance type of two declarations
            0x01, 0x41, 0x02, // a component type of two declarations inside
            0x01, 0x40, 0x00, 0x01, 0x00, // a function type
            0x03, 0x00, 0x01, 0x67, 0x01, 0x00, // the import of the function
            0x04, 0x00, 0x01, 0x77, 0x03, 0x00, 0x00, // a type item that equals the component type
            0x04, 0x00, 0x05, 0x6e, 0x3a, 0x70, 0x2f, 0x69, 0x05, 0x00, // the export of the instance
        ],
    },
];

/// Worlds.
pub const WORLDS: &[RootRow] = &[
    RootRow {
        name: "a world is defined as a component type that exports a component of it",
        rows: &[Func(&[], None), Component(Some("n:p/w"), &[("f", 0)], &[])],
        imports: &[],
        definitions: &[1],
        want: &[
            0x07, 0x1b, 0x01, 0x41, 0x02, // a component type of two declarations
            0x01, 0x41, 0x02, // a component type of two declarations inside
            0x01, 0x40, 0x00, 0x01, 0x00, // a function type
            0x03, 0x00, 0x01, 0x66, 0x01, 0x00, // the import of the function
            0x04, 0x00, 0x05, 0x6e, 0x3a, 0x70, 0x2f, 0x77, 0x04, 0x00, // the export of the component
        ],
    },
    RootRow {
        name: "the definition of a world imports an interface that it exports whole with its types only, if an import uses it",
        rows: &[
            Enumeration("a"),
            Func(&[], None),
            Instance(Some("n:p/j"), &[("t", 0), ("g", 1)]),
            User(Some("n:p/i"), &[("t", 2, "t")], &[("t", 0)]),
            Component(Some("n:p/w"), &[("n:p/i", 3)], &[("n:p/j", 2)]),
        ],
        imports: &[],
        definitions: &[4],
        want: &[
            0x07, 0x6c, 0x01, 0x41, 0x02, // a component type of two declarations
            0x01, 0x41, 0x07, // a component type of seven declarations inside
            0x01, 0x42, 0x02, // an instance type of two declarations
            0x01, 0x6d, 0x01, 0x01, 0x61, // the enum
            0x04, 0x00, 0x01, 0x74, 0x03, 0x00, 0x00, // a type item that equals it
            0x03, 0x00, 0x05, 0x6e, 0x3a, 0x70, 0x2f, 0x6a, 0x05, 0x00, // the import with types only
            0x02, 0x03, 0x00, 0x00, 0x01, 0x74, // an alias of its enum
            0x01, 0x42, 0x02, // an instance type of two declarations
            0x02, 0x03, 0x02, 0x01, 0x01, // an outer alias of the alias
            0x04, 0x00, 0x01, 0x74, 0x03, 0x00, 0x00, // a type item that equals it
            0x03, 0x00, 0x05, 0x6e, 0x3a, 0x70, 0x2f, 0x69, 0x05, 0x02, // the import of the other instance
            0x01, 0x42, 0x04, // an instance type of four declarations
            0x02, 0x03, 0x02, 0x01, 0x01, // an outer alias of the alias
            0x04, 0x00, 0x01, 0x74, 0x03, 0x00, 0x00, // a type item that equals it
            0x01, 0x40, 0x00, 0x01, 0x00, // a function type
            0x04, 0x00, 0x01, 0x67, 0x01, 0x02, // the function
            0x04, 0x00, 0x05, 0x6e, 0x3a, 0x70, 0x2f, 0x6a, 0x05, 0x03, // the export of the instance
            0x04, 0x00, 0x05, 0x6e, 0x3a, 0x70, 0x2f, 0x77, 0x04, 0x00, // the export of the component
        ],
    },
];
