//! Imports of types that have names.

use crate::rows::Row::{
    Alias, Enumeration, Func, Instance, List, Optional, Own, Pair, Primitive, Resource, TypeOf,
};
use crate::tables::RootRow;
use wac_types_shapes::PrimitiveType;

/// Functions over types that have names.
pub const NAMES: &[RootRow] = &[
    RootRow {
        name: "a function takes the index of the type item of its parameter's type",
        rows: &[
            Enumeration("a"),
            Func(&[("x", 0)], None),
            Instance(Some("n:p/i"), &[("t", 0), ("f", 1)]),
        ],
        imports: &[("n:p/i", 2)],
        definitions: &[],
        want: NAMED,
    },
    RootRow {
        name: "a function takes the index of a type item that is listed after it",
        rows: &[
            Enumeration("a"),
            Func(&[("x", 0)], None),
            Instance(Some("n:p/i"), &[("f", 1), ("t", 0)]),
        ],
        imports: &[("n:p/i", 2)],
        definitions: &[],
        want: NAMED,
    },
    RootRow {
        name: "a function over an alias takes the index of the type item of the alias's end",
        rows: &[
            Enumeration("a"),
            Alias(0),
            Func(&[("x", 1)], None),
            Instance(Some("n:p/i"), &[("t", 0), ("f", 2)]),
        ],
        imports: &[("n:p/i", 3)],
        definitions: &[],
        want: NAMED,
    },
    RootRow {
        name: "a function that the root imports takes the index of the type item of its parameter's type",
        rows: &[Enumeration("a"), Func(&[("x", 0)], None)],
        imports: &[("t", 0), ("f", 1)],
        definitions: &[],
        want: &[
            0x07, 0x05, 0x01, 0x6d, 0x01, 0x01, 0x61, // the enum
            0x0a, 0x07, 0x01, 0x00, 0x01, 0x74, 0x03, 0x00, 0x00, // a type item that equals it
            0x07, 0x08, 0x01, 0x40, 0x01, 0x01, 0x78, 0x01, 0x01, 0x00, // a function type over it
            0x0a, 0x06, 0x01, 0x00, 0x01, 0x66, 0x01, 0x02, // the function
        ],
    },
    RootRow {
        name: "handles take the index of a type item of an alias of a handle",
        rows: &[
            Resource,
            Own(0),
            Alias(1),
            Func(&[("x", 2)], None),
            Func(&[("y", 1)], None),
            Instance(Some("n:p/i"), &[("r", 0), ("h", 2), ("f", 3), ("g", 4)]),
        ],
        imports: &[("n:p/i", 5)],
        definitions: &[],
        want: &[
            0x07, 0x2f, 0x01, 0x42, 0x07, // an instance type of seven declarations
            0x04, 0x00, 0x01, 0x72, 0x03, 0x01, // the resource
            0x01, 0x69, 0x00, // an `own` of it
            0x04, 0x00, 0x01, 0x68, 0x03, 0x00, 0x01, // a type item that equals that
            0x01, 0x40, 0x01, 0x01, 0x78, 0x02, 0x01, 0x00, // a function type over the type item
            0x04, 0x00, 0x01, 0x66, 0x01, 0x03, // the function
            0x01, 0x40, 0x01, 0x01, 0x79, 0x02, 0x01, 0x00, // another function type over it
            0x04, 0x00, 0x01, 0x67, 0x01, 0x04, // the function
            0x0a, 0x0a, 0x01, 0x00, 0x05, 0x6e, 0x3a, 0x70, 0x2f, 0x69, 0x05, 0x00, // the import
        ],
    },
];

/// Types that an instance exports.
pub const LISTED: &[RootRow] = &[
    RootRow {
        name: "a type item equals the enum that an instance exports, and a function takes the type item",
        rows: &[
            Enumeration("a"),
            Func(&[("x", 0)], None),
            Instance(Some("n:p/j"), &[("t", 0)]),
            Instance(Some("n:p/i"), &[("f", 1)]),
            Instance(Some("n:p/i"), &[("t", 0), ("f", 1)]),
        ],
        imports: &[("n:p/i", 4), ("t", 0), ("f", 1)],
        definitions: &[],
        want: &[
            0x07, 0x1d, 0x01, 0x42, 0x04, // an instance type of four declarations
            0x01, 0x6d, 0x01, 0x01, 0x61, // the enum
            0x04, 0x00, 0x01, 0x74, 0x03, 0x00, 0x00, // a type item that equals it
            0x01, 0x40, 0x01, 0x01, 0x78, 0x01, 0x01, 0x00, // a function type over the type item
            0x04, 0x00, 0x01, 0x66, 0x01, 0x02, // the function
            0x0a, 0x0a, 0x01, 0x00, 0x05, 0x6e, 0x3a, 0x70, 0x2f, 0x69, 0x05, 0x00, // the instance
            0x06, 0x06, 0x01, 0x03, 0x00, 0x00, 0x01, 0x74, // an alias of its enum
            0x0a, 0x07, 0x01, 0x00, 0x01, 0x74, 0x03, 0x00, 0x01, // a type item that equals the alias
            0x07, 0x08, 0x01, 0x40, 0x01, 0x01, 0x78, 0x02, 0x01, 0x00, // a function type over the type item
            0x0a, 0x06, 0x01, 0x00, 0x01, 0x66, 0x01, 0x03, // the function
        ],
    },
    RootRow {
        name: "an enum that an instance exports is aliased from it, once, and a list of it is written",
        rows: &[
            Enumeration("a"),
            Alias(0),
            List(1),
            Func(&[("x", 2)], Some(0)),
            Instance(Some("n:p/i"), &[("t", 0)]),
        ],
        imports: &[("n:p/i", 4), ("f", 3)],
        definitions: &[],
        want: &[
            0x07, 0x0f, 0x01, 0x42, 0x02, // an instance type of two declarations
            0x01, 0x6d, 0x01, 0x01, 0x61, // the enum
            0x04, 0x00, 0x01, 0x74, 0x03, 0x00, 0x00, // a type item that equals it
            0x0a, 0x0a, 0x01, 0x00, 0x05, 0x6e, 0x3a, 0x70, 0x2f, 0x69, 0x05, 0x00, // the instance
            0x06, 0x06, 0x01, 0x03, 0x00, 0x00, 0x01, 0x74, // an alias of its enum
            0x07, 0x0a, 0x02, 0x70, 0x01, // a list of the alias
            0x40, 0x01, 0x01, 0x78, 0x02, 0x00, 0x01, // a function type from the list to the alias
            0x0a, 0x06, 0x01, 0x00, 0x01, 0x66, 0x01, 0x03, // the function
        ],
    },
    RootRow {
        name: "an enum that another instance exports comes into an instance type by an outer alias of its alias",
        rows: &[
            Enumeration("a"),
            Func(&[("x", 0)], None),
            Instance(Some("n:p/j"), &[("t", 0)]),
            Instance(Some("n:p/i"), &[("f", 1)]),
            Instance(Some("n:p/i"), &[("t", 0), ("f", 1)]),
        ],
        imports: &[("n:p/j", 2), ("n:p/i", 3)],
        definitions: &[],
        want: &[
            0x07, 0x0f, 0x01, 0x42, 0x02, // an instance type of two declarations
            0x01, 0x6d, 0x01, 0x01, 0x61, // the enum
            0x04, 0x00, 0x01, 0x74, 0x03, 0x00, 0x00, // a type item that equals it
            0x0a, 0x0a, 0x01, 0x00, 0x05, 0x6e, 0x3a, 0x70, 0x2f, 0x6a, 0x05, 0x00, // the first instance
            0x06, 0x06, 0x01, 0x03, 0x00, 0x00, 0x01, 0x74, // an alias of its enum
            0x07, 0x16, 0x01, 0x42, 0x03, // an instance type of three declarations
            0x02, 0x03, 0x02, 0x01, 0x01, // an outer alias of the alias
            0x01, 0x40, 0x01, 0x01, 0x78, 0x00, 0x01, 0x00, // a function type over it
            0x04, 0x00, 0x01, 0x66, 0x01, 0x01, // the function
            0x0a, 0x0a, 0x01, 0x00, 0x05, 0x6e, 0x3a, 0x70, 0x2f, 0x69, 0x05, 0x02, // the second instance
        ],
    },
    RootRow {
        name: "an instance that exports such an enum too has a type item that equals the outer alias",
        rows: &[
            Enumeration("a"),
            Func(&[("x", 0)], None),
            Instance(Some("n:p/j"), &[("t", 0)]),
            Instance(Some("n:p/i"), &[("f", 1)]),
            Instance(Some("n:p/i"), &[("t", 0), ("f", 1)]),
        ],
        imports: &[("n:p/j", 2), ("n:p/i", 4)],
        definitions: &[],
        want: &[
            0x07, 0x0f, 0x01, 0x42, 0x02, // an instance type of two declarations
            0x01, 0x6d, 0x01, 0x01, 0x61, // the enum
            0x04, 0x00, 0x01, 0x74, 0x03, 0x00, 0x00, // a type item that equals it
            0x0a, 0x0a, 0x01, 0x00, 0x05, 0x6e, 0x3a, 0x70, 0x2f, 0x6a, 0x05, 0x00, // the first instance
            0x06, 0x06, 0x01, 0x03, 0x00, 0x00, 0x01, 0x74, // an alias of its enum
            0x07, 0x1d, 0x01, 0x42, 0x04, // an instance type of four declarations
            0x02, 0x03, 0x02, 0x01, 0x01, // an outer alias of the alias
            0x04, 0x00, 0x01, 0x74, 0x03, 0x00, 0x00, // a type item that equals it
            0x01, 0x40, 0x01, 0x01, 0x78, 0x01, 0x01, 0x00, // a function type over the type item
            0x04, 0x00, 0x01, 0x66, 0x01, 0x02, // the function
            0x0a, 0x0a, 0x01, 0x00, 0x05, 0x6e, 0x3a, 0x70, 0x2f, 0x69, 0x05, 0x02, // the second instance
        ],
    },
    RootRow {
        name: "a primitive type has a definition for its type item, and a second name of a list equals the first",
        rows: &[Primitive(PrimitiveType::U8), List(0), Alias(1)],
        imports: &[("b", 0), ("l", 1), ("m", 2)],
        definitions: &[],
        want: &[
            0x07, 0x02, 0x01, 0x7d, // the primitive type
            0x0a, 0x07, 0x01, 0x00, 0x01, 0x62, 0x03, 0x00, 0x00, // a type item that equals it
            0x07, 0x03, 0x01, 0x70, 0x7d, // a list of it
            0x0a, 0x0d, 0x02, // two imports
            0x00, 0x01, 0x6c, 0x03, 0x00, 0x02, // a type item that equals the list
            0x00, 0x01, 0x6d, 0x03, 0x00, 0x03, // another, which equals the first
        ],
    },
];

/// Type items of functions, and the order of type items.
pub const FUNCTIONS: &[RootRow] = &[
    RootRow {
        name: "a function type that is imported twice is written once",
        rows: &[Primitive(PrimitiveType::U8), Func(&[("x", 0)], None)],
        imports: &[("x", 1), ("y", 1)],
        definitions: &[],
        want: &[
            0x07, 0x08, 0x01, 0x40, 0x01, 0x01, 0x78, 0x7d, 0x01, 0x00, // a function type
            0x0a, 0x0b, 0x02, // two imports
            0x00, 0x01, 0x78, 0x01, 0x00, // a function of it
            0x00, 0x01, 0x79, 0x01, 0x00, // another
        ],
    },
    RootRow {
        name: "a function has the first type item of its type",
        rows: &[
            Primitive(PrimitiveType::U8),
            Func(&[("x", 0)], None),
            TypeOf(1),
        ],
        imports: &[("x", 2), ("y", 2), ("z", 1)],
        definitions: &[],
        want: &[
            0x07, 0x08, 0x01, 0x40, 0x01, 0x01, 0x78, 0x7d, 0x01, 0x00, // a function type
            0x0a, 0x12, 0x03, // three imports
            0x00, 0x01, 0x78, 0x03, 0x00, 0x00, // a type item that equals it
            0x00, 0x01, 0x79, 0x03, 0x00, 0x01, // another, which equals the first
            0x00, 0x01, 0x7a, 0x01, 0x01, // a function of the first
        ],
    },
    RootRow {
        name: "a function of an instance has the type item of its type",
        rows: &[
            Enumeration("a"),
            Func(&[("x", 0)], None),
            TypeOf(1),
            Instance(Some("n:p/i"), &[("g", 2), ("t", 0), ("f", 1)]),
        ],
        imports: &[("n:p/i", 3)],
        definitions: &[],
        want: &[
            0x07, 0x24, 0x01, 0x42, 0x05, // an instance type of five declarations
            0x01, 0x6d, 0x01, 0x01, 0x61, // the enum
            0x04, 0x00, 0x01, 0x74, 0x03, 0x00, 0x00, // a type item that equals it
            0x01, 0x40, 0x01, 0x01, 0x78, 0x01, 0x01, 0x00, // a function type over the type item
            0x04, 0x00, 0x01, 0x67, 0x03, 0x00, 0x02, // a type item that equals the function type
            0x04, 0x00, 0x01, 0x66, 0x01, 0x03, // a function of that
            0x0a, 0x0a, 0x01, 0x00, 0x05, 0x6e, 0x3a, 0x70, 0x2f, 0x69, 0x05, 0x00, // the import
        ],
    },
    RootRow {
        name: "a function over an alias takes the first of two type items, which the second equals",
        rows: &[
            Enumeration("a"),
            Alias(0),
            Func(&[("x", 1)], None),
            Instance(Some("n:p/i"), &[("t", 0), ("u", 1), ("f", 2)]),
        ],
        imports: &[("n:p/i", 3)],
        definitions: &[],
        want: &[
            0x07, 0x24, 0x01, 0x42, 0x05, // an instance type of five declarations
            0x01, 0x6d, 0x01, 0x01, 0x61, // the enum
            0x04, 0x00, 0x01, 0x74, 0x03, 0x00, 0x00, // a type item that equals it
            0x04, 0x00, 0x01, 0x75, 0x03, 0x00, 0x01, // another, which equals the first
            0x01, 0x40, 0x01, 0x01, 0x78, 0x01, 0x01, 0x00, // a function type over the first
            0x04, 0x00, 0x01, 0x66, 0x01, 0x03, // the function
            0x0a, 0x0a, 0x01, 0x00, 0x05, 0x6e, 0x3a, 0x70, 0x2f, 0x69, 0x05, 0x00, // the import
        ],
    },
    RootRow {
        name: "of the type items that are left the first that mentions none of them comes next",
        rows: &[
            Enumeration("x"),
            List(0),
            Optional(0),
            Pair(1, 2),
            Instance(Some("n:p/i"), &[("d", 3), ("c", 2), ("b", 1), ("a", 0)]),
        ],
        imports: &[("n:p/i", 4)],
        definitions: &[],
        want: &[
            0x07, 0x2f, 0x01, 0x42, 0x08, // an instance type of eight declarations
            0x01, 0x6d, 0x01, 0x01, 0x78, // the enum
            0x04, 0x00, 0x01, 0x61, 0x03, 0x00, 0x00, // `a`
            0x01, 0x6b, 0x01, // an option of `a`
            0x04, 0x00, 0x01, 0x63, 0x03, 0x00, 0x02, // `c`
            0x01, 0x70, 0x01, // a list of `a`
            0x04, 0x00, 0x01, 0x62, 0x03, 0x00, 0x04, // `b`
            0x01, 0x6f, 0x02, 0x05, 0x03, // a tuple of `b` and `c`
            0x04, 0x00, 0x01, 0x64, 0x03, 0x00, 0x06, // `d`
            0x0a, 0x0a, 0x01, 0x00, 0x05, 0x6e, 0x3a, 0x70, 0x2f, 0x69, 0x05, 0x00, // the import
        ],
    },
];

/// The order of type items and functions.
pub const ORDERED: &[RootRow] = &[
    RootRow {
        name: "a type item of a function type stays before an enum that it does not mention, and functions come last",
        rows: &[
            Enumeration("a"),
            Func(&[("x", 0)], None),
            Func(&[], None),
            TypeOf(2),
            Instance(Some("n:p/i"), &[("f", 1), ("g", 3), ("t", 0)]),
        ],
        imports: &[("n:p/i", 4)],
        definitions: &[],
        want: &[
            0x07, 0x29, 0x01, 0x42, 0x06, // an instance type of six declarations
            0x01, 0x40, 0x00, 0x01, 0x00, // a function type
            0x04, 0x00, 0x01, 0x67, 0x03, 0x00, 0x00, // a type item that equals it
            0x01, 0x6d, 0x01, 0x01, 0x61, // the enum
            0x04, 0x00, 0x01, 0x74, 0x03, 0x00, 0x02, // a type item that equals it
            0x01, 0x40, 0x01, 0x01, 0x78, 0x03, 0x01, 0x00, // a function type over it
            0x04, 0x00, 0x01, 0x66, 0x01, 0x04, // the function
            0x0a, 0x0a, 0x01, 0x00, 0x05, 0x6e, 0x3a, 0x70, 0x2f, 0x69, 0x05, 0x00, // the import
        ],
    },
    RootRow {
        name: "a type item of a function type comes after an enum that it mentions",
        rows: &[
            Enumeration("a"),
            Func(&[("x", 0)], None),
            TypeOf(1),
            Instance(Some("n:p/i"), &[("g", 2), ("t", 0)]),
        ],
        imports: &[("n:p/i", 3)],
        definitions: &[],
        want: &[
            0x07, 0x1e, 0x01, 0x42, 0x04, // an instance type of four declarations
            0x01, 0x6d, 0x01, 0x01, 0x61, // the enum
            0x04, 0x00, 0x01, 0x74, 0x03, 0x00, 0x00, // a type item that equals it
            0x01, 0x40, 0x01, 0x01, 0x78, 0x01, 0x01, 0x00, // a function type over it
            0x04, 0x00, 0x01, 0x67, 0x03, 0x00, 0x02, // a type item that equals that
            0x0a, 0x0a, 0x01, 0x00, 0x05, 0x6e, 0x3a, 0x70, 0x2f, 0x69, 0x05, 0x00, // the import
        ],
    },
    RootRow {
        name: "a type item comes after one that it mentions inside a definition without a name",
        rows: &[
            Enumeration("a"),
            List(0),
            Optional(1),
            Instance(Some("n:p/i"), &[("o", 2), ("t", 0)]),
        ],
        imports: &[("n:p/i", 3)],
        definitions: &[],
        want: &[
            0x07, 0x1c, 0x01, 0x42, 0x05, // an instance type of five declarations
            0x01, 0x6d, 0x01, 0x01, 0x61, // the enum
            0x04, 0x00, 0x01, 0x74, 0x03, 0x00, 0x00, // a type item that equals it
            0x01, 0x70, 0x01, // a list of it
            0x01, 0x6b, 0x02, // an option of that
            0x04, 0x00, 0x01, 0x6f, 0x03, 0x00, 0x03, // a type item that equals the option
            0x0a, 0x0a, 0x01, 0x00, 0x05, 0x6e, 0x3a, 0x70, 0x2f, 0x69, 0x05, 0x00, // the import
        ],
    },
];

// An interface of a named enum and of a function over it, imported.
const NAMED: &[u8] = &[
    0x07, 0x1d, 0x01, 0x42, 0x04, // an instance type of four declarations
    0x01, 0x6d, 0x01, 0x01, 0x61, // the enum
    0x04, 0x00, 0x01, 0x74, 0x03, 0x00, 0x00, // a type item that equals it
    0x01, 0x40, 0x01, 0x01, 0x78, 0x01, 0x01, 0x00, // a function type over the type item
    0x04, 0x00, 0x01, 0x66, 0x01, 0x02, // the function
    0x0a, 0x0a, 0x01, 0x00, 0x05, 0x6e, 0x3a, 0x70, 0x2f, 0x69, 0x05, 0x00, // the import
];
