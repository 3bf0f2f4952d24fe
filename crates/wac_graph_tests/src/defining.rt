// Definitions of types.
use crate::parts::{assert_displayed, define, encode};
use crate::tables::Row::{
    Alias, Bool, Component, Enumeration, Func, Instance, List, Optional, Own, Pair, Record,
    Resource, TypeOf, Using,
};
use crate::tables::Step::{
    Define, Export, Exported, Import, Instantiate, Kept, Nodes, Register, Remove, Undefined,
};
use crate::tables::Want::{Fault, Invalid, Parts};
use crate::tables::{Calls, Case, Made, Row, Want, assert_answers};
use std::process::Abort;
use wac_graph::types::Type;
use wac_graph::{CompositionGraph, DefineTypeError, EncodeOptions, NodeId, WriteFault};

/// Defines a type. Where memory was refused nothing changed: made again the call answers as if it had not been refused.
pub fn answer(
    rt: &impl Abort,
    graph: &mut CompositionGraph,
    name: &str,
    ty: Type,
) -> Result<NodeId, DefineTypeError> {
    let nodes = graph.node_ids().count();
    let exported = graph.get_export(name);
    match define(rt, graph, name, ty) {
        Err(DefineTypeError::OutOfMemory) => {
            assert!(rt; graph.node_ids().count() == nodes && graph.get_export(name) == exported);
            define(rt, graph, name, ty)
        }
        answer => answer,
    }
}

/// A type is not defined, and this is why.
pub fn assert_undefined(
    rt: &(impl Abort + AllocGlobal),
    graph: &mut CompositionGraph,
    name: &str,
    ty: Type,
    want: &str,
) {
    match answer(rt, graph, name, ty) {
        Ok(_) => panic!(rt; "the type is defined"),
        Err(error) => assert_displayed(rt, &error, want),
    }
}

// A resource is not bound in the type that node 0 asks for.
const UNBOUND: Want = Fault(0, WriteFault::UnboundResource);

// An enum, a list and an option of it, and a tuple of these two.
const DIAMOND: &[Row] = &[Enumeration("x"), List(0), Optional(0), Pair(1, 2)];

// The interface `n:p/i` of an enum and a function that takes it.
const INTERFACE: &[Row] = &[
    Enumeration("a"),
    Func(&[("x", 0)], None),
    Instance(Some("n:p/i"), &[("t", 0), ("f", 1)]),
];

const INTERFACE_TYPE: &str =
    "072a014102014204016d0101610400017403000001400101780101000400016601020400056e3a702f690500";

// Definitions that are encoded.
const DEFINED: &[Case] = &[
    // A name that may not be exported is refused.
    Case {
        rows: &[Bool],
        steps: &[Define("url=<u>", 0)],
        want: Invalid("NotExportable `url=<u>`"),
    },
    // Each definition stands behind those that it is made of, and a later one goes by the export's index.
    Case {
        rows: DIAMOND,
        steps: &[
            Define("d", 3),
            Define("c", 2),
            Define("b", 1),
            Define("a", 0),
        ],
        want: Parts(&[
            "0705016d010178",
            "0b0701000161030000",
            "0703016b01",
            "0b0701000163030200",
            "0703017001",
            "0b0701000162030400",
            "0705016f020503",
            "0b0701000164030600",
        ]),
    },
    // A second name of a definition is exported behind all that is written, of the definition's own index.
    Case {
        rows: &[Bool, Alias(0)],
        steps: &[Define("foo", 1), Export(0, "bar")],
        want: Parts(&["0702017f", "0b1102", "0003666f6f030000", "0003626172030100"]),
    },
    // The function type, and its export as a type.
    Case {
        rows: &[Func(&[], None)],
        steps: &[Define("f", 0)],
        want: Parts(&["07050140000100", "0b0701000166030000"]),
    },
    // A function type stands behind the record that it is made of, and goes by the index of the record's export.
    Case {
        rows: &[Bool, Record(0), Func(&[("x", 1)], Some(1))],
        steps: &[Define("f", 2), Define("r", 1)],
        want: Parts(&[
            "070601720101627f",
            "0b0701000172030000",
            "07080140010178010001",
            "0b0701000166030200",
        ]),
    },
    // The resource of a handle must be bound.
    Case {
        rows: &[Resource, Own(0), Func(&[("x", 1)], None)],
        steps: &[Define("f", 2)],
        want: UNBOUND,
    },
    // A definition beside an import: the import stands first.
    Case {
        rows: &[Bool, Func(&[], None)],
        steps: &[Import("x", 1), Define("foo", 0)],
        want: Parts(&[
            "07050140000100",
            "0a06010001780100",
            "0702017f",
            "0b09010003666f6f030100",
        ]),
    },
    // Nodes are written by number where none waits for another, so a definition may stand between two instances.
    Case {
        rows: &[Bool],
        steps: &[Register(&[]), Instantiate, Define("foo", 0), Instantiate],
        want: Parts(&[
            "04080061736d0d000100",
            "050401000000",
            "0702017f",
            "0b09010003666f6f030000",
            "050401000000",
        ]),
    },
    // A component and its instance may stand between two definitions, of which the later goes by the index of the earlier's export.
    Case {
        rows: DIAMOND,
        steps: &[Register(&[]), Define("a", 0), Instantiate, Define("b", 1)],
        want: Parts(&[
            "0705016d010178",
            "0b0701000161030000",
            "04080061736d0d000100",
            "050401000000",
            "0703017001",
            "0b0701000162030200",
        ]),
    },
    // An interface is written as a component type that exports an instance of it under its id.
    Case {
        rows: INTERFACE,
        steps: &[Define("d", 2)],
        want: Parts(&[INTERFACE_TYPE, "0b0701000164030000"]),
    },
    // A component type sees nothing outside itself: what the interface is made of is written in it once more.
    Case {
        rows: INTERFACE,
        steps: &[Define("d", 2), Define("e", 0)],
        want: Parts(&[
            "0705016d0101610b0701000165030000",
            INTERFACE_TYPE,
            "0b0701000164030200",
        ]),
    },
    // The instance type of what is inside is written in that of the interface.
    Case {
        rows: &[
            Func(&[], None),
            Instance(None, &[("f", 0)]),
            Instance(Some("n:p/i"), &[("n", 1)]),
        ],
        steps: &[Define("d", 2)],
        want: Parts(&[
            "072401410201420201420201400001000400016601000400016e05000400056e3a702f690500",
            "0b0701000164030000",
        ]),
    },
    // So is the component type of a world of which a type is listed.
    Case {
        rows: &[
            Func(&[], None),
            Component(None, &[("f", 0)], &[]),
            TypeOf(1),
            Instance(Some("n:p/i"), &[("w", 2)]),
        ],
        steps: &[Define("d", 3)],
        want: Parts(&[
            "0725014102", // a component type of two declarations
            "014202", // the interface's instance type
            "014102014000010003000166010004000177030000", // the component type inside, and the type item that equals it
            "0400056e3a702f690500", // the instance
            "0b0701000164030000",
        ]),
    },
    // So must that of a handle inside.
    Case {
        rows: &[
            Resource,
            Own(0),
            Func(&[("x", 1)], None),
            Instance(None, &[("f", 2)]),
            Instance(Some("n:p/i"), &[("n", 3)]),
        ],
        steps: &[Define("d", 4)],
        want: UNBOUND,
    },
    // A world is written as a component type that exports a component of it under its id.
    Case {
        rows: &[
            Func(&[], None),
            Component(Some("n:p/w"), &[("f", 0)], &[("run", 0)]),
        ],
        steps: &[Define("t", 1)],
        want: Parts(&[
            "0723014102014103014000010003000166010004000372756e01000400056e3a702f770400",
            "0b0701000174030000",
        ]),
    },
    // A type of another world that it imports stands behind that one's component type, which is written inside.
    Case {
        rows: &[
            Func(&[], None),
            Component(None, &[("f", 0)], &[]),
            TypeOf(1),
            Component(Some("n:p/w"), &[("t", 2)], &[]),
        ],
        steps: &[Define("t", 3)],
        want: Parts(&[
            "0725014102", // a component type of two declarations
            "014102", // that of the world
            "014102014000010003000166010003000174030000", // the one inside, and the type item that equals it
            "0400056e3a702f770400", // the component
            "0b0701000174030000",
        ]),
    },
    // So must that of a handle inside.
    Case {
        rows: &[
            Resource,
            Own(0),
            Func(&[("x", 1)], None),
            Component(Some("n:p/w"), &[], &[("run", 2)]),
        ],
        steps: &[Define("t", 3)],
        want: UNBOUND,
    },
];

// Definitions that use.
const USING: &[Case] = &[
    // An interface imports what it uses, cut to its types, under its id.
    Case {
        rows: &[
            Enumeration("a"),
            Func(&[], None),
            Instance(Some("n:p/j"), &[("t", 0), ("g", 1)]),
            Using(Some("n:p/i"), &[("t", 2, "t")], &[("t", 0)]),
        ],
        steps: &[Define("d", 3)],
        want: Parts(&[
            "073b014105", // a component type of five declarations
            "014202016d01016104000174030000", // an instance type that lists the enumeration alone
            "0300056e3a702f6a0500", // `n:p/j` is imported
            "020300000174", // its enumeration
            "014202020302010104000174030000", // an instance type that lists that
            "0400056e3a702f690502", // `n:p/i` is exported
            "0b0701000164030000",
        ]),
    },
    // So does a world that exports it alone, where what the world imports uses it.
    Case {
        rows: &[
            Enumeration("a"),
            Func(&[], None),
            Instance(Some("n:p/j"), &[("t", 0), ("g", 1)]),
            Using(Some("n:p/i"), &[("t", 2, "t")], &[("t", 0)]),
            Component(Some("n:p/w"), &[("n:p/i", 3)], &[("n:p/j", 2)]),
        ],
        steps: &[Define("d", 4)],
        want: Parts(&[
            "076c014102", // a component type of two declarations
            "014107", // the world's component type, of seven
            "014202016d01016104000174030000",
            "0300056e3a702f6a0500", // `n:p/j` is imported, without its function
            "020300000174", // its enumeration
            "014202020302010104000174030000",
            "0300056e3a702f690502", // `n:p/i` is imported
            "014204020302010104000174030000", // an instance type that lists the enumeration
            "0140000100040001670102", // and the function
            "0400056e3a702f6a0503", // `n:p/j` is exported
            "0400056e3a702f770400", // the world is exported
            "0b0701000164030000",
        ]),
    },
    // An interface imports what an instance in it uses.
    Case {
        rows: &[
            Resource,
            Instance(Some("n:p/k"), &[("r", 0)]),
            Own(0),
            Func(&[("x", 2)], None),
            Using(None, &[("r", 1, "r")], &[("f", 3)]),
            Instance(Some("n:p/i"), &[("j", 4)]),
        ],
        steps: &[Define("d", 5)],
        want: Parts(&[
            "0748014105", // a component type of five declarations
            "014201040001720301",
            "0300056e3a702f6b0500", // `n:p/k` is imported
            "020300000172", // its resource
            "0142020142", // an instance type in another
            "0402030202010169000140010178010100",
            "040001660102",
            "0400016a0500",
            "0400056e3a702f690502", // `n:p/i` is exported
            "0b0701000164030000",
        ]),
    },
];

#[test]
fn definitions_are_encoded(rt: HostRuntime) {
    assert_answers(&rt, DEFINED, EncodeOptions::default());
}

#[test]
fn definitions_import_what_they_use(rt: HostRuntime) {
    assert_answers(&rt, USING, EncodeOptions::default());
}

/// Definitions that are made, refused and removed.
pub const CALLS: &[Calls] = &[
    // A type is defined once, until it is removed.
    (
        &[Bool],
        &[
            Define("foo", 0),
            Exported("foo", Some(NodeId(0))),
            Undefined(
                "bar",
                0,
                "the provided type has already been defined in the graph",
            ),
            Exported("bar", None),
            Remove("foo"),
            Exported("foo", None),
            Define("bar", 0),
        ],
    ),
    // A resource is not defined.
    (
        &[Resource],
        &[Undefined("r", 0, "a resource type cannot be defined in the graph")],
    ),
    // Names of definitions are checked.
    (
        &[Bool, Func(&[], None)],
        &[
            Import("x", 1),
            Export(0, "taken"),
            Undefined(
                "taken",
                0,
                "type name `taken` conflicts with an existing export of the same name",
            ),
            Undefined("1a", 0, "type name `1a` is not valid"),
            Define("url=<u>", 0),
        ],
    ),
    // A definition stays exported.
    (
        &[Bool],
        &[Define("foo", 0), Kept(0), Exported("foo", Some(NodeId(0)))],
    ),
    // Whatever order they are defined in, all go with the one that the others are made of, and may be defined again.
    (
        &[Enumeration("x"), List(0), Optional(0), Pair(1, 2), Bool],
        &[
            Define("a", 0),
            Define("b", 1),
            Define("c", 2),
            Define("d", 3),
            Remove("a"),
            Nodes(0),
            Define("d", 3),
            Define("c", 2),
            Define("b", 1),
            Define("a", 0),
            Remove("b"),
            Nodes(2),
            Undefined(
                "a",
                4,
                "type name `a` conflicts with an existing export of the same name",
            ),
            Undefined(
                "c",
                4,
                "type name `c` conflicts with an existing export of the same name",
            ),
            Exported("b", None),
            Exported("d", None),
            Remove("a"),
            Nodes(0),
        ],
    ),
];

// A name that may not be exported is written where validation is not asked for.
#[test]
fn names_of_definitions_are_not_looked_at_unless_it_is_asked(rt: HostRuntime) {
    let made = Made::new(&rt, &[Bool], &[Define("url=<u>", 0)]);
    let options = EncodeOptions {
        validate: false,
        ..EncodeOptions::default()
    };
    assert!(rt; encode(&made.graph, options).is_ok());
}
