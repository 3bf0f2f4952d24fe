// Types that import nodes ask for.
use crate::tables::Row::{
    Bool, Byte, Component, Doubled, Enumeration, Func, Instance, Own, Resource, TypeOf,
};
use crate::tables::Step::Import;
use crate::tables::Want::{Fault, Length, Parts};
use crate::tables::{Case, Row, assert_answers};
use wac_graph::{EncodeOptions, WriteFault};

// A world that imports a function, an interface that lists its type twice, and a world that imports and exports it.
const TWO_ITEMS: &[Row] = &[
    Func(&[], None),
    Component(None, &[("f", 0)], &[]),
    TypeOf(1),
    Instance(None, &[("v", 2), ("w", 2)]),
    Component(None, &[("v", 2)], &[("w", 2)]),
];

// Imports of types, and what is written of them.
const IMPORTS: &[Case] = &[
    // An interface of an enum and a function that takes it.
    Case {
        rows: &[
            Enumeration("a"),
            Func(&[("x", 0)], None),
            Instance(Some("n:p/i"), &[("t", 0), ("f", 1)]),
        ],
        steps: &[Import("n:p/i", 2)],
        want: Parts(&[
            "071d014204016d010161040001740300000140010178010100040001660102",
            "0a0a0100056e3a702f690500",
        ]),
    },
    // The type of both functions of an interface is written once, before the first.
    Case {
        rows: &[Func(&[], None), Instance(None, &[("f", 0), ("g", 0)])],
        steps: &[Import("a", 1)],
        want: Parts(&[
            "07140142030140000100040001660100040001670100",
            "0a06010001610500",
        ]),
    },
    // A function over a type that is imported before it has the type by the index under which it is imported.
    Case {
        rows: &[Enumeration("a"), Func(&[("x", 0)], None)],
        steps: &[Import("t", 0), Import("f", 1)],
        want: Parts(&[
            "0705016d010161",
            "0a0701000174030000",
            "07080140010178010100",
            "0a06010001660102",
        ]),
    },
    // A function type as a type item: what it takes is written in it, and another such import equals the first.
    Case {
        rows: &[Byte, Func(&[("x", 0)], None), TypeOf(1)],
        steps: &[Import("t", 2), Import("u", 2)],
        want: Parts(&["070801400101787d0100", "0a0d02000174030000000175030001"]),
    },
    // The instance type of an instance in an instance is written before it, in that of the outer one.
    Case {
        rows: &[
            Instance(None, &[]),
            Func(&[], None),
            Instance(None, &[("i", 0), ("f", 1)]),
        ],
        steps: &[Import("o", 2)],
        want: Parts(&[
            "0717014204014200040001690500",
            "0140000100040001660101",
            "0a060100016f0500",
        ]),
    },
    // Two imports of one class: what is under one name in both is one instance, with what each lists in it.
    Case {
        rows: &[
            Func(&[], None),
            Instance(None, &[("f", 0)]),
            Instance(None, &[("i", 1)]),
            Instance(None, &[("g", 0)]),
            Instance(None, &[("i", 3)]),
        ],
        steps: &[Import("n:p/i@1.0.0", 2), Import("n:p/i@1.1.0", 4)],
        want: Parts(&[
            "071d0142020142030140000100040001660100040001670100",
            "040001690500",
            "0a100100",
            "0b6e3a702f6940312e312e300500",
        ]),
    },
    // An interface as a type item: the instance type, and no instance.
    Case {
        rows: &[Func(&[], None), Instance(None, &[("f", 0)]), TypeOf(1)],
        steps: &[Import("i", 2)],
        want: Parts(&["070e0142020140000100040001660100", "0a0701000169030000"]),
    },
    // And inside an instance: its instance type is written before it, in that of the outer one, and the type item equals that.
    Case {
        rows: &[
            Func(&[], None),
            Instance(None, &[("f", 0)]),
            TypeOf(1),
            Instance(Some("n:p/o"), &[("i", 2)]),
        ],
        steps: &[Import("n:p/o", 3)],
        want: Parts(&[
            "0718014202",
            "0142020140000100040001660100",
            "04000169030000",
            "0a0a0100056e3a702f6f0500",
        ]),
    },
    // Tuples of which each holds the one before twice, forty deep: each is written once.
    Case {
        rows: &[Bool, Doubled(0, 40), Func(&[("x", 1)], None)],
        steps: &[Import("f", 2)],
        want: Length(187),
    },
];

// Imports of what has resources in it.
const RESOURCES: &[Case] = &[
    // A resource is imported as a fresh one.
    Case {
        rows: &[Resource],
        steps: &[Import("r", 0)],
        want: Parts(&["0a06010001720301"]),
    },
    // So it is exported by an instance in an instance.
    Case {
        rows: &[
            Resource,
            Instance(None, &[("r", 0)]),
            Instance(None, &[("i", 1)]),
        ],
        steps: &[Import("o", 2)],
        want: Parts(&[
            "0712014202014201040001720301040001690500",
            "0a060100016f0500",
        ]),
    },
    // So it is in an interface that an instance lists as a type item.
    Case {
        rows: &[
            Resource,
            Instance(None, &[("r", 0)]),
            TypeOf(1),
            Instance(None, &[("i", 2)]),
        ],
        steps: &[Import("o", 3)],
        want: Parts(&[
            "071301420201420104000172030104000169030000",
            "0a060100016f0500",
        ]),
    },
    // So it is in a world that it does.
    Case {
        rows: &[
            Resource,
            Component(None, &[], &[("r", 0)]),
            TypeOf(1),
            Instance(None, &[("w", 2)]),
        ],
        steps: &[Import("o", 3)],
        want: Parts(&[
            "071301420201410104000172030104000177030000",
            "0a060100016f0500",
        ]),
    },
    // The resource of a handle must be bound.
    Case {
        rows: &[Resource, Own(0), Func(&[("x", 1)], None), TypeOf(2)],
        steps: &[Import("t", 3)],
        want: Fault(0, WriteFault::UnboundResource),
    },
];

// Imports of what lists worlds.
const WORLDS: &[Case] = &[
    // Two type items of one world, in an instance and in the world of a component: its component type is written once in each.
    Case {
        rows: TWO_ITEMS,
        steps: &[Import("o", 3)],
        want: Parts(&[
            "071f014203", // an instance type of three declarations
            "0141020140000100030001660100", // the component type
            "04000176030000", // `v` equals it
            "04000177030001", // `w` equals that
            "0a060100016f0500",
        ]),
    },
    Case {
        rows: TWO_ITEMS,
        steps: &[Import("o", 4)],
        want: Parts(&[
            "071f014103", // a component type of three declarations
            "0141020140000100030001660100", // the one inside
            "03000176030000", // `v` equals it
            "04000177030001", // `w` equals that
            "0a060100016f0400",
        ]),
    },
];

#[test]
fn types_are_imported(rt: HostRuntime) {
    assert_answers(&rt, IMPORTS, EncodeOptions::default());
}

#[test]
fn resources_in_types_are_imported(rt: HostRuntime) {
    assert_answers(&rt, RESOURCES, EncodeOptions::default());
}

#[test]
fn worlds_in_types_are_imported(rt: HostRuntime) {
    assert_answers(&rt, WORLDS, EncodeOptions::default());
}
