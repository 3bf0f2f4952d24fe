// What a composition imports: import nodes, and arguments that are not set.
use super::bench::Call::{
    Encode, Export, Import, Instantiate, Name, Refusal, Register, Sections, Set, Unset,
};
use super::bench::Item::{Component, Empty, Exporting, Module, Plain, Using, World};
use super::bench::{How, Rows, assert_tables};

// A package's component, which has no items.
const COMPONENT: &str = "04080061736d0d000100";

// A function that is imported, exported and named.
const PASSED: Rows = &[
    (Import("x", Plain), "0"),
    (Export(0, "y"), ""),
    (Name(0, "n"), ""),
];

// An instantiation that is given an import node, and an argument that is not set; what is not set is imported first.
const GIVEN: Rows = &[
    (Import("x", Plain), "0"),
    (
        Register("my:package", &[("b", Plain), ("c", Plain)], &[]),
        "",
    ),
    (Instantiate(0), "1"),
    (Set(1, "b", 0), ""),
];

// Two instances of one package ask for one import; an argument of the second was taken away.
const TWICE: Rows = &[
    (Register("my:package", &[("b", Plain)], &[]), ""),
    (Register("my:giver", &[], &[]), ""),
    (Import("x", Plain), "0"),
    (Instantiate(0), "1"),
    (Instantiate(0), "2"),
    (Set(2, "b", 0), ""),
    (Unset(2, "b", 0), ""),
];

// Two versions of one interface.
const VERSIONS: Rows = &[
    (
        Register("my:first", &[("a:b/c@0.2.0", Exporting("f"))], &[]),
        "",
    ),
    (
        Register("my:second", &[("a:b/c@0.2.3", Exporting("g"))], &[]),
        "",
    ),
    (Instantiate(0), "0"),
    (Instantiate(1), "1"),
];

// Import nodes that are two versions of one interface have one index, which the lower node names.
const NAMED: Rows = &[
    (Import("a:b/c@0.2.0", Empty), "0"),
    (Import("a:b/c@0.2.3", Empty), "1"),
    (Name(1, "q"), ""),
    (Name(0, "p"), ""),
];

// An interface that lists a type that it uses.
const USING: Rows = &[(Import("n:p/i", Using("n:p/i", "t", "n:p/j")), "0")];

// A core module that is imported.
const MODULE: Rows = &[(Import("k", Module), "0")];

// A core module that is an argument which is not set.
const ASKED_MODULE: Rows = &[
    (Register("my:package", &[("k", Module)], &[]), ""),
    (Instantiate(0), "0"),
];

// An instantiation that takes an imported core module.
const GIVEN_MODULE: Rows = &[
    (Import("x", Module), "0"),
    (Register("my:package", &[("k", Module)], &[]), ""),
    (Instantiate(0), "1"),
    (Set(1, "k", 0), ""),
];

// A component that is imported, and the type of a world.
const SIDES: Rows = &[(Import("k", Component), "0"), (Import("t", World), "1")];

// Two packages ask for one component and for one type of a world.
const ASKED_SIDES: Rows = &[
    (
        Register("my:first", &[("k", Component), ("t", World)], &[]),
        "",
    ),
    (
        Register("my:second", &[("k", Component), ("t", World)], &[]),
        "",
    ),
    (Instantiate(0), "0"),
    (Instantiate(1), "1"),
];

// The component type of both: a function type, the import `f` and the export `g` of it.
const SIDES_TYPE: &str = "07140141030140000100030001660100040001670100";

// The type of that core module.
const MODULE_TYPE: &str = "03140150030160000000016d01660000030165020001";

// The type of one import of two versions, and it.
const BOTH: &str =
    "0719014204014000010004000166010001400001000400016701010a1001000b613a622f6340302e322e330500";

// The components of the two versions, and their instances.
const INSTANCES: &str =
    "04080061736d0d0001000512010000010b613a622f6340302e322e30050004080061736d0d0001000512010001010b613a622f6340302e322e330500";

// Names of two functions that are imported.
const CLASHES: &[(Rows, Rows)] = &[
    // Names of imports clash where their labels differ in case alone.
    (
        &[(Import("a", Plain), "0"), (Import("A", Plain), "1")],
        &[
            (Refusal, "Clash `a`, `A`"),
            (
                Encode(How::Unchecked),
                "0061736d0d000100070501400001000a06010001610100070501400001000a06010001410101",
            ),
        ],
    ),
    (
        &[
            (Import("a", Plain), "0"),
            (Import("[constructor]a", Plain), "1"),
        ],
        &[
            (Refusal, ""),
            (
                Encode(How::Unchecked),
                "0061736d0d000100070501400001000a06010001610100070501400001000a1301000e5b636f6e7374727563746f725d610101",
            ),
        ],
    ),
    // A method and a static function of one name clash.
    (
        &[
            (Import("[method]a.b", Plain), "0"),
            (Import("[static]a.b", Plain), "1"),
        ],
        &[(Refusal, "Clash `[method]a.b`, `[static]a.b`")],
    ),
    (
        &[
            (Import("[constructor]a", Plain), "0"),
            (Import("[constructor]A", Plain), "1"),
        ],
        &[(Refusal, "Clash `[constructor]a`, `[constructor]A`")],
    ),
    // Names of interfaces do not.
    (
        &[(Import("a:b/c", Plain), "0"), (Import("a:b/C", Plain), "1")],
        &[(
            Sections(&[
                "07050140000100",
                "0a0a010005613a622f630100",
                "07050140000100",
                "0a0a010005613a622f430101",
            ]),
            "",
        )],
    ),
];

// What is asked of a graph after calls: the sections that `encode` answers behind the preamble, and others.
const TABLES: &[(Rows, Rows)] = &[
    (
        PASSED,
        &[(
            Sections(&[
                "07050140000100",
                "0a06010001780100",
                "0b0701000179010000",
                "00160e636f6d706f6e656e742d6e616d650105010100016e",
            ]),
            "",
        )],
    ),
    // What is not set is imported.
    (
        GIVEN,
        &[(
            Sections(&[
                "07050140000100",
                "0a06010001630100",
                "07050140000100",
                "0a06010001780101",
                COMPONENT,
                "050c010000020162010101630100",
            ]),
            "",
        )],
    ),
    (
        TWICE,
        &[(
            Sections(&[
                "07050140000100",
                "0a06010001620100",
                "07050140000100",
                "0a06010001780101",
                COMPONENT,
                "050f020000010162010000000101620100",
            ]),
            "",
        )],
    ),
    (
        NAMED,
        &[(
            Sections(&[
                "0703014200",
                "0a1001000b613a622f6340302e322e330500",
                "00160e636f6d706f6e656e742d6e616d6501050501000170",
            ]),
            "",
        )],
    ),
    (
        MODULE,
        &[(Sections(&[MODULE_TYPE, "0a070100016b001100"]), "")],
    ),
    (
        ASKED_MODULE,
        &[(
            Sections(&[
                MODULE_TYPE,
                "0a070100016b001100",
                COMPONENT,
                "050901000001016b001100",
            ]),
            "",
        )],
    ),
    (
        GIVEN_MODULE,
        &[(
            Sections(&[
                MODULE_TYPE,
                "0a0701000178001100",
                COMPONENT,
                "050901000001016b001100",
            ]),
            "",
        )],
    ),
    // Type items come first, and each of the two stands behind a component type of its own.
    (
        SIDES,
        &[(
            Sections(&[
                SIDES_TYPE,
                "0a0701000174030000",
                SIDES_TYPE,
                "0a060100016b0402",
            ]),
            "",
        )],
    ),
    (
        ASKED_SIDES,
        &[(
            Sections(&[
                SIDES_TYPE,
                "0a0701000174030000",
                SIDES_TYPE,
                "0a060100016b0402",
                COMPONENT,
                "050c01000102016b040001740301",
                COMPONENT,
                "050c01000202016b040001740301",
            ]),
            "",
        )],
    ),
    // The interface that is used is imported before; its enum is aliased from the instance, and the other interface lists that alias from around.
    (
        USING,
        &[(
            Sections(&[
                "070f014202016d01016104000174030000",
                "0a0a0100056e3a702f6a0500",
                "0606010300000174",
                "070f014202020302010104000174030000",
                "0a0a0100056e3a702f690502",
            ]),
            "",
        )],
    ),
    // Versions of an interface are one import.
    (VERSIONS, &[(Sections(&[BOTH, INSTANCES]), "")]),
    (
        VERSIONS,
        &[
            (
                Register("my:third", &[("a:b/c@0.3.0", Exporting("h"))], &[]),
                "",
            ),
            (Instantiate(2), "2"),
            (
                Sections(&[
                    BOTH,
                    "070e01420201400001000400016801000a1001000b613a622f6340302e332e300501",
                    INSTANCES,
                    COMPONENT,
                    "0512010002010b613a622f6340302e332e300501",
                ]),
                "",
            ),
        ],
    ),
];

#[test]
fn imports_are_written(rt: HostRuntime) {
    assert_tables(&rt, TABLES);
}

#[test]
fn names_of_imports_are_validated(rt: HostRuntime) {
    assert_tables(&rt, CLASHES);
}
