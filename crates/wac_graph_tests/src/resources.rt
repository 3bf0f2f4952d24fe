// Resources that imports have, and types over them.
use crate::tables::Row::{AliasOf, Func, Instance, List, Own, Resource, Using};
use crate::tables::Step::{Define, Import, Instantiate, Register, RegisterAs};
use crate::tables::Want::Parts;
use crate::tables::{Case, Row, assert_answers};
use wac_graph::EncodeOptions;

// A package's component, which has no items.
const COMPONENT: &str = "04080061736d0d000100";

// The type of an instance with a resource `r`.
const HAS_R: &str = "0709014201040001720301";

// The type of an instance with a resource `r` and a function over it.
const HAS_F: &str = "071a0142040400017203010169000140010178010100040001660102";

// An import of it, the first.
const IMPORTS_I: &str = "0a0a0100056e3a702f690500";

// An alias of the resource of the first import.
const ALIASES_R: &str = "0606010300000172";

// A resource, its handle, a function over that, and `n:p/i` with the resource and the function.
const INTERFACE: &[Row] = &[
    Resource,
    Own(0),
    Func(&[("x", 1)], None),
    Instance(Some("n:p/i"), &[("r", 0), ("f", 2)]),
];

// Resources and functions over them.
const OWNED: &[Case] = &[
    Case {
        rows: INTERFACE,
        steps: &[Import("n:p/i", 3)],
        want: Parts(&[HAS_F, IMPORTS_I]),
    },
    // The resource comes first, also where the function is listed before it.
    Case {
        rows: &[
            Resource,
            Own(0),
            Func(&[("x", 1)], None),
            Instance(Some("n:p/i"), &[("f", 2), ("r", 0)]),
        ],
        steps: &[Import("n:p/i", 3)],
        want: Parts(&[HAS_F, IMPORTS_I]),
    },
    // Two imports of one interface under labels have two resources.
    Case {
        rows: INTERFACE,
        steps: &[Import("primary", 3), Import("secondary", 3)],
        want: Parts(&[
            HAS_F,
            "0a0c0100077072696d6172790500",
            HAS_F,
            "0a0e0100097365636f6e646172790501",
        ]),
    },
    // A function beside them means the resource of the import under the interface's id.
    Case {
        rows: INTERFACE,
        steps: &[
            Import("primary", 3),
            Import("secondary", 3),
            Import("n:p/i", 3),
            Import("g", 2),
        ],
        want: Parts(&[
            HAS_F,
            "0a0c0100077072696d6172790500",
            HAS_F,
            "0a0e0100097365636f6e646172790501",
            HAS_F,
            "0a0a0100056e3a702f690502",
            "0606010300020172", // the resource of the third
            "070a02690340010178040100", // its handle, and a function type over that
            "0a06010001670105",
        ]),
    },
    // A resource is imported fresh, before a function over it.
    Case {
        rows: INTERFACE,
        steps: &[Import("r", 0), Import("f", 2)],
        want: Parts(&[
            "0a06010001720301",
            "070a02690040010178010100",
            "0a06010001660102",
        ]),
    },
    // Imported once more it equals the first.
    Case {
        rows: INTERFACE,
        steps: &[Import("r", 0), Import("s", 0), Import("f", 2)],
        want: Parts(&[
            "0a0c02", // both imports
            "0001720301",
            "000173030000",
            "070a02690040010178020100",
            "0a06010001660103",
        ]),
    },
];

// `n:p/k` with a resource, and `n:p/i` with an instance that uses it and has a function over it.
const NESTED: &[Row] = &[
    Resource,
    Instance(Some("n:p/k"), &[("r", 0)]),
    Own(0),
    Func(&[("x", 2)], None),
    Using(None, &[("r", 1, "r")], &[("f", 3)]),
    Instance(Some("n:p/i"), &[("j", 4)]),
];

const NESTED_PARTS: &[&str] = &[
    HAS_R,
    "0a0a0100056e3a702f6b0500", // `n:p/k`
    ALIASES_R,
    "07220142020142", // an instance type in another
    "040203020201", // the resource of the root, two scopes out
    "016900", // its handle
    "0140010178010100", // a function type over that
    "040001660102",
    "0400016a0500", // `j`
    "0a0a0100056e3a702f690502", // `n:p/i`
];

// Resources of other imports.
const USED: &[Case] = &[
    // What is used is imported first, and each handle is of its own interface's resource.
    Case {
        rows: &[
            Resource,
            Instance(Some("n:p/a"), &[("r", 0)]),
            Resource,
            Instance(Some("n:p/b"), &[("r", 2)]),
            Own(0),
            Own(2),
            Func(&[("x", 4), ("y", 5)], None),
            Using(Some("n:p/c"), &[("r", 1, "r"), ("s", 3, "r")], &[("f", 6)]),
        ],
        steps: &[Register(&[("n:p/c", 7)]), Instantiate],
        want: Parts(&[
            HAS_R,
            "0a0a0100056e3a702f610500", // `n:p/a`
            HAS_R,
            "0a0a0100056e3a702f620501", // `n:p/b`
            "060b02", // the resource of each
            "0300000172",
            "0300010172",
            "0724014206", // an instance type of six declarations
            "0203020102016900", // the first resource and its handle
            "0203020103016902", // the second
            "0140020178010179030100", // a function type over both
            "040001660104",
            "0a0a0100056e3a702f630504", // `n:p/c`
            COMPONENT,
            "050c01000001056e3a702f630502",
        ]),
    },
    // What a nested instance uses is imported first.
    Case {
        rows: NESTED,
        steps: &[Import("n:p/i", 5)],
        want: Parts(NESTED_PARTS),
    },
    // So it is where it is imported by a node.
    Case {
        rows: NESTED,
        steps: &[Import("n:p/k", 1), Import("n:p/i", 5)],
        want: Parts(NESTED_PARTS),
    },
    // Handles to two resources of one name.
    Case {
        rows: &[
            Resource,
            Instance(Some("n:p/a"), &[("r", 0)]),
            Resource,
            Instance(Some("n:p/b"), &[("r", 2)]),
            Own(0),
            Own(2),
            Func(&[("x", 4), ("y", 5)], None),
        ],
        steps: &[Import("n:p/a", 1), Import("n:p/b", 3), Import("h", 6)],
        want: Parts(&[
            HAS_R,
            "0a0a0100056e3a702f610500", // `n:p/a`
            HAS_R,
            "0a0a0100056e3a702f620501", // `n:p/b`
            ALIASES_R,
            "0703016902",
            "0606010300010172", // the resource of the second
            "070d026904", // its handle
            "40020178030179050100", // a function type over both
            "0a06010001680106",
        ]),
    },
    // An instance that is listed beside a function binds nothing: the function means what the root imports, which comes first.
    Case {
        rows: &[
            Resource,
            Instance(Some("n:p/j"), &[("r", 0)]),
            Own(0),
            Func(&[("x", 2)], None),
            Instance(Some("n:p/i"), &[("n:p/j", 1), ("f", 3)]),
        ],
        steps: &[Import("n:p/i", 4), Import("n:p/j", 1)],
        want: Parts(&[
            HAS_R,
            "0a0a0100056e3a702f6a0500", // `n:p/j`
            ALIASES_R,
            "072c014206", // an instance type of six declarations
            "014201040001720301", // that of the instance inside
            "0400056e3a702f6a0500",
            "0203020101016901", // the root's resource and its handle
            "0140010178020100",
            "040001660103",
            "0a0a0100056e3a702f690502", // `n:p/i`
        ]),
    },
    // An alias of a resource equals what the instance exports.
    Case {
        rows: &[
            Resource,
            Instance(Some("n:p/k"), &[("r", 0)]),
            AliasOf(0),
            Own(2),
            Func(&[("x", 3)], None),
        ],
        steps: &[Import("n:p/k", 1), Import("t", 2), Import("f", 4)],
        want: Parts(&[
            HAS_R,
            "0a0a0100056e3a702f6b0500",
            ALIASES_R,
            "0a0701000174030001",
            "070a02690140010178030100",
            "0a06010001660104",
        ]),
    },
];

// The type of an instance with a resource and two functions over it, each of a type of its own.
const HAS_BOTH: &str =
    "072801420604000172030101690001400101780101000400016601020140010178010100040001670103";

// Resources of imports that are merged.
const MERGED: &[Case] = &[
    // Versions of an interface have one resource, which the functions of both are over.
    Case {
        rows: &[
            Resource,
            Own(0),
            Func(&[("x", 1)], None),
            Instance(Some("a:b/c@0.2.0"), &[("r", 0), ("f", 2)]),
            Resource,
            Own(4),
            Func(&[("x", 5)], None),
            Instance(Some("a:b/c@0.2.3"), &[("r", 4), ("g", 6)]),
        ],
        steps: &[
            RegisterAs(("my:first", None), &[("a:b/c@0.2.0", 3)]),
            Instantiate,
            RegisterAs(("my:second", None), &[("a:b/c@0.2.3", 7)]),
            Instantiate,
        ],
        want: Parts(&[
            HAS_BOTH,
            "0a1001000b613a622f6340302e322e330500",
            COMPONENT,
            "0512010000010b613a622f6340302e322e300500",
            COMPONENT,
            "0512010001010b613a622f6340302e322e330500",
        ]),
    },
    // So have interfaces without ids that two packages import under one label.
    Case {
        rows: &[
            Resource,
            Own(0),
            Func(&[("x", 1)], None),
            Instance(None, &[("r", 0), ("f", 2)]),
            Resource,
            Own(4),
            Func(&[("x", 5)], None),
            Instance(None, &[("r", 4), ("g", 6)]),
        ],
        steps: &[
            RegisterAs(("my:first", None), &[("foo", 3)]),
            Instantiate,
            RegisterAs(("my:second", None), &[("foo", 7)]),
            Instantiate,
        ],
        want: Parts(&[
            HAS_BOTH,
            "0a08010003666f6f0500",
            COMPONENT,
            "050a0100000103666f6f0500",
            COMPONENT,
            "050a0100010103666f6f0500",
        ]),
    },
    // A resource of which another package imports an alias under the same name is imported fresh.
    Case {
        rows: &[Resource, AliasOf(0)],
        steps: &[
            RegisterAs(("my:first", None), &[("r", 1)]),
            Instantiate,
            RegisterAs(("my:second", None), &[("r", 0)]),
            Instantiate,
        ],
        want: Parts(&[
            "0a06010001720301",
            COMPONENT,
            "05080100000101720300",
            COMPONENT,
            "05080100010101720300",
        ]),
    },
    // A version that uses the resource of another and has one of that name: in an instance in another import the two differ.
    Case {
        rows: &[
            Resource,
            Instance(Some("n:p/a@1.0.0"), &[("r", 0)]),
            Resource,
            Own(2),
            Own(0),
            Func(&[("x", 3), ("y", 4)], None),
            Using(Some("n:p/a@1.1.0"), &[("s", 1, "r")], &[("r", 2), ("f", 5)]),
            Instance(Some("n:p/k"), &[("j", 6)]),
        ],
        steps: &[
            Import("n:p/a@1.0.0", 1),
            Import("n:p/a@1.1.0", 6),
            Import("n:p/k", 7),
        ],
        want: Parts(&[
            "071d014204", // an instance type of four declarations
            "040001720301016900", // the one resource and its handle
            "0140020178010179010100", // a function type over it twice
            "040001660102",
            "0a1001000b6e3a702f6140312e312e300500",
            ALIASES_R,
            "072e014202014206", // an instance type in another
            "040001720301016900", // the resource of the instance inside and its handle
            "0203020201016902", // that of the first import and its handle
            "0140020178010179030100", // a function type over both
            "040001660104",
            "0400016a0500", // `j`
            "0a0a0100056e3a702f6b0502",
        ]),
    },
];

// Definitions over resources of imports.
const DEFINED: &[Case] = &[
    // The import under the interface's id counts, also after one under a label.
    Case {
        rows: INTERFACE,
        steps: &[Import("k", 3), Import("n:p/i", 3), Define("o", 1)],
        want: Parts(&[
            HAS_F,
            "0a060100016b0500",
            HAS_F,
            "0a0a0100056e3a702f690501",
            "0606010300010172", // the resource of the second
            "0703016902",
            "0b070100016f030300",
        ]),
    },
    // So does one that is asked for first and written after what it mentions.
    Case {
        rows: &[
            Resource,
            Resource,
            Own(0),
            Own(1),
            Func(&[("x", 2)], None),
            Instance(Some("n:p/i"), &[("r", 1), ("f", 4)]),
            Instance(Some("n:p/k"), &[("r", 0)]),
        ],
        steps: &[
            Import("n:p/i", 5),
            Import("n:p/k", 6),
            Define("o", 3),
            Define("p", 2),
        ],
        want: Parts(&[
            HAS_R,
            "0a0a0100056e3a702f6b0500", // `n:p/k`
            ALIASES_R,
            "071f014205", // an instance type of five declarations
            "040001720301", // its own resource
            "0203020101016901", // that of `n:p/k` and its handle
            "0140010178020100",
            "040001660103",
            "0a0a0100056e3a702f690502", // `n:p/i`
            "0606010300010172", // its resource
            "0703016903",
            "0b070100016f030400",
            ALIASES_R,
            "0703016906",
            "0b0701000170030700",
        ]),
    },
    // A later member of the first class has the resource.
    Case {
        rows: &[
            Resource,
            Instance(Some("a:b/x@1.0.0"), &[]),
            Instance(Some("n:p/y"), &[("r", 0)]),
            Instance(Some("a:b/x@1.1.0"), &[("r", 0)]),
            Own(0),
        ],
        steps: &[
            Import("a:b/x@1.0.0", 1),
            Import("n:p/y", 2),
            Import("a:b/x@1.1.0", 3),
            Define("o", 4),
        ],
        want: Parts(&[
            HAS_R,
            "0a1001000b613a622f7840312e312e300500",
            HAS_R,
            "0a0a0100056e3a702f790501",
            ALIASES_R,
            "0703016902",
            "0b070100016f030300",
        ]),
    },
    // A function, before the import and after it.
    Case {
        rows: INTERFACE,
        steps: &[Define("d", 2), Import("n:p/i", 3)],
        want: Parts(&[
            HAS_F,
            IMPORTS_I,
            ALIASES_R,
            "070a02690140010178020100",
            "0b0701000164030300",
        ]),
    },
    Case {
        rows: INTERFACE,
        steps: &[Import("n:p/i", 3), Define("d", 2)],
        want: Parts(&[
            HAS_F,
            IMPORTS_I,
            ALIASES_R,
            "070a02690140010178020100",
            "0b0701000164030300",
        ]),
    },
];

// A resource, a list of its handle, and `n:p/i` with both.
const LISTING: &[Row] = &[
    Resource,
    Own(0),
    List(1),
    Instance(Some("n:p/i"), &[("r", 0), ("t", 2)]),
];

// The type of an instance of it.
const HAS_T: &str = "071601420404000172030101690001700104000174030002";

// Definitions of types that imports list and that are over resources.
const LISTED: &[Case] = &[
    // What the import lists is the definition, also over its resource.
    Case {
        rows: LISTING,
        steps: &[Import("n:p/i", 3), Define("d", 2)],
        want: Parts(&[HAS_T, IMPORTS_I, "0606010300000174", "0b0701000164030100"]),
    },
    // What the import under a label lists is over another resource.
    Case {
        rows: LISTING,
        steps: &[Import("primary", 3), Import("n:p/i", 3), Define("d", 2)],
        want: Parts(&[
            HAS_T,
            "0a0c0100077072696d6172790500",
            HAS_T,
            "0a0a0100056e3a702f690501",
            "0606010300010174", // that of the second
            "0b0701000164030200",
        ]),
    },
    // So is what an import lists whose resource another import has first: the list is written.
    Case {
        rows: &[
            Resource,
            Own(0),
            List(1),
            Instance(Some("a:b/x@1.0.0"), &[]),
            Instance(Some("n:p/y"), &[("r", 0), ("t", 2)]),
            Instance(Some("a:b/x@1.1.0"), &[("r", 0)]),
        ],
        steps: &[
            Import("a:b/x@1.0.0", 3),
            Import("n:p/y", 4),
            Import("a:b/x@1.1.0", 5),
            Define("d", 2),
        ],
        want: Parts(&[
            HAS_R,
            "0a1001000b613a622f7840312e312e300500",
            HAS_T,
            "0a0a0100056e3a702f790501",
            ALIASES_R,
            "07050269027003", // its handle, and the list
            "0b0701000164030400",
        ]),
    },
];

#[test]
fn resources_are_imported(rt: HostRuntime) {
    assert_answers(&rt, OWNED, EncodeOptions::default());
}

#[test]
fn resources_of_other_imports_are_used(rt: HostRuntime) {
    assert_answers(&rt, USED, EncodeOptions::default());
}

#[test]
fn resources_of_one_name_are_merged(rt: HostRuntime) {
    assert_answers(&rt, MERGED, EncodeOptions::default());
}

#[test]
fn definitions_mean_resources_of_imports(rt: HostRuntime) {
    assert_answers(&rt, DEFINED, EncodeOptions::default());
}

#[test]
fn definitions_over_resources_are_those_of_imports(rt: HostRuntime) {
    assert_answers(&rt, LISTED, EncodeOptions::default());
}
