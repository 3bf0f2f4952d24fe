// Definitions that an imported instance lists, and of what is made of these.
use crate::tables::Row::{Alias, Enumeration, Func, Instance, List, Pair};
use crate::tables::Step::{Define, Import};
use crate::tables::Want::Parts;
use crate::tables::{Case, assert_answers};
use wac_graph::EncodeOptions;

// An instance type that lists an enum as `t`.
const LISTS_T: &str = "070f014202016d01016104000174030000";

// An import of an instance of it.
const IMPORTS_I: &str = "0a0a0100056e3a702f690500";

// An alias of its type item.
const ALIASES_T: &str = "0606010300000174";

// The type item `t` of an enum.
const IMPORTS_T: &str = "0a0701000174030000";

// Definitions of types that imports have.
const REDEFINED: &[Case] = &[
    // A list of an enum that is imported as a type item goes by the import's index.
    Case {
        rows: &[Enumeration("x"), List(0)],
        steps: &[Import("t", 0), Define("l", 1)],
        want: Parts(&[
            "0705016d010178",
            IMPORTS_T,
            "0703017001",
            "0b070100016c030200",
        ]),
    },
    // The enum itself is the import.
    Case {
        rows: &[Enumeration("x")],
        steps: &[Import("t", 0), Define("e", 0)],
        want: Parts(&["0705016d010178", IMPORTS_T, "0b0701000165030100"]),
    },
    // A type item counts before an instance that lists the enum too.
    Case {
        rows: &[
            Enumeration("a"),
            List(0),
            Instance(Some("n:p/i"), &[("t", 0)]),
        ],
        steps: &[Import("n:p/i", 2), Import("t", 0), Define("d", 1)],
        want: Parts(&[
            LISTS_T,
            IMPORTS_I,
            ALIASES_T,
            "0a0701000174030001",
            "0703017002",
            "0b0701000164030300",
        ]),
    },
    // Of two type items the first counts.
    Case {
        rows: &[Enumeration("x"), List(0)],
        steps: &[Import("t", 0), Import("u", 0), Define("l", 1)],
        want: Parts(&[
            "0705016d010178",
            "0a0d02", // both imports
            "000174030000",
            "000175030001",
            "0703017001",
            "0b070100016c030300",
        ]),
    },
    // A list of the enum that an interface lists beside a function that takes it.
    Case {
        rows: &[
            Enumeration("a"),
            List(0),
            Func(&[("x", 0)], None),
            Instance(Some("n:p/i"), &[("t", 0), ("f", 2)]),
        ],
        steps: &[Import("n:p/i", 3), Define("d", 1)],
        want: Parts(&[
            "071d014204016d010161040001740300000140010178010100040001660102",
            IMPORTS_I,
            ALIASES_T,
            "0703017001", // the list over the alias
            "0b0701000164030200", // the export
        ]),
    },
    // The enum itself.
    Case {
        rows: &[Enumeration("a"), Instance(Some("n:p/i"), &[("t", 0)])],
        steps: &[Import("n:p/i", 1), Define("e", 0)],
        want: Parts(&[LISTS_T, IMPORTS_I, ALIASES_T, "0b0701000165030100"]),
    },
    // A tuple that mentions it twice, over one alias.
    Case {
        rows: &[
            Enumeration("a"),
            Pair(0, 0),
            Instance(Some("n:p/i"), &[("t", 0)]),
        ],
        steps: &[Import("n:p/i", 2), Define("d", 1)],
        want: Parts(&[
            LISTS_T,
            IMPORTS_I,
            ALIASES_T,
            "0705016f020101",
            "0b0701000164030200",
        ]),
    },
    // Another name of it, and a list behind that goes by the export's index.
    Case {
        rows: &[
            Enumeration("a"),
            Alias(0),
            List(0),
            Instance(Some("n:p/i"), &[("t", 0)]),
        ],
        steps: &[Import("n:p/i", 3), Define("d", 1), Define("l", 2)],
        want: Parts(&[
            LISTS_T,
            IMPORTS_I,
            ALIASES_T,
            "0b0701000164030100",
            "0703017002",
            "0b070100016c030300",
        ]),
    },
    // What an interface lists under another name of it is the same.
    Case {
        rows: &[
            Enumeration("a"),
            Alias(0),
            Instance(Some("n:p/i"), &[("t", 1)]),
        ],
        steps: &[Import("n:p/i", 2), Define("e", 0)],
        want: Parts(&[LISTS_T, IMPORTS_I, ALIASES_T, "0b0701000165030100"]),
    },
    // Of two imports that list it the first counts.
    Case {
        rows: &[
            Enumeration("a"),
            List(0),
            Instance(Some("n:p/i"), &[("t", 0)]),
            Instance(Some("n:p/j"), &[("u", 0)]),
        ],
        steps: &[Import("n:p/i", 2), Import("n:p/j", 3), Define("d", 1)],
        want: Parts(&[
            LISTS_T,
            IMPORTS_I,
            ALIASES_T,
            "070f014202020302010104000175030000", // an alias of the alias, listed as `u`
            "0a0a0100056e3a702f6a0502",
            ALIASES_T,
            "0703017003",
            "0b0701000164030400",
        ]),
    },
    // Of two types with the same cases each is aliased from its own name.
    Case {
        rows: &[
            Enumeration("a"),
            Enumeration("a"),
            List(1),
            Instance(Some("n:p/i"), &[("t", 0), ("u", 1)]),
        ],
        steps: &[Import("n:p/i", 3), Define("d", 2)],
        want: Parts(&[
            "071b014204016d01016104000174030000016d01016104000175030002",
            IMPORTS_I,
            "0606010300000175",
            "0703017001",
            "0b0701000164030200",
        ]),
    },
    // Of an interface in two versions, which are one import, the type of each is aliased from it.
    Case {
        rows: &[
            Enumeration("a"),
            Instance(Some("a:b/c@0.2.0"), &[("t", 0)]),
            Enumeration("a"),
            Instance(Some("a:b/c@0.2.3"), &[("t", 2)]),
            List(0),
            List(2),
        ],
        steps: &[
            Import("a:b/c@0.2.0", 1),
            Import("a:b/c@0.2.3", 3),
            Define("d", 4),
            Define("e", 5),
        ],
        want: Parts(&[
            LISTS_T,
            "0a1001000b613a622f6340302e322e330500",
            ALIASES_T,
            "0703017001",
            "0b0701000164030200",
            ALIASES_T,
            "0703017004",
            "0b0701000165030500",
        ]),
    },
    // What no import lists is written.
    Case {
        rows: &[
            Enumeration("a"),
            Instance(Some("n:p/i"), &[("t", 0)]),
            Enumeration("b"),
            List(2),
        ],
        steps: &[Import("n:p/i", 1), Define("d", 3)],
        want: Parts(&[
            LISTS_T,
            IMPORTS_I,
            "0707026d0101627001", // the other enum, and the list over it
            "0b0701000164030200",
        ]),
    },
    // Where nothing is defined nothing is aliased.
    Case {
        rows: &[Enumeration("a"), Instance(Some("n:p/i"), &[("t", 0)])],
        steps: &[Import("n:p/i", 1)],
        want: Parts(&[LISTS_T, IMPORTS_I]),
    },
];

#[test]
fn definitions_go_by_what_imports_list(rt: HostRuntime) {
    assert_answers(&rt, REDEFINED, EncodeOptions::default());
}
