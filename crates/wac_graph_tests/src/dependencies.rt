// Packages that are imported.
use crate::tables::Row::{Enumeration, Func, Instance, Using};
use crate::tables::Step::{Import, Instantiate, Register, RegisterAs, Set};
use crate::tables::Want::{Invalid, Parts};
use crate::tables::{Case, Key, Row, Step, assert_answers};
use wac_graph::EncodeOptions;

const IMPORTED: EncodeOptions<'static> = EncodeOptions {
    define_components: false,
    validate: true,
    processor: None,
};

// The package `foo:bar` without a version, and of one.
const PLAIN: Key = ("foo:bar", None);

const VERSIONED: Key = ("foo:bar", Some(1));

// The type of a component without items.
const EMPTY: &str = "0703014100";

// An import of `foo:bar` and of `my:package`, up to what it is.
const IMPORTS_FOO_BAR: &str =
    "0a25010020756e6c6f636b65642d6465703d3c666f6f3a626172407b3e3d312e302e307d3e";

const IMPORTS_MY_PACKAGE: &str = "0a1e010019756e6c6f636b65642d6465703d3c6d793a7061636b6167653e";

// An instance that is imported by the name of a dependency.
const BESIDE: &[Row] = &[Instance(None, &[])];

const BESIDE_STEPS: &[Step] = &[
    Import("unlocked-dep=<foo:bar@{>=1.0.0}>", 0),
    RegisterAs(VERSIONED, &[]),
    Instantiate,
];

// Packages without items.
const PACKAGES: &[Case] = &[
    // The import tells from which version on.
    Case {
        rows: &[],
        steps: &[RegisterAs(VERSIONED, &[]), Instantiate],
        want: Parts(&[EMPTY, IMPORTS_FOO_BAR, "0400", "050401000000"]),
    },
    // Without a version it does not; a package that is instantiated twice is imported once.
    Case {
        rows: &[],
        steps: &[RegisterAs(PLAIN, &[]), Instantiate, Instantiate],
        want: Parts(&[
            EMPTY,
            "0a1b010016756e6c6f636b65642d6465703d3c666f6f3a6261723e0400",
            "050702000000000000",
        ]),
    },
    // A package that is not instantiated is not imported.
    Case {
        rows: &[],
        steps: &[RegisterAs(PLAIN, &[])],
        want: Parts(&[]),
    },
    // A package's name without a namespace makes no name of a dependency.
    Case {
        rows: &[],
        steps: &[RegisterAs(("foo", None), &[]), Instantiate],
        want: Invalid("BadName `unlocked-dep=<foo>`"),
    },
    // An import of the dependency's name clashes with it.
    Case {
        rows: BESIDE,
        steps: BESIDE_STEPS,
        want: Invalid(
            "Clash `unlocked-dep=<foo:bar@{>=1.0.0}>`, `unlocked-dep=<foo:bar@{>=1.0.0}>`",
        ),
    },
];

// Names that are not looked at.
const UNCHECKED: &[Case] = &[
    // Two imports of one name, the node's first.
    Case {
        rows: BESIDE,
        steps: BESIDE_STEPS,
        want: Parts(&[
            "0703014200",
            IMPORTS_FOO_BAR,
            "0500",
            EMPTY,
            IMPORTS_FOO_BAR,
            "0401",
            "050401000000",
        ]),
    },
];

// Packages that import.
const ARGUMENTS: &[Case] = &[
    // The package's world is written apart from the import that is its argument.
    Case {
        rows: &[Func(&[], None)],
        steps: &[
            Import("x", 0),
            Register(&[("f", 0)]),
            Instantiate,
            Set(1, "f", 0),
        ],
        want: Parts(&[
            "07050140000100",
            "0a06010001780100", // `x`
            "070e014102", // a component type of two declarations
            "0140000100",
            "030001660100", // `f` is imported
            IMPORTS_MY_PACKAGE,
            "0401",
            "05080100000101660100",
        ]),
    },
    // An import that is no argument yet is imported first, and so is what it uses.
    Case {
        rows: &[
            Enumeration("a"),
            Instance(Some("n:p/j"), &[("t", 0)]),
            Using(Some("n:p/i"), &[("t", 1, "t")], &[("t", 0)]),
        ],
        steps: &[Register(&[("n:p/i", 2), ("n:p/j", 1)]), Instantiate],
        want: Parts(&[
            "070f014202016d01016104000174030000",
            "0a0a0100056e3a702f6a0500", // `n:p/j`
            "0606010300000174",
            "070f014202020302010104000174030000",
            "0a0a0100056e3a702f690502", // `n:p/i`
            "073b014105", // a component type of five declarations
            "014202016d01016104000174030000",
            "0300056e3a702f6a0500", // `n:p/j`
            "020300000174",
            "014202020302010104000174030000",
            "0300056e3a702f690502", // `n:p/i`
            IMPORTS_MY_PACKAGE,
            "0403",
            "051401000002", // the arguments in the order of the world
            "056e3a702f690501",
            "056e3a702f6a0500",
        ]),
    },
];

#[test]
fn packages_are_imported(rt: HostRuntime) {
    assert_answers(&rt, PACKAGES, IMPORTED);
}

#[test]
fn packages_that_import_are_imported(rt: HostRuntime) {
    assert_answers(&rt, ARGUMENTS, IMPORTED);
}

#[test]
fn names_of_packages_are_not_looked_at_unless_it_is_asked(rt: HostRuntime) {
    let options = EncodeOptions {
        validate: false,
        ..IMPORTED
    };
    assert_answers(&rt, UNCHECKED, options);
}
