// Which graphs ask for a type that has a fault, and which fault is reported.
use crate::tables::Row::{
    Component, Enumeration, Func, Instance, Module, Own, Resource, TypeOf, Using,
};
use crate::tables::Step::{Define, Import, Instantiate, Register};
use crate::tables::Want::{Fault, Text, Written};
use crate::tables::{Made, Row, Step, Want, assert_encoded_with};
use std::process::Abort;
use wac_graph::{EncodeOptions, WriteFault};

/// Items, calls on a graph of their types, whether packages are defined, and what `encode` answers.
struct Asked {
    rows: &'static [Row],
    steps: &'static [Step],
    define_components: bool,
    want: Want,
}

const UNBOUND: Want = Fault(0, WriteFault::UnboundResource);

const UNLISTED: Want = Fault(0, WriteFault::UnlistedDependency);

// `n:p/i` with the resource `r`, a function over own `r`, worlds that import it under labels with the function, and also
// under its id, an interface that lists `n:p/i` and the function, and one of the function alone.
const LABELS: &[Row] = &[
    Resource,
    Instance(Some("n:p/i"), &[("r", 0)]),
    Own(0),
    Func(&[("x", 2)], None),
    Component(None, &[("primary", 1), ("secondary", 1), ("f", 3)], &[]),
    Component(
        None,
        &[("primary", 1), ("secondary", 1), ("n:p/i", 1), ("f", 3)],
        &[],
    ),
    Instance(None, &[("n:p/i", 1), ("f", 3)]),
    Instance(None, &[("f", 3)]),
];

// What binds a resource at the root.
const ROOT: &[Asked] = &[
    // Nothing binds it.
    Asked {
        rows: LABELS,
        steps: &[Import("f", 3)],
        define_components: true,
        want: UNBOUND,
    },
    // A label binds nothing.
    Asked {
        rows: LABELS,
        steps: &[
            Register(&[("primary", 1), ("secondary", 1), ("f", 3)]),
            Instantiate,
        ],
        define_components: true,
        want: UNBOUND,
    },
    // The interface's id does.
    Asked {
        rows: LABELS,
        steps: &[
            Register(&[("primary", 1), ("secondary", 1), ("n:p/i", 1), ("f", 3)]),
            Instantiate,
        ],
        define_components: true,
        want: Written,
    },
    // So does one that is imported later, and a definition sees it.
    Asked {
        rows: LABELS,
        steps: &[Define("d", 3), Import("n:p/i", 1)],
        define_components: true,
        want: Written,
    },
    // A definition without an id is looked into, too.
    Asked {
        rows: LABELS,
        steps: &[Define("d", 7)],
        define_components: true,
        want: UNBOUND,
    },
];

// What binds a resource inside other types.
const INSIDE: &[Asked] = &[
    // Labels of a component type bind nothing.
    Asked {
        rows: LABELS,
        steps: &[Import("c", 4)],
        define_components: true,
        want: UNBOUND,
    },
    // What the root imports is not seen there.
    Asked {
        rows: LABELS,
        steps: &[Import("c", 4), Import("n:p/i", 1)],
        define_components: true,
        want: UNBOUND,
    },
    // An id does.
    Asked {
        rows: LABELS,
        steps: &[Import("c", 5)],
        define_components: true,
        want: Written,
    },
    // An instance beside binds nothing in an instance type.
    Asked {
        rows: LABELS,
        steps: &[Import("i", 6)],
        define_components: true,
        want: UNBOUND,
    },
    // The root does.
    Asked {
        rows: LABELS,
        steps: &[Import("i", 6), Import("n:p/i", 1)],
        define_components: true,
        want: Written,
    },
];

// Two interfaces, each with a resource and a function over the other's, and worlds that import and export both.
const CROSSED: &[Row] = &[
    Resource,
    Resource,
    Own(0),
    Own(1),
    Func(&[("x", 3)], None),
    Func(&[("x", 2)], None),
    Instance(Some("n:p/a"), &[("r", 0), ("f", 4)]),
    Instance(Some("n:p/b"), &[("r", 1), ("f", 5)]),
    Component(None, &[("n:p/a", 6), ("n:p/b", 7)], &[]),
    Component(None, &[], &[("n:p/a", 6), ("n:p/b", 7)]),
];

// Three interfaces that use a type of the next, the last of them of another version of the first.
const THREE: &[Row] = &[
    Enumeration("a"),
    Instance(Some("a:b/y@1.0.0"), &[("t", 0)]),
    Using(Some("a:b/x@1.0.0"), &[("t", 1, "t")], &[]),
    Instance(Some("a:b/z@1.0.0"), &[("v", 0)]),
    Using(Some("a:b/y@1.1.0"), &[("v", 3, "v")], &[]),
    Instance(Some("a:b/x@1.1.0"), &[("u", 0)]),
    Using(Some("a:b/z@1.1.0"), &[("u", 5, "u")], &[]),
];

const CYCLE: Want = Fault(0, WriteFault::TypesUseEachOther);

// Imports that depend on each other in a cycle.
const CYCLES: &[Asked] = &[
    Asked {
        rows: CROSSED,
        steps: &[Import("c", 8)],
        define_components: true,
        want: CYCLE,
    },
    Asked {
        rows: CROSSED,
        steps: &[Import("c", 9)],
        define_components: true,
        want: CYCLE,
    },
    Asked {
        rows: CROSSED,
        steps: &[Import("n:p/a", 6), Import("n:p/b", 7)],
        define_components: true,
        want: Text("import `n:p/a` rests on itself through other imports"),
    },
    Asked {
        rows: THREE,
        steps: &[
            Import("a:b/x@1.0.0", 2),
            Import("a:b/y@1.1.0", 4),
            Import("a:b/z@1.1.0", 6),
        ],
        define_components: true,
        want: Text("import `a:b/y@1.1.0` rests on itself through other imports"),
    },
];

// `n:p/j` with an enumeration, `n:p/i` that uses it, a world that imports the second and exports the first, and another
// interface of the id `n:p/j` that uses it, with a world that exports that.
const LISTED: &[Row] = &[
    Enumeration("a"),
    Instance(Some("n:p/j"), &[("t", 0)]),
    Using(Some("n:p/i"), &[("t", 1, "t")], &[("t", 0)]),
    Component(Some("n:p/w"), &[("n:p/i", 2)], &[("n:p/j", 1)]),
    Using(Some("n:p/j"), &[("t", 1, "t")], &[]),
    Component(None, &[], &[("n:p/j", 4)]),
];

// Packages that are imported, and what a component type lists.
const DEPENDENCIES: &[Asked] = &[
    // The world of a package that is imported lists what it uses.
    Asked {
        rows: LISTED,
        steps: &[Register(&[("n:p/i", 2)]), Instantiate],
        define_components: false,
        want: UNLISTED,
    },
    Asked {
        rows: LISTED,
        steps: &[Register(&[("n:p/i", 2), ("n:p/j", 1)]), Instantiate],
        define_components: false,
        want: Written,
    },
    // What a world exports does not serve its imports.
    Asked {
        rows: LISTED,
        steps: &[Import("c", 3)],
        define_components: true,
        want: UNLISTED,
    },
    // A definition imports it in addition.
    Asked {
        rows: LISTED,
        steps: &[Define("d", 3)],
        define_components: true,
        want: Written,
    },
    // The very interface counts, and not its id.
    Asked {
        rows: LISTED,
        steps: &[Import("c", 5)],
        define_components: true,
        want: UNLISTED,
    },
];

// `n:p/k` with the resource `r`, and `n:p/i` with an instance that uses it and has a function over it.
const NESTED: &[Row] = &[
    Resource,
    Instance(Some("n:p/k"), &[("r", 0)]),
    Own(0),
    Func(&[("x", 2)], None),
    Using(None, &[("r", 1, "r")], &[("f", 3)]),
    Instance(Some("n:p/i"), &[("j", 4)]),
];

// The same with an enumeration.
const NESTED_VALUE: &[Row] = &[
    Enumeration("a"),
    Instance(Some("n:p/k"), &[("r", 0)]),
    Func(&[("x", 0)], None),
    Using(None, &[("r", 1, "r")], &[("f", 2)]),
    Instance(Some("n:p/i"), &[("j", 3)]),
];

// `n:p/j` with an enumeration and the type of a core module, and `n:p/i` that uses the enumeration.
const CUT: &[Row] = &[
    Enumeration("a"),
    Module,
    TypeOf(1),
    Instance(Some("n:p/j"), &[("t", 0), ("m", 2)]),
    Using(Some("n:p/i"), &[("t", 3, "t")], &[]),
];

// Uses of nested instances, and of additional imports.
const USES: &[Asked] = &[
    // What a nested instance uses is imported, too.
    Asked {
        rows: NESTED,
        steps: &[Import("n:p/i", 5)],
        define_components: true,
        want: Written,
    },
    // A component type imports it itself.
    Asked {
        rows: NESTED,
        steps: &[Register(&[("n:p/i", 5)]), Instantiate],
        define_components: false,
        want: UNBOUND,
    },
    Asked {
        rows: NESTED_VALUE,
        steps: &[Register(&[("n:p/i", 4)]), Instantiate],
        define_components: false,
        want: UNLISTED,
    },
    // The type items of an additional import count.
    Asked {
        rows: CUT,
        steps: &[Define("d", 4)],
        define_components: true,
        want: Fault(0, WriteFault::ModuleAsType),
    },
];

// Each graph is answered so.
fn assert_answers(rt: &(impl Abort + AllocGlobal), cases: &[Asked]) {
    for case in cases {
        let made = Made::new(rt, case.rows, case.steps);
        let options = EncodeOptions {
            define_components: case.define_components,
            validate: true,
            processor: None,
        };
        assert_encoded_with(rt, &made.graph, options, case.want);
    }
}

#[test]
fn faults_are_reported(rt: HostRuntime) {
    for cases in [ROOT, INSIDE, CYCLES, DEPENDENCIES, USES] {
        assert_answers(&rt, cases);
    }
}
