// Types that cannot be written, whatever stands around them.
use crate::tables::Row::{Component, Enumeration, Func, Instance, Module, TypeOf, Using, Value};
use crate::tables::Step::{Define, Import, Instantiate, Register, Set};
use crate::tables::Want::{Fault, Parts, Text};
use crate::tables::{Case, Row, Step, Want, assert_answers};
use wac_graph::{EncodeOptions, WriteFault};

// A function, a value, an instance that lists the type of a core module, and an instance of the empty interface.
const LOWEST: &[Row] = &[
    Func(&[], None),
    Value,
    Module,
    TypeOf(2),
    Instance(None, &[("x", 3)]),
];

// A value is imported behind a function, and the package asks for what lists the module's type.
const VALUE_FIRST: &[Step] = &[
    Import("f", 0),
    Import("v", 1),
    Register(&[("i", 4)]),
    Instantiate,
];

// An enumeration, an interface that lists it, one that uses it of that interface, worlds that import the second, without and with the
// first, that import the second and export the first, and that export both, and the type of each.
const WORLDS: &[Row] = &[
    Enumeration("a"),
    Instance(Some("n:p/j"), &[("t", 0)]),
    Using(Some("n:p/i"), &[("t", 1, "t")], &[("t", 0)]),
    Component(Some("n:p/w"), &[("n:p/i", 2)], &[]),
    Component(None, &[("n:p/i", 2), ("n:p/j", 1)], &[]),
    Component(None, &[("n:p/i", 2)], &[("n:p/j", 1)]),
    Component(None, &[], &[("n:p/i", 2), ("n:p/j", 1)]),
    Component(None, &[("n:p/i", 2), ("j", 1)], &[]),
    TypeOf(3),
    Instance(None, &[("c", 8)]),
];

const UNLISTED: Want = Fault(0, WriteFault::UnlistedDependency);

// Worlds that list what they use, and others.
const DEPENDENCIES: &[Case] = &[
    // An interface that an imported instance uses is not imported.
    Case {
        rows: WORLDS,
        steps: &[Import("c", 3)],
        want: UNLISTED,
    },
    // It is, under its id: it comes first, since the other depends on it.
    Case {
        rows: WORLDS,
        steps: &[Import("c", 4)],
        want: Parts(&[
            "073b014105", // a component type of five declarations
            "014202016d01016104000174030000", // an instance type that lists the enumeration
            "0300056e3a702f6a0500", // `n:p/j` is imported
            "020300000174", // its enumeration
            "014202020302010104000174030000", // an instance type that lists that
            "0300056e3a702f690502", // `n:p/i` is imported
            "0a06010001630400", // the component `c`
        ]),
    },
    // It is exported alone.
    Case {
        rows: WORLDS,
        steps: &[Import("c", 5)],
        want: UNLISTED,
    },
    // It is exported, and so is what uses it.
    Case {
        rows: WORLDS,
        steps: &[Import("c", 6)],
        want: Parts(&[
            "073b014105", // a component type of five declarations
            "014202016d01016104000174030000", // an instance type that lists the enumeration
            "0400056e3a702f6a0500", // `n:p/j` is exported
            "020300000174", // its enumeration
            "014202020302010104000174030000", // an instance type that lists that
            "0400056e3a702f690502", // `n:p/i` is exported
            "0a06010001630400", // the component `c`
        ]),
    },
    // It is imported under another name.
    Case {
        rows: WORLDS,
        steps: &[Import("c", 7)],
        want: UNLISTED,
    },
    // A type item, at once and in an instance.
    Case {
        rows: WORLDS,
        steps: &[Import("c", 8)],
        want: UNLISTED,
    },
    Case {
        rows: WORLDS,
        steps: &[Import("i", 9)],
        want: UNLISTED,
    },
    // A world that is defined imports what it does not list.
    Case {
        rows: WORLDS,
        steps: &[Define("c", 3)],
        want: Parts(&[
            "0748014102", // a component type of two declarations
            "014105", // the world's component type, of five
            "014202016d01016104000174030000", // an instance type that lists the enumeration
            "0300056e3a702f6a0500", // `n:p/j` is imported
            "020300000174", // its enumeration
            "014202020302010104000174030000", // an instance type that lists that
            "0300056e3a702f690502", // `n:p/i` is imported
            "0400056e3a702f770400", // the world is exported
            "0b0701000163030000", // the definition `c`
        ]),
    },
];

// Types, written or refused.
const WRITABLE: &[Case] = &[
    // A module type is no item.
    Case {
        rows: &[Module, TypeOf(0), Instance(None, &[("x", 1)])],
        steps: &[Import("i", 2)],
        want: Fault(0, WriteFault::ModuleAsType),
    },
    // Nor is it a definition.
    Case {
        rows: &[Module],
        steps: &[Define("t", 0)],
        want: Fault(0, WriteFault::ModuleAsType),
    },
    // A definition needs an id.
    Case {
        rows: &[Func(&[], None), Instance(None, &[("x", 0)])],
        steps: &[Define("t", 1)],
        want: Fault(0, WriteFault::UnnamedDefinition),
    },
    // With one it is written: the component type of an instance, which it exports under the id.
    Case {
        rows: &[Func(&[], None), Instance(Some("n:p/i"), &[("x", 0)])],
        steps: &[Define("t", 1)],
        want: Parts(&[
            "071b014102", // a component type of two declarations
            "014202", // an instance type of two declarations
            "0140000100", // a function type
            "040001780100", // a function
            "0400056e3a702f690500", // an instance under the id
            "0b0701000174030000", // `t`
        ]),
    },
    // A value is not listed, two instances deep.
    Case {
        rows: &[
            Value,
            Instance(None, &[("x", 0)]),
            TypeOf(1),
            Instance(None, &[("x", 2)]),
        ],
        steps: &[Import("i", 3)],
        want: Fault(0, WriteFault::NestedItem),
    },
    // The node of the lowest number counts, also where another is asked for first.
    Case {
        rows: LOWEST,
        steps: VALUE_FIRST,
        want: Fault(1, WriteFault::ValueItem),
    },
    Case {
        rows: LOWEST,
        steps: VALUE_FIRST,
        want: Text("the type of node 1 cannot be written"),
    },
    // A cycle comes before types.
    Case {
        rows: &[Value, Instance(None, &[])],
        steps: &[
            Import("v", 0),
            Register(&[("i", 1)]),
            Instantiate,
            Set(1, "i", 1),
        ],
        want: Text("the graph contains a cycle and cannot be encoded"),
    },
];

#[test]
fn worlds_list_what_they_use(rt: HostRuntime) {
    assert_answers(&rt, DEPENDENCIES, EncodeOptions::default());
}

#[test]
fn types_are_written_or_refused(rt: HostRuntime) {
    assert_answers(&rt, WRITABLE, EncodeOptions::default());
}
