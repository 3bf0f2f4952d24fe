// Value types that an imported instance lists, where other imports are made of them.
use crate::tables::Row::{Enumeration, Func, Instance, Using};
use crate::tables::Step::Import;
use crate::tables::Want::Parts;
use crate::tables::{Case, assert_answers};
use wac_graph::EncodeOptions;

const TAKEN: &[&str] = &[
    "070f014202", // an instance type of two declarations
    "016d010161", // an enum
    "04000174030000", // a type item that equals it
    "0a0a0100056e3a702f690500", // an instance of it
    "0606010300000174", // an alias of its type item
    "07080140010178010100", // a function type over the alias
    "0a06010001660102", // a function of it
];

const BROUGHT_IN: &[&str] = &[
    "070f014202", // an instance type of two declarations
    "016d010161", // an enum
    "04000174030000", // a type item that equals it
    "0a0a0100056e3a702f6a0500", // an instance of it
    "0606010300000174", // an alias of its type item
    "071d014204", // an instance type of four declarations
    "0203020101", // an alias of the alias
    "04000174030000", // a type item that equals it
    "0140010178010100", // a function type over the item's own index
    "040001660102", // a function
    "0a0a0100056e3a702f690502", // an instance of it
];

const BROUGHT_TWICE: &[&str] = &[
    "070f014202", // an instance type of two declarations
    "016d010161", // an enum
    "04000174030000", // a type item that equals it
    "0a0a0100056e3a702f6b0500", // an instance of it
    "0606010300000174", // an alias of its type item
    "071f014202", // an instance type of two declarations
    "014203", // an instance type of three declarations inside
    "0203020201", // an alias of the alias, two scopes out
    "0140010178000100", // a function type over it
    "040001660101", // a function
    "0400016a0500", // an instance of it
    "0a0a0100056e3a702f690502", // an instance of the outer one
];

// Imports that are made of what another lists.
const ALIASED: &[Case] = &[
    // A function takes an enum that an interface lists; both are imported, the function by the lower node.
    Case {
        rows: &[
            Enumeration("a"),
            Func(&[("x", 0)], None),
            Instance(Some("n:p/i"), &[("t", 0)]),
        ],
        steps: &[Import("f", 1), Import("n:p/i", 2)],
        want: Parts(TAKEN),
    },
    // An interface uses the enum of another and lists it again, beside a function that takes it.
    Case {
        rows: &[
            Enumeration("a"),
            Func(&[("x", 0)], None),
            Instance(Some("n:p/j"), &[("t", 0)]),
            Using(Some("n:p/i"), &[("t", 2, "t")], &[("t", 0), ("f", 1)]),
        ],
        steps: &[Import("n:p/j", 2), Import("n:p/i", 3)],
        want: Parts(BROUGHT_IN),
    },
    // An interface lists an instance that uses the enum of another interface, which is imported first.
    Case {
        rows: &[
            Enumeration("a"),
            Func(&[("x", 0)], None),
            Instance(Some("n:p/k"), &[("t", 0)]),
            Using(None, &[("t", 2, "t")], &[("f", 1)]),
            Instance(Some("n:p/i"), &[("j", 3)]),
        ],
        steps: &[Import("n:p/i", 4)],
        want: Parts(BROUGHT_TWICE),
    },
];

#[test]
fn imports_go_by_what_others_list(rt: HostRuntime) {
    assert_answers(&rt, ALIASED, EncodeOptions::default());
}
