// Types that more than one import is of, and that are written once.
use crate::tables::Row::{Func, Instance};
use crate::tables::Step::Import;
use crate::tables::Want::Parts;
use crate::tables::{Case, assert_answers};
use wac_graph::EncodeOptions;

// The type of an instance that exports a function `f`.
const INSTANCE: &str = "070e0142020140000100040001660100";

// Imports that share a type, and others.
const ONCE: &[Case] = &[
    // Import nodes of one function type share it.
    Case {
        rows: &[Func(&[], None)],
        steps: &[Import("x", 0), Import("y", 0)],
        want: Parts(&["07050140000100", "0a0b02", "0001780100", "0001790100"]),
    },
    // Function types with two ids stay two, as they are in the graph.
    Case {
        rows: &[Func(&[], None), Func(&[], None)],
        steps: &[Import("x", 0), Import("y", 1)],
        want: Parts(&[
            "07050140000100",
            "0a06010001780100",
            "07050140000100",
            "0a06010001790101",
        ]),
    },
    // Import nodes of one interface share its type.
    Case {
        rows: &[Func(&[], None), Instance(None, &[("f", 0)])],
        steps: &[Import("x", 1), Import("y", 1)],
        want: Parts(&[INSTANCE, "0a0b02", "0001780500", "0001790500"]),
    },
    // Interfaces with two ids stay two, as they are in the graph.
    Case {
        rows: &[
            Func(&[], None),
            Instance(None, &[("f", 0)]),
            Func(&[], None),
            Instance(None, &[("f", 2)]),
        ],
        steps: &[Import("x", 1), Import("y", 3)],
        want: Parts(&[INSTANCE, "0a06010001780500", INSTANCE, "0a06010001790501"]),
    },
];

#[test]
fn types_are_written_once(rt: HostRuntime) {
    assert_answers(&rt, ONCE, EncodeOptions::default());
}
