//! What is nested in merged interfaces is listed in order of first appearance.

use crate::merged::Check::Lists;
use crate::merged::{Case, assert_merged};
use crate::rows::Row;
use crate::rows::Row::{Byte, Instance, TypeOf};

// Two instances, each of which lists an instance as `x`.
const INSTANCES: &[Row] = &[
    Byte,
    Instance(None, &[], &[("b", 0), ("a", 0)]),
    Instance(None, &[], &[("x", 1)]),
    Instance(None, &[], &[("a", 0), ("c", 0)]),
    Instance(None, &[], &[("x", 3)]),
];

// Two instances, each of which lists the type of an instance as `x`.
const TYPES: &[Row] = &[
    Byte,
    Instance(None, &[], &[("b", 0), ("a", 0)]),
    TypeOf(1),
    Instance(None, &[], &[("x", 2)]),
    Instance(None, &[], &[("a", 0), ("b", 0)]),
    TypeOf(4),
    Instance(None, &[], &[("x", 5)]),
];

const LISTED: &[Case] = &[
    Case {
        name: "instances inside list in order of first appearance",
        rows: INSTANCES,
        asked: &[("i", 2), ("i", 4)],
        checks: &[Lists(&["i", "x"], &["b", "a", "c"])],
    },
    Case {
        name: "instances inside list in order of first appearance, the other first",
        rows: INSTANCES,
        asked: &[("i", 4), ("i", 2)],
        checks: &[Lists(&["i", "x"], &["a", "c", "b"])],
    },
    Case {
        name: "type items inside list as the first does",
        rows: TYPES,
        asked: &[("i", 3), ("i", 6)],
        checks: &[Lists(&["i", "x"], &["b", "a"])],
    },
    Case {
        name: "type items inside list as the first does, the other first",
        rows: TYPES,
        asked: &[("i", 6), ("i", 3)],
        checks: &[Lists(&["i", "x"], &["a", "b"])],
    },
];

#[test]
fn what_is_nested_is_listed_in_order(rt: HostRuntime) {
    assert_merged(&rt, LISTED);
}
