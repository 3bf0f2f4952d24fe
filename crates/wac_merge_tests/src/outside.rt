//! A resource from around is the same one at each depth of what is nested in a merged interface.

use crate::merged::Check::{Differ, Same};
use crate::merged::{Case, assert_merged};
use crate::rows::Row::{Instance, Own, Resource, Taking};

// Two versions of an import that binds a resource. Each lists instances inside each other, four deep, with functions over that
// resource and over the resource of another import; none of the instances binds one.
const OUTSIDE: &[Case] = &[Case {
    name: "a resource from around is one at each depth",
    rows: &[
        Resource("r"),
        Instance(Some("n:p/outside"), &[], &[("r", 0)]),
        Own(0),
        Resource("s"),
        Own(3),
        Taking(2),
        Taking(4),
        Instance(None, &[], &[("first", 5), ("second", 6), ("x", 5)]),
        Instance(None, &[], &[("first", 5), ("second", 6), ("x", 7)]),
        Instance(None, &[], &[("first", 5), ("second", 6), ("x", 8)]),
        Instance(None, &[], &[("first", 5), ("second", 6), ("x", 9)]),
        Instance(Some("n:p/i@1.0.0"), &[], &[("s", 3), ("x", 10)]),
        Resource("s"),
        Own(12),
        Taking(2),
        Taking(13),
        Instance(None, &[], &[("first", 14), ("second", 15), ("x", 14)]),
        Instance(None, &[], &[("first", 14), ("second", 15), ("x", 16)]),
        Instance(None, &[], &[("first", 14), ("second", 15), ("x", 17)]),
        Instance(None, &[], &[("first", 14), ("second", 15), ("x", 18)]),
        Instance(Some("n:p/i@1.1.0"), &[], &[("s", 12), ("x", 19)]),
    ],
    asked: &[("n:p/outside", 1), ("n:p/i@1.0.0", 11), ("n:p/i@1.1.0", 20)],
    checks: &[
        Differ(&["n:p/outside", "r"], &["n:p/i@1.1.0", "s"]),
        Same(&["n:p/i@1.1.0", "x", "first"], &["n:p/outside", "r"]),
        Same(&["n:p/i@1.1.0", "x", "second"], &["n:p/i@1.1.0", "s"]),
        Same(&["n:p/i@1.1.0", "x", "x", "first"], &["n:p/outside", "r"]),
        Same(&["n:p/i@1.1.0", "x", "x", "second"], &["n:p/i@1.1.0", "s"]),
        Same(
            &["n:p/i@1.1.0", "x", "x", "x", "first"],
            &["n:p/outside", "r"],
        ),
        Same(
            &["n:p/i@1.1.0", "x", "x", "x", "second"],
            &["n:p/i@1.1.0", "s"],
        ),
        Same(
            &["n:p/i@1.1.0", "x", "x", "x", "x", "first"],
            &["n:p/outside", "r"],
        ),
        Same(
            &["n:p/i@1.1.0", "x", "x", "x", "x", "second"],
            &["n:p/i@1.1.0", "s"],
        ),
    ],
}];

#[test]
fn a_resource_from_around_is_one_at_each_depth(rt: HostRuntime) {
    assert_merged(&rt, OUTSIDE);
}
