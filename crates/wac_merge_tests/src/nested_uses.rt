//! Instances inside merged interfaces keep what they use.

use crate::merged::Check::{Imports, Uses};
use crate::merged::{Case, assert_merged};
use crate::rows::Row::{Enumeration, Instance};

const NESTED: &[Case] = &[
    Case {
        name: "an instance inside uses what its member uses",
        rows: &[
            Enumeration("a"),
            Enumeration("a"),
            Instance(Some("n:p/j"), &[], &[("t", 0), ("u", 1)]),
            Instance(None, &[("t", 2, None)], &[("t", 0)]),
            Instance(Some("n:p/i"), &[("u", 2, None)], &[("u", 1), ("x", 3)]),
        ],
        asked: &[("n:p/i", 4), ("n:p/j", 2)],
        checks: &[
            Uses(&["n:p/i"], &[("u", "n:p/j", None)]),
            Uses(&["n:p/i", "x"], &[("t", "n:p/j", None)]),
        ],
    },
    Case {
        name: "an instance inside another uses what its member uses",
        rows: &[
            Enumeration("a"),
            Instance(Some("n:p/j"), &[], &[("t", 0)]),
            Instance(None, &[("t", 1, None)], &[("t", 0)]),
            Instance(None, &[], &[("x", 2)]),
            Instance(Some("n:p/i"), &[], &[("y", 3)]),
        ],
        asked: &[("n:p/j", 1), ("n:p/i", 4)],
        checks: &[
            Uses(&["n:p/i"], &[]),
            Uses(&["n:p/i", "y"], &[]),
            Uses(&["n:p/i", "y", "x"], &[("t", "n:p/j", None)]),
        ],
    },
    Case {
        name: "an instance inside uses what each member uses",
        rows: &[
            Enumeration("a"),
            Enumeration("a"),
            Instance(Some("n:p/j"), &[], &[("t", 0)]),
            Instance(Some("n:p/k"), &[], &[("u", 1)]),
            Instance(None, &[("t", 2, None)], &[("t", 0)]),
            Instance(None, &[("u", 3, None)], &[("u", 1)]),
            Instance(Some("n:p/i@1.0.0"), &[], &[("x", 4)]),
            Instance(Some("n:p/i@1.1.0"), &[], &[("x", 5)]),
        ],
        asked: &[
            ("n:p/j", 2),
            ("n:p/k", 3),
            ("n:p/i@1.0.0", 6),
            ("n:p/i@1.1.0", 7),
        ],
        checks: &[Uses(
            &["n:p/i@1.1.0", "x"],
            &[("t", "n:p/j", None), ("u", "n:p/k", None)],
        )],
    },
    Case {
        name: "what an instance inside uses is imported first",
        rows: &[
            Enumeration("a"),
            Instance(Some("n:p/j"), &[], &[("t", 0)]),
            Instance(None, &[("t", 1, None)], &[("t", 0)]),
            Instance(None, &[], &[("x", 2)]),
            Instance(Some("n:p/i"), &[], &[("y", 3)]),
        ],
        asked: &[("n:p/i", 4), ("n:p/j", 1)],
        checks: &[
            Imports(&["n:p/j", "n:p/i"]),
            Uses(&["n:p/i", "y", "x"], &[("t", "n:p/j", None)]),
        ],
    },
    Case {
        name: "an instance inside does not use its own class",
        rows: &[
            Enumeration("a"),
            Instance(Some("n:p/i@1.0.0"), &[], &[("t", 0)]),
            Instance(None, &[("t", 1, None)], &[("t", 0)]),
            Instance(Some("n:p/i@1.1.0"), &[], &[("t", 0), ("x", 2)]),
        ],
        asked: &[("n:p/i@1.0.0", 1), ("n:p/i@1.1.0", 3)],
        checks: &[Uses(&["n:p/i@1.1.0", "x"], &[])],
    },
];

#[test]
fn instances_inside_keep_what_they_use(rt: HostRuntime) {
    assert_merged(&rt, NESTED);
}
