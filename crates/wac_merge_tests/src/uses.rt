//! Merged interfaces keep what they use.

use crate::merged::Check::Uses;
use crate::merged::{Case, assert_merged};
use crate::rows::Row::{Enumeration, Instance, Resource};

const USES: &[Case] = &[
    Case {
        name: "uses are of the imports of their classes",
        rows: &[
            Resource("r"),
            Enumeration("a"),
            Instance(Some("n:p/j@1.0.0"), &[], &[("r", 0), ("t", 1)]),
            Resource("r"),
            Instance(Some("n:p/j@1.2.0"), &[], &[("r", 3)]),
            Instance(
                Some("n:p/i"),
                &[("t", 2, None), ("s", 2, Some("r"))],
                &[("s", 0)],
            ),
        ],
        asked: &[("n:p/i", 5), ("n:p/j@1.0.0", 2), ("n:p/j@1.2.0", 4)],
        checks: &[
            Uses(&["n:p/j@1.2.0"], &[]),
            Uses(
                &["n:p/i"],
                &[("t", "n:p/j@1.2.0", None), ("s", "n:p/j@1.2.0", Some("r"))],
            ),
        ],
    },
    Case {
        name: "members use what one of them uses",
        rows: &[
            Enumeration("a"),
            Enumeration("a"),
            Instance(Some("n:p/j"), &[], &[("t", 0), ("u", 1)]),
            Instance(Some("n:p/i@1.0.0"), &[("t", 2, None)], &[("t", 0)]),
            Instance(
                Some("n:p/i@1.1.0"),
                &[("u", 2, None), ("t", 2, None)],
                &[("t", 0), ("u", 1)],
            ),
        ],
        asked: &[("n:p/j", 2), ("n:p/i@1.0.0", 3), ("n:p/i@1.1.0", 4)],
        checks: &[Uses(
            &["n:p/i@1.1.0"],
            &[("t", "n:p/j", None), ("u", "n:p/j", None)],
        )],
    },
    Case {
        name: "a class does not use itself",
        rows: &[
            Resource("r"),
            Instance(Some("n:p/i@1.0.0"), &[], &[("r", 0)]),
            Instance(Some("n:p/i@1.1.0"), &[("r", 1, None)], &[("r", 0)]),
        ],
        asked: &[("n:p/i@1.0.0", 1), ("n:p/i@1.1.0", 2)],
        checks: &[Uses(&["n:p/i@1.1.0"], &[])],
    },
    Case {
        name: "what is not asked for is not used",
        rows: &[
            Enumeration("a"),
            Instance(Some("n:p/j"), &[], &[("t", 0)]),
            Instance(Some("n:p/i"), &[("t", 1, None)], &[("t", 0)]),
        ],
        asked: &[("n:p/i", 2)],
        checks: &[Uses(&["n:p/i"], &[])],
    },
];

#[test]
fn merged_interfaces_keep_what_they_use(rt: HostRuntime) {
    assert_merged(&rt, USES);
}
