//! One named type has one id in the merged collection.

use crate::merged::Check::{Differ, Same};
use crate::merged::{Case, assert_merged};
use crate::rows::Row::{Alias, Enumeration, Instance, Own, Record, Resource, Taking};

const ONE_TYPE: &[Case] = &[
    Case {
        name: "versions on one track have one type",
        rows: &[
            Enumeration("a"),
            Alias(0),
            Taking(0),
            Instance(Some("a:b/c@0.2.0"), &[], &[("t", 1), ("f", 2)]),
            Enumeration("a"),
            Alias(4),
            Taking(4),
            Instance(Some("a:b/c@0.2.3"), &[], &[("t", 5), ("g", 6)]),
        ],
        asked: &[("a:b/c@0.2.0", 3), ("a:b/c@0.2.3", 7)],
        checks: &[
            Same(&["a:b/c@0.2.3", "f"], &["a:b/c@0.2.3", "t"]),
            Same(&["a:b/c@0.2.3", "g"], &["a:b/c@0.2.3", "t"]),
        ],
    },
    Case {
        name: "parts without a name keep no types apart",
        rows: &[
            Enumeration("a"),
            Record(0),
            Alias(0),
            Alias(1),
            Taking(1),
            Instance(Some("a:b/c@0.2.0"), &[], &[("t", 2), ("s", 3), ("f", 4)]),
            Enumeration("a"),
            Record(6),
            Alias(6),
            Alias(7),
            Taking(7),
            Instance(Some("a:b/c@0.2.3"), &[], &[("t", 8), ("s", 9), ("g", 10)]),
        ],
        asked: &[("a:b/c@0.2.0", 5), ("a:b/c@0.2.3", 11)],
        checks: &[
            Same(&["a:b/c@0.2.3", "f"], &["a:b/c@0.2.3", "s"]),
            Same(&["a:b/c@0.2.3", "g"], &["a:b/c@0.2.3", "s"]),
        ],
    },
    Case {
        name: "a used type is the one that it is used from",
        rows: &[
            Enumeration("a"),
            Alias(0),
            Taking(0),
            Instance(Some("n:p/j"), &[], &[("t", 1)]),
            Instance(Some("n:p/i"), &[("t", 3, None)], &[("t", 1), ("f", 2)]),
            Instance(Some("n:p/k"), &[("t", 3, None)], &[("f", 2)]),
        ],
        asked: &[("n:p/k", 5), ("n:p/i", 4), ("n:p/j", 3)],
        checks: &[
            Same(&["n:p/i", "t"], &["n:p/j", "t"]),
            Same(&["n:p/i", "f"], &["n:p/j", "t"]),
            Same(&["n:p/k", "f"], &["n:p/j", "t"]),
        ],
    },
    Case {
        name: "a type item is the type that is mentioned",
        rows: &[Enumeration("a"), Alias(0), Taking(0)],
        asked: &[("t", 1), ("f", 2)],
        checks: &[Same(&["f"], &["t"])],
    },
    Case {
        name: "types of two names are two",
        rows: &[
            Enumeration("a"),
            Alias(0),
            Enumeration("a"),
            Alias(2),
            Instance(Some("n:p/i"), &[], &[("t", 1), ("u", 3)]),
        ],
        asked: &[("n:p/i", 4)],
        checks: &[Differ(&["n:p/i", "u"], &["n:p/i", "t"])],
    },
    Case {
        name: "types of two interfaces are two",
        rows: &[
            Enumeration("a"),
            Alias(0),
            Enumeration("a"),
            Alias(2),
            Instance(Some("n:p/i"), &[], &[("t", 1)]),
            Instance(Some("n:p/j"), &[], &[("t", 3)]),
        ],
        asked: &[("n:p/i", 4), ("n:p/j", 5)],
        checks: &[Differ(&["n:p/j", "t"], &["n:p/i", "t"])],
    },
    // In each of two classes a resource of its own, a handle to it in a record that has one name.
    Case {
        name: "a type of another resource is another",
        rows: &[
            Resource("r"),
            Own(0),
            Record(1),
            Alias(2),
            Taking(2),
            Instance(Some("n:p/i"), &[], &[("r", 0), ("t", 3), ("f", 4)]),
            Instance(Some("n:p/j"), &[], &[("r", 0), ("t", 3), ("f", 4)]),
        ],
        asked: &[("n:p/i", 5), ("n:p/j", 6)],
        checks: &[
            Differ(&["n:p/i", "t"], &["n:p/j", "t"]),
            Same(&["n:p/i", "f"], &["n:p/i", "t"]),
            Same(&["n:p/j", "f"], &["n:p/j", "t"]),
        ],
    },
];

#[test]
fn one_named_type_has_one_id(rt: HostRuntime) {
    assert_merged(&rt, ONE_TYPE);
}
