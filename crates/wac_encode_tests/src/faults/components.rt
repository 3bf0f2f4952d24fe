//! The lowest fault of components that the root imports, and of what they are made of.

use crate::faults::cases::{Case, assert_faults};
use crate::rows::Row::{Component, Enumeration, Instance, Resource, Taker, User, WorldUser};
use wac_encode_faults::{Role, WriteFault};

const CASES: &[Case] = &[
    Case {
        name: "an instance under two labels alone binds nothing",
        rows: &[
            Resource,
            Instance(Some("n:p/i"), &[("r", 0)]),
            Taker(0),
            Component(None, &[("primary", 1), ("secondary", 1), ("f", 2)], &[]),
        ],
        place: 3,
        role: Role::Imported,
        bound: &[],
        want: Some(WriteFault::UnboundResource),
    },
    Case {
        name: "an instance under its id binds its resource",
        rows: &[
            Resource,
            Instance(Some("n:p/i"), &[("r", 0)]),
            Taker(0),
            Component(None, &[("primary", 1), ("n:p/i", 1), ("f", 2)], &[]),
        ],
        place: 3,
        role: Role::Imported,
        bound: &[],
        want: None,
    },
    Case {
        name: "a component type sees nothing outside",
        rows: &[
            Resource,
            Instance(Some("n:p/j"), &[("r", 0)]),
            WorldUser(None, &[("r", 1, "r")], &[("r", 0)], &[]),
        ],
        place: 2,
        role: Role::Imported,
        bound: &[0],
        want: Some(WriteFault::UnboundResource),
    },
    Case {
        name: "what an instance inside uses is bound by the root",
        rows: &[
            Resource,
            Instance(Some("n:p/k"), &[("r", 0)]),
            User(None, &[("r", 1, "r")], &[]),
            Taker(0),
            Instance(Some("n:p/i"), &[("j", 2), ("f", 3)]),
        ],
        place: 4,
        role: Role::Imported,
        bound: &[0],
        want: None,
    },
    Case {
        name: "what an instance inside uses is not bound by a component type",
        rows: &[
            Resource,
            Instance(Some("n:p/k"), &[("r", 0)]),
            User(None, &[("r", 1, "r")], &[]),
            Taker(0),
            Instance(Some("n:p/i"), &[("j", 2), ("f", 3)]),
            Component(None, &[("n:p/i", 4)], &[]),
        ],
        place: 5,
        role: Role::Imported,
        bound: &[0],
        want: Some(WriteFault::UnboundResource),
    },
    Case {
        name: "what an instance inside uses is not imported",
        rows: &[
            Enumeration("a"),
            Instance(Some("n:p/k"), &[("t", 0)]),
            User(None, &[("t", 1, "t")], &[]),
            Instance(Some("n:p/i"), &[("j", 2)]),
            Component(None, &[("n:p/i", 3)], &[]),
        ],
        place: 4,
        role: Role::Imported,
        bound: &[],
        want: Some(WriteFault::UnlistedDependency),
    },
    Case {
        name: "what an import uses is not imported",
        rows: &[
            Enumeration("a"),
            Instance(Some("n:p/j"), &[("t", 0)]),
            User(Some("n:p/i"), &[("t", 1, "t")], &[]),
            Component(None, &[("n:p/i", 2)], &[]),
        ],
        place: 3,
        role: Role::Imported,
        bound: &[],
        want: Some(WriteFault::UnlistedDependency),
    },
    Case {
        name: "what an import uses is imported",
        rows: &[
            Enumeration("a"),
            Instance(Some("n:p/j"), &[("t", 0)]),
            User(Some("n:p/i"), &[("t", 1, "t")], &[]),
            Component(None, &[("n:p/j", 1), ("n:p/i", 2)], &[]),
        ],
        place: 3,
        role: Role::Imported,
        bound: &[],
        want: None,
    },
    Case {
        name: "what an import uses is only exported",
        rows: &[
            Enumeration("a"),
            Instance(Some("n:p/j"), &[("t", 0)]),
            User(Some("n:p/i"), &[("t", 1, "t")], &[]),
            Component(None, &[("n:p/i", 2)], &[("n:p/j", 1)]),
        ],
        place: 3,
        role: Role::Imported,
        bound: &[],
        want: Some(WriteFault::UnlistedDependency),
    },
    Case {
        name: "what the world uses is imported under a label",
        rows: &[
            Enumeration("a"),
            Instance(Some("n:p/j"), &[("t", 0)]),
            WorldUser(None, &[("t", 1, "t")], &[("x", 1)], &[]),
        ],
        place: 2,
        role: Role::Imported,
        bound: &[],
        want: Some(WriteFault::UnlistedDependency),
    },
    Case {
        name: "what an export uses is another interface of its id",
        rows: &[
            Enumeration("a"),
            Instance(Some("n:p/j"), &[("t", 0)]),
            User(Some("n:p/j"), &[("t", 1, "t")], &[]),
            Component(None, &[], &[("n:p/j", 2)]),
        ],
        place: 3,
        role: Role::Imported,
        bound: &[],
        want: Some(WriteFault::UnlistedDependency),
    },
    Case {
        name: "imports over the resources of each other",
        rows: &[
            Resource,
            Resource,
            Taker(0),
            Taker(1),
            Instance(Some("n:p/a"), &[("r", 0), ("f", 3)]),
            Instance(Some("n:p/b"), &[("r", 1), ("f", 2)]),
            Component(None, &[("n:p/a", 4), ("n:p/b", 5)], &[]),
        ],
        place: 6,
        role: Role::Imported,
        bound: &[],
        want: Some(WriteFault::TypesUseEachOther),
    },
    Case {
        name: "exports over the resources of each other",
        rows: &[
            Resource,
            Resource,
            Taker(0),
            Taker(1),
            Instance(Some("n:p/a"), &[("r", 0), ("f", 3)]),
            Instance(Some("n:p/b"), &[("r", 1), ("f", 2)]),
            Component(None, &[], &[("n:p/a", 4), ("n:p/b", 5)]),
        ],
        place: 6,
        role: Role::Imported,
        bound: &[],
        want: Some(WriteFault::TypesUseEachOther),
    },
    Case {
        name: "instances of the root over the resources of each other",
        rows: &[
            Resource,
            Resource,
            Taker(0),
            Taker(1),
            Instance(Some("n:p/a"), &[("r", 0), ("f", 3)]),
            Instance(Some("n:p/b"), &[("r", 1), ("f", 2)]),
        ],
        place: 4,
        role: Role::Imported,
        bound: &[0, 1],
        want: None,
    },
];

#[test]
fn components_have_their_lowest_fault(rt: HostRuntime) {
    assert_faults(&rt, CASES);
}
