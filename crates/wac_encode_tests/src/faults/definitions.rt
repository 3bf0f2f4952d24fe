//! The lowest fault of definitions.

use crate::faults::cases::{Case, assert_faults};
use crate::rows::Row::{
    AliasOf, Component, Enumeration, Instance, Module, Resource, Taker, TypeOf, User,
};
use wac_encode_faults::{Role, WriteFault};

const CASES: &[Case] = &[
    Case {
        name: "a function over a resource that the root binds",
        rows: &[Resource, Taker(0)],
        place: 1,
        role: Role::Defined,
        bound: &[0],
        want: None,
    },
    Case {
        name: "a function over a resource that nothing binds",
        rows: &[Resource, Taker(0)],
        place: 1,
        role: Role::Defined,
        bound: &[],
        want: Some(WriteFault::UnboundResource),
    },
    Case {
        name: "a core module type",
        rows: &[Module(&[]), TypeOf(0)],
        place: 1,
        role: Role::Defined,
        bound: &[],
        want: Some(WriteFault::ModuleAsType),
    },
    Case {
        name: "an interface without an id",
        rows: &[Enumeration("a"), Instance(None, &[("t", 0)])],
        place: 1,
        role: Role::Defined,
        bound: &[],
        want: Some(WriteFault::UnnamedDefinition),
    },
    Case {
        name: "an interface without an id, over a resource that nothing binds",
        rows: &[Resource, Taker(0), Instance(None, &[("f", 1)])],
        place: 2,
        role: Role::Defined,
        bound: &[],
        want: Some(WriteFault::UnboundResource),
    },
    Case {
        name: "an interface imports what it uses",
        rows: &[
            Resource,
            Instance(Some("n:p/k"), &[("r", 0)]),
            Taker(0),
            User(Some("n:p/i"), &[("r", 1, "r")], &[("f", 2)]),
        ],
        place: 3,
        role: Role::Defined,
        bound: &[],
        want: None,
    },
    Case {
        name: "an alias binds nothing",
        rows: &[
            Resource,
            AliasOf("r", None, 0),
            Instance(Some("n:p/i"), &[("t", 1)]),
        ],
        place: 2,
        role: Role::Defined,
        bound: &[0],
        want: Some(WriteFault::UnboundResource),
    },
    Case {
        name: "a core module type of an interface that is used",
        rows: &[
            Resource,
            Module(&[]),
            TypeOf(1),
            Instance(Some("n:p/j"), &[("r", 0), ("m", 2)]),
            User(Some("n:p/i"), &[("r", 3, "r")], &[]),
        ],
        place: 4,
        role: Role::Defined,
        bound: &[],
        want: Some(WriteFault::ModuleAsType),
    },
    Case {
        name: "an additional import depends by its own uses",
        rows: &[
            Resource,
            Enumeration("a"),
            AliasOf("r", None, 0),
            Instance(Some("n:p/j"), &[("t", 1), ("q", 2)]),
            User(None, &[("t", 3, "t")], &[]),
            Instance(Some("n:p/k"), &[("r", 0), ("x", 4)]),
            User(Some("n:p/i"), &[("r", 5, "r"), ("t", 3, "t")], &[]),
        ],
        place: 6,
        role: Role::Defined,
        bound: &[],
        want: None,
    },
    Case {
        name: "a world imports what its imports use",
        rows: &[
            Enumeration("a"),
            Instance(Some("n:p/j"), &[("t", 0)]),
            User(Some("n:p/i"), &[("t", 1, "t")], &[]),
            Component(Some("n:p/w"), &[("n:p/i", 2)], &[]),
        ],
        place: 3,
        role: Role::Defined,
        bound: &[],
        want: None,
    },
    Case {
        name: "a world imports what it exports too",
        rows: &[
            Enumeration("a"),
            Instance(Some("n:p/j"), &[("t", 0)]),
            User(Some("n:p/i"), &[("t", 1, "t")], &[]),
            Component(Some("n:p/w"), &[("n:p/i", 2)], &[("n:p/j", 1)]),
        ],
        place: 3,
        role: Role::Defined,
        bound: &[],
        want: None,
    },
    Case {
        name: "a world would import two interfaces of one id",
        rows: &[
            Enumeration("a"),
            Instance(Some("n:p/j"), &[("t", 0)]),
            Instance(Some("n:p/j"), &[("t", 0)]),
            User(Some("n:p/i"), &[("t", 2, "t")], &[]),
            Component(Some("n:p/w"), &[("n:p/j", 1), ("n:p/i", 3)], &[]),
        ],
        place: 4,
        role: Role::Defined,
        bound: &[],
        want: Some(WriteFault::InterfaceTwice),
    },
    Case {
        name: "a world with imports over the resources of each other",
        rows: &[
            Resource,
            Resource,
            Taker(0),
            Taker(1),
            Instance(Some("n:p/a"), &[("r", 0), ("f", 3)]),
            Instance(Some("n:p/b"), &[("r", 1), ("f", 2)]),
            Component(Some("n:p/w"), &[("n:p/a", 4), ("n:p/b", 5)], &[]),
        ],
        place: 6,
        role: Role::Defined,
        bound: &[],
        want: Some(WriteFault::TypesUseEachOther),
    },
];

#[test]
fn definitions_have_their_lowest_fault(rt: HostRuntime) {
    assert_faults(&rt, CASES);
}
