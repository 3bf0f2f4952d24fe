//! The lowest fault of imports of the root that are no components.

use crate::faults::cases::{Case, assert_faults};
use crate::rows::Row::{
    AliasOf, Component, Enumeration, Instance, Module, Primitive, Resource, Taker, TypeOf, User,
    Value,
};
use wac_encode_faults::{Role, WriteFault};
use wac_types_shapes::PrimitiveType;

const CASES: &[Case] = &[
    Case {
        name: "a function over a resource that nothing binds",
        rows: &[Resource, Taker(0)],
        place: 1,
        role: Role::Imported,
        bound: &[],
        want: Some(WriteFault::UnboundResource),
    },
    Case {
        name: "a function over a resource that the root binds",
        rows: &[Resource, Taker(0)],
        place: 1,
        role: Role::Imported,
        bound: &[0],
        want: None,
    },
    Case {
        name: "an instance with its own resource",
        rows: &[
            Resource,
            Taker(0),
            Instance(Some("n:p/i"), &[("r", 0), ("f", 1)]),
        ],
        place: 2,
        role: Role::Imported,
        bound: &[],
        want: None,
    },
    Case {
        name: "an alias binds nothing",
        rows: &[
            Resource,
            AliasOf("r", None, 0),
            Instance(Some("n:p/i"), &[("t", 1)]),
        ],
        place: 2,
        role: Role::Imported,
        bound: &[],
        want: Some(WriteFault::UnboundResource),
    },
    Case {
        name: "what an instance inside binds, beside it",
        rows: &[
            Resource,
            Instance(Some("n:p/j"), &[("r", 0)]),
            Taker(0),
            Instance(Some("n:p/i"), &[("n:p/j", 1), ("f", 2)]),
        ],
        place: 3,
        role: Role::Imported,
        bound: &[],
        want: Some(WriteFault::UnboundResource),
    },
    Case {
        name: "the same, where the root binds it",
        rows: &[
            Resource,
            Instance(Some("n:p/j"), &[("r", 0)]),
            Taker(0),
            Instance(Some("n:p/i"), &[("n:p/j", 1), ("f", 2)]),
        ],
        place: 3,
        role: Role::Imported,
        bound: &[0],
        want: None,
    },
    Case {
        name: "an interface as a type item, which uses an enumeration",
        rows: &[
            Enumeration("a"),
            Instance(Some("n:p/k"), &[("t", 0)]),
            User(None, &[("t", 1, "t")], &[]),
            TypeOf(2),
            Instance(Some("n:p/i"), &[("z", 3)]),
        ],
        place: 4,
        role: Role::Imported,
        bound: &[],
        want: None,
    },
    Case {
        name: "an interface as a type item, over a resource that nothing binds",
        rows: &[
            Resource,
            Instance(Some("n:p/k"), &[("r", 0)]),
            Taker(0),
            User(None, &[("r", 1, "r")], &[("f", 2)]),
            TypeOf(3),
            Instance(Some("n:p/i"), &[("z", 4)]),
        ],
        place: 5,
        role: Role::Imported,
        bound: &[],
        want: Some(WriteFault::UnboundResource),
    },
    Case {
        name: "a core module type as a type item",
        rows: &[Module(&[]), TypeOf(0)],
        place: 1,
        role: Role::Imported,
        bound: &[],
        want: Some(WriteFault::ModuleAsType),
    },
    Case {
        name: "an interface without an id",
        rows: &[Enumeration("a"), Instance(None, &[("t", 0)])],
        place: 1,
        role: Role::Imported,
        bound: &[],
        want: None,
    },
    Case {
        name: "a component item of an instance inside another",
        rows: &[
            Component(None, &[], &[]),
            Instance(None, &[("c", 0)]),
            Instance(Some("n:p/i"), &[("j", 1)]),
        ],
        place: 2,
        role: Role::Imported,
        bound: &[],
        want: Some(WriteFault::NestedItem),
    },
    Case {
        name: "a value item of an instance",
        rows: &[
            Primitive(PrimitiveType::U8),
            Value(0),
            Instance(Some("n:p/i"), &[("v", 1)]),
        ],
        place: 2,
        role: Role::Imported,
        bound: &[],
        want: Some(WriteFault::NestedItem),
    },
    Case {
        name: "a value item",
        rows: &[Primitive(PrimitiveType::U8), Value(0)],
        place: 1,
        role: Role::Imported,
        bound: &[],
        want: Some(WriteFault::ValueItem),
    },
];

#[test]
fn items_have_their_lowest_fault(rt: HostRuntime) {
    assert_faults(&rt, CASES);
}
