// Which items are subtypes of which.
use crate::types::adding::{Adding, BOOL, U32, add};
use crate::types::asserts::assert_displayed;
use crate::types::rows::Row::{Adds, Subtype};
use crate::types::rows::{Table, assert_tables};
use std::alloc::Global;
use wac_types::*;

/// Whether one item is a subtype of another, asked once more where memory was refused; none where one is not held.
pub fn is_subtype(a: ItemKind, at: &Types, b: ItemKind, bt: &Types) -> Option<bool> {
    let first = at.contains(a.ty());
    let second = bt.contains(b.ty());
    if !first || !second {
        return None;
    }
    let checker = SubtypeChecker::new();
    let mut answer = checker.is_subtype(a, at, b, bt);
    if answer == Err(TypeFault::OutOfMemory) {
        answer = checker.is_subtype(a, at, b, bt);
    }
    match answer {
        Ok(()) => Some(true),
        Err(TypeFault::Mismatch) => Some(false),
        Err(TypeFault::OutOfMemory) => None,
    }
}

const F0: ItemKind = ItemKind::Func(FuncTypeId(0));

const F1: ItemKind = ItemKind::Func(FuncTypeId(1));

const I0: ItemKind = ItemKind::Instance(InterfaceId(0));

const I1: ItemKind = ItemKind::Instance(InterfaceId(1));

const I2: ItemKind = ItemKind::Instance(InterfaceId(2));

const I3: ItemKind = ItemKind::Instance(InterfaceId(3));

const C0: ItemKind = ItemKind::Component(WorldId(0));

const C1: ItemKind = ItemKind::Component(WorldId(1));

const C2: ItemKind = ItemKind::Component(WorldId(2));

const M0: ItemKind = ItemKind::Module(ModuleTypeId(0));

const M1: ItemKind = ItemKind::Module(ModuleTypeId(1));

const M2: ItemKind = ItemKind::Module(ModuleTypeId(2));

const M3: ItemKind = ItemKind::Module(ModuleTypeId(3));

const ALIAS: ItemKind = ItemKind::Value(ValueType::Defined(DefinedTypeId(0)));

const PLAIN: ItemKind = ItemKind::Value(BOOL);

const OWN0: ItemKind = ItemKind::Value(ValueType::Own(ResourceId(0)));

const OWN1: ItemKind = ItemKind::Value(ValueType::Own(ResourceId(1)));

const OWN2: ItemKind = ItemKind::Value(ValueType::Own(ResourceId(2)));

const OWN3: ItemKind = ItemKind::Value(ValueType::Own(ResourceId(3)));

const TYPE0: ItemKind = ItemKind::TypeItem(Type::Interface(InterfaceId(0)));

const TYPE1: ItemKind = ItemKind::TypeItem(Type::Interface(InterfaceId(1)));

const TABLES: &[Table] = &[
    (
        "an instance with more exports is a subtype",
        &[
            Adds(
                Adding::Func(&[("x", BOOL)], None, false),
                Type::Func(FuncTypeId(0)),
            ),
            Adds(
                Adding::Func(&[("y", BOOL)], Some(U32), true),
                Type::Func(FuncTypeId(1)),
            ),
            Adds(
                Adding::Interface(None, &[("f", F0)]),
                Type::Interface(InterfaceId(0)),
            ),
            Adds(
                Adding::Interface(None, &[("g", F1), ("f", F0)]),
                Type::Interface(InterfaceId(1)),
            ),
            Adds(
                Adding::Interface(None, &[("i", I1)]),
                Type::Interface(InterfaceId(2)),
            ),
            Adds(
                Adding::Interface(None, &[("i", I0)]),
                Type::Interface(InterfaceId(3)),
            ),
            Subtype(F0, F0, true),
            Subtype(F0, F1, false),
            Subtype(F0, I0, false),
            Subtype(I0, F0, false),
            Subtype(I0, I0, true),
            Subtype(I1, I0, true),
            Subtype(I0, I1, false),
            Subtype(I2, I3, true),
            Subtype(I3, I2, false),
        ],
    ),
    (
        "a memory is within the limits asked",
        &[
            Adds(Adding::Memory(2, 4, false), Type::Module(ModuleTypeId(0))),
            Adds(Adding::Memory(1, 5, false), Type::Module(ModuleTypeId(1))),
            Adds(Adding::Memory(1, 3, false), Type::Module(ModuleTypeId(2))),
            Adds(Adding::Memory(1, 5, true), Type::Module(ModuleTypeId(3))),
            Subtype(M0, M1, true),
            Subtype(M1, M0, false),
            Subtype(M0, M2, false),
            Subtype(M0, M3, false),
        ],
    ),
    (
        "a component with fewer imports is a subtype",
        &[
            Adds(Adding::Func(&[], None, false), Type::Func(FuncTypeId(0))),
            Adds(
                Adding::Interface(None, &[("f", F0)]),
                Type::Interface(InterfaceId(0)),
            ),
            Adds(
                Adding::Interface(None, &[("f", F0), ("g", F0)]),
                Type::Interface(InterfaceId(1)),
            ),
            Adds(
                Adding::World(None, &[("i", I0)], &[]),
                Type::World(WorldId(0)),
            ),
            Adds(
                Adding::World(None, &[("i", I1)], &[]),
                Type::World(WorldId(1)),
            ),
            Adds(
                Adding::World(None, &[("i", I0), ("j", I0)], &[]),
                Type::World(WorldId(2)),
            ),
            Subtype(C0, C1, true),
            Subtype(C1, C0, false),
            Subtype(C0, C2, true),
            Subtype(C2, C0, false),
            Subtype(TYPE0, TYPE0, true),
            Subtype(TYPE1, TYPE0, false),
            Subtype(TYPE0, TYPE1, false),
        ],
    ),
    (
        "an alias of a primitive is it",
        &[
            Adds(
                Adding::Alias(BOOL),
                Type::Value(ValueType::Defined(DefinedTypeId(0))),
            ),
            Subtype(ALIAS, PLAIN, true),
            Subtype(PLAIN, ALIAS, true),
        ],
    ),
    (
        "an alias is what it names",
        &[
            Adds(Adding::Resource("r"), Type::Resource(ResourceId(0))),
            Adds(
                Adding::ResourceAlias("s", None, ResourceId(0)),
                Type::Resource(ResourceId(1)),
            ),
            Adds(
                Adding::ResourceAlias("s", None, ResourceId(1)),
                Type::Resource(ResourceId(2)),
            ),
            Adds(Adding::Resource("s"), Type::Resource(ResourceId(3))),
            Subtype(OWN2, OWN0, true),
            Subtype(OWN0, OWN2, true),
            Subtype(OWN1, OWN3, false),
        ],
    ),
];

#[test]
fn items_are_subtypes(rt: HostRuntime) {
    assert_tables(&rt, TABLES);
}

const XY: &[(&str, ValueType)] = &[("x", BOOL), ("y", U32)];

// Whether `f(x: bool, y: u32) -> u32` is a subtype of a function type of another collection; none where memory was refused.
fn fits_once(alloc: Global, other: Adding) -> Option<bool> {
    let mut first = Types::new(alloc);
    let mut second = Types::new(alloc);
    let _id = add(&mut first, Adding::Func(XY, Some(U32), false)).ok()?;
    let _id = add(&mut second, other).ok()?;
    is_subtype(F0, &first, F0, &second)
}

// The same, asked once more where memory was refused.
fn fits(alloc: Global, other: Adding) -> Option<bool> {
    match fits_once(alloc, other) {
        None => fits_once(alloc, other),
        answer => answer,
    }
}

const FUNCTIONS: &[(Adding, bool)] = &[
    (Adding::Func(XY, Some(U32), false), true),
    (
        Adding::Func(&[("y", U32), ("x", BOOL)], Some(U32), false),
        false,
    ),
    (
        Adding::Func(&[("x", BOOL), ("z", U32)], Some(U32), false),
        false,
    ),
    (
        Adding::Func(&[("x", BOOL), ("y", BOOL)], Some(U32), false),
        false,
    ),
    (Adding::Func(&[("x", BOOL)], Some(U32), false), false),
    (Adding::Func(XY, None, false), false),
    (Adding::Func(XY, Some(BOOL), false), false),
    (Adding::Func(XY, Some(U32), true), false),
];

#[test]
fn function_types_are_compared_part_by_part(rt: HostRuntime) {
    for (i, (other, want)) in FUNCTIONS.iter().enumerate() {
        assert!(rt; fits(rt.alloc(), *other) == Some(*want), "row {i}");
    }
}

const FAULTS: &[(TypeFault, &str)] = &[
    (TypeFault::Mismatch, "Mismatch"),
    (TypeFault::OutOfMemory, "OutOfMemory"),
];

#[test]
fn faults_of_types_display_their_names(rt: HostRuntime) {
    for (fault, want) in FAULTS {
        assert_displayed(&rt, fault, want);
    }
}
