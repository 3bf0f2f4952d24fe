// What a type reaches.
use crate::types::adding::{Adding, BOOL};
use crate::types::rows::Row::{Adds, Reaches};
use crate::types::rows::{Table, assert_tables};
use wac_types_collection::Reached;
use wac_types_collection::collection::*;
use wac_types_collection::reach::reach;

// Whether these are found, each at its own position.
fn are_found(found: &Reached, wanted: &[Type]) -> bool {
    for (i, ty) in found.as_slice().iter().enumerate() {
        if found.position(*ty) != Some(i) || !found.contains(*ty) {
            return false;
        }
    }
    found.as_slice() == wanted
}

/// Whether a type reaches exactly these, in the order in which they are found; asked once more where memory was refused.
pub fn reaches(types: &Types, ty: Type, wanted: &[Type]) -> bool {
    let held = types.contains(ty);
    if !held {
        return false;
    }
    let mut answer = reach(types, ty);
    if answer.is_err() {
        answer = reach(types, ty);
    }
    match answer {
        Ok(found) => are_found(&found, wanted),
        Err(_) => false,
    }
}

const A: ValueType = ValueType::Defined(DefinedTypeId(0));

const B: ValueType = ValueType::Defined(DefinedTypeId(1));

const C: ValueType = ValueType::Defined(DefinedTypeId(2));

const F: Type = Type::Func(FuncTypeId(0));

const R: ResourceId = ResourceId(0);

const ALIAS: ResourceId = ResourceId(1);

const LISTED: &[(&str, ItemKind)] = &[("r", ItemKind::TypeItem(Type::Resource(R)))];

const IMPORTED: &[(&str, ItemKind)] = &[("r", ItemKind::TypeItem(Type::Resource(ALIAS)))];

const I: Type = Type::Interface(InterfaceId(0));

const W: Type = Type::World(WorldId(0));

const TABLES: &[Table] = &[
    (
        "a type reaches what it mentions, and so on",
        &[
            Adds(Adding::Enum("x"), Type::Value(A)),
            Adds(Adding::List(A), Type::Value(B)),
            Adds(Adding::Tuple(&[B, BOOL]), Type::Value(C)),
            Adds(Adding::Func(&[("p", C)], Some(A), false), F),
            Reaches(Type::Value(BOOL), &[]),
            Reaches(Type::Value(A), &[]),
            Reaches(Type::Value(B), &[Type::Value(A)]),
            Reaches(
                Type::Value(C),
                &[Type::Value(B), Type::Value(BOOL), Type::Value(A)],
            ),
            Reaches(
                F,
                &[
                    Type::Value(A),
                    Type::Value(C),
                    Type::Value(B),
                    Type::Value(BOOL),
                ],
            ),
        ],
    ),
    (
        "uses and sources of aliases are mentioned",
        &[
            Adds(Adding::Resource("r"), Type::Resource(R)),
            Adds(Adding::Interface(Some("n:p/i"), LISTED), I),
            Adds(
                Adding::ResourceAlias("r", Some(InterfaceId(0)), R),
                Type::Resource(ALIAS),
            ),
            Adds(
                Adding::WorldUser(&[("r", InterfaceId(0), None)], IMPORTED, &[]),
                W,
            ),
            Reaches(Type::Value(ValueType::Own(R)), &[Type::Resource(R)]),
            Reaches(Type::Resource(ALIAS), &[Type::Resource(R), I]),
            Reaches(
                Type::Value(ValueType::Borrow(ALIAS)),
                &[Type::Resource(ALIAS), Type::Resource(R), I],
            ),
            Reaches(W, &[I, Type::Resource(ALIAS), Type::Resource(R)]),
        ],
    ),
];

#[test]
fn types_reach_what_they_mention(rt: HostRuntime) {
    assert_tables(&rt, TABLES);
}
