// Which items a collection takes, and what it answers of them.
use crate::types::adding::{Adding, Refusal, add};
use crate::types::asserts::{assert_displayed, assert_told};
use crate::types::rows::Row::{Adds, Holds, Interfaces, NoResource, Refuses, Resource, Value};
use crate::types::rows::{Table, assert_tables, made};
use wac_types_collection::collection::*;

// The definitions, by their places.
const T: ValueType = ValueType::Defined(DefinedTypeId(0));

const OTHER: ValueType = ValueType::Defined(DefinedTypeId(1));

const SECOND: ValueType = ValueType::Defined(DefinedTypeId(2));

const THIRD: ValueType = ValueType::Defined(DefinedTypeId(3));

const FOURTH: ValueType = ValueType::Defined(DefinedTypeId(4));

const F: Type = Type::Func(FuncTypeId(0));

const LISTS_F: &[(&str, ItemKind)] = &[("f", ItemKind::Func(FuncTypeId(0)))];

const LISTS_T: &[(&str, ItemKind)] = &[("t", ItemKind::TypeItem(Type::Value(T)))];

const LISTS_U: &[(&str, ItemKind)] = &[("u", ItemKind::TypeItem(Type::Value(T)))];

const LISTS_OTHER: &[(&str, ItemKind)] = &[("t", ItemKind::TypeItem(Type::Value(OTHER)))];

const LISTS_SECOND: &[(&str, ItemKind)] = &[("t", ItemKind::TypeItem(Type::Value(SECOND)))];

const LISTS_R: &[(&str, ItemKind)] = &[("s", ItemKind::TypeItem(Type::Resource(ResourceId(0))))];

const LISTS_ALIAS: &[(&str, ItemKind)] = &[(
    "u",
    ItemKind::TypeItem(Type::Resource(ResourceId(2))),
)];

const I0: Type = Type::Interface(InterfaceId(0));

const I1: Type = Type::Interface(InterfaceId(1));

const I2: Type = Type::Interface(InterfaceId(2));

const R0: Type = Type::Resource(ResourceId(0));

const R1: Type = Type::Resource(ResourceId(1));

const R2: Type = Type::Resource(ResourceId(2));

const J: Option<&str> = Some("n:p/j");

// An interface that uses `t` of the first interface, or of the second, under its own name or another.
const FIRST_T: Adding = Adding::User("n:p/i", &[("t", InterfaceId(0), None)], LISTS_T);

const FIRST_U: Adding = Adding::User("n:p/i", &[("t", InterfaceId(0), Some("u"))], LISTS_T);

const SECOND_T: Adding = Adding::User("n:p/i", &[("t", InterfaceId(1), None)], LISTS_T);

const SECOND_U: Adding = Adding::User("n:p/i", &[("t", InterfaceId(1), Some("u"))], LISTS_T);

const TABLES: &[Table] = &[
    (
        "an item of a foreign id is refused",
        &[
            Holds(F, false),
            NoResource(true),
            Refuses(Adding::Interface(None, LISTS_F), AddTypeError::NotHeld),
            Refuses(
                Adding::World(Some("n:p/w"), LISTS_F, &[]),
                AddTypeError::NotHeld,
            ),
        ],
    ),
    (
        "a type is used of a named interface that has it",
        &[
            Adds(Adding::Enum("a"), Type::Value(T)),
            Adds(Adding::Interface(None, LISTS_T), I0),
            Refuses(FIRST_U, AddTypeError::UsedInterfaceUnnamed),
            Adds(Adding::Interface(J, LISTS_T), I1),
            Refuses(SECOND_U, AddTypeError::UsedTypeMissing),
            Adds(SECOND_T, I2),
            Interfaces(&[InterfaceId(0), InterfaceId(1), InterfaceId(2)]),
        ],
    ),
    // Each is used under its own name: the first has the type but no id, the second an id and a type of another name.
    (
        "a type is not used without an id or that type",
        &[
            Adds(Adding::Enum("a"), Type::Value(T)),
            Adds(Adding::Interface(None, LISTS_T), I0),
            Refuses(FIRST_T, AddTypeError::UsedInterfaceUnnamed),
            Adds(Adding::Interface(J, LISTS_U), I1),
            Refuses(SECOND_T, AddTypeError::UsedTypeMissing),
        ],
    ),
    (
        "a used type is the one listed",
        &[
            Adds(Adding::Enum("a"), Type::Value(T)),
            Adds(Adding::Enum("a"), Type::Value(OTHER)),
            Adds(Adding::Alias(T), Type::Value(SECOND)),
            Adds(Adding::Interface(J, LISTS_T), I0),
            Refuses(
                Adding::User("n:p/i", &[("t", InterfaceId(0), None)], LISTS_OTHER),
                AddTypeError::UsedTypeDiffers,
            ),
            Adds(
                Adding::User("n:p/i", &[("t", InterfaceId(0), None)], LISTS_SECOND),
                I1,
            ),
            Value(SECOND, T),
        ],
    ),
    (
        "aliases end where others begin",
        &[
            Adds(Adding::Enum("a"), Type::Value(T)),
            Adds(Adding::Alias(T), Type::Value(OTHER)),
            Adds(Adding::List(OTHER), Type::Value(SECOND)),
            Adds(Adding::Alias(OTHER), Type::Value(THIRD)),
            Adds(Adding::Enum("b"), Type::Value(FOURTH)),
            Value(T, T),
            Value(OTHER, T),
            Value(SECOND, SECOND),
            Value(THIRD, T),
            Value(FOURTH, FOURTH),
        ],
    ),
    (
        "a resource is listed under its own name",
        &[
            Adds(Adding::Enum("a"), Type::Value(T)),
            NoResource(true),
            Adds(Adding::Resource("r"), R0),
            NoResource(false),
            Refuses(
                Adding::Interface(Some("n:p/i"), LISTS_R),
                AddTypeError::ResourceMisnamed,
            ),
            Adds(Adding::ResourceAlias("s", None, ResourceId(0)), R1),
            Adds(Adding::ResourceAlias("s", None, ResourceId(1)), R2),
            Adds(Adding::Interface(None, LISTS_ALIAS), I0),
            Resource(ResourceId(2), ResourceId(0)),
        ],
    ),
];

#[test]
fn items_are_taken_or_refused(rt: HostRuntime) {
    assert_tables(&rt, TABLES);
}

const GIVEN: Table = (
    "an interface over a tuple of an enumeration and a resource",
    &[
        Adds(Adding::Resource("r"), R0),
        Adds(Adding::Enum("a"), Type::Value(T)),
        Adds(
            Adding::Tuple(&[T, ValueType::Own(ResourceId(0))]),
            Type::Value(OTHER),
        ),
        Adds(Adding::Func(&[("x", OTHER)], None, false), F),
        Adds(Adding::Interface(Some("n:p/i"), LISTS_F), I0),
    ],
);

fn clone_grows_on_its_own(types: &Types) -> Result<bool, Refusal> {
    let mut copy = types.clone()?;
    let held = copy.contains(I0) && copy.contains(Type::Value(OTHER));
    let added = add(&mut copy, Adding::Func(&[], Some(T), false))?;
    Ok(held && copy.contains(added) && !types.contains(added))
}

#[test]
fn a_clone_grows_on_its_own(rt: HostRuntime) {
    let types = made(&rt, GIVEN);
    let first = clone_grows_on_its_own(&types);
    let second = clone_grows_on_its_own(&types);
    assert_told(&rt, first, second, "a clone");
}

fn clone_of_a_clone_grows_on_its_own(types: &Types) -> Result<bool, Refusal> {
    let mut copy = types.clone()?;
    let before = add(&mut copy, Adding::Func(&[], Some(T), false))?;
    let mut second = copy.clone()?;
    let own = add(&mut copy, Adding::Func(&[], None, false))?;
    let other = add(&mut second, Adding::Func(&[], Some(T), false))?;
    let (Type::Func(id), Type::Func(same)) = (own, other) else {
        return Ok(false);
    };
    if !copy.contains(Type::Func(id)) || !second.contains(Type::Func(same)) {
        return Ok(false);
    }
    let grown = copy[id].result.is_none() && second[same].result.is_some();
    Ok(id == same && grown && copy.contains(before) && second.contains(before))
}

#[test]
fn a_clone_of_a_clone_grows_on_its_own(rt: HostRuntime) {
    let types = made(&rt, GIVEN);
    let first = clone_of_a_clone_grows_on_its_own(&types);
    let second = clone_of_a_clone_grows_on_its_own(&types);
    assert_told(&rt, first, second, "a clone of a clone");
}

const ADD_FAULTS: &[(AddTypeError, &str)] = &[
    (AddTypeError::NotHeld, "NotHeld"),
    (AddTypeError::UsedInterfaceUnnamed, "UsedInterfaceUnnamed"),
    (AddTypeError::UsedTypeMissing, "UsedTypeMissing"),
    (AddTypeError::UsedTypeDiffers, "UsedTypeDiffers"),
    (AddTypeError::ResourceMisnamed, "ResourceMisnamed"),
    (AddTypeError::OutOfMemory, "OutOfMemory"),
];

const SHAPE_FAULTS: &[(ShapeError, &str)] = &[
    (ShapeError::NameTwice, "NameTwice"),
    (ShapeError::OutOfMemory, "OutOfMemory"),
];

#[test]
fn faults_display_their_names(rt: HostRuntime) {
    for (fault, want) in ADD_FAULTS {
        assert_displayed(&rt, fault, want);
    }
    for (fault, want) in SHAPE_FAULTS {
        assert_displayed(&rt, fault, want);
    }
}
