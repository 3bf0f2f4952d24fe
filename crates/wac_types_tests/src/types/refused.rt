// Memory that is refused once. What was refused changed nothing, so the same call then answers as if it had not been.
use crate::types::adding::{Adding, BOOL, Refusal, add, adds};
use crate::types::asserts::assert_shown;
use crate::types::rows::Row::{Adds, Subtype};
use crate::types::rows::{Table, assert_tables};
use std::process::Abort;
use wac_types::*;

const VALUE: &[(&str, ItemKind)] = &[("v", ItemKind::Value(BOOL))];

const FIELDS: &[(&str, ValueType)] = &[("x", BOOL), ("y", BOOL)];

const RESOURCE: Adding = Adding::Resource("r");

const FUNC: Adding = Adding::Func(FIELDS, Some(BOOL), false);

const RECORD: Adding = Adding::Record(FIELDS);

const INTERFACE: Adding = Adding::Interface(Some("n:p/i"), VALUE);

const WORLD: Adding = Adding::World(Some("n:p/w"), VALUE, VALUE);

const MODULE: Adding = Adding::Module(&[("m", "f"), ("n", "g"), ("m", "h")]);

// An item of each list of a collection.
const ITEMS: &[Adding] = &[RESOURCE, FUNC, RECORD, INTERFACE, WORLD, MODULE];

// The item of this number in its list.
fn numbered(item: Adding, number: usize) -> Type {
    match item {
        Adding::Resource(_) => Type::Resource(ResourceId(number)),
        Adding::Func(_, _, _) => Type::Func(FuncTypeId(number)),
        Adding::Interface(_, _) => Type::Interface(InterfaceId(number)),
        Adding::World(_, _, _) => Type::World(WorldId(number)),
        Adding::Module(_) => Type::Module(ModuleTypeId(number)),
        _ => Type::Value(ValueType::Defined(DefinedTypeId(number))),
    }
}

// An item is added under this id, once more where memory was refused. Then the collection shows the same as the other, to which
// the same items were added before it.
fn assert_added(
    rt: &(impl Abort + AllocGlobal),
    types: &mut Types,
    other: &Types,
    item: Adding,
    ty: Type,
) {
    let mut answer = add(types, item);
    if answer == Err(Refusal::Memory) {
        let text = format!(in rt.alloc(); "{other:?}").expect(rt, "a text");
        assert_shown(rt, types, text.as_str());
        answer = add(types, item);
    }
    assert!(rt; answer == Ok(ty));
}

#[test]
fn adders_that_are_refused_change_nothing(rt: HostRuntime) {
    let mut types = Types::new(rt.alloc());
    let mut other = Types::new(rt.alloc());
    for number in 0..5 {
        for item in ITEMS {
            let ty = numbered(*item, number);
            assert_added(&rt, &mut types, &other, *item, ty);
            assert!(rt; adds(&mut other, *item, ty), "{number}");
        }
    }
}

const I0: Type = Type::Interface(InterfaceId(0));

const I1: Type = Type::Interface(InterfaceId(1));

const W0: Type = Type::World(WorldId(0));

const W1: Type = Type::World(WorldId(1));

const M0: Type = Type::Module(ModuleTypeId(0));

const M1: Type = Type::Module(ModuleTypeId(1));

// What is compared answers the same when it is asked again.
const COMPARED: &[Table] = &[(
    "a comparison that is refused answers when asked again",
    &[
        Adds(INTERFACE, I0),
        Adds(INTERFACE, I1),
        Subtype(ItemKind::TypeItem(I0), ItemKind::TypeItem(I1), true),
        Adds(WORLD, W0),
        Adds(WORLD, W1),
        Subtype(ItemKind::TypeItem(W0), ItemKind::TypeItem(W1), true),
        Adds(MODULE, M0),
        Adds(MODULE, M1),
        Subtype(ItemKind::TypeItem(M0), ItemKind::TypeItem(M1), true),
    ],
)];

#[test]
fn a_comparison_that_is_refused_answers_when_asked_again(rt: HostRuntime) {
    assert_tables(&rt, COMPARED);
}
