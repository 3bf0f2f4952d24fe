//! Types that are written by hand where memory is refused. The component is then dropped, and written anew.

ghost use Rattle.std.specs.Prelude.{◌≡◌, true};
ghost use Rattle.wac_types_shapes.specs.declared.shapes.component.«Type».TheVariants as ty_of;
ghost use Rattle.wac_types_collection.specs.collection.Collection.{holds_type};

use crate::by_hand::{as_it_is, definition};
use crate::rows::Row::{Component, Enumeration, Func, Instance, Resource};
use crate::rows::{Items, Row, assert_row};
use std::process::Abort;
use wac_binary::ComponentValType;
use wac_encode::{EncodeFault, State, TypeEncoder};
use wac_types_collection::Types;
use wac_types_shapes::{ItemKind, ResourceId, Type, ValueType};

// Writes a type as it is. Returns its index.
fn type_once(types: &Types, ty: Type) -> Result<u32, EncodeFault>
    requires { holds_type types.now ty ≡ true }
{
    let mut state = State::new(types.allocator());
    let encoder = TypeEncoder::new(types, true);
    as_it_is(&encoder, &mut state, ty)
}

// Writes a type as it is, once more where memory was refused.
fn type_index(types: &Types, ty: Type) -> Result<u32, EncodeFault>
    requires { holds_type types.now ty ≡ true }
{
    match type_once(types, ty) {
        Err(EncodeFault::OutOfMemory) => type_once(types, ty),
        index => index,
    }
}

// Writes the definition of a type. Returns its index.
fn definition_once(types: &Types, ty: Type) -> Result<u32, EncodeFault>
    requires { holds_type types.now ty ≡ true }
{
    let mut state = State::new(types.allocator());
    let encoder = TypeEncoder::new(types, true);
    definition(&encoder, &mut state, ty)
}

// Writes the definition of a type, once more where memory was refused.
fn definition_index(types: &Types, ty: Type) -> Result<u32, EncodeFault>
    requires { holds_type types.now ty ≡ true }
{
    match definition_once(types, ty) {
        Err(EncodeFault::OutOfMemory) => definition_once(types, ty),
        index => index,
    }
}

// Imports a resource. Returns its index.
fn import_once(types: &Types, resource: ResourceId) -> Result<u32, EncodeFault>
    requires { holds_type types.now (ty_of.Resource resource) ≡ true }
{
    let mut state = State::new(types.allocator());
    let encoder = TypeEncoder::new(types, true);
    encoder.import_resource(&mut state, "r", resource)
}

// Imports a resource, once more where memory was refused.
fn import_index(types: &Types, resource: ResourceId) -> Result<u32, EncodeFault>
    requires { holds_type types.now (ty_of.Resource resource) ≡ true }
{
    match import_once(types, resource) {
        Err(EncodeFault::OutOfMemory) => import_once(types, resource),
        index => index,
    }
}

// Writes a value type. Returns it as it is used.
fn value_once(types: &Types, value: ValueType) -> Result<ComponentValType, EncodeFault>
    requires { holds_type types.now (ty_of.Value value) ≡ true }
{
    let mut state = State::new(types.allocator());
    let encoder = TypeEncoder::new(types, true);
    encoder.value_type(&mut state, value)
}

// Writes a value type, once more where memory was refused.
fn value_in_use(types: &Types, value: ValueType) -> Result<ComponentValType, EncodeFault>
    requires { holds_type types.now (ty_of.Value value) ≡ true }
{
    match value_once(types, value) {
        Err(EncodeFault::OutOfMemory) => value_once(types, value),
        in_use => in_use,
    }
}

// Writes a value type, and says that its type index is its name. Returns the index.
fn named_once(types: &Types, value: ValueType) -> Result<u32, EncodeFault>
    requires { holds_type types.now (ty_of.Value value) ≡ true }
{
    let mut state = State::new(types.allocator());
    let encoder = TypeEncoder::new(types, true);
    let written = encoder.value_type(&mut state, value);
    let in_use = written?;
    let ComponentValType::Index(index) = in_use else {
        return Ok(u32::MAX);
    };
    let item = ItemKind::TypeItem(Type::Value(value));
    state.bind(types, true, item, index)?;
    Ok(index)
}

// Writes and names a value type, once more where memory was refused.
fn name_index(types: &Types, value: ValueType) -> Result<u32, EncodeFault>
    requires { holds_type types.now (ty_of.Value value) ≡ true }
{
    match named_once(types, value) {
        Err(EncodeFault::OutOfMemory) => named_once(types, value),
        index => index,
    }
}

// The type of the item at a place has index 0, as it is and defined.
fn assert_indexes(rt: &impl Abort, items: &Items, place: usize) {
    let types = &items.types;
    let ty = items.kind(rt, place).ty();
    assert!(rt; types.contains(ty));
    assert!(rt; type_index(types, ty) == Ok(0), "a type at {place}");
    assert!(rt;
        definition_index(types, ty) == Ok(0),
        "a definition at {place}"
    );
}

// An interface and a world.
const ROWS: &[Row] = &[
    Enumeration("a"),
    Instance(Some("n:p/i"), &[("t", 0)]),
    Func(&[], None),
    Component(Some("n:p/w"), &[("f", 2)], &[]),
];

#[test]
fn types_are_written_anew_after_memory_was_refused(rt: HostRuntime) {
    let items = Items::new(&rt, rt.alloc(), ROWS);
    assert_indexes(&rt, &items, 1);
    assert_indexes(&rt, &items, 3);
}

#[test]
fn values_and_resources_are_written_anew_after_memory_was_refused(rt: HostRuntime) {
    let items = Items::new(&rt, rt.alloc(), &[Enumeration("a"), Resource]);
    let types = &items.types;
    let (value, resource) = (items.value(&rt, 0), items.resource(&rt, 1));
    assert!(rt; types.contains(Type::Value(value)));
    assert!(rt; value_in_use(types, value) == Ok(ComponentValType::Index(0)));
    assert!(rt; name_index(types, value) == Ok(0));
    assert!(rt; types.contains(Type::Resource(resource)));
    assert!(rt; import_index(types, resource) == Ok(0));
}

// `tools/refused` refuses this test all growths from one on, so that what follows the last has no memory.
#[test]
fn components_are_begun_without_memory(rt: HostRuntime) {
    let items = Items::new(&rt, rt.alloc(), &[Resource]);
    let resource = items.resource(&rt, 0);
    let _ = String::from_str(rt.alloc(), "the last growth");
    let state = State::new(rt.alloc());
    let found = state.find(true, resource).place;
    assert_row(&rt, found.is_none(), "a resource that nothing binds");
}
