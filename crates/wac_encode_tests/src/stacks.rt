//! Types that are written into open scopes by hand.

ghost use Rattle.std.specs.Prelude.{◌≡◌, ◌++◌, ◌∷◌, [], true, IfSome};
ghost use Rattle.wac_types_shapes.specs.declared.shapes.component.«Type».TheVariants as ty;
ghost use Rattle.wac_types_collection.specs.collection.Collection.{HasFunc};
ghost use Rattle.wac_encode_scopes.specs.private.Closed.{AreClosedTypes};
ghost use Rattle.wac_encode_scopes.specs.private.Interfaces.{own_in};
ghost use Rattle.wac_encode_scopes.specs.Roots.{IsRoot};
ghost use Rattle.wac_encode_scopes.specs.States.{AllAddTypes};
ghost use Rattle.wac_encode_values.specs.private.Values.{IsWrittenAs};
ghost use Rattle.wac_encode_tests.specs.private.Stacks.{AreGood, IsGoodRoot, HasNoImports, MayWrite, MayWriteAll, HasOnly};

use crate::rows::Row::{Enumeration, Func, Instance, List, Own, Primitive, Record, Resource};
use crate::rows::{Items, Row, assert_row};
use indexmap::IndexSet;
use std::process::Abort;
use wac_binary::{ComponentValType, Description};
use wac_encode_scopes::{ClosedTypes, How, Side, State};
use wac_encode_stacks::{bringing_law, part_law};
use wac_encode_values::ValueEncoder;
use wac_types_collection::Types;
use wac_types_shapes::{
    DefinedTypeId, FuncTypeId, Interface, InterfaceId, ItemKind, Named, PrimitiveType, ResourceId,
    Type, UsedType, ValueType,
};

/// What is written into the root first.
#[derive(Clone, Copy)]
enum Step {
    /// The value type at a place, which has this type index.
    Value(usize, u32),
    /// An import of this name, a type item that equals the definition at a place.
    Named(&'static str, usize),
    /// An import of this name, the instance at a place, which exports one resource.
    Owner(&'static str, usize),
}

use Step::{Named as Imported, Owner, Value};

/// The import that comes last, under the name `n:p/i`.
#[derive(Clone, Copy)]
enum Last {
    /// There is none.
    Nothing,
    /// The instance at a place. It exports the function at a place as `f`.
    Outer(usize, usize),
    /// The instance at a place. It exports the instance at a place as `j`, which exports the function at a place as `f`.
    Inner(usize, usize, usize),
}

use Last::{Inner, Nothing, Outer};

struct StackRow {
    name: &'static str,
    rows: &'static [Row],
    steps: &'static [Step],
    last: Last,
    // The bytes after the preamble.
    want: &'static [u8],
}

const STACKS: &[StackRow] = &[
    StackRow {
        name: "the parts of a record come before it, each once, in the order of its fields",
        rows: &[
            Enumeration("a"),
            Primitive(PrimitiveType::U8),
            List(1),
            Record(&[("a", 2), ("b", 0), ("c", 2)]),
        ],
        steps: &[Value(3, 2), Value(0, 1), Value(2, 0)],
        last: Nothing,
        want: &[
            0x07, 0x12, 0x03, // three types
            0x70, 0x7d, // the list
            0x6d, 0x01, 0x01, 0x61, // the enum
            0x72, 0x03, 0x01, 0x61, 0x00, 0x01, 0x62, 0x01, 0x01, 0x63, 0x00, // the record
        ],
    },
    StackRow {
        name: "an instance type exports its own resource first, and a handle to it has the export's index",
        rows: &[
            Resource,
            Own(0),
            Func(&[("x", 1)], None),
            Instance(Some("n:p/i"), &[("f", 2), ("r", 0)]),
        ],
        steps: &[],
        last: Outer(3, 2),
        want: &[
            0x07, 0x1a, 0x01, 0x42, 0x04, // an instance type of four declarations
            0x04, 0x00, 0x01, 0x72, 0x03, 0x01, // the resource
            0x01, 0x69, 0x00, // an `own` of it
            0x01, 0x40, 0x01, 0x01, 0x78, 0x01, 0x01, 0x00, // a function type over that
            0x04, 0x00, 0x01, 0x66, 0x01, 0x02, // the function
            0x0a, 0x0a, 0x01, 0x00, 0x05, 0x6e, 0x3a, 0x70, 0x2f, 0x69, 0x05, 0x00, // the import
        ],
    },
    StackRow {
        name: "two resources of one name are aliased each from the import that exports it",
        rows: &[
            Resource,
            Instance(Some("n:p/a"), &[("r", 0)]),
            Resource,
            Instance(Some("n:p/b"), &[("r", 2)]),
            Own(0),
            Own(2),
            Func(&[("x", 4), ("y", 5)], None),
            Instance(Some("n:p/i"), &[("f", 6)]),
        ],
        steps: &[Owner("n:p/a", 1), Owner("n:p/b", 3)],
        last: Outer(7, 6),
        want: &[
            0x07, 0x09, 0x01, 0x42, 0x01, // an instance type of one declaration
            0x04, 0x00, 0x01, 0x72, 0x03, 0x01, // the first resource
            0x0a, 0x0a, 0x01, 0x00, 0x05, 0x6e, 0x3a, 0x70, 0x2f, 0x61, 0x05, 0x00, // the first import
            0x07, 0x09, 0x01, 0x42, 0x01, // an instance type of one declaration
            0x04, 0x00, 0x01, 0x72, 0x03, 0x01, // the second resource
            0x0a, 0x0a, 0x01, 0x00, 0x05, 0x6e, 0x3a, 0x70, 0x2f, 0x62, 0x05, 0x01, // the second import
            0x06, 0x0b, 0x02, // two aliases
            0x03, 0x00, 0x00, 0x01, 0x72, // the first resource
            0x03, 0x00, 0x01, 0x01, 0x72, // the second resource
            0x07, 0x24, 0x01, 0x42, 0x06, // an instance type of six declarations
            0x02, 0x03, 0x02, 0x01, 0x02, // an outer alias of the first resource
            0x01, 0x69, 0x00, // an `own` of it
            0x02, 0x03, 0x02, 0x01, 0x03, // an outer alias of the second resource
            0x01, 0x69, 0x02, // an `own` of it
            0x01, 0x40, 0x02, 0x01, 0x78, 0x01, 0x01, 0x79, 0x03, 0x01, 0x00, // a function type over both
            0x04, 0x00, 0x01, 0x66, 0x01, 0x04, // the function
            0x0a, 0x0a, 0x01, 0x00, 0x05, 0x6e, 0x3a, 0x70, 0x2f, 0x69, 0x05, 0x04, // the import
        ],
    },
    StackRow {
        name: "a resource of the root is brought two scopes in by one outer alias with count 2",
        rows: &[
            Resource,
            Instance(Some("n:p/k"), &[("r", 0)]),
            Own(0),
            Func(&[("x", 2)], None),
            Instance(None, &[("f", 3)]),
            Instance(Some("n:p/i"), &[("j", 4)]),
        ],
        steps: &[Owner("n:p/k", 1)],
        last: Inner(5, 4, 3),
        want: &[
            0x07, 0x09, 0x01, 0x42, 0x01, // an instance type of one declaration
            0x04, 0x00, 0x01, 0x72, 0x03, 0x01, // the resource
            0x0a, 0x0a, 0x01, 0x00, 0x05, 0x6e, 0x3a, 0x70, 0x2f, 0x6b, 0x05, 0x00, // its import
            0x06, 0x06, 0x01, 0x03, 0x00, 0x00, 0x01, 0x72, // an alias of the resource
            0x07, 0x22, 0x01, 0x42, 0x02, // an instance type of two declarations
            0x01, 0x42, 0x04, // an instance type of four declarations inside
            0x02, 0x03, 0x02, 0x02, 0x01, // an outer alias of the alias, with count 2
            0x01, 0x69, 0x00, // an `own` of it
            0x01, 0x40, 0x01, 0x01, 0x78, 0x01, 0x01, 0x00, // a function type over that
            0x04, 0x00, 0x01, 0x66, 0x01, 0x02, // the function
            0x04, 0x00, 0x01, 0x6a, 0x05, 0x00, // the instance
            0x0a, 0x0a, 0x01, 0x00, 0x05, 0x6e, 0x3a, 0x70, 0x2f, 0x69, 0x05, 0x02, // the import
        ],
    },
    StackRow {
        name: "an enum that the root imports by name is brought two scopes in by one outer alias with count 2",
        rows: &[
            Enumeration("a"),
            Func(&[("x", 0)], None),
            Instance(None, &[("f", 1)]),
            Instance(Some("n:p/i"), &[("j", 2)]),
        ],
        steps: &[Imported("t", 0)],
        last: Inner(3, 2, 1),
        want: &[
            0x07, 0x05, 0x01, 0x6d, 0x01, 0x01, 0x61, // the enum
            0x0a, 0x07, 0x01, 0x00, 0x01, 0x74, 0x03, 0x00, 0x00, // a type item that equals it
            0x07, 0x1f, 0x01, 0x42, 0x02, // an instance type of two declarations
            0x01, 0x42, 0x03, // an instance type of three declarations inside
            0x02, 0x03, 0x02, 0x02, 0x01, // an outer alias of the type item, with count 2
            0x01, 0x40, 0x01, 0x01, 0x78, 0x00, 0x01, 0x00, // a function type over it
            0x04, 0x00, 0x01, 0x66, 0x01, 0x01, // the function
            0x04, 0x00, 0x01, 0x6a, 0x05, 0x00, // the instance
            0x0a, 0x0a, 0x01, 0x00, 0x05, 0x6e, 0x3a, 0x70, 0x2f, 0x69, 0x05, 0x02, // the import
        ],
    },
];

// Whether the innermost scope binds each resource that a value type mentions.
fn may_write(types: &Types, closed: &ClosedTypes, state: &State, value: ValueType) -> bool
    requires { AreClosedTypes types.now closed.now }
    ensures { result ≡ true → MayWrite types.now state.now (ty.Value value) }
{
    part_law();
    match value {
        ValueType::Primitive(_) => true,
        ValueType::Own(id) => state.is_bound(true, types.resolve_resource(id)),
        ValueType::Borrow(id) => state.is_bound(true, types.resolve_resource(id)),
        ValueType::Defined(id) => {
            if !types.contains(Type::Value(value)) {
                return false;
            }
            closed.contains(id)
        }
    }
}

// Whether the innermost scope binds each resource that an optional value type mentions.
fn may_write_optional(
    types: &Types,
    closed: &ClosedTypes,
    state: &State,
    value: Option<ValueType>,
) -> bool
    requires { AreClosedTypes types.now closed.now }
    ensures { result ≡ true → IfSome value (λ v. MayWrite types.now state.now (ty.Value v)) }
{
    match value {
        Some(value) => may_write(types, closed, state, value),
        None => true,
    }
}

// Whether the innermost scope binds each resource that the parameters mention.
fn may_write_all(
    types: &Types,
    closed: &ClosedTypes,
    state: &State,
    params: &Named<ValueType>,
) -> bool
    requires { AreClosedTypes types.now closed.now }
    ensures { result ≡ true → MayWriteAll types.now state.now params.now }
{
    for i in 0..params.len() {
        let (_, value) = params.entry_at(i);
        if !may_write(types, closed, state, *value) {
            return false;
        }
    }
    true
}

// Whether the innermost scope binds each resource that a function type mentions.
fn may_write_func(types: &Types, closed: &ClosedTypes, state: &State, id: FuncTypeId) -> bool
    requires closed { AreClosedTypes types.now closed.now }
    requires held { HasFunc types.now id }
    ensures { result ≡ true → MayWrite types.now state.now (ty.Func id) }
{
    types.law();
    let func = &types[id];
    if !may_write_optional(types, closed, state, func.result) {
        return false;
    }
    may_write_all(types, closed, state, &func.params)
}

// Writes a value type.
fn write_value(
    rt: &impl Abort,
    types: &Types,
    closed: &ClosedTypes,
    state: &mut State,
    value: ValueType,
) -> ComponentValType
    requires closed { AreClosedTypes types.now closed.now }
    requires good { AreGood types.now state.old }
    ensures good { AreGood types.now state.new }
    ensures written { IsWrittenAs types.now true state.new value result }
    ensures types { AllAddTypes state.old state.new }
{
    assert!(rt; types.contains(Type::Value(value)));
    assert!(rt; may_write(types, closed, state, value));
    let encoder = ValueEncoder::new(types, closed, true);
    encoder.value_type(state, value).expect(rt, "a value type")
}

// Writes a function type and returns its index.
fn write_func(
    rt: &impl Abort,
    types: &Types,
    closed: &ClosedTypes,
    state: &mut State,
    id: FuncTypeId,
) -> u32
    requires closed { AreClosedTypes types.now closed.now }
    requires good { AreGood types.now state.old }
    ensures { AllAddTypes state.old state.new }
{
    assert!(rt; types.contains(Type::Func(id)));
    assert!(rt; may_write_func(types, closed, state, id));
    let encoder = ValueEncoder::new(types, closed, true);
    encoder.func(state, id).expect(rt, "a function type")
}

// Opens the instance type of an interface.
fn open(rt: &impl Abort, types: &Types, state: &mut State, id: InterfaceId)
    requires { AreGood types.now state.old }
    ensures good { AreGood types.now state.new }
    ensures plain { HasNoImports state.new.here.content }
    ensures around { state.new.around.items ≡ state.old.around.items ++ state.old.here ∷ [] }
{
    assert!(rt; types.contains(Type::Interface(id)));
    state
        .open_interface(types, true, id)
        .expect(rt, "an instance type");
}

// Writes the instance type of an interface, which exports a function as `f`. Returns its index.
fn write_outer(
    rt: &impl Abort,
    types: &Types,
    closed: &ClosedTypes,
    state: &mut State,
    interface: InterfaceId,
    func: FuncTypeId,
) -> u32
    requires closed { AreClosedTypes types.now closed.now }
    requires good { AreGood types.now state.old }
    ensures { AllAddTypes state.old state.new }
{
    open(rt, types, state, interface);
    let index = write_func(rt, types, closed, state, func);
    let listed = state.list(Side::Export, "f", Description::Func(index));
    listed.expect(rt, "an export");
    state.close().expect(rt, "an index")
}

// Writes the instance type of an interface, which exports an instance as `j`. That one exports a function as `f`.
fn write_inner(
    rt: &impl Abort,
    types: &Types,
    closed: &ClosedTypes,
    state: &mut State,
    interfaces: (InterfaceId, InterfaceId),
    func: FuncTypeId,
) -> u32
    requires closed { AreClosedTypes types.now closed.now }
    requires good { AreGood types.now state.old }
    ensures { AllAddTypes state.old state.new }
{
    open(rt, types, state, interfaces.0);
    let index = write_outer(rt, types, closed, state, interfaces.1, func);
    let listed = state.list(Side::Export, "j", Description::Instance(index));
    listed.expect(rt, "an export");
    state.close().expect(rt, "an index")
}

// Imports a definition as a type item that equals it.
fn import_named(
    rt: &impl Abort,
    types: &Types,
    closed: &ClosedTypes,
    state: &mut State,
    name: &str,
    id: DefinedTypeId,
)
    requires closed { AreClosedTypes types.now closed.now }
    requires right { IsGoodRoot types.now state.old }
    ensures { IsGoodRoot types.now state.new }
{
    bringing_law();
    let value = ValueType::Defined(id);
    let ComponentValType::Index(index) = write_value(rt, types, closed, state, value) else {
        panic!(rt; "no definition");
    };
    let item = state.import(name, Description::Equal(index));
    let item = item.expect(rt, "an import");
    state
        .record(true, Type::Value(value), How::Listed, item)
        .expect(rt, "room for a record");
}

// The own resource of an item: the resource of a type item that is neither an alias nor a used type.
fn own_resource(
    types: &Types,
    uses: &Named<UsedType>,
    name: &str,
    item: ItemKind,
) -> Option<ResourceId>
    ensures { result ≡ own_in types.now uses.now (name.now, item) }
{
    let ItemKind::TypeItem(Type::Resource(id)) = item else {
        return None;
    };
    let end = types.resolve_resource(id);
    if end.0 != id.0 {
        return None;
    }
    match uses.get(name) {
        Some(_) => None,
        None => Some(id),
    }
}

// The own resource of an interface that exports nothing else.
fn only_resource(types: &Types, interface: &Interface) -> Option<ResourceId>
    ensures { IfSome result (HasOnly types.now interface.now) }
{
    if interface.exports.len() != 1 {
        return None;
    }
    let (name, item) = interface.exports.entry_at(0);
    own_resource(types, &interface.uses, name, *item)
}

// Imports an instance that exports one resource, and records it.
fn import_owner(
    rt: &impl Abort,
    types: &Types,
    closed: &ClosedTypes,
    state: &mut State,
    name: &str,
    id: InterfaceId,
)
    requires closed { AreClosedTypes types.now closed.now }
    requires right { IsGoodRoot types.now state.old }
    ensures { IsGoodRoot types.now state.new }
{
    assert!(rt; types.contains(Type::Interface(id)));
    let resource = only_resource(types, &types[id]).expect(rt, "a resource");
    assert!(rt; !state.is_bound(true, resource));
    let mut own = IndexSet::new(types.allocator());
    own.insert(resource).expect(rt, "room for a resource");
    let opened = state.open_interface(types, true, id);
    opened.expect(rt, "an instance type");
    let index = state.close().expect(rt, "an index");
    let imported = state.import(name, Description::Instance(index));
    let imported = imported.expect(rt, "an import");
    state
        .tell_instance(types, closed, true, id, imported, &own)
        .expect(rt, "room for records");
}

// Does a step in the root.
fn does(rt: &impl Abort, items: &Items, closed: &ClosedTypes, state: &mut State, step: Step)
    requires closed { AreClosedTypes items.now.types closed.now }
    requires right { IsGoodRoot items.now.types state.old }
    ensures { IsGoodRoot items.now.types state.new }
{
    let types = &items.types;
    match step {
        Step::Value(place, want) => {
            let written = write_value(rt, types, closed, state, items.value(rt, place));
            assert!(rt; written == ComponentValType::Index(want));
        }
        Step::Named(name, place) => {
            let id = items.definition_id(rt, place);
            import_named(rt, types, closed, state, name, id);
        }
        Step::Owner(name, place) => {
            import_owner(rt, types, closed, state, name, items.interface(rt, place));
        }
    }
}

// Imports the instance type at an index.
fn import(rt: &impl Abort, state: &mut State, index: u32)
    requires { IsRoot state.old.here.content }
    ensures { IsRoot state.new.here.content }
{
    let imported = state.import("n:p/i", Description::Instance(index));
    imported.expect(rt, "an import");
}

// Writes the last import.
fn ends(rt: &impl Abort, items: &Items, closed: &ClosedTypes, state: &mut State, last: Last)
    requires closed { AreClosedTypes items.now.types closed.now }
    requires right { IsGoodRoot items.now.types state.old }
    ensures { IsRoot state.new.here.content }
{
    let types = &items.types;
    match last {
        Last::Nothing => {}
        Last::Outer(outer, func) => {
            let interface = items.interface(rt, outer);
            let index = write_outer(rt, types, closed, state, interface, items.func(rt, func));
            import(rt, state, index);
        }
        Last::Inner(outer, inner, func) => {
            let interfaces = (items.interface(rt, outer), items.interface(rt, inner));
            let index = write_inner(rt, types, closed, state, interfaces, items.func(rt, func));
            import(rt, state, index);
        }
    }
}

// The bytes of a component in which a row is written.
fn written(rt: &impl Abort, items: &Items, row: &StackRow) -> Vec<u8> {
    let closed = ClosedTypes::new(&items.types).expect(rt, "the closed definitions");
    let mut state = State::root(items.types.allocator());
    for step in row.steps {
        does(rt, items, &closed, &mut state, *step);
    }
    ends(rt, items, &closed, &mut state, row.last);
    state.into_builder().into_bytes().expect(rt, "bytes")
}

#[test]
fn types_are_written_into_open_scopes(rt: HostRuntime) {
    for row in STACKS {
        let items = Items::new(&rt, rt.alloc(), row.rows);
        let bytes = written(&rt, &items, row);
        assert_row(&rt, bytes.as_slice().get(8..) == Some(row.want), row.name);
    }
}
