// What is done with a collection of types, as the rows of a table.
use crate::types::adding::{Adding, Refusal, add, adds};
use crate::types::reach::reaches;
use crate::types::subtyping::is_subtype;
use std::process::Abort;
use wac_types::*;

/// What is done, or is true then.
#[derive(Clone, Copy)]
pub enum Row {
    // An item is added, and has this id.
    Adds(Adding, Type),
    // An item is refused.
    Refuses(Adding, AddTypeError),
    // A type is held, or not.
    Holds(Type, bool),
    // What a value type is, its aliases followed to the end.
    Value(ValueType, ValueType),
    // What a resource is, its aliases followed to the end.
    Resource(ResourceId, ResourceId),
    // The interfaces are these, in order.
    Interfaces(&'static [InterfaceId]),
    // A type reaches these, in the order in which they are found.
    Reaches(Type, &'static [Type]),
    // Whether no resource is held.
    NoResource(bool),
    // Whether the first is a subtype of the second.
    Subtype(ItemKind, ItemKind, bool),
}

/// A table, under what it shows.
pub type Table = (&'static str, &'static [Row]);

fn has_interfaces(types: &Types, wanted: &[InterfaceId]) -> bool {
    let mut interfaces = types.interfaces();
    for want in wanted {
        match interfaces.next() {
            Some((id, _)) if id == *want => {}
            _ => return false,
        }
    }
    interfaces.next().is_none()
}

// Whether an item is refused by this error. It is added once more where memory was refused.
fn refuses(types: &mut Types, adding: Adding, error: AddTypeError) -> bool {
    let mut answer = add(types, adding);
    if answer == Err(Refusal::Memory) {
        answer = add(types, adding);
    }
    answer == Err(Refusal::Item(error))
}

fn holds(types: &mut Types, row: Row) -> bool {
    match row {
        Row::Adds(adding, ty) => adds(types, adding, ty),
        Row::Refuses(adding, error) => refuses(types, adding, error),
        Row::Holds(ty, held) => types.contains(ty) == held,
        Row::Value(value, source) => types.resolve_value_type(value) == source,
        Row::Resource(alias, source) => types.resolve_resource(alias) == source,
        Row::Interfaces(wanted) => has_interfaces(types, wanted),
        Row::Reaches(ty, wanted) => reaches(types, ty, wanted),
        Row::NoResource(none) => types.holds_no_resource() == none,
        Row::Subtype(a, b, want) => is_subtype(a, types, b, types) == Some(want),
    }
}

/// A new collection, in which each row holds in turn.
pub fn made(rt: &(impl Abort + AllocGlobal), table: Table) -> Types {
    let (name, rows) = table;
    let mut types = Types::new(rt.alloc());
    for (i, row) in rows.iter().enumerate() {
        assert!(rt; holds(&mut types, *row), "row {i}: {name}");
    }
    types
}

/// The tables hold, each in a collection of its own.
pub fn assert_tables(rt: &(impl Abort + AllocGlobal), tables: &[Table]) {
    for table in tables {
        let _types = made(rt, *table);
    }
}
