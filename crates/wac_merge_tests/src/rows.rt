//! Types as the rows of a table.

use std::alloc::Global;
use std::process::Abort;
use wac_types::{
    DefinedType, DefinedTypeId, Enum, FuncType, Interface, InterfaceId, ItemKind, PrimitiveType,
    Record, Resource, ResourceId, Type, Types, ValueType,
};

const BYTE: ValueType = ValueType::Primitive(PrimitiveType::U8);

const BOOL: ValueType = ValueType::Primitive(PrimitiveType::Bool);

/// A used type: its name, the place of the instance that lists it, and its name there where that is another.
pub type Use = (&'static str, usize, Option<&'static str>);

/// A name, and the place of what it is of.
pub type Item = (&'static str, usize);

/// An item that a row adds to those before it, each of which it means by its place.
#[derive(Clone, Copy)]
pub enum Row {
    /// The type byte.
    Byte,
    /// The type of a new enumeration of this case.
    Enumeration(&'static str),
    /// An alias of a type.
    Alias(usize),
    /// A record of one field, an optional value of a type.
    Record(usize),
    /// A new resource of this name.
    Resource(&'static str),
    /// The type of a handle to a resource.
    Own(usize),
    /// A function without parameters that gives nothing.
    Plain,
    /// A function without parameters that gives a bool.
    Telling,
    /// A function of one parameter `x` of a type.
    Taking(usize),
    /// An instance of an interface of this id, which uses and lists these.
    Instance(Option<&'static str>, &'static [Use], &'static [Item]),
    /// The type of an instance.
    TypeOf(usize),
}

/// The items of a table, and the collection of their types.
#[derive(Drop)]
pub struct Items {
    pub types: Types,
    kinds: Vec<ItemKind>,
}

/// What a row of a table says is true.
pub fn assert_row(rt: &impl Abort, holds: bool, name: &str) {
    assert!(rt; holds, "{name}");
}

fn value_item(value: ValueType) -> ItemKind {
    ItemKind::TypeItem(Type::Value(value))
}

impl Items {
    /// The items of these rows.
    pub fn new(rt: &impl Abort, alloc: Global, rows: &[Row]) -> Items {
        let mut items = Items {
            types: Types::new(alloc),
            kinds: Vec::new(alloc),
        };
        for row in rows {
            let kind = items.made(rt, *row);
            items.kinds.push(kind).expect(rt, "room for an item");
        }
        items
    }

    fn made(&mut self, rt: &impl Abort, row: Row) -> ItemKind {
        match row {
            Row::Byte => value_item(BYTE),
            Row::Enumeration(case) => self.enumeration(rt, case),
            Row::Alias(of) => self.alias(rt, of),
            Row::Record(of) => self.record(rt, of),
            Row::Resource(name) => self.new_resource(rt, name),
            Row::Own(of) => value_item(ValueType::Own(self.resource(rt, of))),
            Row::Plain => self.function(rt, &[], None),
            Row::Telling => self.function(rt, &[], Some(BOOL)),
            Row::Taking(of) => self.taking(rt, of),
            Row::Instance(id, uses, exports) => self.instance(rt, id, uses, exports),
            Row::TypeOf(of) => ItemKind::TypeItem(self.kind(rt, of).ty()),
        }
    }

    /// What the row at a place is.
    pub fn kind(&self, rt: &impl Abort, place: usize) -> ItemKind {
        *self.kinds.get(place).expect(rt, "an item")
    }

    fn value(&self, rt: &impl Abort, place: usize) -> ValueType {
        match self.kind(rt, place) {
            ItemKind::TypeItem(Type::Value(value)) => value,
            _ => panic!(rt; "no value type"),
        }
    }

    /// The definition of the type at a place.
    pub fn definition(&self, rt: &impl Abort, place: usize) -> DefinedTypeId {
        match self.value(rt, place) {
            ValueType::Defined(id) => id,
            _ => panic!(rt; "no definition"),
        }
    }

    /// The resource at a place.
    pub fn resource(&self, rt: &impl Abort, place: usize) -> ResourceId {
        match self.kind(rt, place) {
            ItemKind::TypeItem(Type::Resource(id)) => id,
            _ => panic!(rt; "no resource"),
        }
    }

    fn interface(&self, rt: &impl Abort, place: usize) -> InterfaceId {
        match self.kind(rt, place) {
            ItemKind::Instance(id) => id,
            _ => panic!(rt; "no instance"),
        }
    }

    fn defined(&mut self, rt: &impl Abort, definition: DefinedType) -> ValueType {
        ValueType::Defined(self.types.add_defined_type(definition).expect(rt, "its id"))
    }

    fn enumeration(&mut self, rt: &impl Abort, case: &str) -> ItemKind {
        let cases = Enum::new(self.types.allocator(), &[case]).expect(rt, "an enumeration");
        value_item(self.defined(rt, DefinedType::Enum(cases)))
    }

    fn alias(&mut self, rt: &impl Abort, of: usize) -> ItemKind {
        let value = self.value(rt, of);
        value_item(self.defined(rt, DefinedType::Alias(value)))
    }

    fn record(&mut self, rt: &impl Abort, of: usize) -> ItemKind {
        let value = self.value(rt, of);
        let option = self.defined(rt, DefinedType::Option(value));
        let record = Record::new(self.types.allocator(), &[("f", option)]).expect(rt, "a record");
        value_item(self.defined(rt, DefinedType::Record(record)))
    }

    fn new_resource(&mut self, rt: &impl Abort, name: &str) -> ItemKind {
        let resource = Resource::new(self.types.allocator(), name).expect(rt, "a resource");
        ItemKind::TypeItem(Type::Resource(self.types.add_resource(resource).expect(rt, "its id")))
    }

    fn function(
        &mut self,
        rt: &impl Abort,
        params: &[(&str, ValueType)],
        returned: Option<ValueType>,
    ) -> ItemKind {
        let function = FuncType::new(self.types.allocator(), params, returned, false);
        let function = function.expect(rt, "a function type");
        ItemKind::Func(self.types.add_func_type(function).expect(rt, "its id"))
    }

    fn taking(&mut self, rt: &impl Abort, of: usize) -> ItemKind {
        let value = self.value(rt, of);
        self.function(rt, &[("x", value)], None)
    }

    /// The items that are asked for, each under its name.
    pub fn asked<'a>(
        &self,
        rt: &impl Abort,
        items: &[(&'a str, usize)],
    ) -> Vec<(&'a str, ItemKind)> {
        let mut asked = Vec::new(self.types.allocator());
        for (name, place) in items {
            let kind = self.kind(rt, *place);
            asked.push((*name, kind)).expect(rt, "room for an item");
        }
        asked
    }

    fn used(
        &self,
        rt: &impl Abort,
        uses: &[Use],
    ) -> Vec<(&'static str, InterfaceId, Option<&'static str>)> {
        let mut used = Vec::new(self.types.allocator());
        for (name, place, there) in uses {
            let interface = self.interface(rt, *place);
            used.push((*name, interface, *there))
                .expect(rt, "room for a use");
        }
        used
    }

    fn instance(
        &mut self,
        rt: &impl Abort,
        id: Option<&str>,
        uses: &[Use],
        exports: &[Item],
    ) -> ItemKind {
        let uses = self.used(rt, uses);
        let exports = self.asked(rt, exports);
        let interface = Interface::with_uses(self.types.allocator(), id, &uses, &exports);
        let interface = interface.expect(rt, "an interface");
        ItemKind::Instance(self.types.add_interface(interface).expect(rt, "its id"))
    }
}
