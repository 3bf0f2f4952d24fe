//! Types as the rows of a table.

use crate::modules::{Extern, core_module};
use std::alloc::Global;
use std::process::Abort;
use wac_types_collection::Types;
use wac_types_shapes::{
    DefinedType, DefinedTypeId, Enum, FuncType, FuncTypeId, Interface, InterfaceId, ItemKind,
    PrimitiveType, Record, Resource, ResourceId, Type, ValueType, World, WorldId,
};

/// A name, and the place of what it is of.
pub type Item = (&'static str, usize);

/// The name of a used type, the place of the instance that exports it, and its name there.
pub type Use = (&'static str, usize, &'static str);

/// An item that a row adds to those before it, each of which it means by its place.
#[derive(Clone, Copy)]
pub enum Row {
    /// A primitive type.
    Primitive(PrimitiveType),
    /// The type of a new enumeration of this case.
    Enumeration(&'static str),
    /// An alias of a type.
    Alias(usize),
    /// A list of a type.
    List(usize),
    /// An optional value of a type.
    Optional(usize),
    /// A tuple of two types.
    Pair(usize, usize),
    /// A record of these fields.
    Record(&'static [Item]),
    /// A new resource, `r`.
    Resource,
    /// A new resource of this name.
    NamedResource(&'static str),
    /// An alias of this name of a resource. The instance that owns the resource comes first, if there is one.
    AliasOf(&'static str, Option<usize>, usize),
    /// The type of a handle to a resource.
    Own(usize),
    /// A function of these parameters, and of what it gives.
    Func(&'static [Item], Option<usize>),
    /// A function whose parameter is a handle to a resource.
    Taker(usize),
    /// A function that is async, of these parameters, and of what it gives.
    Async(&'static [Item], Option<usize>),
    /// An instance of an interface of this id, which lists these.
    Instance(Option<&'static str>, &'static [Item]),
    /// An instance of an interface of this id, which uses and lists these.
    User(Option<&'static str>, &'static [Use], &'static [Item]),
    /// A component of a world of this id, which imports and exports these.
    Component(Option<&'static str>, &'static [Item], &'static [Item]),
    /// A component of a world of this id, which uses, imports and exports these.
    WorldUser(Option<&'static str>, &'static [Use], &'static [Item], &'static [Item]),
    /// The type of a function, of an instance or of a component.
    TypeOf(usize),
    /// A value of a type.
    Value(usize),
    /// A core module that exports these.
    Module(&'static [(&'static str, Extern)]),
}

/// The items of a table, and the collection of their types.
#[derive(Drop)]
pub struct Items {
    /// The collection.
    pub types: Types,
    kinds: Vec<ItemKind>,
}

/// What a row of a table says is true.
pub fn assert_row(rt: &impl Abort, holds: bool, name: &str) {
    assert!(rt; holds, "{name}");
}

fn value_item(value: ValueType) -> ItemKind {
    ItemKind::TypeItem(Type::Value(value))
}

impl Items {
    /// The items of these rows.
    pub fn new(rt: &impl Abort, alloc: Global, rows: &[Row]) -> Items {
        let mut items = Items {
            types: Types::new(alloc),
            kinds: Vec::new(alloc),
        };
        for row in rows {
            let kind = items.made(rt, *row);
            items.kinds.push(kind).expect(rt, "room for an item");
        }
        items
    }

    fn made(&mut self, rt: &impl Abort, row: Row) -> ItemKind {
        match row {
            Row::Primitive(primitive) => value_item(ValueType::Primitive(primitive)),
            Row::Resource => self.new_resource(rt, "r"),
            Row::NamedResource(name) => self.new_resource(rt, name),
            Row::AliasOf(name, owner, of) => self.resource_alias(rt, name, owner, of),
            Row::Own(of) => value_item(ValueType::Own(self.resource(rt, of))),
            Row::Func(params, returned) => self.function(rt, params, returned, false),
            Row::Taker(of) => self.taker(rt, of),
            Row::Async(params, returned) => self.function(rt, params, returned, true),
            Row::Instance(id, exports) => self.instance(rt, id, &[], exports),
            Row::User(id, uses, exports) => self.instance(rt, id, uses, exports),
            Row::Component(id, imports, exports) => self.component(rt, id, &[], imports, exports),
            Row::WorldUser(id, uses, imports, exports) => {
                self.component(rt, id, uses, imports, exports)
            }
            Row::TypeOf(of) => ItemKind::TypeItem(self.kind(rt, of).ty()),
            Row::Value(of) => ItemKind::Value(self.value(rt, of)),
            Row::Module(exports) => self.module(rt, exports),
            row => {
                let definition = self.definition(rt, row);
                let id = self.types.add_defined_type(definition).expect(rt, "its id");
                value_item(ValueType::Defined(id))
            }
        }
    }

    fn definition(&self, rt: &impl Abort, row: Row) -> DefinedType {
        let alloc = self.types.allocator();
        match row {
            Row::Enumeration(case) => {
                DefinedType::Enum(Enum::new(alloc, &[case]).expect(rt, "an enumeration"))
            }
            Row::Alias(of) => DefinedType::Alias(self.value(rt, of)),
            Row::List(of) => DefinedType::List(self.value(rt, of)),
            Row::Optional(of) => DefinedType::Option(self.value(rt, of)),
            Row::Pair(first, second) => {
                let parts = [self.value(rt, first), self.value(rt, second)];
                DefinedType::tuple(alloc, &parts).expect(rt, "a tuple")
            }
            Row::Record(fields) => {
                let fields = self.params(rt, fields);
                DefinedType::Record(Record::new(alloc, &fields).expect(rt, "a record"))
            }
            _ => panic!(rt; "no definition"),
        }
    }

    /// The item at a place.
    pub fn kind(&self, rt: &impl Abort, place: usize) -> ItemKind {
        *self.kinds.get(place).expect(rt, "an item")
    }

    /// The value type at a place.
    pub fn value(&self, rt: &impl Abort, place: usize) -> ValueType {
        match self.kind(rt, place) {
            ItemKind::TypeItem(Type::Value(value)) => value,
            _ => panic!(rt; "no value type"),
        }
    }

    /// The definition at a place.
    pub fn definition_id(&self, rt: &impl Abort, place: usize) -> DefinedTypeId {
        match self.value(rt, place) {
            ValueType::Defined(id) => id,
            _ => panic!(rt; "no definition"),
        }
    }

    /// The function type at a place.
    pub fn func(&self, rt: &impl Abort, place: usize) -> FuncTypeId {
        match self.kind(rt, place) {
            ItemKind::Func(id) => id,
            _ => panic!(rt; "no function"),
        }
    }

    /// The interface of the instance at a place.
    pub fn interface(&self, rt: &impl Abort, place: usize) -> InterfaceId {
        match self.kind(rt, place) {
            ItemKind::Instance(id) => id,
            _ => panic!(rt; "no instance"),
        }
    }

    /// The resources of the items, without aliases.
    pub fn resources(&self, rt: &impl Abort) -> Vec<ResourceId> {
        let mut resources = Vec::new(self.types.allocator());
        for kind in &self.kinds {
            if let ItemKind::TypeItem(Type::Resource(id)) = *kind {
                let end = self.types.resolve_resource(id);
                resources.push(end).expect(rt, "room for an id");
            }
        }
        resources
    }

    /// The world of the component at a place.
    pub fn world(&self, rt: &impl Abort, place: usize) -> WorldId {
        match self.kind(rt, place) {
            ItemKind::Component(id) => id,
            _ => panic!(rt; "no component"),
        }
    }

    /// The resource at a place.
    pub fn resource(&self, rt: &impl Abort, place: usize) -> ResourceId {
        match self.kind(rt, place) {
            ItemKind::TypeItem(Type::Resource(id)) => id,
            _ => panic!(rt; "no resource"),
        }
    }

    fn new_resource(&mut self, rt: &impl Abort, name: &str) -> ItemKind {
        let resource = Resource::new(self.types.allocator(), name).expect(rt, "a resource");
        ItemKind::TypeItem(Type::Resource(self.types.add_resource(resource).expect(rt, "its id")))
    }

    fn resource_alias(
        &mut self,
        rt: &impl Abort,
        name: &str,
        owner: Option<usize>,
        of: usize,
    ) -> ItemKind {
        let owner = match owner {
            Some(place) => Some(self.interface(rt, place)),
            None => None,
        };
        let source = self.resource(rt, of);
        let resource = Resource::alias(self.types.allocator(), name, owner, source);
        let resource = resource.expect(rt, "a resource");
        ItemKind::TypeItem(Type::Resource(self.types.add_resource(resource).expect(rt, "its id")))
    }

    fn module(&mut self, rt: &impl Abort, exports: &[(&str, Extern)]) -> ItemKind {
        let module = core_module(rt, self.types.allocator(), &[], exports);
        ItemKind::Module(self.types.add_module_type(module).expect(rt, "its id"))
    }

    fn params<'a>(&self, rt: &impl Abort, items: &[(&'a str, usize)]) -> Vec<(&'a str, ValueType)> {
        let mut params = Vec::new(self.types.allocator());
        for (name, place) in items {
            let value = self.value(rt, *place);
            params
                .push((*name, value))
                .expect(rt, "room for a parameter");
        }
        params
    }

    fn function(
        &mut self,
        rt: &impl Abort,
        params: &[Item],
        returned: Option<usize>,
        is_async: bool,
    ) -> ItemKind {
        let params = self.params(rt, params);
        let returned = match returned {
            Some(place) => Some(self.value(rt, place)),
            None => None,
        };
        let function = FuncType::new(self.types.allocator(), &params, returned, is_async);
        let function = function.expect(rt, "a function type");
        ItemKind::Func(self.types.add_func_type(function).expect(rt, "its id"))
    }

    fn taker(&mut self, rt: &impl Abort, of: usize) -> ItemKind {
        let params = [("x", ValueType::Own(self.resource(rt, of)))];
        let function = FuncType::new(self.types.allocator(), &params, None, false);
        let function = function.expect(rt, "a function type");
        ItemKind::Func(self.types.add_func_type(function).expect(rt, "its id"))
    }

    /// These items, each under its name.
    pub fn named<'a>(
        &self,
        rt: &impl Abort,
        items: &[(&'a str, usize)],
    ) -> Vec<(&'a str, ItemKind)> {
        let mut named = Vec::new(self.types.allocator());
        for (name, place) in items {
            let kind = self.kind(rt, *place);
            named.push((*name, kind)).expect(rt, "room for an item");
        }
        named
    }

    fn used<'a>(
        &self,
        rt: &impl Abort,
        uses: &[(&'a str, usize, &'a str)],
    ) -> Vec<(&'a str, InterfaceId, Option<&'a str>)> {
        let mut used = Vec::new(self.types.allocator());
        for (name, place, there) in uses {
            let interface = self.interface(rt, *place);
            used.push((*name, interface, Some(*there)))
                .expect(rt, "room for a use");
        }
        used
    }

    fn instance(
        &mut self,
        rt: &impl Abort,
        id: Option<&str>,
        uses: &[Use],
        exports: &[Item],
    ) -> ItemKind {
        let uses = self.used(rt, uses);
        let exports = self.named(rt, exports);
        let interface = Interface::with_uses(self.types.allocator(), id, &uses, &exports);
        let interface = interface.expect(rt, "an interface");
        ItemKind::Instance(self.types.add_interface(interface).expect(rt, "its id"))
    }

    fn component(
        &mut self,
        rt: &impl Abort,
        id: Option<&str>,
        uses: &[Use],
        imports: &[Item],
        exports: &[Item],
    ) -> ItemKind {
        let uses = self.used(rt, uses);
        let imports = self.named(rt, imports);
        let exports = self.named(rt, exports);
        let world = World::with_uses(self.types.allocator(), id, &uses, &imports, &exports);
        let world = world.expect(rt, "a world");
        ItemKind::Component(self.types.add_world(world).expect(rt, "its id"))
    }
}
