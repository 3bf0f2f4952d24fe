// Types and calls on a graph as the rows of a table, and what `encode` answers then.
use crate::defining::{CALLS, answer, assert_undefined};
use crate::parts::{self, assert_displayed, assert_row, encode, export, import, instantiate};
use semver::Version;
use std::alloc::Global;
use std::process::Abort;
use wac_graph::types::{
    DefinedType, Enum, InterfaceId, ItemKind, ModuleType, PrimitiveType, Record, Resource,
    ResourceId, Type, ValueType,
};
use wac_graph::{CompositionGraph, EncodeError, EncodeOptions, NodeId, PackageId, WriteFault};

const PREAMBLE: &str = "0061736d0d000100";

/// A name, and the place of what it is of.
pub type Item = (&'static str, usize);

/// The name of a used type, the place of the instance that exports it, and its name there.
pub type Use = (&'static str, usize, &'static str);

/// The name of a package, and the first number of its version.
pub type Key = (&'static str, Option<u64>);

/// An item that a row adds to those before it, each of which it means by its place.
#[derive(Clone, Copy)]
pub enum Row {
    // The type bool.
    Bool,
    // The type byte.
    Byte,
    // A value of type bool.
    Value,
    // The type of a new enumeration of this case.
    Enumeration(&'static str),
    // A list of a type.
    List(usize),
    // An optional value of a type.
    Optional(usize),
    // An alias of a type.
    Alias(usize),
    // A tuple of two types.
    Pair(usize, usize),
    // A tuple of a type twice, a tuple of that twice, and so on, so many deep.
    Doubled(usize, u32),
    // A record of a field `b` of a type.
    Record(usize),
    // A new resource.
    Resource,
    // An alias of a resource.
    AliasOf(usize),
    // The type of a handle to a resource.
    Own(usize),
    // A function of these parameters, and of what it gives.
    Func(&'static [Item], Option<usize>),
    // An instance of an interface of this id, which uses and lists these.
    Using(Option<&'static str>, &'static [Use], &'static [Item]),
    // An instance of an interface of this id, which lists these.
    Instance(Option<&'static str>, &'static [Item]),
    // A component of a world of this id, which imports and exports these.
    Component(Option<&'static str>, &'static [Item], &'static [Item]),
    // An empty core module.
    Module,
    // The type of an item.
    TypeOf(usize),
}

/// A call on the graph, or what is true of it then. A node is meant by its number.
#[derive(Clone, Copy)]
pub enum Step {
    // Defines the type of an item, under a name that is not exported yet.
    Define(&'static str, usize),
    // The type of an item is not defined under this name, and the refusal has this text.
    Undefined(&'static str, usize, &'static str),
    // Removes the node that is exported by this name.
    Remove(&'static str),
    // A node's exports are not taken away from it.
    Kept(usize),
    // The node that is exported by this name.
    Exported(&'static str, Option<NodeId>),
    // There are so many nodes.
    Nodes(usize),
    Import(&'static str, usize),
    Export(usize, &'static str),
    // Registers the package `my:package` with these imports.
    Register(&'static [Item]),
    // Registers a package of this key with these imports.
    RegisterAs(Key, &'static [Item]),
    // Makes an instance of the package that was registered last.
    Instantiate,
    // A node is given this argument, a node.
    Set(usize, &'static str, usize),
}

/// What `encode` answers.
#[derive(Clone, Copy)]
pub enum Want {
    // The preamble and these parts, in hexadecimal.
    Parts(&'static [&'static str]),
    // So many bytes.
    Length(usize),
    // Bytes, and no refusal.
    Written,
    // A refusal with this text.
    Text(&'static str),
    // A refusal of the type that this node asks for.
    Fault(usize, WriteFault),
    // A refusal of names, and which.
    Invalid(&'static str),
}

/// Items, calls on a graph of their types, and what `encode` answers.
pub struct Case {
    pub rows: &'static [Row],
    pub steps: &'static [Step],
    pub want: Want,
}

/// A graph, and the items of its types.
pub struct Made {
    pub graph: CompositionGraph,
    kinds: Vec<ItemKind>,
    package: Option<PackageId>,
}

impl Drop for Made {
    fn drop(self) {
        let Made {
            graph: _,
            kinds: _,
            package: _,
        } = self;
    }
}

fn value_item(value: ValueType) -> ItemKind {
    ItemKind::TypeItem(Type::Value(value))
}

impl Made {
    /// A graph after these calls.
    pub fn new(rt: &(impl Abort + AllocGlobal), rows: &[Row], steps: &[Step]) -> Made {
        let mut made = Made {
            graph: CompositionGraph::new(rt.alloc()),
            kinds: Vec::new(rt.alloc()),
            package: None,
        };
        for row in rows {
            let kind = made.item(rt, *row);
            made.kinds.push(kind).expect(rt, "room for an item");
        }
        for step in steps {
            made.call(rt, *step);
        }
        made
    }

    fn alloc(&self) -> Global {
        self.graph.types().allocator()
    }

    fn kind(&self, rt: &impl Abort, place: usize) -> ItemKind {
        *self.kinds.get(place).expect(rt, "an item")
    }

    fn value(&self, rt: &impl Abort, place: usize) -> ValueType {
        match self.kind(rt, place) {
            ItemKind::TypeItem(Type::Value(value)) => value,
            _ => panic!(rt; "no value type"),
        }
    }

    fn interface(&self, rt: &impl Abort, place: usize) -> InterfaceId {
        match self.kind(rt, place) {
            ItemKind::Instance(id) => id,
            _ => panic!(rt; "no instance"),
        }
    }

    fn resource(&self, rt: &impl Abort, place: usize) -> ResourceId {
        match self.kind(rt, place) {
            ItemKind::TypeItem(Type::Resource(id)) => id,
            _ => panic!(rt; "no resource"),
        }
    }

    fn item(&mut self, rt: &impl Abort, row: Row) -> ItemKind {
        match row {
            Row::Bool => value_item(ValueType::Primitive(PrimitiveType::Bool)),
            Row::Byte => value_item(ValueType::Primitive(PrimitiveType::U8)),
            Row::Value => ItemKind::Value(ValueType::Primitive(PrimitiveType::Bool)),
            Row::Doubled(of, levels) => self.doubled(rt, of, levels),
            Row::Resource => self.new_resource(rt, None),
            Row::AliasOf(of) => self.new_resource(rt, Some(of)),
            Row::Own(of) => value_item(ValueType::Own(self.resource(rt, of))),
            Row::Func(params, returned) => self.function(rt, params, returned),
            Row::Using(id, uses, items) => self.instance(rt, id, uses, items),
            Row::Instance(id, items) => self.instance(rt, id, &[], items),
            Row::Component(id, imports, exports) => self.component(rt, id, imports, exports),
            Row::Module => {
                let module = ModuleType::new(self.alloc());
                parts::module(rt, &mut self.graph, module)
            }
            Row::TypeOf(of) => ItemKind::TypeItem(self.kind(rt, of).ty()),
            row => {
                let definition = self.definition(rt, row);
                value_item(self.defined(rt, definition))
            }
        }
    }

    fn defined(&mut self, rt: &impl Abort, definition: DefinedType) -> ValueType {
        parts::defined(rt, &mut self.graph, definition)
    }

    fn definition(&self, rt: &impl Abort, row: Row) -> DefinedType {
        match row {
            Row::Enumeration(case) => {
                DefinedType::Enum(Enum::new(self.alloc(), &[case]).expect(rt, "an enumeration"))
            }
            Row::List(of) => DefinedType::List(self.value(rt, of)),
            Row::Optional(of) => DefinedType::Option(self.value(rt, of)),
            Row::Alias(of) => DefinedType::Alias(self.value(rt, of)),
            Row::Pair(first, second) => {
                let parts = [self.value(rt, first), self.value(rt, second)];
                DefinedType::tuple(self.alloc(), &parts).expect(rt, "a tuple")
            }
            Row::Record(of) => {
                let field = ("b", self.value(rt, of));
                DefinedType::Record(Record::new(self.alloc(), &[field]).expect(rt, "a record"))
            }
            _ => panic!(rt; "no definition"),
        }
    }

    fn doubled(&mut self, rt: &impl Abort, of: usize, levels: u32) -> ItemKind {
        let mut value = self.value(rt, of);
        for _ in 0..levels {
            let pair = DefinedType::tuple(self.alloc(), &[value, value]).expect(rt, "a tuple");
            value = self.defined(rt, pair);
        }
        value_item(value)
    }

    // A resource `r`, or an alias of the resource at a place.
    fn new_resource(&mut self, rt: &impl Abort, source: Option<usize>) -> ItemKind {
        let resource = match source {
            Some(of) => Resource::alias(self.alloc(), "r", None, self.resource(rt, of)),
            None => Resource::new(self.alloc(), "r"),
        };
        let resource = resource.expect(rt, "a resource");
        ItemKind::TypeItem(Type::Resource(self.graph.add_resource(resource).expect(rt, "its id")))
    }

    fn params(&self, rt: &impl Abort, items: &[Item]) -> Vec<(&'static str, ValueType)> {
        let mut params = Vec::new(self.alloc());
        for (name, place) in items {
            let value = self.value(rt, *place);
            params
                .push((*name, value))
                .expect(rt, "room for a parameter");
        }
        params
    }

    fn function(&mut self, rt: &impl Abort, params: &[Item], returned: Option<usize>) -> ItemKind {
        let params = self.params(rt, params);
        let returned = match returned {
            Some(place) => Some(self.value(rt, place)),
            None => None,
        };
        parts::function(rt, &mut self.graph, &params, returned)
    }

    fn named(&self, rt: &impl Abort, items: &[Item]) -> Vec<(&'static str, ItemKind)> {
        let mut named = Vec::new(self.alloc());
        for (name, place) in items {
            let kind = self.kind(rt, *place);
            named.push((*name, kind)).expect(rt, "room for an item");
        }
        named
    }

    fn used(
        &self,
        rt: &impl Abort,
        uses: &[Use],
    ) -> Vec<(&'static str, InterfaceId, Option<&'static str>)> {
        let mut used = Vec::new(self.alloc());
        for (name, place, there) in uses {
            let of = self.interface(rt, *place);
            used.push((*name, of, Some(*there)))
                .expect(rt, "room for a use");
        }
        used
    }

    fn instance(
        &mut self,
        rt: &impl Abort,
        id: Option<&str>,
        uses: &[Use],
        items: &[Item],
    ) -> ItemKind {
        let uses = self.used(rt, uses);
        let items = self.named(rt, items);
        parts::instance(rt, &mut self.graph, id, &uses, &items)
    }

    fn component(
        &mut self,
        rt: &impl Abort,
        id: Option<&str>,
        imports: &[Item],
        exports: &[Item],
    ) -> ItemKind {
        let imports = self.named(rt, imports);
        let exports = self.named(rt, exports);
        ItemKind::Component(parts::world(rt, &mut self.graph, id, &imports, &exports))
    }

    fn call(&mut self, rt: &(impl Abort + AllocGlobal), step: Step) {
        match step {
            Step::Define(name, place) => self.define(rt, name, place),
            Step::Import(name, place) => {
                let kind = self.kind(rt, place);
                import(rt, &mut self.graph, name, kind).expect(rt, "a node");
            }
            Step::Export(node, name) => {
                export(rt, &mut self.graph, NodeId(node), name).expect(rt, "an export");
            }
            Step::Register(imports) => {
                self.package = Some(self.registered(rt, ("my:package", None), imports, &[]));
            }
            Step::RegisterAs(key, imports) => {
                self.package = Some(self.registered(rt, key, imports, &[]));
            }
            Step::Instantiate => {
                let package = self.package.expect(rt, "a package");
                instantiate(rt, &mut self.graph, package).expect(rt, "a node");
            }
            Step::Set(node, name, argument) => {
                let answer = parts::set(rt, &mut self.graph, NodeId(node), name, NodeId(argument));
                answer.expect(rt, "an argument");
            }
            Step::Remove(name) => {
                let node = self.graph.get_export(name).expect(rt, "a node");
                parts::remove(rt, &mut self.graph, node);
            }
            step => self.assert_step(rt, step),
        }
    }

    // What is true of the graph.
    fn assert_step(&mut self, rt: &(impl Abort + AllocGlobal), step: Step) {
        match step {
            Step::Undefined(name, place, want) => {
                let ty = self.kind(rt, place).ty();
                assert_undefined(rt, &mut self.graph, name, ty, want);
            }
            Step::Kept(node) => {
                let answer = parts::unexport(rt, &mut self.graph, NodeId(node));
                assert_row(rt, answer.is_err(), "a node that is kept");
            }
            Step::Exported(name, node) => {
                assert_row(rt, self.graph.get_export(name) == node, name);
            }
            Step::Nodes(count) => assert_row(rt, self.graph.node_ids().count() == count, "nodes"),
            _ => panic!(rt; "a call"),
        }
    }

    fn define(&mut self, rt: &impl Abort, name: &str, place: usize) {
        let ty = self.kind(rt, place).ty();
        assert_row(rt, self.graph.get_export(name).is_none(), name);
        let node = answer(rt, &mut self.graph, name, ty).expect(rt, "a node");
        assert_row(rt, self.graph.get_export(name) == Some(node), name);
    }

    /// Registers a package with these imports and exports.
    pub fn registered(
        &mut self,
        rt: &impl Abort,
        key: Key,
        imports: &[Item],
        exports: &[Item],
    ) -> PackageId {
        let (name, major) = key;
        let version = match major {
            Some(major) => Some(Version::new(major, 0, 0)),
            None => None,
        };
        let key = (name, version.as_ref());
        let imports = self.named(rt, imports);
        let exports = self.named(rt, exports);
        parts::register(rt, &mut self.graph, key, &imports, &exports).expect(rt, "a package")
    }
}

// The bytes are the preamble and these parts, in hexadecimal.
fn assert_parts(rt: &(impl Abort + AllocGlobal), bytes: &[u8], want: &[&str]) {
    let text = hex::encode(rt.alloc(), bytes).expect(rt, "a text");
    let want = want.concat(rt.alloc()).expect(rt, "a text");
    let items = text.as_str().strip_prefix(PREAMBLE);
    assert!(rt; items == Some(want.as_str()), "{text}");
}

// Names are refused, and these are.
fn assert_invalid(rt: &(impl Abort + AllocGlobal), error: &EncodeError, want: &str) {
    match error {
        EncodeError::ValidationFailure { source } => {
            let text = parts::invalid(rt, rt.alloc(), source);
            assert_row(rt, text.as_str() == want, want);
        }
        _ => panic!(rt; "another refusal"),
    }
}

// The refusal is this one.
fn assert_refused(rt: &(impl Abort + AllocGlobal), error: &EncodeError, want: Want) {
    match want {
        Want::Fault(wanted, why) => match error {
            EncodeError::TypeNotWritable { node, fault } => {
                assert!(rt; *node == NodeId(wanted) && *fault == why);
            }
            _ => panic!(rt; "another refusal"),
        },
        Want::Text(want) => assert_displayed(rt, error, want),
        Want::Invalid(want) => assert_invalid(rt, error, want),
        _ => panic!(rt; "a refusal"),
    }
}

// The bytes are these.
fn assert_written(rt: &(impl Abort + AllocGlobal), bytes: &[u8], want: Want) {
    match want {
        Want::Parts(want) => assert_parts(rt, bytes, want),
        Want::Length(want) => assert!(rt; bytes.len() == want),
        Want::Written => {}
        _ => panic!(rt; "bytes are written"),
    }
}

/// What `encode` answers is this.
pub fn assert_encoded(rt: &(impl Abort + AllocGlobal), graph: &CompositionGraph, want: Want) {
    assert_encoded_with(rt, graph, EncodeOptions::default(), want);
}

/// What `encode` answers with these options is this.
pub fn assert_encoded_with(
    rt: &(impl Abort + AllocGlobal),
    graph: &CompositionGraph,
    options: EncodeOptions<'_>,
    want: Want,
) {
    match encode(graph, options) {
        Ok(bytes) => assert_written(rt, &bytes, want),
        Err(error) => assert_refused(rt, &error, want),
    }
}

/// Each case is answered so with these options.
pub fn assert_answers(rt: &(impl Abort + AllocGlobal), cases: &[Case], options: EncodeOptions<'_>) {
    for case in cases {
        let made = Made::new(rt, case.rows, case.steps);
        assert_encoded_with(rt, &made.graph, options, case.want);
    }
}

/// Items, and calls on a graph of their types, which can be made.
pub type Calls = (&'static [Row], &'static [Step]);

#[test]
fn definitions_are_made_and_removed(rt: HostRuntime) {
    for (rows, steps) in CALLS {
        let _made = Made::new(&rt, rows, steps);
    }
}
