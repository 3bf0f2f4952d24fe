//! Each call on a graph that takes memory is refused it once. The graph is then as it was, and the call can be made again.

use crate::parts::{assert_row, define, export, import, instantiate, remove, set, unexport};
use crate::short::{Call as ShortCall, make};
use std::alloc::{AllocError, Global};
use std::process::Abort;
use wac_graph::types::{
    AddTypeError, DefinedType, DefinedTypeId, Enum, FuncType, FuncTypeId, Interface, ItemKind,
    ModuleType, PrimitiveType, Resource, Type, ValueType, World, WorldId,
};
use wac_graph::{
    CompositionGraph, EncodeOptions, Error, InstantiationArgumentError, Node, NodeId, PackageId,
    Reason,
};

// A call that takes memory. What it is made on is what the calls before it made.
#[derive(Clone, Copy)]
enum Call {
    Resource,
    Func,
    Enumeration,
    Interface,
    World,
    Module,
    // A package of the world.
    NewPackage,
    // Another package of the world, and it is registered.
    Register,
    Import,
    Instantiate,
    // The function that the instance exports.
    Alias,
    // The import becomes the argument of the instance.
    Set,
    Export,
    Name,
    // The enumeration is defined.
    Define,
    // A type is added by one call.
    Short(ShortCall),
    // A package is added by one call.
    Package,
    // The dependencies of the definition.
    Dependencies,
    // The reason of an error.
    Reason,
    // An argument is taken away under a name that no import has.
    Misnamed,
    Clone,
    // The node of the instance.
    CloneNode,
    // The kind of that node.
    CloneKind,
    Encode,
}

const CALLS: &[Call] = &[
    Call::Resource,
    Call::Func,
    Call::Enumeration,
    Call::Interface,
    Call::World,
    Call::Module,
    Call::NewPackage,
    Call::Register,
    Call::Import,
    Call::Instantiate,
    Call::Alias,
    Call::Set,
    Call::Export,
    Call::Name,
    Call::Define,
    Call::Short(ShortCall::Record(&[("f", BOOL)])),
    Call::Short(ShortCall::Variant(&[("c", Some(BOOL))])),
    Call::Short(ShortCall::Enumeration(&["c"])),
    Call::Short(ShortCall::Flags(&["f"])),
    Call::Short(ShortCall::Tuple(&[BOOL])),
    Call::Short(ShortCall::List(BOOL)),
    Call::Short(ShortCall::Optional(BOOL)),
    Call::Short(ShortCall::Outcome(Some(BOOL), None)),
    Call::Short(ShortCall::Func(&[("p", BOOL)], None)),
    Call::Short(ShortCall::Instance("n:p/j", &[("f", FUNC)])),
    Call::Package,
    Call::Dependencies,
    Call::Reason,
    Call::Misnamed,
    Call::Clone,
    Call::CloneNode,
    Call::CloneKind,
    Call::Encode,
];

const BOOL: ValueType = ValueType::Primitive(PrimitiveType::Bool);

const FUNC: ItemKind = ItemKind::Func(FuncTypeId(0));

const ENUMERATION: Type = Type::Value(ValueType::Defined(DefinedTypeId(0)));

const WORLD: WorldId = WorldId(0);

// The nodes, in the order in which they are made.
const IMPORTED: NodeId = NodeId(0);

const INSTANCE: NodeId = NodeId(1);

const ALIAS: NodeId = NodeId(2);

const DEFINED: NodeId = NodeId(3);

// A graph on which calls are made.
struct Made {
    alloc: Global,
    graph: CompositionGraph,
}

impl Drop for Made {
    fn drop(self) {
        let Made { alloc: _, graph: _ } = self;
    }
}

// Whether a type is added.
fn is_added(graph: &mut CompositionGraph, alloc: Global, call: Call) -> bool {
    match call {
        Call::Resource => match Resource::new(alloc, "r") {
            Ok(resource) => graph.add_resource(resource).is_ok(),
            Err(_) => false,
        },
        Call::Func => match FuncType::new(alloc, &[("p", BOOL)], Some(BOOL), false) {
            Ok(func) => graph.add_func_type(func).is_ok(),
            Err(_) => false,
        },
        Call::Enumeration => match Enum::new(alloc, &["a"]) {
            Ok(cases) => graph.add_defined_type(DefinedType::Enum(cases)).is_ok(),
            Err(_) => false,
        },
        Call::Interface => match Interface::new(alloc, Some("n:p/i"), &[("f", FUNC)]) {
            Ok(interface) => graph.add_interface(interface).is_ok(),
            Err(_) => false,
        },
        Call::World => match World::new(alloc, None, &[("f", FUNC)], &[("f", FUNC)]) {
            Ok(world) => graph.add_world(world).is_ok(),
            Err(_) => false,
        },
        _ => graph.add_module_type(ModuleType::new(alloc)).is_ok(),
    }
}

// Puts a row after others.
fn add(rt: &impl Abort, rows: &mut String, row: Result<String, AllocError>) {
    let row = row.expect(rt, "a row");
    rows.push_str(row.as_str()).expect(rt, "room for a row");
}

// The package that is registered.
fn package_id(rt: &impl Abort, graph: &CompositionGraph) -> PackageId {
    let (id, _) = graph
        .get_package_by_name("n:p", None)
        .expect(rt, "a package");
    id
}

impl Made {
    fn new(alloc: Global) -> Made {
        Made {
            alloc,
            graph: CompositionGraph::new(alloc),
        }
    }

    // Whether a package of the world is made, and registered if that is asked.
    fn is_packed(&mut self, rt: &impl Abort, registers: bool) -> bool {
        let held = self.graph.types().contains(Type::World(WORLD));
        assert!(rt; held);
        let Ok(bytes) = Vec::from_array(self.alloc, [0]) else {
            return false;
        };
        let Ok(package) = self.graph.new_package("n:p", None, bytes, WORLD) else {
            return false;
        };
        if registers {
            return self.graph.register_package(package).is_ok();
        }
        true
    }

    // Whether a package is added by one call.
    fn is_added_as_package(&mut self) -> bool {
        let Ok(bytes) = Vec::from_array(self.alloc, [0]) else {
            return false;
        };
        let items = [("f", FUNC)];
        let added = self.graph.add_package("n:q", None, bytes, &items, &items);
        added.is_ok()
    }

    fn is_aliased(&mut self, rt: &impl Abort) -> bool {
        let held = self.graph.has_node(INSTANCE);
        assert!(rt; held);
        self.graph.alias_instance_export(INSTANCE, "f").is_ok()
    }

    fn is_named(&mut self, rt: &impl Abort) -> bool {
        let held = self.graph.has_node(INSTANCE);
        assert!(rt; held);
        self.graph.set_node_name(INSTANCE, "n").is_ok()
    }

    // Whether an argument that is taken away is refused by its name.
    fn is_misnamed(&mut self, rt: &impl Abort) -> bool {
        let held = self.graph.has_node(INSTANCE);
        assert!(rt; held);
        let answer = self
            .graph
            .unset_instantiation_argument(INSTANCE, "g", IMPORTED);
        matches!(
            answer,
            Err(InstantiationArgumentError::InvalidArgumentName { .. })
        )
    }

    fn is_node_cloned(&self, rt: &impl Abort) -> bool {
        let held = self.graph.has_node(INSTANCE);
        assert!(rt; held);
        self.graph[INSTANCE].clone().is_ok()
    }

    fn is_kind_cloned(&self, rt: &impl Abort) -> bool {
        let held = self.graph.has_node(INSTANCE);
        assert!(rt; held);
        self.graph[INSTANCE].kind().clone().is_ok()
    }

    // Makes a call. Returns whether it was not refused.
    fn is_made(&mut self, rt: &impl Abort, call: Call) -> bool {
        match call {
            Call::NewPackage => self.is_packed(rt, false),
            Call::Register => self.is_packed(rt, true),
            Call::Import => import(rt, &mut self.graph, "f", FUNC).is_ok(),
            Call::Instantiate => {
                let id = package_id(rt, &self.graph);
                instantiate(rt, &mut self.graph, id).is_ok()
            }
            Call::Alias => self.is_aliased(rt),
            Call::Set => set(rt, &mut self.graph, INSTANCE, "f", IMPORTED).is_ok(),
            Call::Export => export(rt, &mut self.graph, ALIAS, "e").is_ok(),
            Call::Name => self.is_named(rt),
            Call::Define => define(rt, &mut self.graph, "d", ENUMERATION).is_ok(),
            Call::Short(call) => make(&mut self.graph, call).is_ok(),
            Call::Package => self.is_added_as_package(),
            Call::Dependencies => self.graph.dependencies(DEFINED).is_ok(),
            Call::Reason => {
                let error = Error::from(AddTypeError::NotHeld);
                error.with_reason(self.alloc).is_ok()
            }
            Call::Misnamed => self.is_misnamed(rt),
            Call::Clone => self.graph.clone().is_ok(),
            Call::CloneNode => self.is_node_cloned(rt),
            Call::CloneKind => self.is_kind_cloned(rt),
            Call::Encode => self.graph.encode(EncodeOptions::default()).is_ok(),
            call => is_added(&mut self.graph, self.alloc, call),
        }
    }

    // What look-ups return for a node, and its arguments.
    fn details(&self, rt: &impl Abort, id: NodeId, node: &Node) -> String {
        let held = self.graph.has_node(id);
        assert!(rt; held);
        let imported = self.graph.get_import_name(id).unwrap_or("no name");
        let text = format!(in self.alloc; "{id}: {node:?}, {imported}; ");
        let mut rows = text.expect(rt, "a row");
        if let Some((source, name)) = self.graph.get_alias_source(id) {
            add(rt, &mut rows, format!(in self.alloc; "{source} {name}; "));
        }
        for (name, argument) in self.graph.get_instantiation_arguments(id) {
            let row = format!(in self.alloc; "{name}: {argument}; ");
            add(rt, &mut rows, row);
        }
        rows
    }

    // What look-ups return for a name.
    fn found(&self, rt: &impl Abort, name: &str) -> String {
        let text = match self.graph.get_export(name) {
            Some(node) => format!(in self.alloc; "{name}: {node}; "),
            None => format!(in self.alloc; "{name}: no node; "),
        };
        text.expect(rt, "a row")
    }

    // The packages and the imports.
    fn listed_packages(&self, rt: &impl Abort) -> String {
        let mut rows = String::new(self.alloc);
        for (_, package) in self.graph.packages() {
            add(rt, &mut rows, format!(in self.alloc; "{package:?}; "));
        }
        if self.graph.get_package_by_name("n:p", None).is_some() {
            rows.push_str("n:p; ").expect(rt, "room for a row");
        }
        for (name, kind, node) in self.graph.imports() {
            let is_explicit = node.is_some();
            let row = format!(in self.alloc; "{name}: {kind:?}, {is_explicit}; ");
            add(rt, &mut rows, row);
        }
        rows
    }

    // The types, but for a call that first adds types of a package.
    fn listed_types(&self, rt: &impl Abort, call: Call) -> String {
        let types = self.graph.types();
        match call {
            Call::Register | Call::Package => String::new(self.alloc),
            _ => format!(in self.alloc; "{types:?}; ").expect(rt, "a row"),
        }
    }

    // The types, and what iterators and look-ups return.
    fn listed(&self, rt: &impl Abort, call: Call) -> String {
        let mut rows = self.listed_types(rt, call);
        for (id, node) in self.graph.nodes() {
            add(rt, &mut rows, Ok(self.details(rt, id, node)));
        }
        for id in self.graph.node_ids() {
            add(rt, &mut rows, format!(in self.alloc; "{id}; "));
        }
        for name in ["d", "e", "f"] {
            add(rt, &mut rows, Ok(self.found(rt, name)));
        }
        add(rt, &mut rows, Ok(self.listed_packages(rt)));
        rows
    }
}

// The other graph is one on which the same calls were made.
#[test]
fn a_refused_call_changes_nothing(rt: HostRuntime) {
    let mut made = Made::new(rt.alloc());
    let mut other = Made::new(rt.alloc());
    for call in CALLS {
        if !made.is_made(&rt, *call) {
            let text = made.listed(&rt, *call);
            let want = other.listed(&rt, *call);
            assert_eq!(rt; text.as_str(), want.as_str());
            assert_row(&rt, made.is_made(&rt, *call), "a call that is made again");
        }
        assert_row(&rt, other.is_made(&rt, *call), "out of memory");
    }
}

// Iterators and look-ups take no memory.
fn assert_found(rt: &impl Abort, graph: &CompositionGraph) {
    assert_row(rt, graph.nodes().count() == 4, "nodes");
    assert_row(rt, graph.node_ids().count() == 4, "ids of nodes");
    assert_row(rt, graph.packages().next().is_some(), "packages");
    assert_row(rt, graph.imports().next().is_some(), "imports");
    let argument = graph.get_instantiation_arguments(INSTANCE).next();
    assert_row(rt, argument.is_some(), "an argument");
    assert_row(rt, graph.get_export("e") == Some(ALIAS), "an export");
    let source = graph.get_alias_source(ALIAS);
    assert_row(rt, source == Some((INSTANCE, "f")), "a source");
    let held = graph.has_node(IMPORTED);
    assert!(rt; held);
    let name = graph.get_import_name(IMPORTED);
    assert_row(rt, name == Some("f"), "a name of an import");
}

// What takes something away takes no memory.
fn take_away(rt: &impl Abort, graph: &mut CompositionGraph) {
    let held = graph.has_node(INSTANCE);
    assert!(rt; held);
    let unset = graph.unset_instantiation_argument(INSTANCE, "f", IMPORTED);
    assert_row(rt, unset.is_ok(), "an argument is taken away");
    let unexported = unexport(rt, graph, ALIAS);
    assert_row(rt, unexported.is_ok(), "an export is taken away");
    remove(rt, graph, DEFINED);
    let id = package_id(rt, graph);
    let held = graph.has_package(id);
    assert!(rt; held);
    graph.unregister_package(id);
    assert_row(rt, graph.nodes().count() == 1, "the import is left");
}

// `tools/refused` refuses this test all growths from one on, so that what follows the last has no memory.
#[test]
fn look_ups_and_removals_succeed_without_memory(rt: HostRuntime) {
    let mut made = Made::new(rt.alloc());
    for call in CALLS {
        assert_row(&rt, made.is_made(&rt, *call), "out of memory");
    }
    let _ = String::from_str(rt.alloc(), "the last growth");
    let empty = CompositionGraph::new(rt.alloc());
    assert_row(&rt, empty.nodes().next().is_none(), "a new graph");
    assert_found(&rt, &made.graph);
    take_away(&rt, &mut made.graph);
}
