// Calls on a graph as the rows of a table, each with what it answers.
ghost use Rattle.std.specs.Prelude.{IsSome};
ghost use Rattle.wac_graph_model.specs.nodes.Graph.{node_at};

use crate::parts::{self, encode, function, instance, package_name};
use std::alloc::{AllocError, Global};
use std::fmt::Display;
use std::process::Abort;
use wac_graph::types::{
    CoreExtern, CoreFuncType, DefinedType, Enum, ItemKind, ModuleType, PrimitiveType, Type,
    ValueType, WorldId,
};
use wac_graph::{
    CompositionGraph, EncodeError, EncodeOptions, MergeFault, NodeId, NodeKind, PackageId,
    Processor,
};
use wac_graph_model::inner::slot_of;

const PREAMBLE: &str = "0061736d0d000100";

const BOOL: ValueType = ValueType::Primitive(PrimitiveType::Bool);

/// What a package imports or exports.
#[derive(Clone, Copy)]
pub enum Item {
    // A function without parameters and result.
    Plain,
    // A function with a parameter.
    Other,
    // A function without parameters that gives a bool.
    Telling,
    // An instance that exports a function of this name, without parameters and result.
    Exporting(&'static str),
    // An instance that exports a function of this name, without parameters, that gives a bool.
    ExportingTelling(&'static str),
    // An instance without exports.
    Empty,
    // A core module that imports the function `f` of `m` and exports the memory `e`.
    Module,
    // A component that imports a function `f` and exports a function `g`, both without parameters and result.
    Component,
    // The type of a world of an id that imports and exports these.
    World,
    // An instance of an interface of this name, which uses the type of this name of the interface of that name.
    Using(&'static str, &'static str, &'static str),
}

/// How a graph is encoded.
#[derive(Clone, Copy)]
pub enum How {
    // As a user does who asks for nothing.
    Plain,
    // Without a look at the names.
    Unchecked,
    // With the components of packages imported.
    Imported,
    // With a processor that is named.
    Processed,
}

/// A call. A package or a node is meant by its place among those that were answered.
#[derive(Clone, Copy)]
pub enum Call<'a> {
    // A package of this name, with one import or none, and one export or none.
    Register(&'a str, &'a [(&'a str, Item)], &'a [(&'a str, Item)]),
    Instantiate(usize),
    Alias(usize, &'a str),
    // A node is given this argument, a node.
    Set(usize, &'a str, usize),
    Export(usize, &'a str),
    // An import of this name.
    Import(&'a str, Item),
    // This argument, a node, is taken away from a node.
    Unset(usize, &'a str, usize),
    Unexport(usize),
    // A node has this name.
    Name(usize, &'a str),
    // What a node's name is.
    Named(usize),
    // Of which node, and which of its exports, a node is the alias.
    Source(usize),
    // The node that is exported by this name.
    Exported(&'a str),
    Remove(usize),
    Unregister(usize),
    // Whether a package is registered.
    Registered(usize),
    // Whether a node is there.
    Has(usize),
    // How many imports of an instantiation have an argument.
    Satisfied(usize),
    // The nodes, each with what it is, and their ids.
    Nodes,
    // The packages, each by its slot.
    Packages,
    // The arguments of the node of this number, each by its import's name.
    Arguments(usize),
    // The bytes that are encoded, in hexadecimal, or the text of the refusal.
    Encode(How),
    // Nothing where the bytes that are encoded are the preamble and these sections.
    Sections(&'a [&'a str]),
    // What the refusal of `encode` names; nothing where bytes are answered.
    Refusal,
    // The imports that the graph asks for.
    Asked,
    // What a node is.
    Described(usize),
    // The name by which a node is imported.
    Imported(usize),
}

/// Calls, each with what it answers.
pub type Rows = &'static [(Call<'static>, &'static str)];

impl Call<'_> {
    // Whether something is taken away.
    fn is_removal(&self) -> bool {
        matches!(self, Call::Unset(..) | Call::Unexport(_) | Call::Remove(_))
    }
}

/// A graph, and what it answered so far.
pub struct Bench {
    alloc: Global,
    graph: CompositionGraph,
    packages: Vec<PackageId>,
    nodes: Vec<NodeId>,
}

impl Drop for Bench {
    fn drop(self) {
        let Bench {
            alloc: _,
            graph: _,
            packages: _,
            nodes: _,
        } = self;
    }
}

fn shown<T: Display + Drop>(rt: &impl Abort, alloc: Global, value: T) -> String {
    format!(in alloc; "{value}").expect(rt, "a text")
}

// The text that is shown for what a call answers; for an answer without a number it is empty.
fn answered<E: Display + Drop>(rt: &impl Abort, alloc: Global, answer: Result<(), E>) -> String {
    match answer {
        Ok(()) => String::new(alloc),
        Err(error) => shown(rt, alloc, error),
    }
}

// Whether this is the answer of a call for which memory was refused.
fn is_refused(answer: &str) -> bool {
    answer == "out of memory" || answer == "OutOfMemory" || answer == "memory allocation failed"
}

fn core_module(rt: &impl Abort, graph: &mut CompositionGraph) -> ItemKind {
    let alloc = graph.types().allocator();
    let mut module = ModuleType::new(alloc);
    let function = CoreFuncType::new(alloc, &[], &[]).expect(rt, "a function type");
    let imported = module.import(alloc, "m", "f", CoreExtern::Func(function));
    imported.expect(rt, "an import");
    let memory = CoreExtern::Memory {
        memory64: false,
        shared: false,
        initial: 1,
        maximum: None,
        page_size_log2: None,
    };
    module.export(alloc, "e", memory).expect(rt, "an export");
    parts::module(rt, graph, module)
}

// A world of this id that imports a function `f` and exports a function `g`.
fn sides(rt: &impl Abort, graph: &mut CompositionGraph, id: Option<&str>) -> WorldId {
    let item = function(rt, graph, &[], None);
    parts::world(rt, graph, id, &[("f", item)], &[("g", item)])
}

fn enumeration(rt: &impl Abort, graph: &mut CompositionGraph) -> ItemKind {
    let alloc = graph.types().allocator();
    let cases = Enum::new(alloc, &["a"]).expect(rt, "an enumeration");
    let value = parts::defined(rt, graph, DefinedType::Enum(cases));
    ItemKind::TypeItem(Type::Value(value))
}

fn using_instance(
    rt: &impl Abort,
    graph: &mut CompositionGraph,
    id: &str,
    name: &str,
    used: &str,
) -> ItemKind {
    let item = enumeration(rt, graph);
    match instance(rt, graph, Some(used), &[], &[(name, item)]) {
        ItemKind::Instance(of) => {
            instance(rt, graph, Some(id), &[(name, of, None)], &[(name, item)])
        }
        _ => panic!(rt; "no instance"),
    }
}

fn options(how: How) -> EncodeOptions<'static> {
    let plain = EncodeOptions::default();
    match how {
        How::Plain => plain,
        How::Unchecked => EncodeOptions {
            validate: false,
            ..plain
        },
        How::Imported => EncodeOptions {
            define_components: false,
            ..plain
        },
        How::Processed => EncodeOptions {
            processor: Some(Processor {
                name: "x",
                version: "1",
            }),
            ..plain
        },
    }
}

/// On a graph on which the first calls of a pair were made, the others are answered so.
pub fn assert_tables(rt: &(impl Abort + AllocGlobal), tables: &[(Rows, Rows)]) {
    for (made, asked) in tables {
        let mut bench = Bench::new(rt.alloc());
        bench.calls(rt, made);
        bench.calls(rt, asked);
    }
}

// Puts a row behind others.
fn add(rt: &impl Abort, rows: &mut String, row: Result<String, AllocError>) {
    let row = row.expect(rt, "a row");
    rows.push_str(row.as_str()).expect(rt, "room for a row");
}

impl Bench {
    /// An empty graph.
    pub fn new(alloc: Global) -> Bench {
        Bench {
            alloc,
            graph: CompositionGraph::new(alloc),
            packages: Vec::new(alloc),
            nodes: Vec::new(alloc),
        }
    }

    fn kind(&mut self, rt: &impl Abort, item: Item) -> ItemKind {
        let graph = &mut self.graph;
        match item {
            Item::Plain => function(rt, graph, &[], None),
            Item::Other => function(rt, graph, &[("p", BOOL)], None),
            Item::Telling => function(rt, graph, &[], Some(BOOL)),
            Item::Exporting(name) => {
                let item = function(rt, graph, &[], None);
                instance(rt, graph, None, &[], &[(name, item)])
            }
            Item::ExportingTelling(name) => {
                let item = function(rt, graph, &[], Some(BOOL));
                instance(rt, graph, None, &[], &[(name, item)])
            }
            Item::Empty => instance(rt, graph, None, &[], &[]),
            Item::Module => core_module(rt, graph),
            Item::Component => ItemKind::Component(sides(rt, graph, None)),
            Item::World => ItemKind::TypeItem(Type::World(sides(rt, graph, Some("n:p/w")))),
            Item::Using(id, name, used) => using_instance(rt, graph, id, name, used),
        }
    }

    fn kinds<'a>(
        &mut self,
        rt: &impl Abort,
        items: &[(&'a str, Item)],
    ) -> Vec<(&'a str, ItemKind)> {
        let mut kinds = Vec::new(self.alloc);
        for (name, item) in items {
            let kind = self.kind(rt, *item);
            kinds.push((*name, kind)).expect(rt, "room for an item");
        }
        kinds
    }

    fn register(
        &mut self,
        rt: &impl Abort,
        name: &str,
        imports: &[(&str, Item)],
        exports: &[(&str, Item)],
    ) -> String {
        let imports = self.kinds(rt, imports);
        let exports = self.kinds(rt, exports);
        let graph = &mut self.graph;
        match parts::register(rt, graph, (name, None), &imports, &exports) {
            Ok(id) => {
                self.packages.push(id).expect(rt, "room for a package");
                String::new(self.alloc)
            }
            Err(error) => shown(rt, self.alloc, error),
        }
    }

    // The node at a place, there or not.
    fn node_id(&self, rt: &impl Abort, place: usize) -> NodeId {
        *self.nodes.get(place).expect(rt, "a node")
    }

    // The node at a place, which is there.
    fn node(&self, rt: &impl Abort, place: usize) -> NodeId
        ensures { IsSome (node_at self.now.graph result) }
    {
        let node = self.node_id(rt, place);
        let held = self.graph.has_node(node);
        assert!(rt; held);
        node
    }

    // The package at a place, registered or not.
    fn package_id(&self, rt: &impl Abort, place: usize) -> PackageId {
        *self.packages.get(place).expect(rt, "a package")
    }

    // A node that was made is kept, and its number shown.
    fn made<E: Display + Drop>(&mut self, rt: &impl Abort, answer: Result<NodeId, E>) -> String {
        match answer {
            Ok(node) => {
                self.nodes.push(node).expect(rt, "room for a node");
                shown(rt, self.alloc, node)
            }
            Err(error) => shown(rt, self.alloc, error),
        }
    }

    fn instantiate(&mut self, rt: &impl Abort, place: usize) -> String {
        let id = self.package_id(rt, place);
        let answer = parts::instantiate(rt, &mut self.graph, id);
        self.made(rt, answer)
    }

    fn alias(&mut self, rt: &impl Abort, place: usize, name: &str) -> String {
        let instance = self.node(rt, place);
        let answer = self.graph.alias_instance_export(instance, name);
        self.made(rt, answer)
    }

    fn set(&mut self, rt: &impl Abort, place: usize, name: &str, argument: usize) -> String {
        let instantiation = self.node_id(rt, place);
        let argument = self.node_id(rt, argument);
        let answer = parts::set(rt, &mut self.graph, instantiation, name, argument);
        answered(rt, self.alloc, answer)
    }

    fn export(&mut self, rt: &impl Abort, place: usize, name: &str) -> String {
        let node = self.node_id(rt, place);
        let answer = parts::export(rt, &mut self.graph, node, name);
        answered(rt, self.alloc, answer)
    }

    fn import(&mut self, rt: &impl Abort, name: &str, item: Item) -> String {
        let kind = self.kind(rt, item);
        let answer = parts::import(rt, &mut self.graph, name, kind);
        self.made(rt, answer)
    }

    fn unset(&mut self, rt: &impl Abort, place: usize, name: &str, argument: usize) -> String {
        let instantiation = self.node(rt, place);
        let argument = self.node(rt, argument);
        let answer = self
            .graph
            .unset_instantiation_argument(instantiation, name, argument);
        answered(rt, self.alloc, answer)
    }

    fn unexport(&mut self, rt: &impl Abort, place: usize) -> String {
        let node = self.node_id(rt, place);
        let answer = parts::unexport(rt, &mut self.graph, node);
        answered(rt, self.alloc, answer)
    }

    fn name(&mut self, rt: &impl Abort, place: usize, name: &str) -> String {
        let node = self.node(rt, place);
        let answer = self.graph.set_node_name(node, name);
        answered(rt, self.alloc, answer)
    }

    fn copied(&self, rt: &impl Abort, text: &str) -> String {
        String::from_str(self.alloc, text).expect(rt, "a text")
    }

    fn named(&self, rt: &impl Abort, place: usize) -> String {
        let node = self.node(rt, place);
        self.copied(rt, self.graph[node].name().unwrap_or("no name"))
    }

    fn source(&self, rt: &impl Abort, place: usize) -> String {
        match self.graph.get_alias_source(self.node_id(rt, place)) {
            Some((node, name)) => format!(in self.alloc; "{node} {name}").expect(rt, "a text"),
            None => self.copied(rt, "none"),
        }
    }

    fn exported(&self, rt: &impl Abort, name: &str) -> String {
        match self.graph.get_export(name) {
            Some(node) => shown(rt, self.alloc, node),
            None => self.copied(rt, "none"),
        }
    }

    fn remove(&mut self, rt: &impl Abort, place: usize) -> String {
        let node = self.node_id(rt, place);
        parts::remove(rt, &mut self.graph, node);
        String::new(self.alloc)
    }

    fn unregister(&mut self, rt: &impl Abort, place: usize) -> String {
        let id = self.package_id(rt, place);
        let held = self.graph.has_package(id);
        assert!(rt; held);
        self.graph.unregister_package(id);
        String::new(self.alloc)
    }

    fn registered(&self, rt: &impl Abort, place: usize) -> String {
        shown(
            rt,
            self.alloc,
            self.graph.has_package(self.package_id(rt, place)),
        )
    }

    fn has(&self, rt: &impl Abort, place: usize) -> String {
        shown(rt, self.alloc, self.graph.has_node(self.node_id(rt, place)))
    }

    fn satisfied(&self, rt: &impl Abort, place: usize) -> String {
        let node = self.node(rt, place);
        match self.graph[node].kind() {
            NodeKind::Instantiation(positions) => shown(rt, self.alloc, positions.len()),
            _ => self.copied(rt, "none"),
        }
    }

    // The answer's number, or its error's text; an empty text for an answer without a number.
    fn call(&mut self, rt: &impl Abort, call: Call<'_>) -> String {
        match call {
            Call::Register(name, imports, exports) => self.register(rt, name, imports, exports),
            Call::Instantiate(place) => self.instantiate(rt, place),
            Call::Alias(place, name) => self.alias(rt, place, name),
            Call::Set(place, name, argument) => self.set(rt, place, name, argument),
            Call::Export(place, name) => self.export(rt, place, name),
            Call::Import(name, item) => self.import(rt, name, item),
            Call::Unset(place, name, argument) => self.unset(rt, place, name, argument),
            Call::Unexport(place) => self.unexport(rt, place),
            Call::Name(place, name) => self.name(rt, place, name),
            Call::Named(place) => self.named(rt, place),
            Call::Source(place) => self.source(rt, place),
            Call::Exported(name) => self.exported(rt, name),
            Call::Remove(place) => self.remove(rt, place),
            Call::Unregister(place) => self.unregister(rt, place),
            Call::Registered(place) => self.registered(rt, place),
            Call::Has(place) => self.has(rt, place),
            Call::Satisfied(place) => self.satisfied(rt, place),
            Call::Nodes => self.listed_nodes(rt),
            Call::Packages => self.listed_packages(rt),
            Call::Arguments(number) => self.listed_arguments(rt, NodeId(number)),
            Call::Encode(how) => self.encoded(rt, options(how)),
            Call::Sections(want) => self.sections(rt, want),
            Call::Refusal => self.refused(rt),
            Call::Asked => self.asked(rt),
            Call::Described(place) => self.described(rt, place),
            Call::Imported(place) => self.imported(rt, place),
        }
    }

    /// Makes the calls. One that is refused for want of memory changed nothing: made again it answers as if it had not
    /// been refused. What takes something away is never refused for that.
    pub fn calls(&mut self, rt: &impl Abort, rows: &[(Call<'_>, &str)]) {
        for (call, want) in rows {
            let mut answer = self.call(rt, *call);
            if is_refused(answer.as_str()) {
                assert!(rt; !call.is_removal() || !want.is_empty());
                answer = self.call(rt, *call);
            }
            assert_eq!(rt; answer.as_str(), *want);
        }
    }

    // The bytes in hexadecimal, or the error's text.
    fn encoded(&self, rt: &impl Abort, options: EncodeOptions<'_>) -> String {
        match encode(&self.graph, options) {
            Ok(bytes) => hex::encode(self.alloc, &bytes).expect(rt, "a text"),
            Err(error) => shown(rt, self.alloc, error),
        }
    }

    // Nothing where the bytes are the preamble and these sections, and what is answered otherwise.
    fn sections(&self, rt: &impl Abort, want: &[&str]) -> String {
        let text = self.encoded(rt, EncodeOptions::default());
        let want = want.concat(self.alloc).expect(rt, "a text");
        if text.as_str().strip_prefix(PREAMBLE) == Some(want.as_str()) {
            return String::new(self.alloc);
        }
        text
    }

    // The export in which two imports differ.
    fn differing(&self, rt: &impl Abort, fault: &MergeFault) -> String {
        match fault {
            MergeFault::Disagree { export, .. } => {
                format!(in self.alloc; "Disagree `{export}`").expect(rt, "a text")
            }
            _ => String::new(self.alloc),
        }
    }

    // What a refusal names: the node of a cycle, or the import, the instantiation, its package and the name, or an import
    // that cannot be merged, the nodes that ask for it and the export that differs, or one of a circle, or names.
    fn cause(&self, rt: &impl Abort, error: &EncodeError) -> String {
        let alloc = self.alloc;
        let text = match error {
            EncodeError::GraphContainsCycle { node } => format!(in alloc; "{node}"),
            EncodeError::ImplicitImportConflict {
                import,
                instantiation,
                package,
                name,
            } => format!(in alloc; "{import}, {instantiation}, {package}, {name}"),
            EncodeError::ImportTypeMergeConflict {
                import,
                first,
                second,
                source,
            } => {
                let differs = self.differing(rt, source);
                format!(in alloc; "{import}, {first}, {second}, {differs}")
            }
            EncodeError::ExplicitImportMergeConflict {
                import,
                node,
                other,
            } => format!(in alloc; "{import}, {node}, {other}"),
            EncodeError::ImportsUseEachOther { import } => format!(in alloc; "{import}"),
            EncodeError::ValidationFailure { source } => {
                return parts::invalid(rt, alloc, source);
            }
            _ => return String::new(alloc),
        };
        text.expect(rt, "a text")
    }

    // What the refusal names; nothing where bytes are answered.
    fn refused(&self, rt: &impl Abort) -> String {
        match encode(&self.graph, EncodeOptions::default()) {
            Ok(_) => String::new(self.alloc),
            Err(error) => self.cause(rt, &error),
        }
    }

    // What the node at a place is: its kind, its item, its package, and the names by which it is imported
    // and exported.
    fn described(&self, rt: &impl Abort, place: usize) -> String {
        let id = self.node(rt, place);
        let node = &self.graph[id];
        let kind = match node.kind() {
            NodeKind::Definition => "definition",
            NodeKind::Import(_) => "import",
            NodeKind::Instantiation(_) => "instantiation",
            NodeKind::Alias => "alias",
        };
        let item = node.item_kind().desc(self.graph.types());
        let package = package_name(rt, &self.graph, node.package());
        let imported = node.import_name().unwrap_or("no name");
        let exported = node.export_name().unwrap_or("no name");
        let text = format!(in self.alloc; "{kind}, {item}, {package}, {imported}, {exported}");
        text.expect(rt, "a text")
    }

    fn imported(&self, rt: &impl Abort, place: usize) -> String {
        let node = self.node(rt, place);
        self.copied(rt, self.graph.get_import_name(node).unwrap_or("no name"))
    }

    // The imports that the graph asks for, each with its name, what it is and, of an import node, the node.
    fn asked(&self, rt: &impl Abort) -> String {
        let mut rows = String::new(self.alloc);
        for (name, kind, node) in self.graph.imports() {
            let kind = kind.desc(self.graph.types());
            let row = match node {
                Some(node) => format!(in self.alloc; "{name}: {kind}, {node}; "),
                None => format!(in self.alloc; "{name}: {kind}; "),
            };
            add(rt, &mut rows, row);
        }
        rows
    }

    /// A clone of the graph, with what was answered so far.
    pub fn cloned(&self, rt: &impl Abort) -> Bench {
        Bench {
            alloc: self.alloc,
            graph: self.graph.clone().expect(rt, "a clone"),
            packages: self.packages.clone().expect(rt, "a clone"),
            nodes: self.nodes.clone().expect(rt, "a clone"),
        }
    }

    // The nodes, each with what it is, and their ids.
    fn listed_nodes(&self, rt: &impl Abort) -> String {
        let mut rows = String::new(self.alloc);
        for (id, node) in self.graph.nodes() {
            let item = node.item_kind().desc(self.graph.types());
            add(rt, &mut rows, format!(in self.alloc; "{id}: {item}; "));
        }
        for id in self.graph.node_ids() {
            add(rt, &mut rows, format!(in self.alloc; "{id}; "));
        }
        rows
    }

    // The packages, each by its slot.
    fn listed_packages(&self, rt: &impl Abort) -> String {
        let mut rows = String::new(self.alloc);
        for (id, package) in self.graph.packages() {
            let slot = slot_of(id);
            let name = package.name();
            add(rt, &mut rows, format!(in self.alloc; "{slot}: {name}; "));
        }
        rows
    }

    // The arguments of a node, each by its import's name.
    fn listed_arguments(&self, rt: &impl Abort, id: NodeId) -> String {
        let mut rows = String::new(self.alloc);
        for (name, node) in self.graph.get_instantiation_arguments(id) {
            add(rt, &mut rows, format!(in self.alloc; "{name}: {node}; "));
        }
        rows
    }
}
