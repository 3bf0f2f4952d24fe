// What the graphs of tests are made of. What a graph is asked is called here, each call in one function.
use semver::Version;
use std::alloc::{AllocError, Global};
use std::fmt::Display;
use std::process::Abort;
use wac_graph::types::{
    DefinedType, FuncType, Interface, InterfaceId, ItemKind, ModuleType, Type, ValueType, World,
    WorldId,
};
use wac_graph::{
    CompositionGraph, DefineTypeError, EncodeError, EncodeOptions, ExportError, ImportError,
    InstantiationArgumentError, NodeId, PackageId, RegisterPackageError, UnexportError,
    ValidationFault,
};

// A component with nothing in it: the eight bytes of the preamble alone.
const EMPTY_COMPONENT: [u8; 8] = [0x00, 0x61, 0x73, 0x6d, 0x0d, 0x00, 0x01, 0x00];

/// What a row says holds.
pub fn assert_row(rt: &impl Abort, holds: bool, what: &str) {
    assert!(rt; holds, "{what}");
}

/// A value is displayed as this text.
pub fn assert_displayed<T: Display>(rt: &(impl Abort + AllocGlobal), value: &T, want: &str) {
    let text = format!(in rt.alloc(); "{value}").expect(rt, want);
    assert_row(rt, text.as_str() == want, want);
}

/// What is wrong with names.
pub fn invalid(rt: &impl Abort, alloc: Global, fault: &ValidationFault) -> String {
    let text = match fault {
        ValidationFault::BadName { name } => format!(in alloc; "BadName `{name}`"),
        ValidationFault::Clash { first, second } => {
            format!(in alloc; "Clash `{first}`, `{second}`")
        }
        ValidationFault::NotExportable { name } => { format!(in alloc; "NotExportable `{name}`") }
    };
    text.expect(rt, "a text")
}

/// A function of a new type.
pub fn function(
    rt: &impl Abort,
    graph: &mut CompositionGraph,
    params: &[(&str, ValueType)],
    returned: Option<ValueType>,
) -> ItemKind {
    let function = FuncType::new(graph.types().allocator(), params, returned, false).expect(
        rt,
        "a function type",
    );
    ItemKind::Func(graph.add_func_type(function).expect(rt, "its id"))
}

/// An instance of a new interface, which uses and lists these.
pub fn instance(
    rt: &impl Abort,
    graph: &mut CompositionGraph,
    id: Option<&str>,
    uses: &[(&str, InterfaceId, Option<&str>)],
    items: &[(&str, ItemKind)],
) -> ItemKind {
    let interface = Interface::with_uses(graph.types().allocator(), id, uses, items);
    let interface = interface.expect(rt, "an interface");
    ItemKind::Instance(graph.add_interface(interface).expect(rt, "its id"))
}

/// The type of a new definition.
pub fn defined(
    rt: &impl Abort,
    graph: &mut CompositionGraph,
    definition: DefinedType,
) -> ValueType {
    ValueType::Defined(graph.add_defined_type(definition).expect(rt, "its id"))
}

/// A core module of a new type.
pub fn module(rt: &impl Abort, graph: &mut CompositionGraph, module: ModuleType) -> ItemKind {
    ItemKind::Module(graph.add_module_type(module).expect(rt, "its id"))
}

/// A new world, which imports and exports these.
pub fn world(
    rt: &impl Abort,
    graph: &mut CompositionGraph,
    id: Option<&str>,
    imports: &[(&str, ItemKind)],
    exports: &[(&str, ItemKind)],
) -> WorldId {
    let world = World::new(graph.types().allocator(), id, imports, exports);
    let world = world.expect(rt, "a world");
    graph.add_world(world).expect(rt, "its id")
}

/// Registers a package of a new world with these imports and exports, its bytes an empty component.
pub fn register(
    rt: &impl Abort,
    graph: &mut CompositionGraph,
    key: (&str, Option<&Version>),
    imports: &[(&str, ItemKind)],
    exports: &[(&str, ItemKind)],
) -> Result<PackageId, RegisterPackageError> {
    let world = world(rt, graph, None, imports, exports);
    let held = graph.types().contains(Type::World(world));
    assert!(rt; held);
    let bytes = Vec::from_array(graph.types().allocator(), EMPTY_COMPONENT).expect(rt, "bytes");
    let package = graph.new_package(key.0, key.1, bytes, world);
    graph.register_package(package.expect(rt, "a package"))
}

/// Makes an instance of a package.
pub fn instantiate(
    rt: &impl Abort,
    graph: &mut CompositionGraph,
    package: PackageId,
) -> Result<NodeId, AllocError> {
    let held = graph.has_package(package);
    assert!(rt; held);
    graph.instantiate(package)
}

/// Imports an item.
pub fn import(
    rt: &impl Abort,
    graph: &mut CompositionGraph,
    name: &str,
    kind: ItemKind,
) -> Result<NodeId, ImportError> {
    let held = graph.types().contains(kind.ty());
    assert!(rt; held);
    graph.import(name, kind)
}

/// Exports a node.
pub fn export(
    rt: &impl Abort,
    graph: &mut CompositionGraph,
    node: NodeId,
    name: &str,
) -> Result<(), ExportError> {
    let held = graph.has_node(node);
    assert!(rt; held);
    graph.export(node, name)
}

/// Defines a type.
pub fn define(
    rt: &impl Abort,
    graph: &mut CompositionGraph,
    name: &str,
    ty: Type,
) -> Result<NodeId, DefineTypeError> {
    let held = graph.types().contains(ty);
    assert!(rt; held);
    graph.define_type(name, ty)
}

/// Gives an instance an argument.
pub fn set(
    rt: &impl Abort,
    graph: &mut CompositionGraph,
    node: NodeId,
    name: &str,
    argument: NodeId,
) -> Result<(), InstantiationArgumentError> {
    let held = graph.has_node(node);
    assert!(rt; held);
    let held = graph.has_node(argument);
    assert!(rt; held);
    graph.set_instantiation_argument(node, name, argument)
}

/// Takes the exports of a node away from it.
pub fn unexport(
    rt: &impl Abort,
    graph: &mut CompositionGraph,
    node: NodeId,
) -> Result<(), UnexportError> {
    let held = graph.has_node(node);
    assert!(rt; held);
    graph.unexport(node)
}

/// Removes a node.
pub fn remove(rt: &impl Abort, graph: &mut CompositionGraph, node: NodeId) {
    let held = graph.has_node(node);
    assert!(rt; held);
    graph.remove_node(node);
}

/// The name of a package that is registered.
pub fn package_name<'a>(
    rt: &impl Abort,
    graph: &'a CompositionGraph,
    id: Option<PackageId>,
) -> &'a str {
    let Some(id) = id else {
        return "no package";
    };
    let held = graph.has_package(id);
    assert!(rt; held);
    graph[id].name()
}

// What `encode` answers once.
fn encode_once(
    graph: &CompositionGraph,
    options: EncodeOptions<'_>,
) -> Result<Vec<u8>, EncodeError> {
    graph.encode(options)
}

/// What `encode` answers; asked once more where memory was refused.
pub fn encode(
    graph: &CompositionGraph,
    options: EncodeOptions<'_>,
) -> Result<Vec<u8>, EncodeError> {
    match encode_once(graph, options) {
        Err(EncodeError::OutOfMemory) => encode_once(graph, options),
        answer => answer,
    }
}
