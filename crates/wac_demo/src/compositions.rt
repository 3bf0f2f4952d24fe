//! The compositions that the program prints.

ghost use Rattle.std.specs.Prelude.{◌≡◌, ℕ, Some, IsSome, codes, IfOk, IsErr, map, slice_get, string_bytes};
ghost use Rattle.wac_types_shapes.specs.shapes.Named.{named_pairs};
ghost use Rattle.wac_graph_model.specs.nodes.Graph.{Graph, package_at};
ghost use Rattle.wac_graph_model.specs.nodes.Steps.{IsEmpty};
ghost use Rattle.wac_demo.specs.Composed.{AreDefault, Compose, IsCycle, IsFunction, IsReadme, IsPlugged, IsPrecedence, IsPlainFunction, IsEmptyPackage, IsResourceImport, IsUserDefinition, NameProcessor, RefusesCycle};
ghost use Rattle.wac_graph_model.specs.nodes.Stays.{Stays};
ghost use Rattle.wac_graph.specs.declared.plugs.precedence.PassedOver.{PassedOver as AMatch};
ghost use Rattle.wac_graph.specs.plugs.Precedence.{named_by};
ghost use Rattle.wac_demo.specs.Printed.{passed_line as line_of_second};
ghost use Rattle.wac_demo.specs.private.Lines.{match_line, lines_of};

use anyhow::Result;
use std::alloc::Global;
use wac_graph::types::{
    DefinedType, Enum, FuncType, Interface, ItemKind, Resource, Type, ValueType, World,
};
use wac_graph::{
    CompositionGraph, EncodeError, EncodeOptions, PackageId, PassedOver, Processor, plug,
};

/// The bytes of a component without sections.
pub const EMPTY_COMPONENT: [u8; 8] = [0x00, 0x61, 0x73, 0x6d, 0x0d, 0x00, 0x01, 0x00];

/// Encodes the empty graph.
pub fn empty(alloc: Global) -> Result<Vec<u8>>
    ensures { IfOk result (λ bytes. Compose bytes.items AreDefault IsEmpty) }
{
    let graph = CompositionGraph::new(alloc);
    Ok(graph.encode(EncodeOptions::default())?)
}

/// Encodes the empty graph with a processor.
pub fn processor(alloc: Global) -> Result<Vec<u8>>
    ensures { IfOk result (λ bytes. Compose bytes.items (NameProcessor (codes "x") (codes "1")) IsEmpty) }
{
    let empty = CompositionGraph::new(alloc);
    let processor = Some(Processor {
        name: "x",
        version: "1",
    });
    Ok(empty.encode(EncodeOptions {
        processor,
        ..EncodeOptions::default()
    })?)
}

/// Encodes a function that is imported as `x` and exported as `y`, with a node named `n`.
pub fn passed(alloc: Global) -> Result<Vec<u8>>
    ensures { IfOk result (λ bytes. Compose bytes.items AreDefault IsFunction) }
{
    let mut graph = CompositionGraph::new(alloc);
    let function = function(alloc, &mut graph)?;
    let node = graph.import("x", function)?;
    graph.export(node, "y")?;
    graph.set_node_name(node, "n")?;
    Ok(graph.encode(EncodeOptions::default())?)
}

/// Encodes two instances of packages: the function `a` of the first is the argument `b` of the second.
pub fn readme(alloc: Global) -> Result<Vec<u8>>
    ensures { IfOk result (λ bytes. Compose bytes.items AreDefault IsReadme) }
{
    let mut graph = CompositionGraph::new(alloc);
    let function = function(alloc, &mut graph)?;
    let first = register(alloc, &mut graph, "my:package1", &[], &[("a", function)])?;
    let giver = graph.instantiate(first)?;
    let a = graph.alias_instance_export(giver, "a")?;
    let second = register(alloc, &mut graph, "my:package2", &[("b", function)], &[])?;
    let taker = graph.instantiate(second)?;
    graph.set_instantiation_argument(taker, "b", a)?;
    Ok(graph.encode(EncodeOptions::default())?)
}

/// Encodes an import of an interface with a resource and a function that takes one.
pub fn resource(alloc: Global) -> Result<Vec<u8>>
    ensures { IfOk result (λ bytes. Compose bytes.items AreDefault IsResourceImport) }
{
    let mut graph = CompositionGraph::new(alloc);
    let plain = Resource::new(alloc, "r")?;
    let r = graph.add_resource(plain)?;
    let taker = FuncType::new(alloc, &[("x", ValueType::Own(r))], None, false)?;
    let f = graph.add_func_type(taker)?;
    let items = [
        ("r", ItemKind::TypeItem(Type::Resource(r))),
        ("f", ItemKind::Func(f)),
    ];
    let interface = Interface::new(alloc, Some("n:p/i"), &items)?;
    let id = graph.add_interface(interface)?;
    graph.import("n:p/i", ItemKind::Instance(id))?;
    Ok(graph.encode(EncodeOptions::default())?)
}

/// Encodes a definition of an interface that uses a type of another interface.
pub fn dependency(alloc: Global) -> Result<Vec<u8>>
    ensures { IfOk result (λ bytes. Compose bytes.items AreDefault IsUserDefinition) }
{
    let mut graph = CompositionGraph::new(alloc);
    let g = function(alloc, &mut graph)?;
    let cases = Enum::new(alloc, &["a"])?;
    let defined = graph.add_defined_type(DefinedType::Enum(cases))?;
    let t = ItemKind::TypeItem(Type::Value(ValueType::Defined(defined)));
    let exporter = Interface::new(alloc, Some("n:p/j"), &[("t", t), ("g", g)])?;
    let used = graph.add_interface(exporter)?;
    let uses = [("t", used, None)];
    let user = Interface::with_uses(alloc, Some("n:p/i"), &uses, &[("t", t)])?;
    let id = graph.add_interface(user)?;
    graph.define_type("d", Type::Interface(id))?;
    Ok(graph.encode(EncodeOptions::default())?)
}

/// Tries to encode an instance that is its own argument, which is an error.
pub fn cycle(alloc: Global) -> Result<Vec<u8>>
    ensures { IsErr result }
{
    Err(cycle_refusal(alloc)?.into())
}

/// Returns the error of encoding an instance that is its own argument.
pub fn cycle_refusal(alloc: Global) -> Result<EncodeError>
    ensures { IfOk result (λ e. (graph : Graph) × IsCycle graph × RefusesCycle graph e) }
{
    let mut graph = CompositionGraph::new(alloc);
    let instance = empty_instance(alloc, &mut graph)?;
    let package = register(alloc, &mut graph, "my:package", &[("i", instance)], &[])?;
    let node = graph.instantiate(package)?;
    graph.set_instantiation_argument(node, "i", node)?;
    Ok(graph.encode(EncodeOptions::default()).unwrap_err())
}

/// Encodes a plug that exports the function `a`, plugged into a socket that imports `a` and exports the function `run`.
pub fn plugged(alloc: Global) -> Result<Vec<u8>>
    ensures { IfOk result (λ bytes. Compose bytes.items AreDefault IsPlugged) }
{
    let mut graph = CompositionGraph::new(alloc);
    let function = function(alloc, &mut graph)?;
    let giver = register(alloc, &mut graph, "my:plug", &[], &[("a", function)])?;
    let socket = register(
        alloc,
        &mut graph,
        "my:socket",
        &[("a", function)],
        &[("run", function)],
    )?;
    let plugs = vec![in alloc; giver]?;
    graph.law(); // proof only
    plug(&mut graph, plugs, socket)?;
    graph.law(); // proof only
    Ok(graph.encode(EncodeOptions::default())?)
}

/// Encodes the first of two plugs that export the function `a`, plugged into a socket as in [`plugged`].
///
/// Returns the bytes, and a line for the match of the second plug, which is passed over.
pub fn precedence(alloc: Global) -> Result<(Vec<u8>, String)>
    ensures composed { IfOk result (λ r. Compose r.0.items AreDefault IsPrecedence) }
    ensures passed { IfOk result (λ r. string_bytes r.1 ≡ line_of_second) }
{
    let mut graph = CompositionGraph::new(alloc);
    let function = function(alloc, &mut graph)?;
    let first = register(alloc, &mut graph, "my:first", &[], &[("a", function)])?;
    let second = register(alloc, &mut graph, "my:second", &[], &[("a", function)])?;
    let run = ("run", function);
    let socket = register(alloc, &mut graph, "my:socket", &[("a", function)], &[run])?;
    let plugs = vec![in alloc; first, second]?;
    graph.law(); // proof only
    let passed = plug(&mut graph, plugs, socket)?;
    graph.law(); // proof only
    let lines = passed_lines(alloc, &graph, &passed)?;
    Ok((graph.encode(EncodeOptions::default())?, lines))
}

/// Returns a line for each match that is passed over, in order.
fn passed_lines(alloc: Global, graph: &CompositionGraph, passed: &[PassedOver]) -> Result<String>
    requires { (i : ℕ) (over : AMatch) → slice_get passed.now i ≡ Some over → IsSome (package_at graph.now over.plug) }
    ensures { IfOk result (λ lines. string_bytes lines ≡ lines_of graph.now (map named_by passed.now)) }
{
    let mut lines = String::new(alloc);
    for i in 0..passed.len() {
        let over = &passed[i];
        let line = passed_line(alloc, graph[over.plug].name(), over)?;
        lines.push_str(line.as_str())?;
    }
    Ok(lines)
}

/// Returns the line for a match of the plug with this name.
fn passed_line(alloc: Global, plug: &str, over: &PassedOver) -> Result<String>
    ensures { IfOk result (λ line. string_bytes line ≡ match_line plug.now (named_by over.now).match) }
{
    let export = over.export.as_str();
    let import = over.import.as_str();
    Ok(format!(in alloc; "passed over: {plug} {export} {import}\n")?)
}

/// Adds a function type without parameters and result.
pub fn function(alloc: Global, graph: &mut CompositionGraph) -> Result<ItemKind>
    ensures plain { IfOk result (λ kind. IsPlainFunction graph.new.types kind) }
    ensures stays { Stays graph.old graph.new }
{
    let function = FuncType::new(alloc, &[], None, false)?;
    Ok(ItemKind::Func(graph.add_func_type(function)?))
}

/// Adds an interface without exports.
pub fn empty_instance(alloc: Global, graph: &mut CompositionGraph) -> Result<ItemKind>
    ensures { Stays graph.old graph.new }
{
    let interface = Interface::new(alloc, None, &[])?;
    Ok(ItemKind::Instance(graph.add_interface(interface)?))
}

/// Registers a package of a new world with these imports and exports. Its bytes are an empty component.
pub fn register(
    alloc: Global,
    graph: &mut CompositionGraph,
    name: &str,
    imports: &[(&str, ItemKind)],
    exports: &[(&str, ItemKind)],
) -> Result<PackageId>
    ensures registered { IfOk result (λ id. IsEmptyPackage graph.new id name.now (named_pairs imports.now) (named_pairs exports.now)) }
    ensures stays { Stays graph.old graph.new }
{
    let world = graph.add_world(World::new(alloc, None, imports, exports)?)?;
    let bytes = Vec::from_array(alloc, EMPTY_COMPONENT)?;
    let package = graph.new_package(name, None, bytes, world)?;
    Ok(graph.register_package(package)?)
}
