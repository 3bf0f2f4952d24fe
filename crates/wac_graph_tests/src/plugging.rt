// Sockets and plugs as the rows of a table, each with what `plug` answers and which nodes it makes.
ghost use Rattle.std.specs.Prelude.{◌≡◌, ℕ, Some, IsSome, slice_get};
ghost use Rattle.wac_graph_model.specs.nodes.Graph.{package_at};
ghost use Rattle.wac_graph_model.specs.declared.nodes.packages.PackageId.{PackageId as AnId};

use crate::parts::{self, assert_displayed, assert_row, package_name};
use crate::tables::Row::{Func, Instance};
use crate::tables::{Item, Made, Row, Want, assert_encoded};
use std::process::Abort;
use wac_graph::types::{FuncTypeId, ItemKind, Type, ValueType};
use wac_graph::{
    CompositionGraph, ExportError, Node, NodeId, NodeKind, PackageId, PassedOver, PlugError,
    PlugFault, plug,
};

// The second of two plugs.
#[derive(Clone, Copy)]
enum Second {
    // There is one plug.
    Absent,
    // The first plug once more.
    Same,
    // A plug with these exports.
    Other(&'static [Item]),
}

// Plugs with these exports are plugged into a socket with these imports and exports.
struct Plugging {
    what: &'static str,
    first: &'static [Item],
    second: Second,
    imports: &'static [Item],
    exports: &'static [Item],
    // What is passed over, or the text of the refusal or of the error in it.
    answer: &'static str,
    // The nodes that are made, in order.
    nodes: &'static str,
    // The names of the socket's imports.
    asked: &'static str,
    // How many nodes there are when an import of the socket is satisfied, and the names of those that are not then; none
    // where no import is.
    passed: Option<(usize, &'static str)>,
}

// A function and an instance that exports it as `f`, for plugs; a function, one that exports it as `f` and one as `g`, for sockets.
const TYPES: &[Row] = &[
    Func(&[], None),
    Instance(None, &[("f", 0)]),
    Func(&[], None),
    Instance(None, &[("f", 2)]),
    Instance(None, &[("g", 2)]),
];

const NONE: &str = "the socket component had no matching imports for the plugs that were provided";

const REFUSED: &str = "out of memory";

const PLUG_A: &[Item] = &[("a", 0)];

const SOCKET_A: &[Item] = &[("a", 2)];

const RUN: &[Item] = &[("run", 2)];

// The matches that were passed over: the plug's package, the export and the import of each.
fn passed_over(
    rt: &(impl Abort + AllocGlobal),
    graph: &CompositionGraph,
    passed: &[PassedOver],
) -> String {
    let mut text = String::new(rt.alloc());
    for over in passed {
        let plug = package_name(rt, graph, Some(over.plug));
        let export = over.export.as_str();
        let import = over.import.as_str();
        let one = format!(in rt.alloc(); "{plug} {export} {import}; ").expect(rt, "a text");
        text.push_str(one.as_str()).expect(rt, "a text");
    }
    text
}

// What is passed over, or the text of the refusal or of the error in it.
fn answer(
    rt: &(impl Abort + AllocGlobal),
    graph: &CompositionGraph,
    plugged: Result<Vec<PassedOver>, PlugError>,
) -> String {
    let text = match plugged {
        Ok(passed) => return passed_over(rt, graph, &passed),
        Err(PlugError::GraphError { source }) => format!(in rt.alloc(); "{source}"),
        Err(error) => format!(in rt.alloc(); "{error}"),
    };
    text.expect(rt, "a text")
}

fn plug_all(
    graph: &mut CompositionGraph,
    plugs: Vec<PackageId>,
    socket: PackageId,
) -> Result<Vec<PassedOver>, PlugError>
    requires plugs { (i : ℕ) (id : AnId) → slice_get plugs.items i ≡ Some id → IsSome (package_at graph.old id) }
    requires socket { IsSome (package_at graph.old socket) }
{
    plug(graph, plugs, socket)
}

// The first plug, the second where there is one, and the socket.
type Packages = (PackageId, Option<PackageId>, PackageId);

fn plugged(
    rt: &(impl Abort + AllocGlobal),
    graph: &mut CompositionGraph,
    packages: Packages,
) -> Result<Vec<PassedOver>, PlugError> {
    let (first, second, socket) = packages;
    let held = graph.has_package(socket);
    assert!(rt; held);
    let held = graph.has_package(first);
    assert!(rt; held);
    let Some(second) = second else {
        let plugs = vec![in rt.alloc(); first].expect(rt, "a list");
        return plug_all(graph, plugs, socket);
    };
    let held = graph.has_package(second);
    assert!(rt; held);
    let plugs = vec![in rt.alloc(); first, second].expect(rt, "a list");
    plug_all(graph, plugs, socket)
}

// Registers the packages of a row.
fn registered(rt: &(impl Abort + AllocGlobal), made: &mut Made, row: &Plugging) -> Packages {
    let first = made.registered(rt, ("my:plug0", None), &[], row.first);
    let second = match row.second {
        Second::Absent => None,
        Second::Same => Some(first),
        Second::Other(exports) => Some(made.registered(rt, ("my:plug1", None), &[], exports)),
    };
    let socket = made.registered(rt, ("my:socket", None), row.imports, row.exports);
    (first, second, socket)
}

// What a node is, of which package, and under which name it is exported.
fn described(rt: &(impl Abort + AllocGlobal), graph: &CompositionGraph, node: &Node) -> String {
    let kind = match node.kind() {
        NodeKind::Definition => "definition",
        NodeKind::Import(_) => "import",
        NodeKind::Instantiation(_) => "instance",
        NodeKind::Alias => "alias",
    };
    let package = package_name(rt, graph, node.package());
    let text = match node.export_name() {
        Some(name) => format!(in rt.alloc(); "{kind} {package} as {name}"),
        None => format!(in rt.alloc(); "{kind} {package}"),
    };
    text.expect(rt, "a text")
}

// The nodes, by number.
fn nodes(rt: &(impl Abort + AllocGlobal), graph: &CompositionGraph) -> String {
    let mut nodes = String::new(rt.alloc());
    for (_, node) in graph.nodes() {
        if !nodes.is_empty() {
            nodes.push_str("; ").expect(rt, "a text");
        }
        let text = described(rt, graph, node);
        nodes.push_str(text.as_str()).expect(rt, "a text");
    }
    nodes
}

// The names of the imports that the graph asks for.
fn asked(rt: &(impl Abort + AllocGlobal), graph: &CompositionGraph) -> String {
    let mut names = String::new(rt.alloc());
    for (name, _, _) in graph.imports() {
        names.push_str(name).expect(rt, "a text");
        names.push_str("; ").expect(rt, "a text");
    }
    names
}

// Whether a graph asks for this once it has so many of the nodes of a row.
fn is_asked(row: &Plugging, count: usize, asked: &str) -> bool {
    match row.passed {
        _ if count == 0 => asked.is_empty(),
        Some((passed, left)) if count > passed => asked == left,
        Some((passed, left)) if count == passed => asked == left || asked == row.asked,
        _ => asked == row.asked,
    }
}

// The nodes of a row are made, or its first nodes where memory was refused; then the last may lack its export.
fn assert_made(
    rt: &(impl Abort + AllocGlobal),
    graph: &CompositionGraph,
    row: &Plugging,
    refused: bool,
) {
    let nodes = nodes(rt, graph);
    let begun = refused && row.nodes.starts_with(nodes.as_str());
    assert_row(rt, begun || nodes.as_str() == row.nodes, row.what);
    let asked = asked(rt, graph);
    let count = graph.node_ids().count();
    let is_begun = refused && row.asked.ends_with(asked.as_str());
    let is_asked = is_begun || is_asked(row, count, asked.as_str());
    assert_row(rt, is_asked, row.what);
}

// The packages of a row are plugged together in a new graph.
fn assert_plugged(rt: &(impl Abort + AllocGlobal), row: &Plugging) {
    let mut made = Made::new(rt, TYPES, &[]);
    let packages = registered(rt, &mut made, row);
    let result = plugged(rt, &mut made.graph, packages);
    let answer = answer(rt, &made.graph, result);
    let refused = answer.as_str() == REFUSED;
    assert_row(rt, refused || answer.as_str() == row.answer, row.what);
    assert_made(rt, &made.graph, row, refused);
}

// The function `a` of a plug is the argument `a` of the socket, whose function `run` is exported.
const ONE: Plugging = Plugging {
    what: "exports become arguments",
    first: PLUG_A,
    second: Second::Absent,
    imports: SOCKET_A,
    exports: RUN,
    answer: "",
    nodes: "instance my:socket; instance my:plug0; alias my:plug0; alias my:socket as run",
    asked: "a; ",
    passed: Some((3, "")),
};

// Its bytes.
const ONE_ENCODED: &[&str] = &[
    "04080061736d0d000100050401000000060601010000016104080061736d0d000100050801000101016101000608010100010372756e0b0901000372756e010100",
];

// Two plugs with one export: the earlier wins, and the later is not instantiated.
const TWO: Plugging = Plugging {
    what: "the earlier of two plugs wins",
    first: PLUG_A,
    second: Second::Other(PLUG_A),
    imports: SOCKET_A,
    exports: RUN,
    answer: "my:plug1 a a; ",
    nodes: "instance my:socket; instance my:plug0; alias my:plug0; alias my:socket as run",
    asked: "a; ",
    passed: Some((3, "")),
};

// One plug twice: the second time all is passed over.
const TWICE: Plugging = Plugging {
    what: "a plug is plugged in twice",
    first: PLUG_A,
    second: Second::Same,
    imports: SOCKET_A,
    exports: RUN,
    answer: "my:plug0 a a; ",
    nodes: "instance my:socket; instance my:plug0; alias my:plug0; alias my:socket as run",
    asked: "a; ",
    passed: Some((3, "")),
};

// No import has the name of the plug's export.
const OTHER: Plugging = Plugging {
    what: "no import has the name",
    first: &[("b", 0)],
    second: Second::Absent,
    imports: SOCKET_A,
    exports: RUN,
    answer: NONE,
    nodes: "instance my:socket",
    asked: "a; ",
    passed: None,
};

// The socket has no imports.
const UNASKED: Plugging = Plugging {
    what: "a socket has no imports",
    first: PLUG_A,
    second: Second::Absent,
    imports: &[],
    exports: RUN,
    answer: NONE,
    nodes: "instance my:socket",
    asked: "",
    passed: None,
};

// The import of the export's name is of another type, and one on its track of the same.
const OTHER_TYPE: Plugging = Plugging {
    what: "the import of the name is of another type",
    first: &[("a:b/c@1.0.0", 1)],
    second: Second::Absent,
    imports: &[("a:b/c@1.0.0", 4), ("a:b/c@1.1.0", 3)],
    exports: RUN,
    answer: NONE,
    nodes: "instance my:socket",
    asked: "a:b/c@1.0.0; a:b/c@1.1.0; ",
    passed: None,
};

// Two exports on the track of one import: the earlier wins.
const ONE_TRACK: Plugging = Plugging {
    what: "the earlier of two exports wins",
    first: &[("a:b/c@1.0.0", 1), ("a:b/c@1.1.0", 1)],
    second: Second::Absent,
    imports: &[("a:b/c@1.2.0", 3)],
    exports: &[],
    answer: "my:plug0 a:b/c@1.1.0 a:b/c@1.2.0; ",
    nodes: "instance my:socket; instance my:plug0; alias my:plug0",
    asked: "a:b/c@1.2.0; ",
    passed: Some((3, "")),
};

// The second plug wins one import and loses another.
const IN_PART: Plugging = Plugging {
    what: "a plug is passed over in part",
    first: PLUG_A,
    second: Second::Other(&[("b", 0), ("a", 0)]),
    imports: &[("a", 2), ("b", 2)],
    exports: &[],
    answer: "my:plug1 a a; ",
    nodes: "instance my:socket; instance my:plug0; alias my:plug0; instance my:plug1; alias my:plug1",
    asked: "a; b; ",
    passed: Some((5, "")),
};

// Several matches are passed over, in order of the plug's exports.
const IN_ORDER: Plugging = Plugging {
    what: "what is passed over is in order",
    first: &[("b", 0), ("a", 0)],
    second: Second::Other(&[("a", 0), ("b", 0)]),
    imports: &[("b", 2), ("a", 2)],
    exports: &[],
    answer: "my:plug1 a a; my:plug1 b b; ",
    nodes: "instance my:socket; instance my:plug0; alias my:plug0; alias my:plug0",
    asked: "b; a; ",
    passed: Some((4, "")),
};

// No import has the export's name, and two are on its track: the first is taken, whose version is the higher one.
const FIRST_ON_TRACK: Plugging = Plugging {
    what: "the first import on a track is given",
    first: &[("a:b/c@1.0.0", 1)],
    second: Second::Absent,
    imports: &[("a:b/c@1.2.0", 3), ("a:b/c@1.1.0", 3)],
    exports: RUN,
    answer: "",
    nodes: "instance my:socket; instance my:plug0; alias my:plug0; alias my:socket as run",
    asked: "a:b/c@1.2.0; a:b/c@1.1.0; ",
    passed: Some((3, "a:b/c@1.1.0; ")),
};

// The first plug matches nothing.
const SECOND_ALONE: Plugging = Plugging {
    what: "one of two plugs matches",
    first: &[("b", 0)],
    second: Second::Other(PLUG_A),
    imports: SOCKET_A,
    exports: RUN,
    answer: "",
    nodes: "instance my:socket; instance my:plug1; alias my:plug1; alias my:socket as run",
    asked: "a; ",
    passed: Some((3, "")),
};

// The socket exports what may not be exported.
const BAD_EXPORT: Plugging = Plugging {
    what: "an export is refused",
    first: PLUG_A,
    second: Second::Absent,
    imports: SOCKET_A,
    exports: &[("url=<u>", 2)],
    answer: "export name `url=<u>` is not valid",
    nodes: "instance my:socket; instance my:plug0; alias my:plug0; alias my:socket",
    asked: "a; ",
    passed: Some((3, "")),
};

const ROWS: &[Plugging] = &[
    ONE,
    TWO,
    TWICE,
    OTHER,
    UNASKED,
    OTHER_TYPE,
    ONE_TRACK,
    IN_PART,
    IN_ORDER,
    FIRST_ON_TRACK,
    SECOND_ALONE,
    BAD_EXPORT,
];

#[test]
fn packages_are_plugged_together(rt: HostRuntime) {
    for row in ROWS {
        assert_plugged(&rt, row);
    }
}

// What the same packages make once more: the socket's name is taken, and all but its export is made.
const AGAIN: &str =
    "instance my:socket; instance my:plug0; alias my:plug0; alias my:socket as run; instance my:socket; instance my:plug0; alias my:plug0; alias my:socket";

// What is plugged is encoded, and then plugged once more.
#[test]
fn what_is_plugged_is_encoded(rt: HostRuntime) {
    let mut made = Made::new(&rt, TYPES, &[]);
    let packages = registered(&rt, &mut made, &ONE);
    let result = plugged(&rt, &mut made.graph, packages);
    let first = answer(&rt, &made.graph, result);
    assert_row(&rt, first.is_empty(), first.as_str());
    assert_encoded(&rt, &made.graph, Want::Parts(ONE_ENCODED));
    let result = plugged(&rt, &mut made.graph, packages);
    let second = answer(&rt, &made.graph, result);
    let taken = second.as_str() == "an export with the name `run` already exists";
    assert_row(&rt, taken, second.as_str());
    assert_row(&rt, nodes(&rt, &made.graph).as_str() == AGAIN, AGAIN);
}

// A plug that is passed over leaves the bytes as they are without it.
#[test]
fn what_is_passed_over_is_not_encoded(rt: HostRuntime) {
    let mut made = Made::new(&rt, TYPES, &[]);
    let packages = registered(&rt, &mut made, &TWO);
    let result = plugged(&rt, &mut made.graph, packages);
    let passed = answer(&rt, &made.graph, result);
    assert_row(&rt, passed.as_str() == TWO.answer, passed.as_str());
    assert_encoded(&rt, &made.graph, Want::Parts(ONE_ENCODED));
}

// A node that was removed leaves room for the socket's, so memory is first taken to find the matches.
#[test]
fn the_socket_is_instantiated_first(rt: HostRuntime) {
    let mut made = Made::new(&rt, TYPES, &[]);
    let packages = registered(&rt, &mut made, &ONE);
    let node = parts::instantiate(&rt, &mut made.graph, packages.2);
    parts::remove(&rt, &mut made.graph, node.expect(&rt, "a node"));
    let result = plugged(&rt, &mut made.graph, packages);
    let answer = answer(&rt, &made.graph, result);
    assert_made(&rt, &made.graph, &ONE, answer.as_str() == REFUSED);
    let count = made.graph.node_ids().count();
    assert_row(&rt, count > 0, "the socket is instantiated");
}

// The exports `a` and `b` in the order of a world, and in that of an interface.
fn exports(rt: &impl Abort, graph: &mut CompositionGraph) -> [(&'static str, ItemKind); 2] {
    let plain = parts::function(rt, graph, &[], None);
    let telling = parts::function(rt, graph, &[], Some(ValueType::BOOL));
    [("a", plain), ("b", telling)]
}

// Registers a package that was made with another collection. Here its interface lists the exports in another order.
fn reordered(rt: &(impl Abort + AllocGlobal), graph: &mut CompositionGraph) -> PackageId {
    let mut other = CompositionGraph::new(rt.alloc());
    let items = exports(rt, &mut other);
    let world = parts::world(rt, &mut other, None, &[], &items);
    let held = other.types().contains(Type::World(world));
    assert!(rt; held);
    let bytes = Vec::new(rt.alloc());
    let package = other.new_package("my:plug", None, bytes, world);
    let package = package.expect(rt, "a package");
    let [a, b] = exports(rt, graph);
    parts::instance(rt, graph, None, &[], &[b, a]);
    parts::world(rt, graph, None, &[], &[a, b]);
    let held = graph.types().holds_package(&package);
    assert!(rt; held);
    graph.register_package(package).expect(rt, "its id")
}

// The socket's import becomes the export of its name.
#[test]
fn exports_are_aliased_by_name(rt: HostRuntime) {
    let mut graph = CompositionGraph::new(rt.alloc());
    let plug = reordered(&rt, &mut graph);
    let b = ItemKind::Func(FuncTypeId(1));
    let socket = parts::register(&rt, &mut graph, ("my:socket", None), &[("b", b)], &[]);
    let socket = socket.expect(&rt, "a socket");
    let passed = plugged(&rt, &mut graph, (plug, None, socket)).expect(&rt, "plugged");
    assert_row(&rt, passed.is_empty(), "nothing is passed over");
    let source = graph.get_alias_source(NodeId(2));
    assert_row(&rt, source == Some((NodeId(1), "b")), "a source");
    let argument = graph.get_instantiation_arguments(NodeId(0)).next();
    assert_row(&rt, argument == Some(("b", NodeId(2))), "an argument");
}

#[test]
fn refusals_have_texts(rt: HostRuntime) {
    let source = PlugFault::Export(ExportError::OutOfMemory);
    let want = "an error occurred when building the composition graph";
    assert_displayed(&rt, &PlugError::NoPlugHappened, NONE);
    assert_displayed(&rt, &PlugError::GraphError { source }, want);
    assert_displayed(&rt, &PlugError::OutOfMemory, REFUSED);
}
