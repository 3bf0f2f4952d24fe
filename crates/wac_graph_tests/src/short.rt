// Types and packages that are added by one call, and the definitions that a definition depends on.
use crate::parts::{assert_row, define, encode, instantiate};
use crate::short::Call::{
    Enumeration, Flags, Func, Instance, List, Optional, Outcome, Record, Tuple, Variant,
};
use semver::Version;
use std::process::Abort;
use wac_graph::types::{DefinedTypeId, FuncTypeId, ItemKind, Type, ValueType};
use wac_graph::{CompositionGraph, EncodeOptions, Error, NodeId, PackageId, Reason};

// A component with nothing in it.
const EMPTY_COMPONENT: [u8; 8] = [0x00, 0x61, 0x73, 0x6d, 0x0d, 0x00, 0x01, 0x00];

// A type that no graph of these rows has.
const ABSENT: ValueType = ValueType::Defined(DefinedTypeId(9));

// The function that each graph of these rows has.
const FUNCTION: ItemKind = ItemKind::Func(FuncTypeId(0));

// What a call says at its end that was refused memory.
const NO_MEMORY: &str = "out of memory";

const NOT_HELD: &str = "the type was not added: it mentions a type that is not of the collection";

/// A call that adds a type.
#[derive(Clone, Copy)]
pub enum Call {
    Record(&'static [(&'static str, ValueType)]),
    Variant(&'static [(&'static str, Option<ValueType>)]),
    Enumeration(&'static [&'static str]),
    Flags(&'static [&'static str]),
    Tuple(&'static [ValueType]),
    List(ValueType),
    Optional(ValueType),
    Outcome(Option<ValueType>, Option<ValueType>),
    Func(&'static [(&'static str, ValueType)], Option<ValueType>),
    Instance(&'static str, &'static [(&'static str, ItemKind)]),
}

// Calls, each with what it adds or with the reason of its refusal.
const CALLS: &[(Call, &str)] = &[
    (
        Record(&[("level", ValueType::U8), ("text", ValueType::STRING)]),
        "Record(Record { fields: {\"level\": Primitive(U8), \"text\": Primitive(String)} })",
    ),
    (Record(&[]), "Record(Record { fields: {} })"),
    (
        Record(&[
            ("b", ValueType::U8),
            ("a", ValueType::U8),
            ("c", ValueType::U8),
            ("a", ValueType::U8),
            ("b", ValueType::U8),
        ]),
        "name `a` occurs twice",
    ),
    (Record(&[("a", ABSENT)]), NOT_HELD),
    // The names are looked at first.
    (
        Record(&[("a", ABSENT), ("a", ABSENT)]),
        "name `a` occurs twice",
    ),
    (
        Variant(&[("none", None), ("some", Some(ValueType::BOOL))]),
        "Variant(Variant { cases: {\"none\": None, \"some\": Some(Primitive(Bool))} })",
    ),
    (
        Variant(&[("none", None), ("none", None)]),
        "name `none` occurs twice",
    ),
    (Variant(&[("some", Some(ABSENT))]), NOT_HELD),
    (
        Enumeration(&["debug", "info"]),
        "Enum(Enum([\"debug\", \"info\"]))",
    ),
    (
        Enumeration(&["debug", "info", "debug"]),
        "name `debug` occurs twice",
    ),
    (
        Flags(&["write", "read"]),
        "Flags(Flags([\"write\", \"read\"]))",
    ),
    (Flags(&["read", "read"]), "name `read` occurs twice"),
    (
        Tuple(&[ValueType::CHAR, ValueType::F64]),
        "Tuple([Primitive(Char), Primitive(F64)])",
    ),
    (Tuple(&[ValueType::CHAR, ABSENT]), NOT_HELD),
    (List(ValueType::S64), "List(Primitive(S64))"),
    (List(ABSENT), NOT_HELD),
    (Optional(ValueType::F32), "Option(Primitive(F32))"),
    (Optional(ABSENT), NOT_HELD),
    (
        Outcome(Some(ValueType::U64), None),
        "Result { ok: Some(Primitive(U64)), err: None }",
    ),
    (Outcome(None, Some(ABSENT)), NOT_HELD),
    (
        Func(&[("x", ValueType::S32)], Some(ValueType::U32)),
        "FuncType { params: {\"x\": Primitive(S32)}, result: Some(Primitive(U32)), is_async: false }",
    ),
    (
        Func(&[("x", ValueType::S32), ("x", ValueType::S32)], None),
        "name `x` occurs twice",
    ),
    (Func(&[], Some(ABSENT)), NOT_HELD),
    (
        Instance("ns:pkg/log", &[("log", FUNCTION)]),
        "Interface { id: Some(\"ns:pkg/log\"), uses: {}, exports: {\"log\": Func(FuncTypeId(0))} }",
    ),
    (
        Instance("ns:pkg/log", &[("log", FUNCTION), ("log", FUNCTION)]),
        "name `log` occurs twice",
    ),
    (
        Instance("ns:pkg/log", &[("log", ItemKind::Func(FuncTypeId(9)))]),
        NOT_HELD,
    ),
];

// Makes the call. A value type counts as the item that is a type of it.
pub fn make(graph: &mut CompositionGraph, call: Call) -> Result<ItemKind, Error> {
    let value = match call {
        Record(fields) => graph.record(fields)?,
        Variant(cases) => graph.variant(cases)?,
        Enumeration(cases) => graph.enumeration(cases)?,
        Flags(names) => graph.flags(names)?,
        Tuple(types) => graph.tuple(types)?,
        List(element) => graph.list(element)?,
        Optional(some) => graph.option(some)?,
        Outcome(ok, err) => graph.result(ok, err)?,
        Func(params, returned) => return graph.func(params, returned),
        Instance(id, items) => return graph.instance(id, items),
    };
    Ok(ItemKind::from(value))
}

// The definition of an item.
fn described(rt: &(impl Abort + AllocGlobal), graph: &CompositionGraph, item: ItemKind) -> String {
    let ty = item.ty();
    let held = graph.types().contains(ty);
    assert!(rt; held);
    let text = match ty {
        Type::Value(ValueType::Defined(id)) => {
            let definition = &graph.types()[id];
            format!(in rt.alloc(); "{definition:?}")
        }
        Type::Func(id) => {
            let definition = &graph.types()[id];
            format!(in rt.alloc(); "{definition:?}")
        }
        Type::Interface(id) => {
            let definition = &graph.types()[id];
            format!(in rt.alloc(); "{definition:?}")
        }
        _ => format!(in rt.alloc(); "another item"),
    };
    text.expect(rt, "a text")
}

// The definition that the call adds, or why it is refused.
fn told(rt: &(impl Abort + AllocGlobal), graph: &mut CompositionGraph, call: Call) -> String {
    match make(graph, call) {
        Ok(item) => described(rt, graph, item),
        Err(error) => error.with_reason(rt.alloc()).expect(rt, "a reason"),
    }
}

#[test]
fn types_are_added_by_one_call(rt: HostRuntime) {
    for row in CALLS {
        let mut graph = CompositionGraph::new(rt.alloc());
        graph.func(&[], None).expect(&rt, "a function");
        let mut text = told(&rt, &mut graph, row.0);
        // A call that was refused memory is made once more.
        if text.as_str().ends_with(NO_MEMORY) {
            text = told(&rt, &mut graph, row.0);
        }
        assert_row(&rt, text.as_str() == row.1, row.1);
    }
}

// Adds the package `ns:pkg` of the first version.
fn add(
    rt: &(impl Abort + AllocGlobal),
    graph: &mut CompositionGraph,
    imports: &[(&str, ItemKind)],
    exports: &[(&str, ItemKind)],
) -> Result<PackageId, Error> {
    let bytes = Vec::from_array(rt.alloc(), EMPTY_COMPONENT).expect(rt, "bytes");
    let version = Version::new(1, 0, 0);
    graph.add_package("ns:pkg", Some(&version), bytes, imports, exports)
}

// Why the package is refused.
fn refusal(
    rt: &(impl Abort + AllocGlobal),
    graph: &mut CompositionGraph,
    imports: &[(&str, ItemKind)],
    exports: &[(&str, ItemKind)],
) -> String {
    let error = add(rt, graph, imports, exports).expect_err(rt, "a refusal");
    error.with_reason(rt.alloc()).expect(rt, "a reason")
}

// Packages that are refused, with their imports and exports and with the reason.
const REFUSED: &[(&[(&str, ItemKind)], &[(&str, ItemKind)], &str)] = &[
    (
        &[("a", FUNCTION), ("a", FUNCTION)],
        &[],
        "name `a` occurs twice",
    ),
    (
        &[],
        &[("b", FUNCTION), ("b", FUNCTION)],
        "name `b` occurs twice",
    ),
    (
        &[("a", FUNCTION), ("a", FUNCTION)],
        &[("b", FUNCTION), ("b", FUNCTION)],
        "name `a` occurs twice",
    ),
    (&[("a", ItemKind::Func(FuncTypeId(9)))], &[], NOT_HELD),
    (
        &[("a", FUNCTION)],
        &[("a", FUNCTION)],
        "package `ns:pkg@1.0.0` has already been registered in the graph",
    ),
];

#[test]
fn a_package_is_added_by_one_call(rt: HostRuntime) {
    let mut graph = CompositionGraph::new(rt.alloc());
    let function = graph.func(&[], None).expect(&rt, "a function");
    let id = add(&rt, &mut graph, &[("a", function)], &[("b", function)]).expect(&rt, "a package");
    let held = graph.has_package(id);
    assert!(rt; held);
    assert_row(&rt, graph[id].name() == "ns:pkg", "its name");
    let world = graph[id].ty();
    let held = graph.types().contains(Type::World(world));
    assert!(rt; held);
    let definition = &graph.types()[world];
    let text = format!(in rt.alloc(); "{definition:?}").expect(&rt, "a text");
    let want =
        "World { id: None, uses: {}, imports: {\"a\": Func(FuncTypeId(0))}, exports: {\"b\": Func(FuncTypeId(0))} }";
    assert_row(&rt, text.as_str() == want, want);
    for row in REFUSED {
        let mut text = refusal(&rt, &mut graph, row.0, row.1);
        if text.as_str().ends_with(NO_MEMORY) {
            text = refusal(&rt, &mut graph, row.0, row.1);
        }
        assert_row(&rt, text.as_str() == row.2, row.2);
    }
}

#[test]
fn plugs_are_given_as_a_slice(rt: HostRuntime) {
    let mut graph = CompositionGraph::new(rt.alloc());
    let function = graph.func(&[], None).expect(&rt, "a function");
    let bytes = Vec::from_array(rt.alloc(), EMPTY_COMPONENT).expect(&rt, "bytes");
    let plug = graph.add_package("my:plug", None, bytes, &[], &[("a", function)]);
    let plug = plug.expect(&rt, "a plug");
    let bytes = Vec::from_array(rt.alloc(), EMPTY_COMPONENT).expect(&rt, "bytes");
    let socket = graph.add_package("my:socket", None, bytes, &[("a", function)], &[]);
    let socket = socket.expect(&rt, "a socket");
    let held = graph.has_package(socket);
    assert!(rt; held);
    let held = graph.has_package(plug);
    assert!(rt; held);
    let passed = graph.plug(socket, &[plug, plug]).expect(&rt, "plugged");
    assert_row(&rt, passed.len() == 1, "the second match is passed over");
    let bytes = encode(&graph, EncodeOptions::default());
    assert_row(&rt, bytes.is_ok(), "bytes");
}

// Asserts which definitions a node depends on.
fn assert_dependencies(
    rt: &(impl Abort + AllocGlobal),
    graph: &CompositionGraph,
    node: NodeId,
    want: &str,
) {
    let nodes = graph.dependencies(node).expect(rt, want);
    let text = format!(in rt.alloc(); "{nodes:?}").expect(rt, want);
    assert_row(rt, text.as_str() == want, want);
}

#[test]
fn dependencies_are_listed_in_order(rt: HostRuntime) {
    let mut graph = CompositionGraph::new(rt.alloc());
    let level = graph.enumeration(&["debug", "info"]).expect(&rt, "an enum");
    let entry = graph.record(&[("level", level)]).expect(&rt, "a record");
    let entries = graph.list(entry).expect(&rt, "a list");
    // The list is defined first, and depends on what is defined after it.
    let last = define(&rt, &mut graph, "entries", entries.into()).expect(&rt, "a list");
    let middle = define(&rt, &mut graph, "entry", entry.into()).expect(&rt, "a record");
    let first = define(&rt, &mut graph, "level", level.into()).expect(&rt, "an enum");
    assert_dependencies(&rt, &graph, last, "[NodeId(1), NodeId(2)]");
    assert_dependencies(&rt, &graph, middle, "[NodeId(2)]");
    assert_dependencies(&rt, &graph, first, "[]");
    // A node that is no definition, and one that is not there.
    let id = add(&rt, &mut graph, &[], &[]).expect(&rt, "a package");
    let node = instantiate(&rt, &mut graph, id).expect(&rt, "a node");
    assert_dependencies(&rt, &graph, node, "[]");
    assert_dependencies(&rt, &graph, NodeId(9), "[]");
}
