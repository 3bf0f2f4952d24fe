// The texts of errors with their reasons.
use crate::parts::{assert_row, encode, import, instantiate};
use std::process::Abort;
use wac_graph::types::{AddTypeError, ShapeError, TypeFault};
use wac_graph::{
    AliasError, CompositionGraph, DefineTypeError, EncodeError, EncodeOptions, Error, ExportError,
    ImportError, InstantiationArgumentError, MergeFault, NameFault, NodeId, PlugError, PlugFault,
    Reason, UnexportError, ValidationFault, WriteFault,
};

const SHAPES: &[(ShapeError, &str)] = &[
    (ShapeError::NameTwice, "a name occurs twice"),
    (ShapeError::OutOfMemory, "out of memory"),
];

const TYPES: &[(AddTypeError, &str)] = &[
    (
        AddTypeError::NotHeld,
        "it mentions a type that is not of the collection",
    ),
    (
        AddTypeError::UsedInterfaceUnnamed,
        "it uses a type of an interface without an id",
    ),
    (
        AddTypeError::UsedTypeMissing,
        "an interface that it uses exports no such type",
    ),
    (
        AddTypeError::UsedTypeDiffers,
        "an item with the name of a used type is not that type",
    ),
    (
        AddTypeError::ResourceMisnamed,
        "a resource has a name other than its own",
    ),
    (AddTypeError::OutOfMemory, "out of memory"),
];

const NAMES: &[(NameFault, &str)] = &[
    (NameFault::Empty, "it is empty"),
    (NameFault::BadLabel, "a part of it is not a label"),
    (
        NameFault::BadVersion,
        "its version is not a semantic version",
    ),
    (
        NameFault::BadPackage,
        "its package is not two labels with a colon",
    ),
    (NameFault::BadRange, "its range of versions is not valid"),
    (NameFault::BadHash, "its hash is not valid"),
    (NameFault::Unclosed, "a bracket is not closed"),
    (NameFault::Trailing, "there is text after its end"),
    (NameFault::OutOfMemory, "out of memory"),
    (
        NameFault::NotExportable,
        "a hash, URL or dependency cannot be exported",
    ),
];

const WRITES: &[(WriteFault, &str)] = &[
    (
        WriteFault::UnboundResource,
        "it mentions a resource that no import has",
    ),
    (
        WriteFault::ModuleAsType,
        "a core module type is not a type of a component",
    ),
    (
        WriteFault::UnnamedDefinition,
        "a defined interface or world has no id",
    ),
    (
        WriteFault::NestedItem,
        "a component, core module or value is inside it",
    ),
    (WriteFault::ValueItem, "values cannot be imported"),
    (
        WriteFault::UnlistedDependency,
        "it uses an interface that it does not list",
    ),
    (
        WriteFault::InterfaceTwice,
        "another import has the name of an interface that it uses",
    ),
    (
        WriteFault::TypesUseEachOther,
        "its items depend on each other in a cycle",
    ),
];

// The error says this.
fn assert_reason<E: Reason>(rt: &(impl Abort + AllocGlobal), error: &E, want: &str) {
    let text = error.with_reason(rt.alloc()).expect(rt, want);
    assert_row(rt, text.as_str() == want, want);
}

// The error says this, and so does the error of the library that it becomes.
fn assert_reasons<E: Reason>(rt: &(impl Abort + AllocGlobal), error: E, want: &str)
where
    Error: From<E>,
{
    assert_reason(rt, &error, want);
    assert_reason(rt, &Error::from(error), want);
}

// A string.
fn text(rt: &(impl Abort + AllocGlobal), of: &str) -> String {
    String::from_str(rt.alloc(), of).expect(rt, of)
}

#[test]
fn faults_say_their_reasons(rt: HostRuntime) {
    for row in SHAPES {
        assert_reason(&rt, &row.0, row.1);
        let want = format!(in rt.alloc(); "the type was not built: {}", row.1).expect(&rt, row.1);
        assert_reason(&rt, &Error::from(row.0), want.as_str());
    }
    for row in TYPES {
        assert_reason(&rt, &row.0, row.1);
        let want = format!(in rt.alloc(); "the type was not added: {}", row.1).expect(&rt, row.1);
        assert_reason(&rt, &Error::from(row.0), want.as_str());
    }
    for row in NAMES {
        assert_reason(&rt, &row.0, row.1);
    }
    for row in WRITES {
        assert_reason(&rt, &row.0, row.1);
    }
}

#[test]
fn refused_names_say_their_reasons(rt: HostRuntime) {
    let (name, node) = (text(&rt, "a"), NodeId(1));
    let error = ImportError::ImportAlreadyExists { name, node };
    assert_reasons(
        &rt,
        error,
        "import name `a` already exists in the graph: node 1 imports it",
    );
    let (name, source) = (text(&rt, ""), NameFault::Empty);
    let error = ImportError::InvalidImportName { name, source };
    assert_reasons(&rt, error, "import name `` is not valid: it is empty");
    assert_reasons(&rt, ImportError::OutOfMemory, "out of memory");
    let (name, source) = (text(&rt, "A b"), NameFault::BadLabel);
    let error = DefineTypeError::InvalidExternName { name, source };
    assert_reasons(
        &rt,
        error,
        "type name `A b` is not valid: a part of it is not a label",
    );
    let error = DefineTypeError::TypeAlreadyDefined;
    assert_reasons(
        &rt,
        error,
        "the provided type has already been defined in the graph",
    );
    let (name, node) = (text(&rt, "a"), NodeId(1));
    let error = ExportError::ExportAlreadyExists { name, node };
    let want = "an export with the name `a` already exists: node 1 is exported under it";
    assert_reasons(&rt, error, want);
    let (name, source) = (text(&rt, "a@1"), NameFault::BadVersion);
    let error = ExportError::InvalidExportName { name, source };
    let want = "export name `a@1` is not valid: its version is not a semantic version";
    assert_reasons(&rt, error, want);
    assert_reasons(&rt, ExportError::OutOfMemory, "out of memory");
    let error = UnexportError::MustExportDefinition;
    assert_reasons(&rt, error, "cannot unexport a type definition");
}

#[test]
fn refused_arguments_say_their_reasons(rt: HostRuntime) {
    let node = NodeId(2);
    let kind = "function";
    let error = AliasError::NodeIsNotAnInstance { node, kind };
    let want = "expected source node to be an instance, but the node is a function: node 2";
    assert_reasons(&rt, error, want);
    let export = text(&rt, "a");
    let error = AliasError::InstanceMissingExport { node, export };
    assert_reasons(
        &rt,
        error,
        "instance does not have an export named `a`: node 2",
    );
    assert_reasons(&rt, AliasError::OutOfMemory, "out of memory");
    let error = InstantiationArgumentError::NodeIsNotAnInstantiation { node };
    assert_reasons(
        &rt,
        error,
        "the specified node is not an instantiation: node 2",
    );
    let (name, package) = (text(&rt, "a"), text(&rt, "my:p"));
    let error = InstantiationArgumentError::InvalidArgumentName {
        node,
        name,
        package,
    };
    let want = "argument name `a` is not an import of package `my:p`: node 2";
    assert_reasons(&rt, error, want);
    let name = text(&rt, "a");
    let error = InstantiationArgumentError::ArgumentAlreadyPassed { node, name };
    let want = "argument `a` has already been passed to the instantiation: node 2";
    assert_reasons(&rt, error, want);
    let (name, source) = (text(&rt, "a"), TypeFault::Mismatch);
    let error = InstantiationArgumentError::ArgumentTypeMismatch { name, source };
    let want = "mismatched instantiation argument `a`: its type is not a subtype of the import's";
    assert_reasons(&rt, error, want);
    assert_reasons(
        &rt,
        InstantiationArgumentError::OutOfMemory,
        "out of memory",
    );
}

#[test]
fn refused_plugs_say_their_reasons(rt: HostRuntime) {
    let want = "the socket component had no matching imports for the plugs that were provided";
    assert_reasons(&rt, PlugError::NoPlugHappened, want);
    let (name, source) = (text(&rt, "url=<a>"), NameFault::NotExportable);
    let source = PlugFault::Export(ExportError::InvalidExportName { name, source });
    let want = "export name `url=<a>` is not valid: a hash, URL or dependency cannot be exported";
    assert_reason(&rt, &source, want);
    let error = PlugError::GraphError { source };
    let want =
        "an error occurred when building the composition graph: export name `url=<a>` is not valid: a hash, URL or dependency cannot be exported";
    assert_reasons(&rt, error, want);
    let (node, export) = (NodeId(2), text(&rt, "a"));
    let source = PlugFault::Alias(AliasError::InstanceMissingExport { node, export });
    assert_reason(
        &rt,
        &source,
        "instance does not have an export named `a`: node 2",
    );
    let source = PlugFault::Argument(InstantiationArgumentError::NodeIsNotAnInstantiation { node });
    assert_reason(
        &rt,
        &source,
        "the specified node is not an instantiation: node 2",
    );
    assert_reasons(&rt, PlugError::OutOfMemory, "out of memory");
}

// The error of an implicit import that disagrees with an earlier one, in this export.
fn disagreement(rt: &(impl Abort + AllocGlobal), export: &str) -> EncodeError {
    EncodeError::ImportTypeMergeConflict {
        import: text(rt, "a"),
        first: NodeId(1),
        second: NodeId(2),
        source: MergeFault::Disagree {
            first: 0,
            second: 1,
            export: text(rt, export),
        },
    }
}

#[test]
fn refused_graphs_say_their_reasons(rt: HostRuntime) {
    let node = NodeId(1);
    let error = EncodeError::GraphContainsCycle { node };
    let want = "the graph contains a cycle and cannot be encoded: node 1 is on a cycle";
    assert_reasons(&rt, error, want);
    let want =
        "failed to merge the type definition for implicit import `a` due to conflicting types: nodes 1 and 2 disagree";
    assert_reasons(&rt, disagreement(&rt, ""), want);
    let want =
        "failed to merge the type definition for implicit import `a` due to conflicting types: nodes 1 and 2 disagree in export `f`";
    assert_reasons(&rt, disagreement(&rt, "f"), want);
    let (import, other) = (text(&rt, "a"), NodeId(0));
    let error = EncodeError::ExplicitImportMergeConflict {
        import,
        node,
        other,
    };
    let want =
        "failed to merge the type definition for explicit import `a` due to conflicting types: nodes 0 and 1 disagree";
    assert_reasons(&rt, error, want);
    let import = text(&rt, "a");
    let error = EncodeError::ImportsUseEachOther { import };
    assert_reasons(
        &rt,
        error,
        "import `a` rests on itself through other imports",
    );
    let fault = WriteFault::ValueItem;
    let error = EncodeError::TypeNotWritable { node, fault };
    assert_reasons(
        &rt,
        error,
        "the type of node 1 cannot be written: values cannot be imported",
    );
    let want = "an index or a size does not fit 32 bits";
    assert_reasons(&rt, EncodeError::TooLarge, want);
    assert_reasons(&rt, EncodeError::OutOfMemory, "out of memory");
}

#[test]
fn refused_outer_names_say_their_reasons(rt: HostRuntime) {
    let (first, second) = (text(&rt, "a"), text(&rt, "A"));
    let source = ValidationFault::Clash { first, second };
    assert_reason(&rt, &source, "names `a` and `A` clash");
    let error = EncodeError::ValidationFailure { source };
    let want = "encoding produced a component that failed validation: names `a` and `A` clash";
    assert_reasons(&rt, error, want);
    let name = text(&rt, "a b");
    let source = ValidationFault::BadName { name };
    assert_reason(&rt, &source, "name `a b` is not valid");
    let name = text(&rt, "url=<a>");
    let source = ValidationFault::NotExportable { name };
    assert_reason(&rt, &source, "name `url=<a>` cannot be exported");
}

#[test]
fn a_graph_says_its_reason(rt: HostRuntime) {
    let mut graph = CompositionGraph::new(rt.alloc());
    let function = graph.func(&[], None).expect(&rt, "a function");
    import(&rt, &mut graph, "a", function).expect(&rt, "a node");
    let package = graph.add_package("my:p", None, Vec::new(rt.alloc()), &[("a", function)], &[]);
    let package = package.expect(&rt, "a package");
    instantiate(&rt, &mut graph, package).expect(&rt, "a node");
    let answer = encode(&graph, EncodeOptions::default());
    let error = answer.expect_err(&rt, "a refusal");
    let want =
        "an instantiation of package `my:p` implicitly imports an item named `a`, but it conflicts with an explicit import of the same name: nodes 1 and 0";
    assert_reasons(&rt, error, want);
}
