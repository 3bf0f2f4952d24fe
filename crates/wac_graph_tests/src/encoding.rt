// What `encode` answers, and what a graph asks for and holds, after calls.
use super::bench::Call::{
    Alias, Asked, Described, Encode, Export, Exported, Import, Imported, Instantiate, Name, Named,
    Refusal, Register, Set, Source, Unexport, Unset,
};
use super::bench::How::{Plain as Usual, Processed};
use super::bench::Item::{Empty, Exporting, ExportingTelling, Other, Plain, Telling, Using};
use super::bench::{How, Rows, assert_tables};
use wac_graph::EncodeOptions;

const CONTAINS_CYCLE: &str = "the graph contains a cycle and cannot be encoded";

const IMPORT_CONFLICT: &str =
    "an instantiation of package `my:package` implicitly imports an item named `x`, but it conflicts with an explicit import of the same name";

// The function `a` of an instance, exported as `x`.
const EXPORTED: Rows = &[
    (Register("my:package1", &[], &[("a", Plain)]), ""),
    (Instantiate(0), "0"),
    (Alias(0, "a"), "1"),
    (Alias(0, "a"), "1"),
    (Export(1, "x"), ""),
    (Export(0, "x"), "an export with the name `x` already exists"),
];

// Two instances of one package.
const TWICE: Rows = &[
    (Register("my:package1", &[], &[("a", Plain)]), ""),
    (Instantiate(0), "0"),
    (Instantiate(0), "1"),
];

// The function `a` of the instance `i` that an instance exports.
const NESTED: Rows = &[
    (Register("my:package", &[], &[("i", Exporting("a"))]), ""),
    (Instantiate(0), "0"),
    (Alias(0, "i"), "1"),
    (Alias(1, "a"), "2"),
    (Set(1, "a", 2), "the specified node is not an instantiation"),
];

// An argument that is not set.
const UNSET: Rows = &[
    (Register("my:package2", &[("b", Plain)], &[]), ""),
    (Instantiate(0), "0"),
];

// A package whose own function is given to it.
const CYCLE: Rows = &[
    (Register("my:package", &[("a", Plain)], &[("a", Plain)]), ""),
    (Instantiate(0), "0"),
    (Alias(0, "a"), "1"),
    (Set(0, "a", 1), ""),
];

// An instance that is its own argument.
const OWN_ARGUMENT: Rows = &[
    (Register("my:package", &[("i", Empty)], &[]), ""),
    (Instantiate(0), "0"),
    (Set(0, "i", 0), ""),
];

// Two instances that are each other's arguments, and one that is given one of them.
const RING: Rows = &[
    (Register("my:package", &[("i", Empty)], &[]), ""),
    (Instantiate(0), "0"),
    (Instantiate(0), "1"),
    (Instantiate(0), "2"),
    (Set(2, "i", 1), ""),
    (Set(1, "i", 2), ""),
    (Set(0, "i", 1), ""),
];

// An argument that is not set, under the name of an import.
const CONFLICT: Rows = &[
    (Import("x", Plain), "0"),
    (Register("my:package", &[("x", Plain)], &[]), ""),
    (Instantiate(0), "1"),
];

// The same, and an instance that is its own argument.
const CONFLICT_AND_CYCLE: Rows = &[
    (Import("x", Plain), "0"),
    (Register("my:package", &[("x", Plain)], &[]), ""),
    (Instantiate(0), "1"),
    (Register("my:other", &[("i", Empty)], &[]), ""),
    (Instantiate(1), "2"),
    (Set(2, "i", 2), ""),
];

// Two packages that import functions of one name which differ.
const IMPLICIT_MERGE: Rows = &[
    (Register("my:package", &[("x", Plain)], &[]), ""),
    (Register("my:other", &[("x", Telling)], &[]), ""),
    (Instantiate(0), "0"),
    (Instantiate(1), "1"),
];

// Three packages that import versions of one interface, of which the last two have functions of one name which differ.
const EXPORT_MERGE: Rows = &[
    (
        Register("my:package1", &[("a:b/c@0.2.0", Exporting("f"))], &[]),
        "",
    ),
    (
        Register("my:package2", &[("a:b/c@0.2.1", Exporting("g"))], &[]),
        "",
    ),
    (
        Register(
            "my:package3",
            &[("a:b/c@0.2.2", ExportingTelling("g"))],
            &[],
        ),
        "",
    ),
    (Instantiate(0), "0"),
    (Instantiate(1), "1"),
    (Instantiate(2), "2"),
];

// An import of a later version of what a package imports, with another function.
const EXPLICIT_MERGE: Rows = &[
    (
        Register("my:package", &[("a:b/c@0.2.0", Exporting("f"))], &[]),
        "",
    ),
    (Instantiate(0), "0"),
    (Import("a:b/c@0.2.1", ExportingTelling("f")), "1"),
];

// Two packages, of which the first imports an interface that uses one of the second's, in another version, and the second
// one that uses one of the first's.
const IMPORT_CIRCLE: Rows = &[
    (
        Register(
            "my:package",
            &[("a:b/x@1.0.0", Using("a:b/x@1.0.0", "t", "a:b/y@1.0.0"))],
            &[],
        ),
        "",
    ),
    (
        Register(
            "my:other",
            &[("a:b/y@1.1.0", Using("a:b/y@1.1.0", "u", "a:b/x@1.1.0"))],
            &[],
        ),
        "",
    ),
    (Instantiate(0), "0"),
    (Instantiate(1), "1"),
];

// Three packages of which each imports an interface that uses one of the next's, in another version.
const CIRCLE_OF_THREE: Rows = &[
    (
        Register(
            "my:first",
            &[("a:b/x@1.0.0", Using("a:b/x@1.0.0", "t", "a:b/y@1.0.0"))],
            &[],
        ),
        "",
    ),
    (
        Register(
            "my:second",
            &[("a:b/y@1.1.0", Using("a:b/y@1.1.0", "v", "a:b/z@1.0.0"))],
            &[],
        ),
        "",
    ),
    (
        Register(
            "my:third",
            &[("a:b/z@1.1.0", Using("a:b/z@1.1.0", "u", "a:b/x@1.1.0"))],
            &[],
        ),
        "",
    ),
    (Instantiate(0), "0"),
    (Instantiate(1), "1"),
    (Instantiate(2), "2"),
];

// A second package, whose instance is given the function `a` of an instance of the first, and what is refused it.
const ARGUMENTS: Rows = &[
    (Register("my:package1", &[], &[("a", Plain)]), ""),
    (
        Register(
            "my:package2",
            &[("b", Plain), ("c", Other)],
            &[("d", Plain)],
        ),
        "",
    ),
    (Instantiate(0), "0"),
    (Alias(0, "a"), "1"),
    (Instantiate(1), "2"),
    (Alias(2, "d"), "3"),
    (Set(2, "b", 1), ""),
    (Set(2, "b", 1), ""),
    (
        Set(2, "b", 3),
        "argument `b` has already been passed to the instantiation",
    ),
    (
        Set(2, "e", 1),
        "argument name `e` is not an import of package `my:package2`",
    ),
    (Set(2, "c", 1), "mismatched instantiation argument `c`"),
    (Set(2, "c", 0), "mismatched instantiation argument `c`"),
    (Set(1, "b", 1), "the specified node is not an instantiation"),
];

// What else is refused.
const REFUSALS: Rows = &[
    (Register("my:package1", &[], &[("a", Plain)]), ""),
    (
        Register("my:package1", &[], &[]),
        "package `my:package1` has already been registered in the graph",
    ),
    (Instantiate(0), "0"),
    (Alias(0, "a"), "1"),
    (
        Alias(1, "a"),
        "expected source node to be an instance, but the node is a function",
    ),
    (Alias(0, "b"), "instance does not have an export named `b`"),
];

// Imports, and names that are refused.
const NAMES: Rows = &[
    (Import("x", Plain), "0"),
    (
        Import("x", Other),
        "import name `x` already exists in the graph",
    ),
    (Import("1a", Plain), "import name `1a` is not valid"),
    (Import("unlocked-dep=<a:b>", Exporting("a")), "1"),
    (Export(0, "url=<u>"), "export name `url=<u>` is not valid"),
    (
        Export(0, "unlocked-dep=<a:b>"),
        "export name `unlocked-dep=<a:b>` is not valid",
    ),
    (Export(0, "aB"), "export name `aB` is not valid"),
    (Export(0, "x"), ""),
];

// An import, and two instances of one package, of which the first is given the import as its argument `a`.
const ASKED: Rows = &[
    (Import("x", Plain), "0"),
    (
        Register("my:package", &[("a", Plain), ("b", Exporting("a"))], &[]),
        "",
    ),
    (Instantiate(0), "1"),
    (Instantiate(0), "2"),
    (Set(1, "a", 0), ""),
];

// An argument that is set and taken away, twice; taken away once more changes nothing.
const TAKEN: Rows = &[
    (Register("my:package1", &[], &[("a", Plain)]), ""),
    (Register("my:package2", &[("b", Plain)], &[]), ""),
    (Instantiate(0), "0"),
    (Alias(0, "a"), "1"),
    (Instantiate(1), "2"),
    (Set(2, "b", 1), ""),
    (Unset(2, "b", 1), ""),
    (Unset(2, "b", 1), ""),
    (
        Unset(2, "c", 1),
        "argument name `c` is not an import of package `my:package2`",
    ),
    (
        Unset(1, "b", 1),
        "the specified node is not an instantiation",
    ),
    (Source(1), "0 a"),
    (Source(0), "none"),
];

// The exports `a` and `c` of one node, `b` and `d` of two others, of which the first loses its names.
const UNEXPORTED: Rows = &[
    (Register("my:package", &[], &[("f", Plain)]), ""),
    (Instantiate(0), "0"),
    (Instantiate(0), "1"),
    (Instantiate(0), "2"),
    (Export(0, "a"), ""),
    (Export(0, "b"), ""),
    (Export(1, "c"), ""),
    (Export(2, "d"), ""),
    (Unexport(0), ""),
    (Exported("a"), "none"),
    (Exported("b"), "none"),
    (Exported("c"), "1"),
    (Exported("d"), "2"),
    (Unexport(0), ""),
];

// A node that is named, and named anew.
const TITLED: Rows = &[
    (Register("my:package1", &[], &[("a", Plain)]), ""),
    (Instantiate(0), "0"),
    (Named(0), "no name"),
    (Name(0, "m"), ""),
    (Name(0, "n"), ""),
    (Named(0), "n"),
];

// Two instances and an alias that are named, the last one first and one by the empty text.
const TITLES: Rows = &[
    (Register("my:package1", &[], &[("a", Plain)]), ""),
    (Instantiate(0), "0"),
    (Alias(0, "a"), "1"),
    (Instantiate(0), "2"),
    (Name(2, "b"), ""),
    (Name(0, "a"), ""),
    (Name(1, ""), ""),
    (Export(1, "x"), ""),
];

// What is asked of a graph after calls: the bytes that `encode` answers, or the text of its refusal and what it names, what the
// graph asks for, and what a node is.
const ENCODED: &[(Rows, Rows)] = &[
    (
        EXPORTED,
        &[
            (
                Encode(Usual),
                "0061736d0d00010004080061736d0d00010005040100000006060101000001610b0701000178010000",
            ),
            (
                Described(0),
                "instantiation, instance, my:package1, no name, no name",
            ),
            (Described(1), "alias, function, my:package1, no name, x"),
            (Exported("x"), "1"),
            (Exported("a"), "none"),
            (
                Encode(How::Imported),
                "0061736d0d000100070e01410201400001000400016101000a1f01001a756e6c6f636b65642d6465703d3c6d793a7061636b616765313e040005040100000006060101000001610b0701000178010000",
            ),
        ],
    ),
    (
        TWICE,
        &[(
            Encode(Usual),
            "0061736d0d00010004080061736d0d000100050702000000000000",
        )],
    ),
    (
        NESTED,
        &[(
            Encode(Usual),
            "0061736d0d00010004080061736d0d000100050401000000060b0205000001690100010161",
        )],
    ),
    // Refused calls leave the graph.
    (
        REFUSALS,
        &[(
            Encode(Usual),
            "0061736d0d00010004080061736d0d0001000504010000000606010100000161",
        )],
    ),
    (
        UNSET,
        &[
            (
                Encode(Usual),
                "0061736d0d000100070501400001000a0601000162010004080061736d0d00010005080100000101620100",
            ),
            (Refusal, ""),
        ],
    ),
    (CYCLE, &[(Encode(Usual), CONTAINS_CYCLE), (Refusal, "0")]),
];

// The same of further graphs.
const REFUSED: &[(Rows, Rows)] = &[
    (
        OWN_ARGUMENT,
        &[(Encode(Usual), CONTAINS_CYCLE), (Refusal, "0")],
    ),
    (RING, &[(Encode(Usual), CONTAINS_CYCLE), (Refusal, "1")]),
    (
        CONFLICT,
        &[
            (Encode(Usual), IMPORT_CONFLICT),
            (Refusal, "0, 1, my:package, x"),
        ],
    ),
    // A cycle is named before a conflict.
    (
        CONFLICT_AND_CYCLE,
        &[(Encode(Usual), CONTAINS_CYCLE), (Refusal, "2")],
    ),
    (
        ARGUMENTS,
        &[(
            Encode(Usual),
            "0061736d0d000100070801400101707f01000a0601000163010004080061736d0d000100050401000000060601010000016104080061736d0d000100050c0100010201620101016301000606010100010164",
        )],
    ),
    // An instance is imported before a function.
    (
        NAMES,
        &[
            (
                Encode(Usual),
                "0061736d0d000100070e01420201400001000400016101000a17010012756e6c6f636b65642d6465703d3c613a623e0500070501400001000a060100017801010b0701000178010000",
            ),
            (Described(0), "import, function, no package, x, x"),
            (Imported(0), "x"),
            (Imported(1), "unlocked-dep=<a:b>"),
        ],
    ),
];

// The same of further graphs.
const MERGED: &[(Rows, Rows)] = &[
    (
        UNEXPORTED,
        &[(
            Encode(Usual),
            "0061736d0d00010004080061736d0d000100050a030000000000000000000b0d02000163050100000164050200",
        )],
    ),
    // Names are written before the processor.
    (
        TITLED,
        &[
            (
                Encode(Usual),
                "0061736d0d00010004080061736d0d00010005040100000000160e636f6d706f6e656e742d6e616d650105050100016e",
            ),
            (
                Encode(Processed),
                "0061736d0d00010004080061736d0d00010005040100000000160e636f6d706f6e656e742d6e616d650105050100016e001d0970726f647563657273010c70726f6365737365642d62790101780131",
            ),
        ],
    ),
    // Nodes are named by sort and index.
    (
        TITLES,
        &[(
            Encode(Usual),
            "0061736d0d00010004080061736d0d00010005040100000006060101000001610504010000000b0701000178010000001f0e636f6d706f6e656e742d6e616d6501040101000001080502000161010162",
        )],
    ),
    (IMPLICIT_MERGE, &[(Refusal, "x, 0, 1, Disagree ``")]),
    (
        EXPORT_MERGE,
        &[(Refusal, "a:b/c@0.2.2, 1, 2, Disagree `g`")],
    ),
];

// The same of further graphs.
const ASKED_FOR: &[(Rows, Rows)] = &[
    (EXPLICIT_MERGE, &[(Refusal, "a:b/c@0.2.1, 1, 0")]),
    (IMPORT_CIRCLE, &[(Refusal, "a:b/y@1.1.0")]),
    (CIRCLE_OF_THREE, &[(Refusal, "a:b/y@1.1.0")]),
    (TAKEN, &[(Asked, "b: function; ")]),
    (
        ASKED,
        &[(
            Asked,
            "b: instance; a: function; b: instance; x: function, 0; ",
        )],
    ),
    (
        &[],
        &[(
            Encode(Processed),
            "0061736d0d000100001d0970726f647563657273010c70726f6365737365642d62790101780131",
        )],
    ),
];

#[test]
fn graphs_are_encoded(rt: HostRuntime) {
    assert_tables(&rt, ENCODED);
}

#[test]
fn refusals_name_their_cause(rt: HostRuntime) {
    assert_tables(&rt, REFUSED);
}

#[test]
fn imports_are_merged(rt: HostRuntime) {
    assert_tables(&rt, MERGED);
}

#[test]
fn imports_are_asked_for_in_order(rt: HostRuntime) {
    assert_tables(&rt, ASKED_FOR);
}

#[test]
fn options_that_are_usual(rt: HostRuntime) {
    let usual = EncodeOptions::default();
    assert!(rt; usual.define_components && usual.validate && usual.processor.is_none());
}
