// Nodes that are removed, and what goes with them.
use super::bench::Call::{
    Alias, Asked, Encode, Export, Exported, Has, Import, Instantiate, Refusal, Register, Remove,
    Satisfied, Sections, Set, Unexport, Unset,
};
use super::bench::Item::{Empty, Exporting, Plain};
use super::bench::{How, Rows, assert_tables};

// The number of a node that was removed comes next.
const NUMBERS: Rows = &[
    (Register("my:package", &[], &[]), ""),
    (Instantiate(0), "0"),
    (Instantiate(0), "1"),
    (Instantiate(0), "2"),
    (Remove(1), ""),
    (Has(1), "false"),
    (Instantiate(0), "1"),
    (Has(1), "true"),
];

// The exports `a` and `b` of a node go with it; the last export takes the freed place.
const EXPORTS: Rows = &[
    (Register("my:package", &[], &[]), ""),
    (Instantiate(0), "0"),
    (Instantiate(0), "1"),
    (Instantiate(0), "2"),
    (Export(0, "a"), ""),
    (Export(1, "c"), ""),
    (Export(0, "b"), ""),
    (Export(2, "d"), ""),
    (Remove(0), ""),
    (Exported("a"), "none"),
    (Exported("c"), "1"),
];

// A node that was an argument of two instances of one package.
const ARGUMENT: Rows = &[
    (Register("my:package1", &[], &[("a", Plain)]), ""),
    (Register("my:package2", &[("b", Plain)], &[]), ""),
    (Instantiate(0), "0"),
    (Alias(0, "a"), "1"),
    (Instantiate(1), "2"),
    (Instantiate(1), "3"),
    (Set(2, "b", 1), ""),
    (Set(3, "b", 1), ""),
    (Satisfied(2), "1"),
    (Remove(1), ""),
    (Satisfied(2), "0"),
    (Satisfied(3), "0"),
    (Has(0), "true"),
];

// An instance goes with its aliases, and with theirs.
const BEHIND: Rows = &[
    (Register("my:package1", &[], &[("i", Exporting("a"))]), ""),
    (Register("my:package2", &[("b", Plain)], &[]), ""),
    (Instantiate(0), "0"),
    (Alias(0, "i"), "1"),
    (Alias(1, "a"), "2"),
    (Instantiate(1), "3"),
    (Set(3, "b", 2), ""),
    (Export(2, "x"), ""),
    (Remove(0), ""),
    (Has(1), "false"),
    (Has(2), "false"),
    (Has(3), "true"),
    (Satisfied(3), "0"),
    (Exported("x"), "none"),
    (Instantiate(0), "0"),
];

// The name of an import that was removed is free.
const IMPORT: Rows = &[
    (Import("x", Plain), "0"),
    (Import("y", Plain), "1"),
    (
        Import("x", Plain),
        "import name `x` already exists in the graph",
    ),
    (Remove(0), ""),
    (Import("x", Plain), "0"),
    (
        Import("y", Plain),
        "import name `y` already exists in the graph",
    ),
];

// An instance that was an argument of two instances of one package, under one name.
const SHARED: Rows = &[
    (Register("my:package", &[("i", Empty)], &[]), ""),
    (Instantiate(0), "0"),
    (Instantiate(0), "1"),
    (Import("y", Empty), "2"),
    (Set(0, "i", 2), ""),
    (Set(1, "i", 2), ""),
    (Remove(2), ""),
];

// Node 0 is given one of two instances that are each other's arguments; a node that was given one is removed, and its number
// used again.
const RING: Rows = &[
    (Register("my:package", &[("i", Empty)], &[]), ""),
    (Instantiate(0), "0"),
    (Instantiate(0), "1"),
    (Instantiate(0), "2"),
    (Instantiate(0), "3"),
    (Set(2, "i", 1), ""),
    (Set(1, "i", 2), ""),
    (Set(0, "i", 1), ""),
    (Set(3, "i", 1), ""),
    (Remove(3), ""),
    (Instantiate(0), "3"),
];

// An argument, the exports of a node and a node with its aliases are taken away; none of these calls takes memory.
const TAKEN: Rows = &[
    (Register("my:package1", &[], &[("a", Plain)]), ""),
    (Register("my:package2", &[("b", Plain)], &[]), ""),
    (Instantiate(0), "0"),
    (Alias(0, "a"), "1"),
    (Instantiate(1), "2"),
    (Instantiate(1), "3"),
    (Set(2, "b", 1), ""),
    (Set(3, "b", 1), ""),
    (Export(1, "x"), ""),
    (Export(1, "y"), ""),
    (Export(2, "z"), ""),
    (Unset(2, "b", 1), ""),
    (Unexport(1), ""),
    (Remove(0), ""),
    (Remove(3), ""),
    (Has(1), "false"),
    (Satisfied(2), "0"),
    (Exported("x"), "none"),
    (Exported("z"), "2"),
];

const TABLES: &[(Rows, Rows)] = &[
    (NUMBERS, &[]),
    (IMPORT, &[]),
    (TAKEN, &[]),
    (
        EXPORTS,
        &[(
            Encode(How::Plain),
            "0061736d0d00010004080061736d0d0001000507020000000000000b0d02000164050100000163050000",
        )],
    ),
    // An argument that is removed, or whose instance is, is asked for.
    (ARGUMENT, &[(Asked, "b: function; b: function; ")]),
    (BEHIND, &[(Asked, "b: function; ")]),
    // One import serves all that ask for it.
    (
        SHARED,
        &[
            (Asked, "i: instance; i: instance; "),
            (
                Sections(&[
                    "0703014200",
                    "0a06010001690500",
                    "04080061736d0d000100",
                    "050f020000010169050000000101690500",
                ]),
                "",
            ),
        ],
    ),
    // A cycle is named after a removal.
    (RING, &[(Refusal, "1")]),
];

#[test]
fn nodes_are_removed(rt: HostRuntime) {
    assert_tables(&rt, TABLES);
}
