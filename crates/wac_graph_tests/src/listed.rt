// What a graph lists.
use super::bench::Call::{
    Alias, Arguments, Encode, Export, Import, Instantiate, Name, Named, Nodes, Packages, Register,
    Set, Unset,
};
use super::bench::Item::Plain;
use super::bench::{Bench, How, Rows, assert_tables};

// Two packages, the second instantiated first.
const NUMBERED: Rows = &[
    (Register("my:first", &[], &[("a", Plain)]), ""),
    (Register("my:second", &[], &[]), ""),
    (Import("i", Plain), "0"),
    (Instantiate(1), "1"),
    (Instantiate(0), "2"),
    (Alias(2, "a"), "3"),
    (
        Nodes,
        "0: function; 1: instance; 2: instance; 3: function; 0; 1; 2; 3; ",
    ),
    (Packages, "0: my:first; 1: my:second; "),
];

// Arguments that are set in another order than that of the world, of which one import has none.
const GIVEN: Rows = &[
    (
        Register(
            "my:package",
            &[("x", Plain), ("y", Plain), ("z", Plain)],
            &[],
        ),
        "",
    ),
    (Instantiate(0), "0"),
    (Instantiate(0), "1"),
    (Import("i", Plain), "2"),
    (Import("j", Plain), "3"),
    (Set(0, "z", 2), ""),
    (Set(0, "x", 3), ""),
    (Set(1, "y", 2), ""),
    (Arguments(0), "x: 3; z: 2; "),
    (Arguments(1), "y: 2; "),
    // An import, and no node.
    (Arguments(2), ""),
    (Arguments(9), ""),
    (Unset(0, "x", 3), ""),
    (Arguments(0), "z: 2; "),
];

// An empty graph.
const NOTHING: Rows = &[(Nodes, ""), (Packages, ""), (Arguments(0), "")];

// The function of one package given to another, and exported.
const CLONED: Rows = &[
    (Register("my:first", &[], &[("a", Plain)]), ""),
    (Register("my:second", &[("b", Plain)], &[]), ""),
    (Instantiate(0), "0"),
    (Instantiate(1), "1"),
    (Alias(0, "a"), "2"),
    (Set(1, "b", 2), ""),
    (Export(2, "x"), ""),
];

const BYTES: &str =
    "0061736d0d00010004080061736d0d000100050401000000060601010000016104080061736d0d000100050801000101016201000b0701000178010000";

// What the graph and a clone of it answer.
const ALIKE: Rows = &[
    (Encode(How::Plain), BYTES),
    (Nodes, "0: instance; 1: instance; 2: function; 0; 1; 2; "),
];

// What is done to the clone.
const CHANGED: Rows = &[
    (Export(2, "x"), "an export with the name `x` already exists"),
    (Register("my:third", &[], &[]), ""),
    (Instantiate(0), "3"),
    (Unset(1, "b", 2), ""),
    (Name(0, "n"), ""),
    (Named(0), "n"),
    (Arguments(1), ""),
];

// What the graph lists after that.
const KEPT: Rows = &[
    (Encode(How::Plain), BYTES),
    (Arguments(1), "b: 2; "),
    (Packages, "0: my:first; 1: my:second; "),
];

// What is there is listed in order.
const TABLES: &[(Rows, Rows)] = &[(NUMBERED, &[]), (GIVEN, &[]), (NOTHING, &[])];

#[test]
fn what_is_there_is_listed_in_order(rt: HostRuntime) {
    assert_tables(&rt, TABLES);
}

// The clone has all that the graph has under the same ids, and what is done to it leaves the graph.
#[test]
fn a_clone_stands_on_its_own(rt: HostRuntime) {
    let mut bench = Bench::new(rt.alloc());
    bench.calls(&rt, CLONED);
    bench.calls(&rt, ALIKE);
    let mut copy = bench.cloned(&rt);
    copy.calls(&rt, ALIKE);
    copy.calls(&rt, CHANGED);
    bench.calls(&rt, KEPT);
}
