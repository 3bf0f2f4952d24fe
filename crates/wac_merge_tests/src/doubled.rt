//! Interfaces that are listed more than once in one, at one level or at many.

use crate::merged::Check::Lists;
use crate::merged::{Case, assert_merged, interface_of};
use crate::merging::finished;
use crate::rows::Row::{Instance, Plain, TypeOf};
use crate::rows::{Items, Row};
use std::alloc::Global;
use std::process::Abort;
use wac_merge_unions::uniting::unions::Unions;
use wac_types::{Interface, InterfaceId, ItemKind, Type, Types};

const DOUBLED: &[Case] = &[
    Case {
        name: "what is listed twice at each level stands at each place",
        rows: &[
            Plain,
            Instance(None, &[], &[("f", 0)]),
            Instance(None, &[], &[("a", 1), ("b", 1)]),
            Instance(None, &[], &[("a", 2), ("b", 2)]),
            Instance(None, &[], &[("x", 3)]),
            Instance(None, &[], &[("g", 0)]),
            Instance(None, &[], &[("a", 5), ("b", 5)]),
            Instance(None, &[], &[("a", 6), ("b", 6)]),
            Instance(None, &[], &[("x", 7)]),
        ],
        asked: &[("n:p/i@1.0.0", 4), ("n:p/i@1.1.0", 8)],
        checks: &[
            Lists(&["n:p/i@1.1.0", "x"], &["a", "b"]),
            Lists(&["n:p/i@1.1.0", "x", "a", "a"], &["f", "g"]),
            Lists(&["n:p/i@1.1.0", "x", "a", "b"], &["f", "g"]),
            Lists(&["n:p/i@1.1.0", "x", "b", "a"], &["f", "g"]),
            Lists(&["n:p/i@1.1.0", "x", "b", "b"], &["f", "g"]),
        ],
    },
    Case {
        name: "names under which others are listed keep their own",
        rows: &[
            Plain,
            Instance(None, &[], &[("f", 0)]),
            Instance(None, &[], &[("g", 0)]),
            Instance(None, &[], &[("a", 1), ("b", 1), ("c", 1)]),
            Instance(None, &[], &[("a", 1), ("b", 2)]),
        ],
        asked: &[("n:p/i@1.0.0", 3), ("n:p/i@1.1.0", 4)],
        checks: &[
            Lists(&["n:p/i@1.1.0", "a"], &["f"]),
            Lists(&["n:p/i@1.1.0", "b"], &["f", "g"]),
            Lists(&["n:p/i@1.1.0", "c"], &["f"]),
        ],
    },
    Case {
        name: "an instance and a type of one interface list the same",
        rows: &[
            Plain,
            Instance(None, &[], &[("f", 0)]),
            TypeOf(1),
            Instance(None, &[], &[("i", 1), ("t", 2)]),
        ],
        asked: &[("n:p/i", 3)],
        checks: &[
            Lists(&["n:p/i", "i"], &["f"]),
            Lists(&["n:p/i", "t"], &["f"]),
        ],
    },
];

#[test]
fn what_is_listed_twice_stands_at_each_place(rt: HostRuntime) {
    assert_merged(&rt, DOUBLED);
}

// An interface that lists these.
fn listing(rt: &impl Abort, types: &mut Types, exports: &[(&str, ItemKind)]) -> InterfaceId {
    let interface = Interface::new(types.allocator(), None, exports).expect(rt, "an interface");
    types.add_interface(interface).expect(rt, "its id")
}

// What lists an item twice, at so many levels.
fn above(rt: &impl Abort, types: &mut Types, item: ItemKind, levels: usize) -> ItemKind {
    let mut item = item;
    for _ in 0..levels {
        item = ItemKind::Instance(listing(rt, types, &[("a", item), ("b", item)]));
    }
    item
}

// How many unions there are of an interface alone.
fn unions(rt: &impl Abort, types: &Types, interface: InterfaceId) -> usize {
    let alloc = types.allocator();
    assert!(rt; types.contains(Type::Interface(interface)));
    let mut root = Vec::new(alloc);
    root.push(interface).expect(rt, "room for an interface");
    let mut roots = Vec::new(alloc);
    roots.push(root).expect(rt, "room for a root");
    let unions = Unions::new(alloc, types, roots.as_slice()).expect(rt, "the unions");
    unions.unions.len()
}

#[test]
fn there_is_one_union_for_each_level(rt: HostRuntime) {
    let mut types = Types::new(rt.alloc());
    let lowest = ItemKind::Instance(listing(&rt, &mut types, &[]));
    let highest = above(&rt, &mut types, lowest, 60);
    assert!(rt; unions(&rt, &types, interface_of(&rt, highest)) == 61);
}

const BASE: &[Row] = &[
    Row::Enumeration("a"),
    Row::Alias(0),
    Row::Instance(Some("n:p/j"), &[], &[("t", 1)]),
    Row::Resource("r"),
    Row::Own(3),
    Row::Taking(4),
    Row::Taking(1),
    Row::Instance(
        None,
        &[("t", 2, None)],
        &[("t", 1), ("r", 3), ("f", 5), ("g", 6)],
    ),
    Row::Plain,
    Row::Instance(None, &[], &[("h", 8)]),
];

// A merge of two imports that list an interface twice at each of so many levels ends, with these at the bottom.
fn assert_levels_are_merged(rt: &impl Abort, alloc: Global, first: usize, second: usize) {
    let mut items = Items::new(rt, alloc, BASE);
    let used = items.kind(rt, 2);
    let first = items.kind(rt, first);
    let second = items.kind(rt, second);
    let first = above(rt, &mut items.types, first, 40);
    let second = above(rt, &mut items.types, second, 40);
    let asked = [
        ("n:p/i@1.0.0", first),
        ("n:p/i@1.1.0", second),
        ("n:p/j", used),
    ];
    let merged = finished(alloc, rt, &items.types, asked.as_slice());
    assert!(rt; merged.is_ok());
}

#[test]
fn many_levels_are_merged(rt: HostRuntime) {
    assert_levels_are_merged(&rt, rt.alloc(), 7, 7);
}

#[test]
fn many_levels_over_others_are_merged(rt: HostRuntime) {
    assert_levels_are_merged(&rt, rt.alloc(), 7, 9);
}
