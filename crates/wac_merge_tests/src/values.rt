//! One named type is bound by one class, under one name.
ghost use Rattle.wac_merge_classes.specs.entries.Bindings.{AreHeld};

use crate::rows::Row::{Alias, Enumeration, Instance};
use crate::rows::{Item, Items, Row, assert_row};
use std::alloc::Global;
use std::process::Abort;
use wac_merge_classes::entries::classes::Classes;
use wac_merge_classes::entries::entry::Entry;
use wac_merge_resources::values::bindings::value_bindings;
use wac_types::{ItemKind, Types};

// The entries that are asked for.
fn asked_entries(
    alloc: Global,
    rt: &impl Abort,
    types: &Types,
    asked: &[(&str, ItemKind)],
) -> Vec<Entry>
    ensures { AreHeld types.now result.items }
{
    let mut entries = Vec::new(alloc);
    for i in 0..asked.len() {
        let (name, kind) = asked[i];
        assert!(rt; types.contains(kind.ty()));
        let entry = Entry::new(alloc, name, kind).expect(rt, "an entry");
        entries.push(entry).expect(rt, "room for an entry");
    }
    entries
}

// Types, what is asked for of them, and which class binds the definition at a place, under which name.
struct Bound {
    name: &'static str,
    rows: &'static [Row],
    asked: &'static [Item],
    place: usize,
    class: usize,
    listed: Option<&'static str>,
}

// An enumeration and its alias, which an interface lists as `t`; the same again, in another version.
const VERSIONS: &[Row] = &[
    Enumeration("a"),
    Alias(0),
    Instance(Some("a:b/c@0.2.0"), &[], &[("t", 1)]),
    Enumeration("a"),
    Alias(3),
    Instance(Some("a:b/c@0.2.3"), &[], &[("t", 4)]),
];

// A type that an interface lists, and that another uses and lists.
const USED: &[Row] = &[
    Enumeration("a"),
    Alias(0),
    Instance(Some("n:p/j"), &[], &[("t", 1)]),
    Instance(Some("n:p/i"), &[("t", 2, None)], &[("t", 1)]),
];

const BOUND: &[Bound] = &[
    Bound {
        name: "versions on one track bind a type in one class, the older",
        rows: VERSIONS,
        asked: &[("a:b/c@0.2.0", 2), ("a:b/c@0.2.3", 5)],
        place: 0,
        class: 0,
        listed: Some("t"),
    },
    Bound {
        name: "versions on one track bind a type in one class, the newer",
        rows: VERSIONS,
        asked: &[("a:b/c@0.2.0", 2), ("a:b/c@0.2.3", 5)],
        place: 3,
        class: 0,
        listed: Some("t"),
    },
    Bound {
        name: "a used type is bound where it is used from",
        rows: USED,
        asked: &[("n:p/i", 3), ("n:p/j", 2)],
        place: 0,
        class: 1,
        listed: Some("t"),
    },
    Bound {
        name: "a used type is bound where it is listed, if the other is not asked for",
        rows: USED,
        asked: &[("n:p/i", 3)],
        place: 0,
        class: 0,
        listed: Some("t"),
    },
    Bound {
        name: "a type item binds its type",
        rows: &[Enumeration("a"), Alias(0)],
        asked: &[("t", 1)],
        place: 0,
        class: 0,
        listed: None,
    },
];

// The definition is bound so.
fn is_bound(rt: &impl Abort, alloc: Global, bound: &Bound) -> bool {
    let items = Items::new(rt, alloc, bound.rows);
    let asked = items.asked(rt, bound.asked);
    let entries = asked_entries(alloc, rt, &items.types, &asked);
    let classes = Classes::new(alloc, entries.as_slice()).expect(rt, "classes");
    let bindings = value_bindings(alloc, &items.types, entries.as_slice(), &classes);
    let bindings = bindings.expect(rt, "bindings");
    match bindings.of(items.definition(rt, bound.place)) {
        Some(binding) => binding.class == bound.class && binding.name == bound.listed,
        None => false,
    }
}

#[test]
fn a_named_type_is_bound_by_one_class(rt: HostRuntime) {
    for bound in BOUND {
        assert_row(&rt, is_bound(&rt, rt.alloc(), bound), bound.name);
    }
}
