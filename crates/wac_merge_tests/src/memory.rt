//! A merge is looked at without memory.

use crate::merging::finished;
use crate::rows::Row::{Instance, Plain, Resource};
use crate::rows::{Item, Items, Row, assert_row};
use std::process::Abort;
use wac_merge::TypeAggregator;

// A resource that an import binds, and an instance that is imported in two versions.
const ROWS: &[Row] = &[
    Plain,
    Resource("r"),
    Instance(Some("n:p/i"), &[], &[("r", 1)]),
    Instance(None, &[], &[("f", 0)]),
];

const ASKED: &[Item] = &[("n:p/i", 2), ("a:b/c@0.2.0", 3), ("a:b/c@0.2.3", 3)];

// `tools/refused` refuses this test all growths from one on, so that what follows the last has no memory.
#[test]
fn a_merge_is_looked_at_without_memory(rt: HostRuntime) {
    let items = Items::new(&rt, rt.alloc(), ROWS);
    let asked = items.asked(&rt, ASKED);
    let merge = finished(rt.alloc(), &rt, &items.types, &asked).expect(&rt, "a merge");
    let resource = items.resource(&rt, 1);
    let _ = String::from_str(rt.alloc(), "the last growth");
    let aggregator = TypeAggregator::new(rt.alloc());
    assert_row(&rt, aggregator.entries().is_empty(), "no entries");
    assert_row(&rt, merge.entries().len() == 3, "entries");
    assert_row(&rt, merge.imports().len() == 2, "imports");
    assert_row(&rt, !merge.types().holds_no_resource(), "types");
    assert_row(&rt, merge.resource("n:p/i", "r").is_some(), "a resource");
    assert_row(&rt, merge.root_binding(resource).is_some(), "a binding");
    let name = merge.canonical_import_name("a:b/c@0.2.0");
    assert_row(&rt, name == "a:b/c@0.2.3", "a name");
}
