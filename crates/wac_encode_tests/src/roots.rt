//! Roots: what a component imports and defines, and its bytes.

use crate::defined::define_all;
use crate::merged::import_merge;
use crate::opened::import_all;
use crate::rows::{Items, assert_row};
use crate::tables::{RootRow, definitions, inside, merges, names, resources, sorts, told};
use std::process::Abort;
use wac_encode_scopes::{ClosedTypes, State};

// The bytes of a component that imports items one by one, of types of the merged collection or of the graph's own.
fn imported(rt: &impl Abort, items: &Items, merged: bool, row: &RootRow) -> Vec<u8> {
    let closed = ClosedTypes::new(&items.types).expect(rt, "the closed definitions");
    let mut state = State::root(items.types.allocator());
    import_all(rt, items, &closed, merged, &mut state, row.imports);
    define_all(rt, items, &closed, merged, &mut state, row.definitions);
    state.into_builder().into_bytes().expect(rt, "bytes")
}

// The bytes of a component that imports items as a merge.
fn merged(rt: &impl Abort, items: &Items, row: &RootRow) -> Vec<u8> {
    let closed = ClosedTypes::new(&items.types).expect(rt, "the closed definitions");
    let mut state = import_merge(rt, items, row.imports);
    define_all(rt, items, &closed, false, &mut state, row.definitions);
    state.into_builder().into_bytes().expect(rt, "bytes")
}

// Each is written so, its items one by one.
fn assert_imported(rt: &(impl Abort + AllocGlobal), rows: &[RootRow]) {
    for row in rows {
        let items = Items::new(rt, rt.alloc(), row.rows);
        let bytes = imported(rt, &items, true, row);
        assert_row(rt, bytes.as_slice().get(8..) == Some(row.want), row.name);
        let bytes = imported(rt, &items, false, row);
        assert_row(rt, bytes.as_slice().get(8..) == Some(row.want), row.name);
    }
}

// Each is written so, its items as a merge.
fn assert_merged(rt: &(impl Abort + AllocGlobal), rows: &[RootRow]) {
    for row in rows {
        let items = Items::new(rt, rt.alloc(), row.rows);
        let bytes = merged(rt, &items, row);
        assert_row(rt, bytes.as_slice().get(8..) == Some(row.want), row.name);
    }
}

// Each is written so, its items one by one and as a merge.
fn assert_written(rt: &(impl Abort + AllocGlobal), rows: &[RootRow]) {
    assert_imported(rt, rows);
    assert_merged(rt, rows);
}

#[test]
fn own_and_used_resources_are_written(rt: HostRuntime) {
    assert_written(&rt, resources::RESOURCES);
}

#[test]
fn resources_are_bound_scope_by_scope(rt: HostRuntime) {
    assert_written(&rt, resources::BOUND);
}

#[test]
fn types_are_taken_by_their_names(rt: HostRuntime) {
    assert_written(&rt, names::NAMES);
}

#[test]
fn types_are_taken_from_the_instances_that_export_them(rt: HostRuntime) {
    assert_written(&rt, names::LISTED);
}

#[test]
fn type_items_name_types_for_functions(rt: HostRuntime) {
    assert_written(&rt, names::FUNCTIONS);
}

#[test]
fn type_items_come_in_order(rt: HostRuntime) {
    assert_written(&rt, names::ORDERED);
}

#[test]
fn instances_inside_are_written(rt: HostRuntime) {
    assert_written(&rt, inside::INSIDE);
}

#[test]
fn interfaces_and_worlds_inside_are_written(rt: HostRuntime) {
    assert_written(&rt, inside::DEEP);
}

#[test]
fn types_are_written_once(rt: HostRuntime) {
    assert_imported(&rt, inside::ONCE);
}

#[test]
fn each_sort_of_item_is_imported_after_its_type(rt: HostRuntime) {
    assert_written(&rt, sorts::SORTS);
}

#[test]
fn components_are_imported(rt: HostRuntime) {
    assert_written(&rt, sorts::COMPONENTS);
}

#[test]
fn types_and_interfaces_are_defined(rt: HostRuntime) {
    assert_written(&rt, definitions::DEFINITIONS);
}

#[test]
fn worlds_are_defined(rt: HostRuntime) {
    assert_written(&rt, definitions::WORLDS);
}

#[test]
fn instances_of_a_merge_are_imported(rt: HostRuntime) {
    assert_merged(&rt, merges::OWN);
}

#[test]
fn records_are_taken_from_instances_of_a_merge(rt: HostRuntime) {
    assert_merged(&rt, merges::RECORDS);
}

#[test]
fn resources_of_a_merge_are_imported(rt: HostRuntime) {
    assert_merged(&rt, merges::MERGED_RESOURCES);
}

#[test]
fn imports_of_a_merge_come_in_order(rt: HostRuntime) {
    assert_merged(&rt, merges::MERGED_SORTS);
}

#[test]
fn core_modules_of_a_merge_are_imported(rt: HostRuntime) {
    assert_merged(&rt, merges::MODULES);
}

#[test]
fn definitions_take_imports(rt: HostRuntime) {
    assert_merged(&rt, told::TOLD);
}

#[test]
fn definitions_take_exports_of_merged_instances(rt: HostRuntime) {
    assert_merged(&rt, told::ALIASED);
}
