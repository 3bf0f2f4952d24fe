//! Items that the root imports as a merge.

ghost use Rattle.std.specs.Prelude.{◌≡◌, false, true};
ghost use Rattle.wac_types_shapes.specs.shapes.Kinds.{kind_type};
ghost use Rattle.wac_types_collection.specs.collection.Collection.{holds_type};
ghost use Rattle.wac_merge_classes.specs.entries.Bindings.{AreHeld};
ghost use Rattle.wac_encode_imports.specs.private.Imports.{AreImported};
ghost use Rattle.wac_encode_tests.specs.private.Merged.{AreClassResources, HasNoEntryFault, HasNoFaultIn, IsMergeOf};
ghost use Rattle.wac_encode_tests.specs.private.Opened.{IsRootOf};

use crate::rows::{Item, Items};
use indexmap::IndexSet;
use std::process::Abort;
use wac_encode_faults::{Role, lowest_fault};
use wac_encode_imports::laws::distinct_classes_law;
use wac_encode_imports::{WrittenImports, tell_graph, write_imports};
use wac_encode_scopes::State;
use wac_merge::TypeAggregator;
use wac_merge::laws::import_fault_law;
use wac_types_collection::Types;
use wac_types_shapes::{ItemKind, ResourceId};

// An aggregator with these entries.
fn aggregated(rt: &impl Abort, items: &Items, imports: &[Item]) -> TypeAggregator
    ensures { AreHeld items.now.types result.entries }
{
    let types = &items.types;
    let mut aggregator = TypeAggregator::new(types.allocator());
    for i in 0..imports.len() {
        let (name, place) = imports[i];
        let kind = items.kind(rt, place);
        assert!(rt; types.contains(kind.ty()));
        aggregator = aggregator
            .aggregate(name, types, kind)
            .expect(rt, "an entry");
    }
    aggregator
}

// The merge of these items.
fn merge_of(rt: &impl Abort, items: &Items, imports: &[Item]) -> TypeAggregator
    ensures { IsMergeOf items.now.types result }
{
    let aggregator = aggregated(rt, items, imports);
    aggregator.finish(&items.types).expect(rt, "a merge")
}

// Adds a resource, if a class binds it.
fn add_if_bound(
    rt: &impl Abort,
    bound: &mut IndexSet<ResourceId>,
    merge: &TypeAggregator,
    resource: ResourceId,
)
    requires finished { merge.now.is_finished ≡ true }
    requires bound { AreClassResources merge.now bound.old.keys }
    ensures { AreClassResources merge.now bound.new.keys }
{
    match merge.root_binding(resource) {
        Some(_) => {
            bound.insert(resource).expect(rt, "room for a resource");
        }
        None => {}
    }
}

// The resources of the items that classes of the merge bind.
fn class_resources(rt: &impl Abort, items: &Items, merge: &TypeAggregator) -> IndexSet<ResourceId>
    requires { merge.now.is_finished ≡ true }
    ensures { AreClassResources merge.now result.keys }
{
    let resources = items.resources(rt);
    let mut bound = IndexSet::new(items.types.allocator());
    for i in 0..resources.len() {
        add_if_bound(rt, &mut bound, merge, resources[i]);
    }
    bound
}

// An item has no fault as an import of the root, which binds the resources that classes of the merge bind.
fn assert_no_fault(
    rt: &impl Abort,
    types: &Types,
    bound: &IndexSet<ResourceId>,
    merge: &TypeAggregator,
    item: ItemKind,
)
    requires held { holds_type types.now (kind_type item) ≡ true }
    requires bound { AreClassResources merge.now bound.now.keys }
    requires merge { IsMergeOf types.now merge.now }
    ensures { HasNoFaultIn types.now (merge.now).entries item }
{
    let fault = lowest_fault(types, bound, Role::Imported, item);
    let None = fault.expect(rt, "room for sets") else {
        panic!(rt; "a fault");
    };
}

// No entry of the merge has a fault.
fn assert_no_faults(rt: &impl Abort, items: &Items, merge: &TypeAggregator)
    requires { IsMergeOf items.now.types merge.now }
    ensures { HasNoEntryFault items.now.types (merge.now).entries }
{
    let bound = class_resources(rt, items, merge);
    let entries = merge.entries();
    for i in 0..entries.len() {
        let item = entries[i].kind();
        assert_no_fault(rt, &items.types, &bound, merge, item);
    }
}

// Writes the imports of a merge.
fn write_merge(rt: &impl Abort, types: &Types, merge: &TypeAggregator) -> WrittenImports
    requires merge { IsMergeOf types.now merge.now }
    requires faultless { HasNoEntryFault types.now (merge.now).entries }
    ensures { AreImported (merge.now).merge result.places.items result.state }
{
    distinct_classes_law(); // proof only
    import_fault_law(); // proof only
    write_imports(merge).expect(rt, "imports")
}

// The root with the imports of a merge, in which these are recorded for the entries' types.
fn told(rt: &impl Abort, types: &Types, merge: &TypeAggregator, written: WrittenImports) -> State
    requires merge { IsMergeOf types.now merge.now }
    requires faultless { HasNoEntryFault types.now (merge.now).entries }
    requires imported { AreImported (merge.now).merge written.places.items written.state }
    ensures { IsRootOf types.now false result }
{
    let WrittenImports { mut state, places } = written;
    let told = tell_graph(&mut state, types, merge, places.as_slice());
    told.expect(rt, "records");
    state
}

/// A root that imports these items as a merge.
pub fn import_merge(rt: &impl Abort, items: &Items, imports: &[Item]) -> State
    ensures { IsRootOf items.now.types false result }
{
    let merge = merge_of(rt, items, imports);
    assert_no_faults(rt, items, &merge);
    let written = write_merge(rt, &items.types, &merge);
    told(rt, &items.types, &merge, written)
}
