//! The resources that classes of a graph's imports bind.
ghost use Rattle.std.specs.Prelude.{◌≡◌, true, IfOk, OnOk, Some};
ghost use Rattle.wac_graph.specs.private.Bound.{AddsResources, AreBound, IsBoundIn, IsListedBy, IsResourceUnder, ListsResource, item_resource as item_resource_of};
ghost use Rattle.wac_graph.specs.private.Kept.{KeepsImports};
ghost use Rattle.wac_graph_encode.specs.private.places.Places.{IsMergedFor};
ghost use Rattle.wac_types_collection.specs.collection.Collection.{holds_type};
ghost use Rattle.wac_types_shapes.specs.shapes.Kinds.{kind_type};

use crate::graph::CompositionGraph;
use indexmap::IndexSet;
use std::alloc::AllocError;
use wac_merge::TypeAggregator;
use wac_types::{ItemKind, Named, ResourceId, Type, Types};

/// Returns the resource of a type item.
fn item_resource(item: ItemKind) -> Option<ResourceId>
    ensures { result ≡ item_resource_of item }
{
    match item {
        ItemKind::TypeItem(Type::Resource(resource)) => Some(resource),
        _ => None,
    }
}

/// Adds a resource if a class binds it.
fn add_if_bound(
    bound: &mut IndexSet<ResourceId>,
    merge: &TypeAggregator,
    resource: ResourceId,
) -> Result<(), AllocError>
    requires { merge.now.is_finished ≡ true }
    ensures { OnOk result (AddsResources (λ r. (resource ≡ r) × IsBoundIn merge.now r) bound.old.keys bound.new.keys) }
{
    match merge.root_binding(resource) {
        Some(_) => {
            bound.insert(resource)?;
            Ok(())
        }
        None => Ok(()),
    }
}

/// Adds the resource of a type item if a class binds it.
fn add_item(
    bound: &mut IndexSet<ResourceId>,
    merge: &TypeAggregator,
    item: ItemKind,
) -> Result<(), AllocError>
    requires { merge.now.is_finished ≡ true }
    ensures { OnOk result (AddsResources (λ r. (item_resource_of item ≡ Some r) × IsBoundIn merge.now r) bound.old.keys bound.new.keys) }
{
    match item_resource(item) {
        Some(resource) => add_if_bound(bound, merge, resource),
        None => Ok(()),
    }
}

/// Adds the resources of the type items that classes bind.
fn add_items(
    bound: &mut IndexSet<ResourceId>,
    merge: &TypeAggregator,
    items: &Named<ItemKind>,
) -> Result<(), AllocError>
    requires { merge.now.is_finished ≡ true }
    ensures { OnOk result (AddsResources (λ r. IsListedBy IsResourceUnder items.now r × IsBoundIn merge.now r) bound.old.keys bound.new.keys) }
{
    for i in 0..items.len() {
        let (_, item) = items.entry_at(i);
        add_item(bound, merge, *item)?;
    }
    Ok(())
}

/// Adds the resources of an import that classes bind: its own, or those that it exports.
fn add_import(
    bound: &mut IndexSet<ResourceId>,
    types: &Types,
    merge: &TypeAggregator,
    item: ItemKind,
) -> Result<(), AllocError>
    requires finished { merge.now.is_finished ≡ true }
    requires held { holds_type types.now (kind_type item) ≡ true }
    ensures { OnOk result (AddsResources (λ r. ListsResource types.now item r × IsBoundIn merge.now r) bound.old.keys bound.new.keys) }
{
    match item {
        ItemKind::Instance(id) => {
            let interface = &types[id];
            add_items(bound, merge, &interface.exports)
        }
        _ => add_item(bound, merge, item),
    }
}

impl CompositionGraph {
    /// Returns the resources that classes of the graph's imports bind.
    pub(crate) fn bound_resources(
        &self,
        merge: &TypeAggregator,
    ) -> Result<IndexSet<ResourceId>, AllocError>
        requires merged { IsMergedFor self.now merge.now }
        requires kept { KeepsImports self.now merge.now }
        ensures { IfOk result (λ bound. AreBound self.now bound.keys) }
    {
        self.law(); // proof only
        self.types.law(); // proof only
        let mut bound = IndexSet::new(self.alloc);
        let entries = merge.entries();
        for i in 0..entries.len() {
            let kind = entries[i].kind();
            add_import(&mut bound, &self.types, merge, kind)?;
        }
        Ok(bound)
    }
}
