//! Look-ups of instantiations, imports and definitions.
ghost use Rattle.std.specs.Prelude.{◌≡◌, ◌<◌, ◌↔◌, IsSome, IsSomeAnd, IfSome, Some, ◌∷◌, [], MatchOption, None, slice_get, true};
ghost use Rattle.wac_types_collection.specs.collection.Collection.{holds_type};
ghost use Rattle.wac_edges.specs.Edge.{node_number};
ghost use Rattle.wac_graph_fields.specs.private.ImportsLeft.{unset_from, node_left};
ghost use Rattle.wac_graph_model.specs.nodes.Graph.{node_at, package_at, imports_of, instantiation, package_in, definition, IsImportOf};
ghost use Rattle.wac_graph_model.specs.nodes.Imports.{node_rows};
ghost use Rattle.wac_graph_model.specs.nodes.Nodes.{kind_of, has_position};
ghost use Rattle.std.specs.Option.{option_copied};
ghost use Rattle.wac_edges.specs.declared.node.NodeId.{NodeId as AnId};
ghost use Rattle.wac_types_shapes.specs.primitives.Name.{Name as AName};
ghost use Rattle.wac_types_shapes.specs.declared.shapes.component.ItemKind.TheVariants.{TypeItem};

use crate::reading::reader::GraphReader;
use std::alloc::Global;
use std::collections::HashSet;
use wac_graph_model::inner::{first_name, generation_of, slot_of};
use wac_graph_model::{NodeId, NodeKind, PackageId, Slot, first_gap};
use wac_types::{ItemKind, Named, Package, Type, Types};

impl<'a> GraphReader<'a> {
    /// The allocator.
    pub fn allocator(&self) -> Global {
        self.alloc
    }

    /// The collection of types.
    pub fn types(&self) -> &'a Types
        ensures { result.now ≡ self.now.types }
    {
        self.types
    }

    /// The kind of a node.
    pub fn kind(&self, n: NodeId) -> &'a NodeKind
        requires { IsSome (node_at self.now n) }
        ensures { IfSome (node_at self.now n) (λ node. node.kind ≡ kind_of result.now) }
    {
        self.nodes[n.0].kind()
    }

    /// The item that a node provides.
    pub fn item_kind(&self, n: NodeId) -> ItemKind
        requires { IsSome (node_at self.now n) }
        ensures { IfSome (node_at self.now n) (λ node. node.item_kind ≡ result) }
    {
        self.nodes[n.0].item_kind()
    }

    /// The package of an instantiation, with its id.
    pub fn package_of(&self, n: usize) -> (PackageId, &'a Package)
        requires { IsSomeAnd (node_at self.now (node_number n)) (λ node. node.kind ≡ instantiation) }
        ensures owner { IfSome (node_at self.now (node_number n)) (λ node. node.owner ≡ Some result.0) }
        ensures registered { package_at self.now result.0 ≡ Some result.1.now }
    {
        let Some(id) = self.nodes[n].package() else {
            unreachable!()
        };
        match package_in_slots(self.slots, id) {
            Some(package) => (id, package),
            None => unreachable!(),
        }
    }

    /// The imports of the world of an instantiation's package.
    pub fn imports_at(&self, n: usize) -> &'a Named<ItemKind>
        requires { IsSomeAnd (node_at self.now (node_number n)) (λ node. node.kind ≡ instantiation) }
        ensures { IfSome (node_at self.now (node_number n)) (λ node. result.now ≡ imports_of self.now node) }
    {
        let (_, package) = self.package_of(n);
        &self.types[package.ty()].imports
    }

    /// A number greater than every node's number.
    pub fn capacity(&self) -> usize
        ensures { (n : AnId) → IsSome (node_at self.now n) → n.0 < result }
    {
        self.nodes.capacity()
    }

    /// Whether there is no import node.
    pub fn imports_nothing(&self) -> bool
        ensures { (result ≡ true) ↔ ((name : AName) (n : AnId) → IsImportOf self.now name n → ⊥) }
    {
        self.imports.is_empty()
    }

    /// The name and type of the node with this number, if it is an import.
    pub fn import_node_at(&self, n: usize) -> Option<(&'a str, ItemKind)>
        ensures { MatchOption result (node_rows self.now n ≡ []) (λ r. node_rows self.now n ≡ (r.0.now, r.1, Some (node_number n)) ∷ []) }
    {
        let node = self.nodes.get(n)?;
        let name = node.import_name()?;
        Some((name, node.item_kind()))
    }

    /// The first export name of a definition, and the type that it defines.
    pub fn definition(&self, n: NodeId) -> (&'a str, Type)
        requires { IsSomeAnd (node_at self.now n) (λ node. node.kind ≡ definition) }
        ensures held { holds_type self.now.types result.1 ≡ true }
        ensures defined { IfSome (node_at self.now n) (λ node. (node.item_kind ≡ TypeItem result.1) × (node.first_name ≡ Some result.0.now)) }
    {
        let node = &self.nodes[n.0];
        let ItemKind::TypeItem(ty) = node.item_kind() else {
            unreachable!()
        };
        let Some(name) = first_name(node) else {
            unreachable!()
        };
        (name, ty)
    }

    /// The first unsatisfied import of a node from a position on: the next position, its name and its type.
    pub fn unset_at(&self, n: usize, from: usize) -> Option<(usize, &'a str, ItemKind)>
        ensures { MatchOption result (node_left self.now n from (node_at self.now (node_number n)) ≡ []) (λ r. node_left self.now n from (node_at self.now (node_number n)) ≡ (r.1.now, r.2, None) ∷ node_left self.now n r.0 (node_at self.now (node_number n))) }
    {
        let node = self.nodes.get(n)?;
        let NodeKind::Instantiation(satisfied) = node.kind() else {
            return None;
        };
        first_unset(satisfied, self.imports_at(n), from)
    }
}

/// The first import from a position on that is not in the set: the next position, its name and its type.
fn first_unset<'a>(
    satisfied: &HashSet<usize>,
    imports: &'a Named<ItemKind>,
    from: usize,
) -> Option<(usize, &'a str, ItemKind)>
    ensures { MatchOption result (unset_from (has_position satisfied.now) imports.now from ≡ []) (λ r. unset_from (has_position satisfied.now) imports.now from ≡ (r.1.now, r.2) ∷ unset_from (has_position satisfied.now) imports.now r.0) }
{
    let i = first_gap(satisfied, from, imports.len())?;
    Some((i + 1, imports.name_at(i), *imports.value_at(i)))
}

/// The package in the id's slot, if the slot has the id's generation.
pub fn package_in_slots(slots: &[Slot], id: PackageId) -> Option<&Package>
    ensures { option_copied result ≡ package_in (slice_get slots.now id.slot) id }
{
    match slots.get(slot_of(id)) {
        Some(slot) => {
            if slot.generation == generation_of(id) {
                slot.package.as_ref()
            } else {
                None
            }
        }
        None => None,
    }
}
