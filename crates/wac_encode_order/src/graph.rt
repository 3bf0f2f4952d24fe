//! The graph of type items and the types of which they are made.
ghost use Rattle.std.specs.Prelude.{◌≡◌, ◌≢◌, ◌+◌, ◌<◌, ◌^◌, ℕ, Option, Some, IfOk, OnOk, length, slice_get};
ghost use Rattle.std.specs.Option.{unwrap_or};
ghost use Rattle.wac_types_shapes.specs.declared.shapes.component.«Type».{«Type» as AnyType};
ghost use Rattle.wac_types_collection.specs.collection.Aliases.{type_resolved};
ghost use Rattle.wac_types_collection.specs.reach.Reach.{IsIn};
ghost use Rattle.wac_encode_order.specs.private.TypeItems.{named_type, with_id};
ghost use Rattle.wac_encode_order.specs.private.Graph.{Adds, AreNamed, AreReached, Below, IsPartOf, IsSource, ItemComesAfter, TypeComesAfter, flags};

use crate::parts::{listed_type, parts_of, resolve, type_at};
use std::alloc::AllocError;
use wac_edges::edges::{Edge, Edges, Label};
use wac_edges::node::NodeId;
use wac_types_collection::{ItemKind, Named, Reached, Type, Types, ValueType};

/// Type items and the types of which they are made, as nodes. The types come first.
#[derive(Clone, Copy)]
pub(crate) struct Graph<'a> {
    pub(crate) types: &'a Types,
    pub(crate) items: &'a Named<ItemKind>,
    pub(crate) found: &'a Reached,
}

impl<'a> Graph<'a> {
    /// The number of types.
    pub(crate) fn count(&self) -> usize
        ensures { result ≡ length self.now.found.now }
    {
        self.found.as_slice().len()
    }

    /// Returns the node of a type.
    fn node(&self, ty: Type) -> usize
        requires { IsIn ty self.now.found.now }
        ensures there { slice_get self.now.found.now result ≡ Some ty }
        ensures alone { (j : ℕ) → slice_get self.now.found.now j ≡ Some ty → j ≡ result }
    {
        let Some(node) = self.found.position(ty) else {
            unreachable!()
        };
        node
    }

    /// Names the type of an item by it, unless an earlier item names it.
    fn name_item(&self, position: usize, named: &mut [Option<usize>])
        requires here { position < length self.now.items.now }
        requires reached { AreReached self.now.types.now self.now.items.now self.now.found.now }
        requires named { AreNamed self.now.types.now self.now.items.now self.now.found.now position named.old }
        ensures { AreNamed self.now.types.now self.now.items.now self.now.found.now (position + 1) named.new }
    {
        let Some(ty) = type_named(self.types, *self.items.value_at(position)) else {
            return;
        };
        name(named, self.node(ty), position);
    }

    /// Returns the first item that names each type.
    pub(crate) fn names(&self) -> Result<Vec<Option<usize>>, AllocError>
        requires { AreReached self.now.types.now self.now.items.now self.now.found.now }
        ensures { IfOk result (λ named. AreNamed self.now.types.now self.now.items.now self.now.found.now (length self.now.items.now) named.items) }
    {
        let mut named = vec![in self.types.allocator(); None; self.count()]?;
        for position in 0..self.items.len() {
            self.name_item(position, named.as_mut_slice());
        }
        Ok(named)
    }

    /// Adds the edges to a type from one of which it is made, and from the first item that names that.
    fn add_part(
        &self,
        place: usize,
        part: Type,
        named: &[Option<usize>],
        edges: &mut Edges,
    ) -> Result<(), AllocError>
        requires room { length self.now.found.now + length self.now.items.now < 2 ^ 64 }
        requires reached { IsIn (type_resolved self.now.types.now part) self.now.found.now }
        requires named { AreNamed self.now.types.now self.now.items.now self.now.found.now (length self.now.items.now) named.now }
        ensures { OnOk result (Adds edges.old edges.new (λ a b. (b ≡ place) × IsSource self.now.types.now self.now.items.now self.now.found.now (type_resolved self.now.types.now part) a)) }
    {
        let source = self.node(resolve(self.types, part));
        depend(edges, source, place)?;
        match name_of(named, source) {
            Some(item) => depend(edges, self.count() + item, place),
            None => Ok(()),
        }
    }

    /// Adds the edges to a type.
    fn add_parts(
        &self,
        place: usize,
        named: &[Option<usize>],
        edges: &mut Edges,
    ) -> Result<(), AllocError>
        requires here { place < length self.now.found.now }
        requires room { length self.now.found.now + length self.now.items.now < 2 ^ 64 }
        requires reached { AreReached self.now.types.now self.now.items.now self.now.found.now }
        requires named { AreNamed self.now.types.now self.now.items.now self.now.found.now (length self.now.items.now) named.now }
        ensures { OnOk result (Adds edges.old edges.new (λ a b. (b ≡ place) × (t : AnyType) × (slice_get self.now.found.now place ≡ Some t) × IsPartOf self.now.types.now self.now.items.now self.now.found.now t a)) }
    {
        let parts = parts_of(self.types, type_at(self.found.as_slice(), place))?;
        for i in 0..parts.len() {
            let part = type_at(parts.as_slice(), i);
            self.add_part(place, part, named, edges)?;
        }
        Ok(())
    }

    /// Adds the edges to all types.
    pub(crate) fn add_types(
        &self,
        named: &[Option<usize>],
        edges: &mut Edges,
    ) -> Result<(), AllocError>
        requires room { length self.now.found.now + length self.now.items.now < 2 ^ 64 }
        requires reached { AreReached self.now.types.now self.now.items.now self.now.found.now }
        requires named { AreNamed self.now.types.now self.now.items.now self.now.found.now (length self.now.items.now) named.now }
        ensures { OnOk result (Adds edges.old edges.new (TypeComesAfter self.now.types.now self.now.items.now self.now.found.now)) }
    {
        for place in 0..self.count() {
            self.add_parts(place, named, edges)?;
        }
        Ok(())
    }

    /// Adds the edge to a type item from its type.
    fn add_item(&self, position: usize, edges: &mut Edges) -> Result<(), AllocError>
        requires here { position < length self.now.items.now }
        requires room { length self.now.found.now + length self.now.items.now < 2 ^ 64 }
        requires reached { AreReached self.now.types.now self.now.items.now self.now.found.now }
        ensures { OnOk result (Adds edges.old edges.new (ItemComesAfter self.now.types.now self.now.items.now self.now.found.now position)) }
    {
        let Some(ty) = listed_type(*self.items.value_at(position)) else {
            return Ok(());
        };
        let source = self.node(resolve(self.types, ty));
        depend(edges, source, self.count() + position)
    }

    /// Adds the edges to all type items.
    pub(crate) fn add_items(&self, edges: &mut Edges) -> Result<(), AllocError>
        requires room { length self.now.found.now + length self.now.items.now < 2 ^ 64 }
        requires reached { AreReached self.now.types.now self.now.items.now self.now.found.now }
        ensures { OnOk result (Adds edges.old edges.new (λ a b. Below (length self.now.items.now) (λ p. ItemComesAfter self.now.types.now self.now.items.now self.now.found.now p a b))) }
    {
        for position in 0..self.items.len() {
            self.add_item(position, edges)?;
        }
        Ok(())
    }

    /// Returns for each node whether it is to be put in order: all types, and the items that are chosen.
    pub(crate) fn left(&self, chosen: &[bool]) -> Result<Vec<bool>, AllocError>
        ensures { IfOk result (λ left. left.items ≡ flags self.now.found.now chosen.now) }
    {
        let mut left = vec![in self.types.allocator(); true; self.count()]?;
        left.extend_from_slice(chosen)?;
        Ok(left)
    }
}

/// The type, if it has an id.
fn type_with_id(ty: Type) -> Option<Type>
    ensures { result ≡ with_id ty }
{
    match ty {
        Type::Value(ValueType::Primitive(_) | ValueType::Own(_) | ValueType::Borrow(_)) => None,
        _ => Some(ty),
    }
}

/// The type that an item names.
fn type_named(types: &Types, item: ItemKind) -> Option<Type>
    ensures { result ≡ named_type types.now item }
{
    match item {
        ItemKind::TypeItem(ty) => type_with_id(resolve(types, ty)),
        _ => None,
    }
}

/// Returns the item that names a type, if there is one.
fn name_of(named: &[Option<usize>], place: usize) -> Option<usize>
    requires { place < length named.now }
    ensures { slice_get named.now place ≡ Some result }
{
    named[place]
}

/// Names a type by an item, unless an earlier item names it.
fn name(named: &mut [Option<usize>], place: usize, item: usize)
    requires { place < length named.old }
    ensures long { length named.new ≡ length named.old }
    ensures here { (o : Option ℕ) → slice_get named.old place ≡ Some o → slice_get named.new place ≡ Some (Some (unwrap_or o item)) }
    ensures others { (k : ℕ) → k ≢ place → slice_get named.new k ≡ slice_get named.old k }
{
    if named[place].is_none() {
        named[place] = Some(item);
    }
}

/// Adds an edge.
fn depend(edges: &mut Edges, source: usize, target: usize) -> Result<(), AllocError>
    ensures { OnOk result (Adds edges.old edges.new (λ a b. (a ≡ source) × (b ≡ target))) }
{
    edges.add(Edge {
        source: NodeId(source),
        target: NodeId(target),
        label: Label::Dependency,
    })
}
