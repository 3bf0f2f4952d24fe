//! The items of each scope of an entry, put into a table, innermost scopes first.
ghost use Rattle.std.specs.Prelude.{◌≡◌, ◌≢◌, ◌+◌, ◌<◌, true, List, [], length, None, Some, IfOk, OnOk, slice_get};
ghost use Rattle.wac_types_collection.specs.subtyping.Called.{Called};
ghost use Rattle.wac_types_shapes.specs.primitives.Tree.{TypeTree};
ghost use Rattle.wac_types_shapes.specs.declared.shapes.component.«Type».{«Type» as AnyType};
ghost use Rattle.wac_types_shapes.specs.declared.shapes.component.«Type».TheVariants as ty;
ghost use Rattle.wac_merge_tables.specs.private.tables.Nodes.{Node};
ghost use Rattle.wac_types_collection.specs.collection.Collection.{holds_all, holds_type, kind_types};
ghost use Rattle.wac_types_shapes.specs.shapes.Kinds.{kind_type};
ghost use Rattle.wac_merge_tables.specs.private.tables.NodeViews.{item_view};
ghost use Rattle.wac_merge_trees.specs.private.coding.CallsView.{AreNamed, names_in};
ghost use Rattle.wac_merge_trees.specs.private.coding.Coding.{source_tree, tree_in, HasSame, HasTree, IsGrown, IsRight};
ghost use Rattle.wac_merge_trees.specs.private.coding.ItemCoding.{AreItems, HasItem};
ghost use Rattle.wac_merge_trees.specs.private.coding.Listings.{at_scope, AreOpen, AreKnown, IsAround, AreListings, AreInnerListings};
ghost use Rattle.wac_merge_classes.specs.entries.Scopes.{listed_in, number_of, opened, opened_by, opened_by_type};
ghost use Rattle.wac_merge_classes.specs.declared.entries.scopes.Scope.{Scope as AScope};

use crate::coding::coder::Source;
use crate::coding::listing::{component, listed_kinds, scope_instance};
use crate::coding::memo::Memo;
use std::alloc::{AllocError, Global};
use wac_merge_classes::entries::scopes::{Opener, known_number};
use wac_merge_tables::tables::nodes::{Item, Nodes};
use wac_types_collection::subtyping::laws::trees_are_whole;
use wac_types_collection::{ItemKind, Named, Type, WorldId};

/// Returns the item of a kind that opens a scope, given the number of its type.
fn opened_item(kind: ItemKind, number: usize) -> Item
    ensures { (ns : List Node) (t : AnyType → TypeTree Called) → opened_by kind ≢ [] → HasTree ns (t (kind_type kind)) number → HasItem ns t kind (item_view result) }
{
    match kind {
        ItemKind::Instance(_) => Item::Instance(number),
        ItemKind::Component(_) => Item::Component(number),
        _ => Item::Type(number),
    }
}

/// Returns the number of a world's component that is not known, given the items of the scopes inside this one.
fn inner_component<'a>(
    memo: &mut Memo,
    nodes: &mut Nodes<'a>,
    source: &Source<'a, '_>,
    id: WorldId,
    listings: &[Vec<Item>],
) -> Result<usize, AllocError>
    requires held { holds_type source.now.types.now (ty.World id) ≡ true }
    requires named { AreNamed source.now.types.now source.now.calls.now }
    requires around { IsAround source.now.calls.now }
    requires unknown { number_of source.now.calls.now.known.now (ty.World id) ≡ None }
    requires opened { AreOpen source.now.calls.now (opened_by_type (ty.World id)) }
    requires counted { length listings.now ≡ length source.now.calls.now.scopes.now }
    requires listings { AreInnerListings nodes.old source.now.types.now source.now.calls.now listings.now }
    ensures same { HasSame memo.old memo.new }
    ensures grown { IsGrown nodes.old nodes.new }
    ensures number { IfOk result (λ n. HasTree nodes.new (source_tree source.now (ty.World id)) n) }
{
    trees_are_whole(source.types); // proof only
    let imports = source.calls.position(Opener::Imports(id));
    let calls = source.calls.at(imports);
    let inside = source.with(&calls);
    let exports = source.calls.position(Opener::Exports(id));
    let calls = source.calls.at(exports);
    let outside = source.with(&calls);
    let imported = listings[imports].as_slice();
    let exported = listings[exports].as_slice();
    component(memo, nodes, id, &inside, imported, &outside, exported)
}

/// Returns the number of a world's component: the known one, else that of the items of the scopes inside this one.
fn world_number<'a>(
    memo: &mut Memo,
    nodes: &mut Nodes<'a>,
    source: &Source<'a, '_>,
    id: WorldId,
    listings: &[Vec<Item>],
) -> Result<usize, AllocError>
    requires held { holds_type source.now.types.now (ty.World id) ≡ true }
    requires named { AreNamed source.now.types.now source.now.calls.now }
    requires known { AreKnown nodes.old source.now.types.now source.now.calls.now.known.now }
    requires around { IsAround source.now.calls.now }
    requires opened { AreOpen source.now.calls.now (opened_by_type (ty.World id)) }
    requires counted { length listings.now ≡ length source.now.calls.now.scopes.now }
    requires listings { AreInnerListings nodes.old source.now.types.now source.now.calls.now listings.now }
    ensures same { HasSame memo.old memo.new }
    ensures grown { IsGrown nodes.old nodes.new }
    ensures number { IfOk result (λ n. HasTree nodes.new (source_tree source.now (ty.World id)) n) }
{
    match known_number(source.calls.known, Type::World(id)) {
        Some(number) => Ok(number),
        None => inner_component(memo, nodes, source, id, listings),
    }
}

/// Returns the item of a kind in a scope, given the items of the scopes inside it.
///
/// # Errors
/// - [`AllocError`] if out of memory.
pub fn listed_item<'a>(
    memo: &mut Memo,
    nodes: &mut Nodes<'a>,
    source: &Source<'a, '_>,
    kind: ItemKind,
    listings: &[Vec<Item>],
) -> Result<Item, AllocError>
    requires held { holds_type source.now.types.now (kind_type kind) ≡ true }
    requires named { AreNamed source.now.types.now source.now.calls.now }
    requires known { AreKnown nodes.old source.now.types.now source.now.calls.now.known.now }
    requires right { IsRight (source_tree source.now) memo.old nodes.old }
    requires around { IsAround source.now.calls.now }
    requires opened { AreOpen source.now.calls.now (opened_by kind) }
    requires counted { length listings.now ≡ length source.now.calls.now.scopes.now }
    requires listings { AreInnerListings nodes.old source.now.types.now source.now.calls.now listings.now }
    ensures grown { IsGrown nodes.old nodes.new }
    ensures right { OnOk result (IsRight (source_tree source.now) memo.new nodes.new) }
    ensures item { IfOk result (λ x. HasItem nodes.new (source_tree source.now) kind (item_view x)) }
{
    trees_are_whole(source.types); // proof only
    match kind.ty() {
        Type::Interface(id) => {
            let position = source.calls.position(Opener::Interface(id));
            let calls = source.calls.at(position);
            let inside = source.with(&calls);
            let items = listings[position].as_slice();
            let number = scope_instance(memo, nodes, &inside, Opener::Interface(id), items)?;
            Ok(opened_item(kind, number))
        }
        Type::World(id) => {
            let number = world_number(memo, nodes, source, id, listings)?;
            Ok(opened_item(kind, number))
        }
        _ => memo.plain_item(nodes, source, kind),
    }
}

/// Returns the items of these kinds in a scope, given the items of the scopes inside it.
fn listed_items<'a>(
    memo: &mut Memo,
    nodes: &mut Nodes<'a>,
    source: &Source<'a, '_>,
    kinds: &Named<ItemKind>,
    listings: &[Vec<Item>],
) -> Result<Vec<Item>, AllocError>
    requires held { holds_all source.now.types.now (kind_types kinds.now) ≡ true }
    requires named { AreNamed source.now.types.now source.now.calls.now }
    requires known { AreKnown nodes.old source.now.types.now source.now.calls.now.known.now }
    requires around { IsAround source.now.calls.now }
    requires opened { AreOpen source.now.calls.now (opened kinds.now) }
    requires counted { length listings.now ≡ length source.now.calls.now.scopes.now }
    requires listings { AreInnerListings nodes.old source.now.types.now source.now.calls.now listings.now }
    ensures grown { IsGrown nodes.old nodes.new }
    ensures items { IfOk result (λ xs. AreItems nodes.new (source_tree source.now) kinds.now xs.items) }
{
    memo.clear();
    let mut items = Vec::with_capacity(source.alloc, kinds.len())?;
    for i in 0..kinds.len() {
        let kind = *kinds.value_at(i);
        items.push(listed_item(memo, nodes, source, kind, listings)?)?;
    }
    Ok(items)
}

/// Returns the items of the scope at `position`, given the items of the scopes after it.
fn listing_at<'a>(
    memo: &mut Memo,
    nodes: &mut Nodes<'a>,
    source: &Source<'a, '_>,
    position: usize,
    listings: &[Vec<Item>],
) -> Result<Vec<Item>, AllocError>
    requires named { AreNamed source.now.types.now source.now.calls.now }
    requires known { AreKnown nodes.old source.now.types.now source.now.calls.now.known.now }
    requires within { position < length source.now.calls.now.scopes.now }
    requires counted { length listings.now ≡ length source.now.calls.now.scopes.now }
    requires listings { AreListings nodes.old source.now.types.now source.now.calls.now (position + 1) listings.now }
    ensures grown { IsGrown nodes.old nodes.new }
    ensures items { IfOk result (λ xs. (t : AScope) → slice_get source.now.calls.now.scopes.now position ≡ Some t → AreItems nodes.new (tree_in source.now.types.now (names_in source.now.types.now (at_scope source.now.calls.now position))) (listed_in source.now.types.now t.opener) xs.items) }
{
    source.types.law(); // proof only
    let calls = source.calls.at(position);
    let inside = source.with(&calls);
    let kinds = listed_kinds(source.types, calls.scopes.scope(position).opener);
    listed_items(memo, nodes, &inside, kinds, listings)
}

/// Returns `count` empty lists of items.
fn unlisted(alloc: Global, count: usize) -> Result<Vec<Vec<Item>>, AllocError>
    ensures { IfOk result (λ v. length v.items ≡ count) }
{
    let mut listings = Vec::new(alloc);
    for _ in 0..count {
        listings.push(Vec::new(alloc))?;
    }
    Ok(listings)
}

/// Returns the items of each scope of an entry. The memo is cleared for each scope.
///
/// # Errors
/// - [`AllocError`] if out of memory.
pub fn listings<'a>(
    memo: &mut Memo,
    nodes: &mut Nodes<'a>,
    source: &Source<'a, '_>,
) -> Result<Vec<Vec<Item>>, AllocError>
    requires named { AreNamed source.now.types.now source.now.calls.now }
    requires known { AreKnown nodes.old source.now.types.now source.now.calls.now.known.now }
    ensures grown { IsGrown nodes.old nodes.new }
    ensures counted { IfOk result (λ v. length v.items ≡ length source.now.calls.now.scopes.now) }
    ensures listings { IfOk result (λ v. AreListings nodes.new source.now.types.now source.now.calls.now 0 v.items) }
{
    let mut position = source.calls.scopes.len();
    let mut listings = unlisted(source.alloc, position)?;
    while position > 0 {
        position -= 1;
        let items = listing_at(memo, nodes, source, position, listings.as_slice())?;
        listings[position] = items;
    }
    Ok(listings)
}
