//! The instances and components of a table, made of the items of scopes.
ghost use Rattle.std.specs.Prelude.{◌≡◌, true, IfOk};
ghost use Rattle.wac_types_collection.specs.collection.Collection.{holds_type, world_imports, world_exports, HasWorld};
ghost use Rattle.wac_merge_classes.specs.entries.Scopes.{listed_in, opener_type, scope_tree};
ghost use Rattle.wac_types_shapes.specs.primitives.Tree.{instance};
ghost use Rattle.wac_merge_tables.specs.private.tables.NodeViews.{listed};
ghost use Rattle.wac_merge_trees.specs.private.coding.CallsView.{names_in};
ghost use Rattle.wac_merge_trees.specs.private.coding.Coding.{source_tree, IsGrown, HasSame, HasTree};
ghost use Rattle.wac_merge_trees.specs.private.coding.ItemCoding.{AreItems, Lists, listing_under, component_tree};

use crate::coding::coder::{Source, add};
use crate::coding::memo::Memo;
use crate::coding::order::{exchange_all, renew};
use std::alloc::AllocError;
use wac_merge_classes::entries::scopes::Opener;
use wac_merge_tables::tables::nodes::{Item, Node, Nodes};
use wac_types_collection::{ItemKind, Named, Types, WorldId};

/// Returns the items under their names, sorted by name.
fn entries<'a>(
    memo: &mut Memo,
    nodes: &Nodes,
    source: &Source,
    kinds: &'a Named<ItemKind>,
    items: &[Item],
) -> Result<Vec<(&'a str, Item)>, AllocError>
    requires { AreItems nodes.now (source_tree source.now) kinds.now items.now }
    ensures same { HasSame memo.old memo.new }
    ensures lists { IfOk result (λ v. Lists nodes.now (source_tree source.now) kinds.now (listed v.items)) }
{
    // `nodes` serves the contract alone.
    let _ = nodes;
    kinds.law(); // proof only
    let mut entries = Vec::with_capacity(source.alloc, kinds.len())?;
    for i in 0..kinds.len() {
        entries.push((kinds.name_at(i), items[i]))?;
    }
    exchange_all(entries.as_mut_slice(), memo.exchanges.as_slice());
    renew(source.alloc, &mut memo.exchanges, kinds, entries.as_slice())?;
    entries.sort_unstable_by(|a, b| a.0.cmp(b.0));
    Ok(entries)
}

/// Returns the number of the instance with these exports.
fn listing<'a>(
    memo: &mut Memo,
    nodes: &mut Nodes<'a>,
    source: &Source,
    kinds: &'a Named<ItemKind>,
    items: &[Item],
) -> Result<usize, AllocError>
    requires { AreItems nodes.old (source_tree source.now) kinds.now items.now }
    ensures same { HasSame memo.old memo.new }
    ensures grown { IsGrown nodes.old nodes.new }
    ensures number { IfOk result (λ n. HasTree nodes.new (instance (listing_under (source_tree source.now) kinds.now)) n) }
{
    let exports = entries(memo, nodes, source, kinds, items)?;
    add(nodes, Node::Instance(exports))
}

/// Returns the items of a scope.
pub fn listed_kinds(types: &Types, opener: Opener) -> &Named<ItemKind>
    requires { holds_type types.now (opener_type opener) ≡ true }
    ensures { result.now ≡ listed_in types.now opener }
{
    match opener {
        Opener::Interface(id) => &types[id].exports,
        Opener::Imports(id) => &types[id].imports,
        Opener::Exports(id) => &types[id].exports,
    }
}

/// Returns the number of the instance whose exports are the items of a scope. `items` are those already in the table.
///
/// # Errors
/// - [`AllocError`] if out of memory.
pub fn scope_instance<'a>(
    memo: &mut Memo,
    nodes: &mut Nodes<'a>,
    source: &Source<'a, '_>,
    opener: Opener,
    items: &[Item],
) -> Result<usize, AllocError>
    requires held { holds_type source.now.types.now (opener_type opener) ≡ true }
    requires items { AreItems nodes.old (source_tree source.now) (listed_in source.now.types.now opener) items.now }
    ensures same { HasSame memo.old memo.new }
    ensures grown { IsGrown nodes.old nodes.new }
    ensures number { IfOk result (λ n. HasTree nodes.new (scope_tree source.now.types.now (names_in source.now.types.now source.now.calls.now) opener) n) }
{
    let kinds = listed_kinds(source.types, opener);
    listing(memo, nodes, source, kinds, items)
}

/// Returns the number of the component of a world. `imported` and `exported` are the items of its sides in the table.
///
/// # Errors
/// - [`AllocError`] if out of memory.
pub fn component<'a>(
    memo: &mut Memo,
    nodes: &mut Nodes<'a>,
    id: WorldId,
    inside: &Source<'a, '_>,
    imported: &[Item],
    outside: &Source<'a, '_>,
    exported: &[Item],
) -> Result<usize, AllocError>
    requires inside { HasWorld inside.now.types.now id }
    requires outside { HasWorld outside.now.types.now id }
    requires imported { AreItems nodes.old (source_tree inside.now) (world_imports inside.now.types.now id) imported.now }
    requires exported { AreItems nodes.old (source_tree outside.now) (world_exports outside.now.types.now id) exported.now }
    ensures same { HasSame memo.old memo.new }
    ensures grown { IsGrown nodes.old nodes.new }
    ensures number { IfOk result (λ n. HasTree nodes.new (component_tree (source_tree inside.now) (world_imports inside.now.types.now id) (source_tree outside.now) (world_exports outside.now.types.now id)) n) }
{
    let imports = entries(memo, nodes, inside, &inside.types[id].imports, imported)?;
    let exports = entries(memo, nodes, outside, &outside.types[id].exports, exported)?;
    add(nodes, Node::Component(imports, exports))
}
