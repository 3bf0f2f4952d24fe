//! Entries as items of the table of types, and the first two that disagree.
ghost use Rattle.std.specs.Prelude.{◌≡◌, ◌<◌, true, length, map, Some, None, IfOk, OnOk, slice_get, string_bytes};
ghost use Rattle.std.specs.Option.{IfNone, MatchOption};
ghost use Rattle.wac_types_collection.specs.collection.Collection.{holds_type};
ghost use Rattle.wac_types_shapes.specs.shapes.Kinds.{kind_type};
ghost use Rattle.wac_types_shapes.specs.primitives.Name.{Name};
ghost use Rattle.wac_types_shapes.specs.declared.shapes.component.«Type».TheVariants as ty;
ghost use Rattle.wac_merge_classes.specs.entries.Agreement.{AllMembersAgree, joined};
ghost use Rattle.wac_merge_classes.specs.entries.Bindings.{AreBindings, AreHeld};
ghost use Rattle.wac_merge_classes.specs.entries.Classes.{AreClasses, by_names, class_names};
ghost use Rattle.wac_merge_trees.specs.private.coding.Coding.{IsGrown};
ghost use Rattle.wac_merge_trees.specs.private.coding.Listings.{AreKnown};
ghost use Rattle.wac_merge_agreement.specs.private.agreement.Worlds.{AreWorlds, HasNumberToo, HasUnmarkedToo};
ghost use Rattle.wac_merge_agreement.specs.private.agreement.Marks.{AreMarks};
ghost use Rattle.wac_merge_agreement.specs.private.agreement.Compared.{AreCompared, IsItemOf};
ghost use Rattle.wac_merge_trees.specs.private.coding.CallsView.{AreNamed};
ghost use Rattle.wac_merge_classes.specs.terms.Faults.{Disagrees};
ghost use Rattle.wac_merge_classes.specs.terms.NoDisagreement.{HasNoDisagreement};
ghost use Rattle.wac_merge_tables.specs.private.tables.NodeViews.{item_view};

use crate::agreeing::agreement::first_disagreement;
use crate::agreement::apart::path_apart;
use crate::agreement::flags::flag_of;
use crate::agreement::marks::mark_through;
use crate::agreement::reach::type_of;
use crate::agreement::worlds::nested_worlds;
use std::alloc::{AllocError, Global};
use wac_merge_classes::entries::bindings::Bindings;
use wac_merge_classes::entries::classes::Classes;
use wac_merge_classes::entries::entry::Entry;
use wac_merge_classes::entries::naming::bound_in;
use wac_merge_classes::entries::outward::outward_in;
use wac_merge_classes::entries::scopes::{Opener, Scopes, known_number};
use wac_merge_tables::tables::nodes::{Item, Nodes};
use wac_merge_trees::coding::calls::Calls;
use wac_merge_trees::coding::coder::Source;
use wac_merge_trees::coding::listing::scope_instance;
use wac_merge_trees::coding::listings::{listed_item, listings};
use wac_merge_trees::coding::memo::Memo;
use wac_types_collection::{ItemKind, Type, Types, WorldId};

/// Returns the item of an entry in the table. `source` is outside the scopes of the entry.
fn source_item<'a>(
    memo: &mut Memo,
    nodes: &mut Nodes<'a>,
    source: &Source<'a, '_>,
) -> Result<Item, AllocError>
    requires held { holds_type source.now.types.now (kind_type source.now.calls.now.kind) ≡ true }
    requires named { AreNamed source.now.types.now source.now.calls.now }
    requires known { AreKnown nodes.old source.now.types.now source.now.calls.now.known.now }
    requires outermost { source.now.calls.now.scope ≡ None }
    ensures grown { IsGrown nodes.old nodes.new }
    ensures item { IfOk result (λ x. (name : Name) → slice_get (class_names by_names source.now.calls.now.entries.now) source.now.calls.now.class ≡ Some name
        → IsItemOf nodes.new source.now.types.now source.now.calls.now.entries.now name source.now.calls.now.kind (item_view x)) }
{
    let kind = source.calls.kind;
    let listings = listings(memo, nodes, source)?;
    if let ItemKind::Instance(id) = kind {
        let calls = source.calls.at(0);
        let inside = source.with(&calls);
        let items = listings[0].as_slice();
        let number = scope_instance(memo, nodes, &inside, Opener::Interface(id), items)?;
        return Ok(Item::Instance(number));
    }
    memo.clear();
    listed_item(memo, nodes, source, kind, listings.as_slice())
}

/// The entries of a collection, and what their classes bind.
#[derive(Clone, Copy)]
struct Asked<'a, 'b> {
    /// The collection, from which nodes borrow names.
    types: &'a Types,
    /// The entries.
    entries: &'b [Entry],
    /// What their classes bind.
    bindings: &'b Bindings,
}

/// Returns the item of an entry of a class in the table.
fn entry_item<'a>(
    alloc: Global,
    memo: &mut Memo,
    nodes: &mut Nodes<'a>,
    asked: &Asked<'a, '_>,
    known: &[Option<usize>],
    class: usize,
    kind: ItemKind,
) -> Result<Item, AllocError>
    requires held { holds_type asked.now.types.now (kind_type kind) ≡ true }
    requires known { AreKnown nodes.old asked.now.types.now known.now }
    requires bindings { AreBindings asked.now.types.now asked.now.entries.now asked.now.bindings.now }
    requires class { class < length (class_names by_names asked.now.entries.now) }
    ensures grown { IsGrown nodes.old nodes.new }
    ensures item { IfOk result (λ x. (name : Name) → slice_get (class_names by_names asked.now.entries.now) class ≡ Some name → IsItemOf nodes.new asked.now.types.now asked.now.entries.now name kind (item_view x)) }
{
    let types = asked.types;
    let scopes = Scopes::new(alloc, types, known, kind)?;
    let found = bound_in(alloc, types, &scopes)?;
    let bound = found.as_slice();
    let ways = outward_in(alloc, &scopes, bound)?;
    let outward = ways.as_slice();
    let calls = Calls {
        entries: asked.entries,
        bindings: asked.bindings,
        class,
        kind,
        scopes: &scopes,
        bound,
        outward,
        known,
        scope: None,
    };
    let source = Source {
        alloc,
        types,
        calls: &calls,
    };
    source_item(memo, nodes, &source)
}

/// Records the number of a world, and none for worlds before it that have none.
fn put_number(known: &mut Vec<Option<usize>>, id: WorldId, number: usize) -> Result<(), AllocError>
    ensures { OnOk result (HasNumberToo known.old.items id number known.new.items) }
{
    while known.len() <= id.0 {
        known.push(None)?;
    }
    known[id.0] = Some(number);
    Ok(())
}

/// Records the number of a world unless it is marked.
fn put_unmarked(
    known: &mut Vec<Option<usize>>,
    marks: &[bool],
    id: WorldId,
    number: usize,
) -> Result<(), AllocError>
    ensures { OnOk result (HasUnmarkedToo marks.now known.old.items id number known.new.items) }
{
    if flag_of(number, marks) {
        return Ok(());
    }
    put_number(known, id, number)
}

/// Puts a world into the table, unless its number is known. Records its number if it is the same in each scope.
fn number_world<'a>(
    memo: &mut Memo,
    nodes: &mut Nodes<'a>,
    asked: &Asked<'a, '_>,
    known: &mut Vec<Option<usize>>,
    marks: &mut Vec<bool>,
    class: usize,
    id: WorldId,
) -> Result<(), AllocError>
    requires held { holds_type asked.now.types.now (ty.World id) ≡ true }
    requires known { AreKnown nodes.old asked.now.types.now known.old.items }
    requires marks { AreMarks nodes.old marks.old.items }
    requires bindings { AreBindings asked.now.types.now asked.now.entries.now asked.now.bindings.now }
    requires class { class < length (class_names by_names asked.now.entries.now) }
    ensures grown { IsGrown nodes.old nodes.new }
    ensures known { OnOk result (AreKnown nodes.new asked.now.types.now known.new.items) }
    ensures marks { OnOk result (AreMarks nodes.new marks.new.items) }
{
    match known_number(known.as_slice(), Type::World(id)) {
        Some(_) => Ok(()),
        None => {
            let alloc = asked.types.allocator();
            let kind = ItemKind::TypeItem(Type::World(id));
            let item = entry_item(alloc, memo, nodes, asked, known.as_slice(), class, kind)?;
            let number = type_of(item);
            mark_through(nodes, marks, number)?;
            put_unmarked(known, marks.as_slice(), id, number)
        }
    }
}

/// Puts worlds into the table, unless their numbers are known, up to the first that is not the same in each scope.
/// Records the numbers of those before it.
fn number_all<'a>(
    memo: &mut Memo,
    nodes: &mut Nodes<'a>,
    asked: &Asked<'a, '_>,
    known: &mut Vec<Option<usize>>,
    marks: &mut Vec<bool>,
    class: usize,
    worlds: &[WorldId],
) -> Result<(), AllocError>
    requires worlds { AreWorlds asked.now.types.now worlds.now }
    requires known { AreKnown nodes.old asked.now.types.now known.old.items }
    requires marks { AreMarks nodes.old marks.old.items }
    requires bindings { AreBindings asked.now.types.now asked.now.entries.now asked.now.bindings.now }
    requires class { class < length (class_names by_names asked.now.entries.now) }
    ensures grown { IsGrown nodes.old nodes.new }
    ensures known { OnOk result (AreKnown nodes.new asked.now.types.now known.new.items) }
    ensures marks { OnOk result (AreMarks nodes.new marks.new.items) }
{
    for i in 0..worlds.len() {
        number_world(memo, nodes, asked, known, marks, class, worlds[i])?;
        // The worlds around one that is not the same in each scope mostly are not either.
        if known_number(known.as_slice(), Type::World(worlds[i])).is_none() {
            return Ok(());
        }
    }
    Ok(())
}

/// Puts the worlds into the table that an entry mentions, and records the numbers of those that are the same in each of
/// its scopes.
fn number_worlds<'a>(
    memo: &mut Memo,
    nodes: &mut Nodes<'a>,
    asked: &Asked<'a, '_>,
    known: &mut Vec<Option<usize>>,
    marks: &mut Vec<bool>,
    class: usize,
    kind: ItemKind,
) -> Result<(), AllocError>
    requires held { holds_type asked.now.types.now (kind_type kind) ≡ true }
    requires known { AreKnown nodes.old asked.now.types.now known.old.items }
    requires marks { AreMarks nodes.old marks.old.items }
    requires bindings { AreBindings asked.now.types.now asked.now.entries.now asked.now.bindings.now }
    requires class { class < length (class_names by_names asked.now.entries.now) }
    ensures grown { IsGrown nodes.old nodes.new }
    ensures known { OnOk result (AreKnown nodes.new asked.now.types.now known.new.items) }
    ensures marks { OnOk result (AreMarks nodes.new marks.new.items) }
{
    let worlds = nested_worlds(asked.types, kind)?;
    number_all(memo, nodes, asked, known, marks, class, worlds.as_slice())
}

/// Returns the item of each entry in the table.
///
/// # Errors
/// - [`AllocError`] if out of memory.
pub fn entry_items<'a>(
    alloc: Global,
    nodes: &mut Nodes<'a>,
    types: &'a Types,
    entries: &[Entry],
    classes: &Classes,
    bindings: &Bindings,
) -> Result<Vec<Item>, AllocError>
    requires held { AreHeld types.now entries.now }
    requires classes { AreClasses by_names entries.now classes.now.numbers.items classes.now.positions.items classes.now.names }
    requires bindings { AreBindings types.now entries.now bindings.now }
    ensures grown { IsGrown nodes.old nodes.new }
    ensures counted { IfOk result (λ xs. length xs.items ≡ length entries.now) }
    ensures items { IfOk result (λ xs. AreCompared nodes.new types.now entries.now (map item_view xs.items)) }
{
    let asked = Asked {
        types,
        entries,
        bindings,
    };
    let numbers = classes.numbers();
    let mut memo = Memo::new(alloc);
    let mut known = Vec::new(alloc);
    let mut marks = Vec::new(alloc);
    let mut items = Vec::new(alloc);
    for i in 0..entries.len() {
        let kind = entries[i].kind();
        let class = numbers[i];
        number_worlds(
            &mut memo, nodes, &asked, &mut known, &mut marks, class, kind,
        )?;
        let worlds = known.as_slice();
        items.push(entry_item(alloc, &mut memo, nodes, &asked, worlds, class, kind)?)?;
    }
    Ok(items)
}

/// Two entries of one class that disagree.
#[derive(Drop)]
pub struct Disagreement {
    /// The position of the earlier entry.
    pub first: usize,
    /// The position of the later entry.
    pub second: usize,
    /// The names of the exports that lead to the disagreement, joined by `/`.
    pub export: String,
}

/// Joins names by `/`.
fn join(alloc: Global, names: &[String]) -> Result<String, AllocError>
    ensures { IfOk result (λ text. string_bytes text ≡ joined (map string_bytes names.now)) }
{
    let mut text = String::new(alloc);
    for i in 0..names.len() {
        if i > 0 {
            text.push('/')?;
        }
        text.push_str(names[i].as_str())?;
    }
    Ok(text)
}

/// Returns the first disagreement.
///
/// The later entry is the earliest one that disagrees with an earlier one of its class. The earlier entry is the
/// earliest one that it disagrees with.
///
/// # Errors
/// - [`AllocError`] if out of memory.
pub fn first_pair(
    alloc: Global,
    nodes: &Nodes,
    types: &Types,
    entries: &[Entry],
    classes: &Classes,
    items: &[Item],
) -> Result<Option<Disagreement>, AllocError>
    requires held { AreHeld types.now entries.now }
    requires classes { AreClasses by_names entries.now classes.now.numbers.items classes.now.positions.items classes.now.names }
    requires counted { length items.now ≡ length entries.now }
    requires items { AreCompared nodes.now types.now entries.now (map item_view items.now) }
    ensures first { IfOk result (λ o. MatchOption o (HasNoDisagreement by_names types.now entries.now) (λ d. Disagrees by_names types.now entries.now d.first d.second (string_bytes d.export))) }
    ensures agreed { IfOk result (λ o. IfNone o (AllMembersAgree by_names types.now entries.now)) }
{
    types.law(); // proof only
    let Some((first, second)) = first_disagreement(alloc, nodes, items, classes.numbers())? else {
        return Ok(None);
    };
    let kind = entries[second].kind();
    let names = path_apart(alloc, types, nodes, items[first], items[second], kind)?;
    let export = join(alloc, names.as_slice())?;
    Ok(Some(Disagreement {
        first,
        second,
        export,
    }))
}
