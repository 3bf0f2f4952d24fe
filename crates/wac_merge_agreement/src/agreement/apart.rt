//! The exports that lead to a disagreement of two items.
//!
//! Exports are compared in the order of the second item's interface. If both items export instances under a name, the
//! exports of these come next, so each pair is compared once. Enclosing instances wait in a list instead of on the
//! stack.
ghost use Rattle.std.specs.Prelude.{◌≡◌, ◌<◌, ◌↔◌, length, map, None, IfOk, IsTrue, string_bytes};
ghost use Rattle.std.specs.List.{AllByRecursion};
ghost use Rattle.std.specs.Option.{MatchOption, option_map};
ghost use Rattle.wac_types_shapes.specs.primitives.Name.{find_name, option_case};
ghost use Rattle.wac_merge_classes.specs.entries.Agreement.{AreInstances, LeadsApart};
ghost use Rattle.wac_merge_tables.specs.private.tables.Nodes.{Sorted, type_of, item_tree, tree_at};
ghost use Rattle.wac_merge_tables.specs.private.tables.NodeViews.{item_view, listed};
ghost use Rattle.wac_merge_agreement.specs.private.agreeing.Apart.{ItemsAgree};
ghost use Rattle.wac_merge_agreement.specs.private.agreement.Levels.{HasPassed, IsLevel, IsStart, Looks, name_of};
ghost use Rattle.wac_merge_agreement.specs.private.agreement.Shapes.{IsOfKind, IsShaped};
ghost use Rattle.wac_merge_agreement.specs.private.agreeing.Fitting.{exports_of};
ghost use Rattle.wac_types_collection.specs.collection.Collection.{Collection};

use crate::agreeing::fitting::exports;
use std::alloc::{AllocError, Global};
use std::cmp::Ordering;
use wac_merge_tables::tables::nodes::{Item, Nodes};
use wac_types_collection::{InterfaceId, ItemKind, Types};

/// Returns the item under a name in a sorted list.
fn find_export(exports: &[(&str, Item)], name: &str) -> Option<Item>
    requires { Sorted (listed exports.now) }
    ensures { option_map item_view result ≡ find_name (listed exports.now) name.now }
{
    let mut low = 0;
    let mut high = exports.len();
    while low < high {
        let middle = low + (high - low) / 2;
        let (key, item) = &exports[middle];
        match (*key).cmp(name) {
            Ordering::Less => low = middle + 1,
            Ordering::Equal => return Some(*item),
            Ordering::Greater => high = middle,
        }
    }
    None
}

/// Returns whether two items are equal.
fn is_one(first: Item, second: Item) -> bool
    ensures { IsTrue result ↔ (item_view first ≡ item_view second) }
{
    first == second
}

/// Returns the export of an item under a name, if it is an instance.
fn export_of(nodes: &Nodes, item: Item, name: &str) -> Option<Item>
    requires { type_of (item_view item) < length nodes.now }
    ensures { option_map item_view result ≡ option_case (exports_of nodes.now (item_view item)) None (λ es. find_name es name.now) }
{
    nodes.table_law(); // proof only
    find_export(exports(nodes, item)?, name)
}

/// Two instances, and how many of their exports were compared.
#[derive(Clone, Copy)]
struct Level {
    /// The first instance.
    first: Item,
    /// The second instance.
    second: Item,
    /// The interface of the second instance.
    interface: InterfaceId,
    /// The number of exports of that interface that were compared.
    passed: usize,
}

/// The result of comparing the next export of two instances.
#[derive(Clone, Copy)]
enum Look {
    /// There is no further export, so the instances agree.
    Done,
    /// The exports agree, or one of the instances lacks the export.
    Agree,
    /// Both exports are instances that differ.
    Inside(Level),
    /// The exports disagree and are not both instances.
    Apart,
}

impl Level {
    /// Returns the level of two items if both are instances. Nothing is compared yet.
    fn of(nodes: &Nodes, first: Item, second: Item, kind: ItemKind) -> Option<Level>
        requires first_low { type_of (item_view first) < length nodes.now }
        requires second_low { type_of (item_view second) < length nodes.now }
        requires shaped { IsShaped (item_tree (tree_at nodes.now) (item_view first)) }
        ensures { (c : Collection) → IsOfKind c (item_tree (tree_at nodes.now) (item_view second)) kind
            → MatchOption result (AreInstances (item_tree (tree_at nodes.now) (item_view first)) (item_tree (tree_at nodes.now) (item_view second)) → ⊥) (IsStart c nodes.now first second kind) }
    {
        nodes.table_law(); // proof only
        let Some(_) = exports(nodes, first) else {
            return None;
        };
        let Some(_) = exports(nodes, second) else {
            return None;
        };
        let ItemKind::Instance(interface) = kind else {
            return None;
        };
        Some(Level {
            first,
            second,
            interface,
            passed: 0,
        })
    }

    /// Compares the next export.
    fn look(&mut self, types: &Types, nodes: &Nodes) -> Look
        requires { IsLevel types.now nodes.now self.old }
        ensures { Looks types.now nodes.now self.old self.new result }
    {
        nodes.table_law(); // proof only
        let listed = &types[self.interface].exports;
        listed.law(); // proof only
        let position = self.passed;
        if position == listed.len() {
            return Look::Done;
        }
        self.passed = position + 1;
        let (name, kind) = listed.entry_at(position);
        let Some(first) = export_of(nodes, self.first, name) else {
            return Look::Agree;
        };
        let Some(second) = export_of(nodes, self.second, name) else {
            return Look::Agree;
        };
        if is_one(first, second) {
            return Look::Agree;
        }
        match Level::of(nodes, first, second, *kind) {
            Some(level) => Look::Inside(level),
            None => Look::Apart,
        }
    }
}

/// Returns the name of the last compared export of each level.
fn names(alloc: Global, types: &Types, levels: &[Level]) -> Result<Vec<String>, AllocError>
    requires { AllByRecursion (HasPassed types.now) levels.now }
    ensures { IfOk result (λ names. map string_bytes names.items ≡ map (name_of types.now) levels.now) }
{
    let mut names = Vec::new(alloc);
    for level in levels {
        let name = types[level.interface].exports.name_at(level.passed - 1);
        names.push(String::from_str(alloc, name)?)?;
    }
    Ok(names)
}

/// Returns the names of the exports that lead to the first disagreement of two items, in the order of the second's
/// kind.
///
/// # Errors
/// - [`AllocError`] if out of memory.
pub fn path_apart(
    alloc: Global,
    types: &Types,
    nodes: &Nodes,
    first: Item,
    second: Item,
    kind: ItemKind,
) -> Result<Vec<String>, AllocError>
    requires first_low { type_of (item_view first) < length nodes.now }
    requires second_low { type_of (item_view second) < length nodes.now }
    requires shaped { IsShaped (item_tree (tree_at nodes.now) (item_view first)) }
    requires of_kind { IsOfKind types.now (item_tree (tree_at nodes.now) (item_view second)) kind }
    requires apart { ItemsAgree nodes.now (item_view first) (item_view second) → ⊥ }
    ensures { IfOk result (λ names. LeadsApart types.now (item_tree (tree_at nodes.now) (item_view first)) (item_tree (tree_at nodes.now) (item_view second)) kind (map string_bytes names.items)) }
{
    nodes.table_law(); // proof only
    types.law(); // proof only
    let mut levels = Vec::new(alloc);
    let Some(mut level) = Level::of(nodes, first, second, kind) else {
        return Ok(Vec::new(alloc));
    };
    loop {
        match level.look(types, nodes) {
            Look::Agree => {}
            Look::Inside(inner) => {
                levels.push(level)?;
                level = inner;
            }
            Look::Done => level = levels.pop().unwrap(),
            Look::Apart => {
                levels.push(level)?;
                return names(alloc, types, levels.as_slice());
            }
        }
    }
}
