//! The classes whose resources a type mentions.
ghost use Rattle.std.specs.Prelude.{◌≡◌, ◌<◌, ◌↔◌, ℕ, [], true, length, IfOk, OnOk};
ghost use Rattle.std.specs.BTreeSet as set;
ghost use Rattle.std.specs.Ordering.{nat_cmp};
ghost use Rattle.wac_types_collection.specs.subtyping.CalledViews.{called_view};
ghost use Rattle.wac_merge_tables.specs.private.tables.Nodes.{and_optional, optionals, seconds, tree_at, type_of, types_of};
ghost use Rattle.wac_merge_tables.specs.private.tables.NodeViews.{node_view, named, listed, item_view};
ghost use Rattle.wac_merge_agreement.specs.private.agreement.Reach.{Reaches, IsOfClass};
ghost use Rattle.wac_merge_agreement.specs.private.agreement.ReachSteps.{AreFlags, class_of, node_class, parts};
ghost use Rattle.wac_edges.specs.private.Arranging.{with_all};

use crate::agreement::flags::flag_of;
use std::alloc::{AllocError, Global};
use std::collections::BTreeSet;
use wac_merge_tables::tables::nodes::{Item, Node, Nodes};
use wac_types_collection::subtyping::called::Called;

/// Returns the classes whose resources a node mentions outside of components.
///
/// The flags must cover the node. If its flag is false, no node is visited.
///
/// # Errors
/// - [`AllocError`] if out of memory.
pub fn classes_reached(
    alloc: Global,
    nodes: &Nodes,
    flags: &[bool],
    number: usize,
) -> Result<BTreeSet<usize>, AllocError>
    requires there { number < length nodes.now }
    requires flags { AreFlags nodes.now flags.now }
    requires flagged { number < length flags.now }
    ensures { IfOk result (λ s. (b : ℕ) → ((set.contains nat_cmp s b ≡ true) ↔ Reaches (IsOfClass b) (tree_at nodes.now number))) }
{
    let mut classes = BTreeSet::new(alloc);
    if !flag_of(number, flags) {
        return Ok(classes);
    }
    nodes.table_law(); // proof only
    let mut pending = BTreeSet::new(alloc);
    put(&mut pending, number)?;
    while let Some(next) = pending.pop_last() {
        let node = nodes.node(next);
        put_optional(&mut classes, node_class(node))?;
        put_parts(&mut pending, node)?;
    }
    Ok(classes)
}

/// Returns the class whose resource a node is, or is a handle to.
pub fn node_class(node: &Node) -> Option<usize>
    ensures { result ≡ node_class (node_view node.now) }
{
    match node {
        Node::Resource(called) => class_of(called),
        Node::Own(called) => class_of(called),
        Node::Borrow(called) => class_of(called),
        _ => None,
    }
}

/// Returns the class that binds a resource.
fn class_of(called: &Called) -> Option<usize>
    ensures { result ≡ class_of (called_view called.now) }
{
    match called {
        Called::OfClass(class, _, _) => Some(*class),
        _ => None,
    }
}

/// Adds a number.
///
/// # Errors
/// - [`AllocError`] if out of memory.
pub fn put(numbers: &mut BTreeSet<usize>, number: usize) -> Result<(), AllocError>
    ensures { OnOk result (numbers.new.keys ≡ set.insert_key nat_cmp numbers.old.keys number) }
{
    match numbers.insert(number) {
        Ok(_) => Ok(()),
        Err(_) => Err(AllocError),
    }
}

/// Adds a number if there is one.
///
/// # Errors
/// - [`AllocError`] if out of memory.
pub fn put_optional(numbers: &mut BTreeSet<usize>, number: Option<usize>) -> Result<(), AllocError>
    ensures { OnOk result (numbers.new.keys ≡ with_all numbers.old.keys (and_optional number [])) }
{
    match number {
        Some(number) => put(numbers, number),
        None => Ok(()),
    }
}

/// Adds the types of fields.
fn put_fields(numbers: &mut BTreeSet<usize>, fields: &[(&str, usize)]) -> Result<(), AllocError>
    ensures { OnOk result (numbers.new.keys ≡ with_all numbers.old.keys (seconds (named fields.now))) }
{
    for field in fields {
        put(numbers, field.1)?;
    }
    Ok(())
}

/// Adds the types of cases.
fn put_cases(
    numbers: &mut BTreeSet<usize>,
    cases: &[(&str, Option<usize>)],
) -> Result<(), AllocError>
    ensures { OnOk result (numbers.new.keys ≡ with_all numbers.old.keys (optionals (named cases.now))) }
{
    for case in cases {
        put_optional(numbers, case.1)?;
    }
    Ok(())
}

/// Adds numbers.
fn put_all(numbers: &mut BTreeSet<usize>, more: &[usize]) -> Result<(), AllocError>
    ensures { OnOk result (numbers.new.keys ≡ with_all numbers.old.keys more.now) }
{
    for number in more {
        put(numbers, *number)?;
    }
    Ok(())
}

/// Returns the number of an item's type.
pub fn type_of(item: Item) -> usize
    ensures { result ≡ type_of (item_view item) }
{
    match item {
        Item::Type(number) => number,
        Item::Func(number) => number,
        Item::Instance(number) => number,
        Item::Component(number) => number,
        Item::Module(number) => number,
        Item::Value(number) => number,
    }
}

/// Adds the types of items.
fn put_items(numbers: &mut BTreeSet<usize>, items: &[(&str, Item)]) -> Result<(), AllocError>
    ensures { OnOk result (numbers.new.keys ≡ with_all numbers.old.keys (types_of (listed items.now))) }
{
    for item in items {
        put(numbers, type_of(item.1))?;
    }
    Ok(())
}

/// Adds the nodes that a node mentions outside of components.
fn put_parts(numbers: &mut BTreeSet<usize>, node: &Node) -> Result<(), AllocError>
    ensures { OnOk result (numbers.new.keys ≡ with_all numbers.old.keys (parts (node_view node.now))) }
{
    match node {
        Node::Record(fields) => put_fields(numbers, fields),
        Node::Variant(cases) => put_cases(numbers, cases),
        Node::Tuple(parts) => put_all(numbers, parts),
        Node::List(part) => put(numbers, *part),
        Node::FixedSizeList(part, _) => put(numbers, *part),
        Node::Option(part) => put(numbers, *part),
        Node::Result(ok, err) => {
            put_optional(numbers, *ok)?;
            put_optional(numbers, *err)
        }
        Node::Stream(part) => put_optional(numbers, *part),
        Node::Future(part) => put_optional(numbers, *part),
        Node::Func(_, params, result) => {
            put_optional(numbers, *result)?;
            put_fields(numbers, params)
        }
        Node::Instance(exports) => put_items(numbers, exports),
        _ => Ok(()),
    }
}
