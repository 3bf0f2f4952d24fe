//! Flags on the nodes that mention a resource bound by a class.
//!
//! Each node is examined once. A node without its flag need not be searched for classes.
ghost use Rattle.std.specs.Prelude.{◌≡◌, ◌<◌, ◌||◌, [], is_some, length, OnOk};
ghost use Rattle.std.specs.List.{list_any};
ghost use Rattle.wac_merge_tables.specs.private.tables.Nodes.{and_optional, optionals, seconds, types_of};
ghost use Rattle.wac_merge_tables.specs.private.tables.NodeViews.{node_view, named, listed};
ghost use Rattle.wac_merge_agreement.specs.private.agreement.ReachSteps.{AreFlags, flag_of, node_class, parts};

use crate::agreement::reach::{node_class, type_of};
use std::alloc::AllocError;
use wac_merge_tables::tables::nodes::{Item, Node, Nodes};

/// Flags the nodes up to this one that mention, outside of components, a resource bound by a class.
///
/// Existing flags are kept.
///
/// # Errors
/// - [`AllocError`] if out of memory.
pub fn flag_through(nodes: &Nodes, flags: &mut Vec<bool>, number: usize) -> Result<(), AllocError>
    requires there { number < length nodes.now }
    requires flags { AreFlags nodes.now flags.old.items }
    ensures flags { OnOk result (AreFlags nodes.now flags.new.items) }
    ensures through { OnOk result (number < length flags.new.items) }
{
    nodes.table_law(); // proof only
    while flags.len() <= number {
        let node = nodes.node(flags.len());
        let flag = is_flagged(node, flags.as_slice());
        flags.push(flag)?;
    }
    Ok(())
}

/// Returns whether a node is a resource bound by a class, is a handle to one, or mentions a node with its flag.
fn is_flagged(node: &Node, flags: &[bool]) -> bool
    ensures { result ≡ (is_some (node_class (node_view node.now)) || list_any (flag_of flags.now) (parts (node_view node.now))) }
{
    node_class(node).is_some() || any_part(node, flags)
}

/// Returns the flag of a node; false if the node was not examined.
pub fn flag_of(number: usize, flags: &[bool]) -> bool
    ensures { result ≡ flag_of flags.now number }
{
    match flags.get(number) {
        Some(flag) => *flag,
        None => false,
    }
}

/// Returns the flag of a node that may be missing.
fn any_optional(number: Option<usize>, flags: &[bool]) -> bool
    ensures { result ≡ list_any (flag_of flags.now) (and_optional number []) }
{
    match number {
        Some(number) => flag_of(number, flags),
        None => false,
    }
}

/// Returns whether the type of a field has its flag.
fn any_field(fields: &[(&str, usize)], flags: &[bool]) -> bool
    ensures { result ≡ list_any (flag_of flags.now) (seconds (named fields.now)) }
{
    for field in fields {
        if flag_of(field.1, flags) {
            return true;
        }
    }
    false
}

/// Returns whether the type of a case has its flag.
fn any_case(cases: &[(&str, Option<usize>)], flags: &[bool]) -> bool
    ensures { result ≡ list_any (flag_of flags.now) (optionals (named cases.now)) }
{
    for case in cases {
        if any_optional(case.1, flags) {
            return true;
        }
    }
    false
}

/// Returns whether one of these nodes has its flag.
fn any_of(numbers: &[usize], flags: &[bool]) -> bool
    ensures { result ≡ list_any (flag_of flags.now) numbers.now }
{
    for number in numbers {
        if flag_of(*number, flags) {
            return true;
        }
    }
    false
}

/// Returns whether the type of an item has its flag.
pub fn any_item(items: &[(&str, Item)], flags: &[bool]) -> bool
    ensures { result ≡ list_any (flag_of flags.now) (types_of (listed items.now)) }
{
    for item in items {
        if flag_of(type_of(item.1), flags) {
            return true;
        }
    }
    false
}

/// Returns whether a node mentions, outside of components, a node with its flag.
pub fn any_part(node: &Node, flags: &[bool]) -> bool
    ensures { result ≡ list_any (flag_of flags.now) (parts (node_view node.now)) }
{
    match node {
        Node::Record(fields) => any_field(fields, flags),
        Node::Variant(cases) => any_case(cases, flags),
        Node::Tuple(parts) => any_of(parts, flags),
        Node::List(part) => flag_of(*part, flags),
        Node::FixedSizeList(part, _) => flag_of(*part, flags),
        Node::Option(part) => flag_of(*part, flags),
        Node::Result(ok, err) => any_optional(*ok, flags) || any_optional(*err, flags),
        Node::Stream(part) => any_optional(*part, flags),
        Node::Future(part) => any_optional(*part, flags),
        Node::Func(_, params, result) => any_optional(*result, flags) || any_field(params, flags),
        Node::Instance(exports) => any_item(exports, flags),
        _ => false,
    }
}
