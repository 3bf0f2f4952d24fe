//! Marks on the nodes that mention a resource which is not bound inside the compared type.
//!
//! Each node is examined once. A type whose node has no mark is the same in each scope.
ghost use Rattle.std.specs.Prelude.{◌≡◌, ◌<◌, length, OnOk};
ghost use Rattle.wac_types_collection.specs.subtyping.CalledViews.{called_view};
ghost use Rattle.wac_merge_tables.specs.private.tables.NodeViews.{node_view};
ghost use Rattle.wac_merge_agreement.specs.private.agreement.ReachSteps.{flag_of};
ghost use Rattle.wac_merge_agreement.specs.private.agreement.Marks.{AreMarks, any_side, is_marked, is_outer, is_outer_node};

use crate::agreement::flags::{any_item, any_part};
use std::alloc::AllocError;
use wac_merge_tables::tables::nodes::{Node, Nodes};
use wac_types_collection::subtyping::called::Called;

/// Marks the nodes up to this one that mention a resource which is not bound inside the compared type.
///
/// Existing marks are kept.
///
/// # Errors
/// - [`AllocError`] if out of memory.
pub fn mark_through(nodes: &Nodes, marks: &mut Vec<bool>, number: usize) -> Result<(), AllocError>
    requires there { number < length nodes.now }
    requires marks { AreMarks nodes.now marks.old.items }
    ensures marks { OnOk result (AreMarks nodes.now marks.new.items) }
    ensures through { OnOk result (number < length marks.new.items) }
{
    nodes.table_law(); // proof only
    while marks.len() <= number {
        let node = nodes.node(marks.len());
        let mark = is_marked(node, marks.as_slice());
        marks.push(mark)?;
    }
    Ok(())
}

/// Returns whether a node is an outer resource, is a handle to one, or mentions a node with its mark.
fn is_marked(node: &Node, marks: &[bool]) -> bool
    ensures { result ≡ is_marked marks.now (node_view node.now) }
{
    is_outer_node(node) || any_part(node, marks) || any_side(node, marks)
}

/// Returns whether a node is a resource that is not bound inside the compared type, or is a handle to one.
fn is_outer_node(node: &Node) -> bool
    ensures { result ≡ is_outer_node (node_view node.now) }
{
    match node {
        Node::Resource(called) => is_outer(called),
        Node::Own(called) => is_outer(called),
        Node::Borrow(called) => is_outer(called),
        _ => false,
    }
}

/// Returns whether a resource is not bound inside the compared type.
fn is_outer(called: &Called) -> bool
    ensures { result ≡ is_outer (called_view called.now) }
{
    match called {
        Called::Bound(_, _, _, _) => false,
        Called::OfClass(_, _, _) => true,
        Called::Itself(_, _) => true,
    }
}

/// Returns whether an import or export of a component has a marked type.
fn any_side(node: &Node, marks: &[bool]) -> bool
    ensures { result ≡ any_side (flag_of marks.now) (node_view node.now) }
{
    match node {
        Node::Component(imports, exports) => any_item(imports, marks) || any_item(exports, marks),
        _ => false,
    }
}
