//! The order of type items.
ghost use Rattle.std.specs.Prelude.{◌≡◌, ◌+◌, ◌<◌, ◌^◌, IfOk, length};
ghost use Rattle.wac_encode_order.specs.private.TypeItems.{Reaches, Takes};
ghost use Rattle.wac_encode_order.specs.private.Graph.{AreHeld, AreReached, is_set, items_of};

use crate::graph::Graph;
use crate::search::search;
use std::alloc::{AllocError, Global};
use wac_edges::edges::Edges;
use wac_edges::node::NodeId;
use wac_edges::order::order;
use wac_types_collection::{ItemKind, Named, Types};

/// Returns the positions of the chosen items, the next always the first of those left that reaches none of those left.
/// Takes as many steps as the types of the type items have parts, up to a logarithm.
///
/// # Errors
/// - `AllocError` if out of memory.
pub(crate) fn order_chosen(
    types: &Types,
    items: &Named<ItemKind>,
    chosen: &[bool],
) -> Result<Vec<usize>, AllocError>
    requires { AreHeld types.now items.now }
    ensures { IfOk result (λ order. Takes (Reaches types.now items.now) (is_set chosen.now) order.items) }
{
    let found = search(types, items)?;
    let graph = Graph {
        types,
        items,
        found: &found,
    };
    // No memory holds so many.
    let Some(_) = graph.count().checked_add(items.len()) else {
        return Err(AllocError);
    };
    order_graph(&graph, chosen)
}

/// Returns the positions of the chosen items of a graph in order.
fn order_graph(graph: &Graph<'_>, chosen: &[bool]) -> Result<Vec<usize>, AllocError>
    requires room { length graph.now.found.now + length graph.now.items.now < 2 ^ 64 }
    requires reached { AreReached graph.now.types.now graph.now.items.now graph.now.found.now }
    ensures { IfOk result (λ order. Takes (Reaches graph.now.types.now graph.now.items.now) (is_set chosen.now) order.items) }
{
    graph.types.law();
    let alloc = graph.types.allocator();
    let mut edges = Edges::new(alloc);
    let named = graph.names()?;
    graph.add_types(named.as_slice(), &mut edges)?;
    graph.add_items(&mut edges)?;
    let left = graph.left(chosen)?;
    let Some(nodes) = order(alloc, &edges, left)? else {
        unreachable!()
    };
    items_after(alloc, graph.count(), nodes.as_slice())
}

/// Returns the positions of the items among nodes. The first `count` nodes are types.
fn items_after(alloc: Global, count: usize, nodes: &[NodeId]) -> Result<Vec<usize>, AllocError>
    ensures { IfOk result (λ items. items.items ≡ items_of count nodes.now) }
{
    let mut items = Vec::with_capacity(alloc, nodes.len())?;
    for node in nodes {
        if node.0 >= count {
            items.push(node.0 - count)?;
        }
    }
    Ok(items)
}
