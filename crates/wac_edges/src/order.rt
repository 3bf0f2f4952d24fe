//! The topological order in which nodes are written.
//!
//! A node is left if it is still to be written. Its count is the number of edges to it from nodes that are left.
ghost use Rattle.std.specs.Prelude.{◌≡◌, ℕ, ◌<◌, ◌-◌, ◌&&◌, nat_lt, true, false, length, slice_index, slice_set, IfOk, OnOk, IfSome, IfNone};
ghost use Rattle.wac_edges.specs.Edge.{is_left};
ghost use Rattle.wac_edges.specs.declared.node.NodeId.{NodeId as AnId};
ghost use Rattle.std.specs.Bool.{OnTrue, OnFalse};
ghost use Rattle.wac_edges.specs.Order.{Edges, Writes, IsOnCycle};
ghost use Rattle.wac_edges.specs.private.Ready.{leading, AreReady, AllRise, IsLowestFree, is_left_with, is_set};

use crate::edges::{Edges, End};
use crate::node::NodeId;
use crate::walk::Walk;
use std::alloc::{AllocError, Global};
use std::cmp::Reverse;
use std::collections::BinaryHeap;

/// Whether the number is left and has this count.
fn is_left_with(left: &[bool], counts: &[usize], b: usize, count: usize) -> bool
    requires long { length counts.now ≡ length left.now }
    requires small { b < length left.now }
    ensures { result ≡ is_left_with left.now counts.now count b }
{
    left[b] && counts[b] == count
}

/// Whether the number is below the bound and left, and has one edge to it.
fn is_freed(left: &[bool], counts: &[usize], bound: usize, b: usize) -> bool
    requires long { length counts.now ≡ length left.now }
    requires small { b < length left.now }
    ensures { result ≡ (nat_lt b bound && is_left_with left.now counts.now 1 b) }
{
    b < bound && is_left_with(left, counts, b, 1)
}

/// Removes and returns the lowest number that is left and has count 0.
///
/// Those below the bound are in a heap. If it is empty, the numbers from the bound on are searched, and the bound
/// moves past the one that is found.
fn next_ready(
    ready: &mut BinaryHeap<Reverse<usize>>,
    bound: &mut usize,
    left: &[bool],
    counts: &[usize],
) -> Option<usize>
    requires long { length counts.now ≡ length left.now }
    requires ready { AreReady ready.old bound.old left.now counts.now }
    ensures small { IfSome result (λ n. n < length left.now) }
    ensures lowest { IfSome result (IsLowestFree left.now counts.now) }
    ensures rest { IfSome result (λ n. AreReady ready.new bound.new (slice_set left.now n false) counts.now) }
    ensures none { IfNone result ((n : ℕ) → is_left_with left.now counts.now 0 n ≡ false) }
{
    if let Some(lowest) = ready.pop() {
        return Some(lowest.0);
    }
    for n in *bound..left.len() {
        if is_left_with(left, counts, n, 0) {
            *bound = n + 1;
            return Some(n);
        }
    }
    None
}

/// Removes an edge to `b`. If `b` is below the bound and left, and has no other edge to it, it becomes ready.
fn release_one(
    b: usize,
    bound: usize,
    left: &[bool],
    counts: &mut [usize],
    ready: &mut BinaryHeap<Reverse<usize>>,
) -> Result<(), AllocError>
    requires long { length counts.old ≡ length left.now }
    requires ready { AreReady ready.old bound left.now counts.old }
    ensures counted { OnOk result (counts.new ≡ slice_set counts.old b (slice_index counts.old b - 1)) }
    ensures ready { OnOk result (AreReady ready.new bound left.now counts.new) }
{
    if b < counts.len() {
        if is_freed(left, counts, bound, b) {
            ready.push(Reverse(b))?;
        }
        counts[b] = counts[b].saturating_sub(1);
    }
    Ok(())
}

/// Removes edges. Targets below the bound that are left, and to which no edge remains, become ready.
fn release(
    walk: Walk<'_>,
    bound: usize,
    left: &[bool],
    counts: &mut [usize],
    ready: &mut BinaryHeap<Reverse<usize>>,
) -> Result<(), AllocError>
    requires long { length counts.old ≡ length left.now }
    requires ready { AreReady ready.old bound left.now counts.old }
    ensures counted { OnOk result ((b : ℕ) → b < length counts.old → slice_index counts.new b ≡ slice_index counts.old b - leading walk.entry.left b) }
    ensures ready { OnOk result (AreReady ready.new bound left.now counts.new) }
{
    for edge in walk {
        release_one(edge.target.0, bound, left, counts, ready)?;
    }
    Ok(())
}

/// Whether no node is left.
fn is_done(left: &[bool]) -> bool
    ensures done { OnTrue result ((n : ℕ) → is_set left.now n ≡ false) }
    ensures more { OnFalse result ((n : ℕ) × (is_set left.now n ≡ true)) }
{
    for n in 0..left.len() {
        if left[n] {
            return false;
        }
    }
    true
}

/// Returns the nodes that are left, by increasing number.
fn rising(alloc: Global, left: &[bool]) -> Result<Vec<NodeId>, AllocError>
    ensures { IfOk result (λ ns. (edges : Edges) → AllRise edges → Writes edges (is_left left.now) ns.items) }
{
    let mut ids = Vec::with_capacity(alloc, left.len())?;
    for n in 0..left.len() {
        if left[n] {
            ids.push(NodeId(n))?;
        }
    }
    Ok(ids)
}

/// Returns the nodes that are left in topological order, or `None` if edges form a cycle.
///
/// The next node is the lowest to which no edge leads from one that is left. If each edge leads to a higher number, no
/// edge is counted.
///
/// # Errors
/// - `AllocError` if out of memory.
pub fn order(
    alloc: Global,
    edges: &Edges,
    left: Vec<bool>,
) -> Result<Option<Vec<NodeId>>, AllocError>
    ensures whole { IfOk result (λ o. IfSome o (λ ns. Writes edges.now (is_left left.items) ns.items)) }
    ensures cycle { IfOk result (λ o. IfNone o ((n : AnId) × IsOnCycle edges.now n)) }
{
    if edges.rise() {
        return Ok(Some(rising(alloc, left.as_slice())?));
    }
    order_by_counts(alloc, edges, left)
}

/// Returns the nodes that are left in topological order, by counting the edges to each.
fn order_by_counts(
    alloc: Global,
    edges: &Edges,
    left: Vec<bool>,
) -> Result<Option<Vec<NodeId>>, AllocError>
    ensures whole { IfOk result (λ o. IfSome o (λ ns. Writes edges.now (is_left left.items) ns.items)) }
    ensures cycle { IfOk result (λ o. IfNone o ((n : AnId) × IsOnCycle edges.now n)) }
{
    let mut left = left;
    let mut counts = edges.counts(alloc, left.as_slice())?;
    let mut ready = BinaryHeap::new(alloc);
    let mut bound = 0;
    let mut written = Vec::with_capacity(alloc, left.len())?;
    while let Some(n) = next_ready(&mut ready, &mut bound, left.as_slice(), counts.as_slice()) {
        written.push(NodeId(n))?;
        left[n] = false;
        release(
            edges.walk(NodeId(n), End::Outgoing),
            bound,
            left.as_slice(),
            counts.as_mut_slice(),
            &mut ready,
        )?;
    }
    if is_done(&left) {
        Ok(Some(written))
    } else {
        Ok(None)
    }
}
