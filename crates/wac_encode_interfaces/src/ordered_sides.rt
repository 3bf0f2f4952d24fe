//! The order in which the items of a side are written.
ghost use Rattle.std.specs.Prelude.{◌≡◌, ◌≤◌, ◌<◌, ◌+◌, true, length, IfOk, OnOk};
ghost use Rattle.std.specs.BTreeSet.{contains};
ghost use Rattle.std.specs.Ordering.{nat_cmp};
ghost use Rattle.wac_edges.specs.cycles.Cycles.{HasNoCycle};
ghost use Rattle.wac_encode_interfaces.specs.private.Given.{AreHeldItems};
ghost use Rattle.wac_encode_interfaces.specs.private.Ordered.{AddsMoved, AreMoved, IsOrdered};

use std::alloc::{AllocError, Global};
use std::collections::BTreeSet;
use wac_edges::cycles::cycles::{add_step, empty_sets};
use wac_encode_order::side_order;
use wac_types_collection::{ItemKind, Named, Types};

/// Adds a step to a number, counted from `first`, if there is a set for it.
fn add_moved(
    targets: &mut [BTreeSet<usize>],
    from: usize,
    to: usize,
    first: usize,
) -> Result<(), AllocError>
    requires { from < length targets.old }
    ensures { OnOk result (AddsMoved from first (λ b. b ≡ to) targets.old targets.new) }
{
    let is_before = to < first;
    if is_before {
        return Ok(());
    }
    let moved = to - first;
    let is_past = targets.len() <= moved;
    if is_past {
        return Ok(());
    }
    add_step(targets, from, moved)
}

/// Adds steps to these numbers, counted from `first`, for which there are sets.
fn add_all_moved(
    targets: &mut [BTreeSet<usize>],
    from: usize,
    steps: &BTreeSet<usize>,
    first: usize,
) -> Result<(), AllocError>
    requires { from < length targets.old }
    ensures { OnOk result (AddsMoved from first (λ b. contains nat_cmp steps.now b ≡ true) targets.old targets.new) }
{
    for to in steps.iter() {
        add_moved(targets, from, *to, first)?;
    }
    Ok(())
}

/// Returns the steps between `count` numbers from `first` on, counted from there.
fn moved_steps(
    alloc: Global,
    steps: &[BTreeSet<usize>],
    first: usize,
    count: usize,
) -> Result<Vec<BTreeSet<usize>>, AllocError>
    requires { first + count ≤ length steps.now }
    ensures counted { IfOk result (λ v. length v.items ≡ count) }
    ensures moved { IfOk result (λ v. AreMoved first steps.now count v.items) }
{
    let mut moved = empty_sets(alloc, count)?;
    for from in 0..count {
        add_all_moved(moved.as_mut_slice(), from, &steps[first + from], first)?;
    }
    Ok(moved)
}

/// Returns the positions of a side's items in the order in which they are written, where `steps` leads from each item to
/// those that it depends on. The first item of the side has the number `first`. After the listed items come as many
/// additional imports as `additional` says.
///
/// # Errors
/// - `AllocError` if out of memory.
pub(crate) fn side_positions(
    types: &Types,
    listed: &Named<ItemKind>,
    additional: usize,
    steps: &[BTreeSet<usize>],
    first: usize,
) -> Result<Vec<usize>, AllocError>
    requires held { AreHeldItems types.now listed.now }
    requires counted { first + (length listed.now + additional) ≤ length steps.now }
    requires ordered { HasNoCycle steps.now }
    ensures { IfOk result (λ o. IsOrdered steps.now first (length listed.now + additional) o.items) }
{
    let count = listed.len() + additional;
    let moved = moved_steps(types.allocator(), steps, first, count)?;
    side_order(types, listed, additional, moved.as_slice())
}
