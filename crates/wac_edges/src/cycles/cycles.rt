//! Cycles of steps between numbers.
//!
//! A list of sets has the steps: a step leads from `a` to each number in `targets[a]`.
ghost use Rattle.std.specs.Prelude.{◌≡◌, ◌<◌, ◌≤◌, ◌↔◌, ◌⊎◌, ℕ, length, fold, slice_index, IfOk, OnOk, MatchOption};
ghost use Rattle.std.specs.Bool.{OnTrue, OnFalse};
ghost use Rattle.wac_edges.specs.private.cycles.CycleSearch.{AreUpTo, Descends, marked};
ghost use Rattle.wac_edges.specs.private.cycles.Numbers.{AreBelow};
ghost use Rattle.wac_edges.specs.cycles.Cycles.{AreWithin, HasNoCycle, HasLowestOnCycle, IsStep, LeadsBack};

use crate::cycles::ranks::ranks;
use std::alloc::{AllocError, Global};
use std::collections::BTreeSet;

/// Returns `count` empty sets: as many numbers, without steps.
///
/// # Errors
/// - `AllocError` if out of memory.
pub fn empty_sets(alloc: Global, count: usize) -> Result<Vec<BTreeSet<usize>>, AllocError>
    ensures counted { IfOk result (λ v. length v.items ≡ count) }
    ensures empty { IfOk result (λ v. (a b : ℕ) → IsStep v.items a b → ⊥) }
{
    let mut sets = Vec::new(alloc);
    for _ in 0..count {
        sets.push(BTreeSet::new(alloc))?;
    }
    Ok(sets)
}

/// Adds a step.
///
/// # Errors
/// - `AllocError` if out of memory.
pub fn add_step(targets: &mut [BTreeSet<usize>], from: usize, to: usize) -> Result<(), AllocError>
    requires { from < length targets.old }
    ensures { OnOk result ((a b : ℕ) → (IsStep targets.new a b ↔ (IsStep targets.old a b ⊎ ((a ≡ from) × (b ≡ to))))) }
{
    match targets[from].insert(to) {
        Ok(_) => Ok(()),
        Err(_) => Err(AllocError),
    }
}

/// Returns the lowest number on a cycle, if there is one. Steps must lead only to numbers that have a set.
///
/// # Errors
/// - `AllocError` if out of memory.
pub fn lowest_on_cycle(
    alloc: Global,
    targets: &[BTreeSet<usize>],
) -> Result<Option<usize>, AllocError>
    requires { AreWithin targets.now }
    ensures { IfOk result (λ o. MatchOption o (HasNoCycle targets.now) (λ n. HasLowestOnCycle targets.now n)) }
{
    let ranks = ranks(alloc, targets)?;
    let descends = descends(targets, ranks.as_slice());
    for n in 0..targets.len() {
        if is_ruled_out(targets, ranks.as_slice(), descends, n) {
            continue;
        }
        if is_on_cycle(alloc, targets, n)? {
            return Ok(Some(n));
        }
    }
    Ok(None)
}

/// Whether no step leads to a number of higher rank.
fn descends(targets: &[BTreeSet<usize>], ranks: &[usize]) -> bool
    requires long { length ranks.now ≡ length targets.now }
    requires within { AreWithin targets.now }
    ensures { OnTrue result (Descends targets.now ranks.now) }
{
    for a in 0..targets.len() {
        if ranks[a] < highest(&targets[a], ranks) {
            return false;
        }
    }
    true
}

/// Returns the highest rank of these numbers, or 0 if there are none.
fn highest(steps: &BTreeSet<usize>, ranks: &[usize]) -> usize
    requires { AreBelow (length ranks.now) steps.now.keys }
    ensures { AreUpTo ranks.now result steps.now.keys }
{
    let mut highest = 0;
    for b in steps.iter() {
        highest = higher(ranks, highest, *b);
    }
    highest
}

/// Returns the higher of `rank` and the rank of `b`.
fn higher(ranks: &[usize], rank: usize, b: usize) -> usize
    requires { b < length ranks.now }
    ensures other { rank ≤ result }
    ensures own { slice_index ranks.now b ≤ result }
{
    if rank < ranks[b] { ranks[b] } else { rank }
}

/// Whether ranks show that `n` is on no cycle: no step leads to a higher rank, and the steps from `n` lead to lower
/// ones.
fn is_ruled_out(targets: &[BTreeSet<usize>], ranks: &[usize], descends: bool, n: usize) -> bool
    requires small { n < length targets.now }
    requires long { length ranks.now ≡ length targets.now }
    requires within { AreWithin targets.now }
    requires descends { OnTrue descends (Descends targets.now ranks.now) }
    ensures { OnTrue result (LeadsBack targets.now n → ⊥) }
{
    if !descends {
        return false;
    }
    highest(&targets[n], ranks) < ranks[n]
}

/// Whether a path of at least one step leads from `n` back to it.
fn is_on_cycle(alloc: Global, targets: &[BTreeSet<usize>], n: usize) -> Result<bool, AllocError>
    requires small { n < length targets.now }
    requires within { AreWithin targets.now }
    ensures on { IfOk result (λ is. OnTrue is (LeadsBack targets.now n)) }
    ensures off { IfOk result (λ is. OnFalse is (LeadsBack targets.now n → ⊥)) }
{
    let mut reached = vec![in alloc; false; targets.len()]?;
    let mut pending = Vec::new(alloc);
    pending.push(n)?;
    while let Some(a) = pending.pop() {
        mark(&targets[a], &mut reached, &mut pending)?;
    }
    Ok(reached[n])
}

/// Marks numbers as reached. Those that were not reached before are appended to `pending`.
fn mark(
    steps: &BTreeSet<usize>,
    reached: &mut Vec<bool>,
    pending: &mut Vec<usize>,
) -> Result<(), AllocError>
    requires { AreBelow (length reached.old.items) steps.now.keys }
    ensures { OnOk result ((reached.new.items, pending.new.items) ≡ fold marked (reached.old.items, pending.old.items) steps.now.keys) }
{
    for b in steps.iter() {
        mark_one(*b, reached, pending)?;
    }
    Ok(())
}

/// Marks a number as reached. If it was not reached before, it is appended to `pending`.
fn mark_one(b: usize, reached: &mut Vec<bool>, pending: &mut Vec<usize>) -> Result<(), AllocError>
    requires { b < length reached.old.items }
    ensures { OnOk result ((reached.new.items, pending.new.items) ≡ marked (reached.old.items, pending.old.items) b) }
{
    if !reached[b] {
        reached[b] = true;
        pending.push(b)?;
    }
    Ok(())
}
