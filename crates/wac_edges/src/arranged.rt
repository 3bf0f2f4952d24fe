//! Numbers in an order in which each comes directly after those that it depends on.
//!
//! A number waits in a list of steps until the numbers that it depends on are placed, so a long chain needs no stack.
//! Each number is opened once and placed once.
ghost use Rattle.std.specs.Prelude.{◌≡◌, ◌<◌, ◌++◌, [], length, map, slice_index, IfOk, OnOk};
ghost use Rattle.std.specs.BTreeSet as set;
ghost use Rattle.std.specs.Ordering.{nat_cmp};
ghost use Rattle.wac_edges.specs.private.cycles.Numbers.{AreBelow, Has};
ghost use Rattle.wac_edges.specs.cycles.Cycles.{AreWithin, HasNoCycle, IsStep};
ghost use Rattle.wac_edges.specs.Arranged.{Arranges, Selects, AreAll, IsOnce};
ghost use Rattle.wac_edges.specs.private.Arranging.{AreRanks, openings, with_all};

use std::alloc::{AllocError, Global};
use std::collections::BTreeSet;

/// A step of ordering.
#[derive(Clone, Copy)]
enum Step {
    /// Place the numbers that this one depends on first, unless they were opened.
    Open(usize),
    /// Place the number.
    Place(usize),
}

/// Adds a number.
fn put(numbers: &mut BTreeSet<usize>, number: usize) -> Result<(), AllocError>
    ensures { OnOk result (numbers.new.keys ≡ set.insert_key nat_cmp numbers.old.keys number) }
{
    match numbers.insert(number) {
        Ok(_) => Ok(()),
        Err(_) => Err(AllocError),
    }
}

/// Returns the position of each number in the list.
fn ranks(alloc: Global, all: &[usize], count: usize) -> Result<Vec<usize>, AllocError>
    requires below { AreBelow count all.now }
    requires once { IsOnce all.now }
    ensures counted { IfOk result (λ v. length v.items ≡ count) }
    ensures ranks { IfOk result (λ v. AreRanks all.now v.items) }
{
    let mut ranks = vec![in alloc; 0; count]?;
    for i in 0..all.len() {
        ranks[all[i]] = i;
    }
    Ok(ranks)
}

/// Returns the positions of some numbers, in order.
fn positions(
    alloc: Global,
    ranks: &[usize],
    numbers: &BTreeSet<usize>,
) -> Result<BTreeSet<usize>, AllocError>
    requires { AreBelow (length ranks.now) numbers.now.keys }
    ensures { IfOk result (λ s. s.keys ≡ with_all [] (map (slice_index ranks.now) numbers.now.keys)) }
{
    let mut positions = BTreeSet::new(alloc);
    for number in numbers.iter() {
        put(&mut positions, ranks[*number])?;
    }
    Ok(positions)
}

/// Returns the numbers of the list that are in the set, in order.
fn selected(
    alloc: Global,
    all: &[usize],
    ranks: &[usize],
    numbers: &BTreeSet<usize>,
) -> Result<Vec<usize>, AllocError>
    requires below { AreBelow (length ranks.now) numbers.now.keys }
    requires all { AreAll (length ranks.now) all.now }
    requires ranks { AreRanks all.now ranks.now }
    ensures { IfOk result (λ v. Selects (λ b. Has numbers.now.keys b) all.now v.items) }
{
    let positions = positions(alloc, ranks, numbers)?;
    let mut selected = Vec::new(alloc);
    for position in positions.iter() {
        selected.push(all[*position])?;
    }
    Ok(selected)
}

/// Adds the steps that open these numbers. The first is opened first.
fn open_all(steps: &mut Vec<Step>, numbers: &[usize]) -> Result<(), AllocError>
    ensures { OnOk result (steps.new.items ≡ steps.old.items ++ openings numbers.now) }
{
    let mut i = numbers.len();
    while i > 0 {
        i -= 1;
        steps.push(Step::Open(numbers[i]))?;
    }
    Ok(())
}

/// Returns the numbers of `all` in order, each directly after those that it depends on and that are not placed yet.
///
/// `depends` has the numbers on which each number depends, as sets below the count of numbers. None may depend on itself
/// through others. `all` must have each number once.
///
/// # Errors
/// - `AllocError` if out of memory.
pub fn arranged(
    alloc: Global,
    all: &[usize],
    depends: &[BTreeSet<usize>],
) -> Result<Vec<usize>, AllocError>
    requires all { AreAll (length depends.now) all.now }
    requires once { IsOnce all.now }
    requires within { AreWithin depends.now }
    requires ordered { HasNoCycle depends.now }
    ensures { IfOk result (λ o. Arranges (IsStep depends.now) all.now [] all.now o.items) }
{
    let ranks = ranks(alloc, all, depends.len())?;
    let mut opened = vec![in alloc; false; depends.len()]?;
    let mut order = Vec::new(alloc);
    let mut steps = Vec::new(alloc);
    open_all(&mut steps, all)?;
    while let Some(step) = steps.pop() {
        match step {
            Step::Open(n) => {
                if !opened[n] {
                    opened[n] = true;
                    steps.push(Step::Place(n))?;
                    let under = selected(alloc, all, ranks.as_slice(), &depends[n])?;
                    open_all(&mut steps, under.as_slice())?;
                }
            }
            Step::Place(n) => order.push(n)?,
        }
    }
    Ok(order)
}
