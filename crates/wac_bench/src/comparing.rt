//! Items of two collections that are added and compared.

use crate::graph::Graph;
use crate::types::{BOOL, tuple, tuples};
use crate::workloads::Step;
use anyhow::{Result, bail};
use std::alloc::Global;
use wac_graph::types::{ItemKind, SubtypeChecker, Types, ValueType};

/// How many levels of equal tuples there are.
const LEVELS: u64 = 16;

/// Adds for each type of a level a tuple of it and of the type `step` places after it.
fn above(
    graph: &mut Graph,
    level: &[ValueType],
    step: usize,
    is_crossed: bool,
) -> Result<Vec<ValueType>> {
    let mut next = Vec::new(graph.alloc);
    for (place, a) in level.iter().enumerate() {
        let after = place.wrapping_add(step).checked_rem(level.len());
        let b = level.get(after.unwrap_or(place)).unwrap_or(a);
        let (c, d) = if is_crossed { (b, a) } else { (a, b) };
        next.push(tuple(graph, &[*a, *c, *d, *b])?)?;
    }
    Ok(next)
}

/// Adds levels of equal tuples, each of two of the level before, and a tuple of the last. Deep levels have one tuple each.
fn add(graph: &mut Graph, is_deep: bool, count: u64, is_crossed: bool) -> Result<ValueType> {
    if is_deep {
        return tuples(graph, count);
    }
    let mut level = Vec::new(graph.alloc);
    for _ in 0..count / LEVELS {
        level.push(BOOL)?;
    }
    let mut step = 1;
    for _ in 0..LEVELS {
        level = above(graph, &level, step, is_crossed)?;
        step = step.saturating_mul(2);
    }
    tuple(graph, &level)
}

/// Returns 1 if the first item is a subtype of the second, else zero.
fn compare(first: &Types, a: ValueType, second: &Types, b: ValueType) -> Result<usize> {
    let (a, b) = (ItemKind::Value(a), ItemKind::Value(b));
    if !first.contains(a.ty()) || !second.contains(b.ty()) {
        bail!("an item is not in its collection");
    }
    let mut checker = SubtypeChecker::new();
    Ok(usize::from(checker.is_subtype(a, first, b, second).is_ok()))
}

/// Adds two items of tuples and compares them, up to a step. Returns 1 if the first is a subtype of the second, else zero.
pub fn take(alloc: Global, is_deep: bool, count: u64, last: Step) -> Result<usize> {
    let mut first = Graph::new(alloc);
    let mut second = Graph::new(alloc);
    if last == Step::Prepare {
        return Ok(0);
    }
    let a = add(&mut first, is_deep, count, false)?;
    let b = add(&mut second, is_deep, count, true)?;
    if last == Step::Measure {
        compare(first.types(), a, second.types(), b)
    } else {
        Ok(0)
    }
}
