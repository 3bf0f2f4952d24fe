//! Ranks of numbers by their strongly connected groups.
//!
//! This is the path-based search for strongly connected components. It keeps a path of groups, each of which leads to
//! the next. A step from the last group to an earlier one joins the groups between them. Once all steps of the last
//! group are taken, the group is closed, and its members get the next rank. So no step leads to a higher rank, and both
//! ends of a step within a rank are on a cycle.
ghost use Rattle.std.specs.Prelude.{◌≡◌, ◌<◌, ◌++◌, length, IfOk, OnOk};
ghost use Rattle.wac_edges.specs.cycles.Cycles.{AreWithin};
ghost use Rattle.wac_edges.specs.private.cycles.Numbers.{AreBelow};
ghost use Rattle.wac_edges.specs.private.cycles.RankSearch.{IsAmong};

use std::alloc::{AllocError, Global};
use std::collections::BTreeSet;

/// A group of the path: numbers that lead to each other.
#[derive(Clone, Copy)]
struct Group {
    // The index of its first member in `members`.
    first: usize,
    // The length of `pending` before it was begun.
    before: usize,
}

/// A search along steps.
#[derive(Drop)]
pub(crate) struct Search {
    // For each number that was reached, the index at which it became a member.
    places: Vec<Option<usize>>,
    // For each number the rank of its group, counted from 1; 0 until the group is closed.
    ranks: Vec<usize>,
    // The number of closed groups.
    closed: usize,
    // The members of the groups of the path, group by group.
    members: Vec<usize>,
    // The targets of steps that were not taken yet, group by group, after the numbers at which to begin.
    pending: Vec<usize>,
    // The groups of the path.
    groups: Vec<Group>,
}

/// Returns a rank for each number, in time and memory linear in the numbers and steps.
///
/// No contract says that these are the ranks of groups. None needs it, since the search for a cycle compares the ranks
/// that it relies on.
pub(crate) fn ranks(alloc: Global, targets: &[BTreeSet<usize>]) -> Result<Vec<usize>, AllocError>
    requires { AreWithin targets.now }
    ensures { IfOk result (λ r. length r.items ≡ length targets.now) }
{
    let mut search = Search::new(alloc, targets.len())?;
    for _ in 0..moves(targets) {
        if !search.advance(targets)? {
            break;
        }
    }
    Ok(search.ranks)
}

/// A bound of the moves of a search: each number is a beginning, each step is taken, and each group is closed.
fn moves(targets: &[BTreeSet<usize>]) -> usize {
    let mut moves = targets.len().saturating_mul(2);
    for steps in targets {
        moves = moves.saturating_add(steps.len());
    }
    moves
}

/// The length of `pending` before the last group was begun; 0 if there is no group.
fn before(groups: &[Group]) -> usize {
    match groups.last() {
        Some(group) => group.before,
        None => 0,
    }
}

/// Joins the groups from the one with the member at `place` on.
fn join(groups: &mut Vec<Group>, place: usize) {
    while let Some(group) = groups.last() {
        if group.first <= place {
            break;
        }
        let _ = groups.pop();
    }
}

/// Removes the members from index `first` on, and gives them their rank.
fn close(ranks: &mut [usize], members: &mut Vec<usize>, first: usize, rank: usize)
    requires { AreBelow (length ranks.old) members.old.items }
    ensures { AreBelow (length ranks.old) members.new.items }
{
    while first < members.len() {
        let Some(n) = members.pop() else {
            break;
        };
        ranks[n] = rank;
    }
}

/// Appends numbers.
fn add_all(numbers: &mut Vec<usize>, steps: &BTreeSet<usize>) -> Result<(), AllocError>
    ensures { OnOk result (numbers.new.items ≡ numbers.old.items ++ steps.now.keys) }
{
    for b in steps.iter() {
        numbers.push(*b)?;
    }
    Ok(())
}

impl Search {
    /// Returns a search that begins at each of the first `count` numbers.
    fn new(alloc: Global, count: usize) -> Result<Search, AllocError>
        ensures { IfOk result (λ s. IsAmong count s) }
    {
        let mut pending = Vec::new(alloc);
        for n in 0..count {
            pending.push(n)?;
        }
        Ok(Search {
            places: vec![in alloc; None; count]?,
            ranks: vec![in alloc; 0; count]?,
            closed: 0,
            members: Vec::new(alloc),
            pending,
            groups: Vec::new(alloc),
        })
    }

    /// Takes a step or closes a group. Returns false if nothing is left.
    fn advance(&mut self, targets: &[BTreeSet<usize>]) -> Result<bool, AllocError>
        requires within { AreWithin targets.now }
        requires among { IsAmong (length targets.now) self.old }
        ensures { OnOk result (IsAmong (length targets.now) self.new) }
    {
        if before(self.groups.as_slice()) < self.pending.len() {
            return self.look(targets);
        }
        let Some(group) = self.groups.pop() else {
            return Ok(false);
        };
        self.closed = self.closed.saturating_add(1);
        close(&mut self.ranks, &mut self.members, group.first, self.closed);
        Ok(true)
    }

    /// Takes the last pending step or beginning.
    fn look(&mut self, targets: &[BTreeSet<usize>]) -> Result<bool, AllocError>
        requires within { AreWithin targets.now }
        requires among { IsAmong (length targets.now) self.old }
        ensures { OnOk result (IsAmong (length targets.now) self.new) }
    {
        let Some(b) = self.pending.pop() else {
            return Ok(false);
        };
        self.follow(targets, b)?;
        Ok(true)
    }

    /// Takes a step to `b`. If `b` was not reached, it begins a group; if it is on the path, groups are joined.
    fn follow(&mut self, targets: &[BTreeSet<usize>], b: usize) -> Result<(), AllocError>
        requires low { b < length targets.now }
        requires within { AreWithin targets.now }
        requires among { IsAmong (length targets.now) self.old }
        ensures { OnOk result (IsAmong (length targets.now) self.new) }
    {
        let Some(place) = self.places[b] else {
            return self.begin(targets, b);
        };
        if self.ranks[b] == 0 {
            join(&mut self.groups, place);
        }
        Ok(())
    }

    /// Begins a group with `n`.
    fn begin(&mut self, targets: &[BTreeSet<usize>], n: usize) -> Result<(), AllocError>
        requires low { n < length targets.now }
        requires within { AreWithin targets.now }
        requires among { IsAmong (length targets.now) self.old }
        ensures { OnOk result (IsAmong (length targets.now) self.new) }
    {
        let first = self.members.len();
        let before = self.pending.len();
        self.places[n] = Some(first);
        self.groups.push(Group { first, before })?;
        self.members.push(n)?;
        add_all(&mut self.pending, &targets[n])
    }
}
