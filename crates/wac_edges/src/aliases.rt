//! The aliases of nodes with many outgoing edges, by source and position.
ghost use Rattle.std.specs.Prelude.{◌≡◌, ◌≢◌, ◌↔◌, ◌⊎◌, ℕ, true, false, None, Some, Contains, IfOk, IfSome, IfNone, OnOk, OnErr};
ghost use Rattle.std.specs.Bool.{OnTrue, OnFalse};
ghost use Rattle.wac_edges.specs.declared.node.NodeId.{NodeId as AnId};
ghost use Rattle.wac_edges.specs.Edge.{node_number, alias_edge};
ghost use Rattle.wac_edges.specs.private.Aliases.{place, first, is_noted, is_among, is_crowded};

use crate::edges::{Edge, Label};
use crate::walk::Walk;
use std::alloc::{AllocError, Global};
use std::collections::{BTreeSet, HashMap};

/// Aliases by their source and the position of the aliased export.
///
/// A graph has at most one alias of an export. So `others` has only aliases at positions far beyond the end of a list.
#[derive(Drop)]
pub(crate) struct Aliases {
    // For each source a list: at each position the first alias that was added, if there is one.
    firsts: HashMap<usize, Vec<Option<usize>>>,
    others: BTreeSet<(usize, usize, usize)>,
    alloc: Global,
}

/// The most places that a list grows by for one alias. So a list has at most eight places for each alias added.
const NEAR: usize = 8;

/// A clone has the same aliases. `clone` is `Err(AllocError)` if out of memory.
impl Clone for Aliases {
    ghost use Rattle.wac_edges.specs.private.Aliases.{AreAlike};

    ghost is_clone = { AreAlike };

    fn clone(&self) -> Result<Aliases, AllocError> {
        let firsts = self.firsts.clone()?;
        let others = self.others.clone()?;
        Ok(Aliases {
            firsts,
            others,
            alloc: self.alloc,
        })
    }
}

impl Aliases {
    /// Returns no aliases.
    pub(crate) fn new(alloc: Global) -> Aliases
        ensures { (source target : AnId) (i : ℕ) → is_noted result source i target ≡ false }
    {
        Aliases {
            firsts: HashMap::new(alloc),
            others: BTreeSet::new(alloc),
            alloc,
        }
    }
}

/// Adds an edge, if it leads to an alias. If out of memory, nothing changes.
pub(crate) fn note_alias(aliases: &mut Aliases, edge: Edge) -> Result<(), AllocError>
    ensures ok { OnOk result ((source target : AnId) (i : ℕ) → (is_noted aliases.new source i target ≡ true) ↔ ((is_noted aliases.old source i target ≡ true) ⊎ (alias_edge source target i ≡ edge))) }
    ensures err { OnErr result ((source target : AnId) (i : ℕ) → is_noted aliases.new source i target ≡ is_noted aliases.old source i target) }
{
    let Label::Alias(position) = edge.label else {
        return Ok(());
    };
    let source = edge.source.0;
    let target = edge.target.0;
    let alloc = aliases.alloc;
    if fill_first(&mut aliases.firsts, alloc, source, position, target)? {
        return Ok(());
    }
    aliases.others.insert((source, position, target))?;
    Ok(())
}

/// Sets the first alias of a source at a position, and returns whether it did.
///
/// It does not if there is one, or if the list would grow by more than `NEAR`. If out of memory, nothing changes.
fn fill_first(
    firsts: &mut HashMap<usize, Vec<Option<usize>>>,
    alloc: Global,
    source: usize,
    position: usize,
    target: usize,
) -> Result<bool, AllocError>
    ensures filled { IfOk result (λ filled. OnTrue filled ((first firsts.old source position ≡ None) × (first firsts.new source position ≡ Some target))) }
    ensures not { IfOk result (λ filled. OnFalse filled (first firsts.new source position ≡ first firsts.old source position)) }
    ensures err { OnErr result (first firsts.new source position ≡ first firsts.old source position) }
    ensures others { (s i : ℕ) → (s ≡ source → i ≢ position) → first firsts.new s i ≡ first firsts.old s i }
{
    if let Some(places) = firsts.get_mut(&source) {
        return fill_place(places, position, target);
    }
    let mut places = Vec::new(alloc);
    let filled = fill_place(&mut places, position, target)?;
    if !filled {
        return Ok(false);
    }
    firsts.insert(source, places)?;
    Ok(true)
}

/// Sets the alias at a position of a list, and returns whether it did.
///
/// It does not if there is one, or if the list would grow by more than `NEAR`. If out of memory, nothing changes.
fn fill_place(
    places: &mut Vec<Option<usize>>,
    position: usize,
    target: usize,
) -> Result<bool, AllocError>
    ensures filled { IfOk result (λ filled. OnTrue filled ((place places.old.items position ≡ None) × (place places.new.items position ≡ Some target))) }
    ensures not { IfOk result (λ filled. OnFalse filled (place places.new.items position ≡ place places.old.items position)) }
    ensures err { OnErr result (place places.new.items position ≡ place places.old.items position) }
    ensures others { (i : ℕ) → i ≢ position → place places.new.items i ≡ place places.old.items i }
{
    let near = places.len().saturating_add(NEAR);
    if position >= near || place_of(places, position).is_some() {
        return Ok(false);
    }
    if position >= places.len() {
        places.resize(position + 1, None)?;
    }
    places[position] = Some(target);
    Ok(true)
}

/// Returns the alias at a position of a list, if there is one.
fn place_of(places: &[Option<usize>], position: usize) -> Option<usize>
    ensures { result ≡ place places.now position }
{
    match places.get(position) {
        Some(place) => *place,
        None => None,
    }
}

/// Whether the node is marked as crowded.
pub(crate) fn is_crowded(crowded: &[bool], number: usize) -> bool
    ensures { result ≡ is_crowded crowded.now (node_number number) }
{
    match crowded.get(number) {
        Some(marked) => *marked,
        None => false,
    }
}

/// Marks a node as crowded. If out of memory, nothing changes.
pub(crate) fn mark(crowded: &mut Vec<bool>, number: usize) -> Result<(), AllocError>
    ensures marked { OnOk result (is_crowded crowded.new.items (node_number number) ≡ true) }
    ensures others { (n : AnId) → n.0 ≢ number → is_crowded crowded.new.items n ≡ is_crowded crowded.old.items n }
    ensures kept { OnErr result ((n : AnId) → is_crowded crowded.new.items n ≡ is_crowded crowded.old.items n) }
{
    let Some(count) = number.checked_add(1) else {
        return Err(AllocError);
    };
    if crowded.len() < count {
        crowded.resize(count, false)?;
    }
    crowded[number] = true;
    Ok(())
}

/// Adds an edge, if it leads from a crowded node to an alias. If out of memory, nothing changes.
pub(crate) fn note(crowded: &[bool], aliases: &mut Aliases, edge: Edge) -> Result<(), AllocError>
    ensures ok { OnOk result ((source target : AnId) (i : ℕ) → (is_noted aliases.new source i target ≡ true) ↔ ((is_noted aliases.old source i target ≡ true) ⊎ ((is_crowded crowded.now source ≡ true) × (alias_edge source target i ≡ edge)))) }
    ensures err { OnErr result ((source target : AnId) (i : ℕ) → is_noted aliases.new source i target ≡ is_noted aliases.old source i target) }
{
    if is_crowded(crowded, edge.source.0) {
        return note_alias(aliases, edge);
    }
    Ok(())
}

/// Adds the edges that lead to aliases. If out of memory, only some are added.
pub(crate) fn note_all(aliases: &mut Aliases, walk: Walk<'_>) -> Result<(), AllocError>
    ensures more { (source target : AnId) (i : ℕ) → is_noted aliases.new source i target ≡ true → (is_noted aliases.old source i target ≡ true) ⊎ Contains walk.entry.left (alias_edge source target i) }
    ensures kept { (source target : AnId) (i : ℕ) → is_noted aliases.old source i target ≡ true → is_noted aliases.new source i target ≡ true }
    ensures all { OnOk result ((source target : AnId) (i : ℕ) → Contains walk.entry.left (alias_edge source target i) → is_noted aliases.new source i target ≡ true) }
{
    for edge in walk {
        note_alias(aliases, edge)?;
    }
    Ok(())
}

/// Removes an edge, if it leads to an alias. Takes no memory.
pub(crate) fn forget_alias(aliases: &mut Aliases, edge: Edge)
    ensures { (source target : AnId) (i : ℕ) → (is_noted aliases.new source i target ≡ true) ↔ ((is_noted aliases.old source i target ≡ true) × (alias_edge source target i ≡ edge → ⊥)) }
{
    let Label::Alias(position) = edge.label else {
        return;
    };
    let source = edge.source.0;
    let target = edge.target.0;
    empty_first(&mut aliases.firsts, source, position, target);
    aliases.others.remove(&(source, position, target));
}

/// Removes the first alias of a source at a position, if it is `target`. Takes no memory.
fn empty_first(
    firsts: &mut HashMap<usize, Vec<Option<usize>>>,
    source: usize,
    position: usize,
    target: usize,
)
    ensures gone { first firsts.old source position ≡ Some target → first firsts.new source position ≡ None }
    ensures other { first firsts.old source position ≢ Some target → first firsts.new source position ≡ first firsts.old source position }
    ensures others { (s i : ℕ) → (s ≡ source → i ≢ position) → first firsts.new s i ≡ first firsts.old s i }
{
    let Some(places) = firsts.get_mut(&source) else {
        return;
    };
    empty_place(places, position, target);
}

/// Empties the place at a position of a list, if it has this alias. Takes no memory.
fn empty_place(places: &mut Vec<Option<usize>>, position: usize, target: usize)
    ensures gone { place places.old.items position ≡ Some target → place places.new.items position ≡ None }
    ensures other { place places.old.items position ≢ Some target → place places.new.items position ≡ place places.old.items position }
    ensures others { (i : ℕ) → i ≢ position → place places.new.items i ≡ place places.old.items i }
{
    if position < places.len() && places[position] == Some(target) {
        places[position] = None;
    }
}

/// Returns the number of an alias of an export: the first that was added, else the lowest.
pub(crate) fn first_alias(aliases: &Aliases, source: usize, position: usize) -> Option<usize>
    ensures some { IfSome result (λ target. is_noted aliases.now (node_number source) position (node_number target) ≡ true) }
    ensures none { IfNone result ((target : AnId) → is_noted aliases.now (node_number source) position target ≡ false) }
{
    if let Some(first) = first_of(&aliases.firsts, source, position) {
        return Some(first);
    }
    lowest_among(&aliases.others, source, position)
}

/// Returns the first alias of a source at a position, if there is one.
fn first_of(
    firsts: &HashMap<usize, Vec<Option<usize>>>,
    source: usize,
    position: usize,
) -> Option<usize>
    ensures { result ≡ first firsts.now source position }
{
    match firsts.get(&source) {
        Some(places) => place_of(places, position),
        None => None,
    }
}

/// Returns the number of the lowest alias of an export that is in a set.
fn lowest_among(
    aliases: &BTreeSet<(usize, usize, usize)>,
    source: usize,
    position: usize,
) -> Option<usize>
    ensures some { IfSome result (λ target. is_among aliases.now (node_number source) position (node_number target) ≡ true) }
    ensures none { IfNone result ((target : AnId) → is_among aliases.now (node_number source) position target ≡ false) }
{
    let mut noted = aliases.range((source, position, 0)..);
    let (number, i, target) = *noted.next()?;
    if number == source && i == position {
        Some(target)
    } else {
        None
    }
}
