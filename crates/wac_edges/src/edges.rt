//! Sets of labelled edges between nodes.
ghost use Rattle.std.specs.Prelude.{◌≡◌, ◌<◌, ◌+◌, ◌↔◌, ◌⊎◌, ℕ, true, false, OnOk, OnErr, IfOk, IfSome, IfNone, MatchOption, Contains, length, slice_index};
ghost use Rattle.std.specs.Bool.{OnTrue, OnFalse};
ghost use Rattle.std.specs.FinSet as set;
ghost use Rattle.wac_edges.specs.declared.edges.Edge.{Edge as AnEdge};
ghost use Rattle.wac_edges.specs.declared.node.NodeId.{NodeId as AnId};
ghost use Rattle.wac_edges.specs.Edge.{node_number, edge_cmp, alias_edge, argument_edge, AreOnce, IsAlias};
ghost use Rattle.wac_edges.specs.Ends.{at_end, AreAt, HasLabel};
ghost use Rattle.wac_edges.specs.private.Targets.{LeadsTo};
ghost use Rattle.wac_edges.specs.Order.{IsAcyclic, IsEdge, IsLowestOnCycle};
ghost use Rattle.wac_edges.specs.cycles.Cycles.{IsStep};
ghost use Rattle.wac_edges.specs.private.Ready.{AllRise, AreCounted, leads_from, one};

use crate::aliases::{Aliases, first_alias, forget_alias, is_crowded, mark, note, note_all};
use crate::cycles::cycles::{add_step, empty_sets, lowest_on_cycle};
use crate::node::NodeId;
use crate::records::{
    Firsts, MOST, Record, all_rise, any_falls, find, make_all_firsts, make_firsts, put, put_all,
    take,
};
use crate::walk::{Walk, records_at};
use slab::Slab;
use std::alloc::{AllocError, Global};
use std::collections::BTreeSet;
use std::marker::Model;

/// The meaning of an edge.
#[derive(Clone, Copy, PartialEq, Eq)]
pub enum Label {
    /// From an instance to the alias of its export at this index.
    Alias(usize),
    /// From an argument to the instantiation whose import at this index it satisfies.
    Argument(usize),
    /// From a definition to one that depends on it.
    Dependency,
}

/// An edge.
#[derive(Clone, Copy, PartialEq, Eq)]
pub struct Edge {
    /// The node from which it leads.
    pub source: NodeId,
    /// The node to which it leads.
    pub target: NodeId,
    /// Its meaning.
    pub label: Label,
}

impl Edge {
    /// The node at this end.
    #[inline(always)]
    pub fn node(&self, end: End) -> NodeId
        ensures { result ≡ at_end end self.now }
    {
        match end {
            End::Outgoing => self.source,
            End::Incoming => self.target,
        }
    }
}

/// An end of edges, seen from a node.
#[derive(Clone, Copy)]
pub enum End {
    /// The edges out of the node.
    Outgoing,
    /// The edges into the node.
    Incoming,
}

/// A set of edges.
///
/// Each edge has a record in a table, in one list with the edges of its source and in one with those of its target. So
/// a look-up reads only records of one node. The aliases of a node with many outgoing edges are in a map.
#[derive(Drop)]
pub struct Edges {
    records: Slab<Record>,
    // For each node up to the greatest source or target of an edge that was added.
    firsts: Vec<Firsts>,
    // Marks the nodes that once had more than `FEW` outgoing edges.
    crowded: Vec<bool>,
    // The aliases of the marked nodes.
    aliases: Aliases,
    // Whether an edge was ever added that leads to no higher number.
    falls: bool,
}

/// The greatest number of outgoing edges that are searched for an alias.
const FEW: usize = 8;

impl Model for Edges {
    ghost use Rattle.std.specs.FinSet as set;
    ghost use Rattle.wac_edges.specs.Edge.{edge_cmp, edge_code};

    ghost Value = { set.FinSet edge_cmp };

    ghost coded = { set.code edge_code };

    ghost use Rattle.slab.specs.Slab.{get};
    ghost use Rattle.wac_edges.specs.private.Records.{all_edges, AreListed, RiseUnless};
    ghost use Rattle.wac_edges.specs.private.Aliases.{AreNoted};

    ghost view = { λ a. set.from_list (all_edges a.records.slots) };

    ghost invariant = { λ a. AreListed (get a.records) a.firsts.items × AreNoted a.crowded.items a.aliases (get a.records) × RiseUnless a.falls (get a.records) };
}

/// A clone is the same set. It takes time linear in the edges and in the greatest node of one.
///
/// `clone` is `Err(AllocError)` if out of memory.
impl Clone for Edges {
    ghost is_clone = { λ a b. b ≡ a };

    fn clone(&self) -> Result<Edges, AllocError> {
        let records = self.records.clone()?;
        let firsts = self.firsts.clone()?;
        let crowded = self.crowded.clone()?;
        let aliases = self.aliases.clone()?;
        Ok(Edges {
            records,
            firsts,
            crowded,
            aliases,
            falls: self.falls,
        })
    }
}

impl Edges {
    /// Returns the empty set.
    pub fn new(alloc: Global) -> Edges
        ensures { result ≡ set.empty }
    {
        Edges {
            records: Slab::new(alloc),
            firsts: Vec::new(alloc),
            crowded: Vec::new(alloc),
            aliases: Aliases::new(alloc),
            falls: false,
        }
    }

    /// Makes room for `count` edges in the table. What is kept of each node can still grow when an edge is added.
    ///
    /// # Errors
    /// - `AllocError` if out of memory.
    pub fn reserve(&mut self, count: usize) -> Result<(), AllocError>
        ensures { self.new ≡ self.old }
    {
        self.records.reserve(count)
    }

    /// Adds an edge.
    ///
    /// # Errors
    /// - `AllocError` if out of memory, or if there are 2^32 edges. Then the set is unchanged.
    pub fn add(&mut self, edge: Edge) -> Result<(), AllocError>
        ensures ok { OnOk result (self.new ≡ set.insert self.old edge) }
        ensures err { OnErr result (self.new ≡ self.old) }
    {
        if self.contains(edge) {
            return Ok(());
        }
        self.add_new(edge)
    }

    /// Adds an edge that is not in the set, without searching for it.
    ///
    /// # Errors
    /// - `AllocError` if out of memory, or if there are 2^32 edges. Then the set is unchanged.
    pub fn add_new(&mut self, edge: Edge) -> Result<(), AllocError>
        requires { set.contains self.old edge ≡ false }
        ensures ok { OnOk result (self.new ≡ set.insert self.old edge) }
        ensures err { OnErr result (self.new ≡ self.old) }
    {
        self.crowd(edge.source)?;
        make_firsts(&mut self.firsts, edge.source.0)?;
        make_firsts(&mut self.firsts, edge.target.0)?;
        self.records.reserve(1)?;
        if self.records.vacant_key() >= MOST {
            return Err(AllocError);
        }
        note(&self.crowded, &mut self.aliases, edge)?;
        put(&mut self.records, &mut self.firsts, edge);
        self.falls |= edge.target.0 <= edge.source.0;
        Ok(())
    }

    /// Adds edges that are not in the set, each once, without searching for them. None of them may be an alias.
    ///
    /// Takes all memory before it adds the first edge. An alias may need memory when it is added.
    ///
    /// # Errors
    /// - `AllocError` if out of memory, or if the table would have room for more than 2^32 edges.
    ///
    /// On an error the set is unchanged.
    pub fn add_all(&mut self, edges: &[Edge]) -> Result<(), AllocError>
        requires absent { (e : AnEdge) → Contains edges.now e → set.contains self.old e ≡ true → ⊥ }
        requires once { AreOnce edges.now }
        requires no_alias { (e : AnEdge) → Contains edges.now e → IsAlias e → ⊥ }
        ensures ok { OnOk result ((e : AnEdge) → (set.contains self.new e ≡ true) ↔ (Contains edges.now e ⊎ (set.contains self.old e ≡ true))) }
        ensures err { OnErr result (self.new ≡ self.old) }
    {
        self.crowd_all(edges)?;
        make_all_firsts(&mut self.firsts, edges)?;
        self.records.reserve(edges.len())?;
        if self.records.capacity() > MOST {
            return Err(AllocError);
        }
        put_all(&mut self.records, &mut self.firsts, edges);
        self.falls |= any_falls(edges);
        Ok(())
    }

    /// Marks each source with more than `FEW` outgoing edges, and adds its aliases to the map.
    fn crowd_all(&mut self, edges: &[Edge]) -> Result<(), AllocError>
        ensures { self.new ≡ self.old }
    {
        for edge in edges {
            self.crowd(edge.source)?;
        }
        Ok(())
    }

    /// Marks a node with more than `FEW` outgoing edges, and adds its aliases to the map.
    fn crowd(&mut self, node: NodeId) -> Result<(), AllocError>
        ensures { self.new ≡ self.old }
    {
        if is_crowded(&self.crowded, node.0) {
            return Ok(());
        }
        if self.walk(node, End::Outgoing).nth(FEW).is_none() {
            return Ok(());
        }
        let records = records_at(&self.records, &self.firsts, node.0, End::Outgoing);
        note_all(&mut self.aliases, Walk::new(records))?;
        mark(&mut self.crowded, node.0)?;
        Ok(())
    }

    /// Whether the edge is in the set.
    ///
    /// Reads at most two records for each edge at the end that has fewer, and one more.
    pub fn contains(&self, edge: Edge) -> bool
        ensures { result ≡ set.contains self.now edge }
    {
        find(&self.records, &self.firsts, edge).is_some()
    }

    /// Removes the edge, if it is in the set. Takes no memory.
    pub fn remove(&mut self, edge: Edge)
        ensures { self.new ≡ set.remove self.old edge }
    {
        let _ = self.take(edge);
    }

    /// Removes the edge, and returns whether it was in the set. Takes no memory.
    pub fn take(&mut self, edge: Edge) -> bool
        ensures taken { self.new ≡ set.remove self.old edge }
        ensures was { result ≡ set.contains self.old edge }
    {
        let Some(key) = find(&self.records, &self.firsts, edge) else {
            return false;
        };
        take(&mut self.records, &mut self.firsts, key);
        forget_alias(&mut self.aliases, edge);
        true
    }

    /// Returns an iterator over the edges at this end of a node, the newest first. Takes no memory.
    #[inline(always)]
    pub fn walk(&self, node: NodeId, end: End) -> Walk<'_>
        ensures edges { AreAt self.now node end result.left }
        ensures steps { result.steps ≡ 0 }
    {
        Walk::new(records_at(&self.records, &self.firsts, node.0, end))
    }

    /// Whether an edge with this label is at this end of the node.
    pub fn has(&self, node: NodeId, end: End, label: Label) -> bool
        ensures there { OnTrue result (HasLabel self.now node end label) }
        ensures absent { OnFalse result (HasLabel self.now node end label → ⊥) }
    {
        for edge in self.walk(node, end) {
            if edge.label == label {
                return true;
            }
        }
        false
    }

    /// Returns the alias of an instance's export at this index, if there is one.
    ///
    /// Searches the edges out of the instance if they are few, and else looks in a map.
    pub fn alias(&self, source: NodeId, position: usize) -> Option<NodeId>
        ensures some { IfSome result (λ target. set.contains self.now (alias_edge source target position) ≡ true) }
        ensures none { IfNone result ((target : AnId) → set.contains self.now (alias_edge source target position) ≡ false) }
    {
        if is_crowded(&self.crowded, source.0) {
            let target = first_alias(&self.aliases, source.0, position)?;
            return Some(NodeId(target));
        }
        for edge in self.walk(source, End::Outgoing) {
            if edge.label == Label::Alias(position) {
                return Some(edge.target);
            }
        }
        None
    }

    /// Returns the instance that an alias is of, and the index of the export.
    pub fn alias_source(&self, target: NodeId) -> Option<(NodeId, usize)>
        ensures some { IfSome result (λ s. set.contains self.now (alias_edge s.0 target s.1) ≡ true) }
        ensures none { IfNone result ((source : AnId) (position : ℕ) → set.contains self.now (alias_edge source target position) ≡ false) }
    {
        for edge in self.walk(target, End::Incoming) {
            if let Label::Alias(i) = edge.label {
                return Some((edge.source, i));
            }
        }
        None
    }

    /// Returns the node that satisfies the import of an instantiation at this index, if one does.
    pub fn argument(&self, target: NodeId, position: usize) -> Option<NodeId>
        ensures some { IfSome result (λ source. set.contains self.now (argument_edge source target position) ≡ true) }
        ensures none { IfNone result ((source : AnId) → set.contains self.now (argument_edge source target position) ≡ false) }
    {
        for edge in self.walk(target, End::Incoming) {
            if edge.label == Label::Argument(position) {
                return Some(edge.source);
            }
        }
        None
    }

    /// Returns the lowest node on a cycle, if there is one. Edges must lead only to the first `nodes` nodes.
    ///
    /// # Errors
    /// - `AllocError` if out of memory.
    pub fn lowest_on_cycle(&self, alloc: Global, nodes: usize) -> Result<Option<NodeId>, AllocError>
        requires { (e : AnEdge) → set.contains self.now e ≡ true → e.target.0 < nodes }
        ensures { IfOk result (λ o. MatchOption o (IsAcyclic self.now) (λ n. IsLowestOnCycle self.now n)) }
    {
        let targets = self.targets(alloc, nodes)?;
        match lowest_on_cycle(alloc, targets.as_slice())? {
            Some(n) => Ok(Some(NodeId(n))),
            None => Ok(None),
        }
    }

    /// Whether each edge leads to a node with a higher number. Reads no edge unless one was added that does not.
    pub(crate) fn rise(&self) -> bool
        ensures { OnTrue result (AllRise self.now) }
    {
        if !self.falls {
            return true;
        }
        all_rise(&self.records)
    }

    /// Returns for each of the first `nodes` nodes those to which edges lead from it.
    pub(crate) fn targets(
        &self,
        alloc: Global,
        nodes: usize,
    ) -> Result<Vec<BTreeSet<usize>>, AllocError>
        ensures counted { IfOk result (λ v. length v.items ≡ nodes) }
        ensures steps { IfOk result (λ v. (a b : ℕ) → (IsStep v.items a b ↔ ((a < nodes) × IsEdge self.now (node_number a) (node_number b)))) }
    {
        let mut targets = empty_sets(alloc, nodes)?;
        for a in 0..nodes {
            add_targets(&mut targets, a, self.walk(NodeId(a), End::Outgoing))?;
        }
        Ok(targets)
    }

    /// Returns for each node of `left` the number of edges to it from nodes that are left.
    pub(crate) fn counts(&self, alloc: Global, left: &[bool]) -> Result<Vec<usize>, AllocError>
        ensures long { IfOk result (λ v. length v.items ≡ length left.now) }
        ensures counted { IfOk result (λ v. AreCounted left.now self.now v.items) }
    {
        let mut counts = vec![in alloc; 0; left.len()]?;
        for (_, record) in self.records.iter() {
            count(&mut counts, left, record.edge)?;
        }
        Ok(counts)
    }
}

/// Counts an edge to its target, if it leads from a node that is left, and the target has a count.
fn count(counts: &mut [usize], left: &[bool], edge: Edge) -> Result<(), AllocError>
    ensures { OnOk result ((b : ℕ) → b < length counts.old → slice_index counts.new b ≡ one (leads_from left.now b edge) + slice_index counts.old b) }
{
    let source = edge.source.0;
    let target = edge.target.0;
    if source < left.len() && left[source] && target < counts.len() {
        // Unreachable: there is no memory for that many edges.
        let Some(more) = counts[target].checked_add(1) else {
            return Err(AllocError);
        };
        counts[target] = more;
    }
    Ok(())
}

/// Adds steps from `a` to the targets of edges.
fn add_targets(targets: &mut [BTreeSet<usize>], a: usize, walk: Walk<'_>) -> Result<(), AllocError>
    requires { a < length targets.old }
    ensures { OnOk result ((n b : ℕ) → (IsStep targets.new n b ↔ (IsStep targets.old n b ⊎ ((n ≡ a) × LeadsTo walk.entry.left (node_number b))))) }
{
    for edge in walk {
        add_step(targets, a, edge.target.0)?;
    }
    Ok(())
}
