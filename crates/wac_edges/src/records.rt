//! Edges as records of one table. Each is in a list of the edges of its source and in one of its target.
ghost use Rattle.std.specs.Prelude.{◌≡◌, ◌↔◌, ◌⊎◌, ℕ, ◌+◌, ◌<◌, ◌≤◌, ◌^◌, Some, None, IfSome, IfNone, OnOk, Contains, length, vec_len};
ghost use Rattle.std.specs.Bool.{OnTrue, OnFalse};
ghost use Rattle.std.specs.Option.{option_map, ForNone, ForSome};
ghost use Rattle.slab.specs.Slab.{get, slab_len, ContainsKey, HasRoomFor};
ghost use Rattle.wac_edges.specs.declared.edges.Edge.{Edge as AnEdge};
ghost use Rattle.wac_edges.specs.declared.edges.End.{End as AnEnd};
ghost use Rattle.wac_edges.specs.Edge.{AreOnce};
ghost use Rattle.wac_edges.specs.private.Records.{AreLinked, AreListed, HasEdge, HasShortKey, HaveFirsts, KeepsRoom, links_at, number_at, with_links, with_next, with_previous, places, first_at, edge_at, opposite, updated, changed, begun_by};

use crate::edges::{Edge, End};
use crate::walk::records_at;
use slab::Slab;
use std::alloc::AllocError;

/// The greatest number of records. So a key fits in a `u32`.
pub(crate) const MOST: usize = 1 << 32;

/// The keys of the records before and after one in a list.
#[derive(Clone, Copy)]
pub(crate) struct Links {
    pub(crate) previous: Option<u32>,
    pub(crate) next: Option<u32>,
}

/// An edge with its links in the list of its source and in that of its target.
#[derive(Clone, Copy)]
pub(crate) struct Record {
    pub(crate) edge: Edge,
    pub(crate) out: Links,
    pub(crate) into: Links,
}

impl Record {
    /// Returns a record that is in no list yet.
    #[inline(always)]
    pub(crate) fn new(edge: Edge) -> Record
        ensures { result.edge ≡ edge }
    {
        let alone = Links {
            previous: None,
            next: None,
        };
        Record {
            edge,
            out: alone,
            into: alone,
        }
    }

    /// The links in the list at this end.
    #[inline(always)]
    pub(crate) fn links(&self, end: End) -> Links
        ensures { result ≡ links_at end self.now }
    {
        match end {
            End::Outgoing => self.out,
            End::Incoming => self.into,
        }
    }

    /// The number of the node at this end of the edge.
    #[inline(always)]
    fn number(&self, end: End) -> usize
        ensures { result ≡ number_at end self.now.edge }
    {
        self.edge.node(end).0
    }
}

/// The keys of the first edge out of a node and of the first edge into it.
#[derive(Clone, Copy)]
pub(crate) struct Firsts {
    pub(crate) out: Option<u32>,
    pub(crate) into: Option<u32>,
}

/// Returns the first record of the list at this end of a node, if there is one.
#[inline(always)]
pub(crate) fn first(firsts: &[Firsts], node: usize, end: End) -> Option<u32>
    ensures { result ≡ first_at end firsts.now node }
{
    let firsts = firsts.get(node)?;
    match end {
        End::Outgoing => firsts.out,
        End::Incoming => firsts.into,
    }
}

/// Sets the first record of the list at this end of a node.
#[inline(always)]
fn set_first(firsts: &mut [Firsts], node: usize, end: End, key: Option<u32>)
    requires { node < length firsts.old }
    ensures here { (n : ℕ) → first_at end firsts.new n ≡ updated (first_at end firsts.old) node key n }
    ensures opposite { (n : ℕ) → first_at (opposite end) firsts.new n ≡ first_at (opposite end) firsts.old n }
{
    match end {
        End::Outgoing => firsts[node].out = key,
        End::Incoming => firsts[node].into = key,
    }
}

/// Sets the links of a record in the list at this end.
#[inline(always)]
fn set_links(records: &mut Slab<Record>, key: usize, end: End, links: Links)
    requires { ContainsKey records.old key }
    ensures records { (q : ℕ) → get records.new q ≡ updated (get records.old) key (option_map (with_links end links) (get records.old key)) q }
    ensures room { KeepsRoom records.old records.new }
{
    let record = &mut records[key];
    match end {
        End::Outgoing => record.out = links,
        End::Incoming => record.into = links,
    }
}

/// Sets the record after `key`, or the first record if there is no `key`, in the list at this end of a node.
#[inline(always)]
fn set_next(
    records: &mut Slab<Record>,
    firsts: &mut [Firsts],
    node: usize,
    end: End,
    key: Option<u32>,
    next: Option<u32>,
)
    requires there { ForSome key (λ k. ContainsKey records.old k) }
    requires node { ForNone key (node < length firsts.old) }
    ensures records { (q : ℕ) → get records.new q ≡ changed (with_next end next) key (get records.old) q }
    ensures firsts { (n : ℕ) → first_at end firsts.new n ≡ begun_by (first_at end firsts.old) node key next n }
    ensures opposite { (n : ℕ) → first_at (opposite end) firsts.new n ≡ first_at (opposite end) firsts.old n }
{
    match key {
        Some(key) => {
            let key = key as usize;
            let previous = records[key].links(end).previous;
            set_links(records, key, end, Links { previous, next });
        }
        None => set_first(firsts, node, end, next),
    }
}

/// Sets the record before `key`, if there is a `key`, in the list at this end.
#[inline(always)]
fn set_previous(records: &mut Slab<Record>, end: End, key: Option<u32>, previous: Option<u32>)
    requires { ForSome key (λ k. ContainsKey records.old k) }
    ensures records { (q : ℕ) → get records.new q ≡ changed (with_previous end previous) key (get records.old) q }
    ensures room { KeepsRoom records.old records.new }
{
    if let Some(key) = key {
        let key = key as usize;
        let next = records[key].links(end).next;
        set_links(records, key, end, Links { previous, next });
    }
}

/// Puts a record first into the list at this end of its node. It must not be in that list yet.
#[inline(always)]
fn link(records: &mut Slab<Record>, firsts: &mut [Firsts], key: usize, end: End)
    requires there { ContainsKey records.old key }
    requires short { key < 2 ^ 32 }
    requires node { (e : AnEdge) → edge_at (get records.old) key ≡ Some e → number_at end e < length firsts.old }
    requires others { AreLinked (updated (places end (get records.old)) key None) (first_at end firsts.old) }
    ensures linked { AreLinked (places end (get records.new)) (first_at end firsts.new) }
    ensures opposite { (q : ℕ) → places (opposite end) (get records.new) q ≡ places (opposite end) (get records.old) q }
    ensures firsts { (n : ℕ) → first_at (opposite end) firsts.new n ≡ first_at (opposite end) firsts.old n }
    ensures edges { (q : ℕ) → edge_at (get records.new) q ≡ edge_at (get records.old) q }
    ensures room { KeepsRoom records.old records.new }
{
    let node = records[key].number(end);
    let next = first(firsts, node, end);
    let links = Links {
        previous: None,
        next,
    };
    set_links(records, key, end, links);
    let here = Some(key as u32);
    set_previous(records, end, next, here);
    set_first(firsts, node, end, here);
}

/// Removes a record from the list at this end of its node.
#[inline(always)]
fn unlink(records: &mut Slab<Record>, firsts: &mut [Firsts], key: usize, end: End)
    requires there { ContainsKey records.old key }
    requires linked { AreLinked (places end (get records.old)) (first_at end firsts.old) }
    ensures others { AreLinked (updated (places end (get records.new)) key None) (first_at end firsts.new) }
    ensures opposite { (q : ℕ) → places (opposite end) (get records.new) q ≡ places (opposite end) (get records.old) q }
    ensures firsts { (n : ℕ) → first_at (opposite end) firsts.new n ≡ first_at (opposite end) firsts.old n }
    ensures edges { (q : ℕ) → edge_at (get records.new) q ≡ edge_at (get records.old) q }
{
    let record = records[key];
    let node = record.number(end);
    let links = record.links(end);
    set_next(records, firsts, node, end, links.previous, links.next);
    set_previous(records, end, links.next, links.previous);
}

/// Makes room for the lists of a node.
pub(crate) fn make_firsts(firsts: &mut Vec<Firsts>, node: usize) -> Result<(), AllocError>
    ensures same { (end : AnEnd) (n : ℕ) → first_at end firsts.new.items n ≡ first_at end firsts.old.items n }
    ensures longer { vec_len firsts.old ≤ vec_len firsts.new }
    ensures there { OnOk result (node < vec_len firsts.new) }
{
    let Some(count) = node.checked_add(1) else {
        return Err(AllocError);
    };
    if firsts.len() < count {
        let none = Firsts {
            out: None,
            into: None,
        };
        firsts.resize(count, none)?;
    }
    Ok(())
}

/// Makes room for the lists of the nodes at both ends of each edge.
pub(crate) fn make_all_firsts(firsts: &mut Vec<Firsts>, edges: &[Edge]) -> Result<(), AllocError>
    ensures same { (end : AnEnd) (n : ℕ) → first_at end firsts.new.items n ≡ first_at end firsts.old.items n }
    ensures there { OnOk result (HaveFirsts (vec_len firsts.new) edges.now) }
{
    for edge in edges {
        make_firsts(firsts, edge.source.0)?;
        make_firsts(firsts, edge.target.0)?;
    }
    Ok(())
}

/// Returns the key of the record of an edge.
///
/// Reads at most two records for each edge at the end that has fewer, and one more.
pub(crate) fn find(records: &Slab<Record>, firsts: &[Firsts], edge: Edge) -> Option<usize>
    requires { AreListed (get records.now) firsts.now }
    ensures some { IfSome result (λ k. edge_at (get records.now) k ≡ Some edge) }
    ensures none { IfNone result ((k : ℕ) → edge_at (get records.now) k ≡ Some edge → ⊥) }
{
    let mut out = records_at(records, firsts, edge.source.0, End::Outgoing);
    let mut into = records_at(records, firsts, edge.target.0, End::Incoming);
    while let (Some(one), Some(other)) = (out.next(), into.next()) {
        if one.1 == edge {
            return Some(one.0);
        }
        if other.1 == edge {
            return Some(other.0);
        }
    }
    None
}

/// Adds an edge that has no record yet to the table, which must have room, and to the lists at both ends.
pub(crate) fn put(records: &mut Slab<Record>, firsts: &mut [Firsts], edge: Edge)
    requires room { HasRoomFor records.old 1 }
    requires short { HasShortKey records.old }
    requires source { edge.source.0 < length firsts.old }
    requires target { edge.target.0 < length firsts.old }
    requires listed { AreListed (get records.old) firsts.old }
    requires absent { (k : ℕ) → edge_at (get records.old) k ≡ Some edge → ⊥ }
    ensures listed { AreListed (get records.new) firsts.new }
    ensures edges { (e : AnEdge) → HasEdge (get records.new) e ↔ (HasEdge (get records.old) e ⊎ (e ≡ edge)) }
    ensures count { slab_len records.new ≡ slab_len records.old + 1 }
    ensures capacity { records.new.capacity ≡ records.old.capacity }
{
    let key = records.insert_reserved(Record::new(edge));
    link(records, firsts, key, End::Outgoing);
    link(records, firsts, key, End::Incoming);
}

/// Adds edges that have no record yet, each once, to the table, which must have room, and to the lists at both ends.
pub(crate) fn put_all(records: &mut Slab<Record>, firsts: &mut [Firsts], edges: &[Edge])
    requires room { HasRoomFor records.old (length edges.now) }
    requires short { records.old.capacity ≤ 2 ^ 32 }
    requires there { HaveFirsts (length firsts.old) edges.now }
    requires listed { AreListed (get records.old) firsts.old }
    requires absent { (e : AnEdge) → Contains edges.now e → HasEdge (get records.old) e → ⊥ }
    requires once { AreOnce edges.now }
    ensures listed { AreListed (get records.new) firsts.new }
    ensures edges { (e : AnEdge) → HasEdge (get records.new) e ↔ (HasEdge (get records.old) e ⊎ Contains edges.now e) }
{
    for edge in edges {
        put(records, firsts, *edge);
    }
}

/// Removes a record from the lists at both ends and from the table.
pub(crate) fn take(records: &mut Slab<Record>, firsts: &mut [Firsts], key: usize)
    requires there { ContainsKey records.old key }
    requires listed { AreListed (get records.old) firsts.old }
    ensures listed { AreListed (get records.new) firsts.new }
    ensures edges { (e : AnEdge) → HasEdge (get records.new) e ↔ (HasEdge (get records.old) e × (edge_at (get records.old) key ≡ Some e → ⊥)) }
{
    unlink(records, firsts, key, End::Outgoing);
    unlink(records, firsts, key, End::Incoming);
    records.remove(key);
}

/// Whether each edge leads to a node with a higher number. Reads the whole table.
pub(crate) fn all_rise(records: &Slab<Record>) -> bool
    ensures { OnTrue result ((k : ℕ) (e : AnEdge) → edge_at (get records.now) k ≡ Some e → e.source.0 < e.target.0) }
{
    for key in 0..records.capacity() {
        if falls(records, key) {
            return false;
        }
    }
    true
}

/// Whether there is a record with this key, and its edge leads to a node with no higher number.
fn falls(records: &Slab<Record>, key: usize) -> bool
    ensures { OnFalse result ((e : AnEdge) → edge_at (get records.now) key ≡ Some e → e.source.0 < e.target.0) }
{
    match records.get(key) {
        Some(record) => record.edge.target.0 <= record.edge.source.0,
        None => false,
    }
}

/// Whether one of the edges leads to a node with no higher number.
pub(crate) fn any_falls(edges: &[Edge]) -> bool
    ensures { OnFalse result ((e : AnEdge) → Contains edges.now e → e.source.0 < e.target.0) }
{
    for edge in edges {
        if edge.target.0 <= edge.source.0 {
            return true;
        }
    }
    false
}
