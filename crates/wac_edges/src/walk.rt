//! Iteration over the edges at one end of a node.
ghost use Rattle.std.specs.Prelude.{◌≡◌, ◌+◌, ◌<◌, ◌^◌, length, map};
ghost use Rattle.slab.specs.Slab.{get};
ghost use Rattle.wac_edges.specs.private.Records.{AreListed, list_at, first_at};

use crate::edges::{Edge, End};
use crate::records::{Firsts, Record, first};
use slab::Slab;
use std::marker::Model;

/// An iterator over the keys and edges of the records of one list.
#[derive(Drop)]
pub(crate) struct Records<'a> {
    table: &'a Slab<Record>,
    end: End,
    here: Option<u32>,
}

impl<'a> Model for Records<'a> {
    ghost use Rattle.std.specs.Prelude.{ℕ, List};
    ghost use Rattle.wac_edges.specs.declared.edges.Edge.{Edge};

    ghost Value = { List (ℕ × Edge) };

    ghost use Rattle.slab.specs.Slab.{get};
    ghost use Rattle.wac_edges.specs.private.Records.{IsList, list_at};

    ghost view = { λ s. list_at s.table.now s.end s.here };

    ghost invariant = { λ s. IsList (get s.table.now) s.end s.here (list_at s.table.now s.end s.here) };
}

impl<'a> Iterator for Records<'a> {
    type Item = (usize, Edge);

    ghost use Rattle.std.specs.Iterator.{YieldsFirst, item_count};

    ghost next_gives = { YieldsFirst (λ s. s) };

    ghost remaining = { item_count (λ s. s) };

    #[inline(always)]
    fn next(&mut self) -> Option<(usize, Edge)> {
        let here = self.here?;
        let key = here as usize;
        let record = &self.table[key];
        self.here = record.links(self.end).next;
        Some((key, record.edge))
    }
}

/// Returns an iterator over the records of the list at this end of a node.
#[inline(always)]
pub(crate) fn records_at<'a>(
    table: &'a Slab<Record>,
    firsts: &[Firsts],
    node: usize,
    end: End,
) -> Records<'a>
    requires { AreListed (get table.now) firsts.now }
    ensures list { result ≡ list_at table.now end (first_at end firsts.now node) }
    ensures short { length result < 2 ^ 64 }
{
    // Proof only: no list has more records than the table has room for (docs/PROOFS.md, 'Laws').
    let _room = table.capacity();
    Records {
        table,
        end,
        here: first(firsts, node, end),
    }
}

/// An iterator over the edges at one end of a node. Reads one record for each edge.
#[derive(Drop)]
pub struct Walk<'a> {
    records: Records<'a>,
    steps: usize,
}

impl<'a> Model for Walk<'a> {
    ghost use Rattle.wac_edges.specs.Ends.{Walked};

    ghost Value = { Walked };

    ghost use Rattle.std.specs.Prelude.{◌+◌, ◌<◌, ◌^◌, length, map};

    ghost view = { λ w. record { left = map (λ x. x.1) w.records; steps = w.steps } };

    ghost invariant = { λ w. w.steps + length w.records < 2 ^ 64 };
}

impl<'a> Walk<'a> {
    /// Returns an iterator over the edges of these records.
    #[inline(always)]
    pub(crate) fn new(records: Records<'a>) -> Walk<'a>
        requires { length records < 2 ^ 64 }
        ensures left { result.left ≡ map (λ x. x.1) records.entry }
        ensures steps { result.steps ≡ 0 }
    {
        Walk { records, steps: 0 }
    }

    /// The number of records read so far, which is the number of edges returned.
    pub fn steps(&self) -> usize
        ensures { result ≡ self.now.steps }
    {
        self.steps
    }
}

impl<'a> Iterator for Walk<'a> {
    type Item = Edge;

    ghost use Rattle.std.specs.Iterator.{item_count};
    ghost use Rattle.wac_edges.specs.Ends.{Gives};

    ghost next_gives = { Gives };

    ghost remaining = { item_count (λ w. w.left) };

    #[inline(always)]
    fn next(&mut self) -> Option<Edge> {
        let (_, edge) = self.records.next()?;
        self.steps += 1;
        Some(edge)
    }
}
