//! The order in which nodes are written, and what one pass over all nodes finds.
ghost use Rattle.std.specs.Prelude.{◌≡◌, ◌∷◌, ◌++◌, [], cond, false, OnOk, IfOk, IfErr, IsSomeAnd, IsTrue};
ghost use Rattle.wac_binary.specs.declared.sorts.Sort.{Sort as ASort};
ghost use Rattle.wac_graph_model.specs.private.causes.Search.{IsRefused};
ghost use Rattle.wac_edges.specs.Edge.{is_left, node_number};
ghost use Rattle.wac_edges.specs.Order.{Writes, IsOnCycle, IsAcyclic};
ghost use Rattle.wac_edges.specs.declared.node.NodeId.{NodeId as AnId};
ghost use Rattle.wac_graph_model.specs.meaning.Means.{is_written, is_import};
ghost use Rattle.wac_graph_model.specs.nodes.Graph.{node_at, definition};
ghost use Rattle.wac_graph_model.specs.nodes.Nodes.{kind_of};
ghost use Rattle.wac_graph_model.specs.declared.nodes.options.EncodeOptions.{EncodeOptions as Asked};
ghost use Rattle.wac_graph_reader.specs.private.reading.Seen.{is_definition, open_at, open_numbers};
ghost use Rattle.wac_graph_reader.specs.private.writing.Naming.{IsNamed};

use crate::reading::reader::GraphReader;
use std::alloc::AllocError;
use wac_edges::order::order;
use wac_graph_model::{EncodeError, NodeId, NodeKind};

/// The nodes in written order, with the facts that the pass over all nodes found.
#[derive(Drop)]
pub struct Ordered {
    /// The nodes except imports, each the lowest one whose edge sources are all written or imports.
    pub order: Vec<NodeId>,
    /// Whether any node has a name.
    pub named: bool,
    /// Whether any node is a definition.
    pub defined: bool,
    /// The numbers of the instantiations with an unsatisfied import, in order.
    pub open: Vec<usize>,
}

/// The facts that the pass over all nodes found.
#[derive(Drop)]
struct Seen {
    // Whether the node with each number is to be written.
    left: Vec<bool>,
    // Whether any node has a name.
    named: bool,
    // Whether any node is a definition.
    defined: bool,
    // The numbers of the instantiations with an unsatisfied import, in order.
    numbers: Vec<usize>,
}

impl<'a> GraphReader<'a> {
    /// Orders the nodes for writing. Fails with `GraphContainsCycle` if the edges form a cycle.
    pub fn ordered(&self) -> Result<Ordered, EncodeError>
        ensures whole { IfOk result (λ r. Writes self.now.edges (is_written self.now) r.order.items) }
        ensures named { IfOk result (λ r. r.named ≡ false → (sort : ASort) (n : AnId) → IsNamed self.now sort n → ⊥) }
        ensures defined { IfOk result (λ r. r.defined ≡ false → (n : AnId) → IsSomeAnd (node_at self.now n) (λ node. node.kind ≡ definition) → ⊥) }
        ensures open { IfOk result (λ r. r.open.items ≡ open_numbers self.now) }
        ensures acyclic { OnOk result (IsAcyclic self.now.edges) }
        ensures refused { IfErr result (λ e. (o : Asked) → IsRefused self.now o e) }
    {
        let seen = self.to_write()?;
        match order(self.alloc, &self.edges, seen.left)? {
            Some(order) => Ok(Ordered {
                open: seen.numbers,
                order,
                named: seen.named,
                defined: seen.defined,
            }),
            None => Err(self.cycle()?),
        }
    }

    /// Returns the error that names the lowest node on a cycle.
    fn cycle(&self) -> Result<EncodeError, AllocError>
        requires { (n : AnId) × IsOnCycle self.now.edges n }
        ensures { IfOk result (λ e. (o : Asked) → IsRefused self.now o e) }
    {
        let Some(n) = self
            .edges
            .lowest_on_cycle(self.alloc, self.nodes.capacity())?
        else {
            unreachable!()
        };
        Ok(EncodeError::GraphContainsCycle { node: n })
    }

    /// Collects these facts in one pass over all nodes.
    fn to_write(&self) -> Result<Seen, AllocError>
        ensures left { IfOk result (λ s. (n : AnId) → is_left s.left.items n ≡ is_written self.now n) }
        ensures named { IfOk result (λ s. s.named ≡ false → (sort : ASort) (n : AnId) → IsNamed self.now sort n → ⊥) }
        ensures defined { IfOk result (λ s. s.defined ≡ false → (n : AnId) → IsSomeAnd (node_at self.now n) (λ node. node.kind ≡ definition) → ⊥) }
        ensures numbers { IfOk result (λ s. s.numbers.items ≡ open_numbers self.now) }
    {
        let mut left = Vec::new(self.alloc);
        let mut named = false;
        let mut defined = false;
        let mut numbers = Vec::new(self.alloc);
        for n in 0..self.nodes.capacity() {
            left.push(self.is_to_write(n))?;
            named = named || self.has_name(n);
            defined = defined || self.is_definition(n);
            self.note_open(&mut numbers, n)?;
        }
        Ok(Seen {
            left,
            named,
            defined,
            numbers,
        })
    }

    /// Whether the node with this number is to be written: it exists and is not an import.
    fn is_to_write(&self, n: usize) -> bool
        ensures { result ≡ is_written self.now (node_number n) }
    {
        match self.nodes.get(n) {
            Some(node) => !is_import(node.kind()),
            None => false,
        }
    }

    /// Whether the node with this number is a definition.
    fn is_definition(&self, n: usize) -> bool
        ensures { IsSomeAnd (node_at self.now (node_number n)) (λ node. node.kind ≡ definition) → IsTrue result }
    {
        match self.nodes.get(n) {
            Some(node) => is_definition(node.kind()),
            None => false,
        }
    }

    /// Appends the number if its node is an instantiation with an unsatisfied import.
    fn note_open(&self, numbers: &mut Vec<usize>, n: usize) -> Result<(), AllocError>
        ensures { OnOk result (numbers.new.items ≡ numbers.old.items ++ open_at self.now n) }
    {
        if !self.is_open(n) {
            return Ok(());
        }
        numbers.push(n)?;
        Ok(())
    }

    /// Whether the node with this number is an instantiation with an unsatisfied import.
    fn is_open(&self, n: usize) -> bool
        ensures { open_at self.now n ≡ cond result (n ∷ []) [] }
    {
        self.unset_at(n, 0).is_some()
    }
}

/// Whether the kind is an import.
fn is_import(kind: &NodeKind) -> bool
    ensures { result ≡ is_import (kind_of kind.now) }
{
    match kind {
        NodeKind::Import(_) => true,
        NodeKind::Definition | NodeKind::Instantiation(_) | NodeKind::Alias => false,
    }
}

/// Whether the kind is a definition.
fn is_definition(kind: &NodeKind) -> bool
    ensures { result ≡ is_definition (kind_of kind.now) }
{
    match kind {
        NodeKind::Definition => true,
        NodeKind::Import(_) | NodeKind::Instantiation(_) | NodeKind::Alias => false,
    }
}
