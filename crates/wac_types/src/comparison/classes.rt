//! Classes of types that are asked to be equal, as a union-find structure.
//!
//! Each node of a class links to a node above it, up to the top, which links to itself.
ghost use Rattle.std.specs.Prelude.{◌≡◌, ◌<◌, ◌≤◌, ◌+◌, [], length, OnOk};
ghost use Rattle.indexmap.specs.IndexMap.{spare, set_value_at};
ghost use Rattle.wac_types.specs.private.comparison.Classes.{AddsNode, HasLink, LeadsTo, PutsBelow, Joins};

use indexmap::IndexMap;
use std::alloc::{AllocError, Global};
use std::hash::BuildHasherDefault;
use wac_types_collection::{Type, TypeHasher};

/// A type of one of two collections.
#[derive(Clone, Copy, PartialEq, Eq, Hash)]
pub struct Node {
    /// Whether it is of the second collection.
    pub turned: bool,
    /// The type.
    pub ty: Type,
}

/// The link of a node to the node above it in its class.
#[derive(Clone, Copy)]
pub struct Link {
    /// The index of the node above, or the node's own index if it is the top.
    pub above: usize,
    /// The number of nodes in the class when this node was last the top.
    pub size: usize,
}

/// The classes of types that are asked to be equal.
#[derive(Drop)]
pub struct Classes {
    /// The link of each node.
    pub links: IndexMap<Node, Link, BuildHasherDefault<TypeHasher>>,
}

impl Classes {
    /// Returns no classes.
    pub(crate) fn new(alloc: Global) -> Classes
        ensures { result.links.entries ≡ [] }
    {
        Classes {
            links: IndexMap::with_hasher(alloc, BuildHasherDefault::new()),
        }
    }

    /// Makes room for two more nodes.
    pub(crate) fn reserve(&mut self) -> Result<(), AllocError>
        ensures same { self.new.links.entries ≡ self.old.links.entries }
        ensures room { OnOk result (2 ≤ spare self.new.links) }
    {
        self.links.reserve(2)
    }

    // Returns the index of a node. A new node gets a class of its own.
    fn position(&mut self, node: Node) -> usize
        requires { 1 ≤ spare self.old.links }
        ensures adds { AddsNode self.old.links.entries self.new.links.entries node result }
        ensures room { spare self.old.links ≤ spare self.new.links + 1 }
    {
        let next = self.links.len();
        match self.links.get_full(&node) {
            Some((position, _, _)) => position,
            None => {
                let link = Link {
                    above: next,
                    size: 1,
                };
                self.links.insert(node, link).unwrap();
                next
            }
        }
    }

    // The link of a node.
    fn link(&self, position: usize) -> Link
        requires { position < length self.now.links.entries }
        ensures { HasLink self.now.links.entries position result }
    {
        *self.links.get_index(position).unwrap().1
    }

    // Returns the index of the top of a node's class. Sizes grow towards the top, so the loop ends there.
    fn top(&self, position: usize) -> usize
        requires { position < length self.now.links.entries }
        ensures within { result < length self.now.links.entries }
        ensures leads { LeadsTo self.now.links.entries position result }
    {
        let mut top = position;
        let mut link = self.link(position);
        while let Some((_, above)) = self.links.get_index(link.above) {
            if above.size <= link.size {
                break;
            }
            top = link.above;
            link = *above;
        }
        top
    }

    // Changes the link of a node.
    fn set(&mut self, position: usize, link: Link)
        requires { position < length self.old.links.entries }
        ensures { self.new.links.entries ≡ set_value_at self.old.links.entries position link }
    {
        self.links[position] = link;
    }

    // Links the top of one class to the top of another.
    fn put_below(&mut self, low: usize, high: usize)
        requires low { low < length self.old.links.entries }
        requires high { high < length self.old.links.entries }
        ensures { PutsBelow self.old.links.entries self.new.links.entries low high }
    {
        let lower = self.link(low).size;
        let higher = self.link(high).size;
        self.set(
            low,
            Link {
                above: high,
                size: lower,
            },
        );
        self.set(
            high,
            Link {
                above: high,
                size: higher.saturating_add(lower),
            },
        );
    }

    /// Joins the classes of two nodes, for which there must be room. Returns whether they were different.
    pub(crate) fn join(&mut self, a: Node, b: Node) -> bool
        requires { 2 ≤ spare self.old.links }
        ensures { Joins self.old.links.entries self.new.links.entries a b result }
    {
        let first = self.position(a);
        let second = self.position(b);
        let first = self.top(first);
        let second = self.top(second);
        if first == second {
            return false;
        }
        if self.link(first).size < self.link(second).size {
            self.put_below(first, second);
        } else {
            self.put_below(second, first);
        }
        true
    }
}
