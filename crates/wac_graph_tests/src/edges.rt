// The aliases and the arguments of a graph beside a plain list, after each of many calls.
use crate::parts;
use std::process::Abort;
use wac_graph::{CompositionGraph, NodeId, PackageId};

// The names of what the package imports and of what it exports, all functions of one type.
const NAMES: &[&str] = &["a", "b", "c"];

// The most nodes that there are at once.
const MOST: usize = 12;

// The target is the alias of an export of the source, or the source is the argument of an import of the target.
#[derive(Clone, Copy, PartialEq, Eq)]
struct Edge {
    source: NodeId,
    target: NodeId,
    // The place of the name of the export or import.
    place: usize,
    is_alias: bool,
}

// A graph, with its nodes and edges in lists.
struct Listed {
    graph: CompositionGraph,
    package: PackageId,
    nodes: Vec<NodeId>,
    edges: Vec<Edge>,
}

impl Drop for Listed {
    fn drop(self) {
        let Listed {
            graph: _,
            package: _,
            nodes: _,
            edges: _,
        } = self;
    }
}

fn name(rt: &impl Abort, place: usize) -> &'static str {
    *NAMES.get(place).expect(rt, "a name")
}

impl Listed {
    // A graph with a package alone.
    fn new(rt: &(impl Abort + AllocGlobal)) -> Listed {
        let mut graph = CompositionGraph::new(rt.alloc());
        let item = parts::function(rt, &mut graph, &[], None);
        let items = [("a", item), ("b", item), ("c", item)];
        let package = parts::register(rt, &mut graph, ("n:p", None), &items, &items);
        Listed {
            graph,
            package: package.expect(rt, "a package"),
            nodes: Vec::with_capacity(rt.alloc(), MOST).expect(rt, "room for nodes"),
            edges: Vec::with_capacity(rt.alloc(), 128).expect(rt, "room for edges"),
        }
    }

    fn instantiate(&mut self, rt: &impl Abort) {
        if self.nodes.len() >= MOST {
            return;
        }
        if let Ok(node) = parts::instantiate(rt, &mut self.graph, self.package) {
            self.nodes.push(node).expect(rt, "room for a node");
        }
    }

    // Aliases an export. It is the alias that the list has, if it has one.
    fn alias(&mut self, rt: &impl Abort, source: NodeId, place: usize) {
        let held = self.graph.has_node(source);
        assert!(rt; held);
        let Ok(target) = self.graph.alias_instance_export(source, name(rt, place)) else {
            return;
        };
        let edge = Edge {
            source,
            target,
            place,
            is_alias: true,
        };
        if !self.edges.contains(&edge) {
            self.edges.push(edge).expect(rt, "room for an edge");
            self.nodes.push(target).expect(rt, "room for a node");
        }
    }

    fn set(&mut self, rt: &impl Abort, target: NodeId, place: usize, source: NodeId) {
        let answer = parts::set(rt, &mut self.graph, target, name(rt, place), source);
        let edge = Edge {
            source,
            target,
            place,
            is_alias: false,
        };
        if answer.is_ok() && !self.edges.contains(&edge) {
            self.edges.push(edge).expect(rt, "room for an edge");
        }
    }

    fn unset(&mut self, rt: &impl Abort, target: NodeId, place: usize, source: NodeId) {
        let held = self.graph.has_node(target);
        assert!(rt; held);
        let name = name(rt, place);
        let answer = self
            .graph
            .unset_instantiation_argument(target, name, source);
        let edge = Edge {
            source,
            target,
            place,
            is_alias: false,
        };
        assert!(rt; answer.is_ok() || !self.edges.contains(&edge));
        self.edges.retain(|e| *e != edge);
    }

    // Removes a node, with its aliases and their edges.
    fn remove(&mut self, rt: &impl Abort, node: NodeId) {
        parts::remove(rt, &mut self.graph, node);
        let mut gone = Vec::new(self.graph.types().allocator());
        gone.push(node).expect(rt, "room for a node");
        for edge in &self.edges {
            if edge.is_alias && edge.source == node {
                gone.push(edge.target).expect(rt, "room for a node");
            }
        }
        self.nodes.retain(|n| !gone.contains(n));
        self.edges
            .retain(|e| !gone.contains(&e.source) && !gone.contains(&e.target));
    }

    // Makes the call of a number.
    fn change(&mut self, rt: &impl Abort, number: usize) {
        let node = self.nodes.get(number / 8 % MOST).copied();
        let other = self.nodes.get(number / 128 % MOST).copied();
        let edge = self.edges.get(number / 128 % 16).copied();
        let place = number / 2048 % 3;
        match (number % 8, node, other, edge) {
            (2 | 3, Some(node), _, _) => self.alias(rt, node, place),
            (4, Some(node), Some(other), _) => self.set(rt, node, place, other),
            (5, Some(node), Some(other), _) => self.set(rt, other, place, node),
            (6, _, _, Some(edge)) => self.unset(rt, edge.target, edge.place, edge.source),
            (7, Some(node), _, _) => self.remove(rt, node),
            _ => self.instantiate(rt),
        }
    }

    // The graph and the list agree on the source of an alias.
    fn compare_source(&self, rt: &impl Abort, id: NodeId) {
        let mut wanted = None;
        for edge in &self.edges {
            if edge.is_alias && edge.target == id {
                wanted = Some((edge.source, name(rt, edge.place)));
            }
        }
        assert!(rt; self.graph.get_alias_source(id) == wanted);
    }

    // The graph and the list agree on the arguments of a node, in order of the imports.
    fn compare_arguments(&self, rt: &impl Abort, id: NodeId) {
        let mut arguments = self.graph.get_instantiation_arguments(id);
        for place in 0..NAMES.len() {
            for edge in &self.edges {
                if !edge.is_alias && edge.target == id && edge.place == place {
                    let wanted = Some((name(rt, place), edge.source));
                    assert!(rt; arguments.next() == wanted);
                }
            }
        }
        assert!(rt; arguments.next().is_none());
    }
}

// Removed nodes and edges make room for those that come after them.
#[test]
fn edges_are_those_of_a_plain_list(rt: HostRuntime) {
    let mut listed = Listed::new(&rt);
    let mut number: usize = 1;
    for _ in 0..400 {
        number = number
            .wrapping_mul(6364136223846793005)
            .wrapping_add(1442695040888963407);
        listed.change(&rt, number / 8589934592);
        for id in 0..2 * MOST {
            listed.compare_source(&rt, NodeId(id));
            listed.compare_arguments(&rt, NodeId(id));
        }
    }
    assert!(rt; !listed.edges.is_empty());
}
