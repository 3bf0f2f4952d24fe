//! The set of edges beside a plain list, and the lowest number on a cycle of steps.
ghost use Rattle.std.specs.Prelude.{OnOk};
ghost use Rattle.wac_edges.specs.cycles.Cycles.{AreWithin};

use std::alloc::{AllocError, Global};
use std::collections::BTreeSet;
use std::process::Abort;
use wac_edges::cycles::cycles::{add_step, empty_sets, lowest_on_cycle};
use wac_edges::edges::{Edge, Edges, End, Label};
use wac_edges::node::NodeId;

/// An edge between four nodes.
fn edge_of(number: usize) -> Edge {
    let label = match number % 3 {
        0 => Label::Alias(number / 3 % 2),
        1 => Label::Argument(number / 3 % 2),
        _ => Label::Dependency,
    };
    Edge {
        source: NodeId(number / 8 % 4),
        target: NodeId(number / 32 % 4),
        label,
    }
}

/// A walk gives edges of the list, as many as the list has at this end of the node, and reads one record for each.
fn compare(rt: &impl Abort, edges: &Edges, list: &[Edge], node: NodeId, end: End) {
    for edge in edges.walk(node, end) {
        assert!(rt; list.contains(&edge));
        assert!(rt; edge.node(end) == node);
    }
    let mut walk = edges.walk(node, end);
    for _ in list {
        let _ = walk.next();
    }
    let count = list.iter().filter(|edge| edge.node(end) == node).count();
    assert!(rt; walk.steps() == count);
    assert!(rt; walk.next().is_none());
}

/// Removes an edge, or adds it, in the list too where memory was not refused.
fn put(rt: &impl Abort, edges: &mut Edges, list: &mut Vec<Edge>, edge: Edge, removes: bool) {
    if removes {
        edges.remove(edge);
        list.retain(|e| *e != edge);
    } else if edges.add(edge).is_ok() && !list.contains(&edge) {
        list.push(edge).expect(rt, "room for an edge");
    }
    assert!(rt; edges.contains(edge) == list.contains(&edge));
}

/// Adds or removes an edge, and compares the edges at each end of the nodes.
fn change(rt: &impl Abort, edges: &mut Edges, list: &mut Vec<Edge>, number: usize) {
    put(rt, edges, list, edge_of(number), number / 128 % 5 > 2);
    for node in 0..5 {
        compare(rt, edges, list, NodeId(node), End::Outgoing);
        compare(rt, edges, list, NodeId(node), End::Incoming);
    }
}

#[test]
fn adds_and_removes(rt: HostRuntime) {
    let mut edges = Edges::new(rt.alloc());
    let mut list = Vec::with_capacity(rt.alloc(), 128).expect(&rt, "room for edges");
    let mut number: usize = 1;
    for _ in 0..300 {
        number = number
            .wrapping_mul(6364136223846793005)
            .wrapping_add(1442695040888963407);
        change(&rt, &mut edges, &mut list, number / 8589934592);
    }
    assert!(rt; !list.is_empty());
}

/// Positions of exports in the order in which they are aliased: in order, in reverse, and far apart.
const POSITIONS: &[&[usize]] = &[
    &[
        0, 1, 2, 3, 4, 5, 6, 7, 8, 9, 10, 11, 12, 13, 14, 15, 16, 17, 18, 19,
    ],
    &[
        19, 18, 17, 16, 15, 14, 13, 12, 11, 10, 9, 8, 7, 6, 5, 4, 3, 2, 1, 0,
    ],
    &[
        7,
        8,
        16,
        25,
        1_000_000,
        33,
        17,
        usize::MAX,
        42,
        9,
        41,
        0,
        34,
    ],
];

/// The first or the second alias of the first node's export at this position.
fn alias_of(position: usize, second: bool) -> Edge {
    let target = position % 64 + if second { 2 } else { 1 };
    Edge {
        source: NodeId(0),
        target: NodeId(target),
        label: Label::Alias(position),
    }
}

/// In turn, of each export: whether the second alias is meant, and whether it is removed.
const TURNS: &[(bool, bool)] = &[
    (false, false),
    (true, false),
    (false, true),
    (false, false),
    (true, true),
    (false, true),
];

/// The alias at each position is one of the list, and there is none where the list has none.
fn compare_aliases(rt: &impl Abort, edges: &Edges, list: &[Edge], positions: &[usize]) {
    for position in positions {
        let label = Label::Alias(*position);
        let source = NodeId(0);
        match edges.alias(source, *position) {
            Some(target) => {
                let edge = Edge {
                    source,
                    target,
                    label,
                };
                assert!(rt; list.contains(&edge));
            }
            None => assert!(rt; list.iter().all(|edge| edge.label != label)),
        }
    }
}

#[test]
fn finds_aliases_in_any_order_of_positions(rt: HostRuntime) {
    for positions in POSITIONS {
        let mut edges = Edges::new(rt.alloc());
        let mut list = Vec::with_capacity(rt.alloc(), 128).expect(&rt, "room for edges");
        let _ = edges.reserve(positions.len());
        for (second, removes) in TURNS {
            for position in *positions {
                let edge = alias_of(*position, *second);
                put(&rt, &mut edges, &mut list, edge, *removes);
                compare_aliases(&rt, &edges, &list, positions);
            }
        }
        assert!(rt; list.is_empty());
    }
}

/// Adds a step between numbers that have sets.
fn add(targets: &mut [BTreeSet<usize>], from: usize, to: usize) -> Result<(), AllocError>
    requires { AreWithin targets.old }
    ensures { OnOk result (AreWithin targets.new) }
{
    if from < targets.len() && to < targets.len() {
        return add_step(targets, from, to);
    }
    Ok(())
}

/// The lowest number on a cycle of these steps between so many numbers.
fn lowest(
    alloc: Global,
    count: usize,
    steps: &[(usize, usize)],
) -> Result<Option<usize>, AllocError> {
    let mut targets = empty_sets(alloc, count)?;
    for step in steps {
        add(&mut targets, step.0, step.1)?;
    }
    lowest_on_cycle(alloc, targets.as_slice())
}

/// The lowest number on a cycle of these steps between so many numbers is this one.
fn assert_lowest(
    rt: &impl Abort,
    alloc: Global,
    count: usize,
    steps: &[(usize, usize)],
    want: Option<usize>,
) {
    let found = lowest(alloc, count, steps).expect(rt, "the lowest number");
    assert!(rt; found == want, "{want:?}");
}

/// How many numbers there are, the steps between them, and the lowest on a cycle.
const LOWEST: &[(usize, &[(usize, usize)], Option<usize>)] = &[
    (3, &[], None),
    (3, &[(0, 1), (0, 2), (1, 2)], None),
    (3, &[(2, 2), (1, 0)], Some(2)),
    // 0 is fed by a cycle of 1 and 2, or leads to it, or both.
    (3, &[(1, 2), (2, 1), (1, 0)], Some(1)),
    (3, &[(1, 2), (2, 1), (0, 2)], Some(1)),
    (3, &[(1, 2), (2, 1), (0, 1), (2, 0)], Some(0)),
    // 0 stands between two cycles.
    (
        5,
        &[(3, 4), (4, 3), (3, 0), (0, 1), (1, 2), (2, 1)],
        Some(1),
    ),
    // Two cycles share 3.
    (
        5,
        &[(4, 3), (3, 4), (3, 1), (1, 3), (2, 1), (1, 0)],
        Some(1),
    ),
];

#[test]
fn finds_the_lowest_on_cycles(rt: HostRuntime) {
    for (count, steps, want) in LOWEST {
        assert_lowest(&rt, rt.alloc(), *count, steps, *want);
    }
}

/// A step from each of 100,000 numbers to the next; from the last back to a number, if one is given.
fn chain(alloc: Global, back: Option<usize>) -> Result<Vec<(usize, usize)>, AllocError> {
    let mut steps = Vec::new(alloc);
    for n in 0..99_999 {
        steps.push((n, n + 1))?;
    }
    if let Some(to) = back {
        steps.push((99_999, to))?;
    }
    Ok(steps)
}

/// Adds steps, so that the lower half lead up and the upper half are cycles of four, each of which leads to the next.
fn add_cycles_above(steps: &mut Vec<(usize, usize)>) -> Result<(), AllocError> {
    for n in 0..50_000 {
        steps.push((n, n * 2 + 1))?;
    }
    for n in 12_500..25_000 {
        steps.push((n * 4 + 3, n * 4))?;
    }
    Ok(())
}

/// The last of 100,000 numbers leads back to this one, and this is the lowest on a cycle.
fn assert_back(rt: &(impl Abort + AllocGlobal), back: Option<usize>, want: Option<usize>) {
    let steps = chain(rt.alloc(), back).expect(rt, "steps");
    assert_lowest(rt, rt.alloc(), 100_000, steps.as_slice(), want);
}

#[test]
fn takes_no_walk_from_each_number(rt: HostRuntime) {
    assert_back(&rt, None, None);
    assert_back(&rt, Some(0), Some(0));
}

#[test]
fn takes_no_walk_where_all_lead_to_a_cycle(rt: HostRuntime) {
    // All others lead to a cycle of the last two.
    assert_back(&rt, Some(99_998), Some(99_998));
    let mut above = chain(rt.alloc(), None).expect(&rt, "steps");
    add_cycles_above(&mut above).expect(&rt, "steps");
    assert_lowest(&rt, rt.alloc(), 100_000, above.as_slice(), Some(50_000));
}
