//! The workloads, and their steps.

use crate::deep::{Levels, defining, handles, import_levels, places, resources, shared};
use crate::graph::Graph;
use crate::nodes::{aliases, chain, churn, fan, plug, wide};
use crate::{comparing, reading};
use anyhow::{Result, bail};
use std::alloc::Global;

/// The words of the workloads, with a small count for each.
pub const WORKLOADS: &[(&str, u64)] = &[
    ("chain fan aliases plug churn wide", 10),
    ("handles resources referred", 10),
    ("shared", 40),
    ("defining", 50),
    ("deep doubled listed nested sides owned turns places", 4),
    ("comparing-tuples comparing-sharing", 60),
    ("reading-types", 10),
    ("reading-modules", 1),
];

/// A step. A workload does all up to one.
#[derive(Clone, Copy, PartialEq, Eq)]
pub enum Step {
    /// Makes what is not counted.
    Prepare,
    /// Makes what is measured.
    Make,
    /// Removes a part and makes it again.
    Turn,
    /// Encodes, compares or reads it.
    Measure,
}

impl Step {
    /// The step of a word.
    pub fn of_word(word: &str) -> Option<Step> {
        match word {
            "prepared" => Some(Step::Prepare),
            "made" | "added" => Some(Step::Make),
            "turned" => Some(Step::Turn),
            "encoded" | "compared" | "read" => Some(Step::Measure),
            _ => None,
        }
    }
}

/// Makes the graph of a workload, up to a step. One whose parts are not counted is given them first.
fn make(graph: &mut Graph, word: &str, count: u64, last: Step) -> Result<()> {
    match word {
        "aliases" => aliases(graph, count, last),
        "plug" => plug(graph, count, last),
        "churn" => churn(graph, count, last),
        _ if last == Step::Prepare => Ok(()),
        "chain" => chain(graph, count),
        "fan" => fan(graph, count),
        "wide" => wide(graph, count),
        "shared" => shared(graph, count),
        "defining" => defining(graph, count),
        "handles" => handles(graph, count),
        "resources" | "referred" => resources(graph, count),
        "deep" => import_levels(graph, Levels::Deep, count),
        "doubled" => import_levels(graph, Levels::Doubled, count),
        "listed" => import_levels(graph, Levels::Listed, count),
        "nested" => import_levels(graph, Levels::Nested, count),
        "sides" => import_levels(graph, Levels::Sides, count),
        "owned" => import_levels(graph, Levels::Owned, count),
        "turns" => import_levels(graph, Levels::Turns, count),
        "places" => places(graph, count),
        _ => bail!("there is no such workload"),
    }
}

/// Does the steps of a workload up to one. Returns the number of bytes or of subtypes if all are done, else zero.
pub fn take(alloc: Global, word: &str, count: u64, last: Step) -> Result<usize> {
    if let "comparing-tuples" | "comparing-sharing" = word {
        return comparing::take(alloc, word == "comparing-tuples", count, last);
    }
    if let "reading-types" | "reading-modules" = word {
        return reading::take(alloc, word == "reading-modules", count, last);
    }
    let mut graph = Graph::new(alloc);
    make(&mut graph, word, count, last)?;
    if last == Step::Measure {
        // The package is imported by the word `referred`, else it is defined.
        graph.encode(word != "referred")
    } else {
        Ok(0)
    }
}
