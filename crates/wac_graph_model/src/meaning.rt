//! When component items mean a graph: `Means` with the definitions it needs, and lemmas about the items of each node.

pub mod laws;
