//! Labelled edges between numbered nodes: look-ups, the lowest node on a cycle, and two orders in which each node comes
//! after those that it depends on: over edges ([`order`]), and over sets of numbers ([`arranged`]).
#![tactic(auto)]

mod aliases;
pub mod arranged;
pub mod cycles;
pub mod edges;
pub mod node;
pub mod order;
mod records;
pub mod walk;
