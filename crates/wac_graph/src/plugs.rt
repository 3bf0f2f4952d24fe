//! Plugging components into a socket component: which exports match which imports, which matches win, and the errors.
//!
//! The definitions in `specs/` say what `plug` adds to a graph, as steps of the graph.

mod errors;
mod matching;
mod precedence;

pub use errors::{PlugError, PlugFault};
pub use matching::{Pair, find_matches};
pub use precedence::{Division, PassedOver, PlugPairs, divide, keep, pass_over};
