//! From a graph to the items of a component.
//!
//! - [`places`]: the index of each import.
//! - [`encoding`]: writes the nodes, the exports and the names of nodes.
#![tactic(auto)]

pub mod encoding;
pub mod places;

pub use encoding::{GraphReader, package_in_slots, write};
pub use places::{ImportPlaces, import_indexes, import_names};
