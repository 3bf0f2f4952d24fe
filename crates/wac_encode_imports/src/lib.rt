//! The imports of a merge, written at the root of a component.
//!
//! [`write_imports`] writes the merged imports in their order, each after the types that it needs, into the root of a
//! [`State`](wac_encode_scopes::State). [`tell_graph`] then records what they are for the types of the graph's own
//! collection.
#![tactic(auto)]

mod classes;
mod import;
mod imports;
pub mod laws;
mod modules;
mod told;

pub use imports::{WrittenImports, write_imports};
pub use told::tell_graph;
