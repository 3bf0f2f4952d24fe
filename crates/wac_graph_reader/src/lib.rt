//! What encoding reads of a graph.
//!
//! - [`writing`]: lemmas on the fields of a graph.
//! - [`reading`]: the fields, borrowed, with the look-ups and orders that encoding needs.
#![tactic(auto)]

pub mod reading;
pub mod writing;

pub use reading::{
    Components, Encoder, GraphReader, Ordered, dependency_name, package_in_slots, sort_of,
    write_processor,
};
