//! Interning tables: equal types are one node.
//!
//! - [`tables`]: the table of types, and the tasks by which the parts of a type are traversed.
//! - [`made`]: the types that were added to a merged collection, each found again by its shape.
#![tactic(auto)]

pub mod made;
pub mod tables;
