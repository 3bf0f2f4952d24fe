//! Interfaces united name by name, and what merged imports use of each other.
//!
//! - [`uniting`]: the union of the interfaces of a class.
//! - [`uses`]: the uses of merged imports.
#![tactic(auto)]

pub mod uniting;
pub mod uses;

pub use uses::Asked;
