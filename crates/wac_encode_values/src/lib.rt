//! Value types and function types of a collection, written into open scopes.
//!
//! [`ValueEncoder`] writes each definition and handle once in a scope. A value type that has a name in the scope, or in an
//! enclosing one, is written by that name.
#![tactic(auto)]

mod definitions;
pub mod encoder;
mod functions;
mod rows;
mod task;

pub use encoder::ValueEncoder;
