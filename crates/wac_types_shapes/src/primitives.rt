//! Primitive types of components and of core modules.
//!
//! The definitions in `specs/` are the words of every contract about types: names, items of core modules, and trees.
//! A tree is a type unfolded, without ids. Types of the collection and types in a binary are compared by their trees.

mod component;
mod core_types;

pub use component::PrimitiveType;
pub use core_types::{CoreRefType, CoreType};
