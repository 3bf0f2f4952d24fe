//! What cannot be written, and by which fault.
//!
//! - [`WriteFault`]: the faults, in their order. A type is looked at with all that is written inside it: its imports and
//!   exports, theirs, and so on. What it only uses is not written inside it.
//! - [`interface_additional`] and [`world_additional`]: the interfaces that a definition imports in addition, each after
//!   those that it uses itself. [`definition_exports`]: what the definition of an interface exports.
//! - [`item_dependencies`]: which imports and exports of a component type depend on each other, over all imports as
//!   [`join_imports`] makes them.
//! - [`item_owners`]: which of them binds each resource.
//! - [`lowest_fault`]: the lowest fault of an item that is imported or defined. [`BoundTypes`]: items without a fault,
//!   found together.
#![tactic(auto)]

mod additional;
mod bound;
mod bound_types;
mod component;
mod cycle;
mod definition_owners;
mod definitions;
mod fault;
mod faults;
mod free;
mod imports;
mod inside;
mod names;
mod nested;
mod order;
mod own;
mod owners;
mod parts;
mod readers;
mod resources;
mod root;
mod sides;
mod type_items;
mod unbound;
mod unlisted;
mod uses;
mod worlds;

pub use additional::{interface_additional, world_additional};
pub use bound_types::BoundTypes;
pub use cycle::item_dependencies;
pub use definitions::definition_exports;
pub use fault::{EncodeFault, WriteFault};
pub use faults::Role;
pub use imports::join_imports;
pub use owners::item_owners;
pub use root::lowest_fault;
