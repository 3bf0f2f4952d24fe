//! Reading a graph for encoding: look-ups in its borrowed fields, and the order of its nodes.
//!
//! It also writes the parts that need no type encoder: aliases, exports, names and the processor.

mod components;
mod dependency;
mod encoder;
mod exports;
mod lookups;
mod naming;
mod order;
mod packages;
mod parts;
mod reader;
mod sources;

pub use components::Components;
pub use dependency::dependency_name;
pub use encoder::{Encoder, sort_of};
pub use lookups::package_in_slots;
pub use order::Ordered;
pub use parts::write_processor;
pub use reader::GraphReader;
