//! Interfaces, component types and their items, written into open scopes.
#![tactic(auto)]

mod ahead;
mod component_type;
mod definition;
mod import;
mod inside;
mod instance;
mod interface;
mod item;
pub mod laws;
mod level;
mod ordered_sides;
mod roots;
mod sides;
mod worlds;
mod writer;

pub use ahead::{side_world_types, world_types};
pub use roots::definition_roots;
pub use sides::Sides;
pub use worlds::WorldTypes;
pub use writer::TypeWriter;
