//! The writer of components, with a call for each item of the binary format, and the contents of custom sections.

mod builder;
mod customs;

pub use builder::ComponentBuilder;
pub use customs::{component_names, producers};
