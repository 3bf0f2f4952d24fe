//! The type of a core module, as it is written.
#![tactic(auto)]

mod limits;
mod writer;

pub use writer::module_type;
