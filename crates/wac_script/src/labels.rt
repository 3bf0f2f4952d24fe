//! The labels of a script, and the types that words say over them.

mod cores;
mod faults;
mod funcs;
mod items;
mod shapes;
mod things;
mod values;

pub(crate) use faults::refused;
pub use faults::{WordError, WordFault};
pub(crate) use things::{Labelled, Thing, Things};
