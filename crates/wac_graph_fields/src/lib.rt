//! The fields of a composition graph: their value, their invariant, and proofs that each change of them is a step.
//!
//! It also lists the graph's imports, finds the dependencies of a definition, and removes nodes and packages.
#![tactic(auto)]

mod asked;
mod defined;
mod dependencies;
pub mod laws;
mod lost;
mod owned;
mod slots;
mod taking;

pub use asked::{AskedEntry, Asking};
pub use defined::is_defined;
pub use dependencies::add_dependencies;
pub use lost::{Lost, take_lost};
pub use owned::{take_owned, take_owned_exports};
pub use slots::{next_id, put_package, take_package};
pub use taking::take_nodes;
