//! The open scopes of a type encoder.
//!
//! A [`State`] has the content of each scope, and records which types and resources have a type index there. One outer
//! alias makes a type of an enclosing scope available in the innermost one.
//!
//! Types of two collections may be written into the same scopes: those of the merged collection and of the graph's own.
//! Each collection has its own records. [`ClosedTypes`] says which definitions of a collection mention no resource.
#![tactic(auto)]

mod book;
pub mod closed;
pub mod components;
pub mod encodable;
pub mod instances;
pub mod interfaces;
pub mod laws;
pub mod parts;
pub mod root;
pub mod scope;
pub mod side;
pub mod state;

pub use book::How;
pub use closed::ClosedTypes;
pub use encodable::Encodable;
pub use instances::{add_resource, apart_items};
pub use laws::{paying_law, priced_law};
pub use parts::part_at;
pub use root::lending_law;
pub use scope::Scope;
pub use side::Side;
pub use state::State;
