//! A component that is written by hand, and the types of a collection in it.
//!
//! A [`State`] is the component. Its caller appends items by [`State::builder`], and says which items of a collection
//! they are by [`State::bind`]. A [`TypeEncoder`] writes types of a collection into it, each after the types that it uses.
//! What an import or an instance of the component exports already is aliased and not written again.
//!
//! Types of two collections may be written into one component, by an encoder for each. Each has its own records.
#![tactic(auto)]

mod check;
mod encoder;
mod imports;
pub mod laws;
mod resources;
mod state;
mod telling;
mod types;

pub use encoder::TypeEncoder;
pub use state::{Found, ResourcePlace, State};
pub use wac_encode_faults::{EncodeFault, WriteFault};
