//! Reads the parts of a component from its bytes.
//!
//! The contract of [`parts`] cites `wac_component`, which says which parts bytes are the text of. The law
//! [`written_is_read`] ties it to what `wac_binary` writes.
#![tactic(auto)]

mod bytes;
mod canons;
mod component;
mod core_types;
mod cores;
mod declarations;
mod entities;
mod fault;
mod laws;
mod resources;
mod sections;
mod sorts;
mod types;

pub use component::parts;
pub use laws::written_is_read;
