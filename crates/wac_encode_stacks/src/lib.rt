//! The specification of the open scopes of a type encoder, without code that runs.
//!
//! A stack of open scopes is good if what is written in it agrees with what is recorded of a collection's types. Each
//! law says what one step of the encoder adds, and that the stack stays good. A proof about a step calls the law's
//! function; the call does nothing when it runs (docs/PROOFS.md, 'Laws').
#![tactic(auto)]

pub mod laws;

pub use laws::{
    alias_law, beside_law, bringing_law, closing_law, described_law, index_law, inside_law,
    instance_law, listing_law, module_law, part_law, root_law, size_law, step_law, still_law,
    value_law,
};
