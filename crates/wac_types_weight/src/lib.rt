//! The weight of types, which bounds how much is written of them.
//!
//! The crate has definitions and their laws, and no code that runs (docs/PROOFS.md, 'Laws').
#![tactic(auto)]

pub mod laws;

pub use laws::weight_law;
