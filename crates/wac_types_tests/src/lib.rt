//! Tests of names, of types, and of the binary format, through what the doors make public.
//!
//! They are one crate, since a library with tests of its own is proved twice. `examples` has computed examples of the
//! binary format, as proofs alone; `constants` proves which value types the constants are.
#![tactic(auto)]

#[cfg(test)]
mod binary;
pub mod constants;
mod examples;
#[cfg(test)]
mod names;
#[cfg(test)]
mod types;
