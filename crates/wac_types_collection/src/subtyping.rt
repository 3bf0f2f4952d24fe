//! The subtype relation, the binding of a resource as a value, and laws of both.
//!
//! A type is a subtype of another if its tree is, with resources given by their names. The functions of [`laws`] do
//! nothing: their contracts are laws that proofs cite.

pub mod called;
pub mod laws;
