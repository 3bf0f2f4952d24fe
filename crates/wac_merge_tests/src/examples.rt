//! Computed examples of what is said of merging, as proofs alone; no crate stands on this one.
//!
//! They show which scope is next on the way out of another, which imports share an interface and which function types share an id, and
//! what a call that is made again leaves; and of each what is none.
