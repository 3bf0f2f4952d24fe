//! Entries, which are the imports to be merged, and the classes in which they are merged.
//!
//! - [`entries`]: entries, their classes, which resources a class binds, and how a resource is named.
//! - [`terms`]: what a merge is described with: unions, new resources, the order of classes, and why there is no merge.
#![tactic(auto)]

pub mod entries;
pub mod terms;
