//! The merged imports.
//!
//! - [`unions`]: unions as interfaces, and the merge of entries that agree.
//! - [`fitting`]: lemmas: what a resource becomes is what the merged imports bind.
#![tactic(auto)]

pub mod fitting;
pub mod unions;
