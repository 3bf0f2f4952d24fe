//! The resources of a merge.
//!
//! - [`values`]: which class binds each value type, and which definitions are one named type.
//! - [`renaming`]: new resources, and types rewritten over them.
#![tactic(auto)]

pub mod renaming;
pub mod values;
