//! Types of entries put into the interning table, and the trees of merged interfaces.
//!
//! - [`coding`]: puts the types of entries into the table.
//! - [`trees`]: lemmas on the trees of unions.
#![tactic(auto)]

pub mod coding;
pub mod trees;
