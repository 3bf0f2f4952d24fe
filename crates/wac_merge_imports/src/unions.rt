//! The merge of entries that agree.
//!
//! The collection is copied. The interfaces of unions, the new resources and the rewritten types are added to the copy.
//! Each class is then imported once, with the item that its entries are merged into.

pub mod bound;
pub mod merged;
mod shared;
mod writing;
