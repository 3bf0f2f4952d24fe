//! The data and definitions that the steps of merging share.
//!
//! The code has the unions of interfaces, the new resources of a merge and its errors. The definitions say what a merge
//! is: the item of each class, the order of the classes, what binds a type, and why there may be no merge.

pub mod fault;
pub mod fresh;
pub mod parts;
