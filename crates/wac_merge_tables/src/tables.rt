//! An interning table of types, and what filling it needs.
//!
//! The types of all entries are put into one table, so that types are equal if and only if their numbers are equal. The
//! other modules have maps from positions to numbers, and the tasks that number the parts of a type before the type.

pub mod nodes;
pub mod rounds;
pub mod tasks;
