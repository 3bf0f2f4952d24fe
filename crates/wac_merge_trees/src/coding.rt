//! The types of entries, put into one interning table: two types are equal if and only if their numbers are.
//!
//! Types are numbered scope by scope, the innermost scopes first and without recursion. The numbers of a scope's types
//! are recorded, so each type is numbered once in a scope. A call that fails may leave more nodes in the table.

pub mod calls;
pub mod coder;
pub mod items;
pub mod listing;
pub mod listings;
pub mod memo;
pub mod modules;
mod order;
