//! Interfaces united name by name.
//!
//! Each class of instances gives a union of its entries' interfaces. It exports each name that one of them exports. If
//! several of them export an instance under one name, the interfaces of these instances are united in turn.

mod grouped;
pub mod unions;
