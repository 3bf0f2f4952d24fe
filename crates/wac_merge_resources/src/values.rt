//! Value types of merged imports: which class binds each, and which definitions are one named type.
//!
//! A value type is identified by its definition, with aliases resolved. Primitive types and handles have no definition.
//! A class binds a value type that its entries export, or that they are. Definitions that a merged interface exports
//! under one name are one named type, and so are those that are entries of one class.

pub mod bindings;
mod listed;
pub mod named;
mod table;
