//! Entries and their classes, the first step of merging the imports of a graph.
//!
//! An entry is one import that the graph needs: an import node, or an unsatisfied import of an instantiation. Entries
//! of one name, and instances whose names have one track, form a class and become one import. The modules find the
//! class of each entry, the resources that each class binds, and how a resource is named when entries are compared.

pub mod bindings;
pub mod bound;
pub mod classes;
pub mod entry;
pub mod naming;
pub mod outward;
pub mod scopes;
