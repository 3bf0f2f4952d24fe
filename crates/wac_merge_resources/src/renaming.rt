//! The resources of the merged types, and types rewritten over them.
//!
//! The merged collection begins with the given one. It gets a new resource for each name under which a union has an own
//! resource, and for each class that is a resource. An own resource of an interface is one that it exports as neither
//! an alias nor a used type. A type is rewritten with what each of its resources becomes where the type is used.

pub mod adding;
pub mod became;
pub mod outward;
pub mod renamer;
