//! How a resource is known when types of imports are compared: by its binding.

use crate::collection::ResourceId;

/// The side of a component type on which a resource is bound. An instance type has exports only.
#[derive(Clone, Copy, PartialEq, Eq, Hash)]
pub enum Side {
    /// Bound by an import.
    Imported,
    /// Bound by an export.
    Exported,
}

/// How a resource is known: by its binding, together with its own name.
#[derive(PartialEq, Eq, Hash, Drop)]
pub enum Called {
    /// Bound inside the compared type: the number of scopes out, the side there, the path, and the resource's name.
    Bound(usize, Side, Vec<String>, String),
    /// Bound by the import of a class: the class, the path in it, and the resource's name.
    OfClass(usize, Vec<String>, String),
    /// Not bound: the resource itself, and its name.
    Itself(ResourceId, String),
}
