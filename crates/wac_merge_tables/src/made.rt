//! A memo of the types that were added to a merged collection.
//!
//! Merging rewrites types over new resources. A type that is rewritten again gets the same id: a definition if it is
//! for the same named type, a function type if it is from the same original.

pub mod made;
pub mod shapes;
