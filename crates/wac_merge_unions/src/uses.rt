//! The uses between merged imports.
//!
//! A use is a type that an interface takes from another one, as `use` in WIT does. A union of interfaces has no uses at
//! first. Each use of a united interface then becomes a use of the import to which the used interface was merged. It is
//! left out if that import does not come earlier, or if the type cannot be used from it under its name.

pub mod imports;
mod nested;
mod uses;

pub use uses::Asked;
