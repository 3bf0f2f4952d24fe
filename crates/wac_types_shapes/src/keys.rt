//! Keys of packages: a name, with or without a version.
//!
//! A graph finds its packages by [`PackageKey`]. Keys are ordered and hashed by the name and all parts of the version.

mod key;

pub use key::PackageKey;
