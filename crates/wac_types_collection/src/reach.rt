//! The types that a type of a collection reaches: those that it mentions, those that they mention, and so on.

mod hasher;
mod mentions;
mod reached;

pub use hasher::{TypeHasher, TypeSet};
pub use reached::{Reached, reach};
