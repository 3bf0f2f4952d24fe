//! The first two entries of a class that disagree, found in the interning table of their types.

pub mod agreement;
pub mod fitting;
pub mod rows;
