//! What must hold before classes are merged: their entries agree, and no class depends on itself.
//!
//! The modules put the entries into the table of types, and find the first disagreement with the exports that lead to
//! it. They find the classes that each class depends on, and the order of the classes.

pub mod apart;
pub mod compared;
pub mod flags;
pub mod marks;
pub mod order;
pub mod reach;
pub mod rests;
pub mod worlds;
