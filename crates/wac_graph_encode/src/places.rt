//! The places of a graph's imports in the component: the sort and index of each import, also by import node.

mod indexes;
mod places;

pub use indexes::import_indexes;
pub use places::{ImportPlaces, import_names};
