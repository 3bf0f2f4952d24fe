//! The order in which the items of instance types and component types are written.
#![tactic(auto)]

mod graph;
mod interface;
mod parts;
mod search;
mod side;
mod type_items;

pub use interface::interface_order;
pub use side::side_order;
