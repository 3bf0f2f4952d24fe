//! What the crates of this workspace use of nodes and package ids. `wac_graph` does not re-export it.

pub use crate::nodes::marks::{reserve_mark, satisfy, unsatisfy};
pub use crate::nodes::node::{
    clear_export_name, first_name, new_definition, new_node, set_export_name, set_name,
};
pub use crate::nodes::packages::{generation_of, new_package_id, slot_of};
