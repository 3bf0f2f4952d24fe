//! Writing a graph after its imports: nodes in order, exports, names of nodes and the processor.

mod laws;
mod writer;

pub use wac_graph_reader::{GraphReader, package_in_slots};
pub use writer::write;
