//! Laws of graphs, of what encodes them and of sequences of calls. Proof only (docs/PROOFS.md, 'Laws').

pub use wac_graph_fields::laws::{removal_law, unregistered_law};
pub use wac_graph_model::meaning::laws::once_law;
pub use wac_graph_model::nodes::laws::{again_law, stays_law};
pub use wac_graph_model::one_export_answer;
