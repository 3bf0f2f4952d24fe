//! Nodes, package slots and the errors of calls on a graph, and the statement of what a graph is.
//!
//! The definitions in `specs/` say what a graph contains (`Graph`) and what each call changes in it (`Steps`).
//! They also say what always holds of a graph (`Sound`) and which imports it has (`Asked`, `Entries`).

mod errors;
pub mod inner;
pub mod laws;
mod marks;
mod names;
mod node;
mod options;
mod packages;
mod positions;

pub use errors::{
    AliasError, DefineTypeError, ExportError, ImportError, InstantiationArgumentError,
    RegisterPackageError, UnexportError,
};
pub use names::{export_fault, import_fault, one_export_answer};
pub use node::{Node, NodeKind};
pub use options::{EncodeOptions, Processor};
pub use packages::{BorrowedPackageKey, PackageId, Slot};
pub use positions::first_gap;
pub use wac_edges::node::NodeId;
