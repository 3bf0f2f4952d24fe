//! The statement: what a composition graph is, what its calls do, and what component items mean it.
//!
//! - [`nodes`]: nodes, packages and the errors of calls; the graph as a value, its steps and its invariant.
//! - [`meaning`]: when component items mean a graph.
//! - [`causes`]: why a graph is not encoded.
//! - [`weight`]: what a graph weighs, which bounds how much is written of it.
#![tactic(auto)]

pub mod causes;
pub mod meaning;
pub mod nodes;
pub mod weight;

pub use causes::EncodeError;
pub use nodes::{
    AliasError, BorrowedPackageKey, DefineTypeError, EncodeOptions, ExportError, ImportError,
    InstantiationArgumentError, Node, NodeId, NodeKind, PackageId, Processor, RegisterPackageError,
    Slot, UnexportError, export_fault, first_gap, import_fault, inner, one_export_answer,
};
