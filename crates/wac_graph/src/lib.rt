//! Composition graphs of WebAssembly components.
//!
//! A [`CompositionGraph`] describes how components are put together: which packages are instantiated, which exports
//! become arguments of other instances, and what is imported and exported.
//! [`CompositionGraph::encode`] turns the graph into the bytes of one component, and [`plug`] fills the imports of a
//! socket component with the exports of other components.
//!
//! Here an instance of `my:package1` exports a function `a`, which becomes the argument `b` of an instance of
//! `my:package2`. `bytes1` and `bytes2` are the components of the two packages.
//!
//! ```rust
//! let mut graph = CompositionGraph::new(alloc);
//! let func = graph.func(&[], None)?;
//! let first = graph.add_package("my:package1", None, bytes1, &[], &[("a", func)])?;
//! let second = graph.add_package("my:package2", None, bytes2, &[("b", func)], &[])?;
//!
//! let a = graph.instantiate(first)?;
//! let a = graph.alias_instance_export(a, "a")?;
//! let b = graph.instantiate(second)?;
//! graph.set_instantiation_argument(b, "b", a)?;
//! let bytes = graph.encode(EncodeOptions::default())?;
//! ```
#![tactic(auto)]

mod arguments;
mod arguments_of;
mod asked;
mod bound;
mod building;
mod checking;
mod clones;
mod conflicts;
mod defining;
mod dependencies;
mod encode;
mod errors;
mod graph;
mod imports;
mod iterators;
pub mod laws;
mod lookups;
mod matches;
mod merging;
mod plugging;
mod plugs;
mod positions;
mod reasons;
mod removing;
mod twice;
mod validating;
mod wanted;
mod wiring;

pub use crate::plugs::{PassedOver, PlugError, PlugFault};
pub use arguments_of::Arguments;
pub use errors::Error;
pub use graph::CompositionGraph;
pub use imports::Imports;
pub use iterators::{NodeIds, Nodes, Packages};
pub use plugging::plug;
pub use reasons::Reason;
pub use wac_encode_faults::WriteFault;
pub use wac_graph_model::{
    AliasError, DefineTypeError, EncodeError, EncodeOptions, ExportError, ImportError,
    InstantiationArgumentError, Node, NodeId, NodeKind, PackageId, Processor, RegisterPackageError,
    UnexportError,
};
pub use wac_merge::MergeFault;
pub use wac_names::NameFault;
pub use wac_names::validation::ValidationFault;
pub use wac_types as types;
