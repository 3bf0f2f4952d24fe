//! The binary format of components (Binary.md): a writer for each item.
//!
//! [`ComponentBuilder`] appends the items of a component and returns the index of each. [`ComponentType`], [`InstanceType`]
//! and [`ModuleType`] hold the declarations of a type. `specs/` says which bytes an item has and what items mean.
//! The functions of [`laws`] do nothing: their contracts are laws that proofs cite.
#![tactic(auto)]

mod builder;
mod bytes;
mod core_types;
mod declarations;
mod fault;
pub mod laws;
mod sections;
mod sorts;
mod types;

pub use builder::{ComponentBuilder, component_names, producers};
pub use core_types::{EntityType, GlobalType, MemoryType, TableType};
pub use declarations::{ComponentType, InstanceType, ModuleType};
pub use fault::BinaryFault;
pub use sorts::{Description, Sort};
pub use types::{ComponentValType, DefinedType, FuncType};
