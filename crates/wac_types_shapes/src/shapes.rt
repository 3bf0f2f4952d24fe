//! Shapes of component types and of core types, as plain data, and the ids by which they mention each other.
//!
//! An id is an index into a list of a collection; shapes alone do not check that it is in range. Names keep the order
//! in which they were added, and none occurs twice. A `clone` is deep, and is `Err(AllocError)` if out of memory.

mod component;
mod conversions;
mod core_types;
mod imports;
mod mapped;
mod named;

pub use crate::primitives::{CoreRefType, CoreType, PrimitiveType};
pub use component::{
    DefinedType, DefinedTypeId, Enum, Flags, FuncType, FuncTypeId, Interface, InterfaceId,
    ItemKind, ModuleTypeId, Record, Resource, ResourceAlias, ResourceId, Type, TypeCollection,
    UsedType, ValueType, Variant, World, WorldId,
};
pub use core_types::{CoreExtern, CoreFuncType, ModuleType};
pub use imports::{CoreImportEntries, CoreImports};
pub use named::{Entries, LabelNames, Labels, Named, Sequence, ShapeError, Text};
