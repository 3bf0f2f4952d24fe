//! The collection of types, and packages.
//!
//! [`Types`] has resources, function types, defined types, interfaces, worlds and types of core modules, each with an
//! id. An item can mention only items added before it, so types have no cycles. A [`Package`] is a component's bytes
//! with its world. The functions of [`laws`] do nothing: their contracts are laws that proofs cite.

mod aliases;
mod collection;
mod interfaces;
pub mod laws;
mod mentions;
mod package;
mod shared;
mod uses;

pub use collection::{AddTypeError, Types};
pub use interfaces::Interfaces;
pub use package::Package;
pub use wac_types_shapes::{
    CoreExtern, CoreFuncType, CoreImportEntries, CoreImports, CoreRefType, CoreType, DefinedType,
    DefinedTypeId, Entries, Enum, Flags, FuncType, FuncTypeId, Interface, InterfaceId, ItemKind,
    LabelNames, Labels, ModuleType, ModuleTypeId, Named, PackageKey, PrimitiveType, Record,
    Resource, ResourceAlias, ResourceId, Sequence, ShapeError, Text, Type, UsedType, ValueType,
    Variant, World, WorldId,
};
