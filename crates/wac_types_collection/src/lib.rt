//! The collection of types, and what is said of its types.
//!
//! - [`collection`]: [`Types`] with its adders and look-ups, and packages.
//! - [`reach`]: the types that a type reaches.
//! - [`subtyping`]: the subtype relation, and laws of it.
//! - [`wide`]: what interfaces use widely: themselves, and by the instances that they export.
#![tactic(auto)]

pub mod collection;
pub mod reach;
pub mod subtyping;
pub mod wide;

pub use collection::{
    AddTypeError, CoreExtern, CoreFuncType, CoreImportEntries, CoreImports, CoreRefType, CoreType,
    DefinedType, DefinedTypeId, Entries, Enum, Flags, FuncType, FuncTypeId, Interface, InterfaceId,
    Interfaces, ItemKind, LabelNames, Labels, ModuleType, ModuleTypeId, Named, Package, PackageKey,
    PrimitiveType, Record, Resource, ResourceAlias, ResourceId, Sequence, ShapeError, Text, Type,
    Types, UsedType, ValueType, Variant, World, WorldId,
};
pub use reach::{Reached, TypeHasher, TypeSet};
