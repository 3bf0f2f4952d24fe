//! Types of components: the collection of types, packages, and subtyping.
//!
//! [`Types`] is the collection. Its items mention each other by id, and each item only items added before it.
//! [`SubtypeChecker`] decides whether an item of one collection is a subtype of an item of another. A [`Package`] is a
//! component's bytes with its world. The functions of [`laws`] do nothing: their contracts are laws that proofs cite.
#![tactic(auto)]

mod answers;
mod checker;
mod comparison;

pub use crate::comparison::TypeFault;
pub use checker::SubtypeChecker;
pub use wac_types_collection::subtyping::laws;
pub use wac_types_collection::{
    AddTypeError, CoreExtern, CoreFuncType, CoreImportEntries, CoreImports, CoreRefType, CoreType,
    DefinedType, DefinedTypeId, Entries, Enum, Flags, FuncType, FuncTypeId, Interface, InterfaceId,
    Interfaces, ItemKind, LabelNames, Labels, ModuleType, ModuleTypeId, Named, Package, PackageKey,
    PrimitiveType, Record, Resource, ResourceAlias, ResourceId, Sequence, ShapeError, Text, Type,
    Types, UsedType, ValueType, Variant, World, WorldId,
};
