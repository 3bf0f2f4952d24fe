//! The shapes of types, as plain data. No shape knows the collection that holds it.
//!
//! - [`primitives`]: primitive types, names, and the trees that types unfold to.
//! - [`keys`]: the key of a package, which is a name with or without a version.
//! - [`shapes`]: component types and core types.
#![tactic(auto)]

pub mod keys;
pub mod primitives;
pub mod shapes;

pub use keys::PackageKey;
pub use primitives::{CoreRefType, CoreType, PrimitiveType};
pub use shapes::{
    CoreExtern, CoreFuncType, CoreImportEntries, CoreImports, DefinedType, DefinedTypeId, Entries,
    Enum, Flags, FuncType, FuncTypeId, Interface, InterfaceId, ItemKind, LabelNames, Labels,
    ModuleType, ModuleTypeId, Named, Record, Resource, ResourceAlias, ResourceId, Sequence,
    ShapeError, Text, Type, TypeCollection, UsedType, ValueType, Variant, World, WorldId,
};
