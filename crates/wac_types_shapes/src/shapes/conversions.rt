//! Value types and kinds of items, from the types that they are made of.
ghost use Rattle.std.specs.Prelude.{◌≡◌};
ghost use Rattle.wac_types_shapes.specs.declared.shapes.component.«Type».TheVariants as ty_of;
ghost use Rattle.wac_types_shapes.specs.declared.shapes.component.ItemKind.TheVariants as kind_of;
ghost use Rattle.wac_types_shapes.specs.declared.shapes.component.ValueType.TheVariants as value_of;

use crate::primitives::PrimitiveType;
use crate::shapes::component::{
    DefinedTypeId, FuncTypeId, InterfaceId, ItemKind, ModuleTypeId, ResourceId, Type, ValueType,
    WorldId,
};

impl ValueType {
    /// A boolean.
    pub const BOOL: ValueType = ValueType::Primitive(PrimitiveType::Bool);

    /// A signed integer of 8 bits.
    pub const S8: ValueType = ValueType::Primitive(PrimitiveType::S8);

    /// An unsigned integer of 8 bits.
    pub const U8: ValueType = ValueType::Primitive(PrimitiveType::U8);

    /// A signed integer of 16 bits.
    pub const S16: ValueType = ValueType::Primitive(PrimitiveType::S16);

    /// An unsigned integer of 16 bits.
    pub const U16: ValueType = ValueType::Primitive(PrimitiveType::U16);

    /// A signed integer of 32 bits.
    pub const S32: ValueType = ValueType::Primitive(PrimitiveType::S32);

    /// An unsigned integer of 32 bits.
    pub const U32: ValueType = ValueType::Primitive(PrimitiveType::U32);

    /// A signed integer of 64 bits.
    pub const S64: ValueType = ValueType::Primitive(PrimitiveType::S64);

    /// An unsigned integer of 64 bits.
    pub const U64: ValueType = ValueType::Primitive(PrimitiveType::U64);

    /// A float of 32 bits.
    pub const F32: ValueType = ValueType::Primitive(PrimitiveType::F32);

    /// A float of 64 bits.
    pub const F64: ValueType = ValueType::Primitive(PrimitiveType::F64);

    /// A Unicode scalar value.
    pub const CHAR: ValueType = ValueType::Primitive(PrimitiveType::Char);

    /// A string of Unicode scalar values.
    pub const STRING: ValueType = ValueType::Primitive(PrimitiveType::String);

    /// Opaque information about an error, the component model's `error-context`.
    pub const ERROR_CONTEXT: ValueType = ValueType::Primitive(PrimitiveType::ErrorContext);
}

/// A primitive type, as a value type.
impl From<PrimitiveType> for ValueType {
    ghost from_gives = { λ x y. y ≡ value_of.Primitive x };

    fn from(primitive: PrimitiveType) -> ValueType {
        ValueType::Primitive(primitive)
    }
}

/// A defined type, as a value type.
impl From<DefinedTypeId> for ValueType {
    ghost from_gives = { λ x y. y ≡ value_of.Defined x };

    fn from(id: DefinedTypeId) -> ValueType {
        ValueType::Defined(id)
    }
}

/// A resource, as a type.
impl From<ResourceId> for Type {
    ghost from_gives = { λ x y. y ≡ ty_of.Resource x };

    fn from(id: ResourceId) -> Type {
        Type::Resource(id)
    }
}

/// A function type, as a type.
impl From<FuncTypeId> for Type {
    ghost from_gives = { λ x y. y ≡ ty_of.Func x };

    fn from(id: FuncTypeId) -> Type {
        Type::Func(id)
    }
}

/// A value type, as a type.
impl From<ValueType> for Type {
    ghost from_gives = { λ x y. y ≡ ty_of.Value x };

    fn from(ty: ValueType) -> Type {
        Type::Value(ty)
    }
}

/// An interface, as a type.
impl From<InterfaceId> for Type {
    ghost from_gives = { λ x y. y ≡ ty_of.Interface x };

    fn from(id: InterfaceId) -> Type {
        Type::Interface(id)
    }
}

/// A world, as a type.
impl From<WorldId> for Type {
    ghost from_gives = { λ x y. y ≡ ty_of.World x };

    fn from(id: WorldId) -> Type {
        Type::World(id)
    }
}

/// The type of a core module, as a type.
impl From<ModuleTypeId> for Type {
    ghost from_gives = { λ x y. y ≡ ty_of.Module x };

    fn from(id: ModuleTypeId) -> Type {
        Type::Module(id)
    }
}

/// A type item.
impl From<Type> for ItemKind {
    ghost from_gives = { λ x y. y ≡ kind_of.TypeItem x };

    fn from(ty: Type) -> ItemKind {
        ItemKind::TypeItem(ty)
    }
}

/// A function of a type.
impl From<FuncTypeId> for ItemKind {
    ghost from_gives = { λ x y. y ≡ kind_of.Func x };

    fn from(id: FuncTypeId) -> ItemKind {
        ItemKind::Func(id)
    }
}

/// An instance of an interface.
impl From<InterfaceId> for ItemKind {
    ghost from_gives = { λ x y. y ≡ kind_of.Instance x };

    fn from(id: InterfaceId) -> ItemKind {
        ItemKind::Instance(id)
    }
}

/// A component of a world.
impl From<WorldId> for ItemKind {
    ghost from_gives = { λ x y. y ≡ kind_of.Component x };

    fn from(id: WorldId) -> ItemKind {
        ItemKind::Component(id)
    }
}

/// A core module of a type.
impl From<ModuleTypeId> for ItemKind {
    ghost from_gives = { λ x y. y ≡ kind_of.Module x };

    fn from(id: ModuleTypeId) -> ItemKind {
        ItemKind::Module(id)
    }
}

/// A value of a type.
impl From<ValueType> for ItemKind {
    ghost from_gives = { λ x y. y ≡ kind_of.Value x };

    fn from(ty: ValueType) -> ItemKind {
        ItemKind::Value(ty)
    }
}
