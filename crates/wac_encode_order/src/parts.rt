//! The types of which types are made.
ghost use Rattle.std.specs.Prelude.{◌≡◌, ◌<◌, ◌++◌, ◌∷◌, [], Some, true, length, slice_get, IfOk, OnOk};
ghost use Rattle.wac_types_shapes.specs.declared.shapes.component.«Type».TheVariants as ty_of;
ghost use Rattle.wac_types_collection.specs.collection.Collection.{seconds, and_maybe, case_values, value_types, func_mentions, defined_mentions, kind_types, holds_type};
ghost use Rattle.wac_types_collection.specs.collection.Aliases.{handle_resolved, type_resolved};
ghost use Rattle.wac_types_collection.specs.reach.Reach.{mentions};
ghost use Rattle.wac_encode_order.specs.private.TypeItems.{made_of};
ghost use Rattle.wac_encode_order.specs.private.Graph.{listed_type as type_of};

use std::alloc::AllocError;
use wac_types_collection::{DefinedType, FuncType, ItemKind, Named, Type, Types, ValueType};

/// Resolves the aliases of a handle's resource.
fn resolve_handle(types: &Types, value: ValueType) -> ValueType
    ensures { result ≡ handle_resolved types.now value }
{
    match value {
        ValueType::Own(id) => ValueType::Own(types.resolve_resource(id)),
        ValueType::Borrow(id) => ValueType::Borrow(types.resolve_resource(id)),
        _ => value,
    }
}

/// Resolves the aliases of a type.
pub(crate) fn resolve(types: &Types, ty: Type) -> Type
    ensures { result ≡ type_resolved types.now ty }
{
    match ty {
        Type::Resource(id) => Type::Resource(types.resolve_resource(id)),
        Type::Value(value) => Type::Value(resolve_handle(types, types.resolve_value_type(value))),
        _ => ty,
    }
}

/// Returns the type of a type item.
pub(crate) fn listed_type(item: ItemKind) -> Option<Type>
    ensures { result ≡ type_of item }
{
    match item {
        ItemKind::TypeItem(ty) => Some(ty),
        _ => None,
    }
}

/// Returns the type at an index.
pub(crate) fn type_at(types: &[Type], index: usize) -> Type
    requires { index < length types.now }
    ensures { slice_get types.now index ≡ Some result }
{
    types[index]
}

/// Appends a value type, if there is one.
fn push_maybe(parts: &mut Vec<Type>, value: Option<ValueType>) -> Result<(), AllocError>
    ensures { OnOk result (parts.new.items ≡ parts.old.items ++ value_types (and_maybe value [])) }
{
    if let Some(value) = value {
        parts.push(Type::Value(value))?;
    }
    Ok(())
}

/// Appends value types.
fn push_values(parts: &mut Vec<Type>, values: &[ValueType]) -> Result<(), AllocError>
    ensures { OnOk result (parts.new.items ≡ parts.old.items ++ value_types values.now) }
{
    for value in values {
        parts.push(Type::Value(*value))?;
    }
    Ok(())
}

/// Appends the value types of fields or parameters.
fn push_fields(parts: &mut Vec<Type>, fields: &Named<ValueType>) -> Result<(), AllocError>
    ensures { OnOk result (parts.new.items ≡ parts.old.items ++ value_types (seconds fields.now)) }
{
    for i in 0..fields.len() {
        parts.push(Type::Value(*fields.value_at(i)))?;
    }
    Ok(())
}

/// Appends the value types of cases.
fn push_cases(parts: &mut Vec<Type>, cases: &Named<Option<ValueType>>) -> Result<(), AllocError>
    ensures { OnOk result (parts.new.items ≡ parts.old.items ++ value_types (case_values cases.now)) }
{
    for i in 0..cases.len() {
        push_maybe(parts, *cases.value_at(i))?;
    }
    Ok(())
}

/// Appends the types of items.
fn push_items(parts: &mut Vec<Type>, items: &Named<ItemKind>) -> Result<(), AllocError>
    ensures { OnOk result (parts.new.items ≡ parts.old.items ++ kind_types items.now) }
{
    for i in 0..items.len() {
        parts.push(items.value_at(i).ty())?;
    }
    Ok(())
}

/// Appends the value types of a function type.
fn push_func(parts: &mut Vec<Type>, func: &FuncType) -> Result<(), AllocError>
    ensures { OnOk result (parts.new.items ≡ parts.old.items ++ func_mentions func.now) }
{
    push_maybe(parts, func.result)?;
    push_fields(parts, &func.params)
}

/// Appends the value types of a result type.
fn push_result(
    parts: &mut Vec<Type>,
    ok: Option<ValueType>,
    err: Option<ValueType>,
) -> Result<(), AllocError>
    ensures { OnOk result (parts.new.items ≡ parts.old.items ++ value_types (and_maybe ok (and_maybe err []))) }
{
    push_maybe(parts, ok)?;
    push_maybe(parts, err)
}

/// Appends the value types of a definition.
fn push_defined(parts: &mut Vec<Type>, defined: &DefinedType) -> Result<(), AllocError>
    ensures { OnOk result (parts.new.items ≡ parts.old.items ++ defined_mentions defined.now) }
{
    match defined {
        DefinedType::Tuple(types) => push_values(parts, types.as_slice()),
        DefinedType::List(value)
        | DefinedType::FixedSizeList(value, _)
        | DefinedType::Option(value)
        | DefinedType::Alias(value) => push_maybe(parts, Some(*value)),
        DefinedType::Result { ok, err } => push_result(parts, *ok, *err),
        DefinedType::Variant(variant) => push_cases(parts, &variant.cases),
        DefinedType::Record(record) => push_fields(parts, &record.fields),
        DefinedType::Flags(_) | DefinedType::Enum(_) => Ok(()),
        DefinedType::Stream(value) | DefinedType::Future(value) => push_maybe(parts, *value),
    }
}

/// Appends the types that a value type mentions.
fn push_value(parts: &mut Vec<Type>, types: &Types, value: ValueType) -> Result<(), AllocError>
    requires { holds_type types.now (ty_of.Value value) ≡ true }
    ensures { OnOk result (parts.new.items ≡ parts.old.items ++ mentions types.now (ty_of.Value value)) }
{
    match value {
        ValueType::Primitive(_) => Ok(()),
        ValueType::Borrow(id) | ValueType::Own(id) => {
            parts.push(Type::Resource(id))?;
            Ok(())
        }
        ValueType::Defined(id) => push_defined(parts, &types[id]),
    }
}

/// Appends the types of which a type is made.
fn push_parts(parts: &mut Vec<Type>, types: &Types, ty: Type) -> Result<(), AllocError>
    requires { holds_type types.now ty ≡ true }
    ensures { OnOk result (parts.new.items ≡ parts.old.items ++ made_of types.now ty) }
{
    match ty {
        Type::Func(id) => push_func(parts, &types[id]),
        Type::Value(value) => push_value(parts, types, value),
        Type::Interface(id) => push_items(parts, &types[id].exports),
        Type::Resource(_) | Type::World(_) | Type::Module(_) => Ok(()),
    }
}

/// Returns the types of which a type of the collection is made.
///
/// # Errors
/// - `AllocError` if out of memory.
pub(crate) fn parts_of(types: &Types, ty: Type) -> Result<Vec<Type>, AllocError>
    requires { holds_type types.now ty ≡ true }
    ensures { IfOk result (λ parts. parts.items ≡ made_of types.now ty) }
{
    let mut parts = Vec::new(types.allocator());
    push_parts(&mut parts, types, ty)?;
    Ok(parts)
}
