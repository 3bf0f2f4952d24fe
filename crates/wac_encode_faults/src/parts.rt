//! The types that function types and value types are made of.
ghost use Rattle.std.specs.Prelude.{ℕ, ◌≡◌, ◌<◌, ◌↔◌, ◌++◌, ◌∷◌, [], List, true, Some, OnOk, slice_get};
ghost use Rattle.wac_types_shapes.specs.declared.shapes.component.«Type».{«Type» as AnyType};
ghost use Rattle.wac_types_shapes.specs.declared.shapes.component.«Type».TheVariants as ty_of;
ghost use Rattle.wac_types_collection.specs.collection.Collection.{seconds, and_maybe, case_values, value_types, func_mentions, defined_mentions, holds_type};
ghost use Rattle.wac_types_collection.specs.reach.Reach.{IsIn, mentions};
ghost use Rattle.wac_types_collection.specs.private.reach.Found.{with_all};
ghost use Rattle.wac_encode_faults.specs.Free.{parts};
ghost use Rattle.wac_encode_faults.specs.private.Near.{IsPart};

use indexmap::IndexSet;
use std::alloc::AllocError;
use wac_types_collection::{DefinedType, FuncType, Named, Type, Types, ValueType};

/// Adds a type.
fn add(found: &mut IndexSet<Type>, ty: Type) -> Result<(), AllocError>
    ensures { OnOk result (found.new.keys ≡ with_all found.old.keys (ty ∷ [])) }
{
    found.insert(ty)?;
    Ok(())
}

/// Adds a value type, if there is one.
fn add_maybe(found: &mut IndexSet<Type>, value: Option<ValueType>) -> Result<(), AllocError>
    ensures { OnOk result (found.new.keys ≡ with_all found.old.keys (value_types (and_maybe value []))) }
{
    match value {
        Some(value) => add(found, Type::Value(value)),
        None => Ok(()),
    }
}

/// Adds value types.
fn add_values(found: &mut IndexSet<Type>, values: &[ValueType]) -> Result<(), AllocError>
    ensures { OnOk result (found.new.keys ≡ with_all found.old.keys (value_types values.now)) }
{
    for value in values {
        add(found, Type::Value(*value))?;
    }
    Ok(())
}

/// Adds the value types of fields or parameters.
fn add_fields(found: &mut IndexSet<Type>, fields: &Named<ValueType>) -> Result<(), AllocError>
    ensures { OnOk result (found.new.keys ≡ with_all found.old.keys (value_types (seconds fields.now))) }
{
    for i in 0..fields.len() {
        add(found, Type::Value(*fields.value_at(i)))?;
    }
    Ok(())
}

/// Adds the value types of cases.
fn add_cases(found: &mut IndexSet<Type>, cases: &Named<Option<ValueType>>) -> Result<(), AllocError>
    ensures { OnOk result (found.new.keys ≡ with_all found.old.keys (value_types (case_values cases.now))) }
{
    for i in 0..cases.len() {
        add_maybe(found, *cases.value_at(i))?;
    }
    Ok(())
}

/// Adds the value types of a function type.
fn add_func(found: &mut IndexSet<Type>, func: &FuncType) -> Result<(), AllocError>
    ensures { OnOk result (found.new.keys ≡ with_all found.old.keys (func_mentions func.now)) }
{
    add_maybe(found, func.result)?;
    add_fields(found, &func.params)
}

/// Adds the value types of a definition.
fn add_defined(found: &mut IndexSet<Type>, defined: &DefinedType) -> Result<(), AllocError>
    ensures { OnOk result (found.new.keys ≡ with_all found.old.keys (defined_mentions defined.now)) }
{
    match defined {
        DefinedType::Tuple(types) => add_values(found, types.as_slice()),
        DefinedType::List(value)
        | DefinedType::FixedSizeList(value, _)
        | DefinedType::Option(value)
        | DefinedType::Alias(value) => add(found, Type::Value(*value)),
        DefinedType::Result { ok, err } => {
            add_maybe(found, *ok)?;
            add_maybe(found, *err)
        }
        DefinedType::Variant(variant) => add_cases(found, &variant.cases),
        DefinedType::Record(record) => add_fields(found, &record.fields),
        DefinedType::Flags(_) | DefinedType::Enum(_) => Ok(()),
        DefinedType::Stream(value) | DefinedType::Future(value) => add_maybe(found, *value),
    }
}

/// Adds what a value type mentions.
fn add_value(found: &mut IndexSet<Type>, types: &Types, value: ValueType) -> Result<(), AllocError>
    requires { holds_type types.now (ty_of.Value value) ≡ true }
    ensures { OnOk result (found.new.keys ≡ with_all found.old.keys (mentions types.now (ty_of.Value value))) }
{
    match value {
        ValueType::Primitive(_) => Ok(()),
        ValueType::Borrow(id) | ValueType::Own(id) => add(found, Type::Resource(id)),
        ValueType::Defined(id) => add_defined(found, &types[id]),
    }
}

/// Adds what a function type or a value type is made of.
pub(crate) fn add_parts(
    found: &mut IndexSet<Type>,
    types: &Types,
    ty: Type,
) -> Result<(), AllocError>
    requires { holds_type types.now ty ≡ true }
    ensures { OnOk result (found.new.keys ≡ with_all found.old.keys (parts types.now ty)) }
{
    match ty {
        Type::Func(id) => add_func(found, &types[id]),
        Type::Value(value) => add_value(found, types, value),
        _ => Ok(()),
    }
}

/// Adds what the found types are made of, and what these are made of, and so on. Those before the position `from` must be
/// made of found types alone. Takes time linear in the others, without recursion.
///
/// # Errors
/// - `AllocError` if out of memory.
pub(crate) fn add_all_parts(
    found: &mut IndexSet<Type>,
    types: &Types,
    from: usize,
) -> Result<(), AllocError>
    requires held { (t : AnyType) → IsIn t found.old.keys → holds_type types.now t ≡ true }
    requires before { (p : ℕ) (u t : AnyType) → p < from → slice_get found.old.keys p ≡ Some u → IsIn t (parts types.now u) → IsIn t found.old.keys }
    ensures parts { OnOk result ((t : AnyType) → IsIn t found.new.keys ↔ IsPart types.now found.old.keys t) }
    ensures held { OnOk result ((t : AnyType) → IsIn t found.new.keys → holds_type types.now t ≡ true) }
    ensures grown { OnOk result ((more : List AnyType) × (found.new.keys ≡ found.old.keys ++ more)) }
{
    types.law();
    let mut next = from;
    while next < found.len() {
        let ty = found.as_slice()[next];
        add_parts(found, types, ty)?;
        next += 1;
    }
    Ok(())
}
