//! The parts of a definition as the binary format takes them.

ghost use Rattle.std.specs.Prelude.{◌≡◌, ◌<◌, ◌≤◌, Some, IfOk, length, slice_get};
ghost use Rattle.std.specs.List.{AllZip, AllByRecursion};
ghost use Rattle.wac_binary.specs.Bytes.{value_def_bytes};
ghost use Rattle.wac_binary.specs.Views.{defined_of};
ghost use Rattle.wac_binary.specs.declared.types.ComponentValType.{ComponentValType as AnyWritten};
ghost use Rattle.wac_encode_values.specs.private.Parts.{ArePresent, IsPlain, IsMadeOf, IsText, IsFieldName, IsCaseName, IsValue, IsFieldValue, IsCaseValue, IsShort, IsShortPart, IsShortField, IsShortCase};

use std::alloc::{AllocError, Global};
use wac_binary::{ComponentValType, DefinedType};
use wac_encode_stacks::{index_law, value_law};
use wac_types_collection::{DefinedType as HeldType, Labels, Named, ValueType};

/// The part at a position, which is present.
pub(crate) fn value_at(parts: &[Option<ComponentValType>], index: usize) -> ComponentValType
    requires { (x : AnyWritten) × (slice_get parts.now index ≡ Some (Some x)) }
    ensures is { slice_get parts.now index ≡ Some (Some result) }
    ensures short { IsShort result }
{
    let value = parts[index].unwrap();
    value_law(value); // proof only
    value
}

/// The part at a position, if it is present.
fn optional_at(parts: &[Option<ComponentValType>], index: usize) -> Option<ComponentValType>
    requires { index < length parts.now }
    ensures is { slice_get parts.now index ≡ Some result }
    ensures short { IsShortPart result }
{
    match parts[index] {
        Some(value) => {
            value_law(value); // proof only
            Some(value)
        }
        None => None,
    }
}

/// The value types of a tuple.
pub(crate) fn values_of(
    alloc: Global,
    parts: &[Option<ComponentValType>],
) -> Result<Vec<ComponentValType>, AllocError>
    requires { ArePresent parts.now }
    ensures values { IfOk result (λ xs. AllZip IsValue parts.now xs.items) }
    ensures short { IfOk result (λ xs. AllByRecursion IsShort xs.items) }
{
    let mut values = Vec::new(alloc);
    for i in 0..parts.len() {
        values.push(value_at(parts, i))?;
    }
    Ok(values)
}

/// The fields of a record.
pub(crate) fn fields_of<'b>(
    alloc: Global,
    fields: &'b Named<ValueType>,
    parts: &[Option<ComponentValType>],
) -> Result<Vec<(&'b str, ComponentValType)>, AllocError>
    requires present { ArePresent parts.now }
    requires length { length fields.now ≡ length parts.now }
    ensures names { IfOk result (λ xs. AllZip IsFieldName fields.now xs.items) }
    ensures values { IfOk result (λ xs. AllZip IsFieldValue parts.now xs.items) }
    ensures short { IfOk result (λ xs. AllByRecursion IsShortField xs.items) }
{
    let mut written = Vec::new(alloc);
    for i in 0..fields.len() {
        let (name, _) = fields.entry_at(i);
        written.push((name, value_at(parts, i)))?;
    }
    Ok(written)
}

/// The cases of a variant.
pub(crate) fn cases_of<'b>(
    alloc: Global,
    cases: &'b Named<Option<ValueType>>,
    parts: &[Option<ComponentValType>],
) -> Result<Vec<(&'b str, Option<ComponentValType>)>, AllocError>
    requires { length cases.now ≡ length parts.now }
    ensures names { IfOk result (λ xs. AllZip IsCaseName cases.now xs.items) }
    ensures values { IfOk result (λ xs. AllZip IsCaseValue parts.now xs.items) }
    ensures short { IfOk result (λ xs. AllByRecursion IsShortCase xs.items) }
{
    let mut written = Vec::new(alloc);
    for i in 0..cases.len() {
        let (name, _) = cases.entry_at(i);
        written.push((name, optional_at(parts, i)))?;
    }
    Ok(written)
}

/// The names of flags or of an enum.
pub(crate) fn labels_of(alloc: Global, labels: &Labels) -> Result<Vec<&str>, AllocError>
    ensures { IfOk result (λ xs. AllZip IsText labels.now xs.items) }
{
    let mut written = Vec::new(alloc);
    for i in 0..labels.len() {
        written.push(labels.name_at(i))?;
    }
    Ok(written)
}

/// A definition of at most two parts, without names.
pub(crate) fn plain_definition(
    held: &HeldType,
    parts: &[Option<ComponentValType>],
) -> DefinedType<'static>
    requires { IsPlain held.now parts.now }
    ensures made { IsMadeOf held.now parts.now (defined_of result) }
    ensures short { length (value_def_bytes (defined_of result)) ≤ 13 }
{
    match held {
        HeldType::List(_) => DefinedType::List(value_at(parts, 0)),
        HeldType::FixedSizeList(_, size) => {
            index_law(*size); // proof only
            DefinedType::FixedSizeList(value_at(parts, 0), *size)
        }
        HeldType::Option(_) => DefinedType::Option(value_at(parts, 0)),
        HeldType::Result { ok: _, err: _ } => DefinedType::Result {
            ok: optional_at(parts, 0),
            err: optional_at(parts, 1),
        },
        HeldType::Stream(_) => DefinedType::Stream(optional_at(parts, 0)),
        HeldType::Future(_) => DefinedType::Future(optional_at(parts, 0)),
        _ => unreachable!(),
    }
}
