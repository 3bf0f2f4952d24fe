//! The parts of a definition by their positions.

ghost use Rattle.std.specs.Prelude.{◌≡◌, ◌+◌, ◌<◌, ◌^◌, ◌∷◌, [], map, slice_get};
ghost use Rattle.std.specs.Option.{OnSome};
ghost use Rattle.wac_encode_scopes.specs.private.Parts.{parts, some_of, second_of, some_second_of};

use wac_types_collection::{DefinedType, Named, Sequence, ValueType};

/// The part of a definition at a position, if there is one. An optional part that is missing is `Some(None)`.
pub fn part_at(definition: &DefinedType, index: usize) -> Option<Option<ValueType>>
    ensures is { result ≡ slice_get (parts definition.now) index }
    ensures small { OnSome result (index + 1 < 2 ^ 64) }
{
    match definition {
        DefinedType::Tuple(parts) => value_at(parts, index),
        DefinedType::Variant(variant) => case_at(&variant.cases, index),
        DefinedType::Record(record) => field_at(&record.fields, index),
        DefinedType::Result { ok, err } => side_at(*ok, *err, index),
        DefinedType::List(part)
        | DefinedType::FixedSizeList(part, _)
        | DefinedType::Option(part)
        | DefinedType::Alias(part) => first_at(Some(*part), index),
        DefinedType::Stream(part) | DefinedType::Future(part) => first_at(*part, index),
        DefinedType::Flags(_) | DefinedType::Enum(_) => None,
    }
}

/// The only part.
fn first_at(part: Option<ValueType>, index: usize) -> Option<Option<ValueType>>
    ensures is { result ≡ slice_get (part ∷ []) index }
    ensures small { OnSome result (index + 1 < 2 ^ 64) }
{
    if index == 0 { Some(part) } else { None }
}

/// The part of a result.
fn side_at(ok: Option<ValueType>, err: Option<ValueType>, index: usize) -> Option<Option<ValueType>>
    ensures is { result ≡ slice_get (ok ∷ err ∷ []) index }
    ensures small { OnSome result (index + 1 < 2 ^ 64) }
{
    match index {
        0 => Some(ok),
        1 => Some(err),
        _ => None,
    }
}

/// The value type of a tuple.
fn value_at(values: &Sequence<ValueType>, index: usize) -> Option<Option<ValueType>>
    ensures is { result ≡ slice_get (map some_of values.now) index }
    ensures small { OnSome result (index + 1 < 2 ^ 64) }
{
    let values = values.as_slice();
    if index < values.len() {
        Some(Some(values[index]))
    } else {
        None
    }
}

/// The value type of a field.
fn field_at(fields: &Named<ValueType>, index: usize) -> Option<Option<ValueType>>
    ensures is { result ≡ slice_get (map some_second_of fields.now) index }
    ensures small { OnSome result (index + 1 < 2 ^ 64) }
{
    if index < fields.len() {
        Some(Some(*fields.value_at(index)))
    } else {
        None
    }
}

/// The payload of a case.
fn case_at(cases: &Named<Option<ValueType>>, index: usize) -> Option<Option<ValueType>>
    ensures is { result ≡ slice_get (map second_of cases.now) index }
    ensures small { OnSome result (index + 1 < 2 ^ 64) }
{
    if index < cases.len() {
        Some(*cases.value_at(index))
    } else {
        None
    }
}
