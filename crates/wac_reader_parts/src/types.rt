//! Value types, and the types that have no declarations.

ghost use Rattle.std.specs.Prelude.{◌≡◌, Bool, Option, Ok};
ghost use Rattle.wac_types_shapes.specs.primitives.Name.{Name};
ghost use Rattle.wac_binary.specs.declared.types.ComponentValType.{ComponentValType};
ghost use Rattle.wac_binary.specs.Items.{func_def};
ghost use Rattle.wac_component.specs.declared.fault.TextFault.TheVariants.{UnknownByte};
ghost use Rattle.wac_component.specs.Reader.{chosen, fails, made2};
ghost use Rattle.wac_component.specs.Numbers.{vector_at, optional_at};
ghost use Rattle.wac_component.specs.Types.{value_at, field_at, case_at, result_at, value_defs};
ghost use Rattle.wac_component.specs.Views.{value_def_of, type_of};
ghost use Rattle.wac_reader_parts.specs.private.Gives.{Gives};
ghost use Rattle.wac_reader_parts.specs.private.Tables.{primitive_of, plain_defs, value_types};

use crate::bytes::{Read, byte, name, number, signed, text_fault, vector};
use crate::fault::ReadFault;
use std::alloc::Global;
use wac_binary::ComponentValType;
use wac_component::{Feature, TextFault, TypeDef, ValueDef};
use wac_types_shapes::PrimitiveType;

/// Returns the primitive type of a byte.
#[tactic(auto, unfolding(crate::specs::private::Tables::primitive_of))]
fn primitive(b: u8) -> Option<PrimitiveType>
    ensures { result ≡ primitive_of b }
{
    match b {
        0x7f => Some(PrimitiveType::Bool),
        0x7e => Some(PrimitiveType::S8),
        0x7d => Some(PrimitiveType::U8),
        0x7c => Some(PrimitiveType::S16),
        0x7b => Some(PrimitiveType::U16),
        0x7a => Some(PrimitiveType::S32),
        0x79 => Some(PrimitiveType::U32),
        0x78 => Some(PrimitiveType::S64),
        0x77 => Some(PrimitiveType::U64),
        0x76 => Some(PrimitiveType::F32),
        0x75 => Some(PrimitiveType::F64),
        0x74 => Some(PrimitiveType::Char),
        0x73 => Some(PrimitiveType::String),
        0x64 => Some(PrimitiveType::ErrorContext),
        _ => None,
    }
}

/// Reads a value type in use.
#[inline(always)]
#[tactic(auto, using(crate::proofs::Rows::value_primitive, crate::proofs::Rows::value_index))]
pub fn value(bytes: &[u8]) -> Result<(ComponentValType, &[u8]), ReadFault>
    ensures { Gives (λ x. (x.0, x.1.now)) result (value_at bytes.now) }
{
    let (b, rest) = byte(bytes)?;
    if let Some(t) = primitive(b) {
        return Ok((ComponentValType::Primitive(t), rest));
    }
    let (index, rest) = signed(bytes)?;
    Ok((ComponentValType::Index(index), rest))
}

impl<'a> Read<'a> for ComponentValType {
    ghost Value = { ComponentValType };

    ghost value = { λ t. t };

    ghost reader = { value_at };

    fn read(_alloc: Global, bytes: &'a [u8]) -> Result<(ComponentValType, &'a [u8]), ReadFault> {
        value(bytes)
    }
}

/// Reads a value type that may be left out.
#[tactic(auto, unfolding(wac_component::specs::Numbers::optional_at))]
pub fn optional_value(bytes: &[u8]) -> Result<(Option<ComponentValType>, &[u8]), ReadFault>
    ensures { Gives (λ x. (x.0, x.1.now)) result (optional_at value_at bytes.now) }
{
    let (b, rest) = byte(bytes)?;
    match b {
        0 => Ok((None, rest)),
        1 => {
            let (t, rest) = value(rest)?;
            Ok((Some(t), rest))
        }
        _ => Err(text_fault(TextFault::UnknownByte, bytes.len())),
    }
}

impl<'a> Read<'a> for (&'a str, ComponentValType) {
    ghost Value = { Name × ComponentValType };

    ghost value = { λ f. (f.0.now, f.1) };

    ghost reader = { field_at };

    #[tactic(auto, unfolding(wac_component::specs::Types::field_at))]
    fn read(
        _alloc: Global,
        bytes: &'a [u8],
    ) -> Result<((&'a str, ComponentValType), &'a [u8]), ReadFault> {
        let (name, rest) = name(bytes)?;
        let (t, rest) = value(rest)?;
        Ok(((name, t), rest))
    }
}

impl<'a> Read<'a> for (&'a str, Option<ComponentValType>) {
    ghost Value = { Name × Option ComponentValType };

    ghost value = { λ c. (c.0.now, c.1) };

    ghost reader = { case_at };

    #[tactic(auto, unfolding(wac_component::specs::Types::case_at))]
    fn read(
        _alloc: Global,
        bytes: &'a [u8],
    ) -> Result<((&'a str, Option<ComponentValType>), &'a [u8]), ReadFault> {
        let (name, rest) = name(bytes)?;
        let (t, rest) = optional_value(rest)?;
        let (b, rest) = byte(rest)?;
        if b != 0 {
            return Err(text_fault(TextFault::UnknownByte, bytes.len()));
        }
        Ok(((name, t), rest))
    }
}

/// Reads the type of a function's result, if it has one.
#[inline(always)]
#[tactic(auto, unfolding(wac_component::specs::Types::result_at))]
pub fn outcome(bytes: &[u8]) -> Result<(Option<ComponentValType>, &[u8]), ReadFault>
    ensures { Gives (λ x. (x.0, x.1.now)) result (result_at bytes.now) }
{
    let (b, rest) = byte(bytes)?;
    match b {
        0 => {
            let (t, rest) = value(rest)?;
            Ok((Some(t), rest))
        }
        1 => {
            let (count, rest) = number(rest)?;
            if count == 0 {
                return Ok((None, rest));
            }
            Err(text_fault(TextFault::Unsupported(Feature::NamedResults), bytes.len()))
        }
        _ => Err(text_fault(TextFault::UnknownByte, bytes.len())),
    }
}

/// Reads the definition of a value type that has no vector, after its first byte.
fn plain_def(b: u8, bytes: &[u8]) -> Result<(ValueDef<'_>, &[u8]), ReadFault>
    ensures { Gives (λ x. (value_def_of x.0, x.1.now)) result (chosen (fails UnknownByte) plain_defs b bytes.now) }
{
    match b {
        0x70 => {
            let (t, rest) = value(bytes)?;
            Ok((ValueDef::List(t), rest))
        }
        0x67 => {
            let (t, rest) = value(bytes)?;
            let (size, rest) = number(rest)?;
            Ok((ValueDef::FixedSizeList(t, size), rest))
        }
        0x6b => {
            let (t, rest) = value(bytes)?;
            Ok((ValueDef::Option(t), rest))
        }
        0x6a => {
            let (ok, rest) = optional_value(bytes)?;
            let (err, rest) = optional_value(rest)?;
            Ok((ValueDef::Result { ok, err }, rest))
        }
        0x69 => {
            let (index, rest) = number(bytes)?;
            Ok((ValueDef::Own(index), rest))
        }
        0x68 => {
            let (index, rest) = number(bytes)?;
            Ok((ValueDef::Borrow(index), rest))
        }
        0x66 => {
            let (t, rest) = optional_value(bytes)?;
            Ok((ValueDef::Stream(t), rest))
        }
        0x65 => {
            let (t, rest) = optional_value(bytes)?;
            Ok((ValueDef::Future(t), rest))
        }
        0x63 => Err(text_fault(TextFault::Unsupported(Feature::MapType), bytes.len() + 1)),
        _ => Err(text_fault(TextFault::UnknownByte, bytes.len() + 1)),
    }
}

/// Reads the definition of a value type that is not primitive, after its first byte.
#[tactic(auto, using(crate::proofs::Rows::no_vector, crate::proofs::Same::map_same))]
fn value_def(alloc: Global, b: u8, bytes: &[u8]) -> Result<(ValueDef<'_>, &[u8]), ReadFault>
    ensures { Gives (λ x. (value_def_of x.0, x.1.now)) result (chosen (fails UnknownByte) value_defs b bytes.now) }
{
    match b {
        0x72 => {
            let (fields, rest) = vector(alloc, bytes)?;
            Ok((ValueDef::Record(fields), rest))
        }
        0x71 => {
            let (cases, rest) = vector(alloc, bytes)?;
            Ok((ValueDef::Variant(cases), rest))
        }
        0x6f => {
            let (types, rest) = vector(alloc, bytes)?;
            Ok((ValueDef::Tuple(types), rest))
        }
        0x6e => {
            let (names, rest) = vector(alloc, bytes)?;
            Ok((ValueDef::Flags(names), rest))
        }
        0x6d => {
            let (names, rest) = vector(alloc, bytes)?;
            Ok((ValueDef::Enum(names), rest))
        }
        _ => plain_def(b, bytes),
    }
}

/// Reads a value type that is defined, after its first byte.
#[tactic(auto, using(crate::proofs::Rows::value_type_primitive, crate::proofs::Rows::value_type_defined, crate::proofs::Passed::fails_after))]
pub fn value_type(alloc: Global, b: u8, bytes: &[u8]) -> Result<(TypeDef<'_>, &[u8]), ReadFault>
    ensures { Gives (λ x. (type_of x.0, x.1.now)) result (chosen (fails UnknownByte) value_types b bytes.now) }
{
    if let Some(t) = primitive(b) {
        return Ok((TypeDef::Value(ValueDef::Primitive(t)), bytes));
    }
    let (definition, rest) = value_def(alloc, b, bytes)?;
    Ok((TypeDef::Value(definition), rest))
}

/// Reads a function type after its first byte.
#[inline(always)]
pub fn func(alloc: Global, is_async: bool, bytes: &[u8]) -> Result<(TypeDef<'_>, &[u8]), ReadFault>
    ensures { Gives (λ x. (type_of x.0, x.1.now)) result (made2 (func_def is_async) (vector_at field_at) result_at bytes.now) }
{
    let (params, rest) = vector(alloc, bytes)?;
    let (result, rest) = outcome(rest)?;
    Ok((
        TypeDef::Func {
            is_async,
            params,
            result,
        },
        rest,
    ))
}
