//! Appends types to a buffer.

ghost use Rattle.std.specs.Prelude.{◌≡◌, List, ℕ, ◌++◌, ◌∷◌, OnOk};
ghost use Rattle.wac_binary.specs.Bytes.{text, value, optional, field, case, vector, value_def_bytes, type_bytes};
ghost use Rattle.wac_binary.specs.Views.{named, texts_of, func_of, defined_of};

use crate::bytes::put::{put_indexed, put_text, put_unsigned, put_value};
use crate::types::{ComponentValType, DefinedType, FuncType};
use std::alloc::AllocError;

fn put_optional(out: &mut Vec<u8>, t: Option<ComponentValType>) -> Result<(), AllocError>
    ensures written { OnOk result (out.new.items ≡ out.old.items ++ optional t) }
    ensures grows { (more : List ℕ) × (out.new.items ≡ out.old.items ++ more) }
{
    match t {
        None => {
            out.push(0)?;
            Ok(())
        }
        Some(t) => {
            out.push(1)?;
            put_value(out, t)
        }
    }
}

fn put_field(out: &mut Vec<u8>, name: &str, t: ComponentValType) -> Result<(), AllocError>
    ensures written { OnOk result (out.new.items ≡ out.old.items ++ field (name.now, t)) }
    ensures grows { (more : List ℕ) × (out.new.items ≡ out.old.items ++ more) }
{
    put_text(out, name)?;
    put_value(out, t)
}

fn put_fields(out: &mut Vec<u8>, fields: &[(&str, ComponentValType)]) -> Result<(), AllocError>
    ensures written { OnOk result (out.new.items ≡ out.old.items ++ vector field (named fields.now)) }
    ensures grows { (more : List ℕ) × (out.new.items ≡ out.old.items ++ more) }
{
    put_unsigned(out, fields.len() as u64)?;
    for field in fields {
        put_field(out, field.0, field.1)?;
    }
    Ok(())
}

fn put_case(out: &mut Vec<u8>, name: &str, t: Option<ComponentValType>) -> Result<(), AllocError>
    ensures written { OnOk result (out.new.items ≡ out.old.items ++ case (name.now, t)) }
    ensures grows { (more : List ℕ) × (out.new.items ≡ out.old.items ++ more) }
{
    put_text(out, name)?;
    put_optional(out, t)?;
    out.push(0)?;
    Ok(())
}

fn put_cases(
    out: &mut Vec<u8>,
    cases: &[(&str, Option<ComponentValType>)],
) -> Result<(), AllocError>
    ensures written { OnOk result (out.new.items ≡ out.old.items ++ vector case (named cases.now)) }
    ensures grows { (more : List ℕ) × (out.new.items ≡ out.old.items ++ more) }
{
    put_unsigned(out, cases.len() as u64)?;
    for c in cases {
        put_case(out, c.0, c.1)?;
    }
    Ok(())
}

fn put_values(out: &mut Vec<u8>, types: &[ComponentValType]) -> Result<(), AllocError>
    ensures written { OnOk result (out.new.items ≡ out.old.items ++ vector value types.now) }
    ensures grows { (more : List ℕ) × (out.new.items ≡ out.old.items ++ more) }
{
    put_unsigned(out, types.len() as u64)?;
    for t in types {
        put_value(out, *t)?;
    }
    Ok(())
}

fn put_texts(out: &mut Vec<u8>, texts: &[&str]) -> Result<(), AllocError>
    ensures written { OnOk result (out.new.items ≡ out.old.items ++ vector text (texts_of texts.now)) }
    ensures grows { (more : List ℕ) × (out.new.items ≡ out.old.items ++ more) }
{
    put_unsigned(out, texts.len() as u64)?;
    for t in texts {
        put_text(out, t)?;
    }
    Ok(())
}

/// Appends a function type, and fails only if out of memory.
pub fn put_func(out: &mut Vec<u8>, f: &FuncType<'_>) -> Result<(), AllocError>
    ensures written { OnOk result (out.new.items ≡ out.old.items ++ type_bytes (func_of f.now)) }
    ensures grows { (more : List ℕ) × (out.new.items ≡ out.old.items ++ more) }
{
    out.push(if f.is_async { 0x43 } else { 0x40 })?;
    put_fields(out, f.params)?;
    match f.result {
        None => {
            out.push(1)?;
            out.push(0)?;
            Ok(())
        }
        Some(t) => {
            out.push(0)?;
            put_value(out, t)
        }
    }
}

fn put_part(out: &mut Vec<u8>, byte: u8, t: ComponentValType) -> Result<(), AllocError>
    ensures written { OnOk result (out.new.items ≡ out.old.items ++ byte ∷ value t) }
    ensures grows { (more : List ℕ) × (out.new.items ≡ out.old.items ++ more) }
{
    out.push(byte)?;
    put_value(out, t)
}

fn put_optional_part(
    out: &mut Vec<u8>,
    byte: u8,
    t: Option<ComponentValType>,
) -> Result<(), AllocError>
    ensures written { OnOk result (out.new.items ≡ out.old.items ++ byte ∷ optional t) }
    ensures grows { (more : List ℕ) × (out.new.items ≡ out.old.items ++ more) }
{
    out.push(byte)?;
    put_optional(out, t)
}

fn put_names(out: &mut Vec<u8>, byte: u8, names: &[&str]) -> Result<(), AllocError>
    ensures written { OnOk result (out.new.items ≡ out.old.items ++ byte ∷ vector text (texts_of names.now)) }
    ensures grows { (more : List ℕ) × (out.new.items ≡ out.old.items ++ more) }
{
    out.push(byte)?;
    put_texts(out, names)
}

/// Appends the definition of a value type, and fails only if out of memory.
pub fn put_defined(out: &mut Vec<u8>, t: &DefinedType<'_>) -> Result<(), AllocError>
    ensures written { OnOk result (out.new.items ≡ out.old.items ++ value_def_bytes (defined_of t.now)) }
    ensures grows { (more : List ℕ) × (out.new.items ≡ out.old.items ++ more) }
{
    match *t {
        DefinedType::Primitive(p) => put_value(out, ComponentValType::Primitive(p)),
        DefinedType::Record(fields) => {
            out.push(0x72)?;
            put_fields(out, fields)
        }
        DefinedType::Variant(cases) => {
            out.push(0x71)?;
            put_cases(out, cases)
        }
        DefinedType::List(t) => put_part(out, 0x70, t),
        DefinedType::FixedSizeList(t, size) => {
            put_part(out, 0x67, t)?;
            put_unsigned(out, u64::from(size))
        }
        DefinedType::Tuple(types) => {
            out.push(0x6f)?;
            put_values(out, types)
        }
        DefinedType::Flags(names) => put_names(out, 0x6e, names),
        DefinedType::Enum(names) => put_names(out, 0x6d, names),
        DefinedType::Option(t) => put_part(out, 0x6b, t),
        DefinedType::Result { ok, err } => {
            put_optional_part(out, 0x6a, ok)?;
            put_optional(out, err)
        }
        DefinedType::Own(i) => put_indexed(out, 0x69, i),
        DefinedType::Borrow(i) => put_indexed(out, 0x68, i),
        DefinedType::Stream(t) => put_optional_part(out, 0x66, t),
        DefinedType::Future(t) => put_optional_part(out, 0x65, t),
    }
}
