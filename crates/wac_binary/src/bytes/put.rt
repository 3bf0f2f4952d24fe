//! Appends the parts of items to a buffer.
//!
//! A call fails only if out of memory. The buffer may have grown then, but keeps what it had.

ghost use Rattle.std.specs.Prelude.{◌≡◌, List, ℕ, ◌+◌, ◌<◌, ◌≤◌, ◌++◌, ◌∷◌, OnOk, vec_len, vec_capacity};
ghost use Rattle.wac_binary.specs.Leb.{leb, unsigned};
ghost use Rattle.wac_binary.specs.Bytes.{text, value, primitive, vector, argument, alias_bytes, sort, described};
ghost use Rattle.wac_binary.specs.Items.{export_alias, outer_alias};
ghost use Rattle.wac_binary.specs.Views.{arguments_of};

use crate::sorts::{Description, Sort};
use crate::types::ComponentValType;
use std::alloc::AllocError;
use wac_types_shapes::PrimitiveType;

/// Appends a number in LEB128 whose last byte is below the limit.
#[tactic(auto, using(crate::specs::private::LebLaws::leb_more, crate::specs::private::LebLaws::leb_last, std::proofs::lemmas::Grind::common_steps))]
fn put_leb(out: &mut Vec<u8>, limit: u64, n: u64) -> Result<(), AllocError>
    requires some { 0 < limit }
    requires byte { limit ≤ 128 }
    ensures written { OnOk result (out.new.items ≡ out.old.items ++ leb limit n) }
    ensures grows { (more : List ℕ) × (out.new.items ≡ out.old.items ++ more) }
{
    let mut rest = n;
    while rest >= limit {
        out.push((rest % 128 + 128) as u8)?;
        rest /= 128;
    }
    out.push(rest as u8)?;
    Ok(())
}

/// Appends an unsigned number in LEB128, in its shortest form.
#[inline(always)]
#[tactic(auto, using(crate::specs::private::LebLaws::leb_last, std::proofs::lemmas::Grind::common_steps))]
pub fn put_unsigned(out: &mut Vec<u8>, n: u64) -> Result<(), AllocError>
    ensures written { OnOk result (out.new.items ≡ out.old.items ++ unsigned n) }
    ensures grows { (more : List ℕ) × (out.new.items ≡ out.old.items ++ more) }
{
    if n < 128 {
        out.push(n as u8)?;
        return Ok(());
    }
    put_leb(out, 128, n)
}

/// Appends a text: its length, then its bytes.
#[inline(always)]
pub fn put_text(out: &mut Vec<u8>, t: &str) -> Result<(), AllocError>
    ensures written { OnOk result (out.new.items ≡ out.old.items ++ text t.now) }
    ensures grows { (more : List ℕ) × (out.new.items ≡ out.old.items ++ more) }
{
    put_unsigned(out, t.len() as u64)?;
    out.extend_from_slice(t.as_bytes())?;
    Ok(())
}

/// Returns the byte of a primitive type.
fn primitive_byte(t: PrimitiveType) -> u8
    ensures { result ≡ primitive t }
{
    match t {
        PrimitiveType::Bool => 0x7f,
        PrimitiveType::S8 => 0x7e,
        PrimitiveType::U8 => 0x7d,
        PrimitiveType::S16 => 0x7c,
        PrimitiveType::U16 => 0x7b,
        PrimitiveType::S32 => 0x7a,
        PrimitiveType::U32 => 0x79,
        PrimitiveType::S64 => 0x78,
        PrimitiveType::U64 => 0x77,
        PrimitiveType::F32 => 0x76,
        PrimitiveType::F64 => 0x75,
        PrimitiveType::Char => 0x74,
        PrimitiveType::String => 0x73,
        PrimitiveType::ErrorContext => 0x64,
    }
}

/// Appends a value type in use: the byte of a primitive type, or a type index as a signed number.
pub fn put_value(out: &mut Vec<u8>, t: ComponentValType) -> Result<(), AllocError>
    ensures written { OnOk result (out.new.items ≡ out.old.items ++ value t) }
    ensures grows { (more : List ℕ) × (out.new.items ≡ out.old.items ++ more) }
{
    match t {
        ComponentValType::Primitive(t) => {
            out.push(primitive_byte(t))?;
            Ok(())
        }
        ComponentValType::Index(i) => put_leb(out, 64, u64::from(i)),
    }
}

/// Appends a sort.
pub fn put_sort(out: &mut Vec<u8>, s: Sort) -> Result<(), AllocError>
    ensures written { OnOk result (out.new.items ≡ out.old.items ++ sort s) }
    ensures grows { (more : List ℕ) × (out.new.items ≡ out.old.items ++ more) }
{
    match s {
        Sort::CoreModule => {
            out.push(0)?;
            out.push(0x11)?;
        }
        Sort::Func => out.push(1)?,
        Sort::Value => out.push(2)?,
        Sort::Type => out.push(3)?,
        Sort::Component => out.push(4)?,
        Sort::Instance => out.push(5)?,
    }
    Ok(())
}

/// Appends a byte and an index.
#[inline(always)]
pub fn put_indexed(out: &mut Vec<u8>, byte: u8, index: u32) -> Result<(), AllocError>
    ensures written { OnOk result (out.new.items ≡ out.old.items ++ byte ∷ unsigned index) }
    ensures grows { (more : List ℕ) × (out.new.items ≡ out.old.items ++ more) }
{
    out.push(byte)?;
    put_unsigned(out, u64::from(index))
}

/// Appends an unsigned number. There must be spare capacity for any.
#[inline(always)]
#[tactic(auto, using(crate::specs::private::LebLaws::leb_more, crate::specs::private::LebLaws::leb_last, crate::proofs::lemmas::bytes::Short::unsigned_length, std::proofs::lemmas::Grind::common_steps))]
fn put_unsigned_reserved(out: &mut Vec<u8>, n: u64)
    requires { vec_len out.old + 10 ≤ vec_capacity out.old }
    ensures written { out.new.items ≡ out.old.items ++ unsigned n }
    ensures len { vec_len out.new ≤ vec_len out.old + 10 }
    ensures capacity { vec_capacity out.new ≡ vec_capacity out.old }
{
    let mut rest = n;
    while rest >= 128 {
        out.push_reserved((rest % 128 + 128) as u8);
        rest /= 128;
    }
    out.push_reserved(rest as u8);
}

/// Appends a byte and an index. There must be spare capacity for any.
#[inline(always)]
fn put_indexed_reserved(out: &mut Vec<u8>, byte: u8, index: u32)
    requires { vec_len out.old + 11 ≤ vec_capacity out.old }
    ensures { out.new.items ≡ out.old.items ++ byte ∷ unsigned index }
{
    out.push_reserved(byte);
    put_unsigned_reserved(out, u64::from(index));
}

/// Appends the description of an import or export. There must be spare capacity for any.
#[inline(always)]
fn put_described_reserved(out: &mut Vec<u8>, d: Description)
    requires { vec_len out.old + 12 ≤ vec_capacity out.old }
    ensures { out.new.items ≡ out.old.items ++ described d }
{
    match d {
        Description::CoreModule(i) => {
            out.push_reserved(0);
            put_indexed_reserved(out, 0x11, i);
        }
        Description::Func(i) => put_indexed_reserved(out, 1, i),
        Description::Equal(i) => {
            out.push_reserved(3);
            put_indexed_reserved(out, 0, i);
        }
        Description::Fresh => {
            out.push_reserved(3);
            out.push_reserved(1);
        }
        Description::Component(i) => put_indexed_reserved(out, 4, i),
        Description::Instance(i) => put_indexed_reserved(out, 5, i),
    }
}

/// The most bytes around a name: one before its length, ten for its length, twelve for the description.
const AROUND_NAME: usize = 23;

/// Appends the name and the description of an import or export. Room for both is reserved at once.
#[inline(always)]
pub fn put_named(out: &mut Vec<u8>, name: &str, d: Description) -> Result<(), AllocError>
    ensures written { OnOk result (out.new.items ≡ out.old.items ++ 0 ∷ (text name.now ++ described d)) }
    ensures grows { (more : List ℕ) × (out.new.items ≡ out.old.items ++ more) }
{
    out.reserve(name.len() + AROUND_NAME)?;
    out.push_reserved(0);
    put_unsigned_reserved(out, name.len() as u64);
    out.extend_from_slice(name.as_bytes())?;
    put_described_reserved(out, d);
    Ok(())
}

/// Appends an alias of an instance's export.
pub fn put_alias_export(
    out: &mut Vec<u8>,
    s: Sort,
    instance: u32,
    name: &str,
) -> Result<(), AllocError>
    ensures written { OnOk result (out.new.items ≡ out.old.items ++ alias_bytes (export_alias s instance name.now)) }
    ensures grows { (more : List ℕ) × (out.new.items ≡ out.old.items ++ more) }
{
    put_sort(out, s)?;
    put_indexed(out, 0, instance)?;
    put_text(out, name)
}

/// Appends an outer alias.
pub fn put_alias_outer(out: &mut Vec<u8>, s: Sort, count: u32, index: u32) -> Result<(), AllocError>
    ensures written { OnOk result (out.new.items ≡ out.old.items ++ alias_bytes (outer_alias s count index)) }
    ensures grows { (more : List ℕ) × (out.new.items ≡ out.old.items ++ more) }
{
    put_sort(out, s)?;
    put_indexed(out, 2, count)?;
    put_unsigned(out, u64::from(index))
}

/// Appends a name, a sort and an index.
pub fn put_argument(out: &mut Vec<u8>, name: &str, s: Sort, index: u32) -> Result<(), AllocError>
    ensures written { OnOk result (out.new.items ≡ out.old.items ++ argument (name.now, s, index)) }
    ensures grows { (more : List ℕ) × (out.new.items ≡ out.old.items ++ more) }
{
    put_text(out, name)?;
    put_sort(out, s)?;
    put_unsigned(out, u64::from(index))
}

/// Appends the arguments of an instantiation.
pub fn put_arguments(out: &mut Vec<u8>, arguments: &[(&str, Sort, u32)]) -> Result<(), AllocError>
    ensures written { OnOk result (out.new.items ≡ out.old.items ++ vector argument (arguments_of arguments.now)) }
    ensures grows { (more : List ℕ) × (out.new.items ≡ out.old.items ++ more) }
{
    put_unsigned(out, arguments.len() as u64)?;
    for a in arguments {
        put_argument(out, a.0, a.1, a.2)?;
    }
    Ok(())
}
