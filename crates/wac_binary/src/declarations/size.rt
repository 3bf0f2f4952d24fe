//! Sizes in bytes of the parts of items, known before anything is written.
//!
//! What a call reads is in the format: each number fits its type, and each text is UTF-8.

ghost use Rattle.std.specs.Prelude.{◌≡◌, ◌+◌, ◌<◌, ◌≤◌, ◌^◌, ◌++◌, ◌∷◌, length};
ghost use Rattle.wac_binary.specs.Leb.{leb, unsigned};
ghost use Rattle.wac_binary.specs.Bytes.{text, value, optional, field, case, vector, argument, alias_bytes, sort, described};
ghost use Rattle.std.specs.List.{AllByRecursion};
ghost use Rattle.wac_binary.specs.Format.{IsU32, IsText, AreBytes, ValIsInFormat, OptionIsInFormat, FieldIsInFormat, CaseIsInFormat, DescriptionIsInFormat, AliasIsInFormat, ArgumentIsInFormat};
ghost use Rattle.wac_binary.specs.Items.{export_alias, outer_alias};
ghost use Rattle.wac_binary.specs.Views.{named, texts_of, arguments_of};

use crate::sorts::{Description, Sort};
use crate::types::ComponentValType;

/// Returns the size of a number in LEB128 whose last byte is below the limit.
#[tactic(auto, using(crate::specs::private::LebLaws::leb_more, crate::specs::private::LebLaws::leb_last, std::proofs::lemmas::Grind::common_steps))]
fn leb_size(limit: u64, n: u64) -> u64
    requires { 0 < limit }
    ensures is { result ≡ length (leb limit n) }
    ensures bound { result ≤ n + 1 }
{
    if n < limit {
        1
    } else {
        1 + leb_size(limit, n / 128)
    }
}

/// Returns the size of an unsigned number.
#[inline(always)]
#[tactic(auto, using(crate::specs::private::LebLaws::leb_last, crate::proofs::lemmas::bytes::Short::unsigned_length, std::proofs::lemmas::Grind::common_steps))]
pub fn unsigned_size(n: u64) -> u64
    ensures is { result ≡ length (unsigned n) }
    ensures bound { result ≤ n + 1 }
    ensures short { result ≤ 10 }
{
    if n < 128 { 1 } else { leb_size(128, n) }
}

/// Returns the size of an index.
#[inline(always)]
pub fn index_size(i: u32) -> u128
    ensures is { result ≡ length (unsigned i) }
    ensures small { result ≤ 2 ^ 32 }
    ensures in_format { IsU32 i }
{
    u128::from(unsigned_size(u64::from(i)))
}

/// Returns the size of a text with its length.
#[inline(always)]
pub fn text_size(t: &str) -> u128
    ensures is { result ≡ length (text t.now) }
    ensures small { result ≤ 2 ^ 64 }
    ensures in_format { IsText t.now }
{
    let bytes = t.as_bytes();
    u128::from(unsigned_size(bytes.len() as u64)) + bytes.len() as u128
}

/// Returns the number of bytes.
pub fn bytes_size(bytes: &[u8]) -> u128
    ensures is { result ≡ length bytes.now }
    ensures small { result ≤ 2 ^ 64 }
    ensures in_format { AreBytes bytes.now }
{
    bytes.len() as u128
}

/// Returns the size of a value type in use.
pub fn value_size(t: ComponentValType) -> u128
    ensures is { result ≡ length (value t) }
    ensures small { result ≤ 2 ^ 32 }
    ensures in_format { ValIsInFormat t }
{
    match t {
        ComponentValType::Primitive(_) => 1,
        ComponentValType::Index(i) => u128::from(leb_size(64, u64::from(i))),
    }
}

/// Returns the size of an optional value type.
pub fn optional_size(t: Option<ComponentValType>) -> u128
    ensures is { result ≡ length (optional t) }
    ensures small { result ≤ 2 ^ 33 }
    ensures in_format { OptionIsInFormat t }
{
    match t {
        None => 1,
        Some(t) => 1 + value_size(t),
    }
}

/// Returns the size of a sort.
pub fn sort_size(s: Sort) -> u128
    ensures is { result ≡ length (sort s) }
    ensures small { result ≤ 2 }
{
    match s {
        Sort::CoreModule => 2,
        Sort::Func => 1,
        Sort::Value => 1,
        Sort::Type => 1,
        Sort::Component => 1,
        Sort::Instance => 1,
    }
}

/// Returns the size of the description of an import or export.
#[inline(always)]
fn described_size(d: Description) -> u64
    ensures is { result ≡ length (described d) }
    ensures small { result ≤ 12 }
    ensures in_format { DescriptionIsInFormat d }
{
    match d {
        Description::CoreModule(i) => 2 + unsigned_size(u64::from(i)),
        Description::Func(i) => 1 + unsigned_size(u64::from(i)),
        Description::Equal(i) => 2 + unsigned_size(u64::from(i)),
        Description::Fresh => 2,
        Description::Component(i) => 1 + unsigned_size(u64::from(i)),
        Description::Instance(i) => 1 + unsigned_size(u64::from(i)),
    }
}

/// Returns the size of the name and the description of an import or export.
#[inline(always)]
pub fn named_size(name: &str, d: Description) -> u64
    ensures is { result ≡ length (0 ∷ (text name.now ++ described d)) }
    ensures name_in_format { IsText name.now }
    ensures in_format { DescriptionIsInFormat d }
{
    let bytes = name.as_bytes();
    1 + unsigned_size(bytes.len() as u64) + bytes.len() as u64 + described_size(d)
}

/// Returns the size of an alias of an instance's export.
pub fn alias_export_size(s: Sort, instance: u32, name: &str) -> u128
    ensures is { result ≡ length (alias_bytes (export_alias s instance name.now)) }
    ensures small { result ≤ 2 ^ 65 }
    ensures in_format { AliasIsInFormat (export_alias s instance name.now) }
{
    sort_size(s) + 1 + index_size(instance) + text_size(name)
}

/// Returns the size of an outer alias.
pub fn alias_outer_size(s: Sort, count: u32, index: u32) -> u128
    ensures is { result ≡ length (alias_bytes (outer_alias s count index)) }
    ensures small { result ≤ 2 ^ 65 }
    ensures in_format { AliasIsInFormat (outer_alias s count index) }
{
    sort_size(s) + 1 + index_size(count) + index_size(index)
}

/// Returns the size of a name, a sort and an index.
pub fn argument_size(name: &str, s: Sort, index: u32) -> u128
    ensures is { result ≡ length (argument (name.now, s, index)) }
    ensures small { result ≤ 2 ^ 64 + 2 ^ 33 }
    ensures in_format { ArgumentIsInFormat (name.now, s, index) }
{
    text_size(name) + sort_size(s) + index_size(index)
}

/// Returns the size of the arguments of an instantiation.
pub fn arguments_size(arguments: &[(&str, Sort, u32)]) -> u128
    ensures is { result ≡ length (vector argument (arguments_of arguments.now)) }
    ensures small { result < 2 ^ 127 + 2 ^ 100 }
    ensures in_format { AllByRecursion ArgumentIsInFormat (arguments_of arguments.now) }
{
    let mut size = u128::from(unsigned_size(arguments.len() as u64));
    for a in arguments {
        size += argument_size(a.0, a.1, a.2);
    }
    size
}

/// Returns the size of the fields of a record, or of the parameters of a function.
pub fn fields_size(fields: &[(&str, ComponentValType)]) -> u128
    ensures is { result ≡ length (vector field (named fields.now)) }
    ensures small { result < 2 ^ 127 + 2 ^ 100 }
    ensures in_format { AllByRecursion FieldIsInFormat (named fields.now) }
{
    let mut size = u128::from(unsigned_size(fields.len() as u64));
    for field in fields {
        size += field_size(field.0, field.1);
    }
    size
}

fn field_size(name: &str, t: ComponentValType) -> u128
    ensures is { result ≡ length (field (name.now, t)) }
    ensures small { result ≤ 2 ^ 64 + 2 ^ 33 }
    ensures in_format { FieldIsInFormat (name.now, t) }
{
    text_size(name) + value_size(t)
}

/// Returns the size of the cases of a variant.
pub fn cases_size(cases: &[(&str, Option<ComponentValType>)]) -> u128
    ensures is { result ≡ length (vector case (named cases.now)) }
    ensures small { result < 2 ^ 127 + 2 ^ 100 }
    ensures in_format { AllByRecursion CaseIsInFormat (named cases.now) }
{
    let mut size = u128::from(unsigned_size(cases.len() as u64));
    for c in cases {
        size += case_size(c.0, c.1);
    }
    size
}

fn case_size(name: &str, t: Option<ComponentValType>) -> u128
    ensures is { result ≡ length (case (name.now, t)) }
    ensures small { result ≤ 2 ^ 64 + 2 ^ 34 }
    ensures in_format { CaseIsInFormat (name.now, t) }
{
    text_size(name) + optional_size(t) + 1
}

/// Returns the size of the elements of a tuple.
pub fn values_size(types: &[ComponentValType]) -> u128
    ensures is { result ≡ length (vector value types.now) }
    ensures small { result < 2 ^ 127 + 2 ^ 100 }
    ensures in_format { AllByRecursion ValIsInFormat types.now }
{
    let mut size = u128::from(unsigned_size(types.len() as u64));
    for t in types {
        size += value_size(*t);
    }
    size
}

/// Returns the size of the names of flags, or of the cases of an enum.
pub fn texts_size(texts: &[&str]) -> u128
    ensures is { result ≡ length (vector text (texts_of texts.now)) }
    ensures small { result < 2 ^ 127 + 2 ^ 100 }
    ensures in_format { AllByRecursion IsText (texts_of texts.now) }
{
    let mut size = u128::from(unsigned_size(texts.len() as u64));
    for t in texts {
        size += text_size(t);
    }
    size
}
