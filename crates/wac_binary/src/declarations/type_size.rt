//! Sizes in bytes of types and declarations, known before anything is written.

ghost use Rattle.std.specs.Prelude.{◌≡◌, ◌+◌, ◌<◌, ◌≤◌, ◌^◌, length};
ghost use Rattle.wac_binary.specs.Bytes.{alias_bytes, value_def_bytes, type_bytes, decl_bytes, outcome};
ghost use Rattle.wac_binary.specs.Format.{OptionIsInFormat, ValueIsInFormat, AliasIsInFormat, TypeIsInFormat, DeclIsInFormat};
ghost use Rattle.wac_binary.specs.Views.{func_of, defined_of};
ghost use Rattle.wac_binary.specs.private.declarations.DeclView.{alias_of, type_of, decl_of};

use crate::declarations::decl::{AliasRef, DeclRef, TypeRef};
use crate::declarations::size::{
    alias_export_size, alias_outer_size, cases_size, fields_size, index_size, named_size,
    optional_size, texts_size, value_size, values_size,
};
use crate::types::{ComponentValType, DefinedType, FuncType};

fn outcome_size(t: Option<ComponentValType>) -> u128
    ensures is { result ≡ length (outcome t) }
    ensures small { result ≤ 2 ^ 33 }
    ensures in_format { OptionIsInFormat t }
{
    match t {
        None => 2,
        Some(t) => 1 + value_size(t),
    }
}

fn func_size(f: &FuncType<'_>) -> u128
    ensures is { result ≡ length (type_bytes (func_of f.now)) }
    ensures small { result < 2 ^ 127 + 2 ^ 101 }
    ensures in_format { TypeIsInFormat (func_of f.now) }
{
    1 + fields_size(f.params) + outcome_size(f.result)
}

fn defined_size(t: &DefinedType<'_>) -> u128
    ensures is { result ≡ length (value_def_bytes (defined_of t.now)) }
    ensures small { result < 2 ^ 127 + 2 ^ 101 }
    ensures in_format { ValueIsInFormat (defined_of t.now) }
{
    match *t {
        DefinedType::Primitive(_) => 1,
        DefinedType::Record(fields) => 1 + fields_size(fields),
        DefinedType::Variant(cases) => 1 + cases_size(cases),
        DefinedType::List(t) => 1 + value_size(t),
        DefinedType::FixedSizeList(t, size) => 1 + value_size(t) + index_size(size),
        DefinedType::Tuple(types) => 1 + values_size(types),
        DefinedType::Flags(names) => 1 + texts_size(names),
        DefinedType::Enum(names) => 1 + texts_size(names),
        DefinedType::Option(t) => 1 + value_size(t),
        DefinedType::Result { ok, err } => 1 + optional_size(ok) + optional_size(err),
        DefinedType::Own(i) => 1 + index_size(i),
        DefinedType::Borrow(i) => 1 + index_size(i),
        DefinedType::Stream(t) => 1 + optional_size(t),
        DefinedType::Future(t) => 1 + optional_size(t),
    }
}

/// Returns the size of an alias.
pub fn alias_size(a: AliasRef<'_>) -> u128
    ensures is { result ≡ length (alias_bytes (alias_of a.entry)) }
    ensures small { result ≤ 2 ^ 65 }
    ensures in_format { AliasIsInFormat (alias_of a.entry) }
{
    match a {
        AliasRef::Export(sort, instance, name) => alias_export_size(sort, instance, name),
        AliasRef::Outer(sort, count, index) => alias_outer_size(sort, count, index),
    }
}

/// Returns the size of a type.
#[tactic(auto, using(crate::proofs::lemmas::declarations::DeclLaws::scope_bytes))]
pub fn type_size(t: TypeRef<'_>) -> u128
    ensures is { result ≡ length (type_bytes (type_of t.entry)) }
    ensures small { result < 2 ^ 127 + 2 ^ 102 }
    ensures in_format { TypeIsInFormat (type_of t.entry) }
{
    match t {
        TypeRef::Defined(t) => defined_size(t),
        TypeRef::Func(f) => func_size(f),
        TypeRef::Scope(_, t) => 1 + t.size(),
    }
}

/// Returns the size of a declaration.
pub fn decl_size(d: &DeclRef<'_>) -> u128
    ensures is { result ≡ length (decl_bytes (decl_of d.now)) }
    ensures small { result < 2 ^ 127 + 2 ^ 103 }
    ensures in_format { DeclIsInFormat (decl_of d.now) }
{
    match *d {
        DeclRef::CoreModule(t) => 1 + t.size(),
        DeclRef::Type(t) => 1 + type_size(t),
        DeclRef::Alias(a) => 1 + alias_size(a),
        DeclRef::Import(name, d) => 1 + u128::from(named_size(name, d)),
        DeclRef::Export(name, d) => 1 + u128::from(named_size(name, d)),
    }
}
