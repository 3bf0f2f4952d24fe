//! Declarations that are to be written, and the types and aliases in them. Their parts are borrowed.
//!
//! A call fails only if out of memory. The buffer may have grown then, but keeps what it had.

ghost use Rattle.std.specs.Prelude.{◌≡◌, List, ℕ, ◌++◌, ◌∷◌, OnOk};
ghost use Rattle.wac_binary.specs.Leb.{unsigned};
ghost use Rattle.wac_binary.specs.Bytes.{alias_bytes, type_bytes, decl_bytes};
ghost use Rattle.wac_binary.specs.private.declarations.DeclView.{alias_of, type_of, decl_of, scope_byte as byte_of};

use crate::bytes::put::{put_alias_export, put_alias_outer, put_named, put_unsigned};
use crate::declarations::declarations::Declarations;
use crate::declarations::module_type::ModuleType;
use crate::declarations::put_types::{put_defined, put_func};
use crate::sorts::{Description, Sort};
use crate::types::{DefinedType, FuncType};
use std::alloc::AllocError;

/// An alias that is to be written.
#[derive(Clone, Copy)]
pub enum AliasRef<'a> {
    /// An alias of an instance's export: its sort, the instance, the name.
    Export(Sort, u32, &'a str),
    /// An outer alias: its sort, the number of scopes out, the index there.
    Outer(Sort, u32, u32),
}

/// A type that is to be written.
#[derive(Clone, Copy)]
pub enum TypeRef<'a> {
    Defined(&'a DefinedType<'a>),
    Func(&'a FuncType<'a>),
    Scope(Scope, &'a Declarations),
}

/// The two kinds of types that consist of declarations.
#[derive(Clone, Copy)]
pub enum Scope {
    Component,
    Instance,
}

/// A declaration that is to be written.
#[derive(Clone, Copy)]
pub enum DeclRef<'a> {
    CoreModule(&'a ModuleType),
    Type(TypeRef<'a>),
    Alias(AliasRef<'a>),
    Import(&'a str, Description),
    Export(&'a str, Description),
}

/// Appends an alias.
pub fn put_alias(out: &mut Vec<u8>, a: AliasRef<'_>) -> Result<(), AllocError>
    ensures written { OnOk result (out.new.items ≡ out.old.items ++ alias_bytes (alias_of a.entry)) }
    ensures grows { (more : List ℕ) × (out.new.items ≡ out.old.items ++ more) }
{
    match a {
        AliasRef::Export(sort, instance, name) => put_alias_export(out, sort, instance, name),
        AliasRef::Outer(sort, count, index) => put_alias_outer(out, sort, count, index),
    }
}

/// Appends a type.
#[tactic(auto, using(crate::proofs::lemmas::declarations::DeclLaws::scope_bytes))]
pub fn put_type(out: &mut Vec<u8>, t: TypeRef<'_>) -> Result<(), AllocError>
    ensures written { OnOk result (out.new.items ≡ out.old.items ++ type_bytes (type_of t.entry)) }
    ensures grows { (more : List ℕ) × (out.new.items ≡ out.old.items ++ more) }
{
    match t {
        TypeRef::Defined(t) => put_defined(out, t),
        TypeRef::Func(f) => put_func(out, f),
        TypeRef::Scope(scope, t) => {
            out.push(scope_byte(scope))?;
            t.put(out)
        }
    }
}

/// Appends a declaration.
pub fn put_decl(out: &mut Vec<u8>, d: &DeclRef<'_>) -> Result<(), AllocError>
    ensures written { OnOk result (out.new.items ≡ out.old.items ++ decl_bytes (decl_of d.now)) }
    ensures grows { (more : List ℕ) × (out.new.items ≡ out.old.items ++ more) }
{
    match *d {
        DeclRef::CoreModule(t) => {
            out.push(0)?;
            t.put(out)
        }
        DeclRef::Type(t) => {
            out.push(1)?;
            put_type(out, t)
        }
        DeclRef::Alias(a) => {
            out.push(2)?;
            put_alias(out, a)
        }
        DeclRef::Import(name, d) => {
            out.push(3)?;
            put_named(out, name, d)
        }
        DeclRef::Export(name, d) => {
            out.push(4)?;
            put_named(out, name, d)
        }
    }
}

fn scope_byte(scope: Scope) -> u8
    ensures { result ≡ byte_of scope }
{
    match scope {
        Scope::Component => 0x41,
        Scope::Instance => 0x42,
    }
}

/// Appends the head of a declaration of a type with `count` declarations.
pub fn put_scope(out: &mut Vec<u8>, scope: Scope, count: u64) -> Result<(), AllocError>
    ensures written { OnOk result (out.new.items ≡ out.old.items ++ 1 ∷ byte_of scope ∷ unsigned count) }
{
    out.push(1)?;
    out.push(scope_byte(scope))?;
    put_unsigned(out, count)
}
