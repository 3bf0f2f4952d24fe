//! Types that have declarations, and the declarations.

ghost use Rattle.std.specs.Prelude.{◌≡◌, map, Ok};
ghost use Rattle.wac_component.specs.declared.fault.TextFault.TheVariants.{UnknownByte};
ghost use Rattle.wac_component.specs.Reader.{chosen, fails};
ghost use Rattle.wac_component.specs.Numbers.{vector_at};
ghost use Rattle.wac_component.specs.Types.{type_at, type_defs};
ghost use Rattle.wac_component.specs.Views.{type_of, decl_of};
ghost use Rattle.wac_reader_parts.specs.private.Gives.{Gives};
ghost use Rattle.wac_reader_parts.specs.private.Tables.{decl_at, core_type_decl_at, is_resource as is_resource_byte};

use crate::bytes::{byte, extern_name, list_for, number, text_fault, vector};
use crate::fault::ReadFault;
use crate::sorts::{alias_in_type, description};
use crate::types::{func, value_type};
use std::alloc::Global;
use wac_component::{Decl, Feature, TextFault, TypeDef};

/// Returns whether a byte is the first of a resource type.
#[tactic(auto, unfolding(crate::specs::private::Tables::is_resource))]
pub fn is_resource(b: u8) -> bool
    ensures { result ≡ is_resource_byte b }
{
    b == 0x3f || b == 0x3e
}

/// Reads a type in a declaration. Types are nested in it at most this deep, and it counts.
#[cycle(types)]
#[tactic(auto, unfolding(wac_component::specs::Types::type_at))]
fn inner_type(alloc: Global, depth: u32, bytes: &[u8]) -> Result<(TypeDef<'_>, &[u8]), ReadFault>
    ensures { Gives (λ x. (type_of x.0, x.1.now)) result (type_at depth bytes.now) }
{
    if depth == 0 {
        return Err(text_fault(TextFault::Unsupported(Feature::TooDeep), bytes.len()));
    }
    let (b, rest) = byte(bytes)?;
    if is_resource(b) {
        return Err(text_fault(TextFault::Misplaced, bytes.len()));
    }
    type_def(alloc, depth - 1, b, rest)
}

/// Reads a type that is no resource type, after its first byte. Types are nested in its declarations at most this deep.
#[cycle(types)]
pub fn type_def(
    alloc: Global,
    depth: u32,
    b: u8,
    bytes: &[u8],
) -> Result<(TypeDef<'_>, &[u8]), ReadFault>
    ensures { Gives (λ x. (type_of x.0, x.1.now)) result (chosen (fails UnknownByte) (type_defs (type_at depth)) b bytes.now) }
{
    match b {
        0x40 => func(alloc, false, bytes),
        0x43 => func(alloc, true, bytes),
        0x41 => {
            let (decls, rest) = decls(alloc, depth, true, bytes)?;
            Ok((TypeDef::Component(decls), rest))
        }
        0x42 => {
            let (decls, rest) = decls(alloc, depth, false, bytes)?;
            Ok((TypeDef::Instance(decls), rest))
        }
        _ => value_type(alloc, b, bytes),
    }
}

/// Reads the declarations of a component type, or else of an instance type.
#[cycle(types)]
#[tactic(auto, unfolding(wac_component::specs::Numbers::vector_at), using(crate::proofs::Passed::fails_after))]
fn decls(
    alloc: Global,
    depth: u32,
    in_component: bool,
    bytes: &[u8],
) -> Result<(Vec<Decl<'_, TypeDef<'_>>>, &[u8]), ReadFault>
    ensures { Gives (λ x. (map (decl_of type_of) x.0.items, x.1.now)) result (vector_at (decl_at in_component (type_at depth)) bytes.now) }
{
    let (count, start) = number(bytes)?;
    let mut decls = list_for(alloc, count, start)?;
    let mut rest = start;
    for _ in 0..count {
        let (item, after) = decl(alloc, depth, in_component, rest)?;
        decls.push(item)?;
        rest = after;
    }
    Ok((decls, rest))
}

/// Reads a declaration of a component type, or else of an instance type.
#[cycle(types)]
#[tactic(auto, unfolding(crate::specs::private::Tables::decl_at))]
fn decl(
    alloc: Global,
    depth: u32,
    in_component: bool,
    bytes: &[u8],
) -> Result<(Decl<'_, TypeDef<'_>>, &[u8]), ReadFault>
    ensures { Gives (λ x. (decl_of type_of x.0, x.1.now)) result (decl_at in_component (type_at depth) bytes.now) }
{
    let (b, rest) = byte(bytes)?;
    match b {
        0 => core_type(alloc, rest),
        1 => {
            let (t, rest) = inner_type(alloc, depth, rest)?;
            Ok((Decl::Type(t), rest))
        }
        2 => {
            let (alias, rest) = alias_in_type(rest)?;
            Ok((Decl::Alias(alias), rest))
        }
        3 if in_component => {
            let (name, rest) = extern_name(rest)?;
            let (described, rest) = description(rest)?;
            Ok((Decl::Import(name, described), rest))
        }
        4 => {
            let (name, rest) = extern_name(rest)?;
            let (described, rest) = description(rest)?;
            Ok((Decl::Export(name, described), rest))
        }
        _ => Err(text_fault(TextFault::UnknownByte, bytes.len())),
    }
}

/// Reads a core type in a declaration, which is a module type.
#[tactic(auto, unfolding(crate::specs::private::Tables::core_type_decl_at))]
fn core_type(alloc: Global, bytes: &[u8]) -> Result<(Decl<'_, TypeDef<'_>>, &[u8]), ReadFault>
    ensures { Gives (λ x. (decl_of type_of x.0, x.1.now)) result (core_type_decl_at bytes.now) }
{
    let (b, rest) = byte(bytes)?;
    match b {
        0x50 => {
            let (decls, rest) = vector(alloc, rest)?;
            Ok((Decl::CoreType(decls), rest))
        }
        0x60 | 0x00 | 0x4d | 0x4e | 0x4f | 0x5d | 0x5e | 0x5f | 0x65 => {
            Err(text_fault(TextFault::Unsupported(Feature::CoreType), bytes.len()))
        }
        _ => Err(text_fault(TextFault::UnknownByte, bytes.len())),
    }
}
