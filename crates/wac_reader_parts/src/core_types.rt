//! Core types and their declarations.

ghost use Rattle.std.specs.Prelude.{◌≡◌, Ok, map};
ghost use Rattle.wac_types_shapes.specs.declared.primitives.core_types.CoreType.{CoreType as CoreTypeValue};
ghost use Rattle.wac_binary.specs.Items.{ModuleDecl as ModuleDeclValue, module_import, module_export};
ghost use Rattle.wac_component.specs.Parts.{CoreDecl as CoreDeclValue};
ghost use Rattle.wac_component.specs.Reader.{made2, made3};
ghost use Rattle.wac_component.specs.Numbers.{name_at, vector_at};
ghost use Rattle.wac_component.specs.CoreTypes.{core_value_at, entity_at, outer_decl_at, core_decl_at, module_decl_in_type_at, core_type_at};
ghost use Rattle.wac_component.specs.Views.{module_decl_of};
ghost use Rattle.wac_component.specs.CoreViews.{core_decl_of, core_type_of};
ghost use Rattle.wac_reader_parts.specs.private.Gives.{Gives};
ghost use Rattle.wac_reader_parts.specs.private.CoreTypes.{module_type_at};

use crate::bytes::{Read, name, number, text_fault, vector};
use crate::entities::{core_value, entity};
use crate::fault::ReadFault;
use std::alloc::Global;
use wac_component::{CoreDecl, CoreTypeDef, Feature, ModuleDecl, TextFault};
use wac_types_shapes::CoreType;

impl<'a> Read<'a> for CoreType {
    ghost Value = { CoreTypeValue };

    ghost value = { λ x. x };

    ghost reader = { core_value_at };

    fn read(_alloc: Global, bytes: &'a [u8]) -> Result<(CoreType, &'a [u8]), ReadFault> {
        core_value(bytes)
    }
}

/// Reads core value types.
#[tactic(auto, using(crate::proofs::Same::map_same))]
fn core_values(alloc: Global, bytes: &[u8]) -> Result<(Vec<CoreType>, &[u8]), ReadFault>
    ensures { Gives (λ x. (x.0.items, x.1.now)) result (vector_at core_value_at bytes.now) }
{
    vector::<CoreType>(alloc, bytes)
}

/// Reads an import of a core module type.
fn module_import(bytes: &[u8]) -> Result<(ModuleDecl<'_>, &[u8]), ReadFault>
    ensures { Gives (λ x. (module_decl_of x.0, x.1.now)) result (made3 module_import name_at name_at entity_at bytes.now) }
{
    let (module, rest) = name(bytes)?;
    let (import, rest) = name(rest)?;
    let (entity, rest) = entity(rest)?;
    Ok((ModuleDecl::Import(module, import, entity), rest))
}

/// Reads a type in a core module type.
fn module_type(alloc: Global, bytes: &[u8]) -> Result<(ModuleDecl<'_>, &[u8]), ReadFault>
    ensures { Gives (λ x. (module_decl_of x.0, x.1.now)) result (module_type_at bytes.now) }
{
    match bytes {
        [0x60, rest @ ..] => {
            let (params, rest) = core_values(alloc, rest)?;
            let (results, rest) = core_values(alloc, rest)?;
            Ok((ModuleDecl::Func(params, results), rest))
        }
        [0x50, ..] => Err(text_fault(TextFault::Misplaced, bytes.len())),
        [0x00 | 0x4d | 0x4e | 0x4f | 0x5d | 0x5e | 0x5f | 0x65, ..] => {
            Err(text_fault(TextFault::Unsupported(Feature::CoreType), bytes.len()))
        }
        [] => Err(text_fault(TextFault::Short, 0)),
        [_, ..] => Err(text_fault(TextFault::UnknownByte, bytes.len())),
    }
}

/// Reads an export of a core module type.
fn module_export(bytes: &[u8]) -> Result<(ModuleDecl<'_>, &[u8]), ReadFault>
    ensures { Gives (λ x. (module_decl_of x.0, x.1.now)) result (made2 module_export name_at entity_at bytes.now) }
{
    let (name, rest) = name(bytes)?;
    let (entity, rest) = entity(rest)?;
    Ok((ModuleDecl::Export(name, entity), rest))
}

/// Reads an alias of a core type in a core module type.
#[tactic(auto, unfolding(wac_component::specs::CoreTypes::outer_decl_at))]
fn outer_decl(bytes: &[u8]) -> Result<(CoreDecl<'_>, &[u8]), ReadFault>
    ensures { Gives (λ x. (core_decl_of x.0, x.1.now)) result (outer_decl_at bytes.now) }
{
    match bytes {
        [0x10, 1, rest @ ..] => {
            let (count, rest) = number(rest)?;
            let (index, rest) = number(rest)?;
            Ok((CoreDecl::Outer { count, index }, rest))
        }
        [] => Err(text_fault(TextFault::Short, 0)),
        [0x10] => Err(text_fault(TextFault::Short, 0)),
        [0x10, rest @ ..] => Err(text_fault(TextFault::UnknownByte, rest.len())),
        [_, ..] => Err(text_fault(TextFault::UnknownByte, bytes.len())),
    }
}

/// Reads a declaration of a core module type in a component.
#[tactic(auto, unfolding(wac_component::specs::CoreTypes::core_decl_at))]
fn core_decl(alloc: Global, bytes: &[u8]) -> Result<(CoreDecl<'_>, &[u8]), ReadFault>
    ensures { Gives (λ x. (core_decl_of x.0, x.1.now)) result (core_decl_at bytes.now) }
{
    match bytes {
        [0, rest @ ..] => {
            let (decl, rest) = module_import(rest)?;
            Ok((CoreDecl::Module(decl), rest))
        }
        [1, rest @ ..] => {
            let (decl, rest) = module_type(alloc, rest)?;
            Ok((CoreDecl::Module(decl), rest))
        }
        [2, rest @ ..] => outer_decl(rest),
        [3, rest @ ..] => {
            let (decl, rest) = module_export(rest)?;
            Ok((CoreDecl::Module(decl), rest))
        }
        [] => Err(text_fault(TextFault::Short, 0)),
        [_, ..] => Err(text_fault(TextFault::UnknownByte, bytes.len())),
    }
}

impl<'a> Read<'a> for CoreDecl<'a> {
    ghost Value = { CoreDeclValue };

    ghost value = { core_decl_of };

    ghost reader = { core_decl_at };

    fn read(alloc: Global, bytes: &'a [u8]) -> Result<(CoreDecl<'a>, &'a [u8]), ReadFault> {
        core_decl(alloc, bytes)
    }
}

/// Reads a declaration of a core module type in a component type or an instance type.
#[tactic(auto, unfolding(wac_component::specs::CoreTypes::module_decl_in_type_at))]
fn module_decl_in_type(alloc: Global, bytes: &[u8]) -> Result<(ModuleDecl<'_>, &[u8]), ReadFault>
    ensures { Gives (λ x. (module_decl_of x.0, x.1.now)) result (module_decl_in_type_at bytes.now) }
{
    match bytes {
        [0, rest @ ..] => module_import(rest),
        [1, rest @ ..] => module_type(alloc, rest),
        [2, ..] => Err(text_fault(TextFault::Unsupported(Feature::CoreType), bytes.len())),
        [3, rest @ ..] => module_export(rest),
        [] => Err(text_fault(TextFault::Short, 0)),
        [_, ..] => Err(text_fault(TextFault::UnknownByte, bytes.len())),
    }
}

impl<'a> Read<'a> for ModuleDecl<'a> {
    ghost Value = { ModuleDeclValue };

    ghost value = { module_decl_of };

    ghost reader = { module_decl_in_type_at };

    fn read(alloc: Global, bytes: &'a [u8]) -> Result<(ModuleDecl<'a>, &'a [u8]), ReadFault> {
        module_decl_in_type(alloc, bytes)
    }
}

/// Reads a core type.
#[tactic(auto, unfolding(wac_component::specs::CoreTypes::core_type_at))]
pub fn core_type(alloc: Global, bytes: &[u8]) -> Result<(CoreTypeDef<'_>, &[u8]), ReadFault>
    ensures { Gives (λ x. (core_type_of x.0, x.1.now)) result (core_type_at bytes.now) }
{
    match bytes {
        [0x50, rest @ ..] => {
            let (decls, rest) = vector::<CoreDecl>(alloc, rest)?;
            Ok((CoreTypeDef::Module(decls), rest))
        }
        [0x60, rest @ ..] => {
            let (params, rest) = core_values(alloc, rest)?;
            let (results, rest) = core_values(alloc, rest)?;
            Ok((CoreTypeDef::Func { params, results }, rest))
        }
        [0x00 | 0x4d | 0x4e | 0x4f | 0x5d | 0x5e | 0x5f | 0x65, ..] => {
            Err(text_fault(TextFault::Unsupported(Feature::CoreType), bytes.len()))
        }
        [] => Err(text_fault(TextFault::Short, 0)),
        [_, ..] => Err(text_fault(TextFault::UnknownByte, bytes.len())),
    }
}
