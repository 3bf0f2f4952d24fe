//! The elements of sections.

ghost use Rattle.std.specs.Prelude.{◌≡◌, ℕ, map, Ok};
ghost use Rattle.wac_types_shapes.specs.primitives.Name.{Name};
ghost use Rattle.wac_binary.specs.declared.sorts.Sort.{Sort};
ghost use Rattle.wac_binary.specs.declared.sorts.Description.{Description};
ghost use Rattle.wac_component.specs.Parts.{custom_part};
ghost use Rattle.wac_component.specs.Reader.{all_bytes, made2, whole};
ghost use Rattle.wac_component.specs.Numbers.{name_at, extern_name_at, optional_at, vector_at};
ghost use Rattle.wac_component.specs.Types.{description_at};
ghost use Rattle.wac_component.specs.Reading.{sorted, instance_at, defined_at, import_at, export_at, module_at};
ghost use Rattle.wac_component.specs.Views.{argument_of, inline_export_of};
ghost use Rattle.wac_component.specs.PartViews.{part_of, parts_of_entries};
ghost use Rattle.wac_reader_parts.specs.private.Gives.{Gives};
ghost use Rattle.wac_reader_parts.specs.private.Fronts.{behind};
ghost use Rattle.wac_reader_parts.specs.private.Sections.{element_at};

use crate::bytes::{Read, byte, extern_name, name, number, text_fault, vector};
use crate::canons::canon;
use crate::core_types::core_type;
use crate::cores::core_instance;
use crate::declarations::{is_resource, type_def};
use crate::fault::ReadFault;
use crate::resources::resource;
use crate::sorts::{alias, description, sort};
use std::alloc::Global;
use wac_binary::Description;
use wac_component::{Argument, Entry, InlineExport, Part, TextFault};

/// A section whose contents are a vector.
#[derive(Clone, Copy)]
pub enum ElementKind {
    /// Core instances.
    CoreInstances,
    /// Core types.
    CoreTypes,
    /// Instances.
    Instances,
    /// Aliases.
    Aliases,
    /// Types.
    Types,
    /// Canonical functions.
    Canons,
    /// Imports.
    Imports,
    /// Exports.
    Exports,
}

impl<'a> Read<'a> for Argument<'a> {
    ghost Value = { Name × Sort × ℕ };

    ghost value = { argument_of };

    ghost reader = { sorted name_at };

    fn read(_alloc: Global, bytes: &'a [u8]) -> Result<(Argument<'a>, &'a [u8]), ReadFault> {
        let (name, rest) = name(bytes)?;
        let (sort, rest) = sort(rest)?;
        let (index, rest) = number(rest)?;
        Ok((Argument { name, sort, index }, rest))
    }
}

impl<'a> Read<'a> for InlineExport<'a> {
    ghost Value = { Name × Sort × ℕ };

    ghost value = { inline_export_of };

    ghost reader = { sorted extern_name_at };

    fn read(_alloc: Global, bytes: &'a [u8]) -> Result<(InlineExport<'a>, &'a [u8]), ReadFault> {
        let (name, rest) = extern_name(bytes)?;
        let (sort, rest) = sort(rest)?;
        let (index, rest) = number(rest)?;
        Ok((InlineExport { name, sort, index }, rest))
    }
}

/// Reads an instance.
#[tactic(auto, unfolding(wac_component::specs::Reading::instance_at))]
fn instance(alloc: Global, bytes: &[u8]) -> Result<(Part<'_>, &[u8]), ReadFault>
    ensures { Gives (λ x. (part_of x.0, x.1.now)) result (instance_at bytes.now) }
{
    let (b, rest) = byte(bytes)?;
    match b {
        0 => {
            let (component, rest) = number(rest)?;
            let (arguments, rest) = vector(alloc, rest)?;
            Ok((
                Part::Instantiate {
                    component,
                    arguments,
                },
                rest,
            ))
        }
        1 => {
            let (exports, rest) = vector(alloc, rest)?;
            Ok((Part::Exports(exports), rest))
        }
        _ => Err(text_fault(TextFault::UnknownByte, bytes.len())),
    }
}

/// Reads a type or a resource type. Types are nested in its declarations at most this deep.
fn defined(alloc: Global, depth: u32, bytes: &[u8]) -> Result<(Part<'_>, &[u8]), ReadFault>
    ensures { Gives (λ x. (part_of x.0, x.1.now)) result (defined_at depth bytes.now) }
{
    let (b, rest) = byte(bytes)?;
    if is_resource(b) {
        let (definition, rest) = resource(alloc, b, bytes.len(), rest)?;
        return Ok((Part::Resource(definition), rest));
    }
    let (definition, rest) = type_def(alloc, depth, b, rest)?;
    Ok((Part::Type(definition), rest))
}

/// Reads an import.
#[tactic(auto, unfolding(wac_component::specs::Reading::import_at))]
fn import(bytes: &[u8]) -> Result<(Part<'_>, &[u8]), ReadFault>
    ensures { Gives (λ x. (part_of x.0, x.1.now)) result (import_at bytes.now) }
{
    let (name, rest) = extern_name(bytes)?;
    let (described, rest) = description(rest)?;
    Ok((Part::Import(name, described), rest))
}

/// Reads the description that an export is given, if there is one.
#[tactic(auto, unfolding(wac_component::specs::Numbers::optional_at))]
fn ascription(bytes: &[u8]) -> Result<(Option<Description>, &[u8]), ReadFault>
    ensures { Gives (λ x. (x.0, x.1.now)) result (optional_at description_at bytes.now) }
{
    let (b, rest) = byte(bytes)?;
    match b {
        0 => Ok((None, rest)),
        1 => {
            let (described, rest) = description(rest)?;
            Ok((Some(described), rest))
        }
        _ => Err(text_fault(TextFault::UnknownByte, bytes.len())),
    }
}

/// Reads an export.
#[tactic(auto, unfolding(wac_component::specs::Reading::export_at))]
fn export(bytes: &[u8]) -> Result<(Part<'_>, &[u8]), ReadFault>
    ensures { Gives (λ x. (part_of x.0, x.1.now)) result (export_at bytes.now) }
{
    let (name, rest) = extern_name(bytes)?;
    let (sort, rest) = sort(rest)?;
    let (index, rest) = number(rest)?;
    let (ascription, rest) = ascription(rest)?;
    Ok((
        Part::Export {
            name,
            sort,
            index,
            ascription,
        },
        rest,
    ))
}

/// Reads an element of a section. Types are nested in declarations at most this deep.
fn element(
    alloc: Global,
    depth: u32,
    kind: ElementKind,
    bytes: &[u8],
) -> Result<(Part<'_>, &[u8]), ReadFault>
    ensures { Gives (λ x. (part_of x.0, x.1.now)) result (element_at depth kind bytes.now) }
{
    match kind {
        ElementKind::CoreInstances => {
            let (instance, rest) = core_instance(alloc, bytes)?;
            Ok((Part::CoreInstance(instance), rest))
        }
        ElementKind::CoreTypes => {
            let (definition, rest) = core_type(alloc, bytes)?;
            Ok((Part::CoreType(Box::new(alloc, definition)?), rest))
        }
        ElementKind::Instances => instance(alloc, bytes),
        ElementKind::Aliases => {
            let (alias, rest) = alias(bytes)?;
            Ok((Part::Alias(alias), rest))
        }
        ElementKind::Types => defined(alloc, depth, bytes),
        ElementKind::Canons => {
            let (canon, rest) = canon(alloc, bytes)?;
            Ok((Part::Canon(canon), rest))
        }
        ElementKind::Imports => import(bytes),
        ElementKind::Exports => export(bytes),
    }
}

/// Appends the elements of a section. The bytes end `end` bytes into the file.
#[tactic(auto, unfolding(wac_component::specs::Numbers::vector_at), using(crate::proofs::Passed::fails_after))]
pub fn elements<'a>(
    alloc: Global,
    depth: u32,
    kind: ElementKind,
    end: usize,
    entries: &mut Vec<Entry<Part<'a>>>,
    bytes: &'a [u8],
) -> Result<&'a [u8], ReadFault>
    ensures { Gives (λ rest. (parts_of_entries entries.new.items, rest.now)) result (behind (parts_of_entries entries.old.items) (vector_at (element_at depth kind) bytes.now)) }
{
    let (count, start) = number(bytes)?;
    let mut rest = start;
    for _ in 0..count {
        let at = end.saturating_sub(rest.len());
        let (part, after) = element(alloc, depth, kind, rest)?;
        entries.push(Entry { at, part })?;
        rest = after;
    }
    Ok(rest)
}
