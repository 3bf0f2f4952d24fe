//! Components: their sections, nested components, and the door of the reader.

ghost use Rattle.std.specs.Prelude.{◌≡◌, ◌≤◌, ◌++◌, ◌∷◌, [], IfErr, Ok, length};
ghost use Rattle.wac_component.specs.declared.fault.TextFault.TheVariants.{UnknownByte};
ghost use Rattle.wac_component.specs.Parts.{custom_part, parts};
ghost use Rattle.wac_component.specs.Reader.{all_bytes, chosen, fails, made2, whole};
ghost use Rattle.wac_component.specs.Numbers.{name_at, vector_at};
ghost use Rattle.wac_component.specs.Reading.{module_at, preamble_at, section_at, sections, parts_at, parts_of};
ghost use Rattle.wac_component.specs.Gives.{GivesParts};
ghost use Rattle.wac_component.specs.PartViews.{part_of as part_view, parts_of_entries};
ghost use Rattle.wac_reader_parts.specs.private.Gives.{Gives};
ghost use Rattle.wac_reader_parts.specs.private.Fronts.{behind, all_behind};
ghost use Rattle.wac_reader_parts.specs.private.Sections.{element_at};

use crate::bytes::{byte, name, sized, text_fault};
use crate::fault::ReadFault;
use crate::sections::{ElementKind, elements};
use std::alloc::Global;
use wac_component::{Entry, Feature, Part, Parts, ReadError, ReadReason, TextFault};

/// The first bytes of a component.
const PREAMBLE: [u8; 8] = [0x00, 0x61, 0x73, 0x6d, 0x0d, 0x00, 0x01, 0x00];

/// The first bytes of a core module.
const MODULE_PREAMBLE: [u8; 8] = [0x00, 0x61, 0x73, 0x6d, 0x01, 0x00, 0x00, 0x00];

/// The depth to which components, and types in types, are nested at most.
const MAX_DEPTH: u32 = 100;

/// Reads the preamble of a component.
#[tactic(auto, unfolding(wac_component::specs::Reading::preamble_at))]
fn preamble(bytes: &[u8]) -> Result<&[u8], ReadFault>
    ensures { Gives (λ rest. (tt, rest.now)) result (preamble_at bytes.now) }
{
    if let Some(rest) = bytes.strip_prefix(&PREAMBLE) {
        return Ok(rest);
    }
    if bytes.strip_prefix(&MODULE_PREAMBLE).is_some() {
        return Err(text_fault(TextFault::Unsupported(Feature::CoreModule), bytes.len()));
    }
    Err(text_fault(TextFault::NoPreamble, bytes.len()))
}

/// Reads a custom section.
fn custom(bytes: &[u8]) -> Result<Part<'_>, ReadFault>
    ensures { Gives part_view result (whole (made2 custom_part name_at all_bytes) bytes.now) }
{
    let (name, contents) = name(bytes)?;
    Ok(Part::Custom(name, contents))
}

/// Reads a core module.
#[tactic(auto, unfolding(wac_component::specs::Reading::module_at))]
fn core_module(bytes: &[u8]) -> Result<Part<'_>, ReadFault>
    ensures { Gives part_view result (whole module_at bytes.now) }
{
    if bytes.strip_prefix(&MODULE_PREAMBLE).is_some() {
        return Ok(Part::CoreModule(bytes));
    }
    Err(text_fault(TextFault::NoPreamble, bytes.len()))
}

/// Appends the elements of a section, which are all of its contents. They end `end` bytes into the file.
fn all_elements<'a>(
    alloc: Global,
    depth: u32,
    kind: ElementKind,
    end: usize,
    entries: &mut Vec<Entry<Part<'a>>>,
    bytes: &'a [u8],
) -> Result<(), ReadFault>
    ensures { Gives (λ u. parts_of_entries entries.new.items) result (all_behind (parts_of_entries entries.old.items) (whole (vector_at (element_at depth kind)) bytes.now)) }
{
    let rest = elements(alloc, depth, kind, end, entries, bytes)?;
    if rest.is_empty() {
        return Ok(());
    }
    Err(text_fault(TextFault::Leftover, rest.len()))
}

/// Appends a part that is a whole section.
fn add<'a>(at: usize, entries: &mut Vec<Entry<Part<'a>>>, part: Part<'a>) -> Result<(), ReadFault>
    ensures { Gives (λ u. parts_of_entries entries.new.items) result (Ok (parts_of_entries entries.old.items ++ part_view part.entry ∷ [])) }
{
    entries.push(Entry { at, part })?;
    Ok(())
}

/// Appends the parts of a section from its contents, which end `end` bytes into the file. A fault of the whole section
/// has `left` bytes.
#[cycle(component)]
fn contents<'a>(
    alloc: Global,
    depth: u32,
    id: u8,
    left: usize,
    end: usize,
    entries: &mut Vec<Entry<Part<'a>>>,
    bytes: &'a [u8],
) -> Result<(), ReadFault>
    ensures { Gives (λ u. parts_of_entries entries.new.items) result (all_behind (parts_of_entries entries.old.items) (whole (chosen (fails UnknownByte) (sections depth (parts_at depth)) id) bytes.now)) }
{
    let at = end.saturating_sub(bytes.len());
    match id {
        0 => {
            let part = custom(bytes)?;
            add(at, entries, part)
        }
        1 => {
            let part = core_module(bytes)?;
            add(at, entries, part)
        }
        2 => all_elements(
            alloc,
            depth,
            ElementKind::CoreInstances,
            end,
            entries,
            bytes,
        ),
        3 => all_elements(alloc, depth, ElementKind::CoreTypes, end, entries, bytes),
        4 => {
            let inner = component(alloc, depth, end, bytes)?;
            add(at, entries, Part::Component(inner))
        }
        5 => all_elements(alloc, depth, ElementKind::Instances, end, entries, bytes),
        6 => all_elements(alloc, depth, ElementKind::Aliases, end, entries, bytes),
        7 => all_elements(alloc, depth, ElementKind::Types, end, entries, bytes),
        8 => all_elements(alloc, depth, ElementKind::Canons, end, entries, bytes),
        9 => Err(text_fault(TextFault::Unsupported(Feature::Values), left)),
        10 => all_elements(alloc, depth, ElementKind::Imports, end, entries, bytes),
        11 => all_elements(alloc, depth, ElementKind::Exports, end, entries, bytes),
        12 => Err(text_fault(TextFault::Unsupported(Feature::Values), left)),
        _ => Err(text_fault(TextFault::UnknownByte, left)),
    }
}

/// Appends the parts of a section, and returns the bytes after it. The bytes end `end` bytes into the file.
#[cycle(component)]
#[tactic(auto, unfolding(wac_component::specs::Reading::section_at))]
fn section<'a>(
    alloc: Global,
    depth: u32,
    end: usize,
    entries: &mut Vec<Entry<Part<'a>>>,
    bytes: &'a [u8],
) -> Result<&'a [u8], ReadFault>
    ensures { Gives (λ rest. (parts_of_entries entries.new.items, rest.now)) result (behind (parts_of_entries entries.old.items) (section_at (sections depth (parts_at depth)) bytes.now)) }
{
    let (id, rest) = byte(bytes)?;
    let (inside, after) = sized(rest)?;
    let left = bytes.len().saturating_sub(after.len());
    let inner_end = end.saturating_sub(after.len());
    match contents(alloc, depth, id, left, inner_end, entries, inside) {
        Ok(()) => Ok(after),
        Err(fault) => Err(fault.before(after.len())),
    }
}

/// Reads the parts of a component. It ends `end` bytes into the file.
#[cycle(component)]
#[tactic(auto, unfolding(wac_component::specs::Reading::parts_at))]
fn component(
    alloc: Global,
    depth: u32,
    end: usize,
    bytes: &[u8],
) -> Result<Vec<Entry<Part<'_>>>, ReadFault>
    ensures { Gives (λ v. parts (parts_of_entries v.items)) result (parts_at depth bytes.now) }
{
    if depth == 0 {
        return Err(text_fault(TextFault::Unsupported(Feature::TooDeep), bytes.len()));
    }
    let mut rest = preamble(bytes)?;
    let mut entries = Vec::new(alloc);
    while !rest.is_empty() {
        rest = section(alloc, depth - 1, end, &mut entries, rest)?;
    }
    Ok(entries)
}

/// Reads the parts of a component from its bytes.
///
/// Nothing is copied: names, core modules and custom sections are borrowed from the bytes. Components, and types in
/// types, are nested at most 100 deep.
///
/// # Errors
/// - [`Text`](ReadReason::Text) if the bytes are not the text of a component, or have what is not supported. Of several
///   faults it is the leftmost.
/// - [`OutOfMemory`](ReadReason::OutOfMemory), which says nothing of the bytes.
#[tactic(auto, unfolding(wac_component::specs::Reading::parts_of))]
pub fn parts(alloc: Global, bytes: &[u8]) -> Result<Parts<'_>, ReadError>
    ensures read { GivesParts result (parts_of bytes.now) }
    ensures place { IfErr result (λ e. e.at ≤ length bytes.now) }
{
    match component(alloc, MAX_DEPTH, bytes.len(), bytes) {
        Ok(entries) => Ok(Parts { entries }),
        Err(ReadFault::Memory) => Err(ReadError {
            at: bytes.len(),
            reason: ReadReason::OutOfMemory,
        }),
        Err(ReadFault::Text { fault, left }) => Err(ReadError {
            at: bytes.len().saturating_sub(left),
            reason: ReadReason::Text(fault),
        }),
    }
}
