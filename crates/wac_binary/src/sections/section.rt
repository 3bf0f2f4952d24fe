//! The finished sections of a component, and the open section, to which further items of its id can be added.
//!
//! The size of an item is checked before it is written. The first item of a section is written to a spare buffer,
//! which then becomes the open section. Other items are written to the open section, and cut off if out of memory.

ghost use Rattle.std.specs.Prelude.{◌≡◌, List, ℕ, ◌+◌, ◌<◌, ◌≤◌, ◌^◌, ◌++◌, length, OnOk, OnErr, IfOk, IfSome, ◌↔◌, IsTrue};
ghost use Rattle.std.specs.List.{flat_map};
ghost use Rattle.wac_binary.specs.Bytes.{alone, item_bytes, section_bytes, section_id as id_of, is_shared as shared};
ghost use Rattle.wac_binary.specs.Fits.{SectionFits};
ghost use Rattle.wac_binary.specs.Format.{ItemIsInFormat};
ghost use Rattle.wac_binary.specs.private.sections.ItemView.{item_of, alone_of};
ghost use Rattle.wac_binary.specs.private.LastSection.{one, before, next_section};
ghost use Rattle.wac_binary.specs.private.sections.OpenSection.{section, section_of, begun};

use crate::bytes::put::put_unsigned;
use crate::declarations::size::unsigned_size;
use crate::sections::item::{AloneRef, ItemRef, alone_id, put_alone_item, put_item, section_id};
use crate::sections::item_size::item_size;
use std::alloc::AllocError;
use std::mem::swap;

const PREAMBLE: [u8; 8] = [0x00, 0x61, 0x73, 0x6d, 0x0d, 0x00, 0x01, 0x00];

/// The open section: its id and the number of its items.
#[derive(Clone, Copy, Debug)]
pub struct Open {
    pub id: u8,
    pub count: u64,
}

/// Returns whether sections of this id contain a vector of items.
fn is_shared(id: u8) -> bool
    ensures { result ≡ shared id }
{
    id != 0 && id != 4
}

/// Returns whether the section `last` fits 32-bit sizes with items of `before` and `more` bytes.
#[inline(always)]
#[tactic(auto, using(crate::specs::private::LebLaws::leb_length, std::proofs::lemmas::Grind::common_steps))]
fn fits(last: Open, before: u64, more: u128) -> bool
    requires count { last.count ≤ 2 ^ 32 }
    requires before { before < 2 ^ 32 }
    ensures { (things : List ℕ) → length things ≡ before + more → IsTrue result ↔ SectionFits (section last things) }
{
    if more >= 1 << 32 {
        return false;
    }
    let size = before + more as u64;
    // A number has at most one byte more than its value, so the size of the count matters only near the limit.
    if last.count + size < (1 << 32) - 1 {
        return true;
    }
    let head = if is_shared(last.id) {
        unsigned_size(last.count)
    } else {
        0
    };
    last.count < 1 << 32 && head + size < 1 << 32
}

/// Returns whether an item's index and its section fit in 32 bits. Its index space has `indexes` indexes.
#[inline(always)]
pub fn has_room(indexes: u64, last: &Option<Open>, things: &[u8], item: &ItemRef<'_>) -> bool
    requires { IfSome (section_of last.now things.now) SectionFits }
    ensures room { IsTrue result ↔ ((indexes < 2 ^ 32) × SectionFits (next_section (section_of last.now things.now) (item_of item.now))) }
    ensures in_format { ItemIsInFormat (item_of item.now) }
{
    let section_has_room = section_has_room(last, things, item);
    indexes < 1 << 32 && section_has_room
}

/// Returns whether the section that an item is added to fits 32-bit sizes.
#[inline(always)]
fn section_has_room(last: &Option<Open>, things: &[u8], item: &ItemRef<'_>) -> bool
    requires { IfSome (section_of last.now things.now) SectionFits }
    ensures room { IsTrue result ↔ SectionFits (next_section (section_of last.now things.now) (item_of item.now)) }
    ensures in_format { ItemIsInFormat (item_of item.now) }
{
    let id = section_id(item);
    let size = item_size(item);
    match *last {
        Some(o) if is_shared(o.id) && o.id == id => {
            let more = Open {
                id,
                count: o.count + 1,
            };
            fits(more, things.len() as u64, size)
        }
        _ => fits(Open { id, count: 1 }, 0, size),
    }
}

/// Writes the preamble if nothing is written yet, and fails only if out of memory. An error leaves `bytes` unchanged.
pub fn begin(bytes: &mut Vec<u8>) -> Result<(), AllocError>
    ensures begun { OnOk result (bytes.new.items ≡ begun bytes.old.items) }
    ensures refused { OnErr result (bytes.new.items ≡ bytes.old.items) }
{
    if bytes.is_empty() {
        bytes.extend_from_slice(&PREAMBLE)
    } else {
        Ok(())
    }
}

/// Appends a section.
fn put_section(out: &mut Vec<u8>, last: Open, things: &[u8]) -> Result<(), AllocError>
    requires { SectionFits (section last things.now) }
    ensures written { OnOk result (out.new.items ≡ out.old.items ++ section_bytes (section last things.now)) }
    ensures grows { (more : List ℕ) × (out.new.items ≡ out.old.items ++ more) }
{
    out.push(last.id)?;
    if is_shared(last.id) {
        put_unsigned(out, unsigned_size(last.count) + things.len() as u64)?;
        put_unsigned(out, last.count)?;
    } else {
        put_unsigned(out, things.len() as u64)?;
    }
    out.extend_from_slice(things)
}

/// Appends the open section, if there is one, and fails only if out of memory.
pub fn put_open(out: &mut Vec<u8>, last: Option<Open>, things: &[u8]) -> Result<(), AllocError>
    requires { IfSome (section_of last things.now) SectionFits }
    ensures written { OnOk result (out.new.items ≡ out.old.items ++ flat_map section_bytes (one (section_of last things.now))) }
    ensures grows { (more : List ℕ) × (out.new.items ≡ out.old.items ++ more) }
{
    match last {
        None => Ok(()),
        Some(o) => put_section(out, o, things),
    }
}

/// Appends the open section to the finished ones, or leaves them unchanged.
fn close(bytes: &mut Vec<u8>, last: Option<Open>, things: &[u8]) -> Result<(), AllocError>
    requires { IfSome (section_of last things.now) SectionFits }
    ensures written { OnOk result (bytes.new.items ≡ bytes.old.items ++ flat_map section_bytes (one (section_of last things.now))) }
    ensures refused { OnErr result (bytes.new.items ≡ bytes.old.items) }
{
    let from = bytes.len();
    match put_open(bytes, last, things) {
        Ok(()) => Ok(()),
        Err(e) => {
            bytes.truncate(from);
            Err(e)
        }
    }
}

/// Appends an item to a section and returns the new number of its items, or leaves the section unchanged.
#[inline(always)]
fn join(things: &mut Vec<u8>, last: Open, item: &ItemRef<'_>) -> Result<u64, AllocError>
    requires { last.count < 2 ^ 32 }
    ensures counted { IfOk result (λ n. n ≡ last.count + 1) }
    ensures written { OnOk result (things.new.items ≡ things.old.items ++ item_bytes (item_of item.now)) }
    ensures refused { OnErr result (things.new.items ≡ things.old.items) }
{
    let from = things.len();
    match put_item(things, item) {
        Ok(()) => Ok(last.count + 1),
        Err(e) => {
            things.truncate(from);
            Err(e)
        }
    }
}

/// Writes an item to the open section, or to a new one, and returns the number of items in the open section.
///
/// It fails only if out of memory, and then leaves `bytes` and `things` unchanged.
#[inline(always)]
pub fn put_shared(
    bytes: &mut Vec<u8>,
    things: &mut Vec<u8>,
    next: &mut Vec<u8>,
    last: &Option<Open>,
    item: &ItemRef<'_>,
) -> Result<u64, AllocError>
    requires { IfSome (section_of last.now things.old.items) SectionFits }
    ensures bytes { OnOk result (bytes.new.items ≡ bytes.old.items ++ flat_map section_bytes (before (section_of last.now things.old.items) (item_of item.now))) }
    ensures opened { IfOk result (λ n. section (record { id = id_of (item_of item.now); count = n }) things.new.items ≡ next_section (section_of last.now things.old.items) (item_of item.now)) }
    ensures refused_bytes { OnErr result (bytes.new.items ≡ bytes.old.items) }
    ensures refused_things { OnErr result (things.new.items ≡ things.old.items) }
{
    let id = section_id(item);
    match *last {
        Some(o) if is_shared(o.id) && o.id == id => join(things, o, item),
        _ => {
            next.clear();
            let first = join(next, Open { id, count: 0 }, item)?;
            close(bytes, *last, things)?;
            swap(things, next);
            Ok(first)
        }
    }
}

fn put_alone_sections(
    out: &mut Vec<u8>,
    last: Option<Open>,
    things: &[u8],
    item: &AloneRef<'_>,
    size: u64,
) -> Result<(), AllocError>
    requires last { IfSome (section_of last things.now) SectionFits }
    requires size { size ≡ length (item_bytes (alone_of item.now)) }
    ensures written { OnOk result (out.new.items ≡ out.old.items ++ (flat_map section_bytes (one (section_of last things.now)) ++ section_bytes (alone (alone_of item.now)))) }
    ensures grows { (more : List ℕ) × (out.new.items ≡ out.old.items ++ more) }
{
    put_open(out, last, things)?;
    out.push(alone_id(item))?;
    put_unsigned(out, size)?;
    put_alone_item(out, item)
}

/// Closes the open section, and writes an item of `size` bytes in a section of its own.
///
/// It fails only if out of memory, and then leaves `bytes` unchanged.
pub fn put_alone(
    bytes: &mut Vec<u8>,
    last: Option<Open>,
    things: &[u8],
    item: &AloneRef<'_>,
    size: u64,
) -> Result<(), AllocError>
    requires last { IfSome (section_of last things.now) SectionFits }
    requires size { size ≡ length (item_bytes (alone_of item.now)) }
    ensures bytes { OnOk result (bytes.new.items ≡ bytes.old.items ++ (flat_map section_bytes (one (section_of last things.now)) ++ section_bytes (alone (alone_of item.now)))) }
    ensures refused { OnErr result (bytes.new.items ≡ bytes.old.items) }
{
    let from = bytes.len();
    match put_alone_sections(bytes, last, things, item, size) {
        Ok(()) => Ok(()),
        Err(e) => {
            bytes.truncate(from);
            Err(e)
        }
    }
}
