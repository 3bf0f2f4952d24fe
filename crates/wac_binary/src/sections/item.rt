//! Items that are to be written. Their parts are borrowed.
//!
//! A call fails only if out of memory, unless it says otherwise. The buffer may have grown then, but keeps what it had.

ghost use Rattle.std.specs.Prelude.{◌≡◌, List, ℕ, ◌++◌, ◌<◌, ◌^◌, length, OnOk, IfOk, IfErr};
ghost use Rattle.wac_binary.specs.Bytes.{alone, item_bytes, section_id as id_of};
ghost use Rattle.wac_binary.specs.Fits.{SectionFits};
ghost use Rattle.wac_binary.specs.Format.{ItemIsInFormat};
ghost use Rattle.wac_binary.specs.private.sections.ItemView.{item_of, alone_of};
ghost use Rattle.wac_binary.specs.declared.fault.BinaryFault.TheVariants.{TooLarge};

use crate::bytes::put::{put_argument, put_arguments, put_named, put_text, put_unsigned};
use crate::declarations::decl::{AliasRef, TypeRef, put_alias, put_type};
use crate::declarations::module_type::ModuleType;
use crate::fault::BinaryFault;
use crate::sections::item_size::alone_item_size;
use crate::sorts::{Description, Sort};
use std::alloc::AllocError;

/// An item whose section can contain several.
#[derive(Clone, Copy)]
pub enum ItemRef<'a> {
    CoreModule(&'a ModuleType),
    Instance {
        component: u32,
        arguments: &'a [(&'a str, Sort, u32)],
    },
    Alias(AliasRef<'a>),
    Type(TypeRef<'a>),
    Import(&'a str, Description),
    Export {
        name: &'a str,
        sort: Sort,
        index: u32,
    },
}

/// Appends an item.
#[inline(always)]
pub fn put_item(out: &mut Vec<u8>, item: &ItemRef<'_>) -> Result<(), AllocError>
    ensures written { OnOk result (out.new.items ≡ out.old.items ++ item_bytes (item_of item.now)) }
    ensures grows { (more : List ℕ) × (out.new.items ≡ out.old.items ++ more) }
{
    match *item {
        ItemRef::CoreModule(t) => t.put(out),
        ItemRef::Instance {
            component,
            arguments,
        } => {
            out.push(0)?;
            put_unsigned(out, u64::from(component))?;
            put_arguments(out, arguments)
        }
        ItemRef::Alias(a) => put_alias(out, a),
        ItemRef::Type(t) => put_type(out, t),
        ItemRef::Import(name, d) => put_named(out, name, d),
        ItemRef::Export { name, sort, index } => {
            out.push(0)?;
            put_argument(out, name, sort, index)?;
            out.push(0)?;
            Ok(())
        }
    }
}

/// Returns the id of the section that contains an item.
#[inline(always)]
pub fn section_id(item: &ItemRef<'_>) -> u8
    ensures { result ≡ id_of (item_of item.now) }
{
    match item {
        ItemRef::CoreModule(_) => 3,
        ItemRef::Instance { .. } => 5,
        ItemRef::Alias(_) => 6,
        ItemRef::Type(_) => 7,
        ItemRef::Import(..) => 10,
        ItemRef::Export { .. } => 11,
    }
}

/// An item that has a section of its own.
#[derive(Clone, Copy)]
pub enum AloneRef<'a> {
    Component(&'a [u8]),
    Custom { name: &'a str, bytes: &'a [u8] },
}

/// Appends an item that has a section of its own.
pub fn put_alone_item(out: &mut Vec<u8>, item: &AloneRef<'_>) -> Result<(), AllocError>
    ensures written { OnOk result (out.new.items ≡ out.old.items ++ item_bytes (alone_of item.now)) }
    ensures grows { (more : List ℕ) × (out.new.items ≡ out.old.items ++ more) }
{
    match *item {
        AloneRef::Component(bytes) => out.extend_from_slice(bytes),
        AloneRef::Custom { name, bytes } => {
            put_text(out, name)?;
            out.extend_from_slice(bytes)
        }
    }
}

/// Returns the id of an item's own section.
pub fn alone_id(item: &AloneRef<'_>) -> u8
    ensures { result ≡ id_of (alone_of item.now) }
{
    match item {
        AloneRef::Component(_) => 4,
        AloneRef::Custom { .. } => 0,
    }
}

/// Returns the size in bytes of an item that has a section of its own. Its index space has `indexes` indexes.
///
/// # Errors
/// [`TooLarge`](BinaryFault::TooLarge) if its index or its section would not fit in 32 bits.
pub fn alone_size(indexes: u64, item: &AloneRef<'_>) -> Result<u64, BinaryFault>
    ensures size { IfOk result (λ n. n ≡ length (item_bytes (alone_of item.now))) }
    ensures room { OnOk result ((indexes < 2 ^ 32) × SectionFits (alone (alone_of item.now))) }
    ensures too_large { IfErr result (λ e. (e ≡ TooLarge) × ¬ ((indexes < 2 ^ 32) × SectionFits (alone (alone_of item.now)))) }
    ensures in_format { ItemIsInFormat (alone_of item.now) }
{
    let size = alone_item_size(item);
    if indexes < 1 << 32 && size < 1 << 32 {
        Ok(size as u64)
    } else {
        Err(BinaryFault::TooLarge)
    }
}
