//! Appends the declarations of core module types to a buffer.

ghost use Rattle.std.specs.Prelude.{◌≡◌, List, ℕ, ◌+◌, ◌*◌, ◌++◌, OnOk};
ghost use Rattle.wac_binary.specs.Bytes.{vector, core_ref, core_value, core_val, bit, there, number, table_bytes, memory_bytes, global_bytes, entity, module_decl_bytes};
ghost use Rattle.wac_binary.specs.private.declarations.ModuleView.{module_decl_of};

use crate::bytes::put::{put_indexed, put_text, put_unsigned};
use crate::core_types::{EntityType, GlobalType, MemoryType, TableType};
use std::alloc::AllocError;
use wac_types_shapes::{CoreRefType, CoreType};

/// A declaration of a core module type that is to be written. Its parts are borrowed.
#[derive(Clone, Copy)]
pub enum ModuleDeclRef<'a> {
    Func {
        params: &'a [CoreType],
        results: &'a [CoreType],
    },
    Import {
        module: &'a str,
        name: &'a str,
        item: EntityType,
    },
    Export {
        name: &'a str,
        item: EntityType,
    },
}

fn core_ref_byte(t: CoreRefType) -> u8
    ensures { result ≡ core_ref t }
{
    match t {
        CoreRefType::FuncRef => 0x70,
        CoreRefType::ExternRef => 0x6f,
    }
}

fn core_value_byte(t: CoreType) -> u8
    ensures { result ≡ core_value t }
{
    match t {
        CoreType::I32 => 0x7f,
        CoreType::I64 => 0x7e,
        CoreType::F32 => 0x7d,
        CoreType::F64 => 0x7c,
        CoreType::V128 => 0x7b,
        CoreType::Ref(t) => core_ref_byte(t),
    }
}

fn put_core_values(out: &mut Vec<u8>, types: &[CoreType]) -> Result<(), AllocError>
    ensures written { OnOk result (out.new.items ≡ out.old.items ++ vector core_val types.now) }
    ensures grows { (more : List ℕ) × (out.new.items ≡ out.old.items ++ more) }
{
    put_unsigned(out, types.len() as u64)?;
    for t in types {
        out.push(core_value_byte(*t))?;
    }
    Ok(())
}

fn put_number(out: &mut Vec<u8>, n: Option<u64>) -> Result<(), AllocError>
    ensures written { OnOk result (out.new.items ≡ out.old.items ++ number n) }
    ensures grows { (more : List ℕ) × (out.new.items ≡ out.old.items ++ more) }
{
    match n {
        None => Ok(()),
        Some(n) => put_unsigned(out, n),
    }
}

/// Returns the flags of limits: 1 for a maximum, 2 for shared, 4 for 64-bit, 8 for a page size.
fn limit_flags(shared: bool, is64: bool, maximum: Option<u64>, page: Option<u32>) -> u8
    ensures { result ≡ there maximum + 2 * bit shared + 4 * bit is64 + 8 * there page }
{
    let maximum = if maximum.is_some() { 1 } else { 0 };
    let shared = if shared { 2 } else { 0 };
    let is64 = if is64 { 4 } else { 0 };
    let page = if page.is_some() { 8 } else { 0 };
    maximum + shared + is64 + page
}

fn put_table(out: &mut Vec<u8>, t: &TableType) -> Result<(), AllocError>
    ensures written { OnOk result (out.new.items ≡ out.old.items ++ table_bytes t.now) }
    ensures grows { (more : List ℕ) × (out.new.items ≡ out.old.items ++ more) }
{
    out.push(core_ref_byte(t.element_type))?;
    out.push(limit_flags(t.shared, t.table64, t.maximum, None))?;
    put_unsigned(out, t.minimum)?;
    put_number(out, t.maximum)
}

fn put_memory(out: &mut Vec<u8>, t: &MemoryType) -> Result<(), AllocError>
    ensures written { OnOk result (out.new.items ≡ out.old.items ++ memory_bytes t.now) }
    ensures grows { (more : List ℕ) × (out.new.items ≡ out.old.items ++ more) }
{
    out.push(limit_flags(t.shared, t.memory64, t.maximum, t.page_size_log2))?;
    put_unsigned(out, t.minimum)?;
    put_number(out, t.maximum)?;
    match t.page_size_log2 {
        None => Ok(()),
        Some(n) => put_unsigned(out, u64::from(n)),
    }
}

fn put_global(out: &mut Vec<u8>, t: &GlobalType) -> Result<(), AllocError>
    ensures written { OnOk result (out.new.items ≡ out.old.items ++ global_bytes t.now) }
    ensures grows { (more : List ℕ) × (out.new.items ≡ out.old.items ++ more) }
{
    out.push(core_value_byte(t.val_type))?;
    let mutable = if t.mutable { 1 } else { 0 };
    let shared = if t.shared { 2 } else { 0 };
    out.push(mutable + shared)?;
    Ok(())
}

fn put_entity(out: &mut Vec<u8>, item: &EntityType) -> Result<(), AllocError>
    ensures written { OnOk result (out.new.items ≡ out.old.items ++ entity item.now) }
    ensures grows { (more : List ℕ) × (out.new.items ≡ out.old.items ++ more) }
{
    match item {
        EntityType::Function(i) => put_indexed(out, 0, *i),
        EntityType::Table(t) => {
            out.push(1)?;
            put_table(out, t)
        }
        EntityType::Memory(t) => {
            out.push(2)?;
            put_memory(out, t)
        }
        EntityType::Global(t) => {
            out.push(3)?;
            put_global(out, t)
        }
        EntityType::Tag(i) => {
            out.push(4)?;
            put_indexed(out, 0, *i)
        }
    }
}

/// Appends a declaration of a core module type, and fails only if out of memory.
pub fn put_module_decl(out: &mut Vec<u8>, d: &ModuleDeclRef<'_>) -> Result<(), AllocError>
    ensures written { OnOk result (out.new.items ≡ out.old.items ++ module_decl_bytes (module_decl_of d.now)) }
    ensures grows { (more : List ℕ) × (out.new.items ≡ out.old.items ++ more) }
{
    match d {
        ModuleDeclRef::Func { params, results } => {
            out.push(1)?;
            out.push(0x60)?;
            put_core_values(out, params)?;
            put_core_values(out, results)
        }
        ModuleDeclRef::Import { module, name, item } => {
            out.push(0)?;
            put_text(out, module)?;
            put_text(out, name)?;
            put_entity(out, item)
        }
        ModuleDeclRef::Export { name, item } => {
            out.push(3)?;
            put_text(out, name)?;
            put_entity(out, item)
        }
    }
}
