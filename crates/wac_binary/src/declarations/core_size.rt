//! Sizes in bytes of the declarations of core module types, known before anything is written.

ghost use Rattle.std.specs.Prelude.{◌≡◌, ◌≤◌, ◌^◌, length, IfSome};
ghost use Rattle.wac_binary.specs.Bytes.{vector, core_val, number, table_bytes, memory_bytes, entity, module_decl_bytes};
ghost use Rattle.wac_binary.specs.declared.core_types.EntityType.TheVariants.{Table, Memory};
ghost use Rattle.wac_binary.specs.Format.{IsU32, IsU64, EntityIsInFormat, ModuleDeclIsInFormat};
ghost use Rattle.wac_binary.specs.private.declarations.ModuleView.{module_decl_of};

use crate::core_types::{EntityType, MemoryType, TableType};
use crate::declarations::core_decl::ModuleDeclRef;
use crate::declarations::size::{index_size, text_size, unsigned_size};
use wac_types_shapes::CoreType;

fn number_size(n: u64) -> u128
    ensures is { result ≡ length (number (Some n)) }
    ensures small { result ≤ 2 ^ 64 }
    ensures in_format { IsU64 n }
{
    u128::from(unsigned_size(n))
}

fn optional_number_size(n: Option<u64>) -> u128
    ensures is { result ≡ length (number n) }
    ensures small { result ≤ 2 ^ 64 }
    ensures in_format { IfSome n IsU64 }
{
    match n {
        None => 0,
        Some(n) => number_size(n),
    }
}

fn optional_index_size(n: Option<u32>) -> u128
    ensures is { result ≡ length (number n) }
    ensures small { result ≤ 2 ^ 32 }
    ensures in_format { IfSome n IsU32 }
{
    match n {
        None => 0,
        Some(n) => index_size(n),
    }
}

fn core_values_size(types: &[CoreType]) -> u128
    ensures is { result ≡ length (vector core_val types.now) }
    ensures small { result ≤ 2 ^ 66 }
{
    u128::from(unsigned_size(types.len() as u64)) + types.len() as u128
}

fn table_size(t: &TableType) -> u128
    ensures is { result ≡ length (table_bytes t.now) }
    ensures small { result ≤ 2 ^ 66 }
    ensures in_format { EntityIsInFormat (Table t.now) }
{
    2 + number_size(t.minimum) + optional_number_size(t.maximum)
}

fn memory_size(t: &MemoryType) -> u128
    ensures is { result ≡ length (memory_bytes t.now) }
    ensures small { result ≤ 2 ^ 67 }
    ensures in_format { EntityIsInFormat (Memory t.now) }
{
    1 + number_size(t.minimum)
        + optional_number_size(t.maximum)
        + optional_index_size(t.page_size_log2)
}

fn entity_size(item: &EntityType) -> u128
    ensures is { result ≡ length (entity item.now) }
    ensures small { result ≤ 2 ^ 68 }
    ensures in_format { EntityIsInFormat item.now }
{
    match item {
        EntityType::Function(i) => 1 + index_size(*i),
        EntityType::Table(t) => 1 + table_size(t),
        EntityType::Memory(t) => 1 + memory_size(t),
        EntityType::Global(_) => 3,
        EntityType::Tag(i) => 2 + index_size(*i),
    }
}

/// Returns the size of a declaration of a core module type.
pub fn module_decl_size(d: &ModuleDeclRef<'_>) -> u128
    ensures is { result ≡ length (module_decl_bytes (module_decl_of d.now)) }
    ensures small { result ≤ 2 ^ 69 }
    ensures in_format { ModuleDeclIsInFormat (module_decl_of d.now) }
{
    match d {
        ModuleDeclRef::Func { params, results } => {
            2 + core_values_size(params) + core_values_size(results)
        }
        ModuleDeclRef::Import { module, name, item } => {
            1 + text_size(module) + text_size(name) + entity_size(item)
        }
        ModuleDeclRef::Export { name, item } => 1 + text_size(name) + entity_size(item),
    }
}
