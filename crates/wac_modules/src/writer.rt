//! The writer of core module types.

ghost use Rattle.std.specs.Prelude.{◌≡◌, ◌++◌, ◌∷◌, [], ◌+◌, ◌*◌, ◌≤◌, ◌^◌, length, Err as Refused, IfOk, OnOk};
ghost use Rattle.wac_types_shapes.specs.declared.shapes.core_types.CoreExtern.TheVariants as core;
ghost use Rattle.wac_types_weight.specs.Weight.{module_parts};
ghost use Rattle.wac_binary.specs.Bytes.{module_bytes};
ghost use Rattle.wac_binary.specs.Fits.{ModuleFits};
ghost use Rattle.wac_binary.specs.Indexes.{function_types};
ghost use Rattle.wac_binary.specs.Items.{module_func};
ghost use Rattle.wac_binary.specs.declared.fault.BinaryFault.TheVariants.{TooLarge};
ghost use Rattle.wac_modules.specs.private.Declarations.{entity, type_before, import_of, export_of, declarations_of, MeansModule};
ghost use Rattle.wac_modules.specs.private.Limits.{HasLimits};

use crate::limits::{long_law, short_law};
use std::alloc::Global;
use wac_binary::{BinaryFault, EntityType, GlobalType, MemoryType, TableType};
use wac_types_collection::{CoreExtern, CoreFuncType, CoreRefType, CoreType, ModuleType};

/// Returns the type of a core module as it is written: its imports, then its exports, in order. Before each function and
/// each tag is a function type of its own.
///
/// # Errors
/// - [`TooLarge`](BinaryFault::TooLarge) if the declarations do not fit 32-bit sizes.
/// - [`OutOfMemory`](BinaryFault::OutOfMemory).
pub fn module_type(alloc: Global, held: &ModuleType) -> Result<wac_binary::ModuleType, BinaryFault>
    ensures declared { IfOk result (λ t. t ≡ declarations_of held.now) }
    ensures means { IfOk result (MeansModule held.now) }
    ensures fits { OnOk result (ModuleFits (declarations_of held.now)) }
    ensures too_large { result ≡ Refused TooLarge → ModuleFits (declarations_of held.now) → ⊥ }
    ensures small { IfOk result (λ t. length (module_bytes t) ≤ 6 + 30 * module_parts held.now) }
    ensures heavy { result ≡ Refused TooLarge → 2 ^ 32 ≤ 30 * module_parts held.now }
{
    held.imports.law();
    held.exports.law();
    let mut written = wac_binary::ModuleType::new(alloc);
    for i in 0..held.imports.len() {
        let ((source, name), item) = held.imports.entry_at(i);
        declare_import(&mut written, source, name, item)?;
    }
    for j in 0..held.exports.len() {
        let (name, item) = held.exports.entry_at(j);
        declare_export(&mut written, name, item)?;
    }
    written.fit_law();
    Ok(written)
}

/// Declares an import, behind the function type that it needs.
fn declare_import(
    written: &mut wac_binary::ModuleType,
    source: &str,
    name: &str,
    item: &CoreExtern,
) -> Result<(), BinaryFault>
    ensures declared { OnOk result (written.new ≡ written.old ++ import_of (function_types written.old) ((source.now, name.now), item.now)) }
    ensures too_large { result ≡ Refused TooLarge → ModuleFits (written.old ++ import_of (function_types written.old) ((source.now, name.now), item.now)) → ⊥ }
    ensures limits { HasLimits item.now }
{
    let entity = entity_type(written, item)?;
    written.import(source, name, entity)
}

/// Declares an export, behind the function type that it needs.
fn declare_export(
    written: &mut wac_binary::ModuleType,
    name: &str,
    item: &CoreExtern,
) -> Result<(), BinaryFault>
    ensures declared { OnOk result (written.new ≡ written.old ++ export_of (function_types written.old) (name.now, item.now)) }
    ensures too_large { result ≡ Refused TooLarge → ModuleFits (written.old ++ export_of (function_types written.old) (name.now, item.now)) → ⊥ }
    ensures limits { HasLimits item.now }
{
    let entity = entity_type(written, item)?;
    written.export(name, entity)
}

/// Declares the function type that an item needs, where it needs one, and answers how the item is described.
fn entity_type(
    written: &mut wac_binary::ModuleType,
    item: &CoreExtern,
) -> Result<EntityType, BinaryFault>
    ensures described { IfOk result (λ x. x ≡ entity (function_types written.old) item.now) }
    ensures declared { OnOk result (written.new ≡ written.old ++ type_before item.now) }
    ensures too_large { result ≡ Refused TooLarge → ModuleFits (written.old ++ type_before item.now) → ⊥ }
    ensures limits { HasLimits item.now }
{
    match item {
        CoreExtern::Func(func) => Ok(EntityType::Function(func_type(written, func)?)),
        CoreExtern::Tag(func) => Ok(EntityType::Tag(func_type(written, func)?)),
        CoreExtern::Table {
            element_type,
            initial,
            maximum,
            table64,
            shared,
        } => Ok(table(*element_type, *table64, *initial, *maximum, *shared)),
        CoreExtern::Memory {
            memory64,
            shared,
            initial,
            maximum,
            page_size_log2,
        } => Ok(memory(*memory64, *shared, *initial, *maximum, *page_size_log2)),
        CoreExtern::Global {
            val_type,
            mutable,
            shared,
        } => Ok(global(*val_type, *mutable, *shared)),
    }
}

/// Declares a function type, and answers its index.
fn func_type(written: &mut wac_binary::ModuleType, func: &CoreFuncType) -> Result<u32, BinaryFault>
    ensures index { IfOk result (λ i. i ≡ function_types written.old) }
    ensures declared { OnOk result (written.new ≡ written.old ++ module_func func.now.params func.now.results ∷ []) }
    ensures too_large { result ≡ Refused TooLarge → ModuleFits (written.old ++ module_func func.now.params func.now.results ∷ []) → ⊥ }
{
    written.func(func.params.as_slice(), func.results.as_slice())
}

/// How a table is described.
fn table(
    element_type: CoreRefType,
    table64: bool,
    minimum: u64,
    maximum: Option<u64>,
    shared: bool,
) -> EntityType
    ensures described { result ≡ entity 0 (core.Table element_type minimum maximum table64 shared) }
    ensures limits { HasLimits (core.Table element_type minimum maximum table64 shared) }
{
    long_law(maximum); // proof only
    EntityType::Table(TableType {
        element_type,
        table64,
        minimum,
        maximum,
        shared,
    })
}

/// How a memory is described.
fn memory(
    memory64: bool,
    shared: bool,
    minimum: u64,
    maximum: Option<u64>,
    page_size_log2: Option<u32>,
) -> EntityType
    ensures described { result ≡ entity 0 (core.Memory memory64 shared minimum maximum page_size_log2) }
    ensures limits { HasLimits (core.Memory memory64 shared minimum maximum page_size_log2) }
{
    long_law(maximum); // proof only
    short_law(page_size_log2); // proof only
    EntityType::Memory(MemoryType {
        minimum,
        maximum,
        memory64,
        shared,
        page_size_log2,
    })
}

/// How a global is described.
fn global(val_type: CoreType, mutable: bool, shared: bool) -> EntityType
    ensures { result ≡ entity 0 (core.Global val_type mutable shared) }
{
    EntityType::Global(GlobalType {
        val_type,
        mutable,
        shared,
    })
}
