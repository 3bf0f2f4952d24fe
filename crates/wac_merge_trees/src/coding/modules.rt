//! The types of core modules, put into a table.
ghost use Rattle.std.specs.Prelude.{◌≡◌, IfOk, OnOk, string_bytes};
ghost use Rattle.std.specs.List.{AllByRecursion};
ghost use Rattle.std.specs.BTreeMap.{insert_entry, IsOrdered};
ghost use Rattle.std.specs.String.{string_cmp};
ghost use Rattle.wac_types_collection.specs.collection.Collection.{HasModule};
ghost use Rattle.wac_types_collection.specs.collection.Held.{core_item};
ghost use Rattle.wac_types_shapes.specs.declared.shapes.component.«Type».TheVariants as ty;
ghost use Rattle.wac_merge_tables.specs.private.tables.NodeViews.{core_view, core_items, core_modules};
ghost use Rattle.wac_merge_trees.specs.private.coding.Coding.{source_tree, IsGrown, HasTree};
ghost use Rattle.wac_merge_tables.specs.private.tables.Nodes.{AreCoreItems};
ghost use Rattle.wac_merge_trees.specs.private.coding.ModuleCoding.{AreCores, AreImports, PutsUnder, AreFull, maps_items};

use crate::coding::coder::{Source, add};
use std::alloc::{AllocError, Global};
use std::collections::BTreeMap;
use wac_merge_tables::tables::nodes::{Core, Node, Nodes};
use wac_types_collection::{CoreExtern, CoreImports, ModuleTypeId, Named};

/// Returns the entries of a map, in order of their names.
///
/// # Errors
/// - [`AllocError`] if out of memory.
pub fn in_order<V: Drop>(
    alloc: Global,
    map: BTreeMap<String, V>,
) -> Result<Vec<(String, V)>, AllocError>
    ensures items { IfOk result (λ v. v.items ≡ map.entries) }
    ensures ordered { IsOrdered string_cmp map }
{
    map.into_iter().collect(alloc)
}

/// Puts a value under a name, and replaces the value that is there.
///
/// # Errors
/// - [`AllocError`] if out of memory.
pub fn put<V: Drop>(map: &mut BTreeMap<String, V>, name: String, value: V) -> Result<(), AllocError>
    ensures { OnOk result (map.new.entries ≡ insert_entry string_cmp map.old.entries name value) }
{
    match map.insert(name, value) {
        Ok(_) => Ok(()),
        Err(_) => Err(AllocError),
    }
}

/// Copies an import or export of a core module.
fn core(alloc: Global, item: &CoreExtern) -> Result<Core, AllocError>
    ensures { IfOk result (λ x. core_view x ≡ core_item item.now) }
{
    match item {
        CoreExtern::Func(func) => {
            let params = Vec::from_slice(alloc, func.params.as_slice())?;
            let results = Vec::from_slice(alloc, func.results.as_slice())?;
            Ok(Core::Func(params, results))
        }
        CoreExtern::Table {
            element_type,
            initial,
            maximum,
            table64,
            shared,
        } => Ok(Core::Table(*element_type, *table64, *shared, *initial, *maximum)),
        CoreExtern::Memory {
            memory64,
            shared,
            initial,
            maximum,
            page_size_log2,
        } => Ok(Core::Memory(*memory64, *shared, *initial, *maximum, *page_size_log2)),
        CoreExtern::Global {
            val_type,
            mutable,
            shared,
        } => Ok(Core::Global(*val_type, *mutable, *shared)),
        CoreExtern::Tag(func) => {
            let params = Vec::from_slice(alloc, func.params.as_slice())?;
            let results = Vec::from_slice(alloc, func.results.as_slice())?;
            Ok(Core::Tag(params, results))
        }
    }
}

/// Returns the exports of a core module, sorted by name.
fn cores(alloc: Global, items: &Named<CoreExtern>) -> Result<Vec<(String, Core)>, AllocError>
    ensures { IfOk result (λ v. AreCores items.now (core_items v.items)) }
{
    let mut map = BTreeMap::new(alloc);
    let mut i = items.len();
    while i > 0 {
        i -= 1;
        let item = core(alloc, items.value_at(i))?;
        let name = String::from_str(alloc, items.name_at(i))?;
        put(&mut map, name, item)?;
    }
    in_order(alloc, map)
}

/// Puts an import under its module and name, and replaces the one that is there.
fn put_under(
    alloc: Global,
    modules: &mut BTreeMap<String, BTreeMap<String, Core>>,
    source: String,
    name: String,
    item: Core,
) -> Result<(), AllocError>
    ensures put { OnOk result (PutsUnder modules.old.entries modules.new.entries (string_bytes source) (string_bytes name) (core_view item)) }
    ensures full { OnOk result (AreFull modules.old.entries → AreFull modules.new.entries) }
{
    let mut items = match modules.remove(source.as_str()) {
        Some(items) => items,
        None => BTreeMap::new(alloc),
    };
    put(&mut items, name, item)?;
    put(modules, source, items)
}

/// Returns the imports sorted by module, those of a module sorted by name.
fn grouped(
    alloc: Global,
    mut modules: BTreeMap<String, BTreeMap<String, Core>>,
) -> Result<Vec<(String, Vec<(String, Core)>)>, AllocError>
    ensures items { IfOk result (λ v. core_modules v.items ≡ maps_items modules.entries) }
    ensures each { IfOk result (λ v. AllByRecursion (λ e. AreCoreItems e.1) (core_modules v.items)) }
    ensures ordered { IsOrdered string_cmp modules }
{
    let mut listed = Vec::with_capacity(alloc, modules.len())?;
    while let Some((source, items)) = modules.pop_first() {
        listed.push((source, in_order(alloc, items)?))?;
    }
    Ok(listed)
}

/// Returns the imports of a core module, sorted by module and name.
fn imports(
    alloc: Global,
    imports: &CoreImports<CoreExtern>,
) -> Result<Vec<(String, Vec<(String, Core)>)>, AllocError>
    ensures { IfOk result (λ v. AreImports imports.now (core_modules v.items)) }
{
    let mut modules = BTreeMap::new(alloc);
    let mut i = imports.len();
    while i > 0 {
        i -= 1;
        let ((source, name), item) = imports.entry_at(i);
        let item = core(alloc, item)?;
        let source = String::from_str(alloc, source)?;
        let name = String::from_str(alloc, name)?;
        put_under(alloc, &mut modules, source, name, item)?;
    }
    grouped(alloc, modules)
}

/// Returns the number of a core module type.
///
/// # Errors
/// - [`AllocError`] if out of memory.
pub fn module_type(
    nodes: &mut Nodes,
    source: &Source,
    id: ModuleTypeId,
) -> Result<usize, AllocError>
    requires held { HasModule source.now.types.now id }
    ensures grown { IsGrown nodes.old nodes.new }
    ensures number { IfOk result (λ n. HasTree nodes.new (source_tree source.now (ty.Module id)) n) }
{
    let module = &source.types[id];
    let imports = imports(source.alloc, &module.imports)?;
    let exports = cores(source.alloc, &module.exports)?;
    add(nodes, Node::Module(imports, exports))
}
