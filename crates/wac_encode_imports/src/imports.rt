//! All imports of a merge.

ghost use Rattle.std.specs.Prelude.{◌≡◌, true, IfOk, map};
ghost use Rattle.wac_types_shapes.specs.shapes.Kinds.{kind_type};
ghost use Rattle.wac_merge_classes.specs.entries.Bindings.{AreHeld};
ghost use Rattle.wac_merge_classes.specs.entries.Classes.{by_names};
ghost use Rattle.wac_merge_classes.specs.terms.Merge.{import_entries};
ghost use Rattle.wac_merge.specs.MergedPlaces.{MentionsBefore};
ghost use Rattle.wac_encode_scopes.specs.private.Closed.{AreClosedTypes};
ghost use Rattle.wac_encode_interfaces.specs.private.Imports.{import_sort};
ghost use Rattle.wac_encode_interfaces.specs.private.Worlds.{AreWorldTypes, written_in};
ghost use Rattle.wac_encode_imports.specs.private.Imports.{HasDistinctClasses, AreImported, HasNoImportFault};
ghost use Rattle.wac_encode_imports.specs.private.Written.{merge_of, AreCleanImports, HaveImportWorlds, IsImportWriter};
ghost use Rattle.wac_encode_imports.specs.private.Small.{ImportsWithin};
ghost use Rattle.wac_encode_interfaces.specs.private.Paid.{AreSmallWorlds, IsHeavy};
ghost use Rattle.wac_encode_scopes.specs.private.Limits.{IsTooLarge};

use crate::classes::import_bindings;
use crate::import::ImportWriter;
use crate::modules::ModuleIndexes;
use std::alloc::{AllocError, Global};
use wac_binary::{BinaryFault, Sort};
use wac_encode_interfaces::{WorldTypes, world_types};
use wac_encode_scopes::{ClosedTypes, State};
use wac_encode_stacks::{beside_law, part_law, root_law};
use wac_merge::TypeAggregator;
use wac_types_collection::{ItemKind, Named, Type, Types};

/// The written imports of a merge: the root with them and with the types that they need, and the place of each import.
#[derive(Drop)]
pub struct WrittenImports {
    /// The root, the only open scope.
    pub state: State,
    /// The sort and index of each import, in order.
    pub places: Vec<(Sort, u32)>,
}

/// Returns the sort of an item.
fn sort_of(item: ItemKind) -> Sort
    ensures { result ≡ import_sort item }
{
    match item {
        ItemKind::TypeItem(_) => Sort::Type,
        ItemKind::Func(_) => Sort::Func,
        ItemKind::Instance(_) => Sort::Instance,
        ItemKind::Component(_) => Sort::Component,
        ItemKind::Module(_) => Sort::CoreModule,
        ItemKind::Value(_) => Sort::Value,
    }
}

/// Returns the types of the imports, in order.
fn import_types(alloc: Global, imports: &Named<ItemKind>) -> Result<Vec<Type>, AllocError>
    ensures { IfOk result (λ ts. ts.items ≡ map (λ e. kind_type e.1) imports.now) }
{
    let mut types = Vec::new(alloc);
    for i in 0..imports.len() {
        let (_, item) = imports.entry_at(i);
        types.push(item.ty())?;
    }
    Ok(types)
}

/// Writes the component types of the worlds inside the imports.
fn import_worlds(
    types: &Types,
    closed: &ClosedTypes,
    imports: &Named<ItemKind>,
) -> Result<WorldTypes, BinaryFault>
    requires closed { AreClosedTypes types.now closed.now }
    requires held { AreHeld types.now (import_entries imports.now) }
    requires clean { AreCleanImports types.now (import_entries imports.now) }
    ensures written { IfOk result (λ ws. AreWorldTypes types.now (written_in ws)) }
    ensures there { IfOk result (λ ws. HaveImportWorlds types.now (written_in ws) (import_entries imports.now)) }
    ensures small { IsTooLarge result → IsHeavy types.now (map (λ e. kind_type e.1) imports.now) }
    ensures sizes { IfOk result (λ ws. AreSmallWorlds types.now (written_in ws)) }
{
    let roots = import_types(types.allocator(), imports)?;
    world_types(types, closed, roots.as_slice())
}

/// Writes all imports in order.
fn write_all(
    writer: &ImportWriter<'_>,
    imports: &Named<ItemKind>,
) -> Result<WrittenImports, BinaryFault>
    requires { IsImportWriter writer.now (merge_of writer.now imports.now) }
    ensures imported { IfOk result (λ w. AreImported (merge_of writer.now imports.now) w.places.items w.state) }
    ensures small { ImportsWithin (merge_of writer.now imports.now) result }
{
    beside_law();
    part_law();
    root_law();
    let alloc = writer.types.allocator();
    let mut state = State::root(alloc);
    let mut modules = ModuleIndexes::new(alloc);
    let mut places = Vec::new(alloc);
    for i in 0..imports.len() {
        let (name, item) = imports.entry_at(i);
        let index = writer.import(&mut state, &mut modules, i, name, *item)?;
        places.push((sort_of(*item), index))?;
    }
    Ok(WrittenImports { state, places })
}

/// Writes the imports of a finished merge into a root, in their order, each after the types that it needs.
///
/// A type that has a name in the root is written by that name. An instance binds those own resources of its interface that
/// its class is the first to bind, and a resource that an earlier import binds is imported as equal to it. No import may
/// have a fault.
///
/// # Errors
/// - `TooLarge` if the component would not fit 32-bit sizes.
/// - `OutOfMemory`.
pub fn write_imports(merge: &TypeAggregator) -> Result<WrittenImports, BinaryFault>
    requires finished { merge.now.is_finished ≡ true }
    requires held { AreHeld merge.now.merge.types merge.now.merge.imports }
    requires distinct { HasDistinctClasses merge.now.merge }
    requires before { MentionsBefore by_names merge.now.merge }
    requires clean { HasNoImportFault merge.now.merge }
    ensures imported { IfOk result (λ w. AreImported merge.now.merge w.places.items w.state) }
    ensures small { ImportsWithin merge.now.merge result }
{
    let types = merge.types();
    let imports = merge.imports();
    types.law(); // proof only
    types.names_law(); // proof only
    let closed = ClosedTypes::new(types)?;
    let bindings = import_bindings(types, imports)?;
    let worlds = import_worlds(types, &closed, imports)?;
    let writer = ImportWriter::new(types, &closed, &bindings, &worlds);
    write_all(&writer, imports)
}
