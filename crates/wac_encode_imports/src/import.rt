//! One import of a merge.

ghost use Rattle.std.specs.Prelude.{◌≡◌, false, None, Some, IfOk, OnOk};
ghost use Rattle.wac_types_shapes.specs.declared.shapes.component.ItemKind.TheVariants as kind_of;
ghost use Rattle.wac_types_shapes.specs.declared.shapes.component.ResourceId.{ResourceId as AResource};
ghost use Rattle.wac_types_shapes.specs.declared.shapes.component.«Type».TheVariants as ty_of;
ghost use Rattle.wac_types_collection.specs.collection.Held.{resolved};
ghost use Rattle.wac_merge_classes.specs.entries.Bindings.{AreBindings};
ghost use Rattle.wac_merge_classes.specs.terms.Merge.{Merged as AMerge};
ghost use Rattle.wac_encode_scopes.specs.private.Closed.{AreClosedTypes};
ghost use Rattle.wac_encode_interfaces.specs.private.Imports.{module_type_of};
ghost use Rattle.wac_encode_interfaces.specs.private.Worlds.{AreWorldTypes, written_in};
ghost use Rattle.wac_encode_imports.specs.private.Imports.{merged_bindings};
ghost use Rattle.wac_encode_imports.specs.private.Classes.{interface_of, resource_of};
ghost use Rattle.wac_encode_imports.specs.private.Modules.{AreModulesAt, module_index};
ghost use Rattle.wac_encode_imports.specs.private.Written.{is_bound_at, AreWritable, IsImportWriter, MayWrite, WritesImport};
ghost use Rattle.wac_encode_imports.specs.private.Small.{IsImportPaid, IsImportPaidWith};
ghost use Rattle.wac_encode_interfaces.specs.private.Paid.{AreSmallWorlds};

use crate::classes::{first_resources, is_first};
use crate::modules::ModuleIndexes;
use wac_binary::BinaryFault;
use wac_encode_interfaces::laws::free_law;
use wac_encode_interfaces::{TypeWriter, WorldTypes};
use wac_encode_scopes::{ClosedTypes, State};
use wac_encode_stacks::{instance_law, root_law};
use wac_merge_classes::entries::bindings::Bindings;
use wac_types_collection::{InterfaceId, ItemKind, ModuleTypeId, ResourceId, Type, Types};

/// Returns the interface of an instance.
fn instance_in(item: ItemKind) -> Option<InterfaceId>
    ensures { result ≡ interface_of item }
{
    match item {
        ItemKind::Instance(id) => Some(id),
        _ => None,
    }
}

/// Returns the resource of a type item.
fn resource_in(item: ItemKind) -> Option<ResourceId>
    ensures { result ≡ resource_of item }
{
    match item {
        ItemKind::TypeItem(Type::Resource(id)) => Some(id),
        _ => None,
    }
}

/// Returns the type of a core module.
fn module_in(item: ItemKind) -> Option<ModuleTypeId>
    ensures { result ≡ module_type_of item }
{
    match item {
        ItemKind::Module(id) => Some(id),
        _ => None,
    }
}

/// Writes the imports of a merge into the root.
#[derive(Clone, Copy)]
pub(crate) struct ImportWriter<'a> {
    /// The types of the merge.
    pub(crate) types: &'a Types,
    /// Its definitions that mention no resource.
    pub(crate) closed: &'a ClosedTypes,
    /// Which import is the first to bind each resource, found before anything is written.
    pub(crate) bindings: &'a Bindings,
    /// The writer of the types.
    pub(crate) writer: TypeWriter<'a>,
}

impl<'a> ImportWriter<'a> {
    /// Returns a writer of the imports of a merge with these types.
    pub(crate) fn new(
        types: &'a Types,
        closed: &'a ClosedTypes,
        bindings: &'a Bindings,
        worlds: &'a WorldTypes,
    ) -> ImportWriter<'a>
        ensures types { result.types.now ≡ types.now }
        ensures writer { (m : AMerge) → types.now ≡ m.types → AreClosedTypes m.types closed.now → AreBindings m.types m.imports bindings.now → AreWorldTypes m.types (written_in worlds.now) → AreSmallWorlds m.types (written_in worlds.now) → AreWritable m (written_in worlds.now) → IsImportWriter result m }
    {
        ImportWriter {
            types,
            closed,
            bindings,
            writer: TypeWriter::new(types, closed, true, worlds),
        }
    }

    /// Adds the import of an instance, and records what it exports. It binds those own resources of its interface that no
    /// other import is the first to bind.
    fn import_instance(
        &self,
        state: &mut State,
        position: usize,
        name: &str,
        interface: InterfaceId,
    ) -> Result<u32, BinaryFault>
        requires { MayWrite self.now position name.now (kind_of.Instance interface) state.old }
        ensures written { IfOk result (WritesImport self.now position name.now (kind_of.Instance interface) state.old state.new) }
        ensures paid { IsImportPaid self.now position name.now (kind_of.Instance interface) state.old state.new result }
    {
        self.types.law(); // proof only
        free_law();
        instance_law();
        let item = ItemKind::Instance(interface);
        let index = self.writer.import_item(state, name, item)?;
        let own = first_resources(self.types, self.bindings, interface, position)?;
        state.tell_instance(self.types, self.closed, true, interface, index, &own)?;
        Ok(index)
    }

    /// Adds the import of an item that is no core module and binds no resource.
    fn import_other(
        &self,
        state: &mut State,
        position: usize,
        name: &str,
        item: ItemKind,
    ) -> Result<u32, BinaryFault>
        requires no_module { module_type_of item ≡ None }
        requires plain { interface_of item ≡ None }
        requires other { (m : AMerge) → IsImportWriter self.now m → (r : AResource) → resource_of item ≡ Some r → is_bound_at position (merged_bindings m (resolved m.types r)) ≡ false }
        requires next { MayWrite self.now position name.now item state.old }
        ensures written { IfOk result (WritesImport self.now position name.now item state.old state.new) }
        ensures paid { IsImportPaid self.now position name.now item state.old state.new result }
    {
        self.types.law(); // proof only
        free_law();
        self.writer.import_item(state, name, item)
    }

    /// Adds the import of a resource: a fresh one if it is the first to bind the resource, and else one that is equal to
    /// what an earlier import binds.
    fn import_resource(
        &self,
        state: &mut State,
        position: usize,
        name: &str,
        resource: ResourceId,
    ) -> Result<u32, BinaryFault>
        requires { MayWrite self.now position name.now (kind_of.TypeItem (ty_of.Resource resource)) state.old }
        ensures written { IfOk result (WritesImport self.now position name.now (kind_of.TypeItem (ty_of.Resource resource)) state.old state.new) }
        ensures paid { IsImportPaid self.now position name.now (kind_of.TypeItem (ty_of.Resource resource)) state.old state.new result }
    {
        self.types.law(); // proof only
        root_law();
        let end = self.types.resolve_resource(resource);
        if is_first(self.bindings, end, position) {
            return state.import_fresh(true, name, end);
        }
        let item = ItemKind::TypeItem(Type::Resource(resource));
        self.import_other(state, position, name, item)
    }

    /// Adds the import of a core module. Its type is written before its first import.
    fn import_module(
        &self,
        state: &mut State,
        modules: &mut ModuleIndexes,
        position: usize,
        name: &str,
        id: ModuleTypeId,
    ) -> Result<u32, BinaryFault>
        requires next { MayWrite self.now position name.now (kind_of.Module id) state.old }
        requires known { AreModulesAt self.now state.old (module_index modules.old) }
        ensures written { IfOk result (WritesImport self.now position name.now (kind_of.Module id) state.old state.new) }
        ensures paid { IsImportPaidWith self.now position name.now (kind_of.Module id) (module_index modules.old) (module_index modules.new) state.old state.new result }
        ensures known { OnOk result (AreModulesAt self.now state.new (module_index modules.new)) }
    {
        self.types.law(); // proof only
        free_law();
        let known = modules.get(id);
        let (index, core_type) = self.writer.import_module(state, name, id, known)?;
        modules.insert(id, core_type)?;
        Ok(index)
    }

    /// Adds the import of an item that is no core module.
    fn import_plain(
        &self,
        state: &mut State,
        position: usize,
        name: &str,
        item: ItemKind,
    ) -> Result<u32, BinaryFault>
        requires no_module { module_type_of item ≡ None }
        requires next { MayWrite self.now position name.now item state.old }
        ensures written { IfOk result (WritesImport self.now position name.now item state.old state.new) }
        ensures paid { IsImportPaid self.now position name.now item state.old state.new result }
    {
        if let Some(interface) = instance_in(item) {
            return self.import_instance(state, position, name, interface);
        }
        if let Some(resource) = resource_in(item) {
            return self.import_resource(state, position, name, resource);
        }
        self.import_other(state, position, name, item)
    }

    /// Adds the import at this position. Returns its index in the index space of its sort.
    ///
    /// `modules` are the core module types that are written in the root.
    pub(crate) fn import(
        &self,
        state: &mut State,
        modules: &mut ModuleIndexes,
        position: usize,
        name: &str,
        item: ItemKind,
    ) -> Result<u32, BinaryFault>
        requires next { MayWrite self.now position name.now item state.old }
        requires known { AreModulesAt self.now state.old (module_index modules.old) }
        ensures written { IfOk result (WritesImport self.now position name.now item state.old state.new) }
        ensures paid { IsImportPaidWith self.now position name.now item (module_index modules.old) (module_index modules.new) state.old state.new result }
        ensures known { OnOk result (AreModulesAt self.now state.new (module_index modules.new)) }
    {
        if let Some(id) = module_in(item) {
            return self.import_module(state, modules, position, name, id);
        }
        self.import_plain(state, position, name, item)
    }
}
