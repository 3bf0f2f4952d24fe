//! Items that the root imports.

ghost use Rattle.std.specs.Prelude.{◌≡◌, ◌+◌, ◌*◌, [], true, None, IfOk, IfSome, OnOk, OnErr, length};
ghost use Rattle.wac_types_shapes.specs.declared.shapes.component.ItemKind.TheVariants as kind_of;
ghost use Rattle.wac_types_shapes.specs.declared.shapes.component.«Type».TheVariants as ty_of;
ghost use Rattle.wac_types_shapes.specs.shapes.Kinds.{kind_type};
ghost use Rattle.wac_types_collection.specs.collection.Collection.{holds_type};
ghost use Rattle.wac_encode_scopes.specs.Roots.{IsRoot};
ghost use Rattle.wac_encode_scopes.specs.States.{AllAddTypes, Goes};
ghost use Rattle.wac_encode_scopes.specs.private.Paid.{PaidBy, PaidFor};
ghost use Rattle.wac_encode_values.specs.private.Values.{IsReady};
ghost use Rattle.wac_encode_interfaces.specs.private.Imports.{DescribesImport, ImportsBeside, ImportsOf, IsImportReady, IsModuleAt, module_type_of};
ghost use Rattle.wac_encode_interfaces.specs.private.Paid.{MayHold, import_type_cost, module_cost};
ghost use Rattle.wac_encode_interfaces.specs.private.Refused.{KeepsScopes};
ghost use Rattle.wac_encode_interfaces.specs.private.Worlds.{written_in};
ghost use Rattle.wac_encode_interfaces.specs.private.Writers.{IsWriter};
ghost use Rattle.wac_encode_interfaces.specs.private.Sorts.{component_world};

use crate::writer::TypeWriter;
use wac_binary::{BinaryFault, Description};
use wac_encode_scopes::State;
use wac_encode_stacks::{bringing_law, module_law, root_law, step_law, still_law};
use wac_modules::module_type;
use wac_types_collection::{ItemKind, ModuleTypeId, WorldId};

/// Returns the world of a component.
fn world_in(item: ItemKind) -> Option<WorldId>
    ensures { result ≡ component_world item }
{
    match item {
        ItemKind::Component(id) => Some(id),
        _ => None,
    }
}

impl<'a> TypeWriter<'a> {
    /// Returns the core type index of a core module's type in the innermost scope. The type is written there, unless `known`
    /// is its index.
    fn core_module(
        &self,
        state: &mut State,
        id: ModuleTypeId,
        known: Option<u32>,
    ) -> Result<u32, BinaryFault>
        requires held { holds_type self.now.types.now (ty_of.Module id) ≡ true }
        requires ready { IsReady self.now.types.now self.now.merged state.old (ty_of.Module id) }
        requires known { IfSome known (IsModuleAt self.now.types.now self.now.merged state.old id) }
        ensures goes { OnOk result (Goes self.now.types.now self.now.merged state.old state.new) }
        ensures is { IfOk result (IsModuleAt self.now.types.now self.now.merged state.new id) }
        ensures types { AllAddTypes state.old state.new }
        ensures paid { PaidBy self.now.types.now self.now.merged [] (module_cost self.now.types.now id known) state.old state.new result }
    {
        still_law();
        module_law();
        if let Some(core_type) = known {
            return Ok(core_type);
        }
        let module = &self.types[id];
        let written = module_type(self.types.allocator(), module)?;
        state.define_module(&written)
    }

    /// Writes the type of an import, which is no core module. Returns the import's description.
    fn describe_import(&self, state: &mut State, item: ItemKind) -> Result<Description, BinaryFault>
        requires writer { IsWriter self.now }
        requires no_module { module_type_of item ≡ None }
        requires ready { IsImportReady self.now.types.now self.now.merged (written_in self.now.worlds.now) state.old item }
        ensures goes { OnOk result (Goes self.now.types.now self.now.merged state.old state.new) }
        ensures describes { IfOk result (DescribesImport self.now.types.now self.now.merged state.new item) }
        ensures refused { OnErr result (KeepsScopes state.old state.new) }
        ensures paid { MayHold self.now.merged state.old.here.content (kind_type item) → PaidFor self.now.types.now self.now.merged (kind_type item) (import_type_cost self.now.types.now (kind_type item)) state.old state.new result }
    {
        step_law();
        if let Some(world) = world_in(item) {
            let index = self.world(state, world)?;
            return Ok(Description::Component(index));
        }
        self.write_interface_of(state, item)?;
        self.describe(state, item)
    }

    /// Adds an import of a core module to the innermost scope, the root. Returns its index, and the core type index of its
    /// type.
    ///
    /// The type is written before it, unless it has the core type index `known` already.
    ///
    /// # Errors
    /// - `TooLarge` if the component would not fit 32-bit sizes.
    /// - `OutOfMemory`.
    ///
    /// After an error the root has what it had, and perhaps types after it. The scopes must be dropped.
    pub fn import_module(
        &self,
        state: &mut State,
        name: &str,
        id: ModuleTypeId,
        known: Option<u32>,
    ) -> Result<(u32, u32), BinaryFault>
        requires root { IsRoot state.old.here.content }
        requires ready { IsImportReady self.now.types.now self.now.merged (written_in self.now.worlds.now) state.old (kind_of.Module id) }
        requires known { IfSome known (IsModuleAt self.now.types.now self.now.merged state.old id) }
        ensures imports { IfOk result (λ r. ImportsOf self.now.types.now self.now.merged name.now (kind_of.Module id) state.old state.new r.0) }
        ensures beside { IfOk result (λ r. ImportsBeside self.now.merged name.now (kind_of.Module id) r.0 state.old state.new) }
        ensures known { IfOk result (λ r. IsModuleAt self.now.types.now self.now.merged state.new id r.1) }
        ensures refused { OnErr result (KeepsScopes state.old state.new) }
        ensures paid { PaidBy self.now.types.now self.now.merged [] (20 + 2 * length name.now + module_cost self.now.types.now id known) state.old state.new result }
    {
        bringing_law();
        root_law();
        step_law();
        still_law();
        let core_type = self.core_module(state, id, known)?;
        let index = state.import(name, Description::CoreModule(core_type))?;
        Ok((index, core_type))
    }

    /// Adds an import to the innermost scope, the root, after its type. The item is no fresh resource and no core module.
    /// Returns its index in the index space of its sort.
    ///
    /// The type of a type item is recorded at the index, unless an earlier item of the same type is.
    ///
    /// # Errors
    /// - `TooLarge` if the component would not fit 32-bit sizes.
    /// - `OutOfMemory`.
    ///
    /// After an error the root has what it had, and perhaps more after it. Instance types may still be open inside it. The
    /// scopes must be dropped.
    pub fn import_item(
        &self,
        state: &mut State,
        name: &str,
        item: ItemKind,
    ) -> Result<u32, BinaryFault>
        requires writer { IsWriter self.now }
        requires root { IsRoot state.old.here.content }
        requires no_module { module_type_of item ≡ None }
        requires ready { IsImportReady self.now.types.now self.now.merged (written_in self.now.worlds.now) state.old item }
        ensures imports { IfOk result (ImportsOf self.now.types.now self.now.merged name.now item state.old state.new) }
        ensures beside { IfOk result (λ i. ImportsBeside self.now.merged name.now item i state.old state.new) }
        ensures refused { OnErr result (KeepsScopes state.old state.new) }
        ensures paid { MayHold self.now.merged state.old.here.content (kind_type item) → PaidFor self.now.types.now self.now.merged (kind_type item) (20 + 2 * length name.now + import_type_cost self.now.types.now (kind_type item)) state.old state.new result }
    {
        bringing_law();
        root_law();
        step_law();
        let description = self.describe_import(state, item)?;
        let index = state.import(name, description)?;
        self.record_item(state, item, index)?;
        Ok(index)
    }
}
