//! Resources that the component imports.

ghost use Rattle.std.specs.Prelude.{◌≡◌, true, IfOk, OnErr, OnOk};
ghost use Rattle.wac_types_shapes.specs.declared.shapes.component.«Type».TheVariants as ty_of;
ghost use Rattle.wac_types_collection.specs.collection.Bound.{Bindings};
ghost use Rattle.wac_types_collection.specs.collection.Collection.{holds_type};
ghost use Rattle.wac_types_collection.specs.collection.Held.{resolved};
ghost use Rattle.wac_encode_scopes.specs.States.{AllAddTypes, IsBound};
ghost use Rattle.wac_encode.specs.Errors.{NamesLowest};
ghost use Rattle.wac_encode.specs.Imported.{AppendsImport, HasImportedFault, ImportsBound};
ghost use Rattle.wac_encode.specs.Root.{HasRoot, IsStateFor, KeepsOldItems};

use crate::check::encode_result;
use crate::encoder::TypeEncoder;
use crate::state::State;
use wac_binary::{BinaryFault, Description};
use wac_encode_faults::{EncodeFault, WriteFault};
use wac_encode_stacks::{beside_law, bringing_law, root_law, step_law};
use wac_types_collection::ResourceId;

impl<'a> TypeEncoder<'a> {
    /// Adds an import of a resource that is equal to what the resource is bound to. Returns its type index.
    fn import_bound(
        &self,
        state: &mut State,
        name: &str,
        resource: ResourceId,
    ) -> Result<u32, BinaryFault>
        requires root { HasRoot state.old }
        requires bound { (m : Bindings) × IsStateFor self.now.types.now self.now.merged m state.old × IsBound self.now.merged state.old.scopes resource }
        ensures imports { IfOk result (λ k. (m : Bindings) → IsStateFor self.now.types.now self.now.merged m state.old → ImportsBound self.now.types.now self.now.merged name.now resource m (m resource) state.old state.new k) }
        ensures appends { OnOk result (AppendsImport self.now.merged name.now state.old state.new) }
        ensures refused { OnErr result (AllAddTypes state.old.scopes state.new.scopes) }
    {
        beside_law(); // proof only
        bringing_law(); // proof only
        root_law(); // proof only
        step_law(); // proof only
        let index = state.scopes.bring_resource(self.merged, resource)?;
        state.scopes.import(name, Description::Equal(index))
    }

    /// Adds an import of a fresh resource, and binds the resource to it. Returns its type index.
    fn import_fresh(
        &self,
        state: &mut State,
        name: &str,
        resource: ResourceId,
    ) -> Result<u32, BinaryFault>
        requires held { holds_type self.now.types.now (ty_of.Resource resource) ≡ true }
        requires unbound { (m : Bindings) × IsStateFor self.now.types.now self.now.merged m state.old × (m resource ≡ None) }
        ensures imports { IfOk result (λ k. (m : Bindings) → IsStateFor self.now.types.now self.now.merged m state.old → ImportsBound self.now.types.now self.now.merged name.now resource m (m resource) state.old state.new k) }
        ensures appends { OnOk result (AppendsImport self.now.merged name.now state.old state.new) }
        ensures refused { OnErr result (AllAddTypes state.old.scopes state.new.scopes) }
    {
        beside_law(); // proof only
        bringing_law(); // proof only
        root_law(); // proof only
        state.scopes.import_fresh(self.merged, name, resource)
    }

    /// Adds an import of a resource. Returns its type index.
    ///
    /// If the end of its aliases is bound, the import is a type that is equal to what that is bound to. Else it is a fresh
    /// resource, and the resource is bound to the import (Component Model, "Type Definitions").
    ///
    /// # Errors
    /// - `Write(UnboundResource)` if the resource is an alias and the end of its aliases is not bound.
    /// - `TooLarge` if the component would not fit 32-bit sizes.
    /// - `OutOfMemory`.
    pub fn import_resource(
        &self,
        state: &mut State,
        name: &str,
        resource: ResourceId,
    ) -> Result<u32, EncodeFault>
        requires held { holds_type self.now.types.now (ty_of.Resource resource) ≡ true }
        requires state { (m : Bindings) × IsStateFor self.now.types.now self.now.merged m state.old }
        ensures imports { IfOk result (λ k. (m : Bindings) → IsStateFor self.now.types.now self.now.merged m state.old
            → ImportsBound self.now.types.now self.now.merged name.now (resolved self.now.types.now resource) m (m (resolved self.now.types.now resource)) state.old state.new k) }
        ensures appends { OnOk result (AppendsImport self.now.merged name.now state.old state.new) }
        ensures fault { (m : Bindings) → IsStateFor self.now.types.now self.now.merged m state.old → NamesLowest (HasImportedFault self.now.types.now m resource) result }
        ensures refused { OnErr result (KeepsOldItems state.old state.new) }
    {
        let end = self.types.resolve_resource(resource);
        if state.scopes.is_bound(self.merged, end) {
            return encode_result(self.import_bound(state, name, end));
        }
        if end.0 != resource.0 {
            return Err(EncodeFault::Write(WriteFault::UnboundResource));
        }
        encode_result(self.import_fresh(state, name, end))
    }
}
