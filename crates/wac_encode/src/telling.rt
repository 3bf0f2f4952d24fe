//! What a state is told of the caller's items.

ghost use Rattle.std.specs.Prelude.{◌≡◌, true, Err as Refused, OnErr, OnOk};
ghost use Rattle.wac_types_shapes.specs.shapes.Kinds.{kind_type};
ghost use Rattle.wac_types_shapes.specs.declared.shapes.component.ItemKind.TheVariants as kind_of;
ghost use Rattle.wac_types_shapes.specs.declared.shapes.component.«Type».TheVariants as ty_of;
ghost use Rattle.wac_types_collection.specs.collection.Bound.{Bindings};
ghost use Rattle.wac_types_collection.specs.collection.Collection.{HasInterface, holds_type};
ghost use Rattle.wac_encode_faults.specs.declared.fault.EncodeFault.TheVariants.{Write};
ghost use Rattle.wac_encode_faults.specs.declared.fault.WriteFault.{WriteFault as AFault};
ghost use Rattle.wac_encode_scopes.specs.States.{AllAddTypes};
ghost use Rattle.wac_encode.specs.Root.{component_scope, IsStateFor, KeepsOldItems};
ghost use Rattle.wac_encode.specs.Told.{StandsFor, TellsItem};
ghost use Rattle.wac_encode.specs.private.Ready.{IsRecordable, type_end};

use crate::check::encode_result;
use crate::state::State;
use wac_binary::BinaryFault;
use wac_encode_faults::EncodeFault;
use wac_encode_scopes::{ClosedTypes, How};
use wac_encode_stacks::{beside_law, bringing_law};
use wac_types_collection::{InterfaceId, ItemKind, ResourceId, Type, Types};

/// Returns the type under which a type item is recorded: the end of its aliases, if it is a value type.
fn recorded_type(types: &Types, ty: Type) -> Type
    ensures { result ≡ type_end types.now ty }
{
    match ty {
        Type::Value(value) => Type::Value(types.resolve_value_type(value)),
        _ => ty,
    }
}

impl State {
    /// Records what an instance at an index exports, and binds to it the own resources of its interface that are not bound.
    fn bind_instance(
        &mut self,
        types: &Types,
        merged: bool,
        interface: InterfaceId,
        index: u32,
    ) -> Result<(), BinaryFault>
        requires held { HasInterface types.now interface }
        requires stands { (m : Bindings) × IsStateFor types.now merged m self.old × StandsFor types.now m (component_scope self.old) (kind_of.Instance interface) index }
        ensures tells { OnOk result (TellsItem types.now merged (kind_of.Instance interface) index self.old self.new) }
        ensures types { AllAddTypes self.old.scopes self.new.scopes }
    {
        types.law(); // proof only
        beside_law(); // proof only
        bringing_law(); // proof only
        let closed = ClosedTypes::new(types)?;
        let unbound = self.resources(types, merged, false)?;
        self.scopes
            .tell_instance(types, &closed, merged, interface, index, &unbound)
    }

    /// Binds a resource to a type index, if it is no alias and is not bound.
    fn bind_resource(
        &mut self,
        types: &Types,
        merged: bool,
        resource: ResourceId,
        index: u32,
    ) -> Result<(), BinaryFault>
        requires held { holds_type types.now (ty_of.Resource resource) ≡ true }
        requires stands { (m : Bindings) × IsStateFor types.now merged m self.old × StandsFor types.now m (component_scope self.old) (kind_of.TypeItem (ty_of.Resource resource)) index }
        ensures tells { OnOk result (TellsItem types.now merged (kind_of.TypeItem (ty_of.Resource resource)) index self.old self.new) }
        ensures types { AllAddTypes self.old.scopes self.new.scopes }
    {
        beside_law(); // proof only
        bringing_law(); // proof only
        let end = types.resolve_resource(resource);
        if end.0 != resource.0 {
            return Ok(());
        }
        if self.scopes.is_bound(merged, resource) {
            return Ok(());
        }
        self.scopes.bind_type(merged, resource, index)
    }

    /// Records the type index of a type that is no resource and not of a core module, unless an earlier item has its type.
    fn record_type(
        &mut self,
        types: &Types,
        merged: bool,
        ty: Type,
        index: u32,
    ) -> Result<(), BinaryFault>
        requires recordable { IsRecordable ty }
        requires stands { (m : Bindings) × IsStateFor types.now merged m self.old × StandsFor types.now m (component_scope self.old) (kind_of.TypeItem ty) index }
        ensures tells { OnOk result (TellsItem types.now merged (kind_of.TypeItem ty) index self.old self.new) }
        ensures types { AllAddTypes self.old.scopes self.new.scopes }
    {
        types.law(); // proof only
        beside_law(); // proof only
        bringing_law(); // proof only
        let end = recorded_type(types, ty);
        if self.scopes.is_listed(merged, end) {
            return Ok(());
        }
        self.scopes.record(merged, end, How::Listed, index)
    }

    /// Records the type index of a type item.
    fn bind_type(
        &mut self,
        types: &Types,
        merged: bool,
        ty: Type,
        index: u32,
    ) -> Result<(), BinaryFault>
        requires held { holds_type types.now ty ≡ true }
        requires stands { (m : Bindings) × IsStateFor types.now merged m self.old × StandsFor types.now m (component_scope self.old) (kind_of.TypeItem ty) index }
        ensures tells { OnOk result (TellsItem types.now merged (kind_of.TypeItem ty) index self.old self.new) }
        ensures types { AllAddTypes self.old.scopes self.new.scopes }
    {
        match ty {
            Type::Resource(id) => self.bind_resource(types, merged, id, index),
            Type::Module(_) => Ok(()),
            _ => self.record_type(types, merged, ty, index),
        }
    }

    /// Records the index of an item.
    fn bind_item(
        &mut self,
        types: &Types,
        merged: bool,
        item: ItemKind,
        index: u32,
    ) -> Result<(), BinaryFault>
        requires held { holds_type types.now (kind_type item) ≡ true }
        requires stands { (m : Bindings) × IsStateFor types.now merged m self.old × StandsFor types.now m (component_scope self.old) item index }
        ensures tells { OnOk result (TellsItem types.now merged item index self.old self.new) }
        ensures types { AllAddTypes self.old.scopes self.new.scopes }
    {
        match item {
            ItemKind::Instance(id) => self.bind_instance(types, merged, id, index),
            ItemKind::TypeItem(ty) => self.bind_type(types, merged, ty, index),
            _ => Ok(()),
        }
    }

    /// Records that an item of a collection is at an index of the component, in the index space of its sort.
    ///
    /// - An instance binds the own resources of its interface that are not bound yet. Value types that it exports have a name
    ///   from then on, but for those in which an own resource of its interface is free that was bound before. Other exports of
    ///   it do not matter.
    /// - A type item of a resource binds it, if it is no alias and not bound yet.
    /// - Any other type item is a name of its type, unless an earlier one is.
    /// - Nothing is recorded of functions, components, core modules and values.
    ///
    /// The index must refer to the item.
    ///
    /// # Errors
    /// - `OutOfMemory`.
    pub fn bind(
        &mut self,
        types: &Types,
        merged: bool,
        item: ItemKind,
        index: u32,
    ) -> Result<(), EncodeFault>
        requires held { holds_type types.now (kind_type item) ≡ true }
        requires stands { (m : Bindings) × IsStateFor types.now merged m self.old × StandsFor types.now m (component_scope self.old) item index }
        ensures tells { OnOk result (TellsItem types.now merged item index self.old self.new) }
        ensures fault { (w : AFault) → result ≡ Refused (Write w) → ⊥ }
        ensures refused { OnErr result (KeepsOldItems self.old self.new) }
    {
        encode_result(self.bind_item(types, merged, item, index))
    }
}
