//! Instances of component types.
ghost use Rattle.std.specs.Prelude.{◌≡◌, ◌+◌, ◌*◌, [], false, Some, IfOk, OnOk, OnErr, length, slice_get};
ghost use Rattle.std.specs.List.{list_any};
ghost use Rattle.wac_types_shapes.specs.declared.shapes.component.ResourceId.{ResourceId as AnyResource};
ghost use Rattle.wac_types_shapes.specs.declared.shapes.component.Interface.{Interface as AnInterface};
ghost use Rattle.wac_types_shapes.specs.declared.shapes.component.ItemKind.TheVariants as kind_of;
ghost use Rattle.wac_types_shapes.specs.declared.shapes.component.«Type».TheVariants as ty_of;
ghost use Rattle.wac_types_collection.specs.collection.Collection.{HasInterface, item_at};
ghost use Rattle.wac_encode_scopes.specs.private.Components.{IsComponentType};
ghost use Rattle.wac_encode_scopes.specs.Contents.{side_of};
ghost use Rattle.wac_encode_stacks.specs.Scopes.{How as AnyHow};
ghost use Rattle.wac_encode_scopes.specs.States.{Goes, IsRecordedAt};
ghost use Rattle.wac_encode_scopes.specs.private.Paid.{MayEnclose, PaidBy, interface_cost};
ghost use Rattle.wac_encode_scopes.specs.private.Telling.{is_one_of};
ghost use Rattle.wac_encode_faults.specs.Cycle.{numbered_items};
ghost use Rattle.wac_encode_interfaces.specs.private.Paid.{side_cost};
ghost use Rattle.wac_encode_interfaces.specs.private.Ready.{IsInterfaceAt, IsInterfaceReady};
ghost use Rattle.wac_encode_interfaces.specs.private.Refused.{KeepsScopes};
ghost use Rattle.wac_encode_interfaces.specs.private.Worlds.{HaveInterfaceWorlds, written_in};
ghost use Rattle.wac_encode_interfaces.specs.private.Writers.{IsWriter};
ghost use Rattle.wac_encode_interfaces.specs.private.Written.{side_item, IsItemOf};
ghost use Rattle.wac_encode_interfaces.specs.private.Parts.{sides_in, ArePlanned, MayFollow, WritesItem, ListsInterface, is_owned, owned_in};

use crate::sides::Parts;
use crate::writer::TypeWriter;
use indexmap::{IndexMap, IndexSet};
use std::alloc::{AllocError, Global};
use wac_binary::{BinaryFault, Description};
use wac_encode_scopes::{Side, State, add_resource};
use wac_encode_stacks::{instance_law, step_law, still_law};
use wac_types_collection::{InterfaceId, ItemKind, Named, ResourceId, Type};
use wac_types_weight::weight_law;

/// Returns the resource of an item, if it is a type item of a resource that has this number.
fn owned_resource(
    owners: &IndexMap<ResourceId, usize>,
    item: ItemKind,
    number: usize,
) -> Option<ResourceId>
    ensures { result ≡ owned_in owners.now.entries number item }
{
    let ItemKind::TypeItem(Type::Resource(id)) = item else {
        return None;
    };
    let owner = owners.get(&id)?;
    if *owner == number { Some(id) } else { None }
}

/// Returns the resources of type items that have this number.
fn owned_among(
    alloc: Global,
    owners: &IndexMap<ResourceId, usize>,
    items: &Named<ItemKind>,
    number: usize,
) -> Result<IndexSet<ResourceId>, AllocError>
    ensures { IfOk result (λ s. (r : AnyResource) → is_one_of s.keys r ≡ list_any (is_owned owners.now.entries number r) items.now) }
{
    let mut owned = IndexSet::new(alloc);
    for i in 0..items.len() {
        let (_, item) = items.entry_at(i);
        let resource = owned_resource(owners, *item, number);
        add_resource(&mut owned, resource)?;
    }
    Ok(owned)
}

impl<'a> TypeWriter<'a> {
    /// Returns the resources of an interface's type items that have this number.
    fn owned_resources(
        &self,
        owners: &IndexMap<ResourceId, usize>,
        interface: InterfaceId,
        number: usize,
    ) -> Result<IndexSet<ResourceId>, AllocError>
        requires { HasInterface self.now.types.now interface }
        ensures { IfOk result (λ s. (it : AnInterface) → item_at self.now.types.now.interfaces interface.0 ≡ Some it → (r : AnyResource) → is_one_of s.keys r ≡ list_any (is_owned owners.now.entries number r) it.exports) }
    {
        let it = &self.types[interface];
        owned_among(self.types.allocator(), owners, &it.exports, number)
    }

    /// Returns the type index of an interface in the innermost scope, where it is written. A whole interface that is
    /// recorded there is not written again.
    pub(crate) fn interface_index(
        &self,
        state: &mut State,
        interface: InterfaceId,
        types_only: bool,
    ) -> Result<u32, BinaryFault>
        requires writer { IsWriter self.now }
        requires held { HasInterface self.now.types.now interface }
        requires ready { IsInterfaceReady self.now.types.now self.now.merged state.old types_only interface }
        requires worlds { HaveInterfaceWorlds self.now.types.now (written_in self.now.worlds.now) types_only interface }
        ensures goes { OnOk result (Goes self.now.types.now self.now.merged state.old state.new) }
        ensures is { IfOk result (IsInterfaceAt self.now.types.now self.now.merged state.new types_only interface) }
        ensures recorded { IfOk result (λ k. types_only ≡ false → (how : AnyHow) × IsRecordedAt self.now.merged state.new (ty_of.Interface interface) how k) }
        ensures refused { OnErr result (KeepsScopes state.old state.new) }
        ensures paid { MayEnclose self.now.merged state.old.here.content → PaidBy self.now.types.now self.now.merged [] (interface_cost self.now.types.now interface) state.old state.new result }
    {
        step_law();
        still_law();
        if !types_only {
            if let Some(index) = state.index(self.merged, Type::Interface(interface)) {
                return Ok(index);
            }
        }
        self.interface(state, interface, types_only)
    }

    /// Adds an instance of an interface to one side of a component type. Returns its instance index.
    fn list_instance(
        &self,
        state: &mut State,
        side: Side,
        name: &str,
        interface: InterfaceId,
        types_only: bool,
    ) -> Result<u32, BinaryFault>
        requires writer { IsWriter self.now }
        requires content { IsComponentType state.old.here.content }
        requires held { HasInterface self.now.types.now interface }
        requires ready { IsInterfaceReady self.now.types.now self.now.merged state.old types_only interface }
        requires worlds { HaveInterfaceWorlds self.now.types.now (written_in self.now.worlds.now) types_only interface }
        ensures lists { IfOk result (ListsInterface self.now.types.now self.now.merged (side_of side) name.now types_only interface state.old state.new) }
        ensures paid { PaidBy self.now.types.now self.now.merged [] (10 + 2 * length name.now + interface_cost self.now.types.now interface) state.old state.new result }
    {
        let index = self.interface_index(state, interface, types_only)?;
        state.list(side, name, Description::Instance(index))
    }

    /// Adds an instance of an interface to one side of a component type, and records what it exports. It binds those own
    /// resources of the interface that have its number.
    pub(crate) fn write_instance(
        &self,
        state: &mut State,
        parts: &Parts<'_>,
        side: Side,
        number: usize,
        name: &str,
        interface: InterfaceId,
        types_only: bool,
    ) -> Result<(), BinaryFault>
        requires writer { IsWriter self.now }
        requires planned { ArePlanned self.now.types.now (written_in self.now.worlds.now) parts.now }
        requires item { IsItemOf (sides_in parts.now) (side_of side) name.now (kind_of.Instance interface) types_only }
        requires number { slice_get (numbered_items (sides_in parts.now)) number ≡ Some (side_item (side_of side) name.now) }
        requires next { MayFollow self.now.types.now self.now.merged parts.now (side_of side) name.now state.old }
        ensures writes { OnOk result (WritesItem self.now.types.now self.now.merged parts.now (side_of side) name.now state.old state.new) }
        ensures paid { PaidBy self.now.types.now self.now.merged [] (side_cost self.now.types.now name.now (kind_of.Instance interface) types_only) state.old state.new result }
    {
        self.types.law(); // proof only
        instance_law();
        weight_law();
        let instance = self.list_instance(state, side, name, interface, types_only)?;
        let own = self.owned_resources(parts.owners, interface, number)?;
        state.tell_instance(
            self.types,
            self.closed,
            self.merged,
            interface,
            instance,
            &own,
        )
    }
}
