//! What instances export, as the innermost scope records it.

ghost use Rattle.wac_encode_scopes.specs.private.Paid.{PaidBy, telling_cost, AreUnrecorded};
ghost use Rattle.wac_binary.specs.declared.fault.BinaryFault.TheVariants.{OutOfMemory};
ghost use Rattle.wac_encode_scopes.specs.Contents.{content_of};
ghost use Rattle.std.specs.Prelude.{◌≡◌, ◌||◌, [], true, not, Some, IfErr, IfOk, OnOk};
ghost use Rattle.std.specs.List.{list_all};
ghost use Rattle.wac_types_shapes.specs.primitives.Name.{Name, option_case};
ghost use Rattle.wac_types_shapes.specs.declared.shapes.component.ResourceId.{ResourceId as AResource};
ghost use Rattle.wac_types_collection.specs.collection.Uses.{named_right};
ghost use Rattle.wac_types_shapes.specs.declared.shapes.component.Interface.{Interface as AnInterface};
ghost use Rattle.wac_types_collection.specs.collection.Collection.{HasInterface, holds_type, item_at, kind_types};
ghost use Rattle.wac_encode_scopes.specs.private.Closed.{AllAreOf, AreApartItems, AreClosedTypes, is_closed_in};
ghost use Rattle.wac_encode_scopes.specs.States.{AllAddTypes};
ghost use Rattle.wac_encode_scopes.specs.private.Interfaces.{own_in};
ghost use Rattle.wac_encode_scopes.specs.private.Telling.{is_one_of, is_other, is_that, definition_in, binding_own, exporting_values, TellsInstance};
ghost use Rattle.wac_encode_scopes.specs.private.Told.{TellsItems};
ghost use Rattle.wac_encode_scopes.specs.private.Steps.{ScopeChanges, that_passes, bound_to, told_to};

use crate::book::Place;
use crate::closed::ClosedTypes;
use crate::interfaces::own_resource;
use crate::scope::Scope;
use crate::state::State;
use indexmap::IndexSet;
use std::alloc::{AllocError, Global};
use wac_binary::BinaryFault;
use wac_encode_stacks::{closing_law, instance_law, still_law};
use wac_types_collection::{
    DefinedTypeId, Interface, InterfaceId, ItemKind, Named, ResourceId, Text, Type, Types,
    UsedType, ValueType,
};

/// Returns the own resource of an item, if it is one of `own`.
fn resource_of(
    types: &Types,
    uses: &Named<UsedType>,
    name: &str,
    item: ItemKind,
    own: &IndexSet<ResourceId>,
) -> Option<ResourceId>
    ensures { result ≡ that_passes (is_one_of own.now.keys) (own_in types.now uses.now (name.now, item)) }
{
    let resource = own_resource(types, uses, name, item)?;
    if own.contains(&resource) {
        Some(resource)
    } else {
        None
    }
}

/// Returns the own resource of an item, if it is none of `own`.
fn other_of(
    types: &Types,
    uses: &Named<UsedType>,
    name: &str,
    item: ItemKind,
    own: &IndexSet<ResourceId>,
) -> Option<ResourceId>
    ensures { result ≡ that_passes (λ r. not (is_one_of own.now.keys r)) (own_in types.now uses.now (name.now, item)) }
{
    let resource = own_resource(types, uses, name, item)?;
    if !own.contains(&resource) {
        Some(resource)
    } else {
        None
    }
}

/// Adds a resource to a set, if there is one.
///
/// # Errors
/// - `AllocError` if out of memory.
pub fn add_resource(
    set: &mut IndexSet<ResourceId>,
    resource: Option<ResourceId>,
) -> Result<(), AllocError>
    ensures { OnOk result ((r : AResource) → is_one_of set.new.keys r ≡ (is_one_of set.old.keys r || is_that resource r)) }
{
    let Some(resource) = resource else {
        return Ok(());
    };
    set.insert(resource)?;
    Ok(())
}

/// Returns the own resources of an interface that are none of `own`.
fn other_resources(
    types: &Types,
    interface: &Interface,
    own: &IndexSet<ResourceId>,
) -> Result<IndexSet<ResourceId>, AllocError>
    ensures { IfOk result (λ s. (r : AResource) → is_one_of s.keys r ≡ is_other types.now interface.now (is_one_of own.now.keys) r) }
{
    let mut others = IndexSet::new(types.allocator());
    for i in 0..interface.exports.len() {
        let (name, item) = interface.exports.entry_at(i);
        let resource = other_of(types, &interface.uses, name, *item, own);
        add_resource(&mut others, resource)?;
    }
    Ok(others)
}

/// Whether the definition at the end of an item's value type is one of these, if there is one.
fn is_item_of(types: &Types, closed: &ClosedTypes, item: ItemKind) -> bool
    ensures { (n : Name) → result ≡ option_case (definition_in types.now (n, item)) true (is_closed_in closed.now) }
{
    let ItemKind::TypeItem(Type::Value(value)) = item else {
        return true;
    };
    let ValueType::Defined(id) = types.resolve_value_type(value) else {
        return true;
    };
    closed.contains(id)
}

/// Whether the definitions of an interface's items are all among these.
fn are_items_of(types: &Types, closed: &ClosedTypes, interface: &Interface) -> bool
    ensures { result ≡ true → AllAreOf types.now interface.now.exports (is_closed_in closed.now) }
{
    for i in 0..interface.exports.len() {
        let (_, item) = interface.exports.entry_at(i);
        if !is_item_of(types, closed, *item) {
            return false;
        }
    }
    true
}

/// Finds the definitions of an interface's items in which none of these resources is free.
///
/// `closed` are those of the collection that mention no resource. Takes time linear in the items, if each of their
/// definitions is closed or there are none of these resources, or else in the collection.
///
/// # Errors
/// - `AllocError` if out of memory.
pub fn apart_items(
    types: &Types,
    closed: &ClosedTypes,
    interface: &Interface,
    these: &IndexSet<ResourceId>,
) -> Result<ClosedTypes, AllocError>
    requires closed { AreClosedTypes types.now closed.now }
    requires held { list_all (holds_type types.now) (kind_types interface.now.exports) ≡ true }
    ensures { IfOk result (λ x. AreApartItems types.now interface.now.exports (is_one_of these.now.keys) (is_closed_in x)) }
{
    types.law(); // proof only
    if these.is_empty() {
        return Ok(ClosedTypes::all(types.allocator()));
    }
    if are_items_of(types, closed, interface) {
        return Ok(ClosedTypes::all(types.allocator()));
    }
    ClosedTypes::apart_from(types, these)
}

/// Returns the definition at the end of an item's value type, if it is one of these.
fn definition_to_tell(types: &Types, told: &ClosedTypes, item: ItemKind) -> Option<DefinedTypeId>
    ensures { (n : Name) → result ≡ that_passes (is_closed_in told.now) (definition_in types.now (n, item)) }
{
    let ItemKind::TypeItem(Type::Value(value)) = item else {
        return None;
    };
    let ValueType::Defined(id) = types.resolve_value_type(value) else {
        return None;
    };
    if told.contains(id) { Some(id) } else { None }
}

impl Scope {
    /// Records that an instance exports a resource under a name, if there is a resource.
    fn bind_to(
        &mut self,
        alloc: Global,
        merged: bool,
        resource: Option<ResourceId>,
        instance: u32,
        name: &str,
    ) -> Result<(), BinaryFault>
        ensures recorded { OnOk result (ScopeChanges merged (bound_to resource instance name.now) self.old self.new) }
        ensures content { self.new.content ≡ self.old.content }
        ensures memory { IfErr result (λ e. e ≡ OutOfMemory) }
    {
        let Some(resource) = resource else {
            return Ok(());
        };
        let name = Text::new(alloc, name)?;
        self.record_resource(merged, resource, Place::Export(instance, name))
    }

    /// Records that an instance exports the own resources of its interface that are among `own`.
    fn bind_own(
        &mut self,
        types: &Types,
        merged: bool,
        interface: &Interface,
        instance: u32,
        own: &IndexSet<ResourceId>,
    ) -> Result<(), BinaryFault>
        requires { named_right types.now interface.now.uses interface.now.exports ≡ true }
        ensures recorded { OnOk result (ScopeChanges merged (binding_own types.now interface.now.uses interface.now.exports (is_one_of own.now.keys) instance) self.old self.new) }
        ensures content { self.new.content ≡ self.old.content }
        ensures memory { IfErr result (λ e. e ≡ OutOfMemory) }
    {
        interface.exports.law(); // proof only
        let alloc = types.allocator();
        for i in 0..interface.exports.len() {
            let (name, item) = interface.exports.entry_at(i);
            let resource = resource_of(types, &interface.uses, name, *item, own);
            self.bind_to(alloc, merged, resource, instance, name)?;
        }
        Ok(())
    }

    /// Records that an instance exports a value type under a name, if there is one that has no name in this scope.
    fn tell_of(
        &mut self,
        alloc: Global,
        merged: bool,
        definition: Option<DefinedTypeId>,
        instance: u32,
        name: &str,
    ) -> Result<(), BinaryFault>
        ensures recorded { OnOk result (ScopeChanges merged (told_to definition instance name.now) self.old self.new) }
        ensures content { self.new.content ≡ self.old.content }
        ensures memory { IfErr result (λ e. e ≡ OutOfMemory) }
    {
        let Some(definition) = definition else {
            return Ok(());
        };
        if let Some(_) = self.named(merged, definition) {
            return Ok(());
        }
        let name = Text::new(alloc, name)?;
        self.record_export(merged, definition, Place::Export(instance, name))
    }

    /// Records that an instance exports those value types of its interface that are to be told and have no name in this scope.
    fn tell_values(
        &mut self,
        types: &Types,
        told: &ClosedTypes,
        merged: bool,
        interface: &Interface,
        instance: u32,
    ) -> Result<(), BinaryFault>
        ensures recorded { OnOk result (ScopeChanges merged (exporting_values types.now interface.now.exports (is_closed_in told.now) instance) self.old self.new) }
        ensures content { self.new.content ≡ self.old.content }
        ensures memory { IfErr result (λ e. e ≡ OutOfMemory) }
    {
        let alloc = types.allocator();
        for i in 0..interface.exports.len() {
            let (name, item) = interface.exports.entry_at(i);
            let definition = definition_to_tell(types, told, *item);
            self.tell_of(alloc, merged, definition, instance, name)?;
        }
        Ok(())
    }
}

impl State {
    /// Records what an instance in the innermost scope exports, where `own` are the own resources that belong to it.
    ///
    /// Binds each own resource of its interface that is in `own`; there are none unless the scope is the bottom scope.
    /// Then records its value types that have no name in the scope, but for those in which an own resource of the interface
    /// is free that is not in `own`.
    ///
    /// # Errors
    /// - `OutOfMemory`.
    pub fn tell_instance(
        &mut self,
        types: &Types,
        closed: &ClosedTypes,
        merged: bool,
        interface: InterfaceId,
        instance: u32,
        own: &IndexSet<ResourceId>,
    ) -> Result<(), BinaryFault>
        requires held { HasInterface types.now interface }
        requires closed { AreClosedTypes types.now closed.now }
        ensures recorded { OnOk result ((it : AnInterface) → item_at types.now.interfaces interface.0 ≡ Some it → TellsItems types.now merged it (is_one_of own.now.keys) instance self.old self.new) }
        ensures tells { OnOk result ((it : AnInterface) → item_at types.now.interfaces interface.0 ≡ Some it → TellsInstance types.now merged it (is_one_of own.now.keys) instance self.old self.new) }
        ensures types { AllAddTypes self.old self.new }
        ensures paid { (it : AnInterface) → item_at types.now.interfaces interface.0 ≡ Some it → AreUnrecorded merged self.old own.now.keys → PaidBy types.now merged [] (telling_cost merged (content_of self.old.here.content) it.exports) self.old self.new result }
    {
        types.law(); // proof only
        types.uses_law(); // proof only
        closing_law();
        instance_law();
        still_law();
        let it = &types[interface];
        it.exports.law(); // proof only
        let others = other_resources(types, it, own)?;
        let told = apart_items(types, closed, it, &others)?;
        self.here.bind_own(types, merged, it, instance, own)?;
        self.here.tell_values(types, &told, merged, it, instance)
    }
}
