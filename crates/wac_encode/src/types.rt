//! Types without a fault, written into the component.

ghost use Rattle.std.specs.Prelude.{◌≡◌, true, IfOk, OnErr, OnOk};
ghost use Rattle.wac_types_shapes.specs.declared.shapes.component.«Type».TheVariants as ty_of;
ghost use Rattle.wac_types_collection.specs.collection.Bound.{Bindings, held_tree};
ghost use Rattle.wac_types_collection.specs.collection.Collection.{holds_type};
ghost use Rattle.wac_encode_faults.specs.Trees.{definition_tree};
ghost use Rattle.wac_encode_scopes.specs.private.Closed.{AreClosedTypes};
ghost use Rattle.wac_encode_stacks.specs.Good.{At, Means};
ghost use Rattle.wac_encode_interfaces.specs.private.Definitions.{HaveDefinedWorlds};
ghost use Rattle.wac_encode_interfaces.specs.private.Ready.{IsClean};
ghost use Rattle.wac_encode_interfaces.specs.private.Refused.{KeepsScopes};
ghost use Rattle.wac_encode_interfaces.specs.private.Paid.{AreSmallWorlds};
ghost use Rattle.wac_encode_interfaces.specs.private.Worlds.{AreWorldTypes, HaveWorlds, written_in};
ghost use Rattle.wac_encode.specs.Named.{IsUsedByName};
ghost use Rattle.wac_encode.specs.Root.{component_scope, IsStateFor, RefersToType, WritesTypes};
ghost use Rattle.wac_encode.specs.private.Ready.{IsWritable, MayDefine};

use crate::encoder::TypeEncoder;
use crate::state::State;
use wac_binary::{BinaryFault, ComponentValType};
use wac_encode_interfaces::laws::free_law;
use wac_encode_interfaces::{TypeWriter, WorldTypes, definition_roots, world_types};
use wac_encode_scopes::ClosedTypes;
use wac_encode_stacks::{beside_law, module_law, step_law};
use wac_encode_values::ValueEncoder;
use wac_modules::module_type;
use wac_types_collection::{InterfaceId, ModuleTypeId, Type, ValueType, WorldId};

impl<'a> TypeEncoder<'a> {
    /// Writes the component types of the worlds inside a type.
    fn worlds_inside(&self, closed: &ClosedTypes, ty: Type) -> Result<WorldTypes, BinaryFault>
        requires closed { AreClosedTypes self.now.types.now closed.now }
        requires held { holds_type self.now.types.now ty ≡ true }
        requires clean { IsClean self.now.types.now ty }
        ensures written { IfOk result (λ ws. AreWorldTypes self.now.types.now (written_in ws)) }
        ensures sizes { IfOk result (λ ws. AreSmallWorlds self.now.types.now (written_in ws)) }
        ensures there { IfOk result (λ ws. HaveWorlds self.now.types.now (written_in ws) ty) }
    {
        let mut roots = Vec::new(self.types.allocator());
        roots.push(ty)?;
        world_types(self.types, closed, roots.as_slice())
    }

    /// Writes the instance type of an interface, where these component types of worlds are written. Returns its type index.
    fn write_interface_after(
        &self,
        state: &mut State,
        closed: &ClosedTypes,
        worlds: &WorldTypes,
        interface: InterfaceId,
    ) -> Result<u32, BinaryFault>
        requires closed { AreClosedTypes self.now.types.now closed.now }
        requires written { AreWorldTypes self.now.types.now (written_in worlds.now) }
        requires sizes { AreSmallWorlds self.now.types.now (written_in worlds.now) }
        requires there { HaveWorlds self.now.types.now (written_in worlds.now) (ty_of.Interface interface) }
        requires writable { IsWritable self.now.types.now self.now.merged state.old (ty_of.Interface interface) }
        ensures writes { OnOk result (WritesTypes self.now.types.now self.now.merged state.old state.new) }
        ensures index { IfOk result (λ k. (m : Bindings) → IsStateFor self.now.types.now self.now.merged m state.new → RefersToType self.now.types.now m (ty_of.Interface interface) state.new k) }
        ensures refused { OnErr result (KeepsScopes state.old.scopes state.new.scopes) }
    {
        free_law(); // proof only
        beside_law(); // proof only
        step_law(); // proof only
        let writer = TypeWriter::new(self.types, closed, self.merged, worlds);
        writer.interface(&mut state.scopes, interface, false)
    }

    /// Writes the instance type of an interface, unless it is recorded. Returns its type index.
    fn write_interface(&self, state: &mut State, interface: InterfaceId) -> Result<u32, BinaryFault>
        requires { IsWritable self.now.types.now self.now.merged state.old (ty_of.Interface interface) }
        ensures writes { OnOk result (WritesTypes self.now.types.now self.now.merged state.old state.new) }
        ensures index { IfOk result (λ k. (m : Bindings) → IsStateFor self.now.types.now self.now.merged m state.new → RefersToType self.now.types.now m (ty_of.Interface interface) state.new k) }
        ensures refused { OnErr result (KeepsScopes state.old.scopes state.new.scopes) }
    {
        step_law(); // proof only
        if let Some(index) = state.scopes.index(self.merged, Type::Interface(interface)) {
            return Ok(index);
        }
        let closed = ClosedTypes::new(self.types)?;
        let worlds = self.worlds_inside(&closed, Type::Interface(interface))?;
        self.write_interface_after(state, &closed, &worlds, interface)
    }

    /// Adds the component type of a world. The worlds inside it and its own component type are written.
    fn write_world_after(
        &self,
        state: &mut State,
        worlds: &WorldTypes,
        world: WorldId,
    ) -> Result<u32, BinaryFault>
        requires written { AreWorldTypes self.now.types.now (written_in worlds.now) }
        requires there { HaveWorlds self.now.types.now (written_in worlds.now) (ty_of.World world) }
        requires writable { IsWritable self.now.types.now self.now.merged state.old (ty_of.World world) }
        ensures writes { OnOk result (WritesTypes self.now.types.now self.now.merged state.old state.new) }
        ensures index { IfOk result (λ k. (m : Bindings) → IsStateFor self.now.types.now self.now.merged m state.new → RefersToType self.now.types.now m (ty_of.World world) state.new k) }
        ensures refused { OnErr result (KeepsScopes state.old.scopes state.new.scopes) }
    {
        beside_law(); // proof only
        step_law(); // proof only
        let Some(component) = worlds.get(world) else {
            unreachable!()
        };
        state
            .scopes
            .define_component(self.merged, Some(world), component)
    }

    /// Writes the component type of a world, unless it is recorded. Returns its type index.
    fn write_world(&self, state: &mut State, world: WorldId) -> Result<u32, BinaryFault>
        requires { IsWritable self.now.types.now self.now.merged state.old (ty_of.World world) }
        ensures writes { OnOk result (WritesTypes self.now.types.now self.now.merged state.old state.new) }
        ensures index { IfOk result (λ k. (m : Bindings) → IsStateFor self.now.types.now self.now.merged m state.new → RefersToType self.now.types.now m (ty_of.World world) state.new k) }
        ensures refused { OnErr result (KeepsScopes state.old.scopes state.new.scopes) }
    {
        step_law(); // proof only
        if let Some(index) = state.scopes.index(self.merged, Type::World(world)) {
            return Ok(index);
        }
        let closed = ClosedTypes::new(self.types)?;
        let worlds = self.worlds_inside(&closed, Type::World(world))?;
        self.write_world_after(state, &worlds, world)
    }

    /// Writes the type of a core module. Returns its core type index.
    fn write_module(&self, state: &mut State, id: ModuleTypeId) -> Result<u32, BinaryFault>
        requires { IsWritable self.now.types.now self.now.merged state.old (ty_of.Module id) }
        ensures writes { OnOk result (WritesTypes self.now.types.now self.now.merged state.old state.new) }
        ensures index { IfOk result (λ k. (m : Bindings) → IsStateFor self.now.types.now self.now.merged m state.new → RefersToType self.now.types.now m (ty_of.Module id) state.new k) }
        ensures refused { OnErr result (KeepsScopes state.old.scopes state.new.scopes) }
    {
        free_law(); // proof only
        beside_law(); // proof only
        module_law(); // proof only
        step_law(); // proof only
        let written = module_type(self.types.allocator(), &self.types[id])?;
        state.scopes.define_module(&written)
    }

    /// Writes the definition of a type, where these component types of worlds are written. Returns its type index.
    fn define_after(
        &self,
        state: &mut State,
        closed: &ClosedTypes,
        worlds: &WorldTypes,
        ty: Type,
    ) -> Result<u32, BinaryFault>
        requires closed { AreClosedTypes self.now.types.now closed.now }
        requires written { AreWorldTypes self.now.types.now (written_in worlds.now) }
        requires sizes { AreSmallWorlds self.now.types.now (written_in worlds.now) }
        requires there { HaveDefinedWorlds self.now.types.now (written_in worlds.now) ty }
        requires definable { MayDefine self.now.types.now self.now.merged state.old ty }
        ensures writes { OnOk result (WritesTypes self.now.types.now self.now.merged state.old state.new) }
        ensures index { IfOk result (λ k. (m : Bindings) → IsStateFor self.now.types.now self.now.merged m state.new → At (component_scope state.new).types k (definition_tree self.now.types.now m ty)) }
        ensures refused { OnErr result (KeepsScopes state.old.scopes state.new.scopes) }
    {
        beside_law(); // proof only
        let writer = TypeWriter::new(self.types, closed, self.merged, worlds);
        writer.definition(&mut state.scopes, ty)
    }

    /// Writes the definition of a type. Returns its type index.
    pub(crate) fn define(&self, state: &mut State, ty: Type) -> Result<u32, BinaryFault>
        requires { MayDefine self.now.types.now self.now.merged state.old ty }
        ensures writes { OnOk result (WritesTypes self.now.types.now self.now.merged state.old state.new) }
        ensures index { IfOk result (λ k. (m : Bindings) → IsStateFor self.now.types.now self.now.merged m state.new → At (component_scope state.new).types k (definition_tree self.now.types.now m ty)) }
        ensures refused { OnErr result (KeepsScopes state.old.scopes state.new.scopes) }
    {
        let closed = ClosedTypes::new(self.types)?;
        let roots = definition_roots(self.types, ty)?;
        let worlds = world_types(self.types, &closed, roots.as_slice())?;
        self.define_after(state, &closed, &worlds, ty)
    }

    /// Writes a type. Returns its type index, or its core type index if it is the type of a core module.
    pub(crate) fn write(&self, state: &mut State, ty: Type) -> Result<u32, BinaryFault>
        requires { IsWritable self.now.types.now self.now.merged state.old ty }
        ensures writes { OnOk result (WritesTypes self.now.types.now self.now.merged state.old state.new) }
        ensures index { IfOk result (λ k. (m : Bindings) → IsStateFor self.now.types.now self.now.merged m state.new → RefersToType self.now.types.now m ty state.new k) }
        ensures refused { OnErr result (KeepsScopes state.old.scopes state.new.scopes) }
    {
        match ty {
            Type::Interface(id) => self.write_interface(state, id),
            Type::World(id) => self.write_world(state, id),
            Type::Module(id) => self.write_module(state, id),
            _ => self.define(state, ty),
        }
    }

    /// Writes a value type. Returns it as it is used in the component.
    pub(crate) fn write_value(
        &self,
        state: &mut State,
        value: ValueType,
    ) -> Result<ComponentValType, BinaryFault>
        requires { IsWritable self.now.types.now self.now.merged state.old (ty_of.Value value) }
        ensures writes { OnOk result (WritesTypes self.now.types.now self.now.merged state.old state.new) }
        ensures means { IfOk result (λ x. (m : Bindings) → IsStateFor self.now.types.now self.now.merged m state.new → Means (component_scope state.new) (held_tree self.now.types.now m (ty_of.Value value)) x) }
        ensures named { IfOk result (IsUsedByName self.now.types.now self.now.merged state.old state.new value) }
        ensures refused { OnErr result (KeepsScopes state.old.scopes state.new.scopes) }
    {
        free_law(); // proof only
        beside_law(); // proof only
        step_law(); // proof only
        let closed = ClosedTypes::new(self.types)?;
        let values = ValueEncoder::new(self.types, &closed, self.merged);
        values.value_type(&mut state.scopes, value)
    }
}
