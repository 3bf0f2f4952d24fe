//! The writer of types into a component that is written by hand.

ghost use Rattle.std.specs.Prelude.{◌≡◌, true, IfOk, OnErr, OnOk};
ghost use Rattle.wac_types_shapes.specs.declared.shapes.component.«Type».TheVariants as ty_of;
ghost use Rattle.wac_types_collection.specs.collection.Bound.{Bindings, held_tree};
ghost use Rattle.wac_types_collection.specs.collection.Collection.{holds_type};
ghost use Rattle.wac_encode_faults.specs.Faults.{IsDefinitionFault};
ghost use Rattle.wac_encode_faults.specs.Trees.{definition_tree};
ghost use Rattle.wac_encode_stacks.specs.Good.{At, Means};
ghost use Rattle.wac_encode.specs.Errors.{HasTypeFault, NamesLowest};
ghost use Rattle.wac_encode.specs.Named.{IsUsedByName};
ghost use Rattle.wac_encode.specs.Root.{component_scope, IsStateFor, KeepsOldItems, RefersToType, WritesTypes};

use crate::check::encode_result;
use crate::state::State;
use wac_binary::ComponentValType;
use wac_encode_faults::EncodeFault;
use wac_types_collection::{InterfaceId, Type, Types, ValueType, WorldId};

/// Writes types of a collection into components that are written by hand.
///
/// Each call returns the lowest fault of what is asked for, where resources are bound as in the state, as
/// [`Write`](EncodeFault::Write). Else it appends the types that are needed and not recorded, and returns an index. After an
/// error the state must be dropped.
#[derive(Clone, Copy)]
pub struct TypeEncoder<'a> {
    /// The collection.
    pub(crate) types: &'a Types,
    /// Whether it is the merged collection, or else the graph's own.
    pub(crate) merged: bool,
}

impl<'a> TypeEncoder<'a> {
    /// Returns a writer of a collection's types: the merged collection's, or else the graph's own.
    pub fn new(types: &'a Types, merged: bool) -> TypeEncoder<'a>
        ensures types { result.types.now ≡ types.now }
        ensures merged { result.merged ≡ merged }
    {
        TypeEncoder { types, merged }
    }

    /// Writes a type. Returns its type index, or its core type index if it is the type of a core module.
    ///
    /// An interface is its instance type and a world its component type (Component Model, "Type Definitions"). A value type
    /// that has a name in the component has the index of its name. A resource has the index of what it is bound to.
    ///
    /// # Errors
    /// - `Write(UnboundResource)` if the type mentions a resource that neither a scope inside it nor the component binds.
    /// - `Write` with another fault if a type inside it has one: `ModuleAsType`, `NestedItem`, `UnlistedDependency` or
    ///   `TypesUseEachOther`.
    /// - `TooLarge` if the component would not fit 32-bit sizes.
    /// - `OutOfMemory`.
    pub fn ty(&self, state: &mut State, ty: Type) -> Result<u32, EncodeFault>
        requires held { holds_type self.now.types.now ty ≡ true }
        requires state { (m : Bindings) × IsStateFor self.now.types.now self.now.merged m state.old }
        ensures writes { OnOk result (WritesTypes self.now.types.now self.now.merged state.old state.new) }
        ensures index { IfOk result (λ k. (m : Bindings) → IsStateFor self.now.types.now self.now.merged m state.new → RefersToType self.now.types.now m ty state.new k) }
        ensures fault { (m : Bindings) → IsStateFor self.now.types.now self.now.merged m state.old → NamesLowest (HasTypeFault self.now.types.now m ty) result }
        ensures refused { OnErr result (KeepsOldItems state.old state.new) }
    {
        let found = self.type_fault(state, ty)?;
        match found {
            Some(fault) => Err(EncodeFault::Write(fault)),
            None => encode_result(self.write(state, ty)),
        }
    }

    /// Writes the component type of a world. Returns its type index.
    ///
    /// # Errors
    /// As [`Self::ty`].
    pub fn component(&self, state: &mut State, world: WorldId) -> Result<u32, EncodeFault>
        requires held { holds_type self.now.types.now (ty_of.World world) ≡ true }
        requires state { (m : Bindings) × IsStateFor self.now.types.now self.now.merged m state.old }
        ensures writes { OnOk result (WritesTypes self.now.types.now self.now.merged state.old state.new) }
        ensures index { IfOk result (λ k. (m : Bindings) → IsStateFor self.now.types.now self.now.merged m state.new → RefersToType self.now.types.now m (ty_of.World world) state.new k) }
        ensures fault { (m : Bindings) → IsStateFor self.now.types.now self.now.merged m state.old → NamesLowest (HasTypeFault self.now.types.now m (ty_of.World world)) result }
        ensures refused { OnErr result (KeepsOldItems state.old state.new) }
    {
        self.ty(state, Type::World(world))
    }

    /// Writes the definition of a type. Returns its type index.
    fn definition(&self, state: &mut State, ty: Type) -> Result<u32, EncodeFault>
        requires held { holds_type self.now.types.now ty ≡ true }
        requires state { (m : Bindings) × IsStateFor self.now.types.now self.now.merged m state.old }
        ensures writes { OnOk result (WritesTypes self.now.types.now self.now.merged state.old state.new) }
        ensures index { IfOk result (λ k. (m : Bindings) → IsStateFor self.now.types.now self.now.merged m state.new → At (component_scope state.new).types k (definition_tree self.now.types.now m ty)) }
        ensures fault { (m : Bindings) → IsStateFor self.now.types.now self.now.merged m state.old → NamesLowest (IsDefinitionFault self.now.types.now m ty) result }
        ensures refused { OnErr result (KeepsOldItems state.old state.new) }
    {
        let found = self.definition_fault(state, ty)?;
        match found {
            Some(fault) => Err(EncodeFault::Write(fault)),
            None => encode_result(self.define(state, ty)),
        }
    }

    /// Writes the definition of an interface. Returns its type index.
    ///
    /// It is a component type that exports the instance under the interface's id (WIT.md, "Package Format"). It imports the
    /// interfaces that the instance uses under their ids, with their types only.
    ///
    /// # Errors
    /// - `Write(UnboundResource)` if an import or export mentions a resource that the component type does not bind.
    /// - `Write(ModuleAsType)`, `Write(NestedItem)` or `Write(UnlistedDependency)` if a type inside it has that fault.
    /// - `Write(UnnamedDefinition)` if the interface has no id.
    /// - `Write(InterfaceTwice)` if an additional import has the name of another import.
    /// - `Write(TypesUseEachOther)` if items of one component type depend on each other in a cycle.
    /// - `TooLarge` if the component would not fit 32-bit sizes.
    /// - `OutOfMemory`.
    pub fn interface(&self, state: &mut State, interface: InterfaceId) -> Result<u32, EncodeFault>
        requires held { holds_type self.now.types.now (ty_of.Interface interface) ≡ true }
        requires state { (m : Bindings) × IsStateFor self.now.types.now self.now.merged m state.old }
        ensures writes { OnOk result (WritesTypes self.now.types.now self.now.merged state.old state.new) }
        ensures index { IfOk result (λ k. (m : Bindings) → IsStateFor self.now.types.now self.now.merged m state.new → At (component_scope state.new).types k (definition_tree self.now.types.now m (ty_of.Interface interface))) }
        ensures fault { (m : Bindings) → IsStateFor self.now.types.now self.now.merged m state.old → NamesLowest (IsDefinitionFault self.now.types.now m (ty_of.Interface interface)) result }
        ensures refused { OnErr result (KeepsOldItems state.old state.new) }
    {
        self.definition(state, Type::Interface(interface))
    }

    /// Writes the definition of a world. Returns its type index.
    ///
    /// It is a component type that exports a component of the world's type under the world's id (WIT.md, "Package Format").
    /// That type also imports the interfaces that the world uses and does not list, under their ids and with their types only.
    ///
    /// # Errors
    /// As [`Self::interface`].
    pub fn world(&self, state: &mut State, world: WorldId) -> Result<u32, EncodeFault>
        requires held { holds_type self.now.types.now (ty_of.World world) ≡ true }
        requires state { (m : Bindings) × IsStateFor self.now.types.now self.now.merged m state.old }
        ensures writes { OnOk result (WritesTypes self.now.types.now self.now.merged state.old state.new) }
        ensures index { IfOk result (λ k. (m : Bindings) → IsStateFor self.now.types.now self.now.merged m state.new → At (component_scope state.new).types k (definition_tree self.now.types.now m (ty_of.World world))) }
        ensures fault { (m : Bindings) → IsStateFor self.now.types.now self.now.merged m state.old → NamesLowest (IsDefinitionFault self.now.types.now m (ty_of.World world)) result }
        ensures refused { OnErr result (KeepsOldItems state.old state.new) }
    {
        self.definition(state, Type::World(world))
    }

    /// Writes a value type. Returns it as it is used in the component: a primitive type, or a type index.
    ///
    /// A definition that has a name in the component is used by the type index of its name. If only an instance exports it,
    /// it is first aliased from the instance.
    ///
    /// # Errors
    /// - `Write(UnboundResource)` if the type mentions a resource that is not bound.
    /// - `TooLarge` if the component would not fit 32-bit sizes.
    /// - `OutOfMemory`.
    pub fn value_type(
        &self,
        state: &mut State,
        value: ValueType,
    ) -> Result<ComponentValType, EncodeFault>
        requires held { holds_type self.now.types.now (ty_of.Value value) ≡ true }
        requires state { (m : Bindings) × IsStateFor self.now.types.now self.now.merged m state.old }
        ensures writes { OnOk result (WritesTypes self.now.types.now self.now.merged state.old state.new) }
        ensures means { IfOk result (λ x. (m : Bindings) → IsStateFor self.now.types.now self.now.merged m state.new → Means (component_scope state.new) (held_tree self.now.types.now m (ty_of.Value value)) x) }
        ensures named { IfOk result (IsUsedByName self.now.types.now self.now.merged state.old state.new value) }
        ensures fault { (m : Bindings) → IsStateFor self.now.types.now self.now.merged m state.old → NamesLowest (HasTypeFault self.now.types.now m (ty_of.Value value)) result }
        ensures refused { OnErr result (KeepsOldItems state.old state.new) }
    {
        let found = self.type_fault(state, Type::Value(value))?;
        match found {
            Some(fault) => Err(EncodeFault::Write(fault)),
            None => encode_result(self.write_value(state, value)),
        }
    }
}
