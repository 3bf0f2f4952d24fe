//! The definitions of types.
ghost use Rattle.std.specs.Prelude.{◌≡◌, ◌+◌, ◌*◌, true, None, length, IfOk, IfSome, OnOk, OnErr};
ghost use Rattle.std.specs.List.{flat_map};
ghost use Rattle.wac_types_shapes.specs.declared.shapes.component.«Type».TheVariants as ty_of;
ghost use Rattle.wac_types_collection.specs.collection.Collection.{HasInterface, holds_type};
ghost use Rattle.wac_types_weight.specs.Weight.{is_scope, weight};
ghost use Rattle.wac_binary.specs.Bytes.{decl_bytes};
ghost use Rattle.wac_encode_scopes.specs.Contents.{content_of};
ghost use Rattle.wac_encode_scopes.specs.private.Components.{ComponentHasMeaning, component_tree};
ghost use Rattle.wac_encode_scopes.specs.private.Paid.{PaidFor};
ghost use Rattle.wac_encode_scopes.specs.States.{AllAddTypes, Goes};
ghost use Rattle.wac_encode_interfaces.specs.private.Definitions.{HaveDefinedWorlds, IsDefinable, IsDefinitionAt};
ghost use Rattle.wac_encode_interfaces.specs.private.Paid.{SizedWithin, IsComponentWithin, around_world, definition_cost};
ghost use Rattle.wac_encode_interfaces.specs.private.Worlds.{written_in};
ghost use Rattle.wac_encode_interfaces.specs.private.Writers.{IsWriter};
ghost use Rattle.wac_encode_interfaces.specs.private.Defined.{HasDefinedSides, HasDefinition, IsCleanDefined, IsComponentOf, IsDefinition, IsPlainType, exporting_one};

use crate::sides::Sides;
use crate::writer::TypeWriter;
use wac_binary::{BinaryFault, ComponentType, Description};
use wac_encode_faults::{definition_exports, interface_additional, world_additional};
use wac_encode_scopes::{Side, State};
use wac_encode_stacks::step_law;
use wac_types_collection::{InterfaceId, Named, Type, WorldId};
use wac_types_weight::weight_law;

impl<'a> TypeWriter<'a> {
    /// Returns the component type that the definition of an interface is.
    fn interface_definition(&self, interface: InterfaceId) -> Result<ComponentType, BinaryFault>
        requires writer { IsWriter self.now }
        requires held { HasInterface self.now.types.now interface }
        requires clean { IsCleanDefined self.now.types.now (ty_of.Interface interface) }
        requires worlds { HaveDefinedWorlds self.now.types.now (written_in self.now.worlds.now) (ty_of.Interface interface) }
        ensures is { IfOk result (HasDefinedSides self.now.types.now (ty_of.Interface interface)) }
        ensures small { SizedWithin 17 (64 * weight self.now.types.now (ty_of.Interface interface)) result }
    {
        self.types.law(); // proof only
        weight_law();
        let additional = interface_additional(self.types, interface)?;
        let exports = definition_exports(self.types, interface)?;
        let imports = Named::new(self.types.allocator());
        let uses = Named::new(self.types.allocator());
        self.component_type(&Sides {
            imports: &imports,
            additional: additional.as_slice(),
            exports: &exports,
            uses: &uses,
        })
    }

    /// Returns the component type that the definition of a world exports: the world's, with additional imports.
    fn completed_world(&self, world: WorldId) -> Result<ComponentType, BinaryFault>
        requires writer { IsWriter self.now }
        requires held { holds_type self.now.types.now (ty_of.World world) ≡ true }
        requires clean { IsCleanDefined self.now.types.now (ty_of.World world) }
        requires worlds { HaveDefinedWorlds self.now.types.now (written_in self.now.worlds.now) (ty_of.World world) }
        ensures is { IfOk result (HasDefinedSides self.now.types.now (ty_of.World world)) }
        ensures small { SizedWithin (around_world self.now.types.now world) (64 * weight self.now.types.now (ty_of.World world)) result }
    {
        self.types.law(); // proof only
        weight_law();
        let additional = world_additional(self.types, world)?;
        let item = &self.types[world];
        self.component_type(&Sides {
            imports: &item.imports,
            additional: additional.as_slice(),
            exports: &item.exports,
            uses: &item.uses,
        })
    }

    /// Returns a component type that exports a component of this type.
    fn exporting(&self, name: &str, component: &ComponentType) -> Result<ComponentType, BinaryFault>
        requires { ComponentHasMeaning component.now }
        ensures is { IfOk result (IsComponentOf (exporting_one name.now (component_tree component.now))) }
        ensures small { SizedWithin 17 (44 + 2 * length name.now + length (flat_map decl_bytes component.now)) result }
    {
        let mut state = State::component(self.types.allocator());
        let index = state.define_component(self.merged, None, component)?;
        state.list(Side::Export, name, Description::Component(index))?;
        Ok(state.finish_component())
    }

    /// Returns the component type that the definition of a world is.
    fn world_definition(&self, world: WorldId) -> Result<ComponentType, BinaryFault>
        requires writer { IsWriter self.now }
        requires ready { HasDefinition self.now.types.now (written_in self.now.worlds.now) (ty_of.World world) }
        ensures is { IfOk result (IsDefinition self.now.types.now (ty_of.World world)) }
        ensures small { SizedWithin 17 (64 * weight self.now.types.now (ty_of.World world)) result }
    {
        let Some(name) = &self.types[world].id else {
            unreachable!()
        };
        let component = self.completed_world(world)?;
        self.exporting(name.as_str(), &component)
    }

    /// Returns the component type that the definition of a type is, if it is one.
    fn definition_component(&self, ty: Type) -> Result<Option<ComponentType>, BinaryFault>
        requires writer { IsWriter self.now }
        requires ready { HasDefinition self.now.types.now (written_in self.now.worlds.now) ty }
        ensures component { IfOk result (λ o. IfSome o (IsDefinition self.now.types.now ty)) }
        ensures plain { IfOk result (λ o. o ≡ None → IsPlainType ty) }
        ensures small { IsComponentWithin (64 * weight self.now.types.now ty) result }
        ensures scope { OnErr result (is_scope ty ≡ true) }
    {
        match ty {
            Type::Interface(id) => {
                let component = self.interface_definition(id)?;
                Ok(Some(component))
            }
            Type::World(id) => {
                let component = self.world_definition(id)?;
                Ok(Some(component))
            }
            _ => Ok(None),
        }
    }

    /// Writes the definition of a type into the innermost scope. Returns its type index.
    ///
    /// - Of a value type, a function type or a resource it is the type itself. A value type that has a name there has the
    ///   index of its name.
    /// - Of an interface it is a component type that exports the instance under the interface's id. It imports the
    ///   interfaces that the instance uses, with their types only.
    /// - Of a world it is a component type that exports a component of the world's type under the world's id. That type
    ///   also imports the interfaces that the world uses and does not list, with their types only.
    ///
    /// # Errors
    /// - `TooLarge` if the content of a scope would not fit 32-bit sizes.
    /// - `OutOfMemory`.
    ///
    /// After an error the scopes have what they had, and perhaps types after it. They must be dropped.
    pub fn definition(&self, state: &mut State, ty: Type) -> Result<u32, BinaryFault>
        requires writer { IsWriter self.now }
        requires ready { IsDefinable self.now.types.now self.now.merged (written_in self.now.worlds.now) state.old ty }
        ensures goes { OnOk result (Goes self.now.types.now self.now.merged state.old state.new) }
        ensures is { IfOk result (IsDefinitionAt self.now.types.now self.now.merged state.new ty) }
        ensures types { AllAddTypes state.old state.new }
        ensures paid { PaidFor self.now.types.now self.now.merged ty (definition_cost self.now.types.now (content_of state.old.here.content) ty) state.old state.new result }
    {
        step_law();
        let defined = self.definition_component(ty)?;
        match defined {
            Some(component) => state.define_component(self.merged, None, &component),
            None => self.type_index(state, ty),
        }
    }
}
