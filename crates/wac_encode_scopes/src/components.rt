//! Component types, core module types and primitive types.

ghost use Rattle.wac_encode_scopes.specs.private.Paid.{PaidBy, primitive_cost};
ghost use Rattle.std.specs.Prelude.{◌≡◌, ◌+◌, ◌∷◌, [], Bool, length, IfOk, OnOk, IfSome};
ghost use Rattle.std.specs.List.{flat_map};
ghost use Rattle.wac_binary.specs.Bytes.{decl_bytes, module_bytes};
ghost use Rattle.wac_types_shapes.specs.primitives.Tree.{component as component_of};
ghost use Rattle.wac_types_shapes.specs.declared.shapes.component.«Type».TheVariants as ty;
ghost use Rattle.wac_types_collection.specs.collection.Collection.{Collection};
ghost use Rattle.wac_types_collection.specs.collection.Bound.{Bindings};
ghost use Rattle.wac_encode_stacks.specs.Scopes.{defined};
ghost use Rattle.wac_encode_stacks.specs.Good.{Good, innermost};
ghost use Rattle.wac_encode_scopes.specs.Contents.{content_of, declarations_of};
ghost use Rattle.wac_encode_scopes.specs.States.{stack, AllAddTypes, KeepsRecords, IsRecordedAt};
ghost use Rattle.wac_encode_scopes.specs.private.Components.{IsComponentType, ComponentHasMeaning, component_tree, DefinesComponent, DefinesModuleType, DefinesPrimitiveType};

use crate::encodable::Encodable;
use crate::state::State;
use wac_binary::{BinaryFault, ComponentType, ModuleType};
use wac_encode_stacks::{closing_law, module_law, size_law, step_law};
use wac_types_collection::{PrimitiveType, WorldId};

impl State {
    /// Returns the component type that is the content of the only scope. See [`Self::component`].
    pub fn finish_component(self) -> ComponentType
        requires { IsComponentType self.here.content }
        ensures declarations { result ≡ declarations_of self.here.content }
        ensures meaning { (c : Collection) (b : Bool) (m : Bindings) → Good c (m ∷ []) (stack b self) → ComponentHasMeaning result }
        ensures tree { (b : Bool) → self.around.items ≡ [] → component_tree result ≡ component_of ((innermost (stack b self)).imports) ((innermost (stack b self)).exports) }
    {
        match self.into_content() {
            Encodable::Component(component) => component,
            Encodable::Builder(_) | Encodable::Instance(_) => unreachable!(),
        }
    }

    /// Adds a component type to the innermost scope and returns its type index. If a world is given, records it there.
    ///
    /// # Errors
    /// - `TooLarge` if the content of the scope would not fit 32-bit sizes.
    /// - `OutOfMemory`.
    pub fn define_component(
        &mut self,
        merged: bool,
        world: Option<WorldId>,
        component: &ComponentType,
    ) -> Result<u32, BinaryFault>
        ensures defines { IfOk result (DefinesComponent merged world component.now self.old self.new) }
        ensures recorded { IfOk result (λ k. IfSome world (λ w. IsRecordedAt merged self.new (ty.World w) defined k)) }
        ensures types { AllAddTypes self.old self.new }
        ensures paid { (c : Collection) (b : Bool) → PaidBy c b [] (17 + length (flat_map decl_bytes component.now)) self.old self.new result }
    {
        closing_law();
        step_law();
        size_law();
        match world {
            Some(world) => self.here.define_world(merged, world, component),
            None => self.here.define_component(component),
        }
    }

    /// Adds a core module type to the innermost scope and returns its core type index.
    ///
    /// # Errors
    /// - `TooLarge` if the content of the scope would not fit 32-bit sizes.
    /// - `OutOfMemory`.
    pub fn define_module(&mut self, declarations: &ModuleType) -> Result<u32, BinaryFault>
        ensures defines { IfOk result (DefinesModuleType declarations.now self.old self.new) }
        ensures types { AllAddTypes self.old self.new }
        ensures paid { (c : Collection) (b : Bool) → PaidBy c b [] (11 + length (module_bytes declarations.now)) self.old self.new result }
    {
        module_law();
        size_law();
        self.here.define_module(declarations)
    }

    /// Defines a primitive type in the innermost scope and returns its type index. Nothing is recorded.
    ///
    /// # Errors
    /// - `TooLarge` if the content of the scope would not fit 32-bit sizes.
    /// - `OutOfMemory`.
    pub fn define_primitive(&mut self, primitive: PrimitiveType) -> Result<u32, BinaryFault>
        ensures defines { IfOk result (DefinesPrimitiveType primitive self.old self.new) }
        ensures records { OnOk result (KeepsRecords self.old self.new) }
        ensures types { AllAddTypes self.old self.new }
        ensures paid { (c : Collection) (b : Bool) → PaidBy c b [] (primitive_cost (content_of self.old.here.content)) self.old self.new result }
    {
        step_law();
        size_law();
        self.here.define_primitive(primitive)
    }
}
