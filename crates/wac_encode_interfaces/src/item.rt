//! Items of instance types and component types.

ghost use Rattle.std.specs.Prelude.{◌≡◌, ◌+◌, ◌*◌, [], true, length, IfOk, OnOk, Some};
ghost use Rattle.wac_types_shapes.specs.declared.shapes.component.ItemKind.TheVariants as kind_of;
ghost use Rattle.wac_types_shapes.specs.declared.shapes.component.ValueType.TheVariants as val;
ghost use Rattle.wac_types_shapes.specs.declared.shapes.component.«Type».TheVariants as ty_of;
ghost use Rattle.wac_types_shapes.specs.shapes.Kinds.{kind_type};
ghost use Rattle.wac_types_collection.specs.collection.Collection.{holds_type};
ghost use Rattle.wac_encode_stacks.specs.Scopes.{Open};
ghost use Rattle.wac_encode_scopes.specs.Contents.{HasSide, content_of, side_of};
ghost use Rattle.wac_encode_scopes.specs.private.Paid.{PaidBy, PaidFor, primitive_cost, type_cost, world_cost};
ghost use Rattle.wac_encode_scopes.specs.States.{AllAddTypes, Goes, IsTypeAt, RecordsHere};
ghost use Rattle.wac_encode_values.specs.private.Values.{IsReady};
ghost use Rattle.wac_encode_interfaces.specs.private.Worlds.{HaveWorlds, written_in};
ghost use Rattle.wac_encode_interfaces.specs.private.Items.{AddsBeside, AddsItem, DescribesItem, IsItemReady, IsTypeIndex};
ghost use Rattle.wac_encode_interfaces.specs.private.Refused.{KeepsScopes};
ghost use Rattle.wac_encode_interfaces.specs.private.Writers.{IsWriter};
ghost use Rattle.wac_encode_interfaces.specs.private.Names.{NamesType, recorded_type};

use crate::writer::TypeWriter;
use wac_binary::{BinaryFault, ComponentValType, Description};
use wac_encode_scopes::{How, Side, State};
use wac_encode_stacks::{bringing_law, part_law, step_law, still_law};
use wac_types_collection::{ItemKind, PrimitiveType, Type, ValueType, WorldId};
use wac_types_weight::weight_law;

impl<'a> TypeWriter<'a> {
    /// Returns the type index of a world in the innermost scope, where it is written if it was not.
    pub(crate) fn world(&self, state: &mut State, world: WorldId) -> Result<u32, BinaryFault>
        requires writer { IsWriter self.now }
        requires written { HaveWorlds self.now.types.now (written_in self.now.worlds.now) (ty_of.World world) }
        ensures goes { OnOk result (Goes self.now.types.now self.now.merged state.old state.new) }
        ensures is { IfOk result (IsTypeAt self.now.types.now self.now.merged state.new (ty_of.World world)) }
        ensures types { AllAddTypes state.old state.new }
        ensures paid { PaidFor self.now.types.now self.now.merged (ty_of.World world) (world_cost self.now.types.now world) state.old state.new result }
    {
        step_law();
        still_law();
        if let Some(index) = state.index(self.merged, Type::World(world)) {
            return Ok(index);
        }
        let Some(component) = self.worlds.get(world) else {
            unreachable!()
        };
        state.define_component(self.merged, Some(world), component)
    }

    /// Returns the type index of a primitive type in the innermost scope, where it is defined if it has none.
    fn primitive(&self, state: &mut State, primitive: PrimitiveType) -> Result<u32, BinaryFault>
        requires { IsReady self.now.types.now self.now.merged state.old (ty_of.Value (val.Primitive primitive)) }
        ensures goes { OnOk result (Goes self.now.types.now self.now.merged state.old state.new) }
        ensures is { IfOk result (IsTypeAt self.now.types.now self.now.merged state.new (ty_of.Value (val.Primitive primitive))) }
        ensures types { AllAddTypes state.old state.new }
        ensures paid { PaidBy self.now.types.now self.now.merged [] (primitive_cost (content_of state.old.here.content)) state.old state.new result }
    {
        step_law();
        still_law();
        let ty = Type::Value(ValueType::Primitive(primitive));
        match state.index(self.merged, ty) {
            Some(index) => Ok(index),
            None => state.define_primitive(primitive),
        }
    }

    /// Returns a type index of a value type in the innermost scope.
    fn value(&self, state: &mut State, value: ValueType) -> Result<u32, BinaryFault>
        requires writer { IsWriter self.now }
        requires held { holds_type self.now.types.now (ty_of.Value value) ≡ true }
        requires ready { IsReady self.now.types.now self.now.merged state.old (ty_of.Value value) }
        ensures goes { OnOk result (Goes self.now.types.now self.now.merged state.old state.new) }
        ensures is { IfOk result (IsTypeAt self.now.types.now self.now.merged state.new (ty_of.Value value)) }
        ensures types { AllAddTypes state.old state.new }
        ensures paid { PaidFor self.now.types.now self.now.merged (ty_of.Value value) (primitive_cost (content_of state.old.here.content)) state.old state.new result }
    {
        step_law();
        bringing_law();
        let written = self.values.value_type(state, value)?;
        match written {
            ComponentValType::Index(index) => Ok(index),
            ComponentValType::Primitive(primitive) => self.primitive(state, primitive),
        }
    }

    /// Returns the type index in the innermost scope of a type whose interface, if it is one, is recorded there. Of a
    /// resource, the index of the resource itself.
    pub(crate) fn type_index(&self, state: &mut State, ty: Type) -> Result<u32, BinaryFault>
        requires writer { IsWriter self.now }
        requires ready { IsItemReady self.now.types.now self.now.merged (written_in self.now.worlds.now) state.old (kind_of.TypeItem ty) }
        ensures goes { OnOk result (Goes self.now.types.now self.now.merged state.old state.new) }
        ensures is { IfOk result (IsTypeIndex self.now.types.now self.now.merged state.new ty) }
        ensures types { AllAddTypes state.old state.new }
        ensures paid { PaidFor self.now.types.now self.now.merged ty (type_cost self.now.types.now (content_of state.old.here.content) ty) state.old state.new result }
    {
        self.types.law(); // proof only
        step_law();
        part_law();
        still_law();
        weight_law();
        match ty {
            Type::Resource(id) => {
                let end = self.types.resolve_resource(id);
                state.bring_resource(self.merged, end)
            }
            Type::Value(value) => self.value(state, value),
            Type::Func(id) => self.values.func(state, id),
            Type::World(id) => self.world(state, id),
            Type::Interface(id) => match state.index(self.merged, Type::Interface(id)) {
                Some(index) => Ok(index),
                None => unreachable!(),
            },
            Type::Module(_) => unreachable!(),
        }
    }

    /// Writes the type of an item. Returns the item's description.
    pub(crate) fn describe(
        &self,
        state: &mut State,
        item: ItemKind,
    ) -> Result<Description, BinaryFault>
        requires writer { IsWriter self.now }
        requires ready { IsItemReady self.now.types.now self.now.merged (written_in self.now.worlds.now) state.old item }
        ensures goes { OnOk result (Goes self.now.types.now self.now.merged state.old state.new) }
        ensures describes { IfOk result (DescribesItem self.now.types.now self.now.merged state.new item) }
        ensures types { AllAddTypes state.old state.new }
        ensures paid { PaidFor self.now.types.now self.now.merged (kind_type item) (type_cost self.now.types.now (content_of state.old.here.content) (kind_type item)) state.old state.new result }
    {
        let ty = item.ty();
        let index = self.type_index(state, ty)?;
        match item {
            ItemKind::TypeItem(_) => Ok(Description::Equal(index)),
            ItemKind::Func(_) => Ok(Description::Func(index)),
            ItemKind::Instance(_) => Ok(Description::Instance(index)),
            ItemKind::Component(_) => unreachable!(),
            ItemKind::Module(_) => unreachable!(),
            ItemKind::Value(_) => unreachable!(),
        }
    }

    /// Returns the type under which a type item is recorded, if there is one: its type, without aliases.
    fn recorded_type(&self, item: ItemKind) -> Option<Type>
        ensures { result ≡ recorded_type self.now.types.now item }
    {
        let ItemKind::TypeItem(ty) = item else {
            return None;
        };
        match ty {
            Type::Value(value) => Some(Type::Value(self.types.resolve_value_type(value))),
            Type::Func(_) | Type::Interface(_) | Type::World(_) => Some(ty),
            Type::Resource(_) | Type::Module(_) => None,
        }
    }

    /// Records a type item of the innermost scope as a name of its type, unless an earlier item names it.
    pub(crate) fn record_item(
        &self,
        state: &mut State,
        item: ItemKind,
        index: u32,
    ) -> Result<(), BinaryFault>
        ensures goes { OnOk result (NamesType self.now.types.now self.now.merged state.old item index → Goes self.now.types.now self.now.merged state.old state.new) }
        ensures records { OnOk result ((f : Open → Open) × RecordsHere self.now.merged f state.old state.new) }
        ensures types { AllAddTypes state.old state.new }
        ensures paid { PaidBy self.now.types.now self.now.merged [] 0 state.old state.new result }
    {
        self.types.law(); // proof only
        still_law();
        let Some(ty) = self.recorded_type(item) else {
            return Ok(());
        };
        let is_listed = state.is_listed(self.merged, ty);
        if is_listed {
            return Ok(());
        }
        state.record(self.merged, ty, How::Listed, index)
    }

    /// Adds an item to a side of the innermost scope, an open type, after its type. The item is no fresh resource. Returns
    /// its index in the index space of its sort.
    pub(crate) fn add_item(
        &self,
        state: &mut State,
        side: Side,
        name: &str,
        item: ItemKind,
    ) -> Result<u32, BinaryFault>
        requires writer { IsWriter self.now }
        requires side { HasSide (side_of side) state.old.here.content }
        requires ready { IsItemReady self.now.types.now self.now.merged (written_in self.now.worlds.now) state.old item }
        ensures adds { IfOk result (AddsItem self.now.types.now self.now.merged (side_of side) name.now item state.old state.new) }
        ensures beside { OnOk result (AddsBeside self.now.merged (side_of side) name.now state.old state.new) }
        ensures kept { KeepsScopes state.old state.new }
        ensures paid { PaidFor self.now.types.now self.now.merged (kind_type item) (10 + 2 * length name.now + type_cost self.now.types.now (content_of state.old.here.content) (kind_type item)) state.old state.new result }
    {
        bringing_law();
        let description = self.describe(state, item)?;
        let index = state.list(side, name, description)?;
        self.record_item(state, item, index)?;
        Ok(index)
    }
}
