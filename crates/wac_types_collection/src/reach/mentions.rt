//! Adding the types that a type mentions.
ghost use Rattle.std.specs.Prelude.{◌≡◌, ◌∷◌, [], OnOk, true};
ghost use Rattle.wac_types_collection.specs.collection.Collection.{seconds, and_maybe, case_values, value_types, used_types, kind_types, resource_mentions, func_mentions, defined_mentions, interface_mentions, world_mentions, holds_type};
ghost use Rattle.wac_types_collection.specs.reach.Reach.{mentions};
ghost use Rattle.wac_types_collection.specs.private.reach.Found.{with_all};
ghost use Rattle.wac_types_shapes.specs.declared.shapes.component.«Type».TheVariants as ty;

use crate::collection::{
    DefinedType, FuncType, Interface, ItemKind, Named, Resource, Type, Types, UsedType, ValueType,
    World,
};
use crate::reach::reached::Reached;
use std::alloc::AllocError;

impl Reached {
    fn put(&mut self, ty: Type) -> Result<(), AllocError>
        ensures { OnOk result (self.new ≡ with_all self.old (ty ∷ [])) }
    {
        self.types.insert(ty)?;
        Ok(())
    }

    fn put_maybe(&mut self, value: Option<ValueType>) -> Result<(), AllocError>
        ensures { OnOk result (self.new ≡ with_all self.old (value_types (and_maybe value []))) }
    {
        match value {
            Some(value) => self.put(Type::Value(value)),
            None => Ok(()),
        }
    }

    fn put_values(&mut self, values: &[ValueType]) -> Result<(), AllocError>
        ensures { OnOk result (self.new ≡ with_all self.old (value_types values.now)) }
    {
        for value in values {
            self.put(Type::Value(*value))?;
        }
        Ok(())
    }

    fn put_fields(&mut self, fields: &Named<ValueType>) -> Result<(), AllocError>
        ensures { OnOk result (self.new ≡ with_all self.old (value_types (seconds fields.now))) }
    {
        for i in 0..fields.len() {
            self.put(Type::Value(*fields.value_at(i)))?;
        }
        Ok(())
    }

    fn put_cases(&mut self, cases: &Named<Option<ValueType>>) -> Result<(), AllocError>
        ensures { OnOk result (self.new ≡ with_all self.old (value_types (case_values cases.now))) }
    {
        for i in 0..cases.len() {
            self.put_maybe(*cases.value_at(i))?;
        }
        Ok(())
    }

    fn put_uses(&mut self, uses: &Named<UsedType>) -> Result<(), AllocError>
        ensures { OnOk result (self.new ≡ with_all self.old (used_types uses.now)) }
    {
        for i in 0..uses.len() {
            self.put(Type::Interface(uses.value_at(i).interface))?;
        }
        Ok(())
    }

    fn put_items(&mut self, items: &Named<ItemKind>) -> Result<(), AllocError>
        ensures { OnOk result (self.new ≡ with_all self.old (kind_types items.now)) }
    {
        for i in 0..items.len() {
            self.put(items.value_at(i).ty())?;
        }
        Ok(())
    }

    fn put_resource(&mut self, resource: &Resource) -> Result<(), AllocError>
        ensures { OnOk result (self.new ≡ with_all self.old (resource_mentions resource.now)) }
    {
        let Some(alias) = resource.alias else {
            return Ok(());
        };
        self.put(Type::Resource(alias.source))?;
        match alias.owner {
            Some(owner) => self.put(Type::Interface(owner)),
            None => Ok(()),
        }
    }

    fn put_func(&mut self, func: &FuncType) -> Result<(), AllocError>
        ensures { OnOk result (self.new ≡ with_all self.old (func_mentions func.now)) }
    {
        self.put_maybe(func.result)?;
        self.put_fields(&func.params)
    }

    fn put_defined(&mut self, defined: &DefinedType) -> Result<(), AllocError>
        ensures { OnOk result (self.new ≡ with_all self.old (defined_mentions defined.now)) }
    {
        match defined {
            DefinedType::Tuple(types) => self.put_values(types.as_slice()),
            DefinedType::List(value)
            | DefinedType::FixedSizeList(value, _)
            | DefinedType::Option(value)
            | DefinedType::Alias(value) => self.put(Type::Value(*value)),
            DefinedType::Result { ok, err } => {
                self.put_maybe(*ok)?;
                self.put_maybe(*err)
            }
            DefinedType::Variant(variant) => self.put_cases(&variant.cases),
            DefinedType::Record(record) => self.put_fields(&record.fields),
            DefinedType::Flags(_) | DefinedType::Enum(_) => Ok(()),
            DefinedType::Stream(value) | DefinedType::Future(value) => self.put_maybe(*value),
        }
    }

    fn put_interface(&mut self, interface: &Interface) -> Result<(), AllocError>
        ensures { OnOk result (self.new ≡ with_all self.old (interface_mentions interface.now)) }
    {
        self.put_uses(&interface.uses)?;
        self.put_items(&interface.exports)
    }

    fn put_world(&mut self, world: &World) -> Result<(), AllocError>
        ensures { OnOk result (self.new ≡ with_all self.old (world_mentions world.now)) }
    {
        self.put_uses(&world.uses)?;
        self.put_items(&world.imports)?;
        self.put_items(&world.exports)
    }

    fn put_value(&mut self, types: &Types, value: ValueType) -> Result<(), AllocError>
        requires { holds_type types.now (ty.Value value) ≡ true }
        ensures { OnOk result (self.new ≡ with_all self.old (mentions types.now (ty.Value value))) }
    {
        match value {
            ValueType::Primitive(_) => Ok(()),
            ValueType::Borrow(id) | ValueType::Own(id) => self.put(Type::Resource(id)),
            ValueType::Defined(id) => self.put_defined(&types[id]),
        }
    }

    /// Adds the types that a type of the collection mentions and that are not there yet.
    pub(crate) fn put_mentions(&mut self, types: &Types, ty: Type) -> Result<(), AllocError>
        requires { holds_type types.now ty ≡ true }
        ensures { OnOk result (self.new ≡ with_all self.old (mentions types.now ty)) }
    {
        match ty {
            Type::Resource(id) => self.put_resource(&types[id]),
            Type::Func(id) => self.put_func(&types[id]),
            Type::Value(value) => self.put_value(types, value),
            Type::Interface(id) => self.put_interface(&types[id]),
            Type::World(id) => self.put_world(&types[id]),
            Type::Module(_) => Ok(()),
        }
    }
}
