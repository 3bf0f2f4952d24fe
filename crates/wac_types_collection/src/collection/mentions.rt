//! Whether all that an item mentions is of the collection.
ghost use Rattle.std.specs.Prelude.{◌≡◌, []};
ghost use Rattle.wac_types_collection.specs.collection.Collection.{seconds, and_maybe, case_values, value_types, used_types, kind_types, resource_mentions, func_mentions, defined_mentions, interface_mentions, world_mentions, holds_all};

use crate::collection::collection::Types;
use wac_types_shapes::{
    DefinedType, FuncType, Interface, ItemKind, Named, Resource, Type, UsedType, ValueType, World,
};

impl Types {
    pub(crate) fn contains_alias(&self, resource: &Resource) -> bool
        ensures { result ≡ holds_all self.now (resource_mentions resource.now) }
    {
        resource.alias.is_none_or(|alias| {
            self.contains(Type::Resource(alias.source))
                && alias
                    .owner
                    .is_none_or(|owner| self.contains(Type::Interface(owner)))
        })
    }

    fn contains_maybe(&self, value: Option<ValueType>) -> bool
        ensures { result ≡ holds_all self.now (value_types (and_maybe value [])) }
    {
        value.is_none_or(|value| self.contains_value(value))
    }

    fn contains_values(&self, values: &[ValueType]) -> bool
        ensures { result ≡ holds_all self.now (value_types values.now) }
    {
        values.iter().all(|value| self.contains_value(*value))
    }

    fn contains_params(&self, params: &Named<ValueType>) -> bool
        ensures { result ≡ holds_all self.now (value_types (seconds params.now)) }
    {
        params.iter().all(|(_, value)| self.contains_value(*value))
    }

    fn contains_cases(&self, cases: &Named<Option<ValueType>>) -> bool
        ensures { result ≡ holds_all self.now (value_types (case_values cases.now)) }
    {
        cases.iter().all(|(_, value)| self.contains_maybe(*value))
    }

    #[tactic(auto, using(crate::proofs::lemmas::collection::Mentioned::maybe_first))]
    pub(crate) fn contains_func(&self, func: &FuncType) -> bool
        ensures { result ≡ holds_all self.now (func_mentions func.now) }
    {
        self.contains_maybe(func.result) && self.contains_params(&func.params)
    }

    pub(crate) fn contains_defined(&self, defined: &DefinedType) -> bool
        ensures { result ≡ holds_all self.now (defined_mentions defined.now) }
    {
        match defined {
            DefinedType::Tuple(types) => self.contains_values(types.as_slice()),
            DefinedType::List(value)
            | DefinedType::FixedSizeList(value, _)
            | DefinedType::Option(value)
            | DefinedType::Alias(value) => self.contains_value(*value),
            DefinedType::Result { ok, err } => {
                self.contains_maybe(*ok) && self.contains_maybe(*err)
            }
            DefinedType::Variant(variant) => self.contains_cases(&variant.cases),
            DefinedType::Record(record) => self.contains_params(&record.fields),
            DefinedType::Flags(_) | DefinedType::Enum(_) => true,
            DefinedType::Stream(value) | DefinedType::Future(value) => self.contains_maybe(*value),
        }
    }

    fn contains_used(&self, uses: &Named<UsedType>) -> bool
        ensures { result ≡ holds_all self.now (used_types uses.now) }
    {
        uses.iter()
            .all(|(_, used)| self.contains(Type::Interface(used.interface)))
    }

    fn contains_items(&self, items: &Named<ItemKind>) -> bool
        ensures { result ≡ holds_all self.now (kind_types items.now) }
    {
        items.iter().all(|(_, kind)| self.contains(kind.ty()))
    }

    pub(crate) fn contains_interface(&self, interface: &Interface) -> bool
        ensures { result ≡ holds_all self.now (interface_mentions interface.now) }
    {
        self.contains_used(&interface.uses) && self.contains_items(&interface.exports)
    }

    pub(crate) fn contains_world(&self, world: &World) -> bool
        ensures { result ≡ holds_all self.now (world_mentions world.now) }
    {
        self.contains_used(&world.uses)
            && self.contains_items(&world.imports)
            && self.contains_items(&world.exports)
    }
}
