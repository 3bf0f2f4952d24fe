//! Resolution of aliases.
ghost use Rattle.std.specs.Prelude.{◌≡◌, None, slice_get};
ghost use Rattle.wac_types_collection.specs.collection.Collection.{holds_type, holds_value};
ghost use Rattle.wac_types_collection.specs.collection.Held.{resolved, source_of};
ghost use Rattle.wac_types_shapes.specs.declared.shapes.component.«Type».TheVariants as ty;
ghost use Rattle.wac_types_collection.specs.collection.Aliases.{target_of, value_resolved, handle_resolved, type_resolved};

use crate::collection::collection::Types;
use wac_types_shapes::{ResourceId, Type, ValueType};

impl Types {
    /// Follows the aliases of a resource to their end.
    ///
    /// The result is not an alias. It is of the collection if and only if `id` is.
    #[tactic(auto, using(crate::proofs::lemmas::collection::Ends::resource_end_is_held, crate::proofs::lemmas::collection::Ends::resource_end_no_alias))]
    pub fn resolve_resource(&self, id: ResourceId) -> ResourceId
        ensures end { result ≡ resolved self.now id }
        ensures held { holds_type self.now (ty.Resource result) ≡ holds_type self.now (ty.Resource id) }
        ensures no_alias { source_of (slice_get self.now.resources result.0) ≡ None }
    {
        self.law();
        self.resource_end(id)
    }

    /// Follows the aliases of a value type to their end.
    ///
    /// The result is not an alias. It is of the collection if and only if `value` is.
    #[tactic(auto, using(crate::proofs::lemmas::collection::Ends::end_is_held, crate::proofs::lemmas::collection::Ends::end_no_alias))]
    pub fn resolve_value_type(&self, value: ValueType) -> ValueType
        ensures end { result ≡ value_resolved self.now value }
        ensures held { holds_value self.now result ≡ holds_value self.now value }
        ensures no_alias { target_of self.now result ≡ None }
    {
        self.law();
        self.value_end(value)
    }

    // Resolves the aliases of a type. Of a handle, the resource's aliases are resolved too.
    pub(crate) fn resolve_type(&self, ty: Type) -> Type
        ensures { result ≡ type_resolved self.now ty }
    {
        match ty {
            Type::Resource(id) => Type::Resource(self.resolve_resource(id)),
            Type::Value(value) => Type::Value(self.resolve_handle(self.resolve_value_type(value))),
            _ => ty,
        }
    }

    // Resolves the aliases of the resource of a handle. Any other value type is returned unchanged.
    fn resolve_handle(&self, value: ValueType) -> ValueType
        ensures { result ≡ handle_resolved self.now value }
    {
        match value {
            ValueType::Own(id) => ValueType::Own(self.resolve_resource(id)),
            ValueType::Borrow(id) => ValueType::Borrow(self.resolve_resource(id)),
            _ => value,
        }
    }
}
