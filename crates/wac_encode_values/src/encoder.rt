//! The writer of value types.

ghost use Rattle.wac_encode_scopes.specs.private.Paid.{PaidFor};
ghost use Rattle.std.specs.Prelude.{◌≡◌, true, None, Some, IfOk, OnOk, IfSome};
ghost use Rattle.wac_types_shapes.specs.declared.shapes.component.ValueType.TheVariants as val;
ghost use Rattle.wac_types_shapes.specs.declared.shapes.component.«Type».TheVariants as ty;
ghost use Rattle.wac_types_collection.specs.collection.Collection.{HasDefined, holds_type, holds_value};
ghost use Rattle.wac_binary.specs.declared.types.ComponentValType.TheVariants.{Index};
ghost use Rattle.wac_encode_scopes.specs.States.{AllAddTypes, Goes};
ghost use Rattle.wac_encode_scopes.specs.private.Closed.{AreClosedTypes};
ghost use Rattle.wac_encode_values.specs.private.Values.{IsReady, IsWrittenAs, IsByName};
ghost use Rattle.wac_encode_values.specs.private.Parts.{IsFound, IsFoundByName, IsNameFirst};

use crate::task::Part;
use wac_binary::{BinaryFault, ComponentValType};
use wac_encode_scopes::{ClosedTypes, State};
use wac_encode_stacks::{alias_law, part_law, step_law, still_law};
use wac_types_collection::{DefinedTypeId, ResourceId, Type, Types, ValueType};
use wac_types_weight::weight_law;

/// Writes the value types and function types of a collection into open scopes.
///
/// A definition that has a name in the innermost scope, or in an enclosing one from which it may be aliased, is written by
/// that name. Other definitions and handles are written as types, once in a scope, each after its parts.
///
/// The resources that a type mentions must be bound in the innermost scope. A call that fails may have added types, as
/// those of [`State`] do.
#[derive(Clone, Copy)]
pub struct ValueEncoder<'a> {
    /// The collection.
    pub(crate) types: &'a Types,
    /// Its definitions that mention no resource.
    pub(crate) closed: &'a ClosedTypes,
    /// Whether it is the merged collection, or else the graph's own.
    pub(crate) merged: bool,
}

impl<'a> ValueEncoder<'a> {
    /// Returns a writer of a collection's types: the merged collection's, or else the graph's own.
    ///
    /// `closed` must be the definitions of that collection that mention no resource.
    pub fn new(types: &'a Types, closed: &'a ClosedTypes, merged: bool) -> ValueEncoder<'a>
        ensures types { result.types.now ≡ types.now }
        ensures closed { result.closed.now ≡ closed.now }
        ensures merged { result.merged ≡ merged }
    {
        ValueEncoder {
            types,
            closed,
            merged,
        }
    }

    /// Returns the type index of an `own` handle in the innermost scope, where it is written if it was not.
    fn own(&self, state: &mut State, resource: ResourceId) -> Result<u32, BinaryFault>
        requires { IsReady self.now.types.now self.now.merged state.old (ty.Value (val.Own resource)) }
        ensures goes { OnOk result (Goes self.now.types.now self.now.merged state.old state.new) }
        ensures written { IfOk result (λ i. IsWrittenAs self.now.types.now self.now.merged state.new (val.Own resource) (Index i)) }
        ensures types { AllAddTypes state.old state.new }
        ensures paid { holds_type self.now.types.now (ty.Resource resource) ≡ true → PaidFor self.now.types.now self.now.merged (ty.Value (val.Own resource)) 0 state.old state.new result }
    {
        weight_law();
        step_law();
        part_law();
        still_law();
        let end = self.types.resolve_resource(resource);
        match state.index(self.merged, Type::Value(ValueType::Own(end))) {
            Some(index) => Ok(index),
            None => state.own(self.merged, end),
        }
    }

    /// Returns the type index of a `borrow` handle in the innermost scope, where it is written if it was not.
    fn borrow(&self, state: &mut State, resource: ResourceId) -> Result<u32, BinaryFault>
        requires { IsReady self.now.types.now self.now.merged state.old (ty.Value (val.Borrow resource)) }
        ensures goes { OnOk result (Goes self.now.types.now self.now.merged state.old state.new) }
        ensures written { IfOk result (λ i. IsWrittenAs self.now.types.now self.now.merged state.new (val.Borrow resource) (Index i)) }
        ensures types { AllAddTypes state.old state.new }
        ensures paid { holds_type self.now.types.now (ty.Resource resource) ≡ true → PaidFor self.now.types.now self.now.merged (ty.Value (val.Borrow resource)) 0 state.old state.new result }
    {
        weight_law();
        step_law();
        part_law();
        still_law();
        let end = self.types.resolve_resource(resource);
        match state.index(self.merged, Type::Value(ValueType::Borrow(end))) {
            Some(index) => Ok(index),
            None => state.borrow(self.merged, end),
        }
    }

    /// Returns the type index of a definition in the innermost scope, if it has a name or is written there.
    ///
    /// The name comes first. It is brought from an enclosing scope if it is not in the innermost one.
    fn find_definition(
        &self,
        state: &mut State,
        id: DefinedTypeId,
    ) -> Result<Option<u32>, BinaryFault>
        requires closed { AreClosedTypes self.now.types.now self.now.closed.now }
        requires held { HasDefined self.now.types.now id }
        ensures goes { OnOk result (Goes self.now.types.now self.now.merged state.old state.new) }
        ensures written { IfOk result (λ x. IfSome x (λ i. IsWrittenAs self.now.types.now self.now.merged state.new (val.Defined id) (Index i))) }
        ensures named { IfOk result (IsNameFirst self.now.closed.now self.now.merged state.old state.new id) }
        ensures types { AllAddTypes state.old state.new }
        ensures paid { PaidFor self.now.types.now self.now.merged (ty.Value (val.Defined id)) 0 state.old state.new result }
    {
        step_law();
        let is_closed = self.closed.contains(id);
        match state.bring(self.merged, id, is_closed)? {
            Some(index) => Ok(Some(index)),
            None => Ok(state.index(self.merged, Type::Value(ValueType::Defined(id)))),
        }
    }

    /// Returns a value type as it is written, or the definition at the end of its aliases if it is not written yet.
    pub(crate) fn find(&self, state: &mut State, value: ValueType) -> Result<Part, BinaryFault>
        requires closed { AreClosedTypes self.now.types.now self.now.closed.now }
        requires held { holds_value self.now.types.now value ≡ true }
        requires ready { IsReady self.now.types.now self.now.merged state.old (ty.Value value) }
        ensures goes { OnOk result (Goes self.now.types.now self.now.merged state.old state.new) }
        ensures found { IfOk result (IsFound self.now.types.now self.now.merged state.new value) }
        ensures named { IfOk result (IsFoundByName self.now.types.now self.now.closed.now self.now.merged state.old state.new value) }
        ensures types { AllAddTypes state.old state.new }
        ensures paid { PaidFor self.now.types.now self.now.merged (ty.Value value) 0 state.old state.new result }
    {
        self.types.law();
        alias_law();
        still_law();
        weight_law();
        let end = self.types.resolve_value_type(value);
        match end {
            ValueType::Primitive(primitive) => {
                Ok(Part::Written(ComponentValType::Primitive(primitive)))
            }
            ValueType::Own(resource) => {
                let index = self.own(state, resource)?;
                Ok(Part::Written(ComponentValType::Index(index)))
            }
            ValueType::Borrow(resource) => {
                let index = self.borrow(state, resource)?;
                Ok(Part::Written(ComponentValType::Index(index)))
            }
            ValueType::Defined(id) => match self.find_definition(state, id)? {
                Some(index) => Ok(Part::Written(ComponentValType::Index(index))),
                None => Ok(Part::Missing(id)),
            },
        }
    }

    /// Writes a value type in the innermost scope and returns it as it is used there.
    ///
    /// A definition that has a name is written by it. The parts of any other are written before it.
    ///
    /// # Errors
    /// - `TooLarge` if the content of a scope, or the count of an outer alias, would not fit 32-bit sizes.
    /// - `OutOfMemory`.
    pub fn value_type(
        &self,
        state: &mut State,
        value: ValueType,
    ) -> Result<ComponentValType, BinaryFault>
        requires closed { AreClosedTypes self.now.types.now self.now.closed.now }
        requires held { holds_value self.now.types.now value ≡ true }
        requires ready { IsReady self.now.types.now self.now.merged state.old (ty.Value value) }
        ensures goes { OnOk result (Goes self.now.types.now self.now.merged state.old state.new) }
        ensures written { IfOk result (IsWrittenAs self.now.types.now self.now.merged state.new value) }
        ensures named { IfOk result (IsByName self.now.types.now self.now.closed.now self.now.merged state.old state.new value) }
        ensures types { AllAddTypes state.old state.new }
        ensures paid { PaidFor self.now.types.now self.now.merged (ty.Value value) 0 state.old state.new result }
    {
        self.types.law();
        alias_law();
        step_law();
        weight_law();
        match self.find(state, value)? {
            Part::Written(written) => Ok(written),
            Part::Missing(id) => self.write(state, id),
        }
    }
}
