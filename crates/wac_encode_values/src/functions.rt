//! The writer of function types.

ghost use Rattle.wac_encode_scopes.specs.private.Paid.{PaidBy, PaidFor, CoversPart, CoversAll};
ghost use Rattle.std.specs.Prelude.{Some, IfOk, OnOk};
ghost use Rattle.std.specs.List.{AllZip, AllByRecursion};
ghost use Rattle.std.specs.Prelude.{List};
ghost use Rattle.wac_types_shapes.specs.declared.shapes.component.«Type».{«Type» as AnyType};
ghost use Rattle.wac_types_shapes.specs.declared.shapes.component.«Type».TheVariants as ty;
ghost use Rattle.wac_types_collection.specs.collection.Collection.{HasFunc, value_types, seconds};
ghost use Rattle.wac_encode_scopes.specs.States.{AllAddTypes, Goes, IsTypeAt};
ghost use Rattle.wac_encode_scopes.specs.private.Closed.{AreClosedTypes};
ghost use Rattle.wac_encode_values.specs.private.Values.{IsReady};
ghost use Rattle.wac_encode_values.specs.private.Parts.{IsPartReady, AreReady, IsParam, MaybeWrittenAs, IsShortPart, IsShortField};

use crate::encoder::ValueEncoder;
use wac_binary::{BinaryFault, ComponentValType, FuncType};
use wac_encode_scopes::State;
use wac_encode_stacks::{bringing_law, part_law, step_law, still_law, value_law};
use wac_types_collection::{FuncTypeId, Named, Type, ValueType};
use wac_types_weight::weight_law;

impl<'a> ValueEncoder<'a> {
    /// Writes the value types of parameters, in order.
    fn params<'b>(
        &self,
        state: &mut State,
        params: &'b Named<ValueType>,
    ) -> Result<Vec<(&'b str, ComponentValType)>, BinaryFault>
        requires closed { AreClosedTypes self.now.types.now self.now.closed.now }
        requires ready { AreReady self.now.types.now self.now.merged state.old params.now }
        ensures goes { OnOk result (Goes self.now.types.now self.now.merged state.old state.new) }
        ensures written { IfOk result (λ xs. AllZip (IsParam self.now.types.now self.now.merged state.new) params.now xs.items) }
        ensures short { IfOk result (λ xs. AllByRecursion IsShortField xs.items) }
        ensures types { AllAddTypes state.old state.new }
        ensures paid { (ts : List AnyType) → CoversAll self.now.types.now ts (value_types (seconds params.now)) → PaidBy self.now.types.now self.now.merged ts 0 state.old state.new result }
    {
        step_law();
        bringing_law();
        still_law();
        let mut written = Vec::new(self.types.allocator());
        for i in 0..params.len() {
            let (name, value) = params.entry_at(i);
            let value = self.value_type(state, *value)?;
            value_law(value); // proof only
            written.push((name, value))?;
        }
        Ok(written)
    }

    /// Writes an optional value type.
    fn optional(
        &self,
        state: &mut State,
        value: Option<ValueType>,
    ) -> Result<Option<ComponentValType>, BinaryFault>
        requires closed { AreClosedTypes self.now.types.now self.now.closed.now }
        requires ready { IsPartReady self.now.types.now self.now.merged state.old value }
        ensures goes { OnOk result (Goes self.now.types.now self.now.merged state.old state.new) }
        ensures written { IfOk result (MaybeWrittenAs self.now.types.now self.now.merged state.new value) }
        ensures short { IfOk result IsShortPart }
        ensures types { AllAddTypes state.old state.new }
        ensures paid { (ts : List AnyType) → CoversPart self.now.types.now ts value → PaidBy self.now.types.now self.now.merged ts 0 state.old state.new result }
    {
        still_law();
        match value {
            Some(value) => {
                let written = self.value_type(state, value)?;
                value_law(written); // proof only
                Ok(Some(written))
            }
            None => Ok(None),
        }
    }

    /// Adds a function type to the innermost scope, after the value types of its parameters and its result.
    fn define_func(&self, state: &mut State, id: FuncTypeId) -> Result<u32, BinaryFault>
        requires closed { AreClosedTypes self.now.types.now self.now.closed.now }
        requires held { HasFunc self.now.types.now id }
        requires ready { IsReady self.now.types.now self.now.merged state.old (ty.Func id) }
        ensures goes { OnOk result (Goes self.now.types.now self.now.merged state.old state.new) }
        ensures is { IfOk result (IsTypeAt self.now.types.now self.now.merged state.new (ty.Func id)) }
        ensures types { AllAddTypes state.old state.new }
        ensures paid { PaidFor self.now.types.now self.now.merged (ty.Func id) 0 state.old state.new result }
    {
        self.types.law();
        step_law();
        bringing_law();
        part_law();
        weight_law();
        let held = &self.types[id];
        let params = self.params(state, &held.params)?;
        let result = self.optional(state, held.result)?;
        let written = FuncType {
            is_async: held.is_async,
            params: params.as_slice(),
            result,
        };
        state.define_func(self.merged, id, &written)
    }

    /// Returns the type index of a function type in the innermost scope.
    ///
    /// If it has none there, it is written, after the value types of its parameters and its result.
    ///
    /// # Errors
    /// As [`Self::value_type`].
    pub fn func(&self, state: &mut State, id: FuncTypeId) -> Result<u32, BinaryFault>
        requires closed { AreClosedTypes self.now.types.now self.now.closed.now }
        requires held { HasFunc self.now.types.now id }
        requires ready { IsReady self.now.types.now self.now.merged state.old (ty.Func id) }
        ensures goes { OnOk result (Goes self.now.types.now self.now.merged state.old state.new) }
        ensures is { IfOk result (IsTypeAt self.now.types.now self.now.merged state.new (ty.Func id)) }
        ensures types { AllAddTypes state.old state.new }
        ensures paid { PaidFor self.now.types.now self.now.merged (ty.Func id) 0 state.old state.new result }
    {
        step_law();
        still_law();
        match state.index(self.merged, Type::Func(id)) {
            Some(index) => Ok(index),
            None => self.define_func(state, id),
        }
    }
}
