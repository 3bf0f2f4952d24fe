//! The writer of definitions, each after its parts.

ghost use Rattle.wac_encode_scopes.specs.private.Paid.{PaidBy, PaidFor, CoversPart, IsSizedAs};
ghost use Rattle.std.specs.Prelude.{◌≡◌, ◌≤◌, List, Some, IfOk, OnOk, length};
ghost use Rattle.wac_types_shapes.specs.declared.shapes.component.«Type».{«Type» as AnyType};
ghost use Rattle.wac_types_shapes.specs.declared.shapes.component.«Type».TheVariants as ty;
ghost use Rattle.wac_types_shapes.specs.declared.shapes.component.ValueType.TheVariants as val;
ghost use Rattle.wac_types_shapes.specs.declared.shapes.component.DefinedType.{DefinedType as AnyDefined};
ghost use Rattle.wac_types_collection.specs.collection.Collection.{item_at};
ghost use Rattle.wac_binary.specs.Views.{defined_of};
ghost use Rattle.wac_encode_scopes.specs.States.{AllAddTypes, Goes, SaysWritten};
ghost use Rattle.wac_encode_scopes.specs.private.Closed.{AreClosedTypes};
ghost use Rattle.wac_encode_values.specs.private.Values.{IsWrittenAs};
ghost use Rattle.wac_encode_values.specs.private.Parts.{CanBegin, IsPartReady, IsAdded, AreFirstParts, AreParts, IsFilled, IsAdvanced};

use crate::encoder::ValueEncoder;
use crate::rows::{cases_of, fields_of, labels_of, plain_definition, values_of};
use crate::task::{Part, Task};
use std::mem::replace;
use wac_binary::{BinaryFault, ComponentValType, DefinedType};
use wac_encode_scopes::{State, part_at};
use wac_encode_stacks::{alias_law, bringing_law, part_law, step_law, still_law};
use wac_types_collection::{DefinedType as HeldType, DefinedTypeId, ValueType};
use wac_types_weight::weight_law;

impl<'a> ValueEncoder<'a> {
    /// Adds a definition to the innermost scope.
    fn put(
        &self,
        state: &mut State,
        id: DefinedTypeId,
        definition: &DefinedType<'_>,
    ) -> Result<ComponentValType, BinaryFault>
        requires { (x : AnyDefined) × (item_at self.now.types.now.defined id.0 ≡ Some x) × SaysWritten self.now.types.now self.now.merged state.old x (defined_of definition.now) }
        ensures goes { OnOk result (Goes self.now.types.now self.now.merged state.old state.new) }
        ensures written { IfOk result (IsWrittenAs self.now.types.now self.now.merged state.new (val.Defined id)) }
        ensures types { AllAddTypes state.old state.new }
        ensures paid { (x : AnyDefined) → item_at self.now.types.now.defined id.0 ≡ Some x → IsSizedAs x (defined_of definition.now) → PaidFor self.now.types.now self.now.merged (ty.Value (val.Defined id)) 0 state.old state.new result }
    {
        self.types.law();
        step_law();
        let index = state.define(self.merged, id, definition)?;
        Ok(ComponentValType::Index(index))
    }

    /// Adds a definition with these parts to the innermost scope.
    fn define(
        &self,
        state: &mut State,
        id: DefinedTypeId,
        parts: &[Option<ComponentValType>],
    ) -> Result<ComponentValType, BinaryFault>
        requires begin { CanBegin self.now.types.now self.now.merged state.old id }
        requires parts { AreParts self.now.types.now self.now.merged state.old id parts.now }
        ensures goes { OnOk result (Goes self.now.types.now self.now.merged state.old state.new) }
        ensures written { IfOk result (IsWrittenAs self.now.types.now self.now.merged state.new (val.Defined id)) }
        ensures types { AllAddTypes state.old state.new }
        ensures paid { PaidFor self.now.types.now self.now.merged (ty.Value (val.Defined id)) 0 state.old state.new result }
    {
        let alloc = self.types.allocator();
        let held = &self.types[id];
        match held {
            HeldType::Tuple(_) => {
                let values = values_of(alloc, parts)?;
                self.put(state, id, &DefinedType::Tuple(values.as_slice()))
            }
            HeldType::Variant(variant) => {
                let cases = cases_of(alloc, &variant.cases, parts)?;
                self.put(state, id, &DefinedType::Variant(cases.as_slice()))
            }
            HeldType::Record(record) => {
                let fields = fields_of(alloc, &record.fields, parts)?;
                self.put(state, id, &DefinedType::Record(fields.as_slice()))
            }
            HeldType::Flags(flags) => {
                let names = labels_of(alloc, &flags.0)?;
                self.put(state, id, &DefinedType::Flags(names.as_slice()))
            }
            HeldType::Enum(cases) => {
                let names = labels_of(alloc, &cases.0)?;
                self.put(state, id, &DefinedType::Enum(names.as_slice()))
            }
            HeldType::Alias(_) => unreachable!(),
            _ => self.put(state, id, &plain_definition(held, parts)),
        }
    }

    /// Appends the next part as it is written, or returns the definition that must be written first.
    fn add(
        &self,
        state: &mut State,
        parts: &mut Vec<Option<ComponentValType>>,
        part: Option<ValueType>,
    ) -> Result<Option<DefinedTypeId>, BinaryFault>
        requires closed { AreClosedTypes self.now.types.now self.now.closed.now }
        requires ready { IsPartReady self.now.types.now self.now.merged state.old part }
        ensures goes { OnOk result (Goes self.now.types.now self.now.merged state.old state.new) }
        ensures added { IfOk result (IsAdded self.now.types.now self.now.merged state.new part parts.old.items parts.new.items) }
        ensures types { AllAddTypes state.old state.new }
        ensures paid { (ts : List AnyType) → CoversPart self.now.types.now ts part → PaidBy self.now.types.now self.now.merged ts 0 state.old state.new result }
    {
        still_law();
        let Some(value) = part else {
            parts.push(None)?;
            return Ok(None);
        };
        match self.find(state, value)? {
            Part::Written(written) => {
                parts.push(Some(written))?;
                Ok(None)
            }
            Part::Missing(id) => Ok(Some(id)),
        }
    }

    /// Appends further parts of a definition, up to the first that ends at a definition which must be written first.
    fn fill(
        &self,
        state: &mut State,
        id: DefinedTypeId,
        parts: &mut Vec<Option<ComponentValType>>,
    ) -> Result<Option<DefinedTypeId>, BinaryFault>
        requires closed { AreClosedTypes self.now.types.now self.now.closed.now }
        requires begin { CanBegin self.now.types.now self.now.merged state.old id }
        requires parts { AreFirstParts self.now.types.now self.now.merged state.old id parts.old.items }
        ensures goes { OnOk result (Goes self.now.types.now self.now.merged state.old state.new) }
        ensures filled { IfOk result (IsFilled self.now.types.now self.now.merged state.new id parts.new.items) }
        ensures longer { OnOk result (length parts.old.items ≤ length parts.new.items) }
        ensures types { AllAddTypes state.old state.new }
        ensures paid { PaidFor self.now.types.now self.now.merged (ty.Value (val.Defined id)) 0 state.old state.new result }
    {
        self.types.law();
        step_law();
        bringing_law();
        part_law();
        still_law();
        weight_law();
        while let Some(part) = part_at(&self.types[id], parts.len()) {
            if let Some(missing) = self.add(state, parts, part)? {
                return Ok(Some(missing));
            }
        }
        Ok(None)
    }

    /// Writes a definition if all its parts can be written by index, or else returns one that must be written first.
    fn advance(
        &self,
        state: &mut State,
        id: DefinedTypeId,
        parts: &mut Vec<Option<ComponentValType>>,
    ) -> Result<Part, BinaryFault>
        requires closed { AreClosedTypes self.now.types.now self.now.closed.now }
        requires begin { CanBegin self.now.types.now self.now.merged state.old id }
        requires parts { AreFirstParts self.now.types.now self.now.merged state.old id parts.old.items }
        ensures goes { OnOk result (Goes self.now.types.now self.now.merged state.old state.new) }
        ensures advanced { IfOk result (IsAdvanced self.now.types.now self.now.merged state.new id parts.new.items) }
        ensures longer { OnOk result (length parts.old.items ≤ length parts.new.items) }
        ensures types { AllAddTypes state.old state.new }
        ensures paid { PaidFor self.now.types.now self.now.merged (ty.Value (val.Defined id)) 0 state.old state.new result }
    {
        step_law();
        match self.fill(state, id, parts)? {
            Some(missing) => Ok(Part::Missing(missing)),
            None => {
                let written = self.define(state, id, parts.as_slice())?;
                Ok(Part::Written(written))
            }
        }
    }

    /// Writes a definition after its parts, without recursion.
    ///
    /// A definition waits while one that it uses is written. Those that wait are in a list, each before those that it uses.
    pub(crate) fn write(
        &self,
        state: &mut State,
        id: DefinedTypeId,
    ) -> Result<ComponentValType, BinaryFault>
        requires closed { AreClosedTypes self.now.types.now self.now.closed.now }
        requires begin { CanBegin self.now.types.now self.now.merged state.old id }
        ensures goes { OnOk result (Goes self.now.types.now self.now.merged state.old state.new) }
        ensures written { IfOk result (IsWrittenAs self.now.types.now self.now.merged state.new (val.Defined id)) }
        ensures types { AllAddTypes state.old state.new }
        ensures paid { PaidFor self.now.types.now self.now.merged (ty.Value (val.Defined id)) 0 state.old state.new result }
    {
        self.types.law();
        step_law();
        bringing_law();
        part_law();
        alias_law();
        still_law();
        weight_law();
        let alloc = self.types.allocator();
        let mut waiting = Vec::new(alloc);
        let mut task = Task::new(alloc, id);
        'tasks: loop {
            match self.advance(state, task.id, &mut task.parts)? {
                Part::Missing(missing) => {
                    let outer = replace(&mut task, Task::new(alloc, missing));
                    waiting.push(outer)?;
                }
                Part::Written(written) => {
                    let Some(outer) = waiting.pop() else {
                        return Ok(written);
                    };
                    task = outer;
                    task.parts.push(Some(written))?;
                }
            }
        }
    }
}
