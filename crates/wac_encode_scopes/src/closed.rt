//! The definitions of a collection that mention no resource, or none of some resources.

ghost use Rattle.std.specs.Prelude.{◌≡◌, IfOk, true};
ghost use Rattle.wac_types_shapes.specs.declared.shapes.component.DefinedTypeId.{DefinedTypeId as ADefinition};
ghost use Rattle.wac_encode_scopes.specs.private.Closed.{is_closed_in, AreApartTypes, AreClosedTypes};
ghost use Rattle.wac_encode_scopes.specs.private.Bits.{apart_part_bit, part_bit, SaysApartParts, SaysParts};
ghost use Rattle.wac_encode_scopes.specs.private.Telling.{is_one_of};

use crate::parts::part_at;
use indexmap::IndexSet;
use std::alloc::{AllocError, Global};
use wac_types_collection::{DefinedType, DefinedTypeId, ResourceId, Type, Types, ValueType};

/// The definitions of a collection that mention no resource, or none of some resources: themselves, or through other types.
pub struct ClosedTypes {
    /// Whether the definition with this index is one. Empty if each definition is one.
    closed: Vec<bool>,
    /// Whether the definitions after these are.
    rest: bool,
}

// By hand: a derived `Drop` is proved again wherever one goes out of scope (docs/PROOFS.md, 'Drop').
impl Drop for ClosedTypes {
    fn drop(self) {
        let ClosedTypes { closed: _, rest: _ } = self;
    }
}

impl ClosedTypes {
    /// Finds the definitions of a collection that mention no resource. Takes linear time, without recursion, and
    /// constant time if the collection has no resource.
    ///
    /// # Errors
    /// - `AllocError` if out of memory.
    pub fn new(types: &Types) -> Result<ClosedTypes, AllocError>
        ensures { IfOk result (AreClosedTypes types.now) }
    {
        types.law();
        let mut closed = Vec::new(types.allocator());
        if types.holds_no_resource() {
            return Ok(ClosedTypes { closed, rest: true });
        }
        while types.contains(Type::Value(ValueType::Defined(DefinedTypeId(closed.len())))) {
            let definition = &types[DefinedTypeId(closed.len())];
            let is_closed = are_parts_closed(closed.as_slice(), definition);
            closed.push(is_closed)?;
        }
        Ok(ClosedTypes {
            closed,
            rest: false,
        })
    }

    /// Returns all definitions.
    pub fn all(alloc: Global) -> ClosedTypes
        ensures { (d : ADefinition) → is_closed_in result d ≡ true }
    {
        ClosedTypes {
            closed: Vec::new(alloc),
            rest: true,
        }
    }

    /// Finds the definitions of a collection in which none of these resources is free. Takes linear time, without
    /// recursion.
    ///
    /// # Errors
    /// - `AllocError` if out of memory.
    pub fn apart_from(
        types: &Types,
        these: &IndexSet<ResourceId>,
    ) -> Result<ClosedTypes, AllocError>
        ensures { IfOk result (AreApartTypes types.now (is_one_of these.now.keys)) }
    {
        types.law(); // proof only
        let mut closed = Vec::new(types.allocator());
        while types.contains(Type::Value(ValueType::Defined(DefinedTypeId(closed.len())))) {
            let definition = &types[DefinedTypeId(closed.len())];
            let is_apart = are_parts_apart(types, these, closed.as_slice(), definition);
            closed.push(is_apart)?;
        }
        Ok(ClosedTypes {
            closed,
            rest: false,
        })
    }

    /// Whether the definition is one of them.
    pub fn contains(&self, id: DefinedTypeId) -> bool
        ensures { result ≡ is_closed_in self.now id }
    {
        match self.closed.get(id.0) {
            Some(is_closed) => *is_closed,
            None => self.rest,
        }
    }
}

/// Whether a part mentions no resource.
fn is_part_closed(closed: &[bool], part: Option<ValueType>) -> bool
    ensures { result ≡ part_bit closed.now part }
{
    match part {
        None | Some(ValueType::Primitive(_)) => true,
        Some(ValueType::Own(_) | ValueType::Borrow(_)) => false,
        Some(ValueType::Defined(id)) => match closed.get(id.0) {
            Some(is_closed) => *is_closed,
            None => false,
        },
    }
}

/// Whether no part of a definition mentions a resource.
fn are_parts_closed(closed: &[bool], definition: &DefinedType) -> bool
    ensures { SaysParts closed.now definition.now result }
{
    let mut next = 0;
    while let Some(part) = part_at(definition, next) {
        if !is_part_closed(closed, part) {
            return false;
        }
        next += 1;
    }
    true
}

/// Whether none of these resources is free in a part.
fn is_part_apart(
    types: &Types,
    these: &IndexSet<ResourceId>,
    apart: &[bool],
    part: Option<ValueType>,
) -> bool
    ensures { result ≡ apart_part_bit types.now (is_one_of these.now.keys) apart.now part }
{
    match part {
        None | Some(ValueType::Primitive(_)) => true,
        Some(ValueType::Own(id) | ValueType::Borrow(id)) => {
            let end = types.resolve_resource(id);
            !these.contains(&end)
        }
        Some(ValueType::Defined(id)) => match apart.get(id.0) {
            Some(is_apart) => *is_apart,
            None => false,
        },
    }
}

/// Whether none of these resources is free in a part of a definition.
fn are_parts_apart(
    types: &Types,
    these: &IndexSet<ResourceId>,
    apart: &[bool],
    definition: &DefinedType,
) -> bool
    ensures { SaysApartParts types.now (is_one_of these.now.keys) apart.now definition.now result }
{
    let mut next = 0;
    while let Some(part) = part_at(definition, next) {
        if !is_part_apart(types, these, apart, part) {
            return false;
        }
        next += 1;
    }
    true
}
