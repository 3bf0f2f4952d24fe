//! The faults of types with all that is written inside them.
ghost use Rattle.std.specs.Prelude.{◌≡◌, ◌<◌, Some, true, length, slice_get, IfOk};
ghost use Rattle.wac_types_shapes.specs.declared.shapes.component.«Type».{«Type» as AnyType};
ghost use Rattle.wac_types_collection.specs.collection.Collection.{holds_type};
ghost use Rattle.wac_types_collection.specs.reach.Reach.{IsIn};
ghost use Rattle.wac_encode_faults.specs.Faults.{IsLowest, IsTypeFault, IsFaultInside};
ghost use Rattle.wac_encode_faults.specs.private.Roots.{IsFaultInsideOne, IsFaultOfOne};

use crate::fault::WriteFault;
use crate::faults::lower;
use crate::inside::{add_type, find_fault_at, with_scopes_inside};
use crate::worlds::find_world_fault;
use indexmap::IndexSet;
use std::alloc::AllocError;
use wac_types_collection::{Type, Types};

/// Returns the type at an index of a set.
pub(crate) fn type_at(found: &IndexSet<Type>, index: usize) -> Type
    requires { index < length found.now.keys }
    ensures { slice_get found.now.keys index ≡ Some result }
{
    found.as_slice()[index]
}

/// Returns the lowest fault that a type of the collection has wherever it is written.
fn find_type_fault(types: &Types, ty: Type) -> Result<Option<WriteFault>, AllocError>
    requires { holds_type types.now ty ≡ true }
    ensures { IfOk result (IsLowest (IsTypeFault types.now ty)) }
{
    let listed = find_fault_at(types, ty);
    let Type::World(id) = ty else {
        return Ok(listed);
    };
    let fault = find_world_fault(types, id)?;
    Ok(lower(listed, fault))
}

/// Returns the lowest fault that one of the types has wherever it is written.
fn find_fault_of_types(
    types: &Types,
    scopes: &IndexSet<Type>,
) -> Result<Option<WriteFault>, AllocError>
    requires { (t : AnyType) → IsIn t scopes.now.keys → holds_type types.now t ≡ true }
    ensures { IfOk result (IsLowest (IsFaultOfOne types.now scopes.now.keys)) }
{
    let mut lowest = None;
    for i in 0..scopes.len() {
        let ty = type_at(scopes, i);
        let fault = find_type_fault(types, ty)?;
        lowest = lower(lowest, fault);
    }
    Ok(lowest)
}

/// Returns the lowest fault of what is written inside these types. Looks at each interface and world once, without
/// recursion.
///
/// # Errors
/// - `AllocError` if out of memory.
pub(crate) fn find_fault_inside(
    types: &Types,
    roots: IndexSet<Type>,
) -> Result<Option<WriteFault>, AllocError>
    requires { (t : AnyType) → IsIn t roots.keys → holds_type types.now t ≡ true }
    ensures { IfOk result (IsLowest (IsFaultInsideOne types.now roots.keys)) }
{
    let scopes = with_scopes_inside(types, roots)?;
    find_fault_of_types(types, &scopes)
}

/// Returns the lowest fault of what is written inside a type of the collection.
///
/// # Errors
/// - `AllocError` if out of memory.
pub(crate) fn find_fault_of_type(types: &Types, ty: Type) -> Result<Option<WriteFault>, AllocError>
    requires { holds_type types.now ty ≡ true }
    ensures { IfOk result (IsLowest (IsFaultInside types.now ty)) }
{
    let mut roots = IndexSet::new(types.allocator());
    add_type(&mut roots, ty)?;
    find_fault_inside(types, roots)
}
