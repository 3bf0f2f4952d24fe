//! The interfaces and worlds inside types, each after those inside it.
ghost use Rattle.std.specs.Prelude.{◌≡◌, ◌<◌, ◌++◌, ◌∷◌, [], true, false, Some, length, slice_get, IfOk, OnOk, Contains};
ghost use Rattle.std.specs.List.{flat_map};
ghost use Rattle.wac_types_shapes.specs.declared.shapes.component.«Type».{«Type» as AnyType};
ghost use Rattle.wac_types_collection.specs.collection.Collection.{holds_type};
ghost use Rattle.wac_encode_interfaces.specs.declared.inside.Step.TheVariants as step_of;
ghost use Rattle.wac_encode_interfaces.specs.private.Paid.{WeighNoMore};
ghost use Rattle.wac_encode_interfaces.specs.private.InnerTypes.{interface_or_world, interfaces_and_worlds, inner_types, is_done, enter_all, step_type, AreCleanTypes, IsInnerFirst, TakesStep};

use indexmap::IndexSet;
use std::alloc::AllocError;
use wac_types_collection::{ItemKind, Named, Type, Types};
use wac_types_weight::weight_law;

/// What is to be done with an interface or a world.
#[derive(Clone, Copy)]
pub(crate) enum Step {
    /// To put those that are types of its imports and exports in order.
    Enter(Type),
    /// To put it after them.
    Leave(Type),
}

/// Returns the type at an index.
pub(crate) fn type_at(types: &[Type], index: usize) -> Type
    requires { index < length types.now }
    ensures { slice_get types.now index ≡ Some result }
{
    types[index]
}

/// Appends a step into a type, if it is an interface or a world.
fn push_type(pending: &mut Vec<Step>, ty: Type) -> Result<(), AllocError>
    ensures { OnOk result (pending.new.items ≡ pending.old.items ++ enter_all (interface_or_world ty)) }
{
    match ty {
        Type::Interface(_) | Type::World(_) => {
            pending.push(Step::Enter(ty))?;
            Ok(())
        }
        _ => Ok(()),
    }
}

/// Appends steps into the interfaces and worlds that are types of the items.
fn push_items(pending: &mut Vec<Step>, items: &Named<ItemKind>) -> Result<(), AllocError>
    ensures { OnOk result (pending.new.items ≡ pending.old.items ++ enter_all (interfaces_and_worlds items.now)) }
{
    for i in 0..items.len() {
        push_type(pending, items.value_at(i).ty())?;
    }
    Ok(())
}

/// Appends steps into the interfaces and worlds among these types.
fn push_types(pending: &mut Vec<Step>, types: &[Type]) -> Result<(), AllocError>
    ensures { OnOk result (pending.new.items ≡ pending.old.items ++ enter_all (flat_map interface_or_world types.now)) }
{
    for i in 0..types.len() {
        push_type(pending, type_at(types, i))?;
    }
    Ok(())
}

/// Appends steps into the interfaces and worlds that are types of a type's imports and exports.
fn push_inner(pending: &mut Vec<Step>, types: &Types, ty: Type) -> Result<(), AllocError>
    requires { holds_type types.now ty ≡ true }
    ensures { OnOk result (pending.new.items ≡ pending.old.items ++ enter_all (inner_types types.now ty)) }
{
    match ty {
        Type::Interface(id) => push_items(pending, &types[id].exports),
        Type::World(id) => {
            let world = &types[id];
            push_items(pending, &world.imports)?;
            push_items(pending, &world.exports)
        }
        _ => Ok(()),
    }
}

/// Takes the step into a type. If it is not done, it is left after those inside it.
fn enter(
    types: &Types,
    ty: Type,
    done: &IndexSet<Type>,
    pending: &mut Vec<Step>,
) -> Result<(), AllocError>
    requires { holds_type types.now ty ≡ true }
    ensures known { OnOk result (is_done done.now.keys ty ≡ true → pending.new.items ≡ pending.old.items) }
    ensures new { OnOk result (is_done done.now.keys ty ≡ false → pending.new.items ≡ (pending.old.items ++ step_of.Leave ty ∷ []) ++ enter_all (inner_types types.now ty)) }
{
    if done.contains(&ty) {
        return Ok(());
    }
    pending.push(Step::Leave(ty))?;
    push_inner(pending, types, ty)
}

/// Takes a step.
fn take_step(
    types: &Types,
    step: Step,
    done: &mut IndexSet<Type>,
    pending: &mut Vec<Step>,
) -> Result<(), AllocError>
    requires { holds_type types.now (step_type step) ≡ true }
    ensures { OnOk result (TakesStep types.now step done.old.keys pending.old.items done.new.keys pending.new.items) }
{
    match step {
        Step::Enter(ty) => enter(types, ty, done, pending),
        Step::Leave(ty) => {
            done.insert(ty)?;
            Ok(())
        }
    }
}

/// Returns the interfaces and worlds among these types and inside them, each after those inside it. Takes linear time,
/// without recursion.
///
/// # Errors
/// - `AllocError` if out of memory.
pub(crate) fn types_inside(types: &Types, roots: &[Type]) -> Result<IndexSet<Type>, AllocError>
    requires { AreCleanTypes types.now roots.now }
    ensures sorted { IfOk result (λ s. IsInnerFirst types.now s.keys) }
    ensures clean { IfOk result (λ s. AreCleanTypes types.now s.keys) }
    ensures roots { IfOk result (λ s. (t : AnyType) → Contains (flat_map interface_or_world roots.now) t → Contains s.keys t) }
    ensures light { IfOk result (λ s. WeighNoMore types.now roots.now s.keys) }
{
    types.law(); // proof only
    weight_law();
    let mut done = IndexSet::new(types.allocator());
    let mut pending = Vec::new(types.allocator());
    push_types(&mut pending, roots)?;
    while let Some(step) = pending.pop() {
        take_step(types, step, &mut done, &mut pending)?;
    }
    Ok(done)
}
