//! The interfaces inside interfaces, each after those that are types of its exports.
ghost use Rattle.std.specs.Prelude.{◌≡◌, ◌↔◌, ◌++◌, ◌∷◌, [], true, false, IfOk, OnOk, Contains};
ghost use Rattle.std.specs.List.{IsDistinct};
ghost use Rattle.wac_types_shapes.specs.contracts.shapes.component.InterfaceIdPartialEq.TheImpl as IdEq;
ghost use Rattle.wac_types_shapes.specs.declared.shapes.component.InterfaceId.{InterfaceId as Interfaces};
ghost use Rattle.wac_types_collection.specs.collection.Collection.{HasInterface};
ghost use Rattle.wac_types_collection.specs.wide.Wide.{is_among, with_each};
ghost use Rattle.wac_types_collection.specs.wide.Wide.{AreThere};
ghost use Rattle.wac_encode_faults.specs.private.Order.{children, id_of, interface_of, interfaces_of, steps_into, IsOrdered, Takes};
ghost use Rattle.wac_encode_faults.specs.declared.order.Step.TheVariants as step_of;

use crate::additional::interface_at;
use indexmap::IndexSet;
use std::alloc::AllocError;
use wac_types_collection::{InterfaceId, ItemKind, Named, Type, Types};

/// Adds a type, if it is an interface.
pub(crate) fn add_interface(found: &mut IndexSet<InterfaceId>, ty: Type) -> Result<(), AllocError>
    ensures { OnOk result (found.new.keys ≡ with_each found.old.keys (interface_of ty)) }
{
    match ty {
        Type::Interface(id) => {
            found.insert(id)?;
            Ok(())
        }
        _ => Ok(()),
    }
}

/// Adds the interfaces that are types of the items.
pub(crate) fn add_interfaces(
    found: &mut IndexSet<InterfaceId>,
    items: &Named<ItemKind>,
) -> Result<(), AllocError>
    ensures { OnOk result (found.new.keys ≡ with_each found.old.keys (interfaces_of items.now)) }
{
    for i in 0..items.len() {
        add_interface(found, items.value_at(i).ty())?;
    }
    Ok(())
}

/// Returns the interfaces that are types of an interface's exports.
pub(crate) fn find_children(
    types: &Types,
    id: InterfaceId,
) -> Result<IndexSet<InterfaceId>, AllocError>
    requires { HasInterface types.now id }
    ensures { IfOk result (λ s. (j : Interfaces) → Contains s.keys j ↔ Contains (children types.now id) j) }
{
    let mut found = IndexSet::new(types.allocator());
    add_interfaces(&mut found, &types[id].exports)?;
    Ok(found)
}

/// What is to be done with an interface.
#[derive(Clone, Copy)]
pub(crate) enum Step {
    /// To put those that it lists in order.
    Enter(InterfaceId),
    /// To put it after them.
    Leave(InterfaceId),
}

/// Appends a step into a type, if it is an interface.
fn push_type(pending: &mut Vec<Step>, ty: Type) -> Result<(), AllocError>
    ensures { OnOk result (pending.new.items ≡ pending.old.items ++ steps_into (interface_of ty)) }
{
    match ty {
        Type::Interface(id) => {
            pending.push(Step::Enter(id))?;
            Ok(())
        }
        _ => Ok(()),
    }
}

/// Appends steps into the interfaces that are types of the items.
fn push_items(pending: &mut Vec<Step>, items: &Named<ItemKind>) -> Result<(), AllocError>
    ensures { OnOk result (pending.new.items ≡ pending.old.items ++ steps_into (interfaces_of items.now)) }
{
    for i in 0..items.len() {
        push_type(pending, items.value_at(i).ty())?;
    }
    Ok(())
}

/// Appends steps into interfaces.
fn push_all(pending: &mut Vec<Step>, interfaces: &IndexSet<InterfaceId>) -> Result<(), AllocError>
    ensures { OnOk result (pending.new.items ≡ pending.old.items ++ steps_into interfaces.now.keys) }
{
    for i in 0..interfaces.len() {
        let id = interface_at(interfaces, i);
        pending.push(Step::Enter(id))?;
    }
    Ok(())
}

/// Takes the step into an interface. If it was not seen before, it is left after those that it lists.
fn enter(
    types: &Types,
    id: InterfaceId,
    seen: &mut IndexSet<InterfaceId>,
    pending: &mut Vec<Step>,
) -> Result<(), AllocError>
    requires { HasInterface types.now id }
    ensures seen { OnOk result (seen.new.keys ≡ with_each seen.old.keys (id ∷ [])) }
    ensures unique { OnOk result (IsDistinct (IdEq.ghosts).eq seen.new.keys) }
    ensures known { OnOk result (is_among seen.old.keys id ≡ true → pending.new.items ≡ pending.old.items) }
    ensures new { OnOk result (is_among seen.old.keys id ≡ false → pending.new.items ≡ (pending.old.items ++ step_of.Leave id ∷ []) ++ steps_into (children types.now id)) }
{
    if !seen.insert(id)? {
        return Ok(());
    }
    pending.push(Step::Leave(id))?;
    push_items(pending, &types[id].exports)
}

/// Takes a step.
fn take_step(
    types: &Types,
    step: Step,
    done: &mut IndexSet<InterfaceId>,
    seen: &mut IndexSet<InterfaceId>,
    pending: &mut Vec<Step>,
) -> Result<(), AllocError>
    requires there { HasInterface types.now (id_of step) }
    requires unique { IsDistinct (IdEq.ghosts).eq seen.old.keys }
    ensures takes { OnOk result (Takes types.now step done.old.keys seen.old.keys pending.old.items done.new.keys seen.new.keys pending.new.items) }
    ensures unique { OnOk result (IsDistinct (IdEq.ghosts).eq seen.new.keys) }
{
    match step {
        Step::Enter(id) => enter(types, id, seen, pending),
        Step::Leave(id) => {
            done.insert(id)?;
            Ok(())
        }
    }
}

/// Returns these interfaces, those that are types of their exports, and so on, each after those of its exports. Takes
/// linear time, without recursion.
///
/// # Errors
/// - `AllocError` if out of memory.
pub(crate) fn interfaces_inside(
    types: &Types,
    roots: &IndexSet<InterfaceId>,
) -> Result<IndexSet<InterfaceId>, AllocError>
    requires { AreThere types.now roots.now.keys }
    ensures sorted { IfOk result (λ s. IsOrdered types.now s.keys) }
    ensures there { IfOk result (λ s. AreThere types.now s.keys) }
    ensures roots { IfOk result (λ s. (k : Interfaces) → Contains roots.now.keys k → Contains s.keys k) }
{
    types.law();
    let mut done = IndexSet::new(types.allocator());
    let mut seen = IndexSet::new(types.allocator());
    let mut pending = Vec::new(types.allocator());
    push_all(&mut pending, roots)?;
    while let Some(step) = pending.pop() {
        take_step(types, step, &mut done, &mut seen, &mut pending)?;
    }
    Ok(done)
}
