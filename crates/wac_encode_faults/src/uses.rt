//! The interfaces that interfaces use, each after those that it uses itself.
ghost use Rattle.std.specs.Prelude.{◌≡◌, ◌++◌, ◌∷◌, [], true, false, reverse, IfOk, OnOk};
ghost use Rattle.wac_types_collection.specs.collection.Collection.{HasInterface};
ghost use Rattle.wac_types_collection.specs.wide.Wide.{AreThere, used_interfaces, interface_uses, is_among, each_once};
ghost use Rattle.wac_encode_faults.specs.Sides.{reached};
ghost use Rattle.wac_encode_faults.specs.private.Order.{id_of, steps_into, TakesUse};
ghost use Rattle.wac_encode_faults.specs.declared.order.Step.TheVariants as step_of;

use crate::additional::interface_at;
use crate::order::Step;
use indexmap::IndexSet;
use std::alloc::AllocError;
use wac_types_collection::{InterfaceId, Named, Types, UsedType};

/// Appends steps into the interfaces from which types are used, the last first.
fn push_uses(pending: &mut Vec<Step>, uses: &Named<UsedType>) -> Result<(), AllocError>
    ensures { OnOk result (pending.new.items ≡ pending.old.items ++ reverse (steps_into (used_interfaces uses.now))) }
{
    let mut left = uses.len();
    while left > 0 {
        left -= 1;
        pending.push(Step::Enter(uses.value_at(left).interface))?;
    }
    Ok(())
}

/// Appends steps into interfaces, the last first.
fn push_roots(pending: &mut Vec<Step>, roots: &IndexSet<InterfaceId>) -> Result<(), AllocError>
    ensures { OnOk result (pending.new.items ≡ pending.old.items ++ reverse (steps_into roots.now.keys)) }
{
    let mut left = roots.len();
    while left > 0 {
        left -= 1;
        let id = interface_at(roots, left);
        pending.push(Step::Enter(id))?;
    }
    Ok(())
}

/// Takes the step into an interface. If it is not done, it is left after those that it uses itself.
fn enter(
    types: &Types,
    id: InterfaceId,
    done: &IndexSet<InterfaceId>,
    pending: &mut Vec<Step>,
) -> Result<(), AllocError>
    requires { HasInterface types.now id }
    ensures known { OnOk result (is_among done.now.keys id ≡ true → pending.new.items ≡ pending.old.items) }
    ensures new { OnOk result (is_among done.now.keys id ≡ false → pending.new.items ≡ (pending.old.items ++ step_of.Leave id ∷ []) ++ reverse (steps_into (used_interfaces (interface_uses types.now id)))) }
{
    if done.contains(&id) {
        return Ok(());
    }
    pending.push(Step::Leave(id))?;
    push_uses(pending, &types[id].uses)
}

/// Takes a step.
fn take_step(
    types: &Types,
    step: Step,
    done: &mut IndexSet<InterfaceId>,
    pending: &mut Vec<Step>,
) -> Result<(), AllocError>
    requires { HasInterface types.now (id_of step) }
    ensures { OnOk result (TakesUse types.now step done.old.keys pending.old.items done.new.keys pending.new.items) }
{
    match step {
        Step::Enter(id) => enter(types, id, done, pending),
        Step::Leave(id) => {
            done.insert(id)?;
            Ok(())
        }
    }
}

/// Returns these interfaces, those that they use themselves, and so on, each after those that it uses itself. Takes linear
/// time, without recursion.
///
/// # Errors
/// - `AllocError` if out of memory.
pub(crate) fn reach_uses(
    types: &Types,
    roots: &IndexSet<InterfaceId>,
) -> Result<IndexSet<InterfaceId>, AllocError>
    requires { AreThere types.now roots.now.keys }
    ensures { IfOk result (λ s. s.keys ≡ each_once (reached types.now roots.now.keys)) }
{
    types.law();
    let mut done = IndexSet::new(types.allocator());
    let mut pending = Vec::new(types.allocator());
    push_roots(&mut pending, roots)?;
    while let Some(step) = pending.pop() {
        take_step(types, step, &mut done, &mut pending)?;
    }
    Ok(done)
}
