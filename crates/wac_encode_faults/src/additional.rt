//! The additional imports of definitions: interfaces that a definition uses and does not list.
ghost use Rattle.std.specs.Prelude.{◌≡◌, ◌++◌, ◌∷◌, ◌<◌, [], Some, true, length, slice_get, IfOk, OnOk};
ghost use Rattle.wac_types_shapes.specs.declared.shapes.component.World.{World as Worlds};
ghost use Rattle.wac_types_shapes.specs.declared.shapes.component.«Type».TheVariants as ty;
ghost use Rattle.wac_types_collection.specs.collection.Collection.{HasInterface, item_at, holds_type};
ghost use Rattle.wac_types_collection.specs.wide.Wide.{AreThere, with_each, each_once, wide_uses as wide_uses_of, wide_uses_of_items as wide_uses_of_all, used_interfaces};
ghost use Rattle.wac_encode_faults.specs.private.Ids.{HaveIds};
ghost use Rattle.wac_encode_faults.specs.Sides.{listed_interfaces, needed_by_imports, needed_by_exports, reached, without, unlisted};
ghost use Rattle.wac_encode_faults.specs.private.Search.{AreHeld};

use crate::unlisted::add_listed;
use crate::uses::reach_uses;
use indexmap::IndexSet;
use std::alloc::AllocError;
use wac_types_collection::wide::{wide_uses, wide_uses_of_items};
use wac_types_collection::{InterfaceId, ItemKind, Named, Types, UsedType, World, WorldId};

/// Returns the interface at an index of a set.
pub(crate) fn interface_at(found: &IndexSet<InterfaceId>, index: usize) -> InterfaceId
    requires { index < length found.now.keys }
    ensures { slice_get found.now.keys index ≡ Some result }
{
    found.as_slice()[index]
}

/// Returns the interfaces that the definition of an interface imports, in order. Each has an id. Takes linear time,
/// without recursion.
///
/// # Errors
/// - `AllocError` if out of memory.
pub fn interface_additional(
    types: &Types,
    id: InterfaceId,
) -> Result<IndexSet<InterfaceId>, AllocError>
    requires { HasInterface types.now id }
    ensures interfaces { IfOk result (λ s. s.keys ≡ each_once (reached types.now (wide_uses_of types.now id))) }
    ensures there { IfOk result (λ s. AreThere types.now s.keys) }
    ensures named { IfOk result (λ s. HaveIds types.now s.keys) }
{
    types.law(); // proof only
    types.uses_law(); // proof only
    let wide = wide_uses(types, id)?;
    reach_uses(types, &wide)
}

/// Adds an interface that is not known.
fn add_unknown(
    found: &mut IndexSet<InterfaceId>,
    id: InterfaceId,
    known: &IndexSet<InterfaceId>,
) -> Result<(), AllocError>
    ensures { OnOk result (found.new.keys ≡ with_each found.old.keys (without known.now.keys (id ∷ []))) }
{
    if known.contains(&id) {
        return Ok(());
    }
    found.insert(id)?;
    Ok(())
}

/// Adds those of the interfaces that are not known.
fn add_all_unknown(
    found: &mut IndexSet<InterfaceId>,
    interfaces: &IndexSet<InterfaceId>,
    known: &IndexSet<InterfaceId>,
) -> Result<(), AllocError>
    ensures { OnOk result (found.new.keys ≡ with_each found.old.keys (without known.now.keys interfaces.now.keys)) }
{
    for i in 0..interfaces.len() {
        let id = interface_at(interfaces, i);
        add_unknown(found, id, known)?;
    }
    Ok(())
}

/// Adds those of the used interfaces that are not known.
fn add_unknown_uses(
    found: &mut IndexSet<InterfaceId>,
    uses: &Named<UsedType>,
    known: &IndexSet<InterfaceId>,
) -> Result<(), AllocError>
    ensures { OnOk result (found.new.keys ≡ with_each found.old.keys (without known.now.keys (used_interfaces uses.now))) }
{
    for i in 0..uses.len() {
        add_unknown(found, uses.value_at(i).interface, known)?;
    }
    Ok(())
}

/// Adds what instances among the items use widely and is not known.
fn add_unknown_of_items(
    found: &mut IndexSet<InterfaceId>,
    types: &Types,
    items: &Named<ItemKind>,
    known: &IndexSet<InterfaceId>,
) -> Result<(), AllocError>
    requires { AreHeld types.now items.now }
    ensures { OnOk result (found.new.keys ≡ with_each found.old.keys (without known.now.keys (wide_uses_of_all types.now items.now))) }
{
    let used = wide_uses_of_items(types, items)?;
    add_all_unknown(found, &used, known)
}

/// Adds what a world and its imports use and no import is.
fn add_needed_by_imports(
    found: &mut IndexSet<InterfaceId>,
    types: &Types,
    world: &World,
    listed: &IndexSet<InterfaceId>,
) -> Result<(), AllocError>
    requires held { AreHeld types.now world.now.imports }
    requires listed { listed.now.keys ≡ each_once (listed_interfaces types.now world.now.imports) }
    ensures { OnOk result (found.new.keys ≡ with_each found.old.keys (needed_by_imports types.now world.now)) }
{
    add_unknown_uses(found, &world.uses, listed)?;
    add_unknown_of_items(found, types, &world.imports, listed)
}

/// Adds what a world's exports use and no import or export is.
fn add_needed_by_exports(
    found: &mut IndexSet<InterfaceId>,
    types: &Types,
    world: &World,
) -> Result<(), AllocError>
    requires imports { AreHeld types.now world.now.imports }
    requires exports { AreHeld types.now world.now.exports }
    ensures { OnOk result (found.new.keys ≡ with_each found.old.keys (needed_by_exports types.now world.now)) }
{
    let mut listed = IndexSet::new(types.allocator());
    add_listed(&mut listed, types, &world.imports)?;
    add_listed(&mut listed, types, &world.exports)?;
    add_unknown_of_items(found, types, &world.exports, &listed)
}

/// Adds the additional imports of a world's definition.
fn add_unlisted(
    found: &mut IndexSet<InterfaceId>,
    types: &Types,
    world: &World,
    listed: &IndexSet<InterfaceId>,
) -> Result<(), AllocError>
    requires imports { AreHeld types.now world.now.imports }
    requires exports { AreHeld types.now world.now.exports }
    requires uses { AreThere types.now (used_interfaces world.now.uses) }
    requires listed { listed.now.keys ≡ each_once (listed_interfaces types.now world.now.imports) }
    ensures { OnOk result (found.new.keys ≡ with_each found.old.keys (without (listed_interfaces types.now world.now.imports) (reached types.now (needed_by_imports types.now world.now ++ needed_by_exports types.now world.now)))) }
{
    types.law();
    let mut needed = IndexSet::new(types.allocator());
    add_needed_by_imports(&mut needed, types, world, listed)?;
    add_needed_by_exports(&mut needed, types, world)?;
    let used = reach_uses(types, &needed)?;
    add_all_unknown(found, &used, listed)
}

/// Returns the interfaces that the definition of a world imports in addition, in order. Each has an id. Takes linear time,
/// without recursion.
///
/// # Errors
/// - `AllocError` if out of memory.
pub fn world_additional(types: &Types, id: WorldId) -> Result<IndexSet<InterfaceId>, AllocError>
    requires { holds_type types.now (ty.World id) ≡ true }
    ensures interfaces { IfOk result (λ s. (x : Worlds) → item_at types.now.worlds id.0 ≡ Some x → s.keys ≡ unlisted types.now x) }
    ensures there { IfOk result (λ s. AreThere types.now s.keys) }
    ensures named { IfOk result (λ s. HaveIds types.now s.keys) }
{
    types.law(); // proof only
    types.uses_law(); // proof only
    let world = &types[id];
    let mut listed = IndexSet::new(types.allocator());
    add_listed(&mut listed, types, &world.imports)?;
    let mut found = IndexSet::new(types.allocator());
    add_unlisted(&mut found, types, world, &listed)?;
    Ok(found)
}
