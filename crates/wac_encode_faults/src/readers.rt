//! Until when the free resources of an interface are needed.
ghost use Rattle.std.specs.Prelude.{◌≡◌, false, length, Some, IfOk, OnOk, Contains};
ghost use Rattle.wac_types_shapes.specs.declared.shapes.component.InterfaceId.{InterfaceId as Interfaces};
ghost use Rattle.wac_types_collection.specs.wide.Wide.{AreThere};
ghost use Rattle.wac_encode_faults.specs.private.Sets.{value_of, AreLast};

use crate::additional::interface_at;
use crate::order::find_children;
use indexmap::{IndexMap, IndexSet};
use std::alloc::AllocError;
use wac_types_collection::{InterfaceId, Types};

/// Notes a position for each of the interfaces.
fn note_all(
    last: &mut IndexMap<InterfaceId, usize>,
    interfaces: &IndexSet<InterfaceId>,
    position: usize,
) -> Result<(), AllocError>
    ensures noted { OnOk result ((j : Interfaces) → Contains interfaces.now.keys j → value_of last.new.entries j ≡ Some position) }
    ensures others { OnOk result ((j : Interfaces) → (Contains interfaces.now.keys j → ⊥) → value_of last.new.entries j ≡ value_of last.old.entries j) }
{
    for i in 0..interfaces.len() {
        let id = interface_at(interfaces, i);
        last.insert(id, position)?;
    }
    Ok(())
}

/// Returns for each interface the last position at which it is the type of an export.
pub(crate) fn last_readers(
    types: &Types,
    order: &IndexSet<InterfaceId>,
) -> Result<IndexMap<InterfaceId, usize>, AllocError>
    requires { AreThere types.now order.now.keys }
    ensures { IfOk result (λ last. AreLast types.now order.now.keys (length order.now.keys) last.entries) }
{
    let mut last = IndexMap::new(types.allocator());
    for position in 0..order.len() {
        let id = interface_at(order, position);
        let children = find_children(types, id)?;
        note_all(&mut last, &children, position)?;
    }
    Ok(last)
}

/// Whether an interface may be needed after a position.
pub(crate) fn is_needed(
    roots: &IndexSet<InterfaceId>,
    last: &IndexMap<InterfaceId, usize>,
    id: InterfaceId,
    position: usize,
) -> bool
    ensures asked { result ≡ false → Contains roots.now.keys id → ⊥ }
    ensures last { result ≡ false → value_of last.now.entries id ≡ Some position }
{
    if roots.contains(&id) {
        return true;
    }
    match last.get(&id) {
        Some(reader) => *reader != position,
        None => true,
    }
}
