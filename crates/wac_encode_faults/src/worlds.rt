//! The faults of worlds.
ghost use Rattle.std.specs.Prelude.{◌≡◌, true, IfOk};
ghost use Rattle.wac_types_shapes.specs.declared.shapes.component.«Type».TheVariants as ty;
ghost use Rattle.wac_types_collection.specs.collection.Collection.{holds_type};
ghost use Rattle.wac_encode_faults.specs.Faults.{IsLowest, IsWorldFault};

use crate::cycle::has_item_cycle;
use crate::fault::WriteFault;
use crate::faults::fault_if;
use crate::unbound::has_unbound_item;
use crate::unlisted::has_unlisted;
use std::alloc::AllocError;
use wac_types_collection::{Types, WorldId};

/// Returns the lowest fault that a world of the collection has wherever it is written.
///
/// # Errors
/// - `AllocError` if out of memory.
pub(crate) fn find_world_fault(types: &Types, id: WorldId) -> Result<Option<WriteFault>, AllocError>
    requires { holds_type types.now (ty.World id) ≡ true }
    ensures { IfOk result (IsLowest (IsWorldFault types.now id)) }
{
    types.law();
    let world = &types[id];
    if has_unbound_item(types, id)? {
        return Ok(Some(WriteFault::UnboundResource));
    }
    if has_unlisted(types, id)? {
        return Ok(Some(WriteFault::UnlistedDependency));
    }
    let own = world.imports.len();
    let has_cycle = has_item_cycle(types, &world.uses, &world.imports, own, &world.exports)?;
    Ok(fault_if(has_cycle, WriteFault::TypesUseEachOther))
}
