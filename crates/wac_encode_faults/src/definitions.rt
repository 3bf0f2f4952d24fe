//! The faults of definitions.
ghost use Rattle.std.specs.Prelude.{◌≡◌, ◌∷◌, [], true, Some, IfOk};
ghost use Rattle.wac_types_shapes.specs.declared.shapes.component.World.{World as Worlds};
ghost use Rattle.wac_types_shapes.specs.declared.shapes.component.ItemKind.TheVariants as kind;
ghost use Rattle.wac_types_shapes.specs.declared.shapes.component.«Type».TheVariants as ty;
ghost use Rattle.wac_types_collection.specs.collection.Collection.{HasInterface, holds_type, item_at};
ghost use Rattle.wac_encode_faults.specs.Faults.{IsLowest, IsSidesFault};
ghost use Rattle.wac_encode_faults.specs.Sides.{id_or_empty, interface_sides, completed_sides};

use crate::additional::{interface_additional, world_additional};
use crate::component::find_sides_fault;
use crate::fault::WriteFault;
use std::alloc::AllocError;
use wac_types_collection::{InterfaceId, ItemKind, Named, Types, WorldId};

/// Returns an interface's id; empty for one without.
fn definition_name(types: &Types, id: InterfaceId) -> &str
    requires { HasInterface types.now id }
    ensures { result.now ≡ id_or_empty types.now id }
{
    match &types[id].id {
        Some(text) => text.as_str(),
        None => "",
    }
}

/// Returns the exports of the definition of an interface: its instance.
///
/// # Errors
/// - `AllocError` if out of memory.
pub fn definition_exports(types: &Types, id: InterfaceId) -> Result<Named<ItemKind>, AllocError>
    requires { HasInterface types.now id }
    ensures { IfOk result (λ n. n ≡ (id_or_empty types.now id, kind.Instance id) ∷ []) }
{
    let mut exports = Named::new(types.allocator());
    let name = definition_name(types, id);
    match exports.insert(types.allocator(), name, ItemKind::Instance(id)) {
        Ok(()) => Ok(exports),
        Err(_) => Err(AllocError),
    }
}

/// Returns the lowest fault of the component type that the definition of an interface is.
///
/// # Errors
/// - `AllocError` if out of memory.
pub(crate) fn find_interface_fault(
    types: &Types,
    id: InterfaceId,
) -> Result<Option<WriteFault>, AllocError>
    requires { HasInterface types.now id }
    ensures { IfOk result (IsLowest (IsSidesFault types.now (interface_sides types.now id))) }
{
    let additional = interface_additional(types, id)?;
    let exports = definition_exports(types, id)?;
    let uses = Named::new(types.allocator());
    let imports = Named::new(types.allocator());
    find_sides_fault(types, &uses, &imports, &additional, &exports)
}

/// Returns the lowest fault of the component type that the definition of a world exports.
///
/// # Errors
/// - `AllocError` if out of memory.
pub(crate) fn find_completed_fault(
    types: &Types,
    id: WorldId,
) -> Result<Option<WriteFault>, AllocError>
    requires { holds_type types.now (ty.World id) ≡ true }
    ensures { IfOk result (λ o. (x : Worlds) × (item_at types.now.worlds id.0 ≡ Some x) × IsLowest (IsSidesFault types.now (completed_sides types.now x)) o) }
{
    types.law();
    let additional = world_additional(types, id)?;
    let world = &types[id];
    find_sides_fault(
        types,
        &world.uses,
        &world.imports,
        &additional,
        &world.exports,
    )
}
