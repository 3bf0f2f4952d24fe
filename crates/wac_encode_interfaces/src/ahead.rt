//! The component types of the worlds inside types, which are written ahead.
//!
//! A component type sees nothing outside itself, so it is the same in each scope that mentions the world.
ghost use Rattle.std.specs.Prelude.{◌≡◌, ◌∷◌, [], true, Contains, IfOk, OnOk};
ghost use Rattle.wac_types_shapes.specs.declared.shapes.component.«Type».{«Type» as AnyType};
ghost use Rattle.wac_types_shapes.specs.declared.shapes.component.«Type».TheVariants as ty_of;
ghost use Rattle.wac_types_collection.specs.collection.Collection.{holds_type};
ghost use Rattle.wac_encode_scopes.specs.private.Closed.{AreClosedTypes};
ghost use Rattle.wac_encode_scopes.specs.private.Limits.{IsTooLarge};
ghost use Rattle.wac_encode_scopes.specs.private.Paid.{world_cost};
ghost use Rattle.wac_encode_faults.specs.private.Ids.{HaveIds};
ghost use Rattle.wac_encode_interfaces.specs.private.Given.{sides_of, AreHeldSides, HaveSidesWorlds};
ghost use Rattle.wac_encode_interfaces.specs.private.Paid.{AreSmallWorlds, IsHeavy, SizedWithin};
ghost use Rattle.wac_encode_interfaces.specs.private.Ready.{AreSidesClean, IsClean};
ghost use Rattle.wac_encode_interfaces.specs.private.Worlds.{AreWorldTypes, HaveWorlds, written_in};
ghost use Rattle.wac_encode_interfaces.specs.private.Roots.{side_roots as side_roots_of};
ghost use Rattle.wac_encode_interfaces.specs.private.InnerTypes.{AreCleanTypes, HaveInner, IsCleanType, IsInnerFirst, IsWorldType, KeepsWorlds};

use crate::inside::{type_at, types_inside};
use crate::roots::side_roots;
use crate::sides::Sides;
use crate::worlds::WorldTypes;
use crate::writer::TypeWriter;
use wac_binary::{BinaryFault, ComponentType};
use wac_encode_scopes::ClosedTypes;
use wac_types_collection::{Type, Types, WorldId};
use wac_types_weight::weight_law;

/// Writes the component type of a world. The worlds inside it must be written.
fn world_type(
    types: &Types,
    closed: &ClosedTypes,
    written: &WorldTypes,
    world: WorldId,
) -> Result<ComponentType, BinaryFault>
    requires closed { AreClosedTypes types.now closed.now }
    requires clean { IsCleanType types.now (ty_of.World world) }
    requires written { AreWorldTypes types.now (written_in written.now) }
    requires inner { HaveInner types.now (written_in written.now) (ty_of.World world) }
    requires sizes { AreSmallWorlds types.now (written_in written.now) }
    ensures is { IfOk result (IsWorldType types.now world) }
    ensures small { SizedWithin 17 (world_cost types.now world) result }
{
    types.law(); // proof only
    // A component type has scopes of its own, so it is the same with the records of either collection.
    let writer = TypeWriter::new(types, closed, false, written);
    let item = &types[world];
    writer.component_type(&Sides {
        imports: &item.imports,
        additional: &[],
        exports: &item.exports,
        uses: &item.uses,
    })
}

/// Adds the component type of a world, if the type is one. The worlds inside it must be written.
fn add_world(
    types: &Types,
    closed: &ClosedTypes,
    written: &mut WorldTypes,
    ty: Type,
) -> Result<(), BinaryFault>
    requires closed { AreClosedTypes types.now closed.now }
    requires clean { IsCleanType types.now ty }
    requires written { AreWorldTypes types.now (written_in written.old) }
    requires inner { HaveInner types.now (written_in written.old) ty }
    requires sizes { AreSmallWorlds types.now (written_in written.old) }
    ensures written { OnOk result (AreWorldTypes types.now (written_in written.new)) }
    ensures kept { OnOk result (KeepsWorlds (written_in written.old) (written_in written.new)) }
    ensures there { OnOk result (HaveWorlds types.now (written_in written.new) ty) }
    ensures small { IsTooLarge result → IsHeavy types.now (ty ∷ []) }
    ensures sizes { OnOk result (AreSmallWorlds types.now (written_in written.new)) }
{
    types.law(); // proof only
    weight_law();
    match ty {
        Type::World(world) => {
            let component = world_type(types, closed, written, world)?;
            written.insert(world, component)
        }
        _ => Ok(()),
    }
}

/// Writes the component types of the worlds among these types. Each type must come after those inside it.
fn write_worlds(
    types: &Types,
    closed: &ClosedTypes,
    order: &[Type],
) -> Result<WorldTypes, BinaryFault>
    requires closed { AreClosedTypes types.now closed.now }
    requires sorted { IsInnerFirst types.now order.now }
    requires clean { AreCleanTypes types.now order.now }
    ensures written { IfOk result (λ ws. AreWorldTypes types.now (written_in ws)) }
    ensures there { IfOk result (λ ws. (t : AnyType) → Contains order.now t → HaveWorlds types.now (written_in ws) t) }
    ensures small { IsTooLarge result → IsHeavy types.now order.now }
    ensures sizes { IfOk result (λ ws. AreSmallWorlds types.now (written_in ws)) }
{
    let mut written = WorldTypes::new(types.allocator());
    for i in 0..order.len() {
        let ty = type_at(order, i);
        add_world(types, closed, &mut written, ty)?;
    }
    Ok(written)
}

/// Returns the component types of all worlds among these types and inside them.
///
/// Each world is written once, after those inside it, without recursion. Nothing inside the types may have a fault.
/// `closed` must be the definitions of the collection that mention no resource.
///
/// # Errors
/// - `TooLarge` if a component type would not fit 32-bit sizes.
/// - `OutOfMemory`.
pub fn world_types(
    types: &Types,
    closed: &ClosedTypes,
    roots: &[Type],
) -> Result<WorldTypes, BinaryFault>
    requires closed { AreClosedTypes types.now closed.now }
    requires held { (t : AnyType) → Contains roots.now t → holds_type types.now t ≡ true }
    requires clean { (t : AnyType) → Contains roots.now t → IsClean types.now t }
    ensures written { IfOk result (λ ws. AreWorldTypes types.now (written_in ws)) }
    ensures there { IfOk result (λ ws. (t : AnyType) → Contains roots.now t → HaveWorlds types.now (written_in ws) t) }
    ensures small { IsTooLarge result → IsHeavy types.now roots.now }
    ensures sizes { IfOk result (λ ws. AreSmallWorlds types.now (written_in ws)) }
{
    let order = types_inside(types, roots)?;
    write_worlds(types, closed, order.as_slice())
}

/// Returns the component types of all worlds inside the imports and exports of a component type. Of an additional import,
/// those inside its types.
///
/// The component type may have no fault, and its additional imports must have ids. `closed` must be the definitions of the
/// collection that mention no resource.
///
/// # Errors
/// - `TooLarge` if a component type would not fit 32-bit sizes.
/// - `OutOfMemory`.
pub fn side_world_types(
    types: &Types,
    closed: &ClosedTypes,
    sides: &Sides<'_>,
) -> Result<WorldTypes, BinaryFault>
    requires closed { AreClosedTypes types.now closed.now }
    requires held { AreHeldSides types.now sides.now }
    requires named { HaveIds types.now sides.now.additional.now }
    requires clean { AreSidesClean types.now (sides_of types.now sides.now) }
    ensures written { IfOk result (λ ws. AreWorldTypes types.now (written_in ws)) }
    ensures there { IfOk result (λ ws. HaveSidesWorlds types.now (written_in ws) sides.now) }
    ensures small { IsTooLarge result → IsHeavy types.now (side_roots_of types.now sides.now) }
    ensures sizes { IfOk result (λ ws. AreSmallWorlds types.now (written_in ws)) }
{
    types.law(); // proof only
    let roots = side_roots(types, sides)?;
    world_types(types, closed, roots.as_slice())
}
