//! All imports of a component type, additional ones included.
ghost use Rattle.std.specs.Prelude.{◌≡◌, ◌++◌, ◌<◌, Some, Err, length, slice_get, IfOk, OnOk};
ghost use Rattle.std.specs.List.{flat_map};
ghost use Rattle.wac_types_shapes.specs.declared.shapes.named.ShapeError.TheVariants.{NameTwice};
ghost use Rattle.wac_types_shapes.specs.shapes.Named.{NoNameTwice};
ghost use Rattle.wac_types_collection.specs.collection.Collection.{HasInterface};
ghost use Rattle.wac_types_collection.specs.wide.Wide.{AreThere};
ghost use Rattle.wac_encode_faults.specs.Sides.{under_id};

use wac_types_collection::{InterfaceId, ItemKind, Named, ShapeError, Types};

/// Returns the interface at an index.
fn id_at(interfaces: &[InterfaceId], index: usize) -> InterfaceId
    requires { index < length interfaces.now }
    ensures { slice_get interfaces.now index ≡ Some result }
{
    interfaces[index]
}

/// Appends the instance of an interface under its id, if it has one.
fn add_under_id(types: &Types, all: &mut Named<ItemKind>, id: InterfaceId) -> Result<(), ShapeError>
    requires { HasInterface types.now id }
    ensures joined { OnOk result (all.new ≡ all.old ++ under_id types.now id) }
    ensures name_twice { result ≡ Err NameTwice → NoNameTwice (all.old ++ under_id types.now id) → ⊥ }
{
    let Some(name) = &types[id].id else {
        return Ok(());
    };
    all.insert(types.allocator(), name.as_str(), ItemKind::Instance(id))
}

/// Returns all imports of a component type: the imports, then the additional ones under their ids.
///
/// # Errors
/// - [`NameTwice`](ShapeError::NameTwice) if an additional import has the name of another import.
/// - [`OutOfMemory`](ShapeError::OutOfMemory).
pub fn join_imports(
    types: &Types,
    imports: &Named<ItemKind>,
    additional: &[InterfaceId],
) -> Result<Named<ItemKind>, ShapeError>
    requires { AreThere types.now additional.now }
    ensures joined { IfOk result (λ n. n ≡ imports.now ++ flat_map (under_id types.now) additional.now) }
    ensures name_twice { result ≡ Err NameTwice → NoNameTwice (imports.now ++ flat_map (under_id types.now) additional.now) → ⊥ }
{
    let Ok(mut all) = imports.copied(types.allocator()) else {
        return Err(ShapeError::OutOfMemory);
    };
    for i in 0..additional.len() {
        let id = id_at(additional, i);
        add_under_id(types, &mut all, id)?;
    }
    Ok(all)
}
