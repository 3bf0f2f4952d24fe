//! Names of additional imports.
ghost use Rattle.std.specs.Prelude.{◌≡◌, ◌↔◌, ◌++◌, ◌∷◌, [], false, true, IfOk, IsTrue, IsSome};
ghost use Rattle.wac_types_shapes.specs.primitives.Name.{find_name};
ghost use Rattle.wac_types_collection.specs.collection.Collection.{HasInterface};
ghost use Rattle.wac_types_collection.specs.wide.Wide.{AreThere};
ghost use Rattle.wac_encode_faults.specs.Faults.{HasNameTwice};
ghost use Rattle.wac_encode_faults.specs.private.Search.{named, sides_of, IsNamedAgain, IsNoImport};

use crate::additional::interface_at;
use indexmap::IndexSet;
use std::alloc::AllocError;
use wac_types_collection::{InterfaceId, ItemKind, Named, ShapeError, Text, Types};

/// Adds an interface under a name. Returns true if the name is there already.
fn add_name(
    types: &Types,
    names: &mut Named<InterfaceId>,
    name: &Text,
    id: InterfaceId,
) -> Result<bool, AllocError>
    ensures there { IfOk result (λ b. b ≡ true → IsSome (find_name names.old name.now)) }
    ensures added { IfOk result (λ b. b ≡ false → names.new ≡ names.old ++ (name.now, id) ∷ []) }
{
    match names.insert(types.allocator(), name.as_str(), id) {
        Ok(()) => Ok(false),
        Err(ShapeError::NameTwice) => Ok(true),
        Err(ShapeError::OutOfMemory) => Err(AllocError),
    }
}

/// Adds an interface under its id. Returns true if an import has that name, or an interface that was added before.
fn add_id(
    types: &Types,
    names: &mut Named<InterfaceId>,
    imports: &Named<ItemKind>,
    id: InterfaceId,
) -> Result<bool, AllocError>
    requires { HasInterface types.now id }
    ensures again { IfOk result (λ b. b ≡ true → IsNamedAgain types.now imports.now names.old id) }
    ensures added { IfOk result (λ b. b ≡ false → (names.new ≡ names.old ++ named types.now id) × IsNoImport types.now imports.now id) }
{
    let Some(name) = &types[id].id else {
        return Ok(false);
    };
    if let Some(_) = imports.get(name.as_str()) {
        return Ok(true);
    }
    add_name(types, names, name, id)
}

/// Whether an additional import has the name of another import. Takes linear time.
///
/// # Errors
/// - `AllocError` if out of memory.
pub(crate) fn has_name_twice(
    types: &Types,
    imports: &Named<ItemKind>,
    additional: &IndexSet<InterfaceId>,
) -> Result<bool, AllocError>
    requires { AreThere types.now additional.now.keys }
    ensures { IfOk result (λ b. IsTrue b ↔ HasNameTwice (sides_of types.now imports.now additional.now.keys)) }
{
    let mut names = Named::new(types.allocator());
    for i in 0..additional.len() {
        let id = interface_at(additional, i);
        if add_id(types, &mut names, imports, id)? {
            return Ok(true);
        }
    }
    // Proof only: no name is there twice (docs/PROOFS.md, 'Laws').
    names.law();
    Ok(false)
}
