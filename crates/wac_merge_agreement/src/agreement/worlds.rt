//! The worlds that an entry mentions.
ghost use Rattle.std.specs.Prelude.{◌≡◌, List, true, IfOk, OnOk};
ghost use Rattle.wac_types_shapes.specs.shapes.Kinds.{kind_type};
ghost use Rattle.wac_types_shapes.specs.declared.shapes.component.«Type».{«Type» as AnyType};
ghost use Rattle.wac_types_collection.specs.collection.Collection.{holds_type};
ghost use Rattle.wac_types_collection.specs.reach.Reach.{IsIn};
ghost use Rattle.wac_merge_agreement.specs.private.agreement.Worlds.{AreAmong, AreWorlds};

use std::alloc::{AllocError, Global};
use wac_merge_classes::entries::scopes::Opener;
use wac_merge_trees::coding::listing::listed_kinds;
use wac_types_collection::subtyping::laws::trees_are_whole;
use wac_types_collection::{ItemKind, Named, Reached, Type, Types, WorldId};

/// Appends a type if it is a world.
fn put_world(worlds: &mut Vec<WorldId>, ty: Type) -> Result<(), AllocError>
    ensures { OnOk result ((ts : List AnyType) → IsIn ty ts → AreAmong ts worlds.old.items → AreAmong ts worlds.new.items) }
{
    match ty {
        Type::World(id) => {
            worlds.push(id)?;
            Ok(())
        }
        _ => Ok(()),
    }
}

/// Returns the worlds among these types, by their ids.
fn worlds_among(alloc: Global, found: &[Type]) -> Result<Vec<WorldId>, AllocError>
    ensures { IfOk result (λ worlds. AreAmong found.now worlds.items) }
{
    let mut worlds = Vec::new(alloc);
    for i in 0..found.len() {
        put_world(&mut worlds, found[i])?;
    }
    worlds.sort_unstable();
    Ok(worlds)
}

/// Returns whether an item has the type of an interface or world.
fn has_inner(listed: &Named<ItemKind>) -> bool {
    for i in 0..listed.len() {
        match listed.value_at(i).ty() {
            Type::Interface(_) | Type::World(_) => return true,
            _ => {}
        }
    }
    false
}

/// Returns whether an item of an interface or world has the type of an interface or world.
fn is_nested(types: &Types, kind: ItemKind) -> bool
    requires { holds_type types.now (kind_type kind) ≡ true }
{
    match kind.ty() {
        Type::Interface(id) => has_inner(listed_kinds(types, Opener::Interface(id))),
        Type::World(id) => {
            has_inner(listed_kinds(types, Opener::Imports(id)))
                || has_inner(listed_kinds(types, Opener::Exports(id)))
        }
        _ => false,
    }
}

/// Returns the worlds that an item reaches, if one of its own items has the type of an interface or world. A world comes
/// after the worlds that it reaches.
///
/// # Errors
/// - [`AllocError`] if out of memory.
pub fn nested_worlds(types: &Types, kind: ItemKind) -> Result<Vec<WorldId>, AllocError>
    requires { holds_type types.now (kind_type kind) ≡ true }
    ensures { IfOk result (λ worlds. AreWorlds types.now worlds.items) }
{
    let alloc = types.allocator();
    if !is_nested(types, kind) {
        return Ok(Vec::new(alloc));
    }
    let mut reached = Reached::new(alloc);
    reached.reach_from(types, kind.ty())?;
    worlds_among(alloc, reached.as_slice())
}
