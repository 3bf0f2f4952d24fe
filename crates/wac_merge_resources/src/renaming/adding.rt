//! New resources, added to a merged collection.
ghost use Rattle.std.specs.Prelude.{◌≡◌, ℕ, [], true, length, Some, IfOk, OnOk};
ghost use Rattle.wac_types_collection.specs.collection.Collection.{Collection, holds_type};
ghost use Rattle.wac_types_shapes.specs.shapes.Kinds.{kind_type};
ghost use Rattle.wac_types_shapes.specs.declared.shapes.component.ResourceId.{ResourceId as AnId};
ghost use Rattle.wac_merge_classes.specs.terms.Became.{AreFresh, IsNew};
ghost use Rattle.wac_merge_classes.specs.entries.Bindings.{AreBindings, AreHeld, first_in};
ghost use Rattle.wac_merge_classes.specs.entries.Classes.{AreClasses, by_names};
ghost use Rattle.wac_merge_resources.specs.private.renaming.FreshSteps.{AreAllOwn, AreCounted, AreOwn, AreWhole, IsWhole, StayWhole};
ghost use Rattle.wac_merge_classes.specs.entries.Places.{resource_itself};
ghost use Rattle.wac_types_collection.specs.private.subtyping.Extended.{IsExtended};

use std::alloc::{AllocError, Global};
use wac_merge_classes::entries::bindings::Bindings;
use wac_merge_classes::entries::bound::resource_itself;
use wac_merge_classes::entries::classes::Classes;
use wac_merge_classes::entries::entry::Entry;
use wac_merge_classes::terms::fresh::Fresh;
use wac_merge_classes::terms::parts::{Export, Union};
use wac_types_collection::subtyping::laws::growth_keeps_trees;
use wac_types_collection::{
    AddTypeError, ItemKind, Named, Resource, ResourceId, ShapeError, Types,
};

/// Adds a resource of the given name.
fn add(alloc: Global, merged: &mut Types, name: &str) -> Result<ResourceId, AllocError>
    ensures extended { IsExtended merged.old merged.new }
    ensures new { IfOk result (λ q. IsNew merged.old merged.new q name.now) }
{
    growth_keeps_trees(merged); // proof only
    let resource = Resource::new(alloc, name)?;
    match merged.add_resource(resource) {
        Ok(id) => Ok(id),
        Err(AddTypeError::OutOfMemory) => Err(AllocError),
        Err(_) => unreachable!(),
    }
}

/// Adds a resource for each own resource of a union.
fn add_own(
    alloc: Global,
    merged: &mut Types,
    exports: &Named<Export>,
) -> Result<Named<ResourceId>, AllocError>
    ensures extended { IsExtended merged.old merged.new }
    ensures own { IfOk result (λ own. AreOwn merged.old exports.now own merged.new) }
{
    exports.law(); // proof only
    let mut own = Named::new(alloc);
    for i in 0..exports.len() {
        let (name, export) = exports.entry_at(i);
        merged.law(); // proof only
        if export.is_own {
            let resource = add(alloc, merged, name)?;
            match own.insert(alloc, name, resource) {
                Ok(()) => {}
                Err(ShapeError::OutOfMemory) => return Err(AllocError),
                Err(ShapeError::NameTwice) => unreachable!(),
            }
        }
    }
    Ok(own)
}

/// Adds a resource for each own resource of each union.
fn add_all_own(
    alloc: Global,
    merged: &mut Types,
    unions: &[Union],
) -> Result<Vec<Named<ResourceId>>, AllocError>
    ensures extended { IsExtended merged.old merged.new }
    ensures own { IfOk result (λ own. AreAllOwn merged.old unions.now own.items merged.new) }
{
    let mut own = Vec::new(alloc);
    for u in 0..unions.len() {
        merged.law(); // proof only
        own.push(add_own(alloc, merged, &unions[u].exports)?)?;
    }
    Ok(own)
}

/// Adds a resource for the class that is the first to bind the resource of `kind` and is that resource itself.
/// It adds none if `kind` is no resource or the class already has a new one.
fn add_whole(
    alloc: Global,
    merged: &mut Types,
    types: &Types,
    bindings: &Bindings,
    whole: &mut Vec<Option<ResourceId>>,
    kind: ItemKind,
) -> Result<(), AllocError>
    requires held { holds_type types.now (kind_type kind) ≡ true }
    requires counted { AreCounted bindings.now whole.old.items }
    ensures extended { IsExtended merged.old merged.new }
    ensures counted { OnOk result (length whole.new.items ≡ length whole.old.items) }
    ensures right { OnOk result ((a : Collection) → IsExtended a merged.old → AreWhole a types.now bindings.now whole.old.items merged.old → AreWhole a types.now bindings.now whole.new.items merged.new) }
    ensures stay { OnOk result (StayWhole whole.old.items whole.new.items) }
    ensures put { OnOk result ((r : AnId) (k : ℕ) → resource_itself types.now kind ≡ Some r → first_in bindings.now r ≡ Some (k, []) → IsWhole whole.new.items k) }
{
    let Some(resource) = resource_itself(types, kind) else {
        return Ok(());
    };
    let Some((class, path)) = bindings.first(resource) else {
        return Ok(());
    };
    merged.law(); // proof only
    if path.is_empty() && whole[class].is_none() {
        whole[class] = Some(add(alloc, merged, types[resource].name.as_str())?);
    }
    Ok(())
}

/// Returns a list of `None`, one for each of `count` classes.
fn none_whole(alloc: Global, count: usize) -> Result<Vec<Option<ResourceId>>, AllocError>
    ensures counted { IfOk result (λ whole. length whole.items ≡ count) }
    ensures none { IfOk result (λ whole. (k : ℕ) → IsWhole whole.items k → ⊥) }
{
    let mut whole = Vec::new(alloc);
    for _ in 0..count {
        whole.push(None)?;
    }
    Ok(whole)
}

/// Adds a resource for each class that is a resource and is the first to bind it.
fn add_all_whole(
    alloc: Global,
    merged: &mut Types,
    types: &Types,
    entries: &[Entry],
    classes: &Classes,
    bindings: &Bindings,
) -> Result<Vec<Option<ResourceId>>, AllocError>
    requires held { AreHeld types.now entries.now }
    requires classes { AreClasses by_names entries.now classes.now.numbers.items classes.now.positions.items classes.now.names }
    requires bindings { AreBindings types.now entries.now bindings.now }
    ensures extended { IsExtended merged.old merged.new }
    ensures right { IfOk result (λ whole. AreWhole merged.old types.now bindings.now whole.items merged.new) }
    ensures all { IfOk result (λ whole. (k : ℕ) (r : AnId) → first_in bindings.now r ≡ Some (k, []) → IsWhole whole.items k) }
{
    let mut whole = none_whole(alloc, classes.positions().len())?;
    for i in 0..entries.len() {
        add_whole(
            alloc,
            merged,
            types,
            bindings,
            &mut whole,
            entries[i].kind(),
        )?;
    }
    Ok(whole)
}

/// Adds the new resources and returns them.
///
/// There is one for each name under which a union exports an own resource.
/// There is one for each class that is a resource and is the first to bind it.
///
/// # Errors
/// - [`AllocError`] if out of memory. The merged collection may then hold some of the new resources.
pub fn add_fresh(
    alloc: Global,
    merged: &mut Types,
    types: &Types,
    entries: &[Entry],
    classes: &Classes,
    bindings: &Bindings,
    unions: &[Union],
) -> Result<Fresh, AllocError>
    requires extended { IsExtended types.now merged.old }
    requires held { AreHeld types.now entries.now }
    requires classes { AreClasses by_names entries.now classes.now.numbers.items classes.now.positions.items classes.now.names }
    requires bindings { AreBindings types.now entries.now bindings.now }
    ensures extended { IsExtended merged.old merged.new }
    ensures fresh { IfOk result (λ f. AreFresh types.now unions.now bindings.now f merged.new) }
{
    let own = add_all_own(alloc, merged, unions)?;
    merged.law(); // proof only
    let whole = add_all_whole(alloc, merged, types, entries, classes, bindings)?;
    Ok(Fresh { own, whole })
}
