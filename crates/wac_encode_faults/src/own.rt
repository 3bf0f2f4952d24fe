//! The own resources of interfaces.
ghost use Rattle.std.specs.Prelude.{◌≡◌, ◌↔◌, true, None, Some, Contains};
ghost use Rattle.wac_types_shapes.specs.declared.shapes.component.ResourceId.{ResourceId as Resources};
ghost use Rattle.wac_types_shapes.specs.shapes.Kinds.{kind_type};
ghost use Rattle.wac_types_collection.specs.collection.Collection.{holds_type};
ghost use Rattle.wac_types_collection.specs.collection.Bound.{own_name};
ghost use Rattle.wac_encode_faults.specs.private.Search.{AreHeld};
ghost use Rattle.wac_encode_faults.specs.private.Sets.{resource_itself as resource_itself_of, own_resource as own_resource_of};

use indexmap::IndexSet;
use wac_types_collection::{Interface, ItemKind, Named, ResourceId, Type, Types, UsedType};

/// Returns the resource of a type item, if it is no alias.
fn resource_itself(types: &Types, item: ItemKind) -> Option<ResourceId>
    requires { holds_type types.now (kind_type item) ≡ true }
    ensures { result ≡ resource_itself_of types.now item }
{
    let ItemKind::TypeItem(Type::Resource(id)) = item else {
        return None;
    };
    if types[id].alias.is_some() {
        return None;
    }
    Some(id)
}

/// Returns the own resource of an interface or world under a name: a type item without alias that `uses` does not name.
pub(crate) fn own_resource(
    types: &Types,
    uses: &Named<UsedType>,
    name: &str,
    item: ItemKind,
) -> Option<ResourceId>
    requires { holds_type types.now (kind_type item) ≡ true }
    ensures { result ≡ own_resource_of types.now uses.now (name.now, item) }
{
    let id = resource_itself(types, item)?;
    if uses.get(name).is_some() {
        return None;
    }
    Some(id)
}

/// Removes a resource, if there is one.
fn remove(found: &mut IndexSet<ResourceId>, resource: Option<ResourceId>)
    ensures { (r : Resources) → Contains found.new.keys r ↔ (Contains found.old.keys r × (resource ≡ Some r → ⊥)) }
{
    if let Some(resource) = resource {
        found.swap_remove(&resource);
    }
}

/// Removes the own resources of an interface.
pub(crate) fn remove_own(found: &mut IndexSet<ResourceId>, types: &Types, interface: &Interface)
    requires { AreHeld types.now interface.now.exports }
    ensures { (r : Resources) → Contains found.new.keys r ↔ (Contains found.old.keys r × (own_name types.now interface.now.uses interface.now.exports r ≡ None)) }
{
    for i in 0..interface.exports.len() {
        let (name, item) = interface.exports.entry_at(i);
        remove(found, own_resource(types, &interface.uses, name, *item));
    }
}
