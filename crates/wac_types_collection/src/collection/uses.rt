//! Types that an interface or a world uses from other interfaces, and why one is not added.
ghost use Rattle.std.specs.Prelude.{◌≡◌};
ghost use Rattle.wac_types_shapes.specs.primitives.Name.{same_name};
ghost use Rattle.wac_types_collection.specs.collection.Uses.{used_item, is_used_by_id, is_there, same_type, same_type_item, is_listed_as_used, is_named_right, used_by_id, are_there, listed_as_used, named_right, uses_fault, interface_fault, world_fault};

use crate::collection::collection::{AddTypeError, Types};
use wac_types_shapes::{Interface, ItemKind, Named, Resource, Type, UsedType, World};

// Whether two types have the same sort and the same id.
fn same_type(a: Type, b: Type) -> bool
    ensures { result ≡ same_type a b }
{
    a == b
}

// Whether the resource has this name.
#[tactic(auto, using(crate::proofs::lemmas::collection::Ids::same_bytes))]
fn is_named(resource: &Resource, name: &str) -> bool
    ensures { result ≡ same_name resource.now.name name.now }
{
    resource.name.as_str() == name
}

impl Types {
    // Returns the item that the interface of a used type exports under the type's name there.
    fn used_item(&self, name: &str, used: &UsedType) -> Option<ItemKind>
        ensures { result ≡ used_item self.now name.now used.now }
    {
        let interface = self.find_interface(used.interface)?;
        let name = used.name.as_ref().map_or(name, |text| text.as_str());
        interface.exports.get(name).copied()
    }

    // Whether the interface that a type is used from has an id.
    fn is_used_by_id(&self, used: &UsedType) -> bool
        ensures { result ≡ is_used_by_id self.now used.now }
    {
        self.find_interface(used.interface)
            .is_some_and(|interface| interface.id.is_some())
    }

    // Whether the interface that a type is used from exports it as a type.
    fn is_there(&self, name: &str, used: &UsedType) -> bool
        ensures { result ≡ is_there self.now (name.now, used.now) }
    {
        matches!(self.used_item(name, used), Some(ItemKind::TypeItem(_)))
    }

    // Whether both are type items of the same type, once aliases are resolved.
    fn same_type_item(&self, a: ItemKind, b: ItemKind) -> bool
        ensures { result ≡ same_type_item self.now a b }
    {
        match (a, b) {
            (ItemKind::TypeItem(a), ItemKind::TypeItem(b)) => {
                same_type(self.resolve_type(a), self.resolve_type(b))
            }
            _ => false,
        }
    }

    // Whether the item under the name of a used type, if there is one, is the used type.
    fn is_listed_as_used(&self, listed: &Named<ItemKind>, name: &str, used: &UsedType) -> bool
        ensures { result ≡ is_listed_as_used self.now listed.now (name.now, used.now) }
    {
        listed.get(name).is_none_or(|kind| {
            self.used_item(name, used)
                .is_some_and(|used| self.same_type_item(*kind, used))
        })
    }

    // Whether a resource has its own name here, unless it is an alias or a used type. True of any other item.
    fn is_named_right(&self, uses: &Named<UsedType>, name: &str, kind: ItemKind) -> bool
        ensures { result ≡ is_named_right self.now uses.now (name.now, kind) }
    {
        match kind {
            ItemKind::TypeItem(Type::Resource(id)) => {
                uses.get(name).is_some()
                    || self.find_resource(id).is_some_and(|resource| {
                        resource.alias.is_some() || is_named(resource, name)
                    })
            }
            _ => true,
        }
    }

    fn used_by_id(&self, uses: &Named<UsedType>) -> bool
        ensures { result ≡ used_by_id self.now uses.now }
    {
        uses.iter().all(|(_, used)| self.is_used_by_id(used))
    }

    fn are_there(&self, uses: &Named<UsedType>) -> bool
        ensures { result ≡ are_there self.now uses.now }
    {
        uses.iter().all(|(name, used)| self.is_there(name, used))
    }

    fn listed_as_used(&self, uses: &Named<UsedType>, listed: &Named<ItemKind>) -> bool
        ensures { result ≡ listed_as_used self.now uses.now listed.now }
    {
        uses.iter()
            .all(|(name, used)| self.is_listed_as_used(listed, name, used))
    }

    pub(crate) fn named_right(&self, uses: &Named<UsedType>, listed: &Named<ItemKind>) -> bool
        ensures { result ≡ named_right self.now uses.now listed.now }
    {
        listed
            .iter()
            .all(|(name, kind)| self.is_named_right(uses, name, *kind))
    }

    // Returns the first fault of these uses, with the items that have their names.
    fn uses_fault(&self, uses: &Named<UsedType>, listed: &Named<ItemKind>) -> Option<AddTypeError>
        ensures { result ≡ uses_fault self.now uses.now listed.now }
    {
        if !self.used_by_id(uses) {
            Some(AddTypeError::UsedInterfaceUnnamed)
        } else if !self.are_there(uses) {
            Some(AddTypeError::UsedTypeMissing)
        } else if !self.listed_as_used(uses, listed) {
            Some(AddTypeError::UsedTypeDiffers)
        } else {
            None
        }
    }

    // Returns the first fault of an interface.
    pub(crate) fn interface_fault(&self, interface: &Interface) -> Option<AddTypeError>
        ensures { result ≡ interface_fault self.now interface.now }
    {
        if !self.contains_interface(interface) {
            return Some(AddTypeError::NotHeld);
        }
        if let Some(fault) = self.uses_fault(&interface.uses, &interface.exports) {
            return Some(fault);
        }
        let named_right = self.named_right(&interface.uses, &interface.exports);
        (!named_right).then_some(AddTypeError::ResourceMisnamed)
    }

    // Returns the first fault of a world.
    pub(crate) fn world_fault(&self, world: &World) -> Option<AddTypeError>
        ensures { result ≡ world_fault self.now world.now }
    {
        if !self.contains_world(world) {
            return Some(AddTypeError::NotHeld);
        }
        if let Some(fault) = self.uses_fault(&world.uses, &world.imports) {
            return Some(fault);
        }
        let named_right = self.named_right(&world.uses, &world.imports)
            && self.named_right(&world.uses, &world.exports);
        (!named_right).then_some(AddTypeError::ResourceMisnamed)
    }
}
