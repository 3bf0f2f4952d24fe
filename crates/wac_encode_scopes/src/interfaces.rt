//! Instance types of interfaces.

ghost use Rattle.wac_encode_scopes.specs.private.Paid.{charge, interface_cost};
ghost use Rattle.wac_encode_scopes.specs.private.Limits.{IsTooLarge};
ghost use Rattle.std.specs.Prelude.{◌≡◌, ◌≤◌, ◌+◌, ◌*◌, ◌^◌, length, true, false, not, Some, IfOk, OnOk, OnErr};
ghost use Rattle.std.specs.List.{sum_by};
ghost use Rattle.wac_types_shapes.specs.declared.shapes.component.Interface.{Interface as AnInterface};
ghost use Rattle.wac_types_collection.specs.collection.Collection.{HasInterface, item_at};
ghost use Rattle.wac_encode_stacks.specs.Scopes.{opening, declarations};
ghost use Rattle.wac_encode_stacks.specs.private.Sizes.{size_of, ContentFits};
ghost use Rattle.wac_encode_stacks.specs.private.Beside.{written_as};
ghost use Rattle.wac_encode_scopes.specs.declared.encodable.Encodable.TheVariants.{Instance};
ghost use Rattle.wac_encode_scopes.specs.Contents.{IsInstanceType, content_of};
ghost use Rattle.wac_encode_scopes.specs.Books.{opened};
ghost use Rattle.wac_encode_scopes.specs.private.Listing.{IsSame};
ghost use Rattle.wac_encode_scopes.specs.private.Interfaces.{own_in, own_items, fresh_exports, BindsNone, BindsOne, BeginsInterface};
ghost use Rattle.wac_encode_scopes.specs.private.Steps.{with_own_in, with_own, exporting, OwnIsBound};

use crate::scope::Scope;
use crate::side::Side;
use crate::state::State;
use wac_binary::BinaryFault;
use wac_encode_stacks::{closing_law, listing_law, size_law};
use wac_types_collection::{
    Interface, InterfaceId, ItemKind, Named, ResourceId, Type, Types, UsedType,
};

/// Returns the own resource of an item: the resource of a type item that is neither an alias nor a used type.
pub(crate) fn own_resource(
    types: &Types,
    uses: &Named<UsedType>,
    name: &str,
    item: ItemKind,
) -> Option<ResourceId>
    ensures { result ≡ own_in types.now uses.now (name.now, item) }
{
    let ItemKind::TypeItem(Type::Resource(id)) = item else {
        return None;
    };
    let end = types.resolve_resource(id);
    if end.0 != id.0 {
        return None;
    }
    match uses.get(name) {
        Some(_) => None,
        None => Some(id),
    }
}

impl Scope {
    /// Exports the own resource of an item, if it has one, and records it.
    fn list_own(
        &mut self,
        types: &Types,
        merged: bool,
        uses: &Named<UsedType>,
        name: &str,
        item: ItemKind,
    ) -> Result<(), BinaryFault>
        requires { IsInstanceType self.old.content }
        ensures opened { OnOk result (opened merged self.new ≡ with_own_in (own_in types.now uses.now (name.now, item)) name.now (opened merged self.old)) }
        ensures content { OnOk result (self.new.content ≡ exporting (own_in types.now uses.now (name.now, item)) name.now self.old.content) }
        ensures beside { OnOk result (opened (not merged) self.new ≡ written_as (opened merged self.new) (opened (not merged) self.old)) }
        ensures too_large { IsTooLarge result → ¬ ContentFits (content_of (exporting (own_in types.now uses.now (name.now, item)) name.now self.old.content)) }
    {
        let Some(resource) = own_resource(types, uses, name, item) else {
            return Ok(());
        };
        self.list_fresh(merged, Side::Export, name, resource)?;
        Ok(())
    }

    /// Returns an instance type that exports the own resources of an interface, fresh and in order, and records them.
    fn interface(
        types: &Types,
        merged: bool,
        interface: &Interface,
        passes: bool,
    ) -> Result<Scope, BinaryFault>
        ensures opened { IfOk result (λ s. opened merged s ≡ with_own types.now interface.now.uses interface.now.exports (opening passes)) }
        ensures content { IfOk result (λ s. s.content ≡ Instance (fresh_exports (own_items types.now interface.now.uses interface.now.exports))) }
        ensures beside { IfOk result (λ s. opened (not merged) s ≡ written_as (opened merged s) (opening true)) }
        ensures too_large { IsTooLarge result → 2 ^ 32 ≤ size_of (declarations (fresh_exports (own_items types.now interface.now.uses interface.now.exports))) }
    {
        size_law();
        let mut scope = Scope::instance(types.allocator(), merged, passes);
        for i in 0..interface.exports.len() {
            let (name, item) = interface.exports.entry_at(i);
            scope.list_own(types, merged, &interface.uses, name, *item)?;
        }
        Ok(scope)
    }
}

impl State {
    /// Whether the own resource of an item is bound in the innermost scope. False if it has none.
    fn binds_own(
        &self,
        types: &Types,
        merged: bool,
        uses: &Named<UsedType>,
        name: &str,
        item: ItemKind,
    ) -> bool
        ensures { OwnIsBound types.now merged self.now (own_in types.now uses.now (name.now, item)) result }
    {
        match own_resource(types, uses, name, item) {
            Some(resource) => self.is_bound(merged, resource),
            None => false,
        }
    }

    /// Whether no own resource of an interface is bound in the innermost scope.
    fn binds_none(&self, types: &Types, merged: bool, interface: &Interface) -> bool
        ensures none { result ≡ true → BindsNone types.now merged interface.now self.now }
        ensures one { result ≡ false → BindsOne types.now merged interface.now self.now }
    {
        for i in 0..interface.exports.len() {
            let (name, item) = interface.exports.entry_at(i);
            if self.binds_own(types, merged, &interface.uses, name, *item) {
                return false;
            }
        }
        true
    }

    /// Opens an instance type for an interface inside the innermost scope.
    ///
    /// Exports the own resources of the interface, fresh and in order, and records them. The instance type passes (see
    /// [`Self::open`]) if none of them is bound outside.
    ///
    /// # Errors
    /// - `TooLarge` if the content of the instance type would not fit 32-bit sizes.
    /// - `OutOfMemory`.
    ///
    /// On an error the scopes are unchanged.
    pub fn open_interface(
        &mut self,
        types: &Types,
        merged: bool,
        id: InterfaceId,
    ) -> Result<(), BinaryFault>
        requires { HasInterface types.now id }
        ensures begins { OnOk result ((it : AnInterface) → item_at types.now.interfaces id.0 ≡ Some it → BeginsInterface types.now merged it self.old self.new) }
        ensures refused { OnErr result (IsSame self.old self.new) }
        ensures begins_paid { OnOk result ((it : AnInterface) → item_at types.now.interfaces id.0 ≡ Some it → charge types.now merged (opened merged self.new.here) ≤ sum_by (λ e. 12 * (1 + length e.0)) (own_items types.now it.uses it.exports)) }
        ensures room { IsTooLarge result → 2 ^ 32 ≤ interface_cost types.now id }
    {
        types.uses_law(); // proof only
        closing_law();
        listing_law();
        let interface = &types[id];
        interface.exports.law(); // proof only
        let passes = self.binds_none(types, merged, interface);
        let scope = Scope::interface(types, merged, interface, passes)?;
        self.push(scope)
    }
}
