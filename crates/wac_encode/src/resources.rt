//! Which resources of a collection a state binds.

ghost use Rattle.std.specs.Prelude.{IfOk, OnOk};
ghost use Rattle.wac_encode.specs.private.Resources.{AddsIf, AreBoundAs, SaysBinding};

use crate::state::State;
use indexmap::IndexSet;
use std::alloc::AllocError;
use wac_types_collection::{ResourceId, Type, Types};

impl State {
    /// Whether a resource is bound, or is not, as `is_bound` says.
    fn has_binding(&self, merged: bool, is_bound: bool, resource: ResourceId) -> bool
        ensures { SaysBinding merged is_bound self.now resource result }
    {
        if self.scopes.is_bound(merged, resource) {
            is_bound
        } else {
            !is_bound
        }
    }

    /// Adds a resource to a set if it is bound, or if it is not, as `is_bound` says.
    fn add_if(
        &self,
        found: &mut IndexSet<ResourceId>,
        merged: bool,
        is_bound: bool,
        resource: ResourceId,
    ) -> Result<(), AllocError>
        ensures { OnOk result (AddsIf merged is_bound self.now resource found.old.keys found.new.keys) }
    {
        if !self.has_binding(merged, is_bound, resource) {
            return Ok(());
        }
        found.insert(resource)?;
        Ok(())
    }

    /// Returns the resources of a collection that are bound, or those that are not, as `is_bound` says.
    pub(crate) fn resources(
        &self,
        types: &Types,
        merged: bool,
        is_bound: bool,
    ) -> Result<IndexSet<ResourceId>, AllocError>
        ensures { IfOk result (λ s. AreBoundAs types.now merged is_bound self.now s.keys) }
    {
        let mut found = IndexSet::new(types.allocator());
        for i in 0..usize::MAX {
            let resource = ResourceId(i);
            if !types.contains(Type::Resource(resource)) {
                return Ok(found);
            }
            self.add_if(&mut found, merged, is_bound, resource)?;
        }
        // No memory has room for that many resources.
        Err(AllocError)
    }
}
