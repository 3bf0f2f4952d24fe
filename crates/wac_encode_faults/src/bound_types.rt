//! Items without a fault, found together.
ghost use Rattle.std.specs.Prelude.{ℕ, ◌≡◌, ◌≤◌, ◌↔◌, true, List, Some, None, IfOk, IsSome, OnOk, Contains, slice_get};
ghost use Rattle.wac_types_shapes.specs.shapes.Kinds.{kind_type};
ghost use Rattle.wac_types_shapes.specs.declared.shapes.component.InterfaceId.{InterfaceId as Interfaces};
ghost use Rattle.wac_types_shapes.specs.declared.shapes.component.ResourceId.{ResourceId as Resources};
ghost use Rattle.wac_types_shapes.specs.declared.shapes.component.«Type».TheVariants as ty_of;
ghost use Rattle.wac_types_collection.specs.collection.Bound.{Bindings};
ghost use Rattle.wac_types_collection.specs.collection.Collection.{Collection, holds_type};
ghost use Rattle.wac_types_collection.specs.collection.Held.{resolved};
ghost use Rattle.wac_encode_faults.specs.declared.faults.Role.{Role as Roles};
ghost use Rattle.wac_encode_faults.specs.private.BoundTypes.{AreBoundTypes};
ghost use Rattle.wac_encode_faults.specs.Faults.{HasFault, IsLowest};
ghost use Rattle.wac_encode_faults.specs.Free.{IsFree};
ghost use Rattle.wac_encode_faults.specs.private.Plain.{plain_type};

use crate::parts::add_all_parts;
use indexmap::IndexSet;
use std::alloc::{AllocError, Global};
use wac_types_collection::{ItemKind, ResourceId, Type, Types};

/// Returns the type of a function, or of a type item of a function type, a value type or a resource.
fn plain_type(item: ItemKind) -> Option<Type>
    ensures { result ≡ plain_type item }
{
    match item {
        ItemKind::Func(id) => Some(Type::Func(id)),
        ItemKind::TypeItem(Type::Resource(id)) => Some(Type::Resource(id)),
        ItemKind::TypeItem(Type::Func(id)) => Some(Type::Func(id)),
        ItemKind::TypeItem(Type::Value(value)) => Some(Type::Value(value)),
        _ => None,
    }
}

/// Whether a type is no resource, or the end of its aliases is bound.
fn is_bound(types: &Types, bound: &IndexSet<ResourceId>, ty: Type) -> bool
    ensures { result ≡ true → (r : Resources) → ty ≡ ty_of.Resource r → Contains bound.now.keys (resolved types.now r) }
{
    let Type::Resource(id) = ty else {
        return true;
    };
    bound.contains(&types.resolve_resource(id))
}

/// Whether each resource among the types from a position on is bound at the end of its aliases.
fn are_bound(types: &Types, bound: &IndexSet<ResourceId>, found: &[Type], from: usize) -> bool
    ensures { result ≡ true → (i : ℕ) (r : Resources) → from ≤ i → slice_get found.now i ≡ Some (ty_of.Resource r) → Contains bound.now.keys (resolved types.now r) }
{
    for i in from..found.len() {
        if !is_bound(types, bound, found[i]) {
            return false;
        }
    }
    true
}

/// Function types, value types and resources whose free resources are bound, with all that they are made of.
///
/// What is there is not looked at again. So items that share parts are looked at in linear time together.
#[derive(Drop)]
pub struct BoundTypes {
    pub(crate) types: IndexSet<Type>,
}

impl BoundTypes {
    /// Returns no types.
    pub fn new(alloc: Global) -> BoundTypes
        ensures { (c : Collection) (bound : List Resources) → AreBoundTypes c bound result }
    {
        BoundTypes {
            types: IndexSet::new(alloc),
        }
    }

    /// Adds a type with all that it is made of. Returns whether its free resources are bound. If not, no type is left.
    fn add(
        &mut self,
        types: &Types,
        bound: &IndexSet<ResourceId>,
        ty: Type,
    ) -> Result<bool, AllocError>
        requires held { holds_type types.now ty ≡ true }
        requires other { (i : Interfaces) → ty ≡ ty_of.Interface i → ⊥ }
        requires types { AreBoundTypes types.now bound.now.keys self.old }
        ensures types { OnOk result (AreBoundTypes types.now bound.now.keys self.new) }
        ensures bound { IfOk result (λ b. b ≡ true → (r : Resources) → IsFree types.now ty r → Contains bound.now.keys r) }
    {
        types.law(); // proof only
        if types.holds_no_resource() {
            return Ok(true);
        }
        let from = self.types.len();
        self.types.insert(ty)?;
        add_all_parts(&mut self.types, types, from)?;
        if are_bound(types, bound, self.types.as_slice(), from) {
            return Ok(true);
        }
        self.types.clear();
        Ok(false)
    }

    /// Returns whether an item is known to have no fault in either role, where these are the resources that the root
    /// binds. Only functions, and type items of function types, value types and resources are looked at.
    ///
    /// `types` and `bound` must be the same in each call.
    ///
    /// # Errors
    /// - `AllocError` if out of memory.
    pub fn is_faultless(
        &mut self,
        types: &Types,
        bound: &IndexSet<ResourceId>,
        item: ItemKind,
    ) -> Result<bool, AllocError>
        requires held { holds_type types.now (kind_type item) ≡ true }
        requires types { AreBoundTypes types.now bound.now.keys self.old }
        ensures types { OnOk result (AreBoundTypes types.now bound.now.keys self.new) }
        ensures faultless { IfOk result (λ b. b ≡ true → (role : Roles) (root : Bindings) → ((r : Resources) → Contains bound.now.keys r ↔ IsSome (root r)) → IsLowest (HasFault types.now root role item) None) }
    {
        match plain_type(item) {
            Some(ty) => self.add(types, bound, ty),
            None => Ok(false),
        }
    }
}
