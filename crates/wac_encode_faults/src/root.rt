//! The lowest fault of an item.
ghost use Rattle.std.specs.Prelude.{◌≡◌, ◌↔◌, true, IfOk, IsSome, Contains};
ghost use Rattle.wac_types_shapes.specs.shapes.Kinds.{kind_type};
ghost use Rattle.wac_types_shapes.specs.declared.shapes.component.ResourceId.{ResourceId as Resources};
ghost use Rattle.wac_types_collection.specs.collection.Bound.{Bindings};
ghost use Rattle.wac_types_collection.specs.collection.Collection.{holds_type};
ghost use Rattle.wac_encode_faults.specs.declared.fault.WriteFault.TheVariants as fault;
ghost use Rattle.wac_encode_faults.specs.Faults.{IsLowest, IsImportFault, IsDefinedFault, IsDefinitionFault, HasFault};
ghost use Rattle.wac_encode_faults.specs.Free.{IsUnbound};
ghost use Rattle.wac_encode_faults.specs.Sides.{defined_sides};

use crate::definitions::{find_completed_fault, find_interface_fault};
use crate::fault::WriteFault;
use crate::faults::{Role, definition_fault, fault_if, import_fault, lower};
use crate::nested::find_fault_of_type;
use crate::unbound::is_unbound;
use indexmap::IndexSet;
use std::alloc::AllocError;
use wac_types_collection::{ItemKind, ResourceId, Type, Types};

/// Returns the fault of a type of which a free resource is not bound, where these are the resources that are bound.
fn find_unbound(
    types: &Types,
    ty: Type,
    bound: &IndexSet<ResourceId>,
) -> Result<Option<WriteFault>, AllocError>
    requires { holds_type types.now ty ≡ true }
    ensures { IfOk result (λ o. (root : Bindings) → ((r : Resources) → Contains bound.now.keys r ↔ IsSome (root r)) → IsLowest (λ f. IsUnbound types.now root ty × (fault.UnboundResource ≡ f)) o) }
{
    let has_unbound = is_unbound(types, ty, bound)?;
    Ok(fault_if(has_unbound, WriteFault::UnboundResource))
}

/// Returns the lowest fault of an item as an import of the root, where these are the resources that the root binds.
fn find_import_fault(
    types: &Types,
    item: ItemKind,
    bound: &IndexSet<ResourceId>,
) -> Result<Option<WriteFault>, AllocError>
    requires { holds_type types.now (kind_type item) ≡ true }
    ensures { IfOk result (λ o. (root : Bindings) → ((r : Resources) → Contains bound.now.keys r ↔ IsSome (root r)) → IsLowest (IsImportFault types.now root item) o) }
{
    let ty = item.ty();
    let unbound = find_unbound(types, ty, bound)?;
    let inside = find_fault_of_type(types, ty)?;
    let own = import_fault(item);
    let outside = lower(own, unbound);
    Ok(lower(outside, inside))
}

/// Returns the lowest fault of the component type of a definition, or of its type, if it has none.
fn find_defined_fault(
    types: &Types,
    ty: Type,
    bound: &IndexSet<ResourceId>,
) -> Result<Option<WriteFault>, AllocError>
    requires { holds_type types.now ty ≡ true }
    ensures { IfOk result (λ o. (root : Bindings) → ((r : Resources) → Contains bound.now.keys r ↔ IsSome (root r)) → IsLowest (IsDefinedFault types.now root ty (defined_sides types.now ty)) o) }
{
    match ty {
        Type::Interface(id) => find_interface_fault(types, id),
        Type::World(id) => find_completed_fault(types, id),
        _ => find_unbound(types, ty, bound),
    }
}

/// Returns the lowest fault of the definition of a type, where these are the resources that the root binds.
fn find_definition_fault(
    types: &Types,
    ty: Type,
    bound: &IndexSet<ResourceId>,
) -> Result<Option<WriteFault>, AllocError>
    requires { holds_type types.now ty ≡ true }
    ensures { IfOk result (λ o. (root : Bindings) → ((r : Resources) → Contains bound.now.keys r ↔ IsSome (root r)) → IsLowest (IsDefinitionFault types.now root ty) o) }
{
    let defined = find_defined_fault(types, ty, bound)?;
    let own = definition_fault(types, ty);
    Ok(lower(own, defined))
}

/// Returns the lowest fault that an item of the collection has in its role, where these are the resources that the root
/// binds. Looks at each world once, and at what is inside each of its imports and exports, without recursion.
///
/// # Errors
/// - `AllocError` if out of memory.
pub fn lowest_fault(
    types: &Types,
    bound: &IndexSet<ResourceId>,
    role: Role,
    item: ItemKind,
) -> Result<Option<WriteFault>, AllocError>
    requires { holds_type types.now (kind_type item) ≡ true }
    ensures { IfOk result (λ o. (root : Bindings) → ((r : Resources) → Contains bound.now.keys r ↔ IsSome (root r)) → IsLowest (HasFault types.now root role item) o) }
{
    match role {
        Role::Imported => find_import_fault(types, item, bound),
        Role::Defined => {
            let ty = item.ty();
            find_definition_fault(types, ty, bound)
        }
    }
}
