//! How resources are named when entries are compared.
//!
//! A resource is named by where it is bound: by an enclosing scope or the entry's own class, else by the first class
//! that binds it. A resource that nothing binds is named by itself.
ghost use Rattle.std.specs.Prelude.{ℕ, List, ◌≡◌, ◌<◌, length, Some, IfOk, slice_get, string_bytes};
ghost use Rattle.wac_types_collection.specs.subtyping.Called.{resource_name};
ghost use Rattle.wac_types_collection.specs.collection.Collection.{HasResource};
ghost use Rattle.wac_types_collection.specs.collection.Held.{resolved};
ghost use Rattle.wac_types_shapes.specs.primitives.Name.{Name};
ghost use Rattle.wac_merge_classes.specs.entries.Agreement.{called_outside};
ghost use Rattle.wac_merge_classes.specs.entries.Bindings.{AreBindings, first_in, path_in};
ghost use Rattle.wac_types_collection.specs.subtyping.CalledViews.{called_view, path_view};
ghost use Rattle.wac_merge_classes.specs.entries.Classes.{by_names, class_names, is_instance};
ghost use Rattle.wac_merge_classes.specs.entries.Classes as classes;
ghost use Rattle.wac_merge_classes.specs.entries.Opening.{IsHeldAt};
ghost use Rattle.wac_merge_classes.specs.private.entries.Ways.{AreOutward};
ghost use Rattle.wac_merge_classes.specs.entries.Scopes.{AreScopes, called_in, called_in_root, opened_by};
ghost use Rattle.wac_merge_classes.specs.private.entries.Walking.{AreBound, by_first, past};

use crate::entries::bindings::Bindings;
use crate::entries::bound::Bound;
use crate::entries::outward::Outward;
use crate::entries::scopes::Scopes;
use std::alloc::{AllocError, Global};
use wac_types_collection::subtyping::called::{Called, Side};
use wac_types_collection::{ItemKind, ResourceId, Types};

/// Returns what each scope of an item binds.
///
/// # Errors
/// - [`AllocError`] if out of memory.
pub fn bound_in(alloc: Global, types: &Types, scopes: &Scopes) -> Result<Vec<Bound>, AllocError>
    requires { (i : ℕ) → IsHeldAt types.now scopes.now i }
    ensures { IfOk result (λ bound. AreBound types.now scopes.now bound.items) }
{
    let mut bound = Vec::new(alloc);
    for position in 0..scopes.len() {
        bound.push(Bound::of(alloc, types, scopes.scope(position).opener)?)?;
    }
    Ok(bound)
}

/// Returns a copy of a resource's own name.
fn own_name(alloc: Global, types: &Types, resource: ResourceId) -> Result<String, AllocError>
    requires { HasResource types.now resource }
    ensures { IfOk result (λ name. string_bytes name ≡ resource_name types.now resource) }
{
    String::from_str(alloc, types[resource].name.as_str())
}

/// Returns a copy of a path.
fn copied(alloc: Global, path: &[String]) -> Result<Vec<String>, AllocError>
    ensures { IfOk result (λ copy. path_view copy.items ≡ path_view path.now) }
{
    let mut copy = Vec::new(alloc);
    for i in 0..path.len() {
        copy.push(String::from_str(alloc, path[i].as_str())?)?;
    }
    Ok(copy)
}

/// Names a resource by the first class that binds it, else by itself.
fn called_first(
    alloc: Global,
    types: &Types,
    bindings: &Bindings,
    resource: ResourceId,
) -> Result<Called, AllocError>
    requires { HasResource types.now resource }
    ensures { IfOk result (λ x. called_view x ≡ by_first types.now resource (first_in bindings.now resource)) }
{
    let name = own_name(alloc, types, resource)?;
    match bindings.first(resource) {
        Some((number, path)) => Ok(Called::OfClass(number, copied(alloc, path)?, name)),
        None => Ok(Called::Itself(resource, name)),
    }
}

/// Names a resource that no scope of the item binds. `out` is the number of scopes out to the outermost one.
fn past_scopes(
    alloc: Global,
    types: &Types,
    bindings: &Bindings,
    class: usize,
    kind: ItemKind,
    out: usize,
    resource: ResourceId,
) -> Result<Called, AllocError>
    requires { HasResource types.now resource }
    ensures { IfOk result (λ x. called_view x ≡ past types.now resource (is_instance kind) out (path_in bindings.now class resource) (first_in bindings.now resource)) }
{
    let ItemKind::Instance(_) = kind else {
        return called_first(alloc, types, bindings, resource);
    };
    match bindings.path(class, resource) {
        Some(path) => {
            let path = copied(alloc, path)?;
            let name = own_name(alloc, types, resource)?;
            Ok(Called::Bound(out, Side::Exported, path, name))
        }
        None => called_first(alloc, types, bindings, resource),
    }
}

/// The scopes of an item with what naming a resource in them needs.
#[derive(Clone, Copy)]
pub struct BoundScopes<'a> {
    /// The scopes.
    pub scopes: &'a Scopes,
    /// For each scope, what it binds.
    pub bound: &'a [Bound],
    /// For each scope, the next scope on the way out.
    pub outward: &'a [Option<Outward>],
    /// The kind of the item.
    pub kind: ItemKind,
}

/// Names a resource as it is seen from a scope of an entry, where `class` is the number of the entry's class.
///
/// # Errors
/// - [`AllocError`] if out of memory.
pub fn called(
    alloc: Global,
    types: &Types,
    around: &BoundScopes,
    bindings: &Bindings,
    class: usize,
    scope: usize,
    resource: ResourceId,
) -> Result<Called, AllocError>
    requires scopes { AreScopes types.now (opened_by around.now.kind) around.now.scopes.now }
    requires bound { AreBound types.now around.now.scopes.now around.now.bound.now }
    requires outward { AreOutward around.now.scopes.now around.now.bound.now around.now.outward.now }
    requires within { scope < length around.now.scopes.now }
    requires held { HasResource types.now resource }
    ensures { IfOk result (λ x. (es : List classes.Entry) (name : Name) → AreBindings types.now es bindings.now → slice_get (class_names by_names es) class ≡ Some name
        → called_in types.now (called_in_root by_names types.now es name around.now.kind) around.now.scopes.now scope (resolved types.now resource) ≡ Some (called_view x)) }
{
    types.law(); // proof only
    let resource = types.resolve_resource(resource);
    let (bound, outward) = (around.bound, around.outward);
    let mut position = scope;
    let mut out = 0;
    'walk: loop {
        if let Some(place) = bound[position].place(resource) {
            let path = copied(alloc, place.path.as_slice())?;
            let name = own_name(alloc, types, resource)?;
            return Ok(Called::Bound(out, place.side, path, name));
        }
        let Some(next) = outward[position] else {
            return past_scopes(alloc, types, bindings, class, around.kind, out, resource);
        };
        position = next.position;
        out += next.out;
    }
}

/// Names a resource as it is seen outside the scopes of an entry that is no instance.
///
/// # Errors
/// - [`AllocError`] if out of memory.
pub fn called_outside(
    alloc: Global,
    types: &Types,
    bindings: &Bindings,
    resource: ResourceId,
) -> Result<Called, AllocError>
    requires held { HasResource types.now resource }
    ensures { IfOk result (λ x. (es : List classes.Entry) → AreBindings types.now es bindings.now → called_outside by_names types.now es (resolved types.now resource) ≡ Some (called_view x)) }
{
    types.law(); // proof only
    let resource = types.resolve_resource(resource);
    called_first(alloc, types, bindings, resource)
}
