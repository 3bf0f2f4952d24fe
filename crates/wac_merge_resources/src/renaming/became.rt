//! The resource of the merged collection that each resource becomes.
ghost use Rattle.std.specs.Prelude.{◌≡◌, ℕ, IfOk, Some, length, slice_get};
ghost use Rattle.wac_types_collection.specs.collection.Collection.{HasInterface};
ghost use Rattle.wac_types_collection.specs.collection.Held.{resolved};
ghost use Rattle.wac_merge_resources.specs.private.renaming.Ways.{AreOutward};
ghost use Rattle.wac_merge_classes.specs.terms.Became.{AreBoundParts, became, became_in_class, became_outside};
ghost use Rattle.wac_merge_classes.specs.terms.Unions.{AreAround, IsPart};
ghost use Rattle.wac_merge_classes.specs.declared.terms.parts.Part.{Part as APart};

use crate::values::named::NamedTypes;
use std::alloc::{AllocError, Global};
use wac_merge_classes::entries::bindings::Bindings;
use wac_merge_classes::entries::bound::Bound;
use wac_merge_classes::entries::scopes::Opener;
use wac_merge_classes::terms::fresh::Fresh;
use wac_merge_classes::terms::parts::Part;
use wac_types_collection::{ResourceId, Types};

/// Returns what the interface of each part binds.
///
/// # Errors
/// - [`AllocError`] if out of memory.
pub fn part_bounds(alloc: Global, types: &Types, parts: &[Part]) -> Result<Vec<Bound>, AllocError>
    requires { (p : ℕ) (x : APart) → slice_get parts.now p ≡ Some x → HasInterface types.now x.interface }
    ensures bound { IfOk result (λ b. AreBoundParts types.now parts.now b.items) }
    ensures counted { IfOk result (λ b. length b.items ≡ length parts.now) }
{
    let mut bounds = Vec::new(alloc);
    for p in 0..parts.len() {
        bounds.push(Bound::of(alloc, types, Opener::Interface(parts[p].interface))?)?;
    }
    Ok(bounds)
}

/// What types are rewritten by: the parts, the bindings, the new resources and the named types.
#[derive(Clone, Copy)]
pub struct Became<'a> {
    /// The parts of all unions.
    pub parts: &'a [Part],
    /// What the interface of each part binds.
    pub bound: &'a [Bound],
    /// For each part, the next enclosing part to search.
    pub outward: &'a [Option<usize>],
    /// What the classes bind.
    pub bindings: &'a Bindings,
    /// The new resources.
    pub fresh: &'a Fresh,
    /// Which definitions are one named type.
    pub named: &'a NamedTypes,
}

impl<'a> Became<'a> {
    /// Returns what a resource becomes outside all parts. The resource must not be an alias.
    fn outside(&self, resource: ResourceId) -> ResourceId
        ensures { result ≡ became_outside self.now.bindings.now self.now.fresh.now resource }
    {
        match self.bindings.first(resource) {
            Some((class, path)) => self.fresh.at(class, path).unwrap_or(resource),
            None => resource,
        }
    }

    /// Returns what a resource becomes in a class, outside its parts. The resource must not be an alias.
    fn in_class(&self, class: usize, resource: ResourceId) -> ResourceId
        ensures { result ≡ became_in_class self.now.bindings.now self.now.fresh.now class resource }
    {
        match self.bindings.path(class, resource) {
            Some(path) => self.fresh.at(class, path).unwrap_or(resource),
            None => self.outside(resource),
        }
    }

    /// Returns what a resource becomes in a part, or outside all parts if `part` is `None`.
    ///
    /// The innermost part that has it as its own resource decides, else the class, else the first class that binds it.
    /// A resource that nothing binds stays itself.
    pub fn resource(&self, types: &Types, part: Option<usize>, resource: ResourceId) -> ResourceId
        requires bound { AreBoundParts types.now self.now.parts.now self.now.bound.now }
        requires outward { AreOutward self.now.parts.now self.now.bound.now self.now.outward.now }
        requires around { AreAround self.now.parts.now }
        requires within { IsPart self.now.parts.now part }
        ensures { result ≡ became types.now self.now.parts.now self.now.bindings.now self.now.fresh.now part (resolved types.now resource) }
    {
        let resource = types.resolve_resource(resource);
        let Some(start) = part else {
            return self.outside(resource);
        };
        let mut position = start;
        'outward: loop {
            let union = self.parts[position].union;
            if let Some(place) = self.bound[position].place(resource) {
                let path = place.path.as_slice();
                return self.fresh.at(union, path).unwrap_or(resource);
            }
            let Some(outer) = self.outward[position] else {
                return self.in_class(union, resource);
            };
            position = outer;
        }
    }
}
