//! How resources are named in a scope of an entry.
ghost use Rattle.std.specs.Prelude.{◌≡◌, Some, Contains, IfOk, slice_get};
ghost use Rattle.wac_types_collection.specs.collection.Collection.{HasResource};
ghost use Rattle.wac_types_collection.specs.collection.Held.{resolved};
ghost use Rattle.wac_types_collection.specs.subtyping.CalledViews.{called_view};
ghost use Rattle.wac_merge_classes.specs.entries.Scopes.{inside};
ghost use Rattle.wac_merge_trees.specs.private.coding.CallsView.{names_in, AreNamed};
ghost use Rattle.wac_merge_trees.specs.private.coding.Listings.{at_scope};

use std::alloc::{AllocError, Global};
use wac_merge_classes::entries::bindings::Bindings;
use wac_merge_classes::entries::bound::Bound;
use wac_merge_classes::entries::entry::Entry;
use wac_merge_classes::entries::naming::{BoundScopes, called, called_outside};
use wac_merge_classes::entries::outward::Outward;
use wac_merge_classes::entries::scopes::{Opener, Scope, Scopes};
use wac_types_collection::subtyping::called::Called;
use wac_types_collection::{ItemKind, ResourceId, Types};

/// How resources are named in a scope of an entry.
#[derive(Clone, Copy)]
pub struct Calls<'a> {
    /// All entries.
    pub entries: &'a [Entry],
    /// What the classes of the entries bind.
    pub bindings: &'a Bindings,
    /// The number of the entry's class.
    pub class: usize,
    /// The kind of the entry.
    pub kind: ItemKind,
    /// The scopes of the entry.
    pub scopes: &'a Scopes,
    /// For each scope, what it binds.
    pub bound: &'a [Bound],
    /// For each scope, the next scope on the way out.
    pub outward: &'a [Option<Outward>],
    /// For each world that was numbered before, the number of its component. It is the same in each scope.
    pub known: &'a [Option<usize>],
    /// The position of the scope; `None` outside the scopes of the entry.
    pub scope: Option<usize>,
}

impl<'a> Calls<'a> {
    /// Returns how a resource is named.
    ///
    /// # Errors
    /// - [`AllocError`] if out of memory.
    pub fn called(
        &self,
        alloc: Global,
        types: &Types,
        resource: ResourceId,
    ) -> Result<Called, AllocError>
        requires held { HasResource types.now resource }
        requires named { AreNamed types.now self.now }
        ensures { IfOk result (λ x. names_in types.now self.now (resolved types.now resource) ≡ Some (called_view x)) }
    {
        match self.scope {
            Some(scope) => {
                let around = BoundScopes {
                    scopes: self.scopes,
                    bound: self.bound,
                    outward: self.outward,
                    kind: self.kind,
                };
                let (bindings, class) = (self.bindings, self.class);
                called(alloc, types, &around, bindings, class, scope, resource)
            }
            None => called_outside(alloc, types, self.bindings, resource),
        }
    }

    /// Returns how resources are named in another scope of the entry.
    pub fn at(&self, scope: usize) -> Calls<'a>
        ensures { result ≡ at_scope self.now scope }
    {
        Calls {
            scope: Some(scope),
            ..*self
        }
    }

    /// Returns the position of a scope directly inside this one.
    pub fn position(&self, opener: Opener) -> usize
        requires { Contains self.now.scopes.now (inside self.now.scope opener) }
        ensures { slice_get self.now.scopes.now result ≡ Some (inside self.now.scope opener) }
    {
        self.scopes.position(Scope {
            opener,
            parent: self.scope,
        })
    }
}
