//! The new resources of a merged collection.
ghost use Rattle.std.specs.Prelude.{◌≡◌};
ghost use Rattle.wac_types_collection.specs.subtyping.CalledViews.{path_view};
ghost use Rattle.wac_merge_classes.specs.terms.Became.{new_at, own_in, whole_in};

use wac_types_collection::{Named, ResourceId};

/// The new resources of a merged collection.
///
/// A union has one for each name under which it exports an own resource. A class of resource imports has one for the
/// class.
pub struct Fresh {
    /// For each union, its new resources by name.
    pub own: Vec<Named<ResourceId>>,
    /// For each class, its new resource if the class is a resource that it is the first to bind.
    pub whole: Vec<Option<ResourceId>>,
}

// By hand: a derived `Drop` is proved again wherever one goes out of scope (docs/PROOFS.md, 'Drop').
impl Drop for Fresh {
    fn drop(self) {
        let Fresh { own: _, whole: _ } = self;
    }
}

impl Fresh {
    /// Returns the new resource of a class of resource imports.
    pub fn whole(&self, class: usize) -> Option<ResourceId>
        ensures { result ≡ whole_in self.now class }
    {
        self.whole.get(class).copied()?
    }

    /// Returns the new resource that a class, or its union, binds under a path.
    pub fn at(&self, number: usize, path: &[String]) -> Option<ResourceId>
        ensures { result ≡ new_at self.now number (path_view path.now) }
    {
        match path {
            [] => self.whole(number),
            [name] => self.own_in(number, name.as_str()),
            _ => None,
        }
    }

    /// Returns the new resource that a union binds under a name.
    pub fn own_in(&self, union: usize, name: &str) -> Option<ResourceId>
        ensures { result ≡ own_in self.now union name.now }
    {
        self.own.get(union)?.get(name).copied()
    }
}
