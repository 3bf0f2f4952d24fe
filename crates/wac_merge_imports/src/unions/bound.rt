//! The names under which classes bind resources.
ghost use Rattle.std.specs.Prelude.{ℕ, ◌≡◌, ◌↔◌, [], ◌∷◌, Some, length, slice_get, true, IfOk, OnOk};
ghost use Rattle.wac_types_collection.specs.collection.Bound.{same_path};
ghost use Rattle.wac_types_collection.specs.collection.Collection.{holds_type};
ghost use Rattle.wac_types_shapes.specs.primitives.Tree.{named};
ghost use Rattle.wac_types_shapes.specs.shapes.Kinds.{kind_type};
ghost use Rattle.wac_merge_classes.specs.entries.Bindings.{AreBindings, AreHeld};
ghost use Rattle.wac_types_collection.specs.subtyping.CalledViews.{path_view};
ghost use Rattle.wac_merge_classes.specs.entries.Classes.{AreClasses, by_names};
ghost use Rattle.wac_merge_imports.specs.private.unions.BoundNames.{AddsNames, AreBoundNames, ItemBinds, NameSet, instance_exports, is_bound_name};

use std::alloc::{AllocError, Global};
use std::marker::Model;
use wac_merge_classes::entries::bindings::Bindings;
use wac_merge_classes::entries::classes::Classes;
use wac_merge_classes::entries::entry::Entry;
use wac_types_collection::{ItemKind, Named, ShapeError, Type, Types};

/// Returns whether a path is a single name, and this one.
fn is_alone(path: &[String], name: &str) -> bool
    ensures { result ≡ same_path (path_view path.now) (named name.now ∷ []) }
{
    match path {
        [only] => only.as_str() == name,
        _ => false,
    }
}

/// Returns whether an item is a resource that the class with this number binds under a name.
fn item_binds(bindings: &Bindings, number: usize, kind: ItemKind, name: &str) -> bool
    ensures { (result ≡ true) ↔ ItemBinds bindings.now number name.now kind }
{
    let ItemKind::TypeItem(item) = kind else {
        return false;
    };
    let Type::Resource(resource) = item else {
        return false;
    };
    match bindings.path(number, resource) {
        Some(path) => is_alone(path, name),
        None => false,
    }
}

/// Adds the name of an item if the item is a resource that the class with this number binds under the name.
fn put_name(
    alloc: Global,
    bindings: &Bindings,
    number: usize,
    name: &str,
    kind: ItemKind,
    names: &mut Named<()>,
) -> Result<(), AllocError>
    ensures { OnOk result (AddsNames bindings.now number ((name.now, kind) ∷ []) names.old names.new) }
{
    if !item_binds(bindings, number, kind, name) {
        return Ok(());
    }
    match names.insert(alloc, name, ()) {
        Ok(()) => Ok(()),
        Err(ShapeError::NameTwice) => Ok(()),
        Err(ShapeError::OutOfMemory) => Err(AllocError),
    }
}

/// Adds the names of such items among these.
fn put_names(
    alloc: Global,
    bindings: &Bindings,
    number: usize,
    items: &Named<ItemKind>,
    names: &mut Named<()>,
) -> Result<(), AllocError>
    ensures { OnOk result (AddsNames bindings.now number items.now names.old names.new) }
{
    for i in 0..items.len() {
        let (name, item) = items.entry_at(i);
        put_name(alloc, bindings, number, name, *item, names)?;
    }
    Ok(())
}

/// Adds the names of such items that an instance exports.
fn put_member(
    alloc: Global,
    types: &Types,
    bindings: &Bindings,
    number: usize,
    kind: ItemKind,
    names: &mut Named<()>,
) -> Result<(), AllocError>
    requires { holds_type types.now (kind_type kind) ≡ true }
    ensures { OnOk result (AddsNames bindings.now number (instance_exports types.now kind) names.old names.new) }
{
    let ItemKind::Instance(id) = kind else {
        return Ok(());
    };
    put_names(alloc, bindings, number, &types[id].exports, names)
}

/// Returns an empty set for each of `count` classes.
fn no_names(alloc: Global, count: usize) -> Result<Vec<Named<()>>, AllocError>
    ensures counted { IfOk result (λ all. length all.items ≡ count) }
    ensures empty { IfOk result (λ all. (k : ℕ) (ns : NameSet) → slice_get all.items k ≡ Some ns → ns ≡ []) }
{
    let mut all = Vec::new(alloc);
    for _ in 0..count {
        all.push(Named::new(alloc))?;
    }
    Ok(all)
}

/// For each class, the names under which it binds a resource.
pub struct BoundNames {
    classes: Vec<Named<()>>,
}

// By hand: a derived `Drop` is proved again wherever one goes out of scope (docs/PROOFS.md, 'Drop').
impl Drop for BoundNames {
    fn drop(self) {
        let BoundNames { classes: _ } = self;
    }
}

impl Model for BoundNames {
    ghost use Rattle.std.specs.Prelude.{List};
    ghost use Rattle.wac_merge_imports.specs.private.unions.BoundNames.{NameSet};

    ghost Value = { List NameSet };

    ghost view = { λ b. b.classes.items };
}

impl BoundNames {
    /// Finds the names under which the classes of these entries bind resources.
    ///
    /// # Errors
    /// - [`AllocError`] if out of memory.
    pub fn new(
        alloc: Global,
        types: &Types,
        entries: &[Entry],
        classes: &Classes,
        bindings: &Bindings,
    ) -> Result<BoundNames, AllocError>
        requires held { AreHeld types.now entries.now }
        requires classes { AreClasses by_names entries.now classes.now.numbers.items classes.now.positions.items classes.now.names }
        requires bindings { AreBindings types.now entries.now bindings.now }
        ensures { IfOk result (λ names. AreBoundNames types.now entries.now names) }
    {
        let numbers = classes.numbers();
        let mut names = no_names(alloc, classes.positions().len())?;
        for i in 0..entries.len() {
            let number = numbers[i];
            let kind = entries[i].kind();
            put_member(alloc, types, bindings, number, kind, &mut names[number])?;
        }
        Ok(BoundNames { classes: names })
    }

    /// Returns whether the class with this number binds a resource under a name.
    pub fn contains(&self, number: usize, name: &str) -> bool
        ensures { result ≡ is_bound_name self.now number name.now }
    {
        match self.classes.get(number) {
            Some(names) => names.get(name).is_some(),
            None => false,
        }
    }
}
