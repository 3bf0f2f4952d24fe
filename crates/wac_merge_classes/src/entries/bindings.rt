//! The resources that each class binds.
//!
//! An instance whose interface id has the track of the class binds its own resources. A resource type item binds its
//! resource.
ghost use Rattle.std.specs.Prelude.{◌≡◌, ℕ, List, [], true, Some, length, slice_get, IfOk, OnOk};
ghost use Rattle.std.specs.Option.{option_map};
ghost use Rattle.wac_names.specs.Reading.{read_track};
ghost use Rattle.wac_names.specs.Views.{track_view};
ghost use Rattle.wac_types_collection.specs.collection.Collection.{holds_type};
ghost use Rattle.wac_types_shapes.specs.shapes.Kinds.{kind_type};
ghost use Rattle.wac_types_shapes.specs.primitives.Name.{Name};
ghost use Rattle.wac_types_shapes.specs.primitives.Tree.{Leaf};
ghost use Rattle.wac_types_shapes.specs.declared.shapes.component.ItemKind.TheVariants as kind_of;
ghost use Rattle.wac_types_shapes.specs.declared.shapes.component.ResourceId.{ResourceId as AnId};
ghost use Rattle.wac_merge_classes.specs.entries.Bindings.{AreBindings, AreHeld, HaveBound, HaveTracks, first_from, first_in, member_leaves, numbered, path_in};
ghost use Rattle.wac_types_collection.specs.subtyping.CalledViews.{path_view};
ghost use Rattle.wac_merge_classes.specs.entries.Classes.{by_names, class_names, AreClasses};
ghost use Rattle.wac_merge_classes.specs.entries.Places.{Adds, find_resource};

use crate::entries::bound::{Bound, resource_itself};
use crate::entries::classes::Classes;
use crate::entries::entry::Entry;
use indexmap::IndexMap;
use std::alloc::{AllocError, Global};
use std::marker::Model;
use wac_names::tracks::Track;
use wac_types_collection::subtyping::called::Side;
use wac_types_collection::{InterfaceId, ItemKind, ResourceId, Types};

/// Returns the track of each class.
///
/// # Errors
/// - [`AllocError`] if out of memory.
pub fn class_tracks<'a>(
    alloc: Global,
    entries: &'a [Entry],
    classes: &Classes,
) -> Result<Vec<Track<'a>>, AllocError>
    requires { AreClasses by_names entries.now classes.now.numbers.items classes.now.positions.items classes.now.names }
    ensures counted { IfOk result (λ tracks. length tracks.items ≡ length (class_names by_names entries.now)) }
    ensures tracks { IfOk result (λ tracks. HaveTracks entries.now tracks.items) }
{
    let positions = classes.positions();
    let mut tracks = Vec::new(alloc);
    for k in 0..positions.len() {
        tracks.push(Track::new(alloc, entries[positions[k]].name())?)?;
    }
    Ok(tracks)
}

/// Records the own resources of an instance if its interface id has the track of the class.
fn put_instance(
    alloc: Global,
    types: &Types,
    track: &Track<'_>,
    id: InterfaceId,
    bound: &mut Bound,
) -> Result<(), AllocError>
    requires { holds_type types.now (kind_type (kind_of.Instance id)) ≡ true }
    ensures { OnOk result ((class : Name) → track_view track.now ≡ read_track class → Adds bound.old (member_leaves types.now class (kind_of.Instance id)) bound.new) }
{
    types.law(); // proof only
    let it = &types[id];
    let Some(text) = &it.id else {
        return Ok(());
    };
    if Track::new(alloc, text.as_str())? != *track {
        return Ok(());
    }
    bound.put_own(alloc, types, &it.uses, Side::Imported, None, &it.exports)
}

/// Records what a class binds through one of its entries.
fn put_member(
    alloc: Global,
    types: &Types,
    track: &Track<'_>,
    kind: ItemKind,
    bound: &mut Bound,
) -> Result<(), AllocError>
    requires { holds_type types.now (kind_type kind) ≡ true }
    ensures { OnOk result ((class : Name) → track_view track.now ≡ read_track class → Adds bound.old (member_leaves types.now class kind) bound.new) }
{
    if let ItemKind::Instance(id) = kind {
        return put_instance(alloc, types, track, id, bound);
    }
    match resource_itself(types, kind) {
        Some(resource) => bound.put(alloc, resource, Side::Imported, &[]),
        None => Ok(()),
    }
}

/// Returns `count` maps in which nothing is bound.
fn unbound(alloc: Global, count: usize) -> Result<Vec<Bound>, AllocError>
    ensures counted { IfOk result (λ classes. length classes.items ≡ count) }
    ensures empty { IfOk result (λ classes. (k : ℕ) (m : List (AnId × Leaf)) → slice_get classes.items k ≡ Some m → m ≡ []) }
{
    let mut classes = Vec::new(alloc);
    for _ in 0..count {
        classes.push(Bound::new(alloc))?;
    }
    Ok(classes)
}

/// Returns what each class binds.
fn class_bindings(
    alloc: Global,
    types: &Types,
    entries: &[Entry],
    classes: &Classes,
) -> Result<Vec<Bound>, AllocError>
    requires held { AreHeld types.now entries.now }
    requires classes { AreClasses by_names entries.now classes.now.numbers.items classes.now.positions.items classes.now.names }
    ensures counted { IfOk result (λ classes. length classes.items ≡ length (class_names by_names entries.now)) }
    ensures bound { IfOk result (λ classes. HaveBound types.now entries.now entries.now classes.items) }
{
    let tracks = class_tracks(alloc, entries, classes)?;
    let numbers = classes.numbers();
    let mut bound = unbound(alloc, tracks.len())?;
    for i in 0..entries.len() {
        let number = numbers[i];
        let kind = entries[i].kind();
        put_member(alloc, types, &tracks[number], kind, &mut bound[number])?;
    }
    Ok(bound)
}

/// Records the number of a class for each of its resources that has no number yet.
fn put_numbers(
    firsts: &mut IndexMap<ResourceId, usize>,
    bound: &Bound,
    number: usize,
) -> Result<(), AllocError>
    ensures { OnOk result (Adds firsts.old.entries (numbered number bound.now) firsts.new.entries) }
{
    for i in 0..bound.len() {
        let resource = bound.resource_at(i);
        if !firsts.contains_key(&resource) {
            firsts.insert(resource, number)?;
        }
    }
    Ok(())
}

/// Returns the number of the first class that binds each resource.
fn first_classes(
    alloc: Global,
    classes: &[Bound],
) -> Result<IndexMap<ResourceId, usize>, AllocError>
    ensures { IfOk result (λ firsts. (r : AnId) → find_resource firsts.entries r ≡ first_from 0 classes.now r) }
{
    let mut firsts = IndexMap::new(alloc);
    for k in 0..classes.len() {
        put_numbers(&mut firsts, &classes[k], k)?;
    }
    Ok(firsts)
}

/// The resources that each class binds, and the first class that binds each resource.
pub struct Bindings {
    /// For each class, what it binds.
    classes: Vec<Bound>,
    /// For each resource, the number of the first class that binds it.
    firsts: IndexMap<ResourceId, usize>,
}

// By hand: a derived `Drop` is proved again wherever one goes out of scope (docs/PROOFS.md, 'Drop').
impl Drop for Bindings {
    fn drop(self) {
        let Bindings {
            classes: _,
            firsts: _,
        } = self;
    }
}

impl Model for Bindings {
    ghost use Rattle.wac_merge_classes.specs.entries.Bindings.{ClassBindings};

    ghost Value = { ClassBindings };

    ghost view = { λ b. record { classes = b.classes.items; firsts = b.firsts.entries } };
}

impl Bindings {
    /// Finds what the classes of these entries bind.
    ///
    /// # Errors
    /// - [`AllocError`] if out of memory.
    pub fn new(
        alloc: Global,
        types: &Types,
        entries: &[Entry],
        classes: &Classes,
    ) -> Result<Bindings, AllocError>
        requires held { AreHeld types.now entries.now }
        requires classes { AreClasses by_names entries.now classes.now.numbers.items classes.now.positions.items classes.now.names }
        ensures { IfOk result (λ b. AreBindings types.now entries.now b) }
    {
        let classes = class_bindings(alloc, types, entries, classes)?;
        let firsts = first_classes(alloc, classes.as_slice())?;
        Ok(Bindings { classes, firsts })
    }

    /// Returns the path under which a class binds a resource.
    pub fn path(&self, class: usize, resource: ResourceId) -> Option<&[String]>
        ensures { option_map (λ p. path_view p.now) result ≡ path_in self.now class resource }
    {
        let place = self.classes.get(class)?.place(resource)?;
        Some(place.path.as_slice())
    }

    /// Returns the number of the first class that binds a resource, and its path there.
    pub fn first(&self, resource: ResourceId) -> Option<(usize, &[String])>
        ensures { option_map (λ p. (p.0, path_view p.1.now)) result ≡ first_in self.now resource }
    {
        let class = *self.firsts.get(&resource)?;
        let path = self.path(class, resource)?;
        Some((class, path))
    }
}
