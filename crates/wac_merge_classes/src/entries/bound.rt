//! The resources that one scope binds.
ghost use Rattle.std.specs.Prelude.{◌≡◌, ◌<◌, [], true, Some, length, slice_get, IfOk, OnOk};
ghost use Rattle.std.specs.Option.{option_copied, option_map};
ghost use Rattle.wac_types_collection.specs.collection.Bound.{first_bound};
ghost use Rattle.wac_types_collection.specs.collection.Collection.{holds_all, holds_type, kind_types};
ghost use Rattle.wac_types_shapes.specs.shapes.Kinds.{kind_type};
ghost use Rattle.wac_types_shapes.specs.declared.shapes.component.ResourceId.{ResourceId as AnId};
ghost use Rattle.wac_types_collection.specs.subtyping.CalledViews.{path_view, side_view};
ghost use Rattle.wac_merge_classes.specs.entries.Places.{Adds, bound_by_instance, find_resource, given_path, leaf_at, only, own_at, own_resource, place_view, resource_itself, under};
ghost use Rattle.wac_merge_classes.specs.entries.Scopes.{binds, opener_type};

use crate::entries::scopes::Opener;
use indexmap::IndexMap;
use std::alloc::{AllocError, Global};
use std::marker::Model;
use wac_types_collection::subtyping::called::Side;
use wac_types_collection::{ItemKind, Named, ResourceId, Type, Types, UsedType};

/// Where a scope binds a resource: a side and a path of names.
pub struct Place {
    /// The side.
    pub side: Side,
    /// The names, outermost first.
    pub path: Vec<String>,
}

// By hand: a derived `Drop` is proved again wherever one goes out of scope (docs/PROOFS.md, 'Drop').
impl Drop for Place {
    fn drop(self) {
        let Place { side: _, path: _ } = self;
    }
}

/// Returns a path that owns copies of these names.
fn owned_path(alloc: Global, names: &[&str]) -> Result<Vec<String>, AllocError>
    ensures { IfOk result (λ path. path_view path.items ≡ given_path names.now) }
{
    let mut path = Vec::new(alloc);
    for i in 0..names.len() {
        path.push(String::from_str(alloc, names[i])?)?;
    }
    Ok(path)
}

/// Returns the resource of a type item. `None` if the item is an alias of a resource or no resource.
pub fn resource_itself(types: &Types, kind: ItemKind) -> Option<ResourceId>
    requires { holds_type types.now (kind_type kind) ≡ true }
    ensures { result ≡ resource_itself types.now kind }
{
    let ItemKind::TypeItem(Type::Resource(id)) = kind else {
        return None;
    };
    if types[id].alias.is_some() {
        return None;
    }
    Some(id)
}

/// Returns the own resource of an interface or world under a name: a type item without alias that `uses` does not name.
pub fn own_resource(
    types: &Types,
    uses: &Named<UsedType>,
    name: &str,
    kind: ItemKind,
) -> Option<ResourceId>
    requires { holds_type types.now (kind_type kind) ≡ true }
    ensures { result ≡ own_resource types.now uses.now (name.now, kind) }
{
    let id = resource_itself(types, kind)?;
    if uses.get(name).is_some() {
        return None;
    }
    Some(id)
}

/// The resources that a scope binds, and the place of each.
///
/// A resource keeps the place that was recorded first. Calls that record places fail only if out of memory.
pub struct Bound {
    places: IndexMap<ResourceId, Place>,
}

// By hand: a derived `Drop` is proved again wherever one goes out of scope (docs/PROOFS.md, 'Drop').
impl Drop for Bound {
    fn drop(self) {
        let Bound { places: _ } = self;
    }
}

impl Model for Bound {
    ghost use Rattle.std.specs.Prelude.{List};
    ghost use Rattle.wac_types_shapes.specs.primitives.Tree.{Leaf};
    ghost use Rattle.wac_types_shapes.specs.declared.shapes.component.ResourceId.{ResourceId};
    ghost use Rattle.wac_merge_classes.specs.entries.Places.{leaves};

    ghost Value = { List (ResourceId × Leaf) };

    ghost view = { λ b. leaves b.places.entries };
}

impl Bound {
    /// Creates a map in which nothing is bound.
    pub fn new(alloc: Global) -> Bound
        ensures { result ≡ [] }
    {
        Bound {
            places: IndexMap::new(alloc),
        }
    }

    /// Returns what a scope binds.
    ///
    /// # Errors
    /// - [`AllocError`] if out of memory.
    pub fn of(alloc: Global, types: &Types, opener: Opener) -> Result<Bound, AllocError>
        requires { holds_type types.now (opener_type opener) ≡ true }
        ensures { IfOk result (λ b. (r : AnId) → find_resource b r ≡ binds types.now opener r) }
    {
        types.law(); // proof only
        let mut bound = Bound::new(alloc);
        match opener {
            Opener::Interface(id) => {
                let it = &types[id];
                bound.put_own(alloc, types, &it.uses, Side::Exported, None, &it.exports)?;
            }
            Opener::Imports(id) => {
                let world = &types[id];
                bound.put_listed(alloc, types, &world.uses, Side::Imported, &world.imports)?;
            }
            Opener::Exports(id) => {
                let world = &types[id];
                bound.put_listed(alloc, types, &world.uses, Side::Imported, &world.imports)?;
                bound.put_listed(alloc, types, &world.uses, Side::Exported, &world.exports)?;
            }
        }
        Ok(bound)
    }

    /// Returns where a resource is bound.
    pub fn place(&self, resource: ResourceId) -> Option<&Place>
        ensures { option_map (λ p. place_view p.now) result ≡ find_resource self.now resource }
    {
        self.places.get(&resource)
    }

    /// The number of bound resources.
    pub fn len(&self) -> usize
        ensures { result ≡ length self.now }
    {
        self.places.len()
    }

    /// Returns the resource at a position, in the order in which places were recorded.
    pub fn resource_at(&self, index: usize) -> ResourceId
        requires { index < length self.now }
        ensures { option_map (λ e. e.0) (slice_get self.now index) ≡ Some result }
    {
        let (resource, _) = self.places.get_index(index).unwrap();
        *resource
    }

    /// Records the place of a resource, unless it has one.
    ///
    /// # Errors
    /// - [`AllocError`] if out of memory.
    ///
    /// On an error the map is unchanged.
    pub fn put(
        &mut self,
        alloc: Global,
        resource: ResourceId,
        side: Side,
        path: &[&str],
    ) -> Result<(), AllocError>
        ensures { OnOk result (Adds self.old (only resource (leaf_at (side_view side) (given_path path.now))) self.new) }
    {
        if self.places.contains_key(&resource) {
            return Ok(());
        }
        let path = owned_path(alloc, path)?;
        match self.places.insert(resource, Place { side, path }) {
            Ok(_) => Ok(()),
            Err(_) => Err(AllocError),
        }
    }

    /// Records the place of a resource whose path is `name`, or `outer` and `name`.
    fn put_under(
        &mut self,
        alloc: Global,
        resource: ResourceId,
        side: Side,
        outer: Option<&str>,
        name: &str,
    ) -> Result<(), AllocError>
        ensures { OnOk result (Adds self.old (only resource (leaf_at (side_view side) (under (option_copied outer.entry) name.now))) self.new) }
    {
        match outer {
            Some(outer) => self.put(alloc, resource, side, &[outer, name]),
            None => self.put(alloc, resource, side, &[name]),
        }
    }

    /// Records the own resources among the items of an interface, or of one side of a world.
    ///
    /// Each path is the item's name, after `outer` if that is given. On an error some of the places may be recorded.
    ///
    /// # Errors
    /// - [`AllocError`] if out of memory.
    pub fn put_own(
        &mut self,
        alloc: Global,
        types: &Types,
        uses: &Named<UsedType>,
        side: Side,
        outer: Option<&str>,
        listed: &Named<ItemKind>,
    ) -> Result<(), AllocError>
        requires { holds_all types.now (kind_types listed.now) ≡ true }
        ensures { OnOk result (Adds self.old (own_at types.now uses.now (side_view side) (option_copied outer.entry) listed.now) self.new) }
    {
        if types.holds_no_resource() {
            return Ok(());
        }
        for i in 0..listed.len() {
            let name = listed.name_at(i);
            if let Some(resource) = own_resource(types, uses, name, *listed.value_at(i)) {
                self.put_under(alloc, resource, side, outer, name)?;
            }
        }
        Ok(())
    }

    /// Records the own resources of an instance whose name is the id of its interface.
    fn put_instance(
        &mut self,
        alloc: Global,
        types: &Types,
        side: Side,
        name: &str,
        kind: ItemKind,
    ) -> Result<(), AllocError>
        requires { holds_type types.now (kind_type kind) ≡ true }
        ensures { OnOk result (Adds self.old (bound_by_instance types.now (side_view side) (name.now, kind)) self.new) }
    {
        let ItemKind::Instance(id) = kind else {
            return Ok(());
        };
        types.law(); // proof only
        let it = &types[id];
        match &it.id {
            Some(text) if text.as_str() == name => {
                self.put_own(alloc, types, &it.uses, side, Some(name), &it.exports)
            }
            _ => Ok(()),
        }
    }

    /// Records what one side of a world binds: the own resources of its instances, then its own type items.
    fn put_listed(
        &mut self,
        alloc: Global,
        types: &Types,
        uses: &Named<UsedType>,
        side: Side,
        listed: &Named<ItemKind>,
    ) -> Result<(), AllocError>
        requires { holds_all types.now (kind_types listed.now) ≡ true }
        ensures { OnOk result (Adds self.old (first_bound types.now uses.now (side_view side) listed.now) self.new) }
    {
        for i in 0..listed.len() {
            self.put_instance(alloc, types, side, listed.name_at(i), *listed.value_at(i))?;
        }
        self.put_own(alloc, types, uses, side, None, listed)
    }
}
